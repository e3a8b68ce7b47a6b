// The packets of a delta row, as kinds 7 (SS2) and 12 (LC) have them: document 01, "Frames, chunks and rows".
// UNIT: how many pixels a packet counts as one, 1 in LC and 2 in SS2.
#![tactic(auto)]

ghost use Rattle.std.specs.Prelude.{◌≡◌, [], ◌∷◌, ◌+◌, ◌*◌, ◌≤◌, length, take, drop};
ghost use Rattle.words.specs.Words.{magnitude};
ghost use Rattle.words.specs.Writes.{put, applied};
ghost use Rattle.format.specs.Limits.{Wide, High};
ghost use Rattle.walk.specs.Walk.{wrote, Room};
ghost use Rattle.read_packets.specs.Packets.{repeated, data_bytes, pixels, packet_at, packets};
ghost use Rattle.read_packets.specs.Pair.{one_pair, pair_at};

use answer::Refusal;

// A packet: its type, the column where its pixels go, the column after them and the offset after its data.
#[derive(Clone, Copy)]
pub struct Packet {
    pub code: u8,
    pub x: usize,
    pub next: usize,
    pub end: usize,
}

// The packet at offset at, the row being at column x. A repeat and a copy have each their own tests: what the processor foresees of
// the type tells it where a repeat ends.
#[tactic(auto, using(crate::proofs::Laws::units_small))]
fn packet_at<const UNIT: usize>(
    body: &[u8],
    at: usize,
    x: usize,
    width: usize,
) -> Result<Packet, Refusal>
    requires { (at ≤ length body.now) × Wide x × (1 ≤ UNIT) × (UNIT ≤ 2) }
    ensures { result ≡ packet_at UNIT width body.now at x }
{
    if body.len() - at < 2 {
        return Err(Refusal::BodyEnds);
    }
    let start = x + usize::from(body[at]);
    let code = body[at + 1];
    if code >= 128 {
        let n = 256 - usize::from(code);
        let next = start + UNIT * n;
        if width < next {
            return Err(Refusal::PastWidth);
        }
        if body.len() - at - 2 < UNIT {
            return Err(Refusal::BodyEnds);
        }
        return Ok(Packet {
            code,
            x: start,
            next,
            end: at + 2 + UNIT,
        });
    }
    let len = UNIT * usize::from(code);
    if width < start + len {
        return Err(Refusal::PastWidth);
    }
    if body.len() - at - 2 < len {
        return Err(Refusal::BodyEnds);
    }
    Ok(Packet {
        code,
        x: start,
        next: start + len,
        end: at + 2 + len,
    })
}

// Whether a packet of this type copies one pair.
#[tactic(auto, unfolding(crate::specs::Pair::one_pair))]
fn one_pair<const UNIT: usize>(code: u8) -> bool
    ensures { result ≡ one_pair UNIT code }
{
    UNIT == 2 && code == 1
}

// Whether the packet at offset at copies one pair, whole and within the row, which is at column x. Most packets of a dense delta do,
// and where such a packet ends is known before its bytes are there.
#[tactic(auto, unfolding(crate::specs::Pair::pair_at))]
fn pair_at<const UNIT: usize>(body: &[u8], at: usize, x: usize, width: usize) -> bool
    requires { (at ≤ length body.now) × Wide x }
    ensures { result ≡ pair_at UNIT width body.now at x }
{
    4 <= body.len() - at && one_pair::<UNIT>(body[at + 1]) && x + usize::from(body[at]) + 2 <= width
}

// Sets two to four pairs to p and q: the first two and the last two, each as one word. n stands beside part, here and below: who
// calls has counted the pairs, and part.len() / 2 would count them again.
fn fill_few_pairs(part: &mut [u8], n: usize, p: u8, q: u8)
    requires { (length part.old ≡ 2 * n) × (2 ≤ n) × (n ≤ 4) }
    ensures { part.new ≡ repeated n (p ∷ q ∷ []) }
{
    let pair = usize::from(p) + 256 * usize::from(q);
    let two = pair + 65536 * pair;
    words::put_u32(part, 0, two);
    words::put_u32(part, 2 * n - 4, two);
}

// Sets each of the n pairs of part to p and q. A few, as most repeats have, go without the loop, which is compiled for many.
#[tactic(auto, using(crate::proofs::Laws::repeated_pair), unfolding(crate::specs::Packets::repeated))]
fn fill_pairs(part: &mut [u8], n: usize, p: u8, q: u8)
    requires { length part.old ≡ 2 * n }
    ensures { part.new ≡ repeated n (p ∷ q ∷ []) }
{
    if 2 <= n && n <= 4 {
        fill_few_pairs(part, n, p, q);
        return;
    }
    for i in 0..n {
        part[2 * i] = p;
        part[2 * i + 1] = q;
    }
}

// Fills part with n times the pixel or pair value.
#[tactic(auto, using(crate::proofs::Laws::repeated_pixel, crate::proofs::Laws::repeated_double))]
fn repeat(part: &mut [u8], value: &[u8], n: usize)
    requires { (1 ≤ length value.now) × (length value.now ≤ 2) × (length part.old ≡ length value.now * n) }
    ensures { part.new ≡ repeated n value.now }
{
    if value.len() == 1 {
        words::fill(part, value[0]);
    } else {
        fill_pairs(part, n, value[0], value[1]);
    }
}

// Stores the pair at offset at of the body from index to on.
fn put_pair(picture: &mut [u8], body: &[u8], at: usize, to: usize)
    requires { (at + 2 ≤ length body.now) × (to + 2 ≤ length picture.old) }
    ensures { picture.new ≡ put picture.old to (take 2 (drop at body.now)) }
{
    let first = body[at];
    let second = body[at + 1];
    picture[to] = first;
    picture[to + 1] = second;
}

// Stores the pixels of a packet of this type, whose data is at offset at, from index to on.
#[tactic(auto, using(crate::proofs::Laws::units_small))]
fn put_pixels<const UNIT: usize>(picture: &mut [u8], body: &[u8], code: u8, at: usize, to: usize)
    requires { (at + data_bytes UNIT code ≤ length body.now)
        × (to + UNIT * magnitude code ≤ length picture.old)
        × (1 ≤ UNIT) × (UNIT ≤ 2) }
    ensures { picture.new ≡ put picture.old to (pixels UNIT body.now at code) }
{
    if code < 128 {
        let len = UNIT * usize::from(code);
        let stop = to + len;
        let end = at + len;
        words::copy(&mut picture[to..stop], &body[at..end]);
        return;
    }
    let n = 256 - usize::from(code);
    let stop = to + UNIT * n;
    let end = at + UNIT;
    repeat(&mut picture[to..stop], &body[at..end], n);
}

// Checks count packets from offset from on. A loop of its own, without a picture, is compiled into that of the lines: one loop for
// both passes, told by a flag, was slower (docs/BENCH.md).
fn check_packets<const UNIT: usize>(
    body: &[u8],
    count: usize,
    from: usize,
    width: usize,
) -> walk::Verdict
    requires { (from ≤ length body.now) × Wide width × (1 ≤ UNIT) × (UNIT ≤ 2) }
    ensures { result ≡ (packets UNIT width body.now count 0 from 0).verdict }
{
    let mut at = from;
    let mut x = 0;
    for _ in 0..count {
        if pair_at::<UNIT>(body, at, x, width) {
            x = x + usize::from(body[at]) + 2;
            at += 4;
        } else {
            let packet = packet_at::<UNIT>(body, at, x, width)?;
            x = packet.next;
            at = packet.end;
        }
    }
    Ok(at)
}

// Does the writes of count packets from offset from on, of row row of the picture, up to the first fault.
fn put_packets<const UNIT: usize>(
    picture: &mut [u8],
    body: &[u8],
    count: usize,
    from: usize,
    width: usize,
    row: usize,
) -> walk::Verdict
    requires { (from ≤ length body.now) × Wide width × High row × (1 ≤ UNIT) × (UNIT ≤ 2)
        × (row * width + width ≤ length picture.old) }
    ensures verdict { result ≡ (packets UNIT width body.now count row from 0).verdict }
    ensures writes { picture.new ≡ applied (packets UNIT width body.now count row from 0).writes picture.old }
{
    let place = row * width;
    let mut at = from;
    let mut x = 0;
    for _ in 0..count {
        if pair_at::<UNIT>(body, at, x, width) {
            let to = x + usize::from(body[at]);
            put_pair(picture, body, at + 2, place + to);
            x = to + 2;
            at += 4;
        } else {
            let packet = packet_at::<UNIT>(body, at, x, width)?;
            put_pixels::<UNIT>(picture, body, packet.code, at + 2, place + packet.x);
            x = packet.next;
            at = packet.end;
        }
    }
    Ok(at)
}

// Walks over count packets from offset from on, of row row of the picture.
pub fn walk_packets<const UNIT: usize>(
    picture: &mut [u8],
    body: &[u8],
    count: usize,
    from: usize,
    width: usize,
    row: usize,
    pass: walk::Pass,
) -> walk::Verdict
    requires { (from ≤ length body.now) × Wide width × High row × (1 ≤ UNIT) × (UNIT ≤ 2)
        × Room pass (row * width + width) picture.old }
    ensures verdict { result ≡ (packets UNIT width body.now count row from 0).verdict }
    ensures writes { picture.new ≡ wrote pass (packets UNIT width body.now count row from 0).writes picture.old }
{
    match pass {
        walk::Pass::Dry => check_packets::<UNIT>(body, count, from, width),
        walk::Pass::Wet => put_packets::<UNIT>(picture, body, count, from, width, row),
    }
}
