// Reading kind 15, BRUN: document 01, "Frames, chunks and rows".
#![tactic(auto)]

ghost use Rattle.std.specs.Prelude.{◌≡◌, ◌+◌, ◌*◌, ◌≤◌, length};
ghost use Rattle.words.specs.Words.{magnitude};
ghost use Rattle.words.specs.Writes.{put};
ghost use Rattle.format.specs.Limits.{Wide, max_area, Sized};
ghost use Rattle.walk.specs.Walk.{stored, wrote, Room};
ghost use Rattle.read_brun.specs.Brun.{data_bytes, pixels, packet_at, row, brun};

use answer::Refusal;
use walk::{Pass, Verdict};

// A packet: its type, how many pixels it gives and the offset after its data.
#[derive(Clone, Copy)]
pub struct Packet {
    pub code: u8,
    pub count: usize,
    pub end: usize,
}

// The packet at offset at, where left columns are left. A copy and a repeat have each their own tests: what the processor foresees
// of the type tells it where a repeat ends.
fn packet_at(body: &[u8], at: usize, left: usize) -> Result<Packet, Refusal>
    requires { at ≤ length body.now }
    ensures { result ≡ packet_at body.now at left }
{
    if body.len() - at < 1 {
        return Err(Refusal::BodyEnds);
    }
    let code = body[at];
    if code >= 128 {
        let len = 256 - usize::from(code);
        if left < len {
            return Err(Refusal::PastWidth);
        }
        if body.len() - at - 1 < len {
            return Err(Refusal::BodyEnds);
        }
        return Ok(Packet {
            code,
            count: len,
            end: at + 1 + len,
        });
    }
    let count = usize::from(code);
    if count < 1 {
        return Err(Refusal::ZeroCount);
    }
    if left < count {
        return Err(Refusal::PastWidth);
    }
    if body.len() - at < 2 {
        return Err(Refusal::BodyEnds);
    }
    Ok(Packet {
        code,
        count,
        end: at + 2,
    })
}

// Stores the pixels of a packet of this type, whose data is at offset at, from index to on.
fn put_pixels(picture: &mut [u8], body: &[u8], code: u8, at: usize, to: usize)
    requires { (at + data_bytes code ≤ length body.now) × (to + magnitude code ≤ length picture.old) }
    ensures { picture.new ≡ put picture.old to (pixels body.now at code) }
{
    if code < 128 {
        let stop = to + usize::from(code);
        words::fill(&mut picture[to..stop], body[at]);
        return;
    }
    let n = 256 - usize::from(code);
    let stop = to + n;
    let end = at + n;
    words::copy(&mut picture[to..stop], &body[at..end]);
}

// The same in a wet pass.
fn put_packet(picture: &mut [u8], body: &[u8], code: u8, at: usize, to: usize, pass: Pass)
    requires { (at + data_bytes code ≤ length body.now) × Room pass (to + magnitude code) picture.old }
    ensures { picture.new ≡ stored pass picture.old to (pixels body.now at code) }
{
    match pass {
        Pass::Dry => {}
        Pass::Wet => put_pixels(picture, body, code, at, to),
    }
}

// Walks over the row at offset from, whose pixels go to the picture from index place on.
fn walk_row(
    picture: &mut [u8],
    body: &[u8],
    from: usize,
    width: usize,
    place: usize,
    pass: Pass,
) -> Verdict
    requires { (from ≤ length body.now) × (place ≤ max_area) × Wide width × Room pass (place + width) picture.old }
    ensures verdict { result ≡ (row width body.now from).verdict }
    ensures writes { picture.new ≡ stored pass picture.old place (row width body.now from).pixels }
{
    if body.len() - from < 1 {
        return Err(Refusal::BodyEnds);
    }
    let mut at = from + 1;
    let mut left = width;
    let mut to = place;
    while left > 0 {
        let packet = packet_at(body, at, left)?;
        put_packet(picture, body, packet.code, at + 1, to, pass);
        to += packet.count;
        left -= packet.count;
        at = packet.end;
    }
    Ok(at)
}

// Walks over a body, for a picture of this width and height.
pub fn walk_brun(
    picture: &mut [u8],
    body: &[u8],
    width: usize,
    height: usize,
    pass: Pass,
) -> Verdict
    requires { Sized width height × Room pass (width * height) picture.old }
    ensures verdict { result ≡ (brun width height body.now).verdict }
    ensures writes { picture.new ≡ wrote pass (brun width height body.now).writes picture.old }
{
    let mut at = 0;
    for row in 0..height {
        at = walk_row(picture, body, at, width, row * width, pass)?;
    }
    Ok(at)
}
