// Reading kinds 4 and 11, colour: document 01, "Frames, chunks and rows".
#![tactic(auto)]

ghost use Rattle.std.specs.Prelude.{◌≡◌, true, map, ◌+◌, ◌≤◌, ◌<◌, length, take, drop};
ghost use Rattle.format.specs.Format.{raised};
ghost use Rattle.walk.specs.Walk.{stored, wrote, Room};
ghost use Rattle.read_colour.specs.Colour.{level, low_levels, levels_ok, count_of, packet_at, colour};

use answer::Refusal;
use walk::{Pass, Verdict};

// How many levels a component has: 256 in kind 4, 64 in kind 11.
// The chunk's kind says which, and the definitions go by the same two cases: no closure.
#[derive(Clone, Copy)]
pub enum Levels {
    Of64,
    Of256,
}

// A packet: len components at from in the body that go to the palette at to, and the next index.
#[derive(Clone, Copy)]
pub struct Colours {
    pub from: usize,
    pub to: usize,
    pub len: usize,
    pub next: usize,
}

// Whether no component is over 63.
fn low_levels(part: &[u8]) -> bool
    ensures { result ≡ low_levels part.now }
{
    part.iter().all(|x| *x <= format::MAX_LEVEL)
}

// Whether each component is in range.
fn levels_ok(part: &[u8], levels: Levels) -> bool
    ensures { result ≡ levels_ok levels part.now }
{
    match levels {
        Levels::Of64 => low_levels(part),
        Levels::Of256 => true,
    }
}

// Stores each component of src, of 64 levels, as one of 256 in dst, which is as long.
fn put_raised(dst: &mut [u8], src: &[u8])
    requires src_len { length src.now ≡ length dst.old }
    requires src_value { low_levels src.now ≡ true }
    ensures { dst.new ≡ map raised src.now }
{
    for (i, x) in src.iter().enumerate() {
        dst[i] = format::raised_level(*x);
    }
}

// Stores each component of src, as it is shown, in dst, which is as long.
fn put_levels(dst: &mut [u8], src: &[u8], levels: Levels)
    requires src_len { length src.now ≡ length dst.old }
    requires src_value { levels_ok levels src.now ≡ true }
    ensures { dst.new ≡ map (level levels) src.now }
{
    match levels {
        Levels::Of64 => put_raised(dst, src),
        Levels::Of256 => words::copy(dst, src),
    }
}

// A count byte: 0 means 256.
fn count_of(x: u8) -> usize
    ensures { (result ≡ count_of x) × (result ≤ 256) }
{
    if x == 0 { 256 } else { usize::from(x) }
}

// The packet at offset at, with the index at i.
fn packet_at(body: &[u8], at: usize, i: usize, levels: Levels) -> Result<Colours, Refusal>
    requires { (at ≤ length body.now) × (i ≤ 256) }
    ensures { result ≡ packet_at levels body.now at i }
{
    if body.len() - at < 2 {
        return Err(Refusal::BodyEnds);
    }
    let j = i + usize::from(body[at]);
    let m = count_of(body[at + 1]);
    let next = j + m;
    if next > 256 {
        return Err(Refusal::PastPalette);
    }
    let from = at + 2;
    let len = 3 * m;
    if body.len() - from < len {
        return Err(Refusal::BodyEnds);
    }
    if !levels_ok(&body[from..from + len], levels) {
        return Err(Refusal::OverLevel);
    }
    Ok(Colours {
        from,
        to: 3 * j,
        len,
        next,
    })
}

// Stores the components of a packet of the body in the palette, as they are shown.
fn put_colours(palette: &mut [u8], body: &[u8], p: Colours, levels: Levels, pass: Pass)
    requires { (p.from + p.len ≤ length body.now) × Room pass (p.to + p.len) palette.old
        × (levels_ok levels (take p.len (drop p.from body.now)) ≡ true) }
    ensures { palette.new ≡ stored pass palette.old p.to (map (level levels) (take p.len (drop p.from body.now))) }
{
    match pass {
        Pass::Dry => {}
        Pass::Wet => put_levels(
            &mut palette[p.to..p.to + p.len],
            &body[p.from..p.from + p.len],
            levels,
        ),
    }
}

// Walks over a body, for a palette.
pub fn walk_colour(palette: &mut [u8], body: &[u8], levels: Levels, pass: Pass) -> Verdict
    requires { Room pass 768 palette.old }
    ensures verdict { result ≡ (colour levels body.now).verdict }
    ensures writes { palette.new ≡ wrote pass (colour levels body.now).writes palette.old }
{
    if body.len() < 2 {
        return Err(Refusal::BodyEnds);
    }
    let mut at = 2;
    let mut index = 0;
    for _ in 0..words::u16_at(body, 0) {
        let packet = packet_at(body, at, index, levels)?;
        put_colours(palette, body, packet, levels, pass);
        at = packet.from + packet.len;
        index = packet.next;
    }
    Ok(at)
}
