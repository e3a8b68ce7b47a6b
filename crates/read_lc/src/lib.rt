// Reading kind 12, LC: document 01, "Frames, chunks and rows".
#![tactic(auto)]

ghost use Rattle.std.specs.Prelude.{◌≡◌, ◌+◌, ◌*◌, ◌≤◌, length};
ghost use Rattle.format.specs.Limits.{Wide, High};
ghost use Rattle.walk.specs.Walk.{wrote, Room};
ghost use Rattle.read_lc.specs.Lc.{start_at, row_at, lc};

use answer::Refusal;

// A row's start: the packet count and the offset of the first packet.
#[derive(Clone, Copy)]
pub struct Start {
    pub count: usize,
    pub from: usize,
}

// The row start at offset at.
#[tactic(auto, unfolding(crate::specs::Lc::start_at))]
fn start_at(body: &[u8], at: usize) -> Result<Start, Refusal>
    requires { at ≤ length body.now }
    ensures { result ≡ start_at body.now at }
{
    if body.len() - at < 1 {
        return Err(Refusal::BodyEnds);
    }
    Ok(Start {
        count: usize::from(body[at]),
        from: at + 1,
    })
}

// Walks over the row at offset at, row row of the picture. A row without packets, as an FLI's delta has for each row that stays, is done at
// once.
fn walk_row(
    picture: &mut [u8],
    body: &[u8],
    at: usize,
    width: usize,
    row: usize,
    pass: walk::Pass,
) -> walk::Verdict
    requires { (at ≤ length body.now) × Wide width × High row × Room pass (row * width + width) picture.old }
    ensures verdict { result ≡ (row_at width body.now row at).verdict }
    ensures writes { picture.new ≡ wrote pass (row_at width body.now row at).writes picture.old }
{
    let start = start_at(body, at)?;
    if start.count == 0 {
        return Ok(start.from);
    }
    read_packets::walk_packets::<1>(picture, body, start.count, start.from, width, row, pass)
}

// Walks over a body, for a picture of this width and height.
pub fn walk_lc(
    picture: &mut [u8],
    body: &[u8],
    width: usize,
    height: usize,
    pass: walk::Pass,
) -> walk::Verdict
    requires { Wide width × High height × Room pass (width * height) picture.old }
    ensures verdict { result ≡ (lc width height body.now).verdict }
    ensures writes { picture.new ≡ wrote pass (lc width height body.now).writes picture.old }
{
    if body.len() < 4 {
        return Err(Refusal::BodyEnds);
    }
    let first = words::u16_at(body, 0);
    let end = first + words::u16_at(body, 2);
    if height < end {
        return Err(Refusal::PastHeight);
    }
    let mut at = 4;
    for row in first..end {
        at = walk_row(picture, body, at, width, row, pass)?;
    }
    Ok(at)
}
