// Reading kind 7, SS2: document 01, "Frames, chunks and rows".
#![tactic(auto)]

ghost use Rattle.std.specs.Prelude.{◌≡◌, ◌+◌, ◌*◌, ◌≤◌, length};
ghost use Rattle.words.specs.Words.{u16_at};
ghost use Rattle.format.specs.Limits.{Wide, High};
ghost use Rattle.walk.specs.Walk.{ends, wrote, Room};
ghost use Rattle.read_ss2.specs.Ss2.{word_of, last_at, line_at, last_first, line_walk, ss2};

use answer::Refusal;

// What a word is, by its two high bits.
#[derive(Clone, Copy)]
pub enum Word {
    Count(usize),
    Bad,
    Last(u8),
    Skip(usize),
}

// The word or words at a line: a skip down, or a row with the last pixel that a word of its own sets, its packet count and the
// offset of the first packet.
#[derive(Clone, Copy)]
pub enum Line {
    Down(usize),
    Row {
        last: Option<u8>,
        count: usize,
        from: usize,
    },
}

// "The two high bits of each word decide what it is."
#[tactic(auto, unfolding(crate::specs::Ss2::word_of))]
fn word_of(w: u16) -> Word
    ensures { result ≡ word_of w }
{
    match w {
        0..=0x3fff => Word::Count(usize::from(w)),
        0x4000..=0x7fff => Word::Bad,
        0x8000..=0xbfff => Word::Last((w % 256) as u8),
        0xc000..=0xffff => Word::Skip(65536 - usize::from(w)),
    }
}

// The word at offset at.
fn word_at(body: &[u8], at: usize) -> Word
    requires { at + 2 ≤ length body.now }
    ensures { result ≡ word_of (u16_at body.now at) }
{
    let w = words::u16_at(body, at);
    word_of(w as u16)
}

// The packet count that must follow a last-pixel word, at offset at.
#[tactic(auto, using(crate::proofs::Laws::last_cut, crate::proofs::Laws::last_there))]
fn last_at(body: &[u8], at: usize, pixel: u8) -> Result<Line, Refusal>
    requires { at ≤ length body.now }
    ensures { result ≡ last_at body.now at pixel }
{
    if body.len() - at < 2 {
        return Err(Refusal::BodyEnds);
    }
    match word_at(body, at) {
        Word::Count(count) => Ok(Line::Row {
            last: Some(pixel),
            count,
            from: at + 2,
        }),
        Word::Bad | Word::Last(_) | Word::Skip(_) => Err(Refusal::BadWord),
    }
}

// The line at offset at, on row row.
#[tactic(auto, using(crate::proofs::Laws::word_skip), unfolding(crate::specs::Ss2::line_at))]
fn line_at(body: &[u8], at: usize, row: usize, height: usize) -> Result<Line, Refusal>
    requires { (at ≤ length body.now) × (row ≤ height) × High height }
    ensures { result ≡ line_at height body.now at row }
{
    if body.len() - at < 2 {
        return Err(Refusal::BodyEnds);
    }
    match word_at(body, at) {
        Word::Count(count) if row < height => Ok(Line::Row {
            last: None,
            count,
            from: at + 2,
        }),
        Word::Bad => Err(Refusal::BadWord),
        Word::Last(pixel) if row < height => last_at(body, at + 2, pixel),
        Word::Skip(rows) if row + rows < height => Ok(Line::Down(rows)),
        _ => Err(Refusal::PastHeight),
    }
}

// Stores the last pixel of row row, if the line sets it.
fn put_last(picture: &mut [u8], last: Option<u8>, width: usize, row: usize, pass: walk::Pass)
    requires { (1 ≤ width) × Wide width × High row × Room pass (row * width + width) picture.old }
    ensures { picture.new ≡ wrote pass (last_first width row last (ends 0)).writes picture.old }
{
    match pass {
        walk::Pass::Dry => {}
        walk::Pass::Wet => {
            if let Some(pixel) = last {
                let place = row * width + (width - 1);
                picture[place] = pixel;
            }
        }
    }
}

// Walks over a line on row row: its last pixel, then its packets.
fn walk_line(
    picture: &mut [u8],
    body: &[u8],
    last: Option<u8>,
    count: usize,
    from: usize,
    width: usize,
    row: usize,
    pass: walk::Pass,
) -> walk::Verdict
    requires { (from ≤ length body.now) × (1 ≤ width) × Wide width × High row × Room pass (row * width + width) picture.old }
    ensures verdict { result ≡ (line_walk width body.now row last count from).verdict }
    ensures writes { picture.new ≡ wrote pass (line_walk width body.now row last count from).writes picture.old }
{
    put_last(picture, last, width, row, pass);
    read_packets::walk_packets::<2>(picture, body, count, from, width, row, pass)
}

// Walks over a body, for a picture of this width and height.
pub fn walk_ss2(
    picture: &mut [u8],
    body: &[u8],
    width: usize,
    height: usize,
    pass: walk::Pass,
) -> walk::Verdict
    requires { (1 ≤ width) × Wide width × High height × Room pass (width * height) picture.old }
    ensures verdict { result ≡ (ss2 width height body.now).verdict }
    ensures writes { picture.new ≡ wrote pass (ss2 width height body.now).writes picture.old }
{
    if body.len() < 2 {
        return Err(Refusal::BodyEnds);
    }
    let mut left = words::u16_at(body, 0);
    let mut at = 2;
    let mut row = 0;
    // A skip is no line: left goes down at a row alone, so that no count of steps is known.
    while left > 0 {
        match line_at(body, at, row, height)? {
            Line::Down(rows) => {
                row += rows;
                at += 2;
            }
            Line::Row { last, count, from } => {
                at = walk_line(picture, body, last, count, from, width, row, pass)?;
                row += 1;
                left -= 1;
            }
        }
    }
    Ok(at)
}
