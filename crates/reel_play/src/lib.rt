// Playing the frames of a reel: document 01, "Reels and the trailer".
#![tactic(auto)]

ghost use Rattle.std.specs.Prelude.{◌≡◌, ◌≤◌, length};
ghost use Rattle.format.specs.Limits.{area};
ghost use Rattle.state.specs.State.{blank, state, Exact};
ghost use Rattle.chunks.specs.Spans.{HEADER_BYTES as header_bytes};
ghost use Rattle.reel_play.specs.Play.{ran, one_frame, frames, shown, play_all};

use answer::Refused;
use chunks::{Frame, HEADER_BYTES, Layout};
use format::Size;

// Plays the next frame from offset at on, and gives where it lies.
pub fn one_frame(
    picture: &mut [u8],
    palette: &mut [u8],
    b: &[u8],
    layout: Layout,
    at: usize,
    size: Size,
) -> Result<Frame, Refused>
    requires { (at ≤ length b.now) × Exact size (state picture.old palette.old) }
    ensures { ran result (state picture.new palette.new) ≡ one_frame layout size b.now at (state picture.old palette.old) }
{
    let frame = chunks::step_at(b, layout, at)?;
    match read_frame::play_frame(picture, palette, &b[frame.from..frame.end], size) {
        Ok(()) => Ok(frame),
        Err(Refused(e, place)) => Err(Refused(e, frame.from + place)),
    }
}

// Plays count frames from the end of the frame before on, and gives where the last one lies.
fn play_frames(
    picture: &mut [u8],
    palette: &mut [u8],
    b: &[u8],
    layout: Layout,
    count: usize,
    before: Frame,
    size: Size,
) -> Result<Frame, Refused>
    requires { (before.end ≤ length b.now) × Exact size (state picture.old palette.old) }
    ensures { ran result (state picture.new palette.new) ≡ frames layout size b.now count before.from before.end (state picture.old palette.old) }
{
    let mut last = before;
    for _ in 0..count {
        last = one_frame(picture, palette, b, layout, last.end, size)?;
    }
    Ok(last)
}

// Sets a pair to blank.
pub fn clear(picture: &mut [u8], palette: &mut [u8], size: Size)
    requires { Exact size (state picture.old palette.old) }
    ensures { state picture.new palette.new ≡ blank (area size) }
{
    words::fill(picture, 0);
    words::fill(palette, 0);
}

// Plays frame 1 from blank on the first pair; the second becomes a copy of it.
fn play_first(
    picture: &mut [u8],
    palette: &mut [u8],
    picture2: &mut [u8],
    palette2: &mut [u8],
    b: &[u8],
    layout: Layout,
    size: Size,
) -> Result<Frame, Refused>
    requires { (header_bytes ≤ length b.now) × Exact size (state picture.old palette.old) × Exact size (state picture2.old palette2.old) }
    ensures first { ran result (state picture.new palette.new) ≡ one_frame layout size b.now header_bytes (blank (area size)) }
    ensures picture { picture2.new ≡ picture.new }
    ensures palette { palette2.new ≡ palette.new }
{
    clear(picture, palette, size);
    let ran = one_frame(picture, palette, b, layout, HEADER_BYTES, size);
    words::copy(picture2, picture);
    words::copy(palette2, palette);
    ran
}

// Plays frame 1 and then more frames, from blank: the first pair ends as the state after the last accepted frame, the second as that after frame 1.
pub fn play_all(
    picture: &mut [u8],
    palette: &mut [u8],
    picture2: &mut [u8],
    palette2: &mut [u8],
    b: &[u8],
    layout: Layout,
    more: usize,
    size: Size,
) -> Result<Frame, Refused>
    requires { (header_bytes ≤ length b.now) × Exact size (state picture.old palette.old) × Exact size (state picture2.old palette2.old) }
    ensures { shown result (state picture.new palette.new) (state picture2.new palette2.new) ≡ play_all layout more size b.now }
{
    let first = play_first(picture, palette, picture2, palette2, b, layout, size)?;
    play_frames(picture, palette, b, layout, more, first, size)
}
