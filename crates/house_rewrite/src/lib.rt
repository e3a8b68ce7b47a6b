// Rewriting one frame in house form: document 01, "House form of a frame" and "Refusal numbers".
#![tactic(auto)]

ghost use Rattle.std.specs.Prelude.{◌≡◌};
ghost use Rattle.answer.specs.Answer.{told_written};
ghost use Rattle.state.specs.State.{state, shown, Exact};
ghost use Rattle.state.specs.Outcome.{lent_bytes, lent_bytes_pair, leaves, fitted};
ghost use Rattle.read_frame.specs.Frame.{frame};
ghost use Rattle.read_frame.specs.Reading.{played};
ghost use Rattle.house_frame.specs.House.{house_frame};
ghost use Rattle.house_rewrite.specs.Rewriting.{rewrite_frame};

use answer::{Refusal, Refused};
use format::{PALETTE_BYTES, Size};
use state::{Pair, holds};
use walk::Pass;

// Plays a frame, which was accepted, on a copy of the previous state, and writes the house frame that leads there.
fn rewrite_accepted(
    work_picture: &mut [u8],
    work_palette: &mut [u8],
    out: &mut [u8],
    bytes: &[u8],
    previous: Pair<'_>,
    size: Size,
) -> Result<usize, Refused>
    requires { Exact size (state work_picture.old work_palette.old) × Exact size (shown previous) }
    ensures picture { work_picture.new
        ≡ (played (frame size bytes.now) (shown previous.entry)).picture }
    ensures palette { work_palette.new
        ≡ (played (frame size bytes.now) (shown previous.entry)).palette }
    ensures output { leaves (told_written result) (lent_bytes out.new)
        ≡ fitted (house_frame size (shown previous.entry)
        (played (frame size bytes.now) (shown previous.entry))) out.old }
{
    words::copy(work_picture, previous.picture);
    words::copy(work_palette, previous.palette);
    let _ = read_frame::walk_frame(work_picture, work_palette, bytes, size, Pass::Wet);
    let next = Pair {
        picture: work_picture,
        palette: work_palette,
    };
    house_frame::write_house(out, previous, next, size)
}

// Reads a frame against the previous picture and palette into the working pair, and writes it in house form.
pub fn rewrite_frame(
    bytes: &[u8],
    size: Size,
    previous: Pair<'_>,
    work_picture: &mut [u8],
    work_palette: &mut [u8],
    out: &mut [u8],
) -> Result<usize, Refused>
    ensures { leaves (told_written result) (lent_bytes_pair out.new (state work_picture.new work_palette.new))
        ≡ rewrite_frame bytes.now size (shown previous.entry)
        (state work_picture.old work_palette.old) out.old }
{
    if !format::size_fits(size) {
        return Err(Refused(Refusal::BadSize, 0));
    }
    let n = size.width * size.height;
    if !previous.holds(n) {
        return Err(Refused(Refusal::ShortSlice, 0));
    }
    if !holds(work_picture.len(), work_palette.len(), n) {
        return Err(Refused(Refusal::ShortSlice, 0));
    }
    read_frame::check_frame(bytes, size)?;
    rewrite_accepted(
        &mut work_picture[..n],
        &mut work_palette[..PALETTE_BYTES],
        out,
        bytes,
        previous.front(n),
        size,
    )
}
