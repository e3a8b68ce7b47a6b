// Building a reel in lent bytes: opening it, and adding a frame. Document 01, "Reels and the trailer".
#![tactic(auto)]

ghost use Rattle.std.specs.Prelude.{◌≡◌, ◌≤◌, false, length};
ghost use Rattle.chunks.specs.Spans.{HEADER_BYTES as header_bytes};
ghost use Rattle.answer.specs.Answer.{told_written};
ghost use Rattle.state.specs.State.{shown, Exact};
ghost use Rattle.state.specs.Outcome.{lent_bytes, leaves};
ghost use Rattle.house_frame.specs.House.{house_frame};
ghost use Rattle.reel_build.specs.Record.{reel_of, no_reel, built};
ghost use Rattle.reel_build.specs.Building.{open_reel, open_fli, end_ok, appended, add_ok, add_frame};

use answer::{Refusal, Refused};
use chunks::HEADER_BYTES;
use delay::{Jiffies, Milliseconds};
use format::{Format, Size};
use state::Pair;

// The most bytes of a file: its size field has 32 bits.
const MOST_BYTES: usize = u32::MAX as usize;

// What a reel carries from call to call. A caller may hand in any values.
#[derive(Clone, Copy)]
pub struct Reel {
    pub size: Size,
    pub frames: usize,
    pub end: usize,
    pub closed: bool,
}

// A reel with no frame yet.
fn new_reel(size: Size) -> Reel
    ensures { result ≡ reel_of size 0 header_bytes false }
{
    Reel {
        size,
        frames: 0,
        end: HEADER_BYTES,
        closed: false,
    }
}

// Opens an FLC at the front of the lent bytes. The two opens are two functions, since their delays are of two types.
pub fn open_reel(
    width: usize,
    height: usize,
    speed: Milliseconds,
    bytes: &mut [u8],
) -> Result<Reel, Refused>
    ensures { built no_reel result (lent_bytes bytes.new) ≡ open_reel width height speed bytes.old }
{
    let size = Size {
        width,
        height,
        format: Format::Flc,
    };
    if !format::size_fits(size) {
        return Err(Refused(Refusal::BadSize, 0));
    }
    if bytes.len() < HEADER_BYTES {
        return Err(Refused(Refusal::NoRoom, 0));
    }
    reel_header::write_header(&mut bytes[..HEADER_BYTES], width, height, speed);
    Ok(new_reel(size))
}

// Opens an FLI at the front of the lent bytes.
pub fn open_fli(width: usize, height: usize, delay: u32, bytes: &mut [u8]) -> Result<Reel, Refused>
    ensures { built no_reel result (lent_bytes bytes.new) ≡ open_fli width height delay bytes.old }
{
    let size = Size {
        width,
        height,
        format: Format::Fli,
    };
    if !format::size_fits(size) {
        return Err(Refused(Refusal::BadSize, 0));
    }
    if delay > 65535 {
        return Err(Refused(Refusal::BadHeader, 0));
    }
    if bytes.len() < HEADER_BYTES {
        return Err(Refused(Refusal::NoRoom, 0));
    }
    reel_header::write_fli_header(
        &mut bytes[..HEADER_BYTES],
        width,
        height,
        Jiffies(delay as u16),
    );
    Ok(new_reel(size))
}

// Whether a record's end lies within so many lent bytes.
pub fn end_ok(end: usize, room: usize) -> bool
    ensures { result ≡ end_ok end room }
{
    HEADER_BYTES <= end && end <= room
}

// Writes the house frame from a previous state to a next one at offset end, if it fits; done gives where it ends.
pub fn append(
    bytes: &mut [u8],
    end: usize,
    previous: Pair<'_>,
    next: Pair<'_>,
    size: Size,
) -> Result<usize, Refused>
    requires { (end ≤ length bytes.old) × Exact size (shown previous) × Exact size (shown next) }
    ensures { leaves (told_written result) (lent_bytes bytes.new)
        ≡ appended end (house_frame size (shown previous.entry) (shown next.entry)) bytes.old }
{
    let longest = bytes.len().min(MOST_BYTES);
    if longest < end {
        return Err(Refused(Refusal::NoRoom, 0));
    }
    let written = house_frame::write_house(&mut bytes[end..longest], previous, next, size)?;
    Ok(end + written)
}

// Whether a reel takes one more frame.
fn add_ok(frames: usize, closed: bool) -> bool
    ensures { result ≡ add_ok frames closed }
{
    !closed && frames < format::MAX_FRAMES
}

// Adds the house frame from the showing picture and palette to the next.
pub fn add_frame(
    reel: Reel,
    bytes: &mut [u8],
    showing: Pair<'_>,
    next: Pair<'_>,
) -> Result<Reel, Refused>
    ensures { built reel result (lent_bytes bytes.new)
        ≡ add_frame reel bytes.old (shown showing.entry) (shown next.entry) }
{
    if !add_ok(reel.frames, reel.closed) {
        return Err(Refused(Refusal::WrongTime, 0));
    }
    if !format::size_fits(reel.size) {
        return Err(Refused(Refusal::BadSize, 0));
    }
    let n = reel.size.width * reel.size.height;
    if !showing.holds(n) || !next.holds(n) {
        return Err(Refused(Refusal::ShortSlice, 0));
    }
    if !end_ok(reel.end, bytes.len()) {
        return Err(Refused(Refusal::Cut, 0));
    }
    let end = append(bytes, reel.end, showing.front(n), next.front(n), reel.size)?;
    Ok(Reel {
        frames: reel.frames + 1,
        end,
        ..reel
    })
}
