// Closing a reel: it plays its own frames, writes the ring from the state in which that ends, and sets the header. Document 01, "Reels and the trailer".
#![tactic(auto)]

ghost use Rattle.std.specs.Prelude.{◌≡◌, ◌≤◌, ◌+◌, length};
ghost use Rattle.format.specs.Limits.{max_frames};
ghost use Rattle.state.specs.State.{state, shown, Exact};
ghost use Rattle.state.specs.Outcome.{lent_bytes, lent_bytes_pairs};
ghost use Rattle.chunks.specs.Spans.{HEADER_BYTES as header_bytes};
ghost use Rattle.house_frame.specs.House.{house_frame};
ghost use Rattle.reel_build.specs.Record.{built};
ghost use Rattle.reel_close.specs.Closing.{own_playing, ring_written, close_frames, close_ok, close_reel};

use answer::{Refusal, Refused};
use chunks::Layout;
use format::PALETTE_BYTES;
use reel_build::Reel;
use state::{Pair, holds};

// Writes the ring, from the last state to that of frame 1, at the record's end and closes the header, if the ring fits.
fn put_ring(bytes: &mut [u8], reel: Reel, last: Pair<'_>, one: Pair<'_>) -> Result<Reel, Refused>
    requires { (header_bytes + 4 ≤ reel.end) × (reel.end ≤ length bytes.old) × (reel.frames ≤ max_frames)
        × Exact reel.size (shown last) × Exact reel.size (shown one) }
    ensures { built reel result (lent_bytes bytes.new)
        ≡ ring_written reel (house_frame reel.size (shown last.entry) (shown one.entry)) bytes.old }
{
    let second = reel_header::second_at(bytes);
    let end = reel_build::append(bytes, reel.end, last, one, reel.size)?;
    reel_header::close_header(bytes, reel.size.format, end, reel.frames, second);
    Ok(Reel {
        end,
        closed: true,
        ..reel
    })
}

// Closes a reel of 1 to 4,000 frames, with pairs of just its size.
fn close_frames(
    bytes: &mut [u8],
    picture: &mut [u8],
    palette: &mut [u8],
    picture2: &mut [u8],
    palette2: &mut [u8],
    reel: Reel,
) -> Result<Reel, Refused>
    requires { (1 ≤ reel.frames) × (reel.frames ≤ max_frames)
        × Exact reel.size (state picture.old palette.old) × Exact reel.size (state picture2.old palette2.old) }
    ensures bytes { built reel result (lent_bytes bytes.new) ≡ close_frames reel bytes.old (own_playing reel bytes.old) }
    ensures first { state picture.new palette.new ≡ (own_playing reel bytes.old).last }
    ensures second { state picture2.new palette2.new ≡ (own_playing reel bytes.old).one }
{
    if !reel_build::end_ok(reel.end, bytes.len()) {
        reel_play::clear(picture, palette, reel.size);
        reel_play::clear(picture2, palette2, reel.size);
        return Err(Refused(Refusal::Cut, 0));
    }
    let last = reel_play::play_all(
        picture,
        palette,
        picture2,
        palette2,
        &bytes[..reel.end],
        Layout::Packed,
        reel.frames - 1,
        reel.size,
    )?;
    if last.end < reel.end {
        return Err(Refused(Refusal::Cut, 0));
    }
    let showing = Pair { picture, palette };
    let one = Pair {
        picture: picture2,
        palette: palette2,
    };
    put_ring(bytes, reel, showing, one)
}

// Whether a reel may be closed.
fn close_ok(frames: usize, closed: bool) -> bool
    ensures { result ≡ close_ok frames closed }
{
    !closed && 1 <= frames && frames <= format::MAX_FRAMES
}

// Closes a reel. Both pairs are set once 18, 2 and 1 have passed.
pub fn close_reel(
    reel: Reel,
    bytes: &mut [u8],
    first_picture: &mut [u8],
    first_palette: &mut [u8],
    second_picture: &mut [u8],
    second_palette: &mut [u8],
) -> Result<Reel, Refused>
    ensures { built reel result (lent_bytes_pairs bytes.new (state first_picture.new first_palette.new) (state second_picture.new second_palette.new))
        ≡ close_reel reel bytes.old (state first_picture.old first_palette.old) (state second_picture.old second_palette.old) }
{
    if !close_ok(reel.frames, reel.closed) {
        return Err(Refused(Refusal::WrongTime, 0));
    }
    if !format::size_fits(reel.size) {
        return Err(Refused(Refusal::BadSize, 0));
    }
    let n = reel.size.width * reel.size.height;
    if !holds(first_picture.len(), first_palette.len(), n)
        || !holds(second_picture.len(), second_palette.len(), n)
    {
        return Err(Refused(Refusal::ShortSlice, 0));
    }
    close_frames(
        bytes,
        &mut first_picture[..n],
        &mut first_palette[..PALETTE_BYTES],
        &mut second_picture[..n],
        &mut second_palette[..PALETTE_BYTES],
        reel,
    )
}
