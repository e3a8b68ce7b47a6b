// The index and trailer behind a reel: document 01, "Reels and the trailer", second paragraph.
#![tactic(auto)]

ghost use Rattle.std.specs.Prelude.{◌≡◌, [], ◌*◌, ◌≤◌, length};
ghost use Rattle.words.specs.Words.{same};
ghost use Rattle.words.specs.Writes.{put};
ghost use Rattle.answer.specs.Answer.{told, told_written};
ghost use Rattle.state.specs.Outcome.{lent_bytes, leaves};
ghost use Rattle.chunks.specs.Spans.{HEADER_BYTES as header_bytes, top_frames};
ghost use Rattle.reel_trailer.specs.Trailer.{index, trailer_of, check_trailer, write_trailer};
ghost use Rattle.reel_trailer.specs.Room.{Walked, padded, WholeReel};

use answer::{Refusal, Refused};
use chunks::HEADER_BYTES;
use format::MAX_FRAMES;
use reel_header::Takes;

// The most bytes of an index and its trailer: 4 for each of the most frames and the ring, and 8.
const TRAILER_MOST: usize = 4 * (MAX_FRAMES + 1) + 8;

// Stores the offset of each of count frames of b.
fn put_index(out: &mut [u8], b: &[u8], count: usize)
    requires { (header_bytes ≤ length b.now) × (4 * count ≤ length out.old) }
    ensures { out.new ≡ put out.old 0 (index (top_frames b.now count header_bytes).offsets) }
{
    let mut at = HEADER_BYTES;
    for k in 0..count {
        match chunks::next_at(b, at) {
            Err(_) => {
                return;
            }
            Ok(frame) => {
                words::put_u32(out, 4 * k, frame.from);
                at = frame.end;
            }
        }
    }
}

// A buffer of zeros: memory of fixed size, as no heap is used.
#[inline(always)]
fn zeros() -> [u8; TRAILER_MOST]
    ensures { result ≡ padded [] }
{
    [0; TRAILER_MOST]
}

// The index of count frames of b and the trailer, at the front of a buffer of zeros. Compiled into who asks for it, so that no buffer is handed
// back by a copy.
#[inline(always)]
fn trailer_of(b: &[u8], count: usize) -> [u8; TRAILER_MOST]
    requires { Walked b.now count }
    ensures { result ≡ padded (trailer_of (top_frames b.now count header_bytes).offsets) }
{
    let mut out = zeros();
    let at = 4 * count;
    put_index(&mut out[0..at], b, count);
    words::put_u32(&mut out[at..at + 4], 0, at + 8);
    words::put_u16(&mut out[at + 4..at + 6], 0, count);
    words::put_u16(&mut out[at + 6..at + 8], 0, 1);
    out
}

// Whether rest is the index of count frames of b and the trailer.
fn same_trailer(rest: &[u8], b: &[u8], count: usize) -> bool
    requires { Walked b.now count }
    ensures { result ≡ same rest.now (trailer_of (top_frames b.now count header_bytes).offsets) }
{
    let n = 4 * count + 8;
    if rest.len() != n {
        return false;
    }
    let trailer = trailer_of(b, count);
    words::same_bytes(rest, &trailer[..n])
}

// A reel that stands at the front of some bytes: its size, and how many frames it has, the ring counted.
#[derive(Clone, Copy)]
struct Whole {
    size: usize,
    count: usize,
}

// The reel at the front of bytes, after the walk over its header and its frames.
fn whole_reel(bytes: &[u8]) -> Result<Whole, Refused>
    ensures { WholeReel bytes.now result }
{
    let head = answer::placed(reel_header::head_of(Takes::FlcOnly, bytes), 0)?;
    let count = head.frames + 1;
    chunks::walk_frames(&bytes[..head.size], count)?;
    Ok(Whole {
        size: head.size,
        count,
    })
}

// Checks what stands behind a reel: nothing, or its index and trailer.
pub fn check_trailer(bytes: &[u8]) -> Result<(), Refused>
    ensures { told result ≡ check_trailer bytes.now }
{
    let reel = whole_reel(bytes)?;
    if bytes.len() == reel.size
        || same_trailer(&bytes[reel.size..], &bytes[..reel.size], reel.count)
    {
        return Ok(());
    }
    Err(Refused(Refusal::BadTrailer, 0))
}

// Writes the index and trailer behind the reel at the front of the lent bytes; done gives the file's new length.
pub fn write_trailer(bytes: &mut [u8]) -> Result<usize, Refused>
    ensures { leaves (told_written result) (lent_bytes bytes.new) ≡ write_trailer bytes.old }
{
    let reel = whole_reel(bytes)?;
    let n = 4 * reel.count + 8;
    if bytes.len() - reel.size < n {
        return Err(Refused(Refusal::NoRoom, 0));
    }
    let trailer = trailer_of(&bytes[..reel.size], reel.count);
    words::copy(&mut bytes[reel.size..reel.size + n], &trailer[..n]);
    Ok(reel.size + n)
}
