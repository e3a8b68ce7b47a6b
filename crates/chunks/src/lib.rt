// Chunks and where they lie: a chunk's header, a frame's header, and the walk over the top-level chunks of a reel.
// Document 01, "Frames, chunks and rows" and "Reels and the trailer".
#![tactic(auto)]

ghost use Rattle.std.specs.Prelude.{◌≡◌, ◌+◌, ◌≤◌, length};
ghost use Rattle.chunks.specs.Headers.{size_at, header_at, frame_header};
ghost use Rattle.chunks.specs.declared.Layout.TheVariants.{Loose, Packed};
ghost use Rattle.chunks.specs.Spans.{HEADER_BYTES as header_bytes, next_at, frame_at, extent};

use answer::{Refusal, Refused};
use format::FRAME_TYPE;

// The bytes of a chunk's header, and of a frame's.
pub const CHUNK_HEADER: usize = 6;

pub const FRAME_HEADER: usize = 16;

// Where a header has the type, and a frame's header how many sub-chunks it has.
pub const TYPE_AT: usize = 4;

pub const COUNT_AT: usize = 6;

// The bytes of a reel's header: its chunks begin there.
pub const HEADER_BYTES: usize = 128;

// A chunk: its kind and the offset of its end.
#[derive(Clone, Copy)]
pub struct Chunk {
    pub kind: usize,
    pub end: usize,
}

// What a frame's header says: how many sub-chunks it has and its size.
#[derive(Clone, Copy)]
pub struct FrameHeader {
    pub count: usize,
    pub size: usize,
}

// How frames lie: in a file other chunks may stand between them, in a reel being closed they lie back to back.
// The definitions go by the same two cases: no closure.
#[derive(Clone, Copy)]
pub enum Layout {
    Loose,
    Packed,
}

// Where a frame begins and ends.
#[derive(Clone, Copy)]
pub struct Frame {
    pub from: usize,
    pub end: usize,
}

// The size that stands at offset at, of what has at least the bytes of its header; or its first fault.
fn size_at(b: &[u8], at: usize, header: usize) -> Result<usize, Refusal>
    requires { at + 4 ≤ length b.now }
    ensures { result ≡ size_at header b.now at }
{
    let size = words::u32_at(b, at);
    if size < header {
        return Err(Refusal::SmallSize);
    }
    if b.len() - at < size {
        return Err(Refusal::Cut);
    }
    Ok(size)
}

// The chunk's header at offset at, or its first fault.
pub fn header_at(b: &[u8], at: usize) -> Result<Chunk, Refusal>
    requires { at ≤ length b.now }
    ensures { result ≡ header_at b.now at }
{
    if b.len() - at < CHUNK_HEADER {
        return Err(Refusal::Cut);
    }
    let size = size_at(b, at, CHUNK_HEADER)?;
    Ok(Chunk {
        kind: words::u16_at(b, at + TYPE_AT),
        end: at + size,
    })
}

// The header of the frame that b begins with, or its first fault.
pub fn frame_header(b: &[u8]) -> Result<FrameHeader, Refusal>
    ensures { result ≡ frame_header b.now }
{
    if b.len() < FRAME_HEADER {
        return Err(Refusal::Cut);
    }
    if words::u16_at(b, TYPE_AT) != FRAME_TYPE {
        return Err(Refusal::WrongType);
    }
    let size = size_at(b, 0, FRAME_HEADER)?;
    Ok(FrameHeader {
        count: words::u16_at(b, COUNT_AT),
        size,
    })
}

// The frame that must begin at offset at.
fn packed_at(b: &[u8], at: usize) -> Result<Frame, Refused>
    requires { at ≤ length b.now }
    ensures { result ≡ next_at Packed b.now at }
{
    let header = answer::placed(frame_header(&b[at..]), at)?;
    Ok(Frame {
        from: at,
        end: at + header.size,
    })
}

// The next frame from offset start on; chunks of other types are stepped over.
pub fn next_at(b: &[u8], start: usize) -> Result<Frame, Refused>
    ensures { result ≡ next_at Loose b.now start }
{
    if start > b.len() {
        return Err(Refused(Refusal::FewFrames, start));
    }
    let mut at = start;
    // A cursor that steps by chunks.
    while b.len() - at >= CHUNK_HEADER {
        if words::u16_at(b, at + TYPE_AT) == FRAME_TYPE {
            return packed_at(b, at);
        }
        at = answer::placed(header_at(b, at), at)?.end;
    }
    Err(Refused(Refusal::FewFrames, at))
}

// The next frame from offset at on, as frames lie in this layout.
pub fn step_at(b: &[u8], layout: Layout, at: usize) -> Result<Frame, Refused>
    requires { at ≤ length b.now }
    ensures { result ≡ next_at layout b.now at }
{
    match layout {
        Layout::Loose => next_at(b, at),
        Layout::Packed => packed_at(b, at),
    }
}

// Walks over the chunks of b up to the last of count frames, and gives where that ends; no frame is opened.
pub fn walk_frames(b: &[u8], count: usize) -> Result<usize, Refused>
    ensures { result ≡ extent b.now count header_bytes }
{
    let mut at = HEADER_BYTES;
    // No `?`: a refusal that is given another place falls at that fact here, and behind a `?` at the names that its proof cites.
    for _ in 0..count {
        match next_at(b, at) {
            Err(Refused(e, place)) => {
                return Err(Refused(e, place));
            }
            Ok(frame) => {
                at = frame.end;
            }
        }
    }
    Ok(at)
}

// Where frame k of b lies, the first being frame 1.
pub fn frame_at(b: &[u8], k: usize) -> Result<Frame, Refused>
    requires { 1 ≤ k }
    ensures { result ≡ frame_at b.now k header_bytes }
{
    let at = walk_frames(b, k - 1)?;
    next_at(b, at)
}
