// The listing of a reel as text: document 01, "Reels and the trailer", third paragraph.
#![tactic(auto)]

ghost use Rattle.std.specs.Prelude.{◌≡◌, ◌+◌, ◌-◌, ◌≤◌, length};
ghost use Rattle.answer.specs.Answer.{told_written};
ghost use Rattle.state.specs.Outcome.{lent_bytes, leaves};
ghost use Rattle.list_text.specs.Stored.{Stored};
ghost use Rattle.chunks.specs.Spans.{HEADER_BYTES as header_bytes};
ghost use Rattle.list_chunks.specs.Listing.{head_bytes, count_at, opens, LIST_DEPTH as list_depth, container_of, children_of, reel_lines, LIST_INPUT as longest_input, listing, list};
ghost use Rattle.list_chunks.specs.Room.{Listed, Lines, list_most};

use answer::{Refusal, Refused};
use chunks::{CHUNK_HEADER, Chunk, HEADER_BYTES};
use format::{FLI_PSTAMP, FRAME_TYPE, PREFIX_TYPE};
use reel_header::{Head, Takes};

// The most bytes of the input.
pub const LIST_INPUT: usize = 65536;

// The most bytes of a chunk's line, of the first line and of the last.
const LINE_MOST: usize = 20;

const HEAD_MOST: usize = 18;

const OK_MOST: usize = 3;

// The most bytes of a listing: a line for each 6 bytes behind the header, the first line and the last.
pub const LIST_MOST: usize = LINE_MOST * (LIST_INPUT - HEADER_BYTES) / CHUNK_HEADER
    + HEAD_MOST
    + OK_MOST;

// The deepest line.
const LIST_DEPTH: usize = 8;

// Whether a child of this kind is opened, inside a container of the parent's kind. Here and below a kind is the file's own number, of which any may
// come, so it is no enum.
#[tactic(auto, unfolding(crate::specs::Listing::opens))]
fn is_opened(kind: usize, parent: usize) -> bool
    ensures { result ≡ opens kind parent }
{
    match kind {
        FLI_PSTAMP => parent != FLI_PSTAMP,
        PREFIX_TYPE | FRAME_TYPE => true,
        _ => false,
    }
}

// The bytes of a container of this kind before its children.
fn head_bytes(kind: usize) -> usize
    ensures { result ≡ head_bytes kind }
{
    if kind == FLI_PSTAMP { 12 } else { 16 }
}

// How many children the container at an offset has.
#[tactic(auto, unfolding(crate::specs::Listing::count_at))]
fn child_count(b: &[u8], at: usize, kind: usize) -> usize
    requires { at + 8 ≤ length b.now }
    ensures { result ≡ count_at b.now at kind }
{
    if kind == FLI_PSTAMP {
        return 1;
    }
    words::u16_at(b, at + 6)
}

// Lists what is inside the container at offset at. The output and the place in it stay two parameters, as in list_text, whose Stored speaks of both.
#[cycle(listers)]
fn list_container(
    out: &mut [u8],
    start: usize,
    b: &[u8],
    depth: usize,
    at: usize,
    container: Chunk,
) -> usize
    requires { (at ≤ container.end) × (container.end ≤ length b.now) × (length b.now ≤ longest_input) × (depth ≤ list_depth)
        × Lines start (container.end - at - 6) out.old }
    ensures { Stored out.old start (container_of b.now depth at container.end container.kind) out.new result }
{
    let Chunk { kind, end } = container;
    let head = head_bytes(kind);
    if depth >= LIST_DEPTH || end - at < head {
        return start;
    }
    let count = child_count(b, at, kind);
    list_children(out, start, b, depth + 1, kind, end, count, at + head)
}

// Lists at most count children from offset from to offset to, each with what is inside it.
#[cycle(listers)]
fn list_children(
    out: &mut [u8],
    start: usize,
    b: &[u8],
    depth: usize,
    parent: usize,
    to: usize,
    count: usize,
    from: usize,
) -> usize
    requires { (from ≤ to) × (to ≤ length b.now) × (length b.now ≤ longest_input) × (depth ≤ list_depth) × Lines start (to - from) out.old }
    ensures { Stored out.old start (children_of b.now depth parent to count from) out.new result }
{
    let mut at = from;
    let mut n = start;
    for _ in 0..count {
        let Ok(child) = chunks::header_at(&b[..to], at) else {
            return n;
        };
        n = list_text::put_line(out, n, depth, at, child.kind, child.end - at);
        if is_opened(child.kind, parent) {
            n = list_container(out, n, b, depth, at, child);
        }
        at = child.end;
    }
    n
}

// Lists the chunks of the reel b, which has this header, up to the ring, which ends at offset end.
fn list_reel(out: &mut [u8], b: &[u8], head: Head, end: usize) -> usize
    requires { Listed b.now head.picture.width head.picture.height head.frames × (header_bytes ≤ end) × (end ≤ length b.now) × (list_most ≤ length out.old) }
    ensures { Stored out.old 0 (reel_lines b.now head.picture.width head.picture.height head.frames end) out.new result }
{
    let n = list_text::put_head(out, head.picture.width, head.picture.height, head.frames);
    let m = list_children(out, n, b, 0, 0, end, b.len(), HEADER_BYTES);
    list_text::put_ok(out, m)
}

// The listing of bytes, in a buffer that holds any; gives its length.
pub fn list_text(out: &mut [u8], bytes: &[u8]) -> usize
    requires { list_most ≤ length out.old }
    ensures { Stored out.old 0 (listing bytes.now) out.new result }
{
    if bytes.len() > LIST_INPUT {
        return list_text::put_refused(out, Refusal::NoRoom, 0);
    }
    // A refusal is written as a line here, and not handed on, so that there is no `?`.
    match reel_header::head_of(Takes::FlcOnly, bytes) {
        Err(e) => list_text::put_refused(out, e, 0),
        Ok(head) => match chunks::walk_frames(&bytes[..head.size], head.frames + 1) {
            Err(Refused(e, place)) => list_text::put_refused(out, e, place),
            Ok(end) => list_reel(out, &bytes[..head.size], head, end),
        },
    }
}

// Writes the listing of bytes to the output, if it fits.
pub fn list_into(bytes: &[u8], out: &mut [u8]) -> Result<usize, Refused>
    ensures { leaves (told_written result) (lent_bytes out.new) ≡ list bytes.now out.old }
{
    // Room for any listing and no String: the project takes no memory from a heap.
    let mut lines = [0; LIST_MOST];
    let n = list_text(&mut lines, bytes);
    if out.len() < n {
        return Err(Refused(Refusal::NoRoom, 0));
    }
    words::copy(&mut out[..n], &lines[..n]);
    Ok(n)
}
