// Reading one frame: document 01, "Frames, chunks and rows".
// A frame with few bytes in packets is read in two passes, a dry one, which is the check, and a wet one, which does the writes. One with
// many is read in one wet pass, over a picture and palette that were saved: if it is refused, they are put back.
#![tactic(auto)]

ghost use Rattle.std.specs.Prelude.{◌≡◌, ◌≤◌, length};
ghost use Rattle.format.specs.Limits.{area, Sized};
ghost use Rattle.answer.specs.Answer.{told};
ghost use Rattle.state.specs.State.{state, Exact};
ghost use Rattle.state.specs.Outcome.{lent_pair, leaves};
ghost use Rattle.walk.specs.Walk.{wrote, Room};
ghost use Rattle.chunks.specs.Spans.{sub_spans};
ghost use Rattle.read_frame.specs.Frame.{sub_chunks, frame};
ghost use Rattle.read_frame.specs.Packets.{packets_in, packet_bytes};
ghost use Rattle.read_frame.specs.Reading.{settled, read_frame};

use answer::{Refusal, Refused};
use chunks::{CHUNK_HEADER, FRAME_HEADER};
use format::Size;
use walk::Pass;

// The bytes in packets from which on one pass is faster than two (docs/BENCH.md).
const MANY: usize = 4096;

// Walks over count sub-chunks from offset 16 on.
fn walk_chunks(
    picture: &mut [u8],
    palette: &mut [u8],
    b: &[u8],
    size: Size,
    count: usize,
    pass: Pass,
) -> Result<(), Refused>
    requires { (16 ≤ length b.now) × Sized size.width size.height × Room pass (area size) picture.old × Room pass 768 palette.old }
    ensures answer { result ≡ (sub_chunks size b.now count 16).answer }
    ensures pixels { picture.new ≡ wrote pass (sub_chunks size b.now count 16).pixels picture.old }
    ensures colours { palette.new ≡ wrote pass (sub_chunks size b.now count 16).colours palette.old }
{
    let mut at = FRAME_HEADER;
    for _ in 0..count {
        let chunk = answer::placed(chunks::header_at(b, at), at)?;
        let body = &b[at + CHUNK_HEADER..chunk.end];
        let walked = read_chunk::walk_chunk(picture, palette, chunk.kind, body, size, pass);
        answer::placed(walked, at)?;
        at = chunk.end;
    }
    Ok(())
}

// Walks over a whole frame.
pub fn walk_frame(
    picture: &mut [u8],
    palette: &mut [u8],
    b: &[u8],
    size: Size,
    pass: Pass,
) -> Result<(), Refused>
    requires { Sized size.width size.height × Room pass (area size) picture.old × Room pass 768 palette.old }
    ensures answer { result ≡ (frame size b.now).answer }
    ensures pixels { picture.new ≡ wrote pass (frame size b.now).pixels picture.old }
    ensures colours { palette.new ≡ wrote pass (frame size b.now).colours palette.old }
{
    let header = answer::placed(chunks::frame_header(b), 0)?;
    walk_chunks(
        picture,
        palette,
        &b[..header.size],
        size,
        header.count,
        pass,
    )
}

// Checks a whole frame: a dry pass, for which no picture is needed.
pub fn check_frame(b: &[u8], size: Size) -> Result<(), Refused>
    requires { Sized size.width size.height }
    ensures { result ≡ (frame size b.now).answer }
{
    let mut picture = [0; 1];
    let mut palette = [0; 1];
    walk_frame(&mut picture[0..1], &mut palette[0..1], b, size, Pass::Dry)
}

// A sub-chunk of so many bytes: all of them, if its body is made of packets of pixels.
fn packets_in(kind: usize, bytes: usize) -> usize
    ensures { (result ≡ packets_in kind bytes) × (result ≤ bytes) }
{
    if kind == format::FLI_SS2 || kind == format::FLI_LC || kind == format::FLI_BRUN {
        return bytes;
    }
    0
}

// How many bytes of packets count sub-chunks from offset 16 on have, by their headers.
fn packet_bytes(b: &[u8], count: usize) -> usize
    requires { 16 ≤ length b.now }
    ensures { result ≡ packet_bytes (sub_spans b.now count 16).met }
{
    let mut total = 0;
    let mut at = FRAME_HEADER;
    for _ in 0..count {
        let Ok(chunk) = chunks::header_at(b, at) else {
            return total;
        };
        total += packets_in(chunk.kind, chunk.end - at);
        at = chunk.end;
    }
    total
}

// Plays sub-chunks in two passes.
fn play_twice(
    picture: &mut [u8],
    palette: &mut [u8],
    b: &[u8],
    size: Size,
    count: usize,
) -> Result<(), Refused>
    requires { (16 ≤ length b.now) × Exact size (state picture.old palette.old) }
    ensures answer { result ≡ (sub_chunks size b.now count 16).answer }
    ensures state { state picture.new palette.new
        ≡ settled (sub_chunks size b.now count 16) result (state picture.old palette.old) }
{
    walk_chunks(picture, palette, b, size, count, Pass::Dry)?;
    walk_chunks(picture, palette, b, size, count, Pass::Wet)
}

// Plays sub-chunks in one pass, over a picture and palette that are copied first and put back if it is refused. A function of its own,
// with the promises of the other, that is compiled into no caller: the room for the copies is taken only where a frame has many packets.
#[inline(never)]
fn play_saved(
    picture: &mut [u8],
    palette: &mut [u8],
    b: &[u8],
    size: Size,
    count: usize,
) -> Result<(), Refused>
    requires { (16 ≤ length b.now) × Exact size (state picture.old palette.old) }
    ensures answer { result ≡ (sub_chunks size b.now count 16).answer }
    ensures state { state picture.new palette.new
        ≡ settled (sub_chunks size b.now count 16) result (state picture.old palette.old) }
{
    let mut pixels = state::picture_room();
    let mut colours = state::palette_room();
    let n = picture.len();
    words::copy(&mut pixels[..n], picture);
    words::copy(&mut colours, palette);
    let answer = walk_chunks(picture, palette, b, size, count, Pass::Wet);
    if answer.is_err() {
        words::copy(picture, &pixels[..n]);
        words::copy(palette, &colours);
    }
    answer
}

// Plays a frame, if it is accepted.
pub fn play_frame(
    picture: &mut [u8],
    palette: &mut [u8],
    b: &[u8],
    size: Size,
) -> Result<(), Refused>
    requires { Exact size (state picture.old palette.old) }
    ensures answer { result ≡ (frame size b.now).answer }
    ensures state { state picture.new palette.new
        ≡ settled (frame size b.now) result (state picture.old palette.old) }
{
    let header = answer::placed(chunks::frame_header(b), 0)?;
    let whole = &b[..header.size];
    if packet_bytes(whole, header.count) < MANY {
        return play_twice(picture, palette, whole, size, header.count);
    }
    play_saved(picture, palette, whole, size, header.count)
}

// Reads one frame against the picture and palette that show.
pub fn read_frame(
    bytes: &[u8],
    size: Size,
    picture: &mut [u8],
    palette: &mut [u8],
) -> Result<(), Refused>
    ensures { leaves (told result) (lent_pair (state picture.new palette.new))
        ≡ read_frame bytes.now size (state picture.old palette.old) }
{
    if !format::size_fits(size) {
        return Err(Refused(Refusal::BadSize, 0));
    }
    let n = size.width * size.height;
    if !state::holds(picture.len(), palette.len(), n) {
        return Err(Refused(Refusal::ShortSlice, 0));
    }
    play_frame(
        &mut picture[..n],
        &mut palette[..format::PALETTE_BYTES],
        bytes,
        size,
    )
}
