// Writing one frame in house form: document 01, "House form of a frame".
// A first pass measures it and writes nothing, a second writes it. Each row is searched once at most: the first pass notes what the second goes by.
#![tactic(auto)]

ghost use Rattle.std.specs.Prelude.{◌≡◌, false, ◌+◌, ◌<◌, ◌≤◌, length};
ghost use mathlib.Core.List.{flatten};
ghost use Rattle.words.specs.Words.{same};
ghost use Rattle.words.specs.Writes.{put};
ghost use Rattle.answer.specs.Answer.{told_written};
ghost use Rattle.state.specs.State.{shown, Picture, Exact};
ghost use Rattle.state.specs.Outcome.{lent_bytes, leaves, fitted};
ghost use Rattle.house_delta.specs.Delta.{delta_chunk};
ghost use Rattle.house_full.specs.Plan.{row_types, full_plan};
ghost use Rattle.house_frame.specs.House.{colour_chunk, picture_chunk, changed, house_frame};
ghost use Rattle.house_frame.specs.Plans.{plan_count, plan_size, OfBrun, colour_plan, delta_plan, shorter_plan, picture_plan, header_bytes};
ghost use Rattle.house_frame.specs.Writing.{write_frame};

use answer::{Refusal, Refused};
use format::{FLI_COLOR256, FRAME_TYPE, Size};
use state::Pair;
use words::{put_header, same_bytes};

// A sub-chunk before it is written: its kind, as the number that its header gets, and its bytes.
#[derive(Clone, Copy)]
struct ChunkPlan {
    kind: usize,
    size: usize,
}

// The bytes of a sub-chunk, if there is one.
fn size_of(plan: Option<ChunkPlan>) -> usize
    ensures { result ≡ plan_size plan }
{
    match plan {
        Some(chunk) => chunk.size,
        None => 0,
    }
}

// How many sub-chunks there are.
fn count_of(plan: Option<ChunkPlan>) -> usize
    ensures { result ≡ plan_count plan }
{
    match plan {
        Some(_) => 1,
        None => 0,
    }
}

// Plans the colour chunk, if there is a change.
fn measure_colours(previous: &[u8], next: &[u8]) -> Option<ChunkPlan>
    requires { (length previous.now ≡ 768) × (length next.now ≡ 768) }
    ensures { result ≡ colour_plan previous.now next.now }
{
    if same_bytes(previous, next) {
        return None;
    }
    let body = house_colour::colour_size(previous, next);
    Some(ChunkPlan {
        kind: FLI_COLOR256,
        size: 6 + body,
    })
}

// The delta's plan, and whether a full chunk may be as short: a second fact, which is false too where there is a plan.
#[derive(Clone, Copy)]
struct DeltaPlan {
    chunk: Option<ChunkPlan>,
    search: bool,
}

// Plans the delta. A short one mostly has fewer bytes than the picture has edges: then every full chunk is longer, and the least BRUN rows
// need not be searched for.
fn measure_delta(previous: &[u8], next: &[u8], size: Size) -> DeltaPlan
    requires { Picture size.width size.height previous.now × Picture size.width size.height next.now }
    ensures { result ≡ delta_plan size previous.now next.now }
{
    if same_bytes(previous, next) {
        return DeltaPlan {
            chunk: None,
            search: false,
        };
    }
    let delta = house_delta::delta_size(previous, next, size);
    let edges = house_full::more_edges(next, size.width, size.height, delta);
    DeltaPlan {
        chunk: Some(ChunkPlan {
            kind: house_delta::delta_kind(size.format),
            size: 6 + delta,
        }),
        search: !edges,
    }
}

// Plans the picture chunk: the delta, whose bytes are given, if it is strictly shorter than the full chunk.
fn measure_picture(rows: &mut [u8], next: &[u8], size: Size, delta: usize) -> ChunkPlan
    requires { Picture size.width size.height next.now × (length rows.old ≡ length next.now) }
    ensures { (result ≡ shorter_plan size next.now delta)
        × (rows.new ≡ full_plan size.width size.height next.now rows.old) }
{
    let full = house_full::measure_full(rows, next, size.width, size.height);
    if full.size <= delta {
        return ChunkPlan {
            kind: full.kind,
            size: full.size,
        };
    }
    ChunkPlan {
        kind: house_delta::delta_kind(size.format),
        size: delta,
    }
}

// Stores the header of a frame of size bytes and count sub-chunks.
fn put_frame_header(out: &mut [u8], size: usize, count: usize)
    requires { (16 ≤ length out.old) × (count < 65536) }
    ensures { out.new ≡ put out.old 0 (header_bytes size count) }
{
    put_header(out, 0, size, FRAME_TYPE);
    words::put_u16(out, 6, count);
    words::fill(&mut out[8..16], 0);
}

// Writes the colour chunk as planned.
fn write_colours(out: &mut [u8], at: usize, previous: &[u8], next: &[u8], plan: Option<ChunkPlan>)
    requires { (length previous.now ≡ 768) × (length next.now ≡ 768) × (plan ≡ colour_plan previous.now next.now) × (at + plan_size plan ≤ length out.old) }
    ensures { out.new
        ≡ put out.old at (flatten (changed previous.now next.now (colour_chunk previous.now next.now))) }
{
    if let Some(chunk) = plan {
        put_header(out, at, chunk.size, FLI_COLOR256);
        house_colour::write_colour(out, at + 6, previous, next);
    }
}

// Writes the picture chunk as planned, a BRUN chunk by its rows' plan.
fn write_picture(
    out: &mut [u8],
    at: usize,
    previous: &[u8],
    next: &[u8],
    rows: &[u8],
    size: Size,
    plan: Option<ChunkPlan>,
)
    requires { Picture size.width size.height previous.now × Picture size.width size.height next.now
        × (plan ≡ picture_plan size previous.now next.now)
        × (OfBrun plan → rows.now ≡ row_types size.width size.height next.now)
        × (at + plan_size plan ≤ length out.old) }
    ensures { out.new
        ≡ put out.old at (flatten (changed previous.now next.now (picture_chunk size previous.now next.now))) }
{
    let Some(chunk) = plan else {
        return;
    };
    let kind = house_delta::delta_kind(size.format);
    if chunk.kind == kind {
        put_header(out, at, chunk.size, kind);
        house_delta::write_delta(out, at + 6, previous, next, size);
        return;
    }
    house_full::write_full(out, at, next, rows, size.width, size.height, chunk.kind);
}

// Writes the house frame as planned, if it fits.
fn write_planned(
    out: &mut [u8],
    previous: Pair<'_>,
    next: Pair<'_>,
    rows: &[u8],
    size: Size,
    colours: Option<ChunkPlan>,
    picture: Option<ChunkPlan>,
) -> Result<usize, Refused>
    requires { Exact size (shown previous) × Exact size (shown next)
        × (colours ≡ colour_plan previous.palette.now next.palette.now)
        × (picture ≡ picture_plan size previous.picture.now next.picture.now)
        × (OfBrun picture → rows.now ≡ row_types size.width size.height next.picture.now) }
    ensures { leaves (told_written result) (lent_bytes out.new)
        ≡ fitted (house_frame size (shown previous.entry) (shown next.entry)) out.old }
{
    let at = 16 + size_of(colours);
    let whole = at + size_of(picture);
    if out.len() < whole {
        return Err(Refused(Refusal::NoRoom, 0));
    }
    put_frame_header(out, whole, count_of(colours) + count_of(picture));
    write_colours(out, 16, previous.palette, next.palette, colours);
    write_picture(out, at, previous.picture, next.picture, rows, size, picture);
    Ok(whole)
}

// The same where the pictures differ and rows are searched; delta: the bytes of the delta.
fn write_searched(
    out: &mut [u8],
    previous: Pair<'_>,
    next: Pair<'_>,
    size: Size,
    colours: Option<ChunkPlan>,
    delta: usize,
) -> Result<usize, Refused>
    requires { Exact size (shown previous) × Exact size (shown next)
        × (colours ≡ colour_plan previous.palette.now next.palette.now)
        × (same previous.picture.now next.picture.now ≡ false)
        × (delta ≡ length (delta_chunk size previous.picture.now next.picture.now)) }
    ensures { leaves (told_written result) (lent_bytes out.new)
        ≡ fitted (house_frame size (shown previous.entry) (shown next.entry)) out.old }
{
    let mut rows = state::picture_room();
    let n = next.picture.len();
    let picture = measure_picture(&mut rows[0..n], next.picture, size, delta);
    write_planned(
        out,
        previous,
        next,
        &rows[0..n],
        size,
        colours,
        Some(picture),
    )
}

// Writes the house frame from a previous state to a next one, if it fits.
pub fn write_house(
    out: &mut [u8],
    previous: Pair<'_>,
    next: Pair<'_>,
    size: Size,
) -> Result<usize, Refused>
    requires { Exact size (shown previous) × Exact size (shown next) }
    ensures { leaves (told_written result) (lent_bytes out.new)
        ≡ fitted (house_frame size (shown previous.entry) (shown next.entry)) out.old }
{
    let colours = measure_colours(previous.palette, next.palette);
    let delta = measure_delta(previous.picture, next.picture, size);
    if delta.search {
        return write_searched(out, previous, next, size, colours, size_of(delta.chunk));
    }
    write_planned(
        out,
        previous,
        next,
        &next.picture[0..0],
        size,
        colours,
        delta.chunk,
    )
}

// Writes one frame: the house frame from the previous picture and palette to the next.
pub fn write_frame(
    size: Size,
    previous: Pair<'_>,
    next: Pair<'_>,
    out: &mut [u8],
) -> Result<usize, Refused>
    ensures { leaves (told_written result) (lent_bytes out.new)
        ≡ write_frame size (shown previous.entry) (shown next.entry) out.old }
{
    if !format::size_fits(size) {
        return Err(Refused(Refusal::BadSize, 0));
    }
    let n = size.width * size.height;
    if !previous.holds(n) {
        return Err(Refused(Refusal::ShortSlice, 0));
    }
    if !next.holds(n) {
        return Err(Refused(Refusal::ShortSlice, 0));
    }
    write_house(out, previous.front(n), next.front(n), size)
}
