// The full picture chunks of the house form, BLACK, BRUN and COPY: which is shortest, its size, its bytes
// (document 01, "House form of a frame", "Full chunks").
#![tactic(auto)]

ghost use Rattle.std.specs.Prelude.{◌≡◌, ◌+◌, ◌≤◌, min, ltb, length};
ghost use Rattle.words.specs.Writes.{put};
ghost use Rattle.format.specs.Limits.{Wide};
ghost use Rattle.state.specs.State.{Picture};
ghost use Rattle.house_full.specs.Edges.{edges, all_edges};
ghost use Rattle.format.specs.Format.{FLI_BRUN as fli_brun};
ghost use Rattle.house_rows.specs.Search.{types};
ghost use Rattle.house_full.specs.Full.{brun_row, brun_body, all_zero, full_chunk, full_kind};
ghost use Rattle.house_full.specs.Plan.{row_types, full_plan};

use format::{FLI_BLACK, FLI_BRUN, FLI_COPY};
use house_rows::{plan_row, write_row};
use words::{put_bytes, put_header};

// Whether every pixel is 0.
fn all_zero(picture: &[u8]) -> bool
    ensures { result ≡ all_zero picture.now }
{
    picture.iter().all(|x| *x == 0)
}

// How many pixels of a row differ from the one before. The count is narrow, so that the loop compares many at a time.
fn row_edges(row: &[u8]) -> u16
    requires { (1 ≤ length row.now) × Wide (length row.now) }
    ensures { result ≡ edges row.now }
{
    let last = row.len() - 1;
    let mut count: u16 = 0;
    for i in 0..last {
        if row[i] != row[i + 1] {
            count += 1;
        }
    }
    count
}

// The functions below take width and height: a `Size` has the format too, on which no full chunk hangs.

// Whether the rows together have more than n edges. Where they do, every full chunk has a body of more than n bytes.
// The rows are cut by their width: the height is for the contract alone.
pub fn more_edges(picture: &[u8], width: usize, height: usize, n: usize) -> bool
    requires { Picture width height picture.now }
    ensures { result ≡ ltb n (all_edges width height picture.now) }
{
    let mut count = 0;
    for row in picture.chunks_exact(width) {
        count += usize::from(row_edges(row));
    }
    n < count
}

// The size of the BRUN body. The plan, as long as the picture, gets what is noted of each row.
fn brun_size(plan: &mut [u8], picture: &[u8], width: usize, height: usize) -> usize
    requires { Picture width height picture.now × (length plan.old ≡ length picture.now) }
    ensures { (result ≡ length (brun_body width height picture.now))
        × (plan.new ≡ row_types width height picture.now) }
{
    let mut size = 0;
    let mut from = 0;
    for _ in 0..height {
        let end = from + width;
        let row = plan_row(&mut plan[from..end], &picture[from..end]);
        size += 1 + row.bytes;
        from = end;
    }
    size
}

// A full chunk's kind, and its size, its header included. The kind is the format's number: a plan of house_frame has it beside the kinds of
// other sub-chunks, so that an enum would be turned into the number and back.
#[derive(Clone, Copy)]
pub struct FullSize {
    pub kind: usize,
    pub size: usize,
}

// The shortest full chunk. Where rows are searched, the plan gets what `write_full` goes by.
pub fn measure_full(plan: &mut [u8], picture: &[u8], width: usize, height: usize) -> FullSize
    requires { Picture width height picture.now × (length plan.old ≡ length picture.now) }
    ensures { (result.kind ≡ full_kind width height picture.now)
        × (result.size ≡ length (full_chunk width height picture.now))
        × (plan.new ≡ full_plan width height picture.now plan.old) }
{
    if all_zero(picture) {
        return FullSize {
            kind: FLI_BLACK,
            size: 6,
        };
    }
    let size = brun_size(plan, picture, width, height);
    if size <= picture.len() {
        return FullSize {
            kind: FLI_BRUN,
            size: 6 + size,
        };
    }
    FullSize {
        kind: FLI_COPY,
        size: 6 + picture.len(),
    }
}

// Writes a row of the BRUN body. Returns its size.
fn write_brun_row(out: &mut [u8], at: usize, row: &[u8], first: &[u8]) -> usize
    requires { Wide (length row.now)
        × (first.now ≡ types row.now)
        × (at + length (brun_row row.now) ≤ length out.old) }
    ensures { (result ≡ length (brun_row row.now))
        × (out.new ≡ put out.old at (brun_row row.now)) }
{
    let written = write_row(out, at + 1, row, first);
    // The packet count as the ignored byte has it.
    out[at] = written.packets.min(255) as u8;
    1 + written.size
}

// Writes the BRUN body. Returns its size.
fn write_brun(
    out: &mut [u8],
    at: usize,
    picture: &[u8],
    plan: &[u8],
    width: usize,
    height: usize,
) -> usize
    requires { Picture width height picture.now
        × (plan.now ≡ row_types width height picture.now)
        × (at + length (brun_body width height picture.now) ≤ length out.old) }
    ensures { (result ≡ length (brun_body width height picture.now))
        × (out.new ≡ put out.old at (brun_body width height picture.now)) }
{
    let mut here = at;
    let mut from = 0;
    for _ in 0..height {
        let end = from + width;
        here += write_brun_row(out, here, &picture[from..end], &plan[from..end]);
        from = end;
    }
    here - at
}

// Writes the shortest full chunk, whose kind is given, as planned.
pub fn write_full(
    out: &mut [u8],
    at: usize,
    picture: &[u8],
    plan: &[u8],
    width: usize,
    height: usize,
    kind: usize,
)
    requires { Picture width height picture.now
        × (kind ≡ full_kind width height picture.now)
        × (kind ≡ fli_brun → plan.now ≡ row_types width height picture.now)
        × (at + length (full_chunk width height picture.now) ≤ length out.old) }
    ensures { out.new ≡ put out.old at (full_chunk width height picture.now) }
{
    match kind {
        FLI_BLACK => put_header(out, at, 6, FLI_BLACK),
        FLI_BRUN => {
            let size = write_brun(out, at + 6, picture, plan, width, height);
            put_header(out, at, 6 + size, FLI_BRUN);
        }
        _ => {
            put_header(out, at, 6 + picture.len(), FLI_COPY);
            put_bytes(out, at + 6, picture);
        }
    }
}
