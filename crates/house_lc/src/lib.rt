// The house form's delta of an FLI: sized, and written (document 02, Req 06).
// previous and next are two pictures of width by height: as it was, and as it is to be.
#![tactic(auto)]

ghost use Rattle.std.specs.Prelude.{◌≡◌, ◌+◌, ◌*◌, ◌≤◌, length};
ghost use Rattle.std.proofs.Common.{arith};
ghost use Rattle.words.specs.Writes.{put};
ghost use Rattle.format.specs.Limits.{Wide, High};
ghost use Rattle.house_cells.specs.Cells.{cells, stays};
ghost use Rattle.house_cells.specs.Rows.{row_at};
ghost use Rattle.house_lc.specs.Line.{line, line_most};
ghost use Rattle.house_lc.specs.Delta.{up_to_last, first_row, row_count, delta_body, delta_most};

use house_cells::Sought;
use house_packets::{Form, Line};

// Kind 12 counts single pixels; three equal ones are a repeat, and the longest skip is 255.
const FORM: Form = Form {
    unit: 1,
    least: 3,
    longest: 255,
};

// Kind 12, by its line of a row.
struct Pixels;

impl Line for Pixels {
    ghost line = { line };

    ghost line_most = { line_most };

    fn line_size(a: &[u8], b: &[u8], width: usize) -> usize {
        1 + house_packets::row_size(a, b, FORM, width)
    }

    fn put_line(out: &mut [u8], at: usize, a: &[u8], b: &[u8], width: usize) -> usize {
        let p = house_packets::put_row(out, at + 1, a, b, FORM, width);
        out[at] = p.count as u8;
        p.end
    }

    ghost line_fits = { Prim.omega arith };
}

// Rows one after the other: the first, and how many.
#[derive(Clone, Copy)]
struct Rows {
    first: usize,
    count: usize,
}

// Whether row r is unchanged.
fn row_stays(previous: &[u8], next: &[u8], width: usize, r: usize) -> bool
    requires { (r * width + width ≤ length previous.now) × (r * width + width ≤ length next.now) }
    ensures { result ≡ stays (row_at width r previous.now next.now) }
{
    let a = r * width;
    let e = a + width;
    words::same_bytes(&previous[a..e], &next[a..e])
}

// How many rows there are up to and with the last changed one, which is looked for from the bottom up.
fn up_to_last(previous: &[u8], next: &[u8], width: usize, height: usize) -> usize
    requires { (height * width ≤ length previous.now) × (height * width ≤ length next.now) }
    ensures { (result ≡ up_to_last (cells width height previous.now next.now)) × (result ≤ height) }
{
    for r in (0..height).rev() {
        if !row_stays(previous, next, width, r) {
            return r + 1;
        }
    }
    0
}

// The rows from the first changed to the last.
fn changed_rows(previous: &[u8], next: &[u8], width: usize, height: usize) -> Rows
    requires { (height * width ≤ length previous.now) × (height * width ≤ length next.now) }
    ensures { (result.first ≡ first_row width height previous.now next.now)
        × (result.count ≡ row_count width height previous.now next.now) × (result.first + result.count ≤ height) }
{
    let first = house_cells::run_of(previous, next, width, height, 0, Sought::Unchanged);
    let end = up_to_last(previous, next, width, height);
    Rows {
        first,
        count: end.saturating_sub(first),
    }
}

// The bytes of the delta's body. Kind 7's has skip words between its lines: two bodies, not one.
pub fn delta_size(previous: &[u8], next: &[u8], width: usize, height: usize) -> usize
    requires { (1 ≤ width) × Wide width × High height
        × (length previous.now ≡ width * height) × (length next.now ≡ width * height) }
    ensures { (result ≡ length (delta_body width height previous.now next.now)) × (result ≤ delta_most) }
{
    let rows = changed_rows(previous, next, width, height);
    4 + house_packets::lines_size::<Pixels>(previous, next, width, rows.first, rows.count)
}

// Writes the delta's body.
pub fn write_delta(
    out: &mut [u8],
    at: usize,
    previous: &[u8],
    next: &[u8],
    width: usize,
    height: usize,
)
    requires { (1 ≤ width) × Wide width × High height
        × (length previous.now ≡ width * height) × (length next.now ≡ width * height)
        × (at + length (delta_body width height previous.now next.now) ≤ length out.old) }
    ensures { out.new ≡ put out.old at (delta_body width height previous.now next.now) }
{
    let rows = changed_rows(previous, next, width, height);
    words::put_u16(out, at, rows.first);
    words::put_u16(out, at + 2, rows.count);
    house_packets::put_lines::<Pixels>(out, at + 4, previous, next, width, rows.first, rows.count);
}
