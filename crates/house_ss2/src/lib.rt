// The house form's delta: sized, and written (document 01, "House form of a frame", Delta).
// previous and next are two pictures of width by height; a row is a and b: as it was, and as it is to be.
#![tactic(auto)]

ghost use Rattle.std.specs.Prelude.{◌≡◌, ◌+◌, ◌*◌, ◌≤◌, length};
ghost use Rattle.std.proofs.Common.{arith};
ghost use mathlib.Core.List.{flat_map};
ghost use Rattle.words.specs.Writes.{put};
ghost use Rattle.format.specs.Limits.{Wide, High};
ghost use Rattle.house_cells.specs.Rows.{row, stretch_at};
ghost use Rattle.house_ss2.specs.Line.{counted, last_changes, line, line_most};
ghost use Rattle.house_ss2.specs.Delta.{skip_word, stretch_lines, changed_rows, line_count, delta_body, delta_most};

use house_packets::{Form, Line};

// Kind 7 counts pairs; two equal ones are a repeat, and the longest skip is 254.
const FORM: Form = Form {
    unit: 2,
    least: 2,
    longest: 254,
};

// Whether the row has a last-pixel word.
fn last_changes(a: &[u8], b: &[u8], width: usize) -> bool
    requires { (1 ≤ width) × (length a.now ≡ width) × (length b.now ≡ width) }
    ensures { result ≡ last_changes width (row a.now b.now) }
{
    if width % 2 == 0 {
        return false;
    }
    a[width - 1] != b[width - 1]
}

// Stores the packet count and the packets of a row; answers where they end.
fn put_counted(out: &mut [u8], at: usize, a: &[u8], b: &[u8], width: usize) -> usize
    requires { Wide width × (length a.now ≡ width) × (length b.now ≡ width)
        × (at + length (counted width (row a.now b.now)) ≤ length out.old) }
    ensures { (result ≡ at + length (counted width (row a.now b.now)))
        × (out.new ≡ put out.old at (counted width (row a.now b.now))) }
{
    let p = house_packets::put_row(out, at + 2, a, b, FORM, width / 2);
    words::put_u16(out, at, p.count);
    p.end
}

// Kind 7, by its line of a row.
struct Pairs;

impl Line for Pairs {
    ghost line = { line };

    ghost line_most = { line_most };

    fn line_size(a: &[u8], b: &[u8], width: usize) -> usize {
        let size = house_packets::row_size(a, b, FORM, width / 2);
        if last_changes(a, b, width) {
            return 4 + size;
        }
        2 + size
    }

    fn put_line(out: &mut [u8], at: usize, a: &[u8], b: &[u8], width: usize) -> usize {
        if last_changes(a, b, width) {
            words::put_two(out, at, usize::from(b[width - 1]), 128);
            return put_counted(out, at + 2, a, b, width);
        }
        put_counted(out, at, a, b, width)
    }

    ghost line_fits = { Prim.omega arith };
}

// The bytes of the skip word before a gap of g rows.
fn skip_size(g: usize) -> usize
    ensures { (result ≡ length (skip_word g)) × (result ≤ 2) }
{
    if g == 0 { 0 } else { 2 }
}

// The bytes of the delta's body. Kind 12's has no skip words, and a first row and a count before its lines: two bodies, not one.
pub fn delta_size(previous: &[u8], next: &[u8], width: usize, height: usize) -> usize
    requires { (1 ≤ width) × Wide width × High height
        × (length previous.now ≡ width * height) × (length next.now ≡ width * height) }
    ensures { (result ≡ length (delta_body width height previous.now next.now)) × (result ≤ delta_most) }
{
    let mut i = 0;
    let mut size = 0;
    // A cursor that steps by stretches.
    while let Some(s) = house_cells::next_stretch(previous, next, width, height, i) {
        let first = i + s.gap;
        size += skip_size(s.gap)
            + house_packets::lines_size::<Pairs>(previous, next, width, first, s.changed);
        i += s.gap + s.changed;
    }
    2 + size
}

// Stores the skip word before a gap of g rows; answers where it ends.
fn put_skip(out: &mut [u8], at: usize, g: usize) -> usize
    requires { High g × (at + length (skip_word g) ≤ length out.old) }
    ensures { (result ≡ at + length (skip_word g)) × (out.new ≡ put out.old at (skip_word g)) }
{
    if g == 0 {
        return at;
    }
    words::put_u16(out, at, 65536 - g);
    at + 2
}

// Stores the stretch of n changed rows after row i and a gap of g rows; answers where it ends.
fn put_stretch(
    out: &mut [u8],
    at: usize,
    previous: &[u8],
    next: &[u8],
    width: usize,
    i: usize,
    g: usize,
    n: usize,
) -> usize
    requires { (1 ≤ width) × Wide width × High g
        × ((i + g + n) * width ≤ length previous.now) × ((i + g + n) * width ≤ length next.now)
        × (at + length (stretch_lines width (stretch_at width i g n previous.now next.now)) ≤ length out.old) }
    ensures { (result ≡ at + length (stretch_lines width (stretch_at width i g n previous.now next.now)))
        × (out.new ≡ put out.old at (stretch_lines width (stretch_at width i g n previous.now next.now))) }
{
    let here = put_skip(out, at, g);
    house_packets::put_lines::<Pairs>(out, here, previous, next, width, i + g, n)
}

// Stores the delta's lines and skip words; answers how many lines they are.
fn put_rows(
    out: &mut [u8],
    at: usize,
    previous: &[u8],
    next: &[u8],
    width: usize,
    height: usize,
) -> usize
    requires { (1 ≤ width) × Wide width × High height
        × (length previous.now ≡ width * height) × (length next.now ≡ width * height)
        × (at + length (flat_map (stretch_lines width) (changed_rows width height previous.now next.now)) ≤ length out.old) }
    ensures { (result ≡ line_count width height previous.now next.now) × (result ≤ height)
        × (out.new ≡ put out.old at (flat_map (stretch_lines width) (changed_rows width height previous.now next.now))) }
{
    let mut i = 0;
    let mut here = at;
    let mut count = 0;
    // A cursor that steps by stretches.
    while let Some(s) = house_cells::next_stretch(previous, next, width, height, i) {
        here = put_stretch(out, here, previous, next, width, i, s.gap, s.changed);
        count += s.changed;
        i += s.gap + s.changed;
    }
    count
}

// Writes the delta's body.
pub fn write_delta(
    out: &mut [u8],
    at: usize,
    previous: &[u8],
    next: &[u8],
    width: usize,
    height: usize,
)
    requires { (1 ≤ width) × Wide width × High height
        × (length previous.now ≡ width * height) × (length next.now ≡ width * height)
        × (at + length (delta_body width height previous.now next.now) ≤ length out.old) }
    ensures { out.new ≡ put out.old at (delta_body width height previous.now next.now) }
{
    let count = put_rows(out, at + 2, previous, next, width, height);
    words::put_u16(out, at, count);
}
