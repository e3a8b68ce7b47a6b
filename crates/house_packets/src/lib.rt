// The packets of a row in a delta of the house form: sized, and stored (document 01, "House form of a frame", Delta).
// A row is a and b: as it was, and as it is to be. A stretch of changed units is written from b alone.
#![tactic(auto)]

ghost use Rattle.std.specs.Prelude.{ℕ, ◌≡◌, ◌+◌, ◌*◌, ◌≤◌, ◌<◌, List, length};
ghost use mathlib.Core.List.{flat_map};
ghost use Rattle.words.specs.Words.{same};
ghost use Rattle.words.specs.Writes.{put};
ghost use Rattle.format.specs.Limits.{Wide, High, max_width};
ghost use Rattle.house_cells.specs.Cells.{Cell, cells_at};
ghost use Rattle.house_cells.specs.Rows.{row};
ghost use Rattle.house_packets.specs.Packets.{bytes, equals, repeats, up_to_repeat, unit_packets, shortenings, gap_packets, row_packets};
ghost use Rattle.house_packets.specs.Units.{Form as IsForm, unit_at, units_at, PacketAt, empty_packets, Stores};

// How packets are formed: how many pixels a unit is, how many equal next units make a repeat, and the longest skip. Down to the line of a row,
// all that takes a form is compiled into the line of its kind, where it is a constant: with forms in memory, writing took up to 1.8 of the time
// where packets are many.
#[derive(Clone, Copy)]
pub struct Form {
    pub unit: usize,
    pub least: usize,
    pub longest: usize,
    ghost fits: { IsForm unit least longest },
}

// A packet to be stored: how many units it takes, its type, how many bytes of data it has.
#[derive(Clone, Copy)]
struct Planned {
    units: usize,
    code: usize,
    len: usize,
}

// Packets that are stored: how many, and where they end.
#[derive(Clone, Copy)]
pub struct Stored {
    pub count: usize,
    pub end: usize,
}

// Whether units x and y are equal.
#[inline(always)]
fn same_unit(b: &[u8], form: Form, x: usize, y: usize) -> bool
    requires { (x * form.unit + form.unit ≤ length b.now) × (y * form.unit + form.unit ≤ length b.now) }
    ensures { result ≡ same (unit_at form.unit b.now x) (unit_at form.unit b.now y) }
{
    let i = x * form.unit;
    let j = y * form.unit;
    if b[i] != b[j] {
        return false;
    }
    if form.unit == 1 {
        return true;
    }
    b[i + 1] == b[j + 1]
}

// How many of m units from unit x on are equal to unit v.
#[inline(always)]
fn equals_of(b: &[u8], form: Form, v: usize, x: usize, m: usize) -> usize
    requires { (v * form.unit + form.unit ≤ length b.now) × ((x + m) * form.unit ≤ length b.now) }
    ensures { (result ≡ equals (unit_at form.unit b.now v) (units_at form.unit b.now x m)) × (result ≤ m) }
{
    for j in 0..m {
        if !same_unit(b, form, v, x + j) {
            return j;
        }
    }
    m
}

// Whether a repeat begins at unit x, with m units left.
#[inline(always)]
fn repeats_at(b: &[u8], form: Form, x: usize, m: usize) -> bool
    requires { (x + m) * form.unit ≤ length b.now }
    ensures { result ≡ repeats form.least (units_at form.unit b.now x m) }
{
    if m < form.least {
        return false;
    }
    let more = form.least - 1;
    equals_of(b, form, x, x + 1, more) == more
}

// How many of m units from unit x on stand before the first repeat.
#[inline(always)]
fn up_to_repeat(b: &[u8], form: Form, x: usize, m: usize) -> usize
    requires { (x + m) * form.unit ≤ length b.now }
    ensures { result ≡ up_to_repeat form.least (units_at form.unit b.now x m) }
{
    for j in 0..m {
        if repeats_at(b, form, x + j, m - j) {
            return j;
        }
    }
    m
}

// The first packet of m units from unit x on. A packet takes 127 units at most, so no more than these and a repeat's next are looked at.
#[inline(always)]
fn packet_at(b: &[u8], form: Form, x: usize, m: usize) -> Planned
    requires { (1 ≤ m) × ((x + m) * form.unit ≤ length b.now) }
    ensures { PacketAt form.unit form.least b.now x m result.units result.code result.len }
{
    if repeats_at(b, form, x, m) {
        let n = equals_of(b, form, x, x, m.min(127));
        return Planned {
            units: n,
            code: 256 - n,
            len: form.unit,
        };
    }
    let n = up_to_repeat(b, form, x, m.min(126 + form.least)).min(127);
    Planned {
        units: n,
        code: n,
        len: n * form.unit,
    }
}

// How often a gap of g pixels is shortened.
#[inline(always)]
fn shortened(form: Form, g: usize) -> usize
    ensures { (result ≡ shortenings form.longest g) × (result ≤ g)
        × (form.longest * result ≤ g) × (g ≤ form.longest + form.longest * result) }
{
    if g <= form.longest {
        return 0;
    }
    (g - 1) / form.longest
}

// The bytes of the packets of m units from unit x on after a gap of g pixels.
#[inline(always)]
fn gap_size(b: &[u8], form: Form, x: usize, m: usize, g: usize) -> usize
    requires { ((x + m) * form.unit ≤ length b.now) × Wide g × Wide m }
    ensures { (result ≡ length (bytes (gap_packets form.least form.longest g (units_at form.unit b.now x m)))) × (result ≤ 2 * g + 4 * m) }
{
    let mut i = x;
    let mut left = m;
    let mut size = 2 * shortened(form, g);
    // A cursor that steps by packets.
    while 0 < left {
        let p = packet_at(b, form, i, left);
        i += p.units;
        left -= p.units;
        size += 2 + p.len;
    }
    size
}

// The bytes of the packets of a row of n units.
#[inline(always)]
pub fn row_size(a: &[u8], b: &[u8], form: Form, n: usize) -> usize
    requires { Wide (n * form.unit) × (n * form.unit ≤ length a.now) × (n * form.unit ≤ length b.now) }
    ensures { (result ≡ length (bytes (row_packets form.unit form.least form.longest n a.now b.now))) × (result ≤ 4 * n) }
{
    let mut i = 0;
    let mut size = 0;
    // A cursor that steps by stretches.
    while let Some(s) = house_cells::next_stretch(a, b, form.unit, n, i) {
        size += gap_size(b, form, i + s.gap, s.changed, form.unit * s.gap);
        i += s.gap + s.changed;
    }
    size
}

// Stores s packets of the longest skip and type 0.
#[inline(always)]
fn put_empty(out: &mut [u8], at: usize, form: Form, s: usize)
    requires { at + 2 * s ≤ length out.old }
    ensures { out.new ≡ put out.old at (empty_packets form.longest s) }
{
    for k in 0..s {
        words::put_two(out, at + 2 * k, form.longest, 0);
    }
}

// Stores the packets of m units from unit x on after k pixels.
#[inline(always)]
fn put_units(
    out: &mut [u8],
    at: usize,
    b: &[u8],
    form: Form,
    x: usize,
    m: usize,
    k: usize,
) -> Stored
    requires { ((x + m) * form.unit ≤ length b.now) × (k < 256) × Wide m
        × (at + length (bytes (unit_packets form.least k 0 (units_at form.unit b.now x m))) ≤ length out.old) }
    ensures { Stores (unit_packets form.least k 0 (units_at form.unit b.now x m)) out.old at out.new result.count result.end × (result.count ≤ m) }
{
    let mut here = at;
    let mut skip = k;
    let mut i = x;
    let mut left = m;
    let mut count = 0;
    // A cursor that steps by packets.
    while 0 < left {
        let p = packet_at(b, form, i, left);
        let from = i * form.unit;
        let to = from + p.len;
        here = house_cells::put_packet(out, here, skip, p.code, &b[from..to]);
        skip = 0;
        i += p.units;
        left -= p.units;
        count += 1;
    }
    Stored { count, end: here }
}

// Stores the packets of m units from unit x on after a gap of g pixels.
#[inline(always)]
fn put_gap(out: &mut [u8], at: usize, b: &[u8], form: Form, x: usize, m: usize, g: usize) -> Stored
    requires { ((x + m) * form.unit ≤ length b.now) × Wide g × Wide m
        × (at + length (bytes (gap_packets form.least form.longest g (units_at form.unit b.now x m))) ≤ length out.old) }
    ensures { Stores (gap_packets form.least form.longest g (units_at form.unit b.now x m)) out.old at out.new result.count result.end
        × (result.count ≤ g + m) }
{
    let s = shortened(form, g);
    put_empty(out, at, form, s);
    let p = put_units(out, at + 2 * s, b, form, x, m, g - form.longest * s);
    Stored {
        count: s + p.count,
        ..p
    }
}

// Stores the packets of a row of n units.
#[inline(always)]
pub fn put_row(out: &mut [u8], at: usize, a: &[u8], b: &[u8], form: Form, n: usize) -> Stored
    requires { Wide (n * form.unit) × (n * form.unit ≤ length a.now) × (n * form.unit ≤ length b.now)
        × (at + length (bytes (row_packets form.unit form.least form.longest n a.now b.now)) ≤ length out.old) }
    ensures { Stores (row_packets form.unit form.least form.longest n a.now b.now) out.old at out.new result.count result.end × (result.count ≤ 2 * n) }
{
    let mut i = 0;
    let mut here = at;
    let mut count = 0;
    // A cursor that steps by stretches.
    while let Some(s) = house_cells::next_stretch(a, b, form.unit, n, i) {
        let p = put_gap(out, here, b, form, i + s.gap, s.changed, form.unit * s.gap);
        count += p.count;
        here = p.end;
        i += s.gap + s.changed;
    }
    Stored { count, end: here }
}

// A kind of delta, by the line of a row in it: of at most line_most bytes, how it is sized, and how it is stored.
pub trait Line {
    ghost line: { ℕ → Cell → List ℕ };

    ghost line_most: { ℕ };

    // The bytes of the line of a row.
    fn line_size(a: &[u8], b: &[u8], width: usize) -> usize
        requires { (1 ≤ width) × Wide width × (length a.now ≡ width) × (length b.now ≡ width) }
        ensures { (result ≡ length (line width (row a.now b.now))) × (result ≤ line_most) };

    // Stores the line of a row; answers where it ends.
    fn put_line(out: &mut [u8], at: usize, a: &[u8], b: &[u8], width: usize) -> usize
        requires { (1 ≤ width) × Wide width × (length a.now ≡ width) × (length b.now ≡ width)
            × (at + length (line width (row a.now b.now)) ≤ length out.old) }
        ensures { (result ≡ at + length (line width (row a.now b.now)))
            × (out.new ≡ put out.old at (line width (row a.now b.now))) };

    ghost line_fits: { line_most ≤ 4 + 4 * max_width };
}

// The pictures and their width stay apart: of a struct that borrows them a clause would say `pair.entry.previous.now`.
// The bytes of the lines of n rows from row first on. Compiled into no caller, as put_lines is: it would add to the stack that the row search needs.
#[inline(never)]
pub fn lines_size<L: Line>(
    previous: &[u8],
    next: &[u8],
    width: usize,
    first: usize,
    n: usize,
) -> usize
    requires { (1 ≤ width) × Wide width × High n
        × ((first + n) * width ≤ length previous.now) × ((first + n) * width ≤ length next.now) }
    ensures { (result ≡ length (flat_map (L.line width) (cells_at width first n previous.now next.now))) × (result ≤ L.line_most * n) }
{
    let mut size = 0;
    for r in first..first + n {
        let a = r * width;
        let e = a + width;
        size += L::line_size(&previous[a..e], &next[a..e], width);
    }
    size
}

// Stores the lines of n rows from row first on; answers where they end.
#[inline(never)]
pub fn put_lines<L: Line>(
    out: &mut [u8],
    at: usize,
    previous: &[u8],
    next: &[u8],
    width: usize,
    first: usize,
    n: usize,
) -> usize
    requires { (1 ≤ width) × Wide width
        × ((first + n) * width ≤ length previous.now) × ((first + n) * width ≤ length next.now)
        × (at + length (flat_map (L.line width) (cells_at width first n previous.now next.now)) ≤ length out.old) }
    ensures { (result ≡ at + length (flat_map (L.line width) (cells_at width first n previous.now next.now)))
        × (out.new ≡ put out.old at (flat_map (L.line width) (cells_at width first n previous.now next.now))) }
{
    let mut here = at;
    for r in first..first + n {
        let a = r * width;
        let e = a + width;
        here = L::put_line(out, here, &previous[a..e], &next[a..e], width);
    }
    here
}
