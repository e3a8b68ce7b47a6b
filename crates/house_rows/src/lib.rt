// The house form's BRUN row: the search for its packets, and its bytes (document 01, "House form of a frame", "Full chunks").
#![tactic(auto)]

ghost use Rattle.std.specs.Prelude.{◌≡◌, ◌∷◌, ℕ, ◌+◌, ◌-◌, ◌*◌, ◌%◌, ◌<◌, ◌≤◌, min, length, get_or, drop, take};
ghost use Rattle.words.specs.Writes.{put};
ghost use Rattle.format.specs.Limits.{max_width, Wide};
ghost use Rattle.house_rows.specs.Row.{house, house_bytes};
ghost use Rattle.house_rows.specs.Search.{types, Planned, Searched};
ghost use Rattle.house_rows.specs.Window.{places, sum_at, end_at, end_of, LowestEnd, Lower, Window, Shortened, Lengthened, Chosen, carried};

use answer::Refusal;
use words::{magnitude_of, put_bytes, put_two};

// The pixels of the widest row.
const WIDTH: usize = format::MAX_WIDTH;

// More than a row has places, so that a place and its sum make one number.
const PLACES: usize = 2048;

// An end of a copy: a place of the row, and its sum, the place and the least bytes from there on.
#[derive(Clone, Copy)]
struct End {
    place: usize,
    sum: usize,
}

// Of two ends the first, unless the sum is lower at the second.
fn lower(a: End, b: End) -> End
    ensures { Lower a b result }
{
    if b.sum < a.sum { b } else { a }
}

// The end at place j.
fn end_at(sums: &[u16; WIDTH + 1], j: usize) -> End
    requires { Wide j }
    ensures { (result ≡ end_at sums.now j) × (result.sum < 65536) }
{
    End {
        place: j,
        sum: usize::from(sums[j]),
    }
}

// An end as one number. It asks for a small end, as no `From` can, and so its way back, `unpacked`, is a function too.
fn packed(e: End) -> u32
    requires { (e.place < places) × (e.sum < 65536) }
    ensures { result ≡ e.sum * places + e.place }
{
    (e.sum * PLACES + e.place) as u32
}

// The end that a number stands for.
fn unpacked(n: u32) -> End
    ensures { result ≡ end_of n }
{
    let x = n as usize;
    End {
        place: x % PLACES,
        sum: x / PLACES,
    }
}

// Notes for each of the 128 places after t the lowest end from t + 1 to there. Returns the turns that it took.
fn sweep(far: &mut [u32; WIDTH + 1], sums: &[u16; WIDTH + 1], t: usize) -> usize
    requires { (t + 128 ≤ max_width) × (length far.old ≡ max_width + 1) }
    ensures { (result ≡ 128)
        × (length far.new ≡ max_width + 1)
        × ((j : ℕ) → t < j → j ≤ t + 128 → LowestEnd (sum_at sums.now) (t + 1) j (end_of (get_or far.new j 0))) }
{
    let mut low = end_at(sums, t + 1);
    let mut turns = 0;
    // A turn looks at no pixel; of what was noted, at the sum of one place, j.
    for j in t + 1..t + 129 {
        low = lower(end_at(sums, j), low);
        far[j] = packed(low);
        turns += 1;
    }
    turns
}

// The ends of a copy, a window of two parts: where it splits, the lowest end of the near part, and the turns that were taken so far.
#[derive(Clone, Copy)]
struct Ends {
    split: usize,
    near: End,
    turns: usize,
}

// The window one place further left, where the end `at` is.
fn slide(far: &mut [u32; WIDTH + 1], sums: &[u16; WIDTH + 1], w: usize, at: End, ends: Ends) -> Ends
    requires { Wide w
        × (ends.turns + ends.split ≤ 2 * max_width)
        × (length far.old ≡ max_width + 1)
        × (at.sum ≡ sum_at sums.now at.place)
        × Window (sum_at sums.now) w (at.place + 1) ends.split ends.near far.old }
    ensures { (length far.new ≡ max_width + 1)
        × (result.turns + result.split ≡ ends.turns + ends.split)
        × (result.split % 128 ≡ ends.split % 128)
        × Window (sum_at sums.now) w at.place result.split result.near far.new }
{
    let t = at.place;
    let split = ends.split;
    if t + 128 == split {
        // From t, which is split - 128: told from the split, it costs the loop around no number of its own.
        let swept = sweep(far, sums, split - 128);
        return Ends {
            split: t,
            near: at,
            turns: ends.turns + swept,
        };
    }
    Ends {
        near: lower(ends.near, at),
        ..ends
    }
}

// The lowest end of the window.
fn copy_end(far: &[u32; WIDTH + 1], sums: &[u16; WIDTH + 1], w: usize, t: usize, ends: Ends) -> End
    requires { Wide w × Window (sum_at sums.now) w t ends.split ends.near far.now }
    ensures { LowestEnd (sum_at sums.now) t (min (t + 127) w) result }
{
    if ends.split < w && ends.split < t + 127 {
        return lower(unpacked(far[t + 127]), ends.near);
    }
    ends.near
}

// A repeat: how many pixels it writes, and the sum where it ends.
#[derive(Clone, Copy)]
struct Repeat {
    run: usize,
    sum: usize,
}

// The longest repeat at pixel i + 1, shortened so that pixel i may stand before it.
fn shorten(sums: &[u16; WIDTH + 1], i: usize, last: Repeat) -> Repeat
    requires { (last.run ≤ 127) × (127 ≤ last.run → Wide (i + 127)) }
    ensures { Shortened sums.now i last result }
{
    if last.run < 127 {
        return last;
    }
    Repeat {
        run: 126,
        sum: usize::from(sums[i + 127]),
    }
}

// The longest repeat at a pixel, from the shortened one at the next pixel, where the sum is next_sum.
fn lengthen(here: u8, next: u8, next_sum: usize, last: Repeat) -> Repeat
    requires { last.run ≤ 126 }
    ensures { Lengthened here next next_sum last result }
{
    if here == next {
        return Repeat {
            run: last.run + 1,
            ..last
        };
    }
    Repeat {
        run: 1,
        sum: next_sum,
    }
}

// A sum, and the type of the packet that begins what it counts.
#[derive(Clone, Copy)]
struct Choice {
    sum: usize,
    code: u8,
}

// The repeat or the copy from pixel i on, whichever has the lower sum; the repeat if neither has.
fn choose(i: usize, repeat: Repeat, end: End) -> Choice
    requires { (repeat.run ≤ 127) × (repeat.run ≤ repeat.sum) × (repeat.sum < 65536) × (i < end.place) × (end.place ≤ i + 128) × (end.sum < 65536) }
    ensures { Chosen i repeat end result }
{
    let repeat_sum = 2 + repeat.sum - repeat.run;
    let copy_sum = 1 + end.sum;
    if repeat_sum <= copy_sum {
        Choice {
            sum: repeat_sum,
            code: repeat.run as u8,
        }
    } else {
        Choice {
            sum: copy_sum,
            code: (256 - (end.place - i)) as u8,
        }
    }
}

// What the least packets of a row cost: their bytes, and the turns of the search for them.
#[derive(Clone, Copy)]
pub struct RowCost {
    pub bytes: usize,
    pub turns: usize,
}

// The search, from the last pixel to the first, in under two turns a pixel. Notes at each pixel the first byte of the house row from there.
pub fn plan_row(first: &mut [u8], row: &[u8]) -> RowCost
    requires { (1 ≤ length row.now) × Wide (length row.now) × (length first.old ≡ length row.now) }
    ensures { Planned row.now first.new result.bytes result.turns }
{
    let w = row.len();
    // Notes of two kinds, in memory of fixed size; what is stored below fits its narrower number, as is proved.
    let mut sums = [0u16; WIDTH + 1];
    let mut far = [0u32; WIDTH + 1];
    let last = w - 1;
    sums[w] = w as u16;
    sums[last] = (w + 1) as u16;
    first[last] = 1;
    let mut repeat = Repeat { run: 1, sum: w };
    let mut ends = Ends {
        split: w,
        near: End { place: w, sum: w },
        turns: 0,
    };
    let mut here = w + 1;
    // A turn looks at two pixels, i and i + 1; of what was noted, at the sum of the place i + 127 and at the far end of the place i + 128.
    for i in (0..last).rev() {
        let t = i + 1;
        repeat = lengthen(row[i], row[t], here, shorten(&sums, i, repeat));
        let at = End {
            place: t,
            sum: here,
        };
        ends = slide(&mut far, &sums, w, at, ends);
        let end = copy_end(&far, &sums, w, t, ends);
        let picked = choose(i, repeat, end);
        here = picked.sum;
        sums[i] = here as u16;
        first[i] = picked.code;
        ends.turns += 1;
    }
    RowCost {
        bytes: here,
        turns: ends.turns,
    }
}

// Searches one row; a row that no picture has is refused.
pub fn search_row(row: &[u8]) -> Result<RowCost, Refusal>
    ensures { Searched row.now result }
{
    let n = row.len();
    if !format::size_ok(n, 1) {
        return Err(Refusal::BadSize);
    }
    let mut first = [0; WIDTH];
    Ok(plan_row(&mut first[..n], row))
}

// Writes the packet of type t for the pixels from column x on. Returns its size.
fn write_packet(out: &mut [u8], at: usize, row: &[u8], x: usize, t: u8) -> usize
    requires { (x + carried t ≤ length row.now) × (at + 1 + carried t ≤ length out.old) }
    ensures { (result ≡ 1 + carried t)
        × (out.new ≡ put out.old at (t ∷ take (carried t) (drop x row.now))) }
{
    if t < 128 {
        put_two(out, at, usize::from(t), usize::from(row[x]));
        return 2;
    }
    let n = 256 - usize::from(t);
    let end = x + n;
    out[at] = t;
    put_bytes(out, at + 1, &row[x..end]);
    1 + n
}

// How a row was written: its packets, and their bytes.
#[derive(Clone, Copy)]
pub struct RowWritten {
    pub packets: usize,
    pub size: usize,
}

// Writes the house row, packet by packet.
pub fn write_row(out: &mut [u8], at: usize, row: &[u8], first: &[u8]) -> RowWritten
    requires { Wide (length row.now)
        × (first.now ≡ types row.now)
        × (at + length (house_bytes row.now) ≤ length out.old) }
    ensures { (result.packets ≡ length (house row.now))
        × (result.size ≡ length (house_bytes row.now))
        × (out.new ≡ put out.old at (house_bytes row.now)) }
{
    let mut here = at;
    let mut x = 0;
    let mut packets = 0;
    // A cursor that steps by packets.
    while x < row.len() {
        let t = first[x];
        here += write_packet(out, here, row, x, t);
        x += magnitude_of(t);
        packets += 1;
    }
    RowWritten {
        packets,
        size: here - at,
    }
}
