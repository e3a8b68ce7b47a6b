// Two slices side by side, seen as cells of some bytes each, and their longest stretches of changed cells, one after the other.
#![tactic(auto)]

ghost use Rattle.std.specs.Prelude.{◌≡◌, ◌∷◌, ◌+◌, ◌*◌, ◌≤◌, ◌<◌, length, take, drop};
ghost use Rattle.words.specs.Words.{same};
ghost use Rattle.words.specs.Writes.{put};
ghost use Rattle.house_cells.specs.Cells.{cells, is_sought, run, NextOf};

// Which cells are looked for.
// A plain value in definitions and laws: no closure.
#[derive(Clone, Copy)]
pub enum Sought {
    Unchanged,
    Changed,
}

// A stretch of changed cells after a gap of unchanged ones.
#[derive(Clone, Copy)]
pub struct Span {
    pub gap: usize,
    pub changed: usize,
}

// Whether the cell of k bytes at offset at is one that is sought.
fn found(p: &[u8], q: &[u8], at: usize, k: usize, sought: Sought) -> bool
    requires { (at + k ≤ length p.now) × (at + k ≤ length q.now) }
    ensures { result ≡ is_sought sought (same (take k (drop at p.now)) (take k (drop at q.now))) }
{
    let end = at + k;
    let unchanged = words::same_bytes(&p[at..end], &q[at..end]);
    match sought {
        Sought::Unchanged => unchanged,
        Sought::Changed => !unchanged,
    }
}

// How many of n cells of k bytes are sought ones, from cell i on.
pub fn run_of(p: &[u8], q: &[u8], k: usize, n: usize, i: usize, sought: Sought) -> usize
    requires { (i ≤ n) × (n * k ≤ length p.now) × (n * k ≤ length q.now) }
    ensures { (result ≡ run sought (drop i (cells k n p.now q.now))) × (i + result ≤ n) }
{
    for j in i..n {
        if !found(p, q, j * k, k, sought) {
            return j - i;
        }
    }
    n - i
}

// The next stretch of n cells of k bytes, from cell i on, if one is left.
pub fn next_stretch(p: &[u8], q: &[u8], k: usize, n: usize, i: usize) -> Option<Span>
    requires { (i ≤ n) × (n * k ≤ length p.now) × (n * k ≤ length q.now) }
    ensures { NextOf k n p.now q.now i result }
{
    let gap = run_of(p, q, k, n, i, Sought::Unchanged);
    let start = i + gap;
    if start == n {
        return None;
    }
    let changed = run_of(p, q, k, n, start, Sought::Changed);
    Some(Span { gap, changed })
}

// Stores a packet, the bytes x and y and then its data; answers where it ends.
pub fn put_packet(out: &mut [u8], at: usize, x: usize, y: usize, v: &[u8]) -> usize
    requires { (at + 2 + length v.now ≤ length out.old) × (x < 256) × (y < 256) }
    ensures { (result ≡ at + 2 + length v.now) × (out.new ≡ put out.old at (x ∷ y ∷ v.now)) }
{
    words::put_two(out, at, x, y);
    words::put_bytes(out, at + 2, v);
    at + 2 + v.len()
}
