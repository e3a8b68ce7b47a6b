// Little-endian words read and stored, and runs of bytes filled, copied and compared ("All numbers are little-endian", document 01).
#![tactic(auto)]

ghost use Rattle.std.specs.Prelude.{◌≡◌, [], ◌∷◌, ◌+◌, ◌<◌, ◌≤◌, length, take, drop, replicate};
ghost use Rattle.words.specs.Words.{magnitude, Word16, Word32, le16, le32, same};
ghost use Rattle.words.specs.Writes.{put};

// The absolute value of a signed byte. With std's unsigned_abs here, from_le_bytes below and groups of a const parameter in copy and fill,
// reading took 1.1 of the time in kinds 7 and 15.
pub fn magnitude_of(x: u8) -> usize
    ensures { (result ≡ magnitude x) × (result ≤ 128) }
{
    if x < 128 {
        usize::from(x)
    } else {
        256 - usize::from(x)
    }
}

// The 16-bit word at offset at.
pub fn u16_at(b: &[u8], at: usize) -> usize
    requires { at + 2 ≤ length b.now }
    ensures { Word16 b.now at result }
{
    usize::from(b[at]) + 256 * usize::from(b[at + 1])
}

// The 32-bit word at offset at.
pub fn u32_at(b: &[u8], at: usize) -> usize
    requires { at + 4 ≤ length b.now }
    ensures { Word32 b.now at result }
{
    u16_at(b, at) + 65536 * u16_at(b, at + 2)
}

// Stores four bytes.
fn put_four(out: &mut [u8], at: usize, p: u8, q: u8, r: u8, s: u8)
    requires { at + 4 ≤ length out.old }
    ensures { out.new ≡ put out.old at (p ∷ q ∷ r ∷ s ∷ []) }
{
    out[at] = p;
    out[at + 1] = q;
    out[at + 2] = r;
    out[at + 3] = s;
}

// Copies the two bytes of src from offset at on to dst, which is as long.
fn copy_two(dst: &mut [u8], src: &[u8], at: usize)
    requires { (length src.now ≡ length dst.old) × (at + 2 ≤ length src.now) }
    ensures { dst.new ≡ put dst.old at (take 2 (drop at src.now)) }
{
    let first = src[at];
    let second = src[at + 1];
    dst[at] = first;
    dst[at + 1] = second;
}

// Copies four bytes so. All are loaded before one is stored, and are compiled to one load and one store.
fn copy_four(dst: &mut [u8], src: &[u8], at: usize)
    requires { (length src.now ≡ length dst.old) × (at + 4 ≤ length src.now) }
    ensures { dst.new ≡ put dst.old at (take 4 (drop at src.now)) }
{
    put_four(dst, at, src[at], src[at + 1], src[at + 2], src[at + 3]);
}

// Copies eight bytes so.
fn copy_eight(dst: &mut [u8], src: &[u8], at: usize)
    requires { (length src.now ≡ length dst.old) × (at + 8 ≤ length src.now) }
    ensures { dst.new ≡ put dst.old at (take 8 (drop at src.now)) }
{
    let half = at + 4;
    let fifth = src[half];
    let sixth = src[half + 1];
    let seventh = src[half + 2];
    let eighth = src[half + 3];
    copy_four(dst, src, at);
    put_four(dst, half, fifth, sixth, seventh, eighth);
}

// Copies one to sixteen bytes of src to dst, which is as long: the first eight, four or two and the last as many, which may overlap,
// or the only one.
fn copy_few(dst: &mut [u8], src: &[u8])
    requires { (length src.now ≡ length dst.old) × (1 ≤ length src.now) × (length src.now ≤ 16) }
    ensures { dst.new ≡ src.now }
{
    let n = src.len();
    if 8 <= n {
        copy_eight(dst, src, 0);
        copy_eight(dst, src, n - 8);
        return;
    }
    if 4 <= n {
        copy_four(dst, src, 0);
        copy_four(dst, src, n - 4);
        return;
    }
    if 2 <= n {
        copy_two(dst, src, 0);
        copy_two(dst, src, n - 2);
        return;
    }
    dst[0] = src[0];
}

// With copy_from_slice here and the slice's fill there, for all lengths, reading took from 1.2 (board) to 2.0 (texture) of the time.
// Copies src to dst, which is as long. A few bytes, as most packets of a delta have, go without the loop, which is compiled for many.
pub fn copy(dst: &mut [u8], src: &[u8])
    requires { length src.now ≡ length dst.old }
    ensures { dst.new ≡ src.now }
{
    if 1 <= src.len() {
        if src.len() <= 16 {
            copy_few(dst, src);
            return;
        }
    }
    for i in 0..src.len() {
        dst[i] = src[i];
    }
}

// Sets the eight bytes from offset at on to value.
fn fill_eight(part: &mut [u8], at: usize, value: u8)
    requires { at + 8 ≤ length part.old }
    ensures { part.new ≡ put part.old at (replicate 8 value) }
{
    put_four(part, at, value, value, value, value);
    put_four(part, at + 4, value, value, value, value);
}

// Sets four to sixteen bytes to value: the first eight or four and the last as many, which may overlap.
fn fill_some(part: &mut [u8], value: u8)
    requires { (4 ≤ length part.old) × (length part.old ≤ 16) }
    ensures { part.new ≡ replicate (length part.old) value }
{
    let n = part.len();
    if 8 <= n {
        fill_eight(part, 0, value);
        fill_eight(part, n - 8, value);
        return;
    }
    put_four(part, 0, value, value, value, value);
    put_four(part, n - 4, value, value, value, value);
}

// Sets one to three bytes to value: the first, the middle one and the last.
fn fill_few(part: &mut [u8], value: u8)
    requires { (1 ≤ length part.old) × (length part.old ≤ 3) }
    ensures { part.new ≡ replicate (length part.old) value }
{
    let n = part.len();
    part[0] = value;
    part[n / 2] = value;
    part[n - 1] = value;
}

// Sets every byte of part to value. A few bytes, as most repeats have, go without the loop, which is compiled for many.
pub fn fill(part: &mut [u8], value: u8)
    ensures { part.new ≡ replicate (length part.old) value }
{
    if 1 <= part.len() {
        if part.len() <= 3 {
            fill_few(part, value);
            return;
        }
        if part.len() <= 16 {
            fill_some(part, value);
            return;
        }
    }
    for i in 0..part.len() {
        part[i] = value;
    }
}

// Whether two slices of one length hold the same bytes.
pub fn same_bytes(a: &[u8], b: &[u8]) -> bool
    requires { length a.now ≡ length b.now }
    ensures { result ≡ same a.now b.now }
{
    a == b
}

// Stores the bytes x and y.
pub fn put_two(out: &mut [u8], at: usize, x: usize, y: usize)
    requires { (at + 2 ≤ length out.old) × (x < 256) × (y < 256) }
    ensures { out.new ≡ put out.old at (x ∷ y ∷ []) }
{
    out[at] = x as u8;
    out[at + 1] = y as u8;
}

// Stores a 16-bit word.
pub fn put_u16(out: &mut [u8], at: usize, x: usize)
    requires { (at + 2 ≤ length out.old) × (x < 65536) }
    ensures { out.new ≡ put out.old at (le16 x []) }
{
    out[at..at + 2].copy_from_slice(&x.to_le_bytes()[..2]);
}

// Stores a 32-bit word.
pub fn put_u32(out: &mut [u8], at: usize, x: usize)
    requires { at + 4 ≤ length out.old }
    ensures { out.new ≡ put out.old at (le32 x []) }
{
    out[at..at + 4].copy_from_slice(&x.to_le_bytes()[..4]);
}

// Stores a chunk's header: its size and its kind.
pub fn put_header(out: &mut [u8], at: usize, size: usize, kind: usize)
    requires { (at + 6 ≤ length out.old) × (kind < 65536) }
    ensures { out.new ≡ put out.old at (le32 size (le16 kind [])) }
{
    put_u32(out, at, size);
    put_u16(out, at + 4, kind);
}

// Stores the bytes v.
pub fn put_bytes(out: &mut [u8], at: usize, v: &[u8])
    requires { at + length v.now ≤ length out.old }
    ensures { out.new ≡ put out.old at v.now }
{
    let end = at + v.len();
    copy(&mut out[at..end], v);
}
