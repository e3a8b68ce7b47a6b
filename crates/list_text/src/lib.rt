// Numbers and lines of the listing as text (document 01, "Reels and the trailer", third paragraph).
#![tactic(auto)]

ghost use Rattle.std.specs.Prelude.{◌+◌, ◌≤◌, length};
ghost use Rattle.answer.specs.Answer.{number};
ghost use Rattle.list_text.specs.Text.{decimal, numeral, head_line, chunk_line, ok_line, refused_line};
ghost use Rattle.list_text.specs.Stored.{Stored};

use answer::Refusal;

// Stores x in decimal at offset at, and gives where that ends.
fn put_decimal(out: &mut [u8], at: usize, x: usize) -> usize
    requires { at + length (decimal x) ≤ length out.old }
    ensures { Stored out.old at (decimal x) out.new result }
{
    if x < 10 {
        out[at] = b'0' + x as u8;
        return at + 1;
    }
    let end = put_decimal(out, at, x / 10);
    out[end] = b'0' + (x % 10) as u8;
    end + 1
}

// Stores x in decimal and a byte behind it.
pub fn put_number(out: &mut [u8], at: usize, x: usize, behind: u8) -> usize
    requires { at + length (numeral x behind) ≤ length out.old }
    ensures { Stored out.old at (numeral x behind) out.new result }
{
    let end = put_decimal(out, at, x);
    out[end] = behind;
    end + 1
}

// Stores text, and gives where that ends.
fn put_text(out: &mut [u8], at: usize, text: &[u8]) -> usize
    requires { at + length text.now ≤ length out.old }
    ensures { Stored out.old at text.now out.new result }
{
    words::put_bytes(out, at, text);
    at + text.len()
}

// Stores the first line.
pub fn put_head(out: &mut [u8], width: usize, height: usize, frames: usize) -> usize
    requires { length (head_line width height frames) ≤ length out.old }
    ensures { Stored out.old 0 (head_line width height frames) out.new result }
{
    let a = put_text(out, 0, b"flic ");
    let b = put_number(out, a, width, b' ');
    let c = put_number(out, b, height, b' ');
    put_number(out, c, frames, b'\n')
}

// Stores a chunk's line.
pub fn put_line(
    out: &mut [u8],
    at: usize,
    depth: usize,
    offset: usize,
    kind: usize,
    size: usize,
) -> usize
    requires { at + length (chunk_line depth offset kind size) ≤ length out.old }
    ensures { Stored out.old at (chunk_line depth offset kind size) out.new result }
{
    let a = put_number(out, at, depth, b' ');
    let b = put_number(out, a, offset, b' ');
    let c = put_number(out, b, kind, b' ');
    put_number(out, c, size, b'\n')
}

// Stores the last line.
pub fn put_ok(out: &mut [u8], at: usize) -> usize
    requires { at + 3 ≤ length out.old }
    ensures { Stored out.old at ok_line out.new result }
{
    put_text(out, at, b"ok\n")
}

// Stores the line of a refusal.
pub fn put_refused(out: &mut [u8], refusal: Refusal, place: usize) -> usize
    requires { length (refused_line (number refusal) place) ≤ length out.old }
    ensures { Stored out.old 0 (refused_line (number refusal) place) out.new result }
{
    let a = put_text(out, 0, b"refused ");
    // std has no From from u32 to usize, and the try_from that it has gives a Result that would have to be unwrapped.
    let b = put_number(out, a, u32::from(refusal) as usize, b' ');
    put_number(out, b, place, b'\n')
}
