// The 128-byte header of a reel, read, written and closed: document 001, "The FLC file header"; document 01, "Reels and the trailer"; document 02,
// Req 06.
#![tactic(auto)]

ghost use Rattle.std.specs.Prelude.{◌≡◌, ◌+◌, ◌<◌, ◌≤◌, length};
ghost use Rattle.format.specs.Limits.{max_frames};
ghost use Rattle.chunks.specs.Spans.{HEADER_BYTES as header_bytes};
ghost use Rattle.reel_header.specs.Head.{magic_ok, format_of, form_ok, delay_at, size_at, head_of};
ghost use Rattle.reel_header.specs.Written.{aspect, blank_header, opened, opened_fli, second_at, flagged, closed_header};

use answer::Refusal;
use chunks::HEADER_BYTES;
use delay::{Jiffies, Milliseconds};
use format::{Format, Size};

// Where document 001's table has the fields that are not always zero: the size, the speed, creator, updater and both oframes have 4 bytes, the
// others 2.
const SIZE_AT: usize = 0;

const MAGIC_AT: usize = 4;

const FRAMES_AT: usize = 6;

const WIDTH_AT: usize = 8;

const HEIGHT_AT: usize = 10;

const DEPTH_AT: usize = 12;

const FLAGS_AT: usize = 14;

const SPEED_AT: usize = 16;

const CREATOR_AT: usize = 26;

const UPDATER_AT: usize = 34;

const ASPECTX_AT: usize = 38;

const ASPECTY_AT: usize = 40;

const OFRAME1_AT: usize = 80;

const OFRAME2_AT: usize = 84;

// The depth of every reel, the flags of a finished FLC and a finished FLI, and the creator and updater that are written.
const DEPTH: usize = 8;

const FINISHED: usize = 3;

const FINISHED_FLI: usize = 0;

const FLIB: usize = 0x464c4942;

// Which files are taken.
// The definitions go by the same two cases: no closure.
#[derive(Clone, Copy)]
pub enum Takes {
    FlcOnly,
    Both,
}

// What a reel's header says: the picture's size and the format, the number of frames, the file's size and the delay.
#[derive(Clone, Copy)]
pub struct Head {
    pub picture: Size,
    pub frames: usize,
    pub size: usize,
    pub speed: Milliseconds,
}

// Whether a magic is one that is taken.
fn magic_ok(takes: Takes, magic: usize) -> bool
    ensures { result ≡ magic_ok takes magic }
{
    match takes {
        Takes::Both => magic == format::FLC_MAGIC || magic == format::FLI_MAGIC,
        Takes::FlcOnly => magic == format::FLC_MAGIC,
    }
}

// The format of a file by its magic.
fn format_of(magic: usize) -> Format
    ensures { result ≡ format_of magic }
{
    if magic == format::FLI_MAGIC {
        return Format::Fli;
    }
    Format::Flc
}

// Whether depth, number of frames and flags are a finished reel's.
fn form_ok(format: Format, depth: usize, frames: usize, flags: usize) -> bool
    ensures { result ≡ form_ok format depth frames flags }
{
    let finished = match format {
        Format::Flc => flags == FINISHED,
        Format::Fli => flags == FINISHED_FLI,
    };
    depth == DEPTH && 1 <= frames && frames <= format::MAX_FRAMES && finished
}

// The delay from frame to frame.
fn delay_at(format: Format, b: &[u8]) -> Milliseconds
    requires { header_bytes ≤ length b.now }
    ensures { result ≡ delay_at format b.now }
{
    match format {
        Format::Flc => Milliseconds(words::u32_at(b, SPEED_AT) as u32),
        Format::Fli => Milliseconds::from(Jiffies(words::u16_at(b, SPEED_AT) as u16)),
    }
}

// The size of the pictures, and the format.
fn size_at(b: &[u8]) -> Size
    requires { header_bytes ≤ length b.now }
    ensures { result ≡ size_at b.now }
{
    Size {
        width: words::u16_at(b, WIDTH_AT),
        height: words::u16_at(b, HEIGHT_AT),
        format: format_of(words::u16_at(b, MAGIC_AT)),
    }
}

// The header of b, or its first fault.
pub fn head_of(takes: Takes, b: &[u8]) -> Result<Head, Refusal>
    ensures { result ≡ head_of takes b.now }
{
    if b.len() < HEADER_BYTES {
        return Err(Refusal::Cut);
    }
    if !magic_ok(takes, words::u16_at(b, MAGIC_AT)) {
        return Err(Refusal::WrongType);
    }
    let size = words::u32_at(b, SIZE_AT);
    if size < HEADER_BYTES {
        return Err(Refusal::SmallSize);
    }
    if b.len() < size {
        return Err(Refusal::Cut);
    }
    let picture = size_at(b);
    if !format::size_fits(picture) {
        return Err(Refusal::BadSize);
    }
    let frames = words::u16_at(b, FRAMES_AT);
    if !form_ok(
        picture.format,
        words::u16_at(b, DEPTH_AT),
        frames,
        words::u16_at(b, FLAGS_AT),
    ) {
        return Err(Refusal::BadHeader);
    }
    Ok(Head {
        picture,
        frames,
        size,
        speed: delay_at(picture.format, b),
    })
}

// One side of the aspect: classic at 320 by 200, else 1.
fn aspect_of(width: usize, height: usize, classic: usize) -> usize
    requires { classic < 65536 }
    ensures { (result ≡ aspect width height classic) × (result < 65536) }
{
    if width == 320 && height == 200 {
        return classic;
    }
    1
}

// The fields that both formats have before the close.
fn put_common(out: &mut [u8], magic: usize, width: usize, height: usize)
    requires { (length out.old ≡ header_bytes) × (magic < 65536) × (width < 65536) × (height < 65536) }
    ensures { out.new ≡ blank_header magic width height }
{
    words::fill(out, 0);
    words::put_u16(out, MAGIC_AT, magic);
    words::put_u16(out, WIDTH_AT, width);
    words::put_u16(out, HEIGHT_AT, height);
    words::put_u16(out, DEPTH_AT, DEPTH);
}

// The header of an FLC that is not closed yet.
pub fn write_header(out: &mut [u8], width: usize, height: usize, speed: Milliseconds)
    requires { (length out.old ≡ header_bytes) × (width < 65536) × (height < 65536) }
    ensures { out.new ≡ opened width height speed }
{
    put_common(out, format::FLC_MAGIC, width, height);
    words::put_u32(out, SPEED_AT, speed.0 as usize);
    words::put_u32(out, CREATOR_AT, FLIB);
    words::put_u32(out, UPDATER_AT, FLIB);
    words::put_u16(out, ASPECTX_AT, aspect_of(width, height, 6));
    words::put_u16(out, ASPECTY_AT, aspect_of(width, height, 5));
}

// The header of an FLI that is not closed yet: a function of its own, since its delay is of a type of its own.
pub fn write_fli_header(out: &mut [u8], width: usize, height: usize, speed: Jiffies)
    requires { (length out.old ≡ header_bytes) × (width < 65536) × (height < 65536) }
    ensures { out.new ≡ opened_fli width height speed }
{
    put_common(out, format::FLI_MAGIC, width, height);
    words::put_u16(out, SPEED_AT, speed.0 as usize);
}

// Where frame 1 ends.
pub fn second_at(bytes: &[u8]) -> usize
    requires { header_bytes + 4 ≤ length bytes.now }
    ensures { result ≡ second_at bytes.now }
{
    HEADER_BYTES + words::u32_at(bytes, HEADER_BYTES)
}

// Sets the header fields that a close of an FLC sets beside the size and the frames.
fn close_flc(bytes: &mut [u8], second: usize)
    requires { header_bytes ≤ length bytes.old }
    ensures { bytes.new ≡ flagged second bytes.old }
{
    words::put_u16(bytes, FLAGS_AT, FINISHED);
    words::put_u32(bytes, OFRAME1_AT, HEADER_BYTES);
    words::put_u32(bytes, OFRAME2_AT, second);
}

// Sets the header fields that a close sets.
pub fn close_header(bytes: &mut [u8], format: Format, size: usize, frames: usize, second: usize)
    requires { (header_bytes ≤ length bytes.old) × (frames ≤ max_frames) }
    ensures { bytes.new ≡ closed_header format size frames second bytes.old }
{
    words::put_u32(bytes, SIZE_AT, size);
    words::put_u16(bytes, FRAMES_AT, frames);
    match format {
        Format::Fli => {}
        Format::Flc => close_flc(bytes, second),
    }
}
