// The format's numbers: limits of a picture and of a reel, the magic of a file, the types of chunks and the kinds of sub-chunks
// (document 01, "What the boards need"; document 001).
#![tactic(auto)]

ghost use Rattle.std.specs.Prelude.{◌≡◌, ◌≤◌};
ghost use Rattle.format.specs.Limits.{size_ok, size_fits, format_from, format_number};
ghost use Rattle.format.specs.Format.{max_level, raised};

// Limits of a picture.
pub const MAX_WIDTH: usize = 320;

pub const MAX_HEIGHT: usize = 200;

pub const MAX_AREA: usize = MAX_WIDTH * MAX_HEIGHT;

pub const PALETTE_BYTES: usize = 768;

// The most frames of a reel, the ring not counted.
pub const MAX_FRAMES: usize = 4000;

// The magics of FLC and FLI files.
pub const FLC_MAGIC: usize = 0xaf12;

pub const FLI_MAGIC: usize = 0xaf11;

// The one size of an FLI's pictures.
pub const FLI_WIDTH: usize = 320;

pub const FLI_HEIGHT: usize = 200;

// The types of a frame chunk and of a prefix chunk, and the kinds of sub-chunks, by the names of document 001.
pub const FRAME_TYPE: usize = 0xf1fa;

pub const PREFIX_TYPE: usize = 0xf100;

pub const FLI_COLOR256: usize = 4;

pub const FLI_SS2: usize = 7;

pub const FLI_COLOR: usize = 11;

pub const FLI_LC: usize = 12;

pub const FLI_BLACK: usize = 13;

pub const FLI_BRUN: usize = 15;

pub const FLI_COPY: usize = 16;

pub const FLI_PSTAMP: usize = 18;

// The highest level of a kind 11 component.
pub const MAX_LEVEL: u8 = 63;

// A component of 64 levels as one of 256.
pub fn raised_level(x: u8) -> u8
    requires { x ≤ max_level }
    ensures { result ≡ raised x }
{
    4 * x + x / 16
}

// Which of the two formats a frame or a reel has.
// Matches on it stand where the definitions have the same two cases.
#[derive(Clone, Copy)]
pub enum Format {
    Flc,
    Fli,
}

// The format that a number at the C boundary stands for: 0 FLC, any other FLI.
impl From<u32> for Format {
    ghost from_gives = { λ number format. format ≡ format_from number };

    fn from(number: u32) -> Format {
        if number == 0 {
            return Format::Flc;
        }
        Format::Fli
    }
}

// The number of a format.
impl From<Format> for u32 {
    ghost from_gives = { λ format number. number ≡ format_number format };

    fn from(format: Format) -> u32 {
        match format {
            Format::Flc => 0,
            Format::Fli => 1,
        }
    }
}

// The width and height of a picture and the format of its frames, as a caller gives them.
#[derive(Clone, Copy)]
pub struct Size {
    pub width: usize,
    pub height: usize,
    pub format: Format,
}

// Whether a picture of an FLC may have this width and height.
pub fn size_ok(width: usize, height: usize) -> bool
    ensures { result ≡ size_ok width height }
{
    if width < 1 {
        return false;
    }
    if width > MAX_WIDTH {
        return false;
    }
    if height < 1 {
        return false;
    }
    height <= MAX_HEIGHT
}

// Whether a picture of its format may have this size.
pub fn size_fits(size: Size) -> bool
    ensures { result ≡ size_fits size }
{
    match size.format {
        Format::Flc => size_ok(size.width, size.height),
        Format::Fli => {
            if size.width != FLI_WIDTH {
                return false;
            }
            size.height == FLI_HEIGHT
        }
    }
}
