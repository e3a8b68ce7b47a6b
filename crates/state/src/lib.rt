// Lent pairs of a picture slice and a palette slice, and room for one of our own.
#![tactic(auto)]

ghost use Rattle.std.specs.Prelude.{◌≡◌, ◌&&◌, leb, replicate, true};
ghost use Rattle.state.specs.State.{shown, enough, front};
ghost use Rattle.format.specs.Limits.{max_area};

// A picture and its palette, as they are lent to be read.
#[derive(Clone, Copy)]
pub struct Pair<'a> {
    pub picture: &'a [u8],
    pub palette: &'a [u8],
}

impl<'a> Pair<'a> {
    // Whether it holds a picture of n pixels and a palette.
    pub fn holds(self, n: usize) -> bool
        ensures { result ≡ enough n (shown self.entry) }
    {
        holds(self.picture.len(), self.palette.len(), n)
    }

    // The front of a pair that holds a picture of n pixels and a palette.
    pub fn front(self, n: usize) -> Pair<'a>
        requires { enough n (shown self) ≡ true }
        ensures { shown result ≡ front n (shown self.entry) }
    {
        Pair {
            picture: &self.picture[..n],
            palette: &self.palette[..format::PALETTE_BYTES],
        }
    }
}

// Whether slices of these lengths hold a picture of n pixels and a palette.
pub fn holds(pixels: usize, colours: usize, n: usize) -> bool
    ensures { result ≡ (leb n pixels && leb 768 colours) }
{
    if pixels < n {
        return false;
    }
    colours >= format::PALETTE_BYTES
}

// Room for the pixels of any picture: memory of fixed size, as no heap is used.
pub fn picture_room() -> [u8; format::MAX_AREA]
    ensures { result ≡ replicate max_area 0 }
{
    [0; format::MAX_AREA]
}

// Room for a palette.
pub fn palette_room() -> [u8; format::PALETTE_BYTES]
    ensures { result ≡ replicate 768 0 }
{
    [0; format::PALETTE_BYTES]
}
