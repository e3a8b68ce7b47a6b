// What a call answers: done, or one of document 01's refusals with a place.
#![tactic(auto)]

ghost use Rattle.std.specs.Prelude.{◌≡◌};
ghost use Rattle.answer.specs.Answer.{number, placed};

// The refusals, in the order of their numbers (document 01, "Refusal numbers").
#[derive(Clone, Copy)]
pub enum Refusal {
    // 1: a picture slice is shorter than width times height, or a palette slice than 768
    ShortSlice,
    // 2: width or height is out of range
    BadSize,
    // 3: the output is shorter than the bytes to be written, or a size passes 32 bits
    NoRoom,
    // 4: fewer bytes than a header has, a size field runs past what encloses it, or a record that doesn't fit
    Cut,
    // 5: wrong file magic, or a type that isn't F1FA
    WrongType,
    // 6: a size field is less than its own header
    SmallSize,
    // 7: a chunk's body ends before its data
    BodyEnds,
    // 8: a BRUN packet of count 0
    ZeroCount,
    // 9: a packet runs past the row's width
    PastWidth,
    // 10: a row at or below the height
    PastHeight,
    // 11: a kind 7 word with high bits 01, or no packet count after a last-pixel word
    BadWord,
    // 12: a colour packet runs past entry 255
    PastPalette,
    // 13: a kind 11 component over 63
    OverLevel,
    // 14: depth, frame count or flags of a file header
    BadHeader,
    // 15: fewer than 6 bytes left before frames + 1 frame chunks are met
    FewFrames,
    // 16: the ring doesn't give frame 1's picture and palette
    BadRing,
    // 17: the trailer isn't the one that document 01 defines
    BadTrailer,
    // 18: adding to a closed reel, a frame too many, closing with none or twice
    WrongTime,
    // 19: more than one spare byte after a sub-chunk's data
    SpareBytes,
    // 20: a kind 7 or 18 in an FLI
    NotInFli,
}

// A refusal and its place.
#[derive(Clone, Copy)]
pub struct Refused(pub Refusal, pub usize);

// What was refused without a place, with its place.
pub fn placed<T: Copy>(answer: Result<T, Refusal>, place: usize) -> Result<T, Refused>
    ensures { result ≡ placed place answer }
{
    match answer {
        Ok(x) => Ok(x),
        Err(e) => Err(Refused(e, place)),
    }
}

// The number of a refusal.
impl From<Refusal> for u32 {
    ghost from_gives = { λ e n. n ≡ number e };

    fn from(e: Refusal) -> u32 {
        match e {
            Refusal::ShortSlice => 1,
            Refusal::BadSize => 2,
            Refusal::NoRoom => 3,
            Refusal::Cut => 4,
            Refusal::WrongType => 5,
            Refusal::SmallSize => 6,
            Refusal::BodyEnds => 7,
            Refusal::ZeroCount => 8,
            Refusal::PastWidth => 9,
            Refusal::PastHeight => 10,
            Refusal::BadWord => 11,
            Refusal::PastPalette => 12,
            Refusal::OverLevel => 13,
            Refusal::BadHeader => 14,
            Refusal::FewFrames => 15,
            Refusal::BadRing => 16,
            Refusal::BadTrailer => 17,
            Refusal::WrongTime => 18,
            Refusal::SpareBytes => 19,
            Refusal::NotInFli => 20,
        }
    }
}
