// The check of a whole reel: document 01, "Reels and the trailer".
#![tactic(auto)]

ghost use Rattle.std.specs.Prelude.{◌≡◌, ◌&&◌, ◌≤◌, length};
ghost use Rattle.words.specs.Words.{same};
ghost use Rattle.answer.specs.Answer.{told};
ghost use Rattle.state.specs.State.{state, Exact};
ghost use Rattle.state.specs.Outcome.{lent_pairs, leaves};
ghost use Rattle.chunks.specs.declared.Layout.TheVariants.{Loose};
ghost use Rattle.chunks.specs.Spans.{HEADER_BYTES as header_bytes};
ghost use Rattle.reel_play.specs.Play.{play_all};
ghost use Rattle.reel_check.specs.Check.{ring_answer, check_reel};

use answer::{Refusal, Refused};
use chunks::Layout;
use format::{PALETTE_BYTES, Size};
use reel_header::Takes;

// Whether two pairs hold the same state, as the slices' own equality says it.
fn same_state(picture: &[u8], palette: &[u8], picture2: &[u8], palette2: &[u8]) -> bool
    requires { (length picture.now ≡ length picture2.now) × (length palette.now ≡ length palette2.now) }
    ensures { result ≡ (same picture.now picture2.now && same palette.now palette2.now) }
{
    words::same_bytes(picture, picture2) && words::same_bytes(palette, palette2)
}

// Plays the reel b of count frames and its ring, and compares the ring's state with that of frame 1.
fn check_frames(
    picture: &mut [u8],
    palette: &mut [u8],
    picture2: &mut [u8],
    palette2: &mut [u8],
    b: &[u8],
    count: usize,
    size: Size,
) -> Result<(), Refused>
    requires { (header_bytes ≤ length b.now) × Exact size (state picture.old palette.old) × Exact size (state picture2.old palette2.old) }
    ensures answer { result ≡ ring_answer (play_all Loose count size b.now) }
    ensures first { state picture.new palette.new ≡ (play_all Loose count size b.now).last }
    ensures second { state picture2.new palette2.new ≡ (play_all Loose count size b.now).one }
{
    let ring = reel_play::play_all(
        picture,
        palette,
        picture2,
        palette2,
        b,
        Layout::Loose,
        count,
        size,
    )?;
    if same_state(picture, palette, picture2, palette2) {
        return Ok(());
    }
    Err(Refused(Refusal::BadRing, ring.from))
}

// Checks a whole reel. Both pairs are set once the checks up to refusal 1 have passed.
pub fn check_reel(
    bytes: &[u8],
    first_picture: &mut [u8],
    first_palette: &mut [u8],
    second_picture: &mut [u8],
    second_palette: &mut [u8],
) -> Result<(), Refused>
    ensures { leaves (told result) (lent_pairs (state first_picture.new first_palette.new) (state second_picture.new second_palette.new))
        ≡ check_reel bytes.now (state first_picture.old first_palette.old) (state second_picture.old second_palette.old) }
{
    let head = answer::placed(reel_header::head_of(Takes::Both, bytes), 0)?;
    let n = head.picture.width * head.picture.height;
    if !state::holds(first_picture.len(), first_palette.len(), n)
        || !state::holds(second_picture.len(), second_palette.len(), n)
    {
        return Err(Refused(Refusal::ShortSlice, 0));
    }
    check_frames(
        &mut first_picture[..n],
        &mut first_palette[..PALETTE_BYTES],
        &mut second_picture[..n],
        &mut second_palette[..PALETTE_BYTES],
        &bytes[..head.size],
        head.frames,
        head.picture,
    )
}
