// A sub-chunk of a frame, by its kind: document 01, "Frames, chunks and rows"; document 02, Req 05 and Req 06.
#![tactic(auto)]

ghost use Rattle.std.specs.Prelude.{◌≡◌};
ghost use Rattle.format.specs.Limits.{area, Sized};
ghost use Rattle.walk.specs.Walk.{wrote, Room};
ghost use Rattle.read_chunk.specs.Chunk.{judged, by_kind, kind_ok, sub_chunk};

use answer::Refusal;
use format::{Format, Size};
use read_colour::Levels;
use walk::{Pass, Verdict};

// How a sub-chunk comes out whose body, of so many bytes, came out so: more than one spare byte behind the data is a fault.
fn judge(verdict: Verdict, size: usize) -> Verdict
    ensures { result ≡ judged size verdict }
{
    let end = verdict?;
    let spare = size.saturating_sub(end);
    if spare > 1 {
        return Err(Refusal::SpareBytes);
    }
    Ok(end)
}

// Walks over the body of a sub-chunk whose kind has its place here.
fn walk_kind(
    picture: &mut [u8],
    palette: &mut [u8],
    kind: usize,
    body: &[u8],
    size: Size,
    pass: Pass,
) -> Verdict
    requires { Sized size.width size.height × Room pass (area size) picture.old × Room pass 768 palette.old }
    ensures verdict { result ≡ (by_kind size kind body.now).verdict }
    ensures pixels { picture.new ≡ wrote pass (by_kind size kind body.now).pixels picture.old }
    ensures colours { palette.new ≡ wrote pass (by_kind size kind body.now).colours palette.old }
{
    let verdict = match kind {
        format::FLI_COLOR256 => read_colour::walk_colour(palette, body, Levels::Of256, pass),
        format::FLI_SS2 => read_ss2::walk_ss2(picture, body, size.width, size.height, pass),
        format::FLI_COLOR => read_colour::walk_colour(palette, body, Levels::Of64, pass),
        format::FLI_LC => read_lc::walk_lc(picture, body, size.width, size.height, pass),
        format::FLI_BLACK => read_full::walk_black(picture, size.width * size.height, pass),
        format::FLI_BRUN => read_brun::walk_brun(picture, body, size.width, size.height, pass),
        format::FLI_COPY => read_full::walk_copy(picture, body, size.width * size.height, pass),
        // A kind stays a number: a file may have any, and what is unknown is stepped over with its number unread.
        _ => Ok(body.len()),
    };
    judge(verdict, body.len())
}

// Whether a kind has its place in frames of this format.
fn kind_ok(format: Format, kind: usize) -> bool
    ensures { result ≡ kind_ok format kind }
{
    match format {
        Format::Flc => true,
        Format::Fli => kind != format::FLI_SS2 && kind != format::FLI_PSTAMP,
    }
}

// Walks over a sub-chunk.
pub fn walk_chunk(
    picture: &mut [u8],
    palette: &mut [u8],
    kind: usize,
    body: &[u8],
    size: Size,
    pass: Pass,
) -> Verdict
    requires { Sized size.width size.height × Room pass (area size) picture.old × Room pass 768 palette.old }
    ensures verdict { result ≡ (sub_chunk size kind body.now).verdict }
    ensures pixels { picture.new ≡ wrote pass (sub_chunk size kind body.now).pixels picture.old }
    ensures colours { palette.new ≡ wrote pass (sub_chunk size kind body.now).colours palette.old }
{
    if !kind_ok(size.format, kind) {
        return Err(Refusal::NotInFli);
    }
    walk_kind(picture, palette, kind, body, size, pass)
}
