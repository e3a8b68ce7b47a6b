// Reading kinds 13 (BLACK) and 16 (COPY): document 01, "Frames, chunks and rows". n: the picture's pixels.
#![tactic(auto)]

ghost use Rattle.std.specs.Prelude.{◌≡◌};
ghost use Rattle.walk.specs.Walk.{wrote, Room};
ghost use Rattle.read_full.specs.Full.{black, copied};

// Kind 13: the pixels become 0.
pub fn walk_black(picture: &mut [u8], n: usize, pass: walk::Pass) -> walk::Verdict
    requires { Room pass n picture.old }
    ensures verdict { result ≡ (black n).verdict }
    ensures writes { picture.new ≡ wrote pass (black n).writes picture.old }
{
    match pass {
        walk::Pass::Dry => {}
        walk::Pass::Wet => words::fill(&mut picture[0..n], 0),
    }
    Ok(0)
}

// Kind 16: the pixels are the body's.
pub fn walk_copy(picture: &mut [u8], body: &[u8], n: usize, pass: walk::Pass) -> walk::Verdict
    requires { Room pass n picture.old }
    ensures verdict { result ≡ (copied n body.now).verdict }
    ensures writes { picture.new ≡ wrote pass (copied n body.now).writes picture.old }
{
    if body.len() < n {
        return Err(answer::Refusal::BodyEnds);
    }
    match pass {
        walk::Pass::Dry => {}
        walk::Pass::Wet => words::copy(&mut picture[0..n], &body[0..n]),
    }
    Ok(n)
}
