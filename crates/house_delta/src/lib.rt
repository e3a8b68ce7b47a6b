// The delta of the house form, by the format: kind 7 in an FLC, kind 12 in an FLI (document 01, "House form of a frame", Delta; document 02, Req 06).
#![tactic(auto)]

ghost use Rattle.std.specs.Prelude.{◌≡◌, ◌+◌, ◌≤◌, length};
ghost use Rattle.words.specs.Writes.{put};
ghost use Rattle.state.specs.State.{Picture};
ghost use Rattle.house_delta.specs.Delta.{delta_kind, delta_body, delta_most};

use format::{Format, Size};

// The kind of a delta, as the number that its header gets.
pub fn delta_kind(format: Format) -> usize
    ensures { result ≡ delta_kind format }
{
    match format {
        Format::Flc => format::FLI_SS2,
        Format::Fli => format::FLI_LC,
    }
}

// The bytes of the delta's body.
pub fn delta_size(previous: &[u8], next: &[u8], size: Size) -> usize
    requires { Picture size.width size.height previous.now × Picture size.width size.height next.now }
    ensures { (result ≡ length (delta_body size previous.now next.now)) × (result ≤ delta_most) }
{
    match size.format {
        Format::Flc => house_ss2::delta_size(previous, next, size.width, size.height),
        Format::Fli => house_lc::delta_size(previous, next, size.width, size.height),
    }
}

// Writes the delta's body.
pub fn write_delta(out: &mut [u8], at: usize, previous: &[u8], next: &[u8], size: Size)
    requires { Picture size.width size.height previous.now × Picture size.width size.height next.now
        × (at + length (delta_body size previous.now next.now) ≤ length out.old) }
    ensures { out.new ≡ put out.old at (delta_body size previous.now next.now) }
{
    match size.format {
        Format::Flc => house_ss2::write_delta(out, at, previous, next, size.width, size.height),
        Format::Fli => house_lc::write_delta(out, at, previous, next, size.width, size.height),
    }
}
