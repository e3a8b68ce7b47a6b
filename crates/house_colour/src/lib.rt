// The house form's colour chunk: sized, and written (document 01, "House form of a frame").
#![tactic(auto)]

ghost use Rattle.std.specs.Prelude.{◌≡◌, ◌+◌, ◌≤◌, length};
ghost use mathlib.Core.List.{flat_map};
ghost use Rattle.words.specs.Writes.{put};
ghost use Rattle.house_colour.specs.Colours.{changed_entries, colour_packet, colour_body, colour_most};

// The bytes of the colour body.
pub fn colour_size(previous: &[u8], next: &[u8]) -> usize
    requires { (length previous.now ≡ 768) × (length next.now ≡ 768) }
    ensures { (result ≡ length (colour_body previous.now next.now)) × (result ≤ colour_most) }
{
    let mut i = 0;
    let mut size = 0;
    // A cursor that steps by stretches.
    while let Some(s) = house_cells::next_stretch(previous, next, 3, 256, i) {
        size += 2 + s.changed * 3;
        i += s.gap + s.changed;
    }
    2 + size
}

// Stores the packets of the colour body; answers how many they are.
fn put_packets(out: &mut [u8], at: usize, previous: &[u8], next: &[u8]) -> usize
    requires { (length previous.now ≡ 768) × (length next.now ≡ 768)
        × (at + length (flat_map colour_packet (changed_entries previous.now next.now)) ≤ length out.old) }
    ensures { (result ≡ length (changed_entries previous.now next.now)) × (result ≤ 256)
        × (out.new ≡ put out.old at (flat_map colour_packet (changed_entries previous.now next.now))) }
{
    let mut i = 0;
    let mut here = at;
    let mut count = 0;
    // A cursor that steps by stretches.
    while let Some(s) = house_cells::next_stretch(previous, next, 3, 256, i) {
        let a = (i + s.gap) * 3;
        let e = a + s.changed * 3;
        here = house_cells::put_packet(out, here, s.gap, s.changed % 256, &next[a..e]);
        count += 1;
        i += s.gap + s.changed;
    }
    count
}

// Writes the colour body.
pub fn write_colour(out: &mut [u8], at: usize, previous: &[u8], next: &[u8])
    requires { (length previous.now ≡ 768) × (length next.now ≡ 768) × (at + length (colour_body previous.now next.now) ≤ length out.old) }
    ensures { out.new ≡ put out.old at (colour_body previous.now next.now) }
{
    let count = put_packets(out, at + 2, previous, next);
    words::put_u16(out, at, count);
}
