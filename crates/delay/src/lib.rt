// Delays from frame to frame: an FLI's header has jiffies of 1/70 second, an FLC's and a player milliseconds (document 02, Req 06). The
// two conversions below are the only way from one to the other.
#![tactic(auto)]

ghost use Rattle.std.specs.Prelude.{◌≡◌};
ghost use Rattle.delay.specs.Delay.{in_milliseconds, in_jiffies};

// As a header's two bytes have them.
#[derive(Clone, Copy)]
pub struct Jiffies(pub u16);

// As a player's record has them.
#[repr(C)]
#[derive(Clone, Copy)]
pub struct Milliseconds(pub u32);

// A delay that two bytes don't hold as jiffies.
#[derive(Clone, Copy)]
pub struct TooLong;

// Jiffies as milliseconds, rounded down.
impl From<Jiffies> for Milliseconds {
    ghost from_gives = { λ delay result. result ≡ in_milliseconds delay };

    fn from(delay: Jiffies) -> Milliseconds {
        Milliseconds(1000 * u32::from(delay.0) / 70)
    }
}

// Milliseconds as jiffies, rounded up.
impl TryFrom<Milliseconds> for Jiffies {
    type Error = TooLong;

    ghost try_from_gives = { λ delay result. result ≡ in_jiffies delay };

    fn try_from(delay: Milliseconds) -> Result<Jiffies, TooLong> {
        match u16::try_from((70 * u64::from(delay.0) + 999) / 1000) {
            Ok(jiffies) => Ok(Jiffies(jiffies)),
            Err(_) => Err(TooLong),
        }
    }
}
