// A board's clock: which frame stands after each reading of a millisecond counter that rolls over, and the replay of a list of readings
// (document 02, Req 01).
#![tactic(auto)]

ghost use Rattle.std.specs.Prelude.{◌≡◌, suc, ◌%◌, ◌^◌, ◌≤◌, length, ◌==◌};
ghost use Rattle.words.specs.Writes.{put};
ghost use Rattle.answer.specs.Answer.{told_written};
ghost use Rattle.format.specs.Limits.{max_frames};
ghost use Rattle.state.specs.Outcome.{lent_bytes, leaves};
ghost use Rattle.board_clock.specs.Clock.{due, follows, first, stepped};
ghost use Rattle.board_clock.specs.Replay.{numbers, replayed};

use answer::{Refusal, Refused};

// Half the range of a counter of 32 bits.
const HALF_RANGE: u32 = 2147483648;

// What a reading brings: nothing yet, a frame, or that the clock was set back.
#[derive(Clone, Copy)]
pub enum Due {
    Nothing,
    Frame,
    SetBack,
}

// The number of the frame that stands, and the last draw time.
#[derive(Clone, Copy)]
pub struct Stands {
    pub number: usize,
    pub last: u32,
}

// What a reading brought, and what stands then.
#[derive(Clone, Copy)]
pub struct Turn {
    pub due: Due,
    pub stands: Stands,
}

// What a reading brings.
#[tactic(auto, unfolding(crate::specs::Clock::due, crate::specs::Clock::elapsed))]
fn due_at(speed: u32, last: u32, reading: u32) -> Due
    ensures { result ≡ due speed last reading }
{
    let gone = reading.wrapping_sub(last);
    if HALF_RANGE <= gone {
        return Due::SetBack;
    }
    if gone < speed {
        return Due::Nothing;
    }
    Due::Frame
}

// The number of the frame that comes after this one; past 64 bits, which no reel has, it begins again at 0.
fn next_number(number: usize, frames: usize) -> usize
    ensures { result ≡ follows number frames % 2 ^ 64 }
{
    if number <= frames {
        return number.wrapping_add(1);
    }
    2
}

// Whether the frame that comes after this one is the ring.
pub fn ring_follows(number: usize, frames: usize) -> bool
    ensures { result ≡ (follows number frames == suc frames) }
{
    if number <= frames {
        return number == frames;
    }
    frames == 1
}

// One reading, over the clock and the number alone.
#[tactic(auto, unfolding(crate::specs::Clock::stepped))]
pub fn step(stands: Stands, frames: usize, speed: u32, reading: u32) -> Turn
    ensures { result ≡ stepped frames speed stands reading }
{
    match due_at(speed, stands.last, reading) {
        Due::Nothing => Turn {
            due: Due::Nothing,
            stands,
        },
        Due::SetBack => Turn {
            due: Due::SetBack,
            stands: Stands {
                last: reading,
                ..stands
            },
        },
        Due::Frame => Turn {
            due: Due::Frame,
            stands: Stands {
                number: next_number(stands.number, frames),
                last: stands.last.wrapping_add(speed),
            },
        },
    }
}

// Stores the number that stands after each reading, from frame 1 drawn at start on.
fn store_numbers(out: &mut [u32], readings: &[u32], frames: usize, speed: u32, start: u32)
    requires { (1 ≤ frames) × (frames ≤ max_frames) × (length readings.now ≤ length out.old) }
    ensures { out.new ≡ put out.old 0 (numbers frames speed (first start) readings.now) }
{
    let mut stands = Stands {
        number: 1,
        last: start,
    };
    for (i, reading) in readings.iter().enumerate() {
        stands = step(stands, frames, speed, *reading).stands;
        out[i] = stands.number as u32;
    }
}

// Replays recorded readings: the number of the frame that stood after each.
#[tactic(auto, unfolding(crate::specs::Replay::replayed))]
pub fn replay(
    speed: u32,
    frames: usize,
    start: u32,
    readings: &[u32],
    out: &mut [u32],
) -> Result<usize, Refused>
    ensures { leaves (told_written result) (lent_bytes out.new) ≡ replayed speed frames start readings.now out.old }
{
    if frames < 1 || frames > format::MAX_FRAMES {
        return Err(Refused(Refusal::BadHeader, 0));
    }
    if out.len() < readings.len() {
        return Err(Refused(Refusal::NoRoom, 0));
    }
    store_numbers(out, readings, frames, speed, start);
    Ok(readings.len())
}
