// A player that keeps time: started on a whole reel, it draws a frame at each tick that is due (document 02, Req 01).
#![tactic(auto)]

ghost use Rattle.std.specs.Prelude.{◌≡◌};
ghost use Rattle.state.specs.State.{state};
ghost use Rattle.state.specs.Outcome.{lent_pair, lent_pairs, leaves};
ghost use Rattle.reel_play.specs.Play.{ran};
ghost use Rattle.board_player.specs.Player.{event_number, told_tick, player_at, player_size, plays, ticks, starts, standing, place_after};
ghost use Rattle.board_player.specs.Ticking.{record_ok, draw, tick};
ghost use Rattle.board_player.specs.Starting.{start_player};

use answer::{Refusal, Refused};
use board_clock::{Due, Stands};
use chunks::{Frame, HEADER_BYTES, Layout};
use delay::Milliseconds;
use format::{Format, PALETTE_BYTES, Size};
use reel_header::{Head, Takes};

// What a player carries from tick to tick: the reel's size and frames, the number of the frame that stands, the place where the next one is looked for,
// where frame 1 ends, the speed, the last draw time, and the format as a number (Format::from). A caller may hand in any values. The record lies in
// C's memory as it stands here: that is why number and last are no Stands, width and height no Size, and the format is a number.
#[repr(C)]
#[derive(Clone, Copy)]
pub struct Player {
    pub width: usize,
    pub height: usize,
    pub frames: usize,
    pub number: usize,
    pub place: usize,
    pub second: usize,
    pub speed: Milliseconds,
    pub last: u32,
    pub format: u32,
}

// What a tick brings: nothing was due, a frame was drawn, or the clock was set back.
#[derive(Clone, Copy)]
pub enum Event {
    Nothing,
    Drawn,
    SetBack,
}

// What a tick brought, and the player after it.
#[derive(Clone, Copy)]
pub struct Stepped {
    pub event: Event,
    pub player: Player,
}

// The number of an event.
impl From<Event> for u32 {
    ghost from_gives = { λ event number. number ≡ event_number event };

    fn from(event: Event) -> u32 {
        match event {
            Event::Nothing => 0,
            Event::Drawn => 1,
            Event::SetBack => 2,
        }
    }
}

// The size of a player's pictures, and the format of its frames.
impl From<Player> for Size {
    ghost from_gives = { λ player size. size ≡ player_size player };

    fn from(player: Player) -> Size {
        Size {
            width: player.width,
            height: player.height,
            format: Format::from(player.format),
        }
    }
}

// The player with another frame standing, the next being looked for at place.
fn standing_at(player: Player, stands: Stands, place: usize) -> Player
    ensures { result ≡ standing player stands place }
{
    Player {
        number: stands.number,
        place,
        last: stands.last,
        ..player
    }
}

// Where the frame after the one just drawn is looked for: behind it, or behind frame 1 if it was the ring.
fn place_after(player: Player, end: usize) -> usize
    ensures { result ≡ place_after player end }
{
    if board_clock::ring_follows(player.number, player.frames) {
        return player.second;
    }
    end
}

// Whether a player's place lies within the bytes, and its number is that of a frame or of the ring.
fn record_ok(player: Player, bytes: &[u8]) -> bool
    ensures { result ≡ record_ok player bytes.now }
{
    player.place <= bytes.len() && 1 <= player.number && player.number - 1 <= player.frames
}

// Draws the frame that comes next, and gives where it lies.
fn draw_next(
    player: Player,
    bytes: &[u8],
    picture: &mut [u8],
    palette: &mut [u8],
) -> Result<Frame, Refused>
    ensures { ran result (state picture.new palette.new) ≡ draw player bytes.now (state picture.old palette.old) }
{
    let size = Size::from(player);
    if !format::size_fits(size) {
        return Err(Refused(Refusal::BadSize, 0));
    }
    let n = size.width * size.height;
    if !state::holds(picture.len(), palette.len(), n) {
        return Err(Refused(Refusal::ShortSlice, 0));
    }
    if !record_ok(player, bytes) {
        return Err(Refused(Refusal::Cut, 0));
    }
    reel_play::one_frame(
        &mut picture[..n],
        &mut palette[..PALETTE_BYTES],
        bytes,
        Layout::Loose,
        player.place,
        size,
    )
}

// One tick of a player by value. A refusal leaves the caller with the player that it handed in.
pub fn step(
    player: Player,
    bytes: &[u8],
    reading: u32,
    picture: &mut [u8],
    palette: &mut [u8],
) -> Result<Stepped, Refused>
    ensures { ticks player result (lent_pair (state picture.new palette.new)) ≡ tick player bytes.now reading (state picture.old palette.old) }
{
    let turn = board_clock::step(
        Stands {
            number: player.number,
            last: player.last,
        },
        player.frames,
        player.speed.0,
        reading,
    );
    match turn.due {
        Due::Nothing => Ok(Stepped {
            event: Event::Nothing,
            player,
        }),
        Due::SetBack => Ok(Stepped {
            event: Event::SetBack,
            player: standing_at(player, turn.stands, player.place),
        }),
        Due::Frame => {
            let drawn = draw_next(player, bytes, picture, palette)?;
            let place = place_after(player, drawn.end);
            Ok(Stepped {
                event: Event::Drawn,
                player: standing_at(player, turn.stands, place),
            })
        }
    }
}

// One tick of a player that is lent.
pub fn tick(
    player: &mut Player,
    bytes: &[u8],
    reading: u32,
    picture: &mut [u8],
    palette: &mut [u8],
) -> Result<Event, Refused>
    ensures { plays player.new (leaves (told_tick result) (lent_pair (state picture.new palette.new)))
        ≡ tick player.old bytes.now reading (state picture.old palette.old) }
{
    let stepped = step(*player, bytes, reading, picture, palette)?;
    // Where nothing is due, as at most ticks, nothing is stored.
    match stepped.event {
        Event::Nothing => {}
        _ => *player = stepped.player,
    }
    Ok(stepped.event)
}

// A player at frame 1 of the reel with this header; frame 1 ends at offset end, and was drawn at the reading given.
fn player_at(head: Head, end: usize, reading: u32) -> Player
    ensures { result ≡ player_at head.picture head.frames end head.speed reading }
{
    Player {
        width: head.picture.width,
        height: head.picture.height,
        frames: head.frames,
        number: 1,
        place: end,
        second: end,
        speed: head.speed,
        last: reading,
        format: u32::from(head.picture.format),
    }
}

// Starts a player: checks the whole reel in the two pairs, of which the first shows frame 1 then.
pub fn start_player(
    bytes: &[u8],
    reading: u32,
    first_picture: &mut [u8],
    first_palette: &mut [u8],
    second_picture: &mut [u8],
    second_palette: &mut [u8],
) -> Result<Player, Refused>
    ensures { starts result (lent_pairs (state first_picture.new first_palette.new) (state second_picture.new second_palette.new))
        ≡ start_player bytes.now reading (state first_picture.old first_palette.old) (state second_picture.old second_palette.old) }
{
    reel_check::check_reel(
        bytes,
        first_picture,
        first_palette,
        second_picture,
        second_palette,
    )?;
    // A reel that was accepted has a header and a frame 1: neither is refused here.
    let head = answer::placed(reel_header::head_of(Takes::Both, bytes), 0)?;
    let frame = chunks::step_at(&bytes[..head.size], Layout::Loose, HEADER_BYTES)?;
    Ok(player_at(head, frame.end, reading))
}
