// The entry points for C (include/flic.h), and nothing else: numbers, slices and plain structs. A slice is a pointer and then a length.
// Numbers stand for refusals, formats, events and a closed reel, since C reads them so.
#![tactic(auto)]

ghost use Rattle.std.specs.Prelude.{◌≡◌};
ghost use Rattle.format.specs.Limits.{size_of, format_from};
ghost use Rattle.delay.specs.Delay.{milliseconds, in_jiffies};
ghost use Rattle.reel_header.specs.declared.Takes.TheVariants.{Both};
ghost use Rattle.answer.specs.Answer.{told, told_written};
ghost use Rattle.reel_build.specs.Record.{told_built};
ghost use Rattle.state.specs.State.{state};
ghost use Rattle.state.specs.Outcome.{lent_bytes, lent_pair, lent_bytes_pair, lent_pairs, lent_bytes_pairs};
ghost use Rattle.chunks.specs.declared.Layout.TheVariants.{Loose};
ghost use Rattle.chunks.specs.Spans.{next_at};
ghost use Rattle.read_frame.specs.Reading.{read_frame};
ghost use Rattle.house_frame.specs.Writing.{write_frame};
ghost use Rattle.house_rewrite.specs.Rewriting.{rewrite_frame};
ghost use Rattle.reel_header.specs.Head.{head_of};
ghost use Rattle.reel_check.specs.Check.{check_reel};
ghost use Rattle.reel_build.specs.Building.{open_reel, open_fli, add_frame};
ghost use Rattle.reel_close.specs.Closing.{close_reel};
ghost use Rattle.reel_trailer.specs.Trailer.{check_trailer, write_trailer};
ghost use Rattle.list_chunks.specs.Listing.{list};
ghost use Rattle.board_clock.specs.Replay.{replayed};
ghost use Rattle.board_player.specs.Player.{told_tick, no_player};
ghost use Rattle.board_player.specs.Ticking.{tick};
ghost use Rattle.board_player.specs.Starting.{start_player};
ghost use Rattle.board_tiles.specs.Marks.{tile_row};
ghost use Rattle.board_tiles.specs.Mapping.{tile_map};
ghost use Rattle.capi.specs.Capi.{header_for, span_for, HeldCost, length_of, event_of, nothing, reel_from, record_for, record_after, Told, Held, HeldLength, HeldReel, HeldPlayer, HeldTick, too_long, milliseconds_for, jiffies_for};

use answer::{Refusal, Refused};
use board_player::{Event, Player};
use board_tiles::TileRow;
use delay::{Jiffies, Milliseconds};
use format::{Format, Size};
use reel_build::Reel;
use reel_header::Takes;
use state::Pair;

// Number 0: done. Otherwise the refusal's number and place.
#[repr(C)]
#[derive(Clone, Copy)]
pub struct Answered {
    pub number: u32,
    pub place: u64,
}

// A reel from call to call. Closed: any number but 0; format: 0 FLC, any other number FLI.
#[repr(C)]
#[derive(Clone, Copy)]
pub struct Record {
    pub width: u64,
    pub height: u64,
    pub frames: u64,
    pub end: u64,
    pub closed: u32,
    pub format: u32,
}

// An answer with the reel as it is after the call: where refused, as it was handed in.
#[repr(C)]
#[derive(Clone, Copy)]
pub struct Recorded {
    pub number: u32,
    pub place: u64,
    pub reel: Record,
}

// The same with how many bytes were written, 0 where refused.
#[repr(C)]
#[derive(Clone, Copy)]
pub struct Delivered {
    pub number: u32,
    pub place: u64,
    pub length: u64,
}

// A reel's header, its speed in milliseconds: all fields are 0 where refused.
#[repr(C)]
#[derive(Clone, Copy)]
pub struct ReelHeader {
    pub number: u32,
    pub place: u64,
    pub width: u64,
    pub height: u64,
    pub frames: u64,
    pub size: u64,
    pub speed: u32,
    pub format: u32,
}

// Where a frame begins and ends: both 0 where refused.
#[repr(C)]
#[derive(Clone, Copy)]
pub struct FrameSpan {
    pub number: u32,
    pub place: u64,
    pub from: u64,
    pub end: u64,
}

// A delay in the other unit: 0 where refused.
#[repr(C)]
#[derive(Clone, Copy)]
pub struct DelayAnswer {
    pub number: u32,
    pub place: u64,
    pub delay: u32,
}

// What a row's least packets cost: their bytes, and the turns of the search for them; both 0 where refused.
#[repr(C)]
#[derive(Clone, Copy)]
pub struct RowFigures {
    pub number: u32,
    pub place: u64,
    pub bytes: u64,
    pub turns: u64,
}

// An answer with the player that was started: all its fields are 0 where refused.
#[repr(C)]
#[derive(Clone, Copy)]
pub struct PlayerAnswer {
    pub number: u32,
    pub place: u64,
    pub player: Player,
}

// A tick's answer. Event 0: nothing was due, 1: a frame was drawn, 2: the clock was set back; 0 where refused.
#[repr(C)]
#[derive(Clone, Copy)]
pub struct TickAnswer {
    pub number: u32,
    pub place: u64,
    pub event: u32,
}

impl From<Result<(), Refused>> for Answered {
    ghost from_gives = { λ a result. Told result.number result.place (told a) };

    fn from(a: Result<(), Refused>) -> Answered {
        match a {
            Ok(()) => Answered {
                number: 0,
                place: 0,
            },
            Err(Refused(e, place)) => Answered {
                number: u32::from(e),
                place: place as u64,
            },
        }
    }
}

impl From<Result<usize, Refused>> for Delivered {
    ghost from_gives = { λ a result. Told result.number result.place (told_written a) × (result.length ≡ length_of (told_written a)) };

    fn from(a: Result<usize, Refused>) -> Delivered {
        match a {
            Ok(count) => Delivered {
                number: 0,
                place: 0,
                length: count as u64,
            },
            Err(Refused(e, place)) => Delivered {
                number: u32::from(e),
                place: place as u64,
                length: 0,
            },
        }
    }
}

fn size_from_c(format: u32, width: usize, height: usize) -> Size
    ensures { result ≡ size_of (format_from format) width height }
{
    Size {
        width,
        height,
        format: Format::from(format),
    }
}

// Reads one frame against the picture and palette that show.
#[unsafe(no_mangle)]
pub extern "C" fn flic_read_frame(
    bytes: &[u8],
    format: u32,
    width: usize,
    height: usize,
    picture: &mut [u8],
    palette: &mut [u8],
) -> Answered
    ensures { Held result.number result.place (lent_pair (state picture.new palette.new))
        (read_frame bytes.now (size_of (format_from format) width height) (state picture.old palette.old)) }
{
    let size = size_from_c(format, width, height);
    let a = read_frame::read_frame(bytes, size, picture, palette);
    Answered::from(a)
}

// Writes the frame that leads from the previous picture and palette to the next.
#[unsafe(no_mangle)]
pub extern "C" fn flic_write_frame(
    format: u32,
    width: usize,
    height: usize,
    previous_picture: &[u8],
    previous_palette: &[u8],
    next_picture: &[u8],
    next_palette: &[u8],
    out: &mut [u8],
) -> Delivered
    ensures { HeldLength result.number result.place result.length (lent_bytes out.new)
        (write_frame (size_of (format_from format) width height) (state previous_picture.now previous_palette.now) (state next_picture.now next_palette.now) out.old) }
{
    let size = size_from_c(format, width, height);
    let a = house_frame::write_frame(
        size,
        Pair {
            picture: previous_picture,
            palette: previous_palette,
        },
        Pair {
            picture: next_picture,
            palette: next_palette,
        },
        out,
    );
    Delivered::from(a)
}

// Searches one row for its least packets.
#[unsafe(no_mangle)]
pub extern "C" fn flic_search_row(row: &[u8]) -> RowFigures
    ensures { HeldCost result row.now }
{
    match house_rows::search_row(row) {
        Err(e) => RowFigures {
            number: u32::from(e),
            place: 0,
            bytes: 0,
            turns: 0,
        },
        Ok(cost) => RowFigures {
            number: 0,
            place: 0,
            bytes: cost.bytes as u64,
            turns: cost.turns as u64,
        },
    }
}

// Reads a frame into the working pair and writes it in house form.
#[unsafe(no_mangle)]
pub extern "C" fn flic_rewrite_frame(
    bytes: &[u8],
    format: u32,
    width: usize,
    height: usize,
    previous_picture: &[u8],
    previous_palette: &[u8],
    work_picture: &mut [u8],
    work_palette: &mut [u8],
    out: &mut [u8],
) -> Delivered
    ensures { HeldLength result.number result.place result.length (lent_bytes_pair out.new (state work_picture.new work_palette.new))
        (rewrite_frame bytes.now (size_of (format_from format) width height) (state previous_picture.now previous_palette.now) (state work_picture.old work_palette.old) out.old) }
{
    let size = size_from_c(format, width, height);
    let a = house_rewrite::rewrite_frame(
        bytes,
        size,
        Pair {
            picture: previous_picture,
            palette: previous_palette,
        },
        work_picture,
        work_palette,
        out,
    );
    Delivered::from(a)
}

impl From<Record> for Reel {
    ghost from_gives = { λ r reel. reel ≡ reel_from r };

    fn from(r: Record) -> Reel {
        Reel {
            size: size_from_c(r.format, r.width as usize, r.height as usize),
            frames: r.frames as usize,
            end: r.end as usize,
            closed: r.closed != 0,
        }
    }
}

impl From<Reel> for Record {
    ghost from_gives = { λ reel r. r ≡ record_for reel };

    fn from(reel: Reel) -> Record {
        Record {
            width: reel.size.width as u64,
            height: reel.size.height as u64,
            frames: reel.frames as u64,
            end: reel.end as u64,
            closed: u32::from(reel.closed),
            format: u32::from(reel.size.format),
        }
    }
}

// A reel after a call that was handed this record.
fn built_for_c(a: Result<Reel, Refused>, handed: Record) -> Recorded
    ensures { Told result.number result.place (told_built a) × (result.reel ≡ record_after handed a) }
{
    match a {
        Ok(reel) => Recorded {
            number: 0,
            place: 0,
            reel: Record::from(reel),
        },
        Err(Refused(e, place)) => Recorded {
            number: u32::from(e),
            place: place as u64,
            reel: handed,
        },
    }
}

// Checks a whole reel.
#[unsafe(no_mangle)]
pub extern "C" fn flic_check_reel(
    bytes: &[u8],
    first_picture: &mut [u8],
    first_palette: &mut [u8],
    second_picture: &mut [u8],
    second_palette: &mut [u8],
) -> Answered
    ensures { Held result.number result.place (lent_pairs (state first_picture.new first_palette.new) (state second_picture.new second_palette.new))
        (check_reel bytes.now (state first_picture.old first_palette.old) (state second_picture.old second_palette.old)) }
{
    let a = reel_check::check_reel(
        bytes,
        first_picture,
        first_palette,
        second_picture,
        second_palette,
    );
    Answered::from(a)
}

// No record.
fn no_record() -> Record
    ensures { result ≡ nothing }
{
    Record {
        width: 0,
        height: 0,
        frames: 0,
        end: 0,
        closed: 0,
        format: 0,
    }
}

// Opens an FLC at the front of the lent bytes.
#[unsafe(no_mangle)]
pub extern "C" fn flic_open_reel(
    width: usize,
    height: usize,
    speed: u32,
    bytes: &mut [u8],
) -> Recorded
    ensures { HeldReel result.number result.place result.reel nothing (lent_bytes bytes.new) (open_reel width height (milliseconds speed) bytes.old) }
{
    let a = reel_build::open_reel(width, height, Milliseconds(speed), bytes);
    built_for_c(a, no_record())
}

// Opens an FLI at the front of the lent bytes; its delay is in jiffies.
#[unsafe(no_mangle)]
pub extern "C" fn flic_open_fli(
    width: usize,
    height: usize,
    jiffies: u32,
    bytes: &mut [u8],
) -> Recorded
    ensures { HeldReel result.number result.place result.reel nothing (lent_bytes bytes.new) (open_fli width height jiffies bytes.old) }
{
    let a = reel_build::open_fli(width, height, jiffies, bytes);
    built_for_c(a, no_record())
}

// Adds the frame that leads from the showing picture and palette to the next.
#[unsafe(no_mangle)]
pub extern "C" fn flic_add_frame(
    reel: Record,
    bytes: &mut [u8],
    shown_picture: &[u8],
    shown_palette: &[u8],
    next_picture: &[u8],
    next_palette: &[u8],
) -> Recorded
    ensures { HeldReel result.number result.place result.reel reel (lent_bytes bytes.new)
        (add_frame (reel_from reel) bytes.old (state shown_picture.now shown_palette.now) (state next_picture.now next_palette.now)) }
{
    let a = reel_build::add_frame(
        Reel::from(reel),
        bytes,
        Pair {
            picture: shown_picture,
            palette: shown_palette,
        },
        Pair {
            picture: next_picture,
            palette: next_palette,
        },
    );
    built_for_c(a, reel)
}

// Closes a reel.
#[unsafe(no_mangle)]
pub extern "C" fn flic_close_reel(
    reel: Record,
    bytes: &mut [u8],
    first_picture: &mut [u8],
    first_palette: &mut [u8],
    second_picture: &mut [u8],
    second_palette: &mut [u8],
) -> Recorded
    ensures { HeldReel result.number result.place result.reel reel (lent_bytes_pairs bytes.new (state first_picture.new first_palette.new) (state second_picture.new second_palette.new))
        (close_reel (reel_from reel) bytes.old (state first_picture.old first_palette.old) (state second_picture.old second_palette.old)) }
{
    let a = reel_close::close_reel(
        Reel::from(reel),
        bytes,
        first_picture,
        first_palette,
        second_picture,
        second_palette,
    );
    built_for_c(a, reel)
}

// Checks what stands behind a reel.
#[unsafe(no_mangle)]
pub extern "C" fn flic_check_trailer(bytes: &[u8]) -> Answered
    ensures { Told result.number result.place (check_trailer bytes.now) }
{
    let a = reel_trailer::check_trailer(bytes);
    Answered::from(a)
}

// Writes index and trailer behind a reel.
#[unsafe(no_mangle)]
pub extern "C" fn flic_write_trailer(bytes: &mut [u8]) -> Delivered
    ensures { HeldLength result.number result.place result.length (lent_bytes bytes.new) (write_trailer bytes.old) }
{
    let a = reel_trailer::write_trailer(bytes);
    Delivered::from(a)
}

// Lists the chunks of a reel as text.
#[unsafe(no_mangle)]
pub extern "C" fn flic_list(bytes: &[u8], out: &mut [u8]) -> Delivered
    ensures { HeldLength result.number result.place result.length (lent_bytes out.new) (list bytes.now out.old) }
{
    let a = list_chunks::list_into(bytes, out);
    Delivered::from(a)
}

// Reads the header of a reel.
#[unsafe(no_mangle)]
pub extern "C" fn flic_read_header(bytes: &[u8]) -> ReelHeader
    ensures { result ≡ header_for (head_of Both bytes.now) }
{
    match reel_header::head_of(Takes::Both, bytes) {
        Err(e) => ReelHeader {
            number: u32::from(e),
            place: 0,
            width: 0,
            height: 0,
            frames: 0,
            size: 0,
            speed: 0,
            format: 0,
        },
        Ok(head) => ReelHeader {
            number: 0,
            place: 0,
            width: head.picture.width as u64,
            height: head.picture.height as u64,
            frames: head.frames as u64,
            size: head.size as u64,
            speed: head.speed.0,
            format: u32::from(head.picture.format),
        },
    }
}

// Finds the next frame of a reel from an offset on; bytes: the reel up to its size.
#[unsafe(no_mangle)]
pub extern "C" fn flic_next_frame(bytes: &[u8], at: usize) -> FrameSpan
    ensures { result ≡ span_for (next_at Loose bytes.now at) }
{
    match chunks::next_at(bytes, at) {
        Err(Refused(e, place)) => FrameSpan {
            number: u32::from(e),
            place: place as u64,
            from: 0,
            end: 0,
        },
        Ok(frame) => FrameSpan {
            number: 0,
            place: 0,
            from: frame.from as u64,
            end: frame.end as u64,
        },
    }
}

// The refusal of a delay that two bytes don't hold.
fn too_long() -> DelayAnswer
    ensures { result ≡ too_long }
{
    DelayAnswer {
        number: u32::from(Refusal::BadHeader),
        place: 0,
        delay: 0,
    }
}

// A delay in jiffies, in milliseconds.
#[unsafe(no_mangle)]
pub extern "C" fn flic_in_milliseconds(jiffies: u32) -> DelayAnswer
    ensures { result ≡ milliseconds_for jiffies }
{
    if jiffies > 65535 {
        return too_long();
    }
    DelayAnswer {
        number: 0,
        place: 0,
        delay: Milliseconds::from(Jiffies(jiffies as u16)).0,
    }
}

// A delay in milliseconds, in jiffies.
#[unsafe(no_mangle)]
pub extern "C" fn flic_in_jiffies(delay: u32) -> DelayAnswer
    ensures { result ≡ jiffies_for (in_jiffies (milliseconds delay)) }
{
    match Jiffies::try_from(Milliseconds(delay)) {
        Ok(jiffies) => DelayAnswer {
            number: 0,
            place: 0,
            delay: u32::from(jiffies.0),
        },
        Err(_) => too_long(),
    }
}

// No player: the zeros that C gets of a refused start.
fn no_player() -> Player
    ensures { result ≡ no_player }
{
    Player {
        width: 0,
        height: 0,
        frames: 0,
        number: 0,
        place: 0,
        second: 0,
        speed: Milliseconds(0),
        last: 0,
        format: 0,
    }
}

// Starts a player on a whole reel.
#[unsafe(no_mangle)]
pub extern "C" fn flic_start_player(
    bytes: &[u8],
    reading: u32,
    first_picture: &mut [u8],
    first_palette: &mut [u8],
    second_picture: &mut [u8],
    second_palette: &mut [u8],
) -> PlayerAnswer
    ensures { HeldPlayer result.number result.place result.player (lent_pairs (state first_picture.new first_palette.new) (state second_picture.new second_palette.new))
        (start_player bytes.now reading (state first_picture.old first_palette.old) (state second_picture.old second_palette.old)) }
{
    let started = board_player::start_player(
        bytes,
        reading,
        first_picture,
        first_palette,
        second_picture,
        second_palette,
    );
    match started {
        Ok(player) => PlayerAnswer {
            number: 0,
            place: 0,
            player,
        },
        Err(Refused(e, place)) => PlayerAnswer {
            number: u32::from(e),
            place: place as u64,
            player: no_player(),
        },
    }
}

impl From<Result<Event, Refused>> for TickAnswer {
    ghost from_gives = { λ a result. Told result.number result.place (told_tick a) × (result.event ≡ event_of (told_tick a)) };

    fn from(a: Result<Event, Refused>) -> TickAnswer {
        match a {
            Ok(event) => TickAnswer {
                number: 0,
                place: 0,
                event: u32::from(event),
            },
            Err(Refused(e, place)) => TickAnswer {
                number: u32::from(e),
                place: place as u64,
                event: 0,
            },
        }
    }
}

// One tick of a player, whose record is changed where it lies.
#[unsafe(no_mangle)]
pub extern "C" fn flic_tick(
    player: &mut Player,
    bytes: &[u8],
    reading: u32,
    picture: &mut [u8],
    palette: &mut [u8],
) -> TickAnswer
    ensures { HeldTick result.number result.place result.event player.new (lent_pair (state picture.new palette.new))
        (tick player.old bytes.now reading (state picture.old palette.old)) }
{
    let a = board_player::tick(player, bytes, reading, picture, palette);
    TickAnswer::from(a)
}

// Replays recorded readings.
#[unsafe(no_mangle)]
pub extern "C" fn flic_replay(
    speed: u32,
    frames: usize,
    start: u32,
    readings: &[u32],
    numbers: &mut [u32],
) -> Delivered
    ensures { HeldLength result.number result.place result.length (lent_bytes numbers.new) (replayed speed frames start readings.now numbers.old) }
{
    let a = board_clock::replay(speed, frames, start, readings, numbers);
    Delivered::from(a)
}

// Maps the tiles that have a changed pixel: a word for each row of tiles.
#[unsafe(no_mangle)]
pub extern "C" fn flic_tile_map(
    width: usize,
    height: usize,
    previous_picture: &[u8],
    next_picture: &[u8],
    words: &mut [u64],
) -> Delivered
    ensures { HeldLength result.number result.place result.length (lent_bytes words.new) (tile_map width height previous_picture.now next_picture.now words.old) }
{
    let a = board_tiles::tile_map(width, height, previous_picture, next_picture, words);
    Delivered::from(a)
}

// The marked tiles of a word: how many, the first and the last.
#[unsafe(no_mangle)]
pub extern "C" fn flic_marked_tiles(word: u64) -> TileRow
    ensures { result ≡ tile_row word }
{
    board_tiles::tile_row(word)
}
