// Which tiles a panel has to redraw (document 02, Req 07): a word of marks for each row of tiles, and the number, the first and the last of its marks.
#![tactic(auto)]

ghost use Rattle.std.specs.Prelude.{◌≡◌, ◌||◌, ◌+◌, ◌*◌, ◌≤◌, ◌<◌, length, get_or};
ghost use Rattle.words.specs.Writes.{put};
ghost use Rattle.answer.specs.Answer.{told_written};
ghost use Rattle.format.specs.Limits.{Sized};
ghost use Rattle.state.specs.Outcome.{lent_bytes, leaves};
ghost use Rattle.board_tiles.specs.Tiles.{TILE as tile, tiles, changed};
ghost use Rattle.board_tiles.specs.Marks.{BITS, word_of, marked, last_of, tile_row};
ghost use Rattle.board_tiles.specs.Mapping.{tile_word, tile_words, tile_map};
ghost use Rattle.board_tiles.specs.Noted.{tells, below, column_changed, noted, Noted, Room, Made};

use answer::{Refusal, Refused};

// A tile is 8 pixels wide and high.
const TILE: usize = 8;

// The columns of the most tiles that a word has bits for.
const COLUMNS: usize = 512;

// How many tiles of a row are marked, the first and the last; 64 for both where none is.
#[repr(C)]
#[derive(Clone, Copy)]
pub struct TileRow {
    pub count: u32,
    pub first: u32,
    pub last: u32,
}

// Two pictures of one size, and whether they differ where.
#[derive(Clone, Copy)]
struct Pair<'a> {
    previous: &'a [u8],
    next: &'a [u8],
    width: usize,
    height: usize,
    ghost sized: { Sized width height },
    ghost previous_long: { width * height ≤ length previous.now },
    ghost next_long: { width * height ≤ length next.now },
}

impl Pair<'_> {
    // Not 0 exactly if the pixel of that index is changed.
    fn differs(self, at: usize) -> u8
        requires { at < self.width * self.height }
        ensures { tells result ≡ changed self.entry.previous.now self.entry.next.now at }
    {
        self.previous[at] ^ self.next[at]
    }

    // Not 0 exactly if one of eight pixels below each other is changed.
    fn eight_differ(self, at: usize) -> u8
        requires { at + 7 * self.width < self.width * self.height }
        ensures { tells result ≡ below self.entry.width self.entry.previous.now self.entry.next.now tile at }
    {
        let mut m = 0;
        for y in 0..TILE {
            m |= self.differs(at + y * self.width);
        }
        m
    }

    // Notes the columns of eight rows of pixels that begin at index at: sixteen columns at a time, as it is compiled, each pixel looked at once.
    fn note_eight(self, marks: &mut [u8], at: usize)
        requires { (self.width ≤ length marks.old) × (at + tile * self.width ≤ self.width * self.height) }
        ensures { Noted marks.old marks.new self.entry.width (λ x. below self.entry.width self.entry.previous.now self.entry.next.now tile (at + x)) }
    {
        for x in 0..self.width {
            marks[x] = self.eight_differ(at + x);
        }
    }

    // Notes the columns of one row more, which begins at index at.
    fn note_row(self, marks: &mut [u8], at: usize)
        requires { (self.width ≤ length marks.old) × (at + self.width ≤ self.width * self.height) }
        ensures { Noted marks.old marks.new self.entry.width (λ x. tells (get_or marks.old x 0) || changed self.entry.previous.now self.entry.next.now (at + x)) }
    {
        for x in 0..self.width {
            marks[x] |= self.differs(at + x);
        }
    }

    // Notes the columns of fewer rows, as the bottom row of tiles may have.
    fn note_rows(self, marks: &mut [u8], at: usize, high: usize)
        requires { (self.width ≤ length marks.old) × (at + high * self.width ≤ self.width * self.height) }
        ensures { Noted marks.old marks.new self.entry.width (λ x. below self.entry.width self.entry.previous.now self.entry.next.now high (at + x)) }
    {
        words::fill(&mut marks[..self.width], 0);
        for y in 0..high {
            self.note_row(marks, at + y * self.width);
        }
    }

    // Notes the columns of tile row j.
    fn note_tiles(self, marks: &mut [u8], j: usize)
        requires { (self.width ≤ length marks.old) × (tile * j < self.height) }
        ensures { Noted marks.old marks.new self.entry.width (column_changed self.entry.width self.entry.height self.entry.previous.now self.entry.next.now j) }
    {
        let top = TILE * j;
        let at = top * self.width;
        if self.height < top + TILE {
            self.note_rows(marks, at, self.height - top);
        } else {
            self.note_eight(marks, at);
        }
    }

    // The word of tile row j. marks: room for its columns.
    fn word_at(self, marks: &mut [u8], j: usize) -> u64
        requires { Room marks.old self.width × (tile * j < self.height) }
        ensures { Made result (tile_word self.entry.width self.entry.height self.entry.previous.now self.entry.next.now j) marks.new self.entry.width }
    {
        self.note_tiles(marks, j);
        word_of(marks, self.width.div_ceil(TILE))
    }

    // Stores the words of all tile rows.
    fn store_words(self, words: &mut [u64])
        requires { tiles self.height ≤ length words.old }
        ensures { words.new ≡ put words.old 0 (tile_words self.entry.width self.entry.height self.entry.previous.now self.entry.next.now) }
    {
        // Memory of fixed size, as no heap is used.
        let mut marks = [0; COLUMNS];
        for j in 0..self.height.div_ceil(TILE) {
            words[j] = self.word_at(&mut marks, j);
        }
    }
}

// Whether one of the eight columns of tile i is noted.
fn tile_noted(marks: &[u8], i: usize) -> bool
    requires { tile * i + tile ≤ length marks.now }
    ensures { result ≡ noted marks.now i }
{
    let mut m = 0;
    for a in 0..TILE {
        m |= marks[TILE * i + a];
    }
    m != 0
}

// The word of the first count tiles, from the last to the first.
fn word_of(marks: &[u8], count: usize) -> u64
    requires { (count ≤ BITS) × (tile * count ≤ length marks.now) }
    ensures { result ≡ word_of (noted marks.now) count }
{
    let mut word = 0;
    for i in (0..count).rev() {
        word += word;
        if tile_noted(marks, i) {
            word += 1;
        }
    }
    word
}

// The map of a picture's tiles: a word for each tile row; done tells how many.
pub fn tile_map(
    width: usize,
    height: usize,
    previous: &[u8],
    next: &[u8],
    words: &mut [u64],
) -> Result<usize, Refused>
    ensures { leaves (told_written result) (lent_bytes words.new) ≡ tile_map width height previous.now next.now words.old }
{
    if !format::size_ok(width, height) {
        return Err(Refused(Refusal::BadSize, 0));
    }
    let area = width * height;
    if previous.len() < area {
        return Err(Refused(Refusal::ShortSlice, 0));
    }
    if next.len() < area {
        return Err(Refused(Refusal::ShortSlice, 0));
    }
    let count = height.div_ceil(TILE);
    if words.len() < count {
        return Err(Refused(Refusal::NoRoom, 0));
    }
    let pair = Pair {
        previous,
        next,
        width,
        height,
    };
    pair.store_words(words);
    Ok(count)
}

// The last marked tile of a word.
fn last_of(word: u64) -> u32
    ensures { result ≡ last_of (marked word) BITS }
{
    if word == 0 {
        return 64;
    }
    63 - word.leading_zeros()
}

// The number of marked tiles of a word, the first and the last.
pub fn tile_row(word: u64) -> TileRow
    ensures { result ≡ tile_row word }
{
    TileRow {
        count: word.count_ones(),
        first: word.trailing_zeros(),
        last: last_of(word),
    }
}
