// What a cleaning keeps of a chunk, and how much that is: whether an entry is kept, and the words and entries of those
// that are, counted. Where a delete asks for it, one pass before counts the entries of each key.
ghost use Rattle.std.specs.Prelude.{◌≡◌, ◌*◌, length};
ghost use Rattle.spec.specs.Words.{words_of};
ghost use Rattle.spec.specs.Places.{chunk_words};
ghost use Rattle.places.specs.Sizes.{power_of};
ghost use Rattle.gathering.specs.Measuring.{Counting, CountedOnce, KeptTest, Room, OneWeighed, Hastened, Measured};

use logs::Cursor;
use spec::Size;

// How many words are gathered, and how many entries.
#[derive(Clone, Copy)]
pub struct Tally {
    pub words: usize,
    pub entries: usize,
}

// WHAT IS KEPT
// How many entries of each key stand in the words from `at` to `end`, into a key table for that.
fn count_keys(image: &[u8], counts: &mut [u64], at: usize, end: usize, size: Size)
    ensures { Counting size (words_of image.now) at end counts.old counts.new }
{
    index::clear(counts);
    let mut cursor = Cursor { chunk: 0, at, end };
    while let Ok(Some(e)) = logs::next_in_log(image, 0, cursor, size) {
        let more = index::get(counts, e.key).wrapping_add(1);
        index::insert_or_update(counts, e.key, more);
        cursor = e.behind;
    }
}

// The keys are counted once, and not before an entry asks for it: a delete of a key with several entries. Whether they
// are counted now.
pub fn count_once(
    image: &[u8],
    table: &[u64],
    counts: &mut [u64],
    at: usize,
    end: usize,
    op: u64,
    key: u64,
    counted: bool,
    size: Size,
) -> bool
    ensures { CountedOnce size (words_of image.now) table.now at end counts.old counts.new op key counted result }
{
    if counted {
        return true;
    }
    if op == 1 || packing::unpack(size, index::get(table, key)).entries == 1 {
        return false;
    }
    count_keys(image, counts, at, end, size);
    true
}

// Whether the entry at this place is kept: the chosen one of its key, if it is a put, or its key has an entry in
// another chunk.
pub fn is_kept(table: &[u64], counts: &[u64], op: u64, key: u64, place: usize, size: Size) -> bool
    ensures { KeptTest size table.now counts.now op key place result }
{
    let info = packing::unpack(size, index::get(table, key));
    info.place == place as u64
        && (op == 1 || info.entries != 1 && index::get(counts, key) < info.entries)
}

// ROOM
// Whether an entry at this place with so many words of value goes behind what is gathered.
pub fn has_room(so: Tally, place: usize, value: usize, size: Size) -> bool
    ensures { Room size so.words so.entries place value result }
{
    let room = places::words(size);
    // behind so many words the first word and the key of an entry still fit
    let last = room - 2;
    so.words <= last && value <= last - so.words && so.entries < room && place < 0x40_0000
}

// MEASURING
// One entry: its words are counted if it is kept.
fn add_kept(so: Tally, kept: bool, place: usize, value: usize, size: Size) -> Tally
    ensures { OneWeighed size so kept place value result }
{
    if kept && has_room(so, place, value, size) {
        Tally {
            words: so.words + (2 + value),
            entries: so.entries + 1,
        }
    } else {
        so
    }
}

// What is counted up to a word.
#[derive(Clone, Copy)]
pub struct Run {
    pub tally: Tally,
    pub at: usize,
}

// The puts with values in the log that stand one behind the other from word `from` on, before word `until`: all else is
// left to `size_counted`.
fn add_puts(
    image: &[u8],
    table: &[u64],
    counts: &[u64],
    from: usize,
    until: usize,
    so: Tally,
    size: Size,
) -> Run
    ensures { Hastened size (words_of image.now) table.now until from so result.at result.tally }
{
    let mut tally = so;
    let mut place = from;
    while let Some(put) = logs::short_put(image, place, until) {
        let kept = is_kept(table, counts, 1, put.key, place, size);
        tally = add_kept(tally, kept, place, put.words, size);
        place += 2 + put.words;
    }
    Run { tally, at: place }
}

// How many words and entries a cleaning keeps of the words from `at` to `end`; the keys are counted in words of the
// caller's.
fn size_counted(
    image: &[u8],
    table: &[u64],
    counts: &mut [u64],
    at: usize,
    end: usize,
    size: Size,
) -> Tally
    requires { length counts.old ≡ 2 * chunk_words (power_of size) }
    ensures { Measured size (words_of image.now) table.now at end result }
{
    let mut counted = false;
    let mut tally = Tally {
        words: 0,
        entries: 0,
    };
    let mut cursor = Cursor { chunk: 0, at, end };
    loop {
        let run = add_puts(image, table, counts, cursor.at, cursor.end, tally, size);
        let here = Cursor {
            at: run.at,
            ..cursor
        };
        let Ok(Some(e)) = logs::next_in_log(image, 0, here, size) else {
            return run.tally;
        };
        counted = count_once(image, table, counts, at, end, e.op, e.key, counted, size);
        let kept = is_kept(table, counts, e.op, e.key, e.place, size);
        tally = add_kept(run.tally, kept, e.place, e.words, size);
        cursor = e.behind;
    }
}

// The same with words for that, two for each word of the chunk.
fn size_in<const N: usize>(image: &[u8], table: &[u64], at: usize, end: usize, size: Size) -> Tally
    requires { N ≡ 2 * chunk_words (power_of size) }
    ensures { Measured size (words_of image.now) table.now at end result }
{
    let mut counts = [0; N];
    size_counted(image, table, &mut counts, at, end, size)
}

// How many words and entries a cleaning keeps of the words from `at` to `end`: for choosing.
pub fn kept_size(image: &[u8], table: &[u64], at: usize, end: usize, size: Size) -> Tally
    ensures { Measured size (words_of image.now) table.now at end result }
{
    match size {
        Size::Small => size_in::<1024>(image, table, at, end, size),
        Size::Large => size_in::<16384>(image, table, at, end, size),
    }
}
