// Walking the entries of an image: what stands at a place, and the log in order.
#![tactic(auto)]

ghost use Rattle.std.specs.Prelude.{◌≡◌, List, ℕ, ◌+◌, ◌*◌, ◌/◌, ◌^◌, ◌≤◌, ◌<◌, length, get_or, drop};
ghost use Rattle.std.proofs.Math.Seq.{slice};
ghost use Rattle.spec.specs.Words.{words_of};
ghost use Rattle.places.specs.Sizes.{power_of};
ghost use Rattle.spec.specs.Log.{words_for, filled, step_of};
ghost use Rattle.logs.specs.Cursor.{Opened, Advanced, start};
ghost use Rattle.logs.specs.Best.{raise, best_in};
ghost use Rattle.logs.specs.Short.{ToldAt, ShortAt};

use codec::first_of;
use directory::lines_of;
use spec::{FirstWord, LogStep, Size};
use words::read_word;

// WORDS that are asked for one by one: an image's, or a buffer's.
pub trait WordList: Copy {
    ghost list: { Self → List ℕ };

    fn count(self) -> usize
        ensures { result ≡ length (list self) };

    fn word(self, i: usize) -> u64
        requires { i < length (list self) }
        ensures { result ≡ get_or (list self) i 0 };
}

impl WordList for &[u8] {
    ghost list = { λ s. words_of s.now };

    fn count(self) -> usize {
        self.len() / 8
    }

    fn word(self, i: usize) -> u64 {
        read_word(self, i)
    }
}

impl<const N: usize> WordList for &[u64; N] {
    ghost list = { λ s. s.now };

    fn count(self) -> usize {
        N
    }

    fn word(self, i: usize) -> u64 {
        self[i]
    }
}

// A place in the walk of the log: the chunk, the next word to look at, and the end of the chunk's committed words.
#[derive(Clone, Copy)]
pub struct Cursor {
    pub chunk: usize,
    pub at: usize,
    pub end: usize,
}

// An entry of the log: `place` is its first word, `words` those that its value takes there, `behind` the place behind
// it.
#[derive(Clone, Copy)]
pub struct Entry {
    pub op: u64,
    pub placement: u64,
    pub version: u64,
    pub field: u64,
    pub key: u64,
    pub words: usize,
    pub place: usize,
    pub behind: Cursor,
}

// What comes next in the log is no entry, and no padding either.
#[derive(Clone, Copy, PartialEq, Eq, Debug)]
pub struct WrongEntry;

// A put with its value in the log: for a pass that goes by the common case first.
#[derive(Clone, Copy)]
pub struct ShortPut {
    pub version: u64,
    pub field: u64,
    pub key: u64,
    pub words: usize,
}

// A top entry: its version and its first word, both 0 where there is none.
#[derive(Clone, Copy)]
pub struct Best {
    pub version: u64,
    pub place: usize,
}

// How many words the value of an entry takes in the log.
pub fn words_for(placement: u64, field: u64) -> usize
    ensures { (result ≡ words_for placement field) × (8 * result ≤ field + 7) }
{
    if placement == 0 {
        field.div_ceil(8) as usize
    } else {
        0
    }
}

// Whether the value of an entry at word `at`, which takes so many words and ends within the list, is zero-filled.
fn fill_right<W: WordList>(list: W, at: usize, placement: u64, field: u64, words: usize) -> bool
    requires size { words ≡ words_for placement field }
    requires within { at + (2 + words) ≤ length (W.list list) }
    requires few { at + (2 + words) < 2 ^ 64 }
    ensures { result ≡ filled placement field (drop at (W.list list)) }
{
    let odd = field % 8;
    placement != 0 || odd == 0 || list.word(at + (1 + words)) < 1 << (8 * odd)
}

// What stands at word `at` of a list, of the words before word `end`.
pub fn next_entry<W: WordList>(list: W, at: usize, end: usize) -> LogStep
    ensures { result ≡ step_of (slice at end (W.list list)) }
{
    let stop = end.min(list.count());
    if stop <= at {
        return LogStep::End;
    }
    match first_of(list.word(at)) {
        FirstWord::Padding => LogStep::Padding,
        FirstWord::Wrong => LogStep::Wrong,
        FirstWord::Entry {
            op,
            placement,
            version,
            field,
        } => {
            let words = words_for(placement, field);
            if 2 + words <= stop - at && fill_right(list, at, placement, field, words) {
                LogStep::Entry {
                    op,
                    placement,
                    version,
                    field,
                    key: list.word(at + 1),
                    words,
                }
            } else {
                LogStep::Wrong
            }
        }
    }
}

// The put with its value in the log that the words at `at` tell of, of the words before word `end`. Whether its version
// and its fill are right is not asked.
pub fn told_put<W: WordList>(list: W, at: usize, end: usize) -> Option<ShortPut>
    requires { end ≤ length (W.list list) }
    ensures { ToldAt (W.list list) at end result }
{
    if end <= at {
        return None;
    }
    let word = list.word(at);
    let field = word / 16777216;
    if word % 16 != 1 || 256 < field {
        return None;
    }
    let words = (field as usize + 7) / 8;
    if end - at < 2 + words {
        return None;
    }
    Some(ShortPut {
        version: word / 16 % 1048576,
        field,
        key: list.word(at + 1),
        words,
    })
}

// The put with its value in the log that stands at word `at` of the committed words before `end`, if one does and is
// right.
pub fn short_put(img: &[u8], at: usize, end: usize) -> Option<ShortPut>
    ensures { ShortAt (words_of img.now) at end result }
{
    let told = told_put(img, at, end.min(img.len() / 8))?;
    if told.version != 0 && fill_right(img, at, 0, told.field, told.words) {
        Some(told)
    } else {
        None
    }
}

// The beginning of the log.
pub fn first_cursor() -> Cursor
    ensures { result ≡ start }
{
    Cursor {
        chunk: 0,
        at: 0,
        end: 0,
    }
}

// The beginning of chunk c; a chunk past the image has no words.
pub fn chunk_cursor(img: &[u8], c: usize, size: Size) -> Cursor
    ensures { Opened (power_of size) (words_of img.now) c result }
{
    let n = places::chunks_in(size, img.len());
    if n < c {
        return Cursor {
            chunk: c,
            at: 0,
            end: 0,
        };
    }
    let lines = lines_of(img, c, size);
    let at = places::first_word(size, c);
    Cursor {
        chunk: c,
        at,
        end: at + 8 * lines,
    }
}

// The next entry from a cursor, in the log of an image of `count` chunks, if one is left: past padding, and on to the
// next chunks.
pub fn next_in_log(
    img: &[u8],
    count: usize,
    cursor: Cursor,
    size: Size,
) -> Result<Option<Entry>, WrongEntry>
    ensures { Advanced (power_of size) count (words_of img.now) cursor result }
{
    let mut here = cursor;
    loop {
        match next_entry(img, here.at, here.end) {
            LogStep::End => {
                if count.saturating_sub(1) <= here.chunk {
                    return Ok(None);
                }
                here = chunk_cursor(img, here.chunk + 1, size);
            }
            LogStep::Wrong => {
                return Err(WrongEntry);
            }
            LogStep::Padding => {
                here.at += 1;
            }
            LogStep::Entry {
                op,
                placement,
                version,
                field,
                key,
                words,
            } => {
                return Ok(Some(Entry {
                    op,
                    placement,
                    version,
                    field,
                    key,
                    words,
                    place: here.at,
                    behind: Cursor {
                        at: here.at + (2 + words),
                        ..here
                    },
                }));
            }
        }
    }
}

// The better of the chosen entry so far and an entry behind it.
fn raised(best: Best, key: u64, k: u64, version: u64, place: usize) -> Best
    ensures { result ≡ raise key best k version place }
{
    if k == key && best.version < version {
        Best { version, place }
    } else {
        best
    }
}

// The chosen top entry of a key, by a scan of the log of an image of `count` chunks; none where an entry is wrong.
pub fn best_of(img: &[u8], count: usize, key: u64, size: Size) -> Best
    ensures { result ≡ best_in (power_of size) count (words_of img.now) key }
{
    let none = Best {
        version: 0,
        place: 0,
    };
    let mut best = none;
    let mut cursor = first_cursor();
    loop {
        match next_in_log(img, count, cursor, size) {
            Ok(Some(e)) => {
                best = raised(best, key, e.key, e.version, e.place);
                cursor = e.behind;
            }
            Ok(None) => {
                return best;
            }
            Err(_) => {
                return none;
            }
        }
    }
}
