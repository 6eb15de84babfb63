// The entries of a key that stand in the log of an image, open or not, one by one. Nothing is changed, and nothing is
// asked of the arguments.
ghost use Rattle.std.specs.Prelude.{◌≡◌, length};
ghost use Rattle.spec.specs.Words.{words_of};
ghost use Rattle.places.specs.Sizes.{power_of};
ghost use Rattle.inspect.specs.Numbers.{power_read, chunks_read};
ghost use Rattle.inspect.specs.History.{no_entry, note_of, first_in, mark_of, entry_from};

use logs::{Best, Entry};
use spec::Size;

// THE ENTRIES OF A KEY
// An entry in numbers: `found` is 1, or 0 with all others 0 where there is none; `place` is its first word, `block` 1
// where its value is in a block, `field` the value's length or the block's unit, `chosen` 1 where the register goes by
// it.
// (a) The C interface has these numbers.
#[repr(C)]
#[derive(Clone, Copy)]
pub struct KeyEntry {
    pub found: u64,
    pub place: u64,
    pub op: u64,
    pub version: u64,
    pub block: u64,
    pub field: u64,
    pub chosen: u64,
}

// None of them.
fn none() -> KeyEntry
    ensures { result ≡ no_entry }
{
    KeyEntry {
        found: 0,
        place: 0,
        op: 0,
        version: 0,
        block: 0,
        field: 0,
        chosen: 0,
    }
}

// The entry found so far, or the next one if it is the first of the key at or behind a word.
fn note(so: KeyEntry, key: u64, from: usize, e: Entry) -> KeyEntry
    ensures { result ≡ note_of key from so e.key e.place e.op e.version e.placement e.field }
{
    if so.found == 0 && e.key == key && from <= e.place {
        KeyEntry {
            found: 1,
            place: e.place as u64,
            op: e.op,
            version: e.version,
            block: e.placement,
            field: e.field,
            chosen: 0,
        }
    } else {
        so
    }
}

// The first entry of a key at or behind a word, by a pass over the log of an image of `count` chunks; none where an
// entry of the log is wrong.
fn first_in(image: &[u8], count: usize, key: u64, from: usize, size: Size) -> KeyEntry
    ensures { result ≡ first_in (power_of size) count (words_of image.now) key from }
{
    let mut so = none();
    let mut cursor = logs::first_cursor();
    loop {
        match logs::next_in_log(image, count, cursor, size) {
            Ok(Some(e)) => {
                so = note(so, key, from, e);
                cursor = e.behind;
            }
            Ok(None) => return so,
            Err(_) => return none(),
        }
    }
}

// The entry, with whether it is the chosen one.
fn mark(e: KeyEntry, best: Best) -> KeyEntry
    ensures { result ≡ mark_of e best }
{
    if e.found != 0 && best.place as u64 == e.place {
        KeyEntry { chosen: 1, ..e }
    } else {
        e
    }
}

// The first entry of a key that stands at or behind a word of the image; none where an entry of the log is wrong.
pub fn entry_from(image: &[u8], key: u64, from: usize) -> KeyEntry
    ensures { result ≡ entry_from (power_read (words_of image.now)) (chunks_read (length image.now) (words_of image.now)) (words_of image.now) key from }
{
    let size = crate::header::size_said(image);
    let count = places::chunks_in(size, image.len());
    let e = first_in(image, count, key, from, size);
    let best = logs::best_of(image, count, key, size);
    mark(e, best)
}
