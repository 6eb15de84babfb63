// The entries of a cleaned chunk leave the key table, and the copies of those that are kept take their places: one
// pass, one probe an entry.
ghost use Rattle.std.specs.Prelude.{◌≡◌};
ghost use Rattle.spec.specs.Words.{words_of};
ghost use Rattle.apply.specs.Leaving.{less_of, turned_of};
ghost use Rattle.apply.specs.Passes.{IsCopied, OneLeft, PutsLeft, AllLeft, Rebuilt, Emptying};

use buffer::Buffer;
use logs::Cursor;
use packing::Info;
use spec::Size;

// What a pass has come to: how many keys the table has, and the word at which the next copy stands. A pass has none
// where a key has several top entries, or the log is wrong: the table is then to be built anew.
#[derive(Clone, Copy)]
pub struct Removed {
    pub keys: usize,
    pub to: usize,
}

// The same behind a run of puts, and the word that it has come to.
#[derive(Clone, Copy)]
pub struct Run {
    pub keys: usize,
    pub to: usize,
    pub at: usize,
}

// WORDS OF THE TABLE
// A word that speaks of a copy at this place from now on: the copy is one entry more, and its original one less.
fn with_copy(size: Size, word: u64, place: usize) -> u64
    ensures { result ≡ turned_of size word place }
{
    let info = packing::unpack(size, word);
    packing::pack(
        size,
        Info {
            place: place as u64,
            ..info
        },
    )
}

// A word that counts one entry less.
fn with_less(size: Size, word: u64) -> u64
    ensures { result ≡ less_of size word }
{
    let info = packing::unpack(size, word);
    packing::pack(
        size,
        Info {
            entries: info.entries.saturating_sub(1),
            ..info
        },
    )
}

// ONE ENTRY
// Whether the chosen entry of a key has a copy: a put has; a delete, if the next copy is of its key.
fn is_copied(image: &[u8], to: usize, until: usize, op: u64, key: u64, size: Size) -> bool
    ensures { IsCopied (words_of image.now) to until op key result }
{
    if op == 1 {
        return true;
    }
    let cursor = Cursor {
        chunk: 0,
        at: to,
        end: until,
    };
    match logs::next_in_log(image, 0, cursor, size) {
        Ok(Some(e)) => e.key == key,
        Ok(None) => false,
        Err(_) => false,
    }
}

// The entry of a key at this place, of so many words, leaves a table of so many keys. Where the word speaks of this
// very entry, it is the chosen one: the word speaks of its copy from now on, or it has none, and no entry of the key is
// left elsewhere: the key goes.
fn remove_entry(
    table: &mut [u64],
    keys: usize,
    key: u64,
    place: usize,
    to: usize,
    words: usize,
    copied: bool,
    size: Size,
) -> Option<Removed>
    ensures { OneLeft size table.old table.new keys key place to words copied result }
{
    let slot = index::slot_of(table, key);
    let word = index::word_at(table, slot);
    let info = packing::unpack(size, word);
    if word == 0 {
        return Some(Removed { keys, to });
    }
    if info.several != 0 {
        return None;
    }
    if info.place != place as u64 {
        index::set_slot(table, slot, key, with_less(size, word));
        return Some(Removed { keys, to });
    }
    if copied {
        index::set_slot(table, slot, key, with_copy(size, word, to));
        return Some(Removed {
            keys,
            to: to.wrapping_add(words),
        });
    }
    let _ = index::remove(table, key);
    Some(Removed {
        keys: keys.saturating_sub(1),
        to,
    })
}

// THE PASS, over the words from `at` to `end`
// The puts with values in the log that stand one behind the other from word `from` on, before word `end`.
fn remove_puts(
    image: &[u8],
    table: &mut [u64],
    keys: usize,
    from: usize,
    end: usize,
    to: usize,
    size: Size,
) -> Option<Run>
    ensures { PutsLeft size (words_of image.now) table.old table.new keys from end to result }
{
    let mut count = keys;
    let mut copy = to;
    let mut place = from;
    while let Some(put) = logs::short_put(image, place, end) {
        let went = remove_entry(
            table,
            count,
            put.key,
            place,
            copy,
            2 + put.words,
            true,
            size,
        )?;
        count = went.keys;
        copy = went.to;
        place += 2 + put.words;
    }
    Some(Run {
        keys: count,
        to: copy,
        at: place,
    })
}

// All of them; the copies stand from `from` to `until`.
fn remove_entries(
    image: &[u8],
    table: &mut [u64],
    keys: usize,
    at: usize,
    end: usize,
    from: usize,
    until: usize,
    size: Size,
) -> Option<Removed>
    ensures { AllLeft size (words_of image.now) table.old table.new keys at end from until result }
{
    let mut count = keys;
    let mut copy = from;
    let mut cursor = Cursor { chunk: 0, at, end };
    loop {
        let run = remove_puts(image, table, count, cursor.at, cursor.end, copy, size)?;
        let here = Cursor {
            at: run.at,
            ..cursor
        };
        match logs::next_in_log(image, 0, here, size) {
            Err(_) => return None,
            Ok(None) => {
                return Some(Removed {
                    keys: run.keys,
                    to: run.to,
                });
            }
            Ok(Some(e)) => {
                let words = 2 + e.words;
                let copied = is_copied(image, run.to, until, e.op, e.key, size);
                let went = remove_entry(
                    table, run.keys, e.key, e.place, run.to, words, copied, size,
                )?;
                count = went.keys;
                copy = went.to;
                cursor = e.behind;
            }
        }
    }
}

// TWINS
// Table, bits and sums are built anew, as an opening does: how many keys the table has then.
fn rebuild(
    image: &[u8],
    count: usize,
    buffer: &mut Buffer,
    table: &mut [u64],
    keys: usize,
    size: Size,
) -> usize
    ensures { Rebuilt size count (words_of image.now) buffer.old buffer.new table.old table.new result }
{
    opening::check_log(image, count, table, buffer, size).unwrap_or(keys)
}

// At the last fence of the cleaning of a chunk, whose entries still stand from `at` to `end`, and their copies from
// `from` to `until`, `words` words of them, in an image of `count` chunks: how many keys the table has then.
pub fn remove_chunk(
    image: &[u8],
    count: usize,
    buffer: &mut Buffer,
    table: &mut [u64],
    keys: usize,
    at: usize,
    end: usize,
    from: usize,
    until: usize,
    words: usize,
    size: Size,
) -> usize
    ensures { Emptying size count (words_of image.now) buffer.old buffer.new table.old table.new keys at end from until words result }
{
    match remove_entries(image, table, keys, at, end, from, until, size) {
        Some(went) => {
            let chunk = places::chunk_of_word(size, at);
            volatile::chunk_sums::turn_over(buffer, chunk, from, words, size);
            went.keys
        }
        None => rebuild(image, count, buffer, table, keys, size),
    }
}
