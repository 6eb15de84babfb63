// What a cleaning keeps is gathered at its begin. The chunk's words are read once, by one loop, into memory of the
// call's own; all else goes by that copy: a pass over its entries, and where a delete asks for it one before that.
#![tactic(auto)]

ghost use Rattle.std.specs.Prelude.{◌≡◌, ◌+◌, ◌*◌, ◌^◌, ◌<◌, ◌≤◌, length};
ghost use Rattle.spec.specs.Words.{words_of};
ghost use Rattle.spec.specs.Places.{chunk_bytes, chunk_words};
ghost use Rattle.places.specs.Sizes.{power_of};
ghost use Rattle.buffer.specs.Areas.{second_start, second_room};
ghost use Rattle.gathering.specs.Gathering.{Copied};
ghost use Rattle.gathering.specs.Reading.{ChunkRead, OneTaken, PutsTaken, RestTaken, Walked, Collected};

pub mod measure;

use crate::measure::{Run, Tally, count_once, has_room, is_kept};
use buffer::{Buffer, SECOND};
use logs::Cursor;
use spec::Size;

// THE READING: the words from `at` to `end`, each once, from the first to the last. How many there are.
fn read_chunk(image: &[u8], copy: &mut [u8], at: usize, end: usize, size: Size) -> usize
    requires { length copy.old ≡ chunk_bytes (power_of size) }
    ensures { ChunkRead size image.now copy.new at end result }
{
    let stop = end.min(image.len() / 8);
    if stop <= at {
        return 0;
    }
    let words = (stop - at).min(places::words(size));
    let from = 8 * at;
    let bytes = 8 * words;
    for i in 0..bytes {
        copy[i] = image[from + i];
    }
    words
}

// So many words of the copy, from word `from` on, go to those that are kept.
fn copy_words(copy: &[u8], kept: &mut [u64], from: usize, to: usize, n: usize)
    requires { (to + n ≤ length kept.old) × (from < 2 ^ 62) }
    ensures { Copied (words_of copy.now) kept.old kept.new from to n }
{
    for i in 0..n {
        kept[to + i] = words::load(copy, from + i);
    }
}

// One entry: its words are gathered if it is kept.
fn take(
    copy: &[u8],
    kept: &mut [u64],
    so: Tally,
    is: bool,
    place: usize,
    value: usize,
    size: Size,
) -> Tally
    requires { length kept.old ≡ chunk_words (power_of size) }
    ensures { OneTaken size (words_of copy.now) kept.old kept.new so is place value result }
{
    if is && has_room(so, place, value, size) {
        copy_words(copy, kept, place, so.words, 2 + value);
        Tally {
            words: so.words + (2 + value),
            entries: so.entries + 1,
        }
    } else {
        so
    }
}

// Of a copy whose first word is word `at` of the image: the puts with values in the log that stand one behind the other
// from word `from` on, before word `until`.
fn take_puts(
    copy: &[u8],
    table: &[u64],
    kept: &mut [u64],
    at: usize,
    from: usize,
    until: usize,
    so: Tally,
    size: Size,
) -> Run
    requires { (at < 2 ^ 62) × (length kept.old ≡ chunk_words (power_of size)) }
    ensures { PutsTaken size (words_of copy.now) table.now kept.old kept.new at until from so result.at result.tally }
{
    let mut tally = so;
    let mut place = from;
    while let Some(put) = logs::short_put(copy, place, until) {
        let is = is_kept(table, table, 1, put.key, at + place, size);
        tally = take(copy, kept, tally, is, place, put.words, size);
        place += 2 + put.words;
    }
    Run { tally, at: place }
}

// All entries of the copy's first n words from a cursor on, with deletes among them: the keys are counted in words
// of the caller's.
fn take_counted(
    copy: &[u8],
    table: &[u64],
    kept: &mut [u64],
    counts: &mut [u64],
    at: usize,
    n: usize,
    start: Cursor,
    so: Tally,
    size: Size,
) -> Tally
    requires { (at < 2 ^ 62) × (length kept.old ≡ chunk_words (power_of size)) × (length counts.old ≡ 2 * chunk_words (power_of size)) }
    ensures { RestTaken size (words_of copy.now) table.now kept.old kept.new at n start so result }
{
    let mut counted = false;
    let mut tally = so;
    let mut cursor = start;
    while let Ok(Some(e)) = logs::next_in_log(copy, 0, cursor, size) {
        counted = count_once(copy, table, counts, 0, n, e.op, e.key, counted, size);
        let is = is_kept(table, counts, e.op, e.key, at + e.place, size);
        tally = take(copy, kept, tally, is, e.place, e.words, size);
        cursor = e.behind;
    }
    tally
}

// The same with words for that, two for each word of the chunk.
fn rest_in<const N: usize>(
    copy: &[u8],
    table: &[u64],
    kept: &mut [u64],
    at: usize,
    n: usize,
    start: Cursor,
    so: Tally,
    size: Size,
) -> Tally
    requires { (at < 2 ^ 62) × (length kept.old ≡ chunk_words (power_of size)) × (N ≡ 2 * chunk_words (power_of size)) }
    ensures { RestTaken size (words_of copy.now) table.now kept.old kept.new at n start so result }
{
    let mut counts = [0; N];
    take_counted(copy, table, kept, &mut counts, at, n, start, so, size)
}

fn take_rest(
    copy: &[u8],
    table: &[u64],
    kept: &mut [u64],
    at: usize,
    n: usize,
    start: Cursor,
    so: Tally,
    size: Size,
) -> Tally
    requires { (at < 2 ^ 62) × (length kept.old ≡ chunk_words (power_of size)) }
    ensures { RestTaken size (words_of copy.now) table.now kept.old kept.new at n start so result }
{
    match size {
        Size::Small => rest_in::<1024>(copy, table, kept, at, n, start, so, size),
        Size::Large => rest_in::<16384>(copy, table, kept, at, n, start, so, size),
    }
}

// All entries of the copy's first n words.
fn take_all(copy: &[u8], table: &[u64], kept: &mut [u64], at: usize, n: usize, size: Size) -> Tally
    requires { (at < 2 ^ 62) × (length kept.old ≡ chunk_words (power_of size)) }
    ensures { Walked size (words_of copy.now) table.now kept.new at n result }
{
    let mut tally = Tally {
        words: 0,
        entries: 0,
    };
    let mut cursor = Cursor {
        chunk: 0,
        at: 0,
        end: n,
    };
    loop {
        let run = take_puts(copy, table, kept, at, cursor.at, cursor.end, tally, size);
        let here = Cursor {
            at: run.at,
            ..cursor
        };
        let Ok(Some(e)) = logs::next_in_log(copy, 0, here, size) else {
            return run.tally;
        };
        if e.op != 1 {
            return take_rest(copy, table, kept, at, n, here, run.tally, size);
        }
        let is = is_kept(table, table, e.op, e.key, at + e.place, size);
        tally = take(copy, kept, run.tally, is, e.place, e.words, size);
        cursor = e.behind;
    }
}

// What a cleaning keeps of the words from `at` to `end`: its words, and how many words and entries there are. The copy
// has as many bytes as a chunk.
fn gather_in<const BYTES: usize>(
    image: &[u8],
    table: &[u64],
    kept: &mut [u64],
    at: usize,
    end: usize,
    size: Size,
) -> Tally
    requires { (at < 2 ^ 62) × (length kept.old ≡ chunk_words (power_of size)) × (BYTES ≡ chunk_bytes (power_of size)) }
    ensures { Collected size (words_of image.now) table.now kept.new at end result }
{
    let mut copy = [0; BYTES];
    let n = read_chunk(image, &mut copy, at, end, size);
    take_all(&copy, table, kept, at, n, size)
}

pub fn gather(
    image: &[u8],
    table: &[u64],
    kept: &mut [u64],
    at: usize,
    end: usize,
    size: Size,
) -> Tally
    requires { (at < 2 ^ 62) × (length kept.old ≡ chunk_words (power_of size)) }
    ensures { Collected size (words_of image.now) table.now kept.new at end result }
{
    match size {
        Size::Small => gather_in::<4096>(image, table, kept, at, end, size),
        Size::Large => gather_in::<65536>(image, table, kept, at, end, size),
    }
}

// The words that are kept go to the second area of the record's buffer.
pub fn store_kept(buffer: &mut Buffer, kept: &[u64], n: usize)
    requires { (n ≤ second_room) × (n ≤ length kept.now) }
    ensures { Copied kept.now buffer.old buffer.new 0 second_start n }
{
    buffer::buffer_length(buffer);
    // One by one: the library's copy would need `memmove` of a host in C.
    for i in 0..n {
        buffer[SECOND + i] = kept[i];
    }
}
