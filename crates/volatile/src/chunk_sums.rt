// For each chunk the words of its chosen entries, kept in the station record's buffer, and what an entry that joins, or
// a chunk that is cleaned, does to them.
ghost use Rattle.std.specs.Prelude.{◌≡◌, ◌+◌, ◌%◌, slice_index};
ghost use Rattle.spec.specs.Words.{words_of};
ghost use Rattle.buffer.specs.Areas.{sums_start, sums_count};
ghost use Rattle.volatile.specs.Change.{only, nothing, Changed, Cleared, extent_weight, Weighed, WeighedAt, Renewed, TurnedOver};

use buffer::{Buffer, SECOND_WORDS, SUMS, SUMS_COUNT};
use spec::{FirstWord, Size};

// The sum of a chunk.
pub fn sum_at(buffer: &Buffer, chunk: usize) -> u64
    ensures { result ≡ slice_index buffer.now (sums_start + chunk % sums_count) }
{
    buffer[SUMS + chunk % SUMS_COUNT]
}

// Every sum is 0.
pub fn clear(buffer: &mut Buffer)
    ensures { Cleared buffer.old buffer.new }
{
    buffer[SUMS..].fill(0);
}

// The sum of the chunk in which word `place` lies, with so much more.
pub fn add(buffer: &mut Buffer, place: usize, weight: u64, size: Size)
    ensures { Changed buffer.old buffer.new (only size place weight) nothing }
{
    let at = SUMS + places::chunk_of_word(size, place) % SUMS_COUNT;
    buffer[at] = buffer[at].wrapping_add(weight);
}

// And with so much less.
pub fn take_off(buffer: &mut Buffer, place: usize, weight: u64, size: Size)
    ensures { Changed buffer.old buffer.new nothing (only size place weight) }
{
    let at = SUMS + places::chunk_of_word(size, place) % SUMS_COUNT;
    buffer[at] = buffer[at].wrapping_sub(weight);
}

// ONE ENTRY
// What an entry with so many words of value adds to the sum of its chunk, if it is chosen.
pub fn weigh(op: u64, words: usize) -> u64
    ensures { Weighed op words result }
{
    if 512 < words {
        return 0;
    }
    if op == 1 {
        return (2 + words) as u64;
    }
    (2 + words) as u64 * 0x1_0000_0000
}

// What a put adds of which the table says an extent: one less than the bytes of its value, which is in the log.
pub fn weigh_extent(extent: u64) -> u64
    ensures { result ≡ extent_weight extent }
{
    2 + (extent % 0x100 + 8) / 8
}

// What the entry that stands at word `place` adds, of which the table says this extent.
fn weigh_at(image: &[u8], extent: u64, place: usize, size: Size) -> u64
    ensures { WeighedAt size (words_of image.now) extent place result }
{
    if 0 < extent {
        return weigh_extent(extent);
    }
    let first = codec::first_of(words::load(image, place));
    match first {
        FirstWord::Padding | FirstWord::Wrong => 0,
        FirstWord::Entry {
            op,
            placement,
            version: _,
            field,
        } => weigh(op, logs::words_for(placement, field)),
    }
}

// An entry of this weight joins, of whose key the table holds `old`; `own` is what it would hold with the entry alone.
// Where the entry is chosen from now on, its words join the sum of its chunk, and those of the entry that was chosen
// leave theirs.
pub fn renew(image: &[u8], buffer: &mut Buffer, old: u64, own: u64, weight: u64, size: Size)
    ensures { Renewed size (words_of image.now) buffer.old buffer.new old own weight }
{
    let new = packing::unpack(size, own);
    if old == 0 {
        add(buffer, new.place as usize, weight, size);
        return;
    }
    let info = packing::unpack(size, old);
    if info.version < new.version {
        let gone = weigh_at(image, info.extent, info.place as usize, size);
        take_off(buffer, info.place as usize, gone, size);
        add(buffer, new.place as usize, weight, size);
    }
}

// More than the second area has words: a larger number of kept words is read by its remainder.
const SPAN: u64 = 2 * SECOND_WORDS as u64;

// A CLEANED CHUNK, of whose entries a cleaning has kept so many words: its chosen puts, and some of its chosen deletes.
// They stand at word `place` from now on; its own sum is 0.
pub fn turn_over(buffer: &mut Buffer, chunk: usize, place: usize, words: usize, size: Size)
    ensures { TurnedOver size buffer.old buffer.new chunk place words }
{
    let sum = sum_at(buffer, chunk);
    let puts = sum % 0x1_0000_0000;
    let all = words as u64 % SPAN;
    let at = SUMS + chunk % SUMS_COUNT;
    if puts <= all {
        add(buffer, place, puts + 0x1_0000_0000 * (all - puts), size);
    }
    buffer[at] = 0;
}
