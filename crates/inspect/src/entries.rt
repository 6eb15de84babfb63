// The entries of a key that stand in the log of an image, open or not, by one call: in lent words, from a word of the
// image on, in order. Nothing else is changed, and nothing is asked of the arguments.
ghost use Rattle.std.specs.Prelude.{◌≡◌, length, ◌==◌};
ghost use Rattle.spec.specs.Basics.{pick};
ghost use Rattle.spec.specs.Words.{words_of};
ghost use Rattle.spec.specs.Log.{image_entries};
ghost use Rattle.places.specs.Sizes.{power_of};
ghost use Rattle.theory_log.specs.Fold.{fold_p};
ghost use Rattle.inspect.specs.Numbers.{power_read, chunks_read};
ghost use Rattle.inspect.specs.KeyEntries.{entries_from, EntriesListed};
ghost use Rattle.inspect.specs.Filling.{filling, in_numbers, put, note_of, pass, Leaves};

use logs::Entry;
use spec::Size;

// The words of an entry: place, op, version, block, field and chosen, as in `crate::history::KeyEntry`.
pub const ENTRY_WORDS: usize = 6;

// 1 for the entry that the register goes by.
fn mark(best: usize, place: usize) -> u64
    ensures { result ≡ pick (best == place) 1 0 }
{
    u64::from(best == place)
}

// An entry's words, behind those of `index` entries, if there is room for all of them.
fn write_entry(out: &mut [u64], index: usize, e: Entry, chosen: u64)
    ensures { out.new ≡ put out.old index (in_numbers e.place e.op e.version e.placement e.field chosen) }
{
    if out.len() / ENTRY_WORDS <= index {
        return;
    }
    let at = ENTRY_WORDS * index;
    let words = [
        e.place as u64,
        e.op,
        e.version,
        e.placement,
        e.field,
        chosen,
    ];
    out[at..at + ENTRY_WORDS].copy_from_slice(&words);
}

// The next entry of the log is written if it is of the key and at or behind a word; how many there are with it.
fn take_entry(out: &mut [u64], count: usize, key: u64, from: usize, best: usize, e: Entry) -> usize
    ensures { filling out.new result ≡ note_of key from best (filling out.old count) e.key e.place e.op e.version e.placement e.field }
{
    if e.key != key || e.place < from {
        return count;
    }
    write_entry(out, count, e, mark(best, e.place));
    count.wrapping_add(1)
}

// All of them, by a pass over the log of an image of `chunks` chunks, where no entry is wrong; `best` is the place of
// the entry that the register goes by.
fn fill(
    image: &[u8],
    chunks: usize,
    key: u64,
    from: usize,
    best: usize,
    out: &mut [u64],
    size: Size,
) -> usize
    ensures { Leaves (fold_p (pass key from best) (filling out.old 0) (image_entries (power_of size) chunks (words_of image.now))) out.new result }
{
    let mut count = 0;
    let mut cursor = logs::first_cursor();
    while let Ok(Some(e)) = logs::next_in_log(image, chunks, cursor, size) {
        count = take_entry(out, count, key, from, best, e);
        cursor = e.behind;
    }
    count
}

// The entries of a key that stand at or behind a word of the image, as far as `out` has room for whole ones; how many
// there are. None where an entry of the log is wrong. The first pass over the log finds the entry that the register
// goes by; in a wrong log it finds none, so that nothing is written then.
pub fn entries_from(image: &[u8], key: u64, from: usize, out: &mut [u64]) -> usize
    ensures { EntriesListed (entries_from (power_read (words_of image.now)) (chunks_read (length image.now) (words_of image.now)) (words_of image.now) key from) out.old out.new result }
{
    let size = crate::header::size_said(image);
    let chunks = places::chunks_in(size, image.len());
    let best = logs::best_of(image, chunks, key, size);
    if best.place == 0 {
        return 0;
    }
    fill(image, chunks, key, from, best.place, out, size)
}
