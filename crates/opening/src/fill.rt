// The first pass of an opening: every entry of the log is tested and goes into the key table and the sums, common ones
// by a short loop.
ghost use Rattle.std.specs.Prelude.{◌≡◌, false, eqb, ltb, ◌-◌};
ghost use Rattle.spec.specs.Basics.{pick, both};
ghost use Rattle.spec.specs.Words.{words_of};
ghost use Rattle.spec.specs.Places.{word_chunk};
ghost use Rattle.places.specs.Sizes.{power_of};
ghost use Rattle.opening.specs.Pass.{AgainIs, EnteredIs, Hastened, Skipped, FilledIs};

use buffer::Buffer;
use consistency::partition::onward;
use logs::WrongEntry;
use spec::{LogStep, Size};

// ONE ENTRY
// Whether each key still has a single top entry: a word of the table without the bit of several.
fn is_single(single: bool, info: u64) -> bool
    ensures { result ≡ both single (ltb info 0x8000_0000_0000_0000) }
{
    single && info < 0x8000_0000_0000_0000
}

// Whether no value lies in a block so far.
fn is_direct(direct: bool, placement: u64) -> bool
    ensures { result ≡ pick (eqb placement 1) false direct }
{
    placement != 1 && direct
}

// One more entry of a key that the table has: `old` is its word, in slot `slot`, `own` what it would be with this entry
// alone, `weight` what the entry adds to the sum of its chunk. The answer is whether each key still has a single top
// entry.
fn enter_known(
    image: &[u8],
    buffer: &mut Buffer,
    table: &mut [u64],
    single: bool,
    slot: usize,
    old: u64,
    key: u64,
    own: u64,
    weight: u64,
    size: Size,
) -> bool
    ensures { AgainIs size (words_of image.now) buffer.old buffer.new table.old table.new single slot old key own weight result }
{
    volatile::chunk_sums::renew(image, buffer, old, own, weight, size);
    let info = volatile::with_entry(size, old, own);
    index::set_slot(table, slot, key, info);
    is_single(single, info)
}

// What the table holds: so many keys, whether those of all entries so far fit, and whether each then has a single top
// entry.
// (d) The keys are those of the table also where not all fit, so that no Option would say both.
#[derive(Clone, Copy)]
struct Held {
    keys: usize,
    fits: bool,
    single: bool,
}

// One more entry in the table and in the sums; `own` is what the table would hold of the key with this entry alone,
// `weight` what the entry adds to the sum of its chunk. Once the keys do not fit both stay.
fn enter(
    image: &[u8],
    buffer: &mut Buffer,
    table: &mut [u64],
    held: Held,
    key: u64,
    own: u64,
    weight: u64,
    size: Size,
) -> Held
    ensures { EnteredIs size (words_of image.now) buffer.old buffer.new table.old table.new held.keys held.fits held.single key own weight result.keys result.fits result.single }
{
    buffer::buffer_length(buffer);
    if !held.fits {
        return Held {
            single: false,
            ..held
        };
    }
    let slot = index::slot_of(table, key);
    let old = index::word_at(table, slot);
    if old != 0 {
        let single = enter_known(
            image,
            buffer,
            table,
            held.single,
            slot,
            old,
            key,
            own,
            weight,
            size,
        );
        return Held { single, ..held };
    }
    volatile::chunk_sums::renew(image, buffer, old, own, weight, size);
    if index::capacity(table.len()) <= held.keys {
        return Held {
            fits: false,
            single: false,
            ..held
        };
    }
    index::set_slot(table, slot, key, own);
    Held {
        keys: held.keys + 1,
        single: is_single(held.single, own),
        ..held
    }
}

// RUNS
// Whether the words from word `at` on and before word `end` lie in several chunks.
fn is_wide(at: usize, end: usize, size: Size) -> bool
    ensures { result ≡ ltb (word_chunk (power_of size) at) (word_chunk (power_of size) (end - 1)) }
{
    places::chunk_of_word(size, at) < places::chunk_of_word(size, end.saturating_sub(1))
}

// A run of the pass: how many keys the table has then, whether each has a single top entry, and how far it came. What
// it passed from word `from` on is new and not yet in the sum of the chunk.
#[derive(Clone, Copy)]
struct Run {
    keys: usize,
    single: bool,
    from: usize,
    at: usize,
}

// The pass over puts with their values in the log, from word `at` on, as long as the table has room for new keys: all
// else is left to `fill`. Puts with new keys are chosen, and in one chunk: what they add to its sum is the words
// passed.
fn enter_puts(
    image: &[u8],
    at: usize,
    end: usize,
    table: &mut [u64],
    buffer: &mut Buffer,
    held: Held,
    size: Size,
) -> Run
    ensures { Hastened size (words_of image.now) end held.fits table.old held.keys held.single buffer.old at table.new result.keys result.single buffer.new result.from result.at }
{
    buffer::buffer_length(buffer);
    let mut run = Run {
        keys: held.keys,
        single: held.single,
        from: at,
        at,
    };
    if !held.fits || is_wide(at, end, size) {
        return run;
    }
    let room = index::capacity(table.len());
    while let Some(put) = logs::short_put(image, run.at, end) {
        // Made before the slot is looked for, so that whether there is one is tested once: ten instructions an entry.
        let extent = volatile::extent_of(size, 0, put.field);
        let own = volatile::single_entry(size, extent, run.at, put.version);
        let behind = run.at + (2 + put.words);
        let slot = index::slot_of(table, put.key);
        let old = index::word_at(table, slot);
        if old != 0 {
            let passed = run.at - run.from;
            volatile::chunk_sums::add(buffer, run.from, passed as u64, size);
            let weight = volatile::chunk_sums::weigh(1, put.words);
            run.single = enter_known(
                image, buffer, table, run.single, slot, old, put.key, own, weight, size,
            );
            run.from = behind;
        } else {
            if room <= run.keys {
                break;
            }
            index::set_slot(table, slot, put.key, own);
            run.keys += 1;
        }
        run.at = behind;
    }
    run
}

// The first word from word `at` on that is no padding, of the committed words before `end`; `at` past them.
fn skip_padding(image: &[u8], at: usize, end: usize) -> usize
    ensures { Skipped (words_of image.now) end at result }
{
    let stop = end.min(image.len() / 8);
    for place in at..stop {
        if words::load(image, place) != 0 {
            return place;
        }
    }
    stop.max(at)
}

// THE PASS
// What the pass finds of a log without a wrong entry: how many keys the table has if all fit, whether each has a single
// top entry, and whether every value is direct, none of them in a block.
#[derive(Clone, Copy)]
pub struct Filled {
    pub keys: Option<usize>,
    pub single: bool,
    pub direct: bool,
}

// The pass over the log of an image of `count` chunks, from an empty table and sums of 0. It walks as
// `logs::next_in_log` does, the common entries by a run first.
pub fn fill(
    image: &[u8],
    count: usize,
    table: &mut [u64],
    buffer: &mut Buffer,
    size: Size,
) -> Result<Filled, WrongEntry>
    ensures { FilledIs size count (words_of image.now) table.old table.new buffer.old buffer.new result }
{
    index::clear(table);
    volatile::chunk_sums::clear(buffer);
    let mut held = Held {
        keys: 0,
        fits: true,
        single: true,
    };
    let mut direct = true;
    let mut cursor = logs::first_cursor();
    loop {
        let at = skip_padding(image, cursor.at, cursor.end);
        let r = enter_puts(image, at, cursor.end, table, buffer, held, size);
        let passed = r.at - r.from;
        volatile::chunk_sums::add(buffer, r.from, passed as u64, size);
        held = Held {
            keys: r.keys,
            single: r.single,
            ..held
        };
        match logs::next_entry(image, r.at, cursor.end) {
            LogStep::End => {
                if count.saturating_sub(1) <= cursor.chunk {
                    return Ok(Filled {
                        keys: held.fits.then_some(held.keys),
                        single: held.single,
                        direct,
                    });
                }
                cursor = onward(image, count, cursor.chunk + 1, size);
            }
            LogStep::Wrong => return Err(WrongEntry),
            LogStep::Padding => cursor.at = r.at + 1,
            LogStep::Entry {
                op,
                placement,
                version,
                field,
                key,
                words,
            } => {
                direct = is_direct(direct, placement);
                let extent = volatile::extent_of(size, placement, field);
                let own = volatile::single_entry(size, extent, r.at, version);
                let weight = volatile::chunk_sums::weigh(op, words);
                held = enter(image, buffer, table, held, key, own, weight, size);
                cursor.at = r.at + (2 + words);
            }
        }
    }
}
