// A commit's items join the key table and the chunks' sums, their blocks the bits; and the entries that they supersede
// leave the sums, their blocks the bits.
ghost use Rattle.std.specs.Prelude.{◌^◌, ◌<◌, ◌≤◌, slice_index};
ghost use Rattle.spec.specs.declared.Size.TheVariants.{Small};
ghost use Rattle.spec.specs.Words.{words_of};
ghost use Rattle.spec.specs.Log.{first_of_word};
ghost use Rattle.buffer.specs.Areas.{batch_room};
ghost use Rattle.volatile.specs.Blocks.{block_at, named_by, Freed, Claimed};
ghost use Rattle.volatile.specs.Known.{alone};
ghost use Rattle.apply.specs.Joining.{Superseded, OneJoined, PutJoined, PutsJoined, Joining};

use buffer::{BATCH_WORDS, Buffer};
use codec::Unit;
use packing::Info;
use spec::{FirstWord, Size};

// THE BLOCKS OF SUPERSEDED ENTRIES
// The block of an entry with these parts, if it is a put in one, leaves the bits.
fn release(buffer: &mut Buffer, op: u64, placement: u64, field: u64, size: Size)
    ensures { Freed size buffer.old buffer.new (block_at op placement field) }
{
    if op == 1 && placement == 1 {
        buffer::unset_bit(buffer, Unit(field), size);
    }
}

// The block of the entry that stands at word `place`.
fn release_at(buffer: &mut Buffer, image: &[u8], place: usize, size: Size)
    ensures { Freed size buffer.old buffer.new (named_by (first_of_word (slice_index (words_of image.now) place))) }
{
    match codec::first_of(words::load(image, place)) {
        FirstWord::Padding => {}
        FirstWord::Wrong => {}
        FirstWord::Entry {
            op,
            placement,
            field,
            ..
        } => {
            release(buffer, op, placement, field, size);
        }
    }
}

// The block of a key's top entries, of which the table says so much: the chosen one's, since all of them are equal in
// every word.
fn release_tops(buffer: &mut Buffer, image: &[u8], info: Info, size: Size)
    ensures { Superseded size (words_of image.now) buffer.old buffer.new info }
{
    if 0 < info.extent {
        return;
    }
    release_at(buffer, image, info.place as usize, size);
}

// ONE ITEM
// The block of an entry with these parts, if it is a put in one, joins the bits.
fn claim(buffer: &mut Buffer, op: u64, placement: u64, field: u64, size: Size)
    ensures { Claimed size buffer.old buffer.new (block_at op placement field) }
{
    if placement == 1 && op == 1 {
        buffer::set_bit(buffer, Unit(field), size);
    }
}

// An entry joins the table, which has so many keys: how many it has then. `own` is what it would hold of the key with
// this entry alone, `weight` what it adds to the sum of its chunk. The blocks that it supersedes leave the bits; its
// own is not yet there.
fn join_one(
    image: &[u8],
    buffer: &mut Buffer,
    table: &mut [u64],
    keys: usize,
    key: u64,
    own: u64,
    weight: u64,
    size: Size,
) -> usize
    ensures { OneJoined size (words_of image.now) buffer.old buffer.new table.old table.new keys key own weight result }
{
    let slot = index::slot_of(table, key);
    let old = index::word_at(table, slot);
    volatile::chunk_sums::renew(image, buffer, old, own, weight, size);
    if old == 0 {
        if keys < index::capacity(table.len()) {
            index::set_slot(table, slot, key, own);
            return keys + 1;
        }
        return keys;
    }
    index::set_slot(table, slot, key, volatile::with_entry(size, old, own));
    release_tops(buffer, image, packing::unpack(size, old), size);
    keys
}

// A put with its value in the log joins the table of an image with small chunks, which has so many keys, without the
// image: it has a new key, for which there is room, or the table says an extent of the key's chosen entry, which is
// lower. That one has its value in the log too, so no block leaves the bits. How many keys the table has then; else
// nothing is done.
fn join_put(
    buffer: &mut Buffer,
    table: &mut [u64],
    keys: usize,
    key: u64,
    extent: u64,
    place: usize,
    version: u64,
    weight: u64,
) -> Option<usize>
    ensures { PutJoined Small buffer.old buffer.new table.old table.new keys key (alone Small extent place version) weight result }
{
    let own = volatile::single_entry(Size::Small, extent, place, version);
    let new = packing::unpack(Size::Small, own);
    let slot = index::slot_of(table, key);
    let old = index::word_at(table, slot);
    let was = packing::unpack(Size::Small, old);
    if 0 < was.extent {
        if new.version <= was.version {
            return None;
        }
        let gone = volatile::chunk_sums::weigh_extent(was.extent);
        volatile::chunk_sums::take_off(buffer, was.place as usize, gone, Size::Small);
        volatile::chunk_sums::add(buffer, place, weight, Size::Small);
        let info = volatile::with_entry(Size::Small, old, own);
        index::set_slot(table, slot, key, info);
        return Some(keys);
    }
    if old != 0 || index::capacity(table.len()) <= keys {
        return None;
    }
    volatile::chunk_sums::add(buffer, place, weight, Size::Small);
    index::set_slot(table, slot, key, own);
    Some(keys + 1)
}

// THE BATCH
// How far a pass came, and how many keys the table has then.
#[derive(Clone, Copy)]
struct Reached {
    at: usize,
    keys: usize,
}

// A pass over the common items, from word `from` of the staged ones on, in an image with small chunks: those that
// `join_put` takes. All else is left to `join`. No size is asked in the loop.
fn join_puts(
    place: usize,
    from: usize,
    end: usize,
    known: usize,
    buffer: &mut Buffer,
    table: &mut [u64],
) -> Reached
    requires { (place < 2 ^ 32) × (end ≤ batch_room) }
    ensures { PutsJoined Small place end buffer.old table.old known from buffer.new table.new result.keys result.at }
{
    let mut at = from;
    let mut keys = known;
    while let Some(put) = batch::short_at(buffer, at, end) {
        let extent = volatile::extent_of(Size::Small, 0, put.field);
        let weight = (2 + put.words) as u64;
        let joined = join_put(
            buffer,
            table,
            keys,
            put.key,
            extent,
            place + at,
            put.version,
            weight,
        );
        match joined {
            Some(count) => {
                keys = count;
                at += 2 + put.words;
            }
            None => return Reached { at, keys },
        }
    }
    Reached { at, keys }
}

// The same by the size: with large chunks the table says no extent, so that all items are left to `join`.
fn join_common(
    place: usize,
    from: usize,
    end: usize,
    known: usize,
    buffer: &mut Buffer,
    table: &mut [u64],
    size: Size,
) -> Reached
    requires { (place < 2 ^ 32) × (end ≤ batch_room) }
    ensures { PutsJoined size place end buffer.old table.old known from buffer.new table.new result.keys result.at }
{
    match size {
        Size::Small => join_puts(place, from, end, known, buffer, table),
        Size::Large => Reached {
            at: from,
            keys: known,
        },
    }
}

// At a commit's last fence the staged items join a table of `known` keys: how many keys it has then. They are the
// buffer's first `words` words, and stand at word `place` of the image. The common items go first.
pub fn join(
    place: usize,
    words: usize,
    known: usize,
    buffer: &mut Buffer,
    image: &[u8],
    table: &mut [u64],
    size: Size,
) -> usize
    requires { place < 2 ^ 32 }
    ensures { Joining size place words known buffer.old buffer.new (words_of image.now) table.old table.new result }
{
    let end = words.min(BATCH_WORDS);
    let mut keys = known;
    let mut at: usize = 0;
    loop {
        let r = join_common(place, at, end, keys, buffer, table, size);
        at = r.at;
        keys = r.keys;
        match batch::staged_entry(buffer, at, end) {
            None => return keys,
            Some(item) => {
                let extent = volatile::extent_of(size, item.placement, item.field);
                let own = volatile::single_entry(size, extent, place + at, item.version);
                let weight = volatile::chunk_sums::weigh(item.op, item.words);
                keys = join_one(image, buffer, table, keys, item.key, own, weight, size);
                claim(buffer, item.op, item.placement, item.field, size);
                at += 2 + item.words;
            }
        }
    }
}
