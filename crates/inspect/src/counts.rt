// How many of a chunk's entries, or of its blocks, the register still goes by: counted in one pass over the log, by the
// words of the key table, whatever these hold. Nothing is changed.
ghost use Rattle.std.specs.Prelude.{◌≡◌};
ghost use Rattle.spec.specs.Words.{words_of};
ghost use Rattle.inspect.specs.ChunkCounts.{chosen_by, points_into, count_entry, tally_by, count_block, blocks_by};

use codec::Unit;
use logs::Entry;
use spec::Size;

// ONE ENTRY
// Whether the entry at this place is the chosen one of its key.
fn is_chosen(table: &[u64], key: u64, place: usize, size: Size) -> bool
    ensures { result ≡ chosen_by size table.now key place }
{
    let info = packing::unpack(size, index::get(table, key));
    info.place == place as u64
}

// Whether an entry points to a block of the chunk.
fn points_into(size: Size, e: Entry, chunk: usize) -> bool
    ensures { result ≡ points_into size e.op e.placement e.field chunk }
{
    consistency::points(e.op, e.placement) && Unit(e.field).chunk(size) == chunk as u64
}

// A LOG CHUNK: how many of its entries are chosen puts, chosen deletes, and neither
#[derive(Clone, Copy)]
pub struct Tally {
    pub live: u64,
    pub deletes: u64,
    pub superseded: u64,
}

// With one more entry.
fn count_entry(table: &[u64], t: Tally, e: Entry, size: Size) -> Tally
    ensures { result ≡ count_entry size table.now t e.op e.key e.place }
{
    if !is_chosen(table, e.key, e.place, size) {
        Tally {
            superseded: t.superseded.wrapping_add(1),
            ..t
        }
    } else if e.op == 1 {
        Tally {
            live: t.live.wrapping_add(1),
            ..t
        }
    } else {
        Tally {
            deletes: t.deletes.wrapping_add(1),
            ..t
        }
    }
}

// Over the chunk's own entries; nothing where one is wrong.
pub fn count_entries(image: &[u8], table: &[u64], chunk: usize, size: Size) -> Tally
    ensures { result ≡ tally_by size (words_of image.now) table.now chunk }
{
    let none = Tally {
        live: 0,
        deletes: 0,
        superseded: 0,
    };
    let mut t = none;
    let mut cursor = logs::chunk_cursor(image, chunk, size);
    loop {
        match logs::next_in_log(image, 0, cursor, size) {
            Ok(Some(e)) => {
                t = count_entry(table, t, e, size);
                cursor = e.behind;
            }
            Ok(None) => return t,
            Err(_) => return none,
        }
    }
}

// A DATA CHUNK: how many of its blocks are live
// With one more entry of the log.
fn count_block(table: &[u64], chunk: usize, used: u64, e: Entry, size: Size) -> u64
    ensures { result ≡ count_block size table.now chunk used e.op e.placement e.field e.key e.place }
{
    if is_chosen(table, e.key, e.place, size) && points_into(size, e, chunk) {
        used.wrapping_add(1)
    } else {
        used
    }
}

// Over all entries of the log of an image of `count` chunks; 0 where one is wrong.
pub fn count_blocks(image: &[u8], table: &[u64], count: usize, chunk: usize, size: Size) -> u64
    ensures { result ≡ blocks_by size (words_of image.now) table.now count chunk }
{
    let mut used = 0;
    let mut cursor = logs::first_cursor();
    loop {
        match logs::next_in_log(image, count, cursor, size) {
            Ok(Some(e)) => {
                used = count_block(table, chunk, used, e, size);
                cursor = e.behind;
            }
            Ok(None) => return used,
            Err(_) => return 0,
        }
    }
}
