// Where a large value goes: the first data chunk of its block size with a block neither live nor staged, else the first
// free chunk.
ghost use Rattle.std.specs.Prelude.{◌≡◌, ◌/◌, ◌^◌, ◌<◌, ◌≤◌, eqb, get_or};
ghost use Rattle.spec.specs.Basics.{pick, both};
ghost use Rattle.spec.specs.Words.{words_of};
ghost use Rattle.spec.specs.Places.{chunk_units};
ghost use Rattle.spec.specs.Directory.{role_of, size_in};
ghost use Rattle.spec.specs.Log.{first_of_word};
ghost use Rattle.spec.specs.declared.Size.TheVariants.{Small, Large};
ghost use Rattle.places.specs.Sizes.{power_of};
ghost use Rattle.buffer.specs.Areas.{batch_room};
ghost use Rattle.placing.specs.Blocks.{met_by, StagedBlock, Spare, EachUsed, HasBits, ToLookAt, BlockFound, SlotFound};

use buffer::{BATCH_WORDS, BITS, Buffer, has_bit};
use codec::{Unit, data_word, first_of, role_of};
use directory::{directory_word, free_chunk, size_in};
use logs::words_for;
use spec::{FirstWord, Size};

// Where a large value goes: to a block of a data chunk, or to the first block of a free chunk.
#[derive(Clone, Copy)]
pub enum Slot {
    Data(Unit),
    Free(usize),
}

// What stands at a word of the batch: whether it is a put whose value is in the block asked for, and the number of
// words to the next item. (d) Both are said of every word, so that no Option would say both.
#[derive(Clone, Copy)]
pub struct Met {
    pub here: bool,
    pub size: usize,
}

// STAGED BLOCKS
// Whether an entry with these parts is a put with its value in the block at a unit.
fn points_to(op: u64, placement: u64, field: u64, unit: Unit) -> bool
    ensures { result ≡ both (both (eqb op 1) (eqb placement 1)) (eqb field unit.0) }
{
    op == 1 && placement == 1 && field == unit.0
}

fn met_at(buffer: &Buffer, at: usize, unit: Unit) -> Met
    requires { at < batch_room }
    ensures { (result ≡ met_by unit.0 (first_of_word (get_or buffer.now at 0))) × (1 ≤ result.size) × (result.size < 2 ^ 62) }
{
    match first_of(buffer[at]) {
        FirstWord::Padding | FirstWord::Wrong => Met {
            here: false,
            size: 1,
        },
        FirstWord::Entry {
            op,
            placement,
            field,
            ..
        } => Met {
            here: points_to(op, placement, field, unit),
            size: 2 + words_for(placement, field),
        },
    }
}

// Whether a staged item points to the block at a unit: a pass over the staged entries.
pub fn is_staged(buffer: &Buffer, words: usize, unit: Unit) -> bool
    ensures { StagedBlock buffer.now words unit.0 result }
{
    let end = words.min(BATCH_WORDS);
    let mut at = 0;
    while at < end {
        let met = met_at(buffer, at, unit);
        if met.here {
            return true;
        }
        at += met.size;
    }
    false
}

// Whether the block at a unit is neither live nor staged.
pub fn is_spare(buffer: &Buffer, words: usize, unit: Unit, size: Size) -> bool
    ensures { Spare size buffer.now words unit.0 result }
{
    !has_bit(buffer, unit, size) && !is_staged(buffer, words, unit)
}

// THE BITS OF A CHUNK: bit i says whether a block in use starts at its unit i. They are a quarter of a word in small
// chunks, four words in large ones.
// The bits in which each block of that size is in use; for no block size, all. (d) Chunks of each size have block sizes
// of their own, so that the tables are two.
fn small_full(units: usize) -> [u64; 4]
    ensures { EachUsed Small units result }
{
    match units {
        2 => [0x5555, 0, 0, 0],
        3 => [0x1249, 0, 0, 0],
        4 => [0x1111, 0, 0, 0],
        5 => [0x0421, 0, 0, 0],
        8 => [0x0101, 0, 0, 0],
        16 => [0x0001, 0, 0, 0],
        _ => [0xffff, 0, 0, 0],
    }
}

fn large_full(units: usize) -> [u64; 4]
    ensures { EachUsed Large units result }
{
    match units {
        2 => [
            0x5555_5555_5555_5555,
            0x5555_5555_5555_5555,
            0x5555_5555_5555_5555,
            0x5555_5555_5555_5555,
        ],
        3 => [
            0x9249_2492_4924_9249,
            0x4924_9249_2492_4924,
            0x2492_4924_9249_2492,
            0x1249_2492_4924_9249,
        ],
        4 => [
            0x1111_1111_1111_1111,
            0x1111_1111_1111_1111,
            0x1111_1111_1111_1111,
            0x1111_1111_1111_1111,
        ],
        5 => [
            0x1084_2108_4210_8421,
            0x2108_4210_8421_0842,
            0x4210_8421_0842_1084,
            0x0421_0842_1084_2108,
        ],
        6 => [
            0x1041_0410_4104_1041,
            0x4104_1041_0410_4104,
            0x0410_4104_1041_0410,
            0x0041_0410_4104_1041,
        ],
        7 => [
            0x8102_0408_1020_4081,
            0x4081_0204_0810_2040,
            0x2040_8102_0408_1020,
            0x0020_4081_0204_0810,
        ],
        8 => [
            0x0101_0101_0101_0101,
            0x0101_0101_0101_0101,
            0x0101_0101_0101_0101,
            0x0101_0101_0101_0101,
        ],
        9 => [
            0x8040_2010_0804_0201,
            0x4020_1008_0402_0100,
            0x2010_0804_0201_0080,
            0x0008_0402_0100_8040,
        ],
        10 => [
            0x1004_0100_4010_0401,
            0x0100_4010_0401_0040,
            0x4010_0401_0040_1004,
            0x0001_0040_1004_0100,
        ],
        11 => [
            0x0080_1002_0040_0801,
            0x0200_4008_0100_2004,
            0x0801_0020_0400_8010,
            0x0004_0080_1002_0040,
        ],
        12 => [
            0x1001_0010_0100_1001,
            0x0100_1001_0010_0100,
            0x0010_0100_1001_0010,
            0x0001_0010_0100_1001,
        ],
        13 => [
            0x0010_0080_0400_2001,
            0x0020_0100_0800_4002,
            0x0040_0200_1000_8004,
            0x0000_0400_2001_0008,
        ],
        14 => [
            0x0100_0400_1000_4001,
            0x4001_0004_0010_0040,
            0x0040_0100_0400_1000,
            0x0000_4001_0004_0010,
        ],
        15 => [
            0x1000_2000_4000_8001,
            0x0100_0200_0400_0800,
            0x0010_0020_0040_0080,
            0x0001_0002_0004_0008,
        ],
        16 => [
            0x0001_0001_0001_0001,
            0x0001_0001_0001_0001,
            0x0001_0001_0001_0001,
            0x0001_0001_0001_0001,
        ],
        17 => [
            0x0008_0004_0002_0001,
            0x0080_0040_0020_0010,
            0x0800_0400_0200_0100,
            0x0000_4000_2000_1000,
        ],
        18 => [
            0x0040_0010_0004_0001,
            0x4000_1000_0400_0100,
            0x0010_0004_0001_0000,
            0x0000_0400_0100_0040,
        ],
        19 => [
            0x0200_0040_0008_0001,
            0x0004_0000_8000_1000,
            0x4000_0800_0100_0020,
            0x0000_0010_0002_0000,
        ],
        21 => [
            0x8000_0400_0020_0001,
            0x4000_0200_0010_0000,
            0x2000_0100_0008_0000,
            0x0000_0080_0004_0000,
        ],
        23 => [
            0x0000_4000_0080_0001,
            0x0008_0000_1000_0020,
            0x0100_0002_0000_0400,
            0x0000_0040_0000_8000,
        ],
        25 => [
            0x0004_0000_0200_0001,
            0x2000_0010_0000_0800,
            0x0000_8000_0040_0000,
            0x0000_0002_0000_0100,
        ],
        28 => [
            0x0100_0000_1000_0001,
            0x0001_0000_0010_0000,
            0x0000_0100_0000_1000,
            0x0000_0001_0000_0010,
        ],
        32 => [
            0x0000_0001_0000_0001,
            0x0000_0001_0000_0001,
            0x0000_0001_0000_0001,
            0x0000_0001_0000_0001,
        ],
        36 => [
            0x0000_0010_0000_0001,
            0x0000_1000_0000_0100,
            0x0010_0000_0001_0000,
            0x0000_0000_0100_0000,
        ],
        42 => [
            0x0000_0400_0000_0001,
            0x4000_0000_0010_0000,
            0x0000_0100_0000_0000,
            0x0000_0000_0004_0000,
        ],
        51 => [
            0x0008_0000_0000_0001,
            0x0000_0040_0000_0000,
            0x0000_0000_0200_0000,
            0x0000_0000_0000_1000,
        ],
        64 => [
            0x0000_0000_0000_0001,
            0x0000_0000_0000_0001,
            0x0000_0000_0000_0001,
            0x0000_0000_0000_0001,
        ],
        85 => [
            0x0000_0000_0000_0001,
            0x0000_0000_0020_0000,
            0x0000_0400_0000_0000,
            0x0000_0000_0000_0000,
        ],
        128 => [
            0x0000_0000_0000_0001,
            0x0000_0000_0000_0000,
            0x0000_0000_0000_0001,
            0x0000_0000_0000_0000,
        ],
        256 => [
            0x0000_0000_0000_0001,
            0x0000_0000_0000_0000,
            0x0000_0000_0000_0000,
            0x0000_0000_0000_0000,
        ],
        _ => [
            0xffff_ffff_ffff_ffff,
            0xffff_ffff_ffff_ffff,
            0xffff_ffff_ffff_ffff,
            0xffff_ffff_ffff_ffff,
        ],
    }
}

fn full_bits(size: Size, units: usize) -> [u64; 4]
    ensures { EachUsed size units result }
{
    match size {
        Size::Small => small_full(units),
        Size::Large => large_full(units),
    }
}

// Whether the bits of chunk c are these.
fn has_small_bits(buffer: &Buffer, c: usize, bits: [u64; 4]) -> bool
    ensures { HasBits Small buffer.now c bits result }
{
    c < 504 && (buffer[BITS + c / 4] >> (16 * (c % 4))) % 0x1_0000 == bits[0]
}

fn has_large_bits(buffer: &Buffer, c: usize, bits: [u64; 4]) -> bool
    ensures { HasBits Large buffer.now c bits result }
{
    if 504 <= c {
        return false;
    }
    let at = BITS + 4 * c;
    buffer[at] == bits[0]
        && buffer[at + 1] == bits[1]
        && buffer[at + 2] == bits[2]
        && buffer[at + 3] == bits[3]
}

fn has_bits(buffer: &Buffer, c: usize, bits: [u64; 4], size: Size) -> bool
    ensures { HasBits size buffer.now c bits result }
{
    match size {
        Size::Small => has_small_bits(buffer, c, bits),
        Size::Large => has_large_bits(buffer, c, bits),
    }
}

// THE SEARCH
// How many blocks of that size a data chunk of that block size has, whose directory word is `word`.
fn blocks_of(size: Size, word: u64, units: usize) -> usize
    ensures { result ≡ pick (eqb (size_in (role_of (power_of size) word)) units) (chunk_units (power_of size) / units) 0 }
{
    if units != 0 && size_in(role_of(size, word)) == units {
        places::units(size) / units
    } else {
        0
    }
}

// How many blocks of chunk c are to be looked at: all where its directory word is that one, but none where its bits say
// that each is in use.
fn blocks_in(
    image: &[u8],
    buffer: &Buffer,
    c: usize,
    word: u64,
    blocks: usize,
    full: [u64; 4],
    size: Size,
) -> usize
    ensures { ToLookAt size (words_of image.now) buffer.now c word blocks full result }
{
    if directory_word(image, c) == word && !has_bits(buffer, c, full, size) {
        blocks
    } else {
        0
    }
}

// The first unit of the first data chunk of that block size with a block neither live nor staged, lowest block, of an
// image of `count` chunks.
pub fn find_block(
    image: &[u8],
    count: usize,
    units: usize,
    buffer: &Buffer,
    words: usize,
    size: Size,
) -> Option<Unit>
    ensures { BlockFound size image.now count units buffer.now words result }
{
    let chunks = count.min(places::chunks_in(size, image.len()));
    let word = data_word(0, units as u64);
    let most = blocks_of(size, word, units);
    let full = full_bits(size, units);
    let whole = places::units(size);
    let mut found = None;
    'chunks: for c in 1..chunks {
        let blocks = blocks_in(image, buffer, c, word, most, full, size);
        for j in 0..blocks {
            // By the number itself: `Unit::of` here costs two instructions for each chunk that is passed over.
            let u = whole * c + units * j;
            let unit = Unit(u as u64);
            if is_spare(buffer, words, unit, size) {
                found = Some(unit);
                break 'chunks;
            }
        }
    }
    found
}

// Where a value that needs blocks of that size goes, if it has a place.
pub fn slot_for(
    image: &[u8],
    count: usize,
    units: usize,
    buffer: &Buffer,
    words: usize,
    size: Size,
) -> Option<Slot>
    ensures { SlotFound size image.now count units buffer.now words result }
{
    if let Some(unit) = find_block(image, count, units, buffer, words, size) {
        return Some(Slot::Data(unit));
    }
    let chunk = free_chunk(image, count, 3, size)?;
    Some(Slot::Free(chunk))
}
