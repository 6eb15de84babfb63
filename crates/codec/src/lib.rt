// Encoding and decoding of words: the header line, directory words, first words of entries, unit numbers and block
// sizes.
#![tactic(auto)]

ghost use Rattle.std.specs.Prelude.{[], ◌∷◌, sum, ◌≡◌, ◌+◌, ◌-◌, ◌*◌, ◌%◌, ◌^◌, ◌<◌, ◌≤◌, min, ◌==◌, nat_le, slice_index};
ghost use Rattle.spec.specs.Basics.{pick, both};
ghost use Rattle.spec.specs.Places.{chunk_units, unit_chunk, unit_in, unit_word};
ghost use Rattle.spec.specs.Header.{word_values, fields_test, header_test, power_said, power_bit, power_field, check_word, bit_of, header_map, fields_of, header_words};
ghost use Rattle.spec.specs.Directory.{is_size, role_of, log_word, data_word, freed_word, size_for};
ghost use Rattle.spec.specs.Log.{first_of_word};
ghost use Rattle.spec.specs.Blocks.{block_limit, block_size};
ghost use Rattle.places.specs.Sizes.{power_of};
ghost use Rattle.codec.specs.Firsts.{head_word};
ghost use Rattle.codec.specs.Units.{unit_at};

use spec::{FirstWord, Role, Size};

// THE HEADER
// The sum of the words, modulo 2^64.
fn sum_of(words: [u64; 8]) -> u64
    ensures { result ≡ sum words % word_values }
{
    words.iter().fold(0, |all, word| all.wrapping_add(*word))
}

// The words behind the count, by the bit map: those that are unused are 0.
#[tactic(auto, unfolding(spec::specs::Header::fields_test))]
fn fields_right(map: u64, c: u64, d: u64, e: u64) -> bool
    ensures { result ≡ fields_test map c d e }
{
    match map {
        1 => c == 0 && d == 0 && e == 0,
        3 | 5 | 9 => d == 0 && e == 0,
        7 | 11 | 13 => e == 0,
        15 => true,
        _ => false,
    }
}

// The eight words are a right header of so many chunks.
#[tactic(auto, unfolding(spec::specs::Header::header_test))]
pub fn header_right(words: [u64; 8], count: u64) -> bool
    ensures { result ≡ header_test count (slice_index words 0) (slice_index words 1) (slice_index words 2) (slice_index words 3) (slice_index words 4) (slice_index words 5) (slice_index words 6) (slice_index words 7) }
{
    let [map, chunks, c, d, e, f, g, _] = words;
    sum_of(words) == 0 && chunks == count && f == 0 && g == 0 && fields_right(map, c, d, e)
}

// The chunk power that a header says, by its map and the words behind the count.
#[tactic(auto, unfolding(spec::specs::Header::power_said))]
pub fn header_power(map: u64, c: u64, d: u64, e: u64) -> u64
    ensures { result ≡ power_said map c d e }
{
    match map {
        9 => c,
        11 | 13 => d,
        15 => e,
        _ => 12,
    }
}

// The word that makes a sum 0, modulo 2^64.
pub fn header_check_word(sum: u64) -> u64
    ensures { result ≡ check_word sum }
{
    0u64.wrapping_sub(sum)
}

// The bit map of the header's fields, by what is given. Large chunks have their power there.
#[tactic(auto, unfolding(spec::specs::Header::power_bit))]
pub fn header_map(size: Size, station: Option<u64>, centre: Option<u64>) -> u64
    ensures { result ≡ header_map (power_of size) station centre }
{
    1 + 2 * u64::from(station.is_some())
        + 4 * u64::from(centre.is_some())
        + 8 * u64::from(size == Size::Large)
}

// The power's field: none for small chunks.
#[tactic(auto, unfolding(spec::specs::Header::power_field))]
fn power_field(size: Size) -> u64
    ensures { result ≡ power_field (power_of size) }
{
    match size {
        Size::Small => 0,
        Size::Large => 16,
    }
}

// The three words behind the count: the numbers given, in order, and x behind them.
fn fields(x: u64, station: Option<u64>, centre: Option<u64>) -> (u64, u64, u64)
    ensures { fields_of x station centre ≡ result.0 ∷ result.1 ∷ result.2 ∷ 0 ∷ 0 ∷ [] }
{
    match (station, centre) {
        (Some(s), Some(c)) => (s, c, x),
        (Some(s), None) => (s, x, 0),
        (None, Some(c)) => (c, x, 0),
        (None, None) => (x, 0, 0),
    }
}

// The header that a formatting writes.
#[tactic(auto, unfolding(spec::specs::Header::header_words, spec::specs::Header::header_tail))]
fn header(size: Size, count: u64, station: Option<u64>, centre: Option<u64>) -> [u64; 8]
    ensures { result ≡ header_words (power_of size) count station centre }
{
    let map = header_map(size, station, centre);
    let (c, d, e) = fields(power_field(size), station, centre);
    let check = header_check_word(sum_of([map, count, c, d, e, 0, 0, 0]));
    [map, count, c, d, e, 0, 0, check]
}

// Word i of it, 0 past the eight.
pub fn header_word(
    size: Size,
    count: u64,
    station: Option<u64>,
    centre: Option<u64>,
    i: usize,
) -> u64
    ensures { result ≡ slice_index (header_words (power_of size) count station centre) i }
{
    let words = header(size, count, station, centre);
    words.get(i).copied().unwrap_or(0)
}

// THE DIRECTORY
// What a directory word says.
#[tactic(auto, using(crate::proofs::Sizes::small_tests), unfolding(spec::specs::Directory::role_of, spec::specs::Places::chunk_lines))]
pub fn role_of(size: Size, word: u64) -> Role
    ensures { result ≡ role_of (power_of size) word }
{
    let field = word / 256;
    match (size, word % 256, field) {
        (_, 0, 0) => Role::Free,
        (Size::Small, 1, 1..=64) | (Size::Large, 1, 1..=1024) => Role::Log(field),
        (Size::Small, 2, 2..=5 | 8 | 16) => Role::Data(field),
        (Size::Large, 2, _) if is_size(size, field as usize) => Role::Data(field),
        _ => Role::Wrong,
    }
}

// The new word of a chunk, from the old, which its definition takes; lines and size modulo 2^56. The two are a line
// each, as the definitions are.
pub fn log_word(old: u64, lines: u64) -> u64
    ensures { result ≡ log_word old (lines % 2 ^ 56) }
{
    1 + 256 * (lines % 0x100_0000_0000_0000)
}

pub fn data_word(old: u64, size: u64) -> u64
    ensures { result ≡ data_word old (size % 2 ^ 56) }
{
    2 + 256 * (size % 0x100_0000_0000_0000)
}

pub fn freed_word(old: u64) -> u64
    ensures { result ≡ freed_word old }
{
    0
}

// FIRST WORDS
// What the first word of an entry says.
#[tactic(auto, unfolding(spec::specs::Log::first_of_word))]
pub fn first_of(word: u64) -> FirstWord
    ensures { result ≡ first_of_word word }
{
    let op = word % 4;
    let placement = word / 4 % 4;
    let version = word / 16 % 1048576;
    let field = word / 16777216;
    if word == 0 {
        return FirstWord::Padding;
    }
    if version == 0 {
        return FirstWord::Wrong;
    }
    // A put and a delete are two arms with their numbers written out: of one arm, a walk of the log asks again which it
    // is, by 5 % more instructions.
    match (op, placement, field) {
        (1, 0, 0..=256) | (1, 1, _) => FirstWord::Entry {
            op: 1,
            placement,
            version,
            field,
        },
        (2, 0, 0) => FirstWord::Entry {
            op: 2,
            placement: 0,
            version,
            field: 0,
        },
        _ => FirstWord::Wrong,
    }
}

// The first word with these parts, each modulo the numbers that its bits have.
pub fn first_word(op: u64, placement: u64, version: u64, field: u64) -> u64
    ensures { result ≡ head_word (op % 4) (placement % 4) (version % 1048576) (field % 2 ^ 40) }
{
    op % 4 + 4 * (placement % 4) + 16 * (version % 1048576) + 16777216 * (field % 0x100_0000_0000)
}

// UNITS
// A number of a unit of 256 bytes, counted from the image's start.
#[derive(Clone, Copy, PartialEq, Eq, Debug)]
pub struct Unit(pub u64);

impl Unit {
    // The unit at a place of a chunk, each modulo the numbers that there is room for.
    #[tactic(auto, unfolding(crate::specs::Units::unit_at))]
    pub fn of(size: Size, chunk: usize, place: usize) -> Unit
        ensures { result.0 ≡ unit_at (power_of size) chunk place }
    {
        let unit = places::first_unit(size, chunk % 0x1_0000_0000_0000)
            + places::unit_in(size, place);
        Unit(unit as u64)
    }

    // The unit's first byte; a number too large for that gives the largest.
    pub fn byte_offset(self) -> usize
        ensures { result ≡ min (256 * self.0) (2 ^ 64 - 1) }
    {
        (self.0 as usize).saturating_mul(256)
    }

    // The unit's first word.
    pub fn word_offset(self) -> usize
        ensures { result ≡ min (unit_word self.0) (2 ^ 61 - 1) }
    {
        self.byte_offset() / 8
    }

    // The unit's chunk, and its place there.
    pub fn chunk(self, size: Size) -> u64
        ensures { result ≡ unit_chunk (power_of size) self.0 }
    {
        places::chunk_of_unit(size, self.0)
    }

    pub fn place(self, size: Size) -> u64
        ensures { (result ≡ unit_in (power_of size) self.0) × (result < 256) }
    {
        places::place_of_unit(size, self.0)
    }
}

// BLOCK SIZES
// The block size for so many units, in small chunks and in large ones. A look-up stands for two divisions.
const SMALL_SIZES: [u64; 17] = [0, 0, 2, 3, 4, 5, 8, 8, 8, 16, 16, 16, 16, 16, 16, 16, 16];

pub const LARGE_SIZES: [u64; 257] = [
    0, 0, 2, 3, 4, 5, 6, 7, 8, 9, 10, 11, 12, 13, 14, 15, 16, 17, 18, 19, 21, 21, 23, 23, 25, 25,
    28, 28, 28, 32, 32, 32, 32, 36, 36, 36, 36, 42, 42, 42, 42, 42, 42, 51, 51, 51, 51, 51, 51, 51,
    51, 51, 64, 64, 64, 64, 64, 64, 64, 64, 64, 64, 64, 64, 64, 85, 85, 85, 85, 85, 85, 85, 85, 85,
    85, 85, 85, 85, 85, 85, 85, 85, 85, 85, 85, 85, 128, 128, 128, 128, 128, 128, 128, 128, 128,
    128, 128, 128, 128, 128, 128, 128, 128, 128, 128, 128, 128, 128, 128, 128, 128, 128, 128, 128,
    128, 128, 128, 128, 128, 128, 128, 128, 128, 128, 128, 128, 128, 128, 128, 256, 256, 256, 256,
    256, 256, 256, 256, 256, 256, 256, 256, 256, 256, 256, 256, 256, 256, 256, 256, 256, 256, 256,
    256, 256, 256, 256, 256, 256, 256, 256, 256, 256, 256, 256, 256, 256, 256, 256, 256, 256, 256,
    256, 256, 256, 256, 256, 256, 256, 256, 256, 256, 256, 256, 256, 256, 256, 256, 256, 256, 256,
    256, 256, 256, 256, 256, 256, 256, 256, 256, 256, 256, 256, 256, 256, 256, 256, 256, 256, 256,
    256, 256, 256, 256, 256, 256, 256, 256, 256, 256, 256, 256, 256, 256, 256, 256, 256, 256, 256,
    256, 256, 256, 256, 256, 256, 256, 256, 256, 256, 256, 256, 256, 256, 256, 256, 256, 256, 256,
    256, 256, 256, 256, 256, 256, 256, 256, 256, 256,
];

// The smallest block size that holds so many units, 0 below 2 and past a chunk's.
pub fn block_size_for_units(size: Size, units: usize) -> u64
    ensures { result ≡ pick (both (nat_le 2 units) (nat_le units (chunk_units (power_of size)))) (size_for (power_of size) units) 0 }
{
    let sizes: &[u64] = match size {
        Size::Small => &SMALL_SIZES,
        Size::Large => &LARGE_SIZES,
    };
    sizes.get(units).copied().unwrap_or(0)
}

// Whether so many units are a block size: the one for them is they themselves.
#[tactic(auto, unfolding(spec::specs::Directory::is_size))]
fn is_size(size: Size, units: usize) -> bool
    ensures { result ≡ is_size (power_of size) units }
{
    2 <= units && block_size_for_units(size, units) == units as u64
}

// The block size of a value of so many bytes, 0 if it goes to no block.
#[tactic(auto, unfolding(spec::specs::Blocks::block_size, spec::specs::Blocks::units_for, spec::specs::Blocks::block_limit))]
pub fn block_size(size: Size, bytes: usize) -> u64
    ensures { result ≡ pick (both (nat_le 257 bytes) (nat_le bytes (block_limit (power_of size)))) (block_size (power_of size) bytes) 0 }
{
    if bytes < 257 || places::largest_value(size) < bytes {
        return 0;
    }
    block_size_for_units(size, (8 + bytes + 255) / 256)
}
