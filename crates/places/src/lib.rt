// All that goes by the size of a chunk: how many bytes, words, lines and units it has, and where it begins. Other
// crates have a number of these only where a type or a table of theirs needs a literal. Each number is a choice of two
// literals, so that the compiler makes shifts of the products and quotients, and in a loop chooses once.
// Each definition of an address is opened where the code has it.
#![tactic(auto, unfolding(spec::specs::Places::chunk_bytes, spec::specs::Places::chunk_words, spec::specs::Places::chunk_lines, spec::specs::Places::chunk_units, spec::specs::Places::base, spec::specs::Places::first_line, spec::specs::Places::first_unit, spec::specs::Places::word_chunk, spec::specs::Places::unit_chunk, spec::specs::Places::unit_in, spec::specs::Blocks::block_limit, spec::specs::Places::chunks_in, spec::specs::Places::length_allowed))]

ghost use Rattle.std.specs.Prelude.{◌≡◌, ◌<◌, ◌≤◌, ◌^◌, ◌*◌};
ghost use Rattle.spec.specs.Places.{chunk_bytes, chunk_words, chunk_lines, chunk_units, base, first_line, first_unit, word_chunk, unit_chunk, unit_in, chunks_in, length_allowed};
ghost use Rattle.spec.specs.Blocks.{block_limit};
ghost use Rattle.places.specs.Sizes.{power_of, size_by, unit_count};

use spec::Size;

// The size that a number stands for, as the record has it.
pub fn size_by(power: u64) -> Size
    ensures { result ≡ size_by power }
{
    if power == 16 {
        Size::Large
    } else {
        Size::Small
    }
}

// The number that stands for a size.
pub fn power_of(size: Size) -> u64
    ensures { result ≡ power_of size }
{
    match size {
        Size::Small => 12,
        Size::Large => 16,
    }
}

// How many of each a chunk has.
fn bytes(size: Size) -> usize
    ensures { (result ≡ chunk_bytes (power_of size)) × (4096 ≤ result) × (result ≤ 65536) }
{
    match size {
        Size::Small => 4096,
        Size::Large => 65536,
    }
}

pub fn words(size: Size) -> usize
    ensures { (result ≡ chunk_words (power_of size)) × (512 ≤ result) × (result ≤ 8192) }
{
    match size {
        Size::Small => 512,
        Size::Large => 8192,
    }
}

pub fn lines(size: Size) -> usize
    ensures { (result ≡ chunk_lines (power_of size)) × (64 ≤ result) × (result ≤ 1024) }
{
    match size {
        Size::Small => 64,
        Size::Large => 1024,
    }
}

pub fn units(size: Size) -> usize
    ensures { (result ≡ chunk_units (power_of size)) × (16 ≤ result) × (result ≤ 256) }
{
    match size {
        Size::Small => 16,
        Size::Large => 256,
    }
}

// The units of 504 chunks.
pub const SMALL_UNITS: usize = 8064;

pub const LARGE_UNITS: usize = 129_024;

pub fn unit_count(size: Size) -> usize
    ensures { (result ≡ unit_count size) × (result ≤ 129024) }
{
    match size {
        Size::Small => SMALL_UNITS,
        Size::Large => LARGE_UNITS,
    }
}

// The first word, line and unit of chunk c.
pub fn first_word(size: Size, c: usize) -> usize
    requires { base (power_of size) c < 2 ^ 61 }
    ensures { result ≡ base (power_of size) c }
{
    c * words(size)
}

pub fn first_line(size: Size, c: usize) -> usize
    requires { c < 2 ^ 48 }
    ensures { (result ≡ first_line (power_of size) c) × (result ≤ 1024 * c) }
{
    c * lines(size)
}

pub fn first_unit(size: Size, c: usize) -> usize
    requires { c < 2 ^ 48 }
    ensures { (result ≡ first_unit (power_of size) c) × (result ≤ 256 * c) }
{
    c * units(size)
}

// The chunk of word w; the chunk of unit u, and its place there.
pub fn chunk_of_word(size: Size, w: usize) -> usize
    ensures { result ≡ word_chunk (power_of size) w }
{
    w / words(size)
}

pub fn chunk_of_unit(size: Size, u: u64) -> u64
    ensures { result ≡ unit_chunk (power_of size) u }
{
    u / units(size) as u64
}

pub fn place_of_unit(size: Size, u: u64) -> u64
    ensures { (result ≡ unit_in (power_of size) u) × (result < 256) }
{
    u % units(size) as u64
}

// The same of a number that is no unit's yet.
pub fn unit_in(size: Size, place: usize) -> usize
    ensures { (result ≡ unit_in (power_of size) place) × (result < 256) }
{
    place % units(size)
}

// The most bytes of a value: the whole chunk but a block's length word.
pub fn largest_value(size: Size) -> usize
    ensures { (result ≡ block_limit (power_of size)) × (4088 ≤ result) × (result ≤ 65528) }
{
    256 * units(size) - 8
}

// How many chunks an image of so many bytes has.
pub fn chunks_in(size: Size, length: usize) -> usize
    ensures { (result ≡ chunks_in (power_of size) length) × (result < 2 ^ 52) }
{
    length / bytes(size)
}

// Whether an image may have so many bytes: 4 to 504 whole chunks.
pub fn length_allowed(size: Size, length: usize) -> bool
    ensures { result ≡ length_allowed (power_of size) length }
{
    let n = chunks_in(size, length);
    length % bytes(size) == 0 && 4 <= n && n <= 504
}
