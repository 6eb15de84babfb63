// The station record's buffer: its areas by name, and the set of units that start a block in use, as the bits of one.
#![tactic(auto)]

ghost use Rattle.std.specs.Prelude.{◌≡◌, true, false, length};
ghost use Rattle.buffer.specs.Areas.{buffer_words};
ghost use Rattle.buffer.specs.Bits.{has_bit, BitWritten, BitsCleared};

use codec::Unit;
use places::unit_count;
use spec::Size;

// THE AREAS, one behind the other; the head of `specs/Areas.antt` says what each holds. The batch stands first, so that
// its word i is word i of the buffer.
pub const BATCH: usize = 0;

pub const BATCH_WORDS: usize = 512;

// The second area has room for the words of a large chunk.
pub const SECOND: usize = BATCH + BATCH_WORDS;

pub const SECOND_WORDS: usize = 8192;

// The bits of the units of 504 large chunks, 64 in a word.
pub const BITS: usize = SECOND + SECOND_WORDS;

pub const BITS_END: usize = BITS + 129_024 / 64;

// The filter's word, and others to spare.
pub const FILTER: usize = BITS_END;

// The sums of so many chunks.
pub const SUMS: usize = FILTER + 32;

pub const SUMS_COUNT: usize = 512;

pub const BUFFER_WORDS: usize = SUMS + SUMS_COUNT;

pub type Buffer = [u64; BUFFER_WORDS];

// The number of words of the buffer.
pub fn buffer_length(buffer: &Buffer) -> usize
    ensures { (result ≡ buffer_words) × (length buffer.now ≡ buffer_words) }
{
    buffer.len()
}

pub fn has_bit(buffer: &Buffer, unit: Unit, size: Size) -> bool
    ensures { result ≡ has_bit size buffer.now unit.0 }
{
    let u = unit.0 as usize;
    u < unit_count(size) && (buffer[BITS + u / 64] >> (u % 64)) % 2 == 1
}

// Past the last unit a change does nothing.
pub fn set_bit(buffer: &mut Buffer, unit: Unit, size: Size)
    ensures { BitWritten size buffer.old buffer.new unit.0 true }
{
    let u = unit.0 as usize;
    if u < unit_count(size) {
        let at = BITS + u / 64;
        let word = buffer[at];
        buffer[at] = word | 1 << (u % 64);
    }
}

pub fn unset_bit(buffer: &mut Buffer, unit: Unit, size: Size)
    ensures { BitWritten size buffer.old buffer.new unit.0 false }
{
    let u = unit.0 as usize;
    if u < unit_count(size) {
        let at = BITS + u / 64;
        let word = buffer[at];
        buffer[at] = word ^ (word & 1 << (u % 64));
    }
}

pub fn clear_bits(buffer: &mut Buffer, size: Size)
    ensures { BitsCleared size buffer.old buffer.new }
{
    let end = BITS + unit_count(size) / 64;
    buffer[BITS..end].fill(0);
}
