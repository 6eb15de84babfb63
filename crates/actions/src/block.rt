// A large value on its way: kept in the second area of the record's buffer, and the actions that put it into its block,
// one by one, made without reading the image.
ghost use Rattle.std.specs.Prelude.{◌≡◌, ◌<◌, ◌≤◌, length};
ghost use Rattle.spec.specs.Actions.{block_of};
ghost use Rattle.buffer.specs.Areas.{second_room};
ghost use Rattle.actions.specs.Nth.{nth_report};
ghost use Rattle.session.specs.State.{held_count, held_words, unit_of, block_actions};
ghost use Rattle.actions.specs.Staging.{Kept};

use crate::word_action;
use batch::pack_into;
use buffer::{Buffer, SECOND};
use codec::Unit;
use places::size_by;
use session::Setup;
use spec::{Report, Size};

// THE VALUE
// Its words stand behind its length, which is the first word of the second area.
const VALUE: usize = SECOND + 1;

// A value's length and its words into the second area; a value too long for a block changes nothing.
pub fn hold_value(buffer: &mut Buffer, value: &[u8], size: Size)
    ensures { Kept size buffer.old buffer.new value.now }
{
    if value.len() <= places::largest_value(size) {
        buffer[SECOND] = value.len() as u64;
        pack_into(value, buffer, VALUE);
    }
}

// How many words are held there: the length word, and those of the value.
pub fn held_words(setup: Setup, buffer: &Buffer) -> usize
    ensures { (result ≡ held_count setup buffer.now) × (result ≤ second_room) }
{
    let size = size_by(setup.power);
    let bytes = places::largest_value(size).min(buffer[SECOND] as usize);
    1 + (bytes + 7) / 8
}

// THE ACTIONS
// The unit where the block starts.
pub fn unit_of(setup: Setup) -> Unit
    ensures { (result.0 ≡ unit_of setup) × (result.0 < 131072) }
{
    let size = size_by(setup.power);
    Unit::of(size, setup.chunk % 512, setup.lines)
}

// How many actions the staging has.
pub fn block_count(setup: Setup, buffer: &Buffer) -> usize
    ensures { result ≡ length (block_actions setup buffer.now) }
{
    let words = held_words(setup, buffer);
    let flushes = (words + 7) / 8;
    if setup.fields == 0 {
        words + flushes
    } else {
        2 + words + flushes
    }
}

// The action number `at` of those that fill the block: the words held, then a flush for each line stored to.
fn fill_action(setup: Setup, unit: Unit, buffer: &Buffer, at: usize) -> Report
    requires { unit.0 < 131072 }
    ensures { result ≡ nth_report (block_of unit.0 (held_words setup buffer.now)) at }
{
    let words = held_words(setup, buffer);
    let start = unit.word_offset();
    let lines = (words + 7) / 8;
    if at < words {
        Report::Store {
            word: start + at,
            value: buffer[SECOND + at],
        }
    } else if at < words + lines {
        Report::Flush(start / 8 + (at - words))
    } else {
        Report::Fence
    }
}

// The action number `at` of a staging of a large value: those that take a free chunk, its directory word and that
// word's line, where the chunk is free; then those that fill the block.
pub fn block_action(setup: Setup, buffer: &Buffer, at: usize) -> Report
    ensures { result ≡ nth_report (block_actions setup buffer.now) at }
{
    let unit = unit_of(setup);
    let size = setup.fields;
    if size == 0 {
        fill_action(setup, unit, buffer, at)
    } else if at < 2 {
        let chunk = setup.chunk % 512;
        word_action(8 + chunk, codec::data_word(setup.old, size), at)
    } else {
        fill_action(setup, unit, buffer, at - 2)
    }
}
