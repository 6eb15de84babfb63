// A large value: the slot found for it, which changes nothing; and the staging recorded, its words held in the record,
// its item behind the others, and the place of its actions in the setup.
ghost use Rattle.std.specs.Prelude.{◌≡◌};
ghost use Rattle.places.specs.Sizes.{power_of};
ghost use Rattle.staging.specs.Large.{count_for, LargePlanned, BlockBegun};

use actions::block::hold_value;
use batch::add_entry;
use buffer::Buffer;
use codec::{Unit, block_size};
use directory::directory_word;
use places::size_by;
use placing::blocks::{Slot, slot_for};
use session::Setup;
use spec::Size;

// THE PLAN
// Where a large value goes: to the block at this unit; `units` is 0 if its chunk is a data chunk, else the chunk, whose
// directory word is `old`, is taken for blocks of so many units; with so many actions.
#[derive(Clone, Copy)]
pub struct LargePlan {
    pub unit: Unit,
    pub old: u64,
    pub units: u64,
    pub actions: usize,
}

// How many actions a value of so many bytes has: a longer one is counted as one of the most bytes.
fn count_for(size: Size, bytes: usize, units: u64) -> usize
    ensures { result ≡ count_for (power_of size) bytes units }
{
    let most = bytes.min(places::largest_value(size));
    let words = 1 + (most + 7) / 8;
    let flushes = (words + 7) / 8;
    if units == 0 {
        return words + flushes;
    }
    2 + words + flushes
}

// The slot for a value of so many bytes, and its actions counted. Nothing is changed.
pub fn plan_large(
    setup: Setup,
    buffer: &Buffer,
    words: usize,
    image: &[u8],
    bytes: usize,
) -> Option<LargePlan>
    ensures { LargePlanned image.now buffer.now setup words bytes result }
{
    let size = size_by(setup.power);
    let units = block_size(size, bytes);
    let chunks = places::chunks_in(size, setup.image);
    match slot_for(image, chunks, units as usize, buffer, words, size)? {
        Slot::Data(unit) => Some(LargePlan {
            unit,
            old: 0,
            units: 0,
            actions: count_for(size, bytes, 0),
        }),
        Slot::Free(c) => Some(LargePlan {
            unit: Unit::of(size, c, 0),
            old: directory_word(image, c),
            units,
            actions: count_for(size, bytes, units),
        }),
    }
}

// THE RECORD
// What a staging of a large value leaves: the setup and the staged words.
#[derive(Clone, Copy)]
pub struct Large {
    pub setup: Setup,
    pub words: usize,
}

// A put of a large value is recorded as its plan says, where the batch has room for its item.
pub fn record_large(
    setup: Setup,
    buffer: &mut Buffer,
    words: usize,
    version: u64,
    key: u64,
    value: &[u8],
    plan: LargePlan,
) -> Large
    ensures { BlockBegun buffer.old buffer.new setup words version key value.now plan.unit.0 plan.old plan.units result }
{
    let size = size_by(setup.power);
    hold_value(buffer, value, size);
    let unit = plan.unit;
    let field = unit.0;
    let end = add_entry(buffer, words, 1, 1, version, field, key, &value[0..0]);
    let placed = session::block_setup(
        setup,
        unit.chunk(size) as usize,
        plan.old,
        unit.place(size) as usize,
        plan.units,
    );
    Large {
        setup: placed,
        words: end,
    }
}
