// The fast path inside a staging: a run, which makes the stores that come next in a short loop, and then tells of the
// action behind them, or of the end. That loop serves a cleaning too.
ghost use Rattle.std.specs.Prelude.{◌≡◌, true, false, ◌-◌, ◌^◌, ◌≤◌, ◌<◌};
ghost use Rattle.running.specs.Run.{RunsOn};
ghost use Rattle.running.specs.Stores.{area_word, Filled};
ghost use Rattle.running.specs.Fast.{InStaging, OnFastPath};
ghost use Rattle.buffer.specs.Areas.{second_room};
ghost use Rattle.running.specs.Staging.{take_count, BlockStores, StagingRun};
ghost use Rattle.session.specs.Numbers.{ended};
ghost use Rattle.spec.specs.declared.Report.TheVariants.{End};
ghost use Rattle.session.specs.Promise.{memory_of};

use buffer::{Buffer, SECOND};
use session::{Control, Setup, Stepped};
use spec::Report;

// Whether a staging is begun.
pub fn is_staging(control: Control, setup: Setup, bytes: usize, words: usize) -> bool
    ensures { (result ≡ true → InStaging control setup bytes words) × (result ≡ false → InStaging control setup bytes words → ⊥) }
{
    control.phase == session::STAGING && setup.image == bytes && setup.table == words
}

// WORDS OF THE SECOND AREA
// Word NEXT + i stands behind word SECOND + i.
const NEXT: usize = SECOND + 1;

// The area's words numbered `from` up to `end` into the image, counted from its word `start`; two in a turn of the
// loop, each by a store of its own.
pub fn store_area(buffer: &Buffer, image: &mut [u8], start: usize, from: usize, end: usize)
    requires { (start < 2 ^ 32) × (from ≤ end) × (end ≤ second_room) }
    ensures { Filled (area_word buffer.now) start from (end - from) image.old image.new }
{
    let mut i = from;
    while i + 1 < end {
        let value = buffer[SECOND + i];
        words::save(image, start + i, value);
        let second = buffer[NEXT + i];
        words::save(image, start + (i + 1), second);
        i += 2;
    }
    if end <= i {
        return;
    }
    let last = buffer[SECOND + i];
    words::save(image, start + i, last);
}

// A STAGING
// How many actions take the chunk: none where it is a data chunk already.
fn take_count(setup: Setup) -> usize
    ensures { (result ≡ take_count setup) × (result ≤ 2) }
{
    if setup.fields == 0 {
        return 0;
    }
    2
}

// The stores of a large value's staging that come next: the directory word of a chunk that is taken, or the words held.
// The number of the action behind them.
fn store_block(control: Control, setup: Setup, buffer: &Buffer, image: &mut [u8]) -> usize
    ensures { BlockStores control setup buffer.now image.old image.new result }
{
    let at = control.next;
    let first = take_count(setup);
    let held = actions::block::held_words(setup, buffer);
    let behind = first + held;
    if behind <= at {
        return at;
    }
    if first <= at {
        let unit = actions::block::unit_of(setup);
        let start = unit.word_offset();
        let from = at - first;
        store_area(buffer, image, start, from, held);
        return behind;
    }
    if at == 0 {
        let action = actions::block::block_action(setup, buffer, 0);
        actions::perform(image, action);
        return 1;
    }
    at
}

// The stores that come next, and then the flush behind them.
fn store_run(control: Control, setup: Setup, buffer: &Buffer, image: &mut [u8]) -> Stepped
    ensures { StagingRun control setup buffer.now image.old image.new result.control result.report }
{
    let at = store_block(control, setup, buffer, image);
    if stepping::is_stored(setup, buffer, at) {
        return staged(control);
    }
    let action = actions::block::block_action(setup, buffer, at);
    let next = at + 1;
    let moved = session::at_action(control, next);
    Stepped {
        control: moved,
        report: action,
    }
}

// The end of a staging.
fn staged(control: Control) -> Stepped
    ensures { (result.control ≡ ended control) × (result.report ≡ End 0) }
{
    let staged = session::ended(control);
    Stepped {
        control: staged,
        report: Report::End(0),
    }
}

// The stores that come next, and then the flush behind them, or the end. Elsewhere nothing is done. The end of a
// staging without actions comes first, and a flush by few comparisons.
pub fn staging_run(
    control: Control,
    setup: Setup,
    buffer: &Buffer,
    image: &mut [u8],
    table: &mut [u64],
) -> Stepped
    ensures { OnFastPath InStaging RunsOn (memory_of control setup buffer.now image.old table.old) (memory_of result.control setup buffer.now image.new table.new) result.report }
{
    if is_staging(control, setup, image.len(), table.len()) {
        let at = control.next;
        if stepping::BEHIND_ALL <= at {
            return staged(control);
        }
        let held = actions::block::held_words(setup, buffer);
        let behind = take_count(setup) + held;
        if at < behind {
            return store_run(control, setup, buffer, image);
        }
        if behind + (held + 7) / 8 <= at {
            return staged(control);
        }
        let unit = actions::block::unit_of(setup);
        let line = unit.word_offset() / 8 + (at - behind);
        let moved = session::at_action(control, at + 1);
        return Stepped {
            control: moved,
            report: Report::Flush(line),
        };
    }
    Stepped {
        control,
        report: Report::Idle,
    }
}
