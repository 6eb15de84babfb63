// Several steps in one call: those that store a word, as many as come next, and the one behind them. A commit (module
// `commit`), a staging (`stage`) and a cleaning have short loops of their own.
#![tactic(auto)]

ghost use Rattle.std.specs.Prelude.{◌≡◌, true, false};
ghost use Rattle.running.specs.Run.{is_store, RunsOn};
ghost use Rattle.running.specs.Copying.{Copying, CleaningRun, KeptStores};
ghost use Rattle.session.specs.Promise.{memory_of};

pub mod commit;
pub mod stage;

use crate::commit::Advanced;
use buffer::{Buffer, SECOND_WORDS};
use session::{Control, Setup, Stepped};
use spec::Report;

fn is_store(report: Report) -> bool
    ensures { result ≡ is_store report }
{
    matches!(report, Report::Store { .. })
}

// Whether the next action is one of a cleaning's but not its last. Then a step needs neither key table nor bits.
pub fn is_copying(control: Control, setup: Setup, bytes: usize, words: usize) -> bool
    ensures { (result ≡ true → Copying control setup bytes words) × (result ≡ false → Copying control setup bytes words → ⊥) }
{
    let source = setup.source;
    control.phase == session::CLEANING
        && setup.image == bytes
        && setup.table == words
        && control.next < actions::clean::clean_count(source.words) - 1
}

// The stores that come next, and the action behind them, whose report is told. The action before the last is a flush,
// so the loop is left from inside.
fn run_cleaning(control: Control, setup: Setup, buffer: &Buffer, image: &mut [u8]) -> Advanced
    ensures { CleaningRun control setup buffer.now image.old image.new result.next result.report }
{
    let source = setup.source;
    let last = actions::clean::clean_count(source.words) - 1;
    let mut at = control.next;
    while at < last {
        let action = actions::clean::clean_action(setup, source, buffer, at);
        actions::perform(image, action);
        at += 1;
        if !is_store(action) {
            return Advanced {
                next: at,
                report: action,
            };
        }
    }
    Advanced {
        next: at,
        report: Report::Idle,
    }
}

// The kept words that are still to be stored, in a short loop: the number of the action behind them.
fn store_kept(control: Control, setup: Setup, buffer: &Buffer, image: &mut [u8]) -> usize
    ensures { KeptStores control setup buffer.now image.old image.new result }
{
    let source = setup.source;
    let kept = source.words.min(SECOND_WORDS);
    let at = control.next;
    if kept <= at {
        return at;
    }
    let start = actions::append::batch_start(setup);
    stage::store_area(buffer, image, start, at, kept);
    kept
}

// The same run, with the kept words stored first.
fn run_copying(control: Control, setup: Setup, buffer: &Buffer, image: &mut [u8]) -> Advanced
    ensures { CleaningRun control setup buffer.now image.old image.new result.next result.report }
{
    let at = store_kept(control, setup, buffer, image);
    let stored = session::at_action(control, at);
    run_cleaning(stored, setup, buffer, image)
}

// Steps up to one that stores nothing, whatever is begun.
fn run_steps(
    control: Control,
    setup: Setup,
    buffer: &mut Buffer,
    image: &mut [u8],
    table: &mut [u64],
) -> Stepped
    ensures { RunsOn (memory_of control setup buffer.old image.old table.old) (memory_of result.control setup buffer.new image.new table.new) result.report }
{
    let mut so_far = control;
    loop {
        let step = stepping::step_core(so_far, setup, buffer, image, table);
        let report = step.report;
        so_far = step.control;
        if !is_store(report) {
            return Stepped {
                control: so_far,
                report,
            };
        }
    }
}

// The stores that come next, and the step behind them.
pub fn run_core(
    control: Control,
    setup: Setup,
    buffer: &mut Buffer,
    image: &mut [u8],
    table: &mut [u64],
) -> Stepped
    ensures { RunsOn (memory_of control setup buffer.old image.old table.old) (memory_of result.control setup buffer.new image.new table.new) result.report }
{
    if is_copying(control, setup, image.len(), table.len()) {
        let run = run_copying(control, setup, buffer, image);
        let report = run.report;
        let moved = session::at_action(control, run.next);
        return Stepped {
            control: moved,
            report,
        };
    }
    run_steps(control, setup, buffer, image, table)
}
