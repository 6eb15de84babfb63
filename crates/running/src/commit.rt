// The fast path inside a commit: a step, and a run, which makes the stores that come next in short loops, and then
// tells of the action behind them; and a commit's end.
ghost use Rattle.std.specs.Prelude.{◌≡◌, true, false};
ghost use Rattle.spec.specs.Machine.{Step};
ghost use Rattle.running.specs.Run.{StepsOn, RunsOn};
ghost use Rattle.running.specs.Fast.{FastStep, Finishing, OnFastPath, Stores};
ghost use Rattle.session.specs.Numbers.{at_action};
ghost use Rattle.session.specs.Promise.{Does, memory_of};

use buffer::{BATCH_WORDS, Buffer};
use session::{Control, Setup, Stepped};
use spec::Report;

// The number of the next action after a step or a run inside a commit, which alters nothing else of the record, and its
// report.
#[derive(Clone, Copy)]
pub struct Advanced {
    pub next: usize,
    pub report: Report,
}

// Whether the next action is one of a commit's but not its last. Then a step needs neither key table nor bits.
pub fn is_fast_step(control: Control, setup: Setup, bytes: usize, words: usize) -> bool
    ensures { (result ≡ true → FastStep control setup bytes words) × (result ≡ false → FastStep control setup bytes words → ⊥) }
{
    control.phase == session::COMMIT
        && setup.image == bytes
        && setup.table == words
        && control.next < actions::append::commit_count(control.words) - 1
}

// A step inside a commit; elsewhere nothing is done.
pub fn fast_step(
    control: Control,
    setup: Setup,
    buffer: &Buffer,
    image: &mut [u8],
    table: &mut [u64],
) -> Advanced
    ensures { OnFastPath FastStep (Does Step) (memory_of control setup buffer.now image.old table.old) (memory_of (at_action result.next control) setup buffer.now image.new table.new) result.report }
{
    let at = control.next;
    if is_fast_step(control, setup, image.len(), table.len()) {
        let action = actions::append::commit_action(control, setup, buffer, at);
        actions::perform(image, action);
        let next = at + 1;
        return Advanced {
            next,
            report: action,
        };
    }
    Advanced {
        next: at,
        report: Report::Idle,
    }
}

// The batch's stores from the next one on, the staged words and then the zeros that fill their last line: the number of
// the action behind them.
fn store_batch(control: Control, setup: Setup, buffer: &Buffer, image: &mut [u8]) -> usize
    ensures { Stores control setup buffer.now image.old image.new result }
{
    let words = control.words.min(BATCH_WORDS);
    let stores = actions::append::commit_stores(control.words);
    let start = actions::append::batch_start(setup);
    let mut at = control.next;
    while at < words {
        let value = buffer[at];
        words::save(image, start + at, value);
        at += 1;
    }
    while at < stores {
        words::save(image, start + at, 0);
        at += 1;
    }
    at
}

// The stores that come next, in one go, and then the action behind them, whose report is told: a flush or a fence.
// Elsewhere nothing is done.
pub fn fast_run(
    control: Control,
    setup: Setup,
    buffer: &Buffer,
    image: &mut [u8],
    table: &mut [u64],
) -> Advanced
    ensures { OnFastPath FastStep RunsOn (memory_of control setup buffer.now image.old table.old) (memory_of (at_action result.next control) setup buffer.now image.new table.new) result.report }
{
    let at = control.next;
    if is_fast_step(control, setup, image.len(), table.len()) {
        let lines = actions::append::batch_lines(control.words);
        let chunk = setup.chunk % 512;
        let committed = setup.lines % 2048;
        let fence = 9 * lines;
        if at == fence {
            let next = at + 1;
            return Advanced {
                next,
                report: Report::Fence,
            };
        }
        if fence < at {
            let line = (8 + chunk) / 8;
            if at == fence + 1 {
                let value = codec::log_word(setup.old, (committed + lines) as u64);
                words::save(image, 8 + chunk, value);
                let next = at + 2;
                return Advanced {
                    next,
                    report: Report::Flush(line),
                };
            }
            let next = at + 1;
            return Advanced {
                next,
                report: Report::Flush(line),
            };
        }
        let behind = store_batch(control, setup, buffer, image);
        let size = places::size_by(setup.power);
        let line = places::first_line(size, chunk) + committed + (behind - 8 * lines);
        let next = behind + 1;
        return Advanced {
            next,
            report: Report::Flush(line),
        };
    }
    Advanced {
        next: at,
        report: Report::Idle,
    }
}

// Whether a commit has its last action to come, or none.
pub fn is_finishing(control: Control, setup: Setup, bytes: usize, words: usize) -> bool
    ensures { (result ≡ true → Finishing control setup bytes words) × (result ≡ false → Finishing control setup bytes words → ⊥) }
{
    control.phase == session::COMMIT
        && setup.image == bytes
        && setup.table == words
        && actions::append::commit_count(control.words) - 1 <= control.next
}

// The last action of a commit, a fence, with which the batch joins the key table; then the end. Elsewhere nothing is
// done.
pub fn finish_step(
    control: Control,
    setup: Setup,
    buffer: &mut Buffer,
    image: &mut [u8],
    table: &mut [u64],
) -> Stepped
    ensures { OnFastPath Finishing StepsOn (memory_of control setup buffer.old image.old table.old) (memory_of result.control setup buffer.new image.new table.new) result.report }
{
    if is_finishing(control, setup, image.len(), table.len()) {
        if actions::append::commit_count(control.words) <= control.next {
            return stepping::ended(control);
        }
        let size = places::size_by(setup.power);
        let place = actions::append::batch_start(setup);
        let keys = apply::join::join(
            place,
            control.words,
            control.keys,
            buffer,
            image,
            table,
            size,
        );
        return stepping::fenced(control, control.next + 1, keys);
    }
    Stepped {
        control,
        report: Report::Idle,
    }
}
