// Plan and begin of a commit.
#![tactic(auto)]

ghost use Rattle.std.specs.Prelude.{◌≡◌};
ghost use Rattle.spec.specs.Basics.{pick};
ghost use Rattle.spec.specs.Machine.{Commit};
ghost use Rattle.places.specs.Sizes.{power_of};
ghost use Rattle.committing.specs.Planned.{PlaceFor, CommitPlanned};
ghost use Rattle.session.specs.Promise.{Does, memory_of};

use buffer::Buffer;
use placing::lines::Placed;
use session::{Control, Outcome, Setup};
use spec::{Refusal, Report, Size};

// What a commit finds: where it writes (chunk, its directory word, its committed lines), where the next one looks for
// space, and how many actions it has.
#[derive(Clone, Copy)]
pub struct CommitPlan {
    pub chunk: usize,
    pub old: u64,
    pub lines: usize,
    pub first: usize,
    pub least: usize,
    pub actions: usize,
}

// How many free chunks a commit asks for.
fn free_needed(deletes: bool) -> usize
    ensures { result ≡ pick deletes 2 3 }
{
    if deletes { 2 } else { 3 }
}

// The place for the staged items, looked for from the hint on.
fn commit_place(
    buffer: &Buffer,
    words: usize,
    first: usize,
    least: usize,
    image: &[u8],
    size: Size,
) -> Placed
    ensures { PlaceFor (power_of size) buffer.now words image.now first least result }
{
    let count = places::chunks_in(size, image.len());
    let lines = actions::append::batch_lines(words);
    let deletes = batch::only_deletes(buffer, words);
    let needed = free_needed(deletes);
    placing::lines::log_place(image, count, lines, needed, first, least, size)
}

// 2, 1, 8, 14, 13, or the place. Nothing is changed.
pub fn plan_commit(
    control: Control,
    setup: Setup,
    buffer: &Buffer,
    image: &[u8],
    table: &[u64],
) -> Result<CommitPlan, Refusal>
    ensures { CommitPlanned control setup buffer.now image.now table.now result }
{
    session::gate(control, setup, image.len(), table.len())?;
    if control.items == 0 {
        return Err(Refusal::NothingStaged);
    }
    let size = places::size_by(setup.power);
    let placed = commit_place(buffer, control.words, setup.first, setup.least, image, size);
    match placed.place {
        Some(place) => Ok(CommitPlan {
            chunk: place.chunk,
            old: place.old,
            lines: place.committed,
            first: placed.first,
            least: placed.least,
            actions: actions::append::commit_count(control.words),
        }),
        None => Err(Refusal::NoSpace),
    }
}

// The staged items are to be written where the plan says.
pub fn commit_core(
    control: Control,
    setup: Setup,
    buffer: &Buffer,
    image: &[u8],
    table: &[u64],
) -> Outcome
    ensures { Does Commit (memory_of control setup buffer.now image.now table.now) (memory_of result.control result.setup buffer.now image.now table.now) result.report }
{
    match plan_commit(control, setup, buffer, image, table) {
        Err(refusal) => Outcome {
            control,
            setup,
            report: Report::Refused(refusal),
        },
        // By `session::append_setup` zkv_commit takes twelve instructions more (bench/instructions.sh).
        Ok(plan) => Outcome {
            control: session::in_phase(control, session::COMMIT, 0),
            setup: Setup {
                chunk: plan.chunk,
                old: plan.old,
                lines: plan.lines,
                first: plan.first,
                least: plan.least,
                ..setup
            },
            report: Report::Begun(plan.actions),
        },
    }
}
