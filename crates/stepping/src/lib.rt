// The step: the next action of the call that is begun, with the last of which key table and bits are brought up to
// date, or the call's end. A function for each call.
#![tactic(auto)]

ghost use Rattle.std.specs.Prelude.{◌≡◌, ◌≤◌, ◌/◌, leb, length};
ghost use Rattle.spec.specs.Machine.{Step};
ghost use Rattle.spec.specs.declared.Report.TheVariants.{Fence, End};
ghost use Rattle.session.specs.Numbers.{ended_empty, with_keys};
ghost use Rattle.session.specs.State.{block_actions};
ghost use Rattle.session.specs.Promise.{Does, memory_of};
ghost use Rattle.spec.specs.Words.{words_of};
ghost use Rattle.stepping.specs.Moves.{ChunkLeft, CleanStepped};

use buffer::Buffer;
use session::{Control, Setup, Source, Stepped};
use spec::{Refusal, Report};

// A STEP OF EACH CALL
// A commit's next action; with the last the batch joins the key table. Or its end.
fn commit_step(
    control: Control,
    setup: Setup,
    buffer: &mut Buffer,
    image: &mut [u8],
    table: &mut [u64],
) -> Stepped
    requires { (control.phase ≡ 3) × (setup.image ≡ length image.old) × (setup.table ≡ length table.old) }
    ensures { Does Step (memory_of control setup buffer.old image.old table.old) (memory_of result.control setup buffer.new image.new table.new) result.report }
{
    let at = control.next;
    let count = actions::append::commit_count(control.words);
    if count <= at {
        return ended(control);
    }
    let next = at + 1;
    if next < count {
        let act = actions::append::commit_action(control, setup, buffer, at);
        actions::perform(image, act);
        let moved = session::in_phase(control, session::COMMIT, next);
        return Stepped {
            control: moved,
            report: act,
        };
    }
    let size = places::size_by(setup.power);
    let place = actions::append::batch_start(setup);
    let keys = apply::join::join(
        place,
        control.words,
        control.keys,
        buffer,
        image,
        table,
        size,
    );
    fenced(control, next, keys)
}

// A number behind all actions of a staging.
pub const BEHIND_ALL: usize = 16_384;

// Whether a staging has no action from number `at` on.
pub fn is_stored(setup: Setup, buffer: &Buffer, at: usize) -> bool
    ensures { result ≡ leb (length (block_actions setup buffer.now)) at }
{
    BEHIND_ALL <= at || actions::block::block_count(setup, buffer) <= at
}

// A staging's next action; its end leaves what is staged.
fn stage_step(
    control: Control,
    setup: Setup,
    buffer: &Buffer,
    image: &mut [u8],
    table: &[u64],
) -> Stepped
    requires { (control.phase ≡ 2) × (setup.image ≡ length image.old) × (setup.table ≡ length table.now) }
    ensures { Does Step (memory_of control setup buffer.now image.old table.now) (memory_of result.control setup buffer.now image.new table.now) result.report }
{
    let at = control.next;
    if is_stored(setup, buffer, at) {
        let staged = session::ended(control);
        return Stepped {
            control: staged,
            report: Report::End(0),
        };
    }
    let action = actions::block::block_action(setup, buffer, at);
    actions::perform(image, action);
    let next = at + 1;
    let moved = session::in_phase(control, session::STAGING, next);
    Stepped {
        control: moved,
        report: action,
    }
}

// A formatting's next action. Its end leaves nothing open.
fn format_step(
    control: Control,
    setup: Setup,
    buffer: &Buffer,
    image: &mut [u8],
    table: &[u64],
) -> Stepped
    requires { (4 ≤ control.phase) × (control.phase ≤ 5) × (setup.image ≡ length image.old) × (setup.table ≡ length table.now) }
    ensures { Does Step (memory_of control setup buffer.now image.old table.now) (memory_of result.control setup buffer.now image.new table.now) result.report }
{
    let at = control.next;
    if actions::format::format_count() <= at {
        let closed = session::closed();
        return Stepped {
            control: closed,
            report: Report::End(0),
        };
    }
    let action = actions::format::format_action(setup, at);
    actions::perform(image, action);
    let next = at + 1;
    let moved = session::at_action(control, next);
    Stepped {
        control: moved,
        report: action,
    }
}

// The chunk's entries leave, and the copies take their places: answers the number of known keys.
fn remove_source(
    keys: usize,
    setup: Setup,
    source: Source,
    buffer: &mut Buffer,
    image: &[u8],
    table: &mut [u64],
) -> usize
    ensures { ChunkLeft setup source (words_of image.now) buffer.old buffer.new table.old table.new keys result }
{
    let size = places::size_by(setup.power);
    let from = actions::append::batch_start(setup);
    let until = from + 8 * actions::append::kept_lines(source.words);
    let at = places::first_word(size, source.chunk % 512);
    let end = at + 8 * (source.lines % 2048);
    let count = places::chunks_in(size, setup.image);
    apply::remove::remove_chunk(
        image,
        count,
        buffer,
        table,
        keys,
        at,
        end,
        from,
        until,
        source.words,
        size,
    )
}

// A cleaning's next action; with the last, a fence, the chunk's entries leave key table and bits. Then its end.
fn clean_next(
    control: Control,
    setup: Setup,
    source: Source,
    buffer: &mut Buffer,
    image: &mut [u8],
    table: &mut [u64],
) -> Stepped
    ensures { CleanStepped control result.control setup source buffer.old buffer.new image.old image.new table.old table.new result.report }
{
    let at = control.next;
    let all = actions::clean::clean_count(source.words);
    if all <= at {
        let ended = session::ended_empty(control);
        return Stepped {
            control: ended,
            report: Report::End(source.entries),
        };
    }
    let action = actions::clean::clean_action(setup, source, buffer, at);
    actions::perform(image, action);
    let next = at + 1;
    if next < all {
        let moved = session::in_phase(control, session::CLEANING, next);
        return Stepped {
            control: moved,
            report: action,
        };
    }
    let keys = remove_source(control.keys, setup, source, buffer, image, table);
    let moved = session::with_keys(control, session::CLEANING, next, keys, control.fresh);
    Stepped {
        control: moved,
        report: action,
    }
}

// A cleaning's next action; with the last, a fence, the chunk's entries leave the key table. Its end reports the
// entries copied.
fn clean_step(
    control: Control,
    setup: Setup,
    buffer: &mut Buffer,
    image: &mut [u8],
    table: &mut [u64],
) -> Stepped
    requires { (control.phase ≡ 6) × (setup.image ≡ length image.old) × (setup.table ≡ length table.old) }
    ensures { Does Step (memory_of control setup buffer.old image.old table.old) (memory_of result.control setup buffer.new image.new table.new) result.report }
{
    clean_next(control, setup, setup.source, buffer, image, table)
}

// The end of a commit: nothing is staged.
pub fn ended(control: Control) -> Stepped
    ensures { (result.control ≡ ended_empty control) × (result.report ≡ End 0) }
{
    let ended = session::ended_empty(control);
    Stepped {
        control: ended,
        report: Report::End(0),
    }
}

// The last action of a commit, a fence, with which its batch joined a key table that has so many keys then. (That
// `apply::join::join` is called by the two steps and not here keeps it a call of its own: inside, zkv_run takes 150
// instructions more.)
pub fn fenced(control: Control, next: usize, keys: usize) -> Stepped
    ensures { (result.control ≡ with_keys 3 next keys 0 control) × (result.report ≡ Fence) }
{
    let joined = session::with_keys(control, session::COMMIT, next, keys, 0);
    Stepped {
        control: joined,
        report: Report::Fence,
    }
}

// Idle where nothing is begun, 1 where a lent length is unlike that at the begin; else the call that is begun goes on.
pub fn step_core(
    control: Control,
    setup: Setup,
    buffer: &mut Buffer,
    image: &mut [u8],
    table: &mut [u64],
) -> Stepped
    ensures { Does Step (memory_of control setup buffer.old image.old table.old) (memory_of result.control setup buffer.new image.new table.new) result.report }
{
    let phase = control.phase;
    if phase < session::STAGING || session::CLEANING < phase {
        return Stepped {
            control,
            report: Report::Idle,
        };
    }
    if setup.image != image.len() || setup.table != table.len() {
        return Stepped {
            control,
            report: Report::Refused(Refusal::ImageLength),
        };
    }
    if phase == session::STAGING {
        return stage_step(control, setup, buffer, image, table);
    }
    if phase == session::COMMIT {
        return commit_step(control, setup, buffer, image, table);
    }
    if phase == session::CLEANING {
        return clean_step(control, setup, buffer, image, table);
    }
    format_step(control, setup, buffer, image, table)
}
