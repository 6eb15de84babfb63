// Plan and begin of a cleaning. The plan changes neither record, image nor key table: it is a refusal, or the words
// that are kept, the place of their copies and how many actions there are. The begin stores these words in the record.
#![tactic(auto)]

ghost use Rattle.std.specs.Prelude.{◌≡◌, ◌%◌, ◌≤◌, length};
ghost use Rattle.spec.specs.Words.{words_of};
ghost use Rattle.spec.specs.Places.{chunk_words, chunk_units, first_unit};
ghost use Rattle.places.specs.Sizes.{power_of};
ghost use Rattle.buffer.specs.Areas.{second_room};
ghost use Rattle.session.specs.State.{power_in};
ghost use Rattle.spec.specs.Plans.{log_place};
ghost use Rattle.placing.specs.Found.{place_of};
ghost use Rattle.cleaning.specs.Plans.{any_bit, LogPlanned, DataPlanned, CleanPlanned};
ghost use Rattle.spec.specs.Machine.{Clean};
ghost use Rattle.cleaning.specs.Outsets.{KeptStored, Outsets};
ghost use Rattle.session.specs.Promise.{Does, memory_of};

use buffer::Buffer;
use codec::Unit;
use directory::{directory_word, lines_of};
use placing::lines::Place;
use session::{Control, Outcome, Setup, Source};
use spec::{Refusal, Report, Size};

// A cleaning's begin: where its copies go (chunk, its directory word, its committed lines), where the next commit looks
// for space, what the record is to hold of the cleaned chunk, and the number of actions.
#[derive(Clone, Copy)]
pub struct CleanPlan {
    pub chunk: usize,
    pub old: u64,
    pub lines: usize,
    pub first: usize,
    pub source: Source,
    pub actions: usize,
}

// WHERE THE COPIES GO
// The place for so many lines of copies: the first log chunk other than x with space, else the first free chunk.
fn copy_place(image: &[u8], count: usize, lines: usize, x: usize, size: Size) -> Option<Place>
    ensures { result ≡ place_of (power_of size) (words_of image.now) (log_place (power_of size) count (words_of image.now) lines x 1) }
{
    if let Some(c) = placing::lines::next_chunk(image, 1, count, lines, x, size) {
        return Some(placing::lines::place_at(image, c, size));
    }
    let c = directory::free_chunk(image, count, 1, size)?;
    Some(placing::lines::place_at(image, c, size))
}

// Whether a block of the chunk is in use.
fn has_live(buffer: &Buffer, chunk: usize, size: Size) -> bool
    ensures { result ≡ any_bit size buffer.now (first_unit (power_of size) (chunk % 512)) (chunk_units (power_of size)) }
{
    let units = places::units(size);
    for i in 0..units {
        if buffer::has_bit(buffer, Unit::of(size, chunk % 512, i), size) {
            return true;
        }
    }
    false
}

// THE PLAN of a log chunk: its kept entries are gathered, and a place is looked for if there are any.
fn plan_log(
    image: &[u8],
    table: &[u64],
    kept: &mut [u64],
    count: usize,
    chunk: usize,
    first: usize,
    size: Size,
) -> Result<CleanPlan, Refusal>
    requires { length kept.old ≡ chunk_words (power_of size) }
    ensures { LogPlanned size (words_of image.now) table.now kept.new count chunk first result }
{
    let old = directory_word(image, chunk);
    let lines = lines_of(image, chunk, size);
    let at = places::first_word(size, chunk % 512);
    let end = at + 8 * lines;
    let tally = gathering::gather(image, table, kept, at, end, size);
    let words = tally.words;
    let source = Source {
        chunk,
        old,
        lines,
        words,
        entries: tally.entries,
    };
    if words == 0 {
        return Ok(CleanPlan {
            chunk: 0,
            old: 0,
            lines: 0,
            first,
            source,
            actions: 3,
        });
    }
    let Some(place) = copy_place(image, count, (words + 7) / 8, chunk, size) else {
        return Err(Refusal::NoSpace);
    };
    Ok(CleanPlan {
        chunk: place.chunk,
        old: place.old,
        lines: place.committed,
        first: first.min(place.chunk),
        source,
        actions: actions::clean::clean_count(words),
    })
}

// The plan of a chunk that is no log chunk: it is only freed.
fn plan_data(
    buffer: &Buffer,
    image: &[u8],
    chunk: usize,
    first: usize,
    size: Size,
) -> Result<CleanPlan, Refusal>
    ensures { DataPlanned size (words_of image.now) buffer.now chunk first result }
{
    if has_live(buffer, chunk, size) {
        return Err(Refusal::NotCleanable);
    }
    let source = Source {
        chunk,
        old: directory_word(image, chunk),
        lines: lines_of(image, chunk, size),
        words: 0,
        entries: 0,
    };
    Ok(CleanPlan {
        chunk: 0,
        old: 0,
        lines: 0,
        first,
        source,
        actions: 3,
    })
}

// 15, 16, 13, or what the cleaning begins with: the words that it keeps go to `kept`, and to no other memory.
pub fn plan_clean(
    control: Control,
    setup: Setup,
    buffer: &Buffer,
    image: &[u8],
    table: &[u64],
    kept: &mut [u64],
    chunk: usize,
) -> Result<CleanPlan, Refusal>
    requires { length kept.old ≡ chunk_words (power_in setup) }
    ensures { CleanPlanned control setup buffer.now image.now table.now kept.new chunk result }
{
    if control.items != 0 {
        return Err(Refusal::BatchStaged);
    }
    let size = places::size_by(setup.power);
    let count = places::chunks_in(size, image.len());
    if chunk == 0 || count <= chunk {
        return Err(Refusal::NotCleanable);
    }
    if directory::is_free(image, chunk, size) {
        return Err(Refusal::NotCleanable);
    }
    let first = setup.first % 512;
    if lines_of(image, chunk, size) == 0 {
        return plan_data(buffer, image, chunk, first, size);
    }
    plan_log(image, table, kept, count, chunk, first, size)
}

// The kept words go to the buffer's second area, if there are any.
fn store_kept(source: Source, buffer: &mut Buffer, kept: &[u64])
    requires { length kept.now ≤ second_room }
    ensures { KeptStored source kept.now buffer.old buffer.new }
{
    buffer::buffer_length(buffer);
    let words = source.words;
    if words == 0 {
        return;
    }
    let n = words.min(kept.len());
    gathering::store_kept(buffer, kept, n);
}

// Behind the gate: 15, 16, 13, or begun. What is kept goes through words of the caller's.
fn begin_with(
    control: Control,
    setup: Setup,
    buffer: &mut Buffer,
    image: &[u8],
    table: &[u64],
    kept: &mut [u64],
    number: usize,
) -> Outcome
    requires { length kept.old ≡ chunk_words (power_in setup) }
    ensures { Outsets control result.control setup result.setup buffer.old buffer.new image.now table.now number result.report }
{
    let plan = match plan_clean(control, setup, buffer, image, table, kept, number) {
        Ok(plan) => plan,
        Err(refusal) => {
            return Outcome {
                control,
                setup,
                report: Report::Refused(refusal),
            };
        }
    };
    store_kept(plan.source, buffer, kept);
    let begun = session::in_phase(control, session::CLEANING, 0);
    let target = session::append_setup(
        setup,
        plan.chunk,
        plan.old,
        plan.lines,
        plan.first,
        setup.least,
        plan.source,
    );
    Outcome {
        control: begun,
        setup: target,
        report: Report::Begun(plan.actions),
    }
}

// The same with as many words as a chunk has.
fn begin_in<const WORDS: usize>(
    control: Control,
    setup: Setup,
    buffer: &mut Buffer,
    image: &[u8],
    table: &[u64],
    number: usize,
) -> Outcome
    requires { WORDS ≡ chunk_words (power_in setup) }
    ensures { Outsets control result.control setup result.setup buffer.old buffer.new image.now table.now number result.report }
{
    let mut kept = [0; WORDS];
    begin_with(control, setup, buffer, image, table, &mut kept, number)
}

fn begin_clean(
    control: Control,
    setup: Setup,
    buffer: &mut Buffer,
    image: &[u8],
    table: &[u64],
    number: usize,
) -> Outcome
    ensures { Outsets control result.control setup result.setup buffer.old buffer.new image.now table.now number result.report }
{
    match places::size_by(setup.power) {
        Size::Small => begin_in::<512>(control, setup, buffer, image, table, number),
        Size::Large => begin_in::<8192>(control, setup, buffer, image, table, number),
    }
}

// 2, 1, 8, 15, 16, 13, or begun: what is kept of the chunk is gathered now, and the chunk is to be freed.
pub fn clean_core(
    control: Control,
    setup: Setup,
    buffer: &mut Buffer,
    image: &[u8],
    table: &[u64],
    number: usize,
) -> Outcome
    ensures { Does (Clean number) (memory_of control setup buffer.old image.now table.now) (memory_of result.control result.setup buffer.new image.now table.now) result.report }
{
    if let Err(refusal) = session::gate(control, setup, image.len(), table.len()) {
        return Outcome {
            control,
            setup,
            report: Report::Refused(refusal),
        };
    }
    begin_clean(control, setup, buffer, image, table, number)
}
