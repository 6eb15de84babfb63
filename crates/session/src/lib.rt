// The station record: its types, its constructors, the state of the machine that it stands for, what record and key
// table hold of the image, and the promise that every call makes of them.
#![tactic(auto)]

ghost use Rattle.std.specs.Prelude.{◌≡◌, ◌<◌, eqb};
ghost use Rattle.session.specs.State.{no_source};
ghost use Rattle.session.specs.Numbers.{closed, opened, at_action, in_phase, with_keys, ended, ended_empty, staged_more, formatting_in, empty_setup, opened_setup, format_setup, block_setup, append_setup};
ghost use Rattle.spec.specs.Reports.{number};
ghost use Rattle.session.specs.Asks.{phase_of, read_at, closed_or, same_lengths, Asking, ReadAsking};

use buffer::Buffer;
use spec::{Refusal, Report, Size};

// THE PHASE: what is begun.
#[derive(Clone, Copy, PartialEq, Eq, Debug)]
pub enum Phase {
    Closed,
    Rest,
    Staging,
    Commit,
    Format,
    Reformat,
    Cleaning,
}

// The phases as the record's number says them.
pub const CLOSED: u64 = 0;

pub const REST: u64 = 1;

pub const STAGING: u64 = 2;

pub const COMMIT: u64 = 3;

pub const FORMAT: u64 = 4;

pub const REFORMAT: u64 = 5;

pub const CLEANING: u64 = 6;

// The phase that a number stands for: a number past them all is read as 0.
impl From<u64> for Phase {
    ghost from_gives = { λ number phase. phase ≡ phase_of number };

    fn from(number: u64) -> Phase {
        match number {
            REST => Phase::Rest,
            STAGING => Phase::Staging,
            COMMIT => Phase::Commit,
            FORMAT => Phase::Format,
            REFORMAT => Phase::Reformat,
            CLEANING => Phase::Cleaning,
            _ => Phase::Closed,
        }
    }
}

// The numbers that change from call to call: what is begun (0 nothing open, 1 open and at rest, 2 a staging, 3 a
// commit, 4 a formatting begun with nothing open, 5 one begun on an open register, 6 a cleaning), the number of its
// next action, the staged items, their words, the known keys, and the staged keys that are not known.
#[repr(C)]
#[derive(Clone, Copy, PartialEq, Eq, Debug)]
pub struct Control {
    pub phase: u64,
    pub next: usize,
    pub items: usize,
    pub words: usize,
    pub keys: usize,
    pub fresh: usize,
}

// What a cleaning has begun with: the chunk that it frees, that chunk's directory word and committed lines before, the
// words that it keeps (in the buffer's second area), and how many entries these are.
#[repr(C)]
#[derive(Clone, Copy, PartialEq, Eq, Debug)]
pub struct Source {
    pub chunk: usize,
    pub old: u64,
    pub lines: usize,
    pub words: usize,
    pub entries: usize,
}

// The numbers that a step only reads: the image's bytes and the table's words at the opening (at a formatting's begin,
// once that is begun), the power of two of the chunks' bytes (12 or 16; any number but 16 is read as 12), where the
// begun call writes (chunk, its directory word, its committed lines), where the next commit looks for space (`first`
// and `least`, the hint), what a formatting was told (the header's map of fields, station and centre number), and what
// a cleaning has begun with. Below chunk `first % 512` no log chunk has space for
// `least` lines; where `first` is 512 or more, none behind it has either, and no chunk below it is free. In the staging
// of a large value `lines` is the block's first unit in its chunk, and `fields` the block size that a free chunk is
// taken for, 0 where the chunk has it already.
#[repr(C)]
#[derive(Clone, Copy, PartialEq, Eq, Debug)]
pub struct Setup {
    pub image: usize,
    pub table: usize,
    pub power: u64,
    pub chunk: usize,
    pub old: u64,
    pub lines: usize,
    pub first: usize,
    pub least: usize,
    pub fields: u64,
    pub station: u64,
    pub centre: u64,
    pub source: Source,
}

// The station record: 64-bit numbers alone, in this order, so that a host in C may lend any memory of its size. What
// its buffer holds, area by area, stands at the head of `buffer.Areas`.
#[repr(C)]
#[derive(Clone, Copy)]
pub struct Session {
    pub control: Control,
    pub setup: Setup,
    pub buffer: Buffer,
}

// No cleaning begun.
pub fn no_source() -> Source
    ensures { result ≡ no_source }
{
    Source {
        chunk: 0,
        old: 0,
        lines: 0,
        words: 0,
        entries: 0,
    }
}

// THE NUMBERS that a call leaves, each way once. Nothing is open.
pub fn closed() -> Control
    ensures { result ≡ closed }
{
    Control {
        phase: CLOSED,
        next: 0,
        items: 0,
        words: 0,
        keys: 0,
        fresh: 0,
    }
}

// Open and at rest with so many known keys, nothing staged.
pub fn opened(keys: usize) -> Control
    ensures { result ≡ opened keys }
{
    Control {
        phase: REST,
        keys,
        ..closed()
    }
}

// The begun call is before its action of this number.
pub fn at_action(control: Control, next: usize) -> Control
    ensures { result ≡ at_action next control }
{
    Control { next, ..control }
}

// A formatting is begun.
pub fn formatting(phase: u64) -> Control
    ensures { result ≡ formatting_in phase }
{
    Control { phase, ..closed() }
}

// A call of this phase is before its action of this number.
pub fn in_phase(control: Control, phase: u64, next: usize) -> Control
    ensures { result ≡ in_phase phase next control }
{
    Control {
        phase,
        next,
        ..control
    }
}

// The same, with the known keys and the staged ones that are not known counted anew.
pub fn with_keys(control: Control, phase: u64, next: usize, keys: usize, fresh: usize) -> Control
    ensures { result ≡ with_keys phase next keys fresh control }
{
    Control {
        phase,
        next,
        keys,
        fresh,
        ..control
    }
}

// At rest, with what is staged.
pub fn ended(control: Control) -> Control
    ensures { result ≡ ended control }
{
    in_phase(control, REST, 0)
}

// At rest, with nothing staged.
pub fn ended_empty(control: Control) -> Control
    ensures { result ≡ ended_empty control }
{
    opened(control.keys)
}

// A staging of one more item is begun, before its action of this number: so many words are staged then, and so many
// staged keys are not known.
pub fn one_more(control: Control, next: usize, words: usize, fresh: usize) -> Control
    requires { control.items < 16 }
    ensures { result ≡ staged_more next words fresh control }
{
    Control {
        phase: STAGING,
        next,
        items: control.items + 1,
        words,
        fresh,
        ..control
    }
}

// WHAT A STEP ONLY READS. Nothing at all.
pub fn empty_setup() -> Setup
    ensures { result ≡ empty_setup }
{
    Setup {
        image: 0,
        table: 0,
        power: 0,
        chunk: 0,
        old: 0,
        lines: 0,
        first: 0,
        least: 0,
        fields: 0,
        station: 0,
        centre: 0,
        source: no_source(),
    }
}

// A register opened with these lengths and chunks of this size: the next commit looks for space from the first chunk
// on.
pub fn opened_setup(image: usize, table: usize, size: Size) -> Setup
    ensures { result ≡ opened_setup image table size }
{
    Setup {
        image,
        table,
        power: places::power_of(size),
        first: 1,
        least: places::lines(size),
        ..empty_setup()
    }
}

// A formatting begun on an image and a table of these lengths, with what it was told.
pub fn format_setup(
    image: usize,
    table: usize,
    size: Size,
    fields: u64,
    station: u64,
    centre: u64,
) -> Setup
    ensures { result ≡ format_setup image table size fields station centre }
{
    Setup {
        image,
        table,
        power: places::power_of(size),
        fields,
        station,
        centre,
        ..empty_setup()
    }
}

// A staging begun whose block is written to a chunk: at which of its units, and for blocks of which size it is taken.
pub fn block_setup(setup: Setup, chunk: usize, old: u64, lines: usize, fields: u64) -> Setup
    ensures { result ≡ block_setup setup chunk old lines fields }
{
    Setup {
        chunk,
        old,
        lines,
        fields,
        ..setup
    }
}

// A commit or a cleaning begun that writes behind the committed lines of a chunk with this directory word; the next one
// looks for space from `first` on, for `least` lines; what is cleaned.
pub fn append_setup(
    setup: Setup,
    chunk: usize,
    old: u64,
    lines: usize,
    first: usize,
    least: usize,
    source: Source,
) -> Setup
    ensures { result ≡ append_setup setup chunk old lines first least source }
{
    Setup {
        chunk,
        old,
        lines,
        first,
        least,
        source,
        ..setup
    }
}

// The record's small parts after a call, and its report.
#[derive(Clone, Copy)]
pub struct Outcome {
    pub control: Control,
    pub setup: Setup,
    pub report: Report,
}

// The record's control after a staging, and its report: the rest of its small parts stays.
#[derive(Clone, Copy)]
pub struct Stepped {
    pub control: Control,
    pub report: Report,
}

// THE GATES
// 2 for a phase with nothing open, and else another refusal.
fn closed_or(number: u64, refusal: Refusal) -> Refusal
    ensures { result ≡ closed_or number refusal }
{
    match Phase::from(number) {
        Phase::Closed | Phase::Format => Refusal::NotOpen,
        _ => refusal,
    }
}

// Whether a number stands for the phase at rest.
fn is_at_rest(number: u64) -> bool
    ensures { result ≡ eqb number 1 }
{
    matches!(Phase::from(number), Phase::Rest)
}

// Whether the lent lengths are those at the opening.
fn has_lengths(setup: Setup, bytes: usize, words: usize) -> bool
    ensures { result ≡ same_lengths setup bytes words }
{
    setup.image == bytes && setup.table == words
}

// 2, 1, 8: nothing open, lengths unlike those at the opening, a call unfinished. An open register at rest is found by
// three comparisons.
pub fn gate(control: Control, setup: Setup, bytes: usize, words: usize) -> Result<(), Refusal>
    ensures { Asking control setup bytes words result }
{
    if !has_lengths(setup, bytes, words) {
        return Err(closed_or(control.phase, Refusal::ImageLength));
    }
    if is_at_rest(control.phase) {
        return Ok(());
    }
    Err(closed_or(control.phase, Refusal::Unfinished))
}

// The phases in which look-up answers: at rest, in a staging, a commit and a cleaning. (By `matches!` the compiler
// makes one test of these phases and the one at rest, and a look-up is slower.)
const READ_PHASES: [bool; 7] = [false, true, true, true, false, false, true];

fn is_read(number: u64) -> bool
    ensures { result ≡ read_at number }
{
    number < 7 && READ_PHASES[number as usize]
}

// LOOK-UP'S GATE: the same, but that look-up answers in an unfinished call, too, unless that is a formatting. An open
// register at rest is found by three comparisons: it is asked apart.
pub fn read_gate(control: Control, setup: Setup, bytes: usize, words: usize) -> Result<(), Refusal>
    ensures { ReadAsking control setup bytes words result }
{
    if !has_lengths(setup, bytes, words) {
        return Err(closed_or(control.phase, Refusal::ImageLength));
    }
    if is_at_rest(control.phase) || is_read(control.phase) {
        return Ok(());
    }
    Err(closed_or(control.phase, Refusal::Unfinished))
}

// A refusal's number in the rules' table.
pub fn number(refusal: Refusal) -> u64
    ensures { result ≡ number refusal }
{
    match refusal {
        Refusal::ImageLength => 1,
        Refusal::NotOpen => 2,
        Refusal::DirectoryWrong => 3,
        Refusal::EntryWrong => 4,
        Refusal::BlockWrong => 5,
        Refusal::TopsDisagree => 6,
        Refusal::TableFull => 7,
        Refusal::Unfinished => 8,
        Refusal::TooLong => 9,
        Refusal::BatchFull => 10,
        Refusal::KeyAbsent => 11,
        Refusal::VersionSpent => 12,
        Refusal::NoSpace => 13,
        Refusal::NothingStaged => 14,
        Refusal::BatchStaged => 15,
        Refusal::NotCleanable => 16,
        Refusal::OtherVersion => 17,
    }
}
