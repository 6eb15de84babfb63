// Reports, counts and what is listed of a key in plain numbers, for hosts in C: an exported function neither takes nor
// returns an enum.
#![tactic(auto)]

ghost use Rattle.std.specs.Prelude.{◌≡◌};
ghost use Rattle.answers.specs.Answers.{answer, answer_of, is_given, ShownBy, VersionShown, CountedBy, ListedBy};

use lookup::Listing;
use spec::{Refusal, Report};

// A report in numbers: its kind, 0 to 10 in the order of `Report`, and its values, 0 where it has none.
#[repr(C)]
#[derive(Clone, Copy)]
pub struct Answer {
    pub kind: u64,
    pub first: u64,
    pub second: u64,
}

impl Answer {
    fn new(kind: u64, first: u64, second: u64) -> Answer
        ensures { result ≡ answer kind first second }
    {
        Answer {
            kind,
            first,
            second,
        }
    }
}

// The numbers of a report; a refusal has that of the rules' table. Two different reports have different numbers,
// but for a part's version, for which there is `encode_version` (proofs/Lossless.antt).
impl From<Report> for Answer {
    ghost from_gives = { λ report given. given ≡ answer_of report };

    fn from(report: Report) -> Answer {
        match report {
            Report::Refused(n) => Answer::new(0, session::number(n), 0),
            Report::Begun(actions) => Answer::new(1, actions as u64, 0),
            Report::Store { word, value } => Answer::new(2, word as u64, value),
            Report::Flush(line) => Answer::new(3, line as u64, 0),
            Report::Fence => Answer::new(4, 0, 0),
            Report::End(copied) => Answer::new(5, copied as u64, 0),
            Report::Idle => Answer::new(6, 0, 0),
            Report::Opened => Answer::new(7, 0, 0),
            Report::Abandoned => Answer::new(8, 0, 0),
            Report::Chosen(chunk) => Answer::new(9, chunk as u64, 0),
            Report::Part { start, length, .. } => Answer::new(10, start as u64, length as u64),
        }
    }
}

// The same numbers, taken out of the place where a call left them: those of the fast path then need no place in memory.
// (No plain copy, for speed: that keeps the place.)
pub fn same(a: Answer) -> Answer
    ensures { result ≡ a }
{
    Answer {
        kind: a.kind,
        first: a.first,
        second: a.second,
    }
}

// A host's mark, 0 for a number that is absent.
pub fn is_given(mark: u64) -> bool
    ensures { result ≡ is_given mark }
{
    mark != 0
}

// A look-up's report in numbers: 0 or the refusal's number, and the part's first byte and length, 0 where there is
// none. An absent key has an arm of its own, and neighbouring arms store in another order: so the compiler keeps them
// apart, and a key that is found pays for neither.
pub fn encode_look_up(report: Report, start: &mut u64, length: &mut u64) -> u64
    ensures { ShownBy report result start.new length.new }
{
    match report {
        Report::Refused(n) => match n {
            Refusal::KeyAbsent => {
                *length = 0;
                *start = 0;
                11
            }
            _ => {
                *start = 0;
                *length = 0;
                session::number(n)
            }
        },
        Report::Part {
            start: a,
            length: n,
            version: _,
        } => {
            *length = n as u64;
            *start = a as u64;
            0
        }
        _ => {
            *start = 0;
            *length = 0;
            0
        }
    }
}

// The same, with the value's version, 0 where there is none.
pub fn encode_version(report: Report, start: &mut u64, length: &mut u64, version: &mut u64) -> u64
    ensures { VersionShown report result start.new length.new version.new }
{
    *version = match report {
        Report::Part { version, .. } => version,
        _ => 0,
    };
    encode_look_up(report, start, length)
}

// The numbers of a count: 0, or the refusal's number with a count of 0.
pub fn encode_count(listed: Result<usize, Refusal>, count: &mut u64) -> u64
    ensures { CountedBy listed result count.new }
{
    match listed {
        Ok(keys) => {
            *count = keys as u64;
            0
        }
        Err(n) => {
            *count = 0;
            session::number(n)
        }
    }
}

// The numbers of what is listed of a key.
pub fn encode_listed(
    listed: Result<Listing, Refusal>,
    version: &mut u64,
    length: &mut u64,
    block: &mut u64,
) -> u64
    ensures { ListedBy listed result version.new length.new block.new }
{
    match listed {
        Ok(key) => {
            *version = key.version;
            *length = key.length;
            *block = u64::from(key.block);
            0
        }
        Err(n) => {
            *version = 0;
            *length = 0;
            *block = 0;
            session::number(n)
        }
    }
}
