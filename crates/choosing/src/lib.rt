// Choosing the chunk to clean: of log chunks whose kept entries fill fewer lines than are committed, the one with the
// fewest bytes to copy; of equals the one with the most committed lines, and of those the highest number. Nothing is
// changed.
#![tactic(auto)]

ghost use Rattle.std.specs.Prelude.{◌≡◌};
ghost use Rattle.spec.specs.Words.{words_of};
ghost use Rattle.spec.specs.Actions.{lines_for};
ghost use Rattle.choosing.specs.Choices.{Weighed, Counted, Worth, Compared, Bettered, BetteredAt, Chooses, Choosing};

use buffer::Buffer;
use directory::lines_of;
use session::{Control, Setup};
use spec::{Refusal, Report, Size};

// What choosing knows of a chunk: its committed lines, 0 unless it is a log chunk, and the words that a cleaning
// copies.
#[derive(Clone, Copy)]
pub struct Candidate {
    pub chunk: usize,
    pub lines: usize,
    pub words: usize,
}

// ONE CHUNK
// Its entries are read once; a chunk that is no log chunk has none.
fn candidate_at(image: &[u8], table: &[u64], chunk: usize, size: Size) -> Candidate
    ensures { Weighed size (words_of image.now) table.now chunk result }
{
    let lines = lines_of(image, chunk, size);
    let at = places::first_word(size, chunk % 512);
    let end = at + 8 * lines;
    let tally = gathering::measure::kept_size(image, table, at, end, size);
    Candidate {
        chunk,
        lines,
        words: tally.words,
    }
}

// The same, where the words are known.
fn counted_at(image: &[u8], chunk: usize, words: usize, size: Size) -> Candidate
    ensures { Counted size (words_of image.now) chunk words result }
{
    let lines = lines_of(image, chunk, size);
    Candidate {
        chunk,
        lines,
        words,
    }
}

// The lines that so many words fill.
fn lines_for(words: usize) -> usize
    ensures { result ≡ lines_for words }
{
    words / 8 + (words % 8 + 7) / 8
}

// Whether cleaning the chunk gives back a line at least.
fn is_worth(c: Candidate) -> bool
    ensures { Worth c result }
{
    lines_for(c.words) < c.lines
}

// THE COMPARISON
// Whether chunk c, which comes later, is taken before chunk d.
fn is_better(c: Candidate, d: Candidate) -> bool
    ensures { Compared c d result }
{
    c.words < d.words || c.words == d.words && d.lines <= c.lines
}

// The better of the best so far, if there is one, and the next chunk.
fn better_of(best: Option<Candidate>, next: Candidate) -> Option<Candidate>
    ensures { Bettered best next result }
{
    if !is_worth(next) {
        return best;
    }
    match best {
        Some(b) if !is_better(next, b) => best,
        _ => Some(next),
    }
}

// The better of the best so far and the next chunk, by its sum: the words of its chosen puts, which a cleaning copies
// at least. Where they are more than the best one's, the chunk is no better; where it has no chosen delete, a cleaning
// copies no more; else its entries are read.
fn better_at(
    best: Option<Candidate>,
    image: &[u8],
    table: &[u64],
    buffer: &Buffer,
    chunk: usize,
    size: Size,
) -> Option<Candidate>
    ensures { BetteredAt size (words_of image.now) table.now buffer.now best chunk result }
{
    let sum = volatile::chunk_sums::sum_at(buffer, chunk);
    let least = (sum % 0x1_0000_0000) as usize;
    if let Some(b) = best {
        if b.words < least {
            return best;
        }
    }
    let next = if sum < 0x1_0000_0000 {
        counted_at(image, chunk, least, size)
    } else {
        candidate_at(image, table, chunk, size)
    };
    better_of(best, next)
}

// ALL CHUNKS, of an image of `count`
pub fn choose(
    image: &[u8],
    table: &[u64],
    buffer: &Buffer,
    count: usize,
    size: Size,
) -> Option<usize>
    ensures { Chooses size (words_of image.now) table.now buffer.now count result }
{
    let mut best = None;
    for c in 1..count {
        best = better_at(best, image, table, buffer, c, size);
    }
    Some(best?.chunk)
}

// THE CALL: 2, 1, 8, then 16 where none is found. The buffer is a copy, since the record is lent to be read alone.
pub fn choose_core(
    control: Control,
    setup: Setup,
    buffer: Buffer,
    image: &[u8],
    table: &[u64],
) -> Report
    ensures { Choosing control setup buffer image.now table.now result }
{
    if let Err(refusal) = session::gate(control, setup, image.len(), table.len()) {
        return Report::Refused(refusal);
    }
    let size = places::size_by(setup.power);
    let count = places::chunks_in(size, image.len());
    match choose(image, table, &buffer, count, size) {
        Some(c) => Report::Chosen(c),
        None => Report::Refused(Refusal::NotCleanable),
    }
}
