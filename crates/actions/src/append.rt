// Words written behind the committed lines of a log chunk, action by action, made from the record without reading the
// image: a commit's batch, and what a cleaning keeps.
ghost use Rattle.std.specs.Prelude.{◌≡◌, ◌+◌, ◌*◌, ◌^◌, ◌<◌, ◌≤◌, min, get_or};
ghost use Rattle.spec.specs.Actions.{lines_for, padded};
ghost use Rattle.spec.specs.Places.{base};
ghost use Rattle.buffer.specs.Areas.{batch_room, second_room};
ghost use Rattle.session.specs.State.{power_in, buffer_part, chunk_in, lines_in, append_actions, commit_actions};
ghost use Rattle.actions.specs.Nth.{nth_report, commit_count};
ghost use Rattle.actions.specs.Record.{copy_count};

use crate::word_action;
use buffer::{BATCH, BATCH_WORDS, Buffer, SECOND_WORDS};
use places::{first_line, first_word, size_by};
use session::{Control, Setup};
use spec::Report;

// WORDS BEHIND THE COMMITTED LINES of a chunk
// How many lines so many staged words take, and so many kept by a cleaning: more than there is room for are read as
// that many.
pub fn batch_lines(words: usize) -> usize
    ensures { result ≡ lines_for (min words batch_room) }
{
    (words.min(BATCH_WORDS) + 7) / 8
}

pub fn kept_lines(words: usize) -> usize
    ensures { result ≡ lines_for (min words second_room) }
{
    (words.min(SECOND_WORDS) + 7) / 8
}

// Word i of so many words of the buffer from word `from` on, padded to whole lines: 0 behind them.
fn append_word(buffer: &Buffer, from: usize, words: usize, i: usize) -> u64
    requires { (from ≤ batch_room) × (words ≤ second_room) }
    ensures { result ≡ get_or (padded (buffer_part buffer.now from words)) i 0 }
{
    if i < words { buffer[from + i] } else { 0 }
}

// The action number `at` of those that put so many words of the buffer, from word `from` on, behind the committed lines
// of the record's chunk: the words, their lines, a fence; the directory word, its line, a fence.
pub fn append_action(setup: Setup, buffer: &Buffer, from: usize, words: usize, at: usize) -> Report
    requires { (from ≤ batch_room) × (words ≤ second_room) }
    ensures { result ≡ nth_report (append_actions setup (buffer_part buffer.now from words)) at }
{
    let size = size_by(setup.power);
    let lines = (words + 7) / 8;
    let chunk = setup.chunk % 512;
    let committed = setup.lines % 2048;
    let stores = 8 * lines;
    let fence = 9 * lines;
    let seal = fence + 1;
    if at < stores {
        Report::Store {
            word: first_word(size, chunk) + 8 * committed + at,
            value: append_word(buffer, from, words, at),
        }
    } else if at < fence {
        Report::Flush(first_line(size, chunk) + committed + (at - stores))
    } else if at < seal {
        Report::Fence
    } else {
        let value = codec::log_word(setup.old, (committed + lines) as u64);
        word_action(8 + chunk, value, at - seal)
    }
}

// COMMIT
// How many actions a commit of so many words has.
pub fn commit_count(words: usize) -> usize
    ensures { result ≡ commit_count words }
{
    9 * batch_lines(words) + 4
}

// How many of these store a word of the batch: they come first.
pub fn commit_stores(words: usize) -> usize
    ensures { result ≡ 8 * lines_for (min words batch_room) }
{
    8 * batch_lines(words)
}

// The word of the image where the batch begins.
pub fn batch_start(setup: Setup) -> usize
    ensures { (result ≡ base (power_in setup) (chunk_in setup) + 8 * lines_in setup) × (result < 2 ^ 32) }
{
    let size = size_by(setup.power);
    first_word(size, setup.chunk % 512) + 8 * (setup.lines % 2048)
}

// The action number `at` of a commit.
pub fn commit_action(control: Control, setup: Setup, buffer: &Buffer, at: usize) -> Report
    ensures { result ≡ nth_report (commit_actions control setup buffer.now) at }
{
    append_action(setup, buffer, BATCH, control.words.min(BATCH_WORDS), at)
}

// How many actions copy so many kept words: none where there are none.
pub fn copy_count(words: usize) -> usize
    ensures { result ≡ copy_count words }
{
    if words == 0 {
        0
    } else {
        9 * kept_lines(words) + 4
    }
}
