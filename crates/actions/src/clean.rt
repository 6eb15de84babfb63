// A cleaning's actions one by one, made from the record without reading the image: the copying's, then the freeing's.
ghost use Rattle.std.specs.Prelude.{◌≡◌};
ghost use Rattle.spec.specs.Actions.{free_of};
ghost use Rattle.actions.specs.Nth.{nth_report};
ghost use Rattle.session.specs.State.{source_in, clean_actions};
ghost use Rattle.actions.specs.Record.{clean_count};

use crate::append::{append_action, copy_count};
use crate::word_action;
use buffer::{Buffer, SECOND, SECOND_WORDS};
use session::{Setup, Source};
use spec::Report;

// How many actions a cleaning has that keeps so many words.
pub fn clean_count(words: usize) -> usize
    ensures { result ≡ clean_count words }
{
    copy_count(words) + 3
}

// The action number `at` of the freeing: the directory word, its line, a fence.
fn free_action(source: Source, at: usize) -> Report
    ensures { result ≡ nth_report (free_of (source_in source) source.old) at }
{
    let chunk = source.chunk % 512;
    word_action(8 + chunk, codec::freed_word(source.old), at)
}

// The action number `at` of a cleaning: the copying's, which puts the kept words behind a chunk's committed lines; then
// the freeing's.
pub fn clean_action(setup: Setup, source: Source, buffer: &Buffer, at: usize) -> Report
    ensures { result ≡ nth_report (clean_actions setup source buffer.now) at }
{
    let copies = copy_count(source.words);
    if at < copies {
        let kept = source.words.min(SECOND_WORDS);
        append_action(setup, buffer, SECOND, kept, at)
    } else {
        free_action(source, at - copies)
    }
}
