// What a report does to the image; and the actions of begun calls, one by one, made without reading the image: `append`
// (a commit's, and the copying of a cleaning), `block` (a large value's), `clean` (a cleaning's), `format`.
#![tactic(auto)]

ghost use Rattle.std.specs.Prelude.{◌≡◌};
ghost use Rattle.spec.specs.Contract.{Changed};
ghost use Rattle.actions.specs.Nth.{nth_report, word_of};

pub mod append;
pub mod block;
pub mod clean;
pub mod format;

use spec::Report;

// What a report does to the image: a store sets its word, if the image has that word.
pub fn perform(image: &mut [u8], act: Report)
    ensures { Changed act image.old image.new }
{
    match act {
        Report::Store { word, value } => words::save(image, word, value),
        _ => {}
    }
}

// The action number `at` of those that store a word, flush its line, and fence.
fn word_action(word: usize, value: u64, at: usize) -> Report
    ensures { result ≡ nth_report (word_of word value) at }
{
    match at {
        0 => Report::Store { word, value },
        1 => Report::Flush(word / 8),
        _ => Report::Fence,
    }
}
