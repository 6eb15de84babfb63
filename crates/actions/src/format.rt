// A formatting's actions one by one, made from the record without reading the image.
ghost use Rattle.std.specs.Prelude.{◌≡◌};
ghost use Rattle.session.specs.State.{given_by, format_actions};
ghost use Rattle.actions.specs.Nth.{nth_report, format_count, register_word};

use crate::word_action;
use session::Setup;
use spec::Report;

// FORMAT
// The actions one behind the other: word 0 zeroed, flushed, fenced; the words 1 to 511, their 64 lines, a fence; word 0
// stored, flushed, fenced. Each number is that of the first action behind a part.
const ZEROED: usize = 3;

const STORED: usize = ZEROED + 511;

const FLUSHED: usize = STORED + 64;

const FENCED: usize = FLUSHED + 1;

// How many actions a formatting has.
pub fn format_count() -> usize
    ensures { result ≡ format_count }
{
    FENCED + 3
}

// A number that a formatting was told, if the map's bit stands.
fn given(bit: u64, x: u64) -> Option<u64>
    ensures { result ≡ given_by bit x }
{
    (bit == 1).then_some(x)
}

// Word i of an empty register: its header, 0 behind.
fn register_word(setup: Setup, i: usize) -> u64
    ensures { result ≡ register_word setup i }
{
    if i < 8 {
        let size = places::size_by(setup.power);
        let count = places::chunks_in(size, setup.image) as u64;
        let station = given(setup.fields / 2 % 2, setup.station);
        let centre = given(setup.fields / 4 % 2, setup.centre);
        codec::header_word(size, count, station, centre, i)
    } else {
        0
    }
}

// The action number `at` of a formatting.
pub fn format_action(setup: Setup, at: usize) -> Report
    ensures { result ≡ nth_report (format_actions setup) at }
{
    if at < ZEROED {
        word_action(0, 0, at)
    } else if at < STORED {
        let word = at - 2;
        Report::Store {
            word,
            value: register_word(setup, word),
        }
    } else if at < FLUSHED {
        Report::Flush(at - STORED)
    } else if at < FENCED {
        Report::Fence
    } else {
        word_action(0, register_word(setup, 0), at - FENCED)
    }
}
