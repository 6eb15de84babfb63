// An opening: the refusals 1 to 7, and the volatile memory built. One pass over the entries fills key table and sums
// (`opening::fill`); a second one, where it is needed, asks blocks and top entries (`consistency`).
#![tactic(auto)]

ghost use Rattle.std.specs.Prelude.{◌≡◌, length};
ghost use Rattle.spec.specs.Words.{words_of};
ghost use Rattle.spec.specs.Places.{any_allowed, size_allowed};
ghost use Rattle.spec.specs.Header.{header_right, header_power};
ghost use Rattle.spec.specs.Machine.{Open};
ghost use Rattle.index.specs.Index.{zeros};
ghost use Rattle.opening.specs.Judged.{JudgingLog, Judging};
ghost use Rattle.session.specs.Promise.{Does, memory_of};

pub mod fill;

use buffer::Buffer;
use session::{Control, Outcome, Setup};
use spec::{Refusal, Report, Size};

// THE TESTS OF AN IMAGE
// 1: the length is that of 4 to 504 whole chunks of a size that there is.
pub fn length_allowed(bytes: usize) -> bool
    ensures { result ≡ any_allowed bytes }
{
    places::length_allowed(Size::Small, bytes) || places::length_allowed(Size::Large, bytes)
}

// The chunk power that the header says.
pub fn power_said(image: &[u8]) -> u64
    ensures { result ≡ header_power (words_of image.now) }
{
    codec::header_power(
        words::load(image, 0),
        words::load(image, 2),
        words::load(image, 3),
        words::load(image, 4),
    )
}

// 2: there are chunks of that power, and the length is that of 4 to 504 whole ones.
pub fn power_fits(power: u64, bytes: usize) -> bool
    ensures { result ≡ size_allowed power bytes }
{
    match power {
        12 => places::length_allowed(Size::Small, bytes),
        16 => places::length_allowed(Size::Large, bytes),
        _ => false,
    }
}

// 2: the header line is right, of an image of `count` chunks.
pub fn header_fits(image: &[u8], count: usize) -> bool
    ensures { result ≡ header_right count (words_of image.now) }
{
    let mut words = [0; 8];
    for i in 0..8 {
        words[i] = words::load(image, i);
    }
    codec::header_right(words, count as u64)
}

// OPENING
// 4 to 7, of an image of `count` chunks: key table, block bits and sums are built anew. The answer is how many keys the
// image has.
pub fn check_log(
    image: &[u8],
    count: usize,
    table: &mut [u64],
    buffer: &mut Buffer,
    size: Size,
) -> Result<usize, Refusal>
    ensures { JudgingLog size count (words_of image.now) table.old table.new buffer.old buffer.new result }
{
    let Ok(filled) = fill::fill(image, count, table, buffer, size) else {
        return Err(Refusal::EntryWrong);
    };
    let known = filled.keys.and(Some(&*table));
    let checked = consistency::examine(
        image,
        count,
        known,
        filled.single,
        filled.direct,
        buffer,
        size,
    );
    if !checked.blocks {
        return Err(Refusal::BlockWrong);
    }
    if !checked.agreeing || !checked.apart {
        return Err(Refusal::TopsDisagree);
    }
    filled.keys.ok_or(Refusal::TableFull)
}

// 1 to 7: how many keys the image has, or why it is refused.
fn check_image(image: &[u8], table: &mut [u64], buffer: &mut Buffer) -> Result<usize, Refusal>
    ensures { Judging image.now table.old table.new buffer.old buffer.new result }
{
    let bytes = image.len();
    if !length_allowed(bytes) {
        return Err(Refusal::ImageLength);
    }
    let power = power_said(image);
    if !power_fits(power, bytes) {
        return Err(Refusal::NotOpen);
    }
    let size = places::size_by(power);
    let count = places::chunks_in(size, bytes);
    if !header_fits(image, count) {
        return Err(Refusal::NotOpen);
    }
    if !directory::directory_fits(image, count, size) {
        return Err(Refusal::DirectoryWrong);
    }
    check_log(image, count, table, buffer, size)
}

// A refused opening leaves nothing in the table.
fn empty(lent: &mut [u64])
    ensures { lent.new ≡ zeros (length lent.old) }
{
    index::clear(lent);
}

// Opening, on any record. A refused one leaves a record with nothing open, and a table of zeros.
pub fn open_core(
    control: Control,
    setup: Setup,
    buffer: &mut Buffer,
    image: &[u8],
    table: &mut [u64],
) -> Outcome
    ensures { Does Open (memory_of control setup buffer.old image.now table.old) (memory_of result.control result.setup buffer.new image.now table.new) result.report }
{
    let bytes = image.len();
    let words = table.len();
    match check_image(image, table, buffer) {
        Ok(keys) => Outcome {
            control: session::opened(keys),
            setup: session::opened_setup(bytes, words, places::size_by(power_said(image))),
            report: Report::Opened,
        },
        Err(refusal) => {
            empty(table);
            Outcome {
                control: session::closed(),
                setup,
                report: Report::Refused(refusal),
            }
        }
    }
}
