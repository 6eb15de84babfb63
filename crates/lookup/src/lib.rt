// Answers from the register: the part of the image that holds the value of a key, or the refusal; the present keys in
// rising order, and what is listed of each: its version, the length of its value, and whether a block has that.
#![tactic(auto)]

ghost use Rattle.std.specs.Prelude.{◌≡◌, ◌+◌, ◌*◌, ◌^◌, ◌<◌, length};
ghost use Rattle.spec.specs.Words.{words_of};
ghost use Rattle.lookup.specs.Look.{within, block_part, first_word, part_at, Looking, Locating, Reporting, Showing, ShowingValue};
ghost use Rattle.lookup.specs.Listing.{by_entry, by_word};
ghost use Rattle.lookup.specs.Contract.{Gathering, ListingKeys, ListingKey};

use codec::Unit;
use session::{Control, Setup};
use spec::{Refusal, Report, Size};

// What a look-up finds: the part of the image that holds the value, and its version.
#[derive(Clone, Copy)]
pub struct Part {
    pub start: usize,
    pub length: usize,
    pub version: u64,
}

// The form of an entry's first word, its lowest four bits: a put with its value in the log, or in a block.
const IN_LOG: u64 = 1;

const IN_BLOCK: u64 = 5;

// The part from byte `start`, where an image of so many bytes has it.
fn within(bytes: usize, start: usize, length: u64, version: u64) -> Result<Part, Refusal>
    ensures { result ≡ within version bytes start length }
{
    let length = length as usize;
    if start <= bytes && length <= bytes - start {
        return Ok(Part {
            start,
            length,
            version,
        });
    }
    Err(Refusal::KeyAbsent)
}

// The part that holds the value of the block at a unit. Where the image has the word behind the block's length word
// too, as every right image has, two comparisons are enough.
fn block_part(image: &[u8], unit: Unit, version: u64) -> Result<Part, Refusal>
    requires { unit.0 < 2 ^ 40 }
    ensures { result ≡ block_part version (length image.now) (words_of image.now) unit.0 }
{
    let bytes = image.len();
    let start = unit.byte_offset();
    let word = unit.word_offset();
    if start + 16 <= bytes {
        let length = words::load_leading(image, word) as usize;
        if length <= bytes - (start + 8) {
            return Ok(Part {
                start: start + 8,
                length,
                version,
            });
        }
        return Err(Refusal::KeyAbsent);
    }
    within(bytes, start + 8, words::load(image, word), version)
}

// The part that holds a value in the log of an entry at word `place`.
fn log_part(bytes: usize, place: usize, length: u64, version: u64) -> Result<Part, Refusal>
    requires { (place < 0x40_0000) × (length < 2 ^ 40) }
    ensures { result ≡ within version bytes (8 * (place + 2)) length }
{
    let start = 8 * (place + 2);
    let length = length as usize;
    if start + length <= bytes {
        return Ok(Part {
            start,
            length,
            version,
        });
    }
    Err(Refusal::KeyAbsent)
}

// The first word of the entry at word `place`, 0 where the image does not have the entry's first two words.
fn first_word(image: &[u8], place: usize) -> u64
    ensures { result ≡ first_word (length image.now) (words_of image.now) place }
{
    words::load_leading(image, place)
}

// The part that holds the value of the entry at word `place`: a put with its value in the log, or one with its value in
// a block; its version is as the key table has it.
fn part_at(image: &[u8], place: usize, version: u64) -> Result<Part, Refusal>
    requires { place < 0x40_0000 }
    ensures { result ≡ part_at version (length image.now) (words_of image.now) place }
{
    let word = first_word(image, place);
    let kind = word % 16;
    let field = word / 16777216;
    if kind == IN_BLOCK {
        return block_part(image, Unit(field), version);
    }
    if kind == IN_LOG {
        return log_part(image.len(), place, field, version);
    }
    Err(Refusal::KeyAbsent)
}

// The value of a key, by one probe of the table, which in small chunks tells the extent of a short value in the log;
// else the entry is read. No entry stands at word 0: a place 0 is that of a key that the table does not have.
fn value_of(image: &[u8], table: &[u64], key: u64, size: Size) -> Result<Part, Refusal>
    ensures { Looking size key image.now table.now result }
{
    let held = index::get(table, key);
    let info = packing::unpack(size, held);
    let extent = info.extent;
    let version = info.version;
    let place = info.place as usize;
    if 0 < extent {
        return log_part(image.len(), place, extent + 1, version);
    }
    if place == 0 {
        return Err(Refusal::KeyAbsent);
    }
    part_at(image, place, version)
}

// 2, 1, 8, 11, or the part of the image that holds the value of a key. In an unfinished call, but for a formatting,
// that is the value before it, until its last fence: only then is the key table brought up to date.
pub fn locate(
    control: Control,
    setup: Setup,
    image: &[u8],
    table: &[u64],
    key: u64,
) -> Result<Part, Refusal>
    ensures { Locating control setup key image.now table.now result }
{
    session::read_gate(control, setup, image.len(), table.len())?;
    value_of(image, table, key, places::size_by(setup.power))
}

// Look-up, with its report.
pub fn find(control: Control, setup: Setup, image: &[u8], table: &[u64], key: u64) -> Report
    ensures { Reporting control setup key image.now table.now result }
{
    match locate(control, setup, image, table, key) {
        Ok(part) => Report::Part {
            start: part.start,
            length: part.length,
            version: part.version,
        },
        Err(n) => Report::Refused(n),
    }
}

// A value where it lies in the image, and its version.
#[derive(Clone, Copy)]
pub struct Value<'a> {
    pub bytes: &'a [u8],
    pub version: u64,
}

// Look-up, with the value itself.
pub fn look_up_value<'a>(
    control: Control,
    setup: Setup,
    image: &'a [u8],
    table: &[u64],
    key: u64,
) -> Result<Value<'a>, Refusal>
    ensures { ShowingValue control setup key image.now table.now result }
{
    let part = locate(control, setup, image, table, key)?;
    let end = part.start + part.length;
    Ok(Value {
        bytes: &image[part.start..end],
        version: part.version,
    })
}

// Look-up: the part itself, the empty part on a refusal; `answer` gets 0 or the refusal's number, `handed` the value's
// version, 0 on a refusal.
pub fn look_up_core<'a>(
    control: Control,
    setup: Setup,
    image: &'a [u8],
    table: &[u64],
    key: u64,
    answer: &mut u64,
    handed: &mut u64,
) -> &'a [u8]
    ensures { Showing control setup key image.now table.now result.now answer.new handed.new }
{
    match look_up_value(control, setup, image, table, key) {
        Ok(value) => {
            *answer = 0;
            *handed = value.version;
            value.bytes
        }
        Err(refusal) => {
            *answer = session::number(refusal);
            *handed = 0;
            &image[..0]
        }
    }
}

// What is listed of a present key.
#[derive(Clone, Copy)]
pub struct Listing {
    pub version: u64,
    pub length: u64,
    pub block: bool,
}

// By the first word of an entry.
fn by_entry(image: &[u8], version: u64, word: u64) -> Result<Listing, Refusal>
    ensures { result ≡ by_entry (words_of image.now) version word }
{
    let form = word % 16;
    let field = word / 16777216;
    if form == IN_LOG {
        return Ok(Listing {
            version,
            length: field,
            block: false,
        });
    }
    if form == IN_BLOCK {
        let length = words::load(image, Unit(field).word_offset());
        return Ok(Listing {
            version,
            length,
            block: true,
        });
    }
    Err(Refusal::KeyAbsent)
}

// By what the key table holds of a key: in small chunks the extent of a short value in the log; else the entry is read.
fn by_word(image: &[u8], held: u64, size: Size) -> Result<Listing, Refusal>
    ensures { result ≡ by_word size (words_of image.now) held }
{
    if held == 0 {
        return Err(Refusal::KeyAbsent);
    }
    let info = packing::unpack(size, held);
    let version = info.version;
    let extent = info.extent;
    if 0 < extent {
        return Ok(Listing {
            version,
            length: extent + 1,
            block: false,
        });
    }
    let place = info.place as usize;
    by_entry(image, version, words::load(image, place))
}

// The present keys of a key table, rising, as far as `out` reaches; how many there are.
pub fn present_keys(image: &[u8], table: &[u64], out: &mut [u64], size: Size) -> usize
    ensures { Gathering size (words_of image.now) table.now out.old out.new result }
{
    let mut kept: usize = 0;
    let mut count: usize = 0;
    for slot in 0..table.len() / 2 {
        if by_word(image, table[2 * slot + 1], size).is_ok() {
            kept = order::take_in(out, kept, table[2 * slot]);
            count += 1;
        }
    }
    order::arrange(out, kept);
    count
}

// 2, 1, 8, or the present keys of the open register that look-up reads, rising, as far as `out` reaches, and how many
// there are.
pub fn list_keys(
    control: Control,
    setup: Setup,
    image: &[u8],
    table: &[u64],
    out: &mut [u64],
) -> Result<usize, Refusal>
    ensures { ListingKeys control setup image.now table.now out.old out.new result }
{
    session::read_gate(control, setup, image.len(), table.len())?;
    let size = places::size_by(setup.power);
    Ok(present_keys(image, table, out, size))
}

// 2, 1, 8, 11, or what is listed of a key of the open register that look-up reads.
pub fn list_key(
    control: Control,
    setup: Setup,
    image: &[u8],
    table: &[u64],
    key: u64,
) -> Result<Listing, Refusal>
    ensures { ListingKey control setup key image.now table.now result }
{
    session::read_gate(control, setup, image.len(), table.len())?;
    by_word(image, index::get(table, key), places::size_by(setup.power))
}
