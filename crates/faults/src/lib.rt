// The place of the fault for which an opening refuses an image. Nothing is changed, and nothing is asked of the image.
#![tactic(auto)]

ghost use Rattle.std.specs.Prelude.{◌≡◌, not, position, true, ◌≤◌, ◌%◌, eqb, leb, ltb};
ghost use Rattle.spec.specs.Basics.{pick, both};
ghost use Rattle.spec.specs.Words.{words_of};
ghost use Rattle.places.specs.Sizes.{power_of};
ghost use Rattle.faults.specs.Reading.{read_image, stop_by};
ghost use Rattle.faults.specs.Faults.{field_count, power_word, header_fault, spot_fault, log_fault, place_at, numbers_by, Located, Told};

pub mod top;

use crate::top::Spots;
use spec::{LogStep, Size};

// Why an opening refuses an image, and where: the word of the header, the chunk whose directory word is wrong and that
// word, the first word of the entry; `before` is how many entries stand before it in the log.
#[derive(Clone, Copy)]
pub enum Fault {
    Length,
    Header(usize),
    Directory { chunk: usize, word: usize },
    Entry { word: usize, before: usize },
    Block(usize),
    Tops(usize),
}

// 2: THE HEADER
fn is_map(map: u64) -> bool
    ensures { result ≡ both (eqb (map % 2) 1) (ltb map 16) }
{
    map % 2 == 1 && map < 16
}

// How many fields stand behind the count, by the bit map.
#[tactic(auto, unfolding(crate::specs::Faults::field_count))]
fn field_count(map: u64) -> u64
    ensures { result ≡ field_count map }
{
    map / 2 % 2 + map / 4 % 2 + map / 8 % 2
}

// Whether the word of a field is 0 where the bit map has so many and no such.
fn field_right(fields: u64, field: u64, word: u64) -> bool
    ensures { result ≡ pick (leb field fields) true (eqb word 0) }
{
    field <= fields || word == 0
}

// The word that says a chunk power, the bit map where none does.
#[tactic(auto, unfolding(crate::specs::Faults::power_word))]
fn power_word(map: u64) -> usize
    ensures { result ≡ power_word map }
{
    match map {
        9 => 2,
        11 | 13 => 3,
        15 => 4,
        _ => 0,
    }
}

// The number of the first test that fails.
fn first_failing(tests: &[bool]) -> Option<usize>
    ensures { result ≡ position not tests.now }
{
    tests.iter().position(|right| !*right)
}

// The word of a wrong header, of an image of `count` chunks.
fn header_fault(image: &[u8], count: usize) -> usize
    ensures { result ≡ header_fault count (words_of image.now) }
{
    let map = words::load(image, 0);
    let fields = field_count(map);
    let tests = [
        is_map(map),
        words::load(image, 1) == count as u64,
        field_right(fields, 1, words::load(image, 2)),
        field_right(fields, 2, words::load(image, 3)),
        field_right(fields, 3, words::load(image, 4)),
        words::load(image, 5) == 0,
        words::load(image, 6) == 0,
    ];
    first_failing(&tests).unwrap_or(tests.len())
}

// 4: THE LOG
// Where a reading of the log stops: at the first word of a wrong entry, with so many entries before it.
#[derive(Clone, Copy)]
pub struct Stop {
    pub word: usize,
    pub before: usize,
}

// The log of an image of `count` chunks, chunk by chunk, up to the first entry that is wrong, if one is.
fn read_log(image: &[u8], count: usize, size: Size) -> Option<Stop>
    requires { count ≤ 504 }
    ensures { result ≡ stop_by 0 (read_image (power_of size) count (words_of image.now)) }
{
    let mut before: usize = 0;
    let mut chunk: usize = 0;
    let mut at: usize = 0;
    let mut end: usize = 0;
    loop {
        match logs::next_entry(image, at, end) {
            LogStep::End => {
                if count <= chunk + 1 {
                    return None;
                }
                chunk += 1;
                at = places::first_word(size, chunk);
                let lines = directory::lines_of(image, chunk, size);
                end = at + 8 * lines;
            }
            LogStep::Wrong => return Some(Stop { word: at, before }),
            LogStep::Padding => at += 1,
            LogStep::Entry { words, .. } => {
                before += 1;
                at += 2 + words;
            }
        }
    }
}

// 5 AND 6, by the two places that the pass over the top entries finds.
fn spot_fault(s: Spots) -> Option<Fault>
    ensures { result ≡ spot_fault s.block s.tops }
{
    match (s.block, s.tops) {
        (Some(block), _) => Some(Fault::Block(block)),
        (None, Some(tops)) => Some(Fault::Tops(tops)),
        (None, None) => None,
    }
}

// 4 to 6, of an image of `count` chunks.
fn log_fault(image: &[u8], count: usize, size: Size) -> Option<Fault>
    requires { count ≤ 504 }
    ensures { result ≡ log_fault (power_of size) count (words_of image.now) (read_image (power_of size) count (words_of image.now)) }
{
    match read_log(image, count, size) {
        Some(stop) => Some(Fault::Entry {
            word: stop.word,
            before: stop.before,
        }),
        None => spot_fault(top::find_spots(image, count, size)),
    }
}

// Why an opening refuses the image, and where, if it does but for want of room in its table.
pub fn fault_of(image: &[u8]) -> Option<Fault>
    ensures { Located image.now result }
{
    let bytes = image.len();
    if !opening::length_allowed(bytes) {
        return Some(Fault::Length);
    }
    let power = opening::power_said(image);
    if !opening::power_fits(power, bytes) {
        return Some(Fault::Header(power_word(words::load(image, 0))));
    }
    let size = places::size_by(power);
    let count = places::chunks_in(size, bytes);
    if !opening::header_fits(image, count) {
        return Some(Fault::Header(header_fault(image, count)));
    }
    match directory::directory_fault(image, count, size) {
        Some(chunk) => Some(Fault::Directory {
            chunk,
            word: 8 + chunk,
        }),
        None => log_fault(image, count, size),
    }
}

// In numbers: 0 or the refusal's number; the chunk, the word of the image, and how many entries stand before it, each 0
// where it is not said.
// (a) The C interface has these numbers.
#[repr(C)]
#[derive(Clone, Copy)]
pub struct FaultPlace {
    pub refusal: u64,
    pub chunk: u64,
    pub word: u64,
    pub before: u64,
}

fn place_at(refusal: u64, word: usize, before: usize, size: Size) -> FaultPlace
    ensures { result ≡ place_at size refusal word before }
{
    FaultPlace {
        refusal,
        chunk: places::chunk_of_word(size, word) as u64,
        word: word as u64,
        before: before as u64,
    }
}

fn numbers_of(fault: Fault, size: Size) -> FaultPlace
    ensures { result ≡ numbers_by size fault }
{
    match fault {
        Fault::Length => place_at(1, 0, 0, size),
        Fault::Header(word) => place_at(2, word, 0, size),
        Fault::Directory { chunk, word } => FaultPlace {
            refusal: 3,
            chunk: chunk as u64,
            word: word as u64,
            before: 0,
        },
        Fault::Entry { word, before } => place_at(4, word, before, size),
        Fault::Block(word) => place_at(5, word, 0, size),
        Fault::Tops(word) => place_at(6, word, 0, size),
    }
}

pub fn find_fault(image: &[u8]) -> FaultPlace
    ensures { Told image.now result }
{
    let size = places::size_by(opening::power_said(image));
    match fault_of(image) {
        Some(fault) => numbers_of(fault, size),
        None => place_at(0, 0, 0, size),
    }
}
