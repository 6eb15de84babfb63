// What an opening asks of the top entries: whether their blocks are right, whether they agree and share no block with
// another key, and the blocks in use as bits. A second pass looks at the entries that can tell it: values in blocks,
// and keys with several top entries. Where the key table does not hold the keys, there is a pass for each of some
// ranges of classes of keys, with a table of the call's own.
#![tactic(auto)]

ghost use Rattle.std.specs.Prelude.{◌≡◌, ◌+◌, ◌-◌, ◌*◌, ◌^◌, ◌≤◌, ◌<◌, true, false, ltb};
ghost use Rattle.spec.specs.Basics.{pick, either, every};
ghost use Rattle.spec.specs.Words.{words_of};
ghost use Rattle.spec.specs.Blocks.{start_tests, length_tests, block_right};
ghost use Rattle.places.specs.Sizes.{power_of};
ghost use Rattle.consistency.specs.Classes.{table_in, holds_keys};
ghost use Rattle.consistency.specs.Heads.{same_from, points};
ghost use Rattle.consistency.specs.Pass.{AgreesWith, TopIs, AgreedIs, MarkedIs, VisitedIs, SweptAs, ClassChecked, AllChecked, Examined};

pub mod partition;

use crate::partition::{Asked, CLASSES, Classes, MARKS, collect, mark_twins, onward, pass_over};
use buffer::{Buffer, clear_bits, has_bit, set_bit};
use codec::Unit;
use directory::size_of;
use index::get;
use logs::{Best, Cursor, Entry, best_of, first_cursor, next_in_log, words_for};
use packing::unpack;
use spec::Size;
use words::load;

// What the pass finds: no wrong block, no top entries that disagree, no block of two keys.
#[derive(Clone, Copy)]
pub struct Checked {
    pub blocks: bool,
    pub agreeing: bool,
    pub apart: bool,
}

// BLOCKS
// Whether a unit of an image of `count` chunks starts a block of so many units.
fn starts(count: usize, unit: Unit, units: usize, size: Size) -> bool
    requires { units ≤ 256 }
    ensures { result ≡ every (start_tests (power_of size) count unit.0 units) }
{
    let chunk = unit.chunk(size) as usize;
    let place = unit.place(size) as usize;
    if chunk < 1 || count <= chunk || units < 1 {
        return false;
    }
    place % units == 0 && place + units <= places::units(size)
}

// Whether a block of so many units may have this length and its value ends in this word.
fn length_right(units: usize, length: u64, last: u64) -> bool
    requires { (1 ≤ units) × (units ≤ 256) }
    ensures { result ≡ every (length_tests units length last) }
{
    let room = 256 * (units as u64) - 8;
    let odd = length % 8;
    257 <= length && length <= room && (odd == 0 || last < 1 << (8 * odd))
}

// Whether a unit of an image of `count` chunks starts a block, its length is right and its value zero-filled.
pub fn block_right(image: &[u8], count: usize, unit: Unit, size: Size) -> bool
    ensures { result ≡ block_right (power_of size) count (words_of image.now) unit.0 }
{
    let units = size_of(image, unit.chunk(size) as usize, size);
    if !starts(count, unit, units, size) {
        return false;
    }
    let at = unit.word_offset();
    let length = load(image, at);
    let last = load(image, at + words_for(0, length));
    length_right(units, length, last)
}

// AGREEMENT
// Whether n words from word a are those from word b.
pub fn same_words(image: &[u8], a: usize, b: usize, n: usize) -> bool
    requires { (a < 2 ^ 62) × (b < 2 ^ 62) × (n < 2 ^ 62) }
    ensures { result ≡ same_from (words_of image.now) a b n }
{
    for i in 0..n {
        if load(image, a + i) != load(image, b + i) {
            return false;
        }
    }
    true
}

// Whether an entry is, word for word, the one that stands at word `place`.
fn agrees(image: &[u8], e: Entry, place: usize) -> bool
    ensures { AgreesWith (words_of image.now) e place result }
{
    let end = image.len() / 8;
    let words = words_for(e.placement, e.field);
    same_words(image, e.place.min(end), place.min(end), 2 + words)
}

// TOP ENTRIES
// The chosen top entry of a key: by the key table where it is known to hold the keys, else by a scan.
pub fn top_of(image: &[u8], count: usize, known: Option<&[u64]>, key: u64, size: Size) -> Best
    ensures { TopIs size count (words_of image.now) (table_in known.entry) (holds_keys known.entry) key result }
{
    match known {
        Some(table) => {
            let info = unpack(size, get(table, key));
            Best {
                version: info.version,
                place: info.place as usize,
            }
        }
        None => best_of(image, count, key, size),
    }
}

// MARKS
// Whether an entry with these parts is a put of a block.
pub fn points(op: u64, placement: u64) -> bool
    ensures { result ≡ points op placement }
{
    op == 1 && placement == 1
}

// A top entry's block is marked if it is the chosen one of its key, which stands at word `place`: the others have the
// same block, or disagree. The answer is whether no two keys share a block: one that is marked already is another
// key's.
fn marked(buffer: &mut Buffer, apart: bool, e: Entry, place: usize, size: Size) -> bool
    ensures { MarkedIs size apart e place buffer.old buffer.new result }
{
    if e.place != place || !points(e.op, e.placement) {
        return apart;
    }
    let unit = Unit(e.field);
    if has_bit(buffer, unit, size) {
        return false;
    }
    set_bit(buffer, unit, size);
    apart
}

// THE PASS
// Whether the block of an entry is right, if it points to one.
pub fn block_fine(image: &[u8], count: usize, e: Entry, size: Size) -> bool
    ensures { result ≡ pick (points e.op e.placement) (block_right (power_of size) count (words_of image.now) e.field) true }
{
    !points(e.op, e.placement) || block_right(image, count, Unit(e.field), size)
}

// Whether the top entries agree, with one more; the chosen one of its key stands at word `place`.
pub fn agreed(image: &[u8], so: bool, e: Entry, place: usize) -> bool
    ensures { AgreedIs (words_of image.now) so e place result }
{
    so && (e.place == place || agrees(image, e, place))
}

// One entry of the pass, which looks at a range of classes.
fn visit(
    image: &[u8],
    count: usize,
    known: Option<&[u64]>,
    classes: Classes,
    buffer: &mut Buffer,
    s: Checked,
    e: Entry,
    size: Size,
) -> Checked
    ensures { VisitedIs size count (words_of image.now) (table_in known.entry) (holds_keys known.entry) classes.low classes.high s e buffer.old buffer.new result }
{
    if !classes.holds(e.key) {
        return s;
    }
    let top = top_of(image, count, known, e.key, size);
    if e.version != top.version {
        return s;
    }
    if !block_fine(image, count, e, size) {
        return Checked { blocks: false, ..s };
    }
    Checked {
        blocks: true,
        agreeing: agreed(image, s.agreeing, e, top.place),
        apart: marked(buffer, s.apart, e, top.place, size),
    }
}

// The pass over the log of an image of `count` chunks, for a range of classes, of which a table may be known to hold
// the keys. Puts with their values in the log are passed over where they are not asked for: such a key has one top
// entry.
fn sweep(
    image: &[u8],
    count: usize,
    known: Option<&[u64]>,
    asked: Asked,
    buffer: &mut Buffer,
    so: Checked,
    size: Size,
) -> Checked
    ensures { SweptAs size count (words_of image.now) (table_in known.entry) (holds_keys known.entry) asked.entry.single asked.entry.marks.now asked.entry.classes.low asked.entry.classes.high so buffer.old buffer.new result }
{
    let mut s = so;
    let mut cursor = first_cursor();
    loop {
        let at = pass_over(image, cursor.at, cursor.end, asked);
        if cursor.end <= at && cursor.chunk < count.saturating_sub(1) {
            // The next chunk's first entries may be passed over too.
            cursor = onward(image, count, cursor.chunk + 1, size);
            continue;
        }
        match next_in_log(image, count, Cursor { at, ..cursor }, size) {
            Ok(Some(e)) => {
                s = visit(image, count, known, asked.classes, buffer, s, e, size);
                if !s.blocks {
                    return s;
                }
                cursor = e.behind;
            }
            Ok(None) => return s,
            Err(_) => return s,
        }
    }
}

// A range of classes, of which a table may be known to hold the keys; else each top entry is found by a scan. Marks are
// of use where the table tells which keys have several top entries and it may be that some have, not where each key has
// a `single` one.
fn check_class(
    image: &[u8],
    count: usize,
    known: Option<&[u64]>,
    single: bool,
    classes: Classes,
    buffer: &mut Buffer,
    so: Checked,
    size: Size,
) -> Checked
    ensures { ClassChecked size count (words_of image.now) (table_in known.entry) (holds_keys known.entry) single classes.low classes.high so buffer.old buffer.new result }
{
    if let Some(table) = known {
        if !single {
            let mut marks: [u8; MARKS] = [0; MARKS];
            mark_twins(table, &mut marks);
            let asked = Asked {
                single: false,
                marks: &marks,
                classes,
            };
            return sweep(image, count, known, asked, buffer, so, size);
        }
    }
    let asked = Asked {
        single,
        marks: &[],
        classes,
    };
    sweep(image, count, known, asked, buffer, so, size)
}

// ALL CLASSES
// Where a range of so many classes ends.
pub fn range_end(low: u64, width: u64) -> u64
    requires { (low < 2 ^ 32) × (1 ≤ width) × (width ≤ 2 ^ 32) }
    ensures { (low < result) × (result ≤ 2 ^ 32) }
{
    (low + width).min(CLASSES)
}

// A table of the call's own has so many words, and holds so many keys.
pub const OWN_WORDS: usize = 65536;

const OWN_KEYS: usize = 16384;

// How many classes the next range is to have, where one of so many had so many keys: so many as are likely to have
// seven eighths of the keys that a table of the call's own holds, and at most eight times as many as before.
pub fn next_width(width: u64, keys: usize) -> u64
    requires { (1 ≤ width) × (width ≤ 2 ^ 32) }
    ensures { (1 ≤ result) × (result ≤ 2 ^ 32) }
{
    let many = keys.min(OWN_KEYS) as u64;
    let room = OWN_KEYS as u64;
    (width * room / (many + room / 8)).clamp(1, CLASSES)
}

// Whether a range is done as it is: its keys fit, or it is one class.
pub fn is_enough(fits: bool, width: u64) -> bool
    ensures { result ≡ either fits (ltb width 2) }
{
    fits || width < 2
}

// All classes, with a table of the call's own for one range of them after the other. A range whose keys do not fit it
// is halved; one class alone whose keys do not fit is checked by scans.
fn check_classes(image: &[u8], count: usize, buffer: &mut Buffer, size: Size) -> Checked
    ensures { AllChecked size count (words_of image.now) buffer.old buffer.new result }
{
    let mut own: [u64; OWN_WORDS] = [0; OWN_WORDS];
    let mut s = Checked {
        blocks: true,
        agreeing: true,
        apart: true,
    };
    let mut low: u64 = 0;
    let mut width: u64 = CLASSES;
    // (d) The ranges are of many widths, so no `for` has them.
    while low < CLASSES {
        let high = range_end(low, width);
        let classes = Classes { low, high };
        let keys = collect(image, count, &mut own, classes, size);
        if !is_enough(keys.is_some(), width) {
            width /= 2;
            continue;
        }
        let known = keys.and(Some(&own[..]));
        s = check_class(image, count, known, false, classes, buffer, s, size);
        if !s.blocks {
            return s;
        }
        low = high;
        if let Some(keys) = keys {
            width = next_width(width, keys);
        }
    }
    s
}

// What is found. Where each key has a `single` top entry and each value is `direct`, none of them in a block, nothing
// is left to find and no pass is made.
pub fn examine(
    image: &[u8],
    count: usize,
    known: Option<&[u64]>,
    single: bool,
    direct: bool,
    buffer: &mut Buffer,
    size: Size,
) -> Checked
    ensures { Examined size count (words_of image.now) (table_in known.entry) (holds_keys known.entry) single direct buffer.old buffer.new result }
{
    clear_bits(buffer, size);
    let s = Checked {
        blocks: true,
        agreeing: true,
        apart: true,
    };
    if direct && single {
        return s;
    }
    if known.is_none() {
        return check_classes(image, count, buffer, size);
    }
    let all = Classes {
        low: 0,
        high: CLASSES,
    };
    check_class(image, count, known, single, all, buffer, s, size)
}
