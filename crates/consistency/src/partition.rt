// Classes of keys, for passes over the log that look at some keys only: the keys of a range of classes, collected into
// a table of any size, and marks that say which of them have several top entries.
ghost use Rattle.std.specs.Prelude.{◌≡◌, ◌/◌, ◌<◌, length};
ghost use Rattle.spec.specs.Words.{words_of};
ghost use Rattle.places.specs.Sizes.{power_of};
ghost use Rattle.consistency.specs.Classes.{class_of, within, asked};
ghost use Rattle.consistency.specs.Passing.{PassedOver, Onward, Entering, Collecting, OneMarked, QuietFrom, TwinsMarked};

use logs::Cursor;
use spec::Size;
use words::load;

// Marks of keys: one for each 2^18 classes.
pub const MARKS: usize = 16384;

// So many classes there are.
pub const CLASSES: u64 = 0x1_0000_0000;

// CLASSES
// The class of a key: 32 bits, by other numbers than those by which the key table spreads its keys, so that the keys of
// a range of classes do not stand side by side in a table.
pub fn class_of(key: u64) -> u64
    ensures { result ≡ class_of key }
{
    let low = key % 0x1_0000_0000 * 0x9E37_79B1 % 0x1_0000_0000;
    let high = key / 0x1_0000_0000 * 0x85EB_CA77 % 0x1_0000_0000;
    (low + high) % 0x1_0000_0000
}

// A range of classes: from `low` on, and below `high`.
#[derive(Clone, Copy)]
pub struct Classes {
    pub low: u64,
    pub high: u64,
}

impl Classes {
    // Whether the class of a key is one of them.
    pub fn holds(self, key: u64) -> bool
        ensures { result ≡ within self.low self.high key }
    {
        (self.low..self.high).contains(&class_of(key))
    }
}

// The keys that a pass over the log asks for: none where each key has a `single` top entry, else those of a range of
// classes whose marks are set, or for which there is no mark.
#[derive(Clone, Copy)]
pub struct Asked<'a> {
    pub single: bool,
    pub marks: &'a [u8],
    pub classes: Classes,
}

impl Asked<'_> {
    // Whether it asks for a key.
    fn holds(self, key: u64) -> bool
        ensures { result ≡ asked self.entry.single self.entry.marks.now self.entry.classes.low self.entry.classes.high key }
    {
        if self.single {
            return false;
        }
        let class = class_of(key);
        let at = (class / 0x4_0000) as usize;
        (self.classes.low..self.classes.high).contains(&class)
            && (self.marks.len() <= at || 0 < self.marks[at])
    }
}

// PASSING
// From word `at` on, past padding and puts with their values in the log whose keys are not asked for. Of a put it takes
// the length from the first word and asks nothing more: in a log without a wrong entry that is where the next one
// stands.
pub fn pass_over(image: &[u8], at: usize, end: usize, asked: Asked) -> usize
    ensures { PassedOver (words_of image.now) end asked.entry.single asked.entry.marks.now asked.entry.classes.low asked.entry.classes.high at result }
{
    let stop = end.min(image.len() / 8);
    let mut place = at;
    // (d) The steps are of many lengths, so no `for` has them.
    while place < stop {
        let word = load(image, place);
        if word == 0 {
            place += 1;
        } else if word % 16 == 1 && !asked.holds(load(image, place + 1)) {
            place += ((word / 0x100_0000 + 23) / 8) as usize;
        } else {
            break;
        }
    }
    place
}

// From chunk c on, in an image of `count` chunks: the beginning of the first chunk that has committed words, or of the
// last one.
pub fn onward(image: &[u8], count: usize, c: usize, size: Size) -> Cursor
    ensures { Onward (power_of size) count (words_of image.now) c result }
{
    let last = count.saturating_sub(1);
    let mut next = logs::chunk_cursor(image, c, size);
    while next.end <= next.at && next.chunk < last {
        next = logs::chunk_cursor(image, next.chunk + 1, size);
    }
    next
}

// COLLECTING
// One more entry; `own` is what the table would hold of the key with this entry alone. An entry of another class
// changes nothing. The answer is how many keys the table has then, none where there is no room for one more.
fn enter(
    table: &mut [u64],
    keys: usize,
    classes: Classes,
    key: u64,
    own: u64,
    size: Size,
) -> Option<usize>
    ensures { Entering size table.old table.new keys classes.low classes.high key own result }
{
    if !classes.holds(key) {
        return Some(keys);
    }
    let slot = index::slot_of(table, key);
    let old = index::word_at(table, slot);
    if old != 0 {
        let info = volatile::with_entry(size, old, own);
        index::set_slot(table, slot, key, info);
        return Some(keys);
    }
    if index::capacity(table.len()) <= keys {
        return None;
    }
    index::set_slot(table, slot, key, own);
    Some(keys + 1)
}

// The entries of a range of classes go into the table, which is theirs alone. The answer is how many keys it has then,
// none where it has no room for them.
pub fn collect(
    image: &[u8],
    count: usize,
    table: &mut [u64],
    classes: Classes,
    size: Size,
) -> Option<usize>
    ensures { Collecting size count (words_of image.now) table.old table.new classes.low classes.high result }
{
    index::clear(table);
    let asked = Asked {
        single: false,
        marks: &[],
        classes,
    };
    let mut keys = 0;
    let mut cursor = logs::first_cursor();
    loop {
        let at = pass_over(image, cursor.at, cursor.end, asked);
        match logs::next_in_log(image, count, Cursor { at, ..cursor }, size) {
            Ok(Some(e)) => {
                let extent = volatile::extent_of(size, e.placement, e.field);
                let own = volatile::single_entry(size, extent, e.place, e.version);
                keys = enter(table, keys, classes, e.key, own, size)?;
                cursor = e.behind;
            }
            Ok(None) => return Some(keys),
            Err(_) => return None,
        }
    }
}

// TWINS
// The mark of a key is set, where there is one, if the table's word says that several of its entries are top entries.
fn mark_slot(marks: &mut [u8], key: u64, info: u64)
    ensures { OneMarked marks.old marks.new key info }
{
    if 0x8000_0000_0000_0000 <= info {
        let at = (class_of(key) / 0x4_0000) as usize;
        if at < marks.len() {
            marks[at] = 1;
        }
    }
}

// Whether four slots from s on are there, and none of them is of a key with several top entries.
fn is_quiet(table: &[u64], s: usize) -> bool
    requires { s < length table.now / 2 }
    ensures { QuietFrom table.now s result }
{
    let at = 2 * s;
    if table.len() < at + 8 {
        return false;
    }
    let a = table[at + 1] | table[at + 3];
    let b = table[at + 5] | table[at + 7];
    (a | b) < 0x8000_0000_0000_0000
}

// The marks of the keys of a table that have several top entries are set. Four slots are looked at together, so that
// the pass over a table with few such keys is short.
pub fn mark_twins(table: &[u64], marks: &mut [u8])
    ensures { TwinsMarked table.now marks.new }
{
    let n = table.len() / 2;
    let mut s = 0;
    // (d) The steps are of one slot or of four, so no `for` has them.
    while s < n {
        if is_quiet(table, s) {
            s += 4;
        } else {
            mark_slot(marks, table[2 * s], table[2 * s + 1]);
            s += 1;
        }
    }
}
