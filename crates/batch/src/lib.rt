// The staged entries, kept in the batch of the station record's buffer as the very words that a commit writes.
#![tactic(auto)]

ghost use Rattle.std.specs.Prelude.{◌≡◌, ◌+◌, ◌/◌, ◌^◌, ◌<◌, ◌≤◌, length, get_or};
ghost use Rattle.spec.specs.Words.{packed};
ghost use Rattle.spec.specs.Plans.{entry};
ghost use Rattle.words.specs.Overlay.{overlay};
ghost use Rattle.buffer.specs.Areas.{batch_room, buffer_words};
ghost use Rattle.session.specs.Filter.{filter_bit, is_marked};
ghost use Rattle.batch.specs.Items.{item_of, later_of, LastStaged, OnlyDeletes, any_item};
ghost use Rattle.batch.specs.Marks.{marks_of, MarkedWith};
ghost use Rattle.batch.specs.Added.{Added};
ghost use Rattle.batch.specs.Staged.{Staged, ShortStaged};

use buffer::{BATCH_WORDS, Buffer, FILTER};
use codec::{first_of, first_word};
use logs::{ShortPut, next_entry, told_put, words_for};
use spec::{FirstWord, LogStep};
use words::{last_word, read_word};

// What the last staged item of a key says.
#[derive(Clone, Copy)]
pub struct Latest {
    pub op: u64,
    pub version: u64,
}

// What stands at a word of the batch: `size` is the number of words to the next item.
#[derive(Clone, Copy)]
pub struct Item {
    pub op: u64,
    pub version: u64,
    pub key: u64,
    pub size: usize,
}

// An entry that stands at a place of the staged words and ends within them.
#[derive(Clone, Copy)]
pub struct StagedEntry {
    pub op: u64,
    pub placement: u64,
    pub version: u64,
    pub field: u64,
    pub key: u64,
    pub words: usize,
}

// What two words say, of an item's: of others something, and a size.
fn item_of(word: u64, key: u64) -> Item
    ensures { (result ≡ item_of word key) × (1 ≤ result.size) × (result.size < 2 ^ 62) }
{
    let value = words_for(word / 4 % 4, word / 16777216);
    Item {
        op: word % 4,
        version: word / 16 % 1048576,
        key,
        size: 2 + value,
    }
}

// What the words at `at` say, of a batch that is known to have an item there.
fn item_at(buffer: &Buffer, at: usize) -> Item
    requires { at < batch_room }
    ensures { (result ≡ item_of (get_or buffer.now at 0) (get_or buffer.now (at + 1) 0)) × (1 ≤ result.size) × (result.size < 2 ^ 62) }
{
    item_of(buffer[at], buffer[at + 1])
}

fn later(latest: Option<Latest>, key: u64, item: Item) -> Option<Latest>
    ensures { result ≡ later_of key latest item.key item.op item.version }
{
    if item.key == key {
        Some(Latest {
            op: item.op,
            version: item.version,
        })
    } else {
        latest
    }
}

// THE FILTER of the staged keys: a word with a bit for each
// The number of a key's bit.
fn filter_bit(key: u64) -> u64
    ensures { (result ≡ filter_bit key) × (result < 64) }
{
    let halves = (key % 0x1_0000_0000 + key / 0x1_0000_0000) % 0x1_0000_0000;
    halves * 2_654_435_761 % 0x1_0000_0000 / 0x400_0000
}

// The filter; where nothing is staged, its word is not read.
fn marks_of(buffer: &Buffer, words: usize) -> u64
    ensures { result ≡ marks_of buffer.now words }
{
    if words == 0 { 0 } else { buffer[FILTER] }
}

fn is_marked(marks: u64, key: u64) -> bool
    ensures { result ≡ is_marked marks key }
{
    (marks >> filter_bit(key)) % 2 == 1
}

fn marked_with(marks: u64, key: u64) -> u64
    ensures { MarkedWith marks result key }
{
    marks | 1 << filter_bit(key)
}

// The last staged item of a key, looked for in all of them.
fn last_of(buffer: &Buffer, words: usize, key: u64) -> Option<Latest>
    ensures { LastStaged buffer.now words key result }
{
    let end = words.min(BATCH_WORDS);
    let mut latest = None;
    let mut at = 0;
    while at < end {
        let item = item_at(buffer, at);
        latest = later(latest, key, item);
        at += item.size;
    }
    latest
}

// The last staged item of a key: a key that the filter has not is not looked for.
pub fn last_staged(buffer: &Buffer, words: usize, key: u64) -> Option<Latest>
    ensures { LastStaged buffer.now words key result }
{
    let marks = marks_of(buffer, words);
    if is_marked(marks, key) {
        last_of(buffer, words, key)
    } else {
        None
    }
}

// Whether all staged items are deletes.
pub fn only_deletes(buffer: &Buffer, words: usize) -> bool
    ensures { OnlyDeletes buffer.now words result }
{
    let end = words.min(BATCH_WORDS);
    let mut at = 0;
    while at < end {
        let item = item_at(buffer, at);
        if item.op != 2 {
            return false;
        }
        at += item.size;
    }
    true
}

// The entry that stands at word `at` of the staged words before word `end`, if one does. Its fill is not looked at.
pub fn staged_entry(buffer: &Buffer, at: usize, end: usize) -> Option<StagedEntry>
    requires { end ≤ batch_room }
    ensures { Staged buffer.now at end result }
{
    if end <= at {
        return None;
    }
    match first_of(buffer[at]) {
        FirstWord::Padding | FirstWord::Wrong => None,
        FirstWord::Entry {
            op,
            placement,
            version,
            field,
        } => {
            let words = words_for(placement, field);
            if end - at < 2 + words {
                return None;
            }
            Some(StagedEntry {
                op,
                placement,
                version,
                field,
                key: buffer[at + 1],
                words,
            })
        }
    }
}

// The put with its value in the log that stands at word `at` of the staged words before word `end`, if one does.
pub fn short_at(buffer: &Buffer, at: usize, end: usize) -> Option<ShortPut>
    requires { end ≤ batch_room }
    ensures { ShortStaged buffer.now at end result }
{
    told_put(buffer, at, end)
}

// Whether the staged words say an item, whatever they are: words that are no batch say none.
pub fn any_item(buffer: &Buffer, words: usize) -> bool
    ensures { result ≡ any_item buffer.now words }
{
    let end = words.min(BATCH_WORDS);
    let mut any = false;
    let mut at = 0;
    loop {
        match next_entry(buffer, at, end) {
            LogStep::End => {
                return any;
            }
            LogStep::Wrong => {
                return false;
            }
            LogStep::Padding => {
                at += 1;
            }
            LogStep::Entry { words: value, .. } => {
                any = true;
                at += 2 + value;
            }
        }
    }
}

// VALUES
// The words of a value laid over the record's buffer from place `at`, where they fit.
pub fn pack_into(value: &[u8], buffer: &mut Buffer, at: usize)
    requires { at + (length value.now + 7) / 8 ≤ buffer_words }
    ensures { buffer.new ≡ overlay buffer.old at (packed value.now) }
{
    let count = (value.len() + 7) / 8;
    let whole = value.len() / 8;
    for i in 0..whole {
        buffer[at + i] = read_word(value, i);
    }
    if whole < count {
        buffer[at + whole] = last_word(value, whole);
    }
}

// One more staged item, if it fits: its words behind the others, its key in the filter. The answer is the number of
// words then.
pub fn add_entry(
    buffer: &mut Buffer,
    words: usize,
    op: u64,
    placement: u64,
    version: u64,
    field: u64,
    key: u64,
    value: &[u8],
) -> usize
    ensures { Added buffer.old buffer.new words result (entry op placement version field key (packed value.now)) }
{
    let more = 2 + (value.len() + 7) / 8;
    if BATCH_WORDS < words || BATCH_WORDS - words < more {
        return words;
    }
    let marks = marks_of(buffer, words);
    buffer[FILTER] = marked_with(marks, key);
    buffer[words] = first_word(op, placement, version, field);
    buffer[words + 1] = key;
    pack_into(value, buffer, words + 2);
    words + more
}
