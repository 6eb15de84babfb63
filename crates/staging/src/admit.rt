// What staging finds of a key, and whether it admits one more item of it.
ghost use Rattle.std.specs.Prelude.{◌≡◌, get_or};
ghost use Rattle.index.specs.Index.{get};
ghost use Rattle.spec.specs.Words.{words_of};
ghost use Rattle.spec.specs.Log.{first_of_word};
ghost use Rattle.spec.specs.Plans.{is_named};
ghost use Rattle.staging.specs.Admitting.{admit_named, committed_by, NewestOf, VersionOf, version_in, put_in, present_by, admit_of};

use buffer::{BATCH_WORDS, Buffer};
use session::Control;
use spec::{FirstWord, Refusal, Size};

// What is known of a key: nothing; of a staged one the version and the operation of its last staged item; else the
// version and the place of its chosen entry.
#[derive(Clone, Copy)]
pub enum Newest {
    Unknown,
    Staged { version: u64, op: u64 },
    Committed { version: u64, place: usize },
}

impl Newest {
    // The highest version, 0 where nothing is known.
    pub fn version(self) -> u64
        ensures { result ≡ version_in self }
    {
        match self {
            Newest::Unknown => 0,
            Newest::Staged { version, .. } => version,
            Newest::Committed { version, .. } => version,
        }
    }
}

// What the key table has of a key.
fn committed(table: &[u64], key: u64, size: Size) -> Newest
    ensures { result ≡ committed_by size (get table.now key) }
{
    let info = packing::unpack(size, index::get(table, key));
    if info.version == 0 {
        return Newest::Unknown;
    }
    Newest::Committed {
        version: info.version,
        place: info.place as usize,
    }
}

// (The words of an altered record may say an item with version 0: it counts as none.)
pub fn known_of(buffer: &Buffer, words: usize, table: &[u64], key: u64, size: Size) -> Newest
    ensures { NewestOf size buffer.now words table.now key result }
{
    match batch::last_staged(buffer, words, key) {
        Some(last) if last.version != 0 => Newest::Staged {
            version: last.version,
            op: last.op,
        },
        _ => committed(table, key, size),
    }
}

// The highest version of a key, staged items counted, 0 where it has none. (Inline, since a put's own call of it takes
// forty instructions.)
#[inline(always)]
pub fn version_of(buffer: &Buffer, words: usize, table: &[u64], key: u64, size: Size) -> u64
    ensures { VersionOf size buffer.now words table.now key result }
{
    let latest = batch::last_staged(buffer, words, key);
    match latest {
        Some(last) if last.version != 0 => last.version,
        _ => packing::unpack(size, index::get(table, key)).version,
    }
}

// Whether the entry at a word of the image is a put.
fn is_put(image: &[u8], place: usize) -> bool
    ensures { result ≡ put_in (first_of_word (get_or (words_of image.now) place 0)) }
{
    matches!(
        codec::first_of(words::load(image, place)),
        FirstWord::Entry { op: 1, .. }
    )
}

pub fn is_present(image: &[u8], known: Newest) -> bool
    ensures { result ≡ present_by (words_of image.now) known }
{
    match known {
        Newest::Unknown => false,
        Newest::Staged { op, .. } => op == 1,
        Newest::Committed { place, .. } => is_put(image, place),
    }
}

// The most items of a batch.
const MOST_ITEMS: usize = 16;

// 12, 10, 7 for an item of `more` words whose version is at most `most`, where a table holds `room` keys; `version` is
// the key's highest so far. Else how many staged keys are not known, then.
fn admit_any(
    control: Control,
    most: u64,
    version: u64,
    more: usize,
    room: usize,
) -> Result<usize, Refusal>
    ensures { result ≡ admit_of control most version more room }
{
    if most <= version {
        return Err(Refusal::VersionSpent);
    }
    let words = control.words;
    if MOST_ITEMS <= control.items || BATCH_WORDS < words || BATCH_WORDS - words < more {
        return Err(Refusal::BatchFull);
    }
    let keys = control.keys;
    let fresh = control.fresh;
    let new = usize::from(version == 0);
    if room < keys || room - keys < fresh || room - keys - fresh < new {
        return Err(Refusal::TableFull);
    }
    Ok(fresh + new)
}

// 17: whether a key's highest version is the one that a staging names, if it names one.
fn is_named(named: Option<u64>, version: u64) -> bool
    ensures { result ≡ is_named named version }
{
    match named {
        Some(n) => n == version,
        None => true,
    }
}

// 17, 12, 10, 7, or how many staged keys are not known, then.
pub fn admit(
    control: Control,
    named: Option<u64>,
    most: u64,
    version: u64,
    more: usize,
    room: usize,
) -> Result<usize, Refusal>
    ensures { result ≡ admit_named named control most version more room }
{
    if is_named(named, version) {
        return admit_any(control, most, version, more, room);
    }
    Err(Refusal::OtherVersion)
}
