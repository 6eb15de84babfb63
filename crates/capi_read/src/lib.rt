// The public calls that only read, for a host in C: each stands for the call whose contract it cites, with plain
// numbers in and out, as `capi` says of all. None has a `requires`. They are a library of their own: in one with those
// that change a register choosing takes 9 % more instructions.
#![tactic(auto)]

ghost use Rattle.answers.specs.Answers.{Encodes, Shown, CountTold, ListTold};
ghost use Rattle.std.specs.Prelude.{◌≡◌, length};
ghost use Rattle.spec.specs.Words.{words_of};
ghost use Rattle.spec.specs.Directory.{free_chunks};
ghost use Rattle.store.specs.Look.{Reported};
ghost use Rattle.store.specs.Choice.{Chosen};
ghost use Rattle.store.specs.List.{KeysListed, KeyListed};
ghost use Rattle.directory.specs.Counts.{lines_used};
ghost use Rattle.inspect.specs.KnownKeys.{Known};
ghost use Rattle.inspect.specs.Numbers.{power_read, chunks_read, station_of, centre_of, ToldAs};
ghost use Rattle.inspect.specs.History.{entry_from};
ghost use Rattle.inspect.specs.KeyEntries.{entries_from, EntriesListed};
ghost use Rattle.faults.specs.Faults.{Told as Located};
ghost use Rattle.inspect.specs.Contract.{Described, Emptied};

use answers::Answer;
use faults::FaultPlace;
use inspect::ChunkRow;
use inspect::history::KeyEntry;
use session::Session;

// The chunk to clean (`store::choose`).
#[unsafe(no_mangle)]
pub extern "C" fn zkv_choose(s: &Session, image: &[u8], table: &[u64]) -> Answer
    ensures { Encodes (Chosen s.now image.now table.now) result }
{
    let report = store::choose(s, image, table);
    Answer::from(report)
}

// Where in the image the value of a key lies (`store::find`): the answer is 0, or the refusal's number with
// `start` and `length` 0.
#[unsafe(no_mangle)]
pub extern "C" fn zkv_look_up(
    s: &Session,
    image: &[u8],
    table: &[u64],
    key: u64,
    start: &mut u64,
    length: &mut u64,
) -> u64
    ensures { Shown (Reported s.now key image.now table.now) result start.new length.new }
{
    let report = store::find(s, image, table, key);
    answers::encode_look_up(report, start, length)
}

// The present keys, rising, into the lent words as far as these reach (`store::list_keys`); `count` gets how many
// there are.
#[unsafe(no_mangle)]
pub extern "C" fn zkv_list_keys(
    s: &Session,
    image: &[u8],
    table: &[u64],
    keys: &mut [u64],
    count: &mut u64,
) -> u64
    ensures { CountTold (KeysListed s.now image.now table.now keys.old keys.new) result count.new }
{
    let listed = store::list_keys(s, image, table, keys);
    answers::encode_count(listed, count)
}

// Of a present key its version, its value's length, and 1 where a block has it, 0 where the log has
// (`store::list_key`).
#[unsafe(no_mangle)]
pub extern "C" fn zkv_list_key(
    s: &Session,
    image: &[u8],
    table: &[u64],
    key: u64,
    version: &mut u64,
    length: &mut u64,
    block: &mut u64,
) -> u64
    ensures { ListTold (KeyListed s.now key image.now table.now) result version.new length.new block.new }
{
    let listed = store::list_key(s, image, table, key);
    answers::encode_listed(listed, version, length, block)
}

// The known keys of the open register (`inspect::keys`).
#[unsafe(no_mangle)]
pub extern "C" fn zkv_keys(s: &Session) -> u64
    ensures { Known s.now result }
{
    inspect::keys(s)
}

// How many chunks the directory says are free, of the size that the header says (`directory::free_chunks`).
#[unsafe(no_mangle)]
pub extern "C" fn zkv_free_chunks(image: &[u8]) -> u64
    ensures { result ≡ length (free_chunks (power_read (words_of image.now)) (chunks_read (length image.now) (words_of image.now)) (words_of image.now)) }
{
    directory::free_chunks(image, inspect::header::size_said(image))
}

// The committed lines of all log chunks (`directory::lines_used`).
#[unsafe(no_mangle)]
pub extern "C" fn zkv_lines_used(image: &[u8]) -> u64
    ensures { result ≡ lines_used (power_read (words_of image.now)) (chunks_read (length image.now) (words_of image.now)) (words_of image.now) }
{
    directory::lines_used(image, inspect::header::size_said(image))
}

// The station number that the header names: 1 and the number, or 0 and 0 (`inspect::header::tell_station`).
#[unsafe(no_mangle)]
pub extern "C" fn zkv_station(image: &[u8], number: &mut u64) -> u64
    ensures { ToldAs (station_of (length image.now) (words_of image.now)) result number.new }
{
    inspect::header::tell_station(image, number)
}

// The centre number that the header names: 1 and the number, or 0 and 0 (`inspect::header::tell_centre`).
#[unsafe(no_mangle)]
pub extern "C" fn zkv_centre(image: &[u8], number: &mut u64) -> u64
    ensures { ToldAs (centre_of (length image.now) (words_of image.now)) result number.new }
{
    inspect::header::tell_centre(image, number)
}

// The entries of a key that stand at or behind a word of the image, into the lent words as far as these reach
// (`inspect::entries::entries_from`); how many there are.
#[unsafe(no_mangle)]
pub extern "C" fn zkv_entries(image: &[u8], key: u64, from: usize, words: &mut [u64]) -> usize
    ensures { EntriesListed (entries_from (power_read (words_of image.now)) (chunks_read (length image.now) (words_of image.now)) (words_of image.now) key from) words.old words.new result }
{
    inspect::entries::entries_from(image, key, from, words)
}

// The first entry of a key that stands at or behind a word of the image (`inspect::history::entry_from`).
#[unsafe(no_mangle)]
pub extern "C" fn zkv_entry(image: &[u8], key: u64, from: usize) -> KeyEntry
    ensures { result ≡ entry_from (power_read (words_of image.now)) (chunks_read (length image.now) (words_of image.now)) (words_of image.now) key from }
{
    inspect::history::entry_from(image, key, from)
}

// Why an opening refuses the image, and where (`faults::find_fault`).
#[unsafe(no_mangle)]
pub extern "C" fn zkv_fault(image: &[u8]) -> FaultPlace
    ensures { Located image.now result }
{
    faults::find_fault(image)
}

// What a chunk of the open register holds (`inspect::describe_chunk`).
#[unsafe(no_mangle)]
pub extern "C" fn zkv_chunk(s: &Session, image: &[u8], table: &[u64], chunk: usize) -> ChunkRow
    ensures { Described s.now chunk image.now table.now result }
{
    inspect::describe_chunk(s, image, table, chunk)
}

// The first data chunk of the open register from a number on with no live block, which can be cleaned
// (`inspect::empty_chunk`).
#[unsafe(no_mangle)]
pub extern "C" fn zkv_empty_chunk(s: &Session, image: &[u8], table: &[u64], from: usize) -> Answer
    ensures { Encodes (Emptied s.now from image.now table.now) result }
{
    let report = inspect::empty_chunk(s, image, table, from);
    Answer::from(report)
}
