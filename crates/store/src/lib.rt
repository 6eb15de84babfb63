// THE PUBLIC CALLS: thin functions over the station record, which is lent as one `&mut` and altered in place. Each
// copies the record's small parts, lends its buffer where it lies to the core that does the work, and stores the small
// parts back. Every call is lent record, image and key table. None has a `requires`: what each answers and leaves is
// said by `Called`. Their shape, each the same few lines, is there for speed: the record is copied in parts and stored
// back in parts, as the call alters them.
#![tactic(auto)]

ghost use Rattle.spec.specs.Machine.{Open, Commit, Clean, Format, Put, Delete, Abandon, Step};
ghost use Rattle.formatting.specs.Begun.{given};
ghost use Rattle.session.specs.Promise.{Does, memory};
ghost use Rattle.std.specs.Prelude.{None, Some};
ghost use Rattle.staging.specs.Staging.{PutWhere, Short, Long};
ghost use Rattle.running.specs.Run.{StepsOn, RunsOn};
ghost use Rattle.running.specs.Fast.{FastStep, Finishing, OnFastPath, InStaging};
ghost use Rattle.store.specs.Look.{Reported, Shown, ShownValue};
ghost use Rattle.store.specs.Choice.{Chosen};
ghost use Rattle.store.specs.List.{KeysListed, KeyListed};

use lookup::{Listing, Value};
use session::Session;
use spec::{Refusal, Report};

// OPENING AND FORMATTING
// Begins a formatting, told the chunk power; the register's numbers are told each with a mark whether it is given.
pub fn format(
    s: &mut Session,
    image: &[u8],
    table: &[u64],
    power: u64,
    station_given: bool,
    station: u64,
    centre_given: bool,
    centre: u64,
) -> Report
    ensures { Does (Format power (given station_given station) (given centre_given centre)) (memory s.old image.now table.now) (memory s.new image.now table.now) result }
{
    let c = s.control;
    let k = s.setup;
    let m = formatting::format_told(
        c,
        k,
        &s.buffer,
        image,
        table,
        power,
        station_given,
        station,
        centre_given,
        centre,
    );
    s.control = m.control;
    s.setup = m.setup;
    m.report
}

// Opens the register of the lent image, whatever record and table hold: the refusal 1 to 7, or opened.
pub fn open_register(s: &mut Session, image: &[u8], table: &mut [u64]) -> Report
    ensures { Does Open (memory s.old image.now table.old) (memory s.new image.now table.new) result }
{
    let c = s.control;
    let k = s.setup;
    let m = opening::open_core(c, k, &mut s.buffer, image, table);
    s.control = m.control;
    s.setup = m.setup;
    m.report
}

// STAGING
// Begins staging a put of up to 4,088 bytes (65,528 in large chunks), for whatever version stands.
pub fn stage_put(s: &mut Session, image: &[u8], table: &[u64], key: u64, value: &[u8]) -> Report
    ensures { Does (Put None key value.now) (memory s.old image.now table.now) (memory s.new image.now table.now) result }
{
    let c = s.control;
    let k = s.setup;
    let m = staging::put_core(c, k, &mut s.buffer, image, table, key, value, None);
    s.control = m.control;
    s.setup = m.setup;
    m.report
}

// The same for the version named: 17 where the key's highest, staged items counted, is another; 0 names that of a key
// neither known nor staged.
pub fn stage_put_at(
    s: &mut Session,
    image: &[u8],
    table: &[u64],
    key: u64,
    value: &[u8],
    version: u64,
) -> Report
    ensures { Does (Put (Some version) key value.now) (memory s.old image.now table.now) (memory s.new image.now table.now) result }
{
    let c = s.control;
    let k = s.setup;
    let named = Some(version);
    let m = staging::put_core(c, k, &mut s.buffer, image, table, key, value, named);
    s.control = m.control;
    s.setup = m.setup;
    m.report
}

// A put for whatever version stands, of a value that goes into the log (`staging::is_short`); elsewhere nothing is
// done. Of the record's small parts it alters the control alone.
pub fn stage_short(s: &mut Session, image: &[u8], table: &[u64], key: u64, value: &[u8]) -> Report
    ensures { PutWhere Short None key value.now (memory s.old image.now table.now) (memory s.new image.now table.now) result }
{
    let c = s.control;
    let k = s.setup;
    let m = staging::put_short(c, k, &mut s.buffer, image, table, key, value);
    s.control = m.control;
    m.report
}

// The same for a longer value; elsewhere nothing is done.
pub fn stage_long(s: &mut Session, image: &[u8], table: &[u64], key: u64, value: &[u8]) -> Report
    ensures { PutWhere Long None key value.now (memory s.old image.now table.now) (memory s.new image.now table.now) result }
{
    let c = s.control;
    let k = s.setup;
    let m = staging::put_long(c, k, &mut s.buffer, image, table, key, value);
    s.control = m.control;
    s.setup = m.setup;
    m.report
}

// Begins staging a delete, for whatever version stands.
pub fn stage_delete(s: &mut Session, image: &[u8], table: &[u64], key: u64) -> Report
    ensures { Does (Delete None key) (memory s.old image.now table.now) (memory s.new image.now table.now) result }
{
    let c = s.control;
    let k = s.setup;
    let m = staging::delete_core(c, k, &mut s.buffer, image, table, key, None);
    s.control = m.control;
    m.report
}

// The same for the version named.
pub fn stage_delete_at(
    s: &mut Session,
    image: &[u8],
    table: &[u64],
    key: u64,
    version: u64,
) -> Report
    ensures { Does (Delete (Some version) key) (memory s.old image.now table.now) (memory s.new image.now table.now) result }
{
    let c = s.control;
    let k = s.setup;
    let named = Some(version);
    let m = staging::delete_core(c, k, &mut s.buffer, image, table, key, named);
    s.control = m.control;
    m.report
}

// Forgets the staged items.
pub fn abandon(s: &mut Session, image: &[u8], table: &[u64]) -> Report
    ensures { Does Abandon (memory s.old image.now table.now) (memory s.new image.now table.now) result }
{
    let c = s.control;
    let k = s.setup;
    let m = staging::abandon_core(c, k, &s.buffer, image, table);
    s.control = m.control;
    s.setup = m.setup;
    m.report
}

// THE BEGIN OF A COMMIT AND OF A CLEANING
// Begins the commit of the staged items.
pub fn commit(s: &mut Session, image: &[u8], table: &[u64]) -> Report
    ensures { Does Commit (memory s.old image.now table.now) (memory s.new image.now table.now) result }
{
    let c = s.control;
    let k = s.setup;
    let m = committing::commit_core(c, k, &s.buffer, image, table);
    s.control = m.control;
    s.setup = m.setup;
    m.report
}

// Begins the cleaning of a chunk: what it keeps is to be copied, and the chunk to be freed.
pub fn clean(s: &mut Session, image: &[u8], table: &[u64], chunk: usize) -> Report
    ensures { Does (Clean chunk) (memory s.old image.now table.now) (memory s.new image.now table.now) result }
{
    let c = s.control;
    let k = s.setup;
    let m = cleaning::clean_core(c, k, &mut s.buffer, image, table, chunk);
    s.control = m.control;
    s.setup = m.setup;
    m.report
}

// STEPS AND RUNS of the call that is begun
// One step of the call that is begun: one store, flush or fence, done on the image and reported; or the end; or idle.
pub fn step(s: &mut Session, image: &mut [u8], table: &mut [u64]) -> Report
    ensures { Does Step (memory s.old image.old table.old) (memory s.new image.new table.new) result }
{
    let c = s.control;
    let k = s.setup;
    let m = stepping::step_core(c, k, &mut s.buffer, image, table);
    s.control = m.control;
    m.report
}

// THE FAST PATH: the same step where `running::commit::is_fast_step` says so; elsewhere nothing is done, and the report
// is idle. Of the record it alters the number of the next action alone.
pub fn step_fast(s: &mut Session, image: &mut [u8], table: &mut [u64]) -> Report
    ensures { OnFastPath FastStep (Does Step) (memory s.old image.old table.old) (memory s.new image.new table.new) result }
{
    let c = s.control;
    let k = s.setup;
    let m = running::commit::fast_step(c, k, &s.buffer, image, table);
    s.control.next = m.next;
    m.report
}

// The last action of a commit, which is a fence, or its end: a step that stores no word.
pub fn step_finishing(s: &mut Session, image: &mut [u8], table: &mut [u64]) -> Report
    ensures { OnFastPath Finishing StepsOn (memory s.old image.old table.old) (memory s.new image.new table.new) result }
{
    let c = s.control;
    let k = s.setup;
    let m = running::commit::finish_step(c, k, &mut s.buffer, image, table);
    s.control = m.control;
    m.report
}

// The stores of a commit that come next, and the action behind them, whose report is told; elsewhere nothing, as
// before.
pub fn run_fast(s: &mut Session, image: &mut [u8], table: &mut [u64]) -> Report
    ensures { OnFastPath FastStep RunsOn (memory s.old image.old table.old) (memory s.new image.new table.new) result }
{
    let c = s.control;
    let k = s.setup;
    let m = running::commit::fast_run(c, k, &s.buffer, image, table);
    s.control.next = m.next;
    m.report
}

// A run in a staging: its end is told too.
pub fn run_staging(s: &mut Session, image: &mut [u8], table: &mut [u64]) -> Report
    ensures { OnFastPath InStaging RunsOn (memory s.old image.old table.old) (memory s.new image.new table.new) result }
{
    let c = s.control;
    let k = s.setup;
    let m = running::stage::staging_run(c, k, &s.buffer, image, table);
    s.control = m.control;
    m.report
}

// The same whatever is begun: the steps that store a word, as many as come next, and the step behind them, whose report
// is told.
pub fn run_rest(s: &mut Session, image: &mut [u8], table: &mut [u64]) -> Report
    ensures { RunsOn (memory s.old image.old table.old) (memory s.new image.new table.new) result }
{
    let c = s.control;
    let k = s.setup;
    let m = running::run_core(c, k, &mut s.buffer, image, table);
    s.control = m.control;
    m.report
}

// READING
// The chunk to clean, or 16. The record is only read.
pub fn choose(s: &Session, image: &[u8], table: &[u64]) -> Report
    ensures { Chosen s.now image.now table.now result }
{
    let c = s.control;
    let k = s.setup;
    let b = s.buffer;
    choosing::choose_core(c, k, b, image, table)
}

// Look-up, with its report: a refusal, or where in the image the value lies, and its version. The record is only read.
pub fn find(s: &Session, image: &[u8], table: &[u64], key: u64) -> Report
    ensures { Reported s.now key image.now table.now result }
{
    let c = s.control;
    let k = s.setup;
    lookup::find(c, k, image, table, key)
}

// Look-up: the part of the image that holds the value, the empty part on a refusal; `answer` gets 0 or the refusal's
// number, `version` the value's, 0 on a refusal. The record is only read.
pub fn look_up<'a>(
    s: &Session,
    image: &'a [u8],
    table: &[u64],
    key: u64,
    answer: &mut u64,
    version: &mut u64,
) -> &'a [u8]
    ensures { Shown s.now key image.now table.now result.now answer.new version.new }
{
    let c = s.control;
    let k = s.setup;
    lookup::look_up_core(c, k, image, table, key, answer, version)
}

// Look-up: the value where it lies in the image, with its version, or the refusal. The record is only read.
pub fn look_up_value<'a>(
    s: &Session,
    image: &'a [u8],
    table: &[u64],
    key: u64,
) -> Result<Value<'a>, Refusal>
    ensures { ShownValue s.now key image.now table.now result }
{
    let c = s.control;
    let k = s.setup;
    lookup::look_up_value(c, k, image, table, key)
}

// The present keys, rising, into the lent words as far as these reach, and how many there are. The record is only read.
pub fn list_keys(
    s: &Session,
    image: &[u8],
    table: &[u64],
    keys: &mut [u64],
) -> Result<usize, Refusal>
    ensures { KeysListed s.now image.now table.now keys.old keys.new result }
{
    let c = s.control;
    let k = s.setup;
    lookup::list_keys(c, k, image, table, keys)
}

// Of a present key its version, its value's length, and whether a block has it. The record is only read.
pub fn list_key(s: &Session, image: &[u8], table: &[u64], key: u64) -> Result<Listing, Refusal>
    ensures { KeyListed s.now key image.now table.now result }
{
    let c = s.control;
    let k = s.setup;
    lookup::list_key(c, k, image, table, key)
}
