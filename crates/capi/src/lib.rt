// THE PUBLIC CALLS FOR A HOST IN C that change a register: each stands for the call whose contract it cites, with plain
// numbers in and out. A slice is a pointer and a count, the record a pointer, an `Answer` a struct of three 64-bit
// numbers. None has a `requires`. Those that only read are in `capi_read`, those with a version in hand in
// `capi_versions`: which calls share a library decides what the compiler puts into which.
#![tactic(auto)]

ghost use Rattle.spec.specs.Machine.{Put, Step, Format, Open, Delete, Commit, Abandon, Clean};
ghost use Rattle.std.specs.Prelude.{None};
ghost use Rattle.staging.specs.Staging.{PutWhere, Long};
ghost use Rattle.answers.specs.Answers.{Encodes, is_given};
ghost use Rattle.session.specs.Promise.{Does, memory};
ghost use Rattle.running.specs.Run.{RunsOn};
ghost use Rattle.formatting.specs.Begun.{given};

use answers::Answer;
use session::Session;

// THE FAST PATH. Each of the three calls that a label's way to the module is made of, a put, a step and a run, is asked
// here in turn, the common case first: is it this case, then the function of `store` for it alone, else the next one
// below. They are apart, each a function that calls the next, for the compiler: one function with all cases would save
// every register that the rarest of them needs before the first question, and copy more of the record.
//
// A put in numbers, as `store::stage_put` does: of a short value by `store::stage_short`, which alters less
// of the record, else by `store::stage_long`.
pub fn put(s: &mut Session, image: &[u8], table: &[u64], key: u64, value: &[u8]) -> Answer
    ensures { Encodes (Does (Put None key value.now) (memory s.old image.now table.now) (memory s.new image.now table.now)) result }
{
    let c = s.control;
    let short = staging::is_short(c, value.len());
    if short {
        let report = store::stage_short(s, image, table, key, value);
        return Answer::from(report);
    } else {
        let answer = put_long(s, image, table, key, value);
        return answers::same(answer);
    }
}

// A put of a longer value in numbers (`store::stage_long`); of a short one nothing is done.
pub fn put_long(s: &mut Session, image: &[u8], table: &[u64], key: u64, value: &[u8]) -> Answer
    ensures { Encodes (PutWhere Long None key value.now (memory s.old image.now table.now) (memory s.new image.now table.now)) result }
{
    let report = store::stage_long(s, image, table, key, value);
    Answer::from(report)
}

// The step in numbers: on the fast path inside a commit `store::step_fast`, else as below.
pub fn step(s: &mut Session, image: &mut [u8], table: &mut [u64]) -> Answer
    ensures { Encodes (Does Step (memory s.old image.old table.old) (memory s.new image.new table.new)) result }
{
    let c = s.control;
    let k = s.setup;
    let fast = running::commit::is_fast_step(c, k, image.len(), table.len());
    if fast {
        let report = store::step_fast(s, image, table);
        return Answer::from(report);
    } else {
        let answer = step_finishing(s, image, table);
        return answers::same(answer);
    }
}

// The step in numbers, where no commit has more than its last action to come: then `store::step_finishing`, else
// `store::step`.
pub fn step_finishing(s: &mut Session, image: &mut [u8], table: &mut [u64]) -> Answer
    ensures { Encodes (Does Step (memory s.old image.old table.old) (memory s.new image.new table.new)) result }
{
    let c = s.control;
    let k = s.setup;
    let finishing = running::commit::is_finishing(c, k, image.len(), table.len());
    if finishing {
        let report = store::step_finishing(s, image, table);
        return Answer::from(report);
    } else {
        let answer = step_slow(s, image, table);
        return answers::same(answer);
    }
}

// The step in numbers, whatever is begun (`store::step`).
pub fn step_slow(s: &mut Session, image: &mut [u8], table: &mut [u64]) -> Answer
    ensures { Encodes (Does Step (memory s.old image.old table.old) (memory s.new image.new table.new)) result }
{
    let report = store::step(s, image, table);
    Answer::from(report)
}

// A run in numbers, whatever is begun: in a staging `store::run_staging`, else as below.
pub fn run(s: &mut Session, image: &mut [u8], table: &mut [u64]) -> Answer
    ensures { Encodes (RunsOn (memory s.old image.old table.old) (memory s.new image.new table.new)) result }
{
    let c = s.control;
    let k = s.setup;
    let staging = running::stage::is_staging(c, k, image.len(), table.len());
    if staging {
        let report = store::run_staging(s, image, table);
        return Answer::from(report);
    } else {
        let answer = run_commit(s, image, table);
        return answers::same(answer);
    }
}

// A run in numbers, where no staging is begun: inside a commit `store::run_fast`, else as below.
pub fn run_commit(s: &mut Session, image: &mut [u8], table: &mut [u64]) -> Answer
    ensures { Encodes (RunsOn (memory s.old image.old table.old) (memory s.new image.new table.new)) result }
{
    let c = s.control;
    let k = s.setup;
    let fast = running::commit::is_fast_step(c, k, image.len(), table.len());
    if fast {
        let report = store::run_fast(s, image, table);
        return Answer::from(report);
    } else {
        let answer = run_finishing(s, image, table);
        return answers::same(answer);
    }
}

// A run in numbers, where no commit has a store to come: at a commit's last action and its end `store::step_finishing`,
// else as below.
pub fn run_finishing(s: &mut Session, image: &mut [u8], table: &mut [u64]) -> Answer
    ensures { Encodes (RunsOn (memory s.old image.old table.old) (memory s.new image.new table.new)) result }
{
    let c = s.control;
    let k = s.setup;
    let finishing = running::commit::is_finishing(c, k, image.len(), table.len());
    if finishing {
        let report = store::step_finishing(s, image, table);
        return Answer::from(report);
    } else {
        let answer = run_clean(s, image, table);
        return answers::same(answer);
    }
}

// The same, where a commit has neither store nor end to come, with a cleaning told apart: so the last of these
// functions is called in two places, and the compiler keeps it out of the runs of commits and stagings, which then save
// few registers.
pub fn run_clean(s: &mut Session, image: &mut [u8], table: &mut [u64]) -> Answer
    ensures { Encodes (RunsOn (memory s.old image.old table.old) (memory s.new image.new table.new)) result }
{
    let c = s.control;
    let k = s.setup;
    let copying = running::is_copying(c, k, image.len(), table.len());
    if copying {
        let answer = run_rest(s, image, table);
        return answers::same(answer);
    } else {
        let answer = run_rest_apart(s, image, table);
        return answers::same(answer);
    }
}

// The same, where no cleaning has more than its last action to come.
pub fn run_rest_apart(s: &mut Session, image: &mut [u8], table: &mut [u64]) -> Answer
    ensures { Encodes (RunsOn (memory s.old image.old table.old) (memory s.new image.new table.new)) result }
{
    let answer = run_rest(s, image, table);
    answers::same(answer)
}

// A run in numbers, whatever is begun (`store::run_rest`).
pub fn run_rest(s: &mut Session, image: &mut [u8], table: &mut [u64]) -> Answer
    ensures { Encodes (RunsOn (memory s.old image.old table.old) (memory s.new image.new table.new)) result }
{
    let report = store::run_rest(s, image, table);
    Answer::from(report)
}

// THE CALLS
// Begins a formatting (`store::format`), told the chunk power; a mark is 0 where the number behind it is absent.
#[unsafe(no_mangle)]
pub extern "C" fn zkv_format(
    s: &mut Session,
    image: &[u8],
    table: &[u64],
    power: u64,
    station_given: u64,
    station: u64,
    centre_given: u64,
    centre: u64,
) -> Answer
    ensures { Encodes (Does (Format power (given (is_given station_given) station) (given (is_given centre_given) centre)) (memory s.old image.now table.now) (memory s.new image.now table.now)) result }
{
    let a = answers::is_given(station_given);
    let b = answers::is_given(centre_given);
    let report = store::format(s, image, table, power, a, station, b, centre);
    Answer::from(report)
}

// Opens the register of the lent image (`store::open_register`).
#[unsafe(no_mangle)]
pub extern "C" fn zkv_open(s: &mut Session, image: &[u8], table: &mut [u64]) -> Answer
    ensures { Encodes (Does Open (memory s.old image.now table.old) (memory s.new image.now table.new)) result }
{
    let report = store::open_register(s, image, table);
    Answer::from(report)
}

// Begins staging a put (`put`).
#[unsafe(no_mangle)]
pub extern "C" fn zkv_put(
    s: &mut Session,
    image: &[u8],
    table: &[u64],
    key: u64,
    value: &[u8],
) -> Answer
    ensures { Encodes (Does (Put None key value.now) (memory s.old image.now table.now) (memory s.new image.now table.now)) result }
{
    put(s, image, table, key, value)
}

// Begins staging a delete (`store::stage_delete`).
#[unsafe(no_mangle)]
pub extern "C" fn zkv_delete(s: &mut Session, image: &[u8], table: &[u64], key: u64) -> Answer
    ensures { Encodes (Does (Delete None key) (memory s.old image.now table.now) (memory s.new image.now table.now)) result }
{
    let report = store::stage_delete(s, image, table, key);
    Answer::from(report)
}

// Begins the commit of the staged items (`store::commit`).
#[unsafe(no_mangle)]
pub extern "C" fn zkv_commit(s: &mut Session, image: &[u8], table: &[u64]) -> Answer
    ensures { Encodes (Does Commit (memory s.old image.now table.now) (memory s.new image.now table.now)) result }
{
    let report = store::commit(s, image, table);
    Answer::from(report)
}

// Forgets the staged items (`store::abandon`).
#[unsafe(no_mangle)]
pub extern "C" fn zkv_abandon(s: &mut Session, image: &[u8], table: &[u64]) -> Answer
    ensures { Encodes (Does Abandon (memory s.old image.now table.now) (memory s.new image.now table.now)) result }
{
    let report = store::abandon(s, image, table);
    Answer::from(report)
}

// Begins the cleaning of a chunk (`store::clean`).
#[unsafe(no_mangle)]
pub extern "C" fn zkv_clean(s: &mut Session, image: &[u8], table: &[u64], chunk: usize) -> Answer
    ensures { Encodes (Does (Clean chunk) (memory s.old image.now table.now) (memory s.new image.now table.now)) result }
{
    let report = store::clean(s, image, table, chunk);
    Answer::from(report)
}

// One step of the call that is begun (`step`).
#[unsafe(no_mangle)]
pub extern "C" fn zkv_step(s: &mut Session, image: &mut [u8], table: &mut [u64]) -> Answer
    ensures { Encodes (Does Step (memory s.old image.old table.old) (memory s.new image.new table.new)) result }
{
    step(s, image, table)
}

// Several steps in one: those that store a word, as many as come next, and the step behind them (`run`).
#[unsafe(no_mangle)]
pub extern "C" fn zkv_run(s: &mut Session, image: &mut [u8], table: &mut [u64]) -> Answer
    ensures { Encodes (RunsOn (memory s.old image.old table.old) (memory s.new image.new table.new)) result }
{
    run(s, image, table)
}
