// The public calls with a version in hand, for a host in C: look-up with the version, and stagings for a version named,
// with plain numbers in and out, as `capi` says of all. None has a `requires`. They are a library of their own, so that
// in `capi` and `capi_read` the functions below a put and a look-up have one caller, and the compiler drops what these
// calls alone need.
#![tactic(auto)]

ghost use Rattle.spec.specs.Machine.{Put, Delete};
ghost use Rattle.std.specs.Prelude.{Some};
ghost use Rattle.store.specs.Look.{Reported};
ghost use Rattle.answers.specs.Answers.{Encodes, ShownWith};
ghost use Rattle.session.specs.Promise.{Does, memory};

use answers::Answer;
use session::Session;

// Where in the image the value of a key lies, and its version (`store::find`): the answer is 0, or the refusal's
// number with 0 in all three.
#[unsafe(no_mangle)]
pub extern "C" fn zkv_look_up_version(
    s: &Session,
    image: &[u8],
    table: &[u64],
    key: u64,
    start: &mut u64,
    length: &mut u64,
    version: &mut u64,
) -> u64
    ensures { ShownWith (Reported s.now key image.now table.now) result start.new length.new version.new }
{
    let report = store::find(s, image, table, key);
    answers::encode_version(report, start, length, version)
}

// Begins staging a put for the version named (`store::stage_put_at`).
#[unsafe(no_mangle)]
pub extern "C" fn zkv_put_at(
    s: &mut Session,
    image: &[u8],
    table: &[u64],
    key: u64,
    value: &[u8],
    version: u64,
) -> Answer
    ensures { Encodes (Does (Put (Some version) key value.now) (memory s.old image.now table.now) (memory s.new image.now table.now)) result }
{
    let report = store::stage_put_at(s, image, table, key, value, version);
    Answer::from(report)
}

// Begins staging a delete for the version named (`store::stage_delete_at`).
#[unsafe(no_mangle)]
pub extern "C" fn zkv_delete_at(
    s: &mut Session,
    image: &[u8],
    table: &[u64],
    key: u64,
    version: u64,
) -> Answer
    ensures { Encodes (Does (Delete (Some version) key) (memory s.old image.now table.now) (memory s.new image.now table.now)) result }
{
    let report = store::stage_delete_at(s, image, table, key, version);
    Answer::from(report)
}
