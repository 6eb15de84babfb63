// Staging: put, delete and abandon. A plan finds the refusal or the new item and changes nothing; the call records the
// item, which changes the record alone.
#![tactic(auto)]

ghost use Rattle.std.specs.Prelude.{◌≡◌, true, false, ◌≤◌, ◌<◌, length};
ghost use Rattle.spec.specs.Machine.{Put, Delete, Abandon};
ghost use Rattle.std.specs.Prelude.{None, Some};
ghost use Rattle.staging.specs.Staging.{refused_with, one_more, PutWhere, Short, Long};
ghost use Rattle.staging.specs.Planned.{LogPlanned, BlockPlanned, DeletePlanned};
ghost use Rattle.session.specs.Promise.{Does, memory_of};

pub mod admit;
pub mod large;

use crate::large::LargePlan;
use buffer::Buffer;
use places::size_by;
use session::{Control, Outcome, Setup, Stepped};
use spec::{Refusal, Report};

// ABANDON
// Forgets the staged items: 14 if there are none. It goes by the items that the staged words say, as the state does, so
// that its answer is the rules' for any memory.
pub fn abandon_core(
    control: Control,
    setup: Setup,
    buffer: &Buffer,
    image: &[u8],
    table: &[u64],
) -> Outcome
    ensures { Does Abandon (memory_of control setup buffer.now image.now table.now) (memory_of result.control result.setup buffer.now image.now table.now) result.report }
{
    if let Err(n) = session::gate(control, setup, image.len(), table.len()) {
        return Outcome {
            control,
            setup,
            report: Report::Refused(n),
        };
    }
    let held = control.words;
    if batch::any_item(buffer, held) {
        return Outcome {
            control: session::ended_empty(control),
            setup,
            report: Report::Abandoned,
        };
    }
    Outcome {
        control,
        setup,
        report: Report::Refused(Refusal::NothingStaged),
    }
}

// STAGING
// The largest version of a delete, and of a put: the last is kept for a delete.
const LAST_DELETE: u64 = 1_048_575;

const LAST_PUT: u64 = 1_048_574;

// The longest value that goes into the log.
const MOST_IN_LOG: usize = 256;

fn refused(control: Control, n: Refusal) -> Stepped
    ensures { result ≡ refused_with control n }
{
    Stepped {
        control,
        report: Report::Refused(n),
    }
}

// A number behind all actions of a staging.
const BEHIND_ALL: usize = 16_384;

// One more item, with so many words in all; the call then has no action, and ends with its next step.
fn one_more(control: Control, words: usize, fresh: usize) -> Stepped
    requires { control.items < 16 }
    ensures { result ≡ one_more control words fresh }
{
    Stepped {
        control: session::one_more(control, BEHIND_ALL, words, fresh),
        report: Report::Begun(0),
    }
}

// PUT
// The item of a staging with no action: its version, and how many staged keys are not known then.
#[derive(Clone, Copy)]
pub struct Item {
    pub version: u64,
    pub fresh: usize,
}

// A put of so many bytes that go into the log: 2, 1, 8, 17, 12, 10, 7, or its item. Nothing is changed.
pub fn plan_in_log(
    control: Control,
    setup: Setup,
    buffer: &Buffer,
    image: &[u8],
    table: &[u64],
    key: u64,
    bytes: usize,
    named: Option<u64>,
) -> Result<Item, Refusal>
    requires { Short bytes }
    ensures { LogPlanned named key bytes (memory_of control setup buffer.now image.now table.now) result }
{
    session::gate(control, setup, image.len(), table.len())?;
    let size = size_by(setup.power);
    let last = admit::version_of(buffer, control.words, table, key, size);
    let more = 2 + (bytes + 7) / 8;
    let room = index::capacity(table.len());
    let fresh = admit::admit(control, named, LAST_PUT, last, more, room)?;
    let version = last + 1;
    Ok(Item { version, fresh })
}

// A put whose value goes into the log, as its plan says.
fn put_in_log(
    control: Control,
    setup: Setup,
    buffer: &mut Buffer,
    image: &[u8],
    table: &[u64],
    key: u64,
    value: &[u8],
    named: Option<u64>,
) -> Stepped
    requires { length value.now ≤ 256 }
    ensures { Does (Put named key value.now) (memory_of control setup buffer.old image.now table.now) (memory_of result.control setup buffer.new image.now table.now) result.report }
{
    let bytes = value.len();
    match plan_in_log(control, setup, buffer, image, table, key, bytes, named) {
        Err(n) => refused(control, n),
        Ok(item) => {
            let field = bytes as u64;
            let end = batch::add_entry(
                buffer,
                control.words,
                1,
                0,
                item.version,
                field,
                key,
                value,
            );
            one_more(control, end, item.fresh)
        }
    }
}

// The item of a staging in a block: its version, how many staged keys are not known then, and where the value goes.
#[derive(Clone, Copy)]
pub struct BlockItem {
    pub version: u64,
    pub fresh: usize,
    pub place: LargePlan,
}

// A put of so many bytes that go into a block: 2, 1, 8, 9, 17, 12, 10, 7, 13, or its item. Nothing is changed.
pub fn plan_in_block(
    control: Control,
    setup: Setup,
    buffer: &Buffer,
    image: &[u8],
    table: &[u64],
    key: u64,
    bytes: usize,
    named: Option<u64>,
) -> Result<BlockItem, Refusal>
    requires { Long bytes }
    ensures { BlockPlanned named key bytes (memory_of control setup buffer.now image.now table.now) result }
{
    session::gate(control, setup, image.len(), table.len())?;
    let size = size_by(setup.power);
    if places::largest_value(size) < bytes {
        return Err(Refusal::TooLong);
    }
    let last = admit::version_of(buffer, control.words, table, key, size);
    let room = index::capacity(table.len());
    let fresh = admit::admit(control, named, LAST_PUT, last, 2, room)?;
    let version = last + 1;
    match large::plan_large(setup, buffer, control.words, image, bytes) {
        Some(place) => Ok(BlockItem {
            version,
            fresh,
            place,
        }),
        None => Err(Refusal::NoSpace),
    }
}

// A put whose value goes into a block, as its plan says: the call has the block's actions to come.
fn put_in_block(
    control: Control,
    setup: Setup,
    buffer: &mut Buffer,
    image: &[u8],
    table: &[u64],
    key: u64,
    value: &[u8],
    named: Option<u64>,
) -> Outcome
    requires { 256 < length value.now }
    ensures { Does (Put named key value.now) (memory_of control setup buffer.old image.now table.now) (memory_of result.control result.setup buffer.new image.now table.now) result.report }
{
    match plan_in_block(
        control,
        setup,
        buffer,
        image,
        table,
        key,
        value.len(),
        named,
    ) {
        Err(n) => Outcome {
            control,
            setup,
            report: Report::Refused(n),
        },
        Ok(item) => {
            let large = large::record_large(
                setup,
                buffer,
                control.words,
                item.version,
                key,
                value,
                item.place,
            );
            Outcome {
                control: session::one_more(control, 0, large.words, item.fresh),
                setup: large.setup,
                report: Report::Begun(item.place.actions),
            }
        }
    }
}

// Whether a value of so many bytes goes into the log. (The record's control is asked for by the shape of the choices
// between two calls, and says nothing of it.)
pub fn is_short(control: Control, bytes: usize) -> bool
    ensures { (result ≡ true → Short bytes) × (result ≡ false → Long bytes) }
{
    bytes <= MOST_IN_LOG
}

// Stages a put of a short value for whatever version stands, which leaves the record's setup; elsewhere nothing is
// done. (Beside `put_core`, with `put_long`, for speed: a call of a short value alone stores no setup.)
pub fn put_short(
    control: Control,
    setup: Setup,
    buffer: &mut Buffer,
    image: &[u8],
    table: &[u64],
    key: u64,
    value: &[u8],
) -> Stepped
    ensures { PutWhere Short None key value.now (memory_of control setup buffer.old image.now table.now) (memory_of result.control setup buffer.new image.now table.now) result.report }
{
    if value.len() <= MOST_IN_LOG {
        return put_in_log(control, setup, buffer, image, table, key, value, None);
    }
    Stepped {
        control,
        report: Report::Idle,
    }
}

// Stages a put of a longer value for whatever version stands; elsewhere nothing is done.
pub fn put_long(
    control: Control,
    setup: Setup,
    buffer: &mut Buffer,
    image: &[u8],
    table: &[u64],
    key: u64,
    value: &[u8],
) -> Outcome
    ensures { PutWhere Long None key value.now (memory_of control setup buffer.old image.now table.now) (memory_of result.control result.setup buffer.new image.now table.now) result.report }
{
    if MOST_IN_LOG < value.len() {
        return put_in_block(control, setup, buffer, image, table, key, value, None);
    }
    Outcome {
        control,
        setup,
        report: Report::Idle,
    }
}

// Stages a put, for the version named or whatever stands: 9, 17, 12, 10, 7, 13.
pub fn put_core(
    control: Control,
    setup: Setup,
    buffer: &mut Buffer,
    image: &[u8],
    table: &[u64],
    key: u64,
    value: &[u8],
    named: Option<u64>,
) -> Outcome
    ensures { Does (Put named key value.now) (memory_of control setup buffer.old image.now table.now) (memory_of result.control result.setup buffer.new image.now table.now) result.report }
{
    if value.len() <= MOST_IN_LOG {
        let staged = put_in_log(control, setup, buffer, image, table, key, value, named);
        return Outcome {
            control: staged.control,
            setup,
            report: staged.report,
        };
    }
    put_in_block(control, setup, buffer, image, table, key, value, named)
}

// DELETE
// 2, 1, 8, 11, 17, 12, 10, 7, or the item. Nothing is changed.
pub fn plan_delete(
    control: Control,
    setup: Setup,
    buffer: &Buffer,
    image: &[u8],
    table: &[u64],
    key: u64,
    named: Option<u64>,
) -> Result<Item, Refusal>
    ensures { DeletePlanned named key (memory_of control setup buffer.now image.now table.now) result }
{
    session::gate(control, setup, image.len(), table.len())?;
    let size = size_by(setup.power);
    let known = admit::known_of(buffer, control.words, table, key, size);
    if !admit::is_present(image, known) {
        return Err(Refusal::KeyAbsent);
    }
    let last = known.version();
    let room = index::capacity(table.len());
    let fresh = admit::admit(control, named, LAST_DELETE, last, 2, room)?;
    let version = last + 1;
    Ok(Item { version, fresh })
}

// Stages a delete as its plan says, for the version named or whatever stands.
pub fn delete_core(
    control: Control,
    setup: Setup,
    buffer: &mut Buffer,
    image: &[u8],
    table: &[u64],
    key: u64,
    named: Option<u64>,
) -> Stepped
    ensures { Does (Delete named key) (memory_of control setup buffer.old image.now table.now) (memory_of result.control setup buffer.new image.now table.now) result.report }
{
    match plan_delete(control, setup, buffer, image, table, key, named) {
        Err(n) => refused(control, n),
        Ok(item) => {
            let none = &image[0..0];
            let end = batch::add_entry(buffer, control.words, 2, 0, item.version, 0, key, none);
            one_more(control, end, item.fresh)
        }
    }
}
