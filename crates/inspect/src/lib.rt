// What a station's display asks, with nothing changed. Of the record: the known keys; what a chunk of the open register
// holds, its role and how many of its entries or blocks the register still goes by; the first data chunk from a number
// on that holds no live block. Of an image alone, open or not: modules `header`, `history`, `entries`. Module `counts`
// counts what a chunk holds.
#![tactic(auto)]

ghost use Rattle.std.specs.Prelude.{◌≡◌, length, ◌==◌};
ghost use Rattle.spec.specs.Basics.{either};
ghost use Rattle.inspect.specs.KnownKeys.{Known, KnownBy};
ghost use Rattle.spec.specs.Words.{words_of};
ghost use Rattle.spec.specs.Places.{chunks_in};
ghost use Rattle.places.specs.Sizes.{power_of};
ghost use Rattle.inspect.specs.Rows.{blocks_for, plain_row};
ghost use Rattle.inspect.specs.ByTable.{row_by, row_at, empty_by};
ghost use Rattle.inspect.specs.Contract.{Described, DescribedBy, EmptyFound, Emptied, EmptiedBy};

pub mod counts;
pub mod entries;
pub mod header;
pub mod history;

use session::{CLEANING, COMMIT, Control, REST, STAGING, Session, Setup};
use spec::{Refusal, Report, Role, Size};

// A register open and at rest, in a staging, in a commit, or in a cleaning.
fn is_counted(phase: u64) -> bool
    ensures { result ≡ either (phase == 1) (either (phase == 2) (either (phase == 3) (phase == 6))) }
{
    matches!(phase, REST | STAGING | COMMIT | CLEANING)
}

// The known keys, by the record's control.
pub fn known_keys(control: Control) -> u64
    ensures { KnownBy control result }
{
    let keys = control.keys as u64;
    if is_counted(control.phase) { keys } else { 0 }
}

// The known keys of the open register; 0 where none is open, and while a formatting is unfinished.
pub fn keys(s: &Session) -> u64
    ensures { Known s.now result }
{
    known_keys(s.control)
}

// THE ROW OF A CHUNK
// How many blocks of so many units a chunk has.
fn blocks_of(size: Size, units: u64) -> u64
    ensures { result ≡ blocks_for (power_of size) units }
{
    if units == 0 {
        0
    } else {
        places::units(size) as u64 / units
    }
}

// A row in numbers: `refused` is 0, or the refusal's number with all others 0.
// (a) The C interface has these numbers.
#[repr(C)]
#[derive(Clone, Copy)]
pub struct ChunkRow {
    pub refused: u64,
    pub role: u64,
    pub size: u64,
    pub live: u64,
    pub deletes: u64,
    pub superseded: u64,
    pub blocks: u64,
    pub used: u64,
}

// With nothing in it.
fn plain_row(refused: u64, role: u64) -> ChunkRow
    ensures { result ≡ plain_row refused role }
{
    ChunkRow {
        refused,
        role,
        size: 0,
        live: 0,
        deletes: 0,
        superseded: 0,
        blocks: 0,
        used: 0,
    }
}

// By what the directory says of the chunk.
fn row_for(
    image: &[u8],
    table: &[u64],
    count: usize,
    chunk: usize,
    role: Role,
    size: Size,
) -> ChunkRow
    ensures { result ≡ row_by size (words_of image.now) table.now count chunk role }
{
    match role {
        Role::Free => plain_row(0, 0),
        Role::Log(lines) => {
            let t = counts::count_entries(image, table, chunk, size);
            ChunkRow {
                size: lines,
                live: t.live,
                deletes: t.deletes,
                superseded: t.superseded,
                ..plain_row(0, 1)
            }
        }
        Role::Data(units) => ChunkRow {
            size: units,
            blocks: blocks_of(size, units),
            used: counts::count_blocks(image, table, count, chunk, size),
            ..plain_row(0, 2)
        },
        Role::Wrong => plain_row(0, 3),
    }
}

// The row of a chunk, 16 where the image has no such chunk.
fn row_at(image: &[u8], table: &[u64], chunk: usize, size: Size) -> ChunkRow
    ensures { result ≡ row_at size (words_of image.now) table.now (chunks_in (power_of size) (length image.now)) chunk }
{
    let count = places::chunks_in(size, image.len());
    if 1 <= chunk && chunk < count {
        let role = directory::role_at(image, chunk, size);
        return row_for(image, table, count, chunk, role, size);
    }
    plain_row(16, 0)
}

// 2, 1, 8, 16, or the row of a chunk of the open register, by the record's small parts.
pub fn describe(
    control: Control,
    setup: Setup,
    image: &[u8],
    table: &[u64],
    chunk: usize,
) -> ChunkRow
    ensures { DescribedBy control setup chunk image.now table.now result }
{
    match session::gate(control, setup, image.len(), table.len()) {
        Ok(()) => row_at(image, table, chunk, places::size_by(setup.power)),
        Err(refusal) => plain_row(session::number(refusal), 0),
    }
}

// The same through the record, which is only read.
pub fn describe_chunk(s: &Session, image: &[u8], table: &[u64], chunk: usize) -> ChunkRow
    ensures { Described s.now chunk image.now table.now result }
{
    describe(s.control, s.setup, image, table, chunk)
}

// A DATA CHUNK TO CLEAN
// Whether a chunk is a data chunk none of whose blocks is live, and not below `from`.
fn is_empty(
    image: &[u8],
    table: &[u64],
    count: usize,
    from: usize,
    chunk: usize,
    size: Size,
) -> bool
    ensures { result ≡ empty_by size (words_of image.now) table.now count from chunk }
{
    from <= chunk
        && directory::is_data(directory::role_at(image, chunk, size))
        && counts::count_blocks(image, table, count, chunk, size) == 0
}

// The first such chunk of an image of `count` chunks.
fn next_empty(image: &[u8], table: &[u64], count: usize, from: usize, size: Size) -> Option<usize>
    ensures { EmptyFound size (words_of image.now) table.now count from result }
{
    for c in 1..count {
        if is_empty(image, table, count, from, c, size) {
            return Some(c);
        }
    }
    None
}

// 2, 1, 8, or the first data chunk of the open register from chunk `from` on with no live block, or 16; by the record's
// small parts.
pub fn find_empty(
    control: Control,
    setup: Setup,
    image: &[u8],
    table: &[u64],
    from: usize,
) -> Report
    ensures { EmptiedBy control setup from image.now table.now result }
{
    match session::gate(control, setup, image.len(), table.len()) {
        Ok(()) => {
            let size = places::size_by(setup.power);
            let count = places::chunks_in(size, image.len());
            match next_empty(image, table, count, from, size) {
                Some(chunk) => Report::Chosen(chunk),
                None => Report::Refused(Refusal::NotCleanable),
            }
        }
        Err(refusal) => Report::Refused(refusal),
    }
}

// The same through the record, which is only read.
pub fn empty_chunk(s: &Session, image: &[u8], table: &[u64], from: usize) -> Report
    ensures { Emptied s.now from image.now table.now result }
{
    find_empty(s.control, s.setup, image, table, from)
}
