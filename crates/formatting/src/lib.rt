// The begin of a formatting.
#![tactic(auto)]

ghost use Rattle.std.specs.Prelude.{◌≡◌, eqb};
ghost use Rattle.spec.specs.Basics.{both};
ghost use Rattle.spec.specs.Places.{length_allowed};
ghost use Rattle.spec.specs.Machine.{Format};
ghost use Rattle.places.specs.Sizes.{power_of};
ghost use Rattle.formatting.specs.Begun.{given, unfinished_at, formatting_at};
ghost use Rattle.session.specs.Promise.{Does, memory_of};

use buffer::Buffer;
use session::{CLEANING, Control, FORMAT, Outcome, REFORMAT, REST, STAGING, Setup};
use spec::{Refusal, Report, Size};

// FORMAT
// How many actions a formatting has.
const ACTIONS: usize = 582;

// Whether a call is unfinished in a phase.
fn is_unfinished(phase: u64) -> bool
    ensures { result ≡ unfinished_at phase }
{
    matches!(phase, STAGING..=CLEANING)
}

// The phase of a formatting that is begun in a phase with nothing unfinished.
fn formatting_phase(phase: u64) -> u64
    ensures { result ≡ formatting_at phase }
{
    if phase == REST { REFORMAT } else { FORMAT }
}

// Whether the number is the power of this size, and the length is allowed for it.
fn is_allowed(size: Size, power: u64, bytes: usize) -> bool
    ensures { result ≡ both (eqb (power_of size) power) (length_allowed (power_of size) bytes) }
{
    places::power_of(size) == power && places::length_allowed(size, bytes)
}

// 1, 8, or a formatting with what it was told: the chunk power, station and centre number.
pub fn format_core(
    control: Control,
    setup: Setup,
    buffer: &Buffer,
    image: &[u8],
    table: &[u64],
    power: u64,
    station: Option<u64>,
    centre: Option<u64>,
) -> Outcome
    ensures { Does (Format power station centre) (memory_of control setup buffer.now image.now table.now) (memory_of result.control result.setup buffer.now image.now table.now) result.report }
{
    let size = places::size_by(power);
    if !is_allowed(size, power, image.len()) {
        return Outcome {
            control,
            setup,
            report: Report::Refused(Refusal::ImageLength),
        };
    }
    if is_unfinished(control.phase) {
        return Outcome {
            control,
            setup,
            report: Report::Refused(Refusal::Unfinished),
        };
    }
    Outcome {
        control: session::formatting(formatting_phase(control.phase)),
        setup: session::format_setup(
            image.len(),
            table.len(),
            size,
            codec::header_map(size, station, centre),
            station.unwrap_or(0),
            centre.unwrap_or(0),
        ),
        report: Report::Begun(ACTIONS),
    }
}

// The same, told by numbers with a mark whether each is given: what a host in C passes.
pub fn format_told(
    control: Control,
    setup: Setup,
    buffer: &Buffer,
    image: &[u8],
    table: &[u64],
    power: u64,
    station_given: bool,
    station: u64,
    centre_given: bool,
    centre: u64,
) -> Outcome
    ensures { Does (Format power (given station_given station) (given centre_given centre)) (memory_of control setup buffer.now image.now table.now) (memory_of result.control result.setup buffer.now image.now table.now) result.report }
{
    let a = station_given.then_some(station);
    let b = centre_given.then_some(centre);
    format_core(control, setup, buffer, image, table, power, a, b)
}
