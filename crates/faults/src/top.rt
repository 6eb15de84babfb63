// The first top entry whose block is wrong, and the first that disagrees with the chosen one of its key or shares its
// block with another key's: the places of the refusals 5 and 6. The keys are looked at by ranges of their classes, each
// with a table of the call's own and a pass over the log, so that entries are not met in the order of their places: of
// the places found the least is kept.
ghost use Rattle.std.specs.Prelude.{◌≡◌, ◌≤◌, ◌<◌, ◌^◌};
ghost use Rattle.spec.specs.Words.{words_of};
ghost use Rattle.places.specs.Sizes.{unit_count};
ghost use Rattle.consistency.specs.Classes.{table_in, holds_keys};
ghost use Rattle.faults.specs.Spots.{least, joined, Unused, ComparedIs, SharedIs, VisitedIs, SweptAs, Spotted};

use consistency::partition::{Asked, CLASSES, Classes, collect, pass_over};
use consistency::{
    OWN_WORDS, agreed, block_fine, is_enough, next_width, points, range_end, top_of,
};
use logs::{Cursor, Entry};
use places::{LARGE_UNITS, SMALL_UNITS};
use spec::Size;
use words::load;

// The first words of the two entries that are found.
#[derive(Clone, Copy)]
pub struct Spots {
    pub block: Option<usize>,
    pub tops: Option<usize>,
}

// The lesser of the place found before, if one is, and this one.
fn least(so: Option<usize>, at: usize) -> Option<usize>
    ensures { result ≡ least so at }
{
    match so {
        Some(so) => Some(so.min(at)),
        None => Some(at),
    }
}

// 6: AGREEMENT
// The least place of a top entry at odds with others, with one more; the chosen one of its key stands at word `place`.
fn compared(image: &[u8], tops: Option<usize>, e: Entry, place: usize) -> Option<usize>
    ensures { ComparedIs (words_of image.now) e place tops result }
{
    if agreed(image, true, e, place) {
        tops
    } else {
        least(tops, e.place)
    }
}

// 6: SHARING
// The user of a unit to which top entries of several keys point. It is no place: entries stand behind the directory.
const SEVERAL: usize = 1;

// The user of a unit, and the least place of a top entry at odds with others. The user is 0 where no top entry points
// to the unit; where those of one key do, the least place of them; where those of several do, SEVERAL.
// (a) A word for each unit of the fixed memory says all three, so the user is a number.
#[derive(Clone, Copy)]
pub struct Joined {
    pub user: u64,
    pub tops: Option<usize>,
}

// The same with one more top entry that points to the unit: it is of this key and stands at word `at`.
fn join(image: &[u8], user: u64, tops: Option<usize>, key: u64, at: usize) -> Joined
    ensures { result ≡ joined (words_of image.now) user tops key at }
{
    let one = user as usize;
    if one == 0 {
        return Joined {
            user: at as u64,
            tops,
        };
    }
    if one == SEVERAL {
        return Joined {
            user,
            tops: least(tops, at),
        };
    }
    if load(image, one.min(image.len() / 8) + 1) == key {
        return Joined {
            user: one.min(at) as u64,
            tops,
        };
    }
    Joined {
        user: SEVERAL as u64,
        tops: least(least(tops, one), at),
    }
}

// One more top entry, if it points to a unit. The answer is the least place of a top entry at odds with others.
fn shared(image: &[u8], units: &mut [u64], tops: Option<usize>, e: Entry) -> Option<usize>
    ensures { SharedIs (words_of image.now) e tops units.old units.new result }
{
    let unit = e.field as usize;
    if !points(e.op, e.placement) || units.len() <= unit {
        return tops;
    }
    let j = join(image, units[unit], tops, e.key, e.place);
    units[unit] = j.user;
    j.tops
}

// THE PASS
// One entry of the pass, which looks at a range of classes. Where a block is wrong, the other place is not asked for.
fn visit(
    image: &[u8],
    count: usize,
    known: Option<&[u64]>,
    classes: Classes,
    units: &mut [u64],
    so: Spots,
    e: Entry,
    size: Size,
) -> Spots
    ensures { VisitedIs size count (words_of image.now) (table_in known.entry) (holds_keys known.entry) classes.low classes.high so e units.old units.new result }
{
    if !classes.holds(e.key) {
        return so;
    }
    let top = top_of(image, count, known, e.key, size);
    if e.version != top.version {
        return so;
    }
    if !block_fine(image, count, e, size) {
        return Spots {
            block: least(so.block, e.place),
            ..so
        };
    }
    let odd = compared(image, so.tops, e, top.place);
    Spots {
        tops: shared(image, units, odd, e),
        ..so
    }
}

// The pass over the log of an image of `count` chunks, for a range of classes, of which a table may be known to hold
// the keys.
fn sweep(
    image: &[u8],
    count: usize,
    known: Option<&[u64]>,
    classes: Classes,
    units: &mut [u64],
    so: Spots,
    size: Size,
) -> Spots
    ensures { SweptAs size count (words_of image.now) (table_in known.entry) (holds_keys known.entry) classes.low classes.high so units.old units.new result }
{
    let asked = Asked {
        single: false,
        marks: &[],
        classes,
    };
    let mut s = so;
    let mut cursor = logs::first_cursor();
    loop {
        let at = pass_over(image, cursor.at, cursor.end, asked);
        match logs::next_in_log(image, count, Cursor { at, ..cursor }, size) {
            Ok(Some(e)) => {
                s = visit(image, count, known, classes, units, s, e, size);
                cursor = e.behind;
            }
            Ok(None) => return s,
            Err(_) => return s,
        }
    }
}

// The places in the log of an image of `count` chunks, one range of classes after the other, with a word for each unit.
// A range whose keys do not fit the table of the call's own is halved; of one class alone whose keys do not fit, top
// entries are found by scans.
fn spots_with(image: &[u8], count: usize, units: &mut [u64], size: Size) -> Spots
    requires { Unused size units.old }
    ensures { Spotted size count (words_of image.now) result }
{
    let mut own: [u64; OWN_WORDS] = [0; OWN_WORDS];
    let mut s = Spots {
        block: None,
        tops: None,
    };
    let mut low: u64 = 0;
    let mut width: u64 = CLASSES;
    // (d) The ranges are of many widths, so no `for` has them.
    while low < CLASSES {
        let high = range_end(low, width);
        let classes = Classes { low, high };
        let keys = collect(image, count, &mut own, classes, size);
        if !is_enough(keys.is_some(), width) {
            width /= 2;
            continue;
        }
        let known = keys.and(Some(&own[..]));
        s = sweep(image, count, known, classes, units, s, size);
        low = high;
        if let Some(keys) = keys {
            width = next_width(width, keys);
        }
    }
    s
}

// The same with words of the call's own, as many as units of such chunks: those of small ones are few.
fn spots_by<const UNITS: usize>(image: &[u8], count: usize, size: Size) -> Spots
    requires room { unit_count size ≤ UNITS }
    requires small { UNITS < 2 ^ 32 }
    ensures { Spotted size count (words_of image.now) result }
{
    let mut units = [0; UNITS];
    spots_with(image, count, &mut units, size)
}

pub fn find_spots(image: &[u8], count: usize, size: Size) -> Spots
    ensures { Spotted size count (words_of image.now) result }
{
    match size {
        Size::Small => spots_by::<SMALL_UNITS>(image, count, size),
        Size::Large => spots_by::<LARGE_UNITS>(image, count, size),
    }
}
