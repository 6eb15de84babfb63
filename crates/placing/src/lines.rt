// Where a commit writes: the first log chunk with space, else the first free chunk if enough are free.
ghost use Rattle.std.specs.Prelude.{◌≡◌, ◌≤◌};
ghost use Rattle.spec.specs.Words.{words_of};
ghost use Rattle.spec.specs.Plans.{has_space};
ghost use Rattle.places.specs.Sizes.{power_of};
ghost use Rattle.directory.specs.Found.{Stops};
ghost use Rattle.placing.specs.Found.{place_in, Sought, Near, Started, FreeStart, Hinted, Searching};

use directory::{directory_word, free_from, lines_of};
use spec::Size;

// Where the lines go: `committed` is the chunk's committed lines, `old` its directory word.
#[derive(Clone, Copy)]
pub struct Place {
    pub chunk: usize,
    pub committed: usize,
    pub old: u64,
}

// A place, if there is one, and the next hint.
#[derive(Clone, Copy)]
pub struct Placed {
    pub place: Option<Place>,
    pub first: usize,
    pub least: usize,
}

// Whether c is a log chunk with space for so many lines behind its committed ones.
fn has_space(image: &[u8], c: usize, lines: usize, size: Size) -> bool
    requires { 1 ≤ c }
    ensures { result ≡ has_space (power_of size) (words_of image.now) lines 0 c }
{
    let committed = lines_of(image, c, size);
    let most = places::lines(size);
    committed != 0 && lines <= most && committed + lines <= most
}

// The same of a chunk other than x.
fn has_other_space(image: &[u8], c: usize, lines: usize, x: usize, size: Size) -> bool
    requires { 1 ≤ c }
    ensures { result ≡ has_space (power_of size) (words_of image.now) lines x c }
{
    c != x && has_space(image, c, lines, size)
}

// The first log chunk other than x with space, from chunk `from` on.
pub fn next_chunk(
    image: &[u8],
    from: usize,
    count: usize,
    lines: usize,
    x: usize,
    size: Size,
) -> Option<usize>
    requires { 1 ≤ from }
    ensures { Sought (has_space (power_of size) (words_of image.now) lines x) from count result }
{
    for c in from..count {
        if has_other_space(image, c, lines, x, size) {
            return Some(c);
        }
    }
    None
}

// The same with any chunk to be found, by number: where there is none, one not below the count, since a hint goes by
// the number that a search stopped at.
fn space_from(image: &[u8], from: usize, count: usize, lines: usize, size: Size) -> usize
    requires { 1 ≤ from }
    ensures { Stops (has_space (power_of size) (words_of image.now) lines 0) from count result }
{
    next_chunk(image, from, count, lines, 0, size).unwrap_or(from.max(count))
}

// Where a search starts, and whether no log chunk behind that chunk has space, and no chunk below it is free.
#[derive(Clone, Copy)]
pub struct Start {
    pub from: usize,
    pub sole: bool,
}

// The same from a start on: where no log chunk behind that one has space, it is the only one to be looked at.
fn near_chunk(image: &[u8], start: Start, count: usize, lines: usize, size: Size) -> usize
    requires { 1 ≤ start.from }
    ensures { Near (power_of size) (words_of image.now) start.from count lines start.sole result }
{
    let from = start.from;
    if !start.sole {
        return space_from(image, from, count, lines, size);
    }
    if from < count && !has_space(image, from, lines, size) {
        count
    } else {
        from
    }
}

// The same for more lines, behind a search for `least`.
fn wider_chunk(
    image: &[u8],
    from: usize,
    count: usize,
    least: usize,
    lines: usize,
    size: Size,
) -> usize
    requires { (1 ≤ from) × (least ≤ lines) }
    ensures { Stops (has_space (power_of size) (words_of image.now) least 0) from count from → Stops (has_space (power_of size) (words_of image.now) lines 0) from count result }
{
    if least < lines {
        space_from(image, from, count, lines, size)
    } else {
        from
    }
}

pub fn place_at(image: &[u8], c: usize, size: Size) -> Place
    ensures { result ≡ place_in (power_of size) (words_of image.now) c }
{
    Place {
        chunk: c,
        committed: lines_of(image, c, size),
        old: directory_word(image, c),
    }
}

// Where a search for so many lines starts: at the hint, unless that says nothing of so few lines.
fn start_of(first: usize, least: usize, lines: usize) -> Start
    ensures { Started first least lines result }
{
    let from = first % 512;
    if lines < least || from == 0 {
        return Start {
            from: 1,
            sole: false,
        };
    }
    Start {
        from,
        sole: 512 <= first,
    }
}

// Where a search for free chunks starts.
fn free_start(start: Start, count: usize) -> usize
    requires { 1 ≤ start.from }
    ensures { FreeStart start count result }
{
    if start.sole && start.from < count {
        start.from
    } else {
        1
    }
}

// The hint that names a chunk, with the mark that no other log chunk has space and no chunk below it is free.
fn hint_of(chunk: usize, sole: bool) -> usize
    ensures { Hinted chunk sole result }
{
    if sole && chunk < 512 {
        512 + chunk
    } else {
        chunk.min(511)
    }
}

// The place for so many lines in an image of `count` chunks, told where to look: `first` and `least` are the hint. A
// free chunk is taken where no log chunk has space for the lines; where none has space for `least`, the next hint says
// so.
pub fn log_place(
    image: &[u8],
    count: usize,
    lines: usize,
    needed: usize,
    first: usize,
    least: usize,
    size: Size,
) -> Placed
    ensures { Searching (power_of size) (words_of image.now) count lines needed first least result }
{
    let start = start_of(first, least, lines);
    let room = least.min(lines);
    let next = near_chunk(image, start, count, room, size);
    let at = wider_chunk(image, next, count, room, lines, size);
    if at < count {
        return Placed {
            place: Some(place_at(image, at, size)),
            first: hint_of(next, start.sole),
            least: room,
        };
    }
    let low = free_start(start, count);
    match free_from(image, low, count, needed, size) {
        Some(c) => Placed {
            place: Some(place_at(image, c, size)),
            first: hint_of(next.min(c), count <= next),
            least: room,
        },
        None => Placed {
            place: None,
            first: hint_of(next, false),
            least: room,
        },
    }
}
