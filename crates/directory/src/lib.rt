// What the directory of an image says: the role of a chunk, its committed lines or its block size, which chunks are
// free, and whether every word is right. Nothing is asked of the image: a word past its end reads 0.
#![tactic(auto)]

ghost use Rattle.std.specs.Prelude.{◌≡◌, ◌≤◌, length, get_or};
ghost use Rattle.spec.specs.Basics.{pick};
ghost use Rattle.spec.specs.Words.{words_of};
ghost use Rattle.spec.specs.Places.{chunks_in, directory_word};
ghost use Rattle.places.specs.Sizes.{power_of};
ghost use Rattle.spec.specs.Directory.{role_at, lines_in, size_in, lines_of, size_of, is_free, is_data, is_role, free_chunks};
ghost use Rattle.spec.specs.Opening.{directory_test};
ghost use Rattle.spec.specs.Plans.{free_chunk};
ghost use Rattle.directory.specs.Tests.{word_right, directory_fault};
ghost use Rattle.directory.specs.Found.{found_of, FreeFound};
ghost use Rattle.directory.specs.Counts.{lines_used};

use codec::role_of;
use spec::{Role, Size};
use words::load;

// A ROLE
// The committed lines, 0 unless a log chunk's.
fn lines_in(role: Role) -> usize
    ensures { result ≡ lines_in role }
{
    match role {
        Role::Log(lines) => lines as usize,
        Role::Free | Role::Data(_) | Role::Wrong => 0,
    }
}

// The block size in units, 0 unless a data chunk's.
pub fn size_in(role: Role) -> usize
    ensures { result ≡ size_in role }
{
    match role {
        Role::Data(size) => size as usize,
        Role::Free | Role::Log(_) | Role::Wrong => 0,
    }
}

pub fn is_data(role: Role) -> bool
    ensures { result ≡ is_data role }
{
    matches!(role, Role::Data(_))
}

fn is_role(role: Role) -> bool
    ensures { result ≡ is_role role }
{
    !matches!(role, Role::Wrong)
}

// A CHUNK
// The directory word of chunk c.
pub fn directory_word(image: &[u8], c: usize) -> u64
    ensures { result ≡ get_or (words_of image.now) (directory_word c) 0 }
{
    if c < 0x8000_0000_0000_0000 {
        load(image, 8 + c)
    } else {
        0
    }
}

// What the directory says of chunk c.
pub fn role_at(image: &[u8], c: usize, size: Size) -> Role
    ensures { result ≡ role_at (power_of size) (words_of image.now) c }
{
    role_of(size, directory_word(image, c))
}

// The committed lines of chunk c, 0 unless it is a log chunk.
pub fn lines_of(image: &[u8], c: usize, size: Size) -> usize
    ensures { (result ≡ lines_of (power_of size) (words_of image.now) c) × (result ≤ 1024) }
{
    lines_in(role_at(image, c, size))
}

// The block size of chunk c in units, 0 unless it is a data chunk.
pub fn size_of(image: &[u8], c: usize, size: Size) -> usize
    ensures { (result ≡ size_of (power_of size) (words_of image.now) c) × (result ≤ 256) }
{
    size_in(role_at(image, c, size))
}

// Whether chunk c is free, of either size: its word is 0.
#[tactic(auto, unfolding(spec::specs::Directory::role_of))]
pub fn is_free(image: &[u8], c: usize, size: Size) -> bool
    ensures { result ≡ is_free (role_at (power_of size) (words_of image.now) c) }
{
    directory_word(image, c) == 0
}

// ITS TEST, of an image of `count` chunks
// Whether the directory word of chunk c is right.
fn word_right(image: &[u8], count: usize, c: usize, size: Size) -> bool
    ensures { result ≡ word_right (power_of size) count (words_of image.now) c }
{
    let word = directory_word(image, c);
    if 1 <= c && c < count {
        is_role(role_of(size, word))
    } else {
        word == 0
    }
}

// The first chunk whose directory word is wrong.
pub fn directory_fault(image: &[u8], count: usize, size: Size) -> Option<usize>
    ensures { result ≡ directory_fault (power_of size) count (words_of image.now) }
{
    (0..504).find(|c| !word_right(image, count, *c, size))
}

// 3: every word of the directory is right.
pub fn directory_fits(image: &[u8], count: usize, size: Size) -> bool
    ensures { result ≡ directory_test (power_of size) count (words_of image.now) }
{
    directory_fault(image, count, size).is_none()
}

// FREE CHUNKS
// The first free chunk, if at least `needed` are free; no chunk below `from` is.
pub fn free_from(
    image: &[u8],
    from: usize,
    count: usize,
    needed: usize,
    size: Size,
) -> Option<usize>
    requires { 1 ≤ from }
    ensures { FreeFound (power_of size) (words_of image.now) from count needed result }
{
    let mut first = None;
    let mut seen: usize = 0;
    for c in from..count {
        if is_free(image, c, size) {
            first = first.or(Some(c));
            seen += 1;
            if needed <= seen {
                return first;
            }
        }
    }
    None
}

// The first free chunk, if at least `needed` are free.
pub fn free_chunk(image: &[u8], count: usize, needed: usize, size: Size) -> Option<usize>
    ensures { result ≡ found_of (free_chunk (power_of size) count (words_of image.now) needed) }
{
    free_from(image, 1, count, needed, size)
}

// COUNTS, of all chunks of an image
// How many chunks are free: those that a commit counts.
pub fn free_chunks(image: &[u8], size: Size) -> u64
    ensures { result ≡ length (free_chunks (power_of size) (chunks_in (power_of size) (length image.now)) (words_of image.now)) }
{
    let count = places::chunks_in(size, image.len());
    (1..count).map(|c| u64::from(is_free(image, c, size))).sum()
}

// The committed lines of all log chunks.
pub fn lines_used(image: &[u8], size: Size) -> u64
    ensures { result ≡ lines_used (power_of size) (chunks_in (power_of size) (length image.now)) (words_of image.now) }
{
    let count = places::chunks_in(size, image.len());
    (1..count).map(|c| lines_of(image, c, size) as u64).sum()
}
