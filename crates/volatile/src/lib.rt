// What the key table, the block bits and the chunks' sums hold of an image, one entry more and one entry less, and the
// laws by which one pass over the log builds them. Here the words of the key table; module `chunk_sums` has the sums.
#![tactic(auto)]

ghost use Rattle.std.specs.Prelude.{◌≡◌};
ghost use Rattle.volatile.specs.Known.{extent_of, alone, noted};

pub mod chunk_sums;

use packing::Info;
use spec::Size;

// One less than the bytes of an entry's value, where it lies in the log and is longer than a byte; else, and in large
// chunks, 0.
pub fn extent_of(size: Size, placement: u64, field: u64) -> u64
    ensures { result ≡ extent_of size placement field }
{
    match (size, placement) {
        (Size::Small, 0) => field.saturating_sub(1),
        _ => 0,
    }
}

// What the table is to hold of a key whose only entry stands at word `place` of the image.
pub fn single_entry(size: Size, extent: u64, place: usize, version: u64) -> u64
    ensures { result ≡ alone size extent place version }
{
    packing::pack(
        size,
        Info {
            extent,
            place: place as u64,
            version,
            entries: 1,
            several: 0,
        },
    )
}

// What the table is to hold of a key, of which it holds `word`, with one more entry: `own` is what it would hold with
// that one alone.
pub fn with_entry(size: Size, word: u64, own: u64) -> u64
    ensures { result ≡ noted size word own }
{
    if word == 0 {
        return own;
    }
    let info = packing::unpack(size, word);
    let new = packing::unpack(size, own);
    let entries = info.entries + 1;
    let raised = if info.version < new.version {
        Info {
            entries,
            several: 0,
            ..new
        }
    } else if info.version == new.version {
        Info {
            entries,
            several: 1,
            ..info
        }
    } else {
        Info { entries, ..info }
    };
    packing::pack(size, raised)
}
