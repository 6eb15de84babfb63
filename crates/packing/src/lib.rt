// The word that the key table holds of a key: five numbers packed into 64 bits, by the size of the chunks.
#![tactic(auto)]

ghost use Rattle.std.specs.Prelude.{◌≡◌};
ghost use Rattle.packing.specs.Packed.{WordFits, widths, widths_of, pack_by, unpack_by};

use spec::Size;

// What the map holds of a key.
#[derive(Clone, Copy)]
pub struct Info {
    pub extent: u64,
    pub place: u64,
    pub version: u64,
    pub entries: u64,
    pub several: u64,
}

// The word of fields with so many values each, and two of the last; a field that is too wide counts modulo its width.
fn pack_by<const EXTENT: u64, const PLACE: u64, const VERSION: u64, const ENTRIES: u64>(
    info: Info,
) -> u64
    requires { WordFits (widths EXTENT PLACE VERSION ENTRIES) }
    ensures { result ≡ pack_by (widths EXTENT PLACE VERSION ENTRIES) info }
{
    info.extent % EXTENT
        + EXTENT
            * (info.place % PLACE
                + PLACE
                    * (info.version % VERSION
                        + VERSION * (info.entries % ENTRIES + ENTRIES * (info.several % 2))))
}

// The fields of a word.
fn unpack_by<const EXTENT: u64, const PLACE: u64, const VERSION: u64, const ENTRIES: u64>(
    word: u64,
) -> Info
    requires { WordFits (widths EXTENT PLACE VERSION ENTRIES) }
    ensures { result ≡ unpack_by (widths EXTENT PLACE VERSION ENTRIES) word }
{
    let places = word / EXTENT;
    let versions = places / PLACE;
    let counts = versions / VERSION;
    Info {
        extent: word % EXTENT,
        place: places % PLACE,
        version: versions % VERSION,
        entries: counts % ENTRIES,
        several: counts / ENTRIES,
    }
}

// The word of a key's numbers.
pub fn pack(size: Size, info: Info) -> u64
    ensures { result ≡ pack_by (widths_of size) info }
{
    match size {
        Size::Small => pack_by::<0x100, 0x4_0000, 0x10_0000, 0x2_0000>(info),
        Size::Large => pack_by::<1, 0x40_0000, 0x10_0000, 0x20_0000>(info),
    }
}

// And the numbers of a word.
pub fn unpack(size: Size, word: u64) -> Info
    ensures { result ≡ unpack_by (widths_of size) word }
{
    match size {
        Size::Small => unpack_by::<0x100, 0x4_0000, 0x10_0000, 0x2_0000>(word),
        Size::Large => unpack_by::<1, 0x40_0000, 0x10_0000, 0x20_0000>(word),
    }
}
