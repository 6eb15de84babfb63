// The size of the chunks that the header of an image says, and the station and the centre that it names, whether it is
// open or not. Nothing is changed, and nothing is asked of the arguments.
ghost use Rattle.std.specs.Prelude.{◌≡◌, length};
ghost use Rattle.spec.specs.Words.{words_of};
ghost use Rattle.spec.specs.Places.{is_power};
ghost use Rattle.inspect.specs.Numbers.{size_said, header_taken, station_by, centre_by, station_of, centre_of, ToldAs};

use spec::Size;

// THE SIZE
// By the power that the header says: any but 16 is read as that of small chunks.
pub fn size_said(image: &[u8]) -> Size
    ensures { result ≡ size_said (words_of image.now) }
{
    places::size_by(opening::power_said(image))
}

// There are chunks of that power.
fn is_power(power: u64) -> bool
    ensures { result ≡ is_power power }
{
    power == 12 || power == 16
}

// The header is right, for an image of the lent length, and there are chunks of the power that it says.
fn is_taken(image: &[u8]) -> bool
    ensures { result ≡ header_taken (length image.now) (words_of image.now) }
{
    let power = opening::power_said(image);
    if !is_power(power) {
        return false;
    }
    let size = places::size_by(power);
    let count = places::chunks_in(size, image.len());
    opening::header_fits(image, count)
}

// THE HEADER'S NUMBERS
// By the bit map and the word behind the count.
fn station_by(map: u64, first: u64) -> Option<u64>
    ensures { result ≡ station_by map first }
{
    match map {
        3 | 7 | 11 | 15 => Some(first),
        _ => None,
    }
}

// By the bit map and the two words behind the count.
fn centre_by(map: u64, first: u64, second: u64) -> Option<u64>
    ensures { result ≡ centre_by map first second }
{
    match map {
        5 | 13 => Some(first),
        7 | 15 => Some(second),
        _ => None,
    }
}

// The station number that the header names; absent where it names none, or is not right.
pub fn station(image: &[u8]) -> Option<u64>
    ensures { result ≡ station_of (length image.now) (words_of image.now) }
{
    if !is_taken(image) {
        return None;
    }
    station_by(words::load(image, 0), words::load(image, 2))
}

// The centre number that the header names; absent where it names none, or is not right.
pub fn centre(image: &[u8]) -> Option<u64>
    ensures { result ≡ centre_of (length image.now) (words_of image.now) }
{
    if !is_taken(image) {
        return None;
    }
    let first = words::load(image, 2);
    let second = words::load(image, 3);
    centre_by(words::load(image, 0), first, second)
}

// 1 and the number, or 0 and 0 where it is absent.
fn tell(given: Option<u64>, number: &mut u64) -> u64
    ensures { ToldAs given result number.new }
{
    match given {
        Some(n) => {
            *number = n;
            1
        }
        None => {
            *number = 0;
            0
        }
    }
}

pub fn tell_station(image: &[u8], number: &mut u64) -> u64
    ensures { ToldAs (station_of (length image.now) (words_of image.now)) result number.new }
{
    tell(station(image), number)
}

pub fn tell_centre(image: &[u8], number: &mut u64) -> u64
    ensures { ToldAs (centre_of (length image.now) (words_of image.now)) result number.new }
{
    tell(centre(image), number)
}
