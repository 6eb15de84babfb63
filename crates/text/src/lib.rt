// Numbers and words as text: the decimal number that a text begins with; bytes and decimal digits put behind a text, in
// lent bytes or in a text of limited length; and lent bytes filled from an input.
#![tactic(auto)]

ghost use Rattle.std.specs.Prelude.{◌≡◌, ℕ, ◌≤◌, List, [], length, take};
ghost use Rattle.std.specs.List.{fold, prefix_len};
ghost use Rattle.std.specs.Counts.{IsPrefixLen};
ghost use Rattle.std.specs.Io.KnownBytes.{Consumes};
ghost use Rattle.text.specs.Spelled.{is_digit, with_digit, spelled, number_of, behind_digits};
ghost use Rattle.text.specs.Text.{most_digits, decimal, right_in, with_bytes_at, behind, with_bytes, Digits};

use std::io::Read;
use std::marker::Model;

// READING
// One digit more behind a number, modulo 2^64.
fn with_digit(value: u64, b: u8) -> u64
    ensures { result ≡ with_digit value b }
{
    value
        .wrapping_mul(10)
        .wrapping_add(u64::from(b.saturating_sub(b'0')))
}

// How many digits a text begins with.
fn digits_before(text: &[u8]) -> usize
    ensures { result ≡ prefix_len is_digit text.now }
{
    text.iter().take_while(|b| b.is_ascii_digit()).count()
}

// What a text of digits spells, modulo 2^64.
fn value(digits: &[u8]) -> u64
    ensures { result ≡ fold with_digit 0 digits.now }
{
    digits.iter().fold(0, |value, b| with_digit(value, *b))
}

// The decimal number that a text begins with, modulo 2^64, none where it begins with no digit; and the text behind it.
pub fn number(text: &[u8]) -> (Option<u64>, &[u8])
    ensures value { result.0 ≡ number_of text.now }
    ensures rest { result.1.now ≡ behind_digits text.now }
{
    let (digits, rest) = text.split_at(digits_before(text));
    if digits.is_empty() {
        (None, rest)
    } else {
        (Some(value(digits)), rest)
    }
}

// WRITING
// A number of 64 bits has so many decimal digits at most.
const MOST_DIGITS: usize = 20;

// The decimal digits of a number, at the end of the lent bytes; where they start. The bytes before them stay.
// (c) Of `write!` it is promised what it wrote where it says `Ok`, but not that it says so where there is room.
fn digits(out: &mut [u8; MOST_DIGITS], number: u64) -> usize
    ensures { Digits out.old out.new number result }
{
    let mut rest = number;
    for from in (0..MOST_DIGITS).rev() {
        out[from] = b'0' + (rest % 10) as u8;
        rest /= 10;
        if rest == 0 {
            return from;
        }
    }
    unreachable!()
}

// Bytes behind the first `at` of a text, where it has room for them; how far the text goes then.
fn put_bytes_at(text: &mut [u8], at: usize, bytes: &[u8]) -> usize
    ensures { (result ≡ behind text.old at bytes.now) × (text.new ≡ with_bytes_at text.old at bytes.now) }
{
    if text.len() < at || text.len() - at < bytes.len() {
        return at;
    }
    let end = at + bytes.len();
    text[at..end].copy_from_slice(bytes);
    end
}

// The decimal digits of a number behind the first `at` of a text, right-aligned in so many columns.
// `Text` puts its digits by it.
pub fn put_right(text: &mut [u8], at: usize, number: u64, width: usize) -> usize
    requires { width ≤ most_digits }
    ensures { (result ≡ behind text.old at (right_in width (decimal number))) × (text.new ≡ with_bytes_at text.old at (right_in width (decimal number))) }
{
    let mut spelled = [b' '; MOST_DIGITS];
    let from = digits(&mut spelled, number);
    put_bytes_at(text, at, &spelled[from.min(MOST_DIGITS - width)..])
}

// A text of N bytes at most.
#[derive(Drop)]
pub struct Text<const N: usize> {
    bytes: [u8; N],
    len: usize,
}

// Clauses see the text.
impl<const N: usize> Model for Text<N> {
    ghost Value = { List ℕ };

    ghost view = { λ t. take t.len t.bytes };

    ghost invariant = { λ t. t.len ≤ N };
}

impl<const N: usize> Text<N> {
    // No bytes yet.
    pub fn new() -> Self
        ensures { result ≡ [] }
    {
        Text {
            bytes: [0; N],
            len: 0,
        }
    }

    pub fn as_bytes(&self) -> &[u8]
        ensures text { result.now ≡ self.now }
        ensures room { length self.now ≤ N }
    {
        let bytes = &self.bytes[..];
        &bytes[..self.len]
    }

    // Bytes behind the text, where it has room for them.
    pub fn put_bytes(&mut self, bytes: &[u8])
        ensures { self.new ≡ with_bytes N self.old bytes.now }
    {
        self.len = put_bytes_at(&mut self.bytes, self.len, bytes);
    }

    // The decimal digits of a number behind the text, right-aligned in so many columns.
    pub fn put_right(&mut self, number: u64, width: usize)
        requires { width ≤ most_digits }
        ensures { self.new ≡ with_bytes N self.old (right_in width (decimal number)) }
    {
        self.len = put_right(&mut self.bytes, self.len, number, width);
    }

    // The decimal digits of a number behind the text.
    pub fn put_decimal(&mut self, number: u64)
        ensures { self.new ≡ with_bytes N self.old (decimal number) }
    {
        self.put_right(number, 0);
    }
}

// FILLING
// One read into lent bytes; how many bytes, 0 where it fails.
fn read_some<R: Read>(input: &mut R, bytes: &mut [u8]) -> usize
    ensures prefix_len { IsPrefixLen result bytes.new }
    ensures read { Consumes (R.remaining input.old) (R.remaining input.new) (take result bytes.new) }
{
    input.read(bytes).unwrap_or(0)
}

// Reads until the lent bytes are full, the input ends or a read fails; how many bytes.
// (d) The library's `read_exact` does not say how many where the input ends before.
pub fn read_full<R: Read>(input: &mut R, bytes: &mut [u8]) -> usize
    ensures prefix_len { IsPrefixLen result bytes.new }
    ensures read { Consumes (R.remaining input.old) (R.remaining input.new) (take result bytes.new) }
{
    let mut done = 0;
    while done < bytes.len() {
        let n = read_some(input, &mut bytes[done..]);
        if n == 0 {
            break;
        }
        done += n;
    }
    done
}
