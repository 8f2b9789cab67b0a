//! Numbers in texts: in decimal, without sign and without leading zeros.
ghost use Rattle.std.specs.Prelude.{◌≡◌, ◌+◌, ◌-◌, ◌*◌, ◌++◌, ◌∷◌, nat_le, decimal, ◌≤◌, ◌&&◌, not, length, drop, Some};
ghost use Rattle.std.specs.Prelude.{None, OnOk, if◌then◌else◌};
ghost use Rattle.std.specs.Char.{is_ascii_digit};
ghost use Rattle.std.specs.List.{list_all};
ghost use Rattle.mm_base.specs.Numbers.{is_number, value_after, digits_number, digits_numeral, numeral_within};
ghost use Rattle.mm_base.specs.Numbers.{numeral_of, IsWithin};

use itoa::{Buffer, write_digits};
use std::alloc::AllocError;

/// The result of reading a text as a number up to a bound.
#[derive(Clone, Copy, Debug, PartialEq, Eq)]
pub enum Numeral {
    /// The text is not a number: it is empty, has a character that is not a digit, or begins with a 0 before another
    /// digit.
    NotNumber,
    /// The text is a number above the bound, of any length.
    TooLarge,
    Number(u64),
}

impl Numeral {
    /// Reads the text as a number up to `most`.
    pub fn read(text: &[u8], most: u64) -> Numeral
        ensures numeral { result ≡ numeral_of most text.now }
        ensures within { IsWithin most result }
    {
        if begins_as_no_number(text) {
            Numeral::NotNumber
        } else if text.len() <= SHORT {
            short_numeral(text, most)
        } else {
            long_numeral(text, most)
        }
    }
}

// Every number of at most this many digits is below 2^64.
const SHORT: usize = 19;

// Whether the text is empty, or begins with a 0 before another character.
fn begins_as_no_number(text: &[u8]) -> bool
    ensures { is_number text.now ≡ (not result && list_all is_ascii_digit text.now) }
{
    match text {
        [] => true,
        [_] => false,
        [first, _, ..] => *first == b'0',
    }
}

// The number with these digits, or `None` if a character is not a digit.
fn short_value(digits: &[u8]) -> Option<u64>
    requires { length digits.now ≤ SHORT }
    ensures { result ≡ digits_number 0 digits.now }
{
    let mut number = 0;
    for digit in digits {
        if !digit.is_ascii_digit() {
            return None;
        }
        number = number * 10 + u64::from(*digit - b'0');
    }
    Some(number)
}

fn short_numeral(text: &[u8], most: u64) -> Numeral
    requires { length text.now ≤ SHORT }
    ensures numeral { result ≡ digits_numeral most text.now }
    ensures within { IsWithin most result }
{
    match short_value(text) {
        Some(number) if number <= most => Numeral::Number(number),
        Some(_) => Numeral::TooLarge,
        None => Numeral::NotNumber,
    }
}

fn are_digits(text: &[u8]) -> bool
    ensures { result ≡ list_all is_ascii_digit text.now }
{
    text.iter().all(|octet| octet.is_ascii_digit())
}

fn long_numeral(text: &[u8], most: u64) -> Numeral
    ensures numeral { result ≡ digits_numeral most text.now }
    ensures within { IsWithin most result }
{
    if are_digits(text) {
        value_of(text, most)
    } else {
        Numeral::NotNumber
    }
}

// The number with one more digit at its end, or `None` if that is above the bound.
fn with_digit(number: u64, digit: u8, most: u64) -> Option<u64>
    ensures { result ≡ (if nat_le (number * 10 + (digit - 48)) most then Some (number * 10 + (digit - 48)) else None) }
{
    let digit = u64::from(digit.saturating_sub(b'0'));
    if digit <= most && number <= (most - digit) / 10 {
        Some(number * 10 + digit)
    } else {
        None
    }
}

// The number with these digits, up to the bound.
#[tactic(auto, using(crate::proofs::NumberLaws::value_after_more, crate::proofs::NumberLaws::value_after_all, crate::proofs::NumberLaws::too_large))]
fn value_of(digits: &[u8], most: u64) -> Numeral
    ensures numeral { result ≡ numeral_within most (value_after 0 digits.now) }
    ensures within { IsWithin most result }
{
    let mut number = 0;
    for digit in digits {
        match with_digit(number, *digit, most) {
            Some(next) => number = next,
            None => return Numeral::TooLarge,
        }
    }
    Numeral::Number(number)
}

/// Writes a number in decimal at the end of a text.
pub fn push_number(text: &mut Vec<u8>, number: u64) -> Result<(), AllocError>
    ensures { OnOk result (text.new.items ≡ text.old.items ++ decimal number) }
{
    let mut buffer = Buffer::new();
    text.extend_from_slice(buffer.format(number).as_bytes())
}

/// Writes an octet and after it the digits of a number, so that the last digit stands before the place `end`, and
/// returns the place of the octet. They take at most 11 octets. A line with several numbers is written from its last
/// number to its first.
pub fn write_number(octets: &mut [u8], end: usize, octet: u8, number: u32) -> usize
    requires room { 11 ≤ end }
    requires within { end ≤ length octets.old }
    ensures written { drop result octets.new ≡ octet ∷ decimal number ++ drop end octets.old }
    ensures least { end ≤ result + 11 }
    ensures most { result ≤ end }
{
    let first = write_digits(u64::from(number), octets, end) - 1;
    octets[first] = octet;
    first
}
