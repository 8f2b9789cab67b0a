//! Numbers of a fixed count of digits.
ghost use Rattle.std.specs.Prelude.{◌≡◌, ◌++◌, ◌≤◌, ◌<◌, ◌^◌, length, IfSome, IfOk, OnOk};
ghost use Rattle.std.specs.Char.{is_ascii_digit};
ghost use Rattle.std.specs.List.{prefix_len};
ghost use Rattle.mm_base.specs.Numbers.{digits_number};
ghost use Rattle.mm_utc.specs.Digits.{Reads, number_at, below_at, after, at_end, digits_of};

use crate::fault::MomentFault;
use std::alloc::AllocError;

// How many digits the text begins with.
pub(crate) fn digit_count(text: &[u8]) -> usize
    ensures count { result ≡ prefix_len is_ascii_digit text.now }
    ensures within { result ≤ length text.now }
{
    text.iter()
        .take_while(|octet| octet.is_ascii_digit())
        .count()
}

// The number with these digits, or `None` if an octet is not a digit.
pub(crate) fn digits_value(digits: &[u8]) -> Option<u64>
    requires { length digits.now ≤ 18 }
    ensures value { result ≡ digits_number 0 digits.now }
    ensures small { IfSome result (λ number. number < 10 ^ length digits.now) }
{
    let mut number = 0;
    for digit in digits {
        if !digit.is_ascii_digit() {
            return None;
        }
        number = number * 10 + u64::from(*digit - b'0');
    }
    Some(number)
}

// The number that this many digits write, and the text after them.
#[tactic(auto, unfolding(crate::specs::Digits::number_at))]
pub(crate) fn number_at(count: usize, text: &[u8]) -> Result<(u64, &[u8]), MomentFault>
    requires { count ≤ 18 }
    ensures value { Reads (λ x. (x.0, x.1.now)) result (number_at count text.now) }
    ensures small { IfOk result (λ x. x.0 < 10 ^ count) }
{
    if text.len() < count {
        return Err(MomentFault::Form);
    }
    let (digits, rest) = text.split_at(count);
    match digits_value(digits) {
        Some(number) => Ok((number, rest)),
        None => Err(MomentFault::Form),
    }
}

// The number of two digits, which is below the bound, and the text after it.
#[tactic(auto, unfolding(crate::specs::Digits::below_at))]
pub(crate) fn below_at(
    bound: u64,
    fault: MomentFault,
    text: &[u8],
) -> Result<(u64, &[u8]), MomentFault>
    ensures value { Reads (λ x. (x.0, x.1.now)) result (below_at bound fault text.now) }
    ensures small { IfOk result (λ x. x.0 < bound) }
{
    let (number, rest) = number_at(2, text)?;
    if number >= bound {
        return Err(fault);
    }
    Ok((number, rest))
}

// The text after the octet that it begins with.
pub(crate) fn after(octet: u8, text: &[u8]) -> Result<&[u8], MomentFault>
    ensures { Reads (λ rest. rest.now) result (after octet text.now) }
{
    match text {
        [first, rest @ ..] if *first == octet => Ok(rest),
        _ => Err(MomentFault::Form),
    }
}

// Nothing follows.
pub(crate) fn at_end(text: &[u8]) -> Result<(), MomentFault>
    ensures { Reads (λ x. x) result (at_end text.now) }
{
    match text {
        [] => Ok(()),
        _ => Err(MomentFault::Form),
    }
}

// Writes the number at the end of the text, in this many digits.
#[tactic(auto, using(crate::proofs::DigitLemmas::digits_of_more), unfolding(crate::specs::Digits::digits_of))]
pub(crate) fn push_digits(text: &mut Vec<u8>, count: usize, number: u64) -> Result<(), AllocError>
    ensures { OnOk result (text.new.items ≡ text.old.items ++ digits_of count number) }
{
    if count > 0 {
        push_digits(text, count - 1, number / 10)?;
        text.push(b'0' + (number % 10) as u8)?;
    }
    Ok(())
}
