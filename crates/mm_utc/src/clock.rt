//! The time of day, in microseconds from midnight (ISO 8601-1, 5.3).
ghost use Rattle.std.specs.Prelude.{◌≡◌, ◌<◌, IfOk};
ghost use Rattle.mm_utc.specs.Digits.{Reads};
ghost use Rattle.mm_utc.specs.Clock.{fraction_at, digits_fraction_at, seconds_at, second_at, clock_at};

use crate::digits::{after, below_at, digit_count, number_at};
use crate::fault::MomentFault;

/// The microseconds of a second.
pub const SECOND: u64 = 1_000_000;

/// The microseconds of a minute.
pub const MINUTE: u64 = 60_000_000;

/// The microseconds of an hour.
pub const HOUR: u64 = 3_600_000_000;

/// The microseconds of a day.
pub const DAY: u64 = 86_400_000_000;

// The microseconds of the digits of a second, and the text after them.
#[tactic(auto, unfolding(crate::specs::Clock::digits_fraction_at))]
fn digits_fraction_at(text: &[u8]) -> Result<(u64, &[u8]), MomentFault>
    ensures value { Reads (λ x. (x.0, x.1.now)) result (digits_fraction_at text.now) }
    ensures small { IfOk result (λ x. x.0 < SECOND) }
{
    let count = digit_count(text);
    if count == 0 {
        return Err(MomentFault::Form);
    }
    if count > 6 {
        return Err(MomentFault::TooFine);
    }
    let (number, rest) = number_at(count, text)?;
    Ok((number * 10u64.pow(6 - count as u32), rest))
}

// The microseconds of the fraction of a second that follows, if one does, and the text after it.
fn fraction_at(text: &[u8]) -> Result<(u64, &[u8]), MomentFault>
    ensures value { Reads (λ x. (x.0, x.1.now)) result (fraction_at text.now) }
    ensures small { IfOk result (λ x. x.0 < SECOND) }
{
    match text {
        [b'.', rest @ ..] => digits_fraction_at(rest),
        _ => Ok((0, text)),
    }
}

// The second of a minute and its fraction, in microseconds, and the text after them.
#[tactic(auto, unfolding(crate::specs::Clock::second_at))]
fn second_at(text: &[u8]) -> Result<(u64, &[u8]), MomentFault>
    ensures value { Reads (λ x. (x.0, x.1.now)) result (second_at text.now) }
    ensures small { IfOk result (λ x. x.0 < MINUTE) }
{
    let (second, rest) = number_at(2, text)?;
    if second == 60 {
        return Err(MomentFault::LeapSecond);
    }
    if second > 60 {
        return Err(MomentFault::NoSuchTime);
    }
    let (part, rest) = fraction_at(rest)?;
    Ok((second * SECOND + part, rest))
}

// The same where a colon and a second follow; without them the minute begins.
fn seconds_at(text: &[u8]) -> Result<(u64, &[u8]), MomentFault>
    ensures value { Reads (λ x. (x.0, x.1.now)) result (seconds_at text.now) }
    ensures small { IfOk result (λ x. x.0 < MINUTE) }
{
    match text {
        [b':', rest @ ..] => second_at(rest),
        _ => Ok((0, text)),
    }
}

// The time of day, and the text after it.
#[tactic(auto, unfolding(crate::specs::Clock::clock_at))]
pub(crate) fn clock_at(text: &[u8]) -> Result<(u64, &[u8]), MomentFault>
    ensures value { Reads (λ x. (x.0, x.1.now)) result (clock_at text.now) }
    ensures small { IfOk result (λ x. x.0 < DAY) }
{
    let (hour, rest) = below_at(24, MomentFault::NoSuchTime, text)?;
    let rest = after(b':', rest)?;
    let (minute, rest) = below_at(60, MomentFault::NoSuchTime, rest)?;
    let (part, rest) = seconds_at(rest)?;
    Ok((hour * HOUR + minute * MINUTE + part, rest))
}
