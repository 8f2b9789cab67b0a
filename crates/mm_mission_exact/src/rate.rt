//! Fractions as rates of whole octets in whole microseconds, and as whole packets.
ghost use Rattle.std.specs.Prelude.{◌≡◌, ◌*◌, ◌<◌, ◌≤◌, IfSome};
ghost use Rattle.mm_utc.specs.Fractions.{gcd};
ghost use Rattle.mm_mission_exact.specs.Rates.{in_range, rate_in, octets_in, rate_over, rate_of, common, octets_over};
ghost use Rattle.mm_mission_exact.specs.Rates.{measured, places_divisor, places_down, places_up};

use mm_mission::{MAX_RATE, Rate};
use mm_utc::{Fraction, Measure, Volume};

/// The microseconds of a second.
pub const SECOND: u64 = 1_000_000;

// The greatest common divisor, by Euclid's steps.
fn divisor(a: u128, b: u128) -> u128
    ensures value { result ≡ gcd a b }
    ensures some { 0 < b → 0 < result }
{
    let mut x = a;
    let mut y = b;
    'steps: while y != 0 {
        let rest = x % y;
        x = y;
        y = rest;
    }
    x
}

// The rate of so many octets in so many microseconds, in lowest terms, if that is in range.
#[tactic(auto, unfolding(crate::specs::Rates::rate_in))]
fn rate_in(octets: u128, micros: u128) -> Option<Rate>
    ensures { result ≡ rate_in octets micros }
{
    if micros == 0 {
        return None;
    }
    let divisor = divisor(octets, micros);
    let (octets, micros) = (octets / divisor, micros / divisor);
    if octets <= u128::from(MAX_RATE) && micros <= u128::from(MAX_RATE) {
        Some(Rate {
            octets: octets as u64,
            micros: micros as u64,
        })
    } else {
        None
    }
}

// The octets of one of what is measured, where a block is a packet of so many.
fn octets_in(packet: u64, measure: Measure) -> u64
    ensures { result ≡ octets_in packet measure }
{
    match measure {
        Measure::Octets => 1,
        Measure::Blocks => packet,
    }
}

// The rate of an amount, of octets or of packets of so many, in so many microseconds.
pub(crate) fn rate_over(
    packet: u64,
    micros: u64,
    measure: Measure,
    amount: Fraction,
) -> Option<Rate>
    ensures { result ≡ rate_over packet micros measure amount }
{
    let octets = u128::from(amount.above) * u128::from(octets_in(packet, measure));
    rate_in(octets, u128::from(amount.below) * u128::from(micros))
}

// A rate as it was said, exactly.
pub(crate) fn rate_of(packet: u64, rate: mm_utc::Rate) -> Option<Rate>
    ensures { result ≡ rate_of packet rate }
{
    rate_over(packet, SECOND, rate.measure, rate.amount)
}

// The least common multiple of two numbers, if it is in range.
#[tactic(auto, unfolding(crate::specs::Rates::common))]
pub(crate) fn common(n: u64, m: u64) -> Option<u64>
    ensures { result ≡ common n m }
{
    if m == 0 {
        return None;
    }
    let (n, m) = (u128::from(n), u128::from(m));
    let multiple = n / divisor(n, m) * m;
    if multiple <= u128::from(MAX_RATE) {
        Some(multiple as u64)
    } else {
        None
    }
}

// The octets of a rate in so many microseconds, a multiple of its own, if they are in range.
#[tactic(auto, unfolding(crate::specs::Rates::octets_over))]
pub(crate) fn octets_over(micros: u64, rate: Rate) -> Option<u64>
    ensures { result ≡ octets_over micros rate }
{
    if rate.micros == 0 {
        return None;
    }
    let octets = u128::from(rate.octets) * u128::from(micros / rate.micros);
    if octets <= u128::from(MAX_RATE) {
        Some(octets as u64)
    } else {
        None
    }
}

// A volume's numerator is divided by this to count places of so many octets; blocks are such places.
fn places_divisor(octets: u32, volume: Volume) -> u128
    ensures { result ≡ places_divisor octets volume }
{
    let measured = match volume.measure {
        Measure::Octets => octets,
        Measure::Blocks => 1,
    };
    u128::from(volume.amount.below) * u128::from(measured)
}

// How many such places the volume has room for.
pub(crate) fn places_down(octets: u32, volume: Volume) -> Option<u128>
    ensures { result ≡ places_down octets volume }
{
    let divisor = places_divisor(octets, volume);
    if divisor == 0 {
        return None;
    }
    Some(u128::from(volume.amount.above) / divisor)
}

// How many such places it takes.
pub(crate) fn places_up(octets: u32, volume: Volume) -> Option<u128>
    ensures { result ≡ places_up octets volume }
{
    let divisor = places_divisor(octets, volume);
    if divisor == 0 {
        return None;
    }
    Some(u128::from(volume.amount.above).div_ceil(divisor))
}
