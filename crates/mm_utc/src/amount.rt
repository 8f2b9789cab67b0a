//! Volumes and rates in texts.
ghost use Rattle.std.specs.Prelude.{◌≡◌, ◌==◌, ◌≤◌, ◌<◌, length, IfOk};
ghost use Rattle.std.specs.List.{prefix_len};
ghost use Rattle.mm_base.specs.Characters.{space};
ghost use Rattle.mm_utc.specs.Amounts.{whole_at, decimals_at, over_at, ratio_at, name_in, measured_in};
ghost use Rattle.mm_utc.specs.Amounts.{volume_in, rate_in};
ghost use Rattle.mm_utc.specs.Digits.{Reads};
ghost use Rattle.mm_utc.specs.Units.{row_of};
ghost use Rattle.mm_utc.specs.Writings.{IsParsedVolume, IsParsedRate};

use crate::digits::{digit_count, digits_value};
use crate::fault::AmountFault;
use crate::fraction::{Fraction, MOST, Ratio, lowest, scaled};
use crate::unit::{Kind, Measure, Unit, unit_named};
use mm_base::numbers::Numeral;

// The whole number at the front of the text, and the text after it.
#[tactic(auto, unfolding(crate::specs::Amounts::whole_at))]
fn whole_at(text: &[u8]) -> Result<(u64, &[u8]), AmountFault>
    ensures value { Reads (λ x. (x.0, x.1.now)) result (whole_at text.now) }
    ensures small { IfOk result (λ x. x.0 ≤ MOST) }
{
    let (digits, rest) = text.split_at(digit_count(text));
    match Numeral::read(digits, MOST) {
        Numeral::Number(number) => Ok((number, rest)),
        Numeral::TooLarge => Err(AmountFault::TooLarge),
        Numeral::NotNumber => Err(AmountFault::NotNumber),
    }
}

// The number with the decimals that follow, and the text after them.
#[tactic(auto, unfolding(crate::specs::Amounts::decimals_at))]
fn decimals_at(whole: u64, text: &[u8]) -> Result<(Ratio, &[u8]), AmountFault>
    ensures { Reads (λ x. (x.0, x.1.now)) result (decimals_at whole text.now) }
{
    let count = digit_count(text);
    if count == 0 {
        return Err(AmountFault::NotNumber);
    }
    if count > 15 {
        return Err(AmountFault::TooLarge);
    }
    let (digits, rest) = text.split_at(count);
    let parts = digits_value(digits).ok_or(AmountFault::NotNumber)?;
    let tens = 10u64.pow(count as u32);
    let above = u128::from(whole) * u128::from(tens) + u128::from(parts);
    let below = u128::from(tens);
    Ok((Ratio { above, below }, rest))
}

// The number over the number that follows, and the text after it.
#[tactic(auto, unfolding(crate::specs::Amounts::over_at))]
fn over_at(above: u64, text: &[u8]) -> Result<(Ratio, &[u8]), AmountFault>
    ensures { Reads (λ x. (x.0, x.1.now)) result (over_at above text.now) }
{
    let (below, rest) = whole_at(text)?;
    let (above, below) = (u128::from(above), u128::from(below));
    Ok((Ratio { above, below }, rest))
}

// The number at the front of the text, and the text after it.
#[tactic(auto, unfolding(crate::specs::Amounts::ratio_at))]
fn ratio_at(text: &[u8]) -> Result<(Ratio, &[u8]), AmountFault>
    ensures { Reads (λ x. (x.0, x.1.now)) result (ratio_at text.now) }
{
    let (whole, rest) = whole_at(text)?;
    match rest {
        [b'.', rest @ ..] => decimals_at(whole, rest),
        [b'/', rest @ ..] => over_at(whole, rest),
        _ => {
            let above = u128::from(whole);
            Ok((Ratio { above, below: 1 }, rest))
        }
    }
}

// How many spaces the text begins with.
fn space_count(text: &[u8]) -> usize
    ensures count { result ≡ prefix_len (λ octet. octet == space) text.now }
    ensures within { result ≤ length text.now }
{
    text.iter().take_while(|octet| **octet == b' ').count()
}

// The name after the spaces, or the name of the unit that may be left out.
fn name_in<'a>(unwritten: &'a [u8], text: &'a [u8]) -> &'a [u8]
    ensures { result.now ≡ name_in unwritten.now text.now }
{
    let (_, name) = text.split_at(space_count(text));
    if name.is_empty() { unwritten } else { name }
}

// The number of the text, in lowest terms, and its unit.
#[tactic(auto, unfolding(crate::specs::Amounts::measured_in))]
fn measured_in(unwritten: &[u8], text: &[u8]) -> Result<(Fraction, Unit), AmountFault>
    ensures { Reads (λ x. (x.0, row_of x.1)) result (measured_in unwritten.now text.now) }
{
    let (ratio, rest) = ratio_at(text)?;
    let number = lowest(ratio)?;
    match unit_named(name_in(unwritten, rest)) {
        Some(unit) => Ok((number, unit)),
        None => Err(AmountFault::NoSuchUnit),
    }
}

/// A volume: so many octets, or blocks.
#[derive(Clone, Copy, Debug, PartialEq, Eq)]
pub struct Volume {
    pub amount: Fraction,
    pub measure: Measure,
}

impl Volume {
    /// The volume that a text writes, exactly: a number, as `8`, `2.5` or `1/3`, and after it a unit, as `MB`, `GiB`,
    /// `Mbit` or `blocks`. A number alone is one of octets.
    pub fn parse(text: &[u8]) -> Result<Volume, AmountFault>
        ensures { IsParsedVolume text.now result }
    {
        volume_in(text)
    }
}

/// A rate: so many octets, or blocks, a second.
#[derive(Clone, Copy, Debug, PartialEq, Eq)]
pub struct Rate {
    pub amount: Fraction,
    pub measure: Measure,
}

impl Rate {
    /// The rate that a text writes, exactly: a number, and after it a unit, as `kbit/s`, `kbps` or `blocks/min`. A
    /// number alone is one of bits a second.
    pub fn parse(text: &[u8]) -> Result<Rate, AmountFault>
        ensures { IsParsedRate text.now result }
    {
        rate_in(text)
    }
}

#[tactic(auto, unfolding(crate::specs::Amounts::volume_in))]
fn volume_in(text: &[u8]) -> Result<Volume, AmountFault>
    ensures { Reads (λ volume. volume) result (volume_in text.now) }
{
    let (number, unit) = measured_in(b"octets", text)?;
    let measure = unit.measure;
    match unit.kind {
        Kind::Volume => {
            let amount = scaled(number, unit.size)?;
            Ok(Volume { amount, measure })
        }
        Kind::Rate | Kind::NearRate => Err(AmountFault::RateUnit),
    }
}

#[tactic(auto, unfolding(crate::specs::Amounts::rate_in))]
fn rate_in(text: &[u8]) -> Result<Rate, AmountFault>
    ensures { Reads (λ rate. rate) result (rate_in text.now) }
{
    let (number, unit) = measured_in(b"bit/s", text)?;
    let measure = unit.measure;
    match unit.kind {
        Kind::Rate => {
            let amount = scaled(number, unit.size)?;
            Ok(Rate { amount, measure })
        }
        Kind::NearRate => {
            let bits = scaled(number, unit.size)?;
            Err(AmountFault::BitsMeant(bits))
        }
        Kind::Volume => Err(AmountFault::VolumeUnit),
    }
}
