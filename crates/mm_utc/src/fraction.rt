//! Fractions in lowest terms.
ghost use Rattle.std.specs.Prelude.{◌≡◌, ◌<◌};
ghost use Rattle.mm_utc.specs.Digits.{Reads};
ghost use Rattle.mm_utc.specs.Fractions.{gcd, lowest, scaled};

use crate::fault::AmountFault;
use std::fmt;

/// The greatest number above and below in a fraction.
pub const MOST: u64 = 1 << 50;

/// A fraction, `above` / `below`.
#[derive(Clone, Copy, Debug, PartialEq, Eq)]
pub struct Fraction {
    pub above: u64,
    pub below: u64,
}

impl fmt::Display for Fraction {
    fn fmt<W: fmt::Write>(&self, f: &mut fmt::Formatter<W>) -> fmt::Result {
        match self.below {
            1 => write!(f, "{}", self.above),
            _ => write!(f, "{}/{}", self.above, self.below),
        }
    }
}

// A fraction that may not be in lowest terms.
#[derive(Clone, Copy)]
pub(crate) struct Ratio {
    pub above: u128,
    pub below: u128,
}

// The greatest common divisor, by Euclid's steps.
fn divisor(a: u128, b: u128) -> u128
    ensures value { result ≡ gcd a b }
    ensures some { 0 < b → 0 < result }
{
    let mut x = a;
    let mut y = b;
    'steps: while y != 0 {
        let rest = x % y;
        x = y;
        y = rest;
    }
    x
}

// The ratio in lowest terms.
#[tactic(auto, unfolding(crate::specs::Fractions::lowest))]
pub(crate) fn lowest(ratio: Ratio) -> Result<Fraction, AmountFault>
    ensures { Reads (λ f. f) result (lowest ratio.above ratio.below) }
{
    let Ratio { above, below } = ratio;
    if below == 0 {
        return Err(AmountFault::OverZero);
    }
    let divisor = divisor(above, below);
    let (above, below) = (above / divisor, below / divisor);
    if above > u128::from(MOST) || below > u128::from(MOST) {
        return Err(AmountFault::TooLarge);
    }
    Ok(Fraction {
        above: above as u64,
        below: below as u64,
    })
}

// So many times the other fraction, in lowest terms.
pub(crate) fn scaled(number: Fraction, by: Fraction) -> Result<Fraction, AmountFault>
    ensures { Reads (λ f. f) result (scaled number by) }
{
    lowest(Ratio {
        above: u128::from(number.above) * u128::from(by.above),
        below: u128::from(number.below) * u128::from(by.below),
    })
}
