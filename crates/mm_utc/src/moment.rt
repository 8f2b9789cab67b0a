//! Moments, in whole microseconds of UTC.
ghost use Rattle.std.specs.Prelude.{◌≡◌, ◌<◌, IfOk, OnOk};
ghost use Rattle.mm_utc.specs.Digits.{Reads};
ghost use Rattle.mm_utc.specs.Moments.{separated, moment_in};
ghost use Rattle.mm_utc.specs.Printing.{AppendsMoment};
ghost use Rattle.mm_utc.specs.Stamps.{IsParsedMoment};

use crate::calendar::date_of;
use crate::clock::{DAY, clock_at};
use crate::date::day_at;
use crate::fault::MomentFault;
use crate::printing::{push_clock, push_date};
use crate::zone::{in_utc, zone_in};
use std::alloc::AllocError;
use std::marker::Model;

/// The number of moments: the microseconds of the years 1 to 9999.
pub const MOMENTS: u64 = 315_537_897_600_000_000;

/// A moment, in whole microseconds of UTC from 0001-01-01T00:00:00Z, up to the end of the year 9999. Leap seconds are
/// not counted.
#[derive(Clone, Copy, Debug, PartialEq, Eq, PartialOrd, Ord)]
pub struct Moment(u64);

impl Model for Moment {
    ghost use Rattle.std.specs.Prelude.{ℕ, ◌<◌};
    ghost use Rattle.mm_utc.specs.declared.moment.TheConstants.{MOMENTS};

    ghost Value = { ℕ };

    ghost view = { λ m. m.0 };

    ghost invariant = { λ m. m.0 < MOMENTS };

    ghost inverse = { λ n. record { 0 = n } };
}

// The text after the separator of date and time.
fn separated(text: &[u8]) -> Result<&[u8], MomentFault>
    ensures { Reads (λ rest. rest.now) result (separated text.now) }
{
    match text {
        [b'T' | b' ', rest @ ..] => Ok(rest),
        _ => Err(MomentFault::Form),
    }
}

// The microseconds of the moment.
#[tactic(auto, unfolding(crate::specs::Moments::moment_in))]
fn moment_in(text: &[u8]) -> Result<u64, MomentFault>
    ensures value { Reads (λ x. x) result (moment_in text.now) }
    ensures small { IfOk result (λ x. x < MOMENTS) }
{
    let (day, rest) = day_at(text)?;
    let rest = separated(rest)?;
    let (clock, rest) = clock_at(rest)?;
    let zone = zone_in(rest)?;
    in_utc(day * DAY + clock, zone)
}

fn read_moment(text: &[u8]) -> Result<Moment, MomentFault>
    ensures { Reads (λ m. m) result (moment_in text.now) }
{
    let microseconds = moment_in(text)?;
    Ok(Moment(microseconds))
}

impl Moment {
    /// The moment that a text says, in ISO 8601 with the zone: `2027-03-01T12:00:00Z`, with an offset from UTC in place
    /// of `Z`, with up to six digits of a second or without seconds, or with the day of the year, `2027-060T12:00Z`
    /// (CCSDS 301.0-B, 3.5). A space may stand in place of `T`.
    pub fn parse(text: &[u8]) -> Result<Moment, MomentFault>
        ensures { IsParsedMoment text.now result }
    {
        read_moment(text)
    }

    /// The moment with this number of microseconds from 0001-01-01T00:00:00Z.
    pub fn new(microseconds: u64) -> Moment
        requires { microseconds < MOMENTS }
        ensures { result ≡ microseconds }
    {
        Moment(microseconds)
    }

    /// The microseconds from 0001-01-01T00:00:00Z.
    pub fn microseconds(self) -> u64
        ensures value { result ≡ self }
        ensures below { self < MOMENTS }
    {
        self.0
    }

    /// Writes the moment at the end of a text, in UTC: `2027-03-01T12:00:00Z`, with six digits of the second where it
    /// has parts of one.
    pub fn push(self, text: &mut Vec<u8>) -> Result<(), AllocError>
        ensures { OnOk result (AppendsMoment self text.old.items text.new.items) }
    {
        push_date(text, date_of(self.0 / DAY))?;
        text.push(b'T')?;
        push_clock(text, self.0 % DAY)?;
        text.push(b'Z')?;
        Ok(())
    }
}
