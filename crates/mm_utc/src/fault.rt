//! Why a text is not a moment, or not a volume or a rate.
use crate::fraction::Fraction;
use thiserror::Error;

/// Why a text is not read as a moment: the first fault from left to right.
#[derive(Clone, Copy, Debug, PartialEq, Eq, Error)]
pub enum MomentFault {
    /// The text is not written as a moment.
    #[error("not a moment as 2027-03-01T12:00:00Z or 2027-060T12:00:00Z")]
    Form,
    /// The month or the year has no such day, or the year no such month.
    #[error("no such day")]
    NoSuchDay,
    #[error("no such time of day")]
    NoSuchTime,
    /// The text writes the second 60.
    #[error("a leap second: take the second before or after it")]
    LeapSecond,
    /// The text has more than six digits of a second.
    #[error("finer than a microsecond")]
    TooFine,
    /// The text ends after the time of day.
    #[error("a local time: write Z after it if it is in UTC")]
    NoZone,
    #[error("no such offset from UTC")]
    NoSuchOffset,
    /// The year is 0, or the moment lies before the year 1 or after the year 9999 in UTC.
    #[error("outside the years 1 to 9999 in UTC")]
    OutsideYears,
}

/// Why a text is not read as a volume or a rate: the first fault from left to right. Whether the amount is `TooLarge`
/// is seen last.
#[derive(Clone, Copy, Debug, PartialEq, Eq, Error)]
pub enum AmountFault {
    /// The text does not begin with a number.
    #[error("not a number as 8, 2.5 or 1/3 with a unit")]
    NotNumber,
    #[error("a fraction over 0")]
    OverZero,
    /// The number or the amount, in lowest terms, is above `MOST`, or over more than `MOST`.
    #[error("out of range: more than 2^50, or over more than 2^50, in lowest terms")]
    TooLarge,
    #[error("no such unit: volumes are in octets, B, kB, MB, GB, TB (thousands), KiB, MiB, GiB, TiB (1024s), bit, \
        kbit, Mbit, Gbit or blocks, rates in bit/s, kbit/s, Mbit/s, Gbit/s, blocks/s, blocks/min or blocks/h")]
    NoSuchUnit,
    /// The unit is one of rates.
    #[error("a unit of rates, not of volumes")]
    RateUnit,
    /// The unit is one of volumes.
    #[error("a unit of volumes, not of rates: write it a second, as kbit/s")]
    VolumeUnit,
    /// The unit is near one of rates, as `kB/s` or `Kbit/s`; this many bits a second are meant.
    #[error("rates are in bits a second: {0} bit/s")]
    BitsMeant(Fraction),
}
