//! Days in texts: the calendar date and the ordinal date (ISO 8601-1, 5.2.2 and 5.2.3).
ghost use Rattle.std.specs.Prelude.{◌≡◌, ◌<◌, ◌≤◌, IfOk};
ghost use Rattle.mm_utc.specs.Calendar.{days_of_years};
ghost use Rattle.mm_utc.specs.Digits.{Reads};
ghost use Rattle.mm_utc.specs.Dates.{ordinal_day, calendar_day, calendar_day_at, day_in_year, day_at};

use crate::calendar::{DAYS, Date, days_before_month, days_before_year, month_length, year_length};
use crate::digits::{after, number_at};
use crate::fault::MomentFault;

// The number of a day of the year, which counts from 1.
fn ordinal_day(year: u64, day: u64) -> Result<u64, MomentFault>
    requires first { 1 ≤ year }
    requires last { year ≤ 9999 }
    ensures value { Reads (λ x. x) result (ordinal_day year day) }
    ensures small { IfOk result (λ n. n < days_of_years year) }
{
    if day < 1 || day > year_length(year) {
        return Err(MomentFault::NoSuchDay);
    }
    Ok(days_before_year(year) + (day - 1))
}

// The number of a day of the calendar.
fn calendar_day(date: Date) -> Result<u64, MomentFault>
    requires first { 1 ≤ date.year }
    requires last { date.year ≤ 9999 }
    ensures value { Reads (λ x. x) result (calendar_day date) }
    ensures small { IfOk result (λ n. n < days_of_years date.year) }
{
    let Date { year, month, day } = date;
    if month < 1 || month > 12 || day < 1 || day > month_length(year, month) {
        return Err(MomentFault::NoSuchDay);
    }
    Ok(days_before_year(year) + days_before_month(year, month) + (day - 1))
}

// Month and day, and the text after them.
#[tactic(auto, unfolding(crate::specs::Dates::calendar_day_at))]
fn calendar_day_at(year: u64, text: &[u8]) -> Result<(u64, &[u8]), MomentFault>
    requires first { 1 ≤ year }
    requires last { year ≤ 9999 }
    ensures value { Reads (λ x. (x.0, x.1.now)) result (calendar_day_at year text.now) }
    ensures small { IfOk result (λ x. x.0 < days_of_years year) }
{
    let (month, rest) = number_at(2, text)?;
    let rest = after(b'-', rest)?;
    let (day, rest) = number_at(2, rest)?;
    let number = calendar_day(Date { year, month, day })?;
    Ok((number, rest))
}

// The day of the year in three digits, or month and day, and the text after them.
#[tactic(auto, unfolding(crate::specs::Dates::day_in_year))]
fn day_in_year(year: u64, text: &[u8]) -> Result<(u64, &[u8]), MomentFault>
    requires first { 1 ≤ year }
    requires last { year ≤ 9999 }
    ensures value { Reads (λ x. (x.0, x.1.now)) result (day_in_year year text.now) }
    ensures small { IfOk result (λ x. x.0 < days_of_years year) }
{
    match number_at(3, text) {
        Ok((day, rest)) => {
            let number = ordinal_day(year, day)?;
            Ok((number, rest))
        }
        Err(_) => calendar_day_at(year, text),
    }
}

// The number of the day at the front of the text, and the text after it.
#[tactic(auto, unfolding(crate::specs::Dates::day_at))]
pub(crate) fn day_at(text: &[u8]) -> Result<(u64, &[u8]), MomentFault>
    ensures value { Reads (λ x. (x.0, x.1.now)) result (day_at text.now) }
    ensures small { IfOk result (λ x. x.0 < DAYS) }
{
    let (year, rest) = number_at(4, text)?;
    let rest = after(b'-', rest)?;
    if year < 1 {
        return Err(MomentFault::OutsideYears);
    }
    day_in_year(year, rest)
}
