//! The Gregorian calendar, before its introduction too (ISO 8601-1, 4.2.1), from the year 1 to the year 9999.
ghost use Rattle.std.specs.Prelude.{◌≡◌, ◌+◌, ◌-◌, ◌≤◌, ◌<◌};
ghost use Rattle.mm_utc.specs.Calendar.{is_leap, month_length, year_length, days_of_years, days_of_months};
ghost use Rattle.mm_utc.specs.Calendar.{IsDateOf};

/// The last year that has moments.
pub const LAST_YEAR: u64 = 9999;

/// The days of the years 1 to 9999.
pub const DAYS: u64 = 3_652_059;

// A day of the calendar: the month and the day count from 1.
#[derive(Clone, Copy)]
pub(crate) struct Date {
    pub year: u64,
    pub month: u64,
    pub day: u64,
}

fn is_leap(year: u64) -> bool
    ensures { result ≡ is_leap year }
{
    year % 4 == 0 && (year % 100 != 0 || year % 400 == 0)
}

// The days of the month.
pub(crate) fn month_length(year: u64, month: u64) -> u64
    requires first { 1 ≤ month }
    requires last { month ≤ 12 }
    ensures { result ≡ month_length year month }
{
    match month {
        2 if is_leap(year) => 29,
        2 => 28,
        4 | 6 | 9 | 11 => 30,
        _ => 31,
    }
}

// The days of the year.
#[tactic(auto, unfolding(crate::specs::Calendar::year_length))]
pub(crate) fn year_length(year: u64) -> u64
    ensures { result ≡ year_length year }
{
    if is_leap(year) { 366 } else { 365 }
}

// The days of the year before the month.
#[tactic(auto, unfolding(crate::specs::Calendar::days_of_months))]
pub(crate) fn days_before_month(year: u64, month: u64) -> u64
    requires first { 1 ≤ month }
    requires last { month ≤ 12 }
    ensures { result ≡ days_of_months year (month - 1) }
{
    let leap = if is_leap(year) { 1 } else { 0 };
    match month {
        1 => 0,
        2 => 31,
        3 => 59 + leap,
        4 => 90 + leap,
        5 => 120 + leap,
        6 => 151 + leap,
        7 => 181 + leap,
        8 => 212 + leap,
        9 => 243 + leap,
        10 => 273 + leap,
        11 => 304 + leap,
        _ => 334 + leap,
    }
}

// The days before the year, from the first day of the year 1.
pub(crate) fn days_before_year(year: u64) -> u64
    requires first { 1 ≤ year }
    requires last { year ≤ 9999 }
    ensures { result ≡ days_of_years (year - 1) }
{
    let years = year - 1;
    365 * years + years / 4 - years / 100 + years / 400
}

// The year with this day.
fn year_of(day: u64) -> u64
    requires { day < DAYS }
    ensures first { 1 ≤ result }
    ensures last { result ≤ LAST_YEAR }
    ensures begins { days_of_years (result - 1) ≤ day }
    ensures ends { day < days_of_years result }
{
    let mut year = day / 366 + 1;
    while year < LAST_YEAR && days_before_year(year + 1) <= day {
        year += 1;
    }
    year
}

// The month with this day of the year, which counts from 0.
fn month_of(year: u64, day: u64) -> u64
    requires { day < year_length year }
    ensures first { 1 ≤ result }
    ensures last { result ≤ 12 }
    ensures begins { days_of_months year (result - 1) ≤ day }
    ensures ends { day < days_of_months year (result - 1) + month_length year result }
{
    let mut month = 1;
    while month < 12 && days_before_month(year, month + 1) <= day {
        month += 1;
    }
    month
}

// The date of this day.
pub(crate) fn date_of(day: u64) -> Date
    requires { day < DAYS }
    ensures { IsDateOf day result }
{
    let year = year_of(day);
    let in_year = day - days_before_year(year);
    let month = month_of(year, in_year);
    let day = in_year - days_before_month(year, month) + 1;
    Date { year, month, day }
}
