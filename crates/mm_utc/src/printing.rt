//! Dates and times of day as texts.
ghost use Rattle.std.specs.Prelude.{◌≡◌, ◌++◌, OnOk};
ghost use Rattle.mm_utc.specs.Printing.{date_text, fraction_text, clock_text};

use crate::calendar::Date;
use crate::clock::{HOUR, MINUTE, SECOND};
use crate::digits::push_digits;
use std::alloc::AllocError;

// Writes the date at the end of the text.
pub(crate) fn push_date(text: &mut Vec<u8>, date: Date) -> Result<(), AllocError>
    ensures { OnOk result (text.new.items ≡ text.old.items ++ date_text date) }
{
    push_digits(text, 4, date.year)?;
    text.push(b'-')?;
    push_digits(text, 2, date.month)?;
    text.push(b'-')?;
    push_digits(text, 2, date.day)
}

// Writes the parts of a second, if it has any.
fn push_fraction(text: &mut Vec<u8>, part: u64) -> Result<(), AllocError>
    ensures { OnOk result (text.new.items ≡ text.old.items ++ fraction_text part) }
{
    if part == 0 {
        return Ok(());
    }
    text.push(b'.')?;
    push_digits(text, 6, part)
}

// Writes the time of day at the end of the text.
pub(crate) fn push_clock(text: &mut Vec<u8>, clock: u64) -> Result<(), AllocError>
    ensures { OnOk result (text.new.items ≡ text.old.items ++ clock_text clock) }
{
    push_digits(text, 2, clock / HOUR)?;
    text.push(b':')?;
    push_digits(text, 2, clock / MINUTE % 60)?;
    text.push(b':')?;
    push_digits(text, 2, clock / SECOND % 60)?;
    push_fraction(text, clock % SECOND)
}
