//! The values in the cells of a forecast.
ghost use Rattle.std.specs.Prelude.{◌≤◌, IfOk};
ghost use Rattle.mm_base.specs.declared.limits.TheConstants.{MAX_BLOCKS};
ghost use Rattle.mm_problem.specs.Cells.{amount_of, step_of};
ghost use Rattle.mm_problem.specs.declared.fault.Fault.TheVariants.{NoMemory};
ghost use Rattle.mm_base.specs.Reading.{Gives};

use crate::fault::{Fault, Name};
use crate::reading::test;
use mm_base::numbers::Numeral;
use mm_base::{MAX_BLOCKS, MAX_STEPS};

// The amount of blocks in a cell.
pub(crate) fn amount_of(row: u32, column: u32, name: Name, text: &[u8]) -> Result<u32, Fault>
    ensures amount { Gives NoMemory (λ n. n) result (amount_of row column name text.now) }
    ensures most { IfOk result (λ n. n ≤ MAX_BLOCKS) }
{
    match Numeral::read(text, u64::from(MAX_BLOCKS)) {
        Numeral::NotNumber => Err(Fault::Cell { row, column }),
        Numeral::TooLarge => Err(Fault::Limit { name }),
        Numeral::Number(blocks) => Ok(blocks as u32),
    }
}

// Tests the step's number in a cell.
pub(crate) fn test_step(row: u32, text: &[u8]) -> Result<(), Fault>
    ensures { Gives NoMemory (λ x. x) result (step_of row text.now) }
{
    match Numeral::read(text, u64::from(MAX_STEPS)) {
        Numeral::NotNumber => Err(Fault::Cell { row, column: 1 }),
        Numeral::TooLarge => Err(Fault::StepNumber { row }),
        Numeral::Number(step) => test(step == u64::from(row), Fault::StepNumber { row }),
    }
}
