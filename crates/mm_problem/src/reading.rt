//! Steps of reading, each of which may end with a fault.
ghost use Rattle.mm_problem.specs.declared.fault.Fault.TheVariants.{NoMemory, SetupField};
ghost use Rattle.mm_base.specs.Reading.{Gives, test};

use crate::fault::{Fault, Name};

// Continues if the test passed, and otherwise ends with this fault.
pub(crate) fn test(passed: bool, fault: Fault) -> Result<(), Fault>
    ensures { Gives NoMemory (λ x. x) result (test passed fault) }
{
    if passed { Ok(()) } else { Err(fault) }
}

// Continues if the test of a key in this row passed.
pub(crate) fn test_field(passed: bool, row: u32, name: Name) -> Result<(), Fault>
    ensures { Gives NoMemory (λ x. x) result (test passed (SetupField row name)) }
{
    test(passed, Fault::SetupField { row, name })
}
