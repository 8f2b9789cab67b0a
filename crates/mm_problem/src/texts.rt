//! From the bytes of a setup and a forecast to their problem.
ghost use Rattle.mm_base.specs.Reading.{Gives};
ghost use Rattle.mm_problem.specs.declared.fault.Fault.TheVariants as problem;
ghost use Rattle.mm_problem.specs.Texts.{problem_in};

use crate::fault::Fault;
use crate::problem::Problem;
use crate::setup::Setup;
use std::alloc::Global;

/// The problem of a setup and a forecast, or their first fault.
#[tactic(auto, unfolding(crate::specs::Texts::problem_in))]
pub fn read_problem(alloc: Global, setup: &[u8], forecast: &[u8]) -> Result<Problem, Fault>
    ensures gives { Gives problem.NoMemory (λ problem. problem) result
        (problem_in setup.now forecast.now) }
{
    let setup = Setup::read(alloc, setup)?;
    Problem::read(alloc, &setup, forecast)
}
