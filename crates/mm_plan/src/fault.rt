//! Why a plan text or a sheet is refused.
use mm_base::{Refusal, Refused, refusals};
use thiserror::Error;

/// Why a plan text or a sheet is refused. It is shown as its number, its name and its fields.
#[derive(Clone, Copy, Debug, PartialEq, Eq, Error)]
pub enum Fault {
    #[error("{}", self.refusal())]
    NoMemory,
    /// The first line, from 1, that cannot stand there, or the line on which the text ends too early.
    #[error("{} line {line}", self.refusal())]
    PlanText { line: u32 },
    /// The sheet has other stores or another number of steps than the problem.
    #[error("{}", self.refusal())]
    Shape,
}

impl Refused for Fault {
    fn refusal(self) -> Refusal {
        refusals!(self; NoMemory, Shape; with PlanText)
    }

    ghost use Rattle.mm_plan.specs.Fault.{refusal_of};

    ghost refusal_of = { refusal_of };
}
