//! What a request is answered.
ghost use Rattle.std.specs.Prelude.{◌≡◌};
ghost use Rattle.mm_memory.specs.Applying.{outcome_told};

use crate::fault::Fault;
use mm_st15::Report;

/// The answer to one instruction of a request.
#[derive(Clone, Copy, Debug, PartialEq, Eq)]
pub enum Answer {
    /// It is carried out.
    Done,
    /// It is refused, and has changed nothing.
    Refused(Fault),
}

/// The answers to a request: one for each instruction, in order, and the reports on what was asked.
#[derive(Debug, Drop)]
pub struct Answers {
    pub each: Vec<Answer>,
    pub reports: Vec<Report>,
}

impl Answer {
    // The answer that tells an outcome.
    pub(crate) fn of(outcome: Result<(), Fault>) -> Answer
        ensures { outcome_told result ≡ outcome }
    {
        match outcome {
            Ok(()) => Answer::Done,
            Err(fault) => Answer::Refused(fault),
        }
    }
}
