//! Why texts have no plan or no verdict.
ghost use Rattle.std.specs.Prelude.{◌≡◌};

use mm_base::{NoMemory, Refusal, Refused, passed_on, refusals};
use thiserror::Error;

/// Why texts have no plan or no verdict: a fault of the setup or the forecast, or one of the plan text. It is shown as
/// the fault of the crate that found it. A refused allocation is always `NoMemory`, whichever crate asked.
#[derive(Clone, Copy, Debug, PartialEq, Eq, Error)]
pub enum Fault {
    #[error("{}", self.refusal())]
    NoMemory,
    #[error(transparent)]
    Problem(mm_problem::Fault),
    #[error(transparent)]
    Plan(mm_plan::Fault),
}

impl Refused for Fault {
    fn refusal(self) -> Refusal {
        refusals!(self; NoMemory; below Problem, Plan)
    }

    ghost use Rattle.mm_cut.specs.Fault.{refusal_of};

    ghost refusal_of = { refusal_of };
}

impl From<mm_problem::Fault> for Fault {
    ghost use Rattle.mm_cut.specs.Fault.{of_problem};

    ghost from_gives = { λ fault e. e ≡ of_problem fault };

    fn from(fault: mm_problem::Fault) -> Fault {
        passed_on!(fault; mm_problem as Problem)
    }
}

impl From<mm_plan::Fault> for Fault {
    ghost use Rattle.mm_cut.specs.Fault.{of_plan};

    ghost from_gives = { λ fault e. e ≡ of_plan fault };

    fn from(fault: mm_plan::Fault) -> Fault {
        passed_on!(fault; mm_plan as Plan)
    }
}

impl From<NoMemory> for Fault {
    ghost use Rattle.mm_cut.specs.declared.fault.Fault.TheVariants.{NoMemory};

    ghost from_gives = { λ _ e. e ≡ NoMemory };

    fn from(_error: NoMemory) -> Fault {
        Fault::NoMemory
    }
}
