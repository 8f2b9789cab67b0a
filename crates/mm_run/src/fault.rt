//! Why the texts of a run are refused.
ghost use Rattle.std.specs.Prelude.{◌≡◌};
ghost use Rattle.mm_run.specs.Fault.{of_problem, of_plan, of_script};

use crate::script_fault::ScriptFault;
use mm_base::{NoMemory, Refusal, Refused, passed_on, refusals};
use thiserror::Error;

/// Why the texts of a run are refused: a fault of the setup, the forecast or the plan text, or one of the sources or
/// the links. It is shown as the fault of the crate that found it. Out of memory is `NoMemory` alone, whichever crate
/// ran out.
#[derive(Clone, Copy, Debug, PartialEq, Eq, Error)]
pub enum Fault {
    #[error(transparent)]
    Problem(mm_problem::Fault),
    #[error(transparent)]
    Plan(mm_plan::Fault),
    #[error(transparent)]
    Script(ScriptFault),
    #[error("{}", self.refusal())]
    NoMemory,
}

impl From<mm_problem::Fault> for Fault {
    ghost from_gives = { λ fault e. e ≡ of_problem fault };

    fn from(fault: mm_problem::Fault) -> Fault {
        passed_on!(fault; mm_problem as Problem)
    }
}

impl From<mm_plan::Fault> for Fault {
    ghost from_gives = { λ fault e. e ≡ of_plan fault };

    fn from(fault: mm_plan::Fault) -> Fault {
        passed_on!(fault; mm_plan as Plan)
    }
}

impl From<ScriptFault> for Fault {
    ghost from_gives = { λ fault e. e ≡ of_script fault };

    fn from(fault: ScriptFault) -> Fault {
        match fault {
            ScriptFault::NoMemory => Fault::NoMemory,
            fault => Fault::Script(fault),
        }
    }
}

impl Refused for Fault {
    fn refusal(self) -> Refusal {
        refusals!(self; NoMemory; below Problem, Plan, Script)
    }

    ghost use Rattle.mm_run.specs.Fault.{refusal_of};

    ghost refusal_of = { refusal_of };
}

impl From<NoMemory> for Fault {
    ghost use Rattle.mm_run.specs.declared.fault.Fault.TheVariants.{NoMemory};

    ghost from_gives = { λ _ e. e ≡ NoMemory };

    fn from(_error: NoMemory) -> Fault {
        Fault::NoMemory
    }
}
