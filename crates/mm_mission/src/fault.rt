//! Why a mission is refused.

use mm_base::NoMemory;
use std::alloc::{AllocError, AllocFailed};
use thiserror::Error;

/// Why a mission is refused. Rows count from 0.
#[derive(Clone, Copy, Debug, PartialEq, Eq, Error)]
pub enum Fault {
    #[error("an allocation was refused")]
    NoMemory,
    #[error("the mission's length is out of range")]
    BadTime,
    #[error("too many passes or observations")]
    TooMany,
    #[error("packets, unit, size or start of the store in row {row} are out of range")]
    BadStore { row: usize },
    #[error("span or rates of the pass in row {row} are out of range")]
    BadPass { row: usize },
    #[error("the pass in row {row} begins before the one before it ends")]
    Overlap { row: usize },
    #[error("span or octets of the observation in row {row} are out of range")]
    BadObservation { row: usize },
    #[error("the observation in row {row} is of no store")]
    NoStore { row: usize },
    #[error("too many steps")]
    TooManySteps,
    /// What the problem is refused for.
    #[error("{fault}")]
    Problem { fault: mm_problem::Fault },
}

impl<T: Drop> From<AllocFailed<T>> for Fault {
    ghost use Rattle.std.specs.Prelude.{◌≡◌};
    ghost use Rattle.mm_mission.specs.declared.fault.Fault.TheVariants.{NoMemory};

    ghost from_gives = { λ _ e. e ≡ NoMemory };

    fn from(_error: AllocFailed<T>) -> Fault {
        Fault::NoMemory
    }
}

impl From<AllocError> for Fault {
    ghost use Rattle.std.specs.Prelude.{◌≡◌};
    ghost use Rattle.mm_mission.specs.declared.fault.Fault.TheVariants.{NoMemory};

    ghost from_gives = { λ _ e. e ≡ NoMemory };

    fn from(_error: AllocError) -> Fault {
        Fault::NoMemory
    }
}

impl From<NoMemory> for Fault {
    ghost use Rattle.std.specs.Prelude.{◌≡◌};
    ghost use Rattle.mm_mission.specs.declared.fault.Fault.TheVariants.{NoMemory};

    ghost from_gives = { λ _ e. e ≡ NoMemory };

    fn from(_error: NoMemory) -> Fault {
        Fault::NoMemory
    }
}

impl From<mm_problem::Fault> for Fault {
    ghost use Rattle.std.specs.Prelude.{◌≡◌};
    ghost use Rattle.mm_mission.specs.Fault.{fault_of};

    ghost from_gives = { λ fault e. e ≡ fault_of fault };

    fn from(fault: mm_problem::Fault) -> Fault {
        match fault {
            mm_problem::Fault::NoMemory => Fault::NoMemory,
            fault => Fault::Problem { fault },
        }
    }
}
