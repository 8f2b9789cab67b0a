//! Why a mission is not planned.
use mm_base::{NoMemory, Refusal, Refused};
use mm_mission_text::{Column, MissionFault};
use std::alloc::{AllocError, AllocFailed};
use std::fmt;

/// Why a mission is not planned: its first fault, in this order; of files, first of stores, then of stations, passes
/// and observations.
#[derive(Debug, Drop)]
pub enum Fault {
    NoMemory,
    /// The text of the mission.
    Text(MissionFault),
    /// The text names a file that is not given.
    NotGiven {
        file: Column,
    },
    /// A file is given that the text does not name.
    NotNamed {
        file: Column,
    },
    /// The text of a file.
    Table {
        file: Column,
        fault: mm_mission_text::Fault,
    },
    /// The rows, which count from 1. Those of a file come after those of the text.
    Exact(mm_mission_exact::Fault),
    /// The exact numbers, too many steps, or the problem. Here rows count from 0, and passes come by their begins.
    Mission(mm_mission::Fault),
}

impl Fault {
    // Writes a fault of the exact numbers, with rows that count from 1.
    fn write_mission<W: fmt::Write>(
        fault: &mm_mission::Fault,
        f: &mut fmt::Formatter<W>,
    ) -> fmt::Result {
        match fault {
            mm_mission::Fault::BadStore { row } => write!(
                f,
                "packets, unit, size or start of the store in row {} are out of range",
                row.saturating_add(1)
            ),
            mm_mission::Fault::BadPass { row } => write!(
                f,
                "begin, end or a rate of the pass that is number {} by its begin is out of range",
                row.saturating_add(1)
            ),
            mm_mission::Fault::Overlap { row } => write!(
                f,
                "the pass that is number {} by its begin begins before the one before it ends",
                row.saturating_add(1)
            ),
            mm_mission::Fault::BadObservation { row } => write!(
                f,
                "begin, end or octets of the observation in row {} are out of range",
                row.saturating_add(1)
            ),
            mm_mission::Fault::NoStore { row } => write!(
                f,
                "the observation in row {} is of no store",
                row.saturating_add(1)
            ),
            mm_mission::Fault::TooManySteps => {
                f.write_str(
                    "more than 256 steps: too many begins and ends of passes and observations",
                )
            }
            mm_mission::Fault::Problem {
                fault: mm_problem::Fault::Limit { name },
            } => write!(
                f,
                "{name} of a step: more than 1,000,000, even in the greatest unit"
            ),
            fault => write!(f, "{fault}"),
        }
    }
}

impl fmt::Display for Fault {
    fn fmt<W: fmt::Write>(&self, f: &mut fmt::Formatter<W>) -> fmt::Result {
        match self {
            Fault::NoMemory => f.write_str("an allocation was refused"),
            Fault::Text(fault) => write!(f, "{fault}"),
            Fault::NotGiven { file } => {
                write!(f, "the mission names a file of {file}, which is not given")
            }
            Fault::NotNamed { file } => {
                write!(f, "a file of {file} is given, but the mission names none")
            }
            Fault::Table { file, fault } => write!(f, "the file of {file}: {fault}"),
            Fault::Exact(fault) => write!(f, "{fault}"),
            Fault::Mission(fault) => Fault::write_mission(fault, f),
        }
    }
}

impl Refused for Fault {
    ghost use Rattle.mm_mission_plan.specs.Faults.{refusal_of};

    ghost refusal_of = { refusal_of };

    fn refusal(self) -> Refusal {
        match self {
            Fault::NoMemory => Refusal::NoMemory,
            Fault::Text(_) | Fault::Table { .. } => Refusal::MissionText,
            Fault::NotGiven { .. } | Fault::NotNamed { .. } => Refusal::MissionTable,
            Fault::Exact(_) | Fault::Mission(_) => Refusal::MissionRow,
        }
    }
}

impl std::error::Error for Fault {}

impl<T: Drop> From<AllocFailed<T>> for Fault {
    ghost use Rattle.std.specs.Prelude.{◌≡◌};
    ghost use Rattle.mm_mission_plan.specs.declared.fault.Fault.TheVariants.{NoMemory};

    ghost from_gives = { λ _ e. e ≡ NoMemory };

    fn from(_error: AllocFailed<T>) -> Fault {
        Fault::NoMemory
    }
}

impl From<AllocError> for Fault {
    ghost use Rattle.std.specs.Prelude.{◌≡◌};
    ghost use Rattle.mm_mission_plan.specs.declared.fault.Fault.TheVariants.{NoMemory};

    ghost from_gives = { λ _ e. e ≡ NoMemory };

    fn from(_error: AllocError) -> Fault {
        Fault::NoMemory
    }
}

impl From<NoMemory> for Fault {
    ghost use Rattle.std.specs.Prelude.{◌≡◌};
    ghost use Rattle.mm_mission_plan.specs.declared.fault.Fault.TheVariants.{NoMemory};

    ghost from_gives = { λ _ e. e ≡ NoMemory };

    fn from(_error: NoMemory) -> Fault {
        Fault::NoMemory
    }
}

impl From<MissionFault> for Fault {
    ghost use Rattle.std.specs.Prelude.{◌≡◌};
    ghost use Rattle.mm_mission_plan.specs.Faults.{text_fault};

    ghost from_gives = { λ fault e. e ≡ text_fault fault };

    fn from(fault: MissionFault) -> Fault {
        match fault {
            MissionFault::NoMemory => Fault::NoMemory,
            fault => Fault::Text(fault),
        }
    }
}

impl From<mm_mission_exact::Fault> for Fault {
    ghost use Rattle.std.specs.Prelude.{◌≡◌};
    ghost use Rattle.mm_mission_plan.specs.Faults.{exact_fault};

    ghost from_gives = { λ fault e. e ≡ exact_fault fault };

    fn from(fault: mm_mission_exact::Fault) -> Fault {
        match fault {
            mm_mission_exact::Fault::NoMemory => Fault::NoMemory,
            fault => Fault::Exact(fault),
        }
    }
}

impl From<mm_mission::Fault> for Fault {
    ghost use Rattle.std.specs.Prelude.{◌≡◌};
    ghost use Rattle.mm_mission_plan.specs.Faults.{mission_fault};

    ghost from_gives = { λ fault e. e ≡ mission_fault fault };

    fn from(fault: mm_mission::Fault) -> Fault {
        match fault {
            mm_mission::Fault::NoMemory => Fault::NoMemory,
            fault => Fault::Mission(fault),
        }
    }
}
