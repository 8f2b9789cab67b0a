//! The faults for which a setup or a forecast is refused.
ghost use Rattle.std.specs.Prelude.{◌≡◌};

use mm_base::{Refusal, Refused, refusals};
use std::alloc::{AllocError, AllocFailed};
use std::fmt;
use thiserror::Error;

/// The name in a refusal: a key of the setup, a column of the forecast, or a count.
#[derive(Clone, Copy, Debug, PartialEq, Eq)]
pub enum Name {
    Store,
    Route,
    Limit,
    Stores,
    Routes,
    Limits,
    Unknown,
    Repeated,
    Id,
    Size,
    Type,
    Channel,
    Start,
    Apid,
    Service,
    Subtype,
    Blocks,
    Steps,
    Window,
    Arrivals,
}

impl Name {
    ghost use Rattle.mm_problem.specs.Name.{text_of};

    /// The name as a setup writes it and a refusal prints it.
    #[must_use]
    pub fn text(self) -> &'static str
        ensures text { result.now ≡ text_of self }
    {
        match self {
            Name::Store => "store",
            Name::Route => "route",
            Name::Limit => "limit",
            Name::Stores => "stores",
            Name::Routes => "routes",
            Name::Limits => "limits",
            Name::Unknown => "unknown",
            Name::Repeated => "repeated",
            Name::Id => "id",
            Name::Size => "size",
            Name::Type => "type",
            Name::Channel => "channel",
            Name::Start => "start",
            Name::Apid => "apid",
            Name::Service => "service",
            Name::Subtype => "subtype",
            Name::Blocks => "blocks",
            Name::Steps => "steps",
            Name::Window => "window",
            Name::Arrivals => "arrivals",
        }
    }
}

impl fmt::Display for Name {
    fn fmt<W: fmt::Write>(&self, f: &mut fmt::Formatter<W>) -> fmt::Result {
        f.write_str(self.text())
    }
}

/// Why a setup or a forecast is refused. A fault is shown as its number, its name and its fields.
#[derive(Clone, Copy, Debug, PartialEq, Eq, Error)]
pub enum Fault {
    NoMemory,
    SetupText,
    SetupField { row: u32, name: Name },
    ForecastText,
    Header,
    Cell { row: u32, column: u32 },
    StepNumber { row: u32 },
    Limit { name: Name },
}

impl fmt::Display for Fault {
    fn fmt<W: fmt::Write>(&self, f: &mut fmt::Formatter<W>) -> fmt::Result {
        write!(f, "{}", self.refusal())?;
        match self {
            Fault::SetupField { row, name } => write!(f, " row {row} name {name}"),
            Fault::Cell { row, column } => write!(f, " row {row} column {column}"),
            Fault::StepNumber { row } => write!(f, " row {row}"),
            Fault::Limit { name } => write!(f, " name {name}"),
            _ => Ok(()),
        }
    }
}

impl<T: Drop> From<AllocFailed<T>> for Fault {
    ghost use Rattle.mm_problem.specs.declared.fault.Fault.TheVariants.{NoMemory};

    ghost from_gives = { λ _ e. e ≡ NoMemory };

    fn from(_error: AllocFailed<T>) -> Fault {
        Fault::NoMemory
    }
}

impl Refused for Fault {
    fn refusal(self) -> Refusal {
        refusals!(
            self;
            NoMemory, SetupText, ForecastText, Header;
            with SetupField, Cell, StepNumber, Limit
        )
    }

    ghost use Rattle.mm_problem.specs.Fault.{refusal_of};

    ghost refusal_of = { refusal_of };
}

impl From<AllocError> for Fault {
    ghost use Rattle.mm_problem.specs.declared.fault.Fault.TheVariants.{NoMemory};

    ghost from_gives = { λ _ e. e ≡ NoMemory };

    fn from(_error: AllocError) -> Fault {
        Fault::NoMemory
    }
}
