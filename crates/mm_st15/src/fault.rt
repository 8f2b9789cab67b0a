//! Why a packet is no request, and no report.
ghost use Rattle.std.specs.Prelude.{◌≡◌};

use mm_base::{Refusal, Refused, refusals};
use std::alloc::AllocError;
use std::error::Error;
use std::fmt;

/// A refusal of this crate. It is shown as its number, a space and its name.
#[derive(Clone, Copy, Debug, PartialEq, Eq)]
pub enum Fault {
    /// An allocation was refused.
    NoMemory,
    /// A packet of the other type, or of another service.
    NotSt15,
    /// A subtype that is not in the profile.
    UnknownSubtype,
    /// The data are not as long as their count says, or the count is not allowed.
    CountMismatch,
}

impl fmt::Display for Fault {
    fn fmt<W: fmt::Write>(&self, f: &mut fmt::Formatter<W>) -> fmt::Result {
        write!(f, "{}", self.refusal())
    }
}

impl Error for Fault {}

impl Refused for Fault {
    fn refusal(self) -> Refusal {
        refusals!(self; NoMemory, NotSt15, UnknownSubtype, CountMismatch)
    }

    ghost use Rattle.mm_st15.specs.Fault.{refusal_of};

    ghost refusal_of = { refusal_of };
}

impl From<AllocError> for Fault {
    ghost use Rattle.mm_st15.specs.declared.fault.Fault.TheVariants.{NoMemory};

    ghost from_gives = { λ _ e. e ≡ NoMemory };

    fn from(_error: AllocError) -> Fault {
        Fault::NoMemory
    }
}
