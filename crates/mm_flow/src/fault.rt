//! Why a network is not solved.
ghost use Rattle.std.specs.Prelude.{◌≡◌};

use mm_base::{Refusal, Refused, refusals};
use std::alloc::AllocError;
use std::error::Error;
use std::fmt;

/// Why a network is not solved. It is shown as its number and its name.
#[derive(Clone, Copy, Debug, PartialEq, Eq)]
pub enum Fault {
    /// An allocation was refused.
    NoMemory,
    /// A path of unlimited arcs leads from the source to the sink.
    Unbounded,
    /// The source and the sink are one node.
    SameEnds,
}

impl fmt::Display for Fault {
    fn fmt<W: fmt::Write>(&self, f: &mut fmt::Formatter<W>) -> fmt::Result {
        write!(f, "{}", self.refusal())
    }
}

impl Error for Fault {}

impl Refused for Fault {
    fn refusal(self) -> Refusal {
        refusals!(self; NoMemory, Unbounded, SameEnds)
    }

    ghost use Rattle.mm_flow.specs.Fault.{refusal_of};

    ghost refusal_of = { refusal_of };
}

impl From<AllocError> for Fault {
    ghost use Rattle.mm_flow.specs.declared.fault.Fault.TheVariants.{NoMemory};

    ghost from_gives = { λ _ e. e ≡ NoMemory };

    fn from(_error: AllocError) -> Fault {
        Fault::NoMemory
    }
}
