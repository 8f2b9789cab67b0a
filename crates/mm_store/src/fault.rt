//! Why a packet store cannot be made or changed.
ghost use Rattle.std.specs.Prelude.{◌≡◌};

use mm_base::{Refusal, Refused, refusals};
use std::alloc::AllocError;
use std::error::Error;
use std::fmt;

/// A refusal of this crate. It is shown as its number, a space and its name.
#[derive(Clone, Copy, Debug, PartialEq, Eq)]
pub enum Fault {
    /// An allocation was refused.
    NoMemory,
    /// The store holds more packets than the new size has blocks.
    HoldsMore,
}

impl fmt::Display for Fault {
    fn fmt<W: fmt::Write>(&self, f: &mut fmt::Formatter<W>) -> fmt::Result {
        write!(f, "{}", self.refusal())
    }
}

impl Error for Fault {}

impl Refused for Fault {
    fn refusal(self) -> Refusal {
        refusals!(self; NoMemory, HoldsMore)
    }

    ghost use Rattle.mm_store.specs.Fault.{refusal_of};

    ghost refusal_of = { refusal_of };
}

impl From<AllocError> for Fault {
    ghost use Rattle.mm_store.specs.declared.fault.Fault.TheVariants.{NoMemory};

    ghost from_gives = { λ _ e. e ≡ NoMemory };

    fn from(_error: AllocError) -> Fault {
        Fault::NoMemory
    }
}
