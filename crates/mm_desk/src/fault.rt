//! Why a store refuses what is asked of it.
ghost use Rattle.std.specs.Prelude.{◌≡◌};

use mm_base::{NoMemory, Refusal, Refused, refusals};
use thiserror::Error;

/// A refusal of this crate. It is shown as its number and its name.
#[derive(Clone, Copy, Debug, PartialEq, Eq, Error)]
#[error("{}", self.refusal())]
pub enum Fault {
    /// An allocation was refused.
    NoMemory,
    /// Storage is off.
    Disabled,
    /// A retrieval is on.
    Busy,
    /// No retrieval is on.
    Idle,
    /// The range begins after its end.
    BadRange,
    /// No later storage time, or no further offer, can be counted.
    ClockEnd,
    /// Storage is on.
    StorageOn,
    /// The store holds more packets than the new size has blocks.
    HoldsMore,
}

impl From<mm_store::Fault> for Fault {
    ghost use Rattle.mm_desk.specs.Fault.{fault_of_store};

    ghost from_gives = { λ f e. e ≡ fault_of_store f };

    fn from(fault: mm_store::Fault) -> Fault {
        match fault {
            mm_store::Fault::NoMemory => Fault::NoMemory,
            mm_store::Fault::HoldsMore => Fault::HoldsMore,
        }
    }
}

impl Refused for Fault {
    fn refusal(self) -> Refusal {
        refusals!(
            self;
            NoMemory, HoldsMore, Disabled, Busy, BadRange, ClockEnd, StorageOn; but Idle as NoRetrieval
        )
    }

    ghost use Rattle.mm_desk.specs.Fault.{refusal_of};

    ghost refusal_of = { refusal_of };
}

impl From<NoMemory> for Fault {
    ghost use Rattle.mm_desk.specs.declared.fault.Fault.TheVariants.{NoMemory};

    ghost from_gives = { λ _ e. e ≡ NoMemory };

    fn from(_error: NoMemory) -> Fault {
        Fault::NoMemory
    }
}
