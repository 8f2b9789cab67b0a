//! Why an instruction is refused.
ghost use Rattle.std.specs.Prelude.{◌≡◌};
ghost use Rattle.mm_memory.specs.Fault.{of_state};
ghost use Rattle.mm_memory.specs.declared.fault.Fault.TheVariants.{Control};

use mm_base::{NoMemory, Refusal, Refused, passed_on, refusals};
use thiserror::Error;

/// A refusal of this crate, or of a store's state or the storage control. It is shown as its
/// number, a space and its name.
#[derive(Clone, Copy, Debug, PartialEq, Eq, Error)]
#[error("{}", self.refusal())]
pub enum Fault {
    /// An allocation was refused.
    NoMemory,
    /// The octets are no identifier.
    BadId,
    /// A type, a virtual channel or an APID that is not allowed.
    BadEnum,
    /// No store has the identifier.
    NoSuchStore,
    /// A store has the identifier.
    Exists,
    /// There are already as many stores as allowed.
    TooManyStores,
    /// A size outside its range.
    BadSize,
    /// A refusal of the store's state other than out of memory.
    State(mm_desk::Fault),
    /// A refusal of the storage control.
    Control(mm_control::Fault),
}

impl From<mm_control::Fault> for Fault {
    ghost from_gives = { λ fault e. e ≡ Control fault };

    fn from(fault: mm_control::Fault) -> Fault {
        Fault::Control(fault)
    }
}

impl Refused for Fault {
    fn refusal(self) -> Refusal {
        refusals!(
            self;
            NoMemory, BadId, BadEnum, NoSuchStore, Exists, TooManyStores, BadSize;
            below State, Control
        )
    }

    ghost use Rattle.mm_memory.specs.Fault.{refusal_of};

    ghost refusal_of = { refusal_of };
}

impl From<NoMemory> for Fault {
    ghost use Rattle.mm_memory.specs.declared.fault.Fault.TheVariants.{NoMemory};

    ghost from_gives = { λ _ e. e ≡ NoMemory };

    fn from(_error: NoMemory) -> Fault {
        Fault::NoMemory
    }
}

impl From<mm_desk::Fault> for Fault {
    ghost from_gives = { λ fault e. e ≡ of_state fault };

    fn from(fault: mm_desk::Fault) -> Fault {
        passed_on!(fault; mm_desk as State)
    }
}
