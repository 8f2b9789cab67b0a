//! Why a call is refused.
ghost use Rattle.std.specs.Prelude.{◌≡◌};

use mm_ask::LineFault;
use mm_base::{NoMemory, Refusal, Refused, refusals};
use thiserror::Error;

/// Why a call is refused. It is shown as its number, a space and its name.
#[derive(Clone, Copy, Debug, PartialEq, Eq, Error)]
#[error("{}", self.refusal())]
pub enum Fault {
    /// An allocation was refused.
    NoMemory,
    /// The text is no identifier.
    BadId,
    /// The packet is longer than a block.
    TooLong,
    /// No store has the identifier.
    NoSuchStore,
    /// More reports might wait than the bound lets.
    TooManyReports,
    /// The octets are no packet or no request, or there are octets after the packet.
    Octets(LineFault),
    /// A refusal of the store's state.
    State(mm_desk::Fault),
}

impl Refused for Fault {
    fn refusal(self) -> Refusal {
        refusals!(self; NoMemory, BadId, TooLong, NoSuchStore, TooManyReports; below Octets, State)
    }

    ghost use Rattle.mm_service.specs.Fault.{refusal_of};

    ghost refusal_of = { refusal_of };
}

impl From<LineFault> for Fault {
    ghost use Rattle.mm_service.specs.Fault.{of_octets};

    ghost from_gives = { λ fault e. e ≡ of_octets fault };

    fn from(fault: LineFault) -> Fault {
        match fault {
            LineFault::NoMemory => Fault::NoMemory,
            other => Fault::Octets(other),
        }
    }
}

impl From<NoMemory> for Fault {
    ghost use Rattle.mm_service.specs.declared.fault.Fault.TheVariants.{NoMemory};

    ghost from_gives = { λ _ e. e ≡ NoMemory };

    fn from(_error: NoMemory) -> Fault {
        Fault::NoMemory
    }
}
