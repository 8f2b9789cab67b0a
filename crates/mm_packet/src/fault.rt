//! Why octets are no packet.
ghost use Rattle.std.specs.Prelude.{◌≡◌};

use mm_base::{Refusal, Refused, refusals};
use std::alloc::AllocError;
use thiserror::Error;

/// A refusal of this crate, in the order of the tests. It is shown as its number, a space and its name.
#[derive(Clone, Copy, Debug, PartialEq, Eq, Error)]
#[error("{}", self.refusal())]
pub enum Fault {
    /// An allocation was refused.
    NoMemory,
    /// Fewer octets than a primary header, or than the data length says.
    Short,
    /// The version number is not 000.
    Version,
    /// The APID is 2047, that of an idle packet.
    Idle,
    /// The secondary header flag is 0.
    NoSecondaryHeader,
    /// The sequence flags are not 11.
    Segmented,
    /// The data field is shorter than its secondary header.
    HeaderCut,
    /// The PUS version number is not 2.
    PusVersion,
}

impl Refused for Fault {
    fn refusal(self) -> Refusal {
        refusals!(
            self;
            NoMemory, Short, Version, NoSecondaryHeader, Segmented, HeaderCut, PusVersion;
            but Idle as IdlePacket
        )
    }

    ghost use Rattle.mm_packet.specs.Fault.{refusal_of};

    ghost refusal_of = { refusal_of };
}

impl From<AllocError> for Fault {
    ghost use Rattle.mm_packet.specs.declared.fault.Fault.TheVariants.{NoMemory};

    ghost from_gives = { λ _ e. e ≡ NoMemory };

    fn from(_error: AllocError) -> Fault {
        Fault::NoMemory
    }
}
