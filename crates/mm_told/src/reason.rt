//! Why a call is refused.
ghost use Rattle.std.specs.Prelude.{◌≡◌, Some};
ghost use Rattle.mm_told.specs.Reasons.{of_texts, of_setup, no_memory, reason_text};

use crate::spot::{Spot, spot_in_problem, spot_in_texts};
use mm_base::{Refusal, Refused};
use std::fmt;

/// Why a call is refused: which refusal it is, and where in its text the fault is. It is shown as its number, its name
/// and its fields.
#[derive(Clone, Copy)]
pub struct Reason {
    pub refusal: Refusal,
    pub spot: Spot,
}

impl Reason {
    /// Memory ran out.
    #[must_use]
    pub fn no_memory() -> Reason
        ensures { result ≡ no_memory }
    {
        Reason {
            refusal: Refusal::NoMemory,
            spot: Spot::Whole,
        }
    }

    /// A fault of the texts of a plan or of a verdict on one.
    #[must_use]
    pub fn of_texts(fault: mm_cut::Fault) -> Reason
        ensures { result ≡ of_texts fault }
    {
        Reason {
            refusal: fault.refusal(),
            spot: spot_in_texts(fault),
        }
    }

    /// A fault of the setup of a conversation.
    #[must_use]
    pub fn of_setup(fault: mm_problem::Fault) -> Reason
        ensures { result ≡ of_setup fault }
    {
        Reason {
            refusal: fault.refusal(),
            spot: spot_in_problem(fault),
        }
    }
}

impl fmt::Display for Reason {
    ghost output = { λ reason. Some (reason_text reason) };

    fn fmt<W: fmt::Write>(&self, f: &mut fmt::Formatter<W>) -> fmt::Result {
        write!(f, "{} {}", self.refusal.number(), self.refusal.name())?;
        write!(f, "{}", self.spot)
    }
}
