//! Why a text, a field or a code is refused as an identifier or as a kind.
use crate::refusal::Refusal;
use crate::refused::Refused;
use thiserror::Error;

/// Why an identifier or a kind is not read. It is shown as its number and its name.
#[derive(Clone, Copy, Debug, PartialEq, Eq, Error)]
#[error("{}", self.refusal())]
pub enum Fault {
    /// The text or the field is not an identifier.
    BadId,
    /// No kind has the code.
    BadEnum,
}

impl Refused for Fault {
    fn refusal(self) -> Refusal {
        match self {
            Fault::BadId => Refusal::BadId,
            Fault::BadEnum => Refusal::BadEnum,
        }
    }

    ghost use Rattle.mm_base.specs.Fault.{refusal_of};

    ghost refusal_of = { refusal_of };
}
