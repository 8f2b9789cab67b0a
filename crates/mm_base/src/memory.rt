//! Out of memory: an allocation was refused.
use crate::refusal::Refusal;
use crate::refused::Refused;
use std::alloc::{AllocError, AllocFailed};
use thiserror::Error;

/// An allocation was refused: the fault of a call that can fail for no other reason. It is shown as its number and its
/// name.
#[derive(Clone, Copy, Debug, PartialEq, Eq, Error)]
#[error("{}", Refusal::NoMemory)]
pub struct NoMemory;

impl Refused for NoMemory {
    fn refusal(self) -> Refusal {
        Refusal::NoMemory
    }

    ghost use Rattle.mm_base.specs.declared.refusal.Refusal.TheVariants as refusal;

    ghost refusal_of = { λ _. refusal.NoMemory };
}

impl From<AllocError> for NoMemory {
    fn from(_error: AllocError) -> NoMemory {
        NoMemory
    }
}

impl<T: Drop> From<AllocFailed<T>> for NoMemory {
    fn from(_error: AllocFailed<T>) -> NoMemory {
        NoMemory
    }
}
