//! Why a row is not added to the storage control or not deleted from it.

use mm_base::{Refusal, Refused, refusals};
use thiserror::Error;

/// A refusal of this crate. It is shown as its number, a space and its name.
#[derive(Clone, Copy, Debug, PartialEq, Eq, Error)]
#[error("{}", self.refusal())]
pub enum Fault {
    /// The table does not have the row.
    NoSuchRoute,
    /// The table is full, and does not have the row that is to be added.
    TableFull,
}

impl Refused for Fault {
    ghost use Rattle.mm_control.specs.Fault.{refusal_of};

    ghost refusal_of = { refusal_of };

    fn refusal(self) -> Refusal {
        refusals!(self; NoSuchRoute, TableFull)
    }
}
