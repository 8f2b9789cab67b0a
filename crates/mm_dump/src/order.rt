//! Dump orders, and why one broke.
ghost use Rattle.std.specs.Prelude.{◌≡◌};

use mm_base::{Refusal, Refused, refusals};
use thiserror::Error;

/// A dump order: the place of a store, and how many blocks to dump from it, 1 or more.
#[derive(Clone, Copy, Debug, PartialEq, Eq)]
pub struct Order {
    pub place: u32,
    pub amount: u32,
}

/// Why an order broke. In either case it was aborted: no retrieval is left on, and nothing was deleted.
#[derive(Clone, Copy, Debug, PartialEq, Eq, Error)]
#[error("{}", self.refusal())]
pub enum OrderBroken {
    /// The copy of a packet found no memory.
    NoMemory,
    /// The link did not take a packet.
    LinkFailed,
}

impl Refused for OrderBroken {
    fn refusal(self) -> Refusal {
        refusals!(self; LinkFailed; but NoMemory as NoMemoryInStep)
    }

    ghost use Rattle.mm_dump.specs.Broken.{refusal_of};

    ghost refusal_of = { refusal_of };
}
