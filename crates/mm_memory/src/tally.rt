//! What became of a packet in several stores.
ghost use Rattle.std.specs.Prelude.{◌≡◌, ◌≤◌};
ghost use Rattle.mm_memory.specs.Tallies.{nothing, tally_of};

use mm_desk::{Offered, Returned};

/// How many stores keep a packet, how many packets are lost by it (itself in a full bounded store, the oldest in a full
/// circular one), and how many stores refuse it.
#[derive(Clone, Copy, Debug, PartialEq, Eq)]
pub struct Tally {
    pub kept: u32,
    pub lost: u32,
    pub refused: u32,
}

impl Tally {
    // That of no store.
    pub(crate) fn nothing() -> Tally
        ensures { result ≡ nothing }
    {
        Tally {
            kept: 0,
            lost: 0,
            refused: 0,
        }
    }

    // That of one store, by its answer.
    pub(crate) fn of(answer: &Result<Offered, Returned>) -> Tally
        ensures tally { result ≡ tally_of answer.now }
        ensures kept { result.kept ≤ 1 }
        ensures lost { result.lost ≤ 1 }
        ensures refused { result.refused ≤ 1 }
    {
        let (kept, lost, refused) = match answer {
            Ok(Offered::Kept(_)) => (1, 0, 0),
            Ok(Offered::KeptOver(_, _)) => (1, 1, 0),
            Ok(Offered::Lost(_)) => (0, 1, 0),
            Err(_) => (0, 0, 1),
        };
        Tally {
            kept,
            lost,
            refused,
        }
    }
}
