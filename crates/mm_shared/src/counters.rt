//! What a store has counted, and how many packets it holds.
ghost use Rattle.std.specs.Prelude.{◌≡◌};
ghost use Rattle.mm_desk.specs.Machine.{IsState};
ghost use Rattle.mm_shared.specs.Views.{counters_of, rise};

use mm_desk::StoreState;
use mm_store::PacketStore;

/// How many packets were offered to a store, lost and deleted, in all, and how many it holds.
#[derive(Clone, Copy, Debug, PartialEq, Eq)]
pub struct StoreCounters {
    pub offered: u64,
    pub lost: u64,
    pub deleted: u64,
    pub held: u32,
}

impl StoreCounters {
    /// The counters of a store as it is.
    pub fn of(state: &StoreState) -> StoreCounters
        ensures counters { result ≡ counters_of state.now }
        ensures sound { IsState state.now }
    {
        StoreCounters {
            offered: state.offered(),
            lost: state.lost(),
            deleted: state.deleted(),
            held: state.store().len(),
        }
    }

    /// What the counters rose by since they were these, which never fall, and how many packets the store holds.
    pub fn since(self, before: StoreCounters) -> StoreCounters
        ensures rise { result ≡ rise before self }
    {
        StoreCounters {
            offered: self.offered.saturating_sub(before.offered),
            lost: self.lost.saturating_sub(before.lost),
            deleted: self.deleted.saturating_sub(before.deleted),
            held: self.held,
        }
    }
}
