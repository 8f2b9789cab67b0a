//! What the state of a packet store tells.
ghost use Rattle.std.specs.Prelude.{◌≡◌};
ghost use Rattle.mm_desk.specs.Machine.{IsState};

use crate::state::{Retrieval, StoreState};
use mm_store::AnyStore;

impl StoreState {
    /// The store.
    pub fn store(&self) -> &AnyStore
        ensures store { result.now ≡ self.now.store }
        ensures is_state { IsState self.now }
    {
        &self.store
    }

    /// Whether storage is on.
    pub fn storage(&self) -> bool
        ensures storage { result ≡ self.now.storage }
    {
        self.storage
    }

    /// The retrieval that is on.
    pub fn retrieval(&self) -> Option<Retrieval>
        ensures retrieval { result ≡ self.now.retrieval }
    {
        self.retrieval
    }

    /// How many packets were offered and not refused, with those that the store held at first.
    pub fn offered(&self) -> u64
        ensures offered { result ≡ self.now.offered }
    {
        self.offered
    }

    /// How many packets were lost: overwritten, or handed back by a full store.
    pub fn lost(&self) -> u64
        ensures lost { result ≡ self.now.lost }
    {
        self.lost
    }

    /// How many packets were deleted.
    pub fn deleted(&self) -> u64
        ensures deleted { result ≡ self.now.deleted }
    {
        self.deleted
    }
}
