//! What a store of the memory holds and has lost, how many reports wait, and how many
//! packets were refused out of memory.
ghost use Rattle.std.specs.Prelude.{◌≡◌, length};
ghost use Rattle.mm_service.specs.Showing.{shown};

use crate::fault::Fault;
use crate::reading::id_of;
use crate::service::Service;
use mm_base::{Kind, StoreId};
use mm_desk::{Retrieval, StoreState};
use mm_store::PacketStore;

/// What a packet store holds and has lost: its kind, its size in blocks and how many packets it holds; how many were
/// offered and not refused, lost, and deleted; whether storage is on, and the retrieval that is on; the storage times
/// of its oldest and its newest packet, in ticks, both 0 where it is empty.
#[derive(Clone, Copy)]
pub struct Shown {
    pub kind: Kind,
    pub size: u32,
    pub held: u32,
    pub offered: u64,
    pub lost: u64,
    pub deleted: u64,
    pub storage: bool,
    pub retrieval: Option<Retrieval>,
    pub oldest: u64,
    pub newest: u64,
}

/// A store of the memory: its identifier, the virtual channel that it is sent on, and what it shows.
#[derive(Clone, Copy)]
pub struct Listed {
    pub id: StoreId,
    pub channel: u8,
    pub shown: Shown,
}

impl Shown {
    // What a state shows.
    fn of(state: &StoreState) -> Shown
        ensures { result ≡ shown state.now }
    {
        let store = state.store();
        Shown {
            kind: store.kind(),
            size: store.size(),
            held: store.len(),
            offered: state.offered(),
            lost: state.lost(),
            deleted: state.deleted(),
            storage: state.storage(),
            retrieval: state.retrieval(),
            oldest: store.oldest(),
            newest: store.newest(),
        }
    }
}

impl Service {
    ghost use Rattle.mm_service.specs.Showing.{shown_of, store_at};

    /// What the store with this identifier holds and has lost.
    pub fn show(&self, id: &[u8]) -> Result<Shown, Fault>
        ensures shown { result ≡ shown_of id.now self.now }
    {
        let id = id_of(id)?;
        match self.memory.state(&id) {
            Some(state) => Ok(Shown::of(state)),
            None => Err(Fault::NoSuchStore),
        }
    }

    /// The store at this place, counted from 0, where there is one: those of the setup stand in its order, and those
    /// that were created after them.
    pub fn store_at(&self, place: usize) -> Option<Listed>
        ensures listed { result ≡ store_at place self.now }
    {
        let held = self.memory.stores().get(place)?;
        Some(Listed {
            id: held.id,
            channel: held.channel,
            shown: Shown::of(&held.state),
        })
    }

    /// How many reports wait.
    pub fn waiting(&self) -> usize
        ensures waiting { result ≡ length self.now.waiting }
    {
        self.waiting.len()
    }

    /// How many packets were refused out of memory, in `offer` and in `record`; 2^64 - 1 where there were more.
    pub fn refused(&self) -> u64
        ensures refused { result ≡ self.now.refused }
    {
        self.refused
    }
}
