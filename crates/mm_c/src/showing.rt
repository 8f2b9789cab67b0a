//! What a store of a memory holds and has lost, how many reports wait, and how many packets were refused out of memory.
ghost use Rattle.std.specs.Prelude.{◌≡◌};
ghost use Rattle.mm_base.specs.Kind.{code_of};
ghost use Rattle.mm_memory.specs.Reports.{status_of};
ghost use Rattle.mm_c.specs.Serving.{OnOpen};
ghost use Rattle.mm_c.specs.Showing.{no_store, with_retrieval, store_told, ShowsStore};
ghost use Rattle.mm_c.specs.Showing.{ShowsWaiting, ShowsRefused, none_listed, listed_told, ListsStore};

use crate::handle::MemoryHandle;
use crate::memory::{ended, refused, taken};
use mm_base::Kind;
use mm_desk::Retrieval;
use mm_service::{Listed, Shown};
use mm_told::{Answer, Status};
use std::alloc::Global;

/// What a packet store holds and has lost. A switch is 1 where it is on. Where no retrieval is on, its three times are
/// 0.
#[repr(C)]
#[derive(Clone, Copy)]
pub struct StoreTold {
    pub kind: u32,
    pub size: u32,
    pub held: u32,
    pub storage: u32,
    pub retrieval: u32,
    pub offered: u64,
    pub lost: u64,
    pub deleted: u64,
    pub oldest: u64,
    pub newest: u64,
    pub from: u64,
    pub to: u64,
    pub after: u64,
}

/// The code of no kind: that where no store is told.
pub const NO_KIND: u32 = 255;

// The code of a kind, as packets have it.
fn code_of_kind(kind: Kind) -> u32
    ensures { result ≡ code_of kind }
{
    match kind {
        Kind::Circular => 0,
        Kind::Bounded => 1,
    }
}

// The code of a switch.
fn code_of_switch(on: bool) -> u32
    ensures { result ≡ status_of on }
{
    if on { 1 } else { 0 }
}

impl StoreTold {
    // What is told where there is no store.
    fn nothing() -> StoreTold
        ensures { result ≡ no_store }
    {
        StoreTold {
            kind: NO_KIND,
            size: 0,
            held: 0,
            storage: 0,
            retrieval: 0,
            offered: 0,
            lost: 0,
            deleted: 0,
            oldest: 0,
            newest: 0,
            from: 0,
            to: 0,
            after: 0,
        }
    }

    // The same with this retrieval.
    fn with_retrieval(self, retrieval: Option<Retrieval>) -> StoreTold
        ensures { result ≡ with_retrieval self retrieval }
    {
        match retrieval {
            Some(on) => StoreTold {
                retrieval: 1,
                from: on.from,
                to: on.to,
                after: on.after,
                ..self
            },
            None => self,
        }
    }

    // What is told of a store.
    fn of(shown: Shown) -> StoreTold
        ensures { result ≡ store_told shown }
    {
        let told = StoreTold {
            kind: code_of_kind(shown.kind),
            size: shown.size,
            held: shown.held,
            storage: code_of_switch(shown.storage),
            offered: shown.offered,
            lost: shown.lost,
            deleted: shown.deleted,
            oldest: shown.oldest,
            newest: shown.newest,
            ..StoreTold::nothing()
        };
        told.with_retrieval(shown.retrieval)
    }
}

/// Tells what the store with an identifier holds and has lost, as `Service::show` of `mm_service` does.
#[unsafe(no_mangle)]
pub extern "C" fn rudlayog_memory_state(
    alloc: Global,
    memory: &mut MemoryHandle,
    id: &[u8],
    state: &mut StoreTold,
    answer: &mut Answer,
)
    ensures shown { OnOpen (ShowsStore id.now state.new answer.new) (state.new ≡ no_store)
        memory.old.loose.service memory.new.loose.service answer.new }
{
    *state = StoreTold::nothing();
    let service = taken!(memory, alloc, answer);
    match service.show(id) {
        Ok(shown) => {
            *state = StoreTold::of(shown);
            *answer = ended(Status::Written);
        }
        Err(fault) => *answer = refused(fault),
    }
    memory.put(service);
}

/// A store of a memory: its identifier, with spaces after it, how many octets that has without them, its virtual
/// channel, and what it holds and has lost.
#[repr(C)]
#[derive(Clone, Copy)]
pub struct ListedTold {
    pub id: [u8; 8],
    pub id_length: u32,
    pub channel: u32,
    pub state: StoreTold,
}

impl ListedTold {
    // What is told where there is no store.
    fn nothing() -> ListedTold
        ensures { result ≡ none_listed }
    {
        ListedTold {
            id: [0; 8],
            id_length: 0,
            channel: 0,
            state: StoreTold::nothing(),
        }
    }

    // What is told of a store.
    fn of(listed: Listed) -> ListedTold
        ensures { result ≡ listed_told listed }
    {
        ListedTold {
            id: listed.id.field(),
            id_length: listed.id.text().len() as u32,
            channel: u32::from(listed.channel),
            state: StoreTold::of(listed.shown),
        }
    }
}

/// Tells the store at a place, counted from 0, as `Service::store_at` of `mm_service` does; where there is none, the
/// list is at its end.
#[unsafe(no_mangle)]
pub extern "C" fn rudlayog_memory_store(
    alloc: Global,
    memory: &mut MemoryHandle,
    place: u64,
    store: &mut ListedTold,
    answer: &mut Answer,
)
    ensures listed { OnOpen (ListsStore place store.new answer.new) (store.new ≡ none_listed)
        memory.old.loose.service memory.new.loose.service answer.new }
{
    *store = ListedTold::nothing();
    let service = taken!(memory, alloc, answer);
    *answer = match service.store_at(place as usize) {
        Some(listed) => {
            *store = ListedTold::of(listed);
            ended(Status::Written)
        }
        None => ended(Status::End),
    };
    memory.put(service);
}

/// Tells how many reports wait, as `Service::waiting` of `mm_service` does.
#[unsafe(no_mangle)]
pub extern "C" fn rudlayog_memory_waiting(
    alloc: Global,
    memory: &mut MemoryHandle,
    reports: &mut u64,
    answer: &mut Answer,
)
    ensures shown { OnOpen (ShowsWaiting reports.new answer.new) (reports.new ≡ 0)
        memory.old.loose.service memory.new.loose.service answer.new }
{
    *reports = 0;
    let service = taken!(memory, alloc, answer);
    *reports = service.waiting() as u64;
    *answer = ended(Status::Written);
    memory.put(service);
}

/// Tells how many packets were refused out of memory, as `Service::refused` of `mm_service` does.
#[unsafe(no_mangle)]
pub extern "C" fn rudlayog_memory_refused(
    alloc: Global,
    memory: &mut MemoryHandle,
    packets: &mut u64,
    answer: &mut Answer,
)
    ensures shown { OnOpen (ShowsRefused packets.new answer.new) (packets.new ≡ 0)
        memory.old.loose.service memory.new.loose.service answer.new }
{
    *packets = 0;
    let service = taken!(memory, alloc, answer);
    *packets = service.refused();
    *answer = ended(Status::Written);
    memory.put(service);
}
