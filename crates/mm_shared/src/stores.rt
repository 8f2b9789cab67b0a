//! The stores of a run that the workers of its steps share.
ghost use Rattle.std.specs.Prelude.{◌≡◌, ℕ, ◌-◌, ◌<◌, ◌≤◌, ◌==◌, [], ◌++◌, length, map, replicate, All, false, IfOk};
ghost use Rattle.std.specs.Prelude.{OnErr, IfSome, IfNone, bytes_eq, vec_len, vec_capacity};
ghost use Rattle.mm_shared.specs.Words.{MAX_SEATS, opening_at, MAX_STORES, IsState};
ghost use Rattle.mm_shared.specs.Views.{new_ports, ports_after, counters_of};
ghost use Rattle.mm_shared.specs.Stores.{held_stores, label_of, states_of, labels_of, names_of, ids_of, id_at};
ghost use Rattle.mm_shared.specs.Stores.{stores_in, AreNamed, AreWorkers, HasRoom, IsFilled, AreAtRest, AreOpen};
ghost use Rattle.mm_shared.specs.Stores.{AreNew, HaveLegalLogs};

use crate::counters::StoreCounters;
use crate::label::StoreLabel;
use crate::port::{Port, Ports};
use crate::shared::SharedStores;
use mm_base::{NoMemory, StoreId};
use mm_desk::{Held, MAX_SEATS, StoreState};
use std::alloc::Global;
use std::mem::replace;

/// Stores that are open for the steps of a run, and the port of each worker of a step. What else is needed to give the
/// stores back is kept beside them.
#[derive(Drop)]
pub struct OpenStores {
    pub labels: Vec<StoreLabel>,
    pub stores: SharedStores,
    pub workers: Vec<Port>,
    pub(crate) rest: Ports,
    pub(crate) room: Vec<Held>,
}

/// The index of the store with an identifier.
pub fn place_of(stores: &[StoreLabel], id: &StoreId) -> Option<usize>
    requires named { AreNamed (ids_of stores.now) }
    ensures found { IfSome result (λ k. k < length stores.now) }
    ensures is { IfSome result (λ k. (j : ℕ) → j < length stores.now
        → bytes_eq (id_at (ids_of stores.now) j) id.now ≡ (j == k)) }
    ensures none { IfNone result ((j : ℕ) → j < length stores.now
        → bytes_eq (id_at (ids_of stores.now) j) id.now ≡ false) }
{
    mm_desk::place_of(stores, id)
}

// Parts stores into their labels and their states.
fn part_all(stores: &mut Vec<Held>, labels: &mut Vec<StoreLabel>, states: &mut Vec<StoreState>)
    requires labels { HasRoom labels.old (vec_len stores.old) }
    requires states { HasRoom states.old (vec_len stores.old) }
    ensures labels { IsFilled labels.old labels.new (map label_of stores.old.items) }
    ensures states { IsFilled states.old states.new (states_of stores.old.items) }
    ensures emptied { IsFilled stores.old stores.new [] }
{
    let Some(held) = stores.pop() else {
        return;
    };
    part_all(stores, labels, states);
    let Held { id, channel, state } = held;
    labels.push_reserved(StoreLabel { id, channel });
    states.push_reserved(state);
}

// Puts stores together again.
#[tactic(auto, using(crate::proofs::Opening::one_more, crate::proofs::Opening::count_is))]
fn join_all(labels: Vec<StoreLabel>, states: Vec<StoreState>, stores: &mut Vec<Held>)
    requires as_many { length labels.items ≡ length states.items }
    requires none { stores.old.items ≡ [] }
    requires room { length labels.items ≤ vec_capacity stores.old }
    ensures stores { stores.new.items ≡ held_stores labels.items states.items }
    ensures capacity { vec_capacity stores.new ≡ vec_capacity stores.old }
{
    let mut labels = labels;
    let mut states = states;
    let Some(label) = labels.pop() else {
        return;
    };
    let Some(state) = states.pop() else {
        unreachable!()
    };
    join_all(labels, states, stores);
    stores.push_reserved(Held {
        id: label.id,
        channel: label.channel,
        state,
    });
}

/// Opens stores. If there is no memory, they are as before. The memory that the steps need is taken here.
#[tactic(auto, using(crate::proofs::Opening::together, crate::proofs::Opening::count_is))]
pub fn open_all(alloc: Global, stores: &mut Vec<Held>) -> Result<OpenStores, NoMemory>
    requires few { vec_len stores.old ≤ MAX_STORES }
    ensures opened { IfOk result (λ it. AreAtRest it × (stores_in it ≡ stores.old.items)) }
    ensures err { OnErr result (stores.new.items ≡ stores.old.items) }
{
    let count = stores.len();
    let mut labels = Vec::with_capacity(alloc, count)?;
    let mut states = Vec::with_capacity(alloc, count)?;
    let workers = Vec::with_capacity(alloc, MAX_SEATS as usize)?;
    part_all(stores, &mut labels, &mut states);
    match SharedStores::open(alloc, states, MAX_SEATS) {
        Ok((shared, rest)) => {
            let room = replace(stores, Vec::new(alloc));
            Ok(OpenStores {
                labels,
                stores: shared,
                workers,
                rest,
                room,
            })
        }
        Err((states, lack)) => {
            join_all(labels, states, stores);
            Err(lack)
        }
    }
}

/// Begins a step: each of this many workers gets a port.
#[tactic(auto, using(crate::proofs::Opening::labels_are, crate::proofs::Opening::states_are))]
pub fn seat_workers(opened: &mut OpenStores, workers: u32)
    requires rest { AreAtRest opened.old }
    requires few { workers ≤ MAX_SEATS }
    ensures new { AreNew (stores_in opened.old) workers opened.new }
{
    for _ in 0..workers {
        opened
            .workers
            .push_reserved(opened.stores.split(&mut opened.rest));
    }
}

/// Ends a step: takes all ports back. A legal log of the workers' calls on it leads each store to its state now.
#[tactic(auto, using(crate::proofs::Opening::labels_are))]
pub fn settle(opened: &mut OpenStores)
    requires opened { AreOpen opened.old }
    ensures rest { AreAtRest opened.new }
    ensures labels { labels_of (stores_in opened.new) ≡ names_of opened.old.labels.items }
    ensures logs { HaveLegalLogs opened.old.workers.items opened.old.rest.of.states (states_of (stores_in opened.new)) }
    ensures sound { All (λ h. IsState h.state) (stores_in opened.new) }
{
    while let Some(port) = opened.workers.pop() {
        opened.stores.join(&mut opened.rest, port);
    }
    opened.stores.settle(&mut opened.rest);
    read_states(opened);
}

/// Reads each store, between steps, which shows that it is sound.
#[tactic(auto, using(crate::proofs::Opening::state_at, crate::proofs::Opening::count_is))]
pub fn read_states(opened: &mut OpenStores)
    requires rest { AreAtRest opened.old }
    ensures same { opened.new ≡ opened.old }
    ensures sound { All (λ h. IsState h.state) (stores_in opened.old) }
{
    for store in 0..opened.labels.len() {
        counters_at(opened, store);
    }
}

/// The counters of the store at an index, between steps.
#[tactic(auto, using(crate::proofs::Opening::states_are, crate::proofs::Opening::count_is))]
pub fn counters_at(opened: &mut OpenStores, store: usize) -> StoreCounters
    requires rest { AreAtRest opened.old }
    requires within { store < length (stores_in opened.old) }
    ensures same { opened.new ≡ opened.old }
    ensures counters { result ≡ counters_of (opening_at (states_of (stores_in opened.old)) store) }
    ensures sound { IsState (opening_at (states_of (stores_in opened.old)) store) }
{
    opened.stores.counters(&mut opened.rest, store)
}

/// Gives the stores back as they are between steps. It takes no memory.
pub fn close_all(opened: OpenStores, stores: &mut Vec<Held>)
    requires rest { AreAtRest opened }
    ensures stores { stores.new.items ≡ stores_in opened }
    ensures sound { All (λ h. IsState h.state) stores.new.items }
{
    let OpenStores {
        labels,
        stores: shared,
        workers: _,
        rest,
        mut room,
    } = opened;
    shared.close(rest, &labels, &mut room);
    *stores = room;
}
