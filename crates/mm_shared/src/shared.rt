//! Packet stores that threads share.
ghost use Rattle.std.specs.Prelude.{◌≡◌, ◌+◌, ◌<◌, ◌≤◌, ℕ, [], length, All, IfOk, IfErr, IsTrue, false, vec_capacity};
ghost use Rattle.std.specs.Prelude.{slice_index_or, slice_set};
ghost use Rattle.mm_shared.specs.Words.{some, get_elem?, MAX_STORES, IsState, opening_at};
ghost use Rattle.std.specs.Slots.{slots_items, slots_len, slots_filled, IsFull};
ghost use Rattle.mm_shared.specs.Rule.{calls_on};
ghost use Rattle.mm_shared.specs.Stores.{held_stores, labels_of, names_of, states_of, AreAllPorts, MayClose};
ghost use Rattle.mm_shared.specs.Views.{HaveLogs, origin, new_ports, first_port, other_ports, with_port, counters_of};

use crate::counters::StoreCounters;
use crate::label::StoreLabel;
use crate::lock::{restore, take_by_all};
use crate::port::{Port, Ports};
use crate::rule::{Before, First, Knows, Opened, Ruled, Settle};
use atomic_table::{Closed, Refused, Table};
use mm_base::{MAX_STORES, NoMemory};
use mm_desk::{Held, StoreState};
use std::alloc::Global;
use std::marker::Model;
use std::snapshot::Snapshot;

/// Packet stores that threads share, each by a port of its own. Stores count from 0. Contracts see which stores they
/// are, and the numbers of stores and of seats.
#[derive(Drop)]
pub struct SharedStores {
    pub(crate) table: Table<StoreState, Knows, Opened, Ruled, Global>,
}

impl Model for SharedStores {
    ghost use Rattle.std.specs.Prelude.{length};
    ghost use Rattle.mm_shared.specs.Steps.{HasSlots};
    ghost use Rattle.mm_shared.specs.Views.{StoresView};

    ghost Value = { StoresView };

    ghost view = { λ s. record {
      id = s.table.shared.table_id;
      many = length s.table.shared.key.states.value.items;
      seats = s.table.shared.key.seats;
    } };

    ghost invariant = { λ s. HasSlots s.table.shared.table_id (length s.table.shared.key.states.value.items) };
}

// Takes the states out of a closed table, each under its label.
fn take_out(closed: Closed<StoreState, Global>, labels: &[StoreLabel], stores: &mut Vec<Held>)
    requires full { IsFull closed.slots }
    requires as_many { slots_len closed.slots ≡ length labels.now }
    requires none { stores.old.items ≡ [] }
    requires room { length labels.now ≤ vec_capacity stores.old }
    ensures stores { stores.new.items ≡ held_stores labels.now (slots_items closed.slots) }
    ensures sound { All (λ h. IsState h.state) stores.new.items }
{
    let mut closed = closed;
    for k in 0..labels.len() {
        let label = labels[k];
        let state = closed.take(k);
        stores.push_reserved(Held {
            id: label.id,
            channel: label.channel,
            state,
        });
    }
    closed.free();
}

impl SharedStores {
    /// Stores in these states with this many seats, and all ports. If there is no memory, the states come back.
    pub fn open(
        alloc: Global,
        states: Vec<StoreState>,
        seats: u32,
    ) -> Result<(SharedStores, Ports), (Vec<StoreState>, NoMemory)>
        requires few { length states.items ≤ MAX_STORES }
        ensures opened { IfOk result (λ o. (o.0.many ≡ length states.items) × (o.0.seats ≡ seats)) }
        ensures ports { IfOk result (λ o. o.1 ≡ new_ports (origin o.0.id states.items) seats) }
        ensures back { IfErr result (λ refused. refused.0.items ≡ states.items) }
    {
        let words = [0u64; MAX_STORES + 1];
        let opened = Opened {
            states: Snapshot::of(&states),
            seats,
        };
        match Table::new(alloc, &words[..states.len() + 1], states, &opened) {
            Ok((table, seat)) => Ok((SharedStores { table }, Ports { first: 0, seat })),
            Err(Refused { slots }) => Err((slots, NoMemory)),
        }
    }

    /// Parts the first seat from the others, which gets a port of its own.
    pub fn split(&self, ports: &mut Ports) -> Port
        requires of { ports.old.of.table ≡ self.now.id }
        requires some { 0 < length ports.old.lists }
        ensures port { result ≡ first_port ports.old }
        ensures others { ports.new ≡ other_ports ports.old }
    {
        let seat = self.table.shared.split_seat::<First>(&mut ports.seat);
        let number = ports.first;
        ports.first += 1;
        Port { number, seat }
    }

    /// Puts a port before the others: their first seat is the next after its own.
    pub fn join(&self, ports: &mut Ports, port: Port)
        requires of { (ports.old.of.table ≡ self.now.id) × (port.of.table ≡ self.now.id) }
        requires next { port.number + 1 ≡ ports.old.first }
        ensures joined { ports.new ≡ with_port port ports.old }
    {
        self.table
            .shared
            .join_seat::<Before>(&mut ports.seat, port.seat);
        ports.first = port.number;
    }

    // Learns the states of the stores, with all ports: from then on calls count from these states.
    pub(crate) fn settle(&self, ports: &mut Ports)
        requires all { AreAllPorts self.now ports.old }
        ensures logs { HaveLogs ports.old.lists ports.old.of.states ports.new.of.states }
        ensures many { length ports.new.of.states ≡ self.now.many }
        ensures all { ports.new ≡ new_ports (origin self.now.id ports.new.of.states) self.now.seats }
    {
        self.table.shared.load::<Settle>(&mut ports.seat, 0);
    }

    // The counters of a store, with all ports, through which no call was made.
    pub(crate) fn counters(&self, ports: &mut Ports, store: usize) -> StoreCounters
        requires all { AreAllPorts self.now ports.old }
        requires fresh { All (λ calls. calls ≡ []) ports.old.lists }
        requires within { store < self.now.many }
        ensures same { ports.new ≡ ports.old }
        ensures counters { result ≡ counters_of (opening_at ports.old.of.states store) }
        ensures sound { IsState (opening_at ports.old.of.states store) }
    {
        let table = &self.table.shared;
        take_by_all(table, &mut ports.seat, store);
        let counters = StoreCounters::of(ports.seat.slot_mut(table, store));
        restore(table, &mut ports.seat, store);
        counters
    }

    /// Gives the stores back under these labels, with all ports. It takes no memory.
    #[tactic(auto, using(crate::proofs::Opening::labels_are))]
    pub fn close(self, ports: Ports, labels: &[StoreLabel], stores: &mut Vec<Held>)
        requires may { MayClose self ports labels.now }
        requires room { (stores.old.items ≡ []) × (length labels.now ≤ vec_capacity stores.old) }
        ensures labels { labels_of stores.new.items ≡ names_of labels.now }
        ensures logs { HaveLogs ports.lists ports.of.states (states_of stores.new.items) }
        ensures untouched { (k : ℕ) → k < self.many → All (λ calls. calls_on k calls ≡ []) ports.lists
            → opening_at (states_of stores.new.items) k ≡ opening_at ports.of.states k }
        ensures sound { All (λ h. IsState h.state) stores.new.items }
    {
        take_out(self.table.close_with(ports.seat), labels, stores);
    }
}
