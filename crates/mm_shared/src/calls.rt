//! The calls that a port makes on a store. Each takes the store's lock, is made on the state, and gives the lock back.
ghost use Rattle.std.specs.Prelude.{◌≡◌, ◌≢◌, ◌<◌, IfErr, Ok, Err};
ghost use Rattle.mm_desk.specs.declared.fault.Fault.TheVariants.{NoMemory};
ghost use Rattle.mm_shared.specs.Views.{with_call};

use crate::lock::{give, restore, take};
use crate::port::Port;
use crate::shared::SharedStores;
use mm_desk::{Event, Fault, Offered, Reply, Returned};
use mm_packet::BlockPacket;
use mm_store::Stored;
use std::alloc::Global;
use std::marker::Brand;
use std::snapshot::Snapshot;
use std::sync::Wait;

// Takes the state of a store, makes a call on it, and gives it back. What was asked is for the proof alone.
macro_rules! call {
    ($table:expr, $rt:ident, $port:ident, $store:ident; $call:ident($($argument:expr),*), $asked:expr) => {{
        let table = &$table;
        let asked = $asked;
        take($rt, table, &mut $port.seat, $store);
        let answer = $port.seat.slot_mut(table, $store).$call($($argument),*);
        give::<Brand, _, _>(table, &mut $port.seat, $store, &asked, &answer);
        answer
    }};
}

impl SharedStores {
    /// Offers a packet at a moment, in ticks. It is handed back if it is refused.
    pub fn offer<R: Wait>(
        &self,
        rt: &R,
        port: &mut Port,
        store: usize,
        now: u64,
        packet: BlockPacket,
    ) -> Result<Offered, Returned>
        requires of { port.old.of.table ≡ self.now.id }
        requires within { store < self.now.many }
        ensures called { port.new ≡ with_call port.old store (Event.Offer now packet) (Reply.Offered result) }
        ensures back { IfErr result (λ back. back.packet ≡ packet) }
    {
        call!(self.table.shared, rt, port, store; offer(now, packet), (now, Snapshot::of(&packet)))
    }

    /// Begins a retrieval from a first to a last time, both included.
    pub fn begin<R: Wait>(
        &self,
        rt: &R,
        port: &mut Port,
        store: usize,
        from: u64,
        to: u64,
    ) -> Result<(), Fault>
        requires of { port.old.of.table ≡ self.now.id }
        requires within { store < self.now.many }
        ensures called { port.new ≡ with_call port.old store (Event.Begin from to) (Reply.Done result) }
    {
        call!(self.table.shared, rt, port, store; begin(from, to), (from, to))
    }

    /// Gives a copy of the next packet of the retrieval with its storage time, or nothing at its end. If there is no
    /// memory for the copy, nothing has changed.
    pub fn next<R: Wait>(
        &self,
        rt: &R,
        alloc: Global,
        port: &mut Port,
        store: usize,
    ) -> Result<Option<Stored>, Fault>
        requires of { port.old.of.table ≡ self.now.id }
        requires within { store < self.now.many }
        ensures called { result ≢ Err NoMemory → port.new ≡ with_call port.old store Event.Next (Reply.Given result) }
        ensures lack { result ≡ Err NoMemory → port.new ≡ port.old }
    {
        let table = &self.table.shared;
        take(rt, table, &mut port.seat, store);
        let answer = port.seat.slot_mut(table, store).next_copy(alloc);
        if let Err(Fault::NoMemory) = answer {
            restore(table, &mut port.seat, store);
            return answer;
        }
        give::<Brand, _, _>(table, &mut port.seat, store, &(), &answer);
        answer
    }

    /// Ends the retrieval.
    pub fn abort<R: Wait>(&self, rt: &R, port: &mut Port, store: usize) -> Result<(), Fault>
        requires of { port.old.of.table ≡ self.now.id }
        requires within { store < self.now.many }
        ensures called { port.new ≡ with_call port.old store Event.Abort (Reply.Done result) }
    {
        call!(self.table.shared, rt, port, store; abort(), ())
    }

    /// Deletes the packets up to a time, that time included, and returns their number.
    pub fn delete<R: Wait>(
        &self,
        rt: &R,
        port: &mut Port,
        store: usize,
        limit: u64,
    ) -> Result<u32, Fault>
        requires of { port.old.of.table ≡ self.now.id }
        requires within { store < self.now.many }
        ensures called { port.new ≡ with_call port.old store (Event.Delete limit) (Reply.Deleted result) }
    {
        call!(self.table.shared, rt, port, store; delete(limit), limit)
    }

    /// Switches storage on.
    pub fn enable<R: Wait>(&self, rt: &R, port: &mut Port, store: usize)
        requires of { port.old.of.table ≡ self.now.id }
        requires within { store < self.now.many }
        ensures called { port.new ≡ with_call port.old store Event.Enable (Reply.Done (Ok tt)) }
    {
        call!(self.table.shared, rt, port, store; enable(), ())
    }

    /// Switches storage off. A retrieval goes on.
    pub fn disable<R: Wait>(&self, rt: &R, port: &mut Port, store: usize)
        requires of { port.old.of.table ≡ self.now.id }
        requires within { store < self.now.many }
        ensures called { port.new ≡ with_call port.old store Event.Disable (Reply.Done (Ok tt)) }
    {
        call!(self.table.shared, rt, port, store; disable(), ())
    }
}
