//! The state of a packet store.
ghost use Rattle.std.specs.Prelude.{◌≡◌, ◌≤◌, Some, None, IsOk, IsOkUnless, OnOk, OnErr, MatchOption};
ghost use Rattle.mm_desk.specs.Rest.{rest_fault, resize_fault};
ghost use Rattle.mm_desk.specs.Machine.{State, IsState, opening, step};

use crate::event::Event;
use crate::fault::Fault;
use crate::reply::{Offered, Reply, Returned, answer_of, handed_back};
use mm_base::{Kind, MAX_BLOCKS};
use mm_packet::BlockPacket;
use mm_store::laws::stores_lose_alike;
use mm_store::{AnyStore, PacketStore};
use std::marker::Model;

/// A by-time-range retrieval (ECSS-E-ST-70-41C, 6.15): its first and its last time, and the time of the packet that it
/// gave last, in ticks; 0 where it gave none.
#[derive(Clone, Copy, Debug, PartialEq, Eq)]
pub struct Retrieval {
    pub from: u64,
    pub to: u64,
    pub after: u64,
}

/// A packet store with its storage switch, its retrieval, and its counters of packets offered, lost and deleted. What was
/// offered is always lost, deleted or held.
#[derive(Drop)]
pub struct StoreState {
    pub(crate) store: AnyStore,
    pub(crate) storage: bool,
    pub(crate) retrieval: Option<Retrieval>,
    // Where the next packet of the retrieval may stand in the store: a guess, which no contract sees.
    pub(crate) place: usize,
    pub(crate) offered: u64,
    pub(crate) lost: u64,
    pub(crate) deleted: u64,
}

impl Model for StoreState {
    ghost Value = { State };

    ghost view = { λ a. record { store = a.store; storage = a.storage; retrieval = a.retrieval; offered = a.offered; lost = a.lost; deleted = a.deleted } };

    ghost invariant = { λ a. IsState (record { store = a.store; storage = a.storage; retrieval = a.retrieval; offered = a.offered; lost = a.lost; deleted = a.deleted }) };
}

impl StoreState {
    ghost use Rattle.std.specs.Borrow.{sem};
    ghost use Rattle.mm_desk.specs.Lending.{LendsNext};

    /// The state of a store whose storage is off, with what it holds as offered.
    pub fn of(store: AnyStore) -> StoreState
        ensures opening { result ≡ opening store }
    {
        let offered = u64::from(store.len());
        StoreState {
            store,
            storage: false,
            retrieval: None,
            place: 0,
            offered,
            lost: 0,
            deleted: 0,
        }
    }

    /// Offers a packet at a moment, in ticks. It is handed back with 17 `Disabled` where storage is off, and then with
    /// 21 `ClockEnd` at the last storage time or at 2^64 - 1 offers.
    #[inline]
    pub fn offer(&mut self, now: u64, packet: BlockPacket) -> Result<Offered, Returned>
        ensures machine { step self.old (Event.Offer now packet) ≡ (Reply.Offered result, self.new) }
    {
        if !self.storage {
            let fault = Fault::Disabled;
            return Err(Returned { fault, packet });
        }
        if self.store.last_time() == u64::MAX || self.offered == u64::MAX {
            let fault = Fault::ClockEnd;
            return Err(Returned { fault, packet });
        }
        stores_lose_alike();
        let done = self.store.put(now, packet);
        self.offered += 1;
        self.lost += handed_back(&done);
        answer_of(done)
    }

    /// Begins a retrieval from a first to a last time, both included; 18 `Busy` where one is on, 20 `BadRange` where the
    /// first is later than the last.
    pub fn begin(&mut self, from: u64, to: u64) -> Result<(), Fault>
        ensures machine { step self.old (Event.Begin from to) ≡ (Reply.Done result, self.new) }
    {
        if self.retrieval.is_some() {
            return Err(Fault::Busy);
        }
        if from > to {
            return Err(Fault::BadRange);
        }
        self.retrieval = Some(Retrieval { from, to, after: 0 });
        self.place = 0;
        Ok(())
    }

    /// Lends the next packet of the retrieval with its storage time; nothing at its end, where it is over. 19 `Idle` where
    /// none is on.
    pub fn next(&mut self) -> Result<Option<(u64, &BlockPacket)>, Fault>
        ensures* machine { sem 𝓛 (LendsNext self.entry result) }
    {
        let Some(retrieval) = &mut self.retrieval else {
            return Err(Fault::Idle);
        };
        match self.store.first_near(
            retrieval.from,
            retrieval.to,
            retrieval.after,
            &mut self.place,
        ) {
            Some((time, packet)) => {
                retrieval.after = time;
                Ok(Some((time, packet)))
            }
            None => {
                self.retrieval = None;
                Ok(None)
            }
        }
    }

    /// Ends the retrieval; 19 `Idle` where none is on.
    pub fn abort(&mut self) -> Result<(), Fault>
        ensures machine { step self.old Event.Abort ≡ (Reply.Done result, self.new) }
    {
        match self.retrieval.take() {
            Some(_) => Ok(()),
            None => Err(Fault::Idle),
        }
    }

    /// Deletes the packets up to a time, that time included, and returns their number; 18 `Busy` where a retrieval is on.
    pub fn delete(&mut self, limit: u64) -> Result<u32, Fault>
        ensures machine { step self.old (Event.Delete limit) ≡ (Reply.Deleted result, self.new) }
    {
        if self.retrieval.is_some() {
            return Err(Fault::Busy);
        }
        let count = self.store.delete_up_to(limit);
        self.deleted += u64::from(count);
        Ok(count)
    }

    /// Switches storage on.
    pub fn enable(&mut self)
        ensures machine { step self.old Event.Enable ≡ (Reply.Done (Ok tt), self.new) }
    {
        self.storage = true;
    }

    /// Switches storage off. A retrieval goes on.
    pub fn disable(&mut self)
        ensures machine { step self.old Event.Disable ≡ (Reply.Done (Ok tt), self.new) }
    {
        self.storage = false;
    }

    /// 26 `StorageOn` where storage is on, and then 18 `Busy` where a retrieval is.
    pub fn at_rest(&self) -> Result<(), Fault>
        ensures at_rest { MatchOption (rest_fault self.now) (IsOk result) (λ fault. result ≡ Err fault) }
    {
        if self.storage {
            return Err(Fault::StorageOn);
        }
        if self.retrieval.is_some() {
            return Err(Fault::Busy);
        }
        Ok(())
    }

    /// Sets the size of a store at rest, in blocks, and keeps all else; 9 `HoldsMore` where it holds more packets than that.
    pub fn resize(&mut self, size: u32) -> Result<(), Fault>
        requires lowest { 1 ≤ size }
        requires highest { size ≤ MAX_BLOCKS }
        ensures ok { OnOk result
            (self.new ≡ record self.old { store = record self.old.store { size = size } }) }
        ensures refused { MatchOption (resize_fault self.old size) (IsOkUnless result Fault.NoMemory)
            (λ fault. result ≡ Err fault) }
        ensures err { OnErr result (self.new ≡ self.old) }
    {
        self.at_rest()?;
        self.store.resize(size)?;
        Ok(())
    }

    /// Sets the kind of a store at rest, and keeps all else. A store that has the kind takes no memory.
    pub fn change_kind(&mut self, kind: Kind) -> Result<(), Fault>
        ensures ok { OnOk result
            (self.new ≡ record self.old { store = record self.old.store { kind = kind } }) }
        ensures refused { MatchOption (rest_fault self.old) (IsOkUnless result Fault.NoMemory)
            (λ fault. result ≡ Err fault) }
        ensures same_kind { kind ≡ self.old.store.kind → rest_fault self.old ≡ None → IsOk result }
        ensures err { OnErr result (self.new ≡ self.old) }
    {
        self.at_rest()?;
        self.store.change_kind(kind)?;
        Ok(())
    }
}
