//! What is asked of a store through a seat or a port, and what it answers, with packets by their sequence counts.

use crate::met::Met;
use mm_base::{Kind, NoMemory};
use mm_desk::{Fault, Offered, Returned, StoreState};
use mm_packet::{BlockPacket, Header, Octets, Packet};
use mm_store::{AnyStore, PacketStore, Stored};
use std::alloc::Global;

/// What is asked of a store; the last three by its owner alone.
#[derive(Clone, Copy)]
pub enum Ask {
    Offer(u64, u16),
    Begin(u64, u64),
    Next,
    Abort,
    Delete(u64),
    Disable,
    Enable,
    Rest,
    Resize(u32),
    ChangeKind(Kind),
}

/// What a store answers.
#[derive(Clone, Copy, PartialEq, Eq)]
pub enum Told {
    Kept(u64),
    KeptOver(u64, u16),
    Lost(u16),
    Back(Fault, u16),
    Given(u64, u16),
    End,
    Deleted(u32),
    Done,
    Refused(Fault),
    /// Nothing was asked: there was no memory for the packet to be offered, or the call is one of the owner.
    Unmade,
}

/// What a call answers that found no memory: a packet that was offered is handed back.
pub fn told_of_lack(ask: Ask) -> Told {
    match ask {
        Ask::Offer(_, count) => Told::Back(Fault::NoMemory, count),
        _ => Told::Refused(Fault::NoMemory),
    }
}

/// The answer to an offer.
pub fn told_of_offer(answer: &Result<Offered, Returned>) -> Told {
    match answer {
        Ok(Offered::Kept(time)) => Told::Kept(*time),
        Ok(Offered::KeptOver(time, oldest)) => Told::KeptOver(*time, oldest.packet().count()),
        Ok(Offered::Lost(packet)) => Told::Lost(packet.packet().count()),
        Err(back) => Told::Back(back.fault, back.packet.packet().count()),
    }
}

/// What a call that gives a copy gave.
pub fn told_of_given(answer: &Result<Option<Stored>, Fault>) -> Told {
    match answer {
        Ok(Some(stored)) => Told::Given(stored.time, stored.packet.packet().count()),
        Ok(None) => Told::End,
        Err(fault) => Told::Refused(*fault),
    }
}

/// The answer to a deletion.
pub fn told_of_delete(answer: Result<u32, Fault>) -> Told {
    match answer {
        Ok(count) => Told::Deleted(count),
        Err(fault) => Told::Refused(fault),
    }
}

/// The answer to a call that is done or refused.
pub fn told_of(answer: Result<(), Fault>) -> Told {
    match answer {
        Ok(()) => Told::Done,
        Err(fault) => Told::Refused(fault),
    }
}

/// A call through a seat, by its number, with its answer.
pub(crate) type SeatCall = (usize, Ask, Told);

/// The first seat offers, then the second; the first takes a copy of its packet back, and aborts. The calls that the
/// example lacks follow.
pub(crate) const CALLS: [SeatCall; 8] = [
    (0, Ask::Offer(7, 1), Told::Kept(7)),
    (1, Ask::Offer(7, 2), Told::Kept(8)),
    (0, Ask::Begin(1, u64::MAX), Told::Done),
    (0, Ask::Next, Told::Given(7, 1)),
    (0, Ask::Abort, Told::Done),
    (1, Ask::Delete(7), Told::Deleted(1)),
    (1, Ask::Disable, Told::Done),
    (0, Ask::Enable, Told::Done),
];

/// What the calls leave: one packet of two.
pub(crate) fn left(state: &StoreState) -> Met {
    let counters = (state.offered(), state.lost(), state.deleted());
    Met::Whole
        .provided(counters == (2, 0, 1), "other counters")
        .provided(state.store().len() == 1, "another number held")
        .provided(state.storage(), "storage is off")
        .provided(state.retrieval().is_none(), "a retrieval is on")
}

/// A bounded store of four blocks with its storage on, where there is memory for it.
pub(crate) fn new_state(alloc: Global) -> Result<StoreState, NoMemory> {
    let store = AnyStore::new(alloc, Kind::Bounded, 4)?;
    let mut state = StoreState::of(store);
    state.enable();
    Ok(state)
}

/// Telemetry with this sequence count and three octets of data.
pub(crate) fn packet(alloc: Global, count: u16) -> Result<BlockPacket, NoMemory> {
    let mut octets = Vec::new(alloc);
    octets.extend_from_slice(&[1, 2, 3])?;
    let header = Header::new(100, count % 1000, 3, 25);
    let body = Octets::new(octets)?;
    match BlockPacket::of(Packet::tm(header, 0, 0, 0, body)) {
        Ok(packet) => Ok(packet),
        Err(_) => Err(NoMemory),
    }
}
