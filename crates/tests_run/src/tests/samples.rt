//! Identifiers, packets, stores and memories that the tests share.

use mm_base::{Kind, Refused, StoreId};
use mm_desk::{Held, StoreState};
use mm_memory::Memory;
use mm_packet::{BlockPacket, Header, Octets, Packet};
use mm_problem::Setup;
use mm_store::{AnyStore, PacketStore};
use std::alloc::Global;
use std::fmt::Display;
use std::process::Abort;

/// This holds, or the test fails and shows what.
pub fn holds(rt: &impl Abort, is_so: bool, what: &str) {
    assert!(rt; is_so, "{what}");
}

/// This holds of the case with a name, or the test fails and shows both.
pub fn holds_of(rt: &impl Abort, is_so: bool, name: &str, what: &str) {
    assert!(rt; is_so, "{name}: {what}");
}

pub fn id(rt: &impl Abort, text: &str) -> StoreId {
    StoreId::of_text(text.as_bytes()).expect(rt, "an identifier")
}

/// An identifier is that of this text.
pub fn is_named(rt: &impl Abort, id: &StoreId, text: &str) {
    assert!(rt; id.text() == text.as_bytes(), "the identifier");
}

/// Telemetry of an APID with this sequence count, by which the tests know it again.
pub fn packet_of(rt: &impl Abort, alloc: Global, apid: u16, count: u16) -> BlockPacket {
    let header = Header::new(apid % 2000, count % 1000, 3, 25);
    let data = Octets::new(Vec::new(alloc)).expect(rt, "memory");
    let packet = Packet::tm(header, 0, 0, 0, data);
    BlockPacket::of(packet).expect(rt, "a short packet")
}

/// Such a packet of APID 100.
pub fn packet(rt: &impl Abort, alloc: Global, count: u16) -> BlockPacket {
    packet_of(rt, alloc, 100, count)
}

/// An empty store of this kind, of four blocks, with its storage off.
pub fn new_state(rt: &impl Abort, alloc: Global, kind: Kind) -> StoreState {
    StoreState::of(AnyStore::new(alloc, kind, 4).expect(rt, "memory"))
}

/// A store of this kind, of four blocks, with its storage on and the packets 1, 2, .. up to a number at the times 7, 8,
/// ..
pub fn store_with(rt: &impl Abort, alloc: Global, kind: Kind, held: u16) -> StoreState {
    let mut state = new_state(rt, alloc, kind);
    state.enable();
    for count in 0..held {
        let packet = packet(rt, alloc, count.saturating_add(1));
        assert!(rt; state.offer(7, packet).is_ok(), "a packet is stored");
    }
    state
}

/// The names of stores in order.
pub const NAMES: [&str; 4] = ["AAA", "BBB", "CCC", "DDD"];

const KINDS: [Kind; 4] = [Kind::Bounded, Kind::Circular, Kind::Bounded, Kind::Circular];

/// Stores of both kinds, on the virtual channel 3, that hold the packets 1, 2, .. up to a number each.
pub fn stores_with(rt: &impl Abort, alloc: Global, held: &[u16]) -> Vec<Held> {
    let mut stores = Vec::new(alloc);
    for ((text, kind), held) in NAMES.iter().zip(&KINDS).zip(held) {
        let store = Held {
            id: id(rt, *text),
            channel: 3,
            state: store_with(rt, alloc, *kind, *held),
        };
        stores.push(store).expect(rt, "memory");
    }
    stores
}

/// The memory of a setup text.
pub fn memory_of(rt: &impl Abort, alloc: Global, setup: &str) -> Memory {
    let setup = Setup::read(alloc, setup.as_bytes()).expect(rt, "a setup");
    Memory::of_setup(alloc, &setup).expect(rt, "memory")
}

/// How many packets were offered to a store, lost and deleted, and how many it holds.
pub fn counts(state: &StoreState) -> [u64; 4] {
    let held = u64::from(state.store().len());
    [state.offered(), state.lost(), state.deleted(), held]
}

/// The counters of a store are these.
pub fn has(rt: &impl Abort, state: &StoreState, want: [u64; 4]) {
    assert!(rt; counts(state) == want, "the counters");
}

/// The oldest packet that a store holds after a time: its time, its APID and its sequence count.
pub fn next_after(state: &StoreState, after: u64) -> Option<(u64, u16, u16)> {
    let (time, packet) = state.store().first_in(0, u64::MAX, after)?;
    Some((time, packet.packet().apid(), packet.packet().count()))
}

/// A refusal has this number, and is shown as this text.
pub fn is_told<T: Refused + Display + Copy>(
    rt: &impl Abort,
    alloc: Global,
    refusal: T,
    number: u8,
    text: &str,
) {
    assert!(rt; refusal.number() == number, "the number");
    let shown = refusal.to_string(alloc).expect(rt, "memory");
    holds(rt, shown.as_str() == text, text);
}
