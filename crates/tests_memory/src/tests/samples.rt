//! Setups that the tests share, what they call with, and how outcomes and refusals are compared.
use mm_ask::{Outcome, Replies};
use mm_base::StoreId;
use mm_memory::Memory;
use mm_packet::{BlockPacket, Packet};
use mm_problem::Setup;
use std::fmt::Display;
use std::process::Abort;
use std::str;

// What gives memory, and ends a test that fails.
pub(crate) trait Host: Abort + AllocGlobal {}

impl<R: Abort + AllocGlobal> Host for R {}

// This holds, or the test fails and shows what.
pub(crate) fn holds(rt: &impl Host, is_so: bool, what: &str) {
    assert!(rt; is_so, "{what}");
}

// A bounded store of four blocks on channel 0, with one route.
pub(crate) const ONE_STORE: &str =
    "[[store]]\nid = \"SCI\"\nsize = 4\ntype = \"bounded\"\nchannel = 0\n\n[[route]]\napid = 100\nservice = 3\nsubtype = 25\nstore = \"SCI\"\n";

// The same store, a circular one of two blocks on channel 3, and a route to the first.
pub(crate) const TWO_STORES: &str =
    "[[store]]\nid = \"SCI\"\nsize = 4\ntype = \"bounded\"\nchannel = 0\n\n[[store]]\nid = \"HK\"\nsize = 2\ntype = \"circular\"\nchannel = 3\n\n[[route]]\napid = 100\nservice = 3\nsubtype = 25\nstore = \"SCI\"\n";

// Telemetry of APID 100, service 3, subtype 25, without data.
pub(crate) const PACKET: [u8; 21] = *b"\x08\x64\xC0\0\0\x0E\x20\x03\x19\0\0\0\0\0\0\0\0\0\0\0\0";

// The packet of these octets, in memory of its own.
pub(crate) fn block(rt: &impl Host, octets: &[u8]) -> BlockPacket {
    let (packet, _rest) = Packet::parse(rt.alloc(), octets).expect(rt, "a packet");
    BlockPacket::of(packet).expect(rt, "a short packet")
}

pub(crate) fn id(rt: &impl Host, text: &[u8]) -> StoreId {
    StoreId::of_text(text).expect(rt, "an identifier")
}

// The memory of a setup.
pub(crate) fn memory_of(rt: &impl Host, setup: &str) -> Memory {
    let setup = Setup::read(rt.alloc(), setup.as_bytes()).expect(rt, "a setup");
    Memory::of_setup(rt.alloc(), &setup).expect(rt, "memory")
}

// A call told this outcome and this text.
pub(crate) fn is_told(rt: &impl Host, name: &str, told: &Replies, outcome: Outcome, want: &str) {
    let text = str::from_utf8(&told.text).expect(rt, name);
    holds(rt, told.outcome == outcome && text == want, name);
}

// A refusal is printed so.
pub(crate) fn is_shown(rt: &impl Host, refusal: &impl Display, text: &str) {
    let shown = refusal.to_string(rt.alloc()).expect(rt, "memory");
    holds(rt, shown.as_str() == text, text);
}
