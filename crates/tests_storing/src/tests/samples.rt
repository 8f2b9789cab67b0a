//! Packets spelled by hand, what tests call with, and how packets and refusals are compared.
use mm_packet::Packet;
use mm_st15::Configuration;
use std::fmt::Display;
use std::process::Abort;

/// The bounds of test helpers: they give memory, and end a test that fails.
pub trait Host: Abort + AllocGlobal {}

impl<R: Abort + AllocGlobal> Host for R {}

/// This holds, or the test fails and shows what.
pub fn holds(rt: &impl Host, is_so: bool, what: &str) {
    assert!(rt; is_so, "{what}");
}

/// A request of APID 100, count 0 and source 0: service 15, subtype 1, with the data 01 and an identifier of eight
/// octets.
pub const ENABLE: [u8; 20] = *b"\x18\x64\xC0\0\0\x0D\x20\x0F\x01\0\0\x01SCI     ";

/// A request that creates two stores.
pub const CREATE_STORES: [u8; 40] =
    *b"\x18\x64\xC0\0\0\x21\x20\x0F\x14\0\0\x02SCI     \0\0\0\x04\x01\0HK      \0\0\0\x02\0\x01";

/// A report of the configuration of one store: APID 100, count 0, counter 0, destination 0, moment 1.
pub const CONFIGURATIONS: [u8; 36] =
    *b"\x08\x64\xC0\0\0\x1D\x20\x0F\x17\0\0\0\0\0\0\0\0\0\0\0\x01\x01SCI     \0\0\0\x04\x01\0";

/// Identifiers of stores as the fields of requests and reports.
pub const SCI: [u8; 8] = *b"SCI     ";

pub const HK: [u8; 8] = *b"HK      ";

/// The two stores that the request creates, the first of which the report has.
pub const STORES: [Configuration; 2] = table! { Configuration;
    id SCI, size 4, kind 1, channel 0;
    id HK, size 2, kind 0, channel 1;
};

/// The first packet of these octets.
pub fn packet_of(rt: &impl Host, octets: &[u8]) -> Packet {
    let (packet, _rest) = Packet::parse(rt.alloc(), octets).expect(rt, "a packet");
    packet
}

/// The octets of a packet.
pub fn written(rt: &impl Host, packet: &Packet) -> Vec<u8> {
    packet.write(rt.alloc()).expect(rt, "memory")
}

/// The packet is written as these octets.
pub fn writes(rt: &impl Host, packet: &Packet, octets: &[u8]) {
    assert!(rt; written(rt, packet).as_slice() == octets);
}

/// A value is printed as this text.
pub fn is_shown(rt: &impl Host, refusal: &impl Display, text: &str) {
    let shown = refusal.to_string(rt.alloc()).expect(rt, "memory");
    holds(rt, shown.as_str() == text, text);
}
