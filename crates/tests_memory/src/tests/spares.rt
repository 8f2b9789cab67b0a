//! Packets in the memory of others.
use crate::tests::samples::{Host, TWO_STORES, block, holds, id, memory_of};
use mm_desk::{Fault, StoreState};
use mm_memory::{Memory, Spare, hands_back as store_hands_back, refuses};
use mm_packet::{BlockPacket, LentPacket, Packet};

// Telemetry of APID 100, which TWO_STORES routes to SCI, of APID 101, which has no route, and a telecommand.
const ROUTED: [u8; 22] = *b"\x08\x64\xC0\0\0\x0F\x20\x03\x19\0\0\0\0\0\0\0\0\0\0\0\0\x07";

const UNROUTED: [u8; 21] = *b"\x08\x65\xC0\0\0\x0E\x20\x03\x19\0\0\0\0\0\0\0\0\0\0\0\0";

const TELECOMMAND: [u8; 11] = *b"\x18\x64\xC0\0\0\x04\x20\x0F\x12\0\0";

fn lent<'a>(rt: &impl Host, octets: &'a [u8]) -> LentPacket<'a> {
    let (packet, _rest) = LentPacket::parse(octets).expect(rt, "a packet");
    packet
}

// A packet in memory of its own.
fn in_block(rt: &impl Host, octets: &[u8]) -> BlockPacket {
    let packet = lent(rt, octets);
    assert!(rt; packet.fits_block());
    BlockPacket::lent(rt.alloc(), &packet).expect(rt, "memory")
}

// A packet in the memory of another.
fn in_place_of(rt: &impl Host, block: BlockPacket, octets: &[u8]) -> Option<BlockPacket> {
    let packet = lent(rt, octets);
    assert!(rt; packet.fits_block());
    block.replaced(&packet)
}

// Whether there is a spare for a packet.
fn is_spare(rt: &impl Host, spare: &mut Spare) -> bool {
    let packet = lent(rt, &ROUTED);
    assert!(rt; packet.fits_block());
    spare.take(&packet).is_some()
}

// A packet that is read without memory is the one that is read with memory, in new memory and in that of another.
fn is_lent_as_read(rt: &impl Host, octets: &[u8]) {
    let (parsed, _rest) = Packet::parse(rt.alloc(), octets).expect(rt, "a packet");
    let block = in_block(rt, octets);
    let other = BlockPacket::with_room(rt.alloc()).expect(rt, "memory");
    let replaced = in_place_of(rt, other, octets).expect(rt, "a sole packet");
    let are_same = block.packet().is(&parsed) && replaced.is(&block);
    holds(rt, are_same, "the packet");
}

#[test]
fn a_lent_packet_is_the_packet(rt: HostRuntime) {
    is_lent_as_read(&rt, &ROUTED);
    is_lent_as_read(&rt, &UNROUTED);
    is_lent_as_read(&rt, &TELECOMMAND);
}

fn has_owners(rt: &impl Host, packet: &BlockPacket, owners: usize) {
    holds(rt, packet.owners() == owners, "its owners");
}

// The memory of a packet that is shared is no other packet's.
#[test]
fn shared_memory_is_not_replaced(rt: HostRuntime) {
    let packet = BlockPacket::with_room(rt.alloc()).expect(&rt, "memory");
    has_owners(&rt, &packet, 1);
    let copy = packet.copy(rt.alloc()).expect(&rt, "memory");
    has_owners(&rt, &packet, 2);
    let is_replaced = in_place_of(&rt, packet, &ROUTED).is_some();
    holds(&rt, !is_replaced, "shared memory");
    has_owners(&rt, &copy, 1);
    let is_replaced = in_place_of(&rt, copy, &ROUTED).is_some();
    holds(&rt, is_replaced, "memory of its own");
}

fn hands_back(rt: &impl Host, memory: &Memory, octets: &[u8], want: bool) {
    holds(
        rt,
        memory.hands_back(&lent(rt, octets)) == want,
        "whether it comes back",
    );
}

// Records telemetry that is routed to SCI.
fn record(rt: &impl Host, memory: &mut Memory, now: u64, spare: &mut Spare) {
    let block = block(rt, &ROUTED);
    memory
        .record_owned(rt.alloc(), now, block, spare)
        .expect(rt, "memory");
}

// Records it, and memory comes back or not.
fn records(rt: &impl Host, memory: &mut Memory, now: u64, is_back: bool) {
    let mut spare = Spare::none();
    record(rt, memory, now, &mut spare);
    holds(
        rt,
        is_spare(rt, &mut spare) == is_back,
        "whether memory came back",
    );
}

// SCI, which is bounded, hands back what it loses or refuses; what goes to no store comes back too.
fn sci_hands_back(rt: &impl Host, memory: &mut Memory) {
    for now in 1..5 {
        hands_back(rt, memory, &ROUTED, false);
        records(rt, memory, now, false);
    }
    hands_back(rt, memory, &ROUTED, true);
    hands_back(rt, memory, &UNROUTED, true);
    hands_back(rt, memory, &TELECOMMAND, true);
    records(rt, memory, 9, true);
    state_of(rt, memory, b"SCI").disable();
    hands_back(rt, memory, &ROUTED, true);
}

#[test]
fn packets_that_are_handed_back(rt: HostRuntime) {
    sci_hands_back(&rt, &mut memory_of(&rt, TWO_STORES));
}

// HK, circular and of two blocks, and SCI, bounded and of four, are routed APID 100. HK is full and its clock at its
// end: it gives nothing up for a packet, which SCI keeps. So the packet needs memory, and neither store needs any
// alone.
const BOTH: &str = "\
    [[store]]\nid = \"HK\"\nsize = 2\ntype = \"circular\"\nchannel = 0\n\n\
    [[store]]\nid = \"SCI\"\nsize = 4\ntype = \"bounded\"\nchannel = 0\n\n\
    [[route]]\napid = 100\nservice = 3\nsubtype = 25\nstore = \"HK\"\n\n\
    [[route]]\napid = 100\nservice = 3\nsubtype = 25\nstore = \"SCI\"\n";

fn state_of<'a>(rt: &impl Host, memory: &'a mut Memory, text: &[u8]) -> &'a mut StoreState {
    memory.state_mut(&id(rt, text)).expect(rt, "a store")
}

// The store keeps this packet, with this time at the earliest.
fn offers(rt: &impl Host, memory: &mut Memory, text: &[u8], now: u64, packet: BlockPacket) {
    let is_kept = state_of(rt, memory, text).offer(now, packet).is_ok();
    holds(rt, is_kept, "a packet is kept");
}

// The same of a packet of its own.
fn keeps(rt: &impl Host, memory: &mut Memory, text: &[u8], now: u64) {
    offers(rt, memory, text, now, block(rt, &ROUTED));
}

// The store would refuse a packet for this reason, or none.
fn refuses_for(rt: &impl Host, memory: &mut Memory, text: &[u8], want: Option<Fault>) {
    holds(
        rt,
        refuses(state_of(rt, memory, text)) == want,
        "what it refuses for",
    );
}

// The store refuses a packet, and hands its memory back, if it has lost one.
fn hands_back_if_it_lost(rt: &impl Host, state: &StoreState) {
    let has_lost = state.lost() == 1;
    let wanted = has_lost.then_some(Fault::ClockEnd);
    let is_so = refuses(state) == wanted && store_hands_back(state) == has_lost;
    holds(rt, is_so, "a store at the end of its clock");
}

fn hk_gives_nothing_up(rt: &impl Host, memory: &mut Memory) {
    keeps(rt, memory, b"HK", 1);
    keeps(rt, memory, b"HK", u64::MAX - 1);
    hands_back(rt, memory, &ROUTED, true);
    keeps(rt, memory, b"HK", 0);
    hands_back(rt, memory, &ROUTED, false);
    hands_back_if_it_lost(rt, state_of(rt, memory, b"HK"));
    hands_back_if_it_lost(rt, state_of(rt, memory, b"SCI"));
    keeps(rt, memory, b"SCI", u64::MAX);
    refuses_for(rt, memory, b"SCI", Some(Fault::ClockEnd));
    hands_back(rt, memory, &ROUTED, true);
    state_of(rt, memory, b"SCI").disable();
    refuses_for(rt, memory, b"SCI", Some(Fault::Disabled));
}

#[test]
fn a_store_at_the_end_of_its_clock_gives_nothing_up(rt: HostRuntime) {
    hk_gives_nothing_up(&rt, &mut memory_of(&rt, BOTH));
}

// Four circular stores of one block. APID 100 is routed to A and C alone.
const FOUR: &str = "\
    [[store]]\nid = \"A\"\nsize = 1\ntype = \"circular\"\nchannel = 0\n\n\
    [[store]]\nid = \"B\"\nsize = 1\ntype = \"circular\"\nchannel = 0\n\n\
    [[store]]\nid = \"C\"\nsize = 1\ntype = \"circular\"\nchannel = 0\n\n\
    [[store]]\nid = \"D\"\nsize = 1\ntype = \"circular\"\nchannel = 0\n\n\
    [[route]]\napid = 100\nservice = 3\nsubtype = 25\nstore = \"A\"\n\n\
    [[route]]\napid = 100\nservice = 3\nsubtype = 25\nstore = \"C\"\n";

// These two stores hold one packet in one memory, at this time.
fn share(rt: &impl Host, memory: &mut Memory, stores: [&[u8]; 2], now: u64) {
    let [first, second] = stores;
    let block = block(rt, &ROUTED);
    let copy = block.copy(rt.alloc()).expect(rt, "memory");
    offers(rt, memory, first, now, block);
    offers(rt, memory, second, now, copy);
}

// A and C give up equal packets. Where B and D hold these two packets too, no memory comes back; where the two packets
// are one, which A and C share, it does, though B and D hold an equal one.
fn equals_are_told_apart(rt: &impl Host, memory: &mut Memory) {
    share(rt, memory, [b"A", b"B"], 1);
    share(rt, memory, [b"C", b"D"], 1);
    hands_back(rt, memory, &ROUTED, false);
    records(rt, memory, 2, false);
    share(rt, memory, [b"A", b"C"], 3);
    share(rt, memory, [b"B", b"D"], 3);
    hands_back(rt, memory, &ROUTED, true);
    records(rt, memory, 4, true);
}

#[test]
fn equal_packets_are_not_one_memory(rt: HostRuntime) {
    equals_are_told_apart(&rt, &mut memory_of(&rt, FOUR));
}
