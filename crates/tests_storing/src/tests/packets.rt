//! Packets as they are read, written and refused.
ghost use Rattle.std.specs.Prelude.{◌≡◌, ◌<◌, ◌≤◌, ◌^◌, length};
ghost use Rattle.mm_packet.specs.declared.header.TheConstants.{IDLE_APID, SEQUENCE_COUNTS};

use crate::tests::samples::{
    CREATE_STORES, ENABLE, Host, holds, is_shown, packet_of, writes, written,
};
use mm_packet::{
    BlockPacket, Fault, Header, Octets, Packet, PacketType, TELECOMMAND_BODY, TELEMETRY_BODY,
    TooLong, TooSmall, octet_at, u16_at, u32_at, u64_at,
};

const ENABLE_HEADER: Header = row! { Header; apid 100, count 0, low 0, service 15, subtype 1 };

// Telemetry of APID 1,234, count 5,678, service 3, subtype 25, with three octets of data.
const REPORT: [u8; 24] =
    *b"\x0C\xD2\xD6\x2E\0\x11\x2A\x03\x19\x12\x34\x56\x78\x01\x02\x03\x04\x05\x06\x07\x08\xAA\xBB\xCC";

const REPORT_HEADER: Header = row! { Header; apid 1234, count 5678, low 10, service 3, subtype 25 };

const HIGHEST: Header = row! { Header; apid 2046, count 16383, low 15, service 255, subtype 255 };

// The headers of a packet, by its readers.
fn headers_of(packet: &Packet) -> (Header, PacketType) {
    let header = Header {
        apid: packet.apid(),
        count: packet.count(),
        low: packet.low(),
        service: packet.service(),
        subtype: packet.subtype(),
    };
    let kind = if packet.is_telecommand() {
        PacketType::Telecommand {
            source: packet.source(),
        }
    } else {
        PacketType::Telemetry {
            counter: packet.counter(),
            destination: packet.destination(),
            time: packet.time(),
        }
    };
    (header, kind)
}

// This number of octets.
fn octets_of(rt: &impl Host, len: usize) -> Octets
    ensures { length result ≡ len }
{
    let list = vec![in rt.alloc(); 7; len].expect(rt, "memory");
    Octets::new(list).expect(rt, "memory")
}

// The octets are read as one packet with these headers and this data, and that packet is written as the octets.
fn read_and_written(rt: &impl Host, octets: &[u8], headers: (Header, PacketType), body: &[u8]) {
    let (packet, rest) = Packet::parse(rt.alloc(), octets).expect(rt, "a packet");
    let is_read = headers_of(&packet) == headers && packet.body() == body;
    assert!(rt; is_read && rest.is_empty());
    writes(rt, &packet, octets);
}

#[test]
fn a_telecommand_is_read_and_written(rt: HostRuntime) {
    let headers = (ENABLE_HEADER, PacketType::Telecommand { source: 0 });
    read_and_written(&rt, &ENABLE, headers, &ENABLE[11..]);
}

#[test]
fn telemetry_is_read_and_written(rt: HostRuntime) {
    let kind = PacketType::Telemetry {
        counter: 0x1234,
        destination: 0x5678,
        time: 0x0102_0304_0506_0708,
    };
    read_and_written(&rt, &REPORT, (REPORT_HEADER, kind), &[0xAA, 0xBB, 0xCC]);
}

// The packet is written into a buffer of 32 octets of value 9, which holds these octets afterwards.
fn is_written_into(rt: &impl Host, packet: &Packet, len: usize, wanted: &[u8; 32]) {
    let mut long = [9; 32];
    assert!(rt; packet.write_to(&mut long) == Ok(len));
    assert!(rt; long == *wanted);
}

// The packet is not written into a buffer of 19 octets, which stays as it is.
fn is_not_written(rt: &impl Host, packet: &Packet, len: usize) {
    let mut short = [9; 19];
    assert!(rt; packet.write_to(&mut short) == Err(TooSmall { len }));
    assert!(rt; short == [9; 19]);
}

// The octets of packets, and the buffer of 32 octets after each was written, whose end is unchanged.
static WRITTEN: [(&[u8], [u8; 32]); 2] = wanted! {
    &ENABLE
    => *b"\x18\x64\xC0\0\0\x0D\x20\x0F\x01\0\0\x01SCI     \x09\x09\x09\x09\x09\x09\x09\x09\x09\x09\x09\x09";
    &REPORT
    => *b"\x0C\xD2\xD6\x2E\0\x11\x2A\x03\x19\x12\x34\x56\x78\x01\x02\x03\x04\x05\x06\x07\x08\xAA\xBB\xCC\x09\x09\x09\x09\x09\x09\x09\x09";
};

#[test]
fn packets_are_written_into_buffers_with_room(rt: HostRuntime) {
    for (octets, buffer) in &WRITTEN {
        let packet = packet_of(&rt, octets);
        is_written_into(&rt, &packet, octets.len(), buffer);
        is_not_written(&rt, &packet, octets.len());
    }
}

// A copy of these octets, as data.
fn data_of(rt: &impl Host, octets: &[u8]) -> Octets
    ensures { length result ≡ length octets.now }
{
    let list = octets.to_vec(rt.alloc()).expect(rt, "memory");
    Octets::new(list).expect(rt, "memory")
}

#[test]
fn a_made_telecommand_is_written(rt: HostRuntime) {
    let body = data_of(&rt, &ENABLE[11..]);
    let packet = Packet::tc(ENABLE_HEADER, 0, body);
    writes(&rt, &packet, &ENABLE);
}

#[test]
fn made_telemetry_is_written(rt: HostRuntime) {
    let body = data_of(&rt, &[0xAA, 0xBB, 0xCC]);
    let time = 0x0102_0304_0506_0708;
    let packet = Packet::tm(REPORT_HEADER, 0x1234, 0x5678, time, body);
    writes(&rt, &packet, &REPORT);
}

// The first packet of these octets has this service and this data, and this is the rest.
fn begins_with(rt: &impl Host, octets: &[u8], service: u8, body: &[u8], rest: &[u8]) {
    let (packet, after) = Packet::parse(rt.alloc(), octets).expect(rt, "a packet");
    let is_first = packet.service() == service && packet.body() == body;
    assert!(rt; is_first && after == rest);
}

#[test]
fn what_follows_a_packet_is_the_rest(rt: HostRuntime) {
    let octets = [ENABLE.as_slice(), REPORT.as_slice()].concat(rt.alloc());
    let octets = octets.expect(&rt, "memory");
    begins_with(&rt, &octets, 15, &ENABLE[11..], &REPORT);
    begins_with(&rt, &REPORT, 3, &[0xAA, 0xBB, 0xCC], &[]);
}

// The octets are refused with this fault.
fn refused(rt: &impl Host, octets: &[u8], fault: Fault) {
    let refusal = Packet::parse(rt.alloc(), octets).expect_err(rt, "no packet");
    holds(rt, refusal == fault, "the refusal");
}

// The octets of a packet of 11 octets that differ: the identification, the sequence flags, the data length and the PUS
// version.
static REFUSED: [([u8; 5], Fault); 9] = [
    ([0x1F, 0xFF, 0xC0, 4, 0x20], Fault::Idle),
    ([0x38, 0x64, 0xC0, 4, 0x20], Fault::Version),
    ([0x00, 0x64, 0xC0, 4, 0x20], Fault::NoSecondaryHeader),
    ([0x18, 0x64, 0x00, 4, 0x20], Fault::Segmented),
    ([0x18, 0x64, 0xC0, 4, 0x10], Fault::PusVersion),
    // The data field ends before its secondary header does, whatever follows it.
    ([0x18, 0x64, 0xC0, 3, 0x20], Fault::HeaderCut),
    ([0x08, 0x64, 0xC0, 4, 0x20], Fault::HeaderCut),
    // The version is tested before the APID, and the APID before the flags.
    ([0x37, 0xFF, 0x00, 4, 0x20], Fault::Version),
    ([0x07, 0xFF, 0x00, 4, 0x20], Fault::Idle),
];

// A packet of 11 octets with these.
fn octets_with([first, second, flags, length, version]: [u8; 5]) -> [u8; 11] {
    [first, second, flags, 0, 0, length, version, 0x0F, 1, 0, 0]
}

static REFUSED_CUT: [(&[u8], Fault); 2] = [
    (&[0x08, 0x64, 0xC0, 0], Fault::Short),
    (b"\x18\x64\xC0\0\0\x03\x20\x0F\x01\0", Fault::HeaderCut),
];

#[test]
fn packets_refused(rt: HostRuntime) {
    for (octets, fault) in &REFUSED {
        refused(&rt, &octets_with(*octets), *fault);
    }
    for (octets, fault) in &REFUSED_CUT {
        refused(&rt, octets, *fault);
    }
}

// A packet is read, and each of its proper prefixes is too short.
fn prefixes_are_short(rt: &impl Host, octets: &[u8]) {
    for len in 0..octets.len() {
        refused(rt, &octets[..len], Fault::Short);
    }
    assert!(rt; Packet::parse(rt.alloc(), octets).is_ok());
}

#[test]
fn each_proper_prefix_is_short(rt: HostRuntime) {
    prefixes_are_short(&rt, &ENABLE);
    prefixes_are_short(&rt, &CREATE_STORES);
}

const LOWEST: Header = row! { Header; apid 0, count 0, low 0, service 0, subtype 0 };

// Telemetry with this header and counter, and with that many octets of data.
fn telemetry(rt: &impl Host, header: Header, counter: u16, len: usize) -> Packet
    requires apid { header.apid < IDLE_APID }
    requires count { header.count < SEQUENCE_COUNTS }
    requires low { header.low < 2 ^ 4 }
    requires len { len ≤ TELEMETRY_BODY }
{
    Packet::tm(header, counter, 2, 3, octets_of(rt, len))
}

// A block with telemetry of that many octets of data.
fn block(rt: &impl Host, len: usize) -> BlockPacket
    requires { len ≤ TELEMETRY_BODY }
{
    let packet = telemetry(rt, HIGHEST, 1, len);
    BlockPacket::of(packet).expect(rt, "a short packet")
}

fn copy_of(rt: &impl Host, block: &BlockPacket) -> BlockPacket {
    block.copy(rt.alloc()).expect(rt, "memory")
}

// The packet is written as that many octets, which are those.
fn written_as(rt: &impl Host, packet: &Packet, len: usize) -> Vec<u8> {
    let octets = written(rt, packet);
    assert!(rt; octets.len() == len);
    octets
}

#[test]
fn a_packet_of_1024_octets_goes_into_a_block(rt: HostRuntime) {
    let block = block(&rt, 1003);
    let octets = written_as(&rt, block.packet(), 1024);
    let copy = copy_of(&rt, &block);
    writes(&rt, copy.packet(), &octets);
}

// The packet is refused as too long for a block, and is this one.
fn comes_back(rt: &impl Host, back: &TooLong, octets: &[u8]) {
    writes(rt, &back.packet, octets);
    is_shown(rt, back, "8 TooLong");
}

#[test]
fn a_packet_of_1025_octets_is_handed_back(rt: HostRuntime) {
    let packet = telemetry(&rt, HIGHEST, 1, 1004);
    let octets = written_as(&rt, &packet, 1025);
    let back = BlockPacket::of(packet).expect_err(&rt, "it is too long");
    comes_back(&rt, &back, &octets);
}

// Whether it is equal to telemetry with this header and counter, and with that many octets of data.
fn equals(rt: &impl Host, packet: &Packet, header: Header, counter: u16, len: usize) -> bool
    requires apid { header.apid < IDLE_APID }
    requires count { header.count < SEQUENCE_COUNTS }
    requires low { header.low < 2 ^ 4 }
    requires len { len ≤ TELEMETRY_BODY }
{
    packet.is(&telemetry(rt, header, counter, len))
}

// The packet is equal to another made alike, and to none that differs in one field.
#[test]
fn packets_are_equal_where_each_field_is(rt: HostRuntime) {
    let packet = telemetry(&rt, HIGHEST, 1, 4);
    let answers = [
        equals(&rt, &packet, HIGHEST, 1, 4),
        equals(&rt, &packet, LOWEST, 1, 4),
        equals(&rt, &packet, HIGHEST, 2, 4),
        equals(&rt, &packet, HIGHEST, 1, 5),
    ];
    assert!(rt; answers == [true, false, false, false]);
    assert!(rt; Header::new(100, 0, 15, 1) == ENABLE_HEADER);
}

// The block is equal to a copy of it, and not to another one.
fn is_only_its_copy(rt: &impl Host, block: &BlockPacket, other: &BlockPacket) {
    let answers = [block.is(&copy_of(rt, block)), block.is(other)];
    assert!(rt; answers == [true, false]);
}

#[test]
fn blocks_are_equal_where_their_packets_are(rt: HostRuntime) {
    let shorter = block(&rt, 4);
    let longer = block(&rt, 5);
    is_only_its_copy(&rt, &shorter, &longer);
}

#[test]
fn the_longest_telecommand_is_written_and_read(rt: HostRuntime) {
    let data = octets_of(&rt, TELECOMMAND_BODY);
    let octets = written_as(&rt, &Packet::tc(LOWEST, 65535, data), 65542);
    let packet = packet_of(&rt, &octets);
    assert!(rt; packet.body().len() == TELECOMMAND_BODY);
}

#[test]
fn the_longest_telemetry_is_written(rt: HostRuntime) {
    let data = octets_of(&rt, TELEMETRY_BODY);
    let _ = written_as(&rt, &Packet::tm(LOWEST, 0, 0, 0, data), 65542);
}

#[test]
fn octets_are_those_of_the_list(rt: HostRuntime) {
    let octets = data_of(&rt, &[1, 2, 3]);
    assert!(rt; octets.as_slice() == [1, 2, 3].as_slice());
}

const NINE: [u8; 9] = [1, 2, 3, 4, 5, 6, 7, 8, 9];

#[test]
fn octets_and_numbers_are_read_from_the_front(rt: HostRuntime) {
    assert!(rt; octet_at(&NINE) == Some((1, &NINE[1..])));
    assert!(rt; u16_at(&NINE) == Some((0x0102, &NINE[2..])));
    assert!(rt; u32_at(&NINE) == Some((0x0102_0304, &NINE[4..])));
    assert!(rt; u64_at(&NINE) == Some((0x0102_0304_0506_0708, &NINE[8..])));
}

#[test]
fn what_follows_a_number_is_the_rest(rt: HostRuntime) {
    assert!(rt; u64_at(&NINE[..8]) == Some((0x0102_0304_0506_0708, &NINE[..0])));
    assert!(rt; u64_at(&NINE[..7]).is_none());
}
