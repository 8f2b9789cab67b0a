//! Requests of the storage service as they are read, written and refused.
ghost use Rattle.mm_st15.specs.Request.{HasCount, kind_of, count_of};

use crate::tests::samples::{
    CONFIGURATIONS, CREATE_STORES, ENABLE, HK, Host, SCI, STORES, holds, is_shown, packet_of,
    writes,
};
use mm_packet::Packet;
use mm_st15::{
    Channel, Entries, Fault, ReportType, Request, RequestKind, Size, Target, TimeLimit, TimeRange,
};

// The request is written as these octets under APID 100.
fn is_written(rt: &impl Host, request: &Request, octets: &[u8])
    requires { HasCount (kind_of request.now) (count_of request.now) }
{
    let packet = request.write(rt.alloc(), 100, 0, 0, 0).expect(rt, "memory");
    writes(rt, &packet, octets);
}

// Requests of APID 100, count 0, source 0 by their names and subtypes, spelled by hand.
static REQUESTS: [(&str, u8, &[u8]); 17] = wanted! {
    "enable storage", 1 => &ENABLE;
    "disable storage", 2 => b"\x18\x64\xC0\0\0\x15\x20\x0F\x02\0\0\x02SCI     HK      ";
    "add report types", 3 => b"\x18\x64\xC0\0\0\x11\x20\x0F\x03\0\0\x01SCI     \0\x64\x03\x19";
    "delete report types", 4 => b"\x18\x64\xC0\0\0\x11\x20\x0F\x04\0\0\x01HK      \x07\xFE\xFF\0";
    "report the storage control", 5 => b"\x18\x64\xC0\0\0\x0D\x20\x0F\x05\0\0\x01SCI     ";
    "start retrieval", 9 => b"\x18\x64\xC0\0\0\x1D\x20\x0F\x09\0\0\x01SCI     \0\0\0\0\0\0\0\x01\0\0\0\0\0\0\0\xFF";
    "delete content", 11 => b"\x18\x64\xC0\0\0\x15\x20\x0F\x0B\0\0\x01SCI     \0\0\0\0\0\0\0\xFF";
    "summarise content", 12 => b"\x18\x64\xC0\0\0\x15\x20\x0F\x0C\0\0\x02SCI     HK      ";
    "abort retrieval", 17 => b"\x18\x64\xC0\0\0\x0D\x20\x0F\x11\0\0\x01SCI     ";
    "report the status", 18 => b"\x18\x64\xC0\0\0\x04\x20\x0F\x12\0\0";
    "create stores", 20 => &CREATE_STORES;
    "delete stores", 21 => b"\x18\x64\xC0\0\0\x0D\x20\x0F\x15\0\0\x01HK      ";
    "report the configuration", 22 => b"\x18\x64\xC0\0\0\x04\x20\x0F\x16\0\0";
    "resize stores", 25 => b"\x18\x64\xC0\0\0\x11\x20\x0F\x19\0\0\x01SCI     \0\x0F\x42\x40";
    "change to circular", 26 => b"\x18\x64\xC0\0\0\x0D\x20\x0F\x1A\0\0\x01SCI     ";
    "change to bounded", 27 => b"\x18\x64\xC0\0\0\x0D\x20\x0F\x1B\0\0\x01SCI     ";
    "change the channel", 28 => b"\x18\x64\xC0\0\0\x0E\x20\x0F\x1C\0\0\x01SCI     \x05";
};

const REPORT_TYPE: ReportType = row! { ReportType; id HK, apid 2046, service 255, subtype 0 };

const TARGETS: [Target; 2] = [Target { id: SCI }, Target { id: HK }];

const TIMES: TimeRange = row! { TimeRange; id SCI, from 1, to 255 };

const LIMIT: TimeLimit = row! { TimeLimit; id SCI, limit 255 };

const SIZE: Size = row! { Size; id SCI, size 1_000_000 };

const CHANNEL: Channel = row! { Channel; id SCI, channel 5 };

// Whether the request of a kind has the instructions above. Those of other kinds are compared as octets.
fn has_its_fields(request: &Request) -> bool {
    match request {
        Request::DisableStorage(list) => list.as_slice() == TARGETS.as_slice(),
        Request::DeleteReportTypes(list) => list.as_slice() == [REPORT_TYPE].as_slice(),
        Request::StartRetrieval(list) => list.as_slice() == [TIMES].as_slice(),
        Request::DeleteContent(list) => list.as_slice() == [LIMIT].as_slice(),
        Request::CreateStores(list) => list.as_slice() == STORES.as_slice(),
        Request::ResizeStores(list) => list.as_slice() == [SIZE].as_slice(),
        Request::ChangeChannel(list) => list.as_slice() == [CHANNEL].as_slice(),
        _ => true,
    }
}

// The octets spell a request of this subtype with its instructions, which is written as them again.
fn is_read_and_written(rt: &impl Host, name: &str, octets: &[u8], subtype: u8) {
    let packet = packet_of(rt, octets);
    let request = Request::read(rt.alloc(), &packet).expect(rt, name);
    let is_of_subtype = packet.subtype() == subtype && request.subtype() == subtype;
    holds(rt, is_of_subtype && has_its_fields(&request), name);
    is_written(rt, &request, octets);
}

#[test]
fn every_request_is_read_and_written(rt: HostRuntime) {
    for (name, subtype, octets) in &REQUESTS {
        is_read_and_written(&rt, name, octets, *subtype);
    }
}

#[test]
fn entries_give_their_list_back(rt: HostRuntime) {
    let list = STORES.to_vec(rt.alloc()).expect(&rt, "memory");
    let list = Entries::new(list).into_vec();
    assert!(rt; list.as_slice() == STORES.as_slice());
}

// The packet that spells a request of this kind under APID 100.
fn packet_with(rt: &impl Host, request: Request, kind: RequestKind) -> Packet
    requires { HasCount (kind_of request) (count_of request) }
{
    assert!(rt; request.kind() == kind);
    request.write(rt.alloc(), 100, 0, 0, 0).expect(rt, "memory")
}

#[test]
fn a_made_request_is_written(rt: HostRuntime) {
    let list = STORES.to_vec(rt.alloc()).expect(&rt, "memory");
    let request = Request::CreateStores(Entries::new(list));
    let packet = packet_with(&rt, request, RequestKind::CreateStores);
    writes(&rt, &packet, &CREATE_STORES);
}

const ALL_TIMES: TimeRange = row! { TimeRange; id SCI, from 0, to u64::MAX };

// A request of 255 instructions, written.
fn most_instructions(rt: &impl Host) -> Packet {
    let list = vec![in rt.alloc(); ALL_TIMES; 255].expect(rt, "memory");
    let request = Request::StartRetrieval(Entries::new(list));
    packet_with(rt, request, RequestKind::StartRetrieval)
}

// The packet has the octets of a count of 255 and of that many instructions, which are those of the request that it
// spells.
fn has_most_instructions(rt: &impl Host, packet: &Packet) {
    assert!(rt; packet.body().len() == 6121);
    assert!(rt; packet.body()[0] == 255);
    let Ok(Request::StartRetrieval(list)) = Request::read(rt.alloc(), packet) else {
        panic!(rt; "another request");
    };
    assert!(rt; list.as_slice().len() == 255);
    assert!(rt; list.as_slice()[254] == ALL_TIMES);
}

#[test]
fn the_most_instructions_are_written_and_read(rt: HostRuntime) {
    has_most_instructions(&rt, &most_instructions(&rt));
}

// Octets that are no request, by the fault with which they are refused.
static REFUSED_REQUESTS: [(&[u8], Fault); 10] = refused! {
    NotSt15:
        b"\x18\x64\xC0\0\0\x04\x20\x11\x01\0\0",
        &CONFIGURATIONS;
    UnknownSubtype: b"\x18\x64\xC0\0\0\x04\x20\x0F\x0E\0\0";
    CountMismatch:
        b"\x18\x64\xC0\0\0\x04\x20\x0F\x01\0\0", b"\x18\x64\xC0\0\0\x05\x20\x0F\x12\0\0\0",
        b"\x18\x64\xC0\0\0\x05\x20\x0F\x01\0\0\0", b"\x18\x64\xC0\0\0\x0C\x20\x0F\x01\0\0\x01SCI    ",
        b"\x18\x64\xC0\0\0\x0D\x20\x0F\x01\0\0\x02SCI     ", b"\x18\x64\xC0\0\0\x0E\x20\x0F\x01\0\0\x01SCI     \x20",
        b"\x18\x64\xC0\0\0\x15\x20\x0F\x01\0\0\x01SCI     HK      ";
};

#[test]
fn request_lines_refused(rt: HostRuntime) {
    for (octets, fault) in &REFUSED_REQUESTS {
        refuses!(&rt, octets, Request, *fault);
    }
}

#[test]
fn a_refusal_is_shown_by_number_and_name(rt: HostRuntime) {
    is_shown(&rt, &Fault::NotSt15, "12 NotSt15");
}
