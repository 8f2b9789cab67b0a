//! Each function of the crate `callers` once, with what it must answer worked out by hand.

mod flights;
mod instruments;
mod rest;

use crate::tests::runs::trials::{ONE_STORE, THREE_STEPS, TWO_PASSES};
use crate::tests::samples::{holds, id, memory_of, packet};
use callers::checker::least_loss;
use callers::flow::{greatest_value, in_a_row};
use callers::memory::with_one_off;
use callers::packets::again;
use callers::requests::enable_again;
use callers::service::carried_out;
use callers::stores::third_of_two;
use mm_base::Kind;
use mm_memory::{Answer, Memory};
use mm_packet::{Header, Octets, Packet};
use mm_problem::Setup;
use mm_st15::{Request, Target};
use mm_store::Put;
use std::alloc::Global;
use std::process::Abort;

// Of two arcs in a row, the capacities and the greatest value.
static ARCS: [(u32, u32, u64); 3] = [(7, 4, 4), (2, 9, 2), (0, 5, 0)];

#[test]
fn the_narrower_arc_decides(rt: HostRuntime) {
    for (first, second, most) in &ARCS {
        let network = in_a_row(rt.alloc(), *first, *second).expect(&rt, "memory");
        let value = greatest_value(rt.alloc(), &network, 0, 2).expect(&rt, "a solution");
        holds(&rt, value == *most, "the greatest value");
    }
}

// Telemetry with this sequence count and two octets of data.
fn telemetry(rt: &impl Abort, alloc: Global, count: u16) -> Packet {
    let header = Header::new(100, count % 1000, 3, 25);
    let data = vec![in alloc; 7, 9].expect(rt, "memory");
    Packet::tm(header, 1, 2, 3, Octets::new(data).expect(rt, "memory"))
}

#[test]
fn a_packet_is_read_again(rt: HostRuntime) {
    let packet = telemetry(&rt, rt.alloc(), 5);
    let read = again(rt.alloc(), &packet).expect(&rt, "memory");
    let numbers = (read.apid(), read.count(), read.is_telecommand());
    assert!(&rt; numbers == (100, 5, false), "the numbers");
    assert!(&rt; read.body() == [7, 9].as_slice(), "the data");
}

// A store of this kind hands the packet of this sequence count back, of the packets 1, 2 and 3.
fn hands_back(rt: &impl Abort, alloc: Global, kind: Kind, count: u16) {
    let (first, second) = (packet(rt, alloc, 1), packet(rt, alloc, 2));
    let third = packet(rt, alloc, 3);
    match third_of_two(alloc, kind, first, second, third).expect(rt, "memory") {
        Put::KeptOver(_, packet) | Put::Lost(packet) => {
            assert!(rt; packet.packet().count() == count, "the packet");
        }
        _ => panic!(rt; "a packet is handed back"),
    }
}

#[test]
fn one_of_three_packets_is_handed_back(rt: HostRuntime) {
    hands_back(&rt, rt.alloc(), Kind::Bounded, 3);
    hands_back(&rt, rt.alloc(), Kind::Circular, 1);
}

#[test]
fn a_request_is_read_again(rt: HostRuntime) {
    let id = *b"SCI     ";
    let Request::EnableStorage(stores) = enable_again(rt.alloc(), id).expect(&rt, "memory") else {
        panic!(&rt; "another request");
    };
    assert!(rt; stores.as_slice() == [Target { id }].as_slice());
}

// Two blocks leave in each of the first two steps, and two are lost; or one fewer leaves in the second step, and three
// are lost.
static PLANS: [(&str, Option<u64>); 2] = [
    (TWO_PASSES, Some(2)),
    (
        "mmplan 1\nstores SCI\ndump 1 2\ndump 2 1\ndump 3 0\nloss 3\nstretch SCI 1 3\nbound 2\nend\n",
        None,
    ),
];

#[test]
fn only_the_least_plan_is_believed(rt: HostRuntime) {
    let (setup, forecast) = (ONE_STORE.as_bytes(), THREE_STEPS.as_bytes());
    for (plan, loss) in &PLANS {
        let found = least_loss(rt.alloc(), setup, forecast, plan.as_bytes());
        holds(&rt, found.expect(&rt, "texts") == *loss, plan);
    }
}

fn setup_of(rt: &impl Abort, alloc: Global, text: &str) -> Setup {
    Setup::read(alloc, text.as_bytes()).expect(rt, "a setup")
}

// The storage of SCI is off.
fn is_off(rt: &impl Abort, memory: &Memory) {
    let state = memory.state(&id(rt, "SCI")).expect(rt, "a store");
    assert!(rt; !state.storage(), "its storage");
}

#[test]
fn one_store_is_switched_off(rt: HostRuntime) {
    let setup = setup_of(&rt, rt.alloc(), ONE_STORE);
    let store = id(&rt, "SCI");
    let memory = with_one_off(rt.alloc(), &setup, &store).expect(&rt, "memory");
    is_off(&rt, &memory);
}

// Disable storage into SCI: subtype 2, one instruction.
static DISABLE: [u8; 20] = *b"\x18\x64\xC0\x00\x00\x0D\x20\x0F\x02\x00\x00\x01SCI     ";

#[test]
fn a_telecommand_is_carried_out(rt: HostRuntime) {
    let mut memory = memory_of(&rt, rt.alloc(), ONE_STORE);
    let (packet, _rest) = Packet::parse(rt.alloc(), &DISABLE).expect(&rt, "a packet");
    let answers = carried_out(rt.alloc(), &mut memory, 1, &packet).expect(&rt, "a request");
    assert!(rt; answers.each.as_slice() == [Answer::Done].as_slice());
    is_off(&rt, &memory);
}
