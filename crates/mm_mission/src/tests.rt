//! A mission whose numbers are reckoned on paper, and missions that are refused.
use crate::{
    Dump, Fault, Mission, Observation, PacketStep, Pass, Rate, Span, Store, edges, in_packets,
    problem, timeline,
};
use mm_base::{Kind, StoreId, StoreRow};
use mm_problem::{Arrivals, Name, Problem};
use std::process::Abort;

trait Runtime: Abort + AllocGlobal {}

impl<R: Abort + AllocGlobal> Runtime for R {}

// From one second to another.
fn seconds(begin: u64, end: u64) -> Span {
    Span {
        begin: begin.saturating_mul(1_000_000),
        end: end.saturating_mul(1_000_000),
    }
}

// So many octets a second.
fn rate(octets: u64) -> Rate {
    Rate {
        octets,
        micros: 1_000_000,
    }
}

// A store with packets of so many octets, so many of which are a unit; its size, its start and its channel. So many
// octets come into it in so many seconds.
fn store(
    rt: &impl Runtime,
    id: &str,
    kind: Kind,
    packets: (u64, u64, u64),
    numbers: (u64, u64, u8),
) -> Store {
    Store {
        id: StoreId::of_text(id.as_bytes()).expect(rt, "an identifier"),
        kind,
        packet: packets.0,
        unit: packets.1,
        micros: packets.2.saturating_mul(1_000_000),
        size: numbers.0,
        start: numbers.1,
        channel: numbers.2,
    }
}

fn pass(span: Span, octets: u64) -> Pass {
    Pass {
        span,
        rate: rate(octets),
        channels: [None; 8],
    }
}

fn observation(store: usize, span: Span, octets: u64) -> Observation {
    Observation {
        store,
        span,
        octets,
    }
}

// The mission of these parts: 100 seconds, a store with units of two packets of 100 octets, into which octets come in
// three seconds, and one with units of two packets of 64 octets, into which they come in one second.
fn mission(
    rt: &impl Runtime,
    passes: &[Pass],
    observations: &[Observation],
) -> Result<Mission, Fault> {
    let stores = [
        store(rt, "SCI", Kind::Circular, (100, 2, 3), (21, 13, 0)),
        store(rt, "HK", Kind::Bounded, (64, 2, 1), (11, 7, 1)),
    ];
    Mission::new(
        100_000_000,
        Vec::from_slice(rt.alloc(), &stores).expect(rt, "memory"),
        Vec::from_slice(rt.alloc(), passes).expect(rt, "memory"),
        Vec::from_slice(rt.alloc(), observations).expect(rt, "memory"),
    )
}

// A pass of 10 s with 1,000 octets/s, of which channel 1 has at most 150; and one of 7 s with 300 octets/s, of which
// channel 0 has at most 210. There channel 1 has at most 299, but no more units than the link.
fn two_passes() -> [Pass; 2] {
    let mut first = pass(seconds(10, 20), 1000);
    first.channels[1] = Some(rate(150));
    let mut second = pass(seconds(50, 57), 300);
    second.channels[0] = Some(rate(210));
    second.channels[1] = Some(rate(299));
    [first, second]
}

// SCI gets 100 octets/s for 15 s, and 50 in three seconds for 42 s; HK gets 30 octets/s for 13 s.
fn three_observations() -> [Observation; 3] {
    [
        observation(0, seconds(15, 30), 300),
        observation(0, seconds(18, 60), 50),
        observation(1, seconds(40, 53), 30),
    ]
}

fn row(rt: &impl Runtime, id: &str, kind: Kind, numbers: (u32, u32, u8)) -> StoreRow {
    StoreRow {
        id: StoreId::of_text(id.as_bytes()).expect(rt, "an identifier"),
        kind,
        size: numbers.0,
        start: numbers.1,
        channel: numbers.2,
    }
}

#[test]
fn a_mission_is_planned_in_whole_units(rt: HostRuntime) {
    let mission = mission(&rt, &two_passes(), &three_observations()).expect(&rt, "a mission");
    let times = edges(rt.alloc(), &mission).expect(&rt, "edges");
    // 30 s, 40 s and 60 s lie in no pass
    let wanted = [0, 10, 15, 18, 20, 50, 53, 57, 100];
    assert!(rt; times.len() == wanted.len());
    for (time, second) in times.iter().zip(&wanted) {
        assert!(rt; *time == seconds(0, *second).end, "{second}");
    }
    // 21 packets are 10.5 units, and 13 are 6.5; 11 packets are 5.5 units, and 7 are 3.5
    let rows = [
        row(&rt, "SCI", Kind::Circular, (10, 7, 0)),
        row(&rt, "HK", Kind::Bounded, (5, 4, 1)),
    ];
    // in units of 200 octets: 5,000 octets are 25, 8,000 are 40, 10,000 are 50; 900 are 4.5, 2,100 are 10.5
    let windows = [0, 25, 15, 10, 0, 4, 6, 0];
    // SCI: 300 octets are 1.5 units, 533.3 are 2.7, 2,033.3 are 10.2, 2,083.3 are 10.4, 2,150 are 10.8 and 2,200 are 11
    // HK: 300 octets are 2.3 units of 128 octets, 390 are 3.05
    let arrivals = [0, 0, 0, 0, 2, 0, 1, 0, 8, 3, 0, 1, 0, 0, 0, 0];
    // channel 0: as the link, then 630 octets are 3.15 units of 200 octets, 1,470 are 7.35
    // channel 1: 750 octets are 5.9 units of 128 octets, 1,200 are 9.4, 1,500 are 11.7; then as the link, since 897 are
    // 7.0
    let limits = [0, 0, 25, 5, 15, 4, 10, 2, 0, 0, 3, 4, 4, 6, 0, 0];
    let wanted = Problem::new(rt.alloc(), &rows, &[], &windows, &arrivals).expect(&rt, "a problem");
    let during = wanted
        .with_arrivals(rt.alloc(), Arrivals::During)
        .expect(&rt, "memory");
    let limited = during
        .with_step_limits(rt.alloc(), &[0, 1], &limits)
        .expect(&rt, "a problem");
    let given = problem(rt.alloc(), &mission, &times).expect(&rt, "a problem");
    let given = format!(in rt.alloc(); "{given:?}").expect(&rt, "memory");
    let wanted = format!(in rt.alloc(); "{limited:?}").expect(&rt, "memory");
    assert!(rt; given.as_str() == wanted.as_str(), "{given}");
}

fn step(arrived: u128, lost: u128, dumped: u64, held: u64) -> PacketStep {
    PacketStep {
        arrived,
        lost,
        dumped,
        held,
    }
}

// Units of SCI and of HK, step by step: SCI 5 in 5 s, 3 in 3 s and 2 in 2 s; 3 in 3 s, and 4 in 4 s. HK 1 in 3 s, and 2
// in 4 s.
fn amounts() -> [u32; 16] {
    [0, 0, 5, 0, 3, 0, 2, 0, 0, 0, 3, 1, 4, 2, 0, 0]
}

#[test]
fn what_has_come_of_a_unit_is_sent(rt: HostRuntime) {
    let mission = mission(&rt, &two_passes(), &three_observations()).expect(&rt, "a mission");
    let times = edges(rt.alloc(), &mission).expect(&rt, "edges");
    assert!(rt; times.len() == 9);
    assert!(rt; mission.stores() == 2);
    // SCI: of 2 units until 20 s only 3 packets have come
    // HK: 7 packets and 5 are 12, and there is room for 11
    let wanted = [
        step(0, 0, 0, 13),
        step(0, 0, 10, 3),
        step(3, 0, 6, 0),
        step(3, 0, 3, 0),
        step(15, 0, 0, 15),
        step(0, 0, 6, 9),
        step(1, 0, 8, 2),
        step(0, 0, 0, 2),
        step(0, 0, 0, 7),
        step(0, 0, 0, 7),
        step(0, 0, 0, 7),
        step(0, 0, 0, 7),
        step(5, 1, 0, 11),
        step(2, 0, 2, 11),
        step(0, 0, 4, 7),
        step(0, 0, 0, 7),
    ];
    let steps = in_packets(rt.alloc(), &mission, &times, &amounts()).expect(&rt, "memory");
    assert!(rt; steps.as_slice() == wanted.as_slice());
}

// So many packets of a store, from one second to another.
fn dump(store: usize, begin: u64, end: u64, packets: u64) -> Dump {
    Dump {
        store,
        span: seconds(begin, end),
        packets,
    }
}

#[test]
fn dumps_at_one_rate_are_joined(rt: HostRuntime) {
    let mission = mission(&rt, &two_passes(), &three_observations()).expect(&rt, "a mission");
    let times = edges(rt.alloc(), &mission).expect(&rt, "edges");
    assert!(rt; times.len() == 9);
    assert!(rt; mission.stores() == 2);
    // SCI: 10 packets in 5 s and 6 in 3 s, and 3 in 2 s; 6 in 3 s and 8 in 4 s. HK: 2 in 3 s, and 4 in 4 s
    let wanted = [
        dump(0, 10, 18, 16),
        dump(0, 18, 20, 3),
        dump(0, 50, 57, 14),
        dump(1, 50, 53, 2),
        dump(1, 53, 57, 4),
    ];
    let steps = in_packets(rt.alloc(), &mission, &times, &amounts()).expect(&rt, "memory");
    let dumps = timeline(rt.alloc(), &mission, &times, &steps).expect(&rt, "memory");
    assert!(rt; dumps.as_slice() == wanted.as_slice());
}

// The mission of passes and an observation is refused so.
fn is_refused(rt: &impl Runtime, passes: &[Pass], one: Observation, fault: Fault) {
    let refused = mission(rt, passes, &[one]).err();
    assert!(rt; refused == Some(fault), "{fault}");
}

#[test]
fn the_first_fault_is_told(rt: HostRuntime) {
    let passes = two_passes();
    let one = observation(0, seconds(15, 30), 100);
    let unknown = observation(2, seconds(15, 30), 100);
    let late = observation(2, seconds(15, 101), 100);
    let empty = [passes[0], pass(seconds(50, 50), 300)];
    let overlapping = [pass(seconds(50, 57), 300), passes[0]];
    is_refused(&rt, &passes, unknown, Fault::NoStore { row: 0 });
    is_refused(&rt, &passes, late, Fault::BadObservation { row: 0 });
    is_refused(&rt, &overlapping, late, Fault::Overlap { row: 1 });
    is_refused(&rt, &empty, late, Fault::BadPass { row: 1 });
    is_refused(&rt, &[passes[0]; 257], one, Fault::TooMany);
}

#[test]
fn a_store_has_room_for_a_unit(rt: HostRuntime) {
    // two packets are a unit, one is none; a length, a unit or a time of 0 is refused
    let cases = [
        ((100, 2, 1), 2, true),
        ((100, 2, 1), 1, false),
        ((0, 2, 1), 2, false),
        ((100, 0, 1), 2, false),
        ((100, 2, 0), 2, false),
    ];
    for (packets, size, fits) in cases {
        let stores = [store(&rt, "SCI", Kind::Circular, packets, (size, 0, 0))];
        let mission = Mission::new(
            1,
            Vec::from_slice(rt.alloc(), &stores).expect(&rt, "memory"),
            Vec::new(rt.alloc()),
            Vec::new(rt.alloc()),
        );
        let wanted = if fits {
            None
        } else {
            Some(Fault::BadStore { row: 0 })
        };
        assert!(rt; mission.err() == wanted, "{size}");
    }
}

#[test]
fn what_cannot_be_planned_is_refused(rt: HostRuntime) {
    // 10 s with 20,000,200 octets/s are 1,000,010 units
    let wide = mission(&rt, &[pass(seconds(10, 20), 20_000_200)], &[]).expect(&rt, "a mission");
    let times = edges(rt.alloc(), &wide).expect(&rt, "edges");
    let fault = mm_problem::Fault::Limit { name: Name::Window };
    let refused = problem(rt.alloc(), &wide, &times).err();
    assert!(rt; refused == Some(Fault::Problem { fault }));
    // 129 passes begin and end at 258 times
    let mut passes = Vec::new(rt.alloc());
    for second in 0..129 {
        let span = Span {
            begin: second * 10 + 1,
            end: second * 10 + 2,
        };
        passes.push(pass(span, 1)).expect(&rt, "memory");
    }
    let many = mission(&rt, &passes, &[]).expect(&rt, "a mission");
    let refused = edges(rt.alloc(), &many).err();
    assert!(rt; refused == Some(Fault::TooManySteps));
}
