//! Passes that overlap, worked out on paper.
use crate::both;
use mm_base::{Kind, StoreId};
use mm_mission::{Fault, Mission, Pass, Rate, Span, Store};
use std::process::Abort;

trait Runtime: Abort + AllocGlobal {}

impl<R: Abort + AllocGlobal> Runtime for R {}

// A pass from one second to another, with a rate of 200 octets a second.
fn pass(begin: u64, end: u64) -> Pass {
    Pass {
        span: Span {
            begin: begin.saturating_mul(1_000_000),
            end: end.saturating_mul(1_000_000),
        },
        rate: Rate {
            octets: 200,
            micros: 1_000_000,
        },
        channels: [None; 8],
    }
}

// A mission of 100 seconds with one store, whose packets have 200 octets, and with these passes.
fn mission(rt: &impl Runtime, passes: &[Pass]) -> Mission {
    let stores = [Store {
        id: StoreId::of_text(b"SCI").expect(rt, "an identifier"),
        kind: Kind::Circular,
        packet: 200,
        unit: 1,
        micros: 1_000_000,
        size: 100,
        start: 50,
        channel: 0,
    }];
    let stores = Vec::from_slice(rt.alloc(), &stores).expect(rt, "memory");
    let passes = Vec::from_slice(rt.alloc(), passes).expect(rt, "memory");
    Mission::new(100_000_000, stores, passes, Vec::new(rt.alloc())).expect(rt, "a mission")
}

// The transmitter's mission is the one with these passes.
fn has(rt: &impl Runtime, own: &Mission, passes: &[Pass]) {
    let wanted = mission(rt, passes);
    let wanted = format!(in rt.alloc(); "{wanted:?}").expect(rt, "memory");
    let own = format!(in rt.alloc(); "{own:?}").expect(rt, "memory");
    assert!(rt; own.as_str() == wanted.as_str(), "{own}");
}

#[test]
fn a_pass_has_the_first_transmitter_that_is_free(rt: HostRuntime) {
    // the second begins before the first ends; as the third begins, the first transmitter is free since 20 s, and the
    // second one since then
    let passes = [pass(10, 20), pass(15, 30), pass(30, 40)];
    let whole = mission(&rt, &[]);
    let missions = both(rt.alloc(), &whole, &passes).expect(&rt, "transmitters");
    assert!(rt; missions.len() == 2);
    has(&rt, &missions[0], &[passes[0], passes[2]]);
    has(&rt, &missions[1], &[passes[1]]);
}

#[test]
fn there_is_a_transmitter_without_passes(rt: HostRuntime) {
    let whole = mission(&rt, &[pass(10, 20)]);
    let missions = both(rt.alloc(), &whole, &[]).expect(&rt, "transmitters");
    assert!(rt; missions.len() == 1);
    has(&rt, &missions[0], &[]);
}

#[test]
fn a_pass_that_is_out_of_range_is_refused(rt: HostRuntime) {
    let whole = mission(&rt, &[]);
    let late = [pass(10, 20), pass(90, 101)];
    let refused = both(rt.alloc(), &whole, &late).err();
    assert!(rt; refused == Some(Fault::BadPass { row: 1 }));
    let refused = both(rt.alloc(), &whole, &[late[0]; 257]).err();
    assert!(rt; refused == Some(Fault::TooMany));
}
