//! Several sources at once: gates that open once all sources stand at them, and sixteen stores.

use super::{all_recorded, counts_of, has_recorded, recorded};
use crate::tests::gates::{all_met, gated_sources};
use crate::tests::samples::memory_of;
use crate::tests::sources::scripts;
use mm_memory::Memory;
use mm_record::Recorded;
use std::alloc::Global;
use std::process::Abort;
use std::sync::Wait;
use std::thread::Threads;

// The table of a store.
fn store_text(rt: &impl Abort, alloc: Global, number: u16, size: u32, kind: &str) -> String {
    format!(in alloc;
        "[[store]]\nid = \"S{number}\"\nsize = {size}\ntype = \"{kind}\"\nchannel = 1\n\n"
    ).expect(rt, "memory")
}

// The table of a route from an APID to a store.
fn route_text(rt: &impl Abort, alloc: Global, apid: u16, store: u16) -> String {
    format!(in alloc;
        "[[route]]\napid = {apid}\nservice = 3\nsubtype = 25\nstore = \"S{store}\"\n\n"
    ).expect(rt, "memory")
}

fn add(rt: &impl Abort, text: &mut String, table: &str) {
    text.push_str(table).expect(rt, "memory");
}

// Bounded stores of one size, each with a route from an APID of its own, which is also its number.
fn stores_by_apid(rt: &impl Abort, alloc: Global, apids: &[u16], size: u32) -> String {
    let mut text = String::new(alloc);
    for apid in apids {
        let store = store_text(rt, alloc, *apid, size, "bounded");
        add(rt, &mut text, store.as_str());
    }
    for apid in apids {
        let route = route_text(rt, alloc, *apid, *apid);
        add(rt, &mut text, route.as_str());
    }
    text
}

// All gates are met, and each store has what came to it.
fn gates_meet_at<R: Threads + Wait + Sync + Abort>(
    rt: &R,
    alloc: Global,
    apids: &[u16],
    each: u32,
) {
    let setup = stores_by_apid(rt, alloc, apids, each);
    let mut memory = memory_of(rt, alloc, setup.as_str());
    let sources = gated_sources(rt, alloc, apids, each);
    let step = recorded(rt, alloc, &mut memory, sources);
    all_recorded(rt, &step.recorded, apids.len(), u64::from(each));
    let many = apids.len().saturating_mul(each as usize);
    all_met(rt, &step.sources, many);
}

#[test]
fn gates_meet(rt: HostRuntime) {
    let alloc = rt.alloc();
    gates_meet_at(&rt, alloc, &[1, 2], 1);
    gates_meet_at(&rt, alloc, &[1, 2, 3, 4], 2);
}

// Sixteen stores, to which all telemetry of APID 100 is routed: those with an even number are bounded, of five blocks,
// the others circular, of thirty.
fn sixteen_stores(rt: &impl Abort, alloc: Global) -> String {
    let mut text = String::new(alloc);
    for number in 0..16 {
        let store = if number % 2 == 0 {
            store_text(rt, alloc, number, 5, "bounded")
        } else {
            store_text(rt, alloc, number, 30, "circular")
        };
        add(rt, &mut text, store.as_str());
    }
    for number in 0..16 {
        let route = route_text(rt, alloc, 100, number);
        add(rt, &mut text, route.as_str());
    }
    text
}

// Of 24 packets that came to a store this many were lost, and it holds the others.
fn has_lost(rt: &impl Abort, memory: &Memory, row: &Recorded, lost: u64, held: u64) {
    has_recorded(rt, row, 24, lost);
    let counts = counts_of(rt, memory, &row.store);
    assert!(rt; counts == [24, lost, 0, held], "the counters of the store");
}

// Of the sixteen stores the bounded ones lost 19 of 24 packets, and the circular ones lost none.
fn each_has_lost(rt: &impl Abort, memory: &Memory, rows: &[Recorded]) {
    assert!(rt; rows.len() == 16, "sixteen stores");
    for (number, row) in rows.iter().enumerate() {
        let (lost, held) = if number % 2 == 0 { (19, 5) } else { (0, 24) };
        has_lost(rt, memory, row, lost, held);
    }
}

// Eight sources of three packets of APID 100.
#[test]
fn eight_sources_into_sixteen_stores(rt: HostRuntime) {
    let alloc = rt.alloc();
    let setup = sixteen_stores(&rt, alloc);
    let mut memory = memory_of(&rt, alloc, setup.as_str());
    let sources = scripts(&rt, alloc, 8, [3, 0, 0]);
    let step = recorded(&rt, alloc, &mut memory, sources);
    each_has_lost(&rt, &memory, &step.recorded);
}
