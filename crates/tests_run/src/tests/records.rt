//! Steps of recorders, with counts by hand.
use crate::tests::runs::trials::{Change, TOO_LATE, change_store};
use crate::tests::samples::{counts, id, memory_of, next_after};
use crate::tests::sources::{all_have_left, has_left, new_script, scripts, source_of};
use mm_base::StoreId;
use mm_desk::{Fault, Held};
use mm_exec::record_step;
use mm_memory::Memory;
use mm_packet::{BlockPacket, Header, Octets, Packet};
use mm_record::laws::held_stores_are_named;
use mm_record::{
    Cause, RecordHalted, Recorded, RecordedStep, RecordingStep, Source, cause_in, record,
};
use std::alloc::Global;
use std::collections::VecDeque;
use std::process::Abort;
use std::slice;
use std::sync::Wait;
use std::thread::Threads;
use work_parts::Bursts;

mod crowds;

// A circular store C and a bounded store B of two blocks, which both have all telemetry of APID 100, service 3, subtype
// 25.
const TWO_STORES: &str =
    "[[store]]\nid = \"C\"\nsize = 2\ntype = \"circular\"\nchannel = 3\n\n[[store]]\nid = \"B\"\nsize = 2\ntype = \"bounded\"\nchannel = 0\n\n[[route]]\napid = 100\nservice = 3\nsubtype = 25\nstore = \"C\"\n\n[[route]]\napid = 100\nservice = 3\nsubtype = 25\nstore = \"B\"\n";

// A telecommand of APID 100 with the service and subtype of that telemetry.
fn telecommand(rt: &impl Abort, alloc: Global) -> BlockPacket {
    let data = Octets::new(Vec::new(alloc)).expect(rt, "memory");
    let packet = Packet::tc(Header::new(100, 0, 3, 25), 0, data);
    BlockPacket::of(packet).expect(rt, "a short packet")
}

// A store holds these packets of APID 100 alone, by their times and sequence counts.
fn holds(rt: &impl Abort, memory: &Memory, store: &StoreId, packets: &[(u64, u16)]) {
    let state = memory.state(store).expect(rt, "a store");
    let mut after = 0;
    for (time, count) in packets {
        let found = next_after(state, after);
        assert!(rt; found == Some((*time, 100, *count)), "the packet");
        after = *time;
    }
    assert!(rt; next_after(state, after).is_none(), "no more packets");
}

// Step 1 of these sources, recorded from the moment 0 on.
fn recorded<S: Source + Send + Drop, R: Threads + Wait + Sync + Abort>(
    rt: &R,
    alloc: Global,
    memory: &mut Memory,
    sources: Vec<S>,
) -> RecordedStep<S> {
    match record_step(rt, alloc, memory, 1, 0, sources) {
        Ok(step) => step,
        Err(_) => panic!(rt; "the step is recorded"),
    }
}

// This many packets came to a store, and this many were lost.
fn has_recorded(rt: &impl Abort, row: &Recorded, came: u64, lost: u64) {
    assert!(rt; row.came == came, "how many came");
    assert!(rt; row.lost == lost, "how many were lost");
}

// There are this many rows; this many packets came to each store, and none was lost.
fn all_recorded(rt: &impl Abort, rows: &[Recorded], many: usize, came: u64) {
    assert!(rt; rows.len() == many, "as many rows");
    for row in rows {
        has_recorded(rt, row, came, 0);
    }
}

// The row is of this store, to which three packets came, of which one was lost.
fn lost_one_of_three(rt: &impl Abort, row: &Recorded, store: &StoreId) {
    assert!(rt; row.store == *store, "the store");
    has_recorded(rt, row, 3, 1);
}

// Both stores lost one of the three packets of one source.
fn both_lost_one(rt: &impl Abort, step: &RecordedStep<Bursts>, stores: &[StoreId; 2]) {
    assert!(rt; step.recorded.len() == 2, "two stores");
    for (row, store) in step.recorded.iter().zip(stores) {
        lost_one_of_three(rt, row, store);
    }
    all_have_left(rt, &step.sources, 1, [0, 0, 0]);
}

// Both stores stand where they stood, with two of the three packets.
fn both_hold_two(rt: &impl Abort, memory: &Memory, stores: &[StoreId; 2]) {
    let [circular, bounded] = *stores;
    holds(rt, memory, &circular, &[(2, 2), (3, 3)]);
    holds(rt, memory, &bounded, &[(1, 1), (2, 2)]);
    let found = [memory.entry(0), memory.entry(1)];
    assert!(rt;
        found == [Some((circular, 3)), Some((bounded, 0))],
        "identifiers and channels"
    );
}

#[test]
fn record_one_step(rt: HostRuntime) {
    let alloc = rt.alloc();
    let stores = [id(&rt, "C"), id(&rt, "B")];
    let mut memory = memory_of(&rt, alloc, TWO_STORES);
    let sources = scripts(&rt, alloc, 1, [3, 0, 0]);
    let step = recorded(&rt, alloc, &mut memory, sources);
    both_lost_one(&rt, &step, &stores);
    both_hold_two(&rt, &memory, &stores);
}

// How many packets were offered to a store, lost and deleted, and how many it holds.
fn counts_of(rt: &impl Abort, memory: &Memory, store: &StoreId) -> [u64; 4] {
    counts(memory.state(store).expect(rt, "a store"))
}

// These of each store of a memory.
fn counts_of_both(rt: &impl Abort, memory: &Memory) -> [[u64; 4]; 2] {
    let (circular, bounded) = (id(rt, "C"), id(rt, "B"));
    let first = counts_of(rt, memory, &circular);
    [first, counts_of(rt, memory, &bounded)]
}

// The sources come back whole from a step that is refused for this cause.
fn refuses(rt: &impl Abort, halted: &RecordHalted<Bursts>, many: u32, want: Cause) {
    assert!(rt; halted.cause == want, "the cause");
    all_have_left(rt, &halted.sources, many as usize, [3, 0, 0]);
}

// A step that is refused for this cause leaves the memory and its sources as they were.
fn refused<R: Threads + Wait + Sync + Abort>(
    rt: &R,
    alloc: Global,
    memory: &mut Memory,
    base: u64,
    many: u32,
    want: Cause,
) {
    let before = counts_of_both(rt, memory);
    let sources = scripts(rt, alloc, many, [3, 0, 0]);
    let Err(halted) = record_step(rt, alloc, memory, 1, base, sources) else {
        panic!(rt; "the step is refused");
    };
    refuses(rt, &halted, many, want);
    let after = counts_of_both(rt, memory);
    assert!(rt; after == before, "the stores are as they were");
}

// What is done to a store, which is not ready then; and the moment and the number of sources.
static NOT_READY: [(&str, Change, u64, u32); 2] = [
    ("B", Change::Off, TOO_LATE, 9),
    ("C", Change::Retrieve, 0, 1),
];

#[test]
fn steps_refused_before_they_begin(rt: HostRuntime) {
    let alloc = rt.alloc();
    let mut memory = memory_of(&rt, alloc, TWO_STORES);
    refused(&rt, alloc, &mut memory, 0, 0, Cause::Counts);
    refused(&rt, alloc, &mut memory, 0, 9, Cause::Counts);
    refused(&rt, alloc, &mut memory, TOO_LATE, 9, Cause::ClockTooLate);
    for (name, change, base, many) in &NOT_READY {
        change_store(&rt, alloc, &mut memory, name, slice::from_ref(change));
        let store = id(&rt, name);
        let cause = Cause::NotReady { store };
        refused(&rt, alloc, &mut memory, *base, *many, cause);
    }
}

#[test]
fn a_late_storage_time_refuses_a_step(rt: HostRuntime) {
    let alloc = rt.alloc();
    let mut memory = memory_of(&rt, alloc, TWO_STORES);
    let late = [Change::Offer(TOO_LATE, 1)];
    change_store(&rt, alloc, &mut memory, "C", &late);
    refused(&rt, alloc, &mut memory, 0, 1, Cause::ClockTooLate);
}

// A source of one telecommand in step 1.
fn one_command(rt: &impl Abort, alloc: Global) -> Bursts {
    let mut commands = VecDeque::new(alloc);
    let command = telecommand(rt, alloc);
    commands.push_back(command).expect(rt, "memory");
    source_of(rt, alloc, commands)
}

// Three sources: packets of another step, packets of another APID, and a telecommand.
fn sources_of_others(rt: &impl Abort, alloc: Global) -> Vec<Bursts> {
    let later = new_script(rt, alloc, 100, [0, 3, 0]);
    let other = new_script(rt, alloc, 101, [3, 0, 0]);
    let command = one_command(rt, alloc);
    let mut sources = Vec::new(alloc);
    for source in [later, other, command] {
        sources.push(source).expect(rt, "memory");
    }
    sources
}

// The first of three sources has the packets of step 2 left, and the others have none.
fn only_later_are_left(rt: &impl Abort, sources: &[Bursts]) {
    let [later, others @ ..] = sources else {
        panic!(rt; "sources");
    };
    has_left(rt, later, [0, 3, 0]);
    all_have_left(rt, others, 2, [0, 0, 0]);
}

#[test]
fn packets_of_other_steps_types_and_kinds_are_not_stored(rt: HostRuntime) {
    let alloc = rt.alloc();
    let mut memory = memory_of(&rt, alloc, TWO_STORES);
    let sources = sources_of_others(&rt, alloc);
    let step = recorded(&rt, alloc, &mut memory, sources);
    all_recorded(&rt, &step.recorded, 2, 0);
    only_later_are_left(&rt, &step.sources);
}

// Stores and sources are lent to recorders; this is why some stopped early.
fn lend_and_record<R: Threads + Wait + Sync + Abort>(
    rt: &R,
    alloc: Global,
    memory: &mut Memory,
    sources: &mut [Bursts],
) -> Option<Fault> {
    let mut stores = memory.lift();
    held_stores_are_named();
    assert!(rt; sources.len() <= 16, "few sources");
    let step = RecordingStep {
        control: memory.control(),
        step: 1,
        now: 0,
    };
    let Ok(why) = record(rt, alloc, &step, &mut stores, sources) else {
        panic!(rt; "memory");
    };
    second_was_offered_three(rt, &stores);
    why
}

// B comes first in the table, so each recorder offered it one packet and then stopped at C.
fn second_was_offered_three(rt: &impl Abort, stores: &[Held]) {
    let [circular, bounded] = stores else {
        panic!(rt; "two stores");
    };
    was_offered(rt, circular, 0, 0);
    was_offered(rt, bounded, 3, 1);
}

// A store was offered this many packets, and lost this many.
fn was_offered(rt: &impl Abort, store: &Held, offered: u64, lost: u64) {
    assert!(rt; store.state.offered() == offered, "how many came");
    assert!(rt; store.state.lost() == lost, "how many were lost");
}

// The store C has its storage off, so recorders stop there; this halts a run.
#[test]
fn a_store_that_is_off_breaks_recorders_off(rt: HostRuntime) {
    let alloc = rt.alloc();
    let mut memory = memory_of(&rt, alloc, TWO_STORES);
    change_store(&rt, alloc, &mut memory, "C", &[Change::Off]);
    let mut sources = scripts(&rt, alloc, 3, [3, 0, 0]);
    let why = lend_and_record(&rt, alloc, &mut memory, &mut sources);
    let found = (why, cause_in(1, why));
    let want = (Some(Fault::Disabled), Some(Cause::LogMismatch { step: 1 }));
    assert!(rt; found == want, "why they stopped early");
    all_have_left(&rt, &sources, 3, [2, 0, 0]);
}

fn shows(rt: &impl Abort, alloc: Global, cause: Cause, text: &str) {
    let shown = cause.to_string(alloc).expect(rt, "memory");
    assert!(rt; shown.as_str() == text);
}

// A cause is shown with its number and its name, without its store or step.
#[test]
fn causes_are_told_by_number_and_name(rt: HostRuntime) {
    let alloc = rt.alloc();
    let store = id(&rt, "C");
    shows(&rt, alloc, Cause::NotReady { store }, "39 NotReady");
    shows(&rt, alloc, Cause::LogMismatch { step: 1 }, "47 LogMismatch");
}
