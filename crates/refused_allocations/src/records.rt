//! A step of recorders: two sources of three packets each, which go to a circular store of two blocks and to a bounded
//! one of four.

use crate::met::Met;
use crate::runs::memory_of_text;
use mm_desk::Held;
use mm_exec::record_step;
use mm_memory::Memory;
use mm_record::{Cause, RecordHalted, Recorded, RecordedStep, Source};
use mm_run::{ScriptedSource, SourceFile};
use mm_store::PacketStore;
use std::alloc::Global;
use std::sync::Wait;
use std::thread::Threads;

const SETUP: &[u8] = b"[[store]]\nid = \"C\"\nsize = 2\ntype = \"circular\"\nchannel = 3\n\n\
    [[store]]\nid = \"B\"\nsize = 4\ntype = \"bounded\"\nchannel = 0\n\n\
    [[route]]\napid = 100\nservice = 3\nsubtype = 25\nstore = \"B\"\n\n\
    [[route]]\napid = 100\nservice = 3\nsubtype = 25\nstore = \"C\"\n";

/// Packets 1 to 6 in step 1, of two sources.
pub(crate) const PACKETS: &str =
    packets!(1 1 "01", 2 1 "02", 1 1 "03", 2 1 "04", 1 1 "05", 2 1 "06");

// How many packets were offered to a store and lost, and how many it holds.
type Counts = (u64, u64, u32);

// Before the step, and after it.
const BEFORE: [Counts; 2] = [(0, 0, 0), (0, 0, 0)];

const AFTER: [Counts; 2] = [(6, 4, 2), (6, 2, 4)];

// How many packets are told to have come to each store, and how many were lost.
const TOLD: [(u64, u64); 2] = [(6, 4), (6, 2)];

fn counts(held: &Held) -> Counts {
    let state = &held.state;
    (state.offered(), state.lost(), state.store().len())
}

// Whether a store is ready for a step.
fn is_ready(held: &Held) -> bool {
    held.state.storage() && held.state.retrieval().is_none()
}

// Whether both stores have these counts, and are ready for a step.
fn have(memory: &Memory, wanted: &[Counts; 2]) -> bool {
    match memory.stores() {
        [first, second] => [counts(first), counts(second)] == *wanted
            && is_ready(first)
            && is_ready(second),
        _ => false,
    }
}

// Whether both sources still give this many packets.
fn have_left(sources: &[ScriptedSource], left: u32) -> bool {
    match sources {
        [first, second] => [first.left(1), second.left(1)] == [left, left],
        _ => false,
    }
}

// Whether what came to each store is told, and how many were lost.
fn is_told(rows: &[Recorded]) -> bool {
    match rows {
        [first, second] => [(first.came, first.lost), (second.came, second.lost)] == TOLD,
        _ => false,
    }
}

// What a step left that was recorded.
fn recorded(memory: &Memory, step: &RecordedStep<ScriptedSource>) -> Met {
    Met::Whole
        .provided(have(memory, &AFTER), "other counts")
        .provided(have_left(&step.sources, 0), "a packet left in a source")
        .provided(is_told(&step.recorded), "another number told")
}

// What a step left that was not recorded: all is as before.
fn unrecorded(memory: &Memory, halted: &RecordHalted<ScriptedSource>) -> Met {
    let lacks = halted.cause == Cause::NoMemory { step: 1 };
    Met::Wanted
        .provided(lacks, "another cause")
        .provided(have(memory, &BEFORE), "recorded without memory")
        .provided(have_left(&halted.sources, 3), "taken without memory")
}

// What came of a step that found no memory: it is recorded once more.
fn recorded_again<R: Threads + Wait + Sync>(
    rt: &R,
    alloc: Global,
    memory: &mut Memory,
    halted: RecordHalted<ScriptedSource>,
) -> Met {
    let met = unrecorded(memory, &halted);
    match record_step(rt, alloc, memory, 1, 0, halted.sources) {
        Ok(step) => met.and(recorded(memory, &step)),
        Err(_) => Met::Wrong("no memory to record, twice"),
    }
}

/// What came of a step of recorders; nothing where there was no memory to begin.
pub(crate) fn record<R: Threads + Wait + Sync>(rt: &R, alloc: Global) -> Option<Met> {
    let mut memory = memory_of_text(alloc, SETUP)?;
    let SourceFile { sources, .. } = SourceFile::read(alloc, PACKETS.as_bytes()).ok()?;
    Some(match record_step(rt, alloc, &mut memory, 1, 0, sources) {
        Ok(step) => recorded(&memory, &step),
        Err(halted) => recorded_again(rt, alloc, &mut memory, halted),
    })
}
