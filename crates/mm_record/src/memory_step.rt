//! A step of recorders over all stores of a memory, which lends them.
ghost use Rattle.std.specs.Prelude.{◌≡◌, ◌≢◌, ◌+◌, ◌≤◌, [], None, Some, length, map, All, IfOk, IfErr, OnOk, vec_len};
ghost use Rattle.std.specs.Prelude.{vec_capacity};
ghost use Rattle.mm_record.specs.Words.{AreHeld, IsState, LogMismatch, MAX_SOURCES, counters_of};
ghost use Rattle.mm_record.specs.Causes.{cause_before};
ghost use Rattle.mm_record.specs.MemorySteps.{held_by, AreRows, IsRecorded, IsRefused, Halts};
ghost use Rattle.mm_record.specs.Recorded.{recording, recording_by};
ghost use Rattle.mm_record.specs.Supplies.{WhateverComes};
ghost use Rattle.mm_record.specs.Steps.{IsWithinLimits, TakesAll};

use crate::cause::cause_in;
use crate::readiness::cause_before;
use crate::source::AnySource;
use crate::step::{RecordingStep, record};
use mm_base::{NoMemory, StoreId};
use mm_control::ControlTable;
use mm_desk::Held;
use mm_desk::laws::any_order_loses_alike;
use mm_report::Cause;
use mm_shared::StoreCounters;
use std::alloc::Global;
use std::sync::Wait;
use std::thread::Threads;

/// What a step has recorded into a store: how many packets were offered to it, and how many were lost.
#[derive(Clone, Copy, Debug, PartialEq, Eq)]
pub struct Recorded {
    pub store: StoreId,
    pub came: u64,
    pub lost: u64,
}

/// A step that was recorded: what came to each store, in the order of the stores, and the sources.
#[derive(Drop)]
pub struct RecordedStep<S: Drop> {
    pub recorded: Vec<Recorded>,
    pub sources: Vec<S>,
}

/// Why a step was not begun or was ended, and the sources.
#[derive(Drop)]
pub struct RecordHalted<S: Drop> {
    pub cause: Cause,
    pub sources: Vec<S>,
}

// The counters of each store.
fn all_counters(alloc: Global, stores: &[Held]) -> Result<Vec<StoreCounters>, NoMemory>
    ensures counters { IfOk result (λ counters. counters.items ≡ map (λ h. counters_of h.state) stores.now) }
    ensures sound { OnOk result (All (λ h. IsState h.state) stores.now) }
{
    let mut counters = Vec::new(alloc);
    for held in stores {
        counters.push(StoreCounters::of(&held.state))?;
    }
    Ok(counters)
}

// What a step has recorded into each store.
fn changes_of(before: Vec<StoreCounters>, room: Vec<Recorded>, stores: &[Held]) -> Vec<Recorded>
    requires before { vec_len before ≡ length stores.now }
    requires room { (room.items ≡ []) × (length stores.now ≤ vec_capacity room) }
    ensures rows { AreRows before.items stores.now (length stores.now) result.items }
{
    let mut recorded = room;
    for index in 0..stores.len() {
        let held = &stores[index];
        let rise = StoreCounters::of(&held.state).since(before[index]);
        recorded.push_reserved(Recorded {
            store: held.id,
            came: rise.offered,
            lost: rise.lost,
        });
    }
    recorded
}

// Records a step over stores that can take part in it.
fn record_ready<S: AnySource + Send, R: Threads + Wait + Sync>(
    rt: &R,
    alloc: Global,
    context: &RecordingStep<'_>,
    stores: &mut Vec<Held>,
    sources: &mut [S],
) -> Result<Vec<Recorded>, Cause>
    requires held { AreHeld stores.old.items }
    requires many { length sources.old ≤ MAX_SOURCES }
    ensures ok { IfOk result (λ told. WhateverComes S.leads S.until sources.old sources.new
        (IsRecorded (recording_by context.entry.now stores.old.items)
        (held_by context.entry.now.control.now stores.old.items)
        (held_by context.entry.now.control.now stores.new.items) told.items)) }
    ensures err { IfErr result (Halts S.leads S.until (recording_by context.entry.now stores.old.items)
        (held_by context.entry.now.control.now stores.old.items)
        (held_by context.entry.now.control.now stores.new.items) sources.old sources.new) }
    ensures none_refused { IfErr result (λ cause. WhateverComes S.leads S.until sources.old sources.new
        (λ given left. TakesAll (recording_by context.entry.now stores.old.items) stores.old.items given
        → cause ≢ LogMismatch context.entry.now.step)) }
    ensures held { AreHeld stores.new.items }
{
    let step = context.step;
    let Ok(before) = all_counters(alloc, stores) else {
        return Err(Cause::NoMemory { step });
    };
    let Ok(room) = Vec::with_capacity(alloc, before.len()) else {
        return Err(Cause::NoMemory { step });
    };
    let done = record(rt, alloc, context, stores, sources);
    any_order_loses_alike();
    let recorded = changes_of(before, room, stores);
    let Ok(why) = done else {
        return Err(Cause::NoMemory { step });
    };
    match cause_in(step, why) {
        None => Ok(recorded),
        Some(cause) => Err(cause),
    }
}

/// Records a step over stores and by routes: each source's packets of the step are taken by a recorder of its own, in a
/// thread where one can be made, which offers a copy of each at `base + step` to the stores that its report type is
/// routed to. If each source gives at most 65,535 packets in the step and no store was offered more than 2^63 packets
/// before, the cause of a halt is never `LogMismatch`.
pub fn record_stores<S: AnySource + Send + Drop, R: Threads + Wait + Sync>(
    rt: &R,
    alloc: Global,
    stores: &mut Vec<Held>,
    control: &ControlTable,
    step: u32,
    base: u64,
    sources: Vec<S>,
) -> Result<RecordedStep<S>, RecordHalted<S>>
    requires held { AreHeld stores.old.items }
    ensures refused { (cause : Cause) → cause_before stores.old.items base (vec_len sources) ≡ Some cause
        → IsRefused cause (held_by control.now stores.old.items) (held_by control.now stores.new.items) sources.items
        result }
    ensures ok { IfOk result (λ done. WhateverComes S.leads S.until sources.items done.sources.items
        (IsRecorded (recording step (base + step) control.now stores.old.items)
        (held_by control.now stores.old.items) (held_by control.now stores.new.items) done.recorded.items)) }
    ensures err { cause_before stores.old.items base (vec_len sources) ≡ None
        → IfErr result (λ halted. Halts S.leads S.until (recording step (base + step) control.now stores.old.items)
        (held_by control.now stores.old.items) (held_by control.now stores.new.items) sources.items
        halted.sources.items halted.cause) }
    ensures none_refused { IfErr result (λ halted. WhateverComes S.leads S.until sources.items halted.sources.items
        (λ given left. IsWithinLimits step stores.old.items given → halted.cause ≢ LogMismatch step)) }
    ensures held { AreHeld stores.new.items }
{
    let mut sources = sources;
    if let Some(cause) = cause_before(stores, base, sources.len()) {
        return Err(RecordHalted { cause, sources });
    }
    let context = RecordingStep {
        control,
        step,
        now: base + step as u64,
    };
    match record_ready(rt, alloc, &context, stores, &mut sources) {
        Ok(recorded) => Ok(RecordedStep { recorded, sources }),
        Err(cause) => Err(RecordHalted { cause, sources }),
    }
}
