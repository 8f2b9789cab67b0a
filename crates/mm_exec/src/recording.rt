//! A step of recorders over a memory.
ghost use Rattle.std.specs.Prelude.{◌≡◌, ◌≢◌, ◌+◌, None, Some, IfOk, IfErr, vec_len};
ghost use Rattle.mm_report.specs.declared.cause.Cause.{Cause};
ghost use Rattle.mm_report.specs.declared.cause.Cause.TheVariants.{LogMismatch};
ghost use Rattle.mm_record.specs.Causes.{cause_before};
ghost use Rattle.mm_record.specs.MemorySteps.{recording_of, IsRecorded, IsRefused, Halts};
ghost use Rattle.mm_record.specs.Supplies.{WhateverComes};
ghost use Rattle.mm_record.specs.Steps.{IsWithinLimits};

use mm_memory::Memory;
use mm_record::{AnySource, RecordHalted, RecordedStep, record_stores};
use std::alloc::Global;
use std::sync::Wait;
use std::thread::Threads;

/// Records a step over all stores of a memory, as `record_stores` of `mm_record` does over the stores that it is lent:
/// each source's packets of the step are taken by a recorder of its own, in a thread where one can be made, which
/// offers a copy of each at `base + step` to the stores that its report type is routed to. Where each source gives at
/// most 65,535 packets in the step and no store was offered more than 2^63 packets before, the cause of a halt is never
/// `LogMismatch`.
pub fn record_step<S: AnySource + Send + Drop, R: Threads + Wait + Sync>(
    rt: &R,
    alloc: Global,
    memory: &mut Memory,
    step: u32,
    base: u64,
    sources: Vec<S>,
) -> Result<RecordedStep<S>, RecordHalted<S>>
    ensures refused { (cause : Cause) → cause_before memory.old.stores base (vec_len sources) ≡ Some cause
        → IsRefused cause memory.old memory.new sources.items result }
    ensures ok { IfOk result (λ done. WhateverComes S.leads S.until sources.items done.sources.items
        (IsRecorded (recording_of step (base + step) memory.old) memory.old memory.new done.recorded.items)) }
    ensures err { cause_before memory.old.stores base (vec_len sources) ≡ None
        → IfErr result (λ halted. Halts S.leads S.until (recording_of step (base + step) memory.old) memory.old
        memory.new sources.items halted.sources.items halted.cause) }
    ensures none_refused { IfErr result (λ halted. WhateverComes S.leads S.until sources.items halted.sources.items
        (λ given left. IsWithinLimits step memory.old.stores given → halted.cause ≢ LogMismatch step)) }
{
    let mut stores = memory.lift();
    let control = memory.control();
    let done = record_stores(rt, alloc, &mut stores, control, step, base, sources);
    memory.restore(stores);
    done
}
