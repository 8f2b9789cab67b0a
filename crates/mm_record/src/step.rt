//! A step of recorders: each in a thread of its own where one can be made, over any number of stores.
ghost use Rattle.std.specs.Prelude.{◌≡◌, ◌≤◌, length, IfOk, OnErr, vec_len};
ghost use Rattle.mm_base.specs.declared.limits.TheConstants.{MAX_STORES};
ghost use Rattle.mm_desk.specs.declared.desk.TheConstants.{MAX_SEATS};
ghost use Rattle.mm_shared.specs.Stores.{labels_of, stores_in, AreNamed, AreAtRest};
ghost use Rattle.mm_record.specs.Recorded.{recording_by};
ghost use Rattle.mm_record.specs.Supplies.{WhateverComes};
ghost use Rattle.mm_record.specs.Steps.{Records};

use crate::context::StepContext;
use crate::recorder::record_all;
use crate::source::AnySource;
use mm_base::NoMemory;
use mm_control::ControlTable;
use mm_desk::{Fault, Held};
use mm_shared::{OpenStores, close_all, open_all, seat_workers, settle};
use std::alloc::Global;
use std::sync::Wait;
use std::thread::Threads;

/// A step of recorders: by which routes packets go, which step it is, and the moment at which all is offered, in ticks.
#[derive(Drop)]
pub struct RecordingStep<'a> {
    pub control: &'a ControlTable,
    pub step: u32,
    pub now: u64,
}

/// Records a step over stores that are open: each source's packets of the step are taken by a recorder of its own,
/// which offers a copy of each, at the step's moment, to the stores that its report type is routed to. The answer is
/// why recorders stopped early, if some did: out of memory only if none stopped for another reason.
pub fn record_open<S: AnySource + Send, R: Threads + Wait + Sync>(
    rt: &R,
    alloc: Global,
    step: &RecordingStep<'_>,
    stores: &mut OpenStores,
    sources: &mut [S],
) -> Option<Fault>
    requires rest { AreAtRest stores.old }
    requires many { length sources.old ≤ MAX_SEATS }
    requires named { AreNamed (recording_by step.now (stores_in stores.old)).ids }
    ensures records { WhateverComes S.leads S.until sources.old sources.new
        (Records (recording_by step.entry.now (stores_in stores.old)) (stores_in stores.old) (stores_in stores.new)
        result) }
    ensures labels { labels_of (stores_in stores.new) ≡ labels_of (stores_in stores.old) }
    ensures rest { AreAtRest stores.new }
{
    seat_workers(stores, sources.len() as u32);
    let context = StepContext {
        rt,
        alloc,
        labels: &stores.labels,
        stores: &stores.stores,
        control: step.control,
        step: step.step,
        moment: step.now,
    };
    let why = record_all(&context, sources, &mut stores.workers);
    settle(stores);
    why
}

/// Records a step over stores that are opened for it alone. If there is no memory to begin, stores and sources are as
/// before.
pub fn record<S: AnySource + Send, R: Threads + Wait + Sync>(
    rt: &R,
    alloc: Global,
    step: &RecordingStep<'_>,
    stores: &mut Vec<Held>,
    sources: &mut [S],
) -> Result<Option<Fault>, NoMemory>
    requires few { vec_len stores.old ≤ MAX_STORES }
    requires many { length sources.old ≤ MAX_SEATS }
    requires named { AreNamed (recording_by step.now stores.old.items).ids }
    ensures records { IfOk result (λ why. WhateverComes S.leads S.until sources.old sources.new
        (Records (recording_by step.entry.now stores.old.items) stores.old.items stores.new.items why)) }
    ensures labels { labels_of stores.new.items ≡ labels_of stores.old.items }
    ensures stores { OnErr result (stores.new.items ≡ stores.old.items) }
    ensures sources { OnErr result (sources.new ≡ sources.old) }
{
    let mut open = open_all(alloc, stores)?;
    let why = record_open(rt, alloc, step, &mut open, sources);
    close_all(open, stores);
    Ok(why)
}
