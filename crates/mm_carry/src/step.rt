//! One step of a run: what comes is recorded, and then dumped.
ghost use Rattle.std.specs.Prelude.{◌≡◌};
ghost use Rattle.std.specs.Result.{result_err};
ghost use Rattle.mm_shared.specs.Stores.{labels_of};
ghost use Rattle.mm_carry.specs.RunState.{InRun};
ghost use Rattle.mm_record.specs.Recorded.{recording_by};
ghost use Rattle.mm_carry.specs.Step.{MayCarry, orders_after, cause_of, stop_for, IsStep};

use crate::open_run::OpenRun;
use mm_desk::Fault;
use mm_dump::{DumpBuffers, Dumped, Link, Order, OrderBroken, dump_open};
use mm_record::laws::sources_may_stay;
use mm_record::{AnySource, RecordingStep, cause_in, record_open};
use mm_report::Cause;
use std::alloc::Global;
use std::sync::Wait;
use std::thread::Threads;

/// Why a run stopped before its end, and how many blocks of the window of its last step were spent.
#[derive(Clone, Copy)]
pub struct Stop {
    pub cause: Cause,
    pub spent: u64,
}

// The orders that are carried out in a step: none where a recorder stopped early.
fn orders_after(fault: Option<Fault>, orders: &[Order]) -> &[Order]
    ensures { result.now ≡ orders_after fault orders.now }
{
    match fault {
        None => orders,
        Some(_) => &orders[..0],
    }
}

// Why a step is broken off, where a recorder stopped early or an order broke.
fn cause_of(step: u32, fault: Option<Fault>, broken: Option<OrderBroken>) -> Option<Cause>
    ensures { result ≡ cause_of step fault broken }
{
    match broken {
        None => cause_in(step, fault),
        Some(OrderBroken::LinkFailed) => Some(Cause::LinkFailed { step }),
        Some(OrderBroken::NoMemory) => Some(Cause::NoMemory { step }),
    }
}

// Stops the run for a cause, where there is one, with this much of the window spent.
fn stop_for(cause: Option<Cause>, spent: u64) -> Result<(), Stop>
    ensures { result_err result ≡ stop_for cause spent }
{
    match cause {
        None => Ok(()),
        Some(cause) => Err(Stop { cause, spent }),
    }
}

impl<S: AnySource + Send + Drop, L: Link + Send + Drop> OpenRun<S, L> {
    // Carries out one step: records what comes, and then, where no recorder stopped early, carries out its orders.
    pub(crate) fn carry_step<R: Threads + Wait + Sync>(
        &mut self,
        rt: &R,
        alloc: Global,
        buffers: &mut DumpBuffers,
        step: &RecordingStep<'_>,
        orders: &[Order],
    ) -> Result<(), Stop>
        requires may { MayCarry L.failed step.now.now orders.now self.old }
        ensures step { InRun S.leads S.until self.old self.new
            (IsStep L.sent L.failed (recording_by step.entry.now self.old.stores) orders.now (result_err result)) }
        ensures labels { labels_of self.new.stores ≡ labels_of self.old.stores }
    {
        sources_may_stay::<S>();
        let fault = record_open(rt, alloc, step, &mut self.stores, &mut self.sources);
        let Dumped { broken, spent } = dump_open(
            rt,
            alloc,
            buffers,
            orders_after(fault, orders),
            &mut self.stores,
            &mut self.links,
        );
        stop_for(cause_of(step.step, fault, broken), spent)
    }
}
