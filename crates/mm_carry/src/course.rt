//! The steps of a run, one after another.
ghost use Rattle.std.specs.Prelude.{◌≡◌, length, OnOk, vec_capacity};
ghost use Rattle.std.specs.Result.{result_err};
ghost use Rattle.mm_shared.specs.Stores.{labels_of};
ghost use Rattle.mm_carry.specs.RunState.{InRun};
ghost use Rattle.mm_carry.specs.Numbers.{AreCounters};
ghost use Rattle.mm_carry.specs.Places.{AreAllPlaces};
ghost use Rattle.mm_carry.specs.Course.{given_to, MayReport, IsReportedStep, MayRun};
ghost use Rattle.mm_carry.specs.Ending.{HasEnded};

use crate::open_run::OpenRun;
use crate::orders::list_orders;
use crate::room::RunBuffers;
use crate::step::Stop;
use crate::step_counts::{all_counters, step_counts};
use mm_base::MAX_STORES;
use mm_control::ControlTable;
use mm_desk::laws::events_keep_a_state;
use mm_dump::Link;
use mm_dump::laws::broken_orders_change_nothing;
use mm_plan::Plan;
use mm_problem::Problem;
use mm_record::laws::sources_may_stay;
use mm_record::{AnySource, RecordingStep};
use mm_shared::StoreCounters;
use std::alloc::Global;
use std::sync::Wait;
use std::thread::Threads;

/// What the steps of a run share: the storage control, the problem, the plan, and the moment before the first step.
#[derive(Drop)]
pub struct RunContext<'a> {
    pub control: &'a ControlTable,
    pub problem: &'a Problem,
    pub plan: &'a Plan,
    pub base: u64,
}

impl<S: AnySource + Send + Drop, L: Link + Send + Drop> OpenRun<S, L> {
    // Carries out one step of a plan, for stores of the problem that stand at these places and have these counters, and
    // adds its row to the report. Their counters after it are in the same place.
    fn report_step<R: Threads + Wait + Sync>(
        &mut self,
        rt: &R,
        alloc: Global,
        run: &RunContext<'_>,
        places: &[usize],
        step: u32,
        counters: &mut [StoreCounters; MAX_STORES],
        buffers: &mut RunBuffers,
    ) -> Result<(), Stop>
        requires may { MayReport L.failed run.now places.now step counters.old buffers.old self.old }
        ensures step { InRun S.leads S.until self.old self.new
            (IsReportedStep L.sent L.failed run.now places.now step (result_err result) buffers.old.report
            buffers.new.report) }
        ensures counters { OnOk result
            (AreCounters self.new.stores places.now (length run.now.problem.now.rows) counters.new) }
        ensures capacity { vec_capacity buffers.new.orders ≡ vec_capacity buffers.old.orders }
        ensures labels { labels_of self.new.stores ≡ labels_of self.old.stores }
    {
        list_orders(&mut buffers.orders, run.plan, places, step);
        let context = RecordingStep {
            control: run.control,
            step,
            now: run.base + u64::from(step),
        };
        self.carry_step(rt, alloc, &mut buffers.dumping, &context, &buffers.orders)?;
        let after = all_counters(places, &mut self.stores);
        let counts = step_counts(run.problem, step, counters, &after);
        buffers.report.add(&counts[..places.len()]);
        *counters = after;
        Ok(())
    }

    // Carries out all steps of a plan, and reports each in the room for it.
    pub(crate) fn carry_steps<R: Threads + Wait + Sync>(
        &mut self,
        rt: &R,
        alloc: Global,
        run: &RunContext<'_>,
        all: &[usize; MAX_STORES],
        buffers: &mut RunBuffers,
    ) -> Result<(), Stop>
        requires places { AreAllPlaces run.now.problem.now self.old.stores all.now }
        requires may { MayRun L.failed run.now buffers.old self.old }
        ensures ended { InRun S.leads S.until self.old self.new
            (λ first now. HasEnded L.sent L.failed (given_to run.now first) run.now.plan.now first (result_err result)
            now buffers.new.report) }
        ensures labels { labels_of self.new.stores ≡ labels_of self.old.stores }
    {
        broken_orders_change_nothing();
        events_keep_a_state();
        sources_may_stay::<S>();
        let places = &all[..run.problem.stores()];
        let mut counters = all_counters(places, &mut self.stores);
        for step in 1..run.problem.steps() + 1 {
            let ended = self.report_step(rt, alloc, run, places, step, &mut counters, buffers);
            if let Err(stop) = ended {
                return Err(stop);
            }
        }
        Ok(())
    }
}
