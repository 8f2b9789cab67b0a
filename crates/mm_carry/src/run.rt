//! The run of a dump plan.
ghost use Rattle.std.specs.Prelude.{◌≡◌, ◌-◌, ◌<◌, ◌^◌, [], All, length, Err, IfOk, OnOk, IfErr};
ghost use Rattle.mm_shared.specs.Stores.{labels_of};
ghost use Rattle.mm_desk.specs.Holdings.{AreHeld};
ghost use Rattle.mm_carry.specs.Words.{IsFlyable, NotFlyable};
ghost use Rattle.mm_carry.specs.RunState.{InRun, state_of};
ghost use Rattle.mm_carry.specs.Course.{given_to};
ghost use Rattle.mm_carry.specs.Ending.{HasRun, IsStopped};

use crate::course::RunContext;
use crate::open_run::OpenRun;
use crate::places::places_of;
use crate::readiness::ready;
use crate::room::{RunBuffers, reserve_run};
use crate::run_parts::RunParts;
use crate::step::Stop;
use mm_dump::Link;
use mm_record::AnySource;
use mm_report::Cause;
use mm_shared::{close_all, open_all, read_states};
use std::alloc::Global;
use std::mem::replace;
use std::sync::Wait;
use std::thread::Threads;

// Why a run did not begin.
fn never_began(cause: Cause) -> Stop
    ensures { result ≡ record { cause = cause; spent = 0 } }
{
    Stop { cause, spent: 0 }
}

impl<S: AnySource + Send + Drop, L: Link + Send + Drop> RunParts<S, L> {
    /// Carries out a plan, where a run may begin and there is memory for it, and reports its whole steps. Before the
    /// first step it is tested whether the run may begin; the tests stand at `ready`, in their order, and where one
    /// fails nothing has been done.
    pub fn carry_plan<R: Threads + Wait + Sync>(
        &mut self,
        rt: &R,
        alloc: Global,
        run: &RunContext<'_>,
    ) -> Result<(), Stop>
        requires held { AreHeld self.old.stores.items }
        requires links { All (λ l. L.failed l < 2 ^ 64 - 1) self.old.links.items }
        requires report { self.old.report.steps ≡ [] }
        ensures done { OnOk result (InRun S.leads S.until (state_of self.old) (state_of self.new)
            (λ first now. HasRun L.sent L.failed (given_to run.now first) run.now.plan.now first
            (length run.now.problem.now.windows) now self.new.report)) }
        ensures stopped { IfErr result (λ stop. InRun S.leads S.until (state_of self.old) (state_of self.new)
            (λ first now. IsStopped L.sent L.failed (given_to run.now first) run.now.plan.now (state_of self.old)
            (state_of self.new) now.sources stop self.new.report)) }
        ensures labels { labels_of self.new.stores.items ≡ labels_of self.old.stores.items }
        // A problem that is not flyable is refused.
        ensures flyable { OnOk result (IsFlyable run.now.problem.now) }
        ensures not_flyable { (¬ IsFlyable run.now.problem.now)
            → result ≡ Err (record { cause = NotFlyable; spent = 0 }) }
    {
        let stores = self.stores.as_slice();
        let many_sources = self.sources.len();
        let many_links = self.links.len();
        let (problem, plan, base) = (run.problem, run.plan, run.base);
        if let Err(cause) = ready(problem, plan, stores, base, many_sources, many_links) {
            return Err(never_began(cause));
        }
        let all = places_of(run.problem, stores);
        let Ok(mut buffers) = reserve_run(alloc, run.problem) else {
            return Err(never_began(Cause::NoMemory { step: 0 }));
        };
        let Ok(mut stores) = open_all(alloc, &mut self.stores) else {
            return Err(never_began(Cause::NoMemory { step: 0 }));
        };
        read_states(&mut stores);
        let mut open = OpenRun {
            stores,
            sources: replace(&mut self.sources, Vec::new(alloc)),
            links: replace(&mut self.links, Vec::new(alloc)),
        };
        let ended = open.carry_steps(rt, alloc, run, &all, &mut buffers);
        let OpenRun {
            stores,
            sources,
            links,
        } = open;
        close_all(stores, &mut self.stores);
        self.sources = sources;
        self.links = links;
        let RunBuffers { report, .. } = buffers;
        self.report = report;
        ended
    }
}
