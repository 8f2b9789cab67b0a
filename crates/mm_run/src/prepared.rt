//! A run that is read, judged and planned, and has not begun.
ghost use Rattle.std.specs.Prelude.{◌-◌, ◌<◌, ◌^◌, All, length, map};
ghost use Rattle.mm_carry.specs.Course.{AreWithinLimits};
ghost use Rattle.mm_run.specs.Printed.{IsReserved};
ghost use Rattle.mm_run.specs.Runs.{gives};

use crate::flight::{fly_plan, offered_for};
use crate::link::ScriptedLink;
use crate::printed::Printed;
use crate::run_plan::RunPlan;
use crate::source::ScriptedSource;
use crate::stopped_run::StoppedRun;
use mm_carry::{Flown, FlyHalted};
use mm_memory::Memory;
use mm_problem::Problem;
use std::alloc::Global;
use std::sync::Wait;
use std::thread::Threads;

/// A run that is read, judged and planned, and has not begun. The packets of step 0 are offered to its memory.
#[derive(Drop)]
pub struct PreparedRun {
    pub(crate) problem: Problem,
    pub(crate) memory: Memory,
    pub(crate) plan: RunPlan,
    pub(crate) sources: Vec<ScriptedSource>,
    pub(crate) links: Vec<ScriptedLink>,
    pub(crate) printed: Printed,
    ghost may_fail: { All (λ l. l.failed < 2 ^ 64 - 1) links.items },
    ghost within: { AreWithinLimits (length problem.windows) memory.stores (map gives sources.items) },
    ghost reserved: { IsReserved printed },
}

impl PreparedRun {
    ghost use Rattle.std.specs.Prelude.{◌≡◌, ℕ, List, Option};
    ghost use Rattle.mm_planner.specs.declared.goal.Goal.{Goal};
    ghost use Rattle.mm_run.specs.Prepared.{IsPrepared, plan_text_of};
    ghost use Rattle.mm_run.specs.Runs.{PrintsRun};

    /// The plan text, which is printed before the run begins: empty where the plan was given, and where there was no
    /// memory to plan.
    #[must_use]
    pub fn plan_text(&self) -> &[u8]
        ensures text { result.now ≡ plan_text_of self.now }
    {
        match &self.plan {
            RunPlan::Made(printed) => &printed.text,
            RunPlan::Given(_) | RunPlan::Unplanned => &[],
        }
    }

    /// Carries the plan out, its first step at the moment 1. What is printed of the run begins with the plan text.
    #[must_use]
    pub fn carry_out<R: Threads + Wait + Sync>(self, rt: &R, alloc: Global) -> Printed
        ensures runs { (goal : Goal) (plan : Option (List ℕ)) (setup forecast sources links : List ℕ)
            → IsPrepared goal plan setup forecast sources links self
            → PrintsRun goal plan setup forecast sources links result }
        ensures plan_text { result.sheet.items ≡ plan_text_of self }
    {
        let PreparedRun {
            problem,
            mut memory,
            plan,
            sources,
            links,
            mut printed,
        } = self;
        match fly_plan(rt, alloc, &mut memory, &problem, plan, sources, links) {
            Ok(Flown { sheet, report, .. }) => printed.whole(alloc, sheet, &report),
            Err(FlyHalted { sheet, halted }) => {
                printed.given.opening = offered_for(&memory, &halted.cause);
                printed.stopped(
                    alloc,
                    sheet,
                    StoppedRun {
                        problem,
                        memory,
                        halted,
                    },
                )
            }
        }
    }
}
