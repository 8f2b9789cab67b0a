//! A plan carried out over a memory.
ghost use Rattle.std.specs.Prelude.{◌≡◌, ◌-◌, ◌<◌, ◌^◌, All, length, IfOk, IfErr};
ghost use Rattle.mm_record.specs.Supplies.{WhateverComes};
ghost use Rattle.mm_carry.specs.Words.{IsFlyable, NotFlyable};
ghost use Rattle.mm_carry.specs.RunInput.{run_input};
ghost use Rattle.mm_carry.specs.Step.{NeverRefused};
ghost use Rattle.mm_carry.specs.Course.{AreWithinLimits};
ghost use Rattle.mm_carry.specs.Ending.{IsCarriedOut, IsHalted};

use mm_carry::{Halted, RunContext, RunEnd, RunParts};
use mm_dump::Link;
use mm_memory::Memory;
use mm_plan::Plan;
use mm_problem::Problem;
use mm_record::AnySource;
use mm_report::Report;
use std::alloc::Global;
use std::sync::Wait;
use std::thread::Threads;

/// Carries out a plan over a memory: in each step from 1 what the sources give is recorded, at the moment of the step,
/// which is that many ticks after `base`, and then the plan's amounts are sent over the links and deleted. Before the
/// first step it is tested whether the run may begin; the tests stand at `ready`, in their order, and where one fails
/// nothing has been done.
pub fn carry_out<S: AnySource + Send + Drop, L: Link + Send + Drop, R: Threads + Wait + Sync>(
    rt: &R,
    alloc: Global,
    memory: &mut Memory,
    problem: &Problem,
    plan: &Plan,
    sources: Vec<S>,
    links: Vec<L>,
    base: u64,
) -> Result<RunEnd<S, L>, Halted<S, L>>
    requires links { All (λ l. L.failed l < 2 ^ 64 - 1) links.items }
    ensures carried_out { IfOk result (λ ended. WhateverComes S.leads S.until sources.items ended.sources.items
        (λ given left. IsCarriedOut L.sent L.failed (run_input problem.now plan.now base memory.old given) plan.now
        links.items memory.new
        left ended.links.items ended.report)) }
    ensures halted { IfErr result (λ halted. WhateverComes S.leads S.until sources.items halted.sources.items
        (λ given left. IsHalted L.sent L.failed (run_input problem.now plan.now base memory.old given) plan.now
        sources.items links.items memory.new
        halted left)) }
    // Where counts are far from their end, no store refuses a packet.
    ensures far { IfErr result (λ halted. WhateverComes S.leads S.until sources.items halted.sources.items
        (λ given left. AreWithinLimits (length problem.now.windows) memory.old.stores given
        → NeverRefused halted.cause)) }
    // A problem that is not flyable is refused.
    ensures flyable { IfOk result (λ _. IsFlyable problem.now) }
    ensures not_flyable { IfErr result (λ halted. (¬ IsFlyable problem.now) → halted.cause ≡ NotFlyable) }
{
    let mut parts = RunParts {
        stores: memory.lift(),
        sources,
        links,
        report: Report::none(alloc),
    };
    let run = RunContext {
        control: memory.control(),
        problem,
        plan,
        base,
    };
    let ended = parts.carry_plan(rt, alloc, &run);
    let RunParts {
        stores,
        sources,
        links,
        report,
    } = parts;
    memory.restore(stores);
    match ended {
        Ok(()) => Ok(RunEnd {
            report,
            sources,
            links,
        }),
        Err(stop) => Err(Halted {
            cause: stop.cause,
            report,
            spent: stop.spent,
            sources,
            links,
        }),
    }
}
