//! A plan that is made, printed and carried out, and how many packets that lost.
ghost use Rattle.std.specs.Prelude.{◌≡◌, ◌<◌, ◌-◌, ◌^◌, ◌⊎◌, map, All, IfOk, IfErr};
ghost use Rattle.mm_plan.specs.Sheet.{SheetRows};
ghost use Rattle.mm_memory.specs.Holdings.{Holdings, memory_of};
ghost use Rattle.mm_report.specs.declared.cause.Cause.TheVariants.{NoMemory};
ghost use Rattle.mm_exec.specs.Flying.{AsForecast, Flies, FliesNot};
ghost use Rattle.mm_planner.specs.PlanTexts.{PlansFor};
ghost use Rattle.mm_exec.specs.RunInput.{run_input};
ghost use Rattle.mm_carry.specs.declared.run_end.FlyHalted.{FlyHalted};
ghost use Rattle.callers.specs.declared.ends.Burst.{Burst};
ghost use Rattle.callers.specs.declared.ends.Downlink.{Downlink};

use crate::ends::{Burst, Downlink};
use mm_dump::Link;
use mm_exec::{Cause, Flown, FlyHalted, fly};
use mm_memory::Memory;
use mm_problem::{Problem, Setup};
use mm_record::Source;
use std::alloc::Global;
use std::sync::Wait;
use std::thread::Threads;

/// How many packets a run lost, and what it left: the text of its plan, its report, its sources and its links.
#[derive(Drop)]
pub struct Told {
    pub lost: u128,
    pub flown: Flown<Burst, Downlink>,
}

/// Plans for a problem, and carries the plan out over the memory of its setup, the first step at the moment 1.
pub fn plan_and_fly<R: Threads + Wait + Sync>(
    rt: &R,
    alloc: Global,
    setup: &Setup,
    problem: &Problem,
    sources: Vec<Burst>,
    links: Vec<Downlink>,
) -> Result<Told, Cause>
    requires links { All (λ l. l.failed < 2 ^ 64 - 1) links.items }
    // The text shows that no plan loses fewer blocks than it says. If what came is what was forecast, that many were
    // lost.
    ensures lost { IfOk result (λ told. (sheet : SheetRows) × PlansFor problem.now told.flown.sheet.items sheet
        × (AsForecast (run_input problem.now sheet.plan 0 (memory_of setup.now)
        (map ⟦<Burst as Source>⟧.gives sources.items))
        → told.lost ≡ sheet.loss)) }
    ensures flown { IfOk result (λ told. (left : Holdings)
        × Flies ⟦<Downlink as Link>⟧.sent ⟦<Downlink as Link>⟧.failed problem.now 0 (memory_of setup.now)
        (map ⟦<Burst as Source>⟧.gives sources.items) links.items left told.flown
        (map ⟦<Burst as Source>⟧.gives told.flown.sources.items)) }
    ensures halted { IfErr result (λ cause. (cause ≡ NoMemory 0)
        ⊎ ((left : Holdings) × (ended : FlyHalted Burst Downlink)
        × FliesNot ⟦<Downlink as Link>⟧.sent ⟦<Downlink as Link>⟧.failed problem.now 0 (memory_of setup.now)
        sources.items
        (map ⟦<Burst as Source>⟧.gives sources.items) links.items left ended
        (map ⟦<Burst as Source>⟧.gives ended.halted.sources.items)
        × (cause ≡ ended.halted.cause))) }
{
    let Ok(mut memory) = Memory::of_setup(alloc, setup) else {
        return Err(Cause::NoMemory { step: 0 });
    };
    match fly(rt, alloc, &mut memory, problem, sources, links, 0) {
        Ok(flown) => Ok(Told {
            lost: flown.report.totals().lost,
            flown,
        }),
        Err(FlyHalted { halted, .. }) => Err(halted.cause),
    }
}
