//! A run that begins with its plan.
ghost use Rattle.std.specs.Prelude.{◌≡◌, ◌-◌, ◌<◌, ◌^◌, ◌⊎◌, All, length, IfOk, IfErr};
ghost use Rattle.mm_planner.specs.PlanTexts.{IsPrintedAs, Shows};
ghost use Rattle.mm_record.specs.Supplies.{WhateverComes};
ghost use Rattle.mm_memory.specs.Holdings.{Holdings};
ghost use Rattle.mm_exec.specs.Flying.{Flies, FliesFor, FliesNot, FliesNotFor, HasNoPlan};
ghost use Rattle.mm_carry.specs.Step.{NeverRefused};
ghost use Rattle.mm_carry.specs.Course.{AreWithinLimits};

use crate::carrying::carry_out;
use mm_base::NoMemory;
use mm_carry::{FlyHalted, FlyResult, Halted};
use mm_dump::Link;
use mm_memory::Memory;
use mm_planner::{Goal, PrintedPlan, print_plan_for};
use mm_problem::Problem;
use mm_record::AnySource;
use mm_report::{Cause, Report};
use std::alloc::Global;
use std::sync::Wait;
use std::thread::Threads;

/// The sources and links, given back because memory ran out before there was a plan.
pub fn unplanned<S: Drop, L: Drop>(alloc: Global, sources: Vec<S>, links: Vec<L>) -> FlyHalted<S, L>
    ensures sources { result.halted.sources ≡ sources }
    ensures links { result.halted.links ≡ links }
    ensures no_plan { (memory : Holdings) → HasNoPlan memory sources.items links.items memory result }
{
    FlyHalted {
        sheet: Vec::new(alloc),
        halted: Halted {
            cause: Cause::NoMemory { step: 0 },
            report: Report::none(alloc),
            spent: 0,
            sources,
            links,
        },
    }
}

/// Carries out a plan that `print_plan_for` printed for the problem and a goal, as `fly_for` does. The text of the plan
/// is handed back with the rest.
pub fn fly_printed<S: AnySource + Send + Drop, L: Link + Send + Drop, R: Threads + Wait + Sync>(
    rt: &R,
    alloc: Global,
    memory: &mut Memory,
    problem: &Problem,
    printed: PrintedPlan,
    sources: Vec<S>,
    links: Vec<L>,
    base: u64,
) -> FlyResult<S, L>
    requires links { All (λ l. L.failed l < 2 ^ 64 - 1) links.items }
    ensures flown { (goal : Goal) → IsPrintedAs (Shows goal) problem.now printed
        → IfOk result (λ flown. WhateverComes S.leads S.until sources.items flown.sources.items
        (λ given left. FliesFor goal L.sent L.failed problem.now base memory.old given links.items memory.new flown
        left)) }
    ensures not_flown { (goal : Goal) → IsPrintedAs (Shows goal) problem.now printed
        → IfErr result (λ ended. WhateverComes S.leads S.until sources.items ended.halted.sources.items
        (λ given left. FliesNotFor goal L.sent L.failed problem.now base memory.old sources.items given links.items
        memory.new ended left)) }
    // The text is handed back.
    ensures flown_text { IfOk result (λ flown. flown.sheet ≡ printed.text) }
    ensures not_flown_text { IfErr result (λ ended. ended.sheet ≡ printed.text) }
    // Where counts are far from their end, no store refuses a packet.
    ensures far { IfErr result (λ ended. WhateverComes S.leads S.until sources.items ended.halted.sources.items
        (λ given left. AreWithinLimits (length problem.now.windows) memory.old.stores given
        → NeverRefused ended.halted.cause)) }
{
    let PrintedPlan { sheet, text } = printed;
    let plan = sheet.plan();
    match carry_out(rt, alloc, memory, problem, plan, sources, links, base) {
        Ok(ended) => Ok(ended.with_sheet(text)),
        Err(halted) => Err(FlyHalted {
            sheet: text,
            halted,
        }),
    }
}

/// Plans for a goal, prints the plan with the cuts that show that it meets the goal, and carries it out. What `fly`
/// promises holds for both goals. Where the stores are served in order and what came is what was forecast, the first
/// store, the first two and so on lose in the run the number that is printed of them (`firsts`).
pub fn fly_for<S: AnySource + Send + Drop, L: Link + Send + Drop, R: Threads + Wait + Sync>(
    rt: &R,
    alloc: Global,
    memory: &mut Memory,
    problem: &Problem,
    goal: Goal,
    sources: Vec<S>,
    links: Vec<L>,
    base: u64,
) -> FlyResult<S, L>
    requires links { All (λ l. L.failed l < 2 ^ 64 - 1) links.items }
    ensures flown { IfOk result (λ flown. WhateverComes S.leads S.until sources.items flown.sources.items
        (λ given left. FliesFor goal L.sent L.failed problem.now base memory.old given links.items memory.new flown
        left)) }
    ensures not_flown { IfErr result (λ ended. WhateverComes S.leads S.until sources.items ended.halted.sources.items
        (λ given left. FliesNotFor goal L.sent L.failed problem.now base memory.old sources.items given links.items
        memory.new ended left)
        ⊎ HasNoPlan memory.old sources.items links.items memory.new ended) }
    // Where counts are far from their end, no store refuses a packet.
    ensures far { IfErr result (λ ended. WhateverComes S.leads S.until sources.items ended.halted.sources.items
        (λ given left. AreWithinLimits (length problem.now.windows) memory.old.stores given
        → NeverRefused ended.halted.cause)) }
{
    match print_plan_for(alloc, problem, goal) {
        Ok(printed) => fly_printed(rt, alloc, memory, problem, printed, sources, links, base),
        Err(NoMemory) => Err(unplanned(alloc, sources, links)),
    }
}

/// Plans, prints the plan with the cut that shows that it loses least, and carries it out.
///
/// **What was printed is what is lost.** The printed plan fits every window and every channel's limit, no plan that
/// fits loses fewer blocks than the printed number, and the printed cut shows this. Where what came is what was
/// forecast, the packets lost in the run are the printed number, whatever the order in which the stores were asked, and
/// whatever the kind of each. Where more came, at most one packet more is lost for each that came beyond the forecast
/// (`headline`).
pub fn fly<S: AnySource + Send + Drop, L: Link + Send + Drop, R: Threads + Wait + Sync>(
    rt: &R,
    alloc: Global,
    memory: &mut Memory,
    problem: &Problem,
    sources: Vec<S>,
    links: Vec<L>,
    base: u64,
) -> FlyResult<S, L>
    requires links { All (λ l. L.failed l < 2 ^ 64 - 1) links.items }
    ensures flown { IfOk result (λ flown. WhateverComes S.leads S.until sources.items flown.sources.items
        (λ given left. Flies L.sent L.failed problem.now base memory.old given links.items memory.new flown left)) }
    ensures not_flown { IfErr result (λ ended. WhateverComes S.leads S.until sources.items ended.halted.sources.items
        (λ given left. FliesNot L.sent L.failed problem.now base memory.old sources.items given links.items
        memory.new ended left)
        ⊎ HasNoPlan memory.old sources.items links.items memory.new ended) }
    // Where counts are far from their end, no store refuses a packet.
    ensures far { IfErr result (λ ended. WhateverComes S.leads S.until sources.items ended.halted.sources.items
        (λ given left. AreWithinLimits (length problem.now.windows) memory.old.stores given
        → NeverRefused ended.halted.cause)) }
{
    let goal = Goal::Least;
    fly_for(rt, alloc, memory, problem, goal, sources, links, base)
}
