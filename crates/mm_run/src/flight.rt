//! The run of a plan, from texts.
ghost use Rattle.std.specs.Prelude.{◌≡◌, ◌-◌, ◌<◌, ◌^◌, Option, Some, [], All, length, IfOk, IfErr};
ghost use Rattle.mm_carry.specs.Course.{AreWithinLimits};
ghost use Rattle.mm_carry.specs.Step.{NeverRefused};
ghost use Rattle.mm_record.specs.Supplies.{WhateverComes};
ghost use Rattle.mm_planner.specs.declared.goal.Goal.{Goal};
ghost use Rattle.mm_run.specs.Types.{SheetRows};
ghost use Rattle.mm_run.specs.Prepared.{IsPlanBy, text_of_plan};
ghost use Rattle.mm_run.specs.Runs.{gives, IsFlown, IsNotFlown};

use crate::link::ScriptedLink;
use crate::run_plan::RunPlan;
use crate::source::ScriptedSource;
use mm_carry::{FlyHalted, FlyResult};
use mm_exec::{carry_out, fly_printed, unplanned};
use mm_memory::Memory;
use mm_plan::Sheet;
use mm_problem::Problem;
use mm_report::Cause;
use std::alloc::Global;
use std::sync::Wait;
use std::thread::Threads;

// Carries out the plan of the sheet, of which no text is printed.
fn fly_given<R: Threads + Wait + Sync>(
    rt: &R,
    alloc: Global,
    memory: &mut Memory,
    problem: &Problem,
    sheet: &Sheet,
    sources: Vec<ScriptedSource>,
    links: Vec<ScriptedLink>,
) -> FlyResult<ScriptedSource, ScriptedLink>
    requires links { All (λ l. l.failed < 2 ^ 64 - 1) links.items }
    ensures flown { (goal : Goal) → IfOk result (IsFlown goal (Some sheet.now) problem.now memory.old sources.items
        links.items memory.new) }
    ensures not_flown { (goal : Goal) → IfErr result (IsNotFlown goal (Some sheet.now) problem.now memory.old
        sources.items links.items memory.new) }
    ensures flown_text { IfOk result (λ flown. flown.sheet.items ≡ []) }
    ensures not_flown_text { IfErr result (λ ended. ended.sheet.items ≡ []) }
    ensures far { IfErr result (λ ended. WhateverComes (λ _ _. Unit {0}) (λ s _. gives s)
        sources.items ended.halted.sources.items
        (λ given left. AreWithinLimits (length problem.now.windows) memory.old.stores given
        → NeverRefused ended.halted.cause)) }
{
    let text = Vec::new(alloc);
    match carry_out(rt, alloc, memory, problem, sheet.plan(), sources, links, 0) {
        Ok(ended) => Ok(ended.with_sheet(text)),
        Err(halted) => Err(FlyHalted {
            sheet: text,
            halted,
        }),
    }
}

/// Carries out a plan.
pub(crate) fn fly_plan<R: Threads + Wait + Sync>(
    rt: &R,
    alloc: Global,
    memory: &mut Memory,
    problem: &Problem,
    plan: RunPlan,
    sources: Vec<ScriptedSource>,
    links: Vec<ScriptedLink>,
) -> FlyResult<ScriptedSource, ScriptedLink>
    requires links { All (λ l. l.failed < 2 ^ 64 - 1) links.items }
    ensures flown { (goal : Goal) (sheet : Option SheetRows) → IsPlanBy goal sheet problem.now plan
        → IfOk result (IsFlown goal sheet problem.now memory.old sources.items links.items memory.new) }
    ensures not_flown { (goal : Goal) (sheet : Option SheetRows) → IsPlanBy goal sheet problem.now plan
        → IfErr result (IsNotFlown goal sheet problem.now memory.old sources.items links.items memory.new) }
    ensures flown_text { IfOk result (λ flown. flown.sheet.items ≡ text_of_plan plan) }
    ensures not_flown_text { IfErr result (λ ended. ended.sheet.items ≡ text_of_plan plan) }
    ensures far { IfErr result (λ ended. WhateverComes (λ _ _. Unit {0}) (λ s _. gives s)
        sources.items ended.halted.sources.items
        (λ given left. AreWithinLimits (length problem.now.windows) memory.old.stores given
        → NeverRefused ended.halted.cause)) }
{
    match plan {
        RunPlan::Given(sheet) => fly_given(rt, alloc, memory, problem, &sheet, sources, links),
        RunPlan::Made(printed) => {
            fly_printed(rt, alloc, memory, problem, printed, sources, links, 0)
        }
        RunPlan::Unplanned => Err(unplanned(alloc, sources, links)),
    }
}

/// How many packets were offered to the store that does not hold its start volume; 0 if the cause is another.
pub(crate) fn offered_for(memory: &Memory, cause: &Cause) -> u64 {
    let Cause::OpeningDiffers { store } = cause else {
        return 0;
    };
    memory.state(store).map_or(0, |state| state.offered())
}
