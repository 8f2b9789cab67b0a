//! The plan of a run: that of a text, or one that is made.
ghost use Rattle.mm_run.specs.Prepared.{IsPlanBy};

use mm_base::NoMemory;
use mm_plan::Sheet;
use mm_planner::{Goal, PrintedPlan, print_plan_for};
use mm_problem::Problem;
use std::alloc::Global;

/// The plan of a run.
#[derive(Drop)]
pub(crate) enum RunPlan {
    /// The plan of a text, which is not printed.
    Given(Sheet),
    /// A plan that was made, and its text.
    Made(PrintedPlan),
    /// There was no memory to make a plan.
    Unplanned,
}

/// The plan of the sheet, or without one a plan that is made for the goal and printed.
pub(crate) fn plan_by(alloc: Global, problem: &Problem, sheet: Option<Sheet>, goal: Goal) -> RunPlan
    ensures { IsPlanBy goal sheet problem.now result }
{
    match sheet {
        Some(sheet) => RunPlan::Given(sheet),
        None => match print_plan_for(alloc, problem, goal) {
            Ok(printed) => RunPlan::Made(printed),
            Err(NoMemory) => RunPlan::Unplanned,
        },
    }
}
