//! From a problem, or the bytes of a setup and a forecast, to the text of a plan.
ghost use Rattle.std.specs.Prelude.{IfOk};
ghost use Rattle.mm_base.specs.Reading.{IfRefused};
ghost use Rattle.mm_cut.specs.declared.fault.Fault.TheVariants as fault;
ghost use Rattle.mm_planner.specs.PlanTexts.{IsPrintedAs, IsPrintedFor, IsPrintedInOrder, Shows};
ghost use Rattle.mm_planner.specs.PlanTexts.{PlansLeast, PlansLeastInOrder, IsPlanningFault};

use crate::goal::Goal;
use crate::sheets::{sheet, sheet_in_order};
use mm_base::NoMemory;
use mm_cut::Fault;
use mm_plan::Sheet;
use mm_problem::{Problem, read_problem};
use std::alloc::Global;

/// The sheet of a plan that loses least, and its text.
#[derive(Drop)]
pub struct PrintedPlan {
    pub sheet: Sheet,
    pub text: Vec<u8>,
}

/// Plans, and prints the sheet.
pub fn print_plan(alloc: Global, problem: &Problem) -> Result<PrintedPlan, NoMemory>
    ensures { IfOk result (IsPrintedFor problem.now) }
{
    let sheet = sheet(alloc, problem)?;
    let text = sheet.print(alloc)?;
    Ok(PrintedPlan { sheet, text })
}

/// The text of a dump plan that loses least in the problem of the setup and the forecast, with the cut that shows it.
/// Otherwise the first fault, of the setup and then of the forecast.
pub fn plan_bytes(alloc: Global, setup: &[u8], forecast: &[u8]) -> Result<Vec<u8>, Fault>
    ensures text { IfOk result (λ text. PlansLeast setup.now forecast.now text.items) }
    ensures refused { IfRefused fault.NoMemory result (IsPlanningFault setup.now forecast.now) }
{
    let problem = read_problem(alloc, setup, forecast)?;
    let printed = print_plan(alloc, &problem)?;
    Ok(printed.text)
}

/// Plans in the order of the stores, and prints the sheet.
pub fn print_plan_in_order(alloc: Global, problem: &Problem) -> Result<PrintedPlan, NoMemory>
    ensures { IfOk result (IsPrintedInOrder problem.now) }
{
    let sheet = sheet_in_order(alloc, problem)?;
    let text = sheet.print(alloc)?;
    Ok(PrintedPlan { sheet, text })
}

/// The text of a dump plan that serves the stores in the setup's order, with the cuts that show that it loses least of
/// the first store, of the first two and so on, up to all. Otherwise the first fault, of the setup and then of the
/// forecast.
pub fn plan_in_order_bytes(alloc: Global, setup: &[u8], forecast: &[u8]) -> Result<Vec<u8>, Fault>
    ensures text { IfOk result (λ text. PlansLeastInOrder setup.now forecast.now text.items) }
    ensures refused { IfRefused fault.NoMemory result (IsPlanningFault setup.now forecast.now) }
{
    let problem = read_problem(alloc, setup, forecast)?;
    let printed = print_plan_in_order(alloc, &problem)?;
    Ok(printed.text)
}

/// Plans for a goal, and prints the sheet.
pub fn print_plan_for(alloc: Global, problem: &Problem, goal: Goal) -> Result<PrintedPlan, NoMemory>
    ensures { IfOk result (IsPrintedAs (Shows goal) problem.now) }
{
    match goal {
        Goal::Least => print_plan(alloc, problem),
        Goal::InOrder => print_plan_in_order(alloc, problem),
    }
}
