//! The checker: from the bytes of three texts to a verdict and its line.
ghost use Rattle.std.specs.Prelude.{◌≡◌, ℕ, IfOk};
ghost use Rattle.mm_base.specs.Reading.{IfRefused};
ghost use Rattle.mm_problem.specs.Texts.{SaysProblem};
ghost use Rattle.mm_plan.specs.Table.{HasShape};
ghost use Rattle.mm_plan.specs.declared.fault.Fault.TheVariants as plan_fault;
ghost use Rattle.mm_cut.specs.declared.fault.Fault.TheVariants.{NoMemory};
ghost use Rattle.mm_cut.specs.declared.verdict.Verdict.TheVariants.{Least, LeastInOrder};
ghost use Rattle.mm_cut.specs.Checking.{Checks, SaysSheet, LosesLeast, LosesLeastInOrder, IsFaultOf, IsPlanFault};
ghost use Rattle.mm_cut.specs.Lines.{line_of};

use crate::fault::Fault;
use crate::firsts::verdict_of;
use crate::lines::verdict_line;
use crate::verdict::Verdict;
use mm_plan::Sheet;
use mm_problem::{Problem, read_problem};
use std::alloc::Global;

/// The sheet that a plan text says, which is one for the problem. Otherwise its first fault, or `NoMemory`.
pub fn read_sheet(alloc: Global, problem: &Problem, plan: &[u8]) -> Result<Sheet, mm_plan::Fault>
    ensures sheet { IfOk result (SaysSheet problem.now plan.now) }
    ensures shape { IfOk result (λ s. HasShape problem.now s.plan) }
    ensures refused { IfRefused plan_fault.NoMemory result (IsPlanFault problem.now plan.now) }
{
    let sheet = Sheet::parse(alloc, plan)?;
    sheet.shape(problem)?;
    Ok(sheet)
}

/// The problem that a setup and a forecast say, and the sheet for it that a plan text says. The faults come in this
/// order: of the setup, of the forecast, of the plan text, of its shape.
pub fn read_texts(
    alloc: Global,
    setup: &[u8],
    forecast: &[u8],
    plan: &[u8],
) -> Result<(Problem, Sheet), Fault>
    ensures problem { IfOk result (λ t. SaysProblem setup.now forecast.now t.0) }
    ensures sheet { IfOk result (λ t. SaysSheet t.0 plan.now t.1) }
    ensures shape { IfOk result (λ t. HasShape t.0 t.1.plan) }
    ensures refused { IfRefused NoMemory result (IsFaultOf setup.now forecast.now plan.now) }
{
    let problem = read_problem(alloc, setup, forecast)?;
    let sheet = read_sheet(alloc, &problem, plan)?;
    Ok((problem, sheet))
}

/// The verdict on the plan that the plan text says, for the problem that the setup and the forecast say, with the
/// verdict's line. The faults come in this order: of the setup, of the forecast, of the plan text, of its shape.
pub fn check_bytes(
    alloc: Global,
    setup: &[u8],
    forecast: &[u8],
    plan: &[u8],
) -> Result<(Verdict, Vec<u8>), Fault>
    ensures verdict { IfOk result (λ c. Checks setup.now forecast.now plan.now c.0) }
    ensures line { IfOk result (λ c. c.1.items ≡ line_of c.0) }
    ensures least { IfOk result (λ c. (n : ℕ) → c.0 ≡ Least n → LosesLeast setup.now forecast.now plan.now n) }
    ensures in_order { IfOk result (λ c. (n : ℕ) → c.0 ≡ LeastInOrder n
        → LosesLeastInOrder setup.now forecast.now plan.now n) }
    ensures refused { IfRefused NoMemory result (IsFaultOf setup.now forecast.now plan.now) }
{
    let (problem, sheet) = read_texts(alloc, setup, forecast, plan)?;
    let verdict = verdict_of(&problem, &sheet);
    let line = verdict_line(alloc, verdict)?;
    Ok((verdict, line))
}
