//! The sheet of a plan that keeps the first steps of another plan, and loses least after them.
ghost use Rattle.std.specs.Prelude.{◌≡◌, ◌*◌, ◌<◌, ◌≤◌, length, FitsSigned, IfOk};
ghost use Rattle.std.specs.Int.{w64};
ghost use Rattle.mm_base.specs.declared.limits.TheConstants.{MAX_STORES, MAX_STEPS, MAX_BLOCKS};
ghost use Rattle.mm_plan.specs.Table.{amount, HasShape};
ghost use Rattle.mm_plan.specs.Volumes.{loss};
ghost use Rattle.mm_cut.specs.Cuts.{IsCut, bound};
ghost use Rattle.mm_keep.specs.Keeps.{IsKeptSheet};
ghost use Rattle.mm_keep.specs.Printed.{IsPrintedKept};

use crate::joining::joined;
use crate::later::{best_first, later_cut};
use mm_base::NoMemory;
use mm_cut::{bound, cuts_are_few};
use mm_plan::{Certificate, Cut, Plan, Sheet, loss_of};
use mm_planner::{PrintedPlan, sheet, store_ids};
use mm_problem::Problem;
use mm_rest::laws::least_rests_plan_anew;
use mm_rest::rest_after;
use std::alloc::Global;

// What a plan loses, and a cut with its bound.
fn certificate(problem: &Problem, plan: &Plan, cut: Cut) -> Certificate
    requires shape { HasShape problem.now plan.now }
    requires cut { IsCut problem.now cut.stretches.items cut.by_channels.items }
    ensures loss { result.loss ≡ loss problem.now (amount plan.now) }
    ensures most { result.loss ≤ 2 * MAX_BLOCKS * MAX_STEPS * MAX_STORES }
    ensures stretches { result.cut ≡ cut.stretches.items }
    ensures counts { result.by_channels ≡ cut.by_channels.items }
    ensures bound { result.bound ≡ bound problem.now cut.stretches.items cut.by_channels.items }
    ensures fits { FitsSigned w64 result.bound }
{
    let loss = loss_of(problem, plan);
    let bound = bound(problem, &cut.stretches, &cut.by_channels);
    Certificate::new(loss, cut, bound)
}

/// The sheet of a plan that keeps the steps of a plan up to a step, and loses least after it: the stores, the plan with
/// its loss, and a cut that shows what the later steps lose, with its bound in the whole problem. The steps that are
/// kept may lose more than this bound says, and need not fit.
pub fn keep_sheet(
    alloc: Global,
    problem: &Problem,
    plan: &Plan,
    step: u32,
) -> Result<Sheet, NoMemory>
    requires shape { HasShape problem.now plan.now }
    requires first { 1 ≤ step }
    requires before_last { step < length problem.now.windows }
    ensures { IfOk result (IsKeptSheet problem.now (amount plan.now) step) }
{
    let stores = store_ids(alloc, problem)?;
    let rest = rest_after(alloc, problem, plan, step)?;
    let least = sheet(alloc, &rest)?;
    let plan = joined(alloc, problem, plan, least.plan(), step)?;
    let first = best_first(alloc, problem, &least, step)?;
    let cut = later_cut(alloc, &least, step, first)?;
    least_rests_plan_anew();
    cuts_are_few();
    let certificate = certificate(problem, &plan, cut);
    Ok(Sheet::new(stores, plan, certificate, None))
}

/// The same sheet, with its text.
pub fn keep_text(
    alloc: Global,
    problem: &Problem,
    plan: &Plan,
    step: u32,
) -> Result<PrintedPlan, NoMemory>
    requires shape { HasShape problem.now plan.now }
    requires first { 1 ≤ step }
    requires before_last { step < length problem.now.windows }
    ensures { IfOk result (IsPrintedKept problem.now (amount plan.now) step) }
{
    let sheet = keep_sheet(alloc, problem, plan, step)?;
    let text = sheet.print(alloc)?;
    Ok(PrintedPlan { sheet, text })
}
