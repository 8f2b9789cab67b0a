//! Certificates of a plan.
ghost use Rattle.std.specs.Prelude.{◌≡◌, ◌*◌, ◌≤◌, length, All, IfNone, IfOk, IfSome};
ghost use Rattle.mm_base.specs.declared.limits.TheConstants.{MAX_STORES, MAX_STEPS, MAX_BLOCKS};
ghost use Rattle.mm_plan.specs.Table.{amount, HasShape};
ghost use Rattle.mm_cut.specs.Firsts.{ShowsFirst, ShowFirsts};
ghost use Rattle.mm_planner.specs.InOrder.{CutShows, CutsShow, AllShow};
ghost use Rattle.mm_planner.specs.Planned.{FitsAndFills, IsShown};

use crate::planner::Planned;
use mm_base::NoMemory;
use mm_cut::{bound, is_first_cut};
use mm_plan::{Certificate, Cut, Plan, first_loss};
use mm_problem::Problem;
use std::alloc::Global;

// The certificate of a cut, if the cut shows the loss of the first stores by the plan.
fn certificate(problem: &Problem, plan: &Plan, stores: usize, cut: Cut) -> Option<Certificate>
    requires shape { HasShape problem.now plan.now }
    requires stores { stores ≤ length problem.now.rows }
    ensures shows { IfSome result (ShowsFirst stores problem.now (amount plan.now)) }
    ensures most { IfSome result (λ c. c.loss ≤ 2 * MAX_BLOCKS * MAX_STEPS * MAX_STORES) }
    ensures none { IfNone result (¬ CutShows stores problem.now plan.now cut) }
{
    let loss = first_loss(problem, plan, stores);
    let stretches = cut.stretches.as_slice();
    let counts = cut.by_channels.as_slice();
    if !is_first_cut(problem, stores, stretches, counts) {
        return None;
    }
    if bound(problem, stretches, counts) != loss as i64 {
        return None;
    }
    Some(Certificate::new(loss, cut, loss as i64))
}

// The certificates of cuts of the first store, of the first two and so on, if each shows the loss of its stores by the
// plan.
fn certificates(
    alloc: Global,
    problem: &Problem,
    plan: &Plan,
    cuts: Vec<Cut>,
) -> Result<Option<Vec<Certificate>>, NoMemory>
    requires shape { HasShape problem.now plan.now }
    requires few { length cuts.items ≤ length problem.now.rows }
    ensures count { IfOk result (λ found. IfSome found (λ firsts. length firsts.items ≡ length cuts.items)) }
    ensures show { IfOk result
        (λ found. IfSome found (λ firsts. ShowFirsts problem.now (amount plan.now) firsts.items)) }
    ensures most { IfOk result (λ found. IfSome found
        (λ firsts. All (λ c. c.loss ≤ 2 * MAX_BLOCKS * MAX_STEPS * MAX_STORES) firsts.items)) }
    ensures none { IfOk result (λ found. IfNone found (¬ CutsShow problem.now plan.now cuts.items)) }
{
    let mut firsts = Vec::new(alloc);
    for cut in cuts {
        let Some(first) = certificate(problem, plan, firsts.len() + 1, cut) else {
            return Ok(None);
        };
        firsts.push(first)?;
    }
    Ok(Some(firsts))
}

// A filled plan with the certificates of these cuts, of all stores and of the first ones, if each cut shows the loss of
// its stores.
#[tactic(auto, using(crate::proofs::Showing::not_each, crate::proofs::Showing::not_own))]
pub(crate) fn certified(
    alloc: Global,
    problem: &Problem,
    plan: Plan,
    cut: Cut,
    firsts: Vec<Cut>,
) -> Result<Option<Planned>, NoMemory>
    requires whole { FitsAndFills problem.now plan }
    requires few { length firsts.items ≤ length problem.now.rows }
    ensures shown { IfOk result (λ found. IfSome found (IsShown problem.now)) }
    ensures count { IfOk result
        (λ found. IfSome found (λ planned. length planned.firsts.items ≡ length firsts.items)) }
    ensures none { IfOk result (λ found. IfNone found (¬ AllShow problem.now plan cut firsts.items)) }
{
    let Some(firsts) = certificates(alloc, problem, &plan, firsts)? else {
        return Ok(None);
    };
    let Some(certificate) = certificate(problem, &plan, problem.stores(), cut) else {
        return Ok(None);
    };
    Ok(Some(Planned {
        plan,
        certificate,
        firsts,
    }))
}
