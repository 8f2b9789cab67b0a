//! The planner: a proposal if its cuts show that it loses least, and otherwise a plan by the network.
ghost use Rattle.std.specs.Prelude.{◌≡◌, ◌+◌, ◌≤◌, length, IfOk, IfSome};
ghost use Rattle.mm_plan.specs.Table.{HasShape};
ghost use Rattle.mm_planner.specs.InOrder.{IsPlanInOrder};
ghost use Rattle.mm_planner.specs.Planned.{IsPlan, IsShown};

use crate::by_flow::{plan_by_flow, plan_in_order_by_flow};
use crate::certified::certified;
use mm_base::NoMemory;
use mm_plan::{Certificate, Plan, fill, fits};
use mm_problem::Problem;
use mm_propose::{Proposal, propose, propose_in_order};
use std::alloc::Global;

/// A dump plan, and the certificates that show how little it loses.
#[derive(Debug, Drop)]
pub struct Planned {
    pub plan: Plan,
    /// The certificate of all stores: the loss of the plan, and a cut whose bound is this loss.
    pub certificate: Certificate,
    /// If the plan serves the stores in order, the certificates of the first store, of the first two and so on, up to
    /// all but one.
    pub firsts: Vec<Certificate>,
}

// The proposal with its idle windows filled, if it has this number of cuts of first stores, and each cut shows the loss
// of its stores.
fn proposed(
    alloc: Global,
    problem: &Problem,
    proposal: Proposal,
    firsts: usize,
) -> Result<Option<Planned>, NoMemory>
    requires shape { HasShape problem.now proposal.plan }
    requires few { firsts ≤ length problem.now.rows }
    ensures shown { IfOk result (λ found. IfSome found (IsShown problem.now)) }
    ensures count { IfOk result (λ found. IfSome found (λ planned. length planned.firsts.items ≡ firsts)) }
{
    if proposal.firsts.len() != firsts || fits(problem, &proposal.plan).is_err() {
        return Ok(None);
    }
    let filled = fill(alloc, problem, &proposal.plan)?;
    certified(alloc, problem, filled, proposal.cut, proposal.firsts)
}

/// A dump plan that loses least and leaves no window idle that a store could use, with a cut that shows that it loses
/// least. If there are several such plans or cuts, any of them may be returned.
pub fn plan(alloc: Global, problem: &Problem) -> Result<Planned, NoMemory>
    ensures least { IfOk result (IsPlan problem.now) }
    ensures firsts { IfOk result (λ planned. length planned.firsts.items ≡ 0) }
{
    let proposal = propose(alloc, problem)?;
    match proposed(alloc, problem, proposal, 0)? {
        Some(planned) => Ok(planned),
        None => plan_by_flow(alloc, problem),
    }
}

/// A dump plan that serves the stores in the setup's order, and leaves no window idle that a store could use: no plan
/// that fits loses less of the first store, of the first two and so on, up to all. A cut shows it for each of these. If
/// there are several such plans or cuts, any of them may be returned.
#[tactic(auto, using(crate::proofs::Showing::in_order))]
pub fn plan_in_order(alloc: Global, problem: &Problem) -> Result<Planned, NoMemory>
    ensures { IfOk result (IsPlanInOrder problem.now) }
{
    let proposal = propose_in_order(alloc, problem)?;
    match proposed(alloc, problem, proposal, problem.stores() - 1)? {
        Some(planned) => Ok(planned),
        None => plan_in_order_by_flow(alloc, problem),
    }
}
