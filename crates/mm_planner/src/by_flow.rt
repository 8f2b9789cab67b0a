//! Plans by the network of the problem alone. The arcs by which blocks arrive are opened store by store.
ghost use Rattle.std.specs.Prelude.{◌≡◌, ◌+◌, ◌≤◌, length, IfOk};
ghost use Rattle.mm_problem.specs.Dumping.{IsDumping};
ghost use Rattle.mm_flow.specs.Balance.{IsBegun};
ghost use Rattle.mm_flow.specs.Solution.{Continues, side_of};
ghost use Rattle.mm_planner.specs.declared.nodes.TheConstants.{SOURCE, SINK};
ghost use Rattle.mm_planner.specs.Network.{first_inflow, net_by};
ghost use Rattle.mm_planner.specs.Runs.{first_stretches, first_counts};
ghost use Rattle.mm_planner.specs.InOrder.{IsPlanInOrder};
ghost use Rattle.mm_planner.specs.Planned.{IsPlan, IsShown};
ghost use Rattle.mm_planner.specs.Opening.{IsBegunBy, IsOpened, AreOpened};

use crate::building::{first_network, step_width};
use crate::certified::certified;
use crate::nodes::{SINK, SOURCE};
use crate::planner::Planned;
use crate::runs::{counts, stretches};
use crate::taken::taken_plan;
use mm_base::NoMemory;
use mm_flow::{Fault, Solved, solve_from};
use mm_plan::{Cut, fill};
use mm_problem::Problem;
use std::alloc::Global;

// The flow of zeros.
fn nothing(alloc: Global, problem: &Problem) -> Result<Solved, NoMemory>
    ensures begun { IfOk result
        (IsBegun (net_by problem.now (first_inflow 0 problem.now)) SOURCE SINK) }
{
    let arcs = problem.steps() * step_width(problem);
    let flow = vec![in alloc; 0; arcs as usize]?;
    Ok(Solved {
        flow,
        side: Vec::new(alloc),
        value: 0,
    })
}

// Continues from a flow after the arcs of the first stores were opened. There is a solution, since no unlimited arc
// leaves the source.
fn next_solved(
    alloc: Global,
    problem: &Problem,
    begun: Solved,
    first: usize,
) -> Result<Solved, NoMemory>
    requires begun { IsBegunBy first problem.now begun }
    ensures { IfOk result
        (Continues (net_by problem.now (first_inflow first problem.now)) SOURCE SINK begun) }
{
    let network = first_network(alloc, problem, first)?;
    match solve_from(alloc, &network, begun, SOURCE, SINK) {
        Ok(solved) => Ok(solved),
        Err(Fault::NoMemory) => Err(NoMemory),
        Err(Fault::Unbounded) => unreachable!(),
        Err(Fault::SameEnds) => unreachable!(),
    }
}

// The cut of the first stores by a side.
fn cut_of(alloc: Global, problem: &Problem, first: usize, side: &[bool]) -> Result<Cut, NoMemory>
    requires { first ≤ length problem.now.rows }
    ensures stretches { IfOk result
        (λ c. c.stretches.items ≡ first_stretches first problem.now (side_of side.now)) }
    ensures by_channels { IfOk result
        (λ c. c.by_channels.items ≡ first_counts first problem.now (side_of side.now)) }
{
    let stretches = stretches(alloc, problem, first, side)?;
    let by_channels = counts(alloc, problem, side, stretches.as_slice())?;
    Ok(Cut {
        stretches,
        by_channels,
    })
}

// A maximum flow with the arcs of the first stores open, and their cut.
fn opened_to(
    alloc: Global,
    problem: &Problem,
    begun: Solved,
    first: usize,
) -> Result<(Solved, Cut), NoMemory>
    requires few { first ≤ length problem.now.rows }
    requires begun { IsBegunBy first problem.now begun }
    ensures opened { IfOk result (λ o. IsOpened first problem.now begun o.0 o.1) }
    ensures problem { IsDumping problem.now }
{
    prove!(problem.stores() > 0);
    let solved = next_solved(alloc, problem, begun, first)?;
    let cut = cut_of(alloc, problem, first, solved.side.as_slice())?;
    Ok((solved, cut))
}

// A maximum flow with the arcs of the first stores opened one after another, and the cut at each.
fn opened(alloc: Global, problem: &Problem, firsts: usize) -> Result<(Solved, Vec<Cut>), NoMemory>
    requires { firsts ≤ length problem.now.rows }
    ensures opened { IfOk result (λ o. AreOpened firsts problem.now o.0 o.1.items) }
{
    let mut solved = nothing(alloc, problem)?;
    let mut cuts = Vec::new(alloc);
    for store in 0..firsts {
        let (next, cut) = opened_to(alloc, problem, solved, store + 1)?;
        cuts.push(cut)?;
        solved = next;
    }
    Ok((solved, cuts))
}

// A plan by the network, with certificates of all stores and of the first store, of the first two and so on, up to this
// number.
fn by_flow(alloc: Global, problem: &Problem, firsts: usize) -> Result<Planned, NoMemory>
    requires { firsts ≤ length problem.now.rows }
    ensures shown { IfOk result (IsShown problem.now) }
    ensures count { IfOk result (λ planned. length planned.firsts.items ≡ firsts) }
{
    let (begun, cuts) = opened(alloc, problem, firsts)?;
    let (solved, cut) = opened_to(alloc, problem, begun, problem.stores())?;
    let taken = taken_plan(alloc, problem, &solved)?;
    let plan = fill(alloc, problem, &taken)?;
    let found = certified(alloc, problem, plan, cut, cuts)?;
    match found {
        Some(planned) => Ok(planned),
        None => unreachable!(),
    }
}

/// As `plan`, but by the network alone, which takes longer.
pub fn plan_by_flow(alloc: Global, problem: &Problem) -> Result<Planned, NoMemory>
    ensures least { IfOk result (IsPlan problem.now) }
    ensures firsts { IfOk result (λ planned. length planned.firsts.items ≡ 0) }
{
    by_flow(alloc, problem, 0)
}

/// As `plan_in_order`, but by the network alone, which takes longer.
#[tactic(auto, using(crate::proofs::Showing::in_order))]
pub fn plan_in_order_by_flow(alloc: Global, problem: &Problem) -> Result<Planned, NoMemory>
    ensures { IfOk result (IsPlanInOrder problem.now) }
{
    by_flow(alloc, problem, problem.stores() - 1)
}
