//! The plan of a solution of the network: what leaves a store is what flows from it to its channel.
ghost use Rattle.std.specs.Prelude.{◌≡◌, ◌+◌, ◌<◌, ◌≤◌, length, slice_index, IfOk};
ghost use Rattle.mm_base.specs.declared.limits.TheConstants.{MAX_BLOCKS};
ghost use Rattle.mm_problem.specs.Dumping.{IsDumping};
ghost use Rattle.mm_plan.specs.Table.{amount, HasShape};
ghost use Rattle.mm_flow.specs.Solution.{IsSolved};
ghost use Rattle.mm_planner.specs.declared.nodes.TheConstants.{SOURCE, SINK};
ghost use Rattle.mm_planner.specs.Network.{net};
ghost use Rattle.mm_planner.specs.Taken.{take_place, AreTaken, IsTakenTo};
ghost use Rattle.mm_planner.specs.Growing.{IsStep};

use crate::building::step_width;
use mm_base::NoMemory;
use mm_base::grid::place;
use mm_flow::Solved;
use mm_plan::Plan;
use mm_problem::Problem;
use std::alloc::Global;

// The number of the arc by which blocks leave a store in a step.
fn take_place(problem: &Problem, step: u32, store: usize) -> usize
    requires step { IsStep problem.now step }
    requires store { store < length problem.now.rows }
    ensures place { result ≡ take_place problem.now step store }
    ensures is_dumping { IsDumping problem.now }
{
    let width = step_width(problem) as usize;
    place(width, step, 3 * problem.stores() + store)
}

// The flow on the arc with this number.
fn flow_at(flow: &[u64], place: usize) -> u64
    ensures { result ≡ slice_index flow.now place }
{
    flow.get(place).copied().unwrap_or(0)
}

// How many blocks leave a store in a step.
fn taken(problem: &Problem, solved: &Solved, step: u32, store: usize) -> u32
    requires solved { IsSolved (net problem.now) SOURCE SINK solved.now }
    requires step { IsStep problem.now step }
    requires store { store < length problem.now.rows }
    ensures taken { result ≡ slice_index solved.now.flow.items (take_place problem.now step store) }
    ensures most { result ≤ MAX_BLOCKS }
{
    let place = take_place(problem, step, store);
    let flow = solved.flow.as_slice();
    flow_at(flow, place) as u32
}

// Writes the amounts of a step.
fn take_step(plan: &mut Plan, problem: &Problem, solved: &Solved, step: u32)
    requires solved { IsSolved (net problem.now) SOURCE SINK solved.now }
    requires step { IsStep problem.now step }
    requires shape { HasShape problem.now plan.old }
    requires before { IsTakenTo problem.now (slice_index solved.now.flow.items) (amount plan.old) step 0 }
    ensures shape { HasShape problem.now plan.new }
    ensures after { IsTakenTo problem.now (slice_index solved.now.flow.items) (amount plan.new) (step + 1) 0 }
{
    for store in 0..problem.stores() {
        let blocks = taken(problem, solved, step, store);
        plan.set(store, step, blocks);
    }
}

// The plan of a solution.
pub(crate) fn taken_plan(
    alloc: Global,
    problem: &Problem,
    solved: &Solved,
) -> Result<Plan, NoMemory>
    requires { IsSolved (net problem.now) SOURCE SINK solved.now }
    ensures shape { IfOk result (HasShape problem.now) }
    ensures taken { IfOk result
        (λ plan. AreTaken problem.now (slice_index solved.now.flow.items) (amount plan)) }
{
    let mut plan = Plan::zero(alloc, problem)?;
    for step in 1..problem.steps() + 1 {
        take_step(&mut plan, problem, solved, step);
    }
    Ok(plan)
}
