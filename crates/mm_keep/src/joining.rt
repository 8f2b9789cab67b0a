//! A plan that has the steps of one plan up to a step, and those of another one after it.
ghost use Rattle.std.specs.Prelude.{◌≡◌, ◌+◌, ◌<◌, ◌≤◌, length, IfOk};
ghost use Rattle.mm_base.specs.declared.limits.TheConstants.{MAX_BLOCKS};
ghost use Rattle.mm_plan.specs.Table.{amount, HasShape};
ghost use Rattle.mm_keep.specs.Joining.{AreJoined, AreJoinedTo, AreParts, joined_amounts};

use mm_base::NoMemory;
use mm_plan::Plan;
use mm_problem::Problem;
use std::alloc::Global;

// How many blocks are to leave a store in a step: by the plan up to its last step that is kept, and by the plan of the
// rest after that.
fn amount_in(problem: &Problem, plan: &Plan, rest: &Plan, last: u32, store: usize, step: u32) -> u32
    requires parts { AreParts problem.now last plan.now rest.now }
    requires store { store < length problem.now.rows }
    requires first { 1 ≤ step }
    requires within { step ≤ length problem.now.windows }
    ensures amount { result ≡ joined_amounts last plan.now rest.now store step }
    ensures most { result ≤ MAX_BLOCKS }
{
    if step <= last {
        plan.amount(store, step)
    } else {
        rest.amount(store, step - last)
    }
}

// Writes the amounts of a step.
fn join_step(joined: &mut Plan, problem: &Problem, plan: &Plan, rest: &Plan, last: u32, step: u32)
    requires parts { AreParts problem.now last plan.now rest.now }
    requires first { 1 ≤ step }
    requires within { step ≤ length problem.now.windows }
    requires shape { HasShape problem.now joined.old }
    requires before { AreJoinedTo problem.now last plan.now rest.now (amount joined.old) step 0 }
    ensures shape { HasShape problem.now joined.new }
    ensures after { AreJoinedTo problem.now last plan.now rest.now (amount joined.new) (step + 1) 0 }
{
    for store in 0..problem.stores() {
        let blocks = amount_in(problem, plan, rest, last, store, step);
        joined.set(store, step, blocks);
    }
}

/// The plan that has the steps of a plan up to the last one that is kept, and a plan of the rest after it.
pub(crate) fn joined(
    alloc: Global,
    problem: &Problem,
    plan: &Plan,
    rest: &Plan,
    last: u32,
) -> Result<Plan, NoMemory>
    requires { AreParts problem.now last plan.now rest.now }
    ensures shape { IfOk result (HasShape problem.now) }
    ensures joined { IfOk result (λ plan_of_both. AreJoined problem.now last plan.now rest.now (amount plan_of_both)) }
{
    let mut joined = Plan::zero(alloc, problem)?;
    for step in 1..problem.steps() + 1 {
        join_step(&mut joined, problem, plan, rest, last, step);
    }
    Ok(joined)
}
