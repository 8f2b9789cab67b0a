//! Tries every plan of a problem.
ghost use Rattle.std.specs.Prelude.{◌+◌, ◌≤◌, length, IfOk, IfSome};
ghost use Rattle.mm_plan.specs.Table.{HasShape};

use crate::counting::{fits_in, loss};
use mm_plan::{NoMemory, Plan};
use mm_problem::Problem;
use std::alloc::Global;

// Searches a plan that fits, with a loss below a given one, among those with the same amounts as `plan` in all earlier
// steps, which fit, and of the earlier stores in this step. `plan` becomes what is found.
fn try_from(problem: &Problem, plan: &mut Plan, most: u64, step: u32, store: usize) -> bool
    requires shape { HasShape problem.now plan.old }
    requires first { 1 ≤ step }
    requires last { step ≤ length problem.now.windows + 1 }
    requires store { store ≤ length problem.now.rows }
    ensures shape { HasShape problem.now plan.new }
{
    if step > problem.steps() {
        return loss(problem, plan) < most;
    }
    if store == problem.stores() {
        return fits_in(problem, plan, step) && try_from(problem, plan, most, step + 1, 0);
    }
    for blocks in 0..problem.window(step) + 1 {
        plan.set(store, step, blocks);
        if try_from(problem, plan, most, step, store + 1) {
            return true;
        }
    }
    false
}

/// A plan that fits and loses fewer blocks than given, or `None` if there is none. All plans are tried whose amounts
/// are at most the windows; no others fit. For n stores their number is the product of (window + 1)^n over all steps,
/// so this is for tiny problems only.
pub fn plan_below(alloc: Global, problem: &Problem, most: u64) -> Result<Option<Plan>, NoMemory>
    ensures shape { IfOk result (λ r. IfSome r (HasShape problem.now)) }
{
    let mut plan = Plan::zero(alloc, problem)?;
    if try_from(problem, &mut plan, most, 1, 0) {
        Ok(Some(plan))
    } else {
        Ok(None)
    }
}
