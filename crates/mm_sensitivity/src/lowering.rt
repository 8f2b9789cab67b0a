//! Lowers the amounts of a plan until it fits another problem.
ghost use Rattle.std.specs.Prelude.{◌≡◌, ℕ, ◌<◌, ◌≤◌, length, All, IfOk};
ghost use Rattle.mm_base.specs.declared.limits.TheConstants.{MAX_BLOCKS, CHANNELS};
ghost use Rattle.mm_plan.specs.Table.{HasShape};

use mm_base::{CHANNELS, MAX_BLOCKS, NoMemory};
use mm_plan::Plan;
use mm_problem::Problem;
use std::alloc::Global;

// The limits of the channels in a step. A channel without one gets the largest window as its limit.
fn limits_of(problem: &Problem, step: u32) -> [u32; CHANNELS]
    requires first { 1 ≤ step }
    requires last { step ≤ length problem.now.windows }
    ensures { length result ≡ CHANNELS }
{
    let mut limits = [MAX_BLOCKS; CHANNELS];
    for channel in 0..CHANNELS {
        limits[channel] = problem.limit(channel as u8, step).unwrap_or(MAX_BLOCKS);
    }
    limits
}

// Writes the amounts of a step, lowered to its window and the limits, store by store.
fn lower_step(lowered: &mut Plan, problem: &Problem, plan: &Plan, step: u32)
    requires first { 1 ≤ step }
    requires last { step ≤ length problem.now.windows }
    requires shape { HasShape problem.now plan.now }
    requires lowered { HasShape problem.now lowered.old }
    ensures { HasShape problem.now lowered.new }
{
    let mut window = problem.window(step);
    let mut limits = limits_of(problem, step);
    for store in 0..problem.stores() {
        let channel = problem.channel(store) as usize;
        let blocks = plan.amount(store, step).min(window).min(limits[channel]);
        window -= blocks;
        limits[channel] -= blocks;
        lowered.set(store, step, blocks);
    }
}

/// The amounts of a plan, lowered to the windows and limits of the problem, store by store.
pub(crate) fn lowered(alloc: Global, problem: &Problem, plan: &Plan) -> Result<Plan, NoMemory>
    requires { HasShape problem.now plan.now }
    ensures { IfOk result (HasShape problem.now) }
{
    let mut lowered = Plan::zero(alloc, problem)?;
    for step in 1..problem.steps() + 1 {
        lower_step(&mut lowered, problem, plan, step);
    }
    Ok(lowered)
}
