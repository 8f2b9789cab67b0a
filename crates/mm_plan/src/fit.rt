//! Whether a plan fits the pass windows and the limits of the channels.
ghost use Rattle.std.specs.Prelude.{◌≡◌, ℕ, ◌<◌, ◌≤◌, ◌↔◌, length, slice_index, Some, IsTrue, IsOk, IfErr};
ghost use Rattle.std.specs.List.{sum_by};
ghost use Rattle.mm_base.specs.declared.limits.TheConstants.{MAX_STORES, MAX_BLOCKS, CHANNELS};
ghost use Rattle.mm_problem.specs.Dumping.{stores, stores_of, limit};
ghost use Rattle.mm_plan.specs.Table.{amount, HasShape};
ghost use Rattle.mm_plan.specs.Fit.{in_step, FitsAt, Fits, FitsLimit, IsFirstMisfit};

use crate::plan::Plan;
use mm_problem::{CHANNELS, Problem};

// What is to leave all stores in a step.
#[tactic(auto, using(mm_base::proofs::RangeSums::sum_by_range_more))]
pub(crate) fn step_amount(problem: &Problem, plan: &Plan, step: u32) -> u64
    requires shape { HasShape problem.now plan.now }
    requires first { 1 ≤ step }
    requires last { step ≤ length problem.now.windows }
    ensures { result ≡ sum_by (in_step (amount plan.now) step) (stores problem.now) }
{
    let mut amount: u64 = 0;
    for store in 0..problem.stores() {
        amount += u64::from(plan.amount(store, step));
    }
    amount
}

// What is to leave the stores of each channel in a step.
pub(crate) fn channel_amounts(problem: &Problem, plan: &Plan, step: u32) -> [u64; CHANNELS]
    requires shape { HasShape problem.now plan.now }
    requires first { 1 ≤ step }
    requires last { step ≤ length problem.now.windows }
    ensures channels { length result ≡ CHANNELS }
    ensures amounts { (c : ℕ) → c < CHANNELS
        → slice_index result c ≡ sum_by (in_step (amount plan.now) step) (stores_of problem.now c) }
{
    let mut amounts = [0; CHANNELS];
    for store in 0..problem.stores() {
        amounts[problem.channel(store) as usize] += u64::from(plan.amount(store, step));
    }
    amounts
}

// Whether no more leaves the stores of a channel in a step than its limit there, where it has one.
fn fits_limit(problem: &Problem, channel: u8, step: u32, amount: u64) -> bool
    requires first { 1 ≤ step }
    requires last { step ≤ length problem.now.windows }
    ensures { IsTrue result ↔ ((b : ℕ) → limit problem.now channel step ≡ Some b → amount ≤ b) }
{
    match problem.limit(channel, step) {
        Some(blocks) => amount <= u64::from(blocks),
        None => true,
    }
}

fn fits_limits(problem: &Problem, plan: &Plan, step: u32) -> bool
    requires shape { HasShape problem.now plan.now }
    requires first { 1 ≤ step }
    requires last { step ≤ length problem.now.windows }
    ensures { IsTrue result ↔ ((c : ℕ) → FitsLimit problem.now (amount plan.now) step c) }
{
    let amounts = channel_amounts(problem, plan, step);
    for channel in 0..problem.channels() {
        if !fits_limit(problem, channel, step, amounts[channel as usize]) {
            return false;
        }
    }
    true
}

// Where nothing is to leave, any window and any limits let it through.
#[tactic(auto, using(crate::proofs::Raises::idle_fits))]
fn fits_at(problem: &Problem, plan: &Plan, step: u32) -> bool
    requires shape { HasShape problem.now plan.now }
    requires first { 1 ≤ step }
    requires last { step ≤ length problem.now.windows }
    ensures { IsTrue result ↔ FitsAt problem.now (amount plan.now) step }
{
    let amount = step_amount(problem, plan, step);
    if amount == 0 {
        return true;
    }
    amount <= u64::from(problem.window(step)) && fits_limits(problem, plan, step)
}

/// Whether the plan fits the window and the channels' limits of each step; otherwise the first step that it does not
/// fit.
pub fn fits(problem: &Problem, plan: &Plan) -> Result<(), u32>
    requires { HasShape problem.now plan.now }
    ensures ok { IsOk result ↔ Fits problem.now (amount plan.now) }
    ensures misfit { IfErr result (IsFirstMisfit problem.now (amount plan.now)) }
{
    for step in 1..problem.steps() + 1 {
        if !fits_at(problem, plan, step) {
            return Err(step);
        }
    }
    Ok(())
}
