//! Filling a plan, so that no window stays idle that a store could use.
ghost use Rattle.std.specs.Prelude.{◌≡◌, ◌≢◌, ℕ, ◌+◌, ◌-◌, ◌<◌, ◌≤◌, length, slice_index, slice_index_or, None};
ghost use Rattle.std.specs.Prelude.{min, option_map, IfOk, IfSome, ◌⊎◌};
ghost use Rattle.mm_base.specs.declared.limits.TheConstants.{MAX_STORES, MAX_BLOCKS, CHANNELS};
ghost use Rattle.std.specs.List.{sum_by};
ghost use Rattle.mm_problem.specs.Dumping.{size, start, channel, stores, window};
ghost use Rattle.mm_plan.specs.Table.{amount, HasShape, ChangesAmount};
ghost use Rattle.mm_plan.specs.Fit.{in_step, FitsAt, Fits};
ghost use Rattle.mm_plan.specs.Filled.{IsWindowUsed, IsLimitUsed, IsFilled, IsNowhereWorse};
ghost use Rattle.mm_plan.specs.Filling.{SameElsewhere, IsLoweredAt, AreLeft, AreSplit, AreHeld, AreUnused, IsRest};
ghost use Rattle.mm_plan.specs.Filling.{IsStepFilled, room_in};

use crate::fit::{channel_amounts, step_amount};
use crate::plan::Plan;
use crate::turn::{can_leave, size_in};
use mm_base::{CHANNELS, MAX_STORES, NoMemory};
use mm_problem::{Arrivals, Problem};
use std::alloc::Global;

// What stands in each store as the first step begins.
fn starts(problem: &Problem) -> [u32; MAX_STORES]
    ensures places { length result ≡ MAX_STORES }
    ensures starts { (s : ℕ) → s < length problem.now.rows → slice_index result s ≡ start problem.now s }
{
    let mut left = [0; MAX_STORES];
    for store in 0..problem.stores() {
        left[store] = problem.start(store);
    }
    left
}

// Lowers the amounts of a step to what can leave. At first `left` has what stood in the stores before the step, and
// afterwards what stays in them.
fn lower_to_written(problem: &Problem, plan: &mut Plan, left: &mut [u32], step: u32)
    requires shape { HasShape problem.now plan.old }
    requires first { 1 ≤ step }
    requires last { step ≤ length problem.now.windows }
    requires places { length problem.now.rows ≤ length left.old }
    requires left { AreLeft problem.now (amount plan.old) (step - 1) left.old }
    ensures shape { HasShape problem.now plan.new }
    ensures others { SameElsewhere problem.now (amount plan.old) (amount plan.new) step }
    ensures lowered { IsLoweredAt problem.now (amount plan.old) (amount plan.new) step }
    ensures split { AreSplit problem.now (amount plan.new) step left.new }
{
    let come = problem.come();
    for store in 0..problem.stores() {
        let there = left[store] + problem.arrivals(store, step);
        let written = can_leave(come, size_in(problem, store, step), there);
        let blocks = plan.amount(store, step).min(written);
        plan.set(store, step, blocks);
        left[store] = written - blocks;
    }
}

// What is not used in a step of its window, and of the limit of each channel that has one.
#[derive(Clone, Copy)]
struct Rest {
    idle: u32,
    by_channel: [Option<u32>; CHANNELS],
}

// What is not used of a limit, where there is one.
fn unused(limit: Option<u32>, amount: u64) -> Option<u32>
    requires fits { IfSome limit (λ blocks. amount ≤ blocks) }
    ensures { limit ≡ option_map (λ rest. amount + rest) result }
{
    match limit {
        Some(blocks) => Some(blocks - amount as u32),
        None => None,
    }
}

// What is not used of each channel's limit in a step.
fn unused_limits(problem: &Problem, plan: &Plan, step: u32) -> [Option<u32>; CHANNELS]
    requires shape { HasShape problem.now plan.now }
    requires first { 1 ≤ step }
    requires last { step ≤ length problem.now.windows }
    requires fits { FitsAt problem.now (amount plan.now) step }
    ensures channels { length result ≡ CHANNELS }
    ensures unused { AreUnused problem.now (amount plan.now) step result }
{
    let amounts = channel_amounts(problem, plan, step);
    let mut by_channel = [None; CHANNELS];
    for channel in 0..CHANNELS {
        by_channel[channel] = unused(problem.limit(channel as u8, step), amounts[channel]);
    }
    by_channel
}

// What is not used of the window of a step.
fn idle_in(problem: &Problem, plan: &Plan, step: u32) -> u32
    requires shape { HasShape problem.now plan.now }
    requires first { 1 ≤ step }
    requires last { step ≤ length problem.now.windows }
    requires fits { FitsAt problem.now (amount plan.now) step }
    ensures { sum_by (in_step (amount plan.now) step) (stores problem.now) + result ≡ window problem.now step }
{
    problem.window(step) - step_amount(problem, plan, step) as u32
}

impl Rest {
    // How many blocks more may leave a store of a channel.
    fn room(&self, channel: usize) -> u32
        requires { channel < CHANNELS }
        ensures room { result ≡ room_in self.now.idle (slice_index_or self.now.by_channel channel None) }
        ensures most { result ≤ self.now.idle }
    {
        match self.by_channel[channel] {
            Some(rest) => self.idle.min(rest),
            None => self.idle,
        }
    }

    // Takes blocks of it for a store of a channel.
    fn take(&mut self, channel: usize, blocks: u32)
        requires channel { channel < CHANNELS }
        requires room { blocks ≤ room_in self.old.idle (slice_index_or self.old.by_channel channel None) }
        ensures idle { self.new.idle + blocks ≡ self.old.idle }
        ensures here { slice_index_or self.old.by_channel channel None
            ≡ option_map (λ rest. rest + blocks) (slice_index_or self.new.by_channel channel None) }
        ensures others { (c : ℕ) → c ≢ channel
            → slice_index_or self.new.by_channel c None ≡ slice_index_or self.old.by_channel c None }
    {
        self.idle -= blocks;
        if let Some(rest) = self.by_channel[channel] {
            self.by_channel[channel] = Some(rest - blocks);
        }
    }
}

// Raises the amount of a store in a step by as many of the blocks that stay in it as there is room for. Returns how
// many still stay.
fn raise(
    problem: &Problem,
    plan: &mut Plan,
    rest: &mut Rest,
    store: usize,
    step: u32,
    left: u32,
) -> u32
    requires shape { HasShape problem.now plan.old }
    requires store { store < length problem.now.rows }
    requires first { 1 ≤ step }
    requires last { step ≤ length problem.now.windows }
    requires rest { IsRest problem.now (amount plan.old) step rest.old.idle rest.old.by_channel }
    requires most { amount plan.old store step + rest.old.idle ≤ MAX_BLOCKS }
    ensures least { result ≤ left }
    ensures changed { ChangesAmount plan.old plan.new store step (amount plan.old store step + (left - result)) }
    ensures rest { IsRest problem.now (amount plan.new) step rest.new.idle rest.new.by_channel }
    ensures used { 0 < result → IsWindowUsed problem.now (amount plan.new) step
        ⊎ IsLimitUsed problem.now (amount plan.new) step (channel problem.now store) }
{
    let channel = problem.channel(store) as usize;
    let more = rest.room(channel).min(left);
    let blocks = plan.amount(store, step) + more;
    plan.set(store, step, blocks);
    rest.take(channel, more);
    left - more
}

// Gives the rest of a step's window to stores that still hold blocks, as far as their channels allow. A window that
// is closed or used up has no rest.
fn use_rest(problem: &Problem, plan: &mut Plan, left: &mut [u32], step: u32)
    requires shape { HasShape problem.now plan.old }
    requires first { 1 ≤ step }
    requires last { step ≤ length problem.now.windows }
    requires places { length problem.now.rows ≤ length left.old }
    requires fits { FitsAt problem.now (amount plan.old) step }
    requires split { AreSplit problem.now (amount plan.old) step left.old }
    ensures shape { HasShape problem.now plan.new }
    ensures filled { IsStepFilled problem.now (amount plan.old) (amount plan.new) step left.new }
{
    let idle = idle_in(problem, plan, step);
    if idle == 0 {
        return;
    }
    let mut rest = Rest {
        idle,
        by_channel: unused_limits(problem, plan, step),
    };
    for store in 0..problem.stores() {
        left[store] = raise(problem, plan, &mut rest, store, step, left[store]);
    }
}

// Cuts what stays in each store to the store's size in the step.
fn cut_to_sizes(problem: &Problem, left: &mut [u32], step: u32)
    requires first { 1 ≤ step }
    requires last { step ≤ length problem.now.windows }
    requires places { length problem.now.rows ≤ length left.old }
    ensures cut { (s : ℕ) → s < length problem.now.rows
        → slice_index left.new s ≡ min (slice_index left.old s) (size problem.now s step) }
{
    for store in 0..problem.stores() {
        left[store] = left[store].min(size_in(problem, store, step));
    }
}

// Cuts what stays in each store as a step ends to what is held.
fn hold(problem: &Problem, left: &mut [u32], step: u32)
    requires first { 1 ≤ step }
    requires last { step ≤ length problem.now.windows }
    requires places { length problem.now.rows ≤ length left.old }
    ensures held { AreHeld problem.now step left.old left.new }
{
    match problem.come() {
        Arrivals::Before => {}
        Arrivals::During => cut_to_sizes(problem, left, step),
    }
}

/// The plan with no amount above what can leave, and with as much more leaving as windows and channels still allow.
pub fn fill(alloc: Global, problem: &Problem, plan: &Plan) -> Result<Plan, NoMemory>
    requires shape { HasShape problem.now plan.now }
    requires fits { Fits problem.now (amount plan.now) }
    ensures shape { IfOk result (HasShape problem.now) }
    ensures fits { IfOk result (λ filled. Fits problem.now (amount filled)) }
    ensures filled { IfOk result (λ filled. IsFilled problem.now (amount filled)) }
    ensures no_worse { IfOk result (λ filled. IsNowhereWorse problem.now (amount plan.now) (amount filled)) }
{
    let mut filled = plan.copy(alloc)?;
    let mut left = starts(problem);
    for step in 1..problem.steps() + 1 {
        lower_to_written(problem, &mut filled, &mut left, step);
        use_rest(problem, &mut filled, &mut left, step);
        hold(problem, &mut left, step);
    }
    Ok(filled)
}
