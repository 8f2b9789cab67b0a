//! Charts with the worths of windows, limits and sizes.
ghost use Rattle.std.specs.Prelude.{◌≡◌, ◌-◌, ◌*◌, ◌<◌, ◌≤◌, length, IfOk};
ghost use Rattle.mm_base.specs.Reading.{IfRefused};
ghost use Rattle.mm_base.specs.declared.limits.TheConstants.{MAX_BLOCKS, MAX_STEPS, MAX_STORES, CHANNELS};
ghost use Rattle.mm_cut.specs.Checking.{IsFaultOf};
ghost use Rattle.mm_cut.specs.declared.fault.Fault.TheVariants.{NoMemory as no_memory};
ghost use Rattle.mm_problem.specs.Changed.{with_window};
ghost use Rattle.mm_sensitivity.specs.Charts.{AreWindowWorths, AreLimitWorths, AreLosses, IsLimitWorth};
ghost use Rattle.mm_sensitivity.specs.Charts.{AreStepLimitWorths, IsStepLimitWorth, AreSizeWorths, AreWorthLists};
ghost use Rattle.mm_sensitivity.specs.Charts.{ChartsWorth};
ghost use Rattle.mm_sensitivity.specs.Worth.{IsPlanFor, IsSaved};

use crate::base::Base;
use crate::item::Item;
use crate::laws::wider_windows;
use mm_base::{CHANNELS, MAX_BLOCKS, NoMemory};
use mm_chart::{Picture, Worths, draw};
use mm_cut::{Fault, read_texts};
use mm_problem::Problem;
use std::alloc::Global;

// How many blocks fewer the least plan loses if the window of a step is the largest. A wider window saves at most the
// difference.
fn window_worth(base: &Base<'_>, step: u32) -> Result<u32, NoMemory>
    requires base { IsPlanFor base.now.problem.now base.now.planned }
    requires first { 1 ≤ step }
    requires last { step ≤ length base.now.problem.now.windows }
    ensures { IfOk result (IsSaved base.now.problem.now (with_window base.now.problem.now step MAX_BLOCKS)) }
{
    wider_windows();
    let now = base.problem.window(step);
    let most = base.saved(Item::Window(step), MAX_BLOCKS)?;
    Ok(most.min(u64::from(MAX_BLOCKS - now)) as u32)
}

// The worth of the window of each step.
fn window_worths(base: &Base<'_>) -> Result<Vec<u32>, NoMemory>
    requires { IsPlanFor base.now.problem.now base.now.planned }
    ensures { IfOk result (λ worths. AreWindowWorths base.now.problem.now worths.items) }
{
    let mut worths = Vec::new(base.alloc);
    for step in 1..base.problem.steps() + 1 {
        worths.push(window_worth(base, step)?)?;
    }
    Ok(worths)
}

// The worth of the limit of a channel in the setup.
fn limit_worth(base: &Base<'_>, channel: u8) -> Result<u64, NoMemory>
    requires base { IsPlanFor base.now.problem.now base.now.planned }
    requires channel { channel < length base.now.problem.now.limits }
    ensures worth { IfOk result (IsLimitWorth base.now.problem.now channel) }
    ensures most { IfOk result (λ blocks. blocks ≤ 2 * MAX_BLOCKS * MAX_STEPS * MAX_STORES) }
{
    if base.problem.setup_limit(channel).is_none() {
        return Ok(0);
    }
    base.saved(Item::Limit(channel), MAX_BLOCKS)
}

// The worth of each limit of the setup.
fn limit_worths(base: &Base<'_>) -> Result<Vec<u64>, NoMemory>
    requires { IsPlanFor base.now.problem.now base.now.planned }
    ensures worths { IfOk result (λ worths. AreLimitWorths base.now.problem.now worths.items) }
    ensures most { IfOk result (λ worths. AreLosses worths.items) }
{
    let mut worths = Vec::new(base.alloc);
    for channel in 0..base.problem.channels() {
        worths.push(limit_worth(base, channel)?)?;
    }
    Ok(worths)
}

// The worth of the limit of a channel in a step alone.
fn step_limit_worth(base: &Base<'_>, channel: u8, step: u32) -> Result<u64, NoMemory>
    requires base { IsPlanFor base.now.problem.now base.now.planned }
    requires first { 1 ≤ step }
    requires last { step ≤ length base.now.problem.now.windows }
    ensures worth { IfOk result (IsStepLimitWorth base.now.problem.now channel step) }
    ensures most { IfOk result (λ blocks. blocks ≤ 2 * MAX_BLOCKS * MAX_STEPS * MAX_STORES) }
{
    let limited = base.problem.limited();
    for column in 0..limited.len() {
        if limited[column] == channel {
            return base.saved(Item::StepLimit(column, step), MAX_BLOCKS);
        }
    }
    Ok(0)
}

// The worth of each limit of each step: step by step, in each all channels.
fn step_limit_worths(base: &Base<'_>) -> Result<Vec<u64>, NoMemory>
    requires { IsPlanFor base.now.problem.now base.now.planned }
    ensures worths { IfOk result (λ worths. AreStepLimitWorths base.now.problem.now worths.items) }
    ensures most { IfOk result (λ worths. AreLosses worths.items) }
{
    let mut worths = Vec::new(base.alloc);
    let steps = base.problem.steps();
    for place in 0..CHANNELS * steps as usize {
        let channel = (place % CHANNELS) as u8;
        let step = (place / CHANNELS) as u32 + 1;
        worths.push(step_limit_worth(base, channel, step)?)?;
    }
    Ok(worths)
}

// The worth of the size of each store.
fn size_worths(base: &Base<'_>) -> Result<Vec<u64>, NoMemory>
    requires { IsPlanFor base.now.problem.now base.now.planned }
    ensures { IfOk result (λ worths. AreSizeWorths base.now.problem.now worths.items) }
{
    let mut worths = Vec::new(base.alloc);
    for store in 0..base.problem.stores() {
        worths.push(base.saved(Item::Size(store), MAX_BLOCKS)?)?;
    }
    Ok(worths)
}

/// The worth of each window, limit and store size, as a chart shows them.
pub fn chart_worths(alloc: Global, problem: &Problem) -> Result<Worths, NoMemory>
    ensures { IfOk result (AreWorthLists problem.now) }
{
    let base = Base::new(alloc, problem)?;
    let windows = window_worths(&base)?;
    let limits = limit_worths(&base)?;
    let step_limits = step_limit_worths(&base)?;
    let sizes = size_worths(&base)?;
    Ok(Worths::new(windows, limits, step_limits, sizes))
}

/// The chart of `chart_bytes` of `mm_chart`, with the worth of each window, limit and store size: how many blocks fewer
/// the least plan loses if it is the largest allowed. The faults are those of `chart_bytes`.
pub fn worth_chart_bytes(
    alloc: Global,
    setup: &[u8],
    forecast: &[u8],
    plan: &[u8],
) -> Result<Vec<u8>, Fault>
    ensures chart { IfOk result (λ text. ChartsWorth setup.now forecast.now plan.now text.items) }
    ensures refused { IfRefused no_memory result (IsFaultOf setup.now forecast.now plan.now) }
{
    let (problem, sheet) = read_texts(alloc, setup, forecast, plan)?;
    let worths = chart_worths(alloc, &problem)?;
    let picture = Picture::new(alloc, problem, sheet)?;
    Ok(draw(alloc, &picture.with_worth(worths))?)
}
