//! A problem whose first step has begun.
ghost use Rattle.std.specs.Prelude.{◌≡◌, ◌<◌, ◌≤◌, IfOk, None, Ok, flat_map, length, map, slice_index_or};
ghost use Rattle.mm_problem.specs.Data.{limited_by as with_limits, problem_from};
ghost use Rattle.mm_problem.specs.Dumping.{IsDumping, steps, stores};
ghost use Rattle.mm_problem.specs.Forecast.{limits_of};
ghost use Rattle.mm_rest.specs.Halts.{arrivals_left, begun, limit_left, limited_by, window_left};

use mm_base::{CHANNELS, LimitRow, NoMemory, StoreRow};
use mm_problem::Problem;
use std::alloc::Global;

// What is left of each channel's limit in a step, in blocks.
type LimitsLeft = [Option<u32>; CHANNELS];

// The window of a step; of the first one this is left.
fn window_left(problem: &Problem, left: u32, step: u32) -> u32
    requires first { 1 ≤ step }
    requires last { step ≤ length problem.now.windows }
    ensures { result ≡ window_left problem.now left step }
{
    if step == 1 {
        left
    } else {
        problem.window(step)
    }
}

// What arrives in a store in a step; nothing in the first one.
fn arrivals_left(problem: &Problem, step: u32, store: usize) -> u32
    requires store { store < length problem.now.rows }
    requires first { 1 ≤ step }
    requires last { step ≤ length problem.now.windows }
    ensures { result ≡ arrivals_left problem.now step store }
{
    if step == 1 {
        0
    } else {
        problem.arrivals(store, step)
    }
}

// What is left of a channel's limit.
fn left_of(left: &LimitsLeft, channel: u8) -> Option<u32>
    ensures { result ≡ slice_index_or left.now channel None }
{
    left.get(channel as usize).copied().unwrap_or(None)
}

// The limit of a channel in a step; of that of the first one this is left.
fn limit_left(problem: &Problem, left: &LimitsLeft, step: u32, channel: u8) -> u32
    requires first { 1 ≤ step }
    requires last { step ≤ length problem.now.windows }
    ensures { result ≡ limit_left problem.now left.now step channel }
{
    let limit = if step == 1 {
        left_of(left, channel)
    } else {
        problem.limit(channel, step)
    };
    limit.unwrap_or(0)
}

// The channels with a limit of which something is left.
fn limited(alloc: Global, problem: &Problem, left: &LimitsLeft) -> Result<Vec<u8>, NoMemory>
    ensures { IfOk result (λ limited. limited.items ≡ limited_by problem.now left.now) }
{
    let channels = (0..problem.channels()).filter(|channel| left_of(left, *channel).is_some());
    Ok(channels.collect(alloc)?)
}

// The windows of all steps.
fn windows(alloc: Global, problem: &Problem, left: u32) -> Result<Vec<u32>, NoMemory>
    ensures { IfOk result (λ windows. windows.items ≡ map (window_left problem.now left) (steps problem.now)) }
{
    let windows = (1..problem.steps() + 1).map(|step| window_left(problem, left, step));
    Ok(windows.collect(alloc)?)
}

// What arrives in a step.
fn arrivals_in(alloc: Global, problem: &Problem, step: u32) -> Result<Vec<u32>, NoMemory>
    requires first { 1 ≤ step }
    requires last { step ≤ length problem.now.windows }
    ensures { IfOk result (λ cells. cells.items ≡ map (arrivals_left problem.now step) (stores problem.now)) }
{
    let cells = (0..problem.stores()).map(|store| arrivals_left(problem, step, store));
    Ok(cells.collect(alloc)?)
}

// What arrives in all steps.
#[tactic(auto, using(crate::proofs::Ranges::drawing))]
fn arrived(alloc: Global, problem: &Problem) -> Result<Vec<u32>, NoMemory>
    ensures { IfOk result (λ cells. cells.items
        ≡ flat_map (λ t. map (arrivals_left problem.now t) (stores problem.now)) (steps problem.now)) }
{
    let mut cells = Vec::new(alloc);
    for step in 1..problem.steps() + 1 {
        let arrivals = arrivals_in(alloc, problem, step)?;
        cells.extend_from_slice(&arrivals)?;
    }
    Ok(cells)
}

// The limits of these channels in a step.
fn limits_in(
    alloc: Global,
    problem: &Problem,
    left: &LimitsLeft,
    limited: &[u8],
    step: u32,
) -> Result<Vec<u32>, NoMemory>
    requires first { 1 ≤ step }
    requires last { step ≤ length problem.now.windows }
    ensures { IfOk result (λ cells. cells.items ≡ map (limit_left problem.now left.now step) limited.now) }
{
    let cells = limited
        .iter()
        .map(|channel| limit_left(problem, left, step, *channel));
    Ok(cells.collect(alloc)?)
}

// The limits of these channels in all steps.
#[tactic(auto, using(crate::proofs::Ranges::drawing))]
fn step_limits(
    alloc: Global,
    problem: &Problem,
    left: &LimitsLeft,
    limited: &[u8],
) -> Result<Vec<u32>, NoMemory>
    ensures { IfOk result (λ cells. cells.items
        ≡ flat_map (λ t. map (limit_left problem.now left.now t) limited.now) (steps problem.now)) }
{
    let mut cells = Vec::new(alloc);
    for step in 1..problem.steps() + 1 {
        let limits = limits_in(alloc, problem, left, limited, step)?;
        cells.extend_from_slice(&limits)?;
    }
    Ok(cells)
}

// The problem of these data. They are within their ranges, so only memory is lacking.
fn problem_of(
    alloc: Global,
    stores: &[StoreRow],
    limits: &[LimitRow],
    windows: &[u32],
    arrived: &[u32],
) -> Result<Problem, NoMemory>
    ensures { IfOk result (λ whole. problem_from stores.now limits.now windows.now arrived.now ≡ Ok whole) }
{
    match Problem::new(alloc, stores, limits, windows, arrived) {
        Ok(whole) => Ok(whole),
        Err(_) => Err(NoMemory),
    }
}

// The problem with these limits by step. They are within their ranges, so only memory is lacking.
fn with_limits(
    alloc: Global,
    problem: &Problem,
    limited: &[u8],
    limits: &[u32],
) -> Result<Problem, NoMemory>
    ensures { IfOk result (λ new. with_limits problem.now limited.now limits.now ≡ Ok new) }
{
    match problem.with_step_limits(alloc, limited, limits) {
        Ok(new) => Ok(new),
        Err(_) => Err(NoMemory),
    }
}

/// The problem of these stores and limits, when its first step has begun: all that arrives in it is stored, and this is
/// left of its window and of the channels' limits. The other steps are as before.
pub(crate) fn begun(
    alloc: Global,
    stores: &[StoreRow],
    limits: &[LimitRow],
    problem: &Problem,
    window: u32,
    left: &LimitsLeft,
) -> Result<Problem, NoMemory>
    requires stores { problem.now.rows ≡ stores.now }
    requires limits { problem.now.limits ≡ limits_of limits.now }
    ensures problem { IfOk result (λ new. new ≡ begun problem.now window left.now) }
    ensures within { IfOk result IsDumping }
{
    let windows = windows(alloc, problem, window)?;
    let arrived = arrived(alloc, problem)?;
    let limited = limited(alloc, problem, left)?;
    let by_step = step_limits(alloc, problem, left, &limited)?;
    let whole = problem_of(alloc, stores, limits, &windows, &arrived)?;
    let new = with_limits(alloc, &whole, &limited, &by_step)?;
    // Its numbers are within their ranges, as `steps` ensures.
    let _steps = new.steps();
    Ok(new)
}
