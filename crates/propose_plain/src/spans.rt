//! Spans: joined steps of which only the last has a window. What arrives in them is lost or kept as if it came at once.
ghost use Rattle.std.specs.Prelude.{◌≤◌, length};

use crate::amounts::Amounts;
use crate::arcs::Arcs;
use crate::search::Found;
use mm_plan::NoMemory;
use mm_problem::{CHANNELS, Problem};
use std::alloc::Global;

/// A span, and what a plan does in it.
#[derive(Clone, Copy)]
pub(crate) struct Span {
    /// The first of its steps.
    pub(crate) first: u32,
    /// The last of its steps, which may have a window.
    pub(crate) last: u32,
    /// What arrived in each store since the plan began, with its start volume.
    pub(crate) arrived: Amounts,
    /// The limit of each channel, `u32::MAX` if it is not below the window.
    pub(crate) limits: Amounts,
    /// What each store loses.
    pub(crate) lost: Amounts,
    /// What each store holds before blocks leave it.
    pub(crate) held: Amounts,
    /// What leaves each store.
    pub(crate) dumped: Amounts,
    /// What each store keeps at the end.
    pub(crate) kept: Amounts,
    /// What leaves through each channel.
    pub(crate) sent: Amounts,
    /// The unused part of the window.
    pub(crate) idle: u32,
    /// The arcs with residual capacity.
    pub(crate) arcs: Arcs,
    /// What the last search found here.
    pub(crate) found: Found,
}

// The limit of each channel in the window of a step.
fn limits_in(problem: &Problem, step: u32, window: u32) -> Amounts
    requires first { 1 ≤ step }
    requires last { step ≤ length problem.now.windows }
{
    let mut limits = Amounts::UNLIMITED;
    for channel in 0..CHANNELS as u8 {
        if let Some(blocks) = problem.limit(channel, step) {
            if blocks < window {
                limits.set(channel as usize, blocks);
            }
        }
    }
    limits
}

// What each store holds at the start of the plan.
fn starts(problem: &Problem) -> Amounts {
    let mut starts = Amounts::NOTHING;
    for store in 0..problem.stores() {
        starts.set(store, problem.start(store));
    }
    starts
}

// Adds the arrivals of a step.
fn add_arrivals(arrived: &mut Amounts, problem: &Problem, step: u32)
    requires first { 1 ≤ step }
    requires last { step ≤ length problem.now.windows }
{
    for store in 0..problem.stores() {
        arrived.add(store, problem.arrivals(store, step));
    }
}

// A span in which no block has left yet.
fn empty_span(problem: &Problem, first: u32, last: u32, arrived: Amounts, window: u32) -> Span
    requires first { 1 ≤ last }
    requires last { last ≤ length problem.now.windows }
{
    Span {
        first,
        last,
        arrived,
        limits: limits_in(problem, last, window),
        lost: Amounts::NOTHING,
        held: Amounts::NOTHING,
        dumped: Amounts::NOTHING,
        kept: Amounts::NOTHING,
        sent: Amounts::NOTHING,
        idle: window,
        arcs: Arcs::NONE,
        found: Found::nothing(),
    }
}

/// The spans of a problem. Each step without a window is joined to the next step that has one; the last steps without a
/// window are a span too.
pub(crate) fn spans_of(alloc: Global, problem: &Problem) -> Result<Vec<Span>, NoMemory> {
    let steps = problem.steps();
    let mut spans = Vec::with_capacity(alloc, steps as usize)?;
    let mut arrived = starts(problem);
    let mut first = 1;
    for step in 1..steps + 1 {
        add_arrivals(&mut arrived, problem, step);
        let window = problem.window(step);
        if window > 0 || step == steps {
            spans.push(empty_span(problem, first, step, arrived, window))?;
            first = step + 1;
        }
    }
    Ok(spans)
}
