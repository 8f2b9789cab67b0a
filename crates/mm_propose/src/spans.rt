//! Spans: joined steps of which only the last has a window, and in which no size rises. What arrives in them is lost or
//! kept as if it came at once. Where arrivals come during dumps, a step with a window is a span of its own.
ghost use Rattle.std.specs.Prelude.{◌<◌, ◌≤◌, length};

use crate::amounts::Amounts;
use crate::arcs::Arcs;
use crate::search::Found;
use crate::slots::{Slot, Table};
use mm_plan::NoMemory;
use mm_problem::{Arrivals, CHANNELS, MAX_STEPS, Problem};
use std::alloc::Global;

/// A span, and what a plan does in it.
#[derive(Clone, Copy)]
pub(crate) struct Span {
    /// The last of its steps, which may have a window.
    pub(crate) last: u32,
    /// The amounts of its stores and channels.
    pub(crate) table: Table,
    /// The arcs with residual capacity.
    pub(crate) arcs: Arcs,
    /// What the last search found here.
    pub(crate) found: Found,
}

impl Span {
    const EMPTY: Span = Span {
        last: 0,
        table: Table::EMPTY,
        arcs: Arcs::NONE,
        found: Found::NOTHING,
    };
}

// The limit of each channel in a step, `u32::MAX` if it has none.
fn limits_of(problem: &Problem, step: u32) -> [u32; CHANNELS]
    requires first { 1 ≤ step }
    requires last { step ≤ length problem.now.windows }
{
    let mut limits = [u32::MAX; CHANNELS];
    for channel in 0..CHANNELS {
        if let Some(blocks) = problem.limit(channel as u8, step) {
            limits[channel] = blocks;
        }
    }
    limits
}

// What each store holds at the start of the plan.
fn starts(problem: &Problem) -> Amounts {
    let mut starts = Amounts::NOTHING;
    for store in 0..problem.stores() {
        starts.set(store, problem.start(store));
    }
    starts
}

// Adds the arrivals of a step.
fn add_arrivals(arrived: &mut Amounts, problem: &Problem, step: u32)
    requires first { 1 ≤ step }
    requires last { step ≤ length problem.now.windows }
{
    for store in 0..problem.stores() {
        arrived.add(store, problem.arrivals(store, step));
    }
}

// The limit of a channel in a window, `u32::MAX` if it is not below the window.
fn limit_in(limit: u32, window: u32) -> u32 {
    if limit < window { limit } else { u32::MAX }
}

// The size of each store in a step.
fn sizes_in(problem: &Problem, step: u32) -> Amounts
    requires first { 1 ≤ step }
    requires last { step ≤ length problem.now.windows }
{
    let mut sizes = Amounts::NOTHING;
    for store in 0..problem.stores() {
        sizes.set(store, problem.size(store, step));
    }
    sizes
}

// Whether some size rises from a step to the next.
fn rises(problem: &Problem, step: u32) -> bool
    requires first { 1 ≤ step }
    requires last { step < length problem.now.windows }
{
    let mut sized = problem.sized().iter();
    sized.any(|store| {
        let store = *store as usize;
        store < problem.stores() && problem.size(store, step) < problem.size(store, step + 1)
    })
}

// Whether a step without a window ends a span, though another step follows.
fn ends_early(problem: &Problem, step: u32) -> bool
    requires first { 1 ≤ step }
    requires last { step < length problem.now.windows }
{
    // the number of the next step fits
    prove!(problem.steps() <= MAX_STEPS);
    let opens = problem.come() == Arrivals::During && problem.window(step + 1) > 0;
    opens || rises(problem, step)
}

// Writes the amounts of a span in which no block has left yet. The room of a store is its size until blocks arrive.
fn begin(
    table: &mut Table,
    arrived: &Amounts,
    sizes: &Amounts,
    limits: &[u32; CHANNELS],
    window: u32,
) {
    for store in 0..16 {
        table.set(Slot::arrived(store), arrived.of(store));
        table.set(Slot::room(store), sizes.of(store));
    }
    for channel in 0..CHANNELS {
        let open = limit_in(limits[channel], window);
        table.set(Slot::open(channel), open);
    }
    table.set(Slot::IDLE, window);
    table.set(Slot::ENDLESS, u32::MAX);
}

/// The spans of a problem. Each step without a window is joined to the next step that has one, as far as spans allow;
/// the last steps without a window are a span too.
pub(crate) fn spans_of(alloc: Global, problem: &Problem) -> Result<Vec<Span>, NoMemory> {
    let steps = problem.steps();
    let by_step = !problem.limited().is_empty();
    let is_flyable = problem.is_flyable();
    let has_sizes = !problem.sized().is_empty();
    let mut limits = limits_of(problem, 1);
    let mut sizes = sizes_in(problem, 1);
    let mut spans = Vec::with_capacity(alloc, steps as usize)?;
    let mut arrived = starts(problem);
    for step in 1..steps + 1 {
        add_arrivals(&mut arrived, problem, step);
        let window = problem.window(step);
        if window > 0 || step == steps || !is_flyable && ends_early(problem, step) {
            if by_step {
                limits = limits_of(problem, step);
            }
            if has_sizes {
                sizes = sizes_in(problem, step);
            }
            let at = spans.len();
            spans.push(Span::EMPTY)?;
            if let Some(span) = spans.get_mut(at) {
                span.last = step;
                begin(&mut span.table, &arrived, &sizes, &limits, window);
            }
        }
    }
    Ok(spans)
}
