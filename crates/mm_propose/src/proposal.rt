//! The proposal: a plan, and a cut that may show that it loses least.
ghost use Rattle.std.specs.Prelude.{◌≤◌, length, IfOk};
ghost use Rattle.mm_plan.specs.Table.{HasShape};

use crate::arcs::Arcs;
use crate::cuts::cut_of;
use crate::greedy::dump_by_next_overflow;
use crate::moves::{Walks, move_lost};
use crate::search::search;
use crate::slots::Slot;
use crate::spans::{Span, spans_of};
use crate::stores::Stores;
use mm_plan::{Cut, NoMemory, Plan};
use mm_problem::{MAX_BLOCKS, Problem};
use std::alloc::Global;

// The most searches. Few problems need more than ten.
const SEARCHES: u32 = 256;

/// A plan with the problem's stores and steps, and cuts. Nothing else is promised of them.
#[derive(Debug, Drop)]
pub struct Proposal {
    pub plan: Plan,
    /// The cut of all stores.
    pub cut: Cut,
    /// If the plan is meant to serve the stores in order, the cuts of the first store, of the first two and so on, up
    /// to all but one.
    pub firsts: Vec<Cut>,
}

// Writes what leaves the stores in a span to the last step of the span.
fn write_span(plan: &mut Plan, problem: &Problem, span: &Span)
    requires { HasShape problem.now plan.old }
    ensures { HasShape problem.now plan.new }
{
    if span.last == 0 || problem.steps() < span.last {
        return;
    }
    for store in 0..problem.stores() {
        plan.set(
            store,
            span.last,
            span.table.of(Slot::dumped(store)).min(MAX_BLOCKS),
        );
    }
}

/// The plan of the spans.
pub(crate) fn plan_of(alloc: Global, problem: &Problem, spans: &[Span]) -> Result<Plan, NoMemory>
    ensures { IfOk result (HasShape problem.now) }
{
    let mut plan = Plan::zero(alloc, problem)?;
    for span in spans.iter() {
        write_span(&mut plan, problem, span);
    }
    Ok(plan)
}

/// Finds the arcs with residual capacity in each span.
pub(crate) fn look_at_arcs(stores: &Stores, spans: &mut [Span]) {
    for span in spans.iter_mut() {
        let arcs = Arcs::of(stores, &span.table);
        span.arcs = arcs;
    }
}

// Moves lost blocks as long as a search finds a path. The last search gives the cut.
fn improve(alloc: Global, stores: &Stores, spans: &mut [Span]) -> Result<(), NoMemory> {
    let mut walks = Walks::new(alloc);
    look_at_arcs(stores, spans);
    for _ in 0..SEARCHES {
        search(stores, spans);
        if !move_lost(stores, spans, &mut walks)? {
            break;
        }
    }
    Ok(())
}

/// A plan for the problem, and a cut for `verify` of `mm_cut`. It is not promised that the plan fits, nor how much it
/// loses.
pub fn propose(alloc: Global, problem: &Problem) -> Result<Proposal, NoMemory>
    ensures shape { IfOk result (λ proposal. HasShape problem.now proposal.plan) }
{
    let stores = Stores::of(problem);
    let mut spans = spans_of(alloc, problem)?;
    if dump_by_next_overflow(&stores, spans.as_mut_slice()) {
        improve(alloc, &stores, spans.as_mut_slice())?;
    }
    let plan = plan_of(alloc, problem, spans.as_slice())?;
    let cut = cut_of(alloc, problem, spans.as_slice())?;
    let firsts = Vec::new(alloc);
    Ok(Proposal { plan, cut, firsts })
}
