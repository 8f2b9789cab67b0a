//! The proposal: a plan, and a cut that may show that it loses least.
ghost use Rattle.std.specs.Prelude.{◌≤◌, length, IfOk};
ghost use Rattle.mm_plan.specs.Table.{HasShape};

use crate::arcs::Arcs;
use crate::cuts::{counts_of, stretches_of};
use crate::greedy::dump_by_next_overflow;
use crate::moves::{Walks, move_lost};
use crate::search::search;
use crate::spans::{Span, spans_of};
use crate::stores::Stores;
use mm_plan::{Cut, NoMemory, Plan};
use mm_problem::{MAX_BLOCKS, Problem};
use mm_propose::Proposal;
use std::alloc::Global;

// The most searches. Few problems need more than ten.
const SEARCHES: u32 = 256;

// Writes what leaves the stores in a span to the last step of the span.
fn write_span(plan: &mut Plan, problem: &Problem, span: &Span)
    requires { HasShape problem.now plan.old }
    ensures { HasShape problem.now plan.new }
{
    if span.last == 0 || problem.steps() < span.last {
        return;
    }
    for store in 0..problem.stores() {
        plan.set(store, span.last, span.dumped.of(store).min(MAX_BLOCKS));
    }
}

// The plan of the spans.
fn plan_of(alloc: Global, problem: &Problem, spans: &[Span]) -> Result<Plan, NoMemory>
    ensures { IfOk result (HasShape problem.now) }
{
    let mut plan = Plan::zero(alloc, problem)?;
    for span in spans.iter() {
        write_span(&mut plan, problem, span);
    }
    Ok(plan)
}

// Finds the arcs with residual capacity in each span.
fn look_at_arcs(stores: &Stores, spans: &mut [Span]) {
    for span in spans.iter_mut() {
        let arcs = Arcs::of(stores, span);
        span.arcs = arcs;
    }
}

// Moves lost blocks as long as a search finds a path. The last search gives the cut.
fn improve(alloc: Global, stores: &Stores, spans: &mut [Span]) -> Result<(), NoMemory> {
    let mut walks = Walks::new(alloc);
    look_at_arcs(stores, spans);
    for _ in 0..SEARCHES {
        search(stores, spans);
        if !move_lost(stores, spans, &mut walks)? {
            break;
        }
    }
    Ok(())
}

/// A plan for the problem and a cut, which `verify` (mm_cut) can look at. Nothing is promised of what the plan loses,
/// nor that it fits.
pub fn propose(alloc: Global, problem: &Problem) -> Result<Proposal, NoMemory>
    ensures shape { IfOk result (λ proposal. HasShape problem.now proposal.plan) }
{
    let stores = Stores::of(problem);
    let mut spans = spans_of(alloc, problem)?;
    dump_by_next_overflow(&stores, spans.as_mut_slice());
    improve(alloc, &stores, spans.as_mut_slice())?;
    Ok(Proposal {
        plan: plan_of(alloc, problem, spans.as_slice())?,
        cut: Cut {
            stretches: stretches_of(alloc, problem, spans.as_slice())?,
            by_channels: counts_of(alloc, spans.as_slice())?,
        },
        firsts: Vec::new(alloc),
    })
}

/// The plan before lost blocks are moved.
pub fn first_plan(alloc: Global, problem: &Problem) -> Result<Plan, NoMemory>
    ensures shape { IfOk result (HasShape problem.now) }
{
    let stores = Stores::of(problem);
    let mut spans = spans_of(alloc, problem)?;
    dump_by_next_overflow(&stores, spans.as_mut_slice());
    plan_of(alloc, problem, spans.as_slice())
}
