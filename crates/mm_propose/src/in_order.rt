//! The proposal that serves the stores in order.
ghost use Rattle.std.specs.Prelude.{IfOk};
ghost use Rattle.mm_plan.specs.Table.{HasShape};

use crate::order_cuts::cut_of_first;
use crate::profile::Profile;
use crate::proposal::Proposal;
use crate::serve::Service;
use crate::spans::{Span, spans_of};
use crate::stores::Stores;
use mm_plan::{Cut, NoMemory, Plan};
use mm_problem::{MAX_BLOCKS, Problem};
use std::alloc::Global;

// The cut with no stretch and no count.
fn no_cut(alloc: Global) -> Cut {
    Cut {
        stretches: Vec::new(alloc),
        by_channels: Vec::new(alloc),
    }
}

// A copy of the last cut, or the cut with no stretch if the list is empty.
fn last_cut(alloc: Global, cuts: &[Cut]) -> Result<Cut, NoMemory> {
    match cuts.last() {
        Some(cut) => Ok(Cut {
            stretches: Vec::from_slice(alloc, cut.stretches.as_slice())?,
            by_channels: Vec::from_slice(alloc, cut.by_channels.as_slice())?,
        }),
        None => Ok(no_cut(alloc)),
    }
}

// Writes what leaves a store in each span to the last step of the span.
fn write_profile(
    plan: &mut Plan,
    problem: &Problem,
    spans: &[Span],
    store: usize,
    profile: &Profile,
)
    requires { HasShape problem.now plan.old }
    ensures { HasShape problem.now plan.new }
{
    for (at, span) in spans.iter().enumerate() {
        if 0 < span.last && span.last <= problem.steps() && store < problem.stores() {
            plan.set(store, span.last, profile.dumped(at).min(MAX_BLOCKS));
        }
    }
}

/// A plan that is meant to serve the stores in order, and cuts of the first stores for the checker in `mm_cut`. It is
/// not promised that the plan fits, nor how much it loses.
pub fn propose_in_order(alloc: Global, problem: &Problem) -> Result<Proposal, NoMemory>
    ensures shape { IfOk result (λ proposal. HasShape problem.now proposal.plan) }
{
    let stores = Stores::of(problem);
    let spans = spans_of(alloc, problem)?;
    let spans = spans.as_slice();
    let mut service = Service::new(alloc, spans);
    let mut plan = Plan::zero(alloc, problem)?;
    let mut cuts = Vec::new(alloc);
    for _ in 0..problem.stores() {
        let before = service.lost;
        service.serve(&stores, spans)?;
        let cut = if before < service.lost {
            cut_of_first(
                alloc,
                problem,
                spans,
                service.profiles.as_slice(),
                &service.search.exhausted,
            )?
        } else {
            last_cut(alloc, cuts.as_slice())?
        };
        cuts.push(cut)?;
    }
    for (store, profile) in service.profiles.iter().enumerate() {
        write_profile(&mut plan, problem, spans, store, profile);
    }
    let cut = cuts.pop().unwrap_or_else(|| no_cut(alloc));
    Ok(Proposal {
        plan,
        cut,
        firsts: cuts,
    })
}
