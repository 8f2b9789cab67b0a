//! The cut that a search gives: for each store, the runs of spans that lost blocks could reach.
ghost use Rattle.std.specs.Prelude.{◌<◌, length};

use crate::node::Node;
use crate::sets::{NodeSet, StoreSet};
use crate::spans::Span;
use mm_plan::{Cut, NoMemory, Stretch};
use mm_problem::{Arrivals, Problem};
use std::alloc::Global;

// Whether a run of the store continues after the span: its blocks could be held there, and then be kept.
fn goes_on(nodes: NodeSet, store: usize) -> bool {
    nodes.has(Node::into_store(store)) && nodes.has(Node::out_of_store(store))
}

// Whether a run of the store ends in the span: it is full there.
fn is_end(nodes: NodeSet, store: usize) -> bool {
    nodes.has(Node::into_store(store)) && !nodes.has(Node::out_of_store(store))
}

// Adds the runs of one store. Each has all steps of its spans.
fn add_runs(
    cut: &mut Vec<Stretch>,
    problem: &Problem,
    spans: &[Span],
    store: usize,
) -> Result<(), NoMemory>
    requires { store < length problem.now.rows }
{
    let id = problem.id(store);
    let mut first = 1;
    for span in spans.iter() {
        let nodes = span.found.nodes();
        if is_end(nodes, store) {
            cut.push(Stretch {
                store: id,
                first,
                last: span.last,
            })?;
        }
        if !goes_on(nodes, store) {
            first = span.last.saturating_add(1);
        }
    }
    Ok(())
}

// The stores whose in-node was found in some span.
fn stores_reached(spans: &[Span]) -> StoreSet {
    let mut reached = StoreSet::NONE;
    for span in spans.iter() {
        reached = reached.either(span.found.nodes().stores_in());
    }
    reached
}

// The stretches of the cut.
fn stretches_of(
    alloc: Global,
    problem: &Problem,
    spans: &[Span],
) -> Result<Vec<Stretch>, NoMemory> {
    let mut cut = Vec::new(alloc);
    let reached = stores_reached(spans);
    for store in 0..problem.stores() {
        if reached.has(store) {
            add_runs(&mut cut, problem, spans, store)?;
        }
    }
    Ok(cut)
}

// The stores in whose runs a span's last step is inner.
fn inner_stores(come: Arrivals, nodes: NodeSet) -> StoreSet {
    match come {
        Arrivals::Before => nodes.stores_in().both(nodes.stores_out()),
        Arrivals::During => nodes.stores_in(),
    }
}

// Whether the span's last step is counted by channels: it is inner in the run of a store, and the pass is not reached.
fn is_by_channels(come: Arrivals, nodes: NodeSet) -> bool {
    !nodes.has(Node::PASS) && !inner_stores(come, nodes).is_empty()
}

// The steps of the cut that are counted by channels.
fn counts_of(alloc: Global, come: Arrivals, spans: &[Span]) -> Result<Vec<u32>, NoMemory> {
    let mut counts = Vec::new(alloc);
    for span in spans.iter() {
        if is_by_channels(come, span.found.nodes()) {
            counts.push(span.last)?;
        }
    }
    Ok(counts)
}

/// The cut that the last search gives.
pub(crate) fn cut_of(alloc: Global, problem: &Problem, spans: &[Span]) -> Result<Cut, NoMemory> {
    Ok(Cut {
        stretches: stretches_of(alloc, problem, spans)?,
        by_channels: counts_of(alloc, problem.come(), spans)?,
    })
}
