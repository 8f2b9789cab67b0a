//! The search for where lost blocks could go instead: over the nodes of all spans, along each arc with residual
//! capacity.
use crate::node::Node;
use crate::sets::{NodeSet, StoreSet};
use crate::spans::Span;
use crate::stores::Stores;

// More than the batches of a span, and than the sweeps of a search.
const ROUNDS: u32 = 4096;

/// The nodes of a span that a search found, each with the number of its batch.
#[derive(Clone, Copy)]
pub(crate) struct Found {
    nodes: NodeSet,
    batches: [u16; 64],
}

impl Found {
    pub(crate) fn nothing() -> Found {
        Found {
            nodes: NodeSet::NONE,
            batches: [0; 64],
        }
    }

    pub(crate) fn nodes(&self) -> NodeSet {
        self.nodes
    }

    // The batch of a node, if it was found.
    pub(crate) fn batch(&self, node: Node) -> Option<u16> {
        if self.nodes.has(node) {
            Some(self.batches[node.place()])
        } else {
            None
        }
    }

    // Adds the nodes of one batch.
    fn add(&mut self, nodes: NodeSet, batch: u16) {
        let mut rest = nodes;
        for _ in 0..64 {
            let Some(place) = rest.first_place() else {
                break;
            };
            self.batches[place] = batch;
            rest = rest.rest();
        }
        self.nodes = self.nodes.either(nodes);
    }

    // Forgets all nodes.
    fn clear(&mut self) {
        self.nodes = NodeSet::NONE;
    }

    // Forgets a node to which no path leads.
    pub(crate) fn forget(&mut self, node: Node) {
        self.nodes = self.nodes.without(NodeSet::NONE.with(node));
    }
}

// Adds the nodes and all of the span that can be reached from them, batch by batch. Returns whether one was new.
fn reach(stores: &Stores, span: &mut Span, nodes: NodeSet, batch: &mut u16) -> bool {
    let mut new = nodes.without(span.found.nodes());
    if new.is_empty() {
        return false;
    }
    for _ in 0..ROUNDS {
        if new.is_empty() {
            break;
        }
        *batch = batch.saturating_add(1);
        span.found.add(new, *batch);
        new = span.arcs.next(stores, new).without(span.found.nodes());
    }
    true
}

// Begins at the lost blocks of each span.
fn begin(stores: &Stores, spans: &mut [Span], batch: &mut u16) {
    for span in spans.iter_mut() {
        span.found.clear();
        let losing = NodeSet::ins(span.arcs.losing);
        reach(stores, span, losing, batch);
    }
}

// Reaches from each span to the next: a store can keep what it holds.
fn sweep_forward(stores: &Stores, spans: &mut [Span], batch: &mut u16) -> bool {
    let mut is_new = false;
    let mut kept = NodeSet::NONE;
    for span in spans.iter_mut() {
        is_new |= reach(stores, span, kept, batch);
        kept = NodeSet::ins(span.found.nodes().stores_out());
    }
    is_new
}

// What a store keeps it can let go before: from each span to the one before.
fn sweep_backward(stores: &Stores, spans: &mut [Span], batch: &mut u16) -> bool {
    let mut is_new = false;
    let mut coming = StoreSet::NONE;
    for span in spans.iter_mut().rev() {
        let kept = coming.both(span.arcs.keeping);
        is_new |= reach(stores, span, NodeSet::outs(kept), batch);
        coming = span.found.nodes().stores_in();
    }
    is_new
}

/// Finds all nodes to which lost blocks could go. Each but the first ones has an arc to it from one of a lower batch.
pub(crate) fn search(stores: &Stores, spans: &mut [Span]) {
    let mut batch = 0;
    begin(stores, spans, &mut batch);
    for _ in 0..ROUNDS {
        let forward = sweep_forward(stores, spans, &mut batch);
        let backward = sweep_backward(stores, spans, &mut batch);
        if !forward && !backward {
            break;
        }
    }
}
