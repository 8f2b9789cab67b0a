//! The search for where lost blocks could go instead: over the nodes of all spans, along each arc with residual
//! capacity.
use crate::node::Node;
use crate::sets::NodeSet;
use crate::slots::Row;
use crate::span_sets::SpanSet;
use crate::spans::Span;
use crate::stores::Stores;

// More than the batches of a span, and than the sweeps of a search.
const ROUNDS: u32 = 4096;

/// The nodes of a span that a search found, each with the number of its batch.
#[derive(Clone, Copy)]
pub(crate) struct Found {
    nodes: NodeSet,
    batches: [u16; 64],
}

impl Found {
    pub(crate) const NOTHING: Found = Found {
        nodes: NodeSet::NONE,
        batches: [0; 64],
    };

    pub(crate) fn nodes(&self) -> NodeSet {
        self.nodes
    }

    // The batch of a node, if it was found.
    pub(crate) fn batch(&self, node: Node) -> Option<u16> {
        if self.nodes.has(node) {
            Some(self.batches[node.place()])
        } else {
            None
        }
    }

    // Adds the nodes of one batch.
    fn add(&mut self, nodes: NodeSet, batch: u16) {
        for place in nodes.places() {
            self.batches[place & 63] = batch;
        }
        self.nodes = self.nodes.either(nodes);
    }

    // Forgets all nodes.
    fn clear(&mut self) {
        self.nodes = NodeSet::NONE;
    }

    // Forgets a node to which no path leads.
    pub(crate) fn forget(&mut self, node: Node) {
        self.nodes = self.nodes.without(NodeSet::NONE.with(node));
    }
}

// The progress of a search: the number of its last batch, and the spans to visit again, since new nodes were found in
// the span before (`forward`) or after (`backward`).
#[derive(Clone, Copy)]
struct Progress {
    batch: u16,
    forward: SpanSet,
    backward: SpanSet,
}

impl Progress {
    // The progress before any node is found.
    fn new() -> Progress {
        Progress {
            batch: 0,
            forward: SpanSet::NONE,
            backward: SpanSet::NONE,
        }
    }

    // Adds the nodes and all of the span that can be reached from them, batch by batch. Returns whether one was new.
    fn reach(&mut self, stores: &Stores, spans: &mut [Span], at: usize, nodes: NodeSet) -> bool {
        let last = spans.len().saturating_sub(1);
        let Some(span) = spans.get_mut(at) else {
            return false;
        };
        let mut new = nodes.without(span.found.nodes());
        if new.is_empty() {
            return false;
        }
        for _ in 0..ROUNDS {
            if new.is_empty() {
                break;
            }
            self.batch = self.batch.saturating_add(1);
            span.found.add(new, self.batch);
            new = span.arcs.next(stores, new).without(span.found.nodes());
        }
        if at < last {
            self.forward.add(at.saturating_add(1));
        }
        if at > 0 {
            self.backward.add(at.saturating_sub(1));
        }
        true
    }

    // Starts at the stores that lose blocks in each span.
    fn begin(&mut self, stores: &Stores, spans: &mut [Span]) {
        for at in 0..spans.len() {
            if let Some(span) = spans.get_mut(at) {
                span.found.clear();
                let losing = span.arcs.of_row(Row::Lost);
                if !losing.is_empty() {
                    self.reach(stores, spans, at, NodeSet::ins(losing));
                }
            }
        }
    }

    // Reaches from each span to the next: a store can keep what it holds.
    fn sweep_forward(&mut self, stores: &Stores, spans: &mut [Span]) -> bool {
        let mut is_new = false;
        let mut from = 0;
        for _ in 0..spans.len() {
            let Some(at) = self.forward.first_from(from) else {
                break;
            };
            self.forward.remove(at);
            let kept = found_in(spans, at.saturating_sub(1)).stores_out();
            is_new |= self.reach(stores, spans, at, NodeSet::ins(kept));
            from = at;
        }
        is_new
    }

    // Reaches from each span to the previous one: a store can dump earlier what it keeps.
    fn sweep_backward(&mut self, stores: &Stores, spans: &mut [Span]) -> bool {
        let mut is_new = false;
        for _ in 0..spans.len() {
            let Some(at) = self.backward.last() else {
                break;
            };
            self.backward.remove(at);
            let coming = found_in(spans, at.saturating_add(1)).stores_in();
            if let Some(span) = spans.get(at) {
                let kept = coming.both(span.arcs.of_row(Row::Kept));
                is_new |= self.reach(stores, spans, at, NodeSet::outs(kept));
            }
        }
        is_new
    }

    // Sweeps until no new node is found.
    fn sweep(&mut self, stores: &Stores, spans: &mut [Span]) {
        for _ in 0..ROUNDS {
            let forward = self.sweep_forward(stores, spans);
            let backward = self.sweep_backward(stores, spans);
            if !forward && !backward {
                break;
            }
        }
    }
}

// The nodes found in a span.
fn found_in(spans: &[Span], at: usize) -> NodeSet {
    match spans.get(at) {
        Some(span) => span.found.nodes(),
        None => NodeSet::NONE,
    }
}

/// Finds all nodes that lost blocks could reach. Each node except the first ones has an arc from a node of a lower
/// batch. A sweep visits only spans beside one with new nodes.
pub(crate) fn search(stores: &Stores, spans: &mut [Span]) {
    let mut progress = Progress::new();
    progress.begin(stores, spans);
    progress.sweep(stores, spans);
}
