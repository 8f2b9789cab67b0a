//! Which arcs of a span have residual capacity. The network itself is never built.
use crate::node::Node;
use crate::sets::{NodeSet, StoreSet};
use crate::spans::Span;
use crate::stores::Stores;
use mm_problem::{CHANNELS, MAX_STORES};

/// The arcs of a span with residual capacity, by their stores and channels.
#[derive(Clone, Copy)]
pub(crate) struct Arcs {
    /// The stores that lose blocks,
    pub(crate) losing: StoreSet,
    /// those that are not full,
    pub(crate) roomy: StoreSet,
    /// that hold blocks,
    pub(crate) holding: StoreSet,
    /// from which blocks leave,
    pub(crate) dumping: StoreSet,
    /// and that keep blocks.
    pub(crate) keeping: StoreSet,
    /// The channels that let more through,
    pub(crate) open: NodeSet,
    /// and those by which blocks leave.
    pub(crate) sending: NodeSet,
}

impl Arcs {
    pub(crate) const NONE: Arcs = Arcs {
        losing: StoreSet::NONE,
        roomy: StoreSet::NONE,
        holding: StoreSet::NONE,
        dumping: StoreSet::NONE,
        keeping: StoreSet::NONE,
        open: NodeSet::NONE,
        sending: NodeSet::NONE,
    };

    // The arcs of a span by its amounts.
    pub(crate) fn of(stores: &Stores, span: &Span) -> Arcs {
        let mut arcs = Arcs::NONE;
        for store in 0..stores.count() {
            arcs.look_at_store(span, store, stores.size(store));
        }
        for channel in 0..CHANNELS {
            arcs.look_at_channel(span, channel);
        }
        arcs
    }

    // Looks at the amounts of a store.
    pub(crate) fn look_at_store(&mut self, span: &Span, store: usize, size: u32) {
        let held = span.held.of(store);
        self.losing = self.losing.with_if(span.lost.of(store) > 0, store);
        self.roomy = self.roomy.with_if(held < size, store);
        self.holding = self.holding.with_if(held > 0, store);
        self.dumping = self.dumping.with_if(span.dumped.of(store) > 0, store);
        self.keeping = self.keeping.with_if(span.kept.of(store) > 0, store);
    }

    // Looks at the amounts of a channel.
    pub(crate) fn look_at_channel(&mut self, span: &Span, channel: usize) {
        let node = NodeSet::NONE.with(Node::Channel(channel));
        let sent = span.sent.of(channel);
        self.open = self.open.without(node);
        self.sending = self.sending.without(node);
        if sent < span.limits.of(channel) {
            self.open = self.open.either(node);
        }
        if sent > 0 {
            self.sending = self.sending.either(node);
        }
    }

    // The nodes of the span that one arc leads to from a given node.
    pub(crate) fn next(&self, stores: &Stores, nodes: NodeSet) -> NodeSet {
        let (coming, held) = (nodes.stores_in(), nodes.stores_out());
        let mut next = channels_of(stores, held);
        next = next.either(NodeSet::outs(coming.both(self.roomy)));
        next = next.either(NodeSet::ins(held.both(self.holding)));
        next = next.either(NodeSet::outs(stores_of_channels(stores, nodes).both(self.dumping)));
        if !nodes.both(self.open).is_empty() {
            next = next.with(Node::Pass);
        }
        if nodes.has(Node::Pass) {
            next = next.either(self.sending);
        }
        next
    }
}

// The channels to which the stores belong.
fn channels_of(stores: &Stores, held: StoreSet) -> NodeSet {
    let mut channels = NodeSet::NONE;
    let mut rest = held;
    for _ in 0..MAX_STORES {
        let Some(store) = rest.first() else {
            break;
        };
        channels = channels.with(Node::Channel(stores.channel(store)));
        rest = rest.rest();
    }
    channels
}

// The stores of the channels that are among the nodes.
fn stores_of_channels(stores: &Stores, nodes: NodeSet) -> StoreSet {
    let mut found = StoreSet::NONE;
    let mut rest = nodes.channels();
    for _ in 0..CHANNELS {
        let Some(channel) = rest.first_channel() else {
            break;
        };
        found = found.either(stores.of_channel(channel));
        rest = rest.rest();
    }
    found
}
