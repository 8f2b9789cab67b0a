//! Paths that a lost block could take instead. They are walked backwards, from where the block would end.
use crate::node::{Node, Place};
use crate::spans::Span;
use crate::stores::Stores;
use mm_problem::{CHANNELS, MAX_STORES};

/// What an arc changes in its span, by store or by channel.
#[derive(Clone, Copy)]
pub(crate) enum Change {
    LoseLess(usize),
    HoldMore(usize),
    HoldLess(usize),
    KeepMore(usize),
    KeepLess(usize),
    DumpMore(usize),
    DumpLess(usize),
    SendMore(usize),
    SendLess(usize),
    IdleLess,
}

impl Change {
    // The greatest number of blocks that the change can take.
    pub(crate) fn capacity(self, stores: &Stores, span: &Span) -> u32 {
        match self {
            Change::LoseLess(store) => span.lost.of(store),
            Change::HoldMore(store) => stores.size(store).saturating_sub(span.held.of(store)),
            Change::HoldLess(store) => span.held.of(store),
            Change::KeepMore(_) => u32::MAX,
            Change::KeepLess(store) => span.kept.of(store),
            Change::DumpMore(_) => u32::MAX,
            Change::DumpLess(store) => span.dumped.of(store),
            Change::SendMore(channel) => span
                .limits
                .of(channel)
                .saturating_sub(span.sent.of(channel)),
            Change::SendLess(channel) => span.sent.of(channel),
            Change::IdleLess => span.idle,
        }
    }

    // Changes the span, and updates its arcs.
    pub(crate) fn apply(self, stores: &Stores, span: &mut Span, blocks: u32) {
        match self {
            Change::LoseLess(store) => span.lost.take(store, blocks),
            Change::HoldMore(store) => span.held.add(store, blocks),
            Change::HoldLess(store) => span.held.take(store, blocks),
            Change::KeepMore(store) => span.kept.add(store, blocks),
            Change::KeepLess(store) => span.kept.take(store, blocks),
            Change::DumpMore(store) => span.dumped.add(store, blocks),
            Change::DumpLess(store) => span.dumped.take(store, blocks),
            Change::SendMore(channel) => span.sent.add(channel, blocks),
            Change::SendLess(channel) => span.sent.take(channel, blocks),
            Change::IdleLess => span.idle = span.idle.saturating_sub(blocks),
        }
        self.look_at_arcs(stores, span);
    }

    fn look_at_arcs(self, stores: &Stores, span: &mut Span) {
        let mut arcs = span.arcs;
        match self {
            Change::IdleLess => (),
            Change::SendMore(channel) | Change::SendLess(channel) => {
                arcs.look_at_channel(span, channel)
            }
            Change::LoseLess(store)
            | Change::HoldMore(store)
            | Change::HoldLess(store)
            | Change::KeepMore(store)
            | Change::KeepLess(store)
            | Change::DumpMore(store)
            | Change::DumpLess(store) => arcs.look_at_store(span, store, stores.size(store)),
        }
        span.arcs = arcs;
    }
}

/// An arc of a path: the node where it starts, and what it changes in a span.
#[derive(Clone, Copy)]
pub(crate) struct Link {
    pub(crate) from: Place,
    pub(crate) span: usize,
    pub(crate) change: Change,
}

impl Link {
    // The arc from a node of a span that changes that span.
    pub(crate) fn new(span: usize, node: Node, change: Change) -> Link {
        Link {
            from: Place { span, node },
            span,
            change,
        }
    }

    // How many more blocks can be moved along the arc.
    pub(crate) fn capacity(&self, stores: &Stores, spans: &[Span]) -> u32 {
        match spans.get(self.span) {
            Some(span) => self.change.capacity(stores, span),
            None => 0,
        }
    }
}

// The best arc so far: it starts at a node of the lowest batch.
#[derive(Clone, Copy)]
struct Choice {
    batch: u16,
    link: Option<Link>,
}

impl Choice {
    // Considers an arc with capacity, and the batch in which its start was found.
    fn consider(&mut self, batch: Option<u16>, link: Link) {
        if let Some(batch) = batch {
            if batch < self.batch {
                self.batch = batch;
                self.link = Some(link);
            }
        }
    }

    // Considers the arcs to the input of a store: it kept more blocks before, or holds fewer.
    fn into_store(&mut self, before: Option<&Span>, span: &Span, at: usize, store: usize) {
        let out = Node::Out(store);
        if let Some(before) = before {
            let keep = Link::new(at.saturating_sub(1), out, Change::KeepMore(store));
            self.consider(before.found.batch(out), keep);
        }
        if span.arcs.holding.has(store) {
            let hold = Link::new(at, out, Change::HoldLess(store));
            self.consider(span.found.batch(out), hold);
        }
    }

    // Considers the arcs to what a store holds: more blocks come in, or fewer leave.
    fn out_of_store(&mut self, stores: &Stores, span: &Span, at: usize, store: usize) {
        if span.arcs.roomy.has(store) {
            let hold = Link::new(at, Node::In(store), Change::HoldMore(store));
            self.consider(span.found.batch(Node::In(store)), hold);
        }
        if span.arcs.dumping.has(store) {
            let channel = Node::Channel(stores.channel(store));
            let dump = Link::new(at, channel, Change::DumpLess(store));
            self.consider(span.found.batch(channel), dump);
        }
    }

    // Considers the arc from the next span: fewer blocks are kept.
    fn not_kept(&mut self, after: Option<&Span>, span: &Span, at: usize, store: usize) {
        let Some(after) = after else {
            return;
        };
        if span.arcs.keeping.has(store) {
            let from = Place {
                span: at.saturating_add(1),
                node: Node::In(store),
            };
            let change = Change::KeepLess(store);
            let keep = Link {
                from,
                span: at,
                change,
            };
            self.consider(after.found.batch(Node::In(store)), keep);
        }
    }

    // Considers the arcs to a channel: from its stores, and from the pass.
    fn to_channel(&mut self, stores: &Stores, span: &Span, at: usize, channel: usize) {
        let mut rest = stores
            .of_channel(channel)
            .both(span.found.nodes().stores_out());
        for _ in 0..MAX_STORES {
            let Some(store) = rest.first() else {
                break;
            };
            let dump = Link::new(at, Node::Out(store), Change::DumpMore(store));
            self.consider(span.found.batch(Node::Out(store)), dump);
            rest = rest.rest();
        }
        if span.arcs.sending.has(Node::Channel(channel)) {
            let send = Link::new(at, Node::Pass, Change::SendLess(channel));
            self.consider(span.found.batch(Node::Pass), send);
        }
    }

    // Considers the arcs to the pass.
    fn to_pass(&mut self, span: &Span, at: usize) {
        let mut rest = span.found.nodes().both(span.arcs.open);
        for _ in 0..CHANNELS {
            let Some(channel) = rest.first_channel() else {
                break;
            };
            let node = Node::Channel(channel);
            let send = Link::new(at, node, Change::SendMore(channel));
            self.consider(span.found.batch(node), send);
            rest = rest.rest();
        }
    }
}

// The span before one.
fn span_before(spans: &[Span], at: usize) -> Option<&Span> {
    spans.get(at.checked_sub(1)?)
}

/// The arc to a place from a node of a lower batch, if one with capacity is left.
pub(crate) fn link_to(stores: &Stores, spans: &[Span], place: Place) -> Option<Link> {
    let at = place.span;
    let span = spans.get(at)?;
    let mut choice = Choice {
        batch: span.found.batch(place.node)?,
        link: None,
    };
    match place.node {
        Node::In(store) => choice.into_store(span_before(spans, at), span, at, store),
        Node::Out(store) => {
            choice.out_of_store(stores, span, at, store);
            choice.not_kept(spans.get(at.saturating_add(1)), span, at, store);
        }
        Node::Channel(channel) => choice.to_channel(stores, span, at, channel),
        Node::Pass => choice.to_pass(span, at),
    }
    choice.link
}

/// The arc on which lost blocks enter at a place, if there are any.
pub(crate) fn lost_to(spans: &[Span], place: Place) -> Option<Link> {
    let Node::In(store) = place.node else {
        return None;
    };
    if !spans.get(place.span)?.arcs.losing.has(store) {
        return None;
    }
    Some(Link::new(place.span, place.node, Change::LoseLess(store)))
}
