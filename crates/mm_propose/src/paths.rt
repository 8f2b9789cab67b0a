//! Paths that a lost block could take instead. They are walked backwards, from where the block would end.
use crate::node::{Node, NodeKind, Place};
use crate::slots::{Row, Slot};
use crate::spans::Span;
use crate::stores::Stores;
use mm_problem::Arrivals;

/// An arc of a path: the node where it starts, and the two slots of a span between which it moves blocks.
#[derive(Clone, Copy)]
pub(crate) struct Link {
    pub(crate) from: Place,
    pub(crate) span: usize,
    /// The bottleneck of the path up to this arc.
    pub(crate) bottleneck: u32,
    takes: Slot,
    gives: Slot,
}

impl Link {
    // The arc from a node of a span that changes that span.
    pub(crate) fn new(span: usize, node: Node, takes: Slot, gives: Slot) -> Link {
        Link {
            from: Place { span, node },
            span,
            bottleneck: u32::MAX,
            takes,
            gives,
        }
    }

    // The arc by which more is sent in the window.
    pub(crate) fn into_window(span: usize) -> Link {
        Link::new(span, Node::PASS, Slot::IDLE, Slot::OUTSIDE)
    }

    // The arc by which a store keeps more.
    pub(crate) fn keep_more(span: usize, store: usize) -> Link {
        let out = Node::out_of_store(store);
        Link::new(span, out, Slot::ENDLESS, Slot::kept(store))
    }

    // How many more blocks can be moved along the arc.
    pub(crate) fn capacity(&self, spans: &[Span]) -> u32 {
        match spans.get(self.span) {
            Some(span) => span.table.of(self.takes),
            None => 0,
        }
    }

    // Moves blocks along the arc. Returns how many more can be moved then.
    pub(crate) fn apply(&self, spans: &mut [Span], blocks: u32) -> u32 {
        let Some(span) = spans.get_mut(self.span) else {
            return 0;
        };
        span.table.shift(self.takes, self.gives, blocks);
        span.arcs.look_at(&span.table, self.takes);
        span.arcs.look_at(&span.table, self.gives);
        span.table.of(self.takes)
    }
}

// The best arc so far: it starts at a node of the lowest batch.
#[derive(Clone, Copy)]
struct Choice {
    batch: u16,
    link: Option<Link>,
}

impl Choice {
    // Considers an arc with capacity, and the batch in which its start was found.
    fn consider(&mut self, batch: Option<u16>, link: Link) {
        if let Some(batch) = batch {
            if batch < self.batch {
                self.batch = batch;
                self.link = Some(link);
            }
        }
    }

    // Considers the arcs to the input of a store: it kept more blocks before, or holds fewer.
    fn into_store(&mut self, before: Option<&Span>, span: &Span, at: usize, store: usize) {
        let out = Node::out_of_store(store);
        if let Some(before) = before {
            let keep = Link::keep_more(at.saturating_sub(1), store);
            self.consider(before.found.batch(out), keep);
        }
        if span.arcs.has_capacity(Slot::held(store)) {
            let hold = Link::new(at, out, Slot::held(store), Slot::room(store));
            self.consider(span.found.batch(out), hold);
        }
    }

    // Considers the arc to what a store holds: more blocks come in.
    fn out_of_store(&mut self, span: &Span, at: usize, store: usize) {
        if span.arcs.has_capacity(Slot::room(store)) {
            let node = Node::into_store(store);
            let hold = Link::new(at, node, Slot::room(store), Slot::held(store));
            self.consider(span.found.batch(node), hold);
        }
    }

    // Considers the arc from the channel of a store: fewer blocks leave.
    fn not_dumped(&mut self, stores: &Stores, span: &Span, at: usize, store: usize) {
        if span.arcs.has_capacity(Slot::dumped(store)) {
            let node = Node::channel(stores.channel(store));
            let dump = Link::new(at, node, Slot::dumped(store), Slot::OUTSIDE);
            self.consider(span.found.batch(node), dump);
        }
    }

    // Considers the arc from the next span: fewer blocks are kept.
    fn not_kept(&mut self, after: Option<&Span>, span: &Span, at: usize, store: usize) {
        let Some(after) = after else {
            return;
        };
        if span.arcs.has_capacity(Slot::kept(store)) {
            let node = Node::into_store(store);
            let mut keep = Link::new(at, node, Slot::kept(store), Slot::OUTSIDE);
            keep.from.span = at.saturating_add(1);
            self.consider(after.found.batch(node), keep);
        }
    }

    // Considers the arcs to a channel: from its stores, and from the pass.
    fn to_channel(&mut self, stores: &Stores, span: &Span, at: usize, channel: usize) {
        let nodes = span.found.nodes();
        let dumping = match stores.come() {
            Arrivals::Before => nodes.stores_out(),
            Arrivals::During => nodes.stores_in(),
        };
        for store in stores.of_channel(channel).both(dumping).iter() {
            let node = Node::dumping(stores.come(), store);
            let dump = Link::new(at, node, Slot::ENDLESS, Slot::dumped(store));
            self.consider(span.found.batch(node), dump);
        }
        if span.arcs.has_capacity(Slot::sent(channel)) {
            let send = Link::new(at, Node::PASS, Slot::sent(channel), Slot::open(channel));
            self.consider(span.found.batch(Node::PASS), send);
        }
    }

    // Considers the arcs to the pass.
    fn to_pass(&mut self, span: &Span, at: usize) {
        let open = span.arcs.of_row(Row::Open);
        for channel in span.found.nodes().channels().both(open).iter() {
            let node = Node::channel(channel);
            let send = Link::new(at, node, Slot::open(channel), Slot::sent(channel));
            self.consider(span.found.batch(node), send);
        }
    }
}

// The span before one.
fn span_before(spans: &[Span], at: usize) -> Option<&Span> {
    spans.get(at.checked_sub(1)?)
}

/// The arc to a place from a node of a lower batch, if one with capacity is left.
pub(crate) fn link_to(stores: &Stores, spans: &[Span], place: Place) -> Option<Link> {
    let at = place.span;
    let span = spans.get(at)?;
    let mut choice = Choice {
        batch: span.found.batch(place.node)?,
        link: None,
    };
    match place.node.kind() {
        NodeKind::In(store) => {
            choice.into_store(span_before(spans, at), span, at, store);
            if stores.come() == Arrivals::During {
                choice.not_dumped(stores, span, at, store);
            }
        }
        NodeKind::Out(store) => {
            choice.out_of_store(span, at, store);
            if stores.come() == Arrivals::Before {
                choice.not_dumped(stores, span, at, store);
            }
            choice.not_kept(spans.get(at.saturating_add(1)), span, at, store);
        }
        NodeKind::Channel(channel) => choice.to_channel(stores, span, at, channel),
        NodeKind::Pass => choice.to_pass(span, at),
    }
    choice.link
}

/// The arc on which lost blocks enter at a place, if there are any.
pub(crate) fn lost_to(spans: &[Span], place: Place) -> Option<Link> {
    let NodeKind::In(store) = place.node.kind() else {
        return None;
    };
    let lost = Slot::lost(store);
    if !spans.get(place.span)?.arcs.has_capacity(lost) {
        return None;
    }
    Some(Link::new(place.span, place.node, lost, Slot::OUTSIDE))
}
