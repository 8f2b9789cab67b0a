//! Which arcs of a span have residual capacity. The network itself is never built.
use crate::node::Node;
use crate::sets::{NodeSet, StoreSet};
use crate::slots::{Row, Slot, Table};
use crate::stores::Stores;
use mm_problem::{Arrivals, CHANNELS};

/// The arcs of a span with residual capacity: in each row of its table, the slots whose amount is not zero.
#[derive(Clone, Copy)]
pub(crate) struct Arcs([StoreSet; 8]);

impl Arcs {
    pub(crate) const NONE: Arcs = Arcs([StoreSet::NONE; 8]);

    // The arcs of a span by its amounts.
    pub(crate) fn of(stores: &Stores, table: &Table) -> Arcs {
        let mut arcs = Arcs::NONE;
        for store in 0..stores.count() {
            arcs.add(table, Slot::lost(store));
            arcs.add(table, Slot::room(store));
            arcs.add(table, Slot::held(store));
            arcs.add(table, Slot::kept(store));
            arcs.add(table, Slot::dumped(store));
        }
        for channel in 0..CHANNELS {
            arcs.add(table, Slot::open(channel));
            arcs.add(table, Slot::sent(channel));
        }
        arcs
    }

    // Adds a slot if its amount is not zero.
    fn add(&mut self, table: &Table, slot: Slot) {
        let row = &mut self.0[slot.row()];
        *row = row.with_if(table.of(slot) > 0, slot.column());
    }

    // Updates the arc of a slot after its amount changed.
    pub(crate) fn look_at(&mut self, table: &Table, slot: Slot) {
        let row = &mut self.0[slot.row()];
        *row = row.without(slot.column());
        self.add(table, slot);
    }

    // Whether the amount in a slot is not zero.
    pub(crate) fn has_capacity(&self, slot: Slot) -> bool {
        self.0[slot.row()].has(slot.column())
    }

    // The stores or channels whose amount in a row is not zero.
    pub(crate) fn of_row(&self, row: Row) -> StoreSet {
        self.0[row as usize]
    }

    // The nodes of the span that one arc leads to from a given node.
    pub(crate) fn next(&self, stores: &Stores, nodes: NodeSet) -> NodeSet {
        let (coming, held) = (nodes.stores_in(), nodes.stores_out());
        let spared = stores_of_channels(stores, nodes).both(self.of_row(Row::Dumped));
        let roomy = coming.both(self.of_row(Row::Room));
        let (sending, spared) = match stores.come() {
            Arrivals::Before => (held, NodeSet::outs(spared)),
            Arrivals::During => (coming, NodeSet::ins(spared)),
        };
        let mut next = channels_of(stores, sending).either(spared);
        next = next.either(NodeSet::outs(roomy));
        next = next.either(NodeSet::ins(held.both(self.of_row(Row::Held))));
        if !nodes.channels().both(self.of_row(Row::Open)).is_empty() {
            next = next.with(Node::PASS);
        }
        if nodes.has(Node::PASS) {
            next = next.either(NodeSet::of_channels(self.of_row(Row::Sent)));
        }
        next
    }
}

// The channels to which the stores belong.
fn channels_of(stores: &Stores, held: StoreSet) -> NodeSet {
    let mut channels = NodeSet::NONE;
    for store in held.iter() {
        channels = channels.with(Node::channel(stores.channel(store)));
    }
    channels
}

// The stores of the channels that are among the nodes.
fn stores_of_channels(stores: &Stores, nodes: NodeSet) -> StoreSet {
    let mut found = StoreSet::NONE;
    for channel in nodes.channels().iter() {
        found = found.either(stores.of_channel(channel));
    }
    found
}
