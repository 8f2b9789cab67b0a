//! Sets of stores and of nodes, each in one word.
ghost use Rattle.std.specs.Iterator.{at_most};

use crate::node::Node;

/// Keeps the number of a store below 16.
pub(crate) const STORE_MASK: usize = 15;

/// Keeps the number of a channel below 8.
pub(crate) const CHANNEL_MASK: usize = 7;

/// The places of a set's elements, from the first on: each bit of the word that is 1.
#[derive(Drop)]
pub(crate) struct Places(u64);

impl Iterator for Places {
    type Item = usize;

    ghost remaining = { λ s. at_most s.0 };

    fn next(&mut self) -> Option<usize> {
        if self.0 == 0 {
            return None;
        }
        let place = self.0.trailing_zeros() as usize;
        self.0 &= self.0 - 1;
        Some(place)
    }
}

/// A set of stores or of channels.
#[derive(Clone, Copy)]
pub(crate) struct StoreSet(u16);

impl StoreSet {
    pub(crate) const NONE: StoreSet = StoreSet(0);

    pub(crate) fn with(self, store: usize) -> StoreSet {
        StoreSet(self.0 | 1 << (store & STORE_MASK))
    }

    pub(crate) fn without(self, store: usize) -> StoreSet {
        StoreSet(self.0 & !(1 << (store & STORE_MASK)))
    }

    // The set, with a store added if `holds`.
    pub(crate) fn with_if(self, holds: bool, store: usize) -> StoreSet {
        StoreSet(self.0 | u16::from(holds) << (store & STORE_MASK))
    }

    // The union of two sets.
    pub(crate) fn either(self, other: StoreSet) -> StoreSet {
        StoreSet(self.0 | other.0)
    }

    // The intersection of two sets.
    pub(crate) fn both(self, other: StoreSet) -> StoreSet {
        StoreSet(self.0 & other.0)
    }

    pub(crate) fn is_empty(self) -> bool {
        self.0 == 0
    }

    pub(crate) fn has(self, store: usize) -> bool {
        self.0 >> (store & STORE_MASK) & 1 == 1
    }

    // Its stores, from the first on.
    pub(crate) fn iter(self) -> Places {
        Places(u64::from(self.0))
    }
}

/// A set of nodes of a span: two for each store, one for each channel, and the pass.
#[derive(Clone, Copy)]
pub(crate) struct NodeSet(u64);

impl NodeSet {
    pub(crate) const NONE: NodeSet = NodeSet(0);

    // The in-nodes of stores.
    pub(crate) fn ins(stores: StoreSet) -> NodeSet {
        NodeSet(u64::from(stores.0))
    }

    // The out-nodes of stores.
    pub(crate) fn outs(stores: StoreSet) -> NodeSet {
        NodeSet(u64::from(stores.0) << 16)
    }

    // The nodes of channels.
    pub(crate) fn of_channels(channels: StoreSet) -> NodeSet {
        NodeSet((u64::from(channels.0) & 0xff) << 32)
    }

    pub(crate) fn with(self, node: Node) -> NodeSet {
        NodeSet(self.0 | 1 << node.place())
    }

    pub(crate) fn has(self, node: Node) -> bool {
        self.0 >> node.place() & 1 == 1
    }

    // The union of two sets.
    pub(crate) fn either(self, other: NodeSet) -> NodeSet {
        NodeSet(self.0 | other.0)
    }

    // The intersection of two sets.
    pub(crate) fn both(self, other: NodeSet) -> NodeSet {
        NodeSet(self.0 & other.0)
    }

    pub(crate) fn without(self, other: NodeSet) -> NodeSet {
        NodeSet(self.0 & !other.0)
    }

    pub(crate) fn is_empty(self) -> bool {
        self.0 == 0
    }

    // The stores whose in-node is in the set.
    pub(crate) fn stores_in(self) -> StoreSet {
        StoreSet((self.0 & 0xffff) as u16)
    }

    // The stores whose out-node is in the set.
    pub(crate) fn stores_out(self) -> StoreSet {
        StoreSet((self.0 >> 16 & 0xffff) as u16)
    }

    // The channels whose node is in the set.
    pub(crate) fn channels(self) -> StoreSet {
        StoreSet((self.0 >> 32 & 0xff) as u16)
    }

    // The places of its nodes, from the first on.
    pub(crate) fn places(self) -> Places {
        Places(self.0)
    }
}
