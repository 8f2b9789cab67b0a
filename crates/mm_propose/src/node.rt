//! The nodes of one span: blocks enter a store, are held in it, leave it through its channel, and leave the channel in
//! the pass.
ghost use Rattle.std.specs.Prelude.{◌<◌};

use crate::sets::{CHANNEL_MASK, STORE_MASK};
use mm_problem::Arrivals;

/// A node of a span, as a place in a word or a table of 64. Stores and channels count from 0.
#[derive(Clone, Copy)]
pub(crate) struct Node(u8);

/// The kinds of nodes.
#[derive(Clone, Copy)]
pub(crate) enum NodeKind {
    /// The input of a store: what it kept from the previous span, and what arrives.
    In(usize),
    /// What a store holds.
    Out(usize),
    /// What leaves through a channel.
    Channel(usize),
    /// What leaves in the pass, through all channels.
    Pass,
}

impl Node {
    /// What leaves in the pass, through all channels.
    pub(crate) const PASS: Node = Node(40);

    // The input of a store.
    pub(crate) fn into_store(store: usize) -> Node {
        Node((store & STORE_MASK) as u8)
    }

    // What a store holds.
    pub(crate) fn out_of_store(store: usize) -> Node {
        Node((16 + (store & STORE_MASK)) as u8)
    }

    // The node from which blocks leave a store: what it holds, or its input if arrivals come during dumps.
    pub(crate) fn dumping(come: Arrivals, store: usize) -> Node {
        match come {
            Arrivals::Before => Node::out_of_store(store),
            Arrivals::During => Node::into_store(store),
        }
    }

    // What leaves through a channel.
    pub(crate) fn channel(channel: usize) -> Node {
        Node((32 + (channel & CHANNEL_MASK)) as u8)
    }

    pub(crate) fn kind(self) -> NodeKind {
        let place = self.place();
        match place >> 4 {
            0 => NodeKind::In(place & STORE_MASK),
            1 => NodeKind::Out(place & STORE_MASK),
            _ if place < 40 => NodeKind::Channel(place & CHANNEL_MASK),
            _ => NodeKind::Pass,
        }
    }

    // The place of the node.
    pub(crate) fn place(self) -> usize
        ensures { result < 64 }
    {
        self.0 as usize & 63
    }
}

/// A node and its span. Spans count from 0.
#[derive(Clone, Copy)]
pub(crate) struct Place {
    pub(crate) span: usize,
    pub(crate) node: Node,
}
