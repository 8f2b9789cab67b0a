//! The nodes of one span: blocks enter a store, are held in it, leave it through its channel, and leave the channel in
//! the pass.
ghost use Rattle.std.specs.Prelude.{◌<◌};

/// A node of a span. Stores and channels count from 0.
#[derive(Clone, Copy)]
pub(crate) enum Node {
    /// What a store gets: what it kept of the span before and what arrives.
    In(usize),
    /// What it holds of that.
    Out(usize),
    /// What leaves the stores of a channel.
    Channel(usize),
    /// What leaves all stores.
    Pass,
}

impl Node {
    // The node's place in a word or a table of 64.
    pub(crate) fn place(self) -> usize
        ensures { result < 64 }
    {
        match self {
            Node::In(store) => store & 15,
            Node::Out(store) => 16 + (store & 15),
            Node::Channel(channel) => 32 + (channel & 7),
            Node::Pass => 40,
        }
    }
}

/// A node of a span, which counts from 0.
#[derive(Clone, Copy)]
pub(crate) struct Place {
    pub(crate) span: usize,
    pub(crate) node: Node,
}
