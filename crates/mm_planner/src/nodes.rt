//! The nodes of a problem's network and their numbers: the two ends, and for each step from 1 a block of nodes.
ghost use Rattle.std.specs.Prelude.{◌≡◌, ◌<◌, ◌^◌};
ghost use Rattle.mm_planner.specs.Nodes.{step_of, place_of, number_of};

/// The node at which all blocks start.
pub const SOURCE: u32 = 0;

/// The node at which all blocks end.
pub const SINK: u32 = 1;

/// A node of a problem's network.
#[derive(Clone, Copy)]
pub(crate) enum Node {
    /// All blocks start here.
    Source,
    /// All blocks end here.
    Sink,
    /// The input of a store in a step: what it kept, and what arrives.
    In { step: u32, store: usize },
    /// What the store holds of its input. Where arrivals come before dumps, the step's amount leaves from here, else from
    /// the input.
    Out { step: u32, store: usize },
    /// What leaves through a channel in a step.
    Channel { step: u32, channel: u8 },
    /// What leaves all stores in a step.
    Pass { step: u32 },
}

/// The number of node numbers for each step.
pub(crate) const STEP_NODES: u32 = 41;

/// The place of the first `Out` node within a step, after the `In` nodes.
pub(crate) const OUT_NODES: u32 = 16;

/// The place of the first node of a channel within a step.
pub(crate) const CHANNEL_NODES: u32 = 32;

/// The place of the pass within a step.
pub(crate) const PASS_NODE: u32 = 40;

impl Node {
    // The step of the node, 0 for the two ends.
    fn step(self) -> u32
        ensures step { result ≡ step_of self }
    {
        match self {
            Node::Source => 0,
            Node::Sink => 0,
            Node::In { step, .. } => step,
            Node::Out { step, .. } => step,
            Node::Channel { step, .. } => step,
            Node::Pass { step } => step,
        }
    }

    // The place of the node within its step.
    fn place(self) -> u32
        requires { place_of self < 2 ^ 32 }
        ensures place { result ≡ place_of self }
    {
        match self {
            Node::Source => SOURCE,
            Node::Sink => SINK,
            Node::In { store, .. } => store as u32,
            Node::Out { store, .. } => OUT_NODES + store as u32,
            Node::Channel { channel, .. } => CHANNEL_NODES + u32::from(channel),
            Node::Pass { .. } => PASS_NODE,
        }
    }

    // The number of the node in the network.
    pub(crate) fn number(self) -> u32
        requires { number_of self < 2 ^ 32 }
        ensures number { result ≡ number_of self }
    {
        STEP_NODES * self.step() + self.place()
    }
}
