//! Transfers: the arcs of a path.

/// The kinds of transfers.
#[derive(Clone, Copy, PartialEq, Eq)]
pub(crate) enum Move {
    /// Blocks that were lost in a span leave in an earlier one.
    Saved,
    /// Blocks that left in a span leave in another one.
    Shifted,
    /// Blocks that left in a span are kept to the end.
    Kept,
}

/// Blocks of a store that are moved from one span to another.
#[derive(Clone, Copy)]
pub(crate) struct Transfer {
    pub(crate) kind: Move,
    pub(crate) store: usize,
    pub(crate) from: usize,
    pub(crate) to: usize,
    /// How many blocks more or fewer the store can keep between the two spans.
    pub(crate) most: u32,
}
