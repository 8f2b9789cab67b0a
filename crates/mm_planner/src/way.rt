//! The kinds of arcs of a store in a step.

/// The kind of an arc of a store in a step.
#[derive(Clone, Copy)]
pub(crate) enum Way {
    /// Blocks arrive in the store.
    Come,
    /// The store holds them.
    Hold,
    /// The store keeps them for the next step.
    Keep,
    /// They leave the store.
    Take,
}
