//! The goal of a plan.

/// The goal of a plan.
#[derive(Clone, Copy, Debug, PartialEq, Eq)]
pub enum Goal {
    /// No plan loses fewer blocks.
    Least,
    /// The stores have lexicographic priority in the setup's order: no plan loses fewer blocks of the first store, of
    /// the first two, and so on.
    InOrder,
}
