//! The limits of a network.

/// The most nodes.
pub const MAX_NODES: u32 = 65_536;

/// The most arcs.
pub const MAX_ARCS: u32 = 262_144;

/// The greatest limited capacity, 2^40.
pub const MAX_CAPACITY: u64 = 1 << 40;

/// What `MAX_ARCS` arcs of `MAX_CAPACITY` carry together, 2^58. Flow values that have a bound are at most this.
pub(crate) const MAX_VALUE: u64 = 1 << 58;

/// The residual capacity that stands for no limit, 2^60, which is above every limited one.
pub(crate) const UNLIMITED: u64 = 1 << 60;
