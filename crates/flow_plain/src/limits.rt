//! Numbers that no network reaches.

/// The residual capacity that stands for no limit, 2^60, which is above every limited one.
pub(crate) const UNLIMITED: u64 = 1 << 60;

/// More turns than any loop of the solvers takes.
pub(crate) const TURNS: u64 = u64::MAX;
