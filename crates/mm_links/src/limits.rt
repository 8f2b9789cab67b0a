//! The limits of this crate.

/// The most links that send at once.
pub const MAX_LINKS: usize = 256;

/// The last of times, in microseconds. No pass lasts longer.
pub(crate) const LAST: u64 = u64::MAX;
