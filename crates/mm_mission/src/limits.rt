//! The ranges of a mission's numbers. Within them each product of the sums fits 128 bits.

/// The longest mission, in microseconds.
pub const MAX_TIME: u64 = (1 << 59) - 1;

/// The most octets of a rate, and the most microseconds in which they flow.
pub const MAX_RATE: u64 = 1 << 50;

/// The longest packet, in octets.
pub const MAX_PACKET: u64 = 1024;

/// The most packets of a unit.
pub const MAX_UNIT: u64 = 1 << 20;

/// The most passes.
pub const MAX_PASSES: usize = 256;

/// The most observations.
pub const MAX_OBSERVATIONS: usize = 65_536;
