//! The ranges that hold for every mass memory of this project's profile.

/// The most packet stores.
pub const MAX_STORES: usize = 16;

/// The most steps of a forecast.
pub const MAX_STEPS: u32 = 256;

/// The most blocks of a store, an arrival, a pass window or a channel's limit.
pub const MAX_BLOCKS: u32 = 1_000_000;

/// The greatest number of a virtual channel.
pub const MAX_CHANNEL: u8 = 7;

/// The number of virtual channels.
pub const CHANNELS: usize = 8;

/// The greatest application process identifier (APID); 2047 is that of idle packets (CCSDS 133.0-B, 4.1.3.3).
pub const MAX_APID: u16 = 2046;

/// The most routes of the storage control.
pub const MAX_ROUTES: usize = 256;
