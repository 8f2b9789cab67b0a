//! Stretches, the parts of a cut.

use mm_base::StoreId;

/// A run of steps of one store, both ends included, in a cut. Any steps may stand here.
#[derive(Clone, Copy, Debug, PartialEq, Eq)]
pub struct Stretch {
    pub store: StoreId,
    pub first: u32,
    pub last: u32,
}

/// The most stretches of a sheet.
pub const MAX_STRETCHES: usize = 4096;

/// The most steps of a sheet that are counted by channels.
pub const MAX_COUNTS: usize = 256;
