//! Amounts of blocks by store or by channel.

/// A number of blocks for each store, or for each channel.
#[derive(Clone, Copy)]
pub(crate) struct Amounts([u32; 16]);

impl Amounts {
    pub(crate) const NOTHING: Amounts = Amounts([0; 16]);

    pub(crate) const UNLIMITED: Amounts = Amounts([u32::MAX; 16]);

    pub(crate) fn of(&self, place: usize) -> u32 {
        self.0[place & 15]
    }

    pub(crate) fn set(&mut self, place: usize, blocks: u32) {
        self.0[place & 15] = blocks;
    }

    pub(crate) fn add(&mut self, place: usize, blocks: u32) {
        self.set(place, self.of(place).saturating_add(blocks));
    }

    pub(crate) fn take(&mut self, place: usize, blocks: u32) {
        self.set(place, self.of(place).saturating_sub(blocks));
    }
}
