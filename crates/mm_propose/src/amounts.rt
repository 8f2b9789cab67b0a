//! Amounts of blocks by store.
use crate::sets::STORE_MASK;

/// A number of blocks for each store.
#[derive(Clone, Copy)]
pub(crate) struct Amounts([u32; 16]);

impl Amounts {
    pub(crate) const NOTHING: Amounts = Amounts([0; 16]);

    pub(crate) fn of(&self, place: usize) -> u32 {
        self.0[place & STORE_MASK]
    }

    pub(crate) fn set(&mut self, place: usize, blocks: u32) {
        self.0[place & STORE_MASK] = blocks;
    }

    pub(crate) fn add(&mut self, place: usize, blocks: u32) {
        self.set(place, self.of(place).saturating_add(blocks));
    }
}
