//! The amounts of a span, each in a slot of a table with rows for its stores and channels.
ghost use Rattle.std.specs.Prelude.{◌<◌};

use crate::sets::STORE_MASK;

/// The rows of the table of a span, each with an amount for each store or channel. The last eight places of `Open` hold
/// the amounts that belong to no store or channel.
#[derive(Clone, Copy)]
pub(crate) enum Row {
    /// What a store loses.
    Lost = 0,
    /// How many more blocks a store could hold: its size, until the span's blocks arrive.
    Room = 1,
    /// What a store holds before blocks leave it, or after if arrivals come during dumps.
    Held = 2,
    /// What a store keeps at the end.
    Kept = 3,
    /// What leaves a store.
    Dumped = 4,
    /// How many more blocks could leave through a channel.
    Open = 5,
    /// What leaves through a channel.
    Sent = 6,
    /// What arrived in a store since the plan began, with its start volume.
    Arrived = 7,
}

/// The place of an amount in the table of a span. Stores and channels count from 0.
#[derive(Clone, Copy)]
pub(crate) struct Slot(u8);

impl Slot {
    /// The unused part of the window.
    pub(crate) const IDLE: Slot = Slot(88);

    /// An amount without limit.
    pub(crate) const ENDLESS: Slot = Slot(89);

    /// What enters or leaves the network.
    pub(crate) const OUTSIDE: Slot = Slot(90);

    // The slot of a store or a channel in a row.
    fn of(row: Row, column: usize) -> Slot {
        Slot((row as u8) << 4 | (column & STORE_MASK) as u8)
    }

    pub(crate) fn lost(store: usize) -> Slot {
        Slot::of(Row::Lost, store)
    }

    pub(crate) fn room(store: usize) -> Slot {
        Slot::of(Row::Room, store)
    }

    pub(crate) fn held(store: usize) -> Slot {
        Slot::of(Row::Held, store)
    }

    pub(crate) fn kept(store: usize) -> Slot {
        Slot::of(Row::Kept, store)
    }

    pub(crate) fn dumped(store: usize) -> Slot {
        Slot::of(Row::Dumped, store)
    }

    pub(crate) fn open(channel: usize) -> Slot {
        Slot::of(Row::Open, channel)
    }

    pub(crate) fn sent(channel: usize) -> Slot {
        Slot::of(Row::Sent, channel)
    }

    pub(crate) fn arrived(store: usize) -> Slot {
        Slot::of(Row::Arrived, store)
    }

    // The place of the slot in a table of 128.
    pub(crate) fn place(self) -> usize
        ensures { result < 128 }
    {
        self.0 as usize & 127
    }

    // The number of the row.
    pub(crate) fn row(self) -> usize
        ensures { result < 8 }
    {
        self.0 as usize >> 4 & 7
    }

    // The store or the channel.
    pub(crate) fn column(self) -> usize {
        self.0 as usize & STORE_MASK
    }
}

/// The amounts of a span.
#[derive(Clone, Copy)]
pub(crate) struct Table([u32; 128]);

impl Table {
    /// The table of zeros.
    pub(crate) const EMPTY: Table = Table([0; 128]);

    pub(crate) fn of(&self, slot: Slot) -> u32 {
        self.0[slot.place()]
    }

    pub(crate) fn set(&mut self, slot: Slot, blocks: u32) {
        self.0[slot.place()] = blocks;
    }

    pub(crate) fn add(&mut self, slot: Slot, blocks: u32) {
        self.set(slot, self.of(slot).saturating_add(blocks));
    }

    pub(crate) fn take(&mut self, slot: Slot, blocks: u32) {
        self.set(slot, self.of(slot).saturating_sub(blocks));
    }

    // Moves blocks from one slot to another.
    pub(crate) fn shift(&mut self, from: Slot, to: Slot, blocks: u32) {
        self.take(from, blocks);
        self.add(to, blocks);
        self.set(Slot::ENDLESS, u32::MAX);
    }
}
