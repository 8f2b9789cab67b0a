//! What a store answers where a packet is put.

use mm_packet::BlockPacket;

/// What became of a packet that was put into a store.
#[derive(Debug, Drop)]
pub enum Put {
    /// It is kept, with this storage time.
    Kept(u64),
    /// It is kept, with this storage time, and the oldest packet of the full circular store is handed back.
    KeptOver(u64, BlockPacket),
    /// It is handed back, since the bounded store is full.
    Lost(BlockPacket),
    /// It is handed back, since no later storage time is left.
    ClockEnd(BlockPacket),
}
