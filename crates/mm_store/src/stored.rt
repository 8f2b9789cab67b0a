//! A packet with its storage time.
ghost use Rattle.std.specs.Prelude.{◌≡◌, ◌↔◌, IsTrue};

use mm_packet::BlockPacket;

/// A packet as a store holds it, with its storage time in ticks.
#[derive(Debug, Drop)]
pub struct Stored {
    pub time: u64,
    pub packet: BlockPacket,
}

impl Stored {
    /// Whether two stored packets are equal, with their times. It takes no memory.
    #[must_use]
    pub fn is(&self, other: &Stored) -> bool
        ensures equal { IsTrue result ↔ (self.now ≡ other.now) }
    {
        self.time == other.time && self.packet.is(&other.packet)
    }
}
