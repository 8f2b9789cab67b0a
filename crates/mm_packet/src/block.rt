//! Packets that a block of a store has room for.
ghost use Rattle.std.specs.Prelude.{◌≡◌, ◌≤◌, ◌↔◌, length, IsTrue, IsOk, IfOk, IfSome, MatchResult};
ghost use Rattle.mm_packet.specs.Spelling.{spelling};

use crate::lent::LentPacket;
use crate::packet::Packet;
use mm_base::{NoMemory, Refusal, Refused};
use std::alloc::Global;
use std::marker::Model;
use thiserror::Error;

/// The octets of a block, and so of the longest packet that is stored.
pub const BLOCK: usize = 1024;

/// A packet whose spelling has at most 1,024 octets. Contracts see the packet.
#[derive(Debug, Drop)]
pub struct BlockPacket {
    packet: Packet,
}

impl Model for BlockPacket {
    ghost use Rattle.std.specs.Prelude.{◌≤◌, length};
    ghost use Rattle.mm_packet.specs.Packet.{SpacePacket};
    ghost use Rattle.mm_packet.specs.Spelling.{spelling};
    ghost use Rattle.mm_packet.specs.declared.block.TheConstants.{BLOCK};

    ghost Value = { SpacePacket };

    ghost view = { λ b. b.packet };

    ghost invariant = { λ b. length (spelling b.packet) ≤ BLOCK };
}

/// A packet longer than a block, handed back.
#[derive(Debug, Drop, Error)]
#[error("{}", Refusal::TooLong)]
pub struct TooLong {
    pub packet: Packet,
}

impl Refused for TooLong {
    fn refusal(self) -> Refusal {
        Refusal::TooLong
    }

    ghost use Rattle.mm_base.specs.declared.refusal.Refusal.TheVariants as refusal;

    ghost refusal_of = { λ _. refusal.TooLong };
}

impl BlockPacket {
    /// The packet, where a block has room for it.
    pub fn of(packet: Packet) -> Result<BlockPacket, TooLong>
        ensures ok { IsOk result ↔ (length (spelling packet) ≤ BLOCK) }
        ensures same { MatchResult result (λ block. block ≡ packet) (λ back. back.packet ≡ packet) }
    {
        if packet.spelled_len() > BLOCK {
            return Err(TooLong { packet });
        }
        Ok(BlockPacket { packet })
    }

    #[must_use]
    pub fn packet(&self) -> &Packet
        ensures same { result.now ≡ self.now }
        ensures fits { length (spelling self.now) ≤ BLOCK }
    {
        &self.packet
    }

    /// Whether two packets are equal. It takes no memory.
    #[must_use]
    pub fn is(&self, other: &BlockPacket) -> bool
        ensures equal { IsTrue result ↔ (self.now ≡ other.now) }
    {
        self.packet.is(&other.packet)
    }

    /// The packet, in memory for all that a block holds.
    pub fn lent(alloc: Global, packet: &LentPacket<'_>) -> Result<BlockPacket, NoMemory>
        requires fits { length (spelling packet.now) ≤ BLOCK }
        ensures same { IfOk result (λ block. block ≡ packet.now) }
    {
        let packet = packet.packet_in_block(alloc)?;
        Ok(BlockPacket { packet })
    }

    /// The packet in the memory of this one, which is given up. `None` if others share that memory. No memory is taken
    /// if this one was made by `lent` or `with_room`.
    #[must_use]
    pub fn replaced(self, packet: &LentPacket<'_>) -> Option<BlockPacket>
        requires fits { length (spelling packet.now) ≤ BLOCK }
        ensures same { IfSome result (λ block. block ≡ packet.now) }
    {
        let packet = packet.packet_in_place_of(self.packet)?;
        Some(BlockPacket { packet })
    }

    /// A packet without data, in memory for all that a block holds.
    pub fn with_room(alloc: Global) -> Result<BlockPacket, NoMemory> {
        let packet = LentPacket::empty().packet_in_block(alloc)?;
        Ok(BlockPacket { packet })
    }

    /// How many packets share its memory, this one included. A packet that shares it with no other can be replaced.
    #[must_use]
    pub fn owners(&self) -> usize {
        self.packet.body.owners()
    }

    /// A packet equal to this one.
    pub fn copy(&self, alloc: Global) -> Result<BlockPacket, NoMemory>
        ensures same { IfOk result (λ copy. copy ≡ self.now) }
    {
        let packet = self.packet.copy(alloc)?;
        Ok(BlockPacket { packet })
    }
}
