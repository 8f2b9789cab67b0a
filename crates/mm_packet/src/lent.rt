//! Packets whose data are lent.
ghost use Rattle.std.specs.Prelude.{◌≡◌, ◌≤◌, ◌↔◌, length, IsTrue, IfOk, IfSome};
ghost use Rattle.mm_packet.specs.Spelling.{spelling};
ghost use Rattle.mm_packet.specs.Packet.{IsTelecommand};

use crate::block::BLOCK;
use crate::header::{Header, PacketType};
use crate::layout::{PRIMARY_HEADER_LEN, TELECOMMAND_HEADER_LEN, TELEMETRY_HEADER_LEN};
use crate::octets::Octets;
use crate::packet::Packet;
use std::alloc::{AllocError, Global};
use std::marker::Model;

/// A space packet whose data stand in the octets that it was read from: it takes no memory. Contracts see the packet.
#[derive(Debug, Drop)]
pub struct LentPacket<'a> {
    pub(crate) header: Header,
    pub(crate) kind: PacketType,
    pub(crate) body: &'a [u8],
}

impl<'a> Model for LentPacket<'a> {
    ghost use Rattle.mm_packet.specs.Packet.{SpacePacket, IsPacket};

    ghost Value = { SpacePacket };

    ghost view = { λ p. record { header = p.header; kind = p.kind; body = p.body.now } };

    ghost invariant = { λ p. IsPacket (record { header = p.header; kind = p.kind; body = p.body.now }) };
}

impl<'a> LentPacket<'a> {
    /// Whether the packet is a telecommand, and not telemetry.
    #[must_use]
    pub fn is_telecommand(&self) -> bool
        ensures telecommand { IsTrue result ↔ IsTelecommand self.now.kind }
    {
        match self.kind {
            PacketType::Telecommand { .. } => true,
            PacketType::Telemetry { .. } => false,
        }
    }

    /// The fields that both types have.
    #[must_use]
    pub fn header(&self) -> Header
        ensures header { result ≡ self.now.header }
    {
        self.header
    }

    /// Whether a block has room for the packet.
    #[must_use]
    pub fn fits_block(&self) -> bool
        ensures fits { IsTrue result ↔ (length (spelling self.now) ≤ BLOCK) }
    {
        let header = match self.kind {
            PacketType::Telecommand { .. } => TELECOMMAND_HEADER_LEN,
            PacketType::Telemetry { .. } => TELEMETRY_HEADER_LEN,
        };
        PRIMARY_HEADER_LEN + header + self.body.len() <= BLOCK
    }

    // A telecommand without data.
    pub(crate) fn empty() -> LentPacket<'static>
        ensures short { length (spelling result) ≤ BLOCK }
    {
        LentPacket {
            header: Header::new(0, 0, 0, 0),
            kind: PacketType::Telecommand { source: 0 },
            body: &[],
        }
    }

    // The packet, with its data in memory of its own.
    pub(crate) fn packet(&self, alloc: Global) -> Result<Packet, AllocError>
        ensures packet { IfOk result (λ packet. packet ≡ self.now) }
    {
        let body = Octets::of(alloc, self.body)?;
        Ok(self.with_body(body))
    }

    // The packet, with its data in memory for all that a block holds.
    pub(crate) fn packet_in_block(&self, alloc: Global) -> Result<Packet, AllocError>
        ensures packet { IfOk result (λ packet. packet ≡ self.now) }
    {
        let body = Octets::with_room(alloc, self.body, BLOCK_BODY)?;
        Ok(self.with_body(body))
    }

    // The packet in the memory of another, which is given up. `None` if others share that memory.
    pub(crate) fn packet_in_place_of(&self, other: Packet) -> Option<Packet>
        ensures packet { IfSome result (λ packet. packet ≡ self.now) }
    {
        let body = other.body.refilled(self.body)?;
        Some(self.with_body(body))
    }

    // The packet, whose data these octets are.
    fn with_body(&self, body: Octets) -> Packet
        requires same { body ≡ self.now.body }
        ensures packet { result ≡ self.now }
    {
        Packet {
            header: self.header,
            kind: self.kind,
            body,
        }
    }
}

// The most octets of data that a packet of a block has.
const BLOCK_BODY: usize = BLOCK - PRIMARY_HEADER_LEN - TELECOMMAND_HEADER_LEN;
