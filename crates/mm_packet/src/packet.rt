//! Space packets: their makers, and the readers of their fields.
ghost use Rattle.std.specs.Prelude.{◌≡◌, ◌<◌, ◌≤◌, ◌^◌, ◌↔◌, false, length, IsTrue, IfOk};
ghost use Rattle.mm_packet.specs.Packet.{IsTelecommand, IsTelemetry, source_of, counter_of, destination_of, time_of, room_for_body, IsPacket};

use crate::header::{Header, IDLE_APID, PacketType, TELECOMMAND_BODY, TELEMETRY_BODY};
use crate::octets::Octets;
use std::alloc::{AllocError, Global};
use std::marker::Model;

/// A space packet with a secondary header, of either type.
#[derive(Debug, Drop)]
pub struct Packet {
    pub(crate) header: Header,
    pub(crate) kind: PacketType,
    pub(crate) body: Octets,
}

impl Model for Packet {
    ghost use Rattle.mm_packet.specs.Packet.{SpacePacket, IsPacket};

    ghost Value = { SpacePacket };

    ghost view = { λ p. record { header = p.header; kind = p.kind; body = p.body } };

    ghost invariant = { λ p. IsPacket (record { header = p.header; kind = p.kind; body = p.body }) };
}

impl Packet {
    /// A telecommand with these fields and this data, of at most 65,531 octets.
    #[must_use]
    pub fn tc(header: Header, source: u16, body: Octets) -> Packet
        requires apid { header.apid < IDLE_APID }
        requires count { header.count < 2 ^ 14 }
        requires low { header.low < 2 ^ 4 }
        requires room { length body ≤ TELECOMMAND_BODY }
        ensures header { result.header ≡ header }
        ensures kind { result.kind ≡ PacketType.Telecommand source }
        ensures body { result.body ≡ body }
    {
        Packet {
            header,
            kind: PacketType::Telecommand { source },
            body,
        }
    }

    /// Telemetry with these fields and this data, of at most 65,521 octets. `time` counts ticks.
    #[must_use]
    pub fn tm(header: Header, counter: u16, destination: u16, time: u64, body: Octets) -> Packet
        requires apid { header.apid < IDLE_APID }
        requires count { header.count < 2 ^ 14 }
        requires low { header.low < 2 ^ 4 }
        requires room { length body ≤ TELEMETRY_BODY }
        ensures header { result.header ≡ header }
        ensures kind { result.kind ≡ PacketType.Telemetry counter destination time }
        ensures body { result.body ≡ body }
    {
        Packet {
            header,
            kind: PacketType::Telemetry {
                counter,
                destination,
                time,
            },
            body,
        }
    }

    /// Whether the packet is a telecommand, and not telemetry.
    #[must_use]
    pub fn is_telecommand(&self) -> bool
        ensures telecommand { IsTrue result ↔ IsTelecommand self.now.kind }
        ensures telemetry { (result ≡ false) ↔ IsTelemetry self.now.kind }
    {
        match self.kind {
            PacketType::Telecommand { .. } => true,
            PacketType::Telemetry { .. } => false,
        }
    }

    /// The application process identifier.
    #[must_use]
    pub fn apid(&self) -> u16
        ensures value { result ≡ self.now.header.apid }
        ensures in_range { result < IDLE_APID }
    {
        self.header.apid
    }

    /// The packet sequence count.
    #[must_use]
    pub fn count(&self) -> u16
        ensures value { result ≡ self.now.header.count }
        ensures in_range { result < 2 ^ 14 }
    {
        self.header.count
    }

    /// The acknowledgement flags of a telecommand, the time reference status of telemetry.
    #[must_use]
    pub fn low(&self) -> u8
        ensures value { result ≡ self.now.header.low }
        ensures in_range { result < 2 ^ 4 }
    {
        self.header.low
    }

    /// The service type.
    #[must_use]
    pub fn service(&self) -> u8
        ensures value { result ≡ self.now.header.service }
    {
        self.header.service
    }

    /// The message subtype.
    #[must_use]
    pub fn subtype(&self) -> u8
        ensures value { result ≡ self.now.header.subtype }
    {
        self.header.subtype
    }

    /// The source identifier of a telecommand.
    #[must_use]
    pub fn source(&self) -> u16
        requires telecommand { IsTelecommand self.now.kind }
        ensures value { source_of self.now.kind ≡ Some result }
    {
        match self.kind {
            PacketType::Telecommand { source } => source,
            PacketType::Telemetry { .. } => unreachable!(),
        }
    }

    /// The message type counter of telemetry.
    #[must_use]
    pub fn counter(&self) -> u16
        requires telemetry { IsTelemetry self.now.kind }
        ensures value { counter_of self.now.kind ≡ Some result }
    {
        match self.kind {
            PacketType::Telecommand { .. } => unreachable!(),
            PacketType::Telemetry { counter, .. } => counter,
        }
    }

    /// The destination identifier of telemetry.
    #[must_use]
    pub fn destination(&self) -> u16
        requires telemetry { IsTelemetry self.now.kind }
        ensures value { destination_of self.now.kind ≡ Some result }
    {
        match self.kind {
            PacketType::Telecommand { .. } => unreachable!(),
            PacketType::Telemetry { destination, .. } => destination,
        }
    }

    /// The time of telemetry, in ticks.
    #[must_use]
    pub fn time(&self) -> u64
        requires telemetry { IsTelemetry self.now.kind }
        ensures value { time_of self.now.kind ≡ Some result }
    {
        match self.kind {
            PacketType::Telecommand { .. } => unreachable!(),
            PacketType::Telemetry { time, .. } => time,
        }
    }

    /// The data: what follows the secondary header.
    #[must_use]
    pub fn body(&self) -> &[u8]
        ensures value { result.now ≡ self.now.body }
        ensures room { length self.now.body ≤ room_for_body self.now.kind }
    {
        self.body.as_slice()
    }

    /// Whether two packets are equal. It takes no memory.
    #[must_use]
    pub fn is(&self, other: &Packet) -> bool
        ensures equal { IsTrue result ↔ (self.now ≡ other.now) }
    {
        self.header == other.header && self.kind == other.kind && self.body() == other.body()
    }

    // A packet equal to this one.
    pub(crate) fn copy(&self, alloc: Global) -> Result<Packet, AllocError>
        ensures { IfOk result (λ copy. copy ≡ self.now) }
    {
        let body = self.body.copy(alloc)?;
        Ok(Packet {
            header: self.header,
            kind: self.kind,
            body,
        })
    }
}
