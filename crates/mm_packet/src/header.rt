//! The fields of a packet's headers.
ghost use Rattle.std.specs.Prelude.{◌≡◌};

/// The APID of idle packets, which this profile refuses: 2047. Every other APID is below it.
pub const IDLE_APID: u16 = 2047;

/// How many sequence counts there are (CCSDS 133.0-B, 4.1.3.4). Every count is below it.
pub const SEQUENCE_COUNTS: u16 = 16_384;

/// The greatest number of data octets in a telecommand, whose secondary header has 5.
pub const TELECOMMAND_BODY: usize = 65_531;

/// The greatest number of data octets in telemetry, whose secondary header has 15.
pub const TELEMETRY_BODY: usize = 65_521;

/// The fields that telecommands and telemetry share (CCSDS 133.0-B, 4.1.3; ECSS-E-ST-70-41C, 7.4).
#[derive(Clone, Copy, Debug, PartialEq, Eq)]
pub struct Header {
    /// The application process identifier, below 2047.
    pub apid: u16,
    /// The packet sequence count, below 16,384.
    pub count: u16,
    /// The acknowledgement flags (telecommand) or the time reference status (telemetry), below 16.
    pub low: u8,
    /// The service type.
    pub service: u8,
    /// The message subtype.
    pub subtype: u8,
}

impl Header {
    /// The header of a packet whose acknowledgement flags, or time reference status, are 0.
    #[must_use]
    pub fn new(apid: u16, count: u16, service: u8, subtype: u8) -> Header
        ensures primary { (result.apid ≡ apid) × (result.count ≡ count) }
        ensures message { (result.service ≡ service) × (result.subtype ≡ subtype) }
        ensures low { result.low ≡ 0 }
    {
        Header {
            apid,
            count,
            low: 0,
            service,
            subtype,
        }
    }
}

/// The packet type, with the fields of the secondary header that only it has.
#[derive(Clone, Copy, Debug, PartialEq, Eq)]
pub enum PacketType {
    /// `source` is the source identifier.
    Telecommand {
        source: u16,
    },
    /// The message type counter, the destination identifier, and the time in ticks.
    Telemetry {
        counter: u16,
        destination: u16,
        time: u64,
    },
}
