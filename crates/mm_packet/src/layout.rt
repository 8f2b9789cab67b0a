//! The fixed bits of the two headers (CCSDS 133.0-B, 4.1.3; ECSS-E-ST-70-41C, 7.4) and the lengths of their fields.

/// The packet version number.
pub(crate) const VERSION: u16 = 0;

/// The packet type of a telecommand, in the identification.
pub(crate) const TELECOMMAND: u16 = 1 << 12;

/// The secondary header flag, in the identification.
pub(crate) const SECONDARY_HEADER: u16 = 1 << 11;

/// The sequence flags of an unsegmented packet.
pub(crate) const UNSEGMENTED: u16 = 3;

/// The PUS version number.
pub(crate) const PUS_VERSION: u8 = 2;

pub(crate) const APID_MASK: u16 = 0x07FF;

pub(crate) const LOW_MASK: u8 = 0x0F;

pub(crate) const PRIMARY_HEADER_LEN: usize = 6;

pub(crate) const TELECOMMAND_HEADER_LEN: usize = 5;

pub(crate) const TELEMETRY_HEADER_LEN: usize = 15;
