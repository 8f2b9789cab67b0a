//! Space packets of CCSDS 133.0-B, with the secondary headers of ECSS-E-ST-70-41C in this profile.
#![tactic(auto)]

mod block;
mod buffer;
mod fault;
mod fields;
mod header;
pub mod laws;
mod layout;
mod lent;
mod number;
mod octets;
mod packet;
mod reading;
mod writing;

pub use block::{BLOCK, BlockPacket, TooLong};
pub use buffer::TooSmall;
pub use fault::Fault;
pub use header::{
    Header, IDLE_APID, PacketType, SEQUENCE_COUNTS, TELECOMMAND_BODY, TELEMETRY_BODY,
};
pub use lent::LentPacket;
pub use mm_base::NoMemory;
pub use number::{octet_at, u16_at, u32_at, u64_at};
pub use octets::Octets;
pub use packet::Packet;
