//! Packets as octets.
ghost use Rattle.std.specs.Prelude.{◌≡◌, ◌+◌, ◌*◌, ◌^◌, ◌++◌, length, IfOk, OnOk};
ghost use Rattle.mm_packet.specs.Packet.{IsPacket};
ghost use Rattle.mm_packet.specs.Spelling.{identification, sequence_control, data_length, type_fields, secondary_header, data_field, spelling};

use crate::header::PacketType;
use crate::layout::{
    PRIMARY_HEADER_LEN, PUS_VERSION, SECONDARY_HEADER, TELECOMMAND, TELECOMMAND_HEADER_LEN,
    TELEMETRY_HEADER_LEN, UNSEGMENTED,
};
use crate::packet::Packet;
use crate::put_fields;
use mm_base::NoMemory;
use std::alloc::{AllocError, Global};

impl Packet {
    /// The packet's spelling.
    pub fn write(&self, alloc: Global) -> Result<Vec<u8>, NoMemory>
        ensures spelling { IfOk result (λ octets. octets.items ≡ spelling self.now) }
        ensures fits { IsPacket self.now }
    {
        let mut out = Vec::with_capacity(alloc, self.spelled_len())?;
        out.extend_from_slice(&self.identification().to_be_bytes())?;
        out.extend_from_slice(&self.sequence_control().to_be_bytes())?;
        out.extend_from_slice(&self.data_length().to_be_bytes())?;
        self.put_secondary_header(&mut out)?;
        out.extend_from_slice(self.body())?;
        Ok(out)
    }

    // How many octets the spelling has.
    pub(crate) fn spelled_len(&self) -> usize
        ensures value { result ≡ length (spelling self.now) }
        ensures fits { IsPacket self.now }
    {
        PRIMARY_HEADER_LEN + self.data_length() as usize + 1
    }

    pub(crate) fn identification(&self) -> u16
        ensures { result ≡ identification self.now }
    {
        match self.kind {
            PacketType::Telecommand { .. } => TELECOMMAND | SECONDARY_HEADER | self.header.apid,
            PacketType::Telemetry { .. } => SECONDARY_HEADER | self.header.apid,
        }
    }

    pub(crate) fn sequence_control(&self) -> u16
        ensures { result ≡ sequence_control self.now }
    {
        UNSEGMENTED << 14 | self.header.count
    }

    pub(crate) fn data_length(&self) -> u16
        ensures value { result ≡ data_length self.now }
        ensures field { result + 1 ≡ length (data_field self.now) }
        ensures fits { IsPacket self.now }
    {
        let header = match self.kind {
            PacketType::Telecommand { .. } => TELECOMMAND_HEADER_LEN,
            PacketType::Telemetry { .. } => TELEMETRY_HEADER_LEN,
        };
        (header + self.body.as_slice().len() - 1) as u16
    }

    // The first octet of the secondary header.
    pub(crate) fn first_octet(&self) -> u8
        ensures { result ≡ 2 * 2 ^ 4 + self.now.header.low }
    {
        PUS_VERSION << 4 | self.header.low
    }

    fn put_secondary_header(&self, out: &mut Vec<u8>) -> Result<(), AllocError>
        ensures { OnOk result (out.new.items ≡ out.old.items ++ secondary_header self.now) }
    {
        let header = self.header;
        let first = self.first_octet();
        out.extend_from_slice(&[first, header.service, header.subtype])?;
        put_type_fields(out, self.kind)
    }
}

fn put_type_fields(out: &mut Vec<u8>, kind: PacketType) -> Result<(), AllocError>
    ensures { OnOk result (out.new.items ≡ out.old.items ++ type_fields kind) }
{
    match kind {
        PacketType::Telecommand { source } => put_fields!(out; source.to_be_bytes()),
        PacketType::Telemetry {
            counter,
            destination,
            time,
        } => put_fields!(out; counter.to_be_bytes(), destination.to_be_bytes(), time.to_be_bytes()),
    }
}
