//! Packets from octets.
ghost use Rattle.std.specs.Prelude.{◌≡◌, ◌≢◌, ◌++◌, ◌+◌, length, List, ℕ, None, Ok, Err, MatchResult, IsOk, IfOk};
ghost use Rattle.std.specs.Prelude.{IfErr, IfSome, if◌then◌else◌};
ghost use Rattle.std.specs.Option.{option_map};
ghost use Rattle.mm_packet.specs.Packet.{SpacePacket, FitsType, IsPacket};
ghost use Rattle.mm_packet.specs.Spelling.{type_bit, type_fields, spelling};
ghost use Rattle.mm_packet.specs.Headers.{primary_at, primary_octets, secondary_octets, FitsPrimary, FitsSecondary};
ghost use Rattle.mm_packet.specs.Headers.{type_at, secondary_at, fault_of, is_telecommand, apid_of, count_of};
ghost use Rattle.mm_base.specs.Reading.{Gives};
ghost use Rattle.mm_packet.specs.Reading.{tested, data_field_at, header_of, packet_at};

use crate::fault::Fault;
use crate::fields_at;
use crate::header::{Header, IDLE_APID, PacketType, SEQUENCE_COUNTS};
use crate::layout::{APID_MASK, LOW_MASK, PUS_VERSION, UNSEGMENTED, VERSION};
use crate::lent::LentPacket;
use crate::number::{octet_at, u16_at, u64_at};
use crate::packet::Packet;
use std::alloc::Global;

// The three numbers of a primary header (CCSDS 133.0-B, 4.1.3).
#[derive(Clone, Copy)]
struct Primary {
    identification: u16,
    sequence_control: u16,
    data_length: u16,
}

// The fields of a secondary header, its first octet as one number.
#[derive(Clone, Copy)]
struct Secondary {
    first: u8,
    service: u8,
    subtype: u8,
    kind: PacketType,
}

impl Primary {
    fn is_telecommand(self) -> bool
        ensures { result ≡ is_telecommand self }
    {
        (self.identification >> 12) & 1 == 1
    }

    fn apid(self) -> u16
        ensures { result ≡ apid_of self }
    {
        self.identification & APID_MASK
    }

    fn count(self) -> u16
        ensures { result ≡ count_of self }
    {
        self.sequence_control % SEQUENCE_COUNTS
    }

    // The header, where it passes its tests, and else the first that fails.
    fn tested(self) -> Result<Primary, Fault>
        ensures value { result ≡ tested self }
        ensures passed { IfOk result (λ primary. (primary ≡ self) × (fault_of primary ≡ None)) }
    {
        if self.identification >> 13 != VERSION {
            Err(Fault::Version)
        } else if self.apid() == IDLE_APID {
            Err(Fault::Idle)
        } else if (self.identification >> 11) & 1 == 0 {
            Err(Fault::NoSecondaryHeader)
        } else if self.sequence_control >> 14 != UNSEGMENTED {
            Err(Fault::Segmented)
        } else {
            Ok(self)
        }
    }
}

#[tactic(auto, unfolding(crate::specs::Headers::primary_at))]
fn primary_at(octets: &[u8]) -> Option<(Primary, &[u8])>
    ensures value { option_map (λ x. (x.0, x.1.now)) result ≡ primary_at octets.now }
    ensures spelled { IfSome result (λ x. octets.now ≡ primary_octets x.0 ++ x.1.now) }
    ensures fits { IfSome result (λ x. FitsPrimary x.0) }
{
    fields_at!(octets; Primary { identification: u16_at, sequence_control: u16_at, data_length: u16_at })
}

#[tactic(auto, unfolding(crate::specs::Headers::type_at))]
fn type_at(telecommand: bool, octets: &[u8]) -> Option<(PacketType, &[u8])>
    ensures value { option_map (λ x. (x.0, x.1.now)) result ≡ type_at telecommand octets.now }
    ensures spelled { IfSome result (λ x. octets.now ≡ type_fields x.0 ++ x.1.now) }
    ensures fits { IfSome result (λ x. FitsType x.0) }
    ensures kind { IfSome result (λ x. type_bit x.0 ≡ (if telecommand then 1 else 0)) }
{
    if telecommand {
        fields_at!(octets; PacketType::Telecommand { source: u16_at })
    } else {
        fields_at!(octets; PacketType::Telemetry { counter: u16_at, destination: u16_at, time: u64_at })
    }
}

#[tactic(auto, unfolding(crate::specs::Headers::secondary_at))]
fn secondary_at(telecommand: bool, octets: &[u8]) -> Option<(Secondary, &[u8])>
    ensures value { option_map (λ x. (x.0, x.1.now)) result ≡ secondary_at telecommand octets.now }
    ensures spelled { IfSome result (λ x. octets.now ≡ secondary_octets x.0 ++ x.1.now) }
    ensures fits { IfSome result (λ x. FitsSecondary x.0) }
    ensures kind { IfSome result (λ x. type_bit x.0.kind ≡ (if telecommand then 1 else 0)) }
{
    fields_at!(octets; Secondary { first: octet_at, service: octet_at, subtype: octet_at, kind: type_at(telecommand) })
}

fn data_field_at(primary: Primary, octets: &[u8]) -> Option<(&[u8], &[u8])>
    ensures value { option_map (λ x. (x.0.now, x.1.now)) result ≡ data_field_at primary octets.now }
    ensures parts { IfSome result (λ x. octets.now ≡ x.0.now ++ x.1.now) }
    ensures len { IfSome result (λ x. length x.0.now ≡ primary.data_length + 1) }
{
    if octets.len() <= primary.data_length as usize {
        return None;
    }
    Some(octets.split_at(primary.data_length as usize + 1))
}

fn header_of(primary: Primary, secondary: Secondary) -> Header
    ensures { result ≡ header_of primary secondary }
{
    Header {
        apid: primary.apid(),
        count: primary.count(),
        low: secondary.first & LOW_MASK,
        service: secondary.service,
        subtype: secondary.subtype,
    }
}

impl Packet {
    /// The packet at the front of the octets, and what follows it.
    pub fn parse(alloc: Global, octets: &[u8]) -> Result<(Packet, &[u8]), Fault>
        // The octets are the packet's spelling, and what follows it.
        ensures found { IfOk result (λ x. IsPacket x.0 × (octets.now ≡ spelling x.0 ++ x.1.now)) }
        // A packet that is spelled there is read, unless memory runs out.
        ensures only { (packet : SpacePacket) (rest : List ℕ) → IsPacket packet
            → octets.now ≡ spelling packet ++ rest
            → MatchResult result (λ x. (x.0 ≡ packet) × (x.1.now ≡ rest))
            (λ fault. fault ≡ Fault.NoMemory) }
        // Which refusal it is: the first test that fails.
        ensures exact { Gives Fault.NoMemory (λ x. (x.0, x.1.now)) result (packet_at octets.now) }
        // Memory is taken only where no test fails.
        ensures no_memory { IfErr result (λ e. e ≡ Fault.NoMemory → IsOk (packet_at octets.now)) }
    {
        packet_at(alloc, octets)
    }
}

// The packet at the front of the octets, and what follows it.
fn packet_at(alloc: Global, octets: &[u8]) -> Result<(Packet, &[u8]), Fault>
    ensures found { IfOk result (λ x. IsPacket x.0 × (octets.now ≡ spelling x.0 ++ x.1.now)) }
    ensures exact { Gives Fault.NoMemory (λ x. (x.0, x.1.now)) result (packet_at octets.now) }
    ensures no_memory { IfErr result (λ e. e ≡ Fault.NoMemory → IsOk (packet_at octets.now)) }
{
    let (lent, rest) = LentPacket::parse(octets)?;
    let packet = lent.packet(alloc)?;
    Ok((packet, rest))
}

impl<'a> LentPacket<'a> {
    /// The packet at the front of the octets, and what follows it, without memory.
    #[tactic(auto, unfolding(crate::specs::Reading::packet_at))]
    pub fn parse(octets: &'a [u8]) -> Result<(LentPacket<'a>, &'a [u8]), Fault>
        // The octets are the packet's spelling, and what follows it.
        ensures found { IfOk result (λ x. IsPacket x.0 × (octets.now ≡ spelling x.0 ++ x.1.now)) }
        // Which refusal it is: the first test that fails.
        ensures exact { MatchResult result (λ x. packet_at octets.now ≡ Ok (x.0, x.1.now))
            (λ fault. packet_at octets.now ≡ Err fault) }
        ensures no_memory { IfErr result (λ fault. fault ≢ Fault.NoMemory) }
    {
        let (primary, rest) = primary_at(octets).ok_or(Fault::Short)?;
        let primary = primary.tested()?;
        let (field, rest) = data_field_at(primary, rest).ok_or(Fault::Short)?;
        let (secondary, body) = secondary_at(primary.is_telecommand(), field).ok_or(
            Fault::HeaderCut,
        )?;
        if secondary.first >> 4 != PUS_VERSION {
            return Err(Fault::PusVersion);
        }
        let packet = LentPacket {
            header: header_of(primary, secondary),
            kind: secondary.kind,
            body,
        };
        Ok((packet, rest))
    }
}
