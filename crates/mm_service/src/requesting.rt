//! Telecommands of the storage service, made of the fields of their requests.
ghost use Rattle.std.specs.Prelude.{◌≡◌, IfOk, IfErr};
ghost use Rattle.mm_base.specs.Reading.{Gives};
ghost use Rattle.mm_st15.specs.RequestKind.{width_of};
ghost use Rattle.mm_service.specs.Requesting.{request_made, is_count, counted, header_tested, requested, AsksFor};
ghost use Rattle.mm_service.specs.Requesting.{Requests, MakesNone, IsCounted};

use crate::instruction_fields::{InstructionFields, instructions_of};
use mm_base::{NoMemory, Refusal, Refused, refusals};
use mm_packet::laws::written_is_read;
use mm_packet::{IDLE_APID, Packet, SEQUENCE_COUNTS};
use mm_st15::laws::request_is_not_refused;
use mm_st15::{Request, RequestKind};
use std::alloc::Global;
use thiserror::Error;

/// How many values the acknowledgement flags have (ECSS-E-ST-70-41C, 7.4.4.1). Every value is below it.
pub const ACKNOWLEDGEMENTS: u8 = 16;

/// The fields of a request that are no instructions.
#[repr(C)]
#[derive(Clone, Copy, Debug, PartialEq, Eq)]
pub struct RequestFields {
    /// The application process identifier of the storage service, below 2047.
    pub apid: u16,
    /// The packet sequence count, below 16,384.
    pub count: u16,
    /// The source identifier.
    pub source: u16,
    /// The acknowledgement flags, below 16.
    pub acknowledgement: u8,
    /// The message subtype, which says what is asked.
    pub subtype: u8,
}

/// Why fields make no request. It is shown as its number, a space and its name.
#[derive(Clone, Copy, Debug, PartialEq, Eq, Error)]
#[error("{}", self.refusal())]
pub enum FieldsFault {
    /// An allocation was refused.
    NoMemory,
    /// The application process identifier is that of idle packets, or above it.
    Idle,
    /// The sequence count or the acknowledgement flags are out of their range.
    Limit,
    /// A subtype that the profile has not.
    UnknownSubtype,
    /// The number of instructions is not from 1 to 255, or there are some where the request has no data.
    CountMismatch,
}

impl Refused for FieldsFault {
    fn refusal(self) -> Refusal {
        refusals!(self; NoMemory, Limit, UnknownSubtype, CountMismatch; but Idle as IdlePacket)
    }

    ghost use Rattle.mm_service.specs.FieldsFault.{refusal_of};

    ghost refusal_of = { refusal_of };
}

impl From<NoMemory> for FieldsFault {
    ghost use Rattle.mm_service.specs.declared.requesting.FieldsFault.TheVariants.{NoMemory};

    ghost from_gives = { λ _ e. e ≡ NoMemory };

    fn from(_error: NoMemory) -> FieldsFault {
        FieldsFault::NoMemory
    }
}

// The request of a kind whose instructions have these fields.
fn request_made(
    alloc: Global,
    kind: RequestKind,
    fields: &[InstructionFields],
) -> Result<Request, NoMemory>
    ensures { IfOk result (λ request. request ≡ request_made kind fields.now) }
{
    Ok(match kind {
        RequestKind::EnableStorage => Request::EnableStorage(instructions_of(alloc, fields)?),
        RequestKind::DisableStorage => Request::DisableStorage(instructions_of(alloc, fields)?),
        RequestKind::AddReportTypes => Request::AddReportTypes(instructions_of(alloc, fields)?),
        RequestKind::DeleteReportTypes => {
            Request::DeleteReportTypes(instructions_of(alloc, fields)?)
        }
        RequestKind::ReportControl => Request::ReportControl(instructions_of(alloc, fields)?),
        RequestKind::StartRetrieval => Request::StartRetrieval(instructions_of(alloc, fields)?),
        RequestKind::DeleteContent => Request::DeleteContent(instructions_of(alloc, fields)?),
        RequestKind::SummariseContent => Request::SummariseContent(instructions_of(alloc, fields)?),
        RequestKind::AbortRetrieval => Request::AbortRetrieval(instructions_of(alloc, fields)?),
        RequestKind::ReportStatus => Request::ReportStatus,
        RequestKind::CreateStores => Request::CreateStores(instructions_of(alloc, fields)?),
        RequestKind::DeleteStores => Request::DeleteStores(instructions_of(alloc, fields)?),
        RequestKind::ReportConfiguration => Request::ReportConfiguration,
        RequestKind::ResizeStores => Request::ResizeStores(instructions_of(alloc, fields)?),
        RequestKind::ChangeToCircular => Request::ChangeToCircular(instructions_of(alloc, fields)?),
        RequestKind::ChangeToBounded => Request::ChangeToBounded(instructions_of(alloc, fields)?),
        RequestKind::ChangeChannel => Request::ChangeChannel(instructions_of(alloc, fields)?),
    })
}

// Whether a request of a kind may have this many instructions.
fn is_count(kind: RequestKind, count: usize) -> bool
    ensures { result ≡ is_count (width_of kind) count }
{
    match kind.width() {
        Some(_) => 1 <= count && count < 256,
        None => count == 0,
    }
}

// The request of a kind with these instructions.
fn request_counted(
    alloc: Global,
    kind: RequestKind,
    fields: &[InstructionFields],
) -> Result<Request, FieldsFault>
    ensures made { Gives FieldsFault.NoMemory (λ request. request) result (counted kind fields.now) }
    ensures count { IfOk result (λ request. IsCounted request) }
{
    if !is_count(kind, fields.len()) {
        return Err(FieldsFault::CountMismatch);
    }
    let request = request_made(alloc, kind, fields)?;
    Ok(request)
}

impl RequestFields {
    // Whether the fields of the headers are in their ranges.
    fn test(&self) -> Result<(), FieldsFault>
        ensures { result ≡ header_tested self.now }
    {
        if self.apid >= IDLE_APID {
            return Err(FieldsFault::Idle);
        }
        if self.count >= SEQUENCE_COUNTS || self.acknowledgement >= ACKNOWLEDGEMENTS {
            return Err(FieldsFault::Limit);
        }
        Ok(())
    }

    // The telecommand of these fields.
    fn packet(
        &self,
        alloc: Global,
        instructions: &[InstructionFields],
    ) -> Result<Packet, FieldsFault>
        ensures asks { IfOk result (λ packet. AsksFor self.now instructions.now packet) }
        ensures refused { IfErr result (MakesNone self.now instructions.now) }
    {
        self.test()?;
        let kind = RequestKind::of_code(self.subtype).ok_or(FieldsFault::UnknownSubtype)?;
        let request = request_counted(alloc, kind, instructions)?;
        let packet = request.write(
            alloc,
            self.apid,
            self.count,
            self.acknowledgement,
            self.source,
        )?;
        Ok(packet)
    }

    /// The octets of the telecommand of the request that these fields and the instructions make, as `Request::write` of
    /// `mm_st15` writes it: `Request::read` gives the request again. The tests come in this order: the application
    /// process identifier, the sequence count and the acknowledgement flags, the subtype, the number of instructions.
    /// No value of an instruction is tested: the service refuses the instruction where it is carried out.
    #[tactic(auto, using(crate::proofs::RequestLemmas::requests))]
    pub fn write(
        &self,
        alloc: Global,
        instructions: &[InstructionFields],
    ) -> Result<Vec<u8>, FieldsFault>
        ensures requests { IfOk result (λ octets. Requests self.now instructions.now octets.items) }
        ensures refused { IfErr result (MakesNone self.now instructions.now) }
    {
        written_is_read();
        request_is_not_refused();
        let packet = self.packet(alloc, instructions)?;
        let octets = packet.write(alloc)?;
        Ok(octets)
    }
}
