//! Telecommands made of the fields of requests, and reports read into their fields.
ghost use Rattle.std.specs.Prelude.{◌≡◌, length};
ghost use Rattle.mm_told.specs.Telling.{Tells, refused_answer};
ghost use Rattle.mm_service.specs.Received.{entries_told};
ghost use Rattle.mm_service.specs.Requesting.{Requests};
ghost use Rattle.mm_c.specs.Fields.{of_fields, IsWhyUnwritten, entries_answer, put_entries, ReadsReport};

use crate::memory::refused;
use mm_base::Refused;
use mm_service::{
    EntryFields, FieldsFault, InstructionFields, Received, ReportFields, RequestFields,
};
use mm_told::{Answer, Reason, Spot, Status, tell_text};
use std::alloc::Global;

// The answer that fields make no request.
fn unwritten(fault: FieldsFault) -> Answer
    ensures { result ≡ refused_answer (of_fields fault) }
{
    Answer::refused(Reason {
        refusal: fault.refusal(),
        spot: Spot::Whole,
    })
}

/// Writes the octets of the telecommand of a request, as `RequestFields::write` of `mm_service` makes it of the fields of the request and of
/// its instructions.
#[unsafe(no_mangle)]
pub extern "C" fn rudlayog_request_write(
    alloc: Global,
    request: &RequestFields,
    instructions: &[InstructionFields],
    out: &mut [u8],
    answer: &mut Answer,
)
    ensures told { Tells (Requests request.now instructions.now) (IsWhyUnwritten request.now instructions.now) out.old out.new answer.new }
{
    *answer = match request.write(alloc, instructions) {
        Ok(octets) => tell_text(&octets, out),
        Err(fault) => unwritten(fault),
    };
}

// Writes the entries of a report into a buffer, if there is room for all of them, and answers so.
fn tell_entries(received: &Received, entries: &mut [EntryFields]) -> Answer
    ensures answered { result ≡ entries_answer (entries_told received.now.report) (length entries.old) }
    ensures written { entries.new ≡ put_entries (entries_told received.now.report) entries.old }
{
    let count = received.count();
    if count > entries.len() {
        return Answer::with_length(Status::TooSmall, count);
    }
    received.tell(entries);
    Answer::with_length(Status::Written, count)
}

/// Reads a report into its fields and those of its entries, as `Received` of `mm_service` tells them. The length that is answered is the
/// number of its entries, also where the buffer has no room for all of them, and is as it was.
#[unsafe(no_mangle)]
pub extern "C" fn rudlayog_report_read(
    alloc: Global,
    packet: &[u8],
    report: &mut ReportFields,
    entries: &mut [EntryFields],
    answer: &mut Answer,
)
    ensures read { ReadsReport packet.now report.new entries.old entries.new answer.new }
{
    match Received::read(alloc, packet) {
        Ok(received) => {
            *report = received.fields();
            *answer = tell_entries(&received, entries);
        }
        Err(fault) => {
            *report = ReportFields::nothing();
            *answer = refused(fault);
        }
    }
}
