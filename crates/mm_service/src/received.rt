//! Reports of the storage service, read into their fields.
ghost use Rattle.std.specs.Prelude.{◌≡◌, ◌≤◌, length, IfOk};
ghost use Rattle.mm_base.specs.Reading.{Gives};
ghost use Rattle.mm_packet.specs.Packet.{IsTelemetry};
ghost use Rattle.mm_st15.specs.Report.{IsReport, SpellsReport, report_fault};
ghost use Rattle.mm_service.specs.EntryFields.{over};
ghost use Rattle.mm_service.specs.Received.{no_report, id_told, entries_told, report_tested, report_alone, Tells};
ghost use Rattle.mm_service.specs.Reading.{said};
ghost use Rattle.mm_ask.specs.declared.fault.LineFault.TheVariants as line;
ghost use Rattle.mm_service.specs.declared.fault.Fault.TheVariants.{NoMemory};

use crate::entry_fields::{EntryFields, tell_entries};
use crate::fault::Fault;
use mm_ask::{LineFault, packet_alone};
use mm_packet::Packet;
use mm_st15::Report;
use std::alloc::Global;

/// The fields of a report that are no entries.
#[repr(C)]
#[derive(Clone, Copy, Debug, PartialEq, Eq)]
pub struct ReportFields {
    /// The moment of the request that the report answers, in ticks.
    pub moment: u64,
    /// The identifier of the store whose storage control is told; all 0 in another report.
    pub id: [u8; 8],
    /// The application process identifier.
    pub apid: u16,
    /// The packet sequence count.
    pub count: u16,
    /// The message type counter.
    pub counter: u16,
    /// The destination identifier.
    pub destination: u16,
    /// The time reference status.
    pub reference: u8,
    /// The message subtype, which says what is told.
    pub subtype: u8,
}

impl ReportFields {
    /// What is told where there is no report: each field is 0.
    #[must_use]
    pub fn nothing() -> ReportFields
        ensures { result ≡ no_report }
    {
        ReportFields {
            moment: 0,
            id: [0; 8],
            apid: 0,
            count: 0,
            counter: 0,
            destination: 0,
            reference: 0,
            subtype: 0,
        }
    }
}

/// A report that was received, with the telemetry that spells it.
#[derive(Debug, Drop)]
pub struct Received {
    pub packet: Packet,
    pub report: Report,
}

// The report that a packet spells.
fn received_in(alloc: Global, packet: Packet) -> Result<Received, LineFault>
    ensures read { Gives line.NoMemory (λ received. received.packet) result
        (report_tested packet (report_fault packet)) }
    ensures spelled { IfOk result (λ received. IsReport received.report
        × SpellsReport received.packet received.report) }
{
    let report = Report::read(alloc, &packet)?;
    Ok(Received { packet, report })
}

// The report of the packet that the octets are.
fn received_of(alloc: Global, octets: &[u8]) -> Result<Received, LineFault>
    ensures read { Gives line.NoMemory (λ received. received.packet) result (report_alone octets.now) }
    ensures spelled { IfOk result (λ received. IsReport received.report
        × SpellsReport received.packet received.report) }
{
    let packet = packet_alone(alloc, octets)?;
    received_in(alloc, packet)
}

// The identifier that a report has once.
fn id_told(report: &Report) -> [u8; 8]
    ensures { result ≡ id_told report.now }
{
    match report {
        Report::Control { id, .. } => *id,
        _ => [0; 8],
    }
}

impl Received {
    /// The report of the packet that the octets are, with nothing after it, as `Report::read` of `mm_st15` reads it.
    /// The tests come in this order: the packet, octets after it, the report.
    #[tactic(auto, using(crate::proofs::RequestLemmas::spelled_by_telemetry))]
    pub fn read(alloc: Global, octets: &[u8]) -> Result<Received, Fault>
        ensures read { Gives NoMemory (λ received. received.packet) result (said (report_alone octets.now)) }
        ensures spelled { IfOk result (λ received. IsReport received.report
            × SpellsReport received.packet received.report) }
        ensures telemetry { IfOk result (λ received. IsTelemetry received.packet.kind) }
    {
        let received = received_of(alloc, octets)?;
        Ok(received)
    }

    /// Its fields that are no entries.
    #[must_use]
    pub fn fields(&self) -> ReportFields
        requires telemetry { IsTelemetry self.now.packet.kind }
        ensures told { Tells self.now.packet self.now.report result }
    {
        ReportFields {
            moment: self.report.moment(),
            id: id_told(&self.report),
            apid: self.packet.apid(),
            count: self.packet.count(),
            counter: self.packet.counter(),
            destination: self.packet.destination(),
            reference: self.packet.low(),
            subtype: self.report.subtype(),
        }
    }

    /// How many entries it has.
    #[must_use]
    pub fn count(&self) -> usize
        ensures { result ≡ length (entries_told self.now.report) }
    {
        match &self.report {
            Report::Control { rows, .. } => rows.as_slice().len(),
            Report::Summaries { entries, .. } => entries.as_slice().len(),
            Report::Statuses { entries, .. } => entries.as_slice().len(),
            Report::Configurations { entries, .. } => entries.as_slice().len(),
        }
    }

    /// Writes the fields of its entries, in order, at the head of a buffer.
    pub fn tell(&self, out: &mut [EntryFields])
        requires room { length (entries_told self.now.report) ≤ length out.old }
        ensures told { out.new ≡ over (entries_told self.now.report) out.old }
    {
        match &self.report {
            Report::Control { rows, .. } => tell_entries(rows.as_slice(), out),
            Report::Summaries { entries, .. } => tell_entries(entries.as_slice(), out),
            Report::Statuses { entries, .. } => tell_entries(entries.as_slice(), out),
            Report::Configurations { entries, .. } => tell_entries(entries.as_slice(), out),
        }
    }
}
