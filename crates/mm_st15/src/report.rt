//! Reports of service 15.
ghost use Rattle.std.specs.Prelude.{◌≡◌, ◌*◌, ◌<◌, ◌≤◌, ◌^◌, ◌∷◌, ◌++◌, length, is_some, IfOk, IfSome, MatchBool};
ghost use Rattle.std.specs.Prelude.{MatchResult, MatchOption, IsOkUnless};
ghost use Rattle.std.specs.List.{flat_map, AllByRecursion};
ghost use Rattle.std.specs.Int.{w16, to_be_bytes};
ghost use Rattle.mm_packet.specs.declared.header.TheConstants.{IDLE_APID, TELEMETRY_BODY};
ghost use Rattle.mm_packet.specs.declared.header.PacketType.TheVariants.{Telemetry};
ghost use Rattle.mm_st15.specs.Layout.{octets_of, Fits, row_layout};
ghost use Rattle.mm_st15.specs.ReportKind.{code_of};
ghost use Rattle.mm_st15.specs.Report.{is_counted, kind_of, moment_of, data_of, HasCount, FitsEntries, IsReport};
ghost use Rattle.mm_st15.specs.Report.{SpellsReport, report_fault};

use crate::counted::{counted_entries, counted_octets};
use crate::entries::Entries;
use crate::entry::{Entry, entries_of, id_at, put_entries};
use crate::fault::Fault;
use crate::instruction::Configuration;
use crate::report_entry::{Row, Status, Summary};
use crate::report_kind::ReportKind;
use crate::service::SERVICE;
use mm_base::NoMemory;
use mm_packet::{Header, Octets, Packet, u16_at};
use std::alloc::{AllocError, Global};

/// The greatest number of rows in a report of the storage control, for which a packet has room.
pub const MOST_ROWS: usize = 16_377;

/// A report: a case for each subtype, with the moment of its request in ticks, and its entries.
#[derive(Debug, Drop)]
pub enum Report {
    /// Subtype 6: the storage control of a store.
    Control {
        moment: u64,
        id: [u8; 8],
        rows: Entries<Row>,
    },
    /// Subtype 13: summaries of the content.
    Summaries {
        moment: u64,
        entries: Entries<Summary>,
    },
    /// Subtype 19: the status of each store.
    Statuses {
        moment: u64,
        entries: Entries<Status>,
    },
    /// Subtype 23: the configuration of each store.
    Configurations {
        moment: u64,
        entries: Entries<Configuration>,
    },
}

impl Report {
    /// The report that a packet spells.
    pub fn read(alloc: Global, packet: &Packet) -> Result<Report, Fault>
        // The packet spells the report.
        ensures found { IfOk result (λ report. IsReport report × SpellsReport packet.now report) }
        // A report that the packet spells is read, unless memory runs out.
        ensures only { (report : Report) → IsReport report → SpellsReport packet.now report
            → MatchResult result (λ read. read ≡ report) (λ fault. fault ≡ Fault.NoMemory) }
        // Which refusal it is: the first test that fails.
        ensures refused { MatchOption (report_fault packet.now) (IsOkUnless result Fault.NoMemory)
            (λ fault. result ≡ Err fault) }
    {
        report_in(alloc, packet)
    }

    /// The telemetry that spells the report. Its time is the moment, its time reference status is 0.
    pub fn write(
        &self,
        alloc: Global,
        apid: u16,
        count: u16,
        counter: u16,
        destination: u16,
    ) -> Result<Packet, NoMemory>
        requires apid { apid < IDLE_APID }
        requires count { count < 2 ^ 14 }
        requires entries { HasCount self.now }
        ensures spelled { IfOk result (λ packet. SpellsReport packet self.now) }
        ensures fits { IfOk result (λ _. IsReport self.now) }
        ensures apid { IfOk result (λ packet. packet.header.apid ≡ apid) }
        ensures count { IfOk result (λ packet. packet.header.count ≡ count) }
        ensures low { IfOk result (λ packet. packet.header.low ≡ 0) }
        ensures kind { IfOk result (λ packet. packet.kind
            ≡ Telemetry counter destination (moment_of self.now)) }
    {
        let header = Header {
            apid,
            count,
            low: 0,
            service: SERVICE,
            subtype: self.subtype(),
        };
        let body = Octets::new(self.data(alloc)?)?;
        Ok(Packet::tm(header, counter, destination, self.moment(), body))
    }

    /// The subtype.
    #[must_use]
    pub fn subtype(&self) -> u8
        ensures code { result ≡ code_of (kind_of self.now) }
    {
        self.kind().code()
    }

    /// What the report tells.
    #[must_use]
    pub fn kind(&self) -> ReportKind
        ensures kind { result ≡ kind_of self.now }
    {
        match self {
            Report::Control { .. } => ReportKind::Control,
            Report::Summaries { .. } => ReportKind::Summaries,
            Report::Statuses { .. } => ReportKind::Statuses,
            Report::Configurations { .. } => ReportKind::Configurations,
        }
    }

    /// The moment of the request that the report answers, in ticks.
    #[must_use]
    pub fn moment(&self) -> u64
        ensures moment { result ≡ moment_of self.now }
        ensures in_range { moment_of self.now < 2 ^ 64 }
    {
        match self {
            Report::Control { moment, .. } => *moment,
            Report::Summaries { moment, .. } => *moment,
            Report::Statuses { moment, .. } => *moment,
            Report::Configurations { moment, .. } => *moment,
        }
    }

    fn data(&self, alloc: Global) -> Result<Vec<u8>, AllocError>
        requires { HasCount self.now }
        ensures octets { IfOk result (λ octets. octets.items ≡ data_of self.now) }
        ensures room { IfOk result (λ octets. length octets.items ≤ TELEMETRY_BODY) }
        ensures fits { IfOk result (λ _. FitsEntries self.now) }
    {
        match self {
            Report::Control { id, rows, .. } => control_octets(alloc, id, rows),
            Report::Summaries { entries, .. } => counted_octets(alloc, entries),
            Report::Statuses { entries, .. } => counted_octets(alloc, entries),
            Report::Configurations { entries, .. } => counted_octets(alloc, entries),
        }
    }
}

// The identifier, the number of the rows, and the rows.
fn control_octets(alloc: Global, id: &[u8; 8], rows: &Entries<Row>) -> Result<Vec<u8>, AllocError>
    requires { length rows.now ≤ MOST_ROWS }
    ensures octets { IfOk result (λ out. out.items
        ≡ id.now ++ to_be_bytes w16 (length rows.now) ++ flat_map (octets_of row_layout) rows.now) }
    ensures room { IfOk result (λ out. length out.items ≤ TELEMETRY_BODY) }
    ensures fits { IfOk result (λ _. (length id.now ≡ 8) × AllByRecursion (Fits row_layout) rows.now) }
{
    let mut out = Vec::new(alloc);
    out.extend_from_slice(id)?;
    out.extend_from_slice(&(rows.as_slice().len() as u16).to_be_bytes())?;
    put_entries(&mut out, rows)?;
    Ok(out)
}

// The identifier, the number of the rows and their octets, if they are that many rows.
fn rows_at(octets: &[u8]) -> Option<([u8; 8], usize, &[u8])>
    ensures value { is_some result ≡ is_counted ReportKind.Control octets.now }
    ensures parts { IfSome result (λ x. octets.now ≡ x.0 ++ to_be_bytes w16 x.1 ++ x.2.now) }
    ensures id { IfSome result (λ x. length x.0 ≡ 8) }
    ensures len { IfSome result (λ x. length x.2.now ≡ x.1 * 4) }
{
    let (id, rest) = id_at(octets)?;
    let (count, rest) = u16_at(rest)?;
    if rest.len() != count as usize * Row::WIDTH {
        return None;
    }
    Some((id, count as usize, rest))
}

// The report with these data.
fn report_of(kind: ReportKind, alloc: Global, moment: u64, octets: &[u8]) -> Result<Report, Fault>
    requires { length octets.now ≤ TELEMETRY_BODY }
    ensures kind { IfOk result (λ report. kind_of report ≡ kind) }
    ensures moment { IfOk result (λ report. moment_of report ≡ moment) }
    ensures spelled { IfOk result (λ report. octets.now ≡ data_of report) }
    ensures fits { IfOk result IsReport }
    ensures refused { MatchBool (is_counted kind octets.now)
        (IsOkUnless result Fault.NoMemory) (result ≡ Err Fault.CountMismatch) }
{
    let report = match kind {
        ReportKind::Control => {
            let (id, count, octets) = rows_at(octets).ok_or(Fault::CountMismatch)?;
            let rows = entries_of(alloc, count, octets)?;
            Report::Control { moment, id, rows }
        }
        ReportKind::Summaries => {
            let entries = counted_entries(alloc, 0, octets)?;
            Report::Summaries { moment, entries }
        }
        ReportKind::Statuses => {
            let entries = counted_entries(alloc, 0, octets)?;
            Report::Statuses { moment, entries }
        }
        ReportKind::Configurations => {
            let entries = counted_entries(alloc, 0, octets)?;
            Report::Configurations { moment, entries }
        }
    };
    Ok(report)
}

// The report that a packet spells.
fn report_in(alloc: Global, packet: &Packet) -> Result<Report, Fault>
    ensures found { IfOk result (λ report. IsReport report × SpellsReport packet.now report) }
    ensures refused { MatchOption (report_fault packet.now) (IsOkUnless result Fault.NoMemory)
        (λ fault. result ≡ Err fault) }
{
    if packet.is_telecommand() || packet.service() != SERVICE {
        return Err(Fault::NotSt15);
    }
    let kind = ReportKind::of_code(packet.subtype()).ok_or(Fault::UnknownSubtype)?;
    report_of(kind, alloc, packet.time(), packet.body())
}
