//! Reports of the storage service as they are read, written and refused.
ghost use Rattle.mm_st15.specs.Report.{HasCount};

use crate::tests::samples::{CONFIGURATIONS, HK, Host, SCI, STORES, holds, packet_of, writes};
use mm_st15::{Entries, Fault, Report, ReportKind, Row, Status, Summary};

// The report is written as these octets under APID 100.
fn is_written(rt: &impl Host, report: &Report, octets: &[u8])
    requires { HasCount report.now }
{
    let packet = report.write(rt.alloc(), 100, 0, 0, 0).expect(rt, "memory");
    writes(rt, &packet, octets);
}

// Reports of APID 100, count 0, counter 0, destination 0, moment 1 by their subtypes, with the number of the entries
// below that they have, spelled by hand.
static REPORTS: [(u8, usize, &[u8]); 8] = wanted! {
    6, 2 => b"\x08\x64\xC0\0\0\x20\x20\x0F\x06\0\0\0\0\0\0\0\0\0\0\0\x01SCI     \
    \0\x02\0\x64\x03\x19\x07\xFE\xFF\x01";
    6, 0 => b"\x08\x64\xC0\0\0\x18\x20\x0F\x06\0\0\0\0\0\0\0\0\0\0\0\x01SCI     \0\0";
    13, 2 => b"\x08\x64\xC0\0\0\x47\x20\x0F\x0D\0\0\0\0\0\0\0\0\0\0\0\x01\x02\
    SCI     \0\0\0\0\0\0\0\x07\0\0\0\0\0\0\0\x09\0\0\0\x03\
    HK      \0\0\0\0\0\0\0\0\0\0\0\0\0\0\0\0\0\0\0\0";
    13, 0 => b"\x08\x64\xC0\0\0\x0F\x20\x0F\x0D\0\0\0\0\0\0\0\0\0\0\0\x01\0";
    19, 1 => b"\x08\x64\xC0\0\0\x19\x20\x0F\x13\0\0\0\0\0\0\0\0\0\0\0\x01\x01SCI     \x01\0";
    19, 0 => b"\x08\x64\xC0\0\0\x0F\x20\x0F\x13\0\0\0\0\0\0\0\0\0\0\0\x01\0";
    23, 1 => &CONFIGURATIONS;
    23, 0 => b"\x08\x64\xC0\0\0\x0F\x20\x0F\x17\0\0\0\0\0\0\0\0\0\0\0\x01\0";
};

const ROWS: [Row; 2] = table! { Row;
    apid 100, service 3, subtype 25;
    apid 2046, service 255, subtype 1;
};

const SUMMARIES: [Summary; 2] = table! { Summary;
    id SCI, oldest 7, newest 9, held 3;
    id HK, oldest 0, newest 0, held 0;
};

const STATUSES: [Status; 1] = table! { Status; id SCI, storage 1, retrieval 0; };

// Whether the report of a kind has this number of the entries above.
fn has_its_fields(report: &Report, count: usize) -> bool {
    match report {
        Report::Control { id, rows, .. } => *id == SCI && rows.as_slice() == &ROWS[..count.min(2)],
        Report::Summaries { entries, .. } => entries.as_slice() == &SUMMARIES[..count.min(2)],
        Report::Statuses { entries, .. } => entries.as_slice() == &STATUSES[..count.min(1)],
        Report::Configurations { entries, .. } => entries.as_slice() == &STORES[..count.min(1)],
    }
}

// The octets spell a report of this subtype with this number of entries, which is written as the same octets under APID
// 100.
fn is_read_and_written(rt: &impl Host, octets: &[u8], subtype: u8, count: usize) {
    let packet = packet_of(rt, octets);
    let report = Report::read(rt.alloc(), &packet).expect(rt, "a report");
    let is_of_subtype = packet.subtype() == subtype && report.subtype() == subtype;
    let is_whole = report.moment() == 1 && has_its_fields(&report, count);
    holds(rt, is_of_subtype && is_whole, "the report");
    is_written(rt, &report, octets);
}

#[test]
fn every_report_is_read_and_written(rt: HostRuntime) {
    for (subtype, count, octets) in &REPORTS {
        is_read_and_written(&rt, octets, *subtype, *count);
    }
}

#[test]
fn configuration_report(rt: HostRuntime) {
    let list = STORES[..1].to_vec(rt.alloc()).expect(&rt, "memory");
    let report = Report::Configurations {
        moment: 1,
        entries: Entries::new(list),
    };
    assert!(rt; report.kind() == ReportKind::Configurations);
    is_written(&rt, &report, &CONFIGURATIONS);
}

// Octets that are no report, by the fault with which they are refused.
static REFUSED_REPORTS: [(&[u8], Fault); 8] = refused! {
    NotSt15:
        b"\x18\x64\xC0\0\0\x05\x20\x0F\x13\0\0\0",
        b"\x08\x64\xC0\0\0\x0F\x20\x03\x13\0\0\0\0\0\0\0\0\0\0\0\x01\0";
    UnknownSubtype: b"\x08\x64\xC0\0\0\x0F\x20\x0F\x01\0\0\0\0\0\0\0\0\0\0\0\x01\0";
    CountMismatch:
        b"\x08\x64\xC0\0\0\x0E\x20\x0F\x13\0\0\0\0\0\0\0\0\0\0\0\x01",
        b"\x08\x64\xC0\0\0\x19\x20\x0F\x13\0\0\0\0\0\0\0\0\0\0\0\x01\x02SCI     \x01\0",
        b"\x08\x64\xC0\0\0\x19\x20\x0F\x13\0\0\0\0\0\0\0\0\0\0\0\x01\0SCI     \x01\0",
        b"\x08\x64\xC0\0\0\x18\x20\x0F\x06\0\0\0\0\0\0\0\0\0\0\0\x01SCI     \0\x01",
        b"\x08\x64\xC0\0\0\x17\x20\x0F\x06\0\0\0\0\0\0\0\0\0\0\0\x01SCI     \0";
};

#[test]
fn reports_refused(rt: HostRuntime) {
    for (octets, fault) in &REFUSED_REPORTS {
        refuses!(&rt, octets, Report, *fault);
    }
}
