//! How each instruction and each entry of a report is spelled: its fields one after another, in big-endian octets.
ghost use Rattle.mm_st15.specs.Layout.{target_layout, report_type_layout, time_range_layout, time_limit_layout, configuration_layout, size_layout, channel_layout, row_layout, summary_layout, status_layout};

use crate::entry::{Entry, id_at};
use crate::instruction::{Channel, Configuration, ReportType, Size, Target, TimeLimit, TimeRange};
use crate::report_entry::{Row, Status, Summary};
use mm_packet::{fields_at, octet_at, put_fields, u16_at, u32_at, u64_at};
use std::alloc::AllocError;

impl Entry for Target {
    ghost layout = { target_layout };

    const WIDTH: usize = 8;

    ghost WIDTH = { 8 };

    fn read(octets: &[u8]) -> Option<(Target, &[u8])> {
        fields_at!(octets; Target { id: id_at })
    }

    fn put(&self, out: &mut Vec<u8>) -> Result<(), AllocError> {
        put_fields!(out; self.id)
    }
}

impl Entry for ReportType {
    ghost layout = { report_type_layout };

    const WIDTH: usize = 12;

    ghost WIDTH = { 12 };

    fn read(octets: &[u8]) -> Option<(ReportType, &[u8])> {
        fields_at!(octets; ReportType { id: id_at, apid: u16_at, service: octet_at, subtype: octet_at })
    }

    fn put(&self, out: &mut Vec<u8>) -> Result<(), AllocError> {
        put_fields!(out; self.id, self.apid.to_be_bytes(), [self.service, self.subtype])
    }
}

impl Entry for TimeRange {
    ghost layout = { time_range_layout };

    const WIDTH: usize = 24;

    ghost WIDTH = { 24 };

    fn read(octets: &[u8]) -> Option<(TimeRange, &[u8])> {
        fields_at!(octets; TimeRange { id: id_at, from: u64_at, to: u64_at })
    }

    fn put(&self, out: &mut Vec<u8>) -> Result<(), AllocError> {
        put_fields!(out; self.id, self.from.to_be_bytes(), self.to.to_be_bytes())
    }
}

impl Entry for TimeLimit {
    ghost layout = { time_limit_layout };

    const WIDTH: usize = 16;

    ghost WIDTH = { 16 };

    fn read(octets: &[u8]) -> Option<(TimeLimit, &[u8])> {
        fields_at!(octets; TimeLimit { id: id_at, limit: u64_at })
    }

    fn put(&self, out: &mut Vec<u8>) -> Result<(), AllocError> {
        put_fields!(out; self.id, self.limit.to_be_bytes())
    }
}

impl Entry for Configuration {
    ghost layout = { configuration_layout };

    const WIDTH: usize = 14;

    ghost WIDTH = { 14 };

    fn read(octets: &[u8]) -> Option<(Configuration, &[u8])> {
        fields_at!(octets; Configuration { id: id_at, size: u32_at, kind: octet_at, channel: octet_at })
    }

    fn put(&self, out: &mut Vec<u8>) -> Result<(), AllocError> {
        put_fields!(out; self.id, self.size.to_be_bytes(), [self.kind, self.channel])
    }
}

impl Entry for Size {
    ghost layout = { size_layout };

    const WIDTH: usize = 12;

    ghost WIDTH = { 12 };

    fn read(octets: &[u8]) -> Option<(Size, &[u8])> {
        fields_at!(octets; Size { id: id_at, size: u32_at })
    }

    fn put(&self, out: &mut Vec<u8>) -> Result<(), AllocError> {
        put_fields!(out; self.id, self.size.to_be_bytes())
    }
}

impl Entry for Channel {
    ghost layout = { channel_layout };

    const WIDTH: usize = 9;

    ghost WIDTH = { 9 };

    fn read(octets: &[u8]) -> Option<(Channel, &[u8])> {
        fields_at!(octets; Channel { id: id_at, channel: octet_at })
    }

    fn put(&self, out: &mut Vec<u8>) -> Result<(), AllocError> {
        put_fields!(out; self.id, [self.channel])
    }
}

impl Entry for Row {
    ghost layout = { row_layout };

    const WIDTH: usize = 4;

    ghost WIDTH = { 4 };

    fn read(octets: &[u8]) -> Option<(Row, &[u8])> {
        fields_at!(octets; Row { apid: u16_at, service: octet_at, subtype: octet_at })
    }

    fn put(&self, out: &mut Vec<u8>) -> Result<(), AllocError> {
        put_fields!(out; self.apid.to_be_bytes(), [self.service, self.subtype])
    }
}

impl Entry for Summary {
    ghost layout = { summary_layout };

    const WIDTH: usize = 28;

    ghost WIDTH = { 28 };

    fn read(octets: &[u8]) -> Option<(Summary, &[u8])> {
        fields_at!(octets; Summary { id: id_at, oldest: u64_at, newest: u64_at, held: u32_at })
    }

    fn put(&self, out: &mut Vec<u8>) -> Result<(), AllocError> {
        put_fields!(out; self.id, self.oldest.to_be_bytes(), self.newest.to_be_bytes(), self.held.to_be_bytes())
    }
}

impl Entry for Status {
    ghost layout = { status_layout };

    const WIDTH: usize = 10;

    ghost WIDTH = { 10 };

    fn read(octets: &[u8]) -> Option<(Status, &[u8])> {
        fields_at!(octets; Status { id: id_at, storage: octet_at, retrieval: octet_at })
    }

    fn put(&self, out: &mut Vec<u8>) -> Result<(), AllocError> {
        put_fields!(out; self.id, [self.storage, self.retrieval])
    }
}
