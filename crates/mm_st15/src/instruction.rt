//! The instructions of requests, each of fixed width. An identifier is its octets, as they came.

/// Names a packet store: 8 octets.
#[derive(Clone, Copy, Debug, PartialEq, Eq)]
pub struct Target {
    pub id: [u8; 8],
}

/// Names a report type in the storage control of a store: 12 octets.
#[derive(Clone, Copy, Debug, PartialEq, Eq)]
pub struct ReportType {
    pub id: [u8; 8],
    pub apid: u16,
    pub service: u8,
    pub subtype: u8,
}

/// A range of storage times of a store, both ends included, in ticks: 24 octets.
#[derive(Clone, Copy, Debug, PartialEq, Eq)]
pub struct TimeRange {
    pub id: [u8; 8],
    pub from: u64,
    pub to: u64,
}

/// A greatest storage time of a store, in ticks: 16 octets.
#[derive(Clone, Copy, Debug, PartialEq, Eq)]
pub struct TimeLimit {
    pub id: [u8; 8],
    pub limit: u64,
}

/// A store's size in blocks, its type (0 circular, 1 bounded) and its virtual channel: 14 octets.
#[derive(Clone, Copy, Debug, PartialEq, Eq)]
pub struct Configuration {
    pub id: [u8; 8],
    pub size: u32,
    pub kind: u8,
    pub channel: u8,
}

/// A size for a store, in blocks: 12 octets.
#[derive(Clone, Copy, Debug, PartialEq, Eq)]
pub struct Size {
    pub id: [u8; 8],
    pub size: u32,
}

/// A virtual channel for a store: 9 octets.
#[derive(Clone, Copy, Debug, PartialEq, Eq)]
pub struct Channel {
    pub id: [u8; 8],
    pub channel: u8,
}
