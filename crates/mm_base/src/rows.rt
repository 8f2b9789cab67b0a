//! The rows of a setup.

use crate::id::StoreId;
use crate::kind::Kind;

/// A packet store as the setup has it.
#[derive(Clone, Copy, Debug, PartialEq, Eq)]
pub struct StoreRow {
    pub id: StoreId,
    /// How many blocks the store holds, one for each packet.
    pub size: u32,
    /// How many blocks it holds as the first step begins.
    pub start: u32,
    pub kind: Kind,
    /// The virtual channel that it is sent on.
    pub channel: u8,
}

/// A route of the storage control: telemetry with this APID, service and subtype goes into this store.
#[derive(Clone, Copy, Debug, PartialEq, Eq, PartialOrd, Ord)]
pub struct RouteRow {
    pub apid: u16,
    pub service: u8,
    pub subtype: u8,
    pub store: StoreId,
}

/// How many blocks may leave the stores of a channel in one step.
#[derive(Clone, Copy, Debug, PartialEq, Eq)]
pub struct LimitRow {
    pub channel: u8,
    pub blocks: u32,
}
