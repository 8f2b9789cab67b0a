//! The entries of reports, each of fixed width. A configuration is also one.

/// A report type that a store keeps, a row of the storage control: 4 octets.
#[derive(Clone, Copy, Debug, PartialEq, Eq)]
pub struct Row {
    pub apid: u16,
    pub service: u8,
    pub subtype: u8,
}

/// A store's oldest and newest storage times, in ticks, and how many packets it holds: 28 octets.
#[derive(Clone, Copy, Debug, PartialEq, Eq)]
pub struct Summary {
    pub id: [u8; 8],
    pub oldest: u64,
    pub newest: u64,
    pub held: u32,
}

/// Whether a store's storage is on, and whether a retrieval is (0 off, 1 on): 10 octets.
#[derive(Clone, Copy, Debug, PartialEq, Eq)]
pub struct Status {
    pub id: [u8; 8],
    pub storage: u8,
    pub retrieval: u8,
}
