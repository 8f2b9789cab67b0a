//! The service.

/// The service type of storage and retrieval (ECSS-E-ST-70-41C).
pub const SERVICE: u8 = 15;
