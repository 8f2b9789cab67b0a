//! What every crate stands on: identifiers, kinds, rows and limits of a setup, numbers and lines of texts, refusals.
#![tactic(auto)]

mod fault;
pub mod grid;
mod id;
mod kind;
pub mod laws;
mod limits;
pub mod lines;
mod memory;
pub mod numbers;
mod refusal;
mod refused;
mod rows;

pub use fault::Fault;
pub use id::StoreId;
pub use kind::Kind;
pub use limits::{CHANNELS, MAX_APID, MAX_BLOCKS, MAX_CHANNEL, MAX_ROUTES, MAX_STEPS, MAX_STORES};
pub use memory::NoMemory;
pub use refusal::Refusal;
pub use refused::Refused;
pub use rows::{LimitRow, RouteRow, StoreRow};
