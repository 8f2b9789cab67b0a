//! The storage control of a spacecraft's mass memory: which report types go into which packet stores.
#![tactic(auto)]

mod fault;
pub mod laws;
mod table;

pub use fault::Fault;
pub use mm_base::NoMemory;
pub use table::ControlTable;
