//! The mass memory of a spacecraft: named packet stores with their storage control.
#![tactic(auto)]

mod answer;
mod apply;
mod change;
mod fault;
mod instruction;
pub mod laws;
mod memory;
mod places;
mod recording;
mod reports;
mod request;
mod setup;
mod spare;
mod tally;
mod validation;

pub use answer::{Answer, Answers};
pub use fault::Fault;
pub use memory::Memory;
pub use mm_base::NoMemory;
pub use mm_desk::Held;
pub use places::{place_of, store_of};
pub use spare::{Spare, hands_back, refuses};
pub use tally::Tally;
