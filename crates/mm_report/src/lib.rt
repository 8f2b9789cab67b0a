//! The report of a run: what each step brought to each store, the text that says it, and why it ended.
#![tactic(auto)]

mod cause;
mod counts;
pub mod laws;
mod report;
mod text;

pub use cause::{Cause, LATEST_START, MAX_SOURCES};
pub use counts::{StepCounts, Totals};
pub use mm_base::NoMemory;
pub use report::Report;
