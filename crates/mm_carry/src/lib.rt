//! A dump plan carried out over packet stores: what is tested before it, every step recorded and dumped, the report of
//! what came, was lost, dumped and is held, and the laws of whole runs.
#![tactic(auto)]

mod course;
pub mod laws;
mod open_run;
mod orders;
mod places;
mod readiness;
mod requirement;
mod room;
mod run;
mod run_end;
mod run_parts;
mod step;
mod step_counts;

pub use course::RunContext;
pub use readiness::{MAX_LINKS, has_limit, ready};
pub use requirement::Requirement;
pub use run_end::{Flown, FlyHalted, FlyResult, Halted, RunEnd};
pub use run_parts::RunParts;
pub use step::Stop;
