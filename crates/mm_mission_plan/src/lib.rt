//! From the texts of a mission to what is printed: setup, forecast, plan, sheet and timeline.
#![tactic(auto)]

mod fault;
mod flown;
mod names;
mod plan;
mod rows;
#[cfg(test)]
mod tests;
mod texts;
mod unit;

pub use fault::Fault;
pub use plan::{PlannedMission, plan_mission, plan_mission_text};
pub use rows::{AllRows, Tables, all_rows};
