//! Missions whose passes overlap: one mission of `mm_mission` for each transmitter.
#![tactic(auto)]

mod given;
mod rates;
mod serving;
#[cfg(test)]
mod serving_tests;
#[cfg(test)]
mod tests;
mod times;

pub use given::both;
pub use serving::{Served, better};
pub use times::edges;
