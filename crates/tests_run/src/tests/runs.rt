//! Whole runs: their reports, what they leave, and why some are refused or halted.

mod crowds;
mod flights;
mod halts;
mod octets;
mod refusals;
mod rows;
mod standing;
pub(crate) mod trials;
