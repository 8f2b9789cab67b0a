//! The networks and the solvers of `mm_flow` as they were before they were made faster. Tests compare both.
#![tactic(auto)]

mod limits;
mod links;
pub mod paths;
mod phase;
mod residual;
mod search;
mod solver;
mod table;
mod tables;

pub use solver::solve;
