//! Networks with capacities, and a maximum flow with a minimum cut that shows it to be one.
#![tactic(auto)]

mod arc;
mod fault;
pub mod laws;
mod limits;
mod links;
mod network;
pub mod paths;
mod phase;
mod residual;
mod search;
mod solved;
mod solver;
mod tables;

pub use arc::Arc;
pub use fault::Fault;
pub use limits::{MAX_ARCS, MAX_CAPACITY, MAX_NODES};
pub use mm_base::NoMemory;
pub use network::Network;
pub use solved::Solved;
pub use solver::{solve, solve_from};
