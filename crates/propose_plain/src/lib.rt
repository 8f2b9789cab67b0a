//! Proposes a dump plan, and a cut that may show that the plan loses least. Callers verify the proposal.
#![tactic(auto)]

mod amounts;
mod arcs;
mod cuts;
mod greedy;
mod moves;
mod node;
mod paths;
mod proposal;
mod search;
mod sets;
mod spans;
mod stores;

pub use proposal::{first_plan, propose};
