//! Proposes a dump plan, and a cut that may show that the plan loses least. Callers verify the proposal.
#![tactic(auto)]

mod amounts;
mod arcs;
mod cuts;
mod greedy;
mod in_order;
mod moves;
mod node;
mod order_cuts;
mod path_search;
mod paths;
mod profile;
mod proposal;
mod reached;
mod search;
mod serve;
mod sets;
mod slots;
mod span_sets;
mod spans;
mod stores;
mod transfer;
mod windows;

pub use in_order::propose_in_order;
pub use proposal::{Proposal, propose};
