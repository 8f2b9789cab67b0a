//! Plain, slow references: they try every dump plan of a tiny problem, or every cut of a tiny network, for a better
//! one.
#![tactic(auto)]

mod counting;
mod cuts;
pub mod laws;
mod trying;

pub use cuts::{MAX_TRIED, cut_below};
pub use mm_plan::NoMemory;
pub use trying::plan_below;
