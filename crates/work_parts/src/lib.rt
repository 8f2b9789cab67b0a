//! What `work_steps` and `work_exec` share: sources, links that count, and missions made from texts.
#![tactic(auto)]

mod bursts;
mod meter;
mod mission;
mod texts;

pub use bursts::{Bursts, packet};
pub use mission::{Carried, Mission, delete};
pub use texts::{forecast, plan, write_route, write_store};
