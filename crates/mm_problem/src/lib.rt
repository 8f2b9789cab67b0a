//! The setup and the forecast of a spacecraft's mass memory, read as one dumping problem.
#![tactic(auto)]

mod cells;
mod changed;
mod columns;
mod come;
mod data;
mod document;
mod fault;
mod keys;
pub mod laws;
mod problem;
mod reading;
mod records;
mod rows;
mod setup;
mod sizes;
mod steps;
mod tables;
mod texts;

pub use come::Arrivals;
pub use fault::{Fault, Name};
pub use mm_base::{
    CHANNELS, Kind, LimitRow, MAX_APID, MAX_BLOCKS, MAX_CHANNEL, MAX_ROUTES, MAX_STEPS, MAX_STORES,
    RouteRow, StoreId, StoreRow, lines, numbers,
};
pub use problem::Problem;
pub use setup::Setup;
pub use texts::read_problem;
