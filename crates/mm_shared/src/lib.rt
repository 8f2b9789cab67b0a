//! Packet stores that threads share. The state of each is known by the calls that were made on it: nothing is logged,
//! listed or compared at run time.
#![tactic(auto)]

mod calls;
mod counters;
mod label;
mod lock;
mod port;
mod rule;
mod shared;
mod stores;

pub use counters::StoreCounters;
pub use label::StoreLabel;
pub use port::{Port, Ports};
pub use shared::SharedStores;
pub use stores::{
    OpenStores, close_all, counters_at, open_all, place_of, read_states, seat_workers, settle,
};
