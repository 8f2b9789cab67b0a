//! The store machine of a spacecraft's mass memory: a packet store with its storage switch, its retrieval and its counters.
#![tactic(auto)]

pub mod agree;
mod copying;
mod desk;
mod entry;
mod event;
mod fault;
mod held;
pub mod holding;
pub mod laws;
mod locked_store;
mod named;
mod opening;
mod pass_book;
mod readers;
mod reply;
mod seat;
mod state;
mod telling;

pub use desk::{Closed, Desk, MAX_SEATS, Parts};
pub use entry::Entry;
pub use event::Event;
pub use fault::Fault;
pub use held::Held;
pub use named::{Named, place_of};
pub use opening::Opening;
pub use pass_book::{PassBook, PassSeat, Passing, WindowFull};
pub use reply::{Offered, Reply, Returned};
pub use seat::Seat;
pub use state::{Retrieval, StoreState};
