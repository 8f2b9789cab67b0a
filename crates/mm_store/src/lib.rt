//! Packet stores of a spacecraft's mass memory: circular and bounded, over a ring or a table of blocks.
#![tactic(auto)]

mod any;
mod fault;
pub mod laws;
mod put;
mod queue;
mod queue_store;
mod ring;
mod store;
mod stored;
mod table;

pub use any::AnyStore;
pub use fault::Fault;
pub use mm_base::NoMemory;
pub use put::Put;
pub use queue_store::QueueStore;
pub use ring::RingStore;
pub use store::PacketStore;
pub use stored::Stored;
pub use table::BlockStore;
