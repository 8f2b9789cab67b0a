//! Dumping: the packets of stores are sent over links to the ground, and then deleted.
#![tactic(auto)]

mod buffers;
mod carrying;
mod dumper;
pub mod laws;
mod link;
mod memory_link;
mod order;
mod queue;
mod step;
mod worst;

pub use buffers::{DumpBuffers, reserve_dump};
pub use link::{Link, SendFailed, may_fail};
pub use memory_link::{MemoryLink, TakenPacket};
pub use order::{Order, OrderBroken};
pub use step::{Dumped, dump, dump_open};
