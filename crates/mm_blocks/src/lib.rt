//! Blocks for packets, each with a check that finds flipped bits.
#![tactic(auto)]

mod block;
mod blocks;
mod check;
pub mod laws;
mod layout;

pub use block::{Block, Rotten};
pub use blocks::{Blocks, Fault, NoBlock};
pub use check::crc32c;
pub use layout::CHUNK;
