//! Requests of service 15 as lines of text, applied to a mass memory: the answers and the reports,
//! as lines. And packets, read in words and numbers.
#![tactic(auto)]

mod answering;
mod ask;
mod counters;
mod entry_words;
mod fault;
mod label;
pub mod laws;
mod line;
mod lines;
mod packet_words;
mod read;
mod refusals;
mod telemetry;
mod text;

pub use answering::Outcome;
pub use ask::ask_bytes;
pub use counters::{Counters, Numbers};
pub use fault::LineFault;
pub use line::{Asked, lent_alone, packet_alone, packet_of, request_alone, request_of};
pub use mm_base::NoMemory;
pub use mm_packet::SEQUENCE_COUNTS;
pub use mm_problem::Fault;
pub use read::read_bytes;
pub use refusals::{MOST_KEPT, Place, Refusals, RefusedPlace, Replies};
