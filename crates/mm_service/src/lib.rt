//! The storage service of a mass memory, called with octets: packets are offered and recorded, requests are applied,
//! and their reports and the packets of retrievals are given one by one.
#![tactic(auto)]

mod answers;
mod applying;
mod bounding;
mod entry_fields;
mod fault;
mod giving;
mod instruction_fields;
pub mod laws;
mod offering;
mod reading;
mod received;
mod recording;
mod reporting;
mod requesting;
mod reserve;
mod service;
mod showing;
mod waiting;

pub use answers::{DONE, INSTRUCTIONS};
pub use entry_fields::EntryFields;
pub use fault::Fault;
pub use giving::Given;
pub use instruction_fields::InstructionFields;
pub use mm_memory::Tally;
pub use offering::Fate;
pub use received::{Received, ReportFields};
pub use reporting::Reported;
pub use requesting::{ACKNOWLEDGEMENTS, FieldsFault, RequestFields};
pub use service::Service;
pub use showing::{Listed, Shown};
