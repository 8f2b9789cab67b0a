//! Runs from bytes to bytes: what the commands `run` and `fly` read and print, with sources and links that do what a
//! text says.
#![tactic(auto)]

mod fault;
mod flight;
mod keeping_link;
pub mod laws;
mod link;
mod prepared;
mod printed;
mod run;
mod run_plan;
mod script_fault;
mod source;
mod sources;
mod stopped_run;
mod texts;
mod untaken;
mod words;

pub use fault::Fault;
pub use keeping_link::KeepingLink;
pub use link::{FailedSend, Failing, MAX_SEND, MAX_SENT, MAX_WRITTEN, ScriptedLink, read_links};
pub use mm_base::NoMemory;
pub use mm_report::{Cause, MAX_SOURCES};
pub use prepared::PreparedRun;
pub use printed::{Given, Outcome, Printed};
pub use run::{fly_bytes, prepare_run, run_bytes, run_texts};
pub use script_fault::ScriptFault;
pub use source::{MAX_PACKETS, ScriptedSource};
pub use sources::{SourceFile, SourceLine};
pub use stopped_run::{StoppedRun, Volume};
pub use texts::RunTexts;
pub use untaken::{Unstored, Untaken};
