//! Files by their names: those of the system with its standard streams, and those that stand in a script.
#![tactic(auto)]

mod file_name;
mod files;
pub mod laws;
mod readings;
mod script;
mod streams;
mod system;
mod until_closed;

pub use file_name::Shown;
pub use files::{Device, Files, Input, MAX_READS, Obstacle, ReadFault, StoreFault, read_to_end};
pub use readings::Readings;
pub use script::{ScriptFiles, before_heading, first_line};
pub use streams::{STREAM, is_stream};
pub use system::SystemFiles;
pub use until_closed::UntilClosed;
