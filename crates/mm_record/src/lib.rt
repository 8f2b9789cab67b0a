//! Recorders: each takes what its source gives in a step, and offers it to the packet stores, in a thread of its own.
#![tactic(auto)]

mod cause;
mod context;
mod later;
pub mod laws;
mod live;
mod memory_step;
mod offering;
mod readiness;
mod recorder;
mod routing;
mod source;
mod step;

pub use cause::cause_in;
pub use later::{Later, later_sources};
pub use live::{Live, LiveSource};
pub use memory_step::{RecordHalted, Recorded, RecordedStep, record_stores};
pub use mm_report::{Cause, LATEST_START, MAX_SOURCES};
pub use readiness::{cause_before, is_clock_late, is_count, is_ready};
pub use source::{AnySource, Source};
pub use step::{RecordingStep, record, record_open};
