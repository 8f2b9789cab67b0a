//! The run of a dump plan that is made first, and printed with the cut that shows that it loses least. What carries a
//! plan out is passed on from the crates below.
#![tactic(auto)]

mod carrying;
mod flying;
mod recording;

pub use carrying::carry_out;
pub use flying::{fly, fly_for, fly_printed, unplanned};
pub use mm_carry::laws::{
    broken_steps_are_logs, draws_meet_no_refusal, halves_make_step_runs, runs_lose_as_planned,
    step_runs_keep_stores, steps_without_stop_are_whole, whole_steps_fit,
};
pub use mm_carry::{
    Flown, FlyHalted, FlyResult, Halted, MAX_LINKS, Requirement, RunEnd, laws, ready,
};
pub use mm_dump::{Link, SendFailed};
pub use mm_planner::Goal;
pub use mm_record::{AnySource, Live, LiveSource, RecordHalted, Recorded, RecordedStep, Source};
pub use mm_report::{Cause, LATEST_START, MAX_SOURCES, Report};
pub use recording::record_step;
