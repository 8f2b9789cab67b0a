//! The program, over any files and any writers: its words are read as a task, the task's files are read, and what
//! answers it is printed.
#![tactic(auto)]

mod advice;
mod answers;
mod compare;
mod fault;
mod flight;
mod given;
mod halt;
mod left;
mod mission;
mod remark;
mod run;
mod spot;
mod status;
mod streams;
mod tables;
mod tasks;
mod texts;

pub use fault::Fault;
pub use mm_files::{
    Device, Files, Input, MAX_READS, Obstacle, ReadFault, Readings, ScriptFiles, StoreFault,
    SystemFiles, UntilClosed, first_line, read_to_end,
};
pub use mm_sensitivity::{Progress, Silent};
pub use run::{
    refuse_input, refuse_words, run_script, run_script_with_progress, run_tool,
    run_tool_with_progress, run_words,
};
pub use status::{Status, Unwritten};
pub use tasks::{do_task, do_without_run};
