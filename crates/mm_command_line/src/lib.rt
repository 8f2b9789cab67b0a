//! The command line of the program: its words are read as a task.
#![tactic(auto)]

mod chart;
mod command;
mod commands;
mod file;
mod flight;
mod line;
mod mission;
mod options;
mod read;
mod rest;
mod sensitivity;
mod table;
mod task;
mod version;
mod wrong_flag;

pub use line::parse;
pub use task::{FileNames, FlightFiles, FlightPlan, KeptSteps, MissionPart, PlanFiles, Role, Task};
pub use version::{VERSION, asks_version};
pub use wrong_flag::{FlagFault, flag_fault};
