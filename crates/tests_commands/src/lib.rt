//! The worked examples, each through the whole program, and the program's answers to files and writers that fail.
#![tactic(auto)]

mod causes;
#[cfg(test)]
mod tests;

pub use causes::last_lines_of_runs;
