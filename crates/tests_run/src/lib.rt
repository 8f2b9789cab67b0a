//! Tests of the crates that carry out a run: desks and shared stores, recorders, dump workers, whole runs, and the
//! callers of each crate.
#![tactic(auto)]

#[cfg(test)]
mod tests;
