//! Tests of the crates that plan dumping problems and judge plans.
#![tactic(auto)]

#[cfg(test)]
mod tests;
