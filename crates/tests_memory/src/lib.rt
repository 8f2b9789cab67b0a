//! Tests of mm_memory and mm_ask.
#![tactic(auto)]

#[cfg(test)]
mod tests;
