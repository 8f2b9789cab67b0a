//! Tests of mm_base, mm_told, mm_packet, mm_store, mm_control and mm_st15.
#![tactic(auto)]

#[cfg(test)]
mod tests;
