//! Laws on missions in continuous time: what a store has room for between the edges of steps, and what each timeline
//! loses, in whatever steps.
#![tactic(auto)]

pub mod laws;
