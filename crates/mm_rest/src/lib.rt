//! What is left of a dumping problem after a step of a plan, and its texts.
#![tactic(auto)]

mod begun;
mod document;
mod forecast;
mod halt;
pub mod laws;
mod rest;
mod script;

pub use document::print_setup;
pub use forecast::print_forecast;
pub use halt::{HaltedStep, halt_script};
pub use rest::{RestTexts, held_after, rest_after, rest_texts};
pub use script::{kept_step, rest_script};
