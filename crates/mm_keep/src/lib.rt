//! Plans that keep the first steps of another plan, and lose least after them.
#![tactic(auto)]

mod joining;
mod later;
mod sheets;

pub use sheets::{keep_sheet, keep_text};
