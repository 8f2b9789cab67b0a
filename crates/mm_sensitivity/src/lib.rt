//! The worth of each window, store size and limit of a problem: how many blocks fewer the least plan loses if it is
//! larger.
#![tactic(auto)]

mod base;
mod charts;
mod item;
mod laws;
mod lowering;
mod progress;
mod table;
mod worth;

pub use charts::{chart_worths, worth_chart_bytes};
pub use item::Item;
pub use laws::wider_windows;
pub use mm_cut::Fault;
pub use progress::{Progress, Silent};
pub use table::{sensitivity_bytes, table_of};
pub use worth::{Worth, worths, worths_with_progress};
