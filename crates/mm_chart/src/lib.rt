//! Charts of dump plans: what is lost, when, and why no plan loses less.
#![tactic(auto)]

mod column;
mod document;
mod headline;
mod laws;
mod layout;
mod legend;
mod marked;
mod pen;
mod phrases;
mod picture;
mod rows;
mod series;
mod shades;
mod table;
mod words;
mod worths;

pub use column::Column;
pub use document::{chart_bytes, draw};
pub use laws::{
    firsts_words_are, headline_words_are, helping_words_are, legend_words_are, marked_words_are,
    only_listed_helps, records_balance, sum_words_are, sums_add_up, worth_words_are,
};
pub use mm_cut::Fault;
pub use picture::Picture;
pub use series::Series;
pub use table::{table_bytes, table_of};
pub use worths::Worths;
