//! Cuts, verdicts and the checker: what shows that a dump plan loses least, whoever made it. It stands on no planner
//! and no solver.
#![tactic(auto)]

mod bounds;
mod check;
mod counts;
mod fault;
mod firsts;
mod laws;
mod lines;
mod marks;
mod stretches;
mod verdict;

pub use bounds::{Parts, bound, parts_of};
pub use check::{check_bytes, read_sheet, read_texts};
pub use counts::{first_bad_count, is_inner};
pub use fault::Fault;
pub use firsts::{first_not_shown, is_first_cut, shows_first, verdict_of};
pub use laws::{
    cuts_are_few, cuts_bound_losses, cuts_count_alike, first_cuts_bound_losses, only_counted_helps,
    sheet_verdicts_exclude, verdicts_exclude,
};
pub use lines::verdict_line;
pub use marks::{STEP_PLACES, inner_steps, listed_steps};
pub use stretches::{first_bad, inner_end, store_of};
pub use verdict::{Verdict, verify};
