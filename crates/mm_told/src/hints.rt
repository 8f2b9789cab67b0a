//! What is found in the files of a task that is refused, for people: one line that says what to change.

// A table: the columns of each row.
macro_rules! table {
    ($($($column:expr),+;)+) => { [$(($($column),+)),+] };
}

// These words, and others after them, with what is shown at the places of both.
macro_rules! said {
    ($words:expr $(, $others:expr)? $(; $($kind:ident($shown:expr)),+)?) => {
        Sentence::new(&[$words $(, $others)?], &[$($(Shown::$kind($shown)),+)?])
    };
}

// What is found, in these words.
macro_rules! found {
    ($($said:tt)+) => { Some(said!($($said)+)) };
}

// What is found there ends the function, if anything is.
macro_rules! tell {
    ($hint:expr) => {
        if let Some(hint) = $hint {
            return Some(hint);
        }
    };
}

mod assigned;
mod cells;
mod ends;
mod excerpt;
mod fit;
mod forecast;
mod form;
mod kind;
mod lines;
mod notes;
mod packets;
mod plan;
mod sentence;
mod setup;
mod tables;
mod verdicts;

use crate::reason::Reason;
use crate::spot::Spot;
pub use ends::{EndsHint, flyable_hint, opening_hint};
use ends::{links_hint, sources_hint};
pub use fit::fit_hint;
use forecast::forecast_hint;
pub use kind::TextKind;
use mm_base::{NoMemory, Refusal};
use mm_problem::Name;
pub use notes::{Note, notes_on};
pub use packets::{RequestHints, packets_hint, request_hint};
use plan::{plan_hint, shape_hint};
pub use sentence::Sentence;
use setup::setup_hint;
use std::alloc::Global;
use std::fmt;
pub use verdicts::verdict_hint;

/// The bytes of a task's files; none for a file that the task does not have.
#[derive(Clone, Copy)]
pub struct Texts<'a> {
    pub setup: &'a [u8],
    pub forecast: &'a [u8],
    pub plan: &'a [u8],
    pub sources: &'a [u8],
    pub links: &'a [u8],
}

/// What is found in a file that is refused. It is shown in one line without its end.
#[derive(Clone, Copy)]
pub enum Hint {
    Said(Sentence),
    Ends(EndsHint),
}

impl fmt::Display for Hint {
    fn fmt<W: fmt::Write>(&self, f: &mut fmt::Formatter<W>) -> fmt::Result {
        match self {
            Hint::Said(sentence) => write!(f, "{sentence}"),
            Hint::Ends(hint) => write!(f, "{}", hint.sentence()),
        }
    }
}

// Whether the refusal is one of the forecast.
fn is_of_forecast(reason: Reason) -> bool {
    match reason.refusal {
        Refusal::ForecastText | Refusal::Header | Refusal::Cell | Refusal::StepNumber => true,
        Refusal::Limit => matches!(
            reason.spot,
            Spot::Number(Name::Steps | Name::Window | Name::Arrivals | Name::Limit)
        ),
        _ => false,
    }
}

// What is found in a file that is refused for this reason.
fn said_of(alloc: Global, reason: Reason, texts: Texts<'_>) -> Result<Option<Sentence>, NoMemory> {
    if is_of_forecast(reason) {
        return forecast_hint(alloc, reason, texts);
    }
    match (reason.refusal, reason.spot) {
        // The sizes of the setup are tested before those of the forecast.
        (Refusal::Limit, Spot::Number(Name::Size)) => {
            match setup_hint(alloc, reason.spot, texts.setup)? {
                None => forecast_hint(alloc, reason, texts),
                hint => Ok(hint),
            }
        }
        (Refusal::SetupText | Refusal::SetupField | Refusal::Limit, _) => {
            setup_hint(alloc, reason.spot, texts.setup)
        }
        (Refusal::PlanText, Spot::Line(line)) => Ok(Some(plan_hint(texts.plan, line))),
        (Refusal::Shape, _) => shape_hint(alloc, texts),
        (Refusal::SourcesText, Spot::Line(line)) => Ok(sources_hint(texts.sources, line)),
        (Refusal::LinksText, Spot::Line(line)) => Ok(links_hint(texts.links, line)),
        _ => Ok(None),
    }
}

/// What is found in the files of a task that is refused for this reason, if more can be said of it; or out of memory.
pub fn found_for(
    alloc: Global,
    reason: Reason,
    texts: Texts<'_>,
) -> Result<Option<Hint>, NoMemory> {
    match said_of(alloc, reason, texts)? {
        Some(sentence) => Ok(Some(Hint::Said(sentence))),
        None => Ok(None),
    }
}

/// The same, with no hint where memory runs out.
#[must_use]
pub fn hint_for(alloc: Global, reason: Reason, texts: Texts<'_>) -> Option<Hint> {
    match found_for(alloc, reason, texts) {
        Ok(found) => found,
        Err(_) => None,
    }
}
