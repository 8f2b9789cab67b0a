//! What people and callers are told: the words of each refusal, and for C and Python a text or a refusal with its
//! place.
#![tactic(auto)]

mod answer;
mod codes;
mod findings;
mod hints;
mod reason;
mod refused_at;
mod room;
mod spot;
mod table;
mod verdict;
mod wording;
mod words;

pub use answer::{Answer, Status, tell_text};
pub use codes::{NAMES, PLACES, Place, REFUSALS, refusal_numbered};
pub use hints::{
    EndsHint, Hint, Note, RequestHints, TextKind, Texts, fit_hint, flyable_hint, found_for,
    hint_for, notes_on, opening_hint, packets_hint, request_hint, verdict_hint,
};
pub use reason::Reason;
pub use refused_at::RefusedAt;
pub use room::{PLAN_ROOM, plan_texts_fit};
pub use spot::{Spot, spot_in_plan, spot_in_problem, spot_in_texts};
pub use verdict::{VerdictKind, VerdictTold};
pub use wording::{WORDS_ROOM, words_of};
pub use words::Words;
