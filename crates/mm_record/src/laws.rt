//! Laws of stores that are lent to recorders, and of sources.
ghost use Rattle.mm_record.specs.Laws.{HeldAreNamed};

use crate::source::AnySource;

/// No two of the stores that a memory holds have one identifier, so they may be lent to recorders.
#[tactic(auto, using(crate::proofs::Memories::named_of))]
pub fn held_stores_are_named()
    ensures law { HeldAreNamed }
{}

/// A source may stay as it is: so what holds whatever comes holds of it as it is.
pub fn sources_may_stay<S: AnySource>()
    ensures law { (s : S) → S.leads s s }
{}
