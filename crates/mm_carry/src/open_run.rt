//! A run under way: the stores are open for its steps.
use mm_shared::OpenStores;
use std::marker::Model;

/// The stores of a run, open for its steps, with its sources and its links.
#[derive(Drop)]
pub(crate) struct OpenRun<S: Drop, L: Drop> {
    pub(crate) stores: OpenStores,
    pub(crate) sources: Vec<S>,
    pub(crate) links: Vec<L>,
}

impl<S: Drop, L: Drop> Model for OpenRun<S, L> {
    ghost use Rattle.mm_shared.specs.Stores.{stores_in, AreAtRest};
    ghost use Rattle.mm_carry.specs.RunState.{RunState};

    ghost Value = { RunState S L };

    ghost view = { λ p. record { stores = stores_in p.stores; sources = p.sources.items; links = p.links.items } };

    ghost invariant = { λ p. AreAtRest p.stores };
}
