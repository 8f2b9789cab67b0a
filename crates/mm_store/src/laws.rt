//! Laws of packet stores, over the definitions alone. Each is the contract of a function with an empty body.
ghost use Rattle.mm_store.specs.Laws.{LoseAlike, PutsKeepStores, DeletionsKeepStores};

/// A put before the end of the clock leaves one packet more or a full store, and hands back the one that does not fit,
/// for either kind of store and any times.
pub fn stores_lose_alike()
    ensures law { LoseAlike }
{}

/// What a put or a deletion leaves is a store, so that any number of them may follow one another.
pub fn stores_stay_stores()
    ensures put { PutsKeepStores }
    ensures delete_up_to { DeletionsKeepStores }
{}
