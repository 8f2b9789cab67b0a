//! Laws of the store machine, over the definitions alone.
ghost use Rattle.std.specs.Prelude.{◌≡◌};
ghost use Rattle.mm_desk.specs.declared.desk.TheConstants.{MAX_SEATS};
ghost use Rattle.mm_desk.specs.Fates.{ConservePackets, GiveWhatIsKnown, GiveInOrder};
ghost use Rattle.mm_desk.specs.Losses.{BoundedLoseNew, CircularLoseOldest, GiveLater, GiveRising};
ghost use Rattle.mm_desk.specs.Retrievals.{RetrievalsGiveRanges};
ghost use Rattle.mm_desk.specs.Laws.{KeepBalance, KeepStates, ReplaysKeepStates, OffersLeave, ShufflesLoseAlike};
ghost use Rattle.mm_desk.specs.Laws.{OrdersDumpTheOldest, LoneSeatsAreLogs};

use mm_store::laws::{stores_lose_alike, stores_stay_stores};

/// After every event what was offered is lost, deleted or held.
pub fn events_keep_the_balance()
    ensures law { KeepBalance }
{
    stores_lose_alike();
}

/// An event whose times fit 64 bits leaves a state, and so does a log of such events.
pub fn events_keep_a_state()
    ensures event { KeepStates }
    ensures log { ReplaysKeepStates }
{
    events_keep_the_balance();
    stores_stay_stores();
}

/// Offers that are not refused leave the same volume and lose the same number of packets in any order, in either kind
/// of store: each adds one packet, up to the size, and the rest is lost.
pub fn any_order_loses_alike()
    ensures leaves { OffersLeave }
    ensures alike { ShufflesLoseAlike }
{}

/// No packet is lost uncounted, and none is invented: over any events from any state, in either kind of store, each
/// packet that was held or offered and not refused is deleted, held or given up. The counter of losses tells how many
/// were given up.
pub fn events_conserve_packets()
    ensures law { ConservePackets }
{}

/// A retrieval gives what was held or offered before, and its packets have rising times: none comes twice.
#[tactic(auto, using(crate::proofs::FateLemmas::gives_known, crate::proofs::FateLemmas::gives_in_order))]
pub fn retrievals_give_in_order()
    ensures known { GiveWhatIsKnown }
    ensures rising { GiveInOrder }
{}

/// While a by-time-range retrieval is on, with any other events between, each packet that it gives is held and in the
/// range, times rise, and nothing is deleted. Once it has ended and was not aborted, each packet of the range that was
/// held at its begin was given or overwritten.
pub fn retrievals_give_their_range()
    ensures law { RetrievalsGiveRanges }
{}

/// A bounded store loses only packets that find it full, and none that it holds for them. A circular store loses only
/// what it overwrites, and each such packet is older than all that the store holds then and later. What is given is
/// later than all that was overwritten or deleted before.
pub fn stores_lose_new_or_oldest()
    ensures bounded { BoundedLoseNew }
    ensures circular { CircularLoseOldest }
    ensures later { GiveLater }
    ensures rising { GiveRising }
{}

/// A whole dump order gives and deletes the oldest packets: as many as it wants, or all that are held.
pub fn orders_dump_the_oldest()
    ensures law { OrdersDumpTheOldest }
{}

/// Where one seat alone made calls, its list is the log.
pub fn lone_seats_are_logs()
    ensures law { LoneSeatsAreLogs }
{}

/// The most seats of a desk, and of a pass book.
pub fn constants_are()
    ensures seats { MAX_SEATS ≡ 16 }
{}
