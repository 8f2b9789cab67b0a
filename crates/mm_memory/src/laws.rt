//! Laws over memories, from the definitions alone.
ghost use Rattle.mm_memory.specs.Laws.{IdsDecide, TableHasRoutes};
ghost use Rattle.mm_memory.specs.Accounts.{AccountForPackets, RequestsAreCalls};
ghost use Rattle.mm_memory.specs.Losses.{StoresLoseNewOrOldest};
ghost use Rattle.mm_memory.specs.Retrievals.{RetrievalsGiveRangesIn};

/// What `Memory::restore` asks of stores depends on their identifiers alone: they may be put back
/// with any states and virtual channels.
pub fn identifiers_decide_what_is_restored()
    ensures law { IdsDecide }
{}

/// The storage control of a setup has a row exactly where the setup has the route.
pub fn table_has_the_setup_s_routes()
    ensures law { TableHasRoutes }
{
    mm_control::laws::tables_are_sets();
}

/// Over any calls on a memory no packet is lost uncounted, and none is invented. Of each store, what it held and what
/// was recorded in it is what requests deleted, what it holds, and what was given up, as many as its counter says; what
/// a retrieval gave was held or kept with that time, and its times rise. A request that is applied is a call for each
/// of its instructions, in order.
pub fn memories_lose_no_packet_uncounted()
    ensures law { AccountForPackets }
    ensures requests { RequestsAreCalls }
{
    mm_desk::laws::events_conserve_packets();
}

/// While a by-time-range retrieval from a store is on, with any other calls between, each packet that it gives is held
/// and in the range, times rise, and nothing of the store is deleted. Once it has ended and was not aborted, each
/// packet of the range that was held at its begin was given or overwritten.
pub fn retrievals_give_their_range()
    ensures law { RetrievalsGiveRangesIn }
{
    mm_desk::laws::retrievals_give_their_range();
}

/// In any call a bounded store loses only a packet that finds it full, and none that it holds for it. A circular store
/// loses only what it overwrites, and each such packet is older than every packet that the store then holds.
pub fn stores_lose_new_or_oldest()
    ensures law { StoresLoseNewOrOldest }
{
    mm_desk::laws::stores_lose_new_or_oldest();
}
