//! Laws of orders, over the definitions alone.
ghost use Rattle.mm_dump.specs.Laws.{BrokenOrdersChangeNothing, IdleStoresSuitOrders, SettledOrdersAreDumped};

use crate::link::Link;

/// An order that broke leaves its store as it was: what it holds, its counters and its storage switch. No retrieval is
/// on.
pub fn broken_orders_change_nothing()
    ensures law { BrokenOrdersChangeNothing }
{}

/// Where no retrieval is on at any store, none is on at a store that an order names.
#[tactic(auto, using(crate::proofs::Leaving::all_idle))]
pub fn idle_stores_suit_orders()
    ensures law { IdleStoresSuitOrders }
{}

/// Orders of which none broke were all carried out whole: each by one link, once, which sent what its stores gave.
#[tactic(auto, using(crate::proofs::Unbroken::all_dumped))]
pub fn settled_orders_without_a_break_are_dumped<L: Link>()
    ensures law { SettledOrdersAreDumped L.sent L.failed }
{}
