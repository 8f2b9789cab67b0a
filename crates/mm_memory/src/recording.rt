//! A packet that is recorded: each store that its report type is routed to is offered it.
ghost use Rattle.std.specs.Prelude.{◌≡◌, ◌≤◌, ◌<◌, length, All, Any, Some, IsTrue, IfOk, OnOk, OnErr};
ghost use Rattle.std.specs.Bool.{MatchBool};
ghost use Rattle.mm_base.specs.declared.limits.TheConstants.{MAX_STORES};
ghost use Rattle.mm_memory.specs.Recording.{after_offer, tally_in, after_offers, tally_over, after_record, tally_after};
ghost use Rattle.mm_memory.specs.Routing.{rows_for, leads_to, packet_along, passed};
ghost use Rattle.mm_memory.specs.Spares.{LosesOne, LosesAsManyAsItKeeps, KeepsIt, IsKeptForAnother, IsKept};

use crate::memory::Memory;
use crate::spare::{Spare, given_up, hands_back};
use crate::tally::Tally;
use mm_base::{NoMemory, RouteRow, StoreId};
use mm_control::ControlTable;
use mm_desk::Held;
use mm_packet::{BlockPacket, LentPacket, Packet};
use std::alloc::Global;

// The rows of a packet's report type; none for a telecommand.
fn rows_for<'a>(control: &'a ControlTable, packet: &Packet) -> &'a [RouteRow]
    ensures { result.now ≡ rows_for control.now packet.now }
{
    if packet.is_telecommand() {
        return &[];
    }
    control.rows_for(packet.apid(), packet.service(), packet.subtype())
}

// That of a packet whose data are lent.
fn rows_for_lent<'a>(control: &'a ControlTable, packet: &LentPacket<'_>) -> &'a [RouteRow]
    ensures { result.now ≡ rows_for control.now packet.now }
{
    if packet.is_telecommand() {
        &[]
    } else {
        let header = packet.header();
        control.rows_for(header.apid, header.service, header.subtype)
    }
}

// Whether the row at this place, if there is one, leads to the store with an identifier.
fn leads_at(rows: &[RouteRow], place: usize, id: &StoreId) -> bool
    ensures { IsTrue result → IsTrue (leads_to rows.now id.now) }
{
    place < rows.len() && rows[place].store == *id
}

// Whether one of the rows leads to the store with an identifier. The row at `near` is looked at first.
fn leads_to(rows: &[RouteRow], near: usize, id: &StoreId) -> bool
    ensures { result ≡ leads_to rows.now id.now }
{
    leads_at(rows, near, id) || rows.iter().any(|row| row.store == *id)
}

// Offers a packet to a store, whose answer may leave a spare.
fn offer_one(held: &mut Held, now: u64, packet: BlockPacket, spare: &mut Spare) -> Tally
    ensures store { held.new ≡ after_offer now held.old (Some packet) }
    ensures tally { result ≡ tally_in now held.old (Some packet) }
    ensures kept { result.kept ≤ 1 }
    ensures lost { result.lost ≤ 1 }
    ensures refused { result.refused ≤ 1 }
{
    let answer = held.state.offer(now, packet);
    let tally = Tally::of(&answer);
    spare.keep_of(answer);
    tally
}

// How many stores stand before the first to which one of the rows leads. It is the row at `near` where rows and stores
// stand in one order.
fn passed(rows: &[RouteRow], near: usize, stores: &[Held]) -> usize
    ensures passed { result ≡ passed rows.now stores.now }
    ensures within { result ≤ length stores.now }
{
    stores
        .iter()
        .position(|held| leads_to(rows, near, &held.id))
        .unwrap_or(stores.len())
}

// Offers a packet to each of the stores to which one of the rows leads; the first is one. It takes the packet itself,
// and the others take copies, which are all made before the first offer. The row at `near` leads to the first where
// rows and stores stand in one order.
fn offer_from_first(
    alloc: Global,
    stores: &mut [Held],
    rows: &[RouteRow],
    near: usize,
    now: u64,
    packet: BlockPacket,
    spare: &mut Spare,
) -> Result<Tally, NoMemory>
    requires few { length stores.old ≤ MAX_STORES }
    requires some { 0 < length stores.old }
    requires first { passed rows.now stores.old ≡ 0 }
    ensures stores { OnOk result (stores.new ≡ after_offers now (packet_along rows.now packet) stores.old) }
    ensures tally { IfOk result (λ tally. tally ≡ tally_over now (packet_along rows.now packet) stores.old) }
    ensures kept { IfOk result (λ tally. tally.kept ≤ length stores.old) }
    ensures lost { IfOk result (λ tally. tally.lost ≤ length stores.old) }
    ensures refused { IfOk result (λ tally. tally.refused ≤ length stores.old) }
    ensures err { OnErr result (stores.new ≡ stores.old) }
{
    let Some((first, rest)) = stores.split_first_mut() else {
        unreachable!()
    };
    let next_row = near.wrapping_add(1);
    let next = passed(rows, next_row, rest);
    if next == rest.len() {
        return Ok(offer_one(first, now, packet, spare));
    }
    let (_passed, others) = rest.split_at_mut(next);
    let copy = packet.copy(alloc)?;
    let more = offer_from_first(alloc, others, rows, next_row, now, copy, spare)?;
    let one = offer_one(first, now, packet, spare);
    Ok(Tally {
        kept: one.kept + more.kept,
        lost: one.lost + more.lost,
        refused: one.refused + more.refused,
    })
}

// Offers a packet to each of the stores to which one of the rows leads.
fn offer_each(
    alloc: Global,
    stores: &mut [Held],
    rows: &[RouteRow],
    now: u64,
    packet: BlockPacket,
    spare: &mut Spare,
) -> Result<Tally, NoMemory>
    requires few { length stores.old ≤ MAX_STORES }
    ensures stores { OnOk result (stores.new ≡ after_offers now (packet_along rows.now packet) stores.old) }
    ensures tally { IfOk result (λ tally. tally ≡ tally_over now (packet_along rows.now packet) stores.old) }
    ensures err { OnErr result (stores.new ≡ stores.old) }
{
    let first = passed(rows, 0, stores);
    if first == stores.len() {
        spare.keep(packet);
        return Ok(Tally::nothing());
    }
    let (_passed, others) = stores.split_at_mut(first);
    let tally = offer_from_first(alloc, others, rows, 0, now, packet, spare)?;
    Ok(tally)
}

// Whether a store gives all memory back that it takes for a packet that follows the rows.
fn hands_back_along(rows: &[RouteRow], held: &Held) -> bool
    ensures { MatchBool result (LosesAsManyAsItKeeps rows.now held.now) (KeepsIt rows.now held.now) }
{
    !leads_to(rows, 0, &held.id) || hands_back(&held.state)
}

// Whether each store does.
fn hand_back_along(rows: &[RouteRow], stores: &[Held]) -> bool
    ensures { MatchBool result (All (LosesAsManyAsItKeeps rows.now) stores.now) (Any (KeepsIt rows.now) stores.now) }
{
    stores.iter().all(|held| hands_back_along(rows, held))
}

// Whether two packets share their memory: a copy of the one then makes one owner more of the other's.
fn share_memory(alloc: Global, one: &BlockPacket, other: &BlockPacket) -> bool {
    let owners = other.owners();
    one.copy(alloc).is_ok_and(|_copy| other.owners() > owners)
}

impl Memory {
    /// Offers a packet at a moment, in ticks, to each store that its report type is routed to, as the recorders of a
    /// run do; a telecommand goes to no store. A store whose storage is off, or whose clock is at its end, refuses it,
    /// and the others take it all the same. `NoMemory` has changed nothing.
    pub fn record(
        &mut self,
        alloc: Global,
        now: u64,
        packet: &BlockPacket,
    ) -> Result<Tally, NoMemory>
        ensures after { OnOk result (self.new ≡ after_record now packet.now self.old) }
        ensures tally { IfOk result (λ tally. tally ≡ tally_after now packet.now self.old) }
        ensures err { OnErr result (self.new ≡ self.old) }
    {
        let rows = rows_for(&self.control, packet.packet());
        if passed(rows, 0, &self.stores) == self.stores.len() {
            return Ok(Tally::nothing());
        }
        let packet = packet.copy(alloc)?;
        self.record_owned(alloc, now, packet, &mut Spare::none())
    }

    /// As `record`, of a packet that is given up: it goes to one of the stores, and copies of it to the others. It is
    /// dropped where no store keeps it, and after `NoMemory`. A packet that a store hands back may become the spare.
    pub fn record_owned(
        &mut self,
        alloc: Global,
        now: u64,
        packet: BlockPacket,
        spare: &mut Spare,
    ) -> Result<Tally, NoMemory>
        ensures after { OnOk result (self.new ≡ after_record now packet self.old) }
        ensures tally { IfOk result (λ tally. tally ≡ tally_after now packet self.old) }
        ensures err { OnErr result (self.new ≡ self.old) }
    {
        let rows = rows_for(&self.control, packet.packet());
        if rows.is_empty() {
            spare.keep(packet);
            return Ok(Tally::nothing());
        }
        let tally = offer_each(alloc, &mut self.stores, rows, now, packet, spare)?;
        Ok(tally)
    }

    // How many stores to which one of the rows leads would give up a packet in the memory of this one.
    fn givers(&self, rows: &[RouteRow], packet: &BlockPacket) -> usize {
        let alloc = *self.stores.allocator();
        self.stores
            .iter()
            .filter(|held| leads_to(rows, 0, &held.id))
            .filter_map(|held| given_up(&held.state))
            .filter(|other| share_memory(alloc, packet, other))
            .count()
    }

    // Whether one of the rows leads to the store, and the store gives up a packet whose memory no store keeps then.
    fn frees_memory(&self, rows: &[RouteRow], held: &Held) -> bool
        ensures loses { IsTrue result → LosesOne rows.now held.now }
    {
        match given_up(&held.state) {
            Some(oldest) => {
                leads_to(rows, 0, &held.id) && oldest.owners() <= self.givers(rows, oldest)
            }
            None => false,
        }
    }

    // Whether one of the stores does.
    fn some_free_memory(&self, rows: &[RouteRow]) -> bool
        ensures lost { IsTrue result → Any (LosesOne rows.now) self.now.stores }
    {
        self.stores.iter().any(|held| self.frees_memory(rows, held))
    }

    /// Whether the stores that a packet is routed to give all memory back that they take for it: none keeps it, or they
    /// give up a packet that no other store shares. A contract sees no memory: if they do, a packet is lost wherever
    /// this one is kept; if not, it is kept.
    #[must_use]
    pub fn hands_back(&self, packet: &LentPacket<'_>) -> bool
        ensures { MatchBool result (IsKeptForAnother packet.now self.now) (IsKept packet.now self.now) }
    {
        let rows = rows_for_lent(&self.control, packet);
        self.some_free_memory(rows) || hand_back_along(rows, &self.stores)
    }
}
