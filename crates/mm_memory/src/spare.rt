//! The memory of a packet that no store holds.
ghost use Rattle.std.specs.Prelude.{◌≡◌, ◌≤◌, length, IfSome, MatchOption};
ghost use Rattle.std.specs.Bool.{MatchBool};
ghost use Rattle.mm_packet.specs.declared.block.TheConstants.{BLOCK};
ghost use Rattle.mm_packet.specs.Spelling.{spelling};
ghost use Rattle.mm_memory.specs.Spares.{RefusesEach, TakesEach, GivesUp, GivesOneUp, KeepsEach};

use mm_base::{Kind, NoMemory};
use mm_desk::{Fault, Offered, Returned, StoreState};
use mm_packet::{BlockPacket, LentPacket};
use mm_store::PacketStore;
use std::alloc::Global;

/// The memory of one packet that no store holds, or none: for a packet that comes when there is no other memory. What
/// a store hands back for it takes its place.
#[derive(Debug, Drop)]
pub struct Spare {
    packet: Option<BlockPacket>,
}

// The packet that an answer to an offer hands back.
fn handed_back(answer: Result<Offered, Returned>) -> Option<BlockPacket> {
    match answer {
        Ok(Offered::Kept(_)) => None,
        Ok(Offered::KeptOver(_, packet)) | Ok(Offered::Lost(packet)) => Some(packet),
        Err(back) => Some(back.packet),
    }
}

/// Why a store refuses each packet, if it does: its storage is off, or no later storage time or no further offer can be
/// counted.
#[must_use]
pub fn refuses(state: &StoreState) -> Option<Fault>
    ensures { MatchOption result (TakesEach state.now) (RefusesEach state.now) }
{
    if !state.storage() {
        return Some(Fault::Disabled);
    }
    if state.store().last_time() == u64::MAX || state.offered() == u64::MAX {
        return Some(Fault::ClockEnd);
    }
    None
}

// The packet that an offer to a store gives up: its oldest, where the store is circular and full, and does not refuse
// the new one.
pub(crate) fn given_up(state: &StoreState) -> Option<&BlockPacket>
    ensures { IfSome result (λ oldest. GivesUp state.now oldest.now) }
{
    if refuses(state).is_some() {
        return None;
    }
    let store = state.store();
    if store.kind() == Kind::Bounded || store.len() < store.size() {
        return None;
    }
    let (_time, oldest) = store.first_in(0, u64::MAX, 0)?;
    Some(oldest)
}

/// Whether an offer to a store gives all memory back that it takes: the packet is lost or refused, or the store gives
/// up one that no other shares.
#[must_use]
pub fn hands_back(state: &StoreState) -> bool
    ensures { MatchBool result (GivesOneUp state.now) (KeepsEach state.now) }
{
    if let Some(oldest) = given_up(state) {
        return oldest.owners() == 1;
    }
    if refuses(state).is_some() {
        return true;
    }
    let store = state.store();
    store.len() == store.size()
}

impl Spare {
    /// No memory.
    #[must_use]
    pub fn none() -> Spare {
        Spare { packet: None }
    }

    /// Takes memory for a packet of a block, where there is none.
    pub fn fill(&mut self, alloc: Global) -> Result<(), NoMemory> {
        if self.packet.is_none() {
            self.packet = Some(BlockPacket::with_room(alloc)?);
        }
        Ok(())
    }

    /// Keeps the memory of a packet, where there is none yet and no store shares it.
    pub fn keep(&mut self, packet: BlockPacket) {
        if self.packet.is_none() && packet.owners() == 1 {
            self.packet = Some(packet);
        }
    }

    /// Keeps that of the packet that an answer to an offer hands back.
    pub fn keep_of(&mut self, answer: Result<Offered, Returned>) {
        if let Some(packet) = handed_back(answer) {
            self.keep(packet);
        }
    }

    /// A packet in that memory, which is then used up.
    #[must_use]
    pub fn take(&mut self, packet: &LentPacket<'_>) -> Option<BlockPacket>
        requires fits { length (spelling packet.now) ≤ BLOCK }
        ensures same { IfSome result (λ block. block ≡ packet.now) }
    {
        self.packet.take()?.replaced(packet)
    }
}
