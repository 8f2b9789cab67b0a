//! A packet that is offered to one store.
ghost use Rattle.std.specs.Prelude.{◌≡◌, ◌≤◌, length, Err, IsOk, IfOk, IfErr, OnOk, OnErr};
ghost use Rattle.mm_base.specs.Reading.{Gives};
ghost use Rattle.mm_desk.specs.Machine.{offer};
ghost use Rattle.mm_service.specs.declared.fault.Fault.TheVariants.{NoMemory};
ghost use Rattle.mm_packet.specs.Spelling.{spelling};
ghost use Rattle.mm_packet.specs.declared.block.TheConstants.{BLOCK};
ghost use Rattle.mm_service.specs.Offering.{fate_of, offered};
ghost use Rattle.mm_service.specs.Serving.{after_refusal, after_outcome};

use crate::fault::Fault;
use crate::reading::{id_of, packet_of};
use crate::service::Service;
use mm_desk::{Offered, Returned, StoreState};
use mm_memory::{Spare, hands_back, refuses};
use mm_packet::{BlockPacket, LentPacket};
use std::alloc::Global;

/// What became of a packet that a store did not refuse. Times are storage times, in ticks.
#[derive(Clone, Copy, Debug, PartialEq, Eq)]
pub enum Fate {
    /// It is kept, with this time.
    Kept(u64),
    /// It is kept, with this time, and the oldest packet of the full circular store is lost.
    KeptOver(u64),
    /// It is lost, since the bounded store is full.
    Lost,
}

// What became of a packet, by the answer to its offer.
fn fate_of(answer: &Result<Offered, Returned>) -> Result<Fate, Fault>
    ensures { result ≡ fate_of answer.now }
{
    match answer {
        Ok(Offered::Kept(time)) => Ok(Fate::Kept(*time)),
        Ok(Offered::KeptOver(time, _)) => Ok(Fate::KeptOver(*time)),
        Ok(Offered::Lost(_)) => Ok(Fate::Lost),
        Err(back) => Err(Fault::State(back.fault)),
    }
}

// Offers a packet to a store.
fn offer_to(
    alloc: Global,
    state: &mut StoreState,
    spare: &mut Spare,
    now: u64,
    packet: &LentPacket<'_>,
) -> Result<Fate, Fault>
    requires fits { length (spelling packet.now) ≤ BLOCK }
    ensures fate { Gives NoMemory (λ fate. fate) result (fate_of (offer state.old now packet.now).0) }
    ensures state { OnOk result (state.new ≡ (offer state.old now packet.now).1) }
    ensures memory { result ≡ Err NoMemory → IsOk (fate_of (offer state.old now packet.now).0) }
    ensures err { OnErr result (state.new ≡ state.old) }
{
    if let Some(fault) = refuses(state) {
        return Err(Fault::State(fault));
    }
    let block = match BlockPacket::lent(alloc, packet) {
        Ok(block) => block,
        Err(_) if hands_back(state) => spare.take(packet).ok_or(Fault::NoMemory)?,
        Err(_) => return Err(Fault::NoMemory),
    };
    let answer = state.offer(now, block);
    let fate = fate_of(&answer);
    spare.keep_of(answer);
    fate
}

impl Service {
    // Offers a packet to the store with this identifier, and counts no refusal.
    fn offer_uncounted(
        &mut self,
        alloc: Global,
        id: &[u8],
        now: u64,
        packet: &[u8],
    ) -> Result<Fate, Fault>
        ensures offered { Gives NoMemory (λ fate. (fate, self.new)) result (offered id.now packet.now now self.old) }
        ensures memory { result ≡ Err NoMemory → IsOk (offered id.now packet.now now self.old) }
        ensures err { OnErr result (self.new ≡ self.old) }
    {
        let id = id_of(id)?;
        let packet = packet_of(packet)?;
        match self.memory.state_mut(&id) {
            Some(state) => offer_to(alloc, state, &mut self.spare, now, &packet),
            None => Err(Fault::NoSuchStore),
        }
    }

    // Counts a refusal out of memory, and takes memory for the next packet that comes when there is none.
    pub(crate) fn settle(&mut self, alloc: Global, fault: Option<Fault>)
        ensures settled { self.new ≡ (after_outcome fault self.old) }
    {
        if let Some(Fault::NoMemory) = fault {
            self.refused = self.refused.saturating_add(1);
        }
        let _filled = self.spare.fill(alloc);
    }

    /// Offers the packet that the octets are, at a moment in ticks, to the store with this identifier. The tests come
    /// in this order: the identifier, the packet, the store, and those of the store's offer. A refusal out of memory is
    /// counted, and another has changed nothing. A full circular store takes no memory for the packet, unless another
    /// store shares the one that it gives up.
    pub fn offer(
        &mut self,
        alloc: Global,
        id: &[u8],
        now: u64,
        packet: &[u8],
    ) -> Result<Fate, Fault>
        ensures offered { Gives NoMemory (λ fate. (fate, self.new)) result (offered id.now packet.now now self.old) }
        // Out of memory comes in the place of no other refusal.
        ensures memory { result ≡ Err NoMemory → IsOk (offered id.now packet.now now self.old) }
        ensures err { IfErr result (λ fault. self.new ≡ after_refusal fault self.old) }
    {
        let result = self.offer_uncounted(alloc, id, now, packet);
        self.settle(alloc, result.err());
        result
    }
}
