//! A packet that is offered to each store that its report type is routed to.
ghost use Rattle.std.specs.Prelude.{◌≡◌, ◌≤◌, length, IfSome, IfErr, OnErr};
ghost use Rattle.mm_packet.specs.Spelling.{spelling};
ghost use Rattle.mm_packet.specs.declared.block.TheConstants.{BLOCK};
ghost use Rattle.mm_base.specs.Reading.{Gives};
ghost use Rattle.mm_service.specs.Recording.{recorded};
ghost use Rattle.mm_service.specs.Serving.{after_refusal};

use crate::fault::Fault;
use crate::reading::packet_of;
use crate::service::Service;
use mm_memory::Tally;
use mm_packet::{BlockPacket, LentPacket};
use std::alloc::Global;

impl Service {
    // The packet in the spare memory, if the stores that it is routed to give all memory back that they take for it.
    fn in_spare(&mut self, packet: &LentPacket<'_>) -> Option<BlockPacket>
        requires fits { length (spelling packet.now) ≤ BLOCK }
        ensures same { IfSome result (λ block. block ≡ packet.now) }
        ensures left { self.new ≡ self.old }
    {
        if !self.memory.hands_back(packet) {
            return None;
        }
        self.spare.take(packet)
    }

    // Offers a packet to each store that its report type is routed to, and counts no refusal.
    fn record_uncounted(&mut self, alloc: Global, now: u64, packet: &[u8]) -> Result<Tally, Fault>
        ensures recorded { Gives Fault.NoMemory (λ tally. (tally, self.new)) result (recorded packet.now now self.old) }
        ensures err { OnErr result (self.new ≡ self.old) }
    {
        let packet = packet_of(packet)?;
        let block = match BlockPacket::lent(alloc, &packet) {
            Ok(block) => block,
            Err(_) => self.in_spare(&packet).ok_or(Fault::NoMemory)?,
        };
        Ok(
            self.memory
                .record_owned(alloc, now, block, &mut self.spare)?,
        )
    }

    /// Offers the packet that the octets are, at a moment in ticks, to each store that its report type is routed to
    /// (`Memory::record` of `mm_memory`). A refusal out of memory is counted, and another has changed nothing. Where a
    /// full circular store is among them no memory is taken for the packet, unless another store shares the one that it
    /// gives up.
    pub fn record(&mut self, alloc: Global, now: u64, packet: &[u8]) -> Result<Tally, Fault>
        ensures recorded { Gives Fault.NoMemory (λ tally. (tally, self.new)) result (recorded packet.now now self.old) }
        ensures err { IfErr result (λ fault. self.new ≡ after_refusal fault self.old) }
    {
        let result = self.record_uncounted(alloc, now, packet);
        self.settle(alloc, result.err());
        result
    }
}
