//! The packets of retrievals, given one by one into a buffer.
ghost use Rattle.std.specs.Prelude.{◌≡◌, ◌≤◌, length, OnErr};
ghost use Rattle.mm_packet.specs.declared.block.TheConstants.{BLOCK};
ghost use Rattle.mm_desk.specs.Machine.{next};
ghost use Rattle.mm_service.specs.Giving.{Tells, GivesNext, given_of};

use crate::fault::Fault;
use crate::reading::missing;
use crate::service::Service;
use mm_desk::StoreState;

/// A packet that was given: its storage time in ticks, and how many octets it has.
#[derive(Clone, Copy, Debug, PartialEq, Eq)]
pub struct Given {
    pub time: u64,
    pub len: usize,
}

// Gives the next packet of a store's retrieval.
fn give(state: &mut StoreState, out: &mut [u8]) -> Result<Option<Given>, Fault>
    requires room { BLOCK ≤ length out.old }
    ensures told { Tells (given_of (next state.old).0) result out.old out.new }
    ensures state { state.new ≡ (next state.old).1 }
    ensures err { OnErr result (state.new ≡ state.old) }
{
    match state.next() {
        Ok(Some((time, packet))) => {
            let Ok(len) = packet.packet().write_to(out) else {
                unreachable!()
            };
            Ok(Some(Given { time, len }))
        }
        Ok(None) => Ok(None),
        Err(fault) => Err(Fault::State(fault)),
    }
}

impl Service {
    /// Gives the next packet of the retrieval from the store with this identifier: its octets at the head of a buffer with room for each
    /// packet that is stored, with its storage time; nothing at the end of the retrieval, which is then over. No memory is taken, and a
    /// refusal has changed nothing.
    pub fn next(&mut self, id: &[u8], out: &mut [u8]) -> Result<Option<Given>, Fault>
        requires room { BLOCK ≤ length out.old }
        ensures given { GivesNext id.now result self.old self.new out.old out.new }
    {
        match self.memory.named_mut(id) {
            Some(state) => give(state, out),
            None => Err(missing(id)),
        }
    }
}
