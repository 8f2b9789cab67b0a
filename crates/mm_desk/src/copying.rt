//! The packet that a retrieval gives, copied.
ghost use Rattle.std.specs.Prelude.{◌≡◌, ◌≢◌, Err};
ghost use Rattle.mm_desk.specs.declared.fault.Fault.TheVariants.{NoMemory};
ghost use Rattle.mm_desk.specs.Machine.{step};

use crate::event::Event;
use crate::fault::Fault;
use crate::reply::Reply;
use crate::state::StoreState;
use mm_store::{PacketStore, Stored};
use std::alloc::Global;

impl StoreState {
    /// Gives a copy of the next packet of the retrieval with its storage time; nothing at its end, where it is over. 19 `Idle`
    /// where none is on. Where there is no memory for the copy, which shares the packet's octets, nothing has changed.
    #[inline]
    pub fn next_copy(&mut self, alloc: Global) -> Result<Option<Stored>, Fault>
        ensures machine { result ≢ Err NoMemory → step self.old Event.Next ≡ (Reply.Given result, self.new) }
        ensures lack { result ≡ Err NoMemory → self.new ≡ self.old }
    {
        let Some(retrieval) = &mut self.retrieval else {
            return Err(Fault::Idle);
        };
        let found = self.store.first_near(
            retrieval.from,
            retrieval.to,
            retrieval.after,
            &mut self.place,
        );
        let Some((time, packet)) = found else {
            self.retrieval = None;
            return Ok(None);
        };
        let packet = packet.copy(alloc)?;
        retrieval.after = time;
        Ok(Some(Stored { time, packet }))
    }
}
