//! Packet stores over a queue of packets.
ghost use Rattle.std.specs.Prelude.{◌≡◌, ◌<◌, ◌≤◌, ◌↔◌, length, Err, IfOk, OnOk, OnErr};
ghost use Rattle.mm_store.specs.Content.{empty_store, first_in, shown};
ghost use Rattle.mm_store.specs.declared.fault.Fault.TheVariants.{HoldsMore};

use crate::fault::Fault;
use crate::put::Put;
use crate::queue::{self, PacketQueue};
use crate::store::PacketStore;
use crate::stored::Stored;
use mm_base::{Kind, MAX_BLOCKS, NoMemory};
use mm_packet::BlockPacket;
use std::alloc::Global;
use std::marker::Model;

/// A packet store (ECSS-E-ST-70-41C, 6.15), kept in a queue with room for as many packets as its size. The queue tells its kind.
#[derive(Drop)]
pub struct QueueStore<Q: PacketQueue> {
    queue: Q,
    last: u64,
}

impl<Q: PacketQueue> Model for QueueStore<Q> {
    ghost use Rattle.mm_store.specs.Content.{Store, IsStore};
    ghost use Rattle.mm_store.specs.Queue.{store_over};

    ghost Value = { Store };

    ghost view = { λ a. store_over Q.kind (Q.held a.queue) a.last };

    ghost invariant = { λ a. IsStore (store_over Q.kind (Q.held a.queue) a.last) };
}

impl<Q: PacketQueue> QueueStore<Q> {
    /// An empty store of this size, in blocks. All its memory is taken here.
    pub fn new(alloc: Global, size: u32) -> Result<QueueStore<Q>, NoMemory>
        requires lowest { 1 ≤ size }
        requires highest { size ≤ MAX_BLOCKS }
        ensures empty { IfOk result (λ store. store ≡ empty_store Q.kind size) }
    {
        let queue = Q::with_room(alloc, size)?;
        Ok(QueueStore { queue, last: 0 })
    }

    /// Sets the size, in blocks, and keeps all else. `HoldsMore` where the store holds more packets than that.
    pub fn resize(&mut self, size: u32) -> Result<(), Fault>
        requires lowest { 1 ≤ size }
        requires highest { size ≤ MAX_BLOCKS }
        ensures ok { OnOk result (self.new ≡ record self.old { size = size }) }
        ensures holds_more { (result ≡ Err HoldsMore) ↔ (size < length self.old.content) }
        ensures err { OnErr result (self.new ≡ self.old) }
    {
        if size < self.len() {
            return Err(Fault::HoldsMore);
        }
        self.queue = queue::moved(&mut self.queue, size)?;
        Ok(())
    }

    /// The packet that `first_in` finds. Where it stands at `place`, counted from the oldest packet, it is found at once, and `place`
    /// is then the place after it. Another `place` costs a search, and changes no answer.
    #[inline(always)]
    pub fn first_near(
        &self,
        from: u64,
        to: u64,
        after: u64,
        place: &mut usize,
    ) -> Option<(u64, &BlockPacket)>
        ensures found { shown result ≡ first_in from to after self.now.content }
    {
        queue::first_near(&self.queue, from, to, after, place)
    }

    // A store of the other kind with all that this one holds, which is empty then.
    pub(crate) fn taking<F: PacketQueue>(
        store: &mut QueueStore<F>,
    ) -> Result<QueueStore<Q>, NoMemory>
        ensures ok { IfOk result (λ taken. taken ≡ record store.old { kind = Q.kind }) }
        ensures err { OnErr result (store.new ≡ store.old) }
    {
        let size = store.size();
        let queue = queue::moved(&mut store.queue, size)?;
        Ok(QueueStore {
            queue,
            last: store.last,
        })
    }
}

impl<Q: PacketQueue> PacketStore for QueueStore<Q> {
    ghost store = { λ s. s };

    #[inline(always)]
    fn put(&mut self, now: u64, packet: BlockPacket) -> Put {
        if self.last == u64::MAX {
            return Put::ClockEnd(packet);
        }
        let has_room = self.queue.len() < self.queue.capacity();
        if !has_room && Q::kind() == Kind::Bounded {
            return Put::Lost(packet);
        }
        let time = now.max(self.last + 1);
        self.last = time;
        let newest = Stored { time, packet };
        if has_room {
            self.queue.append(newest);
            return Put::Kept(time);
        }
        let oldest = self.queue.replace_oldest(newest);
        Put::KeptOver(time, oldest.packet)
    }

    fn first_in(&self, from: u64, to: u64, after: u64) -> Option<(u64, &BlockPacket)> {
        queue::first_in(&self.queue, from, to, after)
    }

    fn delete_up_to(&mut self, limit: u64) -> u32 {
        queue::delete_up_to(&mut self.queue, limit) as u32
    }

    fn len(&self) -> u32 {
        self.queue.len() as u32
    }

    fn oldest(&self) -> u64 {
        queue::oldest(&self.queue)
    }

    fn newest(&self) -> u64 {
        queue::newest(&self.queue)
    }

    fn kind(&self) -> Kind {
        // A field is read, since the kind is a fact of the fields.
        let _queue = &self.queue;
        Q::kind()
    }

    fn size(&self) -> u32 {
        self.queue.capacity() as u32
    }

    fn last_time(&self) -> u64 {
        self.last
    }
}
