//! Bounded packet stores.
ghost use Rattle.mm_base.specs.declared.kind.Kind.TheVariants.{Bounded};

use crate::queue::PacketQueue;
use crate::queue_store::QueueStore;
use crate::stored::Stored;
use mm_base::Kind;
use std::alloc::{AllocError, Global};
use std::collections::VecDeque;
use std::marker::Model;

/// A bounded packet store (ECSS-E-ST-70-41C, 6.15), kept in a table of as many blocks as its size.
pub type BlockStore = QueueStore<BlockTable>;

/// A table of blocks, each with room for one packet. Contracts see the packets in storage order and how many there may be.
#[derive(Drop)]
pub struct BlockTable {
    blocks: Vec<Option<Stored>>,
    // The numbers of the blocks in use, in storage order.
    queue: VecDeque<u32>,
    // The numbers of the other blocks.
    free: Vec<u32>,
}

impl Model for BlockTable {
    ghost use Rattle.std.specs.Prelude.{length, vec_capacity};
    ghost use Rattle.std.specs.VecDeque.{deque_capacity};
    ghost use Rattle.circular_buffer.specs.Buffer.{Buffer, buffer};
    ghost use Rattle.mm_store.specs.declared.stored.Stored.{Stored};
    ghost use Rattle.mm_store.specs.Table.{packets_along, IsReserved};

    ghost Value = { Buffer Stored };

    ghost view = { λ a. buffer (packets_along a.queue.items a.blocks.items) (length a.blocks.items) };

    ghost invariant = { λ a. IsReserved a.blocks.items a.queue.items a.free.items (deque_capacity a.queue) (vec_capacity a.free) };
}

impl PacketQueue for BlockTable {
    ghost held = { λ b. b };

    ghost kind = { Bounded };

    fn kind() -> Kind {
        Kind::Bounded
    }

    fn with_room(alloc: Global, room: u32) -> Result<BlockTable, AllocError> {
        let mut blocks = Vec::with_capacity(alloc, room as usize)?;
        let queue = VecDeque::with_capacity(alloc, room as usize)?;
        let mut free = Vec::with_capacity(alloc, room as usize)?;
        for number in 0..room {
            blocks.push_reserved(None);
            free.push_reserved(number);
        }
        Ok(BlockTable {
            blocks,
            queue,
            free,
        })
    }

    fn allocator(&self) -> Global {
        *self.free.allocator()
    }

    fn len(&self) -> usize {
        self.queue.len()
    }

    fn capacity(&self) -> usize {
        self.blocks.len()
    }

    #[inline(always)]
    fn at(&self, place: usize) -> &Stored {
        let number = self.queue[place];
        self.blocks[number as usize].as_ref().unwrap()
    }

    #[inline(always)]
    fn append(&mut self, newest: Stored) {
        let number = self.free.pop().unwrap();
        self.blocks[number as usize] = Some(newest);
        self.queue.push_back_reserved(number);
    }

    #[inline(always)]
    fn take_oldest(&mut self) -> Stored {
        let number = self.queue.pop_front().unwrap();
        self.free.push_reserved(number);
        self.blocks[number as usize].take().unwrap()
    }
}
