//! Circular packet stores.
ghost use Rattle.mm_base.specs.declared.kind.Kind.TheVariants.{Circular};

use crate::queue::PacketQueue;
use crate::queue_store::QueueStore;
use crate::stored::Stored;
use circular_buffer::HeapCircularBuffer;
use mm_base::Kind;
use std::alloc::{AllocError, Global};

/// A circular packet store (ECSS-E-ST-70-41C, 6.15), kept in a ring of as many blocks as its size.
pub type RingStore = QueueStore<HeapCircularBuffer<Stored>>;

impl PacketQueue for HeapCircularBuffer<Stored> {
    ghost held = { λ b. b };

    ghost kind = { Circular };

    fn kind() -> Kind {
        Kind::Circular
    }

    fn with_room(alloc: Global, room: u32) -> Result<HeapCircularBuffer<Stored>, AllocError> {
        HeapCircularBuffer::with_capacity(alloc, room as usize)
    }

    fn allocator(&self) -> Global {
        *self.allocator()
    }

    fn len(&self) -> usize {
        self.len()
    }

    fn capacity(&self) -> usize {
        self.capacity()
    }

    #[inline(always)]
    fn at(&self, place: usize) -> &Stored {
        self.get(place).unwrap()
    }

    #[inline(always)]
    fn append(&mut self, newest: Stored) {
        let Ok(()) = self.try_push_back(newest) else {
            unreachable!()
        };
    }

    #[inline(always)]
    fn take_oldest(&mut self) -> Stored {
        self.pop_front().unwrap()
    }
}
