//! An array of blocks, whose memory is taken whole or in chunks, and kept.
ghost use Rattle.std.specs.Prelude.{◌≡◌, ◌+◌, ◌*◌, ◌≤◌, ◌<◌, ◌↔◌, ℕ, length, slice_get, slice_set, vec_len, Some, None, IsSome, IsTrue, IsOk, IfOk, IfErr, OnOk, OnErr, MatchOption, MatchResult};
ghost use Rattle.mm_packet.specs.declared.block.TheConstants.{BLOCK};
ghost use Rattle.mm_blocks.specs.Block.{written};
ghost use Rattle.mm_blocks.specs.Layout.{AreChunks};
ghost use Rattle.mm_blocks.specs.declared.block.Block.{Block};

use crate::block::{Block, Rotten};
use crate::layout::Layout;
use mm_base::NoMemory;
use std::alloc::Global;

/// A place that has no block, or none yet.
#[derive(Clone, Copy, Debug, PartialEq, Eq)]
pub struct NoBlock;

/// Why a place gives no packet.
#[derive(Clone, Copy, Debug, PartialEq, Eq)]
pub enum Fault {
    /// It has no block, or none yet.
    NoBlock,
    /// The memory of its block does not hold what was written to it.
    Rotten,
}

/// An array of blocks. Contracts see the block at each place, if its memory was taken.
#[derive(Drop)]
pub struct Blocks {
    layout: Layout,
    room: usize,
    chunks: Vec<Vec<Block>>,
    ghost chunked: { AreChunks layout room chunks.items },
}

// Writes a packet to a block of a chunk.
#[inline(always)]
fn write_in(chunk: &mut Vec<Block>, place: usize, time: u64, packet: &[u8])
    requires within { place < vec_len chunk.old }
    requires fits { length packet.now ≤ BLOCK }
    ensures written { (block : Block) → slice_get chunk.old.items place ≡ Some block
        → chunk.new.items ≡ slice_set chunk.old.items place (written time packet.now block) }
{
    chunk[place].write(time, packet);
}

impl Blocks {
    ghost use Rattle.mm_blocks.specs.Blocks.{block_at, read_at, room_of, IsWrittenAt, KeepsBlocks};
    ghost use Rattle.mm_blocks.specs.declared.blocks.Fault.TheVariants as faults;
    ghost use Rattle.mm_blocks.specs.declared.layout.Layout.TheVariants as layouts;
    ghost use Rattle.mm_blocks.specs.declared.layout.TheConstants.{CHUNK};

    /// An array of this many blocks, whose memory is taken in chunks as `make` asks for it.
    #[must_use]
    pub fn in_chunks(alloc: Global, room: usize) -> Blocks
        ensures room { room_of result ≡ room }
        ensures none_yet { (place : ℕ) → block_at result place ≡ None }
    {
        Blocks {
            layout: Layout::Chunks,
            room,
            chunks: Vec::new(alloc),
        }
    }

    /// An array of this many blocks, whose memory is taken at once.
    pub fn whole(alloc: Global, room: usize) -> Result<Blocks, NoMemory>
        ensures room { IfOk result (λ blocks. room_of blocks ≡ room) }
        ensures all { IfOk result (λ blocks. (place : ℕ) → place < room → IsSome (block_at blocks place)) }
    {
        let mut blocks = Blocks {
            layout: Layout::Whole,
            room,
            chunks: Vec::new(alloc),
        };
        blocks.take_chunk()?;
        Ok(blocks)
    }

    /// How many places it has.
    #[must_use]
    pub fn room(&self) -> usize
        ensures room { result ≡ room_of self.now }
    {
        self.room
    }

    /// Whether a place has a block.
    #[inline(always)]
    #[must_use]
    pub fn has(&self, place: usize) -> bool
        ensures has { IsTrue result ↔ IsSome (block_at self.now place) }
    {
        place < self.room && self.layout.chunk_of(place) < self.chunks.len()
    }

    /// Takes the memory of a place's block, and of those before it, if it was not taken yet. What was taken is kept.
    pub fn make(&mut self, place: usize) -> Result<(), NoMemory>
        requires within { place < room_of self.old }
        ensures made { OnOk result (IsSome (block_at self.new place)) }
        ensures kept { KeepsBlocks self.old self.new }
    {
        let chunk = self.layout.chunk_of(place);
        'chunks: while self.chunks.len() <= chunk {
            self.take_chunk()?;
        }
        Ok(())
    }

    // Takes the memory of one more chunk.
    fn take_chunk(&mut self) -> Result<(), NoMemory>
        requires within { self.old.layout ≡ layouts.Chunks → vec_len self.old.chunks * CHUNK ≤ self.old.room }
        ensures more { OnOk result (vec_len self.new.chunks ≡ vec_len self.old.chunks + 1) }
        ensures layout { self.new.layout ≡ self.old.layout }
        ensures kept { KeepsBlocks self.old self.new }
    {
        let alloc = *self.chunks.allocator();
        let len = self.layout.chunk_len(self.room, self.chunks.len());
        let chunk = Vec::from_elem(alloc, Block::new(), len)?;
        self.chunks.push(chunk)?;
        Ok(())
    }

    // The block at a place.
    #[inline(always)]
    fn block(&self, place: usize) -> Option<&Block>
        ensures block { MatchOption result (block_at self.now place ≡ None) (λ block. block_at self.now place ≡ Some block.now) }
    {
        let chunk = self.chunks.get(self.layout.chunk_of(place))?;
        chunk.get(self.layout.place_in(place))
    }

    /// The time and the packet at a place.
    pub fn read(&self, place: usize) -> Result<(u64, &[u8]), Fault>
        ensures read { MatchResult result (λ p. read_at self.now place ≡ Some (p.0, p.1.now)) (λ _. read_at self.now place ≡ None) }
        ensures no_block { IfErr result (λ fault. (fault ≡ faults.NoBlock) ↔ (block_at self.now place ≡ None)) }
    {
        let block = self.block(place).ok_or(Fault::NoBlock)?;
        match block.read() {
            Ok(packet) => Ok(packet),
            Err(Rotten) => Err(Fault::Rotten),
        }
    }

    /// Writes a packet to a place that has a block. It takes no memory.
    pub fn write(&mut self, place: usize, time: u64, packet: &[u8]) -> Result<(), NoBlock>
        requires fits { length packet.now ≤ BLOCK }
        ensures ok { IsOk result ↔ IsSome (block_at self.old place) }
        ensures written { OnOk result (IsWrittenAt place (time, packet.now) self.old self.new) }
        ensures left { OnErr result (self.new ≡ self.old) }
    {
        if !self.has(place) {
            return Err(NoBlock);
        }
        let chunk = self.layout.chunk_of(place);
        let place = self.layout.place_in(place);
        write_in(&mut self.chunks[chunk], place, time, packet);
        Ok(())
    }
}
