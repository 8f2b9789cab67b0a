//! Room for one packet, with its time, its length and a check over them.
ghost use Rattle.std.specs.Prelude.{◌≡◌, ◌≤◌, length, Some, None, MatchResult};
ghost use Rattle.mm_packet.specs.declared.block.TheConstants.{BLOCK};
ghost use Rattle.mm_blocks.specs.Block.{check_of, read_of, written};

use crate::check::{after, after_eight};
use mm_packet::BLOCK;

/// A block whose memory does not hold what was written to it.
#[derive(Clone, Copy, Debug, PartialEq, Eq)]
pub struct Rotten;

/// Room for one packet. Whatever stands in its memory, it gives a packet only if its check passes.
#[derive(Clone, Copy)]
pub struct Block {
    time: u64,
    check: u32,
    len: u16,
    // 65,535 less the length.
    complement: u16,
    octets: [u8; BLOCK],
}

// The check of a packet and its time.
#[inline(always)]
fn check_of(time: u64, packet: &[u8]) -> u32
    ensures { result ≡ check_of time packet.now }
{
    let register = after_eight(u32::MAX, &time.to_le_bytes());
    after(register, packet) ^ u32::MAX
}

impl Block {
    /// A block to which nothing was written yet.
    #[must_use]
    pub fn new() -> Block
        ensures nothing { read_of result ≡ None }
    {
        Block {
            time: 0,
            check: 0,
            len: 0,
            complement: 0,
            octets: [0; BLOCK],
        }
    }

    /// Writes a packet over what the block holds.
    pub fn write(&mut self, time: u64, packet: &[u8])
        requires fits { length packet.now ≤ BLOCK }
        ensures written { self.new ≡ written time packet.now self.old }
        ensures read { read_of self.new ≡ Some (time, packet.now) }
    {
        let len = packet.len();
        self.octets[..len].copy_from_slice(packet);
        self.time = time;
        self.len = len as u16;
        self.complement = u16::MAX - self.len;
        self.check = check_of(time, packet);
    }

    /// The time and the packet that were written last. `Rotten` if the block's memory has changed since.
    pub fn read(&self) -> Result<(u64, &[u8]), Rotten>
        ensures read { MatchResult result (λ p. read_of self.now ≡ Some (p.0, p.1.now)) (λ _. read_of self.now ≡ None) }
    {
        let len = self.len as usize;
        if len > BLOCK || u16::MAX - self.len != self.complement {
            return Err(Rotten);
        }
        let packet = &self.octets[..len];
        if self.check != check_of(self.time, packet) {
            return Err(Rotten);
        }
        Ok((self.time, packet))
    }
}
