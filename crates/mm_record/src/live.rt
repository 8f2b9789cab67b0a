//! Live sources: nobody knows before what they will give.
ghost use Rattle.std.specs.Prelude.{◌≡◌, ◌≢◌, ℕ, List, ◌++◌};
ghost use Rattle.mm_record.specs.Words.{option_to_list, SpacePacket};
ghost use Rattle.mm_record.specs.Lives.{live, rest, Follows};
ghost use Rattle.mm_record.specs.Supplies.{Supply};

use crate::source::AnySource;
use mm_packet::BlockPacket;

/// A live source: nobody knows before what it will give. It is an instrument, or a queue that another thread fills. A
/// mission implements it for each of its own; recorders take packets from it as a [`Live`].
///
/// Contracts see it as what it gave so far, in each step. It need not keep the packets for that: its contract may speak
/// of a `Snapshot`, which has no bytes.
pub trait LiveSource {
    ghost gave: { Self → Supply };

    /// The next packet, which counts to this step, or nothing if there is none now.
    fn next(&mut self, step: u32) -> Option<BlockPacket>
        ensures gave { gave self.new step ≡ gave self.old step ++ option_to_list result }
        ensures others { (t : ℕ) → t ≢ step → gave self.new t ≡ gave self.old t };
}

/// A live source for recorders. A step is over for it once it had no packet in it: later packets count to a later step.
#[derive(Drop)]
pub struct Live<L: Drop> {
    pub source: L,
    /// The first step that is not over.
    pub from: u64,
}

impl<L: LiveSource + Drop> Live<L> {
    /// A live source for which no step is over.
    pub fn new(source: L) -> Live<L>
        ensures live { result ≡ live source 0 }
    {
        Live { source, from: 0 }
    }
}

impl<L: LiveSource + Drop> AnySource for Live<L> {
    ghost use Rattle.mm_record.specs.Lives.{follows_same};

    ghost until = { λ live last. rest (L.gave live.source) (L.gave last.source) };

    ghost leads = { λ live last. Follows (L.gave live.source) live.from (L.gave last.source) last.from };

    fn next_packet(&mut self, step: u32) -> Option<BlockPacket> {
        if u64::from(step) < self.from {
            return None;
        }
        let packet = self.source.next(step);
        if packet.is_none() {
            self.from = u64::from(step) + 1;
        }
        packet
    }

    ghost stays = { λ live. follows_same (L.gave live.source) live.from };
}
