//! Sources: givers of packets.
ghost use Rattle.std.specs.Prelude.{◌≡◌, ◌≢◌, ℕ, List, [], ◌++◌, length, IfNone};
ghost use Rattle.mm_record.specs.Words.{option_to_list, SpacePacket};
ghost use Rattle.mm_record.specs.Supplies.{Supply, Gave};

use mm_packet::BlockPacket;

/// Where packets come from, whether they are known before or not: recorders take them from any such source.
///
/// A source gives its packets step by step; steps are counted from 1, and 0 is before the first. A recorder asks it for
/// the packets of one step, one after another, until there is none, in a thread of its own. It never asks for those of
/// an earlier step again. Contracts describe a source by what it gives between two of its states.
///
/// A mission implements [`Source`] for one whose packets are known before, as those of a file, and
/// [`LiveSource`](crate::LiveSource) for an instrument.
pub trait AnySource {
    // What it gives in each step between the first state and the second.
    ghost until: { Self → Self → Supply };

    // The first may become the second.
    ghost leads: { Self → Self → Type 0 };

    /// The next packet of a step, or nothing if it gives no more in this step.
    fn next_packet(&mut self, step: u32) -> Option<BlockPacket>
        ensures gave { (last : Self) → leads self.new last
            → Gave step result (until self.old last) (until self.new last) }
        ensures back { (last : Self) → leads self.new last → leads self.old last };

    // It may stay as it is.
    ghost stays: { (s : Self) → leads s s };
}

/// A source whose packets are known before. A mission implements it for each of its own.
///
/// Contracts see it as the packets that it still gives in each step.
///
/// A source that gives one packet in each step up to a last one:
///
/// ```text
/// impl Source for Beacon {
///     ghost gives = { λ b. gives_each b.packet b.steps };
///
///     fn left(&self, step: u32) -> u32 { .. }
///
///     fn next(&mut self, step: u32) -> Option<BlockPacket> { .. }
/// }
/// ```
pub trait Source {
    ghost gives: { Self → ℕ → List SpacePacket };

    /// How many packets it still gives in a step.
    fn left(&self, step: u32) -> u32
        ensures left { result ≡ length (gives self.now step) };

    /// The next packet of a step, or nothing if it gives no more in this step.
    fn next(&mut self, step: u32) -> Option<BlockPacket>
        ensures gives { gives self.old step ≡ option_to_list result ++ gives self.new step }
        ensures none { IfNone result (gives self.old step ≡ []) }
        ensures others { (t : ℕ) → t ≢ step → gives self.new t ≡ gives self.old t };
}

impl<S: Source> AnySource for S {
    ghost until = { λ s _. S.gives s };

    ghost leads = { λ _ _. Unit {0} };

    fn next_packet(&mut self, step: u32) -> Option<BlockPacket> {
        self.next(step)
    }

    ghost stays = { λ _. tt };
}
