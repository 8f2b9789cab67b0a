//! Sources that give what the lines say.
ghost use Rattle.std.specs.Prelude.{◌≡◌, ℕ, ◌<◌, ◌≤◌, ◌∷◌, ◌++◌, [], length, slice_index_or, slice_set, IfOk, IfNone};
ghost use Rattle.std.specs.Prelude.{OnOk};
ghost use Rattle.std.specs.Option.{option_to_list};
ghost use Rattle.mm_base.specs.declared.limits.TheConstants.{MAX_STEPS};

use mm_base::{MAX_STEPS, NoMemory};
use mm_packet::BlockPacket;
use mm_record::Source;
use std::alloc::Global;
use std::collections::VecDeque;
use std::marker::Model;

/// The most packets of a source in a step.
pub const MAX_PACKETS: u32 = 65_535;

// The packets of a step. Contracts see them in order.
#[derive(Drop)]
struct Queue {
    packets: VecDeque<BlockPacket>,
}

impl Model for Queue {
    ghost use Rattle.std.specs.Prelude.{◌≤◌, List, length};
    ghost use Rattle.mm_packet.specs.Packet.{SpacePacket};
    ghost use Rattle.mm_run.specs.declared.source.TheConstants.{MAX_PACKETS};

    ghost Value = { List SpacePacket };

    ghost view = { λ q. q.packets.items };

    ghost invariant = { λ q. length q.packets.items ≤ MAX_PACKETS };
}

impl Queue {
    fn len(&self) -> u32
        ensures { result ≡ length self.now }
    {
        self.packets.len() as u32
    }

    // Adds a packet, for which there is room.
    fn push(&mut self, packet: BlockPacket) -> Result<(), NoMemory>
        requires { length self.old < MAX_PACKETS }
        ensures { OnOk result (self.new ≡ self.old ++ packet ∷ []) }
    {
        self.packets.push_back(packet)?;
        Ok(())
    }

    fn pop(&mut self) -> Option<BlockPacket>
        ensures packet { self.old ≡ option_to_list result ++ self.new }
        ensures none { IfNone result (self.old ≡ []) }
    {
        self.packets.pop_front()
    }
}

/// A source that gives what the lines of a text say. Contracts see the packets that it still gives in each step,
/// from step 0, before the run, to the last.
#[derive(Drop)]
pub struct ScriptedSource {
    steps: Vec<Queue>,
}

impl Model for ScriptedSource {
    ghost use Rattle.std.specs.Prelude.{◌≡◌, ◌+◌, List, length};
    ghost use Rattle.mm_base.specs.declared.limits.TheConstants.{MAX_STEPS};
    ghost use Rattle.mm_packet.specs.Packet.{SpacePacket};

    ghost Value = { List (List SpacePacket) };

    ghost view = { λ s. s.steps.items };

    ghost invariant = { λ s. length s.steps.items ≡ MAX_STEPS + 1 };
}

impl ScriptedSource {
    /// A source that gives nothing.
    pub(crate) fn new(alloc: Global) -> Result<ScriptedSource, NoMemory>
        ensures { IfOk result (λ source. (t : ℕ) → slice_index_or source t [] ≡ []) }
    {
        let mut steps = Vec::new(alloc);
        for _ in 0..MAX_STEPS + 1 {
            let packets = VecDeque::new(alloc);
            steps.push(Queue { packets })?;
        }
        Ok(ScriptedSource { steps })
    }

    /// Adds a packet after those of a step, which has room for it.
    pub(crate) fn add(&mut self, step: u32, packet: BlockPacket) -> Result<(), NoMemory>
        requires step { step ≤ MAX_STEPS }
        requires room { length (slice_index_or self.old step []) < MAX_PACKETS }
        ensures step { step < length self.old }
        ensures packet { OnOk result (self.new
            ≡ slice_set self.old step (slice_index_or self.old step [] ++ packet ∷ [])) }
    {
        self.steps[step as usize].push(packet)
    }
}

impl Source for ScriptedSource {
    ghost use Rattle.std.specs.Prelude.{slice_index_or};

    ghost gives = { λ source step. slice_index_or source step [] };

    fn left(&self, step: u32) -> u32 {
        self.steps.get(step as usize).map_or(0, Queue::len)
    }

    fn next(&mut self, step: u32) -> Option<BlockPacket> {
        self.steps.get_mut(step as usize)?.pop()
    }
}
