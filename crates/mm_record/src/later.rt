//! Sources with their first steps past.
ghost use Rattle.std.specs.Prelude.{◌≡◌, ◌+◌, ◌<◌, ◌^◌, ℕ, map, IfOk, IfErr};
ghost use Rattle.mm_record.specs.Later.{later, later_gives};

use crate::source::Source;
use mm_base::NoMemory;
use mm_packet::BlockPacket;
use std::alloc::Global;

/// A source for a run of the steps after this one: in the run's step 1 it gives what the source gives in the next step.
#[derive(Drop)]
pub struct Later<S: Drop> {
    pub source: S,
    pub after: u32,
}

impl<S: Source + Drop> Source for Later<S> {
    ghost use Rattle.mm_record.specs.Later.{later_gives};

    ghost gives = { λ later. later_gives S.gives later };

    fn left(&self, step: u32) -> u32 {
        match step.checked_add(self.after) {
            Some(step) => self.source.left(step),
            None => 0,
        }
    }

    fn next(&mut self, step: u32) -> Option<BlockPacket> {
        let step = step.checked_add(self.after)?;
        self.source.next(step)
    }
}

impl<S: Source + Drop> Later<S> {
    /// What the source still gives in the steps after this one.
    pub fn new(source: S, after: u32) -> Later<S>
        ensures source { result ≡ later after source }
        ensures gives { (t : ℕ) → t + after < 2 ^ 32 → later_gives S.gives result t ≡ S.gives source (t + after) }
    {
        Later { source, after }
    }
}

/// What these sources still give in the steps after this one. At `Err` they are handed back.
pub fn later_sources<S: Source + Drop>(
    alloc: Global,
    sources: Vec<S>,
    after: u32,
) -> Result<Vec<Later<S>>, (Vec<S>, NoMemory)>
    ensures sources { IfOk result (λ all. all.items ≡ map (later after) sources.items) }
    ensures back { IfErr result (λ refused. refused.0.items ≡ sources.items) }
{
    let Ok(mut all) = Vec::with_capacity(alloc, sources.len()) else {
        return Err((sources, NoMemory));
    };
    for source in sources {
        all.push_reserved(Later::new(source, after));
    }
    Ok(all)
}
