//! The solver that callers use.
ghost use Rattle.std.specs.Prelude.{◌<◌};

use crate::limits::TURNS;
use crate::phase::Phase;
use crate::tables::Tables;
use mm_flow::{Fault, Network, Solved};
use std::alloc::Global;

/// A maximum flow from the source to the sink, and a minimum cut, by level graphs and blocking flows (Dinitz, 1970).
///
/// `SameEnds` is tested first. If a path of unlimited arcs leads from the source to the sink, the result is
/// `Unbounded`. The only other refusal is out of memory.
pub fn solve(alloc: Global, network: &Network, source: u32, sink: u32) -> Result<Solved, Fault>
    requires source { source < network.now.graph.nodes }
    requires sink { sink < network.now.graph.nodes }
{
    let mut phase = Phase::new(alloc, Tables::new(alloc, network, source, sink)?)?;
    for _ in 0..TURNS {
        if !phase.tables.search_anew() {
            break;
        }
        phase.block();
    }
    Ok(phase.tables.solved(alloc)?)
}
