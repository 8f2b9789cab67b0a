//! A maximum flow by shortest augmenting paths (Ford and Fulkerson, 1956; Edmonds and Karp, 1972).
ghost use Rattle.std.specs.Prelude.{◌<◌};

use crate::limits::TURNS;
use crate::tables::Tables;
use mm_flow::{Fault, Network, Solved};
use std::alloc::Global;

/// A maximum flow from the source to the sink, and a minimum cut, by shortest augmenting paths.
///
/// `SameEnds` is tested first. If a path of unlimited arcs leads from the source to the sink, the result is
/// `Unbounded`. The only other refusal is out of memory.
pub fn solve_paths(
    alloc: Global,
    network: &Network,
    source: u32,
    sink: u32,
) -> Result<Solved, Fault>
    requires source { source < network.now.graph.nodes }
    requires sink { sink < network.now.graph.nodes }
{
    let mut tables = Tables::new(alloc, network, source, sink)?;
    for _ in 0..TURNS {
        if !tables.search_anew() {
            break;
        }
        tables.augment();
    }
    Ok(tables.solved(alloc)?)
}
