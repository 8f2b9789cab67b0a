//! A maximum flow by shortest augmenting paths (Ford and Fulkerson, 1956; Edmonds and Karp, 1972).
ghost use Rattle.std.specs.Prelude.{◌<◌, IfOk};
ghost use Rattle.mm_flow.specs.Refusing.{RefusesFaults};
ghost use Rattle.mm_flow.specs.Solution.{IsSolved};

use crate::fault::Fault;
use crate::network::Network;
use crate::solved::Solved;
use crate::tables::Tables;
use std::alloc::Global;

/// A maximum flow from the source to the sink, and a minimum cut, by shortest augmenting paths.
///
/// `SameEnds` is tested first. If a path of unlimited arcs leads from the source to the sink, the result is
/// `Unbounded`. The only other refusal is out of memory.
pub fn solve_paths(
    alloc: Global,
    network: &Network,
    source: u32,
    sink: u32,
) -> Result<Solved, Fault>
    requires source { source < network.now.graph.nodes }
    requires sink { sink < network.now.graph.nodes }
    ensures solved { IfOk result (IsSolved network.now.graph source sink) }
    ensures refused { RefusesFaults network.now.graph source sink result }
{
    let mut tables = Tables::new(alloc, network, source, sink)?;
    while tables.search_to_sink() {
        tables.augment();
    }
    Ok(tables.solved(alloc)?)
}
