//! The solver that callers use.
ghost use Rattle.std.specs.Prelude.{◌<◌, IfOk};
ghost use Rattle.mm_flow.specs.Balance.{IsBegun};
ghost use Rattle.mm_flow.specs.Refusing.{RefusesFaults};
ghost use Rattle.mm_flow.specs.Solution.{IsSolved, Continues};

use crate::fault::Fault;
use crate::network::Network;
use crate::phase::Phase;
use crate::solved::Solved;
use crate::tables::Tables;
use std::alloc::Global;

/// A maximum flow from the source to the sink, and a minimum cut, by level graphs and blocking flows (Dinitz, 1970).
///
/// `SameEnds` is tested first. If a path of unlimited arcs leads from the source to the sink, the result is
/// `Unbounded`. The only other refusal is out of memory.
pub fn solve(alloc: Global, network: &Network, source: u32, sink: u32) -> Result<Solved, Fault>
    requires source { source < network.now.graph.nodes }
    requires sink { sink < network.now.graph.nodes }
    ensures solved { IfOk result (IsSolved network.now.graph source sink) }
    ensures begun { IfOk result (IsBegun network.now.graph source sink) }
    ensures refused { RefusesFaults network.now.graph source sink result }
{
    let mut phase = Phase::new(alloc, Tables::new(alloc, network, source, sink)?)?;
    phase.run();
    Ok(phase.tables.solved(alloc)?)
}

/// A maximum flow and a minimum cut, as by `solve`, found from a given flow. The flow on an arc from the source never
/// becomes less, since an augmenting path never returns to the source.
///
/// So sources with an order of priority can be served one after another, by opening their arcs in that order (Megiddo,
/// 'Optimal flows in networks with multiple sources and sinks', 1974).
pub fn solve_from(
    alloc: Global,
    network: &Network,
    begun: Solved,
    source: u32,
    sink: u32,
) -> Result<Solved, Fault>
    requires source { source < network.now.graph.nodes }
    requires sink { sink < network.now.graph.nodes }
    requires begun { IsBegun network.now.graph source sink begun }
    ensures continued { IfOk result (Continues network.now.graph source sink begun) }
    ensures refused { RefusesFaults network.now.graph source sink result }
{
    let mut tables = Tables::new(alloc, network, source, sink)?;
    tables.begin_with(begun);
    let mut phase = Phase::new(alloc, tables)?;
    phase.run();
    Ok(phase.tables.solved(alloc)?)
}
