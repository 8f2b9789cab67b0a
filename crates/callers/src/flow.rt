//! A network, and the greatest value that flows through it.
ghost use Rattle.std.specs.Prelude.{◌≡◌, ◌<◌, ◌≤◌, ℕ, [], ◌∷◌, IfOk};
ghost use Rattle.mm_flow.specs.Flow.{Flow, IsFlow};
ghost use Rattle.mm_flow.specs.Cut.{Side, IsCut, capacity_of};

use mm_flow::laws::{solution_is_best, value_is_within_each_cut};
use mm_flow::{Fault, Network, NoMemory, solve};
use std::alloc::Global;

/// Node 0 leads to node 1, and that to node 2, over arcs of these capacities.
pub fn in_a_row(alloc: Global, first: u32, second: u32) -> Result<Network, NoMemory>
    ensures nodes { IfOk result (λ network. network.graph.nodes ≡ 3) }
    ensures arcs { IfOk result (λ network. network.graph.arcs
        ≡ record { from = 0; to = 1; capacity = Some first }
        ∷ record { from = 1; to = 2; capacity = Some second } ∷ []) }
{
    let mut network = Network::with_room(alloc, 3, 2)?;
    network.add_node()?;
    network.add_node()?;
    network.add_node()?;
    network.add_arc(0, 1, Some(first.into()))?;
    network.add_arc(1, 2, Some(second.into()))?;
    Ok(network)
}

/// The greatest value of a flow from the source to the sink.
pub fn greatest_value(
    alloc: Global,
    network: &Network,
    source: u32,
    sink: u32,
) -> Result<u64, Fault>
    requires source { source < network.now.graph.nodes }
    requires sink { sink < network.now.graph.nodes }
    // No flow has a greater value, and no cut has less capacity.
    ensures flows { IfOk result (λ value. (f : Flow) (other : ℕ)
        → IsFlow network.now.graph source sink f other → other ≤ value) }
    ensures cuts { IfOk result (λ value. (side : Side)
        → IsCut network.now.graph source sink side → value ≤ capacity_of network.now.graph side) }
{
    solution_is_best();
    value_is_within_each_cut();
    let solved = solve(alloc, network, source, sink)?;
    Ok(solved.value)
}
