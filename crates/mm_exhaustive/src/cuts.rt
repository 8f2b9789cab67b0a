//! Finds cuts of little capacity by trying every side. The solver is compared with it.
ghost use Rattle.std.specs.Prelude.{◌<◌, ◌≤◌, length};
ghost use Rattle.std.specs.Option.{ForSome};
ghost use Rattle.mm_flow.specs.declared.limits.TheConstants.{MAX_CAPACITY};

use mm_flow::{Arc, Network};

/// The most nodes of a network whose sides are tried one by one.
pub const MAX_TRIED: usize = 10;

/// A cut between the source and the sink with a capacity below the given one, or any cut if none is given: the nodes on
/// the source side. `None` if there is no such cut.
#[must_use]
pub fn cut_below(
    network: &Network,
    source: u32,
    sink: u32,
    most: Option<u64>,
) -> Option<[bool; MAX_TRIED]>
    requires few { network.now.graph.nodes ≤ MAX_TRIED }
    requires source { source < network.now.graph.nodes }
    requires sink { sink < network.now.graph.nodes }
{
    below_from(network, source, sink, [false; MAX_TRIED], 0, most)
}

// The same among the cuts that agree with a side at the nodes below a given one.
fn below_from(
    network: &Network,
    source: u32,
    sink: u32,
    side: [bool; MAX_TRIED],
    node: usize,
    most: Option<u64>,
) -> Option<[bool; MAX_TRIED]>
    requires few { network.now.graph.nodes ≤ MAX_TRIED }
    requires source { source < network.now.graph.nodes }
    requires sink { sink < network.now.graph.nodes }
    requires node { node ≤ network.now.graph.nodes }
{
    if node == network.node_count() {
        return match (cut_capacity(network, source, sink, &side), most) {
            (None, _) => None,
            (Some(capacity), Some(most)) if most <= capacity => None,
            _ => Some(side),
        };
    }
    let mut inside = side;
    inside[node] = true;
    let found = below_from(network, source, sink, inside, node + 1, most);
    if found.is_some() {
        return found;
    }
    let mut outside = side;
    outside[node] = false;
    below_from(network, source, sink, outside, node + 1, most)
}

// The capacity of a side, or `None` if it is no cut.
fn cut_capacity(network: &Network, source: u32, sink: u32, side: &[bool]) -> Option<u64>
    requires nodes { network.now.graph.nodes ≤ length side.now }
    requires source { source < network.now.graph.nodes }
    requires sink { sink < network.now.graph.nodes }
{
    if !side[source as usize] || side[sink as usize] {
        return None;
    }
    let mut total = 0;
    for number in 0..network.arc_count() {
        total += capacity_out(network.arc(number), side)?;
    }
    Some(total)
}

// What an arc adds to the capacity of a side, 0 if it does not lead out of it.
fn capacity_out(arc: Arc, side: &[bool]) -> Option<u64>
    requires from { arc.from < length side.now }
    requires to { arc.to < length side.now }
    requires capacity { ForSome arc.capacity (λ most. most ≤ MAX_CAPACITY) }
    ensures { ForSome result (λ most. most ≤ MAX_CAPACITY) }
{
    if side[arc.from as usize] && !side[arc.to as usize] {
        arc.capacity
    } else {
        Some(0)
    }
}
