//! The network by which channels are sent on links.
ghost use Rattle.std.specs.Prelude.{◌≡◌, ◌<◌, ◌≤◌, length, IfOk};
ghost use Rattle.mm_flow.specs.Graph.{IsArcWithin};
ghost use Rattle.mm_links.specs.Net.{arc_of, arc_count, node_count, IsBuilt, KeepsLimits};

use crate::limits::MAX_LINKS;
use crate::link::Link;
use crate::widest::limit;
use mm_base::{CHANNELS, NoMemory};
use mm_flow::{Arc, Network};
use std::alloc::Global;

// The arc with this number.
#[tactic(auto, unfolding(crate::specs::Net::arc_of))]
fn arc_at(links: &[Link], amounts: &[u64; CHANNELS], number: usize) -> Arc
    requires few { length links.now ≤ MAX_LINKS }
    requires limits { KeepsLimits links.now amounts.now }
    requires number { number < arc_count links.now }
    ensures arc { result ≡ arc_of links.now amounts.now number }
    ensures within { IsArcWithin (node_count links.now) result }
{
    let shares = links.len() * CHANNELS;
    let source = (CHANNELS + links.len()) as u32;
    if number < shares {
        let link = number / CHANNELS;
        let channel = number % CHANNELS;
        Arc {
            from: channel as u32,
            to: (CHANNELS + link) as u32,
            capacity: Some(u64::from(links[link].limit(channel))),
        }
    } else if number < shares + CHANNELS {
        let channel = number - shares;
        let amount = amounts[channel];
        prove!(amount <= limit(links, channel));
        Arc {
            from: source,
            to: channel as u32,
            capacity: Some(amount),
        }
    } else {
        let link = number - shares - CHANNELS;
        Arc {
            from: (CHANNELS + link) as u32,
            to: source + 1,
            capacity: Some(u64::from(links[link].window)),
        }
    }
}

/// The network of links and amounts.
pub(crate) fn network(
    alloc: Global,
    links: &[Link],
    amounts: &[u64; CHANNELS],
) -> Result<Network, NoMemory>
    requires few { length links.now ≤ MAX_LINKS }
    requires limits { KeepsLimits links.now amounts.now }
    ensures { IfOk result
        (λ network. IsBuilt links.now amounts.now network.graph (arc_count links.now)) }
{
    let nodes = (CHANNELS + links.len() + 2) as u32;
    let arcs = links.len() * (CHANNELS + 1) + CHANNELS;
    let mut network = Network::with_room(alloc, nodes, arcs as u32)?;
    'nodes: for _ in 0..nodes {
        network.add_node()?;
    }
    'arcs: for number in 0..arcs {
        let arc = arc_at(links, amounts, number);
        network.add_arc(arc.from, arc.to, arc.capacity)?;
    }
    Ok(network)
}
