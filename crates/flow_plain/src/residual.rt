//! The residual network: each arc forward and backward, as entries numbered from 0.

use crate::limits::UNLIMITED;
use crate::table::{get, set};
use mm_flow::Network;

// The node that an entry leaves. No table holds a number past the last entry, which would give node 0.
pub(crate) fn tail(network: &Network, entry: usize) -> u32 {
    let arcs = network.arc_count();
    if entry < arcs {
        network.arc(entry).from
    } else if entry - arcs < arcs {
        network.arc(entry - arcs).to
    } else {
        0
    }
}

// The entry of the same arc that leads the other way.
pub(crate) fn twin(network: &Network, entry: usize) -> usize {
    let arcs = network.arc_count();
    if entry < arcs {
        entry + arcs
    } else {
        entry - arcs
    }
}

// The node that an entry leads to, which its twin leaves.
pub(crate) fn head(network: &Network, entry: usize) -> u32 {
    tail(network, twin(network, entry))
}

// The residual capacity of an entry.
pub(crate) fn residual(network: &Network, flow: &[u64], entry: usize) -> u64 {
    let arcs = network.arc_count();
    if entry < arcs {
        match network.arc(entry).capacity {
            Some(most) => most.saturating_sub(get(flow, entry, 0)),
            None => UNLIMITED,
        }
    } else {
        get(flow, entry - arcs, 0)
    }
}

// Moves an amount along an entry: a forward entry adds to the flow of its arc, a backward one subtracts from it.
pub(crate) fn push(network: &Network, flow: &mut [u64], entry: usize, amount: u64) {
    let arcs = network.arc_count();
    if entry < arcs {
        let carried = get(flow, entry, 0);
        set(flow, entry, carried.saturating_add(amount));
    } else {
        let carried = get(flow, entry - arcs, 0);
        set(flow, entry - arcs, carried.saturating_sub(amount));
    }
}
