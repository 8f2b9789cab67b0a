//! A breadth-first search of the residual network (Edmonds and Karp, 1972).

use crate::limits::{TURNS, UNLIMITED};
use crate::links::{Links, entry_at};
use crate::residual::{head, push, residual, tail};
use crate::table::{get, set};
use mm_flow::Network;
use std::alloc::{AllocError, Global};

/// How a node was reached: the last entry of the path to it, the least residual capacity on the path, and the node's
/// level, which is the number of entries on the path and 1, or 0 if the node was not reached.
#[derive(Clone, Copy)]
pub(crate) struct Mark {
    pub(crate) level: u32,
    pub(crate) via: usize,
    pub(crate) width: u64,
}

const UNREACHED: Mark = Mark {
    level: 0,
    via: 0,
    width: 0,
};

/// A search from a source along entries with at least a given residual capacity: the marks of the nodes, and the nodes
/// in the order in which they were found.
#[derive(Drop)]
pub(crate) struct Search {
    pub(crate) source: u32,
    least: u64,
    marks: Vec<Mark>,
    order: Vec<u32>,
    found: usize,
}

impl Search {
    // A search from this source before it starts.
    pub(crate) fn new(alloc: Global, network: &Network, source: u32) -> Result<Search, AllocError> {
        let nodes = network.node_count();
        Ok(Search {
            source,
            least: 0,
            marks: vec![in alloc; UNREACHED; nodes]?,
            order: vec![in alloc; 0; nodes]?,
            found: 0,
        })
    }

    // How a node was reached.
    pub(crate) fn mark(&self, node: u32) -> Mark {
        get(&self.marks, node as usize, UNREACHED)
    }

    // Gives a node a mark.
    pub(crate) fn set_mark(&mut self, node: u32, mark: Mark) {
        set(&mut self.marks, node as usize, mark);
    }

    // Marks all nodes that the source reaches along entries with at least this residual capacity.
    pub(crate) fn run(&mut self, network: &Network, links: &Links, flow: &[u64], least: u64) {
        self.least = least;
        self.marks.fill(UNREACHED);
        self.found = 0;
        let start = Mark {
            level: 1,
            via: 0,
            width: UNLIMITED,
        };
        self.find(self.source, start);
        for done in 0..self.order.len() {
            if done == self.found {
                break;
            }
            let node = get(&self.order, done, 0);
            let mut cursor = links.last(node as usize);
            for _ in 0..TURNS {
                let Some(entry) = entry_at(cursor) else {
                    break;
                };
                self.reach(network, flow, entry);
                cursor = links.before(entry);
            }
        }
    }

    // Marks a node, and puts it at the end of the order.
    fn find(&mut self, node: u32, mark: Mark) {
        self.set_mark(node, mark);
        set(&mut self.order, self.found, node);
        self.found = self.found.saturating_add(1);
    }

    // Marks the node that an entry leads to, if it has no mark and the entry has the residual capacity.
    fn reach(&mut self, network: &Network, flow: &[u64], entry: usize) {
        let to = head(network, entry);
        if self.mark(to).level > 0 {
            return;
        }
        let capacity = residual(network, flow, entry);
        if capacity < self.least {
            return;
        }
        let from = self.mark(tail(network, entry));
        let mark = Mark {
            level: from.level.saturating_add(1),
            via: entry,
            width: capacity.min(from.width),
        };
        self.find(to, mark);
    }

    // Moves as much as fits along the path by which the sink was reached, and returns this amount.
    pub(crate) fn augment(&self, network: &Network, flow: &mut [u64], sink: u32) -> u64 {
        let amount = self.mark(sink).width;
        let mut at = sink;
        for _ in 0..self.marks.len() {
            if at == self.source {
                break;
            }
            let entry = self.mark(at).via;
            push(network, flow, entry, amount);
            at = tail(network, entry);
        }
        amount
    }

    // For each node, whether it has a mark.
    pub(crate) fn side(&self, alloc: Global) -> Result<Vec<bool>, AllocError> {
        self.marks.iter().map(|mark| mark.level > 0).collect(alloc)
    }
}
