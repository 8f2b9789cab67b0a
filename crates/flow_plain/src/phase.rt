//! Phases of level graphs and blocking flows (Dinitz, 1970).

use crate::limits::TURNS;
use crate::links::entry_at;
use crate::residual::{head, residual, twin};
use crate::table::{get, set};
use crate::tables::Tables;
use std::alloc::{AllocError, Global};

/// A solver that moves flow along the paths of one level graph after another.
///
/// In a phase each node has a cursor, which advances in the chain of its entries, and the entry by which a path last
/// left it.
#[derive(Drop)]
pub(crate) struct Phase<'a> {
    pub(crate) tables: Tables<'a>,
    next: Vec<u32>,
    ahead: Vec<usize>,
}

impl<'a> Phase<'a> {
    // A solver before its first phase.
    pub(crate) fn new(alloc: Global, tables: Tables<'a>) -> Result<Phase<'a>, AllocError> {
        let nodes = tables.network.node_count();
        Ok(Phase {
            tables,
            next: vec![in alloc; 0; nodes]?,
            ahead: vec![in alloc; 0; nodes]?,
        })
    }

    // Moves flow along the path by which the search reached the sink, then along further paths through its levels,
    // until the cursors find none.
    pub(crate) fn block(&mut self) {
        self.tables.augment();
        self.begin();
        for _ in 0..TURNS {
            if !self.lead_back() {
                break;
            }
            self.follow();
            self.tables.augment();
        }
    }

    // Puts the sink above all levels, and each cursor at its node's last entry.
    fn begin(&mut self) {
        self.tables.raise_sink();
        for node in 0..self.next.len() {
            self.next[node] = self.tables.links.last(node);
        }
    }

    // Looks for a path on which each arc leads to a higher level, from the sink back to the source.
    fn lead_back(&mut self) -> bool {
        let mut at = self.tables.sink;
        for _ in 0..TURNS {
            if at == self.tables.search.source {
                return true;
            } else if let Some(from) = self.step_back(at) {
                at = from;
            } else if at == self.tables.sink {
                return false;
            } else {
                at = self.retreat(at);
            }
        }
        false
    }

    // Extends a path backwards by one step from a node, if the node's cursor finds an entry.
    fn step_back(&mut self, at: u32) -> Option<u32> {
        let cursor = self.way_back(at);
        set(&mut self.next, at as usize, cursor);
        let entry = entry_at(cursor)?;
        let from = head(self.tables.network, entry);
        let back = twin(self.tables.network, entry);
        set(&mut self.ahead, from as usize, back);
        Some(from)
    }

    // Advances a node's cursor to an entry whose twin leads up to the node.
    fn way_back(&self, at: u32) -> u32 {
        let height = self.tables.search.mark(at).level;
        let mut cursor = get(&self.next, at as usize, 0);
        for _ in 0..TURNS {
            match entry_at(cursor) {
                Some(entry) if !self.leads_up(entry, height) => {
                    cursor = self.tables.links.before(entry);
                }
                _ => break,
            }
        }
        cursor
    }

    // Whether an entry's twin can be taken to a node at this level.
    fn leads_up(&self, entry: usize, height: u32) -> bool {
        let from = head(self.tables.network, entry);
        let below = self.tables.search.mark(from).level;
        let back = twin(self.tables.network, entry);
        below > 0 && below < height && residual(self.tables.network, &self.tables.flow, back) > 0
    }

    // The entry by which a path last left a node.
    fn ahead(&self, node: u32) -> usize {
        get(&self.ahead, node as usize, 0)
    }

    // Shortens the path by one step towards the sink, and advances the cursor of the node there.
    fn retreat(&mut self, at: u32) -> u32 {
        let to = head(self.tables.network, self.ahead(at));
        if let Some(entry) = entry_at(get(&self.next, to as usize, 0)) {
            let cursor = self.tables.links.before(entry);
            set(&mut self.next, to as usize, cursor);
        }
        to
    }

    // Marks the nodes of the path again, from the source on.
    fn follow(&mut self) {
        let mut at = self.tables.search.source;
        for _ in 0..self.ahead.len() {
            if at == self.tables.sink {
                break;
            }
            let entry = self.ahead(at);
            self.tables.reach_by(entry);
            at = head(self.tables.network, entry);
        }
    }
}
