//! Phases of level graphs and blocking flows (Dinitz, 1970).
ghost use Rattle.std.specs.Prelude.{◌≡◌, ◌≢◌, ◌<◌, ◌≤◌, ◌-◌, true, length, slice_index, IfOk, IfSome, IfNone};
ghost use Rattle.mm_flow.specs.Levels.{IsCursors};

use crate::links::Step;
use crate::residual::{head, twin};
use crate::tables::Tables;
use std::alloc::{AllocError, Global};

/// A solver that moves flow along the paths of one level graph after another.
///
/// In a phase each node has a cursor, which is the number of its entries that are left to try, and the entry by which a
/// path last left it.
#[derive(Drop)]
pub(crate) struct Phase<'a> {
    pub(crate) tables: Tables<'a>,
    next: Vec<u32>,
    ahead: Vec<u32>,
    ghost cursors: { IsCursors tables.residual.network.now.graph next.items },
    ghost places: { length ahead.items ≡ tables.residual.network.now.graph.nodes },
}

impl<'a> Phase<'a> {
    ghost use Rattle.mm_flow.specs.Links.{step_left, IsStep};
    ghost use Rattle.mm_flow.specs.Residual.{twin};
    ghost use Rattle.mm_flow.specs.Marks.{level};
    ghost use Rattle.mm_flow.specs.Task.{SameTask, IsOpen, Reaches, IsOver};
    ghost use Rattle.mm_flow.specs.Phase.{LeadsFrom, LeadsUp, cursors_of};

    // A solver before its first phase.
    pub(crate) fn new(alloc: Global, tables: Tables<'a>) -> Result<Phase<'a>, AllocError>
        ensures { IfOk result (λ phase. phase.tables ≡ tables.entry) }
    {
        let nodes = tables.residual.network.node_count();
        Ok(Phase {
            tables,
            next: vec![in alloc; 0; nodes]?,
            ahead: vec![in alloc; 0; nodes]?,
        })
    }

    // Moves flow until a search no longer reaches the sink.
    pub(crate) fn run(&mut self)
        ensures task { SameTask self.old.tables self.new.tables }
        ensures over { IsOver self.new.tables }
    {
        while self.tables.search_anew() {
            self.block();
        }
    }

    // Moves flow along the path by which the search reached the sink, then along further paths through its levels,
    // until the cursors find none.
    pub(crate) fn block(&mut self)
        requires way { Reaches self.old.tables self.old.tables.sink }
        ensures task { SameTask self.old.tables self.new.tables }
        ensures more { self.old.tables.value < self.new.tables.value }
    {
        self.tables.augment();
        self.begin();
        while self.find_path() {
            self.tables.augment();
        }
    }

    // Puts the sink above all levels, and each cursor at its node's last entry.
    fn begin(&mut self)
        ensures task { SameTask self.old.tables self.new.tables }
        ensures value { self.new.tables.value ≡ self.old.tables.value }
    {
        self.tables.raise_sink();
        for node in 0..self.next.len() {
            self.next[node] = self.tables.residual.degree(node);
        }
    }

    // Looks for a path on which each arc leads to a higher level, and marks its nodes.
    fn find_path(&mut self) -> bool
        ensures task { SameTask self.old.tables self.new.tables }
        ensures value { self.new.tables.value ≡ self.old.tables.value }
        ensures way { result ≡ true → Reaches self.new.tables self.new.tables.sink }
    {
        let found = self.lead_back();
        if found {
            self.follow();
        }
        found
    }

    // Looks for such a path from the sink back to the source.
    fn lead_back(&mut self) -> bool
        ensures tables { self.new.tables ≡ self.old.tables }
        ensures leads { result ≡ true → LeadsFrom self.new self.new.tables.search.source }
    {
        let mut at = self.tables.sink;
        while at != self.tables.search.source {
            if let Some(from) = self.step_back(at) {
                at = from;
            } else if at == self.tables.sink {
                return false;
            } else {
                at = self.retreat(at);
            }
        }
        true
    }

    // Extends a path backwards by one step from a node, if the node's cursor finds an entry.
    fn step_back(&mut self, at: u32) -> Option<u32>
        requires leads { LeadsFrom self.old at }
        ensures tables { self.new.tables ≡ self.old.tables }
        ensures cursors { cursors_of self.new ≤ cursors_of self.old }
        ensures leads { IfSome result (LeadsFrom self.new) }
        ensures lower { IfSome result (λ from. level self.new.tables.search.marks.items from
            < level self.new.tables.search.marks.items at) }
        ensures stays { IfNone result (LeadsFrom self.new at) }
    {
        let cursor = self.way_back(at);
        self.next[at as usize] = cursor;
        if cursor == 0 {
            return None;
        }
        let step = self.tables.residual.step(at, cursor);
        self.ahead[step.head as usize] = twin(
            self.tables.residual.network,
            step.entry as usize,
        ) as u32;
        Some(step.head)
    }

    // Advances a node's cursor to an entry whose twin leads up to the node.
    fn way_back(&self, at: u32) -> u32
        requires known { at < self.now.tables.residual.network.now.graph.nodes }
        ensures most { result ≤ slice_index self.now.next.items at }
        ensures leads { 0 < result
            → LeadsUp self.now at (step_left self.now.tables.residual.network.now.graph
            self.now.tables.residual.links at result).entry }
    {
        let mut cursor = self.next[at as usize];
        while cursor > 0 && !self.leads_up(at, self.tables.residual.step(at, cursor)) {
            cursor -= 1;
        }
        cursor
    }

    // Whether the twin of a node's entry can be taken up to the node.
    fn leads_up(&self, at: u32, step: Step) -> bool
        requires known { at < self.now.tables.residual.network.now.graph.nodes }
        requires own { IsStep self.now.tables.residual.network.now.graph at step }
        ensures { result ≡ true → IsOpen self.now.tables
            (twin self.now.tables.residual.network.now.graph step.entry) }
    {
        let height = self.tables.search.level(at);
        let below = self.tables.search.level(step.head);
        let back = twin(self.tables.residual.network, step.entry as usize);
        below > 0 && below < height && self.tables.residual.capacity(back) > 0
    }

    // Shortens the path by one step towards the sink, and advances the cursor of the node there.
    fn retreat(&mut self, at: u32) -> u32
        requires leads { LeadsFrom self.old at }
        requires inner { at ≢ self.old.tables.sink }
        ensures tables { self.new.tables ≡ self.old.tables }
        ensures cursors { cursors_of self.new < cursors_of self.old }
        ensures leads { LeadsFrom self.new result }
    {
        let to = head(
            self.tables.residual.network,
            self.ahead[at as usize] as usize,
        );
        self.next[to as usize] -= 1;
        to
    }

    // Marks the nodes of the path again, from the source on.
    fn follow(&mut self)
        requires leads { LeadsFrom self.old self.old.tables.search.source }
        ensures task { SameTask self.old.tables self.new.tables }
        ensures value { self.new.tables.value ≡ self.old.tables.value }
        ensures way { Reaches self.new.tables self.new.tables.sink }
    {
        let mut at = self.tables.search.source;
        while at != self.tables.sink {
            let entry = self.ahead[at as usize];
            at = self.tables.reach_by(entry);
        }
    }
}
