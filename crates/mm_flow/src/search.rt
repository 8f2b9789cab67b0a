//! A breadth-first search of the residual network (Edmonds and Karp, 1972).
ghost use Rattle.std.specs.Prelude.{◌≡◌, ◌+◌, ◌<◌, ◌≤◌, ℕ, true, false, length, slice_index, IfOk, replicate, map};
ghost use Rattle.std.specs.Prelude.{nat_lt};
ghost use Rattle.mm_flow.specs.Flow.{IsWithin};
ghost use Rattle.mm_flow.specs.Residual.{head, residual as residual_capacity};
ghost use Rattle.mm_flow.specs.Links.{IsStep};
ghost use Rattle.mm_flow.specs.Marks.{no_mark};

use crate::limits::UNLIMITED;
use crate::links::Step;
use crate::network::Network;
use crate::residual::{Residual, push, tail};
use std::alloc::{AllocError, Global};

/// How a node was reached: the last entry of the path to it, and its level, which is the number of entries on the path
/// and 1, or 0 if the node was not reached.
#[derive(Clone, Copy)]
pub(crate) struct Mark {
    pub(crate) level: u32,
    pub(crate) via: u32,
}

const UNREACHED: Mark = Mark { level: 0, via: 0 };

/// A search from a source along entries with at least a given residual capacity: the marks of the nodes, and the nodes
/// in the order in which they were found. The first `done` of these were visited.
#[derive(Drop)]
pub(crate) struct Search {
    pub(crate) source: u32,
    pub(crate) least: u64,
    pub(crate) marks: Vec<Mark>,
    pub(crate) order: Vec<u32>,
    pub(crate) found: usize,
    pub(crate) done: usize,
}

impl Search {
    ghost use Rattle.mm_flow.specs.declared.search.Mark.{Mark};
    ghost use Rattle.mm_flow.specs.Marks.{Fits, HasMarked, IsSearching, HasSearched, GoesOn, HasMark, mark, level};
    ghost use Rattle.mm_flow.specs.Balance.{IsCarried, Augments, KeepsSource};
    ghost use Rattle.mm_flow.specs.Levels.{IsLevelled, HasPath, Carries};

    // A search from this source before it starts.
    pub(crate) fn new(alloc: Global, network: &Network, source: u32) -> Result<Search, AllocError>
        requires { source < network.now.graph.nodes }
        ensures fits { IfOk result (Fits network.now.graph) }
        ensures source { IfOk result (λ s. s.source ≡ source) }
    {
        let nodes = network.node_count();
        Ok(Search {
            source,
            least: 0,
            marks: vec![in alloc; UNREACHED; nodes]?,
            order: vec![in alloc; 0; nodes]?,
            found: 0,
            done: 0,
        })
    }

    // Marks all nodes that the source reaches along entries with at least this residual capacity.
    pub(crate) fn run(&mut self, residual: &Residual, least: u64)
        requires fits { Fits residual.now.network.now.graph self.old }
        ensures searched { HasSearched residual.now self.new least }
        ensures fits { Fits residual.now.network.now.graph self.new }
        ensures source { self.new.source ≡ self.old.source }
    {
        self.start(residual, least);
        while self.done < self.found {
            self.visit(residual);
        }
    }

    // Marks nodes as `run` does, along entries with any residual capacity, and stops once the sink is marked.
    pub(crate) fn run_to(&mut self, residual: &Residual, sink: u32)
        requires fits { Fits residual.now.network.now.graph self.old }
        requires sink { sink < residual.now.network.now.graph.nodes }
        ensures marking { HasMarked residual.now self.new 1 }
        ensures searched { level self.new.marks.items sink ≡ 0 → HasSearched residual.now self.new 1 }
        ensures fits { Fits residual.now.network.now.graph self.new }
        ensures source { self.new.source ≡ self.old.source }
    {
        self.start(residual, 1);
        while self.done < self.found && self.level(sink) == 0 {
            self.visit(residual);
        }
    }

    // Whether a node has a mark.
    pub(crate) fn has_marked(&self, node: u32) -> bool
        requires { node < length self.now.marks.items }
        ensures marked { result ≡ true → HasMark self.now.marks.items node }
        ensures missed { result ≡ false → ¬ HasMark self.now.marks.items node }
    {
        self.level(node) > 0
    }

    // The level of a node.
    pub(crate) fn level(&self, node: u32) -> u32
        requires { node < length self.now.marks.items }
        ensures { result ≡ level self.now.marks.items node }
    {
        self.marks[node as usize].level
    }

    // The entry by which a node was reached.
    fn via(&self, node: u32) -> usize
        requires { node < length self.now.marks.items }
        ensures { result ≡ (mark self.now.marks.items node).via }
    {
        self.marks[node as usize].via as usize
    }

    // Marks the source alone.
    fn start(&mut self, residual: &Residual, least: u64)
        requires fits { Fits residual.now.network.now.graph self.old }
        ensures begun { IsSearching residual.now self.new }
        ensures source { self.new.source ≡ self.old.source }
        ensures least { self.new.least ≡ least }
    {
        let source = self.source as usize;
        self.least = least;
        clear(&mut self.marks);
        self.marks[source] = Mark { level: 1, via: 0 };
        self.order[0] = self.source;
        self.found = 1;
        self.done = 0;
    }

    // Marks the nodes that the next node in the order leads to.
    fn visit(&mut self, residual: &Residual)
        requires search { IsSearching residual.now self.old }
        requires waits { self.old.done < self.old.found }
        ensures search { IsSearching residual.now self.new }
        ensures source { self.new.source ≡ self.old.source }
        ensures least { self.new.least ≡ self.old.least }
        ensures done { self.new.done ≡ self.old.done + 1 }
    {
        let node = self.order[self.done];
        let first = residual.start(node as usize);
        let end = residual.end(node as usize);
        for at in first..end {
            let step = residual.step_at(node, at);
            self.reach(residual, node, step);
        }
        self.done += 1;
    }

    // Marks the node that a step of a node leads to, if it has no mark and the step's entry has the residual capacity.
    fn reach(&mut self, residual: &Residual, node: u32, step: Step)
        requires own { IsStep residual.now.network.now.graph node step }
        requires search { IsSearching residual.now self.old }
        requires from { HasMark self.old.marks.items node }
        ensures search { IsSearching residual.now self.new }
        ensures kept { GoesOn self.old self.new }
        ensures leads { self.old.least ≤ residual_capacity residual.now.network.now.graph
            (slice_index residual.now.flow.items) step.entry
            → HasMark self.new.marks.items (head residual.now.network.now.graph step.entry) }
    {
        if self.level(step.head) > 0 {
            return;
        }
        let capacity = residual.capacity(step.entry as usize);
        if capacity < self.least {
            return;
        }
        let level = self.level(node) + 1;
        self.marks[step.head as usize] = Mark {
            level,
            via: step.entry,
        };
        self.order[self.found] = step.head;
        self.found += 1;
    }

    // The residual capacity of the path by which the sink was reached: the least of its entries.
    pub(crate) fn bottleneck(&self, residual: &Residual, sink: u32) -> u64
        requires levelled { IsLevelled residual.now.network.now.graph self.now.source
            self.now.marks.items }
        requires path { Carries residual.now self.now 1 sink }
        ensures within { result ≤ UNLIMITED }
        ensures fits { Carries residual.now self.now result sink }
        ensures greatest { (amount : ℕ) → amount ≤ UNLIMITED → Carries residual.now self.now amount sink
            → amount ≤ result }
    {
        let mut least = UNLIMITED;
        let mut at = sink;
        while at != self.source {
            let entry = self.via(at);
            least = least.min(residual.capacity(entry));
            at = tail(residual.network, entry);
        }
        least
    }

    // Moves an amount that fits along the path by which the sink was reached.
    pub(crate) fn push_along(&self, network: &Network, flow: &mut [u64], sink: u32, amount: u64)
        requires carried { IsCarried network.now.graph flow.old }
        requires levelled { IsLevelled network.now.graph self.now.source self.now.marks.items }
        requires path { HasPath network.now.graph (slice_index flow.old) self.now.marks.items
            self.now.source amount sink }
        ensures within { IsWithin network.now.graph (slice_index flow.new) }
        ensures augmented { Augments network.now.graph self.now.source sink (slice_index flow.old)
            (slice_index flow.new) amount }
        ensures source { KeepsSource network.now.graph self.now.source (slice_index flow.old)
            (slice_index flow.new) }
    {
        let mut at = sink;
        while at != self.source {
            let entry = self.via(at);
            push(network, flow, entry, amount);
            at = tail(network, entry);
        }
    }

    // For each node, whether it has a mark.
    pub(crate) fn side(&self, alloc: Global) -> Result<Vec<bool>, AllocError>
        ensures { IfOk result
            (λ side. side.items ≡ map (λ (m : Mark). nat_lt 0 m.level) self.now.marks.items) }
    {
        self.marks.iter().map(|mark| mark.level > 0).collect(alloc)
    }
}

// Removes all marks.
fn clear(marks: &mut [Mark])
    ensures { marks.new ≡ replicate (length marks.old) no_mark }
{
    marks.fill(UNREACHED);
}
