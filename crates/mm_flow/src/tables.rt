//! The tables of a solver, all reserved before its first augmentation, and the flow so far.
ghost use Rattle.std.specs.Prelude.{◌≡◌, ◌<◌, true, false, IfOk};
ghost use Rattle.mm_flow.specs.Balance.{IsBegun};
ghost use Rattle.mm_flow.specs.Refusing.{RefusesFaults};
ghost use Rattle.mm_flow.specs.Solution.{IsSolved};
ghost use Rattle.mm_flow.specs.Tables.{IsAtWork};

use crate::fault::Fault;
use crate::limits::UNLIMITED;
use crate::links::Links;
use crate::network::Network;
use crate::residual::{Residual, head};
use crate::search::{Mark, Search};
use crate::solved::Solved;
use std::alloc::{AllocError, Global};

/// The residual network of a flow to the sink, the value of the flow, and the last search from the source.
#[derive(Drop)]
pub(crate) struct Tables<'a> {
    pub(crate) residual: Residual<'a>,
    pub(crate) sink: u32,
    pub(crate) search: Search,
    pub(crate) value: u64,
    ghost at_work: { IsAtWork residual.network.now.graph sink search residual.flow.items value },
}

impl<'a> Tables<'a> {
    ghost use Rattle.mm_flow.specs.Residual.{tail, head};
    ghost use Rattle.mm_flow.specs.Task.{IsTask, SameTask, SameLevels, IsOpen, Reaches, IsOver};

    // Tables with the flow of zeros, unless a path of unlimited arcs leads from the source to the sink.
    pub(crate) fn new(
        alloc: Global,
        network: &'a Network,
        source: u32,
        sink: u32,
    ) -> Result<Self, Fault>
        requires source { source < network.now.graph.nodes }
        requires sink { sink < network.now.graph.nodes }
        ensures task { IfOk result (IsTask network.now.graph source sink) }
        ensures refused { RefusesFaults network.now.graph source sink result }
    {
        if source == sink {
            return Err(Fault::SameEnds);
        }
        let links = Links::new(alloc, network)?;
        let mut search = Search::new(alloc, network, source)?;
        let flow = vec![in alloc; 0; network.arc_count()]?;
        let residual = Residual {
            network,
            links,
            flow,
        };
        search.run(&residual, UNLIMITED);
        if search.has_marked(sink) {
            return Err(Fault::Unbounded);
        }
        Ok(Tables {
            residual,
            sink,
            search,
            value: 0,
        })
    }

    // Takes this flow in place of the zeros.
    pub(crate) fn begin_with(&mut self, begun: Solved)
        requires begun { IsBegun self.old.residual.network.now.graph self.old.search.source
            self.old.sink begun }
        ensures task { IsTask self.old.residual.network.now.graph self.old.search.source
            self.old.sink self.new }
        ensures flow { self.new.residual.flow ≡ begun.flow }
    {
        self.residual.flow = begun.flow;
        self.value = begun.value;
    }

    // Searches again, and returns whether the sink was reached.
    pub(crate) fn search_anew(&mut self) -> bool
        ensures task { SameTask self.old self.new }
        ensures value { self.new.value ≡ self.old.value }
        ensures way { result ≡ true → Reaches self.new self.new.sink }
        ensures over { result ≡ false → IsOver self.new }
    {
        self.search.run(&self.residual, 1);
        self.search.has_marked(self.sink)
    }

    // Searches again, up to the sink, and returns whether it was reached.
    pub(crate) fn search_to_sink(&mut self) -> bool
        ensures task { SameTask self.old self.new }
        ensures value { self.new.value ≡ self.old.value }
        ensures way { result ≡ true → Reaches self.new self.new.sink }
        ensures over { result ≡ false → IsOver self.new }
    {
        self.search.run_to(&self.residual, self.sink);
        self.search.has_marked(self.sink)
    }

    // Moves as much as fits along the path by which the sink was reached.
    pub(crate) fn augment(&mut self)
        requires way { Reaches self.old self.old.sink }
        ensures task { SameTask self.old self.new }
        ensures more { self.old.value < self.new.value }
    {
        let amount = self.search.bottleneck(&self.residual, self.sink);
        self.residual.push_along(&self.search, self.sink, amount);
        self.value += amount;
    }

    // Puts the sink above all levels.
    pub(crate) fn raise_sink(&mut self)
        ensures task { SameTask self.old self.new }
        ensures value { self.new.value ≡ self.old.value }
    {
        self.search.marks[self.sink as usize] = Mark {
            level: u32::MAX,
            via: 0,
        };
    }

    // Extends a path by an entry that leads up from its last node, and returns the node that the entry leads to.
    pub(crate) fn reach_by(&mut self, entry: u32) -> u32
        requires up { IsOpen self.old entry }
        requires path { Reaches self.old (tail self.old.residual.network.now.graph entry) }
        ensures to { result ≡ head self.old.residual.network.now.graph entry }
        ensures task { SameTask self.old self.new }
        ensures kept { SameLevels self.old self.new }
        ensures path { Reaches self.new result }
    {
        let to = head(self.residual.network, entry as usize);
        self.search.marks[to as usize].via = entry;
        to
    }

    // The flow, with the nodes that the search reached as the source side.
    pub(crate) fn solved(self, alloc: Global) -> Result<Solved, AllocError>
        requires over { IsOver self }
        ensures solved { IfOk result (IsSolved self.entry.residual.network.now.graph
            self.entry.search.source self.entry.sink) }
        ensures begun { IfOk result (IsBegun self.entry.residual.network.now.graph
            self.entry.search.source self.entry.sink) }
        ensures flow { IfOk result (λ s. s.flow ≡ self.entry.residual.flow) }
    {
        let side = self.search.side(alloc)?;
        Ok(Solved {
            flow: self.residual.into_flow(),
            side,
            value: self.value,
        })
    }
}
