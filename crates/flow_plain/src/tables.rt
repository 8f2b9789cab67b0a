//! The tables of a solver, all reserved before its first augmentation, and the flow so far.

use crate::limits::UNLIMITED;
use crate::links::Links;
use crate::residual::{head, residual, tail};
use crate::search::{Mark, Search};
use mm_flow::{Fault, Network, Solved};
use std::alloc::{AllocError, Global};

/// The entries of each node, the last search from the source, and a flow to the sink with its value.
#[derive(Drop)]
pub(crate) struct Tables<'a> {
    pub(crate) network: &'a Network,
    pub(crate) sink: u32,
    pub(crate) links: Links,
    pub(crate) search: Search,
    pub(crate) flow: Vec<u64>,
    value: u64,
}

impl<'a> Tables<'a> {
    // Tables with the flow of zeros, unless a path of unlimited arcs leads from the source to the sink.
    pub(crate) fn new(
        alloc: Global,
        network: &'a Network,
        source: u32,
        sink: u32,
    ) -> Result<Self, Fault> {
        if source == sink {
            return Err(Fault::SameEnds);
        }
        let links = Links::new(alloc, network)?;
        let mut search = Search::new(alloc, network, source)?;
        let flow = vec![in alloc; 0; network.arc_count()]?;
        search.run(network, &links, &flow, UNLIMITED);
        if search.mark(sink).level > 0 {
            return Err(Fault::Unbounded);
        }
        Ok(Tables {
            network,
            sink,
            links,
            search,
            flow,
            value: 0,
        })
    }

    // Searches again, and returns whether the sink was reached.
    pub(crate) fn search_anew(&mut self) -> bool {
        self.search.run(self.network, &self.links, &self.flow, 1);
        self.search.mark(self.sink).level > 0
    }

    // Moves as much as fits along the path by which the sink was reached.
    pub(crate) fn augment(&mut self) {
        let amount = self.search.augment(self.network, &mut self.flow, self.sink);
        self.value = self.value.saturating_add(amount);
    }

    // Puts the sink above all levels.
    pub(crate) fn raise_sink(&mut self) {
        let above = Mark {
            level: u32::MAX,
            via: 0,
            width: UNLIMITED,
        };
        self.search.set_mark(self.sink, above);
    }

    // Extends a path by an entry that leads up from its last node.
    pub(crate) fn reach_by(&mut self, entry: usize) {
        let from = self.search.mark(tail(self.network, entry));
        let to = head(self.network, entry);
        let mark = Mark {
            level: self.search.mark(to).level,
            via: entry,
            width: from.width.min(residual(self.network, &self.flow, entry)),
        };
        self.search.set_mark(to, mark);
    }

    // The flow, with the nodes that the search reached as the source side.
    pub(crate) fn solved(self, alloc: Global) -> Result<Solved, AllocError> {
        let side = self.search.side(alloc)?;
        Ok(Solved {
            flow: self.flow,
            side,
            value: self.value,
        })
    }
}
