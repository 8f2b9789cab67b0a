//! A network as it is built: its nodes, its arcs, and the room that is reserved for more.
ghost use Rattle.std.specs.Prelude.{◌≡◌, ◌+◌, ◌-◌, ◌<◌, ◌≤◌, length, IfOk, OnOk, OnErr, IsOk, [], ◌++◌, ◌∷◌};
ghost use Rattle.mm_flow.specs.Graph.{arc, IsNetwork, IsArcWithin};
ghost use Rattle.mm_flow.specs.Built.{empty, with_node, with_arc};

use crate::arc::Arc;
use crate::limits::{MAX_ARCS, MAX_NODES};
use mm_base::NoMemory;
use std::alloc::Global;
use std::marker::Model;

/// Nodes, and arcs between them. Both are numbered from 0, in the order in which they were added.
///
/// Contracts see the graph and its room: the numbers of nodes and arcs for which memory is reserved.
#[derive(Drop)]
pub struct Network {
    nodes: u32,
    arcs: Vec<Arc>,
    node_room: u32,
    arc_room: u32,
}

impl Model for Network {
    ghost use Rattle.std.specs.Prelude.{vec_capacity};
    ghost use Rattle.mm_flow.specs.Built.{Built, IsSound};

    ghost Value = { Built };

    ghost view = { λ n. record {
      graph = record { nodes = n.nodes; arcs = n.arcs.items };
      node_room = n.node_room;
      arc_room = n.arc_room;
    } };

    ghost invariant = { λ n. IsSound n.nodes n.arcs.items n.arc_room (vec_capacity n.arcs) };
}

impl Network {
    /// A network with no node, no arc and no room.
    #[must_use]
    pub fn new(alloc: Global) -> Network
        ensures empty { result ≡ empty 0 0 }
    {
        Network {
            nodes: 0,
            arcs: Vec::new(alloc),
            node_room: 0,
            arc_room: 0,
        }
    }

    /// A network with no node and no arc, and room for these numbers of them.
    pub fn with_room(alloc: Global, nodes: u32, arcs: u32) -> Result<Network, NoMemory>
        requires nodes { nodes ≤ MAX_NODES }
        requires arcs { arcs ≤ MAX_ARCS }
        ensures empty { IfOk result (λ network. network ≡ empty nodes arcs) }
        // Room for nodes alone takes no memory.
        ensures sure { arcs ≡ 0 → IsOk result }
    {
        Ok(Network {
            nodes: 0,
            arcs: Vec::with_capacity(alloc, arcs as usize)?,
            node_room: nodes,
            arc_room: arcs,
        })
    }

    /// The numbers of nodes and arcs for which memory is reserved.
    #[must_use]
    pub fn room(&self) -> (u32, u32)
        ensures nodes { result.0 ≡ self.now.node_room }
        ensures arcs { result.1 ≡ self.now.arc_room }
    {
        (self.node_room, self.arc_room)
    }

    /// Adds a node, and returns its number. Nodes are only counted, so this takes no memory.
    pub fn add_node(&mut self) -> Result<u32, NoMemory>
        requires { self.old.graph.nodes < MAX_NODES }
        ensures node { result ≡ Ok self.old.graph.nodes }
        ensures added { self.new ≡ with_node self.old }
    {
        let node = self.nodes;
        self.nodes += 1;
        self.node_room = self.node_room.saturating_sub(1);
        Ok(node)
    }

    /// Adds an arc, and returns its number. `None` is no limit.
    pub fn add_arc(&mut self, from: u32, to: u32, capacity: Option<u64>) -> Result<u32, NoMemory>
        requires arcs { length self.old.graph.arcs < MAX_ARCS }
        requires within { IsArcWithin self.old.graph.nodes
            (record { from = from; to = to; capacity = capacity }) }
        ensures number { IfOk result (λ number. number ≡ length self.old.graph.arcs) }
        ensures added { OnOk result
            (self.new ≡ with_arc self.old (record { from = from; to = to; capacity = capacity })) }
        ensures sure { 0 < self.old.arc_room → IsOk result }
        ensures refused { OnErr result (self.new ≡ self.old) }
    {
        let number = self.arcs.len() as u32;
        self.arcs.push(Arc { from, to, capacity })?;
        self.arc_room = self.arc_room.saturating_sub(1);
        Ok(number)
    }

    /// The number of nodes.
    #[must_use]
    pub fn node_count(&self) -> usize
        ensures count { result ≡ self.now.graph.nodes }
        ensures network { IsNetwork self.now.graph }
    {
        self.nodes as usize
    }

    /// The number of arcs.
    #[must_use]
    pub fn arc_count(&self) -> usize
        ensures count { result ≡ length self.now.graph.arcs }
        ensures network { IsNetwork self.now.graph }
    {
        self.arcs.len()
    }

    /// The arc with this number.
    #[must_use]
    pub fn arc(&self, number: usize) -> Arc
        requires { number < length self.now.graph.arcs }
        ensures arc { result ≡ arc self.now.graph number }
        ensures within { IsArcWithin self.now.graph.nodes result }
    {
        self.arcs[number]
    }
}
