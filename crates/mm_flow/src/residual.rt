//! The residual network: each arc forward and backward, as entries numbered from 0.
ghost use Rattle.std.specs.Prelude.{◌≡◌, ◌<◌, ◌≤◌, ℕ, length, slice_index};
ghost use Rattle.mm_flow.specs.Residual.{entries, tail, head, twin, place, residual, IsPushed};
ghost use Rattle.mm_flow.specs.Graph.{IsNetwork};
ghost use Rattle.mm_flow.specs.Links.{IsResidual};

use crate::limits::{MAX_VALUE, UNLIMITED};
use crate::links::{Links, Step};
use crate::network::Network;
use crate::search::Search;

/// The residual network of a flow: the network, the entries that leave each node, and the flow on each arc.
#[derive(Drop)]
pub(crate) struct Residual<'a> {
    pub(crate) network: &'a Network,
    pub(crate) links: Links,
    pub(crate) flow: Vec<u64>,
    ghost sound: { IsResidual network.now.graph links flow.items },
}

impl<'a> Residual<'a> {
    ghost use Rattle.mm_flow.specs.Links.{start, end, degree, step, step_left, IsStep};
    ghost use Rattle.mm_flow.specs.Levels.{IsLevelled, Carries};
    ghost use Rattle.mm_flow.specs.Balance.{Augments, KeepsSource};

    // The residual capacity of an entry.
    #[tactic(auto, unfolding(crate::specs::Residual::residual))]
    pub(crate) fn capacity(&self, entry: usize) -> u64
        requires { entry < entries self.now.network.now.graph }
        ensures residual { result ≡ residual self.now.network.now.graph (slice_index self.now.flow.items) entry }
        ensures network { IsNetwork self.now.network.now.graph }
    {
        let arcs = self.network.arc_count();
        if entry < arcs {
            match self.network.arc(entry).capacity {
                Some(most) => most - self.flow[entry],
                None => UNLIMITED,
            }
        } else {
            self.flow[entry - arcs]
        }
    }

    // The place where the steps of a node start and those of the previous node end.
    pub(crate) fn start(&self, node: usize) -> u32
        requires { node ≤ self.now.network.now.graph.nodes }
        ensures { result ≡ start self.now.network.now.graph node }
    {
        self.links.first[node]
    }

    // The place where the steps of a node end.
    pub(crate) fn end(&self, node: usize) -> u32
        requires { node < self.now.network.now.graph.nodes }
        ensures { result ≡ end self.now.network.now.graph node }
    {
        self.start(node + 1)
    }

    // The number of entries that leave a node.
    pub(crate) fn degree(&self, node: usize) -> u32
        requires { node < self.now.network.now.graph.nodes }
        ensures { result ≡ degree self.now.network.now.graph node }
    {
        self.end(node) - self.start(node)
    }

    // The step at a place of a node's steps.
    pub(crate) fn step_at(&self, node: u32, at: u32) -> Step
        requires node { node < self.now.network.now.graph.nodes }
        requires from { start self.now.network.now.graph node ≤ at }
        requires below { at < end self.now.network.now.graph node }
        ensures step { result ≡ step self.now.links.steps.items at }
        ensures own { IsStep self.now.network.now.graph node result }
    {
        self.links.steps[at as usize]
    }

    // The step of a node at which this number of its steps are left.
    pub(crate) fn step(&self, node: u32, left: u32) -> Step
        requires node { node < self.now.network.now.graph.nodes }
        requires some { 0 < left }
        requires left { left ≤ degree self.now.network.now.graph node }
        ensures step { result ≡ step_left self.now.network.now.graph self.now.links node left }
        ensures own { IsStep self.now.network.now.graph node result }
    {
        let end = self.end(node as usize);
        self.step_at(node, end - left)
    }

    // Moves an amount that fits along the path by which a search reached the sink.
    pub(crate) fn push_along(&mut self, search: &Search, sink: u32, amount: u64)
        requires small { (k : ℕ) → slice_index self.old.flow.items k ≤ MAX_VALUE }
        requires levelled { IsLevelled self.old.network.now.graph search.now.source
            search.now.marks.items }
        requires path { Carries self.old search.now amount sink }
        ensures network { self.new.network ≡ self.old.network }
        ensures augmented { Augments self.old.network.now.graph search.now.source sink
            (slice_index self.old.flow.items) (slice_index self.new.flow.items) amount }
        ensures source { KeepsSource self.old.network.now.graph search.now.source
            (slice_index self.old.flow.items) (slice_index self.new.flow.items) }
    {
        search.push_along(self.network, &mut self.flow, sink, amount);
    }

    // The flow on each arc.
    pub(crate) fn into_flow(self) -> Vec<u64>
        ensures { result ≡ self.entry.flow }
    {
        self.flow
    }
}

// The number of entries.
pub(crate) fn entry_count(network: &Network) -> usize
    ensures { result ≡ entries network.now.graph }
{
    2 * network.arc_count()
}

// The node that an entry leaves.
#[tactic(auto, unfolding(crate::specs::Residual::tail))]
pub(crate) fn tail(network: &Network, entry: usize) -> u32
    requires { entry < entries network.now.graph }
    ensures node { result ≡ tail network.now.graph entry }
    ensures known { result < network.now.graph.nodes }
    ensures network { IsNetwork network.now.graph }
{
    let arcs = network.arc_count();
    if entry < arcs {
        network.arc(entry).from
    } else {
        network.arc(entry - arcs).to
    }
}

// The entry of the same arc that leads the other way.
#[tactic(auto, unfolding(crate::specs::Residual::twin))]
pub(crate) fn twin(network: &Network, entry: usize) -> usize
    requires { entry < entries network.now.graph }
    ensures twin { result ≡ twin network.now.graph entry }
    ensures known { result < entries network.now.graph }
    ensures network { IsNetwork network.now.graph }
{
    let arcs = network.arc_count();
    if entry < arcs {
        entry + arcs
    } else {
        entry - arcs
    }
}

// The node that an entry leads to, which its twin leaves.
pub(crate) fn head(network: &Network, entry: usize) -> u32
    requires { entry < entries network.now.graph }
    ensures node { result ≡ head network.now.graph entry }
    ensures known { result < network.now.graph.nodes }
{
    tail(network, twin(network, entry))
}

// Moves an amount along an entry: a forward entry adds to the flow of its arc, a backward one subtracts from it.
pub(crate) fn push(network: &Network, flow: &mut [u64], entry: usize, amount: u64)
    requires entry { entry < entries network.now.graph }
    requires flow { length flow.old ≡ length network.now.graph.arcs }
    requires fits { amount ≤ residual network.now.graph (slice_index flow.old) entry }
    requires small { slice_index flow.old (place network.now.graph entry) ≤ MAX_VALUE }
    ensures pushed { IsPushed network.now.graph (slice_index flow.old) (slice_index flow.new) entry
        amount }
{
    let arcs = network.arc_count();
    if entry < arcs {
        flow[entry] += amount;
    } else {
        flow[entry - arcs] -= amount;
    }
}
