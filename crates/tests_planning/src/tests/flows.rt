//! Networks with values from a textbook or counted by hand.

use crate::tests::samples::{
    A_AND_B, A_LIMITED, A_LIMITED_AND_B, APART, MILLIONS, Runtime, SCI, SCI_OF_SIZE_2,
    SCI_STARTS_WITH_2, SIXTEEN_HEADER, SIXTEEN_STORES, THREE_STEPS, TWO_STEPS_OF_A, alike_steps,
    holds, problem_of,
};
use mm_flow::paths::solve_paths;
use mm_flow::{Fault, MAX_ARCS, MAX_CAPACITY, MAX_NODES, Network, Solved, solve};
use mm_planner::{SINK, SOURCE, network_of};

// An arc: from where, to where, and its capacity.
pub(crate) type ArcRow = (u32, u32, Option<u64>);

// A network, and the value of its maximum flow from node 0 to the last node; `None` if unlimited arcs lead there.
struct Case {
    name: &'static str,
    nodes: u32,
    arcs: &'static [ArcRow],
    value: Option<u64>,
}

// The capacity of an arc; `any` if it is unlimited.
macro_rules! capacity {
    (any) => { None };
    ($most:expr) => { Some($most) };
}

// Arcs: from where, to where, and the capacity.
macro_rules! arcs {
    ($($from:literal $to:literal $most:tt),+) => { [$(($from, $to, capacity!($most))),+] };
}

// Networks by name: the number of nodes, the value, and the arcs.
macro_rules! networks {
    ($(name: $name:literal, $nodes:literal nodes, $value:expr => $($from:literal $to:literal $most:tt),+;)+) => {
        [$(Case { name: $name, nodes: $nodes, arcs: &arcs!($($from $to $most),+), value: $value }),+]
    };
}

static CASES: [Case; 5] = networks! {
    name: "greatest capacities",
    2 nodes, Some(2 * MAX_CAPACITY) =>
        0 1 MAX_CAPACITY, 0 1 MAX_CAPACITY;
    // The shortest path 0 1 2 7 has to be taken back. The two of the answer are 0 1 5 6 7 and 0 3 4 2 7,
    // and the source has arcs for 2.
    name: "a path that is taken back",
    8 nodes, Some(2) =>
        0 1 1, 1 2 1, 2 7 1, 0 3 1, 3 4 1, 4 2 1, 1 5 1, 5 6 1, 6 7 1;
    // Nodes 1 to 3 are matched with 4 to 6. Each pair has node 3 or 4, so two pairs are the most.
    name: "a matching",
    8 nodes, Some(2) =>
        0 1 1, 0 2 1, 0 3 1, 1 4 any, 2 4 any, 3 4 any, 3 5 any, 3 6 any, 4 7 1, 5 7 1, 6 7 1;
    // Cormen, Leiserson, Rivest and Stein, "Introduction to Algorithms", third edition, figures 26.1
    // and 26.6: 23.
    name: "the lucky puck network",
    6 nodes, Some(23) =>
        0 1 16, 0 2 13, 2 1 4, 1 3 12, 3 2 9, 2 4 14, 4 3 7, 3 5 20, 4 5 4;
    // The same book, figure 26.7, where a bad choice of paths needs 2,000,000 of them.
    name: "a bridge of 1",
    4 nodes, Some(2_000_000) =>
        0 1 1_000_000, 0 2 1_000_000, 1 2 1, 1 3 1_000_000, 2 3 1_000_000;
};

// The network with this number of nodes and these arcs.
pub(crate) fn built(rt: &impl Runtime, nodes: u32, arcs: &[ArcRow]) -> Network {
    let mut network = Network::new(rt.alloc());
    for _ in 0..nodes {
        node(rt, &mut network);
    }
    for (from, to, capacity) in arcs {
        arc(rt, &mut network, *from, *to, *capacity);
    }
    network
}

// Adds a node.
fn node(rt: &impl Runtime, network: &mut Network) -> u32 {
    assert!(rt; network.node_count() < MAX_NODES as usize);
    network.add_node().expect(rt, "a node")
}

// Adds an arc.
fn arc(rt: &impl Runtime, network: &mut Network, from: u32, to: u32, capacity: Option<u64>) -> u32 {
    let has_ends = (from as usize) < network.node_count() && (to as usize) < network.node_count();
    let fits = network.arc_count() < MAX_ARCS as usize && capacity.unwrap_or(0) <= MAX_CAPACITY;
    assert!(rt; has_ends && fits, "an arc");
    network.add_arc(from, to, capacity).expect(rt, "an arc")
}

// The value of both solvers' flows.
pub(crate) fn same_value(
    rt: &impl Runtime,
    network: &Network,
    source: u32,
    sink: u32,
) -> Option<u64> {
    let nodes = network.node_count();
    assert!(rt; (source as usize) < nodes && (sink as usize) < nodes);
    let by_levels = value_of(rt, solve(rt.alloc(), network, source, sink));
    let by_paths = value_of(rt, solve_paths(rt.alloc(), network, source, sink));
    assert!(rt; by_levels == by_paths);
    by_levels
}

// The value of a solver's flow, `None` if it is unbounded.
fn value_of(rt: &impl Runtime, answer: Result<Solved, Fault>) -> Option<u64> {
    let unbounded = matches!(answer, Err(Fault::Unbounded));
    assert!(rt; answer.is_ok() || unbounded);
    Some(answer.ok()?.value)
}

#[test]
fn values_by_hand(rt: HostRuntime) {
    for case in &CASES {
        let network = built(&rt, case.nodes, case.arcs);
        let value = same_value(&rt, &network, 0, case.nodes.saturating_sub(1));
        holds(&rt, value == case.value, case.name);
    }
}

// The flow of both solvers through the planner's network is the number of blocks that are not lost.
fn keeps(rt: &impl Runtime, setup: &str, forecast: &str, kept: u64) {
    let problem = problem_of(rt, setup, forecast);
    let network = network_of(rt.alloc(), &problem).expect(rt, "memory");
    let value = same_value(rt, &network, SOURCE, SINK);
    holds(rt, value == Some(kept), forecast);
}

// Setups and forecasts, and how many of all blocks are not lost.
static KEPT: [(&str, &str, u64); 7] = [
    // first_run: 10 arrive and 2 are lost.
    (SCI, THREE_STEPS, 8),
    // more_than_the_store_holds: 9 arrive and 5 are lost.
    (SCI, "step,window,SCI\n1,9,9\n", 4),
    // foresight_beats_even_split: all 8 are kept or dumped.
    (A_AND_B, "step,window,A,B\n1,2,3,3\n2,0,2,0\n", 8),
    // two_stretches_of_one_store: 10 arrive and 6 are lost.
    (SCI_OF_SIZE_2, APART, 4),
    // opening_contents_plan: 2 are there, 10 arrive and 4 are lost.
    (SCI_STARTS_WITH_2, THREE_STEPS, 8),
    // channel_limit_cut: 6 arrive and 2 are lost.
    (A_LIMITED, TWO_STEPS_OF_A, 4),
    // channel_limit_shares: 10 arrive and 2 are lost.
    (A_LIMITED_AND_B, "step,window,A,B\n1,2,3,3\n2,0,2,2\n", 8),
];

#[test]
fn networks_of_problems(rt: HostRuntime) {
    for (setup, forecast, kept) in &KEPT {
        keeps(&rt, setup, forecast, *kept);
    }
}

// largest_loss: 4,096,000,000 arrive, and each of 16 stores keeps 1.
#[test]
fn the_network_of_the_largest_loss(rt: HostRuntime) {
    let forecast = alike_steps(&rt, SIXTEEN_HEADER, 256, MILLIONS);
    keeps(&rt, SIXTEEN_STORES, forecast.as_str(), 16);
}

#[test]
fn ends_in_any_order(rt: HostRuntime) {
    let network = built(&rt, 3, &arcs!(2 1 3, 1 0 2));
    assert!(rt; same_value(&rt, &network, 2, 0) == Some(2));
}

#[test]
fn a_refusal_is_printed_with_number_and_name(rt: HostRuntime) {
    let shown = Fault::Unbounded.to_string(rt.alloc()).expect(&rt, "memory");
    assert!(rt; shown.as_str() == "36 Unbounded");
}

const FOUR_NODES: [ArcRow; 5] = arcs!(0 1 3, 0 2 2, 1 2 5, 1 3 2, 2 3 3);

// The network has four nodes, and one flow of 5: the arcs out of node 0 and into node 3 are full, and 1 is left from 1
// to 2.
fn has_flow_of_5(rt: &impl Runtime, network: &Network) {
    assert!(rt; network.node_count() == 4);
    let solved = solve(rt.alloc(), network, 0, 3).expect(rt, "a solution");
    let (flow, side) = (solved.flow.as_slice(), solved.side.as_slice());
    assert!(rt; solved.value == 5 && flow == [3, 2, 1, 2, 3].as_slice());
    assert!(rt; [side.first(), side.last()] == [Some(&true), Some(&false)]);
}

#[test]
fn network_of_four_nodes(rt: HostRuntime) {
    let network = built(&rt, 4, &FOUR_NODES);
    has_flow_of_5(&rt, &network);
    assert!(rt; same_value(&rt, &network, 0, 3) == Some(5));
}

// A flow from node 0 to this node is refused with this fault.
fn is_refused(rt: &impl Runtime, network: &Network, sink: u32, wanted: Fault) {
    assert!(rt; (sink as usize) < network.node_count());
    assert!(rt; solve(rt.alloc(), network, 0, sink).err() == Some(wanted));
}

#[test]
fn refusals_of_four_nodes(rt: HostRuntime) {
    let mut network = built(&rt, 4, &FOUR_NODES);
    is_refused(&rt, &network, 0, Fault::SameEnds);
    assert!(rt; arc(&rt, &mut network, 0, 3, None) == 5);
    is_refused(&rt, &network, 3, Fault::Unbounded);
}

#[test]
fn network_room(rt: HostRuntime) {
    let mut network = Network::with_room(rt.alloc(), 2, 1).expect(&rt, "memory");
    assert!(rt; network.room() == (2, 1));
    let nodes = (node(&rt, &mut network), node(&rt, &mut network));
    let first = arc(&rt, &mut network, 0, 1, Some(4));
    assert!(rt; (nodes, first) == ((0, 1), 0));
    assert!(rt; network.room() == (0, 0));
    assert!(rt; Network::new(rt.alloc()).room() == (0, 0));
}
