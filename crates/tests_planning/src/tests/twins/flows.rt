//! Both solvers compared with their earlier forms: on many generated networks each finds the same flow, the same side
//! and the same value, or refuses the same. No contract fixes which of several maximum flows is found.
ghost use Rattle.std.specs.Prelude.{◌<◌};

use crate::tests::flows::{ArcRow, built};
use crate::tests::samples::{Runtime, holds_of, next_below};
use mm_flow::paths::solve_paths;
use mm_flow::{Fault, Network, Solved, solve};

/// The nodes between which arcs lead.
#[derive(Clone, Copy)]
enum Between {
    /// Any two nodes, or a node and itself.
    Any,
    /// A node and one of this number of nodes after it.
    Near(u32),
    /// A node and one of the next layer, in layers of this number of nodes.
    Layers(u32),
    /// A node and the one beside it or below it, in rows of this number of nodes.
    Rows(u32),
}

impl Between {
    // The node to which an arc leads from a given one, if there is such a node.
    fn to(self, from: u32, nodes: u32, state: &mut u32) -> u32
        requires { 0 < nodes }
    {
        match self {
            Between::Any => next_below(state, nodes),
            Between::Near(most) => {
                let more = next_below(state, most.max(1));
                from.saturating_add(1).saturating_add(more)
            }
            Between::Layers(width) => {
                let width = width.max(1);
                let layer = from / width;
                let start = layer.saturating_add(1).saturating_mul(width);
                start.saturating_add(next_below(state, width))
            }
            Between::Rows(width) => {
                let is_below = next_below(state, 2) == 1;
                from.saturating_add(if is_below { width } else { 1 })
            }
        }
    }
}

/// A form of networks: the number of arcs for each node, and how many in eight are reversed.
#[derive(Clone, Copy)]
struct Form {
    name: &'static str,
    between: Between,
    arcs: u32,
    turned: u32,
}

impl Form {
    // The ends of an arc. If it would lead past the last node, it leads to the last node.
    fn ends(&self, nodes: u32, state: &mut u32) -> (u32, u32)
        requires { 0 < nodes }
    {
        let from = next_below(state, nodes);
        let to = self.between.to(from, nodes, state).min(nodes - 1);
        if next_below(state, 8) < self.turned {
            (to, from)
        } else {
            (from, to)
        }
    }
}

// Forms by name: the nodes between which arcs lead, the number of arcs for each node, and how many in eight are
// reversed.
macro_rules! forms {
    ($($name:literal: $between:expr, $arcs:literal $turned:literal;)+) => {
        [$(Form { name: $name, between: $between, arcs: $arcs, turned: $turned }),+]
    };
}

static FORMS: [Form; 9] = forms! {
    "sparse": Between::Any, 2 0;
    "dense": Between::Any, 8 0;
    "chain": Between::Near(1), 2 0;
    "chain both ways": Between::Near(1), 4 3;
    "band": Between::Near(4), 4 1;
    "narrow layers": Between::Layers(3), 4 0;
    "wide layers": Between::Layers(8), 6 2;
    "grid": Between::Rows(5), 3 0;
    "grid both ways": Between::Rows(7), 4 3;
};

/// The capacities of a network's arcs.
#[derive(Clone, Copy)]
enum Limits {
    /// Numbers below a limit.
    Below(u32),
    /// Numbers from 1 to 2^40.
    Great,
}

impl Limits {
    fn capacity(self, state: &mut u32) -> u64 {
        match self {
            Limits::Below(limit) => u64::from(next_below(state, limit.max(1))),
            Limits::Great => {
                let high = u64::from(next_below(state, 1 << 20));
                let low = u64::from(next_below(state, 1 << 20));
                high * (1 << 20) + low + 1
            }
        }
    }
}

// How many in 32 arcs are unlimited, and the limits of the others.
type Capacities = (u32, Limits);

static CAPACITIES: [Capacities; 8] = [
    (0, Limits::Below(2)),
    (0, Limits::Below(4)),
    (1, Limits::Below(20)),
    (0, Limits::Great),
    (3, Limits::Great),
    (10, Limits::Below(9)),
    (20, Limits::Below(3)),
    (31, Limits::Below(1)),
];

// A network of this number of nodes.
fn made_network(
    rt: &impl Runtime,
    form: &Form,
    capacities: Capacities,
    nodes: u32,
    state: &mut u32,
) -> Network
    requires { 0 < nodes }
{
    let (unlimited, limits) = capacities;
    let mut arcs: Vec<ArcRow> = Vec::new(rt.alloc());
    for _ in 0..nodes.saturating_mul(form.arcs) {
        let (from, to) = form.ends(nodes, state);
        let is_limited = next_below(state, 32) >= unlimited;
        let capacity = limits.capacity(state);
        let arc = (from, to, is_limited.then_some(capacity));
        arcs.push(arc).expect(rt, "memory");
    }
    built(rt, nodes, &arcs)
}

/// The result of a solver.
type Answer = Result<Solved, Fault>;

// Whether two results are the same solution, or the same refusal.
fn are_alike(first: &Answer, second: &Answer) -> bool {
    match (first, second) {
        (Ok(first), Ok(second)) => {
            let flows = first.flow == second.flow;
            flows && first.side == second.side && first.value == second.value
        }
        (Err(first), Err(second)) => first == second,
        _ => false,
    }
}

/// The results: the flows that are not zero, the cases in which the two solvers found different flows, and the
/// refusals.
#[derive(Clone, Copy, Default)]
struct Tally {
    flows: u32,
    different: u32,
    unbounded: u32,
    same_ends: u32,
}

impl Tally {
    // Counts the results of both solvers.
    fn count(&mut self, by_levels: &Answer, by_paths: &Answer) {
        match by_levels {
            Ok(solved) => {
                let differs = !are_alike(by_levels, by_paths);
                self.flows = self.flows.saturating_add(u32::from(solved.value > 0));
                self.different = self.different.saturating_add(u32::from(differs));
            }
            Err(Fault::Unbounded) => self.unbounded = self.unbounded.saturating_add(1),
            Err(Fault::SameEnds) => self.same_ends = self.same_ends.saturating_add(1),
            Err(Fault::NoMemory) => (),
        }
    }

    // Each solver gives the same result as its earlier form.
    fn compare(&mut self, rt: &impl Runtime, name: &str, network: &Network, ends: (u32, u32)) {
        let (source, sink) = ends;
        let nodes = network.node_count();
        assert!(rt; (source as usize) < nodes && (sink as usize) < nodes);
        let by_levels = solve(rt.alloc(), network, source, sink);
        let plain = flow_plain::solve(rt.alloc(), network, source, sink);
        let alike = are_alike(&by_levels, &plain);
        holds_of(rt, alike, name, "by levels");
        let by_paths = solve_paths(rt.alloc(), network, source, sink);
        let plain = flow_plain::paths::solve_paths(rt.alloc(), network, source, sink);
        let alike = are_alike(&by_paths, &plain);
        holds_of(rt, alike, name, "by paths");
        self.count(&by_levels, &by_paths);
    }
}

#[test]
fn flows_are_those_of_the_earlier_solvers(rt: HostRuntime) {
    let mut state = 13;
    let mut tally = Tally::default();
    for form in &FORMS {
        for capacities in &CAPACITIES {
            for _ in 0..8 {
                let nodes = next_below(&mut state, 59) + 2;
                let network = made_network(&rt, form, *capacities, nodes, &mut state);
                // from the first node to the last, and from any node to any
                tally.compare(&rt, form.name, &network, (0, nodes - 1));
                let any = (next_below(&mut state, nodes), next_below(&mut state, nodes));
                tally.compare(&rt, form.name, &network, any);
            }
        }
    }
    assert!(rt; tally.flows > 300 && tally.different > 100);
    assert!(rt; tally.unbounded > 100 && tally.same_ends > 10);
}
