//! The arcs of one step of a problem's network, kind by kind.
ghost use Rattle.std.specs.Prelude.{◌≡◌, ◌+◌, ◌*◌, ◌<◌, ◌≤◌, length, map, OnOk, [], ◌∷◌};
ghost use Rattle.std.specs.Option.{ForSome};
ghost use Rattle.mm_base.specs.declared.limits.TheConstants.{MAX_STORES, MAX_BLOCKS, CHANNELS};
ghost use Rattle.mm_problem.specs.Dumping.{stores, channels, limit};
ghost use Rattle.mm_flow.specs.Built.{with_arc};
ghost use Rattle.mm_planner.specs.Network.{first_inflow, next_node, dump_node, store_arc, limit_arc, window_arc, step_arcs};
ghost use Rattle.mm_planner.specs.Links.{arc_of, IsLink};
ghost use Rattle.mm_planner.specs.Growing.{AddsArcs, IsStep, HasRoom, KeepsRoom};

use crate::nodes::Node;
use crate::way::Way;
use mm_base::NoMemory;
use mm_flow::Network;
use mm_problem::{Arrivals, Problem};

/// An arc between two nodes.
#[derive(Clone, Copy)]
pub(crate) struct Link {
    pub(crate) from: Node,
    pub(crate) to: Node,
    pub(crate) capacity: Option<u64>,
}

// The blocks that arrive in a store in a step, and in the first step its start volume; 0 if it is not one of the first
// stores.
fn inflow(problem: &Problem, first: usize, step: u32, store: usize) -> u64
    requires store { store < length problem.now.rows }
    requires step { IsStep problem.now step }
    ensures inflow { result ≡ first_inflow first problem.now step store }
    ensures most { result ≤ 2 * MAX_BLOCKS }
{
    if store >= first {
        return 0;
    }
    let arrivals = u64::from(problem.arrivals(store, step));
    if step == 1 {
        arrivals + u64::from(problem.start(store))
    } else {
        arrivals
    }
}

// The node that receives the blocks which a store keeps.
fn next_node(problem: &Problem, step: u32, store: usize) -> Node
    requires step { IsStep problem.now step }
    ensures next { result ≡ next_node problem.now step store }
{
    if step == problem.steps() {
        Node::Sink
    } else {
        let step = step + 1;
        Node::In { step, store }
    }
}

// The node from which a store's blocks are dumped.
fn dump_node(problem: &Problem, step: u32, store: usize) -> Node
    ensures node { result ≡ dump_node problem.now.come step store }
{
    match problem.come() {
        Arrivals::Before => Node::Out { step, store },
        Arrivals::During => Node::In { step, store },
    }
}

// The limit of a channel in a step.
fn limit(problem: &Problem, channel: u8, step: u32) -> Option<u64>
    requires step { IsStep problem.now step }
    ensures limit { result ≡ limit problem.now channel step }
    ensures most { ForSome result (λ blocks. blocks ≤ MAX_BLOCKS) }
{
    match problem.limit(channel, step) {
        Some(blocks) => Some(u64::from(blocks)),
        None => None,
    }
}

// The arc of a store in a step, if blocks arrive in the first stores only.
fn store_link(problem: &Problem, first: usize, way: Way, step: u32, store: usize) -> Link
    requires step { IsStep problem.now step }
    requires store { store < length problem.now.rows }
    requires most { store < MAX_STORES }
    ensures arc { arc_of result
        ≡ store_arc problem.now (first_inflow first problem.now) way step store }
    ensures is_link { IsLink problem.now result }
{
    let arrived = Node::In { step, store };
    let held = Node::Out { step, store };
    match way {
        Way::Come => Link {
            from: Node::Source,
            to: arrived,
            capacity: Some(inflow(problem, first, step, store)),
        },
        Way::Hold => Link {
            from: arrived,
            to: held,
            capacity: Some(u64::from(problem.size(store, step))),
        },
        Way::Keep => Link {
            from: held,
            to: next_node(problem, step, store),
            capacity: None,
        },
        Way::Take => {
            let channel = problem.channel(store);
            Link {
                from: dump_node(problem, step, store),
                to: Node::Channel { step, channel },
                capacity: None,
            }
        }
    }
}

// The arc for the limit of a channel in a step.
fn limit_link(problem: &Problem, step: u32, channel: u8) -> Link
    requires step { IsStep problem.now step }
    requires channel { channel < CHANNELS }
    ensures arc { arc_of result ≡ limit_arc problem.now step channel }
    ensures is_link { IsLink problem.now result }
{
    Link {
        from: Node::Channel { step, channel },
        to: Node::Pass { step },
        capacity: limit(problem, channel, step),
    }
}

// The arc for the window.
fn window_link(problem: &Problem, step: u32) -> Link
    requires step { IsStep problem.now step }
    ensures arc { arc_of result ≡ window_arc problem.now step }
    ensures is_link { IsLink problem.now result }
{
    Link {
        from: Node::Pass { step },
        to: Node::Sink,
        capacity: Some(u64::from(problem.window(step))),
    }
}

// Adds an arc to the network of a problem.
fn add_link(network: &mut Network, problem: &Problem, link: Link) -> Result<(), NoMemory>
    requires link { IsLink problem.now link }
    requires room { HasRoom problem.now network.old.graph 1 }
    ensures added { OnOk result (network.new ≡ with_arc network.old (arc_of link)) }
{
    network.add_arc(link.from.number(), link.to.number(), link.capacity)?;
    Ok(())
}

// Adds the arcs of one kind, one for each store.
fn add_store_arcs(
    network: &mut Network,
    problem: &Problem,
    first: usize,
    way: Way,
    step: u32,
) -> Result<(), NoMemory>
    requires step { IsStep problem.now step }
    requires room { HasRoom problem.now network.old.graph MAX_STORES }
    ensures added { OnOk result
        (AddsArcs network.old network.new
        (map (store_arc problem.now (first_inflow first problem.now) way step) (stores problem.now))) }
    ensures room { OnOk result (KeepsRoom network.old.graph network.new.graph MAX_STORES) }
{
    for store in 0..problem.stores() {
        let link = store_link(problem, first, way, step, store);
        add_link(network, problem, link)?;
    }
    Ok(())
}

// Adds the arcs of the channels, each with its limit in the step.
fn add_limit_arcs(network: &mut Network, problem: &Problem, step: u32) -> Result<(), NoMemory>
    requires step { IsStep problem.now step }
    requires room { HasRoom problem.now network.old.graph MAX_STORES }
    ensures added { OnOk result
        (AddsArcs network.old network.new
        (map (limit_arc problem.now step) (channels problem.now))) }
    ensures room { OnOk result (KeepsRoom network.old.graph network.new.graph MAX_STORES) }
{
    for channel in 0..problem.channels() {
        let link = limit_link(problem, step, channel);
        add_link(network, problem, link)?;
    }
    Ok(())
}

// Adds the arc of the pass, with the step's window.
fn add_window_arc(network: &mut Network, problem: &Problem, step: u32) -> Result<(), NoMemory>
    requires room { HasRoom problem.now network.old.graph MAX_STORES }
    requires step { IsStep problem.now step }
    ensures added { OnOk result
        (AddsArcs network.old network.new (window_arc problem.now step ∷ [])) }
{
    let link = window_link(problem, step);
    add_link(network, problem, link)
}

// Adds all arcs of a step, if blocks arrive in the first stores only.
pub(crate) fn add_step(
    network: &mut Network,
    problem: &Problem,
    first: usize,
    step: u32,
) -> Result<(), NoMemory>
    requires step { IsStep problem.now step }
    requires room { HasRoom problem.now network.old.graph (6 * MAX_STORES) }
    ensures added { OnOk result
        (AddsArcs network.old network.new
        (step_arcs problem.now (first_inflow first problem.now) step)) }
{
    add_store_arcs(network, problem, first, Way::Come, step)?;
    add_store_arcs(network, problem, first, Way::Hold, step)?;
    add_store_arcs(network, problem, first, Way::Keep, step)?;
    add_store_arcs(network, problem, first, Way::Take, step)?;
    add_limit_arcs(network, problem, step)?;
    add_window_arc(network, problem, step)?;
    Ok(())
}
