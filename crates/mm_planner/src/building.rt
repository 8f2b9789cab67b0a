//! The network of a problem, built in memory that is reserved first.
ghost use Rattle.std.specs.Prelude.{◌≡◌, ◌+◌, ◌*◌, ◌≤◌, length, IfOk, OnOk, []};
ghost use Rattle.mm_base.specs.declared.limits.TheConstants.{MAX_STORES, MAX_STEPS, CHANNELS};
ghost use Rattle.mm_problem.specs.Dumping.{IsDumping};
ghost use Rattle.mm_flow.specs.declared.limits.TheConstants.{MAX_NODES};
ghost use Rattle.mm_planner.specs.Network.{first_inflow, net_by, net};
ghost use Rattle.mm_planner.specs.Taken.{step_width};
ghost use Rattle.mm_planner.specs.Growing.{with_arcs, nodes_alone};

use crate::arcs::add_step;
use crate::nodes::STEP_NODES;
use mm_base::NoMemory;
use mm_flow::Network;
use mm_problem::Problem;
use std::alloc::Global;

// The number of arcs for each step.
pub(crate) fn step_width(problem: &Problem) -> u32
    ensures width { result ≡ step_width problem.now }
    ensures most { result ≤ 4 * MAX_STORES + CHANNELS + 1 }
    ensures is_dumping { IsDumping problem.now }
{
    4 * problem.stores() as u32 + u32::from(problem.channels()) + 1
}

// Adds this number of nodes.
fn add_nodes(network: &mut Network, nodes: u32) -> Result<(), NoMemory>
    requires none { network.old.graph ≡ nodes_alone 0 }
    requires most { nodes ≤ MAX_NODES }
    ensures added { OnOk result (network.new.graph ≡ nodes_alone nodes) }
{
    for _ in 0..nodes {
        network.add_node()?;
    }
    Ok(())
}

// Adds the arcs of all steps.
fn add_arcs(network: &mut Network, problem: &Problem, first: usize) -> Result<(), NoMemory>
    requires { network.old.graph ≡ nodes_alone (net problem.now).nodes }
    ensures added { OnOk result
        (network.new.graph ≡ net_by problem.now (first_inflow first problem.now)) }
{
    for step in 1..problem.steps() + 1 {
        add_step(network, problem, first, step)?;
    }
    Ok(())
}

/// The network of a problem, if blocks arrive in the first stores only.
pub(crate) fn first_network(
    alloc: Global,
    problem: &Problem,
    first: usize,
) -> Result<Network, NoMemory>
    ensures built { IfOk result
        (λ network. network.graph ≡ net_by problem.now (first_inflow first problem.now)) }
    ensures problem { IsDumping problem.now }
{
    let nodes = STEP_NODES * (problem.steps() + 1);
    let arcs = problem.steps() * step_width(problem);
    let mut network = Network::with_room(alloc, nodes, arcs)?;
    add_nodes(&mut network, nodes)?;
    add_arcs(&mut network, problem, first)?;
    Ok(network)
}

/// The network of a problem: blocks flow from `SOURCE` through its stores and channels to `SINK`. A maximum flow has
/// the most blocks that need not be lost.
pub fn network_of(alloc: Global, problem: &Problem) -> Result<Network, NoMemory>
    ensures built { IfOk result (λ network. network.graph ≡ net problem.now) }
    ensures problem { IsDumping problem.now }
{
    let network = first_network(alloc, problem, problem.stores())?;
    Ok(network)
}
