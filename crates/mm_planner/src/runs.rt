//! The cut of a side of the network: the longest runs of each store's nodes on the side.
ghost use Rattle.std.specs.Prelude.{◌≡◌, ◌+◌, ◌<◌, ◌≤◌, ◌^◌, ◌++◌, ◌∷◌, [], if◌then◌else◌, length, IfOk, OnOk};
ghost use Rattle.mm_base.specs.declared.limits.TheConstants.{MAX_STORES, MAX_STEPS};
ghost use Rattle.mm_flow.specs.Solution.{side_of};
ghost use Rattle.mm_planner.specs.Nodes.{number_of};
ghost use Rattle.mm_planner.specs.Runs.{is_on, goes_on, is_end, is_by_channels, stretches_of, first_stretches};
ghost use Rattle.mm_planner.specs.Runs.{counts_of};

use crate::nodes::Node;
use mm_base::{MAX_STORES, NoMemory};
use mm_cut::is_inner;
use mm_plan::Stretch;
use mm_problem::Problem;
use std::alloc::Global;

// Whether a node is on the side.
fn is_on(side: &[bool], node: Node) -> bool
    requires { number_of node < 2 ^ 32 }
    ensures { result ≡ is_on (side_of side.now) node }
{
    let number = node.number() as usize;
    side.get(number).copied().unwrap_or(false)
}

// Whether a run of the store continues after the step.
fn goes_on(side: &[bool], store: usize, step: u32) -> bool
    requires store { store < MAX_STORES }
    requires step { step ≤ MAX_STEPS }
    ensures { result ≡ goes_on (side_of side.now) store step }
{
    is_on(side, Node::In { step, store }) && is_on(side, Node::Out { step, store })
}

// Whether a run of the store ends with the step.
fn is_end(side: &[bool], store: usize, step: u32) -> bool
    requires store { store < MAX_STORES }
    requires step { step ≤ MAX_STEPS }
    ensures { result ≡ is_end (side_of side.now) store step }
{
    is_on(side, Node::In { step, store }) && !is_on(side, Node::Out { step, store })
}

// Adds the run if it ends with its last step.
fn add_run(
    stretches: &mut Vec<Stretch>,
    side: &[bool],
    store: usize,
    run: Stretch,
) -> Result<(), NoMemory>
    requires store { store < MAX_STORES }
    requires step { run.last ≤ MAX_STEPS }
    ensures added { OnOk result (stretches.new.items
        ≡ (if is_end (side_of side.now) store run.last
        then stretches.old.items ++ run ∷ []
        else stretches.old.items)) }
{
    if is_end(side, store, run.last) {
        stretches.push(run)?;
    }
    Ok(())
}

// The first step of the next step's run, if the run of this step starts with `first`.
fn next_first(side: &[bool], store: usize, step: u32, first: u32) -> u32
    requires store { store < MAX_STORES }
    requires step { step ≤ MAX_STEPS }
    ensures { result ≡ (if goes_on (side_of side.now) store step then first else step + 1) }
{
    if goes_on(side, store, step) {
        first
    } else {
        step + 1
    }
}

// Adds the runs of one store.
fn add_runs(
    stretches: &mut Vec<Stretch>,
    problem: &Problem,
    store: usize,
    side: &[bool],
) -> Result<(), NoMemory>
    requires store { store < length problem.now.rows }
    requires most { store < MAX_STORES }
    ensures added { OnOk result (stretches.new.items
        ≡ stretches.old.items ++ stretches_of problem.now (side_of side.now) store) }
{
    let id = problem.id(store);
    let mut first = 1;
    for step in 1..problem.steps() + 1 {
        let run = Stretch {
            store: id,
            first,
            last: step,
        };
        add_run(stretches, side, store, run)?;
        first = next_first(side, store, step, first);
    }
    Ok(())
}

// The runs of the first stores.
pub(crate) fn stretches(
    alloc: Global,
    problem: &Problem,
    first: usize,
    side: &[bool],
) -> Result<Vec<Stretch>, NoMemory>
    requires { first ≤ length problem.now.rows }
    ensures { IfOk result
        (λ runs. runs.items ≡ first_stretches first problem.now (side_of side.now)) }
{
    prove!(problem.stores() <= MAX_STORES);
    let mut runs = Vec::new(alloc);
    for store in 0..first {
        add_runs(&mut runs, problem, store, side)?;
    }
    Ok(runs)
}

// Whether the step is inner and its pass is off the side.
fn is_by_channels(problem: &Problem, side: &[bool], stretches: &[Stretch], step: u32) -> bool
    requires { step ≤ MAX_STEPS }
    ensures { result ≡ is_by_channels problem.now (side_of side.now) stretches.now step }
{
    is_inner(problem, stretches, step) && !is_on(side, Node::Pass { step })
}

// Adds the step if it is counted by channels.
fn add_count(
    counts: &mut Vec<u32>,
    problem: &Problem,
    side: &[bool],
    stretches: &[Stretch],
    step: u32,
) -> Result<(), NoMemory>
    requires { step ≤ MAX_STEPS }
    ensures added { OnOk result (counts.new.items
        ≡ (if is_by_channels problem.now (side_of side.now) stretches.now step
        then counts.old.items ++ step ∷ []
        else counts.old.items)) }
{
    if is_by_channels(problem, side, stretches, step) {
        counts.push(step)?;
    }
    Ok(())
}

// The steps that are counted by channels.
pub(crate) fn counts(
    alloc: Global,
    problem: &Problem,
    side: &[bool],
    stretches: &[Stretch],
) -> Result<Vec<u32>, NoMemory>
    ensures { IfOk result
        (λ counts. counts.items ≡ counts_of problem.now (side_of side.now) stretches.now) }
{
    let mut counts = Vec::new(alloc);
    for step in 1..problem.steps() + 1 {
        add_count(&mut counts, problem, side, stretches, step)?;
    }
    Ok(counts)
}
