//! What a plan does to the stores, step by step.
ghost use Rattle.std.specs.Prelude.{◌≡◌, ◌+◌, ◌-◌, ◌*◌, ◌<◌, ◌≤◌, length, IfOk, OnOk};
ghost use Rattle.mm_base.specs.declared.limits.TheConstants.{MAX_BLOCKS};
ghost use Rattle.mm_base.specs.Grid.{grid_place};
ghost use Rattle.mm_plan.specs.Table.{amount, HasShape};
ghost use Rattle.mm_plan.specs.Volumes.{written, left, lost, loss};
ghost use Rattle.mm_plan.specs.Simulated.{written_in, left_in, lost_in, IsVolumePlace, CoversProblem, AgreeEach};
ghost use Rattle.mm_plan.specs.Tabled.{AreTabled, volumes};

use crate::loss::loss_of;
use crate::plan::Plan;
use crate::print::Pushed;
use crate::turn::{StepVolumes, size_in, turn};
use mm_base::NoMemory;
use mm_base::grid::place;
use mm_problem::Problem;
use std::alloc::Global;
use std::marker::Model;

/// What a plan does to each store in each step, in blocks. Stores count from 0, steps from 1.
#[derive(Debug, Drop)]
pub struct Simulated {
    pub(crate) stores: usize,
    pub(crate) steps: u32,
    // step by step, in each the stores in order
    pub(crate) volumes: Vec<StepVolumes>,
    pub(crate) total: u64,
}

impl Model for Simulated {
    ghost use Rattle.std.specs.Prelude.{◌≡◌, ◌*◌, length};
    ghost use Rattle.mm_plan.specs.Simulated.{VolumeTables};

    ghost Value = { VolumeTables };

    ghost view = { λ a. record { stores = a.stores; steps = a.steps; volumes = a.volumes.items; total = a.total } };

    ghost invariant = { λ a. length a.volumes.items ≡ a.steps * a.stores };
}

impl Simulated {
    /// How many blocks can leave a store in a step: what stands in it once the arrivals have come, up to its size where
    /// they come before the dumps.
    #[must_use]
    pub fn written(&self, store: usize, step: u32) -> u32
        requires { IsVolumePlace self.now store step }
        ensures { result ≡ written_in self.now store step }
    {
        self.volumes[place(self.stores, step, store)].written
    }

    /// How many blocks stand in a store when a step has ended.
    #[must_use]
    pub fn left(&self, store: usize, step: u32) -> u32
        requires { IsVolumePlace self.now store step }
        ensures { result ≡ left_in self.now store step }
    {
        self.volumes[place(self.stores, step, store)].left
    }

    /// How many blocks a store loses in a step.
    #[must_use]
    pub fn lost(&self, store: usize, step: u32) -> u32
        requires { IsVolumePlace self.now store step }
        ensures { result ≡ lost_in self.now store step }
    {
        self.volumes[place(self.stores, step, store)].lost
    }

    /// How many blocks all stores lose over all steps.
    #[must_use]
    pub fn total(&self) -> u64
        ensures { result ≡ self.now.total }
    {
        self.total
    }
}

// What the plan does to a store in a step, where this stands in the store before it.
fn volumes_in(problem: &Problem, plan: &Plan, store: usize, step: u32, before: u32) -> StepVolumes
    requires shape { HasShape problem.now plan.now }
    requires store { store < length problem.now.rows }
    requires first { 1 ≤ step }
    requires last { step ≤ length problem.now.windows }
    requires before { before ≡ left problem.now (amount plan.now) store (step - 1) }
    requires most { before ≤ MAX_BLOCKS }
    ensures { result ≡ volumes problem.now (amount plan.now) store step }
{
    let there = before + problem.arrivals(store, step);
    let size = size_in(problem, store, step);
    turn(problem.come(), size, there, plan.amount(store, step))
}

// Adds what the plan does to one store in one step.
fn push(
    volumes: &mut Vec<StepVolumes>,
    problem: &Problem,
    plan: &Plan,
    store: usize,
    step: u32,
) -> Pushed
    requires shape { HasShape problem.now plan.now }
    requires store { store < length problem.now.rows }
    requires first { 1 ≤ step }
    requires last { step ≤ length problem.now.windows }
    requires before { AreTabled problem.now (amount plan.now)
        (grid_place (length problem.now.rows) step store) volumes.old.items }
    ensures { OnOk result (AreTabled problem.now (amount plan.now)
        (grid_place (length problem.now.rows) step store + 1) volumes.new.items) }
{
    let before = if step == 1 {
        problem.start(store)
    } else {
        volumes[place(problem.stores(), step - 1, store)].left
    };
    volumes.push(volumes_in(problem, plan, store, step, before))?;
    Ok(())
}

// Adds what the plan does in one step.
fn push_step(volumes: &mut Vec<StepVolumes>, problem: &Problem, plan: &Plan, step: u32) -> Pushed
    requires shape { HasShape problem.now plan.now }
    requires first { 1 ≤ step }
    requires last { step ≤ length problem.now.windows }
    requires before { AreTabled problem.now (amount plan.now)
        (grid_place (length problem.now.rows) step 0) volumes.old.items }
    ensures { OnOk result (AreTabled problem.now (amount plan.now)
        (step * length problem.now.rows) volumes.new.items) }
{
    for store in 0..problem.stores() {
        push(volumes, problem, plan, store, step)?;
    }
    Ok(())
}

/// What stands in each store, and what it loses, if the plan is carried out and the arrivals are the problem's.
pub fn simulate(alloc: Global, problem: &Problem, plan: &Plan) -> Result<Simulated, NoMemory>
    requires { HasShape problem.now plan.now }
    ensures shape { IfOk result (CoversProblem problem.now) }
    ensures written { IfOk result (λ v. AgreeEach problem.now (written_in v) (written problem.now (amount plan.now))) }
    ensures left { IfOk result (λ v. AgreeEach problem.now (left_in v) (left problem.now (amount plan.now))) }
    ensures lost { IfOk result (λ v. AgreeEach problem.now (lost_in v) (lost problem.now (amount plan.now))) }
    ensures total { IfOk result (λ v. v.total ≡ loss problem.now (amount plan.now)) }
{
    let mut volumes = Vec::new(alloc);
    for step in 1..problem.steps() + 1 {
        push_step(&mut volumes, problem, plan, step)?;
    }
    Ok(Simulated {
        stores: problem.stores(),
        steps: problem.steps(),
        volumes,
        total: loss_of(problem, plan),
    })
}
