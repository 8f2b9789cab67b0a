//! Problems of each kind: whether arrivals come before dumps or during them, with sizes by step or without. Plans are
//! compared with the slow reference that tries every plan, and the worked rows were counted by hand.
ghost use Rattle.std.specs.Prelude.{◌<◌, ◌≤◌};

use crate::tests::samples::{Runtime, filled, holds, is_least, next_below};
use crate::tests::twins::proposals::{FAMILIES, Numbers};
use crate::tests::worths;
use mm_cut::{Verdict, verify};
use mm_plan::{NoMemory, fits, loss_of};
use mm_planner::{Planned, plan, plan_by_flow};
use mm_problem::{Arrivals, Problem};
use mm_propose::propose;

mod rows;

/// What makes a problem more than one whose steps can be carried out.
#[derive(Clone, Copy)]
pub(crate) struct Way {
    name: &'static str,
    come: Arrivals,
    is_sized: bool,
}

// Ways by name: when arrivals come, and whether stores have sizes by step.
macro_rules! ways {
    ($($name:literal: $come:ident $is_sized:literal;)+) => {
        [$(Way { name: $name, come: Arrivals::$come, is_sized: $is_sized }),+]
    };
}

pub(crate) static WAYS: [Way; 4] = ways! {
    "arrivals before dumps": Before false;
    "arrivals before dumps, sizes by step": Before true;
    "arrivals during dumps": During false;
    "arrivals during dumps, sizes by step": During true;
};

// A size of a store in a step: in most steps that of the step before, and at times above the setup's size.
fn next_size(state: &mut u32, turn: u32, most: u32, before: u32) -> u32
    requires turn { 0 < turn }
    requires most { most ≤ 1000000 }
{
    if next_below(state, turn) == 0 {
        next_below(state, most + 2)
    } else {
        before
    }
}

// The stores with sizes by step: all but the first, or all.
fn sized_stores(rt: &impl Runtime, problem: &Problem, state: &mut u32) -> Vec<u8> {
    let first = next_below(state, 2) as u8;
    let mut stores = Vec::new(rt.alloc());
    for store in first..problem.stores() as u8 {
        stores.push(store).expect(rt, "memory");
    }
    stores
}

// The problem with random sizes by step, each of which lasts for this many steps on average.
fn sized(rt: &impl Runtime, problem: &Problem, state: &mut u32, turn: u32) -> Problem
    requires { 0 < turn }
{
    let stores = sized_stores(rt, problem, state);
    let mut now = [1_000_000; 16];
    let mut sizes = Vec::new(rt.alloc());
    for _ in 0..problem.steps() {
        for store in stores.iter() {
            let place = *store as usize;
            assert!(rt; place < problem.stores());
            let size = next_size(state, turn, problem.setup_size(place), now[place & 15]);
            now[place & 15] = size.min(1_000_000);
            sizes.push(now[place & 15]).expect(rt, "memory");
        }
    }
    let sized = problem.with_step_sizes(rt.alloc(), &stores, &sizes);
    sized.expect(rt, "a problem")
}

impl Way {
    // The problem in this way.
    pub(crate) fn of(
        &self,
        rt: &impl Runtime,
        problem: &Problem,
        state: &mut u32,
        turn: u32,
    ) -> Problem
        requires { 0 < turn }
    {
        let problem = problem.with_arrivals(rt.alloc(), self.come);
        let problem = problem.expect(rt, "memory");
        if self.is_sized {
            sized(rt, &problem, state, turn)
        } else {
            problem
        }
    }
}

// The loss of a plan whose certificate shows that no plan loses less.
fn shown(rt: &impl Runtime, problem: &Problem, planned: Result<Planned, NoMemory>) -> u64 {
    let planned = planned.expect(rt, "memory");
    let (plan, shown) = (&planned.plan, &planned.certificate);
    let loss = shown.loss();
    assert!(rt; plan.has_shape(problem) && loss < 1 << 63);
    let (stretches, counts) = (shown.cut(), shown.by_channels());
    let verdict = verify(problem, plan, stretches, counts, loss, loss as i64);
    holds(rt, verdict == Verdict::Least(loss), "the verdict");
    loss
}

// Whether the proposal with its idle windows filled loses least, as its own cut shows.
fn is_proposed(rt: &impl Runtime, problem: &Problem, loss: u64) -> bool {
    let proposed = propose(rt.alloc(), problem).expect(rt, "memory");
    assert!(rt; proposed.plan.has_shape(problem));
    if fits(problem, &proposed.plan).is_err() {
        return false;
    }
    let plan = filled(rt, problem, &proposed.plan);
    let found = loss_of(problem, &plan);
    let cut = &proposed.cut;
    let (stretches, counts) = (cut.stretches.as_slice(), cut.by_channels.as_slice());
    verify(problem, &plan, stretches, counts, found, found as i64) == Verdict::Least(loss)
}

// What the planner finds is what its network alone finds. Returns whether the proposal shows it.
pub(crate) fn is_planned(rt: &impl Runtime, problem: &Problem) -> bool {
    let loss = shown(rt, problem, plan(rt.alloc(), problem));
    let by_flow = shown(rt, problem, plan_by_flow(rt.alloc(), problem));
    holds(rt, by_flow == loss, "the loss by the network alone");
    is_proposed(rt, problem, loss)
}

// What the planner finds is the least of all plans. Returns whether the proposal shows it.
pub(crate) fn is_planned_least(rt: &impl Runtime, problem: &Problem) -> bool {
    let loss = shown(rt, problem, plan(rt.alloc(), problem));
    is_least(rt, problem, loss);
    is_planned(rt, problem)
}

// The stores and steps of tiny problems, of which every plan can be tried.
static TINY: [(u32, u32); 5] = [(1, 5), (2, 2), (2, 3), (3, 2), (1, 6)];

#[test]
fn tiny_problems_of_each_kind_are_planned_as_by_all_plans(rt: HostRuntime) {
    for way in &WAYS {
        let mut state = 41;
        let mut proposed: u32 = 0;
        for _ in 0..24u32 {
            for (stores, steps) in &TINY {
                let numbers = worths::Numbers::made(&rt, &mut state, *stores, *steps);
                let problem = way.of(&rt, &numbers.problem(&rt), &mut state, 2);
                let is_proposed = is_planned_least(&rt, &problem);
                proposed = proposed.saturating_add(u32::from(is_proposed));
            }
        }
        holds(&rt, proposed == 120, way.name);
    }
}

#[test]
fn problems_of_each_kind_and_family_are_planned_as_by_the_network(rt: HostRuntime) {
    for way in &WAYS {
        let mut state = 43;
        let mut numbers = Numbers::seeded(347);
        let mut proposed: u32 = 0;
        for round in 0..2u32 {
            for family in &FAMILIES {
                let shape = numbers.shape(1, 62, round % 2 == 1);
                let problem = family.problem(&rt, shape, &mut numbers);
                let problem = way.of(&rt, &problem, &mut state, 4);
                proposed = proposed.saturating_add(u32::from(is_planned(&rt, &problem)));
            }
        }
        holds(&rt, proposed == 16, way.name);
    }
}
