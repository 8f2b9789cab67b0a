//! Plans of small problems: what they do to the stores, and how they are filled.
ghost use Rattle.mm_plan.specs.Simulated.{CoversProblem};

use crate::tests::samples::{
    A_AND_B, APART, FIRST_RUN, Runtime, SCI, SCI_OF_SIZE_2, THREE_STEPS, filled, holds, problem_of,
    sheet_of,
};
use mm_plan::{Plan, Sheet, Simulated, loss_of, simulate};
use mm_problem::Problem;

pub(crate) mod sheets;

const SCI_LIMITED_TO_3: &str =
    "[[store]]\nid = \"SCI\"\nsize = 5\ntype = \"bounded\"\nchannel = 0\n\n[[limit]]\nchannel = 0\nblocks = 3\n";

const A_AND_B_IDLE: &str = "step,window,A,B\n1,2,0,0\n2,2,0,0\n3,2,0,0\n";

// The blocks written to the one store, left in it and lost, step by step.
static VOLUMES: [(u32, u32, u32); 3] = [(3, 1, 0), (4, 2, 0), (4, 4, 2)];

// The simulation of a problem with one store has these volumes, and loses 2.
fn has_volumes(rt: &impl Runtime, problem: &Problem, simulated: &Simulated)
    requires { CoversProblem problem.now simulated.now }
{
    assert!(rt; (problem.stores(), problem.steps()) == (1, 3));
    for step in 1..4u32 {
        let (written, left) = (simulated.written(0, step), simulated.left(0, step));
        let found = (written, left, simulated.lost(0, step));
        let wanted = VOLUMES.get(step as usize - 1);
        holds(rt, wanted == Some(&found), "the step");
    }
    assert!(rt; simulated.total() == 2);
}

// The plan of this sheet is simulated.
fn is_simulated(rt: &impl Runtime, problem: &Problem, sheet: &Sheet) {
    let plan = sheet.plan();
    assert!(rt; plan.has_shape(problem));
    let simulated = simulate(rt.alloc(), problem, plan).expect(rt, "memory");
    has_volumes(rt, problem, &simulated);
}

#[test]
fn volumes_by_hand(rt: HostRuntime) {
    let problem = problem_of(&rt, SCI, THREE_STEPS);
    let sheet = sheet_of(&rt, FIRST_RUN);
    is_simulated(&rt, &problem, &sheet);
}

// The plan has the problem's shape and these amounts, step by step and in each the stores in order.
fn has_amounts(rt: &impl Runtime, problem: &Problem, plan: &Plan, wanted: &[u32], name: &str) {
    assert!(rt; plan.has_shape(problem));
    let mut wanted = wanted.iter();
    for step in 1..problem.steps() + 1 {
        for store in 0..problem.stores() {
            let amount = plan.amount(store, step);
            holds(rt, wanted.next() == Some(&amount), name);
        }
    }
    assert!(rt; wanted.next() == None);
}

// The plan has the problem's shape and this loss.
fn loses(rt: &impl Runtime, problem: &Problem, plan: &Plan, loss: u64) {
    assert!(rt; plan.has_shape(problem));
    assert!(rt; loss_of(problem, plan) == loss);
}

// The plan of zeros, with at most one amount set: that of a store in a step.
fn one_set(rt: &impl Runtime, problem: &Problem, set: Option<(usize, u32, u32)>) -> Plan {
    let mut plan = Plan::zero(rt.alloc(), problem).expect(rt, "memory");
    if let Some((store, step, amount)) = set {
        assert!(rt; store < problem.stores() && 0 < step && step <= problem.steps());
        assert!(rt; amount <= 10);
        plan.set(store, step, amount);
    }
    plan
}

// Problems, the amount that is set, all amounts after that, and the loss.
static SET: [(&str, &str, Option<(usize, u32, u32)>, &[u32], u64); 3] = wanted! {
    SCI, THREE_STEPS, None, &[0, 0, 0] => 6;
    // 3, 4, 4 blocks are written, 3, 3, 4 are left, and 0, 2, 3 are lost.
    SCI, THREE_STEPS, Some((0, 2, 1)), &[0, 1, 0] => 5;
    // Nothing arrives, so nothing is lost.
    A_AND_B, A_AND_B_IDLE, Some((1, 2, 7)), &[0, 0, 0, 7, 0, 0] => 0;
};

#[test]
fn one_amount_is_set(rt: HostRuntime) {
    for (setup, forecast, set, amounts, loss) in &SET {
        let problem = problem_of(&rt, setup, forecast);
        let plan = one_set(&rt, &problem, *set);
        has_amounts(&rt, &problem, &plan, amounts, forecast);
        loses(&rt, &problem, &plan, *loss);
    }
}

#[test]
fn a_plan_of_one_store_is_for_no_problem_of_two(rt: HostRuntime) {
    let problem = problem_of(&rt, SCI, THREE_STEPS);
    let plan = Plan::zero(rt.alloc(), &problem).expect(&rt, "memory");
    let other = problem_of(&rt, A_AND_B, A_AND_B_IDLE);
    assert!(rt; !plan.has_shape(&other));
}

// A plan, and the amounts that it has once it is filled.
struct Filling {
    name: &'static str,
    setup: &'static str,
    forecast: &'static str,
    plan: &'static str,
    filled: &'static [u32],
}

static FILLINGS: [Filling; 5] = table! { Filling;
    name "an idle window is used", setup SCI, forecast THREE_STEPS,
        plan "mmplan 1\nstores SCI\ndump 1 2\ndump 2 1\ndump 3 0\nloss 3\nbound 2\nend\n",
        filled &[2, 2, 0];
    name "a filled plan stays as it is", setup SCI, forecast THREE_STEPS, plan FIRST_RUN,
        filled &[2, 2, 0];
    name "no more leaves than is written", setup SCI_OF_SIZE_2, forecast APART,
        plan "mmplan 1\nstores SCI\ndump 1 0\ndump 2 9\ndump 3 0\nloss 6\nbound 6\nend\n",
        filled &[0, 2, 0];
    name "the channel's limit stops it, and then the window", setup SCI_LIMITED_TO_3,
        forecast "step,window,SCI\n1,9,4\n2,1,2\n",
        plan "mmplan 1\nstores SCI\ndump 1 0\ndump 2 0\nloss 0\nbound 0\nend\n", filled &[3, 1];
    name "each store gets its part", setup A_AND_B, forecast "step,window,A,B\n1,5,1,1\n",
        plan "mmplan 1\nstores A B\ndump 1 0 0\nloss 0\nbound 0\nend\n", filled &[1, 1];
};

// The plan fits, and it is filled to these amounts.
fn is_filled(rt: &impl Runtime, problem: &Problem, case: &Filling) {
    let sheet = sheet_of(rt, case.plan);
    let plan = sheet.plan();
    assert!(rt; plan.has_shape(problem));
    let plan = filled(rt, problem, plan);
    has_amounts(rt, problem, &plan, case.filled, case.name);
}

#[test]
fn windows_are_used_as_far_as_limits_allow(rt: HostRuntime) {
    for case in &FILLINGS {
        let problem = problem_of(&rt, case.setup, case.forecast);
        is_filled(&rt, &problem, case);
    }
}
