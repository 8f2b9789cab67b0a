//! Plans in order compared with the slow reference that tries every plan, and with plans of the first stores alone.
ghost use Rattle.std.specs.Prelude.{◌≤◌, length};
ghost use Rattle.mm_plan.specs.Table.{HasShape};

use crate::tests::kinds::WAYS;
use crate::tests::samples::{Runtime, holds, is_least, limited, made};
use crate::tests::twins::proposals::{FAMILIES, Numbers};
use crate::tests::twins::small_problems;
use crate::tests::worths;
use mm_cut::{Verdict, verdict_of};
use mm_plan::{Certificate, Plan, Sheet, first_loss};
use mm_planner::{plan, plan_in_order_by_flow, sheet_in_order};
use mm_problem::{Kind, MAX_BLOCKS, Problem, StoreRow};

// The first stores of the problem, which are empty at the start after a number of them.
fn first_rows(rt: &impl Runtime, problem: &Problem, stores: usize, served: usize) -> Vec<StoreRow>
    requires { stores ≤ length problem.now.rows }
{
    let mut rows = Vec::new(rt.alloc());
    for store in 0..stores {
        let is_served = store < served;
        let row = StoreRow {
            id: problem.id(store),
            size: problem.setup_size(store),
            start: if is_served { problem.start(store) } else { 0 },
            kind: Kind::Bounded,
            channel: problem.channel(store),
        };
        rows.push(row).expect(rt, "memory");
    }
    rows
}

fn windows(rt: &impl Runtime, problem: &Problem) -> Vec<u32> {
    let mut windows = Vec::new(rt.alloc());
    for step in 1..problem.steps() + 1 {
        windows.push(problem.window(step)).expect(rt, "memory");
    }
    windows
}

// The arrivals of the first stores, which are 0 after a number of them.
fn first_arrivals(rt: &impl Runtime, problem: &Problem, stores: usize, served: usize) -> Vec<u32>
    requires { stores ≤ length problem.now.rows }
{
    let mut arrivals = Vec::new(rt.alloc());
    for step in 1..problem.steps() + 1 {
        for store in 0..stores {
            let is_served = store < served;
            let blocks = problem.arrivals(store, step);
            let blocks = if is_served { blocks } else { 0 };
            arrivals.push(blocks).expect(rt, "memory");
        }
    }
    arrivals
}

// The problem with the limits for each step of another one.
fn limited_as(rt: &impl Runtime, problem: &Problem, other: &Problem) -> Problem {
    let mut channels = Vec::new(rt.alloc());
    for channel in 0..8u8 {
        if other.setup_limit(channel).is_some() || other.limited().contains(&channel) {
            channels.push(channel).expect(rt, "memory");
        }
    }
    let mut limits = Vec::new(rt.alloc());
    for step in 1..other.steps() + 1 {
        for channel in channels.iter() {
            let blocks = other.limit(*channel, step).unwrap_or(MAX_BLOCKS);
            limits.push(blocks).expect(rt, "memory");
        }
    }
    limited(rt, problem, &channels, &limits)
}

// The problem with arrivals and sizes by step as those of another one.
fn stepped_as(rt: &impl Runtime, problem: &Problem, other: &Problem) -> Problem {
    let mut stores = Vec::new(rt.alloc());
    for store in other.sized() {
        if (*store as usize) < problem.stores() {
            stores.push(*store).expect(rt, "memory");
        }
    }
    let mut sizes = Vec::new(rt.alloc());
    for step in 1..other.steps() + 1 {
        for store in stores.iter() {
            let place = *store as usize;
            assert!(rt; place < other.stores());
            sizes.push(other.size(place, step)).expect(rt, "memory");
        }
    }
    let stepped = problem.with_arrivals(rt.alloc(), other.come());
    let stepped = stepped.expect(rt, "memory");
    let stepped = stepped.with_step_sizes(rt.alloc(), &stores, &sizes);
    stepped.expect(rt, "a problem")
}

// The problem with its first stores, in which blocks are and arrive only in a number of these.
fn narrowed(rt: &impl Runtime, problem: &Problem, stores: usize, served: usize) -> Problem
    requires { stores ≤ length problem.now.rows }
{
    let rows = first_rows(rt, problem, stores, served);
    let windows = windows(rt, problem);
    let arrivals = first_arrivals(rt, problem, stores, served);
    let narrow = made(rt, &rows, &[], &windows, &arrivals);
    let limited = limited_as(rt, &narrow, problem);
    stepped_as(rt, &limited, problem)
}

// The plan in order, whose certificates show that it loses least in that order.
fn planned(rt: &impl Runtime, problem: &Problem) -> Sheet
    ensures { HasShape problem.now result.plan }
{
    let sheet = sheet_in_order(rt.alloc(), problem).expect(rt, "memory");
    assert!(rt; sheet.plan().has_shape(problem));
    let verdict = verdict_of(problem, &sheet);
    let least = Verdict::LeastInOrder(sheet.loss());
    holds(rt, verdict == least, "the verdict");
    sheet
}

// The least loss of the first stores, of all plans that fit, is this. It is found by plans of a problem in which
// nothing is in the other stores and nothing arrives there, so that these lose nothing.
fn is_least_of_all_plans(rt: &impl Runtime, problem: &Problem, plan: &Plan, stores: usize)
    requires shape { HasShape problem.now plan.now }
    requires stores { stores ≤ length problem.now.rows }
{
    let loss = first_loss(problem, plan, stores);
    let quiet = narrowed(rt, problem, problem.stores(), stores);
    is_least(rt, &quiet, loss);
}

// These certificates show the same losses.
fn show_alike(rt: &impl Runtime, found: &[Certificate], wanted: &[Certificate]) {
    assert!(rt; found.len() == wanted.len());
    for (found, wanted) in found.iter().zip(wanted.iter()) {
        assert!(rt; found.loss() == wanted.loss());
    }
}

// The plan by the network alone has the same losses, of all stores and of the first ones.
fn is_planned_alike_by_flow(rt: &impl Runtime, problem: &Problem, sheet: &Sheet) {
    let by_flow = plan_in_order_by_flow(rt.alloc(), problem).expect(rt, "memory");
    assert!(rt; by_flow.certificate.loss() == sheet.loss());
    show_alike(
        rt,
        &by_flow.firsts,
        sheet.firsts().expect(rt, "certificates"),
    );
}

// The same for the first store, the first two and so on.
fn each_is_least_of_all_plans(rt: &impl Runtime, problem: &Problem, plan: &Plan)
    requires { HasShape problem.now plan.now }
{
    for last in 0..problem.stores() {
        is_least_of_all_plans(rt, problem, plan, last + 1);
    }
}

// The same by the plan in order, which is that of the network too.
fn are_least_of_all_plans(rt: &impl Runtime, problem: &Problem) {
    let sheet = planned(rt, problem);
    is_planned_alike_by_flow(rt, problem, &sheet);
    each_is_least_of_all_plans(rt, problem, sheet.plan());
}

#[test]
fn the_first_stores_lose_no_more_than_by_the_best_of_all_plans(rt: HostRuntime) {
    for problem in small_problems(&rt).iter() {
        are_least_of_all_plans(&rt, problem);
    }
}

#[test]
fn the_first_of_three_stores_lose_no_more_than_by_all_plans(rt: HostRuntime) {
    for way in &WAYS {
        let mut state = 17;
        for _ in 0..16u32 {
            let numbers = worths::Numbers::made(&rt, &mut state, 3, 2);
            let problem = way.of(&rt, &numbers.problem(&rt), &mut state, 2);
            are_least_of_all_plans(&rt, &problem);
        }
    }
}

// The loss of the first stores is that of the best plan of these stores alone.
fn is_least_alone(rt: &impl Runtime, problem: &Problem, ordered: &Plan, stores: usize)
    requires shape { HasShape problem.now ordered.now }
    requires stores { stores ≤ length problem.now.rows }
{
    let alone = narrowed(rt, problem, stores, stores);
    let least = plan(rt.alloc(), &alone)
        .expect(rt, "memory")
        .certificate
        .loss();
    let loss = first_loss(problem, ordered, stores);
    holds(rt, loss == least, "the loss of the first stores");
}

// The same for the first store, the first two and so on. Returns whether the plan without order loses another number
// of some of these.
fn each_is_least_alone(
    rt: &impl Runtime,
    problem: &Problem,
    ordered: &Plan,
    unordered: &Plan,
) -> bool
    requires ordered { HasShape problem.now ordered.now }
    requires unordered { HasShape problem.now unordered.now }
{
    let mut is_other = false;
    for last in 0..problem.stores() {
        is_least_alone(rt, problem, ordered, last + 1);
        let loss = first_loss(problem, ordered, last + 1);
        is_other = is_other || first_loss(problem, unordered, last + 1) != loss;
    }
    is_other
}

fn are_least_alone(rt: &impl Runtime, problem: &Problem) -> bool {
    let sheet = planned(rt, problem);
    let unordered = plan(rt.alloc(), problem).expect(rt, "memory").plan;
    assert!(rt; unordered.has_shape(problem));
    each_is_least_alone(rt, problem, sheet.plan(), &unordered)
}

// The same in problems of each family, two of each way, with limits for each step or without.
fn of_each_family_are_least_alone(rt: &impl Runtime, seed: u64, is_limited: bool) {
    let mut numbers = Numbers::seeded(seed);
    let mut state = 19;
    let mut others: u32 = 0;
    for round in 0..8usize {
        let way = &WAYS[round % 4];
        for family in &FAMILIES {
            let shape = numbers.shape(1, 14, is_limited);
            let problem = family.problem(rt, shape, &mut numbers);
            let problem = way.of(rt, &problem, &mut state, 4);
            let is_other = are_least_alone(rt, &problem);
            others = others.saturating_add(u32::from(is_other));
        }
    }
    holds(rt, others > 4, "other plans");
}

#[test]
fn the_first_stores_lose_what_they_lose_alone(rt: HostRuntime) {
    of_each_family_are_least_alone(&rt, 331, false);
}

#[test]
fn with_limits_by_step_they_lose_what_they_lose_alone(rt: HostRuntime) {
    of_each_family_are_least_alone(&rt, 337, true);
}
