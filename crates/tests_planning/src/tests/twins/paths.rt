//! Each path of the planner on the largest problems, whose losses are counted by hand, and compared with the slow
//! reference on random tiny problems.
use super::{least_loss, planned_loss};
use crate::tests::samples::{
    Runtime, SIXTEEN_HEADER, SIXTEEN_STORES, alike_steps, each_limited, holds, joined, limited,
    made, next_below, problem_of, row,
};
use mm_problem::{LimitRow, Problem, StoreRow};

// The limit of each channel, the number of steps, and the loss. In the first step each store gets its block. Before
// each later step a window of 15 leaves one block of 16 behind, and a limit of 1 leaves eight.
static LARGEST: [(&str, u32, u64); 4] = [
    (each_limited!(9), 1, 0),
    (each_limited!(9), 256, 255),
    (each_limited!(1), 256, 8 * 255),
    (each_limited!(0), 256, 16 * 255),
];

const ONE_FOR_EACH: &str = ",15,1,1,1,1,1,1,1,1,1,1,1,1,1,1,1,1\n";

// 16 stores with these limits, and in each step a window of 15 and a block for each store.
fn largest(rt: &impl Runtime, limits: &str, steps: u32) -> Problem {
    let setup = joined(rt, &[SIXTEEN_STORES, limits]);
    let forecast = alike_steps(rt, SIXTEEN_HEADER, steps, ONE_FOR_EACH);
    problem_of(rt, setup.as_str(), forecast.as_str())
}

#[test]
fn both_paths_plan_the_largest_problems(rt: HostRuntime) {
    for (limits, steps, loss) in &LARGEST {
        let problem = largest(&rt, limits, *steps);
        holds(&rt, planned_loss(&rt, &problem) == *loss, "the loss");
    }
}

// A store of size 1 to 3 that is not full at the start, on one of two channels.
fn random_store(rt: &impl Runtime, text: &str, state: &mut u32) -> StoreRow {
    let size = next_below(state, 3) + 1;
    let (start, channel) = (next_below(state, size), next_below(state, 2));
    row(rt, text, size, start, channel as u8)
}

// Limits of one or both channels.
fn random_limits(rt: &impl Runtime, state: &mut u32) -> Vec<LimitRow> {
    let mut limits = Vec::new(rt.alloc());
    let first = next_below(state, 2) as u8;
    for channel in first..2u8 {
        let blocks = next_below(state, 3);
        let limit = LimitRow { channel, blocks };
        limits.push(limit).expect(rt, "memory");
    }
    limits
}

// A problem of three stores and four steps, with windows and arrivals of up to 2 blocks.
fn random_problem(rt: &impl Runtime, state: &mut u32) -> Problem {
    let a = random_store(rt, "A", state);
    let b = random_store(rt, "B", state);
    let rows = [a, b, random_store(rt, "C", state)];
    let limits = random_limits(rt, state);
    let mut windows = [0; 4];
    let mut arrivals = [0; 12];
    for step in 0..4usize {
        windows[step] = next_below(state, 3);
        for store in 0..3usize {
            arrivals[3 * step + store] = next_below(state, 3);
        }
    }
    made(rt, &rows, &limits, &windows, &arrivals)
}

#[test]
fn both_paths_lose_what_the_slow_twin_loses(rt: HostRuntime) {
    let mut state = 3;
    let mut some = 0_u32;
    for _ in 0..100 {
        let problem = random_problem(&rt, &mut state);
        let least = least_loss(&rt, &problem);
        some = some.saturating_add(u32::from(least > 0));
    }
    assert!(rt; some > 50);
}

// The same problem with a limit for each step, of up to 2 blocks, for one or both channels.
fn limited_by_step(rt: &impl Runtime, problem: &Problem, state: &mut u32) -> Problem {
    let both = [0, 1];
    let channels = &both[next_below(state, 2) as usize..];
    let mut limits = Vec::new(rt.alloc());
    for _ in 0..problem.steps() {
        for _ in channels {
            limits.push(next_below(state, 3)).expect(rt, "memory");
        }
    }
    limited(rt, problem, channels, &limits)
}

#[test]
fn limits_by_step_lose_what_the_slow_twin_loses(rt: HostRuntime) {
    let mut state = 5;
    let mut more = 0_u32;
    for _ in 0..100 {
        let problem = random_problem(&rt, &mut state);
        let limited = limited_by_step(&rt, &problem, &mut state);
        let least = least_loss(&rt, &limited);
        let unlimited = planned_loss(&rt, &problem);
        assert!(rt; unlimited <= least, "limits help");
        more = more.saturating_add(u32::from(unlimited < least));
    }
    assert!(rt; more > 30);
}
