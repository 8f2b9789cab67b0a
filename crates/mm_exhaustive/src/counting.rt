//! What a plan loses, and whether it fits: counted by the rules alone, in ways that mm_plan does not use.
ghost use Rattle.std.specs.Prelude.{◌<◌, ◌≤◌, length};
ghost use Rattle.mm_plan.specs.Table.{HasShape};

use mm_plan::Plan;
use mm_problem::{Arrivals, CHANNELS, Problem};

// What a store holds at the end of a step, and what it loses in the step.
#[derive(Clone, Copy)]
struct Held {
    left: u32,
    lost: u32,
}

impl Held {
    // What a store makes of blocks that are more than it can hold, or not.
    fn cut(blocks: u32, size: u32) -> Held {
        if blocks > size {
            let lost = blocks - size;
            Held { left: size, lost }
        } else {
            let left = blocks;
            Held { left, lost: 0 }
        }
    }

    fn after(self, dump: u32) -> Held {
        Held {
            left: self.left.saturating_sub(dump),
            lost: self.lost,
        }
    }
}

// A step in which these blocks are there once its arrivals have come.
fn step_of(come: Arrivals, size: u32, there: u32, dump: u32) -> Held {
    match come {
        Arrivals::Before => Held::cut(there, size).after(dump),
        Arrivals::During => Held::cut(there.saturating_sub(dump), size),
    }
}

// How many blocks a store loses.
fn store_loss(problem: &Problem, plan: &Plan, store: usize) -> u64
    requires shape { HasShape problem.now plan.now }
    requires store { store < length problem.now.rows }
{
    let mut left = problem.start(store);
    let mut loss: u64 = 0;
    for step in 1..problem.steps() + 1 {
        let there = left.saturating_add(problem.arrivals(store, step));
        let (size, dump) = (problem.size(store, step), plan.amount(store, step));
        let held = step_of(problem.come(), size, there, dump);
        left = held.left;
        loss = loss.saturating_add(u64::from(held.lost));
    }
    loss
}

// How many blocks all stores lose.
pub(crate) fn loss(problem: &Problem, plan: &Plan) -> u64
    requires shape { HasShape problem.now plan.now }
{
    let mut loss: u64 = 0;
    for store in 0..problem.stores() {
        loss = loss.saturating_add(store_loss(problem, plan, store));
    }
    loss
}

// How many blocks are to leave in a step, through one channel or through all.
fn sent(problem: &Problem, plan: &Plan, step: u32, channel: Option<u8>) -> u64
    requires shape { HasShape problem.now plan.now }
    requires first { 1 ≤ step }
    requires last { step ≤ length problem.now.windows }
{
    let mut sent: u64 = 0;
    for store in 0..problem.stores() {
        let is_counted = match channel {
            Some(channel) => problem.channel(store) == channel,
            None => true,
        };
        if is_counted {
            sent = sent.saturating_add(u64::from(plan.amount(store, step)));
        }
    }
    sent
}

// Whether the amounts of a step fit its window and the limits of the channels.
pub(crate) fn fits_in(problem: &Problem, plan: &Plan, step: u32) -> bool
    requires shape { HasShape problem.now plan.now }
    requires first { 1 ≤ step }
    requires last { step ≤ length problem.now.windows }
{
    if u64::from(problem.window(step)) < sent(problem, plan, step, None) {
        return false;
    }
    for channel in 0..CHANNELS as u8 {
        if let Some(blocks) = problem.limit(channel, step) {
            if u64::from(blocks) < sent(problem, plan, step, Some(channel)) {
                return false;
            }
        }
    }
    true
}
