//! Hints on a plan that does not fit.
ghost use Rattle.std.specs.Prelude.{◌≤◌, length};

use crate::hints::lines::line_at;
use crate::hints::sentence::{Sentence, Shown};
use crate::hints::{Hint, Texts};
use mm_base::MAX_BLOCKS;
use mm_base::numbers::Numeral;
use mm_problem::{Problem, read_problem};
use std::alloc::Global;

// Whether a store is on this channel, or any store where none is given.
fn is_on(problem: &Problem, store: usize, channel: Option<u8>) -> bool {
    match channel {
        Some(channel) => store < problem.stores() && problem.channel(store) == channel,
        None => true,
    }
}

// How many blocks the line of a step dumps on a channel, or on all.
fn dumped(problem: &Problem, line: &str, channel: Option<u8>) -> u64 {
    let mut dumped: u64 = 0;
    for (store, word) in line.split(' ').skip(2).enumerate() {
        if is_on(problem, store, channel) {
            if let Numeral::Number(blocks) = Numeral::read(word.as_bytes(), u64::from(MAX_BLOCKS)) {
                dumped = dumped.saturating_add(blocks);
            }
        }
    }
    dumped
}

// By how much the line of a step passes the limit of a channel.
fn in_channel(problem: &Problem, line: &str, step: u32, channel: u8) -> Option<Sentence>
    requires first { 1 ≤ step }
    requires last { step ≤ length problem.now.windows }
{
    let limit = u64::from(problem.limit(channel, step)?);
    let dumped = dumped(problem, line, Some(channel));
    if dumped <= limit {
        return None;
    }
    found! {
        "step {} dumps {} blocks on channel {}, whose limit is {}";
        Count(u64::from(step)), Count(dumped), Count(u64::from(channel)), Count(limit)
    }
}

// By how much the line of a step passes the window, or else the limit of a channel.
fn in_step(problem: &Problem, line: &str, step: u32) -> Option<Sentence> {
    if step < 1 || problem.steps() < step {
        return None;
    }
    let window = u64::from(problem.window(step));
    let dumped = dumped(problem, line, None);
    if dumped > window {
        return found! {
            "step {} dumps {} blocks, and its window is {}"; Count(u64::from(step)), Count(dumped), Count(window)
        };
    }
    for channel in 0..problem.channels() {
        tell!(in_channel(problem, line, step, channel));
    }
    None
}

/// By how much a step of the plan text does not fit.
#[must_use]
pub fn fit_hint(alloc: Global, texts: Texts<'_>, step: u32) -> Option<Hint> {
    let problem = read_problem(alloc, texts.setup, texts.forecast).ok()?;
    // The first two lines are the form and the stores.
    let line = line_at(texts.plan, u64::from(step).saturating_add(2))?;
    let line = std::str::from_utf8(line).ok()?;
    Some(Hint::Said(in_step(&problem, line, step)?))
}
