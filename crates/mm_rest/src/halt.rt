//! The script that plans what is left after a run was halted in a step.
ghost use Rattle.std.specs.Prelude.{◌≡◌, ◌-◌, ◌<◌, ◌≤◌, IfOk, Ok, OnOk, length, true};
ghost use Rattle.mm_problem.specs.declared.come.Arrivals.TheVariants.{Before};
ghost use Rattle.mm_problem.specs.Document.{setup_of};
ghost use Rattle.mm_problem.specs.Dumping.{IsDumping};
ghost use Rattle.mm_problem.specs.Forecast.{limits_of};
ghost use Rattle.mm_problem.specs.Rest.{rest_of, starts_fit};
ghost use Rattle.mm_problem.specs.Texts.{SaysProblem};
ghost use Rattle.mm_rest.specs.Halts.{IsHaltScript, belongs, broken_spent, dumped_by, first_halted, is_broken};
ghost use Rattle.mm_rest.specs.Halts.{limit_after, limits_left, rest_of_halt, spent_by};
ghost use Rattle.mm_rest.specs.Rests.{setup_from};

use crate::begun::begun;
use crate::rest::{RestTexts, rows_from, texts_of};
use crate::script::script_of;
use mm_base::{CHANNELS, LimitRow, NoMemory, StoreId, StoreRow};
use mm_problem::{Problem, Setup};
use std::alloc::Global;

/// What is known of a step in which a run was halted, all of whose arrivals are stored.
#[derive(Drop)]
pub struct HaltedStep {
    /// What each store holds, in blocks.
    pub held: Vec<u32>,
    /// What was spent of the window, in blocks.
    pub spent: u64,
    /// What each store dumped, in blocks: orders that broke dumped nothing.
    pub dumped: Vec<u64>,
    /// The stores whose orders broke.
    pub broken: Vec<StoreId>,
}

// What is left of so many blocks.
fn left_of(blocks: u32, spent: u64) -> u32
    ensures { result ≡ blocks - spent }
{
    blocks.saturating_sub(spent.min(u64::from(blocks)) as u32)
}

// What was spent of the window on orders that broke.
fn broken_spent(halted: &HaltedStep) -> u64
    ensures { result ≡ broken_spent halted.now }
{
    let mut spent = halted.spent;
    for dumped in &halted.dumped {
        spent = spent.saturating_sub(*dumped);
    }
    spent
}

// Whether the store with this identifier is one of the channel's.
fn belongs(problem: &Problem, channel: u8, id: &StoreId) -> bool
    ensures { result ≡ belongs problem.now channel id.now }
{
    match problem.place(id) {
        Some(store) => problem.channel(store) == channel,
        None => false,
    }
}

// Whether an order of one of the channel's stores broke.
fn is_broken(problem: &Problem, halted: &HaltedStep, channel: u8) -> bool
    ensures { result ≡ is_broken problem.now halted.now channel }
{
    halted.broken.iter().any(|id| belongs(problem, channel, id))
}

// What the store dumped of the channel's blocks.
fn dumped_by(problem: &Problem, halted: &HaltedStep, channel: u8, store: usize) -> u64
    requires store { store < length problem.now.rows }
    requires as_many { length halted.now.dumped.items ≡ length problem.now.rows }
    ensures { result ≡ dumped_by problem.now halted.now channel store }
{
    if problem.channel(store) == channel {
        halted.dumped[store]
    } else {
        0
    }
}

// What is left of so many blocks that a channel may send in the halted step.
fn left_by(problem: &Problem, halted: &HaltedStep, channel: u8, blocks: u32) -> u32
    requires as_many { length halted.now.dumped.items ≡ length problem.now.rows }
    ensures { result ≡ blocks - spent_by problem.now halted.now channel }
{
    let mut left = blocks;
    for store in 0..problem.stores() {
        left = left_of(left, dumped_by(problem, halted, channel, store));
    }
    if is_broken(problem, halted, channel) {
        left_of(left, broken_spent(halted))
    } else {
        left
    }
}

// What is left of a channel's limit in the first step, if it has one.
#[tactic(auto, unfolding(crate::specs::Halts::limit_after))]
fn limit_after(problem: &Problem, halted: &HaltedStep, channel: u8) -> Option<u32>
    requires as_many { length halted.now.dumped.items ≡ length problem.now.rows }
    ensures { result ≡ limit_after problem.now halted.now channel }
{
    // It has a step, as `steps` ensures.
    let _steps = problem.steps();
    let limit = problem.limit(channel, 1)?;
    Some(left_by(problem, halted, channel, limit))
}

// What is left of each channel's limit in the first step.
fn limits_left(problem: &Problem, halted: &HaltedStep) -> [Option<u32>; CHANNELS]
    requires as_many { length halted.now.dumped.items ≡ length problem.now.rows }
    ensures { result ≡ limits_left problem.now halted.now }
{
    std::array::from_fn(|channel| limit_after(problem, halted, channel as u8))
}

// The problem of a step and of the steps after it, in which each store begins with what it holds.
fn rest_with(alloc: Global, problem: &Problem, step: u32, held: &[u32]) -> Result<Problem, NoMemory>
    requires first { 1 ≤ step }
    requires last { step ≤ length problem.now.windows }
    requires as_many { length held.now ≡ length problem.now.rows }
    ensures rest { IfOk result (λ rest. rest ≡ rest_of problem.now (step - 1) held.now) }
    ensures fit { OnOk result (starts_fit problem.now.rows held.now ≡ true) }
{
    // Each store holds at most its size, so only memory is lacking.
    match problem.rest(alloc, step - 1, held) {
        Ok(rest) => Ok(rest),
        Err(_) => Err(NoMemory),
    }
}

// The problem of these stores and limits, whose first step was halted, from what the stores hold.
#[tactic(auto, unfolding(crate::specs::Halts::first_halted))]
fn first_halted(
    alloc: Global,
    stores: &[StoreRow],
    limits: &[LimitRow],
    problem: &Problem,
    halted: &HaltedStep,
) -> Result<Problem, NoMemory>
    requires stores { problem.now.rows ≡ stores.now }
    requires limits { problem.now.limits ≡ limits_of limits.now }
    requires as_many { length halted.now.dumped.items ≡ length problem.now.rows }
    ensures problem { IfOk result (λ new. new ≡ first_halted problem.now halted.now) }
    ensures within { IfOk result IsDumping }
{
    // It has a step, as `steps` ensures.
    let _steps = problem.steps();
    let window = left_of(problem.window(1), halted.spent);
    let left = limits_left(problem, halted);
    begun(alloc, stores, limits, problem, window, &left)
}

// The texts of what is left after a run was halted in a step.
fn halt_texts(
    alloc: Global,
    setup: &Setup,
    problem: &Problem,
    step: u32,
    halted: &HaltedStep,
) -> Result<RestTexts, NoMemory>
    requires stores { problem.now.rows ≡ setup.now.stores }
    requires limits { problem.now.limits ≡ limits_of setup.now.limits }
    requires first { 1 ≤ step }
    requires last { step ≤ length problem.now.windows }
    requires held { length halted.now.held.items ≡ length problem.now.rows }
    requires dumped { length halted.now.dumped.items ≡ length problem.now.rows }
    ensures problem { IfOk result (λ texts. SaysProblem texts.setup.items texts.forecast.items
        (rest_of_halt problem.now step halted.now)) }
    ensures setup { IfOk result (λ texts. setup_of texts.setup.items
        ≡ Ok (setup_from setup.now Before halted.now.held.items)) }
{
    let rest = rest_with(alloc, problem, step, &halted.held)?;
    let stores = rows_from(alloc, setup.stores(), &halted.held)?;
    let left = first_halted(alloc, &stores, setup.limits(), &rest, halted)?;
    let texts = texts_of(alloc, setup, &stores, &left)?;
    Ok(texts)
}

/// The script that plans what is left after a run was halted in a step: a line `plan setup.toml forecast.csv`, and the
/// two files. In the setup each store starts with what it holds; the forecast begins with what is left of the step, in
/// which nothing arrives any more, and has the steps after it. Steps count from 1 again.
pub fn halt_script(
    alloc: Global,
    setup: &Setup,
    problem: &Problem,
    step: u32,
    halted: &HaltedStep,
) -> Result<Vec<u8>, NoMemory>
    requires stores { problem.now.rows ≡ setup.now.stores }
    requires limits { problem.now.limits ≡ limits_of setup.now.limits }
    requires first { 1 ≤ step }
    requires last { step ≤ length problem.now.windows }
    requires held { length halted.now.held.items ≡ length problem.now.rows }
    requires dumped { length halted.now.dumped.items ≡ length problem.now.rows }
    ensures { IfOk result (λ text. IsHaltScript setup.now problem.now step halted.now text.items) }
{
    let texts = halt_texts(alloc, setup, problem, step, halted)?;
    script_of(alloc, &texts)
}
