//! What is left of a problem after a step of a plan.
ghost use Rattle.std.specs.Prelude.{◌≡◌, ◌<◌, ◌≤◌, IfOk, Ok, OnOk, length, slice_index, slice_index_or};
ghost use Rattle.mm_problem.specs.Document.{setup_of};
ghost use Rattle.mm_problem.specs.Dumping.{IsDumping, no_row};
ghost use Rattle.mm_problem.specs.Forecast.{limits_of};
ghost use Rattle.mm_problem.specs.Rest.{rest_of, rows_from, starting_with};
ghost use Rattle.mm_problem.specs.Setup.{IsSetup};
ghost use Rattle.mm_problem.specs.Texts.{SaysProblem};
ghost use Rattle.mm_plan.specs.Table.{HasShape, amount};
ghost use Rattle.mm_rest.specs.Rests.{held_after, rest_after, setup_for, setup_from};

use crate::document::print_setup;
use crate::forecast::print_forecast;
use mm_base::{NoMemory, StoreRow};
use mm_plan::{Plan, simulate};
use mm_problem::laws::forecasts;
use mm_problem::{Fault, Problem, Setup};
use std::alloc::Global;

/// The texts of a setup and of a forecast.
#[derive(Drop)]
pub struct RestTexts {
    pub setup: Vec<u8>,
    pub forecast: Vec<u8>,
}

/// What each store holds as a step of a plan ends, in blocks.
pub fn held_after(
    alloc: Global,
    problem: &Problem,
    plan: &Plan,
    step: u32,
) -> Result<Vec<u32>, NoMemory>
    requires shape { HasShape problem.now plan.now }
    requires first { 1 ≤ step }
    requires last { step ≤ length problem.now.windows }
    ensures { IfOk result (λ held. held.items ≡ held_after problem.now (amount plan.now) step) }
{
    let volumes = simulate(alloc, problem, plan)?;
    let mut held = Vec::new(alloc);
    for store in 0..problem.stores() {
        held.push(volumes.left(store, step))?;
    }
    Ok(held)
}

// The problem of the steps after a step at which the stores hold this.
fn rest_from(
    alloc: Global,
    problem: &Problem,
    plan: &Plan,
    step: u32,
    held: &[u32],
) -> Result<Problem, NoMemory>
    requires shape { HasShape problem.now plan.now }
    requires first { 1 ≤ step }
    requires before_last { step < length problem.now.windows }
    requires held { held.now ≡ held_after problem.now (amount plan.now) step }
    ensures rest { IfOk result (λ rest. rest ≡ rest_after problem.now (amount plan.now) step) }
    ensures within { OnOk result (IsDumping (rest_after problem.now (amount plan.now) step)) }
{
    // It has at most 16 stores, and its numbers are within their ranges, as `stores` ensures.
    let _stores = problem.stores();
    match problem.rest(alloc, step, held) {
        Ok(rest) => {
            let _steps = rest.steps();
            Ok(rest)
        }
        Err(fault) => match fault {
            Fault::NoMemory => Err(NoMemory),
            // Each store holds at most its size.
            _ => unreachable!(),
        },
    }
}

/// The problem of the steps after a step of a plan, in which each store begins with what it holds as that step ends.
pub fn rest_after(
    alloc: Global,
    problem: &Problem,
    plan: &Plan,
    step: u32,
) -> Result<Problem, NoMemory>
    requires shape { HasShape problem.now plan.now }
    requires first { 1 ≤ step }
    requires before_last { step < length problem.now.windows }
    ensures { IfOk result (λ rest. rest ≡ rest_after problem.now (amount plan.now) step) }
{
    let held = held_after(alloc, problem, plan, step)?;
    rest_from(alloc, problem, plan, step, &held)
}

// The store at a place, with its start volume.
fn started(rows: &[StoreRow], starts: &[u32], place: usize) -> StoreRow
    requires within { place < length rows.now }
    requires as_many { length starts.now ≡ length rows.now }
    ensures { result ≡ starting_with (slice_index_or rows.now place no_row) (slice_index starts.now place) }
{
    StoreRow {
        start: starts[place],
        ..rows[place]
    }
}

/// The stores, with these start volumes.
pub(crate) fn rows_from(
    alloc: Global,
    rows: &[StoreRow],
    starts: &[u32],
) -> Result<Vec<StoreRow>, NoMemory>
    requires { length starts.now ≡ length rows.now }
    ensures { IfOk result (λ v. v.items ≡ rows_from rows.now starts.now) }
{
    let rows = (0..rows.len()).map(|place| started(rows, starts, place));
    Ok(rows.collect(alloc)?)
}

/// The texts of a problem with these stores: the setup, which keeps its routes and its limits, and the forecast.
pub(crate) fn texts_of(
    alloc: Global,
    setup: &Setup,
    stores: &[StoreRow],
    problem: &Problem,
) -> Result<RestTexts, NoMemory>
    requires stores { stores.now ≡ problem.now.rows }
    requires limits { problem.now.limits ≡ limits_of setup.now.limits }
    requires setup { IsSetup (setup_for setup.now problem.now) }
    ensures problem { IfOk result (λ texts. SaysProblem texts.setup.items texts.forecast.items problem.now) }
    ensures setup { IfOk result (λ texts. setup_of texts.setup.items ≡ Ok (setup_for setup.now problem.now)) }
{
    // Its numbers are within their ranges, as `steps` ensures.
    let _steps = problem.steps();
    let setup = print_setup(
        alloc,
        stores,
        setup.routes(),
        setup.limits(),
        problem.come(),
    )?;
    let forecast = print_forecast(alloc, problem)?;
    forecasts();
    Ok(RestTexts { setup, forecast })
}

/// The texts of what is left after a step of a plan: the setup, in which each store starts with what it holds as the
/// step ends, and the forecast of the steps after it, which count from 1 again.
pub fn rest_texts(
    alloc: Global,
    setup: &Setup,
    problem: &Problem,
    plan: &Plan,
    step: u32,
) -> Result<RestTexts, NoMemory>
    requires stores { problem.now.rows ≡ setup.now.stores }
    requires limits { problem.now.limits ≡ limits_of setup.now.limits }
    requires shape { HasShape problem.now plan.now }
    requires first { 1 ≤ step }
    requires before_last { step < length problem.now.windows }
    // The texts say the rest of the problem. The setup keeps its routes and its limits, and its arrivals come as those
    // of the problem.
    ensures problem { IfOk result (λ texts. SaysProblem texts.setup.items texts.forecast.items
        (rest_after problem.now (amount plan.now) step)) }
    ensures setup { IfOk result (λ texts. setup_of texts.setup.items
        ≡ Ok (setup_from setup.now problem.now.come (held_after problem.now (amount plan.now) step))) }
{
    let held = held_after(alloc, problem, plan, step)?;
    let rest = rest_from(alloc, problem, plan, step, &held)?;
    // Its numbers are within their ranges, as `stores` ensures.
    let _stores = problem.stores();
    let stores = rows_from(alloc, setup.stores(), &held)?;
    texts_of(alloc, setup, &stores, &rest)
}
