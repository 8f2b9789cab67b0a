//! The text of a problem's forecast.
ghost use Rattle.std.specs.Prelude.{◌≡◌, ◌≤◌, ◌++◌, decimal, flat_map, length, IfOk, OnOk};
ghost use Rattle.mm_problem.specs.Dumping.{IsDumping, stores};
ghost use Rattle.mm_problem.specs.ReadableForecast.{columns, forecast_of, size_columns};
ghost use Rattle.mm_problem.specs.Records.{records_of};
ghost use Rattle.mm_rest.specs.Forecasts.{arrived_cell, column_cell, header_text, id_cell, limit_cell, next_cell};
ghost use Rattle.mm_rest.specs.Forecasts.{HasIds, forecast_text, size_cell, sized_cell, step_text};

use mm_base::NoMemory;
use mm_base::numbers::push_number;
use mm_problem::Problem;
use std::alloc::{AllocError, Global};

// Whether memory was found for what was to be pushed.
type Pushed = Result<(), AllocError>;

fn push_cell(text: &mut Vec<u8>, cell: &[u8]) -> Pushed
    ensures { OnOk result (text.new.items ≡ text.old.items ++ next_cell cell.now) }
{
    text.push(b',')?;
    text.extend_from_slice(cell)
}

fn push_number_cell(text: &mut Vec<u8>, number: u32) -> Pushed
    ensures { OnOk result (text.new.items ≡ text.old.items ++ next_cell (decimal number)) }
{
    text.push(b',')?;
    push_number(text, u64::from(number))
}

// The cells of the header that name the stores.
#[tactic(auto, using(crate::proofs::Ranges::drawing))]
fn push_ids(text: &mut Vec<u8>, problem: &Problem) -> Pushed
    ensures cells { OnOk result (text.new.items ≡ text.old.items
        ++ flat_map (id_cell problem.now) (stores problem.now)) }
    ensures fields { OnOk result (HasIds problem.now) }
{
    for store in 0..problem.stores() {
        push_cell(text, problem.id(store).text())?;
    }
    Ok(())
}

// The cells of the header that name the columns of limits.
#[tactic(auto, using(crate::proofs::Ranges::drawing))]
fn push_columns(text: &mut Vec<u8>, problem: &Problem) -> Pushed
    ensures { OnOk result (text.new.items ≡ text.old.items
        ++ flat_map (column_cell problem.now) (columns problem.now)) }
{
    let limited = problem.limited();
    for column in 0..limited.len() {
        push_cell(text, b"limit:")?;
        push_number(text, u64::from(limited[column]))?;
    }
    Ok(())
}

// The cells of the header that name the columns of sizes.
#[tactic(auto, using(crate::proofs::Ranges::drawing))]
fn push_size_columns(text: &mut Vec<u8>, problem: &Problem) -> Pushed
    ensures { OnOk result (text.new.items ≡ text.old.items
        ++ flat_map (sized_cell problem.now) (size_columns problem.now)) }
{
    // Each column is of one of the stores, as `stores` ensures.
    let _stores = problem.stores();
    let sized = problem.sized();
    for column in 0..sized.len() {
        let id = problem.id(usize::from(sized[column]));
        push_cell(text, b"size:")?;
        text.extend_from_slice(id.text())?;
    }
    Ok(())
}

#[tactic(auto, using(crate::proofs::Ranges::drawing), unfolding(crate::specs::Forecasts::header_text))]
fn push_header(text: &mut Vec<u8>, problem: &Problem) -> Pushed
    ensures header { OnOk result (text.new.items ≡ text.old.items ++ header_text problem.now) }
    ensures fields { OnOk result (HasIds problem.now) }
{
    text.extend_from_slice(b"step,window")?;
    push_ids(text, problem)?;
    push_columns(text, problem)?;
    push_size_columns(text, problem)?;
    text.push(b'\n')?;
    Ok(())
}

// The cells of what arrives in a step.
#[tactic(auto, using(crate::proofs::Ranges::drawing))]
fn push_arrivals(text: &mut Vec<u8>, problem: &Problem, step: u32) -> Pushed
    requires first { 1 ≤ step }
    requires last { step ≤ length problem.now.windows }
    ensures { OnOk result (text.new.items ≡ text.old.items
        ++ flat_map (arrived_cell problem.now step) (stores problem.now)) }
{
    for store in 0..problem.stores() {
        push_number_cell(text, problem.arrivals(store, step))?;
    }
    Ok(())
}

// The cells of the limits of a step.
#[tactic(auto, using(crate::proofs::Ranges::drawing))]
fn push_limits(text: &mut Vec<u8>, problem: &Problem, step: u32) -> Pushed
    requires first { 1 ≤ step }
    requires last { step ≤ length problem.now.windows }
    ensures { OnOk result (text.new.items ≡ text.old.items
        ++ flat_map (limit_cell problem.now step) (columns problem.now)) }
{
    for column in 0..problem.limited().len() {
        push_number_cell(text, problem.column_limit(column, step))?;
    }
    Ok(())
}

// The cells of the sizes of a step.
#[tactic(auto, using(crate::proofs::Ranges::drawing))]
fn push_sizes(text: &mut Vec<u8>, problem: &Problem, step: u32) -> Pushed
    requires first { 1 ≤ step }
    requires last { step ≤ length problem.now.windows }
    ensures { OnOk result (text.new.items ≡ text.old.items
        ++ flat_map (size_cell problem.now step) (size_columns problem.now)) }
{
    for column in 0..problem.sized().len() {
        push_number_cell(text, problem.column_size(column, step))?;
    }
    Ok(())
}

// The record of a step.
#[tactic(auto, using(crate::proofs::Ranges::drawing), unfolding(crate::specs::Forecasts::step_text))]
fn push_step(text: &mut Vec<u8>, problem: &Problem, step: u32) -> Pushed
    requires first { 1 ≤ step }
    requires last { step ≤ length problem.now.windows }
    ensures { OnOk result (text.new.items ≡ text.old.items ++ step_text problem.now step) }
{
    push_number(text, u64::from(step))?;
    push_number_cell(text, problem.window(step))?;
    push_arrivals(text, problem, step)?;
    push_limits(text, problem, step)?;
    push_sizes(text, problem, step)?;
    text.push(b'\n')?;
    Ok(())
}

// The header and a record for each step.
#[tactic(auto, using(crate::proofs::Ranges::drawing), unfolding(crate::specs::Forecasts::forecast_text))]
fn forecast_text(alloc: Global, problem: &Problem) -> Result<Vec<u8>, NoMemory>
    ensures text { IfOk result (λ text. text.items ≡ forecast_text problem.now) }
    ensures fields { OnOk result (HasIds problem.now) }
    ensures within { OnOk result (IsDumping problem.now) }
{
    let mut text = Vec::new(alloc);
    push_header(&mut text, problem)?;
    for step in 1..problem.steps() + 1 {
        push_step(&mut text, problem, step)?;
    }
    Ok(text)
}

/// The text of the problem's forecast, as comma separated values. It has the records of this problem.
pub fn print_forecast(alloc: Global, problem: &Problem) -> Result<Vec<u8>, NoMemory>
    ensures { IfOk result (λ text. records_of text.items ≡ forecast_of problem.now) }
{
    forecast_text(alloc, problem)
}
