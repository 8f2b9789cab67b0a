//! The table of the worths of a problem's numbers, as comma separated values.
ghost use Rattle.std.specs.Prelude.{◌≡◌, ◌<◌, ◌++◌, All, IfOk, OnOk, codes, decimal, length, slice_index};
ghost use Rattle.mm_base.specs.Id.{id_text};
ghost use Rattle.mm_problem.specs.Dumping.{row};
ghost use Rattle.mm_base.specs.Reading.{IfRefused};
ghost use Rattle.mm_cut.specs.declared.fault.Fault.TheVariants as fault;
ghost use Rattle.mm_planner.specs.PlanTexts.{IsPlanningFault};
ghost use Rattle.mm_sensitivity.specs.Items.{IsItem};
ghost use Rattle.mm_sensitivity.specs.Table.{item_cells, worth_cells, record_of, table, IsWorthTable};
ghost use Rattle.mm_sensitivity.specs.Worth.{IsWorth};

use crate::item::Item;
use crate::worth::{Worth, worths};
use mm_base::numbers::push_number;
use mm_base::{MAX_STORES, NoMemory};
use mm_cut::Fault;
use mm_problem::{Problem, read_problem};
use std::alloc::{AllocError, Global};

// The cells that name a number.
#[tactic(auto, using(std::proofs::Common::append_assoc))]
fn push_item(text: &mut Vec<u8>, problem: &Problem, item: Item) -> Result<(), AllocError>
    requires { IsItem problem.now item }
    ensures { OnOk result (text.new.items ≡ text.old.items ++ item_cells problem.now item) }
{
    match item {
        Item::Window(step) => {
            text.extend_from_slice(b"window,,")?;
            push_number(text, u64::from(step))
        }
        Item::Size(store) => {
            text.extend_from_slice(b"size,")?;
            text.extend_from_slice(problem.id(store).text())?;
            text.extend_from_slice(b",")
        }
        Item::Limit(channel) => push_limit(text, channel),
        Item::StepLimit(column, step) => {
            push_limit(text, problem.limited()[column])?;
            push_number(text, u64::from(step))
        }
        Item::StepSize(column, step) => {
            push_size(text, problem, column)?;
            push_number(text, u64::from(step))
        }
    }
}

// The cells that name a store with sizes by step.
#[tactic(auto, using(std::proofs::Common::append_assoc))]
fn push_size(text: &mut Vec<u8>, problem: &Problem, column: usize) -> Result<(), AllocError>
    requires { column < length problem.now.sized }
    ensures { OnOk result (text.new.items ≡ text.old.items ++ codes "size,"
        ++ id_text (row problem.now (slice_index problem.now.sized column)).id ++ codes ",") }
{
    // the store is one of the problem
    prove!(problem.stores() <= MAX_STORES);
    let store = problem.sized()[column] as usize;
    text.extend_from_slice(b"size,")?;
    text.extend_from_slice(problem.id(store).text())?;
    text.extend_from_slice(b",")
}

// The cells that name a channel.
#[tactic(auto, using(std::proofs::Common::append_assoc))]
fn push_limit(text: &mut Vec<u8>, channel: u8) -> Result<(), AllocError>
    ensures { OnOk result (text.new.items ≡ text.old.items ++ codes "limit," ++ decimal channel ++ codes ",") }
{
    text.extend_from_slice(b"limit,")?;
    push_number(text, u64::from(channel))?;
    text.extend_from_slice(b",")
}

// A number after a comma.
#[tactic(auto, using(std::proofs::Common::append_assoc))]
fn push_cell(text: &mut Vec<u8>, number: u64) -> Result<(), AllocError>
    ensures { OnOk result (text.new.items ≡ text.old.items ++ codes "," ++ decimal number) }
{
    text.extend_from_slice(b",")?;
    push_number(text, number)
}

// The cells with the worth of a number.
#[tactic(auto, using(std::proofs::Common::append_assoc), unfolding(crate::specs::Table::worth_cells))]
fn push_worth(text: &mut Vec<u8>, worth: Worth) -> Result<(), AllocError>
    ensures { OnOk result (text.new.items ≡ text.old.items ++ worth_cells worth) }
{
    push_cell(text, u64::from(worth.now))?;
    push_cell(text, worth.next)?;
    push_cell(text, worth.most)?;
    push_cell(text, worth.without)?;
    text.extend_from_slice(b"\n")
}

// The record of a number.
#[tactic(auto, using(std::proofs::Common::append_assoc))]
fn push_record(text: &mut Vec<u8>, problem: &Problem, worth: Worth) -> Result<(), AllocError>
    requires { IsItem problem.now worth.item }
    ensures { OnOk result (text.new.items ≡ text.old.items ++ record_of problem.now worth) }
{
    push_item(text, problem, worth.item)?;
    push_worth(text, worth)
}

/// The table of these worths of a problem's numbers.
#[tactic(auto, unfolding(crate::specs::Table::table))]
pub fn table_of(alloc: Global, problem: &Problem, worths: &[Worth]) -> Result<Vec<u8>, NoMemory>
    requires { All (IsWorth problem.now) worths.now }
    ensures { IfOk result (λ text. text.items ≡ table problem.now worths.now) }
{
    let mut text = Vec::new(alloc);
    text.extend_from_slice(b"item,name,step,now,next,most,without\n")?;
    for worth in worths {
        push_record(&mut text, problem, *worth)?;
    }
    Ok(text)
}

/// The table of the worths of all windows, store sizes and limits in the problem of the setup and the forecast.
/// Otherwise the first fault, of the setup and then of the forecast.
pub fn sensitivity_bytes(alloc: Global, setup: &[u8], forecast: &[u8]) -> Result<Vec<u8>, Fault>
    ensures table { IfOk result (λ text. IsWorthTable setup.now forecast.now text.items) }
    ensures refused { IfRefused fault.NoMemory result (IsPlanningFault setup.now forecast.now) }
{
    let problem = read_problem(alloc, setup, forecast)?;
    let worths = worths(alloc, &problem)?;
    Ok(table_of(alloc, &problem, worths.as_slice())?)
}
