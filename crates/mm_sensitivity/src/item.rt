//! The numbers of a problem that a mission can change.
ghost use Rattle.std.specs.Prelude.{◌≡◌, ◌≤◌, ◌++◌, All, IfOk, OnOk};
ghost use Rattle.mm_base.specs.declared.limits.TheConstants.{MAX_BLOCKS};
ghost use Rattle.mm_sensitivity.specs.Items.{IsItem, number, least_number, with_number, column_items, size_items};
ghost use Rattle.mm_sensitivity.specs.Items.{items};

use mm_base::NoMemory;
use mm_problem::Problem;
use std::alloc::Global;

/// A number of a problem that a mission can change, in blocks.
#[derive(Clone, Copy, Debug, PartialEq, Eq)]
pub enum Item {
    /// The window of this step.
    Window(u32),
    /// The size of the store in this place, from 0 in setup order.
    Size(usize),
    /// The limit of this virtual channel in the setup.
    Limit(u8),
    /// The limit of a virtual channel in a step. The channel is given by its place, from 0, among those with a limit
    /// for each step; the step comes second.
    StepLimit(usize, u32),
    /// The size of a store in a step. The store is given by its place, from 0, among those with a size for each step;
    /// the step comes second.
    StepSize(usize, u32),
}

// The value of the number.
pub(crate) fn number(problem: &Problem, item: Item) -> u32
    requires { IsItem problem.now item }
    ensures number { result ≡ number problem.now item }
    ensures most { result ≤ MAX_BLOCKS }
{
    match item {
        Item::Window(step) => problem.window(step),
        Item::Size(store) => problem.setup_size(store),
        Item::Limit(channel) => problem.setup_limit(channel).unwrap_or(0),
        Item::StepLimit(column, step) => problem.column_limit(column, step),
        Item::StepSize(column, step) => problem.column_size(column, step),
    }
}

// The least value allowed.
pub(crate) fn least_number(item: Item) -> u32
    ensures least { result ≡ least_number item }
    ensures most { result ≤ 1 }
{
    match item {
        Item::Size(_) => 1,
        _ => 0,
    }
}

// The problem with another value of the number.
pub(crate) fn with_number(
    alloc: Global,
    problem: &Problem,
    item: Item,
    blocks: u32,
) -> Result<Problem, NoMemory>
    requires item { IsItem problem.now item }
    requires least { least_number item ≤ blocks }
    requires most { blocks ≤ MAX_BLOCKS }
    ensures { IfOk result (λ changed. changed ≡ with_number problem.now item blocks) }
{
    match item {
        Item::Window(step) => problem.with_window(alloc, step, blocks),
        Item::Size(store) => problem.with_size(alloc, store, blocks),
        Item::Limit(channel) => problem.with_limit(alloc, channel, blocks),
        Item::StepLimit(column, step) => problem.with_column_limit(alloc, column, step, blocks),
        Item::StepSize(column, step) => problem.with_column_size(alloc, column, step, blocks),
    }
}

// Adds the limits of a column.
#[tactic(auto, using(std::proofs::Common::append_assoc, crate::proofs::Listing::map_next))]
fn add_column(items: &mut Vec<Item>, problem: &Problem, column: usize) -> Result<(), NoMemory>
    ensures { OnOk result (items.new.items ≡ items.old.items ++ column_items problem.now column) }
{
    for step in 1..problem.steps() + 1 {
        items.push(Item::StepLimit(column, step))?;
    }
    Ok(())
}

// Adds the sizes of a column.
#[tactic(auto, using(std::proofs::Common::append_assoc, crate::proofs::Listing::map_next))]
fn add_sizes(items: &mut Vec<Item>, problem: &Problem, column: usize) -> Result<(), NoMemory>
    ensures { OnOk result (items.new.items ≡ items.old.items ++ size_items problem.now column) }
{
    for step in 1..problem.steps() + 1 {
        items.push(Item::StepSize(column, step))?;
    }
    Ok(())
}

// All numbers: the windows, the sizes of the stores in order, the limits of the channels that have one, those of each
// column, and the sizes of each column.
#[tactic(auto, using(crate::proofs::Listing::listing, crate::proofs::Listing::all_items))]
pub(crate) fn items(alloc: Global, problem: &Problem) -> Result<Vec<Item>, NoMemory>
    ensures items { IfOk result (λ list. list.items ≡ items problem.now) }
    ensures each { IfOk result (λ list. All (IsItem problem.now) list.items) }
{
    let mut items = Vec::new(alloc);
    for step in 1..problem.steps() + 1 {
        items.push(Item::Window(step))?;
    }
    for store in 0..problem.stores() {
        items.push(Item::Size(store))?;
    }
    for channel in 0..problem.channels() {
        if problem.setup_limit(channel).is_some() {
            items.push(Item::Limit(channel))?;
        }
    }
    for column in 0..problem.limited().len() {
        add_column(&mut items, problem, column)?;
    }
    for sizes in 0..problem.sized().len() {
        add_sizes(&mut items, problem, sizes)?;
    }
    Ok(items)
}
