//! The worths of the numbers of a problem.
ghost use Rattle.std.specs.Prelude.{◌≡◌, ◌≤◌, map, All, IfOk};
ghost use Rattle.mm_sensitivity.specs.Items.{IsItem, number, next_number, with_number, items};
ghost use Rattle.mm_sensitivity.specs.Table.{AreWorths};
ghost use Rattle.mm_sensitivity.specs.Worth.{IsPlanFor, IsSaved, IsWorth};

use crate::base::Base;
use crate::item::{Item, items, number};
use crate::progress::{Progress, Silent};
use mm_base::{MAX_BLOCKS, NoMemory};
use mm_cut::cuts_bound_losses;
use mm_problem::Problem;
use std::alloc::Global;

/// The worth of a number of a problem, in blocks.
#[derive(Clone, Copy, Debug, PartialEq, Eq)]
pub struct Worth {
    pub item: Item,
    /// The number itself.
    pub now: u32,
    /// How many blocks fewer the least plan loses if the number is one larger.
    pub next: u64,
    /// How many blocks fewer it loses if the number is the largest allowed, 1,000,000.
    pub most: u64,
    /// How many blocks more it loses if the number is the least allowed: 0, or 1 for the size of a store.
    pub without: u64,
}

// How many blocks fewer the least plan loses if a number is one larger. If the largest window saves none, neither does
// this.
fn next_saved(base: &Base<'_>, item: Item, most: u64) -> Result<u64, NoMemory>
    requires base { IsPlanFor base.now.problem.now base.now.planned }
    requires item { IsItem base.now.problem.now item }
    requires most { IsSaved base.now.problem.now (with_number base.now.problem.now item MAX_BLOCKS) most }
    ensures { IfOk result (IsSaved base.now.problem.now
        (with_number base.now.problem.now item (next_number (number base.now.problem.now item)))) }
{
    cuts_bound_losses();
    let now = number(base.problem, item);
    match item {
        Item::Window(_) if most == 0 => Ok(0),
        _ => base.saved(item, (now + 1).min(MAX_BLOCKS)),
    }
}

// The worth of a number.
fn worth_of(base: &Base<'_>, item: Item) -> Result<Worth, NoMemory>
    requires base { IsPlanFor base.now.problem.now base.now.planned }
    requires item { IsItem base.now.problem.now item }
    ensures item { IfOk result (λ worth. worth.item ≡ item) }
    ensures worth { IfOk result (IsWorth base.now.problem.now) }
{
    let now = number(base.problem, item);
    let most = base.saved(item, MAX_BLOCKS)?;
    let next = next_saved(base, item, most)?;
    let without = base.cost(item)?;
    Ok(Worth {
        item,
        now,
        next,
        most,
        without,
    })
}

/// The worths of the windows, sizes and limits of the problem, in this order.
pub fn worths(alloc: Global, problem: &Problem) -> Result<Vec<Worth>, NoMemory>
    ensures { IfOk result (λ worths. AreWorths problem.now worths.items) }
{
    worths_with_progress(alloc, problem, &mut Silent)
}

/// As `worths`, and reports each finished number to `progress`.
pub fn worths_with_progress<P: Progress>(
    alloc: Global,
    problem: &Problem,
    progress: &mut P,
) -> Result<Vec<Worth>, NoMemory>
    ensures { IfOk result (λ worths. AreWorths problem.now worths.items) }
{
    let base = Base::new(alloc, problem)?;
    let items = items(alloc, problem)?;
    let mut worths = Vec::new(alloc);
    for item in &items {
        let worth = worth_of(&base, *item)?;
        worths.push(worth)?;
        progress.done(worths.len(), items.len());
    }
    Ok(worths)
}
