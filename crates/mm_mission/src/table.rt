//! What counters grow by in each step.
ghost use Rattle.std.specs.Prelude.{◌≡◌, ℕ, ◌+◌, ◌-◌, ◌*◌, ◌<◌, ◌≤◌, ◌++◌, length, map, slice_index, nat_le, IfOk};
ghost use Rattle.std.specs.Prelude.{OnOk};
ghost use Rattle.mm_base.specs.declared.limits.TheConstants.{MAX_BLOCKS};
ghost use Rattle.mm_base.specs.Reading.{Gives, test};
ghost use Rattle.mm_problem.specs.declared.fault.Fault.TheVariants as because;
ghost use Rattle.mm_mission.specs.declared.fault.Fault.TheVariants.{NoMemory, Problem};
ghost use Rattle.mm_mission.specs.Flows.{counted};
ghost use Rattle.mm_mission.specs.Planned.{growth, growths, table, in_range, unit_cell};

use crate::counter::Counter;
use crate::fault::Fault;
use crate::limits::{MAX_OBSERVATIONS, MAX_RATE, MAX_TIME};
use crate::mission::Mission;
use mm_base::MAX_BLOCKS;
use mm_problem::Name;
use std::alloc::{AllocError, Global};

// What a counter grows by in a step.
pub(crate) fn growth(mission: &Mission, counter: Counter, edges: &[u64], step: usize) -> u128
    requires first { 1 ≤ step }
    requires last { step < length edges.now }
    ensures growth { result ≡ growth (counted mission.now counter) edges.now step }
    ensures few { result ≤ MAX_OBSERVATIONS * (MAX_RATE * MAX_TIME) + 1 }
{
    let before = mission.counted(counter, edges[step - 1]);
    mission.counted(counter, edges[step]).saturating_sub(before)
}

// Adds what each counter grows by in a step.
fn push_growths(
    cells: &mut Vec<u128>,
    mission: &Mission,
    counters: &[Counter],
    edges: &[u64],
    step: usize,
) -> Result<(), AllocError>
    requires first { 1 ≤ step }
    requires last { step < length edges.now }
    ensures { OnOk result (cells.new.items ≡ cells.old.items ++ growths mission.now counters.now edges.now step) }
{
    for counter in counters {
        cells.push(growth(mission, *counter, edges, step))?;
    }
    Ok(())
}

// What each counter grows by in each step.
#[tactic(auto, using(crate::proofs::Tables::flat_map_next))]
fn table(
    alloc: Global,
    mission: &Mission,
    counters: &[Counter],
    edges: &[u64],
) -> Result<Vec<u128>, AllocError>
    ensures { IfOk result (λ cells. cells.items ≡ table mission.now counters.now edges.now) }
{
    let mut cells = Vec::new(alloc);
    for step in 1..edges.len() {
        push_growths(&mut cells, mission, counters, edges, step)?;
    }
    Ok(cells)
}

// The number, if it is within the range of amounts.
fn amount(name: Name, cell: u128) -> Result<u32, Fault>
    ensures { Gives NoMemory (λ n. n) result (unit_cell name cell) }
{
    if cell <= u128::from(MAX_BLOCKS) {
        Ok(cell as u32)
    } else {
        Err(Fault::Problem {
            fault: mm_problem::Fault::Limit { name },
        })
    }
}

/// The numbers, if each is within the range of amounts; else the fault of what they are.
pub fn amounts(alloc: Global, name: Name, cells: &[u128]) -> Result<Vec<u32>, Fault>
    ensures { Gives NoMemory (λ amounts. amounts.items) result (in_range name cells.now) }
{
    let mut amounts = Vec::new(alloc);
    for cell in cells {
        amounts.push(amount(name, *cell)?)?;
    }
    Ok(amounts)
}

// What each counter grows by in each step, if that is within the range of amounts.
pub(crate) fn columns(
    alloc: Global,
    mission: &Mission,
    name: Name,
    counters: &[Counter],
    edges: &[u64],
) -> Result<Vec<u32>, Fault>
    ensures { Gives NoMemory (λ amounts. amounts.items) result
        (in_range name (table mission.now counters.now edges.now)) }
{
    let cells = table(alloc, mission, counters, edges)?;
    amounts(alloc, name, &cells)
}
