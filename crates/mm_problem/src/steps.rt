//! The steps of a forecast, read from its records.
ghost use Rattle.std.specs.Prelude.{◌≡◌, ◌+◌, ◌≤◌, List, length, drop, map, vec_len, IfOk, OnOk};
ghost use Rattle.csv.specs.Records.{fields_of};
ghost use Rattle.mm_base.specs.declared.limits.TheConstants.{MAX_STORES, MAX_STEPS, CHANNELS};
ghost use Rattle.mm_problem.specs.Forecast.{cell_of, cells_from, begins_with, header_of, amounts_in, another_step};
ghost use Rattle.mm_problem.specs.Forecast.{some_step, next_step, some_steps, later_steps, header_in, forecast_in};
ghost use Rattle.mm_base.specs.Id.{id_text};
ghost use Rattle.mm_problem.specs.declared.fault.Fault.TheVariants.{NoMemory};
ghost use Rattle.mm_base.specs.Reading.{Gives};
ghost use Rattle.mm_problem.specs.Records.{Fields, records_of, HasRecords, IsReading};
ghost use Rattle.mm_problem.specs.StepLists.{columns_of, steps_of};

use crate::cells::{amount_of, test_step};
use crate::columns::{HeaderColumns, columns_in};
use crate::fault::{Fault, Name};
use crate::reading::test;
use crate::records::{next_record, reader_of};
use csv::{ByteRecord, Reader};
use mm_base::{MAX_STEPS, StoreRow};
use std::alloc::{AllocError, Global};

// The windows of some steps, and step by step the arrivals, and the limits and sizes of the channels and stores that
// have a column.
#[derive(Debug, Drop)]
pub(crate) struct StepTable {
    // the channels with a limit for each step, in rising order
    pub(crate) limited: Vec<u8>,
    pub(crate) windows: Vec<u32>,
    // step by step, and within a step in store order
    pub(crate) arrived: Vec<u32>,
    // step by step, and within a step in the order of the channels
    pub(crate) step_limits: Vec<u32>,
    // the stores with a size for each step, in rising order
    pub(crate) sized: Vec<u8>,
    // step by step, and within a step in the order of these stores
    pub(crate) step_sizes: Vec<u32>,
}

impl StepTable {
    // The table of these numbers.
    pub(crate) fn of(
        alloc: Global,
        windows: &[u32],
        arrived: &[u32],
        limited: &[u8],
        step_limits: &[u32],
        sized: &[u8],
        step_sizes: &[u32],
    ) -> Result<StepTable, AllocError>
        ensures steps { IfOk result (λ s. steps_of s ≡ (record {
          limited = limited.now;
          windows = windows.now;
          arrived = arrived.now;
          step_limits = step_limits.now;
          sized = sized.now;
          step_sizes = step_sizes.now;
        })) }
    {
        let limited = Vec::from_slice(alloc, limited)?;
        let windows = Vec::from_slice(alloc, windows)?;
        let arrived = Vec::from_slice(alloc, arrived)?;
        let step_limits = Vec::from_slice(alloc, step_limits)?;
        let sized = Vec::from_slice(alloc, sized)?;
        let step_sizes = Vec::from_slice(alloc, step_sizes)?;
        Ok(StepTable {
            limited,
            windows,
            arrived,
            step_limits,
            sized,
            step_sizes,
        })
    }

    // The same table once more.
    pub(crate) fn copy(&self, alloc: Global) -> Result<StepTable, AllocError>
        ensures steps { IfOk result (λ s. steps_of s ≡ steps_of self.now) }
    {
        StepTable::of(
            alloc,
            &self.windows,
            &self.arrived,
            &self.limited,
            &self.step_limits,
            &self.sized,
            &self.step_sizes,
        )
    }
}

// A cell of a record. Cells count from 0.
#[tactic(auto, using(crate::proofs::ForecastCells::cell_is))]
pub(crate) fn cell_of(row: &ByteRecord, i: usize) -> &[u8]
    ensures { result.now ≡ cell_of (fields_of row.now) i }
{
    match row.get(i) {
        Some(field) => field,
        None => &[],
    }
}

// Adds the amounts of some cells of the record with this number.
fn amounts_of(
    number: u32,
    name: Name,
    amounts: &mut Vec<u32>,
    row: &ByteRecord,
    first: usize,
    count: usize,
) -> Result<(), Fault>
    requires few { length (fields_of row.now) ≤ 2 + MAX_STORES + CHANNELS + MAX_STORES }
    requires cells { first + count ≤ length (fields_of row.now) }
    ensures { Gives NoMemory (λ x. amounts.new.items) result
        (amounts_in name number amounts.old.items (first + 1) (cells_from (fields_of row.now) first count)) }
{
    for i in first..first + count {
        let amount = amount_of(number, i as u32 + 1, name, cell_of(row, i))?;
        amounts.push(amount)?;
    }
    Ok(())
}

// Tests that one more step may follow this number of steps.
pub(crate) fn test_another_step(earlier: usize) -> Result<(), Fault>
    ensures { Gives NoMemory (λ x. x) result (another_step earlier) }
{
    test(
        earlier < MAX_STEPS as usize,
        Fault::Limit { name: Name::Steps },
    )
}

// Tests that there is at least one step.
pub(crate) fn test_some_step(steps: usize) -> Result<(), Fault>
    ensures { Gives NoMemory (λ x. x) result (some_step steps) }
{
    test(steps >= 1, Fault::Limit { name: Name::Steps })
}

// Adds the step of the next record.
#[tactic(auto, unfolding(crate::specs::Forecast::next_step))]
fn next_step(stores: usize, steps: &mut StepTable, row: &ByteRecord) -> Result<(), Fault>
    requires stores { stores ≤ MAX_STORES }
    requires limited { vec_len steps.old.limited ≤ CHANNELS }
    requires sized { vec_len steps.old.sized ≤ MAX_STORES }
    ensures step { Gives NoMemory (λ x. steps_of steps.new) result
        (next_step stores (steps_of steps.old) (fields_of row.now)) }
    ensures longer { OnOk result (vec_len steps.new.windows ≡ vec_len steps.old.windows + 1) }
    ensures most { OnOk result (vec_len steps.new.windows ≤ MAX_STEPS) }
    ensures limited { OnOk result (vec_len steps.new.limited ≤ CHANNELS) }
    ensures sized { OnOk result (vec_len steps.new.sized ≤ MAX_STORES) }
{
    let limits = steps.limited.len();
    let sizes = steps.sized.len();
    test(
        row.len() == 2 + stores + limits + sizes,
        Fault::ForecastText,
    )?;
    test_another_step(steps.windows.len())?;
    let number = steps.windows.len() as u32 + 1;
    test_step(number, cell_of(row, 0))?;
    let window = amount_of(number, 2, Name::Window, cell_of(row, 1))?;
    amounts_of(number, Name::Arrivals, &mut steps.arrived, row, 2, stores)?;
    amounts_of(
        number,
        Name::Limit,
        &mut steps.step_limits,
        row,
        2 + stores,
        limits,
    )?;
    amounts_of(
        number,
        Name::Size,
        &mut steps.step_sizes,
        row,
        2 + stores + limits,
        sizes,
    )?;
    steps.windows.push(window)?;
    Ok(())
}

// Whether the cells after the window name these stores.
fn names_stores(stores: &[StoreRow], row: &ByteRecord) -> bool
    requires { length stores.now + 2 ≤ length (fields_of row.now) }
    ensures { result ≡ begins_with (drop 2 (fields_of row.now)) (map (λ r. id_text r.id) stores.now) }
{
    for (i, store) in stores.iter().enumerate() {
        if cell_of(row, i + 2) != store.id.text() {
            return false;
        }
    }
    true
}

// Whether the first cells name the step, the window and these stores.
#[tactic(auto, using(crate::proofs::ForecastCells::header_cells, crate::proofs::ForecastCells::too_few))]
pub(crate) fn begins_with_stores(stores: &[StoreRow], row: &ByteRecord) -> bool
    requires { length stores.now ≤ MAX_STORES }
    ensures { result ≡ begins_with (fields_of row.now) (header_of stores.now) }
{
    if row.len() < stores.len() + 2 {
        return false;
    }
    cell_of(row, 0) == b"step".as_slice()
        && cell_of(row, 1) == b"window".as_slice()
        && names_stores(stores, row)
}

// The steps, if there is at least one.
#[tactic(auto, unfolding(crate::specs::Forecast::some_steps))]
fn some_steps(steps: StepTable) -> Result<StepTable, Fault>
    ensures { Gives NoMemory steps_of result (some_steps (steps_of steps)) }
{
    test_some_step(steps.windows.len())?;
    Ok(steps)
}

// Reads the header of a forecast for these stores, and returns its columns of limits and of sizes.
fn read_header(
    alloc: Global,
    stores: &[StoreRow],
    reader: &mut Reader<&[u8]>,
    row: &mut ByteRecord,
) -> Result<HeaderColumns, Fault>
    requires stores { length stores.now ≤ MAX_STORES }
    requires reading { IsReading reader.old }
    ensures header { (rows : List Fields) → HasRecords reader.old rows
        → Gives NoMemory columns_of result (header_in stores.now rows) }
    ensures few_limits { IfOk result (λ c. vec_len c.limited ≤ CHANNELS) }
    ensures few_sizes { IfOk result (λ c. vec_len c.sized ≤ MAX_STORES) }
    ensures later { OnOk result ((rows : List Fields) → HasRecords reader.old rows
        → HasRecords reader.new (drop 1 rows)) }
{
    if !next_record(reader, row)? {
        return Err(Fault::Header);
    }
    columns_in(alloc, stores, row)
}

// Reads the steps of a forecast after its header.
fn read_steps(
    alloc: Global,
    stores: usize,
    columns: HeaderColumns,
    reader: &mut Reader<&[u8]>,
    row: &mut ByteRecord,
) -> Result<StepTable, Fault>
    requires stores { stores ≤ MAX_STORES }
    requires limited { vec_len columns.limited ≤ CHANNELS }
    requires sized { vec_len columns.sized ≤ MAX_STORES }
    requires reading { IsReading reader.old }
    ensures { (rows : List Fields) → HasRecords reader.old rows
        → Gives NoMemory steps_of result (later_steps stores (columns_of columns) rows) }
{
    let mut steps = StepTable {
        limited: columns.limited,
        windows: Vec::new(alloc),
        arrived: Vec::new(alloc),
        step_limits: Vec::new(alloc),
        sized: columns.sized,
        step_sizes: Vec::new(alloc),
    };
    'rows: while next_record(reader, row)? {
        next_step(stores, &mut steps, row)?;
    }
    some_steps(steps)
}

// The steps of a forecast.
pub(crate) fn forecast_of(
    alloc: Global,
    stores: &[StoreRow],
    text: &[u8],
) -> Result<StepTable, Fault>
    requires { length stores.now ≤ MAX_STORES }
    ensures { Gives NoMemory steps_of result (forecast_in stores.now (records_of text.now)) }
{
    let mut reader = reader_of(alloc, text);
    let mut row = ByteRecord::new(alloc);
    let columns = read_header(alloc, stores, &mut reader, &mut row)?;
    read_steps(alloc, stores.len(), columns, &mut reader, &mut row)
}
