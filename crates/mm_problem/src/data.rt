//! The tests of a problem that is made of data. They are the same as those of the readers.
ghost use Rattle.std.specs.Prelude.{◌≡◌, ◌≤◌, ◌<◌, nat_le, List, [], length, pos, Result};
ghost use Rattle.std.specs.List.{list_all};
ghost use Rattle.mm_base.specs.Reading.{Gives};
ghost use Rattle.mm_base.specs.declared.limits.TheConstants.{MAX_STORES, MAX_STEPS, MAX_BLOCKS, MAX_CHANNEL};
ghost use Rattle.mm_problem.specs.Data.{rows_fit, amounts_fit, step_fits, steps_fit, column_fits, columns_fit};
ghost use Rattle.mm_problem.specs.Keys.{within};
ghost use Rattle.mm_problem.specs.declared.fault.Fault.{Fault};
ghost use Rattle.mm_problem.specs.declared.fault.Fault.TheVariants.{NoMemory};

use crate::columns::are_below;
use crate::fault::{Fault, Name};
use crate::keys::within;
use crate::reading::test;
use crate::rows::Row;
use crate::steps::test_another_step;
use mm_base::{LimitRow, MAX_BLOCKS, MAX_CHANNEL, StoreRow};

// A row that is tested after the rows before it.
pub(crate) trait Tested: Sized {
    // The tests of the row, in order.
    ghost fits: { List Self → Self → Result (Unit {0}) Fault };

    fn test(earlier: &[Self], row: &Self) -> Result<(), Fault>
        requires { length earlier.now < 256 }
        ensures { Gives NoMemory (λ x. x) result (fits earlier.now row.now) };
}

// Tests a virtual channel.
fn test_channel(channel: u8) -> Result<u32, Fault>
    ensures { Gives NoMemory (λ n. n) result (within 0 MAX_CHANNEL Name.Channel (pos channel)) }
{
    within(0, u32::from(MAX_CHANNEL), Name::Channel, i64::from(channel))
}

impl Tested for StoreRow {
    ghost use Rattle.mm_problem.specs.Data.{store_fits};

    ghost fits = { store_fits };

    #[tactic(auto, unfolding(crate::specs::Data::store_fits))]
    fn test(earlier: &[StoreRow], row: &StoreRow) -> Result<(), Fault> {
        within(1, MAX_BLOCKS, Name::Size, i64::from(row.size))?;
        test_channel(row.channel)?;
        within(0, row.size, Name::Start, i64::from(row.start))?;
        StoreRow::test_new(&[], earlier, row)
    }
}

impl Tested for LimitRow {
    ghost use Rattle.mm_problem.specs.Data.{limit_fits};

    ghost fits = { limit_fits };

    #[tactic(auto, unfolding(crate::specs::Data::limit_fits))]
    fn test(earlier: &[LimitRow], row: &LimitRow) -> Result<(), Fault> {
        test_channel(row.channel)?;
        test_amount(Name::Blocks, row.blocks)?;
        LimitRow::test_new(&[], earlier, row)
    }
}

// Tests rows, each against those before it.
#[tactic(auto, using(crate::proofs::DataLaws::no_row_left))]
pub(crate) fn test_rows<R: Tested>(rows: &[R]) -> Result<(), Fault>
    requires { length rows.now ≤ 256 }
    ensures { Gives NoMemory (λ x. x) result (rows_fit R.fits [] rows.now) }
{
    for (place, row) in rows.iter().enumerate() {
        R::test(&rows[..place], row)?;
    }
    Ok(())
}

// Tests an amount of blocks.
fn test_amount(name: Name, amount: u32) -> Result<u32, Fault>
    ensures { Gives NoMemory (λ n. n) result (within 0 MAX_BLOCKS name (pos amount)) }
{
    within(0, MAX_BLOCKS, name, i64::from(amount))
}

// Whether all these amounts of blocks are within their range.
fn are_amounts(amounts: &[u32]) -> bool
    ensures { result ≡ list_all (λ n. nat_le n MAX_BLOCKS) amounts.now }
{
    amounts.iter().all(|amount| *amount <= MAX_BLOCKS)
}

// Tests amounts of blocks.
fn test_amounts(name: Name, amounts: &[u32]) -> Result<(), Fault>
    ensures { Gives NoMemory (λ x. x) result (amounts_fit name amounts.now) }
{
    test(are_amounts(amounts), Fault::Limit { name })
}

// Tests the step that follows this number of steps.
#[tactic(auto, unfolding(crate::specs::Data::step_fits))]
fn test_step(earlier: usize, window: u32, arrivals: &[u32]) -> Result<(), Fault>
    ensures { Gives NoMemory (λ x. x) result (step_fits earlier window arrivals.now) }
{
    test_another_step(earlier)?;
    test_amount(Name::Window, window)?;
    test_amounts(Name::Arrivals, arrivals)
}

// Tests steps, each of which has an arrival for each store.
pub(crate) fn test_steps(stores: usize, windows: &[u32], arrived: &[u32]) -> Result<(), Fault>
    ensures { Gives NoMemory (λ x. x) result (steps_fit stores 0 windows.now arrived.now) }
{
    let mut left = arrived;
    for (earlier, window) in windows.iter().enumerate() {
        test(stores <= left.len(), Fault::ForecastText)?;
        let (arrivals, later) = left.split_at(stores);
        test_step(earlier, *window, arrivals)?;
        left = later;
    }
    test(left.is_empty(), Fault::ForecastText)
}

// Tests a column against those before it.
fn test_column(count: usize, earlier: &[u8], column: u8) -> Result<(), Fault>
    ensures { Gives NoMemory (λ x. x) result (column_fits count earlier.now column) }
{
    let is_next = usize::from(column) < count && are_below(earlier, column);
    test(is_next, Fault::Header)
}

// Tests columns, each against those before it.
#[tactic(auto, using(crate::proofs::DataLaws::no_row_left))]
fn test_each_column(count: usize, columns: &[u8]) -> Result<(), Fault>
    ensures { Gives NoMemory (λ x. x) result (rows_fit (column_fits count) [] columns.now) }
{
    for (place, column) in columns.iter().enumerate() {
        test_column(count, &columns[..place], *column)?;
    }
    Ok(())
}

// Tests the columns of the forecast that are of some of these channels or stores, and their numbers for each step.
#[tactic(auto, unfolding(crate::specs::Data::columns_fit))]
pub(crate) fn test_columns(
    count: usize,
    name: Name,
    steps: usize,
    columns: &[u8],
    cells: &[u32],
) -> Result<(), Fault>
    requires count { count ≤ MAX_STORES }
    requires steps { steps ≤ MAX_STEPS }
    ensures { Gives NoMemory (λ x. x) result (columns_fit count name steps columns.now cells.now) }
{
    test(columns.len() <= count, Fault::Header)?;
    test_each_column(count, columns)?;
    let many = steps * columns.len();
    test(cells.len() == many, Fault::ForecastText)?;
    test_amounts(name, cells)
}
