//! The rows of a setup, read from its tables one after the other.
ghost use Rattle.std.specs.Prelude.{ℕ, ◌≤◌, ◌<◌, List, [], length, map, Result};
ghost use Rattle.toml.specs.Data.{Data};
ghost use Rattle.toml.specs.View.{view};
ghost use Rattle.mm_base.specs.Reading.{Gives};
ghost use Rattle.mm_base.specs.declared.rows.StoreRow.{StoreRow};
ghost use Rattle.mm_problem.specs.Tables.{row_after, rows_in};
ghost use Rattle.mm_problem.specs.declared.fault.Fault.{Fault};
ghost use Rattle.mm_problem.specs.declared.fault.Fault.TheVariants.{NoMemory};

use crate::fault::Fault;
use mm_base::StoreRow;
use std::alloc::Global;
use toml::Value;

// A row of a setup.
pub(crate) trait Row: Drop {
    ghost row_at: { ℕ → Data → Result Self Fault };

    ghost new_row: { List StoreRow → List Self → Self → Result (Unit {0}) Fault };

    // Reads the row in the table with this number.
    fn read(row: u32, value: &Value) -> Result<Self, Fault>
        ensures { Gives NoMemory (λ r. r) result (row_at row (view value.now)) };

    // Tests a row against the setup's stores and the rows before it.
    fn test_new(stores: &[StoreRow], earlier: &[Self], row: &Self) -> Result<(), Fault>
        requires { length earlier.now < 256 }
        ensures { Gives NoMemory (λ x. x) result (new_row stores.now earlier.now row.now) };
}

// Reads the row in a table, and tests it against the rows before it.
#[tactic(auto, unfolding(crate::specs::Tables::row_after))]
fn row_after<R: Row>(stores: &[StoreRow], earlier: &[R], value: &Value) -> Result<R, Fault>
    requires { length earlier.now < 256 }
    ensures { Gives NoMemory (λ row. row) result
        (row_after R.row_at (R.new_row stores.now) earlier.now (view value.now)) }
{
    let row = R::read(earlier.len() as u32 + 1, value)?;
    R::test_new(stores, earlier, &row)?;
    Ok(row)
}

// The rows of these tables, in a setup with these stores.
#[tactic(auto, using(crate::proofs::RowsIn::all_rows))]
pub(crate) fn rows_of<R: Row>(
    alloc: Global,
    stores: &[StoreRow],
    values: &[Value],
) -> Result<Vec<R>, Fault>
    requires { length values.now ≤ 256 }
    ensures { Gives NoMemory (λ rows. rows.items) result
        (rows_in (row_after R.row_at (R.new_row stores.now)) [] (map view values.now)) }
{
    let mut rows = Vec::new(alloc);
    for value in values {
        let row = row_after(stores, rows.as_slice(), value)?;
        rows.push(row)?;
    }
    Ok(rows)
}
