//! The header of a table.
ghost use Rattle.std.specs.Prelude.{◌≡◌, [], not, bytes_eq};
ghost use Rattle.std.specs.List.{find, list_any};
ghost use Rattle.csv.specs.Records.{fields_of};
ghost use Rattle.mm_base.specs.Reading.{Gives};
ghost use Rattle.mm_problem.specs.Forecast.{cell_of};
ghost use Rattle.mm_mission_text.specs.Columns.{name_of, is_same};
ghost use Rattle.mm_mission_text.specs.Headers.{has, next_column, has_needed, header_in, all_in};
ghost use Rattle.mm_mission_text.specs.declared.fault.Fault.TheVariants.{NoMemory};

use crate::column::Column;
use crate::fault::Fault;
use csv::ByteRecord;
use std::alloc::Global;

// The columns of a table: those that it may have, and those of them that it must have. In a text: the keys of its array
// of tables and of its file, and the keys of its tables that are no columns.
#[derive(Clone, Copy)]
pub(crate) struct Table {
    pub(crate) known: &'static [Column],
    pub(crate) needed: &'static [Column],
    pub(crate) array: Column,
    pub(crate) file: Column,
    pub(crate) others: &'static [Column],
}

// Whether a column is among these.
pub(crate) fn has(columns: &[Column], column: Column) -> bool
    ensures { result ≡ has columns.now column }
{
    columns.iter().any(|other| column.is_same(*other))
}

fn named(columns: &[Column], name: &[u8]) -> Option<Column>
    ensures { result ≡ find (λ column. bytes_eq (name_of column) name.now) columns.now }
{
    columns
        .iter()
        .copied()
        .find(|column| column.name().as_bytes() == name)
}

// A cell of a record. Cells count from 0.
#[tactic(auto, using(mm_problem::proofs::ForecastCells::cell_is))]
pub(crate) fn cell_of(row: &ByteRecord, i: usize) -> &[u8]
    ensures { result.now ≡ cell_of (fields_of row.now) i }
{
    match row.get(i) {
        Some(field) => field,
        None => &[],
    }
}

// The next column, which is one of the known, and none of those before it.
#[tactic(auto, unfolding(crate::specs::Headers::next_column))]
fn next_column(known: &[Column], earlier: &[Column], name: &[u8]) -> Result<Column, Fault>
    ensures { Gives NoMemory (λ column. column) result (next_column known.now earlier.now name.now) }
{
    let place = earlier.len() + 1;
    let column = named(known, name).ok_or(Fault::UnknownColumn { place })?;
    if has(earlier, column) {
        return Err(Fault::RepeatedColumn { place });
    }
    Ok(column)
}

// The columns with these names.
fn columns_in(alloc: Global, known: &[Column], names: &ByteRecord) -> Result<Vec<Column>, Fault>
    ensures { Gives NoMemory (λ v. v.items) result (all_in (next_column known.now) [] (fields_of names.now)) }
{
    let mut columns = Vec::new(alloc);
    for i in 0..names.len() {
        let column = next_column(known, columns.as_slice(), cell_of(names, i))?;
        columns.push(column)?;
    }
    Ok(columns)
}

// The first of the needed columns that is missing.
fn missing(needed: &[Column], columns: &[Column]) -> Option<Column>
    ensures { result ≡ find (λ column. not (has columns.now column)) needed.now }
{
    needed.iter().copied().find(|column| !has(columns, *column))
}

// Tests that none of the needed columns is missing.
fn test_needed(needed: &[Column], columns: &[Column]) -> Result<(), Fault>
    ensures { Gives NoMemory (λ x. x) result (has_needed needed.now columns.now) }
{
    match missing(needed, columns) {
        None => Ok(()),
        Some(column) => Err(Fault::NoColumn { column }),
    }
}

// The columns in a header of a table.
#[tactic(auto, unfolding(crate::specs::Headers::header_in))]
pub(crate) fn header_in(
    alloc: Global,
    table: Table,
    names: &ByteRecord,
) -> Result<Vec<Column>, Fault>
    ensures { Gives NoMemory (λ v. v.items) result
        (header_in table.known.now table.needed.now (fields_of names.now)) }
{
    let columns = columns_in(alloc, table.known, names)?;
    test_needed(table.needed, columns.as_slice())?;
    Ok(columns)
}
