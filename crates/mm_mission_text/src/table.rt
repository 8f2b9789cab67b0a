//! Tables, whose rows are entries of one kind.
ghost use Rattle.std.specs.Prelude.{◌≡◌, ◌+◌, List, [], length, map, Result};
ghost use Rattle.std.specs.List.{list_all};
ghost use Rattle.csv.specs.Records.{fields_of};
ghost use Rattle.mm_base.specs.Reading.{Gives};
ghost use Rattle.mm_problem.specs.Records.{Fields};
ghost use Rattle.mm_mission_text.specs.Headers.{all_in};
ghost use Rattle.mm_mission_text.specs.Rows.{Line, seen};
ghost use Rattle.mm_mission_text.specs.Tables.{is_blank, entry_of, next_entry, numbered, rows_of, table_in};
ghost use Rattle.mm_mission_text.specs.declared.column.Column.{Column};
ghost use Rattle.mm_mission_text.specs.declared.fault.Fault.{Fault};
ghost use Rattle.mm_mission_text.specs.declared.fault.Fault.TheVariants.{NoMemory};

use crate::column::Column;
use crate::fault::Fault;
use crate::header::{Table, cell_of, header_in};
use crate::records::records_in;
use crate::row::Row;
use csv::ByteRecord;
use std::alloc::Global;

// What is in a row of a table.
pub(crate) trait Entry: Drop {
    ghost known: { List Column };

    ghost needed: { List Column };

    ghost array: { Column };

    ghost file: { Column };

    ghost others: { List Column };

    ghost entry_in: { Line → Result Self Fault };

    // The columns of the table, and its keys in a text.
    fn table() -> Table
        ensures known { result.known.now ≡ known }
        ensures needed { result.needed.now ≡ needed }
        ensures array { result.array ≡ array }
        ensures file { result.file ≡ file }
        ensures others { result.others.now ≡ others };

    // The entry in a row.
    fn in_row(alloc: Global, row: &Row<'_>) -> Result<Self, Fault>
        ensures { Gives NoMemory (λ entry. entry) result (entry_in (seen row.now)) };
}

// Whether nothing is written in a row.
fn is_blank(row: &ByteRecord) -> bool
    ensures { result ≡ is_blank (fields_of row.now) }
{
    for i in 0..row.len() {
        if !cell_of(row, i).is_empty() {
            return false;
        }
    }
    true
}

// The entry in a row that is as long as the header.
#[tactic(auto, unfolding(crate::specs::Tables::entry_of))]
fn entry_of<E: Entry>(
    alloc: Global,
    columns: &[Column],
    number: usize,
    cells: &ByteRecord,
) -> Result<E, Fault>
    ensures { Gives NoMemory (λ entry. entry) result
        (entry_of E.entry_in columns.now (number, fields_of cells.now)) }
{
    if cells.len() != columns.len() {
        return Err(Fault::RowLength { row: number });
    }
    let row = Row {
        number,
        columns,
        cells,
    };
    E::in_row(alloc, &row)
}

// The entries in the rows that are not blank.
fn entries_in<E: Entry>(
    alloc: Global,
    columns: &[Column],
    rows: &[ByteRecord],
) -> Result<Vec<E>, Fault>
    ensures { Gives NoMemory (λ v. v.items) result
        (all_in (next_entry E.entry_in columns.now) [] (numbered 1 (map fields_of rows.now))) }
{
    let mut entries = Vec::new(alloc);
    for (i, row) in rows.iter().enumerate() {
        if !is_blank(row) {
            let entry = entry_of(alloc, columns, i + 1, row)?;
            entries.push(entry)?;
        }
    }
    Ok(entries)
}

// The entries of these records.
#[tactic(auto, unfolding(crate::specs::Tables::table_in))]
fn table_in<E: Entry>(alloc: Global, records: &[ByteRecord]) -> Result<Vec<E>, Fault>
    ensures { Gives NoMemory (λ v. v.items) result
        (table_in E.known E.needed E.entry_in (map fields_of records.now)) }
{
    match records {
        [] => Err(Fault::NoHeader),
        [names, rows @ ..] => {
            let columns = header_in(alloc, E::table(), names)?;
            entries_in(alloc, columns.as_slice(), rows)
        }
    }
}

// The entries of a table that a text writes.
pub(crate) fn entries<E: Entry>(alloc: Global, text: &[u8]) -> Result<Vec<E>, Fault>
    ensures { Gives NoMemory (λ v. v.items) result (table_in E.known E.needed E.entry_in (rows_of text.now)) }
{
    let records = records_in(alloc, text)?;
    table_in(alloc, records.as_slice())
}
