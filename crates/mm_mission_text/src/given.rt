//! The tables that a text in TOML has of one kind.
ghost use Rattle.std.specs.Prelude.{◌+◌, [], length, map, option_map};
ghost use Rattle.toml.specs.Data.{get_member};
ghost use Rattle.toml.specs.View.{view, table_view};
ghost use Rattle.mm_base.specs.Reading.{Gives};
ghost use Rattle.csv.specs.Records.{fields_of};
ghost use Rattle.mm_mission_text.specs.Columns.{name_of};
ghost use Rattle.mm_mission_text.specs.Headers.{all_in};
ghost use Rattle.mm_mission_text.specs.Missions.{none_strange, line_in, entry_at, entry_after, tables_from, file_from};
ghost use Rattle.mm_mission_text.specs.Missions.{given_in};
ghost use Rattle.mm_mission_text.specs.Rows.{seen};
ghost use Rattle.mm_mission_text.specs.Values.{strange_key};
ghost use Rattle.mm_mission_text.specs.declared.mission_fault.MissionFault.TheVariants.{NoMemory};

use crate::column::Column;
use crate::mission_fault::{MissionFault, told};
use crate::row::Row;
use crate::table::Entry;
use crate::text::Text;
use crate::value::{cells_in, strange_key, value_at};
use csv::ByteRecord;
use std::alloc::Global;
use std::marker::Model;
use toml::{Table, Value};

/// The entries of a table in a text, and the name of the CSV file whose entries come after them, if one is named.
#[derive(Debug, Drop)]
pub struct Given<E> {
    pub entries: Vec<E>,
    pub file: Option<Text>,
}

impl<E> Model for Given<E> {
    ghost use Rattle.mm_mission_text.specs.Given.{Given};

    ghost Value = { Given E };

    ghost view = { λ a. record { entries = a.entries.items; file = a.file } };
}

// Tests that a table has no other keys than these.
fn test_keys(
    alloc: Global,
    table: Option<Column>,
    row: usize,
    strange: Option<&str>,
) -> Result<(), MissionFault>
    ensures { Gives NoMemory (λ x. x) result (none_strange table row (option_map (λ key. key.now) strange.entry)) }
{
    match strange {
        None => Ok(()),
        Some(key) => {
            let key = Text::new(alloc, key)?;
            Err(MissionFault::UnknownKey { table, row, key })
        }
    }
}

// The cells of a table with these columns, whose other keys are read elsewhere.
#[tactic(auto, unfolding(crate::specs::Missions::line_in), using(crate::proofs::TextTables::told_gives))]
pub(crate) fn cells_of(
    alloc: Global,
    table: Option<Column>,
    row: usize,
    columns: &[Column],
    others: &[Column],
    members: &Table,
) -> Result<ByteRecord, MissionFault>
    ensures { Gives NoMemory (λ cells. record { number = row; columns = columns.now; cells = fields_of cells }) result
        (line_in table row columns.now others.now (table_view members.now)) }
{
    test_keys(alloc, table, row, strange_key(columns, others, members))?;
    let cells = cells_in(alloc, row, columns, members);
    told(table, cells)
}

// The entry in a table of an array.
#[tactic(auto, unfolding(crate::specs::Missions::entry_at), using(crate::proofs::TextTables::told_gives))]
fn entry_at<E: Entry>(alloc: Global, row: usize, value: &Value) -> Result<E, MissionFault>
    ensures { Gives NoMemory (λ entry. entry) result
        (entry_at E.array E.known E.others E.entry_in row (view value.now)) }
{
    let of = E::table();
    let table = Some(of.array);
    let members = value
        .as_table()
        .ok_or(MissionFault::NotTables { table: of.array })?;
    let cells = cells_of(alloc, table, row, of.known, of.others, members)?;
    let row = Row {
        number: row,
        columns: of.known,
        cells: &cells,
    };
    told(table, E::in_row(alloc, &row))
}

// The elements of an array, none if the array is missing.
#[tactic(auto, using(mm_problem::proofs::TomlViews::elements_by_vec))]
fn tables_from(table: Column, value: Option<&Value>) -> Result<&[Value], MissionFault>
    ensures { Gives NoMemory (λ values. map view values.now) result
        (tables_from table (option_map (λ value. view value.now) value.entry)) }
{
    let Some(value) = value else {
        return Ok(&[]);
    };
    match value.as_array() {
        Some(values) => Ok(values.as_slice()),
        None => Err(MissionFault::NotTables { table }),
    }
}

// The name of a file, if one is named.
fn file_from(
    alloc: Global,
    key: Column,
    value: Option<&Value>,
) -> Result<Option<Text>, MissionFault>
    ensures { Gives NoMemory (λ name. name) result (file_from key (option_map (λ value. view value.now) value.entry)) }
{
    let Some(value) = value else {
        return Ok(None);
    };
    match value.as_str() {
        Some(name) => Ok(Some(Text::new(alloc, name)?)),
        None => Err(MissionFault::NotFile { key }),
    }
}

// The entries in tables.
fn entries_in<E: Entry>(alloc: Global, tables: &[Value]) -> Result<Vec<E>, MissionFault>
    ensures { Gives NoMemory (λ v. v.items) result
        (all_in (entry_after E.array E.known E.others E.entry_in) [] (map view tables.now)) }
{
    let mut entries = Vec::new(alloc);
    for (i, value) in tables.iter().enumerate() {
        let entry = entry_at(alloc, i + 1, value)?;
        entries.push(entry)?;
    }
    Ok(entries)
}

// The entries of a document in its array of tables, and the file that it names for more of them.
#[tactic(auto, unfolding(crate::specs::Missions::given_in))]
pub(crate) fn given_in<E: Entry>(alloc: Global, document: &Table) -> Result<Given<E>, MissionFault>
    ensures { Gives NoMemory (λ given. given) result
        (given_in E.array E.file E.known E.others E.entry_in (table_view document.now)) }
{
    let of = E::table();
    let tables = tables_from(of.array, value_at(of.array.name(), document))?;
    let entries = entries_in(alloc, tables)?;
    let file = file_from(alloc, of.file, value_at(of.file.name(), document))?;
    Ok(Given { entries, file })
}
