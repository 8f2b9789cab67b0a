//! The cells that the tables of a text in TOML write.
ghost use Rattle.std.specs.Prelude.{◌≡◌, ◌||◌, [], not, is_ok, option_map, string_bytes, codes};
ghost use Rattle.std.specs.BTreeMap.{keys};
ghost use Rattle.std.specs.List.{list_all, find};
ghost use Rattle.csv.specs.Records.{fields_of};
ghost use Rattle.toml.specs.Data.{get_member};
ghost use Rattle.toml.specs.View.{view, table_view};
ghost use Rattle.mm_base.specs.Reading.{Gives};
ghost use Rattle.mm_problem.specs.Keys.{keys_of};
ghost use Rattle.mm_mission_text.specs.Cells.{told_as, channel_of};
ghost use Rattle.mm_mission_text.specs.Columns.{is_named};
ghost use Rattle.mm_mission_text.specs.Headers.{all_in};
ghost use Rattle.mm_mission_text.specs.Values.{cell_of, one_of, value_among, cell_at, next_cell};
ghost use Rattle.mm_mission_text.specs.Values.{channels_of, channels_from, cells_in, strange_key};
ghost use Rattle.mm_mission_text.specs.declared.fault.Fault.TheVariants.{NoMemory, Cell};

use crate::column::Column;
use crate::fault::{Fault, Why};
use crate::header::has;
use csv::ByteRecord;
use mm_base::MAX_CHANNEL;
use mm_base::numbers::Numeral;
use std::alloc::Global;
use toml::{Table, Value};

static WORDS: [Column; 6] = [
    Column::Id,
    Column::Type,
    Column::Name,
    Column::Station,
    Column::Store,
    Column::Overlap,
];

// The value at a key of a table.
#[tactic(auto, using(toml::proofs::Views::table_get))]
pub(crate) fn value_at<'a>(key: &str, table: &'a Table) -> Option<&'a Value>
    ensures { option_map (λ value. view value.now) result ≡ get_member key.now (table_view table.now) }
{
    table.get(key)
}

// The cell that a value writes below a column.
fn cell_of(alloc: Global, row: usize, column: Column, value: &Value) -> Result<String, Fault>
    ensures { Gives NoMemory (λ text. string_bytes text) result
        (told_as (Cell row column) (cell_of column (view value.now))) }
{
    let is_word = has(&WORDS, column);
    let why = match value {
        Value::String(text) => return Ok(String::from_str(alloc, text.as_str())?),
        Value::Integer(number) if !is_word => return Ok(format!(in alloc; "{number}")?),
        Value::Datetime(moment) if !is_word => return Ok(format!(in alloc; "{moment}")?),
        Value::Integer(_) | Value::Datetime(_) => Why::Unquoted,
        Value::Float(_) => Why::Decimal,
        _ => Why::NotCell,
    };
    Err(Fault::Cell { row, column, why })
}

// The one of two values that is there.
fn one_of<'a>(
    row: usize,
    column: Column,
    own: Option<&'a Value>,
    among: Option<&'a Value>,
) -> Result<Option<&'a Value>, Fault>
    ensures { Gives NoMemory (option_map (λ value. view value.now)) result (told_as (Cell row column)
        (one_of (option_map (λ value. view value.now) own.entry) (option_map (λ value. view value.now) among.entry))) }
{
    match (own, among) {
        (Some(_), Some(_)) => Err(Fault::Cell {
            row,
            column,
            why: Why::Twice,
        }),
        (Some(value), None) => Ok(Some(value)),
        (None, among) => Ok(among),
    }
}

// The value for a channel in the table `channels`.
fn value_among(channels: Option<&Table>, column: Column) -> Option<&Value>
    ensures { option_map (λ value. view value.now) result
        ≡ value_among (option_map (λ table. table_view table.now) channels.entry) column }
{
    let key = column.channel_key()?;
    let channels = channels?;
    value_at(key, channels)
}

// The cell below a column, by its own key or that of its channel.
#[tactic(auto, unfolding(crate::specs::Values::cell_at))]
fn cell_at(
    alloc: Global,
    row: usize,
    column: Column,
    table: &Table,
    channels: Option<&Table>,
) -> Result<String, Fault>
    ensures { Gives NoMemory (λ text. string_bytes text) result (told_as (Cell row column)
        (cell_at (table_view table.now) (option_map (λ table. table_view table.now) channels.entry) column)) }
{
    let own = value_at(column.name(), table);
    let among = value_among(channels, column);
    match one_of(row, column, own, among)? {
        Some(value) => cell_of(alloc, row, column, value),
        None => Ok(String::new(alloc)),
    }
}

// Whether a key is a channel.
fn is_channel(key: &str) -> bool
    ensures { result ≡ is_ok (channel_of key.now) }
{
    matches!(
        Numeral::read(key.as_bytes(), u64::from(MAX_CHANNEL)),
        Numeral::Number(_)
    )
}

fn each_is_channel(table: &Table) -> bool
    ensures { result ≡ list_all (λ key. is_ok (channel_of (string_bytes key))) (keys table.now) }
{
    table.keys().all(|key| is_channel(key.as_str()))
}

// Whether each key of a table is a channel.
#[tactic(auto, using(crate::proofs::TextTables::channels_by_map))]
fn are_channels(table: &Table) -> bool
    ensures { result ≡ list_all (λ key. is_ok (channel_of key)) (keys_of (table_view table.now)) }
{
    each_is_channel(table)
}

// The table that a value is, with channels as its keys.
#[tactic(auto, unfolding(crate::specs::Values::channels_of))]
fn channels_of(row: usize, value: &Value) -> Result<&Table, Fault>
    ensures { Gives NoMemory (λ table. table_view table.now) result (channels_of row (view value.now)) }
{
    let column = Column::Channels;
    let channels = value.as_table().ok_or(Fault::Cell {
        row,
        column,
        why: Why::NotChannels,
    })?;
    if are_channels(channels) {
        Ok(channels)
    } else {
        Err(Fault::Cell {
            row,
            column,
            why: Why::NotChannel,
        })
    }
}

// The table `channels` of a table, if there is one.
fn channels_in(row: usize, table: &Table) -> Result<Option<&Table>, Fault>
    ensures { Gives NoMemory (option_map (λ table. table_view table.now)) result
        (channels_from row (get_member (codes "channels") (table_view table.now))) }
{
    match value_at("channels", table) {
        None => Ok(None),
        Some(value) => {
            let channels = channels_of(row, value)?;
            Ok(Some(channels))
        }
    }
}

// The cells of a table below these columns, with those channels.
fn cells_with(
    alloc: Global,
    row: usize,
    columns: &[Column],
    table: &Table,
    channels: Option<&Table>,
) -> Result<ByteRecord, Fault>
    ensures { Gives NoMemory (λ cells. fields_of cells) result (all_in (next_cell row (table_view table.now)
        (option_map (λ table. table_view table.now) channels.entry)) [] columns.now) }
{
    let mut cells = ByteRecord::new(alloc);
    for column in columns {
        let cell = cell_at(alloc, row, *column, table, channels)?;
        cells.push_field(cell.as_bytes())?;
    }
    Ok(cells)
}

// The cells of a table below these columns.
#[tactic(auto, unfolding(crate::specs::Values::cells_in))]
pub(crate) fn cells_in(
    alloc: Global,
    row: usize,
    columns: &[Column],
    table: &Table,
) -> Result<ByteRecord, Fault>
    ensures { Gives NoMemory (λ cells. fields_of cells) result (cells_in row columns.now (table_view table.now)) }
{
    let channels = channels_in(row, table)?;
    cells_with(alloc, row, columns, table, channels)
}

fn is_named(columns: &[Column], name: &str) -> bool
    ensures { result ≡ is_named columns.now name.now }
{
    columns.iter().any(|column| column.name() == name)
}

fn strange<'a>(columns: &[Column], others: &[Column], table: &'a Table) -> Option<&'a String>
    ensures { option_map (λ key. key.now) result ≡ find
        (λ key. not (is_named columns.now (string_bytes key) || is_named others.now (string_bytes key)))
        (keys table.now) }
{
    table.keys().find(|key| !(is_named(columns, key.as_str()) || is_named(others, key.as_str())))
}

// The first key of a table that is neither a column nor one of the others.
#[tactic(auto, using(crate::proofs::TextTables::strange_by_map))]
pub(crate) fn strange_key<'a>(
    columns: &[Column],
    others: &[Column],
    table: &'a Table,
) -> Option<&'a str>
    ensures { option_map (λ key. key.now) result ≡ strange_key columns.now others.now (table_view table.now) }
{
    match strange(columns, others, table) {
        Some(key) => Some(key.as_str()),
        None => None,
    }
}
