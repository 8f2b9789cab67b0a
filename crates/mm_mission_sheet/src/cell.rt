//! Lines of cells (RFC 4180).
ghost use Rattle.std.specs.Prelude.{◌≡◌, ◌≤◌, [], ◌∷◌, ◌++◌, length, map, decimal, OnOk};
ghost use Rattle.std.specs.List.{list_any};
ghost use Rattle.csv.specs.Writing.{default_writer, needs_byte, escaped, quoted, field_text, fields_text, next_sep, row_body};
ghost use Rattle.mm_mission_sheet.specs.Cells.{cell_text, csv_line};
ghost use Rattle.mm_mission_sheet.specs.Dates.{utc_text};

use itoa::Buffer;
use mm_base::StoreId;
use mm_utc::Moment;
use std::alloc::{AllocError, Global};

/// What a cell of a table shows.
#[derive(Drop)]
pub(crate) enum Cell<'a> {
    Text(&'a str),
    Id(StoreId),
    Number(u128),
    Moment(Moment),
}

// The result of writing at the end of a text.
pub(crate) type Pushed = Result<(), AllocError>;

// Whether a cell with this octet stands in quotes.
fn needs_quotes(octet: u8) -> bool
    ensures { result ≡ needs_byte default_writer octet }
{
    matches!(octet, b',' | b'"' | b'\r' | b'\n')
}

fn is_quoted(cell: &[u8]) -> bool
    ensures { result ≡ list_any (needs_byte default_writer) cell.now }
{
    cell.iter().any(|octet| needs_quotes(*octet))
}

#[tactic(auto, unfolding(csv::specs::Writing::escaped))]
fn push_octet(text: &mut Vec<u8>, octet: u8) -> Pushed
    ensures { OnOk result (text.new.items ≡ text.old.items ++ escaped default_writer (octet ∷ [])) }
{
    if octet == b'"' {
        text.push(b'"')?;
    }
    text.push(octet)?;
    Ok(())
}

// Writes a text with each quote twice.
fn push_escaped(text: &mut Vec<u8>, cell: &[u8]) -> Pushed
    ensures { OnOk result (text.new.items ≡ text.old.items ++ escaped default_writer cell.now) }
{
    for octet in cell {
        push_octet(text, *octet)?;
    }
    Ok(())
}

fn push_quoted(text: &mut Vec<u8>, cell: &[u8]) -> Pushed
    ensures { OnOk result (text.new.items ≡ text.old.items ++ quoted default_writer cell.now) }
{
    text.push(b'"')?;
    push_escaped(text, cell)?;
    text.push(b'"')?;
    Ok(())
}

fn push_text(text: &mut Vec<u8>, cell: &[u8]) -> Pushed
    ensures { OnOk result (text.new.items ≡ text.old.items ++ field_text default_writer cell.now) }
{
    if is_quoted(cell) {
        push_quoted(text, cell)
    } else {
        text.extend_from_slice(cell)
    }
}

fn push_number(text: &mut Vec<u8>, number: u128) -> Pushed
    ensures { OnOk result (text.new.items ≡ text.old.items ++ field_text default_writer (decimal number)) }
{
    let mut buffer = Buffer::new();
    push_text(text, buffer.format(number).as_bytes())
}

fn push_moment(alloc: Global, text: &mut Vec<u8>, moment: Moment) -> Pushed
    ensures { OnOk result (text.new.items ≡ text.old.items ++ field_text default_writer (utc_text moment)) }
{
    let mut cell = Vec::new(alloc);
    moment.push(&mut cell)?;
    push_text(text, &cell)
}

impl Cell<'_> {
    fn push(&self, alloc: Global, text: &mut Vec<u8>) -> Pushed
        ensures { OnOk result (text.new.items ≡ text.old.items ++ field_text default_writer (cell_text self.now)) }
    {
        match self {
            Cell::Text(cell) => push_text(text, cell.as_bytes()),
            Cell::Id(id) => push_text(text, id.text()),
            Cell::Number(number) => push_number(text, *number),
            Cell::Moment(moment) => push_moment(alloc, text, *moment),
        }
    }
}

// Writes the cell at a place of its line.
fn push_cell(alloc: Global, text: &mut Vec<u8>, place: usize, cell: &Cell<'_>) -> Pushed
    ensures { OnOk result (text.new.items ≡ text.old.items
        ++ next_sep default_writer place ++ field_text default_writer (cell_text cell.now)) }
{
    if place > 0 {
        text.push(b',')?;
    }
    cell.push(alloc, text)
}

// Writes the first cells of a line.
fn push_first(alloc: Global, text: &mut Vec<u8>, cells: &[Cell<'_>]) -> Pushed
    ensures { OnOk result (text.new.items ≡ text.old.items ++ row_body default_writer (map cell_text cells.now)) }
{
    for (place, cell) in cells.iter().enumerate() {
        push_cell(alloc, text, place, cell)?;
    }
    Ok(())
}

fn push_next(alloc: Global, text: &mut Vec<u8>, cell: &Cell<'_>) -> Pushed
    ensures { OnOk result (text.new.items ≡ text.old.items ++ 44 ∷ field_text default_writer (cell_text cell.now)) }
{
    text.push(b',')?;
    cell.push(alloc, text)
}

// Writes cells after others of their line.
fn push_more(alloc: Global, text: &mut Vec<u8>, cells: &[Cell<'_>]) -> Pushed
    ensures { OnOk result (text.new.items ≡ text.old.items ++ fields_text default_writer (map cell_text cells.now)) }
{
    for cell in cells {
        push_next(alloc, text, cell)?;
    }
    Ok(())
}

// Writes a line of these cells, of which there are several, and of more after them.
pub(crate) fn push_line(
    alloc: Global,
    text: &mut Vec<u8>,
    cells: &[Cell<'_>],
    more: &[Cell<'_>],
) -> Pushed
    requires { 2 ≤ length cells.now }
    ensures { OnOk result (text.new.items
        ≡ text.old.items ++ csv_line (map cell_text cells.now ++ map cell_text more.now)) }
{
    push_first(alloc, text, cells)?;
    push_more(alloc, text, more)?;
    text.push(b'\n')?;
    Ok(())
}
