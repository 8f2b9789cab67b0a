//! Records and cells of a forecast, for hints: a record is a line that is not empty.
ghost use Rattle.std.specs.Prelude.{◌<◌, ◌+◌, length, IfSome};
ghost use Rattle.std.specs.Iterator.{at_most};
ghost use Rattle.std.specs.Option.{option_map_or};

use crate::hints::lines::{Lines, after_mark, without_return};
use mm_base::MAX_BLOCKS;
use mm_base::numbers::Numeral;

/// A record of a forecast: its row, from 1, where the header is row 0; the number of its line, from 1; and its text.
#[derive(Clone, Copy)]
pub(crate) struct Record<'a> {
    pub(crate) row: u32,
    pub(crate) line: u64,
    pub(crate) text: &'a [u8],
}

/// Which record is looked for.
#[derive(Clone, Copy)]
pub(crate) enum Wanted {
    /// The one in this row.
    Row(u32),
    /// The first with another number of cells than this, after the header.
    Uneven { cells: usize },
    /// The first with a number above 1,000,000.
    TooLarge,
    /// The first in whose line a quoted cell is left open.
    Open,
}

// Whether a quoted cell goes on in the next line.
fn is_open(line: &[u8]) -> bool {
    line.iter().filter(|byte| **byte == b'"').count() % 2 == 1
}

// The text up to the first comma outside quotes, and what follows it.
fn cut_cell(text: &[u8]) -> Option<(&[u8], &[u8])>
    ensures shorter { IfSome result (λ parts. length parts.1.now < length text.now) }
{
    let mut is_quoted = false;
    for (i, byte) in text.iter().enumerate() {
        if *byte == b'"' {
            is_quoted = !is_quoted;
        } else if *byte == b',' && !is_quoted {
            return Some((&text[..i], &text[i + 1..]));
        }
    }
    None
}

/// A cell without the quotes around it.
pub(crate) fn unquoted(cell: &[u8]) -> &[u8] {
    match cell {
        [b'"', inner @ .., b'"'] => inner,
        _ => cell,
    }
}

fn is_too_large(cell: &[u8]) -> bool {
    matches!(
        Numeral::read(unquoted(cell), u64::from(MAX_BLOCKS)),
        Numeral::TooLarge
    )
}

// The cells of a record, in order: those of the text that is left, if any is.
#[derive(Drop)]
pub(crate) struct Cells<'a>(Option<&'a [u8]>);

impl<'a> Iterator for Cells<'a> {
    type Item = &'a [u8];

    ghost remaining = { λ s. at_most (option_map_or (λ text. length text.now + 1) s.0 0) };

    fn next(&mut self) -> Option<&'a [u8]> {
        let text = self.0?;
        if let Some((cell, after)) = cut_cell(text) {
            self.0 = Some(after);
            Some(cell)
        } else {
            self.0 = None;
            Some(text)
        }
    }
}

impl<'a> Record<'a> {
    /// The cells, in order.
    pub(crate) fn each(&self) -> Cells<'a> {
        Cells(Some(self.text))
    }

    /// How many cells the record has.
    pub(crate) fn cells(&self) -> usize {
        self.each().count()
    }

    /// The cell in this column, from 1.
    pub(crate) fn cell(&self, column: u32) -> Option<&'a [u8]> {
        self.each().nth((column as usize).saturating_sub(1))
    }

    /// The column, from 1, of the first cell with a number above 1,000,000.
    pub(crate) fn too_large(&self) -> Option<u32> {
        let place = self.each().position(|cell| is_too_large(cell))?;
        u32::try_from(place.saturating_add(1)).ok()
    }

    // Whether this is a record that is looked for.
    fn is_wanted(&self, wanted: Wanted) -> bool {
        match wanted {
            Wanted::Row(row) => self.row == row,
            Wanted::Uneven { cells } => self.row > 0 && self.cells() != cells,
            Wanted::TooLarge => self.row > 0 && self.too_large().is_some(),
            Wanted::Open => is_open(self.text),
        }
    }
}

/// The record that is looked for; none where one up to it does not stand in a line of its own.
pub(crate) fn record_in(text: &[u8], wanted: Wanted) -> Option<Record<'_>> {
    let mut row: u32 = 0;
    for (place, line) in Lines(after_mark(text)).enumerate() {
        let front = without_return(line);
        let is_alone = !is_open(front) || matches!(wanted, Wanted::Open);
        if !is_alone || front.contains(&b'\r') {
            return None;
        }
        if !front.is_empty() {
            let record = Record {
                row,
                line: (place as u64).saturating_add(1),
                text: front,
            };
            if record.is_wanted(wanted) {
                return Some(record);
            }
            row = row.saturating_add(1);
        }
    }
    None
}

/// How many records come after the header.
pub(crate) fn rows_in(text: &[u8]) -> u64 {
    let records = Lines(after_mark(text)).filter(|line| !without_return(line).is_empty());
    (records.count() as u64).saturating_sub(1)
}
