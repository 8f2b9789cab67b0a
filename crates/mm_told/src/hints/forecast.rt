//! Hints on a forecast. Lines are counted as an editor does, so the header is line 1.

use crate::hints::Texts;
use crate::hints::cells::{Record, Wanted, record_in, rows_in, unquoted};
use crate::hints::excerpt::Excerpt;
use crate::hints::form::utf16_hint;
use crate::hints::kind::{TextKind, misplaced};
use crate::hints::lines::after_mark;
use crate::hints::sentence::{Sentence, Shown};
use crate::reason::Reason;
use crate::spot::Spot;
use mm_base::numbers::Numeral;
use mm_base::{MAX_CHANNEL, NoMemory, Refusal};
use mm_problem::{Fault, Name, Setup};
use std::alloc::Global;

// The name that a column of the header is to have, up to the last store.
fn wanted_name(setup: &Setup, column: usize) -> Option<&[u8]> {
    match column {
        1 => Some(b"step"),
        2 => Some(b"window"),
        _ => {
            let place = column.checked_sub(3)?;
            Some(setup.stores().get(place)?.id.text())
        }
    }
}

// The header that the stores of a setup want.
fn wanted_header(setup: &Setup) -> Excerpt {
    let mut wanted = Excerpt::of(b"step,window");
    for row in setup.stores() {
        wanted.push(b",");
        wanted.push(row.id.text());
    }
    wanted
}

// The channel of a column of limits.
fn channel_of(name: &[u8]) -> Option<u64> {
    match Numeral::read(name.strip_prefix(b"limit:")?, u64::from(MAX_CHANNEL)) {
        Numeral::Number(channel) => Some(channel),
        _ => None,
    }
}

// The place, from 0, of the store of a column of sizes.
fn sized_place(setup: &Setup, name: &[u8]) -> Option<usize> {
    let id = name.strip_prefix(b"size:")?;
    setup.stores().iter().position(|row| row.id.text() == id)
}

// The identifiers of the stores of a setup.
fn ids_of(setup: &Setup) -> Excerpt {
    let mut ids = Excerpt::new();
    let mut before: &[u8] = b"";
    for row in setup.stores() {
        ids.push(before);
        ids.push(row.id.text());
        before = b", ";
    }
    ids
}

// Which columns can come next after those of the stores: limits of the channels from this one on, none where a column
// of sizes came before, and sizes of the stores from this place on.
#[derive(Clone, Copy)]
struct NextColumns {
    channel: Option<u64>,
    store: usize,
}

impl NextColumns {
    // What can come after a column with this name.
    fn after(self, setup: &Setup, name: &[u8]) -> NextColumns {
        match (channel_of(name), sized_place(setup, name)) {
            (Some(channel), _) => NextColumns {
                channel: Some(channel.saturating_add(1)),
                ..self
            },
            (None, Some(place)) => NextColumns {
                channel: None,
                store: place.saturating_add(1),
            },
            (None, None) => self,
        }
    }

    // What is found in a column of sizes.
    fn size_hint(self, setup: &Setup, column: u64, name: &[u8]) -> Option<Sentence> {
        let shown = Excerpt::of(name);
        match sized_place(setup, name) {
            Some(place) if self.store <= place => None,
            Some(_) => found! {
                "column {} of the header is {}; columns size: come in the setup's order, one for a store";
                Count(column), Text(shown)
            },
            None => found! {
                "column {} of the header is {}; the stores of the setup are {}";
                Count(column), Text(shown), Bare(ids_of(setup))
            },
        }
    }

    // What is found in a column.
    fn hint(self, setup: &Setup, column: u64, name: &[u8]) -> Option<Sentence> {
        if name.starts_with(b"size:") {
            return self.size_hint(setup, column, name);
        }
        let shown = Excerpt::of(name);
        match (channel_of(name), self.channel) {
            (Some(channel), Some(low)) if low <= channel => None,
            (Some(_), None) => found! {
                "column {} of the header is {}; columns limit: come before columns size:";
                Count(column), Text(shown)
            },
            _ => found! {
                "column {} of the header is {}; after the stores can be limit:0 to limit:7, rising, and then size: \
                    with stores";
                Count(column), Text(shown)
            },
        }
    }
}

// What is found in a column of the header.
fn column_hint(setup: &Setup, column: usize, name: &[u8], later: NextColumns) -> Option<Sentence> {
    match wanted_name(setup, column) {
        Some(wanted) if wanted == name => None,
        Some(wanted) => found! {
            "column {} of the header is {}, and {} is expected";
            Count(column as u64), Text(Excerpt::of(name)), Text(Excerpt::of(wanted))
        },
        None => later.hint(setup, column as u64, name),
    }
}

// What is found in the first column of the header that is another than is wanted.
fn columns_hint(setup: &Setup, header: &Record<'_>) -> Option<Sentence> {
    let mut later = NextColumns {
        channel: Some(0),
        store: 0,
    };
    let mut column: usize = 0;
    for cell in header.each() {
        let name = unquoted(cell);
        column = column.saturating_add(1);
        tell!(column_hint(setup, column, name, later));
        later = later.after(setup, name);
    }
    let column = column.saturating_add(1);
    found! {
        "the header has no column {}; {} is expected there";
        Count(column as u64), Text(Excerpt::of(wanted_name(setup, column)?))
    }
}

// What is found in the header of a forecast whose cells are separated by something other than commas.
fn separator_hint(header: &Record<'_>) -> Option<Sentence> {
    let line = header.text;
    if line.starts_with(b"sep=") {
        return found! {
            "line {} is {}, which a spreadsheet wrote; delete it, so that the header is line 1";
            Count(header.line), Text(Excerpt::of(line))
        };
    }
    if line.contains(&b',') {
        None
    } else if line.contains(&b';') {
        found!("semicolons separate the cells; save the file with commas")
    } else if line.contains(&b'\t') {
        found!("tabs separate the cells; save the file with commas")
    } else {
        None
    }
}

fn header_hint(alloc: Global, texts: Texts<'_>) -> Result<Option<Sentence>, NoMemory> {
    let header = record_in(texts.forecast, Wanted::Row(0));
    if let Some(hint) = header.and_then(|header| separator_hint(&header)) {
        return Ok(Some(hint));
    }
    let setup = match Setup::read(alloc, texts.setup) {
        Ok(setup) => setup,
        Err(Fault::NoMemory) => return Err(NoMemory),
        Err(_) => return Ok(None),
    };
    if after_mark(texts.forecast).is_empty() {
        return Ok(found! {
            "the file is empty; its first line is {}; a file to which the output is sent is emptied before it is read";
            Text(wanted_header(&setup))
        });
    }
    Ok(header.and_then(|header| columns_hint(&setup, &header)))
}

fn cells_hint(text: &[u8]) -> Option<Sentence> {
    let wanted = record_in(text, Wanted::Row(0))?.cells();
    let record = record_in(text, Wanted::Uneven { cells: wanted })?;
    found! {
        "row {} is line {} of the file, whose header is line 1; cells: {} there, {} in the header";
        Count(u64::from(record.row)), Count(record.line), Count(record.cells() as u64), Count(wanted as u64)
    }
}

// The name of a column, from 1.
fn name_of(text: &[u8], column: u32) -> Option<Excerpt> {
    let header = record_in(text, Wanted::Row(0))?;
    Some(Excerpt::of(unquoted(header.cell(column)?)))
}

// What is found in a cell that is no number.
fn cell_hint(text: &[u8], row: u32, column: u32) -> Option<Sentence> {
    let record = record_in(text, Wanted::Row(row))?;
    found! {
        "row {} has {} in the column {}, where a whole number is expected; it is line {} of the file, whose header \
            is line 1";
        Count(u64::from(row)), Text(Excerpt::of(record.cell(column)?)), Text(name_of(text, column)?), Count(record.line)
    }
}

// What is found where a record has another number than its own.
fn step_hint(text: &[u8], row: u32) -> Option<Sentence> {
    let record = record_in(text, Wanted::Row(row))?;
    let cell = Excerpt::of(record.cell(1)?);
    found! {
        "the step is {} in line {} of the file, whose header is line 1; it is to be {}";
        Text(cell), Count(record.line), Count(u64::from(row))
    }
}

fn steps_hint(text: &[u8]) -> Sentence {
    let rows = rows_in(text);
    let advice = if rows == 0 {
        "; write one for each step"
    } else {
        "; join steps, such as those between two passes: docs/PLANNING.md, 'Steps from event to event'"
    };
    said!("there are {} records after the header; 1 to 256 can be", advice; Count(rows))
}

// What is found where a number is above 1,000,000.
fn large_hint(text: &[u8]) -> Option<Sentence> {
    let record = record_in(text, Wanted::TooLarge)?;
    let column = record.too_large()?;
    found! {
        "row {} has {} in the column {}, line {} of the file; 0 to 1000000 can be; plan more in coarser units: \
            docs/PLANNING.md, 'Limits of scale'";
        Count(u64::from(record.row)), Text(Excerpt::of(record.cell(column)?)), Text(name_of(text, column)?),
        Count(record.line)
    }
}

fn open_hint(text: &[u8]) -> Option<Sentence> {
    let line = record_in(text, Wanted::Open)?.line;
    found!("line {} of the file has a quote that is not closed; numbers need no quotes"; Count(line))
}

fn in_records(reason: Reason, text: &[u8]) -> Option<Sentence> {
    match (reason.refusal, reason.spot) {
        (Refusal::ForecastText, _) => cells_hint(text),
        (Refusal::Cell, Spot::Cell { row, column }) => cell_hint(text, row, column),
        (Refusal::StepNumber, Spot::Row(row)) => step_hint(text, row),
        (Refusal::Limit, Spot::Number(Name::Steps)) => Some(steps_hint(text)),
        _ => large_hint(text),
    }
}

/// What is found in a forecast that is refused for this reason.
pub(crate) fn forecast_hint(
    alloc: Global,
    reason: Reason,
    texts: Texts<'_>,
) -> Result<Option<Sentence>, NoMemory> {
    let text = texts.forecast;
    if let Some(hint) = utf16_hint(text).or(misplaced(text, TextKind::Forecast)) {
        return Ok(Some(hint));
    }
    let hint = match reason.refusal {
        Refusal::Header => header_hint(alloc, texts)?,
        _ => in_records(reason, text),
    };
    match hint {
        None => Ok(open_hint(text)),
        hint => Ok(hint),
    }
}
