//! The rows of a table.
ghost use Rattle.std.specs.Prelude.{◌≡◌, option_map, position};
ghost use Rattle.mm_base.specs.Reading.{Gives};
ghost use Rattle.mm_mission_text.specs.Rows.{seen, cell_in, optional_in, needed_in, span_in, channels_in};
ghost use Rattle.mm_mission_text.specs.Columns.{is_same};
ghost use Rattle.mm_mission_text.specs.declared.fault.Fault.TheVariants.{NoMemory};

use crate::cell::Cell;
use crate::column::Column;
use crate::fault::{Fault, Why};
use csv::ByteRecord;
use mm_base::CHANNELS;
use mm_utc::{Moment, Rate};
use std::alloc::Global;

// A row of a table with these columns.
#[derive(Clone, Copy)]
pub(crate) struct Row<'a> {
    pub(crate) number: usize,
    pub(crate) columns: &'a [Column],
    pub(crate) cells: &'a ByteRecord,
}

// The place of a column.
fn place_of(columns: &[Column], column: Column) -> Option<usize>
    ensures { result ≡ position (is_same column) columns.now }
{
    columns.iter().position(|other| column.is_same(*other))
}

impl Row<'_> {
    // What is written below a column, if anything is.
    #[tactic(auto, unfolding(crate::specs::Rows::cell_in))]
    fn cell(&self, column: Column) -> Option<&[u8]>
        ensures { option_map (λ text. text.now) result ≡ cell_in (seen self.now) column }
    {
        let place = place_of(self.columns, column)?;
        let cell = self.cells.get(place)?;
        if cell.is_empty() { None } else { Some(cell) }
    }

    // The value below a column, if any is written.
    #[tactic(auto, unfolding(crate::specs::Rows::optional_in))]
    pub(crate) fn optional<C: Cell>(
        &self,
        alloc: Global,
        column: Column,
    ) -> Result<Option<C>, Fault>
        ensures { Gives NoMemory (λ x. x) result (optional_in C.reads (seen self.now) column) }
    {
        let row = self.number;
        match self.cell(column) {
            None => Ok(None),
            Some(text) => match C::of_cell(alloc, text)? {
                Ok(value) => Ok(Some(value)),
                Err(why) => Err(Fault::Cell { row, column, why }),
            },
        }
    }

    // The value below a column, which must be there.
    #[tactic(auto, unfolding(crate::specs::Rows::needed_in))]
    pub(crate) fn needed<C: Cell>(&self, alloc: Global, column: Column) -> Result<C, Fault>
        ensures { Gives NoMemory (λ x. x) result (needed_in C.reads (seen self.now) column) }
    {
        let row = self.number;
        let why = Why::Missing;
        let found = self.optional(alloc, column)?;
        found.ok_or(Fault::Cell { row, column, why })
    }

    // The begin and the later end.
    #[tactic(auto, unfolding(crate::specs::Rows::span_in))]
    pub(crate) fn span(&self, alloc: Global) -> Result<(Moment, Moment), Fault>
        ensures { Gives NoMemory (λ span. span) result (span_in (seen self.now)) }
    {
        let begin = self.needed(alloc, Column::Begin)?;
        let end = self.needed(alloc, Column::End)?;
        if begin < end {
            Ok((begin, end))
        } else {
            Err(Fault::Cell {
                row: self.number,
                column: Column::End,
                why: Why::NotLater,
            })
        }
    }

    // The rates of channels.
    #[tactic(auto, unfolding(crate::specs::Rows::channels_in))]
    pub(crate) fn channels(&self, alloc: Global) -> Result<[Option<Rate>; CHANNELS], Fault>
        ensures { Gives NoMemory (λ rates. rates) result (channels_in (seen self.now)) }
    {
        let rate0 = self.optional(alloc, Column::Channel0)?;
        let rate1 = self.optional(alloc, Column::Channel1)?;
        let rate2 = self.optional(alloc, Column::Channel2)?;
        let rate3 = self.optional(alloc, Column::Channel3)?;
        let rate4 = self.optional(alloc, Column::Channel4)?;
        let rate5 = self.optional(alloc, Column::Channel5)?;
        let rate6 = self.optional(alloc, Column::Channel6)?;
        let rate7 = self.optional(alloc, Column::Channel7)?;
        Ok([rate0, rate1, rate2, rate3, rate4, rate5, rate6, rate7])
    }
}
