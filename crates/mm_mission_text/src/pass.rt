//! Passes over ground stations.
ghost use Rattle.std.specs.Prelude.{[], ◌∷◌};
ghost use Rattle.mm_base.specs.Reading.{Gives};
ghost use Rattle.mm_mission_text.specs.Entries.{pass_columns, pass_needed, pass_in, passes_in};
ghost use Rattle.mm_mission_text.specs.declared.column.Column.TheVariants as column;
ghost use Rattle.mm_mission_text.specs.declared.fault.Fault.TheVariants.{NoMemory};

use crate::column::Column;
use crate::fault::{Fault, Why};
use crate::header::Table;
use crate::row::Row;
use crate::table::{Entry, entries};
use crate::text::Text;
use mm_base::CHANNELS;
use mm_utc::{Moment, Rate};
use std::alloc::Global;

/// A pass over a station. A rate that is `None` is the station's, and that of a channel may be the pass's.
#[derive(Debug, Drop)]
pub struct Pass {
    pub station: Text,
    pub begin: Moment,
    pub end: Moment,
    pub rate: Option<Rate>,
    pub channels: [Option<Rate>; CHANNELS],
    pub name: Option<Text>,
}

static COLUMNS: [Column; 13] = [
    Column::Station,
    Column::Begin,
    Column::End,
    Column::Rate,
    Column::Channel0,
    Column::Channel1,
    Column::Channel2,
    Column::Channel3,
    Column::Channel4,
    Column::Channel5,
    Column::Channel6,
    Column::Channel7,
    Column::Name,
];

static NEEDED: [Column; 3] = [Column::Station, Column::Begin, Column::End];

static OTHERS: [Column; 1] = [Column::Channels];

impl Entry for Pass {
    ghost known = { pass_columns };

    ghost needed = { pass_needed };

    ghost array = { column.Pass };

    ghost file = { column.Passes };

    ghost others = { column.Channels ∷ [] };

    ghost entry_in = { pass_in };

    fn table() -> Table {
        Table {
            known: &COLUMNS,
            needed: &NEEDED,
            array: Column::Pass,
            file: Column::Passes,
            others: &OTHERS,
        }
    }

    #[tactic(auto, unfolding(crate::specs::Entries::pass_in))]
    fn in_row(alloc: Global, row: &Row<'_>) -> Result<Pass, Fault> {
        let station = row.needed(alloc, Column::Station)?;
        let (begin, end) = row.span(alloc)?;
        let rate = row.optional(alloc, Column::Rate)?;
        let channels = row.channels(alloc)?;
        let name = row.optional(alloc, Column::Name)?;
        Ok(Pass {
            station,
            begin,
            end,
            rate,
            channels,
            name,
        })
    }
}

/// The passes in a table (CSV), or its first fault: in the header, and then row by row.
pub fn passes(alloc: Global, text: &[u8]) -> Result<Vec<Pass>, Fault>
    ensures { Gives NoMemory (λ passes. passes.items) result (passes_in text.now) }
{
    entries(alloc, text)
}
