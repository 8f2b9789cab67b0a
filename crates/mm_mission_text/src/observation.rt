//! Observations, which fill packet stores.
ghost use Rattle.std.specs.Prelude.{[]};
ghost use Rattle.mm_base.specs.Reading.{Gives};
ghost use Rattle.mm_mission_text.specs.Rows.{seen};
ghost use Rattle.mm_mission_text.specs.Entries.{observation_columns, observation_needed, observation_in};
ghost use Rattle.mm_mission_text.specs.Entries.{observations_in};
ghost use Rattle.mm_mission_text.specs.Entries.{arrival_of};
ghost use Rattle.mm_mission_text.specs.declared.column.Column.TheVariants as column;
ghost use Rattle.mm_mission_text.specs.declared.fault.Fault.TheVariants.{NoMemory};

use crate::column::Column;
use crate::fault::{Fault, Why};
use crate::header::Table;
use crate::row::Row;
use crate::table::{Entry, entries};
use crate::text::Text;
use mm_base::StoreId;
use mm_utc::{Moment, Rate, Volume};
use std::alloc::Global;

/// What arrives in a store during an observation, evenly.
#[derive(Clone, Copy, Debug, PartialEq, Eq)]
pub enum Arrival {
    Rate(Rate),
    /// All of it.
    Volume(Volume),
}

/// What arrives in a store from a moment to a later one.
#[derive(Debug, Drop)]
pub struct Observation {
    pub store: StoreId,
    pub begin: Moment,
    pub end: Moment,
    pub arrival: Arrival,
    pub name: Option<Text>,
}

static COLUMNS: [Column; 6] = [
    Column::Store,
    Column::Begin,
    Column::End,
    Column::Rate,
    Column::Volume,
    Column::Name,
];

static NEEDED: [Column; 3] = [Column::Store, Column::Begin, Column::End];

// What arrives, by a rate or a volume, of which there is one.
fn arrival_of(row: usize, rate: Option<Rate>, volume: Option<Volume>) -> Result<Arrival, Fault>
    ensures { Gives NoMemory (λ arrival. arrival) result (arrival_of row rate volume) }
{
    match (rate, volume) {
        (Some(rate), None) => Ok(Arrival::Rate(rate)),
        (None, Some(volume)) => Ok(Arrival::Volume(volume)),
        (None, None) => Err(Fault::Cell {
            row,
            column: Column::Rate,
            why: Why::Missing,
        }),
        (Some(_), Some(_)) => Err(Fault::Cell {
            row,
            column: Column::Volume,
            why: Why::BesideRate,
        }),
    }
}

impl Entry for Observation {
    ghost known = { observation_columns };

    ghost needed = { observation_needed };

    ghost array = { column.Observation };

    ghost file = { column.Observations };

    ghost others = { [] };

    ghost entry_in = { observation_in };

    fn table() -> Table {
        Table {
            known: &COLUMNS,
            needed: &NEEDED,
            array: Column::Observation,
            file: Column::Observations,
            others: &[],
        }
    }

    #[tactic(auto, unfolding(crate::specs::Entries::observation_in))]
    fn in_row(alloc: Global, row: &Row<'_>) -> Result<Observation, Fault> {
        let store = row.needed(alloc, Column::Store)?;
        let (begin, end) = row.span(alloc)?;
        let rate = row.optional(alloc, Column::Rate)?;
        let volume = row.optional(alloc, Column::Volume)?;
        let arrival = arrival_of(row.number, rate, volume)?;
        let name = row.optional(alloc, Column::Name)?;
        Ok(Observation {
            store,
            begin,
            end,
            arrival,
            name,
        })
    }
}

/// The observations in a table (CSV), or its first fault: in the header, and then row by row.
pub fn observations(alloc: Global, text: &[u8]) -> Result<Vec<Observation>, Fault>
    ensures { Gives NoMemory (λ observations. observations.items) result (observations_in text.now) }
{
    entries(alloc, text)
}
