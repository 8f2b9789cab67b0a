//! Ground stations.
ghost use Rattle.std.specs.Prelude.{[], ◌∷◌};
ghost use Rattle.mm_base.specs.Reading.{Gives};
ghost use Rattle.mm_mission_text.specs.Entries.{station_columns, station_needed, station_in, stations_in};
ghost use Rattle.mm_mission_text.specs.declared.column.Column.TheVariants as column;
ghost use Rattle.mm_mission_text.specs.declared.fault.Fault.TheVariants.{NoMemory};

use crate::column::Column;
use crate::fault::Fault;
use crate::header::Table;
use crate::row::Row;
use crate::table::{Entry, entries};
use crate::text::Text;
use mm_base::CHANNELS;
use mm_utc::Rate;
use std::alloc::Global;

/// A ground station, with the rate of its passes and those of their channels, if a pass has none of its own.
#[derive(Debug, Drop)]
pub struct Station {
    pub name: Text,
    pub rate: Option<Rate>,
    pub channels: [Option<Rate>; CHANNELS],
}

static COLUMNS: [Column; 10] = [
    Column::Name,
    Column::Rate,
    Column::Channel0,
    Column::Channel1,
    Column::Channel2,
    Column::Channel3,
    Column::Channel4,
    Column::Channel5,
    Column::Channel6,
    Column::Channel7,
];

static NEEDED: [Column; 1] = [Column::Name];

static OTHERS: [Column; 1] = [Column::Channels];

impl Entry for Station {
    ghost known = { station_columns };

    ghost needed = { station_needed };

    ghost array = { column.Station };

    ghost file = { column.Stations };

    ghost others = { column.Channels ∷ [] };

    ghost entry_in = { station_in };

    fn table() -> Table {
        Table {
            known: &COLUMNS,
            needed: &NEEDED,
            array: Column::Station,
            file: Column::Stations,
            others: &OTHERS,
        }
    }

    #[tactic(auto, unfolding(crate::specs::Entries::station_in))]
    fn in_row(alloc: Global, row: &Row<'_>) -> Result<Station, Fault> {
        let name = row.needed(alloc, Column::Name)?;
        let rate = row.optional(alloc, Column::Rate)?;
        let channels = row.channels(alloc)?;
        Ok(Station {
            name,
            rate,
            channels,
        })
    }
}

/// The ground stations in a table (CSV), or its first fault: in the header, and then row by row.
pub fn stations(alloc: Global, text: &[u8]) -> Result<Vec<Station>, Fault>
    ensures { Gives NoMemory (λ stations. stations.items) result (stations_in text.now) }
{
    entries(alloc, text)
}
