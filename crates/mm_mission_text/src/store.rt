//! Packet stores.
ghost use Rattle.std.specs.Prelude.{[]};
ghost use Rattle.mm_base.specs.Reading.{Gives};
ghost use Rattle.mm_mission_text.specs.Entries.{store_columns, store_needed, store_in, stores_in};
ghost use Rattle.mm_mission_text.specs.declared.column.Column.TheVariants as column;
ghost use Rattle.mm_mission_text.specs.declared.fault.Fault.TheVariants.{NoMemory};

use crate::column::Column;
use crate::fault::Fault;
use crate::header::Table;
use crate::row::Row;
use crate::table::{Entry, entries};
use mm_base::{Kind, StoreId};
use mm_utc::{Fraction, Measure, Volume};
use std::alloc::Global;

/// A packet store: its size, what it holds as the mission begins, and the octets of its packets, if they are others
/// than the mission's.
#[derive(Clone, Copy, Debug, PartialEq, Eq)]
pub struct PacketStore {
    pub id: StoreId,
    pub size: Volume,
    pub kind: Kind,
    pub channel: u8,
    pub holds: Volume,
    pub packet: Option<u16>,
}

static COLUMNS: [Column; 6] = [
    Column::Id,
    Column::Size,
    Column::Type,
    Column::Channel,
    Column::Holds,
    Column::Packet,
];

static NEEDED: [Column; 2] = [Column::Id, Column::Size];

impl Entry for PacketStore {
    ghost known = { store_columns };

    ghost needed = { store_needed };

    ghost array = { column.Store };

    ghost file = { column.Stores };

    ghost others = { [] };

    ghost entry_in = { store_in };

    fn table() -> Table {
        Table {
            known: &COLUMNS,
            needed: &NEEDED,
            array: Column::Store,
            file: Column::Stores,
            others: &[],
        }
    }

    #[tactic(auto, unfolding(crate::specs::Entries::store_in))]
    fn in_row(alloc: Global, row: &Row<'_>) -> Result<PacketStore, Fault> {
        let id = row.needed(alloc, Column::Id)?;
        let size = row.needed(alloc, Column::Size)?;
        let kind = row.optional(alloc, Column::Type)?;
        let channel: Option<u8> = row.optional(alloc, Column::Channel)?;
        let holds = row.optional(alloc, Column::Holds)?;
        let packet = row.optional(alloc, Column::Packet)?;
        let nothing = Volume {
            amount: Fraction { above: 0, below: 1 },
            measure: Measure::Octets,
        };
        Ok(PacketStore {
            id,
            size,
            kind: kind.unwrap_or(Kind::Bounded),
            channel: channel.unwrap_or(0),
            holds: holds.unwrap_or(nothing),
            packet,
        })
    }
}

/// The packet stores in a table (CSV), or its first fault: in the header, and then row by row.
pub fn stores(alloc: Global, text: &[u8]) -> Result<Vec<PacketStore>, Fault>
    ensures { Gives NoMemory (λ stores. stores.items) result (stores_in text.now) }
{
    entries(alloc, text)
}
