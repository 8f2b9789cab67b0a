//! The text of a mission in TOML.
ghost use Rattle.toml.specs.View.{table_view};
ghost use Rattle.mm_base.specs.Reading.{Gives};
ghost use Rattle.mm_mission_text.specs.Missions.{whole_at, mission_at, document_of, mission_in};
ghost use Rattle.mm_mission_text.specs.declared.mission_fault.MissionFault.TheVariants.{NoMemory};

use crate::column::Column;
use crate::given::{Given, cells_of, given_in};
use crate::mission_fault::{MissionFault, TomlFault, told};
use crate::observation::Observation;
use crate::pass::Pass;
use crate::row::Row;
use crate::station::Station;
use crate::store::PacketStore;
use crate::whole::Whole;
use std::alloc::Global;
use toml::Table;

/// A mission as its text says it.
#[derive(Debug, Drop)]
pub struct MissionText {
    pub whole: Whole,
    pub stores: Given<PacketStore>,
    pub stations: Given<Station>,
    pub passes: Given<Pass>,
    pub observations: Given<Observation>,
}

static COLUMNS: [Column; 7] = [
    Column::Name,
    Column::Begin,
    Column::End,
    Column::Packet,
    Column::Block,
    Column::Overlap,
    Column::Unit,
];

static OTHERS: [Column; 8] = [
    Column::Store,
    Column::Station,
    Column::Pass,
    Column::Observation,
    Column::Stores,
    Column::Stations,
    Column::Passes,
    Column::Observations,
];

// The document that a text spells.
#[tactic(auto, using(mm_problem::proofs::TomlViews::is_utf8_decides))]
fn document_of(alloc: Global, text: &[u8]) -> Result<Table, MissionFault>
    ensures { Gives NoMemory (λ table. table_view table) result (document_of text.now) }
{
    let Ok(text) = std::str::from_utf8(text) else {
        return Err(MissionFault::NotUtf8);
    };
    match toml::table_from_str(alloc, text) {
        Ok(document) => Ok(document),
        Err(error) if error.is_memory() => Err(MissionFault::NoMemory),
        Err(error) => Err(MissionFault::NotToml(TomlFault::new(text, error))),
    }
}

// What a document says of the mission as a whole.
#[tactic(auto, unfolding(crate::specs::Missions::whole_at), using(crate::proofs::TextTables::told_gives))]
fn whole_at(alloc: Global, document: &Table) -> Result<Whole, MissionFault>
    ensures { Gives NoMemory (λ whole. whole) result (whole_at (table_view document.now)) }
{
    let cells = cells_of(alloc, None, 0, &COLUMNS, &OTHERS, document)?;
    let row = Row {
        number: 0,
        columns: &COLUMNS,
        cells: &cells,
    };
    told(None, Whole::in_row(alloc, &row))
}

// The mission of a document.
#[tactic(auto, unfolding(crate::specs::Missions::mission_at))]
fn mission_at(alloc: Global, document: &Table) -> Result<MissionText, MissionFault>
    ensures { Gives NoMemory (λ mission. mission) result (mission_at (table_view document.now)) }
{
    let whole = whole_at(alloc, document)?;
    let stores = given_in(alloc, document)?;
    let stations = given_in(alloc, document)?;
    let passes = given_in(alloc, document)?;
    let observations = given_in(alloc, document)?;
    Ok(MissionText {
        whole,
        stores,
        stations,
        passes,
        observations,
    })
}

/// The mission that a text in TOML says, or its first fault: a key at the top that is none, then what is said of the
/// mission as a whole, and then stores, stations, passes and observations. In each table a key that is none comes
/// first, then the values that are no cells, and then the cells, by the columns in the order of the README.
#[tactic(auto, unfolding(crate::specs::Missions::mission_in))]
pub fn mission(alloc: Global, text: &[u8]) -> Result<MissionText, MissionFault>
    ensures { Gives NoMemory (λ mission. mission) result (mission_in text.now) }
{
    let document = document_of(alloc, text)?;
    mission_at(alloc, &document)
}
