//! The rows of a mission: those of its text, and then those of the CSV files that it names.
ghost use Rattle.std.specs.Prelude.{◌≡◌, ℕ, List, Result, option_map};
ghost use Rattle.mm_base.specs.Reading.{Gives};
ghost use Rattle.mm_mission_text.specs.Cells.{told_as};
ghost use Rattle.mm_mission_text.specs.Entries.{stores_in, stations_in, passes_in, observations_in};
ghost use Rattle.mm_mission_text.specs.declared.column.Column.{Column};
ghost use Rattle.mm_mission_text.specs.declared.column.Column.TheVariants as column;
ghost use Rattle.mm_mission_text.specs.declared.fault.Fault as text;
ghost use Rattle.mm_mission_text.specs.declared.fault.Fault.TheVariants as of_table;
ghost use Rattle.mm_mission_plan.specs.Faults.{table_fault};
ghost use Rattle.mm_mission_plan.specs.Rows.{texts_of, seen, said_by, with_rows, rows_in};
ghost use Rattle.mm_mission_plan.specs.declared.fault.Fault.TheVariants.{NoMemory};

use crate::fault::Fault;
use mm_mission_exact::Rows;
use mm_mission_text::{
    Column, Given, MissionText, Observation, PacketStore, Pass, Station, Whole, observations,
    passes, stations, stores,
};
use std::alloc::Global;

/// The texts of the CSV files that a mission names.
#[derive(Clone, Copy, Debug)]
pub struct Tables<'a> {
    pub stores: Option<&'a [u8]>,
    pub stations: Option<&'a [u8]>,
    pub passes: Option<&'a [u8]>,
    pub observations: Option<&'a [u8]>,
}

/// All rows of a mission.
#[derive(Debug, Drop)]
pub struct AllRows {
    pub whole: Whole,
    pub stores: Vec<PacketStore>,
    pub stations: Vec<Station>,
    pub passes: Vec<Pass>,
    pub observations: Vec<Observation>,
}

impl AllRows {
    /// The rows, lent.
    #[must_use]
    pub fn lent(&self) -> Rows<'_>
        ensures { said_by result ≡ seen self.now }
    {
        Rows {
            whole: &self.whole,
            stores: &self.stores,
            stations: &self.stations,
            passes: &self.passes,
            observations: &self.observations,
        }
    }
}

// What is in a row of a table.
trait Listed: Drop {
    ghost file: { Column };

    ghost reads: { List ℕ → Result (List Self) text.Fault };

    // The key that names the file of such rows.
    fn file() -> Column
        ensures { result ≡ file };

    // The rows in a file.
    fn read(alloc: Global, text: &[u8]) -> Result<Vec<Self>, mm_mission_text::Fault>
        ensures { Gives of_table.NoMemory (λ rows. rows.items) result (reads text.now) };
}

impl Listed for PacketStore {
    ghost file = { column.Stores };

    ghost reads = { stores_in };

    fn file() -> Column {
        Column::Stores
    }

    fn read(alloc: Global, text: &[u8]) -> Result<Vec<PacketStore>, mm_mission_text::Fault> {
        stores(alloc, text)
    }
}

impl Listed for Station {
    ghost file = { column.Stations };

    ghost reads = { stations_in };

    fn file() -> Column {
        Column::Stations
    }

    fn read(alloc: Global, text: &[u8]) -> Result<Vec<Station>, mm_mission_text::Fault> {
        stations(alloc, text)
    }
}

impl Listed for Pass {
    ghost file = { column.Passes };

    ghost reads = { passes_in };

    fn file() -> Column {
        Column::Passes
    }

    fn read(alloc: Global, text: &[u8]) -> Result<Vec<Pass>, mm_mission_text::Fault> {
        passes(alloc, text)
    }
}

impl Listed for Observation {
    ghost file = { column.Observations };

    ghost reads = { observations_in };

    fn file() -> Column {
        Column::Observations
    }

    fn read(alloc: Global, text: &[u8]) -> Result<Vec<Observation>, mm_mission_text::Fault> {
        observations(alloc, text)
    }
}

// The fault of a file's text.
fn table_fault(file: Column, fault: mm_mission_text::Fault) -> Fault
    ensures { result ≡ table_fault file fault }
{
    match fault {
        mm_mission_text::Fault::NoMemory => Fault::NoMemory,
        fault => Fault::Table { file, fault },
    }
}

// The rows of a file.
fn file_rows<R: Listed>(alloc: Global, text: &[u8]) -> Result<Vec<R>, Fault>
    ensures { Gives NoMemory (λ rows. rows.items) result (told_as (table_fault R.file) (R.reads text.now)) }
{
    match R::read(alloc, text) {
        Ok(rows) => Ok(rows),
        Err(fault) => Err(table_fault(R::file(), fault)),
    }
}

// The rows of the mission's text, and then those of the file that it names.
fn with_rows<R: Listed>(
    alloc: Global,
    given: Given<R>,
    text: Option<&[u8]>,
) -> Result<Vec<R>, Fault>
    ensures { Gives NoMemory (λ rows. rows.items) result
        (with_rows R.file R.reads given.entries given.file (option_map (λ text. text.now) text.entry)) }
{
    let mut rows = given.entries;
    let file = R::file();
    match (given.file, text) {
        (None, None) => Ok(rows),
        (None, Some(_)) => Err(Fault::NotNamed { file }),
        (Some(_), None) => Err(Fault::NotGiven { file }),
        (Some(_), Some(text)) => {
            let mut more = file_rows(alloc, text)?;
            rows.append(&mut more)?;
            Ok(rows)
        }
    }
}

/// All rows of a mission as its text says it, or the first fault, of the files of stores, stations, passes and
/// observations.
#[tactic(auto, unfolding(crate::specs::Rows::rows_in))]
pub fn all_rows(alloc: Global, said: MissionText, tables: &Tables<'_>) -> Result<AllRows, Fault>
    ensures { Gives NoMemory seen result (rows_in said (texts_of tables.now)) }
{
    let stores = with_rows(alloc, said.stores, tables.stores)?;
    let stations = with_rows(alloc, said.stations, tables.stations)?;
    let passes = with_rows(alloc, said.passes, tables.passes)?;
    let observations = with_rows(alloc, said.observations, tables.observations)?;
    Ok(AllRows {
        whole: said.whole,
        stores,
        stations,
        passes,
        observations,
    })
}
