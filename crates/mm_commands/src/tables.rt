//! The tables that a mission names, which lie beside it.
ghost use Rattle.std.specs.Prelude.{◌≡◌, IfOk, IfErr, option_map, string_bytes};
ghost use Rattle.mm_files.specs.Contents.{WereRead};
ghost use Rattle.mm_mission_plan.specs.Rows.{texts_of};
ghost use Rattle.mm_commands.specs.Missions.{beside, folder_of};
ghost use Rattle.mm_commands.specs.Reading.{IsUnread};
ghost use Rattle.mm_commands.specs.Tables.{AreNames, given_texts, names_at, readings_at};

use crate::fault::Fault;
use crate::texts::read_two;
use mm_base::NoMemory;
use mm_files::Files;
use mm_mission_plan::Tables;
use mm_mission_text::{MissionText, Text};
use std::alloc::Global;

/// The names of a mission's tables; none for a table that it does not name.
#[derive(Drop)]
pub(crate) struct TableNames {
    pub(crate) stores: Option<String>,
    pub(crate) stations: Option<String>,
    pub(crate) passes: Option<String>,
    pub(crate) observations: Option<String>,
}

/// The bytes of a mission's tables; none for a table that it does not name.
#[derive(Drop)]
pub(crate) struct MissionTables {
    pub(crate) stores: Vec<u8>,
    pub(crate) stations: Vec<u8>,
    pub(crate) passes: Vec<u8>,
    pub(crate) observations: Vec<u8>,
}

/// A mission's tables: their names, and what was read of them.
#[derive(Clone, Copy)]
pub(crate) struct ReadTables<'t> {
    pub(crate) names: &'t TableNames,
    pub(crate) texts: &'t MissionTables,
}

// The folder of a file, with a `/` at its end; nothing for a name without one.
fn folder_of(alloc: Global, name: &str) -> Result<String, NoMemory>
    ensures { IfOk result (λ folder. string_bytes folder ≡ folder_of name.now) }
{
    let Some((front, _)) = name.rsplit_once('/') else {
        return Ok(String::new(alloc));
    };
    let mut folder = String::from_str(alloc, front)?;
    folder.push_str("/")?;
    Ok(folder)
}

// The name of a table's file.
fn beside(alloc: Global, mission: &str, table: &str) -> Result<String, NoMemory>
    ensures { IfOk result (λ name. string_bytes name ≡ beside mission.now table.now) }
{
    if table.starts_with("/") {
        return Ok(String::from_str(alloc, table)?);
    }
    let mut name = folder_of(alloc, mission)?;
    name.push_str(table)?;
    Ok(name)
}

// The name of a table's file, if the mission names one.
fn named(alloc: Global, mission: &str, table: &Option<Text>) -> Result<Option<String>, NoMemory>
    ensures { IfOk result (λ name. option_map string_bytes name ≡ option_map (beside mission.now) table.now) }
{
    match table {
        Some(table) => Ok(Some(beside(alloc, mission, table.as_str())?)),
        None => Ok(None),
    }
}

// The name, lent.
fn lent(name: &Option<String>) -> Option<&str>
    ensures { option_map (λ name. name.now) result ≡ option_map string_bytes name.now }
{
    match name {
        Some(name) => Some(name.as_str()),
        None => None,
    }
}

// The text of a table that is named.
fn given<'t>(name: &Option<String>, text: &'t [u8]) -> Option<&'t [u8]>
    ensures { option_map (λ text. text.now) result ≡ option_map (λ _. text.entry.now) name.now }
{
    match name {
        Some(_) => Some(text),
        None => None,
    }
}

impl TableNames {
    /// The names of the tables of the mission that a file of this name says.
    pub(crate) fn of(
        alloc: Global,
        mission: &str,
        said: &MissionText,
    ) -> Result<TableNames, NoMemory>
        ensures { IfOk result (AreNames mission.now said.now) }
    {
        Ok(TableNames {
            stores: named(alloc, mission, &said.stores.file)?,
            stations: named(alloc, mission, &said.stations.file)?,
            passes: named(alloc, mission, &said.passes.file)?,
            observations: named(alloc, mission, &said.observations.file)?,
        })
    }
}

impl MissionTables {
    /// Reads the tables of these names, one after another.
    pub(crate) fn read<'a, F: Files>(
        alloc: Global,
        files: &mut F,
        names: &'a TableNames,
    ) -> Result<MissionTables, Fault<'a>>
        ensures read { IfOk result (λ texts. WereRead (F.content files.old) (F.readings files.old)
            (F.readings files.new) (readings_at names.now texts)) }
        ensures unread { IfErr result (IsUnread (F.content files.old) (F.readings files.old) (F.readings files.new)
            (names_at names.now)) }
        ensures stays { F.content files.new ≡ F.content files.old }
    {
        let (stores, stations) = read_two(
            alloc,
            files,
            lent(&names.stores),
            lent(&names.stations),
        )?;
        let (passes, observations) = read_two(
            alloc,
            files,
            lent(&names.passes),
            lent(&names.observations),
        )?;
        Ok(MissionTables {
            stores,
            stations,
            passes,
            observations,
        })
    }
}

impl<'t> ReadTables<'t> {
    /// The texts of the tables that are named.
    pub(crate) fn given(self) -> Tables<'t>
        ensures { texts_of result ≡ given_texts self.entry.names.now self.entry.texts.now }
    {
        let ReadTables { names, texts } = self;
        Tables {
            stores: given(&names.stores, &texts.stores),
            stations: given(&names.stations, &texts.stations),
            passes: given(&names.passes, &texts.passes),
            observations: given(&names.observations, &texts.observations),
        }
    }
}
