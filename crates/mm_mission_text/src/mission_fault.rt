//! Why the text of a mission is refused.
ghost use Rattle.std.specs.Prelude.{◌≡◌};
ghost use Rattle.mm_mission_text.specs.Cells.{told_as};
ghost use Rattle.mm_mission_text.specs.Told.{told};

use crate::column::Column;
use crate::fault::Fault;
use crate::text::Text;
use mm_base::NoMemory;
use std::alloc::AllocFailed;
use std::fmt;
use std::marker::Model;
use toml::de;

/// Where and why a text is no document in TOML. Contracts don't see it.
#[derive(Debug, Drop)]
pub struct TomlFault {
    line: usize,
    error: de::Error,
}

impl Model for TomlFault {
    ghost use Rattle.std.specs.Prelude.{⊤};

    ghost Value = { ⊤ };

    ghost view = { λ _. tt };
}

impl TomlFault {
    // The error of a text.
    pub(crate) fn new(text: &str, error: de::Error) -> TomlFault {
        let before = match error.span() {
            Some(span) => text.as_bytes().get(..span.start).unwrap_or_default(),
            None => &[],
        };
        let line = 1 + before.iter().filter(|byte| **byte == b'\n').count();
        TomlFault { line, error }
    }

    /// The line, which counts from 1.
    #[must_use]
    pub fn line(&self) -> usize {
        self.line
    }
}

impl fmt::Display for TomlFault {
    fn fmt<W: fmt::Write>(&self, f: &mut fmt::Formatter<W>) -> fmt::Result {
        write!(f, "line {}: {}", self.line, self.error.message())
    }
}

/// Why the text of a mission is refused: its first fault. Tables of an array count from 1; what has no table stands at
/// the top of the text, in row 0.
#[derive(Debug, Drop)]
pub enum MissionFault {
    NoMemory,
    NotUtf8,
    NotToml(TomlFault),
    /// No such key.
    UnknownKey {
        table: Option<Column>,
        row: usize,
        key: Text,
    },
    /// A key of tables that has something else.
    NotTables {
        table: Column,
    },
    /// A key of a file's name that has something else than a text.
    NotFile {
        key: Column,
    },
    /// What a table or the top of the text has at a key.
    In {
        table: Option<Column>,
        fault: Fault,
    },
}

impl fmt::Display for MissionFault {
    fn fmt<W: fmt::Write>(&self, f: &mut fmt::Formatter<W>) -> fmt::Result {
        match self {
            MissionFault::NoMemory => f.write_str("an allocation was refused"),
            MissionFault::NotUtf8 => f.write_str("not a text in UTF-8"),
            MissionFault::NotToml(fault) => write!(f, "{fault}"),
            MissionFault::UnknownKey {
                table: None,
                key,
                ..
            } => write!(f, "no such key: {key}"),
            MissionFault::UnknownKey {
                table: Some(table),
                row,
                key,
            } => write!(f, "{table} {row}: no such key: {key}"),
            MissionFault::NotTables { table } => {
                write!(f, "{table}: not tables, each below [[{table}]]")
            }
            MissionFault::NotFile { key } => write!(
                f,
                "{key}: not the name of a CSV file in quotes"
            ),
            MissionFault::In {
                table: None,
                fault: Fault::Cell { column, why, .. },
            } => write!(f, "{column}: {why}"),
            MissionFault::In {
                table: Some(table),
                fault: Fault::Cell { row, column, why },
            } => write!(f, "{table} {row}, {column}: {why}"),
            MissionFault::In { fault, .. } => write!(f, "{fault}"),
        }
    }
}

impl std::error::Error for MissionFault {}

// The fault of a table's row.
fn told_fault(table: Option<Column>, fault: Fault) -> MissionFault
    ensures { result ≡ told table fault }
{
    match fault {
        Fault::NoMemory => MissionFault::NoMemory,
        fault => MissionFault::In { table, fault },
    }
}

// What was read in a table's row.
pub(crate) fn told<T: Drop>(
    table: Option<Column>,
    found: Result<T, Fault>,
) -> Result<T, MissionFault>
    ensures { result ≡ told_as (told table) found }
{
    match found {
        Ok(value) => Ok(value),
        Err(fault) => Err(told_fault(table, fault)),
    }
}

impl From<NoMemory> for MissionFault {
    ghost use Rattle.std.specs.Prelude.{◌≡◌};
    ghost use Rattle.mm_mission_text.specs.declared.mission_fault.MissionFault.TheVariants.{NoMemory};

    ghost from_gives = { λ _ e. e ≡ NoMemory };

    fn from(_error: NoMemory) -> MissionFault {
        MissionFault::NoMemory
    }
}

impl<T: Drop> From<AllocFailed<T>> for MissionFault {
    ghost use Rattle.std.specs.Prelude.{◌≡◌};
    ghost use Rattle.mm_mission_text.specs.declared.mission_fault.MissionFault.TheVariants.{NoMemory};

    ghost from_gives = { λ _ e. e ≡ NoMemory };

    fn from(_error: AllocFailed<T>) -> MissionFault {
        MissionFault::NoMemory
    }
}
