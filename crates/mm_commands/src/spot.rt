//! Where in its file a fault is, for people, and where in the sources or the links of a run.
ghost use Rattle.std.specs.Prelude.{◌≡◌};
ghost use Rattle.mm_commands.specs.Spots.{spot_in_script};

use mm_problem::Name;
use mm_told::Spot;
use std::fmt;

/// Where in its file a fault is, as people read it after the name of the file.
#[derive(Clone, Copy)]
pub(crate) struct InFile(pub(crate) Spot);

impl fmt::Display for InFile {
    fn fmt<W: fmt::Write>(&self, f: &mut fmt::Formatter<W>) -> fmt::Result {
        match self.0 {
            Spot::Whole => Ok(()),
            Spot::Line(line) => write!(f, ", line {line}"),
            Spot::Row(row) => write!(f, ", row {row}"),
            Spot::Cell { row, column } => write!(f, ", row {row}, column {column}"),
            Spot::Key { row: 0, name } => write!(f, ", at the top, {}", said(name)),
            Spot::Key { row, name } => match array_of(name) {
                Some(array) => write!(f, ", table {row} of {array}, {name}"),
                None => write!(f, ", table {row}, {}", said(name)),
            },
            Spot::Number(name) => write!(f, ", {name}"),
        }
    }
}

// The array of the setup whose tables have this key; none for a key that tables of several arrays have, or that names
// no one key.
fn array_of(name: Name) -> Option<Name> {
    match name {
        Name::Id | Name::Size | Name::Type | Name::Start => Some(Name::Store),
        Name::Apid | Name::Service | Name::Subtype => Some(Name::Route),
        Name::Blocks => Some(Name::Limit),
        _ => None,
    }
}

// A name as people read it: `unknown` and `repeated` are no keys.
fn said(name: Name) -> &'static str {
    match name {
        Name::Unknown => "a key that cannot be there",
        Name::Repeated => "a table that comes twice",
        key => key.text(),
    }
}

/// Where in the sources or the links a fault is.
pub(crate) fn spot_in_script(fault: mm_run::ScriptFault) -> Spot
    ensures { result ≡ spot_in_script fault }
{
    match fault {
        mm_run::ScriptFault::SourcesText { line } | mm_run::ScriptFault::LinksText { line } => {
            Spot::Line(line)
        }
        mm_run::ScriptFault::NoMemory => Spot::Whole,
    }
}
