//! A refusal with its place, as it crosses to C.
ghost use Rattle.std.specs.Prelude.{◌≡◌, Some};
ghost use Rattle.mm_told.specs.Codes.{code_of_name};
ghost use Rattle.mm_told.specs.RefusedAts.{bare, told_of, spot_told, reason_told};

use crate::codes::{Place, code_of_name, name_coded, place_coded, refusal_numbered};
use crate::reason::Reason;
use crate::spot::Spot;
use mm_problem::Name;

/// A refusal with its place. `place` is the code of a `Place`, and says which of the further fields say something; the
/// others are 0. Lines, rows and columns count from 1, row 0 is the top of the setup, and `name` is the place of a name
/// in `NAMES`.
#[repr(C)]
#[derive(Clone, Copy)]
pub struct RefusedAt {
    /// The refusal's number.
    pub number: u32,
    pub place: u32,
    pub row: u32,
    pub column: u32,
    pub line: u64,
    pub name: u32,
}

impl RefusedAt {
    fn bare(number: u32, place: Place) -> RefusedAt
        ensures { result ≡ bare number place }
    {
        RefusedAt {
            number,
            place: place.code(),
            row: 0,
            column: 0,
            line: 0,
            name: 0,
        }
    }

    fn named(number: u32, place: Place, row: u32, name: Name) -> RefusedAt
        ensures { result ≡ record (bare number place) { row = row; name = code_of_name name } }
    {
        RefusedAt {
            row,
            name: code_of_name(name),
            ..RefusedAt::bare(number, place)
        }
    }

    /// What is told where nothing is refused: each field is 0.
    #[must_use]
    pub fn nothing() -> RefusedAt
        ensures { result ≡ bare 0 Place.Whole }
    {
        RefusedAt::bare(0, Place::Whole)
    }

    /// What is told of a reason. The reason is read back from it.
    #[must_use]
    pub fn of(reason: Reason) -> RefusedAt
        ensures told { result ≡ told_of reason }
        ensures read_back { reason_told result ≡ Some reason }
    {
        RefusedAt::told_of(reason)
    }

    fn told_of(reason: Reason) -> RefusedAt
        ensures { result ≡ told_of reason }
    {
        let number = u32::from(reason.refusal.number());
        match reason.spot {
            Spot::Whole => RefusedAt::bare(number, Place::Whole),
            Spot::Line(line) => RefusedAt {
                line,
                ..RefusedAt::bare(number, Place::Line)
            },
            Spot::Row(row) => RefusedAt {
                row,
                ..RefusedAt::bare(number, Place::Row)
            },
            Spot::Cell { row, column } => RefusedAt {
                row,
                column,
                ..RefusedAt::bare(number, Place::Cell)
            },
            Spot::Key { row, name } => RefusedAt::named(number, Place::Key, row, name),
            Spot::Number(name) => RefusedAt::named(number, Place::Number, 0, name),
        }
    }

    // Where the fault is, if the codes are those of a place and a name.
    fn spot(&self) -> Option<Spot>
        ensures { result ≡ spot_told self.now }
    {
        match place_coded(self.place)? {
            Place::Whole => Some(Spot::Whole),
            Place::Line => Some(Spot::Line(self.line)),
            Place::Row => Some(Spot::Row(self.row)),
            Place::Cell => Some(Spot::Cell {
                row: self.row,
                column: self.column,
            }),
            Place::Key => Some(Spot::Key {
                row: self.row,
                name: name_coded(self.name)?,
            }),
            Place::Number => Some(Spot::Number(name_coded(self.name)?)),
        }
    }

    /// The reason that is told, if the codes are those of one.
    #[must_use]
    pub fn reason(&self) -> Option<Reason>
        ensures { result ≡ reason_told self.now }
    {
        Some(Reason {
            refusal: refusal_numbered(self.number)?,
            spot: self.spot()?,
        })
    }
}
