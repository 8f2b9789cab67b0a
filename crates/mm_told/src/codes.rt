//! The codes by which refusals, names and places cross to C: each is the place of an entry in a table.
ghost use Rattle.std.specs.Prelude.{◌≡◌, slice_get};
ghost use Rattle.mm_told.specs.Codes.{code_of_name, code_of_place};

use crate::table::refusals;
use mm_base::Refusal;
use mm_problem::Name;

/// What is told of the place of a fault: which fields of `RefusedAt` say something.
#[derive(Clone, Copy)]
pub enum Place {
    /// None of them.
    Whole,
    /// `line`.
    Line,
    /// `row`.
    Row,
    /// `row` and `column`.
    Cell,
    /// `row` and `name`.
    Key,
    /// `name`.
    Number,
}

// The variants of these names.
macro_rules! variants {
    ($of:ident: $($variant:ident),+) => { [$($of::$variant),+] };
}

/// The places by their codes.
pub static PLACES: [Place; 6] = variants! { Place: Whole, Line, Row, Cell, Key, Number };

/// The names by their codes.
pub static NAMES: [Name; 20] = variants! {
    Name: Store, Route, Limit, Stores, Routes, Limits, Unknown, Repeated, Id, Size, Type, Channel, Start, Apid, Service,
    Subtype, Blocks, Steps, Window, Arrivals
};

// The refusals of the table, without their words.
macro_rules! listed {
    (() $($case:ident: $expected:literal, $advice:literal;)+) => { [$(Refusal::$case),+] };
}

/// The refusals by their numbers.
pub static REFUSALS: [Refusal; 59] = refusals!(listed());

impl Place {
    /// The code of the place.
    #[must_use]
    pub fn code(self) -> u32
        ensures { result ≡ code_of_place self }
    {
        self as u32
    }
}

// The entry of a table with this code.
fn entry<T: Copy>(table: &[T], code: u32) -> Option<T>
    ensures { result ≡ slice_get table.now code }
{
    table.get(code as usize).copied()
}

/// The place with this code.
pub(crate) fn place_coded(code: u32) -> Option<Place>
    ensures { result ≡ slice_get PLACES code }
{
    entry(&PLACES, code)
}

/// The code of a name.
pub(crate) fn code_of_name(name: Name) -> u32
    ensures { result ≡ code_of_name name }
{
    name as u32
}

/// The name with this code.
pub(crate) fn name_coded(code: u32) -> Option<Name>
    ensures { result ≡ slice_get NAMES code }
{
    entry(&NAMES, code)
}

/// The refusal with this number.
#[must_use]
pub fn refusal_numbered(number: u32) -> Option<Refusal>
    ensures { result ≡ slice_get REFUSALS number }
{
    entry(&REFUSALS, number)
}
