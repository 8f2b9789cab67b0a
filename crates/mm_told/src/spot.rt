//! Where in its text a fault is.
ghost use Rattle.std.specs.Prelude.{◌≡◌, ◌+◌, ◌++◌, ◌≤◌, Some, codes, decimal, length};
ghost use Rattle.arrayvec.specs.ArrayString.{array_string_len};
ghost use Rattle.mm_problem.specs.Name.{text_of};
ghost use Rattle.mm_told.specs.Spots.{spot_in_problem, spot_in_plan, spot_in_texts, fields_text};

use arrayvec::ArrayString;
use itoa::Buffer;
use mm_problem::Name;
use std::fmt;

/// As many bytes as the fields of a spot have at most.
pub(crate) const FIELDS_ROOM: usize = 64;

/// Where in its text a fault is. It is shown as the fields of a refusal's line, after its number and its name.
#[derive(Clone, Copy)]
pub enum Spot {
    /// Nowhere, or no one place.
    Whole,
    /// A line of a text, from 1.
    Line(u64),
    /// A record of the forecast, from 1.
    Row(u32),
    /// A cell of a record, both from 1.
    Cell { row: u32, column: u32 },
    /// A key of a table of the setup, of which an array may have several; they are counted from 1, and 0 is the top of
    /// the setup.
    Key { row: u32, name: Name },
    /// A number, or how many there are of something.
    Number(Name),
}

// Appends a word and a number.
#[tactic(auto, using(std::proofs::Common::append_assoc))]
fn push_number(text: &mut ArrayString<FIELDS_ROOM>, word: &str, number: u64)
    requires room { array_string_len text.old + length word.now + 20 ≤ FIELDS_ROOM }
    ensures number { text.new.bytes ≡ text.old.bytes ++ word.now ++ decimal number }
    ensures long { array_string_len text.new ≤ array_string_len text.old + length word.now + 20 }
{
    let mut buffer = Buffer::new();
    text.push_str(word);
    text.push_str(buffer.format(number));
}

// Appends a name.
#[tactic(auto, using(crate::proofs::WordLengths::key_fits, std::proofs::Common::append_assoc))]
fn push_name(text: &mut ArrayString<FIELDS_ROOM>, name: Name)
    requires room { array_string_len text.old + 16 ≤ FIELDS_ROOM }
    ensures name { text.new.bytes ≡ text.old.bytes ++ codes " name " ++ text_of name }
{
    text.push_str(" name ");
    text.push_str(name.text());
}

impl Spot {
    /// The fields of a refusal's line. They take no memory.
    #[tactic(auto, using(std::proofs::Common::append_assoc))]
    pub(crate) fn fields(self) -> ArrayString<FIELDS_ROOM>
        ensures fields { result.bytes ≡ fields_text self }
        ensures fit { array_string_len result ≤ FIELDS_ROOM }
    {
        let mut text = ArrayString::new();
        match self {
            Spot::Whole => {}
            Spot::Line(line) => push_number(&mut text, " line ", line),
            Spot::Row(row) => push_number(&mut text, " row ", u64::from(row)),
            Spot::Cell { row, column } => {
                push_number(&mut text, " row ", u64::from(row));
                push_number(&mut text, " column ", u64::from(column));
            }
            Spot::Key { row, name } => {
                push_number(&mut text, " row ", u64::from(row));
                push_name(&mut text, name);
            }
            Spot::Number(name) => push_name(&mut text, name),
        }
        text
    }
}

impl fmt::Display for Spot {
    ghost output = { λ spot. Some (fields_text spot) };

    fn fmt<W: fmt::Write>(&self, f: &mut fmt::Formatter<W>) -> fmt::Result {
        f.write_str(self.fields().as_str())
    }
}

/// Where in the setup or the forecast a fault is.
#[must_use]
pub fn spot_in_problem(fault: mm_problem::Fault) -> Spot
    ensures { result ≡ spot_in_problem fault }
{
    match fault {
        mm_problem::Fault::SetupField { row, name } => Spot::Key { row, name },
        mm_problem::Fault::Cell { row, column } => Spot::Cell { row, column },
        mm_problem::Fault::StepNumber { row } => Spot::Row(row),
        mm_problem::Fault::Limit { name } => Spot::Number(name),
        _ => Spot::Whole,
    }
}

/// Where in a plan text a fault is.
#[must_use]
pub fn spot_in_plan(fault: mm_plan::Fault) -> Spot
    ensures { result ≡ spot_in_plan fault }
{
    match fault {
        mm_plan::Fault::PlanText { line } => Spot::Line(u64::from(line)),
        _ => Spot::Whole,
    }
}

/// Where in the setup, the forecast or the plan text a fault is.
#[must_use]
pub fn spot_in_texts(fault: mm_cut::Fault) -> Spot
    ensures { result ≡ spot_in_texts fault }
{
    match fault {
        mm_cut::Fault::NoMemory => Spot::Whole,
        mm_cut::Fault::Problem(fault) => spot_in_problem(fault),
        mm_cut::Fault::Plan(fault) => spot_in_plan(fault),
    }
}
