//! The values at the keys of a setup's tables.
ghost use Rattle.std.specs.Prelude.{◌≡◌, ◌≤◌, IfOk, option_map, map, string_bytes};
ghost use Rattle.std.specs.BTreeMap.{keys};
ghost use Rattle.std.specs.List.{list_all};
ghost use Rattle.toml.specs.Data.{get_member};
ghost use Rattle.toml.specs.View.{view, table_view};
ghost use Rattle.mm_problem.specs.Keys.{is_named, has_only, value_at, text_at, integer_at, within, number_at};
ghost use Rattle.mm_problem.specs.Keys.{elements_of, array_at, array_if_any};
ghost use Rattle.mm_problem.specs.declared.fault.Fault.TheVariants.{NoMemory};
ghost use Rattle.mm_base.specs.Reading.{Gives};

use crate::fault::{Fault, Name};
use toml::{Table, Value};

fn is_named(names: &[Name], key: &str) -> bool
    ensures { result ≡ is_named names.now key.now }
{
    names.iter().any(|name| name.text() == key)
}

fn are_named(names: &[Name], table: &Table) -> bool
    ensures { result ≡ list_all (λ key. is_named names.now (string_bytes key)) (keys table.now) }
{
    table.keys().all(|key| is_named(names, key.as_str()))
}

// Whether a table has no keys but these names.
#[tactic(auto, using(crate::proofs::TomlViews::has_only_by_map))]
pub(crate) fn has_only(names: &[Name], table: &Table) -> bool
    ensures { result ≡ has_only names.now (table_view table.now) }
{
    are_named(names, table)
}

#[tactic(auto, using(toml::proofs::Views::table_get))]
fn entry<'a>(key: &str, table: &'a Table) -> Option<&'a Value>
    ensures { option_map (λ v. view v.now) result ≡ get_member key.now (table_view table.now) }
{
    table.get(key)
}

// The value at a key.
pub(crate) fn value_at(name: Name, table: &Table) -> Option<&Value>
    ensures { option_map (λ v. view v.now) result ≡ value_at name (table_view table.now) }
{
    entry(name.text(), table)
}

// The text at a key of the table in this row.
pub(crate) fn text_at(row: u32, name: Name, table: &Table) -> Result<&str, Fault>
    ensures { Gives NoMemory (λ s. s.now) result (text_at row name (table_view table.now)) }
{
    let text = value_at(name, table).and_then(|value| value.as_str());
    text.ok_or(Fault::SetupField { row, name })
}

fn integer_at(row: u32, name: Name, table: &Table) -> Result<i64, Fault>
    ensures { Gives NoMemory (λ z. z) result (integer_at row name (table_view table.now)) }
{
    let number = value_at(name, table).and_then(|value| value.as_integer());
    number.ok_or(Fault::SetupField { row, name })
}

// A whole number within its range.
pub(crate) fn within(low: u32, high: u32, name: Name, number: i64) -> Result<u32, Fault>
    ensures { Gives NoMemory (λ n. n) result (within low high name number) }
{
    if i64::from(low) <= number && number <= i64::from(high) {
        Ok(number as u32)
    } else {
        Err(Fault::Limit { name })
    }
}

// The whole number at a key, within its range.
#[tactic(auto, unfolding(crate::specs::Keys::number_at))]
pub(crate) fn number_at(
    row: u32,
    name: Name,
    low: u32,
    high: u32,
    table: &Table,
) -> Result<u32, Fault>
    ensures number { Gives NoMemory (λ n. n) result (number_at row name low high (table_view table.now)) }
    ensures most { IfOk result (λ n. n ≤ high) }
{
    let number = integer_at(row, name, table)?;
    within(low, high, name, number)
}

// The elements of the array at a key of the document.
#[tactic(auto, using(crate::proofs::TomlViews::elements_by_vec))]
pub(crate) fn array_at(name: Name, document: &Table) -> Result<&[Value], Fault>
    ensures { Gives NoMemory (λ vs. map view vs.now) result (array_at name (table_view document.now)) }
{
    match value_at(name, document) {
        Some(value) => elements_of(name, value),
        None => Err(Fault::SetupField { row: 0, name }),
    }
}

// The same for a key that may be missing.
pub(crate) fn array_if_any(name: Name, document: &Table) -> Result<&[Value], Fault>
    ensures { Gives NoMemory (λ vs. map view vs.now) result (array_if_any name (table_view document.now)) }
{
    match value_at(name, document) {
        Some(value) => elements_of(name, value),
        None => Ok(&[]),
    }
}

// The elements of a value that is an array.
#[tactic(auto, using(crate::proofs::TomlViews::elements_by_vec))]
fn elements_of(name: Name, value: &Value) -> Result<&[Value], Fault>
    ensures { Gives NoMemory (λ vs. map view vs.now) result (elements_of name (view value.now)) }
{
    match value.as_array() {
        Some(values) => Ok(values.as_slice()),
        None => Err(Fault::SetupField { row: 0, name }),
    }
}
