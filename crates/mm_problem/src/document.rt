//! The document of a setup: its arrays of tables, and when the arrivals of a step come.
ghost use Rattle.std.specs.Prelude.{OnOk};
ghost use Rattle.std.specs.Option.{ok_or};
ghost use Rattle.toml.specs.Parse.{parse_document};
ghost use Rattle.toml.specs.View.{table_view, view};
ghost use Rattle.mm_problem.specs.Arrays.{lists_of};
ghost use Rattle.mm_problem.specs.Document.{text_of, document_of, lists_at, stores_counted, limits_counted, counts_of};
ghost use Rattle.mm_problem.specs.Document.{AreCounted, come_of, come_from, come_at};
ghost use Rattle.mm_problem.specs.declared.fault.Fault.TheVariants.{NoMemory, SetupText};
ghost use Rattle.mm_base.specs.Reading.{Gives};

use crate::come::Arrivals;
use crate::fault::{Fault, Name};
use crate::keys::{array_at, array_if_any, has_only, value_at};
use crate::reading::test;
use mm_base::{CHANNELS, MAX_ROUTES, MAX_STORES};
use std::alloc::Global;
use toml::{Table, Value};

// The elements of the arrays of a document, and when the arrivals of a step come.
#[derive(Clone, Copy)]
pub(crate) struct Arrays<'a> {
    pub(crate) stores: &'a [Value],
    pub(crate) routes: &'a [Value],
    pub(crate) limits: &'a [Value],
    pub(crate) come: Arrivals,
}

// The bytes as a text.
#[tactic(auto, using(crate::proofs::TomlViews::is_utf8_decides))]
fn text_of(octets: &[u8]) -> Result<&str, Fault>
    ensures { Gives NoMemory (λ s. s.now) result (text_of octets.now) }
{
    match std::str::from_utf8(octets) {
        Ok(text) => Ok(text),
        Err(_) => Err(Fault::SetupText),
    }
}

fn parsed(alloc: Global, text: &str) -> Result<Table, Fault>
    ensures { Gives NoMemory (λ t. table_view t) result (ok_or (parse_document text.now) SetupText) }
{
    match toml::table_from_str(alloc, text) {
        Ok(document) => Ok(document),
        Err(error) => Err(if error.is_memory() {
            Fault::NoMemory
        } else {
            Fault::SetupText
        }),
    }
}

// The document that the bytes spell.
#[tactic(auto, unfolding(crate::specs::Document::document_of))]
pub(crate) fn document_of(alloc: Global, octets: &[u8]) -> Result<Table, Fault>
    ensures { Gives NoMemory (λ t. table_view t) result (document_of octets.now) }
{
    let text = text_of(octets)?;
    parsed(alloc, text)
}

// When arrivals come, by a word.
fn come_of(word: &str) -> Result<Arrivals, Fault>
    ensures { Gives NoMemory (λ come. come) result (come_of word.now) }
{
    if word == Arrivals::Before.word() {
        Ok(Arrivals::Before)
    } else if word == Arrivals::During.word() {
        Ok(Arrivals::During)
    } else {
        Err(Fault::SetupField {
            row: 0,
            name: Name::Arrivals,
        })
    }
}

// When arrivals come, by a value that is a word.
#[tactic(auto, unfolding(crate::specs::Document::come_from))]
fn come_from(value: &Value) -> Result<Arrivals, Fault>
    ensures { Gives NoMemory (λ come. come) result (come_from (view value.now)) }
{
    let word = value.as_str().ok_or(Fault::SetupField {
        row: 0,
        name: Name::Arrivals,
    })?;
    come_of(word)
}

// When arrivals come, by the key of the document; before dumps, if the key is missing.
fn come_at(document: &Table) -> Result<Arrivals, Fault>
    ensures { Gives NoMemory (λ come. come) result (come_at (table_view document.now)) }
{
    match value_at(Name::Arrivals, document) {
        Some(value) => come_from(value),
        None => Ok(Arrivals::Before),
    }
}

// The values at the keys of a document.
#[tactic(auto, unfolding(crate::specs::Document::lists_at))]
pub(crate) fn arrays_at(document: &Table) -> Result<Arrays<'_>, Fault>
    ensures { Gives NoMemory lists_of result (lists_at (table_view document.now)) }
{
    let names = [Name::Store, Name::Route, Name::Limit, Name::Arrivals];
    test(
        has_only(&names, document),
        Fault::SetupField {
            row: 0,
            name: Name::Unknown,
        },
    )?;
    let stores = array_at(Name::Store, document)?;
    let routes = array_if_any(Name::Route, document)?;
    let limits = array_if_any(Name::Limit, document)?;
    let come = come_at(document)?;
    Ok(Arrays {
        stores,
        routes,
        limits,
        come,
    })
}

// Tests the number of stores.
pub(crate) fn test_store_count(stores: usize) -> Result<(), Fault>
    ensures { Gives NoMemory (λ x. x) result (stores_counted stores) }
{
    test(
        1 <= stores && stores <= MAX_STORES,
        Fault::Limit { name: Name::Stores },
    )
}

// Tests the number of limits.
pub(crate) fn test_limit_count(limits: usize) -> Result<(), Fault>
    ensures { Gives NoMemory (λ x. x) result (limits_counted limits) }
{
    test(limits <= CHANNELS, Fault::Limit { name: Name::Limits })
}

// Tests the numbers of tables.
#[tactic(auto, unfolding(crate::specs::Document::counts_of))]
pub(crate) fn test_counts(arrays: Arrays<'_>) -> Result<(), Fault>
    ensures counts { Gives NoMemory (λ x. x) result (counts_of (lists_of arrays.entry)) }
    ensures counted { OnOk result (AreCounted (lists_of arrays.entry)) }
{
    test_store_count(arrays.stores.len())?;
    test(
        arrays.routes.len() <= MAX_ROUTES,
        Fault::Limit { name: Name::Routes },
    )?;
    test_limit_count(arrays.limits.len())
}
