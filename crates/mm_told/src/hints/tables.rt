//! The tables of a setup, for hints.

use crate::hints::excerpt::Excerpt;
use mm_problem::Name;
use std::fmt;
use toml::{Table, Value};

/// A table of an array of the setup: the array, its place in it, from 1, and the identifier that it has as a store.
#[derive(Clone, Copy)]
pub struct TableAt {
    pub array: Name,
    pub row: u32,
    pub id: Option<Excerpt>,
}

impl fmt::Display for TableAt {
    fn fmt<W: fmt::Write>(&self, f: &mut fmt::Formatter<W>) -> fmt::Result {
        write!(f, "table {} of {}", self.row, self.array)?;
        match self.id {
            Some(id) => write!(f, ", {id},"),
            None => Ok(()),
        }
    }
}

/// The arrays of a setup, in the order in which they are tested.
pub(crate) static ARRAYS: [Name; 3] = [Name::Store, Name::Route, Name::Limit];

// The keys at the top of a setup.
static TOP: [Name; 4] = [Name::Store, Name::Route, Name::Limit, Name::Arrivals];

/// The keys of the tables of an array, or else those of the top.
pub(crate) fn keys_of(array: Name) -> &'static [Name] {
    match array {
        Name::Store => &[Name::Id, Name::Size, Name::Type, Name::Channel, Name::Start],
        Name::Route => &[Name::Apid, Name::Service, Name::Subtype, Name::Store],
        Name::Limit => &[Name::Channel, Name::Blocks],
        _ => &TOP,
    }
}

/// The elements of an array of the setup.
pub(crate) fn elements(document: &Table, array: Name) -> &[Value] {
    match document.get(array.text()) {
        Some(Value::Array(values)) => values.as_slice(),
        _ => &[],
    }
}

/// The table in this row of an array, from 1.
pub(crate) fn table_in(document: &Table, array: Name, row: u32) -> Option<&Table> {
    let place = (row as usize).checked_sub(1)?;
    elements(document, array).get(place)?.as_table()
}

/// The text at a key.
pub(crate) fn text_at(table: &Table, key: Name) -> Option<&str> {
    table.get(key.text())?.as_str()
}

/// The number at a key.
pub(crate) fn number_at(table: &Table, key: Name) -> Option<i64> {
    table.get(key.text())?.as_integer()
}

/// The keys that a table of an array can have, with one of them first. They are shown as `id, size and start`.
#[derive(Clone, Copy)]
pub struct KeyList {
    array: Name,
    first: Name,
}

impl fmt::Display for KeyList {
    fn fmt<W: fmt::Write>(&self, f: &mut fmt::Formatter<W>) -> fmt::Result {
        let keys = keys_of(self.array);
        let mut left = keys.len();
        write!(f, "{}", self.first)?;
        for key in keys {
            if *key != self.first {
                left = left.saturating_sub(1);
                let before = if left == 1 { " and " } else { ", " };
                write!(f, "{before}{key}")?;
            }
        }
        Ok(())
    }
}

/// How many letters two words have in common before they differ, small or capital.
pub(crate) fn common_front(one: &str, other: &str) -> usize {
    let letters = one.as_bytes().iter().zip(other.as_bytes());
    letters
        .take_while(|(byte, of_other)| byte.eq_ignore_ascii_case(of_other))
        .count()
}

// The keys of an array, the one that begins most like this word first.
fn keys_like(word: &str, array: Name) -> KeyList {
    let mut first = array;
    let mut most = 0;
    for key in keys_of(array) {
        let likeness = common_front(word, key.text()).saturating_add(1);
        if likeness > most {
            first = *key;
            most = likeness;
        }
    }
    KeyList { array, first }
}

/// The first key of a table that no table of the array can have, and those that it can have.
pub(crate) fn unknown_key(table: &Table, array: Name) -> Option<(Excerpt, KeyList)> {
    let key = table
        .keys()
        .find(|key| !is_among(key.as_str(), keys_of(array)))?;
    Some((Excerpt::of(key.as_bytes()), keys_like(key.as_str(), array)))
}

fn is_among(key: &str, keys: &[Name]) -> bool {
    keys.iter().any(|name| name.text() == key)
}

/// What names a table: its array and row, and its identifier if it has one.
pub(crate) fn named(array: Name, row: u32, table: &Table) -> TableAt {
    let id = match text_at(table, Name::Id) {
        Some(id) => Some(Excerpt::of(id.as_bytes())),
        None => None,
    };
    TableAt { array, row, id }
}
