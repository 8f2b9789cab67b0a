//! Hints on a setup.

use crate::hints::assigned::{Assigned, has_text, written_at};
use crate::hints::excerpt::Excerpt;
use crate::hints::form::utf16_hint;
use crate::hints::kind::{TextKind, misplaced};
use crate::hints::lines::{Lines, after_mark, cut_at, line_at, line_of, without_return};
use crate::hints::sentence::{Sentence, Shown};
use crate::hints::tables::{
    ARRAYS, common_front, elements, keys_of, named, number_at, table_in, text_at, unknown_key,
};
use crate::spot::Spot;
use mm_base::{
    CHANNELS, Kind, MAX_APID, MAX_BLOCKS, MAX_CHANNEL, MAX_ROUTES, MAX_STORES, NoMemory, StoreId,
};
use mm_problem::Name;
use std::alloc::Global;
use toml::{Table, Value};

// The array whose name a line has in single brackets, perhaps before a full stop and another name.
fn single_table(line: &[u8]) -> Option<Name> {
    let name = line.trim_ascii().strip_prefix(b"[")?.strip_suffix(b"]")?;
    let name = match cut_at(name, b'.') {
        Some((name, _)) => name,
        None => name,
    };
    ARRAYS
        .iter()
        .copied()
        .find(|array| array.text().as_bytes() == name)
}

// The first line that has the name of an array in single brackets.
fn single_hint(text: &[u8]) -> Option<Sentence> {
    for (place, line) in Lines(after_mark(text)).enumerate() {
        if let Some(array) = single_table(line) {
            let number = (place as u64).saturating_add(1);
            return found! {
                "line {} is {}; write [[{}]] above each table";
                Count(number), Text(Excerpt::of(without_return(line))), Name(array)
            };
        }
    }
    None
}

// Why a text is not TOML: how the reader of TOML begins to say it, how the text goes on at the place, and what is said.
// In the text `9` is any digit, and 0x80 any byte beyond ASCII. The first row that fits is told.
static FAULTS: [(&str, &[u8], &str); 17] = table! {
    "", b"\x80", "write straight quotes and plain spaces, which are ASCII";
    "", b"//", "a comment begins with #";
    "", b",9", "numbers have no commas";
    "", b",", "no comma ends a line";
    "", b"]", "write [[ before the name of an array and ]] after it";
    "unclosed", b"", "write [[ before the name of an array and ]] after it";
    "duplicate key", b"", "the name comes twice in its table; leave one out, or begin another table above it";
    "number out of range", b"", "the number is too large";
    "invalid value", b"09", "numbers have no leading zero";
    "invalid value", b"9", "a whole number has digits alone";
    "`_`", b"9", "a whole number has digits alone";
    "invalid value", b"", "a value is a number in digits, or a text in quotes";
    "invalid string", b"", "a text has a quote at each end";
    "key with no value", b"", "write = between a key and its value";
    "unexpected key", b"", "write each key in a line of its own";
    "cannot recurse", b"", "keys and lists are nested too deeply";
    "", b"", "a setup has lines KEY = VALUE below [[store]], [[route]] and [[limit]]";
};

// Whether a text begins so.
fn begins(text: &[u8], front: &[u8]) -> bool {
    let goes_so = |byte: &u8, wanted: &u8| match *wanted {
        b'9' => byte.is_ascii_digit(),
        0x80 => !byte.is_ascii(),
        wanted => *byte == wanted,
    };
    text.len() >= front.len()
        && text
            .iter()
            .zip(front)
            .all(|(byte, wanted)| goes_so(byte, wanted))
}

// What is said of this fault at the front of this text.
fn said_of(fault: &str, text: &[u8]) -> &'static str {
    for (wanted, front, said) in &FAULTS {
        if fault.starts_with(wanted) && begins(text, front) {
            return said;
        }
    }
    ""
}

// The last line, up to one of this number, that begins a list, a table or a long text which does not end up to there.
fn open_line(text: &[u8], number: u64) -> Option<(u64, &[u8])> {
    let mut open: Option<(u64, &[u8], &[u8])> = None;
    for (place, line) in Lines(after_mark(text)).take(number as usize).enumerate() {
        let here = (place as u64).saturating_add(1);
        if let Some((_, _, end)) = open {
            if here < number && has_text(line, end) {
                open = None;
            }
        }
        if let Some(end) = Assigned::of(line).and_then(|line| line.open_end()) {
            open = Some((here, line, end));
        }
    }
    let (number, line, _) = open?;
    Some((number, line))
}

// What is found where a value goes on after its line.
fn open_hint(text: &[u8], number: u64) -> Option<Sentence> {
    let (number, line) = open_line(text, number)?;
    found! {
        "line {} is {}, which does not end what it begins; a value is a number in digits, or a text in quotes";
        Count(number), Text(Excerpt::of(without_return(line)))
    }
}

// Whether what follows a whole number is told apart: commas, further keys, comments and leading zeros.
fn is_told_apart(line: &Assigned<'_>, rest: &[u8]) -> bool {
    let has_zero = line.value.starts_with(b"0") && line.value.len() > rest.len().saturating_add(1);
    has_zero
        || matches!(rest, [] | [b',' | b'_', ..])
        || rest.contains(&b'=')
        || rest.trim_ascii().starts_with(b"//")
}

// What is found in a line KEY = VALUE, whose key is no word, or whose number has more than digits, or whose text has a
// backslash.
fn assigned_hint(number: u64, line: &[u8]) -> Option<Sentence> {
    let shown = Excerpt::of(without_return(line));
    let line = Assigned::of(line)?;
    if line.key.starts_with(b"//") || !line.value.iter().all(|byte| byte.is_ascii()) {
        return None;
    }
    if !line.has_one_word() {
        return found!("line {} is {}; a key is one word, as size"; Count(number), Text(shown));
    }
    if line.value.starts_with(b"\"") && line.value.contains(&b'\\') {
        return found!("line {} is {}; a text has no backslash"; Count(number), Text(shown));
    }
    let rest = line.after_digits()?;
    if is_told_apart(&line, rest) {
        return None;
    }
    found! {
        "line {} is {}; a whole number has digits alone, and {} follows them";
        Count(number), Text(shown), Text(Excerpt::of(rest))
    }
}

// What is found at the place where a text is not TOML.
fn fault_hint(text: &[u8], place: usize, fault: &str) -> Option<Sentence> {
    let rest = text.get(place..)?;
    if fault == "duplicate key" && rest.starts_with(b"[") {
        tell!(single_hint(text));
    }
    let number = line_of(text, place);
    tell!(open_hint(text, number));
    let line = line_at(text, number)?;
    tell!(assigned_hint(number, line));
    let line = Excerpt::of(without_return(line));
    found!("line {} is {}; ", said_of(fault, rest); Count(number), Text(line))
}

// The array whose tables can have this key.
fn array_with(key: Excerpt) -> Option<Name> {
    for array in ARRAYS {
        if keys_of(array)
            .iter()
            .any(|name| key.is(name.text().as_bytes()))
        {
            return Some(array);
        }
    }
    None
}

// What is wrong with a key at the top that cannot be there.
fn unknown_at_top(document: &Table) -> Option<Sentence> {
    let (key, keys) = unknown_key(document, Name::Unknown)?;
    match array_with(key) {
        Some(array) =>
            found!("the key {} stands above every table; write [[{}]] above it"; Text(key), Name(array)),
        None => found!("the key {} is none of {}"; Text(key), Keys(keys)),
    }
}

// What is wrong with the word that says when arrivals come. The word that it is most like is named first.
fn arrivals_hint(value: &Value) -> Option<Sentence> {
    let Some(word) = value.as_str() else {
        return found!("the key arrivals has no text; write \"before\" or \"during\", in quotes");
    };
    let said = if common_front(word, "during") > common_front(word, "before") {
        "\"during\" and \"before\" can be"
    } else {
        "\"before\" and \"during\" can be"
    };
    found!("the key arrivals is {}; ", said; Text(Excerpt::of(word.as_bytes())))
}

// What is wrong at the top of a setup.
fn top_hint(document: &Table, name: Name) -> Option<Sentence> {
    if name == Name::Unknown {
        return unknown_at_top(document);
    }
    match document.get(name.text()) {
        None => found!("there is no table [[{}]]"; Name(name)),
        Some(value) if name == Name::Arrivals => arrivals_hint(value),
        Some(_) =>
            found!("{} is no array of tables; write [[{}]] above each table"; Name(name), Name(name)),
    }
}

// The keys by which no two tables of an array are the same.
fn identity_of(array: Name) -> &'static [Name] {
    match array {
        Name::Store => &[Name::Id],
        Name::Route => keys_of(Name::Route),
        _ => &[Name::Channel],
    }
}

// Whether two tables have the same values at these keys.
fn are_same(one: &Table, other: &Table, keys: &[Name]) -> bool {
    keys.iter().all(|key| text_at(one, *key) == text_at(other, *key)
        && number_at(one, *key) == number_at(other, *key))
}

// Whether a table of an array before this row is the same as this one.
fn is_repeated(document: &Table, array: Name, row: u32, table: &Table) -> bool {
    for earlier in 1..row {
        if let Some(other) = table_in(document, array, earlier) {
            if are_same(table, other, identity_of(array)) {
                return true;
            }
        }
    }
    false
}

// Whether a store of the setup has this identifier.
fn has_store(document: &Table, id: &str) -> bool {
    for store in elements(document, Name::Store) {
        if let Value::Table(table) = store {
            if text_at(table, Name::Id) == Some(id) {
                return true;
            }
        }
    }
    false
}

// Whether it would be an identifier if its letters were capital letters.
fn has_small_letters(id: &str) -> bool {
    let id = id.as_bytes();
    !id.is_empty()
        && id.len() <= 8
        && id.iter().all(|byte| byte.is_ascii_alphanumeric() || b"_-".contains(byte))
}

// What is wrong with an identifier.
fn id_hint(document: &Table, key: Name, id: &str) -> Option<Sentence> {
    let shown = Excerpt::of(id.as_bytes());
    let is_id = StoreId::of_text(id.as_bytes()).is_ok();
    if is_id && key == Name::Store && !has_store(document, id) {
        found!("names the store {}, which no table of store has"; Text(shown))
    } else if is_id {
        None
    } else if has_small_letters(id) {
        found!("has small letters in its {}; write capital letters"; Name(key))
    } else {
        found!("has {} as {}; 1 to 8 of the characters A-Z, 0-9, _ and - can be"; Text(shown), Name(key))
    }
}

// What is wrong with the kind of a store.
fn type_hint(word: &str) -> Option<Sentence> {
    if word == Kind::Circular.word() || word == Kind::Bounded.word() {
        return None;
    }
    found!("has the type {}; \"circular\" and \"bounded\" can be"; Text(Excerpt::of(word.as_bytes())))
}

// What is said of a value of another kind than is expected.
fn kind_said(key: Name, value: &Value) -> Option<&'static str> {
    if matches!(key, Name::Type | Name::Id | Name::Store) {
        Some("a text is expected; write it in quotes")
    } else if value.as_str().is_some() {
        Some("a whole number is expected; write it without quotes")
    } else if value.as_integer().is_none() {
        Some("a whole number is expected; write it in digits alone")
    } else {
        None
    }
}

// What is wrong at a key of a table of an array, whose value is written so in the setup, if it was found there.
fn key_hint(
    document: &Table,
    array: Name,
    key: Name,
    table: &Table,
    written: Option<&[u8]>,
) -> Option<Sentence> {
    if !keys_of(array).contains(&key) {
        return None;
    }
    let Some(value) = table.get(key.text()) else {
        return found!("has no key {}"; Name(key));
    };
    match (key, value.as_str()) {
        (Name::Type, Some(word)) => return type_hint(word),
        (Name::Id | Name::Store, Some(id)) => return id_hint(document, key, id),
        _ => {}
    }
    let said = kind_said(key, value)?;
    match written {
        Some(written) => found!("has {} = {}; ", said; Name(key), Bare(Excerpt::of(written))),
        None => found!("has another value as {}; ", said; Name(key)),
    }
}

// What is said of a table of an array that an earlier one repeats.
fn repeated(array: Name) -> &'static str {
    match array {
        Name::Store => "has the id of an earlier one; rename one of them",
        Name::Route => "is the same as an earlier one; leave one of them out",
        _ => "has the channel of an earlier one; leave one of them out",
    }
}

// What is wrong by this name with a table in this row of an array.
fn in_table(
    document: &Table,
    array: Name,
    row: u32,
    name: Name,
    table: &Table,
    text: &[u8],
) -> Option<Sentence> {
    match name {
        Name::Repeated if is_repeated(document, array, row, table) => found!(repeated(array)),
        Name::Repeated => None,
        Name::Unknown => {
            let (key, keys) = unknown_key(table, array)?;
            if key.is(Name::Arrivals.text().as_bytes()) {
                return found!("has the key {}, which is one of the top; write it above every table"; Text(key));
            }
            found!("has the key {}, which is none of {}"; Text(key), Keys(keys))
        }
        key => key_hint(
            document,
            array,
            key,
            table,
            written_at(text, array, row, key),
        ),
    }
}

// What is wrong by this name with the table in this row of an array, with its name.
fn table_hint(
    document: &Table,
    array: Name,
    row: u32,
    name: Name,
    text: &[u8],
) -> Option<Sentence> {
    let table = table_in(document, array, row)?;
    let hint = in_table(document, array, row, name, table, text)?;
    Some(hint.of_table(named(array, row, table)))
}

// What is found where an array with this name has an element in this row that is no table.
fn element_hint(document: &Table, array: Name, row: u32) -> Option<Sentence> {
    let place = (row as usize).checked_sub(1)?;
    if elements(document, array).get(place)?.as_table().is_some() {
        return None;
    }
    found! {
        "element {} of the list {} is no table; write [[{}]] above each table, and its keys below";
        Count(u64::from(row)), Name(array), Name(array)
    }
}

// What is wrong at a key of a table in this row; 0 is the top.
fn field_hint(document: &Table, row: u32, name: Name, text: &[u8]) -> Option<Sentence> {
    if row == 0 {
        return top_hint(document, name);
    }
    tell!(element_hint(document, name, row));
    for array in ARRAYS {
        tell!(table_hint(document, array, row, name, text));
    }
    None
}

// The least and the greatest number at a key.
fn range_of(table: &Table, key: Name) -> Option<(u32, u32)> {
    Some(match key {
        Name::Size => (1, MAX_BLOCKS),
        Name::Start => (0, u32::try_from(number_at(table, Name::Size)?).ok()?),
        Name::Channel => (0, u32::from(MAX_CHANNEL)),
        Name::Apid => (0, u32::from(MAX_APID)),
        Name::Service | Name::Subtype => (0, 255),
        _ => (0, MAX_BLOCKS),
    })
}

// The number at a key of the table in this row of an array, if it is out of its range.
fn out_of_range(document: &Table, array: Name, row: u32, key: Name) -> Option<Sentence> {
    let table = table_in(document, array, row)?;
    let number = number_at(table, key)?;
    let (low, high) = range_of(table, key)?;
    if i64::from(low) <= number && number <= i64::from(high) {
        return None;
    }
    // More blocks than there can be of anything.
    let said = if high == MAX_BLOCKS && number > i64::from(high) {
        "; a block is room for one packet; plan more in coarser units: docs/PLANNING.md, 'Limits of scale'"
    } else {
        ""
    };
    let hint = said! {
        "has {} = {}; {} to {} can be", said;
        Name(key), Number(number), Count(u64::from(low)), Count(u64::from(high))
    };
    Some(hint.of_table(named(array, row, table)))
}

// The first number at this key of a table that is out of its range.
fn range_hint(document: &Table, key: Name) -> Option<Sentence> {
    for array in ARRAYS {
        for row in 1..=MAX_ROUTES as u32 {
            tell!(out_of_range(document, array, row, key));
        }
    }
    None
}

fn count_hint(document: &Table, array: Name, low: usize, high: usize) -> Sentence {
    let found = elements(document, array).len();
    said! {
        "there are {} tables of {}; {} to {} can be";
        Count(found as u64), Name(array), Count(low as u64), Count(high as u64)
    }
}

fn limit_hint(document: &Table, name: Name) -> Option<Sentence> {
    match name {
        Name::Stores => Some(count_hint(document, Name::Store, 1, MAX_STORES)),
        Name::Routes => Some(count_hint(document, Name::Route, 0, MAX_ROUTES)),
        Name::Limits => Some(count_hint(document, Name::Limit, 0, CHANNELS)),
        key => range_hint(document, key),
    }
}

// What is found in the document of a setup.
fn document_hint(document: &Table, spot: Spot, text: &[u8]) -> Option<Sentence> {
    match spot {
        Spot::Key { row, name } => field_hint(document, row, name, text),
        Spot::Number(name) => limit_hint(document, name),
        _ => None,
    }
}

// What is found in a setup with its fault there: a setup whose fault is at a key or a number is TOML.
fn in_setup(alloc: Global, spot: Spot, octets: &[u8]) -> Result<Option<Sentence>, NoMemory> {
    let is_toml = matches!(spot, Spot::Key { .. } | Spot::Number(_));
    let text = match std::str::from_utf8(octets) {
        Ok(text) => text,
        Err(_) if is_toml => return Ok(None),
        Err(error) => {
            let line = line_of(octets, error.valid_up_to());
            return Ok(found!("line {} is not in UTF-8; save the file as UTF-8"; Count(line)));
        }
    };
    match toml::table_from_str(alloc, text) {
        Ok(document) => Ok(document_hint(&document, spot, octets)),
        Err(error) if error.is_memory() => Err(NoMemory),
        Err(_) if is_toml => Ok(None),
        Err(error) => Ok(match error.span() {
            Some(span) => fault_hint(octets, span.start, error.message()),
            None => None,
        }),
    }
}

/// What is found in a setup that is refused with its fault there.
pub(crate) fn setup_hint(
    alloc: Global,
    spot: Spot,
    text: &[u8],
) -> Result<Option<Sentence>, NoMemory> {
    match utf16_hint(text).or(misplaced(text, TextKind::Setup)) {
        Some(hint) => Ok(Some(hint)),
        None => in_setup(alloc, spot, text),
    }
}
