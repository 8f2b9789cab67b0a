//! Hints on the files of a run's sources and links.

use crate::hints::assigned::{Assigned, has_text};
use crate::hints::cells::{Wanted, record_in, unquoted};
use crate::hints::excerpt::Excerpt;
use crate::hints::form::{form_hint, quoted};
use crate::hints::kind::{TextKind, misplaced, parts_of};
use crate::hints::lines::{Lines, after_mark, line_at, without_return};
use crate::hints::packets::source_hint;
use crate::hints::sentence::{Sentence, Shown};
use crate::hints::{Hint, Texts};
use mm_base::lines::cut_word;
use mm_base::numbers::Numeral;
use mm_base::{RouteRow, StoreId};
use mm_problem::Setup;
use std::alloc::Global;

/// What is found in the files of a run's ends, in the routes that lead to its stores, or in what it cannot carry out.
#[derive(Clone, Copy)]
pub enum EndsHint {
    Sources {
        found: u64,
    },
    Links {
        found: u64,
    },
    NoRoute {
        store: StoreId,
    },
    /// Another number of packets of step 0 goes to a store than its start says.
    Opening {
        store: StoreId,
        found: u64,
        start: u32,
    },
    /// A line of the setup says that arrivals come during dumps.
    During {
        line: u64,
        text: Excerpt,
    },
    /// A column of the forecast has sizes.
    Sized {
        column: u64,
        name: Excerpt,
    },
}

impl EndsHint {
    /// What is found if a run has these numbers of sources and links, and does not take them.
    #[must_use]
    pub fn of_counts(sources: usize, links: usize) -> EndsHint {
        if sources == 0 {
            EndsHint::Sources { found: 0 }
        } else {
            EndsHint::Links {
                found: links as u64,
            }
        }
    }

    pub(crate) fn sentence(self) -> Sentence {
        match self {
            EndsHint::Sources { found } =>
                said!("the file of sources has {} sources"; Count(found)),
            EndsHint::Links { found } => said!("the file of links says links {}"; Count(found)),
            EndsHint::NoRoute { store } =>
                said!("no route of the setup leads to {}, so no packet can come to it"; Text(Excerpt::of_id(&store))),
            EndsHint::Opening {
                store,
                found,
                start,
            } => said! {
                "{} packets of step 0 go to {}, and its start is {}";
                Count(found), Text(Excerpt::of_id(&store)), Count(u64::from(start))
            },
            EndsHint::During { line, text } =>
                said!("line {} is {}; runs are planned with \"before\", the default"; Count(line), Text(text)),
            EndsHint::Sized { column, name } => said! {
                "column {} of the header is {}; runs are planned without columns size:";
                Count(column), Text(name)
            },
        }
    }
}

/// The most packets of a source in a step.
const MAX_PACKETS: u64 = 65_535;

// Whether a line of sources is of this source and step.
fn is_of(line: &[u8], source: u64, step: u64) -> bool {
    matches!(parts_of(line), Some((of_source, of_step, _)) if of_source == source && of_step == step)
}

// How many of the lines before this one are of this source and step.
fn packets_before(text: &[u8], line: u64, source: u64, step: u64) -> u64 {
    let before = Lines(text).take(line.saturating_sub(1) as usize);
    before.filter(|line| is_of(line, source, step)).count() as u64
}

/// What is found in this line of the sources.
pub(crate) fn sources_hint(text: &[u8], line: u64) -> Option<Sentence> {
    tell!(form_hint(text, line));
    tell!(misplaced(text, TextKind::Sources));
    if let Some((source, step, digits)) = parts_of(line_at(text, line)?) {
        tell!(source_hint(digits, line));
        if packets_before(text, line, source, step) >= MAX_PACKETS {
            return found! {
                "before line {} are 65,535 packets of source {} in step {}, the most; another source can give the rest";
                Count(line), Count(source), Count(step)
            };
        }
    }
    quoted(text, line)
}

// The number after a word at the front of a line.
fn number_after(word: &[u8], line: &[u8]) -> Option<u64> {
    let (front, rest) = cut_word(line)?;
    let (number, _) = cut_word(rest).unwrap_or((rest, &[]));
    match Numeral::read(number, u64::from(u32::MAX)) {
        Numeral::Number(number) if front == word => Some(number),
        _ => None,
    }
}

// What is found where a line fails a send of a link that the first line does not have.
fn no_link_hint(text: &[u8], line: u64) -> Option<Sentence> {
    let links = number_after(b"links", line_at(text, 1)?)?;
    let link = number_after(b"fail", line_at(text, line)?)?;
    if 1 <= link && link <= links {
        return None;
    }
    found! {
        "line {} names link {}, and line 1 says links {}; links are numbered from 1 to that number";
        Count(line), Count(link), Count(links)
    }
}

/// What is found in this line of the links.
pub(crate) fn links_hint(text: &[u8], line: u64) -> Option<Sentence> {
    if text.is_empty() {
        return found!(
            "the file is empty; its first line says how many links there are, as links 1"
        );
    }
    tell!(form_hint(text, line));
    tell!(misplaced(text, TextKind::Links));
    tell!(no_link_hint(text, line));
    quoted(text, line)
}

/// Whether a route leads to a store.
pub(crate) fn is_reached(routes: &[RouteRow], store: StoreId) -> bool {
    routes.iter().any(|route| route.store == store)
}

/// Why the store holds this many packets before a run, and not as many as its start in the setup says.
#[must_use]
pub fn opening_hint(alloc: Global, setup: &[u8], store: StoreId, found: u64) -> Option<Hint> {
    let setup = Setup::read(alloc, setup).ok()?;
    if !is_reached(setup.routes(), store) {
        return Some(Hint::Ends(EndsHint::NoRoute { store }));
    }
    let start = setup.stores().iter().find(|row| row.id == store)?.start;
    Some(Hint::Ends(EndsHint::Opening {
        store,
        found,
        start,
    }))
}

// The line above every table of a setup that says that arrivals come during dumps.
fn during_hint(setup: &[u8]) -> Option<EndsHint> {
    for (place, line) in Lines(after_mark(setup)).enumerate() {
        if line.trim_ascii().starts_with(b"[") {
            return None;
        }
        if let Some(assigned) = Assigned::of(line) {
            if has_text(assigned.key, b"arrivals") && has_text(assigned.value, b"during") {
                return Some(EndsHint::During {
                    line: (place as u64).saturating_add(1),
                    text: Excerpt::of(without_return(line)),
                });
            }
        }
    }
    None
}

// The first column of a forecast that has sizes.
fn sized_hint(forecast: &[u8]) -> Option<EndsHint> {
    let header = record_in(forecast, Wanted::Row(0))?;
    let mut column: u64 = 0;
    for cell in header.each() {
        let name = unquoted(cell);
        column = column.saturating_add(1);
        if name.starts_with(b"size:") {
            return Some(EndsHint::Sized {
                column,
                name: Excerpt::of(name),
            });
        }
    }
    None
}

/// Why the problem of a setup and a forecast, which were read, cannot be carried out: arrivals come during dumps, or a
/// store has sizes by step.
#[must_use]
pub fn flyable_hint(texts: Texts<'_>) -> Option<Hint> {
    match during_hint(texts.setup) {
        None => Some(Hint::Ends(sized_hint(texts.forecast)?)),
        Some(hint) => Some(Hint::Ends(hint)),
    }
}
