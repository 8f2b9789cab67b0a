//! What kind of file a text looks like, and what is said where another kind is wanted.

use crate::hints::lines::{after_mark, lines_with, without_return};
use crate::hints::sentence::{Sentence, Shown};
use mm_base::lines::{cut_word, first_line};
use mm_base::numbers::Numeral;
use std::fmt;

/// A kind of file, as a text looks. It is shown by its name.
#[derive(Clone, Copy, Debug, PartialEq, Eq)]
pub enum TextKind {
    Setup,
    Forecast,
    Plan,
    /// The table of a plan.
    Table,
    Sources,
    Links,
    /// Requests or reports: a packet in each line.
    Packets,
    /// A file of a spreadsheet program.
    Workbook,
}

// How files of some kinds begin.
static FRONTS: [(&[u8], TextKind); 7] = table! {
    b"PK\x03\x04", TextKind::Workbook;
    b"\xD0\xCF\x11\xE0", TextKind::Workbook;
    b"step,window,store,arrived,", TextKind::Table;
    b"step,", TextKind::Forecast;
    b"step;", TextKind::Forecast;
    b"mmplan ", TextKind::Plan;
    b"links ", TextKind::Links;
};

/// The digits of the shortest primary header.
const FEWEST_DIGITS: usize = 12;

impl TextKind {
    /// What a text looks like: by its front, as a setup by any line, as sources or packets by its first line.
    #[must_use]
    pub fn of(text: &[u8]) -> Option<TextKind> {
        let text = after_mark(text);
        for (front, kind) in &FRONTS {
            if text.starts_with(front) {
                return Some(*kind);
            }
        }
        if lines_with(text, b"[[store]]") > 0 {
            return Some(TextKind::Setup);
        }
        let line = without_return(first_line(text)?.0);
        if is_source_line(line) {
            Some(TextKind::Sources)
        } else if line.len() >= FEWEST_DIGITS && are_digits(line) {
            Some(TextKind::Packets)
        } else {
            None
        }
    }
}

impl fmt::Display for TextKind {
    fn fmt<W: fmt::Write>(&self, f: &mut fmt::Formatter<W>) -> fmt::Result {
        f.write_str(match self {
            TextKind::Setup => "a setup",
            TextKind::Forecast => "a forecast",
            TextKind::Plan => "a plan text",
            TextKind::Table => "the table of a plan",
            TextKind::Sources => "sources",
            TextKind::Links => "links",
            TextKind::Packets => "packets",
            TextKind::Workbook => "a workbook",
        })
    }
}

/// The source, the step and the digits of a line of sources.
pub(crate) fn parts_of(line: &[u8]) -> Option<(u64, u64, &[u8])> {
    let (source, rest) = cut_word(line)?;
    let (step, digits) = cut_word(rest)?;
    match (Numeral::read(source, 8), Numeral::read(step, 256)) {
        (Numeral::Number(source), Numeral::Number(step)) => Some((source, step, digits)),
        _ => None,
    }
}

/// The first byte that is no hexadecimal digit.
pub(crate) fn no_digit(digits: &[u8]) -> Option<u8> {
    digits
        .iter()
        .copied()
        .find(|byte| !byte.is_ascii_hexdigit())
}

fn are_digits(digits: &[u8]) -> bool {
    !digits.is_empty() && no_digit(digits).is_none()
}

/// Whether a line is a source, a step and the digits of a packet.
pub(crate) fn is_source_line(line: &[u8]) -> bool {
    matches!(parts_of(line), Some((_, _, digits)) if are_digits(digits))
}

/// What is found in a text that looks like a file of another kind than is wanted.
pub(crate) fn misplaced(text: &[u8], wanted: TextKind) -> Option<Sentence> {
    let found = TextKind::of(text)?;
    if found == wanted {
        return None;
    }
    let words = match (found, wanted) {
        (TextKind::Setup, TextKind::Forecast) | (TextKind::Forecast, TextKind::Setup) => {
            "the files are in another order; name the setup first, then the forecast"
        }
        (TextKind::Sources, TextKind::Links) | (TextKind::Links, TextKind::Sources) => {
            "the files are in another order; name the sources first, then the links"
        }
        (TextKind::Workbook, TextKind::Forecast) => {
            "the file is a workbook; save its sheet as a text file: CSV in UTF-8, with commas between the cells"
        }
        (TextKind::Workbook, TextKind::Setup) => {
            "the file is a workbook; a setup is a text file in TOML, and a sheet is saved as CSV to be a forecast"
        }
        (TextKind::Sources, TextKind::Packets) => {
            "the file holds {} of a run in place of {}; leave out the source and the step before each packet"
        }
        (TextKind::Packets, TextKind::Sources) => {
            "the file holds {} in place of {}; write a source and a step before each packet"
        }
        _ => "the file holds {} in place of {}",
    };
    found!(words; Kind(found), Kind(wanted))
}
