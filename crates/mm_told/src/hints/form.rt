//! Hints on the form of a whole file, and on a line that is not of the kind that stands there.

use crate::hints::excerpt::Excerpt;
use crate::hints::lines::{has_mark, is_utf16, line_at};
use crate::hints::sentence::{Sentence, Shown};

/// What is found in a text that is in UTF-16.
pub(crate) fn utf16_hint(text: &[u8]) -> Option<Sentence> {
    if is_utf16(text) {
        found!("the file is in UTF-16; save it in UTF-8")
    } else {
        None
    }
}

/// What is found in the form of a whole file whose lines end with LF alone.
pub(crate) fn file_hint(text: &[u8]) -> Option<Sentence> {
    tell!(utf16_hint(text));
    if has_mark(text) {
        found!("the file begins with a byte order mark; save it in UTF-8 without one")
    } else {
        None
    }
}

/// What is found at the end of a line, of this number, of such a file.
pub(crate) fn end_hint(line: &[u8], number: u64) -> Option<Sentence> {
    if line.ends_with(b"\r") {
        found!("line {} ends with CR LF; save the file with LF alone"; Count(number))
    } else {
        None
    }
}

/// What is found in the form of a file whose lines end with LF alone, and in this line of it.
pub(crate) fn form_hint(text: &[u8], line: u64) -> Option<Sentence> {
    tell!(file_hint(text));
    end_hint(line_at(text, line)?, line)
}

/// The line as it is.
pub(crate) fn quoted(text: &[u8], line: u64) -> Option<Sentence> {
    found!("line {} is {}"; Count(line), Text(Excerpt::of(line_at(text, line)?)))
}
