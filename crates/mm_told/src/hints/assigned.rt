//! Lines KEY = VALUE of a setup, as they are written.

use crate::hints::lines::{Lines, after_mark, cut_at};
use mm_problem::Name;

/// A line KEY = VALUE: the key, and the value without a comment.
#[derive(Clone, Copy)]
pub(crate) struct Assigned<'a> {
    pub(crate) key: &'a [u8],
    pub(crate) value: &'a [u8],
}

// What a value begins with that may go on in further lines, and its end.
static ENDS: [(&[u8], &[u8]); 4] = table! {
    b"[", b"]";
    b"{", b"}";
    b"\"\"\"", b"\"\"\"";
    b"'''", b"'''";
};

// The text before the first # outside quotes.
fn without_comment(text: &[u8]) -> &[u8] {
    let mut is_quoted = false;
    for (i, byte) in text.iter().enumerate() {
        if *byte == b'"' {
            is_quoted = !is_quoted;
        } else if *byte == b'#' && !is_quoted {
            return &text[..i];
        }
    }
    text
}

impl<'a> Assigned<'a> {
    /// The key and the value of a line that has an equals sign and is no header of a table.
    pub(crate) fn of(line: &'a [u8]) -> Option<Assigned<'a>> {
        let line = line.trim_ascii();
        if line.starts_with(b"[") || line.starts_with(b"#") {
            return None;
        }
        let (key, value) = cut_at(line, b'=')?;
        Some(Assigned {
            key: key.trim_ascii(),
            value: without_comment(value).trim_ascii(),
        })
    }

    /// Whether the key is one word, perhaps in quotes.
    pub(crate) fn has_one_word(&self) -> bool {
        !self.key.is_empty()
            && self.key.iter().all(|byte| byte.is_ascii_alphanumeric() || b"_-.\"'".contains(byte))
    }

    /// What follows the digits of the value, if it begins with a digit.
    pub(crate) fn after_digits(&self) -> Option<&'a [u8]> {
        let value = self.value;
        if !value.first()?.is_ascii_digit() {
            return None;
        }
        for (i, byte) in value.iter().enumerate() {
            if !byte.is_ascii_digit() {
                return Some(&value[i..]);
            }
        }
        Some(&[])
    }

    // Whether the value begins with this opening, and the line does not have its end.
    fn leaves_open(&self, opening: &[u8], end: &[u8]) -> bool {
        match self.value.strip_prefix(opening) {
            Some(rest) => !has_text(rest, end),
            None => false,
        }
    }

    /// The end of the list, the table or the text that the value begins and does not end.
    pub(crate) fn open_end(&self) -> Option<&'static [u8]> {
        for (opening, end) in &ENDS {
            if self.leaves_open(opening, end) {
                return Some(*end);
            }
        }
        None
    }
}

/// Whether a text has another in it.
pub(crate) fn has_text(text: &[u8], wanted: &[u8]) -> bool {
    for (i, _byte) in text.iter().enumerate() {
        if text[i..].starts_with(wanted) {
            return true;
        }
    }
    false
}

// Whether a line is the header of a table of this array.
fn is_header(line: &[u8], array: Name) -> bool {
    let Some(name) = line.strip_prefix(b"[[") else {
        return false;
    };
    match cut_at(name, b']') {
        Some((name, _)) => name.trim_ascii() == array.text().as_bytes(),
        None => false,
    }
}

/// The value, as it is written, of a key in the table in this row of an array, from 1, if the table has a header.
pub(crate) fn written_at(text: &[u8], array: Name, row: u32, key: Name) -> Option<&[u8]> {
    let mut tables: u32 = 0;
    let mut is_within = false;
    for line in Lines(after_mark(text)) {
        let line = line.trim_ascii();
        if line.starts_with(b"[") {
            is_within = is_header(line, array);
            tables = tables.saturating_add(u32::from(is_within));
        } else if is_within && tables == row {
            if let Some(line) = Assigned::of(line) {
                if line.key == key.text().as_bytes() {
                    return Some(line.value);
                }
            }
        }
    }
    None
}
