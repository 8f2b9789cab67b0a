//! A piece of a text, as a line quotes it.

use mm_base::StoreId;
use std::fmt::{self, Write};

/// How many bytes of a text are quoted.
const ROOM: usize = 160;

/// A piece of a text, as a line quotes it: in quotes, with `<tab>` for a tab, `?` for another byte that is not
/// printable ASCII, and `..` where the text goes on.
#[derive(Clone, Copy)]
pub struct Excerpt {
    pub(crate) bytes: [u8; ROOM],
    pub(crate) len: usize,
    is_cut: bool,
}

impl Excerpt {
    pub(crate) fn new() -> Excerpt {
        Excerpt {
            bytes: [b' '; ROOM],
            len: 0,
            is_cut: false,
        }
    }

    /// The front of a text.
    pub(crate) fn of(text: &[u8]) -> Excerpt {
        let mut excerpt = Excerpt::new();
        excerpt.push(text);
        excerpt
    }

    /// The text of an identifier.
    pub(crate) fn of_id(id: &StoreId) -> Excerpt {
        Excerpt::of(id.text())
    }

    /// Whether this is the whole of a text, and shown as it is.
    pub(crate) fn is(&self, text: &[u8]) -> bool {
        matches!(self.bytes.as_slice().get(..self.len), Some(front) if front == text)
    }

    /// Adds a text, as far as there is room.
    pub(crate) fn push(&mut self, text: &[u8]) {
        for byte in text {
            match *byte {
                b'\t' => self.push_shown(b"<tab>"),
                32..=126 => self.push_shown(&[*byte]),
                _ => self.push_shown(b"?"),
            }
        }
    }

    // Adds what is shown for a byte.
    fn push_shown(&mut self, shown: &[u8]) {
        for byte in shown {
            if self.len < ROOM {
                self.bytes[self.len] = *byte;
                self.len += 1;
            } else {
                self.is_cut = true;
            }
        }
    }
}

impl Excerpt {
    /// Writes the text without quotes around it.
    pub(crate) fn write_bare<W: fmt::Write>(&self, f: &mut fmt::Formatter<W>) -> fmt::Result {
        for byte in self.bytes.iter().take(self.len) {
            f.write_char(char::from(*byte))?;
        }
        f.write_str(if self.is_cut { ".." } else { "" })
    }
}

impl fmt::Display for Excerpt {
    fn fmt<W: fmt::Write>(&self, f: &mut fmt::Formatter<W>) -> fmt::Result {
        f.write_char('"')?;
        self.write_bare(f)?;
        f.write_char('"')
    }
}
