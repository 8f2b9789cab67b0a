//! What is found, in words: a text with places, and what is shown there.

use crate::hints::excerpt::Excerpt;
use crate::hints::kind::TextKind;
use crate::hints::tables::{KeyList, TableAt};
use mm_problem::Name;
use std::fmt::{self, Write};

/// How many places a sentence has at most.
const PLACES: usize = 4;

/// What is shown at a place.
#[derive(Clone, Copy)]
pub(crate) enum Shown {
    Nothing,
    Count(u64),
    Number(i64),
    Name(Name),
    Keys(KeyList),
    Kind(TextKind),
    Text(Excerpt),
    /// A text as it is written, without quotes around it.
    Bare(Excerpt),
}

impl fmt::Display for Shown {
    fn fmt<W: fmt::Write>(&self, f: &mut fmt::Formatter<W>) -> fmt::Result {
        match self {
            Shown::Nothing => Ok(()),
            Shown::Count(count) => write!(f, "{count}"),
            Shown::Number(number) => write!(f, "{number}"),
            Shown::Name(name) => write!(f, "{name}"),
            Shown::Keys(keys) => write!(f, "{keys}"),
            Shown::Kind(kind) => write!(f, "{kind}"),
            Shown::Text(text) => write!(f, "{text}"),
            Shown::Bare(text) => text.write_bare(f),
        }
    }
}

/// What is found, in words without a full stop. Each `{}` of the words is a place. Of what stands in a table of a
/// setup, the table is named before the words. The words are a copy: a hint holds no reference.
#[derive(Clone, Copy)]
pub struct Sentence {
    table: Option<TableAt>,
    words: Excerpt,
    shown: [Shown; PLACES],
}

impl Sentence {
    /// These words, one after another, with this at their places.
    pub(crate) fn new(words: &[&str], shown: &[Shown]) -> Sentence {
        let mut all = Excerpt::new();
        for part in words {
            all.push(part.as_bytes());
        }
        let mut places = [Shown::Nothing; PLACES];
        for (place, one) in places.iter_mut().zip(shown) {
            *place = *one;
        }
        Sentence {
            table: None,
            words: all,
            shown: places,
        }
    }

    /// The same of this table.
    pub(crate) fn of_table(self, table: TableAt) -> Sentence {
        Sentence {
            table: Some(table),
            ..self
        }
    }
}

impl fmt::Display for Sentence {
    fn fmt<W: fmt::Write>(&self, f: &mut fmt::Formatter<W>) -> fmt::Result {
        if let Some(table) = self.table {
            write!(f, "{table} ")?;
        }
        let mut shown = self.shown.iter();
        for byte in self.words.bytes.iter().take(self.words.len) {
            match *byte {
                b'{' => {
                    if let Some(shown) = shown.next() {
                        write!(f, "{shown}")?;
                    }
                }
                b'}' => {}
                byte => f.write_char(char::from(byte))?,
            }
        }
        Ok(())
    }
}
