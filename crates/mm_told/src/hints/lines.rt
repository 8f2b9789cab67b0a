//! Lines of the files that a hint speaks of, as an editor counts them.
ghost use Rattle.std.specs.Prelude.{◌≡◌, ◌≤◌, drop, length};
ghost use Rattle.std.specs.Iterator.{at_most};
ghost use Rattle.std.specs.Option.{option_map};
ghost use Rattle.mm_base.specs.Lines.{file_lines};
ghost use Rattle.mm_told.specs.Lines.{numbered};

use mm_base::lines::first_line;

// What follows this many lines of a text.
#[tactic(auto, using(crate::proofs::Numbered::after_one, crate::proofs::Numbered::after_all))]
fn after_lines(text: &[u8], count: u64) -> &[u8]
    ensures { file_lines result.now ≡ drop count (file_lines text.now) }
{
    let mut rest = text;
    for _passed in 0..count {
        match first_line(rest) {
            Some((_, after)) => rest = after,
            None => return rest,
        }
    }
    rest
}

/// The lines of a text by their numbers. A line after the last one that was looked for is found from there on.
#[derive(Clone, Copy)]
pub(crate) struct LineFinder<'a> {
    text: &'a [u8],
    // What follows this many lines of the text.
    rest: &'a [u8],
    passed: u64,
    ghost place: { file_lines rest.now ≡ drop passed (file_lines text.now) },
}

impl<'a> LineFinder<'a> {
    pub(crate) fn new(text: &'a [u8]) -> LineFinder<'a>
        ensures text { result.text.now ≡ text.now }
        ensures front { result.passed ≡ 0 }
    {
        LineFinder {
            text,
            rest: text,
            passed: 0,
        }
    }

    // The same lines, after at most this many of them.
    fn before(&self, count: u64) -> LineFinder<'a>
        ensures text { result.text.now ≡ self.now.text.now }
        ensures most { result.passed ≤ count }
    {
        if count < self.passed {
            LineFinder::new(self.text)
        } else {
            *self
        }
    }

    /// The line of this number, from 1, without its line feed.
    #[tactic(auto, using(crate::proofs::Numbered::after_more))]
    pub(crate) fn find(&mut self, number: u64) -> Option<&'a [u8]>
        ensures line { option_map (λ line. line.now) result ≡ numbered number (file_lines self.old.text.now) }
        ensures text { self.new.text.now ≡ self.old.text.now }
    {
        let count = number.checked_sub(1)?;
        let from = self.before(count);
        *self = LineFinder {
            text: from.text,
            rest: after_lines(from.rest, count - from.passed),
            passed: count,
        };
        let (line, _) = first_line(self.rest)?;
        Some(line)
    }
}

/// The lines of a text, in order, without their line feeds.
#[derive(Drop)]
pub(crate) struct Lines<'a>(pub(crate) &'a [u8]);

impl<'a> Iterator for Lines<'a> {
    type Item = &'a [u8];

    ghost remaining = { λ s. at_most (length s.0.now) };

    fn next(&mut self) -> Option<&'a [u8]> {
        let (line, after) = first_line(self.0)?;
        self.0 = after;
        Some(line)
    }
}

/// The line of this number, from 1, without its line feed.
pub(crate) fn line_at(text: &[u8], number: u64) -> Option<&[u8]> {
    Lines(text).nth(number.checked_sub(1)? as usize)
}

/// The number of the line, from 1, in which the byte at this place stands.
pub(crate) fn line_of(text: &[u8], place: usize) -> u64 {
    let feeds = text.iter().take(place).filter(|byte| **byte == b'\n');
    (feeds.count() as u64).saturating_add(1)
}

/// Whether the text is as UTF-16 is: it begins with its mark, or with an ASCII character in two bytes.
pub(crate) fn is_utf16(text: &[u8]) -> bool {
    match text {
        [0xFF, 0xFE, ..] | [0xFE, 0xFF, ..] => true,
        [first, second, ..] => (*first == 0) != (*second == 0),
        _ => false,
    }
}

/// Whether the text begins with the byte order mark of UTF-8.
pub(crate) fn has_mark(text: &[u8]) -> bool {
    matches!(text, [0xEF, 0xBB, 0xBF, ..])
}

/// The text after its byte order mark, if it has one.
pub(crate) fn after_mark(text: &[u8]) -> &[u8] {
    match text {
        [0xEF, 0xBB, 0xBF, rest @ ..] => rest,
        _ => text,
    }
}

/// How many lines of a text begin so.
pub(crate) fn lines_with(text: &[u8], front: &[u8]) -> u64 {
    Lines(text).filter(|line| line.starts_with(front)).count() as u64
}

/// The line without the CR at its end.
pub(crate) fn without_return(line: &[u8]) -> &[u8] {
    line.strip_suffix(b"\r").unwrap_or(line)
}

/// The text before the first byte of this kind and the text after it.
pub(crate) fn cut_at(text: &[u8], wanted: u8) -> Option<(&[u8], &[u8])> {
    for (i, byte) in text.iter().enumerate() {
        if *byte == wanted {
            return Some((&text[..i], &text[i + 1..]));
        }
    }
    None
}
