//! Lines and words of texts.
ghost use Rattle.std.specs.Prelude.{◌≡◌, ◌<◌, ◌==◌, ◌∷◌, [], length, position, IfSome, MatchOption};
ghost use Rattle.std.specs.Option.{option_map};
ghost use Rattle.mm_base.specs.Characters.{line_feed, space};
ghost use Rattle.mm_base.specs.Lines.{text_lines, file_lines, cut_word};

use memchr::memchr;

#[tactic(auto, using(crate::proofs::Places::first_place))]
fn first_feed(text: &[u8]) -> Option<usize>
    ensures { result ≡ position (λ c. c == line_feed) text.now }
{
    memchr(b'\n', text)
}

/// The text before the first line feed and the text after it, or `None` if the text has no line feed.
pub fn split_line(text: &[u8]) -> Option<(&[u8], &[u8])>
    ensures lines { MatchOption result
        (text_lines text.now ≡ text.now ∷ [])
        (λ parts. text_lines text.now ≡ parts.0.now ∷ text_lines parts.1.now) }
    ensures shorter { IfSome result (λ parts. length parts.1.now < length text.now) }
{
    match first_feed(text) {
        Some(feed) => Some((&text[..feed], &text[feed + 1..])),
        None => None,
    }
}

/// The first line of a file and the text after it, or `None` if the file is empty. The last line may have no line feed.
pub fn first_line(text: &[u8]) -> Option<(&[u8], &[u8])>
    ensures lines { MatchOption result
        (file_lines text.now ≡ [])
        (λ parts. file_lines text.now ≡ parts.0.now ∷ file_lines parts.1.now) }
    ensures shorter { IfSome result (λ parts. length parts.1.now < length text.now) }
{
    match split_line(text) {
        Some((line, rest)) => Some((line, rest)),
        None if text.is_empty() => None,
        None => Some((text, &text[text.len()..])),
    }
}

#[tactic(auto, using(crate::proofs::Places::first_place))]
fn first_space(text: &[u8]) -> Option<usize>
    ensures space { result ≡ position (λ c. c == space) text.now }
    ensures within { IfSome result (λ i. i < length text.now) }
{
    memchr(b' ', text)
}

/// The text before the first space and the text after it, or `None` if the text has no space.
pub fn cut_word(text: &[u8]) -> Option<(&[u8], &[u8])>
    ensures { option_map (λ parts. (parts.0.now, parts.1.now)) result ≡ cut_word text.now }
{
    let space = first_space(text)?;
    let (_, rest) = text.split_at(space + 1);
    Some((&text[..space], rest))
}
