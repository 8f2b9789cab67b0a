//! How a line of packets names its packet.
ghost use Rattle.std.specs.Prelude.{◌≡◌, codes};
ghost use Rattle.std.specs.Option.{option_map};
ghost use Rattle.mm_base.specs.Lines.{cut_word};
ghost use Rattle.mm_ask.specs.Label.{is_first_word, is_answer, reported, labelled};

use mm_base::lines::cut_word;
use mm_base::numbers::Numeral;

// Whether `refused` is the first word, with a space after it.
fn says_refused(text: &[u8]) -> bool
    ensures { result ≡ is_first_word (codes "refused") (cut_word text.now) }
{
    match cut_word(text) {
        Some((word, _)) => word == b"refused".as_slice(),
        None => false,
    }
}

/// Whether a line is an answer of `ask` to an instruction, or to a line that it refused.
#[tactic(auto, unfolding(crate::specs::Label::is_answer))]
pub(crate) fn is_answer(line: &[u8]) -> bool
    ensures { result ≡ is_answer line.now }
{
    match cut_word(line) {
        Some((_, rest)) => rest == b"done".as_slice() || says_refused(rest),
        None => false,
    }
}

/// The place and the number of the refusal in an answer of `ask`, where it says that something is refused.
pub(crate) fn refused_in(answer: &[u8]) -> Option<(&[u8], u8)> {
    let (place, rest) = cut_word(answer)?;
    let (_, refusal) = cut_word(rest)?;
    let (number, _) = cut_word(refusal)?;
    let number = std::str::from_utf8(number).ok()?.parse().ok()?;
    Some((place, number))
}

// The number and the digits of a line `N report DIGITS`.
#[tactic(auto, unfolding(crate::specs::Label::reported))]
fn reported(line: &[u8]) -> Option<(u64, &[u8])>
    ensures { option_map (λ found. (found.0, found.1.now)) result ≡ reported line.now }
{
    let (number, rest) = cut_word(line)?;
    let (word, digits) = cut_word(rest)?;
    if word != b"report".as_slice() {
        return None;
    }
    match Numeral::read(number, u64::MAX) {
        Numeral::Number(number) => Some((number, digits)),
        _ => None,
    }
}

/// The number and the digits of a line's packet: those of a report of `ask`, or else the number of the line and the
/// whole line.
pub(crate) fn labelled(line: u64, octets: &[u8]) -> (u64, &[u8])
    ensures { (result.0, result.1.now) ≡ labelled line octets.now }
{
    reported(octets).unwrap_or((line, octets))
}
