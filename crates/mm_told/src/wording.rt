//! The words of what is told.
ghost use Rattle.std.specs.Prelude.{◌≡◌, ◌≤◌, IsTrue};
ghost use Rattle.arrayvec.specs.ArrayString.{array_string_len};
ghost use Rattle.mm_told.specs.Phrase.{is_phrase};
ghost use Rattle.mm_told.specs.Reasons.{reason_text};
ghost use Rattle.mm_told.specs.Wording.{text_with, Says, SaysTold};

use crate::reason::Reason;
use crate::refused_at::RefusedAt;
use crate::words::Words;
use arrayvec::ArrayString;
use itoa::Buffer;

/// As many bytes as the words of any refusal have at most.
pub const WORDS_ROOM: usize = 512;

// The number, the name and the fields of a reason.
#[tactic(auto, using(crate::proofs::WordLengths::refusal_fits, std::proofs::Common::append_assoc))]
fn text_of(reason: Reason) -> ArrayString<WORDS_ROOM>
    ensures text { result.bytes ≡ reason_text reason }
    ensures short { array_string_len result ≤ 128 }
{
    let mut number = Buffer::new();
    let mut text = ArrayString::new();
    text.push_str(number.format(reason.refusal.number()));
    text.push_str(" ");
    text.push_str(reason.refusal.name());
    text.push_str(reason.spot.fields().as_str());
    text
}

// The same, with these words after it.
#[tactic(auto, using(crate::proofs::WordLengths::phrase_fits, std::proofs::Common::append_assoc))]
fn text_with(reason: Reason, words: Words) -> ArrayString<WORDS_ROOM>
    requires expected { IsTrue (is_phrase words.expected.now) }
    requires advice { IsTrue (is_phrase words.advice.now) }
    ensures { result.bytes ≡ text_with reason words.expected.now words.advice.now }
{
    let mut text = text_of(reason);
    text.push_str(": expected ");
    text.push_str(words.expected);
    text.push_str("; ");
    text.push_str(words.advice);
    text
}

// The words of a reason, in one line without its end.
fn words_of_reason(reason: Reason) -> ArrayString<WORDS_ROOM>
    ensures { Says reason result.bytes }
{
    text_with(reason, Words::of(reason.refusal))
}

/// The words of the refusal that is told: its number, its name and its fields, what was expected, and what to do. It is
/// one line without its end; no octet where the codes are not those of a refusal. It takes no memory.
#[must_use]
pub fn words_of(told: &RefusedAt) -> ArrayString<WORDS_ROOM>
    ensures words { SaysTold told.now result.bytes }
    ensures short { array_string_len result ≤ WORDS_ROOM }
{
    match told.reason() {
        Some(reason) => words_of_reason(reason),
        None => ArrayString::new(),
    }
}
