//! The table of words: for each refusal what was expected, and what to do.
ghost use Rattle.std.specs.Prelude.{IfSome, IsTrue};
ghost use Rattle.mm_told.specs.Phrase.{is_phrase};

use crate::codes::refusal_numbered;
use crate::table::refusals;
use mm_base::Refusal;
use std::fmt;

/// The words of a refusal, in plain English, without a full stop. They are shown as `expected ..; ..`. Where the fault
/// is (the file, the row, the name) is not in them: whoever prints them says it first.
#[derive(Clone, Copy, PartialEq, Eq)]
pub struct Words {
    /// What was expected, to stand after that word.
    pub expected: &'static str,
    /// What to do.
    pub advice: &'static str,
}

// The words of a refusal.
macro_rules! words {
    (($refusal:expr) $($case:ident: $expected:literal, $advice:literal;)+) => {
        match $refusal {
            $(Refusal::$case => Words { expected: $expected, advice: $advice },)+
        }
    };
}

impl Words {
    /// The words of this refusal.
    #[must_use]
    pub fn of(refusal: Refusal) -> Words
        ensures expected { IsTrue (is_phrase result.expected.now) }
        ensures advice { IsTrue (is_phrase result.advice.now) }
    {
        refusals!(words(refusal))
    }

    /// The words of the refusal with this number, if there is one.
    #[must_use]
    pub fn of_number(number: u8) -> Option<Words>
        ensures expected { IfSome result (λ words. IsTrue (is_phrase words.expected.now)) }
        ensures advice { IfSome result (λ words. IsTrue (is_phrase words.advice.now)) }
    {
        let refusal = refusal_numbered(u32::from(number))?;
        Some(Words::of(refusal))
    }
}

impl fmt::Display for Words {
    fn fmt<W: fmt::Write>(&self, f: &mut fmt::Formatter<W>) -> fmt::Result {
        write!(f, "expected {}; {}", self.expected, self.advice)
    }
}
