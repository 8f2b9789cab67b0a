//! Whether a packet store is circular or bounded.
ghost use Rattle.std.specs.Prelude.{◌≡◌, Some};
ghost use Rattle.mm_base.specs.Kind.{code_of, word_of, DecodesKind};

use crate::fault::Fault;
use std::fmt;

/// The kind of a packet store (ECSS-E-ST-70-41C, 6.15): a full circular store overwrites its oldest packet,
/// a full bounded store keeps what it holds.
#[derive(Clone, Copy, Debug, PartialEq, Eq)]
pub enum Kind {
    Circular,
    Bounded,
}

impl Kind {
    /// The kind with this code in the type field of a telecommand: 0 circular, 1 bounded. Any other code is `BadEnum`.
    pub fn of_code(code: u8) -> Result<Kind, Fault>
        ensures kind { DecodesKind code result }
    {
        match code {
            0 => Ok(Kind::Circular),
            1 => Ok(Kind::Bounded),
            _ => Err(Fault::BadEnum),
        }
    }

    /// The code of the kind in telecommands and reports.
    pub fn code(self) -> u8
        ensures code { result ≡ code_of self }
    {
        match self {
            Kind::Circular => 0,
            Kind::Bounded => 1,
        }
    }

    /// The word for the kind in a setup.
    pub fn word(self) -> &'static str
        ensures word { result.now ≡ word_of self }
    {
        match self {
            Kind::Circular => "circular",
            Kind::Bounded => "bounded",
        }
    }
}

impl TryFrom<u8> for Kind {
    type Error = Fault;

    ghost try_from_gives = { λ code r. DecodesKind code r };

    fn try_from(code: u8) -> Result<Kind, Fault> {
        Kind::of_code(code)
    }
}

/// The word for the kind in a setup.
impl fmt::Display for Kind {
    ghost output = { λ kind. Some (word_of kind) };

    fn fmt<W: fmt::Write>(&self, f: &mut fmt::Formatter<W>) -> fmt::Result {
        f.write_str(self.word())
    }
}
