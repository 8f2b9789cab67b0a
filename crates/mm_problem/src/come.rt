//! When the arrivals of a step come.
ghost use Rattle.std.specs.Prelude.{◌≡◌};
ghost use Rattle.mm_problem.specs.Come.{word_of};

/// When the arrivals of a step come: before its dumps, or during them. What passes a store's size is lost before the
/// dumps, or after them.
#[derive(Clone, Copy, Debug, PartialEq, Eq)]
pub enum Arrivals {
    Before,
    During,
}

impl Arrivals {
    /// The word for it in a setup.
    #[must_use]
    pub fn word(self) -> &'static str
        ensures word { result.now ≡ word_of self }
    {
        match self {
            Arrivals::Before => "before",
            Arrivals::During => "during",
        }
    }
}
