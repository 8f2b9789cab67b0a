//! Names in texts.
ghost use Rattle.std.specs.Prelude.{◌≡◌, IfOk};

use mm_base::NoMemory;
use std::alloc::Global;
use std::fmt;
use std::marker::Model;

/// A name. Contracts see its bytes, which are UTF-8.
#[derive(Debug, Drop)]
pub struct Text(String);

impl Model for Text {
    ghost use Rattle.std.specs.Prelude.{ℕ, List, string_bytes};

    ghost Value = { List ℕ };

    ghost view = { λ a. string_bytes a.0 };
}

impl Text {
    // The name that is this text.
    pub(crate) fn new(alloc: Global, text: &str) -> Result<Text, NoMemory>
        ensures { IfOk result (λ name. name ≡ text.now) }
    {
        let text = String::from_str(alloc, text)?;
        Ok(Text(text))
    }

    /// The name as it is written.
    #[must_use]
    pub fn as_str(&self) -> &str
        ensures { result.now ≡ self.now }
    {
        self.0.as_str()
    }
}

impl fmt::Display for Text {
    fn fmt<W: fmt::Write>(&self, f: &mut fmt::Formatter<W>) -> fmt::Result {
        f.write_str(self.as_str())
    }
}
