//! A list of instructions, or of a report's entries.
ghost use Rattle.std.specs.Prelude.{◌≡◌};

use std::marker::Model;

/// A list, which contracts see as that list. It is made from a `Vec` and gives it back.
#[derive(Debug, Drop)]
pub struct Entries<T> {
    items: Vec<T>,
}

impl<T> Model for Entries<T> {
    ghost use Rattle.std.specs.Prelude.{List};

    ghost Value = { List T };

    ghost view = { λ e. e.items.items };
}

impl<T> Entries<T> {
    #[must_use]
    pub fn new(items: Vec<T>) -> Entries<T>
        ensures items { result ≡ items.items }
    {
        Entries { items }
    }

    #[must_use]
    pub fn into_vec(self) -> Vec<T>
        ensures items { result.items ≡ self }
    {
        let Entries { items } = self;
        items
    }

    #[must_use]
    pub fn as_slice(&self) -> &[T]
        ensures items { result.now ≡ self.now }
    {
        &self.items
    }
}
