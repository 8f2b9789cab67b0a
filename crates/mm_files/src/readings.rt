//! What was read, as contracts see it.
ghost use Rattle.std.specs.Prelude.{◌≡◌, ◌++◌, ◌∷◌, [], OnOk, OnErr};
ghost use Rattle.mm_files.specs.Contents.{reading};

use std::alloc::{AllocError, Global};
use std::marker::Model;
use std::snapshot::Snapshot;

// A file that was read. Its bytes are for contracts alone: the snapshot has none.
#[derive(Drop)]
struct Note {
    name: String,
    text: Snapshot<Vec<u8>>,
}

/// What was read, in order: the names of the files, and for contracts alone the bytes that came. An implementation of
/// `Files` keeps it for its ghost member `readings`.
#[derive(Drop)]
pub struct Readings {
    notes: Vec<Note>,
}

impl Model for Readings {
    ghost use Rattle.std.specs.Prelude.{List, map};
    ghost use Rattle.mm_files.specs.Contents.{Reading};
    ghost use Rattle.mm_files.specs.Notes.{reading_of};

    ghost Value = { List Reading };

    ghost view = { λ s. map reading_of s.notes.items };
}

impl Readings {
    /// Nothing was read.
    pub fn new(alloc: Global) -> Readings
        ensures none { result ≡ [] }
    {
        Readings {
            notes: Vec::new(alloc),
        }
    }

    /// Notes that the file of this name was read, and that this text came.
    pub fn note(&mut self, alloc: Global, name: &str, text: &Vec<u8>) -> Result<(), AllocError>
        ensures noted { OnOk result (self.new ≡ self.old ++ reading name.now text.now.items ∷ []) }
        ensures full { OnErr result (self.new ≡ self.old) }
    {
        let name = String::from_str(alloc, name)?;
        let text = Snapshot::of(text);
        self.notes.push(Note { name, text })?;
        Ok(())
    }
}
