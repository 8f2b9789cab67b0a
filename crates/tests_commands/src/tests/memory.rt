//! The program over files in memory that store: which file is stored, and that each other one is as it was.
ghost use Rattle.std.specs.Prelude.{true};
ghost use Rattle.mm_files.specs.Contents.{unknown};

use crate::tests::samples::{Answer, FIRST_PLAN, Host, SCI, THREE_STEPS, answer_to, holds};
use mm_commands::{Files, Obstacle, ReadFault, StoreFault};
use std::alloc::Global;

// The files of first_run, with the plan as standard input.
static TEXTS: [(&str, &str); 4] = [
    ("S", SCI),
    ("F", THREE_STEPS),
    ("-", FIRST_PLAN),
    ("OLD", "old\n"),
];

#[derive(Drop)]
struct MemoryFile {
    name: String,
    text: Vec<u8>,
}

// Files in memory, with standard input under the name `-`. Of two files of one name the first is read.
#[derive(Drop)]
struct MemoryFiles {
    files: Vec<MemoryFile>,
}

impl MemoryFiles {
    // The bytes of the file of this name.
    fn text(&self, name: &str) -> Option<&[u8]> {
        for file in &self.files {
            if file.name.as_str() == name {
                return Some(file.text.as_slice());
            }
        }
        None
    }
}

impl Files for MemoryFiles {
    ghost has_streams = { true };

    fn has_streams() -> bool {
        true
    }

    ghost content = { λ _ _. unknown };

    fn read(&mut self, alloc: Global, name: &str) -> Result<Vec<u8>, ReadFault> {
        match self.text(name) {
            Some(text) => Vec::from_slice(alloc, text).map_err(|_| ReadFault::NoMemory),
            None => Err(ReadFault::NotRead {
                obstacle: Obstacle::Missing,
            }),
        }
    }

    fn is_same_file(&self, one: &str, other: &str) -> bool {
        one == other
    }

    fn store(&mut self, alloc: Global, name: &str, text: &[u8]) -> Result<(), StoreFault> {
        let name = String::from_str(alloc, name).map_err(|_| StoreFault::NoMemory)?;
        let text = Vec::from_slice(alloc, text).map_err(|_| StoreFault::NoMemory)?;
        self.files
            .insert(0, MemoryFile { name, text })
            .map_err(|_| StoreFault::NoMemory)
    }
}

fn made(rt: &impl Host) -> MemoryFiles {
    let mut files = MemoryFiles {
        files: Vec::new(rt.alloc()),
    };
    for (name, text) in &TEXTS {
        files
            .store(rt.alloc(), name, text.as_bytes())
            .expect(rt, "memory");
    }
    files
}

// A line of words, the file that is stored then, and what is printed.
struct Stored {
    words: &'static [&'static str],
    file: &'static str,
    text: &'static str,
    prints: &'static str,
    status: u8,
}

static STORED: [Stored; 6] = table! { Stored;
    words &["plan", "S", "F", "--output", "P"], file "P", text FIRST_PLAN, prints "", status 0;
    words &["plan", "S", "F", "--output", "OLD"], file "OLD", text FIRST_PLAN, prints "", status 0;
    words &["plan", "S", "F", "--output", "-"], file "-", text FIRST_PLAN, prints FIRST_PLAN, status 0;
    words &["check", "S", "F", "-"], file "OLD", text "old\n", prints "least 2\n", status 0;
    words &["plan", "S", "F", "--output", "F"], file "F", text THREE_STEPS, prints "", status 1;
    words &["plan", "F", "S", "--output", "OLD"], file "OLD", text "old\n",
        prints "refused 27 SetupText\n", status 1;
};

// Whether the file has this text, and each other file of TEXTS is as it was.
fn has_alone(files: &MemoryFiles, file: &str, text: &str) -> bool {
    for (name, old) in &TEXTS {
        if *name != file && files.text(name) != Some(old.as_bytes()) {
            return false;
        }
    }
    files.text(file) == Some(text.as_bytes())
}

fn is_stored(rt: &impl Host, row: &Stored) {
    let mut files = made(rt);
    let answer: Answer = answer_to(rt, row.words, &mut files);
    let is_alone = has_alone(&files, row.file, row.text);
    let is_answered = answer.has(row.prints, row.status);
    holds(rt, row.file, &answer, is_answered && is_alone);
}

#[test]
fn files_in_memory_are_stored(rt: HostRuntime) {
    for row in &STORED {
        is_stored(&rt, row);
    }
}
