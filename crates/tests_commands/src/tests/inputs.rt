//! Inputs that fail or are interrupted, and files of the system that are not read.

use crate::tests::samples::{System, answer_to, holds};
use mm_commands::{Device, Files, Obstacle, ReadFault, SystemFiles, read_to_end};
use std::io::{self, ErrorKind, Read};
use std::rt;

// What one read does.
#[derive(Clone, Copy)]
enum Turn {
    Gives(&'static [u8]),
    Fails(ErrorKind),
}

// A reader that does these things in turn, and is then at its end.
#[derive(Drop)]
struct Turns {
    rest: &'static [Turn],
}

impl Read for Turns {
    fn read(&mut self, buf: &mut [u8]) -> io::Result<usize> {
        let Some((turn, rest)) = self.rest.split_first() else {
            return Ok(0);
        };
        self.rest = rest;
        match *turn {
            Turn::Gives(text) => {
                let count = text.len().min(buf.len());
                buf[..count].copy_from_slice(&text[..count]);
                Ok(count)
            }
            Turn::Fails(kind) => Err(io::Error::from(kind)),
        }
    }
}

const INTERRUPTED: Turn = Turn::Fails(ErrorKind::Interrupted);

const DENIED: Turn = Turn::Fails(ErrorKind::PermissionDenied);

// What the reads of an input do, and what is read of it, or why it is not read.
static INPUTS: [(&[Turn], Result<&[u8], Obstacle>); 9] = wanted! {
    &[] => Ok(b"");
    &[Turn::Gives(b"a"), Turn::Gives(b"bc")] => Ok(b"abc");
    &[INTERRUPTED, Turn::Gives(b"a"), INTERRUPTED, INTERRUPTED, Turn::Gives(b"bc"), INTERRUPTED]
    => Ok(b"abc");
    &[DENIED] => Err(Obstacle::Forbidden);
    &[Turn::Gives(b"a"), DENIED, Turn::Gives(b"bc")] => Err(Obstacle::Forbidden);
    &[INTERRUPTED, DENIED] => Err(Obstacle::Forbidden);
    &[Turn::Fails(ErrorKind::NotFound)] => Err(Obstacle::Missing);
    &[Turn::Fails(ErrorKind::IsADirectory)] => Err(Obstacle::Folder);
    &[Turn::Fails(ErrorKind::TimedOut)] => Err(Obstacle::Failed);
};

// Whether this is read, or not read for this reason.
fn is_read(read: &Result<Vec<u8>, ReadFault>, wanted: Result<&[u8], Obstacle>) -> bool {
    match read {
        Ok(text) => wanted == Ok(text.as_slice()),
        Err(ReadFault::NotRead { obstacle }) => wanted == Err(*obstacle),
        Err(ReadFault::NoMemory) => false,
    }
}

#[test]
fn inputs_that_fail_or_are_interrupted(rt: HostRuntime) {
    for (turns, wanted) in &INPUTS {
        let input = Turns { rest: *turns };
        let read = read_to_end(rt.alloc(), &mut Device::new(input));
        assert!(rt; is_read(&read, *wanted), "{wanted:?}");
    }
}

// Files of the system that are not read, and what is said of them.
static OBSTACLES: [(&str, Obstacle, &str); 2] = wanted! {
    "no/such/file", Obstacle::Missing
    => "no/such/file: expected a file of this name; check the name and its folder, or in a script the line === NAME \
        above the file; outside a script - is standard input\n";
    "/", Obstacle::Folder => "/: expected a file, and this is a folder; name a file in it\n";
};

// The file of this name is told as not read.
fn is_unread(rt: &impl System, name: &str, obstacle: Obstacle, words: &str) {
    let mut files = SystemFiles::new(rt.alloc(), rt, b"".as_slice());
    let read = files.read(rt.alloc(), name);
    let answer = answer_to(rt, &["plan", name, "nor/this/one"], &mut files);
    let is_told = answer.out.as_str().starts_with("refused 50 NotRead name ")
        && answer.err.as_str() == words;
    let is_unread = answer.status == 1 && is_read(&read, Err(obstacle));
    holds(rt, name, &answer, is_told && is_unread);
}

#[test]
fn files_of_the_system_that_are_not_read(rt: HostRuntime) {
    for (name, obstacle, words) in &OBSTACLES {
        is_unread(&rt, name, *obstacle, words);
    }
}

// What is said of a file that is not read for another reason.
static SAID: [(Obstacle, &str); 3] = wanted! {
    Obstacle::Forbidden
    => "expected a file that may be read; let this user read it, as chmod does, or take a copy of it";
    Obstacle::TooLong
    => "expected a file of at most 2^30 bytes; check that it is the file that was meant";
    Obstacle::Failed
    => "expected a file that can be read to its end; try again, or take a copy of it; a read of it failed";
};

#[test]
fn obstacles_are_explained(rt: HostRuntime) {
    for (obstacle, words) in &SAID {
        let said = format!(in rt.alloc(); "{obstacle}").expect(&rt, "memory");
        assert_eq!(rt; said.as_str(), *words);
    }
}
