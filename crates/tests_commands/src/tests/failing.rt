//! Files and writers that fail.
ghost use Rattle.std.specs.Prelude.{false};
ghost use Rattle.mm_files.specs.Contents.{unknown};

use crate::tests::samples::{FIRST_PLAN, Host, SCI, THREE_STEPS, answer_to, holds, joined};
use mm_commands::{Files, Obstacle, ReadFault, StoreFault, UntilClosed, run_tool};
use std::alloc::Global;
use std::io::{self, ErrorKind, Write};

// A request to enable the store SCI.
const ENABLE_SCI: &str = "1864C000000D200F010000015343492020202020\n";

// A packet for each step.
const THREE_PACKETS: &str = "\
    1 1 0864C000000E200319000000000000000000000000\n\
    1 2 0864C000000E200319000000000000000000000000\n\
    1 3 0864C000000E200319000000000000000000000000\n";

// The files of first_run, a request, and links of which the first send fails. Any other file is the plan.
static TEXTS: [(&str, &str); 6] = [
    ("S", SCI),
    ("F", THREE_STEPS),
    ("R", ENABLE_SCI),
    ("X", THREE_PACKETS),
    ("L", "links 1\n"),
    ("BROKEN", "links 1\nfail 1 1\n"),
];

fn text_of(name: &str) -> &'static str {
    for (file, text) in &TEXTS {
        if *file == name {
            return *text;
        }
    }
    FIRST_PLAN
}

// These files, of which this many are read.
#[derive(Drop)]
struct FailingFiles {
    left: usize,
}

impl Files for FailingFiles {
    ghost has_streams = { false };

    fn has_streams() -> bool {
        false
    }

    ghost content = { λ _ _. unknown };

    fn read(&mut self, alloc: Global, name: &str) -> Result<Vec<u8>, ReadFault> {
        if self.left == 0 {
            return Err(ReadFault::NotRead {
                obstacle: Obstacle::Missing,
            });
        }
        self.left -= 1;
        Vec::from_slice(alloc, text_of(name).as_bytes()).map_err(|_| ReadFault::NoMemory)
    }

    fn is_same_file(&self, one: &str, other: &str) -> bool {
        one == other
    }

    fn store(&mut self, _alloc: Global, _name: &str, _text: &[u8]) -> Result<(), StoreFault> {
        Err(StoreFault::Full)
    }
}

// What standard error says where standard output refuses a write.
pub(crate) const UNWRITTEN: &[u8] = b"mm_tool: standard output could not be written\n";

// A writer that refuses one write, the one after this many, with this error, and takes all others.
#[derive(Drop)]
pub(crate) struct FailingWriter {
    left: u32,
    kind: ErrorKind,
    has_refused: bool,
}

impl FailingWriter {
    // One whose disk is full.
    pub(crate) fn after(writes: u32) -> FailingWriter {
        FailingWriter {
            left: writes,
            kind: ErrorKind::StorageFull,
            has_refused: false,
        }
    }

    // One whose pipe is closed.
    fn closed_after(writes: u32) -> FailingWriter {
        FailingWriter {
            kind: ErrorKind::BrokenPipe,
            ..FailingWriter::after(writes)
        }
    }
}

impl Write for FailingWriter {
    fn write(&mut self, buf: &[u8]) -> io::Result<usize> {
        if self.left == 0 && !self.has_refused {
            self.has_refused = true;
            return Err(io::Error::from(self.kind));
        }
        self.left = self.left.saturating_sub(1);
        Ok(buf.len())
    }

    fn flush(&mut self) -> io::Result<()> {
        Ok(())
    }
}

// Commands with their files in the order in which they are read, the fewest writes of what is printed, and the status,
// where nothing fails. A run is printed as the plan text where it was made, the report, and the last line where it was
// halted.
static COMMANDS: [(&[&str], u32, u8); 11] = [
    (&["plan", "S", "F"], 1, 0),
    (&["check", "S", "F", "P"], 1, 0),
    (&["chart", "S", "F", "P"], 1, 0),
    (&["table", "S", "F", "P"], 1, 0),
    (&["run", "S", "F", "P", "X", "L"], 1, 0),
    (&["run", "S", "F", "P", "X", "BROKEN"], 2, 1),
    (&["fly", "S", "F", "X", "L"], 2, 0),
    (&["fly", "S", "F", "X", "BROKEN"], 3, 1),
    (&["ask", "S", "R"], 1, 0),
    (&["read", "R"], 1, 0),
    (&["plan", "S", "-"], 1, 1),
];

// The read of this file, after this many reads, fails, and the file's name is told.
fn read_fails(rt: &impl Host, words: &[&str], reads: usize, name: &str) {
    let answer = answer_to(rt, words, &mut FailingFiles { left: reads });
    let line = joined(rt, &["refused 50 NotRead name ", name, "\n"]);
    let is_told = answer.has(line.as_str(), 1) && !answer.err.is_empty();
    holds(rt, name, &answer, is_told);
}

// Each file of a command in turn is not read.
fn reads_fail(rt: &impl Host, words: &[&str]) {
    for (reads, name) in words.iter().skip(1).enumerate() {
        read_fails(rt, words, reads, name);
    }
}

#[test]
fn each_file_that_is_not_read(rt: HostRuntime) {
    for (words, _writes, _status) in &COMMANDS {
        reads_fail(&rt, words);
    }
}

// No command writes as often for the first run.
const MANY_WRITES: u32 = 100;

// Whether a command writes more often than this. The write after this many is refused: the status is 1, and standard
// error says why. With none refused it is this status.
fn is_refused_after(rt: &impl Host, words: &[&str], status: u8, writes: u32) -> bool {
    let alloc = rt.alloc();
    let mut files = FailingFiles { left: words.len() };
    let (mut out, mut err) = (FailingWriter::after(writes), Vec::new(alloc));
    let got = run_tool(rt, alloc, words, &mut files, &mut out, &mut err);
    let want = if out.has_refused { 1 } else { status };
    let is_told = err.ends_with(UNWRITTEN) == out.has_refused;
    assert!(rt; got == want && is_told, "after {writes} writes");
    out.has_refused
}

// Whether a command writes more often than this to a pipe. If nobody reads the pipe after that many writes, the status
// is that of the command, nothing is said of that, and nothing more is written.
fn is_closed_after(rt: &impl Host, words: &[&str], status: u8, writes: u32) -> bool {
    let alloc = rt.alloc();
    let mut files = FailingFiles { left: words.len() };
    let (mut pipe, mut err) = (FailingWriter::closed_after(writes), Vec::new(alloc));
    let mut out = UntilClosed::new(&mut pipe);
    let got = run_tool(rt, alloc, words, &mut files, &mut out, &mut err);
    let is_told = err.ends_with(UNWRITTEN);
    assert!(rt; got == status && !is_told, "after {writes} writes");
    pipe.has_refused
}

// How many writes of a command's output can be refused, each in turn. As many find the pipe closed.
fn refused_writes(rt: &impl Host, words: &[&str], status: u8) -> u32 {
    for writes in 0..MANY_WRITES {
        let is_closed = is_closed_after(rt, words, status, writes);
        let is_refused = is_refused_after(rt, words, status, writes);
        assert!(rt; is_closed == is_refused, "after {writes} writes");
        if !is_refused {
            return writes;
        }
    }
    MANY_WRITES
}

// A write that fails is told, and a closed pipe is not.
#[test]
fn each_write_that_fails(rt: HostRuntime) {
    for (words, fewest, status) in &COMMANDS {
        let writes = refused_writes(&rt, words, *status);
        assert!(rt;
            *fewest <= writes && writes < MANY_WRITES,
            "{writes} writes, not {fewest}"
        );
    }
}

// A full disk is no closed pipe.
#[test]
fn other_errors_of_a_pipe_are_told(rt: HostRuntime) {
    let (mut files, mut err) = (FailingFiles { left: 3 }, Vec::new(rt.alloc()));
    let mut out = UntilClosed::new(FailingWriter::after(0));
    let words = ["check", "S", "F", "P"];
    let status = run_tool(&rt, rt.alloc(), &words, &mut files, &mut out, &mut err);
    assert!(rt; status == 1 && err.as_slice() == UNWRITTEN);
}

// Whether standard error is written to more often than this. A write of it that fails is not told as one to standard
// output.
fn is_unsaid_after(rt: &impl Host, writes: u32) -> bool {
    let alloc = rt.alloc();
    let words = ["ask", "S", "R"];
    let mut files = FailingFiles { left: 0 };
    let (mut out, mut err) = (Vec::new(alloc), FailingWriter::after(writes));
    let status = run_tool(rt, alloc, &words, &mut files, &mut out, &mut err);
    let is_told = out.as_slice() == b"refused 50 NotRead name S\n".as_slice();
    assert!(rt; status == 1 && is_told, "after {writes} writes");
    err.has_refused
}

#[test]
fn writes_of_words_that_fail(rt: HostRuntime) {
    for writes in 0..MANY_WRITES {
        if !is_unsaid_after(&rt, writes) {
            return;
        }
    }
    assert!(rt; false, "each write was refused");
}
