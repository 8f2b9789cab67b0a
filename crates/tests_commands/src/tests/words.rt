//! Bad command lines, calls for help, and what a script may hold.

use crate::tests::failing::{FailingWriter, UNWRITTEN};
use crate::tests::samples::{
    Answer, FIRST_PLAN, Host, SCI, System, THREE_STEPS, answer_to, holds, joined, prints, refuses,
    told, told_bytes,
};
use mm_commands::{Obstacle, ReadFault, SystemFiles, refuse_input, refuse_words, run_script};
use std::io::{self, ErrorKind};
use std::rt;

// Bad lines, and calls for help: one line for each command, or for two.
static LINES: [&str; 26] = lines! {
    "", "dump S F", "--help", "--version plan", "-- --version",
    "plan S", "plan  S F", "plan S F P", "plan --help", "plan --version",
    "check S F", "check --help", "check S F P Q",
    "chart S F", "chart --help", "table S F", "table --help",
    "run S F P X", "run --help", "fly S F X", "fly --help",
    "ask S", "ask --help", "read", "read R R", "read --help"
};

// A first line that is not UTF-8.
const NOT_UTF8: &[u8] = b"plan \xff F\n";

// Where a bad first line is not told, the status is that of a write that failed.
fn untold(rt: &impl Host) {
    let (mut out, mut err) = (Vec::new(rt.alloc()), FailingWriter::after(0));
    let status = run_script(rt, rt.alloc(), NOT_UTF8, &mut out, &mut err);
    assert!(rt; status == 1 && out.is_empty());
}

#[test]
fn a_first_line_that_is_not_utf8(rt: HostRuntime) {
    let answer = told_bytes(&rt, NOT_UTF8);
    let is_told = answer.has("", 2) && !answer.err.is_empty();
    holds(&rt, "a first line that is not UTF-8", &answer, is_told);
    untold(&rt);
}

#[test]
fn command_lines(rt: HostRuntime) {
    for line in &LINES {
        prints(&rt, line, &[*line], "", 2);
    }
    prints(&rt, "no line", &[""], "", 2);
}

// Where the version is not written, standard error says so.
fn version_unwritten(rt: &impl Host) {
    let (mut out, mut err) = (FailingWriter::after(0), Vec::new(rt.alloc()));
    let status = run_script(rt, rt.alloc(), b"--version", &mut out, &mut err);
    assert!(rt; status == 1 && err.as_slice() == UNWRITTEN);
}

fn tells_version(rt: &impl Host, line: &str) {
    let answer = told(rt, &[line]);
    let version = "mm_tool 0.4.0\nrattle-kit-";
    let is_version = answer.out.as_str().starts_with(version);
    let is_quiet = answer.status == 0 && answer.err.is_empty();
    holds(rt, line, &answer, is_version && is_quiet);
}

#[test]
fn the_version_is_told(rt: HostRuntime) {
    for line in ["--version\n", "-V\n", "--version"] {
        tells_version(&rt, line);
    }
    version_unwritten(&rt);
}

// What stands before the first file is passed over, and of two files of one name the first is read.
#[test]
fn files_of_a_script(rt: HostRuntime) {
    let [front, plan, end] = [
        "check S F P\na note\n=== S\n",
        "=== P\n",
        "=== S\n[[store\n",
    ];
    let twice = [front, SCI, "=== F\n", THREE_STEPS, plan, FIRST_PLAN, end];
    prints(&rt, "S twice", &twice, "least 2\n", 0);
    refuses(&rt, &[("plan - F\n=== S\n", "refused 50 NotRead name -\n")]);
}

// First lines of a script, what is printed, and the status.
static DASHES: [(&str, &str, u8); 3] = [
    ("check -- -S F P", "least 2\n", 0),
    ("check -- -- F P", "least 2\n", 0),
    ("check -S -- F P", "", 2),
];

// After `--` no word is a flag, and the `--` is no word itself.
#[test]
fn names_after_two_dashes(rt: HostRuntime) {
    for (words, out, status) in &DASHES {
        let (setup, other) = ("\n=== -S\n", "=== --\n");
        let script = [
            *words,
            setup,
            SCI,
            "=== F\n",
            THREE_STEPS,
            "=== P\n",
            FIRST_PLAN,
            other,
            SCI,
        ];
        prints(&rt, words, &script, out, *status);
    }
}

#[test]
fn input_that_is_not_read(rt: HostRuntime) {
    let (mut out, mut err) = (Vec::new(rt.alloc()), Vec::new(rt.alloc()));
    let fault = ReadFault::NotRead {
        obstacle: Obstacle::Failed,
    };
    let status = refuse_input(fault, &mut out, &mut err);
    let answer = Answer::of(&rt, out, err, status);
    let is_told = answer.has("refused 50 NotRead name -\n", 1) && !answer.err.is_empty();
    holds(&rt, "an input that is not read", &answer, is_told);
}

// Why the words of a command line were not read, and what is said of it.
static UNREAD: [(ErrorKind, &str); 2] = wanted! {
    ErrorKind::InvalidData => "error: the words of the command line are not UTF-8\n";
    ErrorKind::OutOfMemory => "error: there is no memory for the words of the command line\n";
};

// Words that are not read are a bad command line, unless standard error does not take that.
fn is_unread(rt: &impl Host, kind: ErrorKind, said: &str) {
    let error = io::Error::from(kind);
    let mut err = Vec::new(rt.alloc());
    let status = refuse_words(&error, &mut err);
    let untold = refuse_words(&error, &mut FailingWriter::after(0));
    assert!(rt;
        (status, untold) == (2, 1) && err.as_slice() == said.as_bytes(),
        "{said}"
    );
}

#[test]
fn words_that_are_not_read(rt: HostRuntime) {
    for (kind, said) in &UNREAD {
        is_unread(&rt, *kind, said);
    }
}

// Names of files that are not there, and how they are shown: each control character as `?`, and no other.
static NAMES: [(&str, &str); 4] = [
    ("a b.csv", "a b.csv"),
    ("a\nrefused 0 NoMemory", "a?refused 0 NoMemory"),
    ("\t\u{1b}[31m\r\u{7f}", "??[31m??"),
    ("\u{e9}\u{2192}\u{1f6f0}", "\u{e9}\u{2192}\u{1f6f0}"),
];

// A file of this name is told as not read, in one line of standard output and one of standard error.
fn is_shown(rt: &impl System, name: &str, shown: &str) {
    let mut files = SystemFiles::new(rt.alloc(), rt, b"".as_slice());
    let answer = answer_to(rt, &["plan", name, "F"], &mut files);
    let line = joined(rt, &["refused 50 NotRead name ", shown, "\n"]);
    let front = joined(rt, &[shown, ": expected a file of this name; "]);
    let said = answer.err.as_str();
    let is_one_line = said.starts_with(front.as_str()) && said.lines().count() == 1;
    let is_told = answer.has(line.as_str(), 1) && is_one_line;
    holds(rt, shown, &answer, is_told);
}

#[test]
fn names_are_shown_in_one_line(rt: HostRuntime) {
    for (name, shown) in &NAMES {
        is_shown(&rt, name, shown);
    }
}
