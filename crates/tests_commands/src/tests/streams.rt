//! The name `-`: standard input as a file of a task, and standard output as its output.

use crate::tests::samples::{FIRST_PLAN, Host, SCI, System, THREE_STEPS, answers, holds, told};
use crate::tests::storing::{make_folder, remove, run_with};
use mm_commands::{Files, SystemFiles};
use std::fs;

// Lines, standard input, and what is printed. Standard input stands for any one file, and `--output -` prints.
static PIPED: [(&str, &str, &str); 7] = wanted! {
    "check @/S @/F -", FIRST_PLAN => "least 2\n";
    "plan - @/F", SCI => FIRST_PLAN;
    "plan @/S -", THREE_STEPS => FIRST_PLAN;
    "plan @/S @/F --output -", "" => FIRST_PLAN;
    "plan - @/F --output -", SCI => FIRST_PLAN;
    "plan --output=- @/S @/F", "" => FIRST_PLAN;
    "plan -- @/S -", THREE_STEPS => FIRST_PLAN;
};

const TWICE: &str = "\
error: standard input, which - names, is given for more than one file; give it once, and name the other files

For more information, try '--help'.
";

// Lines that have standard input for more than one file.
static TWICE_READ: [&str; 4] = [
    "plan - -",
    "plan - @/F --keep - 2",
    "check - @/F -",
    "fly @/S - - @/L --",
];

fn streams_are_used(rt: &impl System) {
    let folder = make_folder(rt, "streams");
    for (line, input, out) in &PIPED {
        let answer = run_with(rt, rt, folder.as_str(), line, input);
        let is_quiet = answer.err.is_empty();
        holds(rt, line, &answer, answer.has(out, 0) && is_quiet);
    }
    for line in &TWICE_READ {
        let answer = run_with(rt, rt, folder.as_str(), line, SCI);
        let is_told = answer.err.as_str() == TWICE;
        holds(rt, line, &answer, answer.has("", 2) && is_told);
    }
    remove(rt, folder.as_str());
}

#[test]
fn a_dash_is_a_standard_stream(rt: HostRuntime) {
    streams_are_used(&rt);
    let is_there = fs::symlink_metadata(&rt, "-").is_ok();
    assert!(&rt; !is_there, "a file named -");
}

// No text is stored under the name of standard output, and it is read to its end once.
#[test]
fn system_files_have_no_file_of_that_name(rt: HostRuntime) {
    let mut files = SystemFiles::new(rt.alloc(), &rt, b"ab".as_slice());
    let is_stored = files.store(rt.alloc(), "-", b"text").is_ok();
    let first = files.read(rt.alloc(), "-").expect(&rt, "standard input");
    let second = files.read(rt.alloc(), "-").expect(&rt, "its end");
    assert!(&rt; !is_stored && first.as_slice() == b"ab".as_slice() && second.is_empty());
}

// In a script `-` is a name like any other, of a file and of an output.
#[test]
fn a_dash_in_a_script_is_a_name(rt: HostRuntime) {
    let front = [
        "check S - P\n=== S\n",
        SCI,
        "=== -\n",
        THREE_STEPS,
        "=== P\n",
        FIRST_PLAN,
    ];
    answers(&rt, &front, "least 2\n", "", 0);
    let unwritten =
        "mm_tool: - could not be written, and is as it was: the files of a script are only read\n";
    let output = ["plan S F --output -\n=== S\n", SCI, "=== F\n", THREE_STEPS];
    answers(&rt, &output, "", unwritten, 1);
    is_read_twice(&rt);
}

// One file of a script may be named twice: the forecast that it is not is told.
fn is_read_twice(rt: &impl Host) {
    let answer = told(rt, &["plan - -\n=== -\n", SCI]);
    let is_told = answer.out.as_str().starts_with("refused 30 Header") && answer.status == 1;
    holds(rt, "a file named twice", &answer, is_told);
}
