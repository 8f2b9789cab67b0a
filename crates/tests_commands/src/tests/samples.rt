//! The examples that several modules share, and what runs the program on them.

use mm_commands::{Files, run_script, run_tool};
use std::convert::AsStr;
use std::process::Abort;
use std::rt;
use std::sync::Wait;
use std::thread::Threads;

pub(crate) const SCI: &str = "\
    [[store]]\nid = \"SCI\"\nsize = 4\ntype = \"bounded\"\nchannel = 0\n\n\
    [[route]]\napid = 100\nservice = 3\nsubtype = 25\nstore = \"SCI\"\n";

pub(crate) const SCI_STARTS_WITH_2: &str =
    "[[store]]\nid = \"SCI\"\nsize = 4\ntype = \"bounded\"\nchannel = 0\nstart = 2\n";

pub(crate) const SCI_OF_SIZE_2: &str =
    "[[store]]\nid = \"SCI\"\nsize = 2\ntype = \"bounded\"\nchannel = 0\n";

pub(crate) const A_WITH_LIMIT_1: &str = "\
    [[store]]\nid = \"A\"\nsize = 3\ntype = \"bounded\"\nchannel = 0\n\n\
    [[limit]]\nchannel = 0\nblocks = 1\n";

pub(crate) const A_AND_B: &str = "\
    [[store]]\nid = \"A\"\nsize = 3\ntype = \"bounded\"\nchannel = 0\n\n\
    [[store]]\nid = \"B\"\nsize = 3\ntype = \"bounded\"\nchannel = 0\n";

pub(crate) const THREE_STEPS: &str = "step,window,SCI\n1,2,3\n2,2,3\n3,0,4\n";

pub(crate) const APART: &str = "step,window,SCI\n1,0,5\n2,9,0\n3,0,5\n";

pub(crate) const TWO_STEPS_OF_A: &str = "step,window,A\n1,5,3\n2,0,3\n";

pub(crate) const SHARED_WINDOW: &str = "step,window,A,B\n1,2,3,3\n2,0,2,2\n";

pub(crate) const FIRST_PLAN: &str = "\
mmplan 1
stores SCI
dump 1 2
dump 2 2
dump 3 0
loss 2
stretch SCI 1 3
bound 2
end
";

// What gives memory, ends a test that fails, and runs the program.
pub(crate) trait Host: Abort + AllocGlobal + Threads + Wait + Sync {}

impl<R: Abort + AllocGlobal + Threads + Wait + Sync> Host for R {}

// The same with the files of the system.
pub(crate) trait System: Host + rt::Env + rt::Files {}

impl<R: Host + rt::Env + rt::Files> System for R {}

// What the program answers: what it writes to standard output and to standard error, and its status.
#[derive(Drop)]
pub(crate) struct Answer {
    pub(crate) out: String,
    pub(crate) err: String,
    pub(crate) status: u8,
}

impl Answer {
    // The answer of a program that wrote these bytes.
    pub(crate) fn of(rt: &impl Host, out: Vec<u8>, err: Vec<u8>, status: u8) -> Answer {
        let out = String::from_utf8(out).expect(rt, "UTF-8");
        let err = String::from_utf8(err).expect(rt, "UTF-8");
        Answer { out, err, status }
    }

    // Whether this is printed, with this status.
    pub(crate) fn has(&self, out: &str, status: u8) -> bool {
        self.out.as_str() == out && self.status == status
    }
}

// The answer to an example is as wanted, or a test fails and shows it.
pub(crate) fn holds(rt: &impl Host, example: &str, answer: &Answer, is_wanted: bool) {
    let (out, err, status) = (answer.out.as_str(), answer.err.as_str(), answer.status);
    assert!(rt; is_wanted, "for {example}: {status}\n{out}{err}");
}

// The parts of a script that has a plan made of these files.
pub(crate) fn to_plan<'a>(setup: &'a str, forecast: &'a str) -> [&'a str; 4] {
    ["plan S F\n=== S\n", setup, "=== F\n", forecast]
}

// The parts of a script for a command that takes a setup, a forecast and a plan.
pub(crate) fn of_plan<'a>(command: &'a str, files: [&'a str; 3]) -> [&'a str; 7] {
    let (words, [setup, forecast, plan]) = (" S F P\n=== S\n", files);
    [command, words, setup, "=== F\n", forecast, "=== P\n", plan]
}

// One of these parts after another.
pub(crate) fn joined(rt: &impl Host, parts: &[&str]) -> String {
    parts.join(rt.alloc(), "").expect(rt, "memory")
}

// A text with one text in the place of another.
pub(crate) fn replaced(rt: &impl Host, text: &str, old: &str, new: &str) -> String {
    text.replace(rt.alloc(), old, new).expect(rt, "memory")
}

// What the program answers to the words of a command line, over these files.
pub(crate) fn answer_to<S: AsStr, F: Files>(rt: &impl Host, words: &[S], files: &mut F) -> Answer {
    let alloc = rt.alloc();
    let (mut out, mut err) = (Vec::new(alloc), Vec::new(alloc));
    let status = run_tool(rt, alloc, words, files, &mut out, &mut err);
    Answer::of(rt, out, err, status)
}

// What the program answers to a script.
pub(crate) fn told_bytes(rt: &impl Host, script: &[u8]) -> Answer {
    let alloc = rt.alloc();
    let (mut out, mut err) = (Vec::new(alloc), Vec::new(alloc));
    let status = run_script(rt, alloc, script, &mut out, &mut err);
    Answer::of(rt, out, err, status)
}

// What the program answers to the script of these parts.
pub(crate) fn told(rt: &impl Host, script: &[&str]) -> Answer {
    told_bytes(rt, joined(rt, script).as_bytes())
}

// The program prints this for a script, and ends with this status. It says something on standard error where the status
// is not 0, and nothing otherwise.
pub(crate) fn prints(rt: &impl Host, example: &str, script: &[&str], out: &str, status: u8) {
    let answer = told(rt, script);
    let is_said = answer.err.is_empty() == (status == 0);
    holds(rt, example, &answer, is_said && answer.has(out, status));
}

// The program prints this for a script, says this on standard error, and ends with this status.
pub(crate) fn answers(rt: &impl Host, script: &[&str], out: &str, err: &str, status: u8) {
    let answer = told(rt, script);
    let is_said = answer.err.as_str() == err;
    holds(rt, err, &answer, is_said && answer.has(out, status));
}

// The program prints its line for each of these scripts, and ends with status 1.
pub(crate) fn refuses(rt: &impl Host, cases: &[(&str, &str)]) {
    for (script, line) in cases {
        prints(rt, script, &[*script], line, 1);
    }
}

// `check` prints this line for a setup, a forecast and a plan; its status is 0 where the line is `least`.
pub(crate) fn checks(rt: &impl Host, example: &str, files: [&str; 3], line: &str) {
    let status = u8::from(!line.starts_with("least"));
    prints(rt, example, &of_plan("check", files), line, status)
}
