//! Texts that go into a file, and what is there where they do not.

use crate::tests::failing_system::{FailingSystem, Fails};
use crate::tests::samples::{
    Answer, FIRST_PLAN, Host, SCI, System, THREE_STEPS, answer_to, answers, holds, joined,
    replaced, told,
};
use mm_commands::SystemFiles;
use std::os::unix;
use std::{env, fs, rt};

// What stands in a file before.
const OLD: &str = "yesterday's plan\n";

// The files of first_run, a forecast that is refused, a plan, an old file, and one that an earlier run left over.
static FILES: [(&str, &str); 6] = [
    ("S", SCI),
    ("F", THREE_STEPS),
    ("BAD", "step,window,SCI\n2,2,3\n"),
    ("P", FIRST_PLAN),
    ("OLD", OLD),
    ("NEW.new1", OLD),
];

// The whole name of a file of the folder.
fn whole(rt: &impl Host, folder: &str, name: &str) -> String {
    joined(rt, &[folder, "/", name])
}

// A new folder with these files.
pub(crate) fn make_folder(rt: &impl System, name: &str) -> String {
    let temporary = env::temp_dir(rt).expect(rt, "a folder");
    let folder = joined(rt, &[temporary.as_str(), "/mm_tool-", name]);
    let _left_over = fs::remove_dir_all(rt, folder.as_str());
    fs::create_dir(rt, folder.as_str()).expect(rt, "a folder");
    for (name, text) in &FILES {
        let name = whole(rt, folder.as_str(), name);
        fs::write(rt, name.as_str(), *text).expect(rt, "a file");
    }
    folder
}

pub(crate) fn remove(rt: &impl System, folder: &str) {
    fs::remove_dir_all(rt, folder).expect(rt, "a folder");
}

// Whether a file of the folder has this text.
fn has(rt: &impl System, folder: &str, name: &str, text: &str) -> bool {
    let name = whole(rt, folder, name);
    let found = fs::read_to_string(rt, name.as_str()).expect(rt, "a file");
    found.as_str() == text
}

fn is_there(rt: &impl System, folder: &str, name: &str) -> bool {
    let name = whole(rt, folder, name);
    fs::symlink_metadata(rt, name.as_str()).is_ok()
}

// What the program answers to a line of words, in which @ stands for the folder, where standard input has this text.
pub(crate) fn run_with(
    rt: &impl Host,
    system: &impl rt::Files,
    folder: &str,
    line: &str,
    input: &str,
) -> Answer {
    let mut words: Vec<String> = Vec::new(rt.alloc());
    for word in line.split(' ') {
        let word = replaced(rt, word, "@", folder);
        words.push(word).expect(rt, "memory");
    }
    let mut files = SystemFiles::new(rt.alloc(), system, input.as_bytes());
    answer_to(rt, &words, &mut files)
}

// The same, where standard input is empty.
fn run(rt: &impl Host, system: &impl rt::Files, folder: &str, line: &str) -> Answer {
    run_with(rt, system, folder, line, "")
}

// Tasks whose text is stored, each with the file and with one that is not left over. A file that is not there yet is
// made.
static STORED: [(&str, &str, &str); 10] = [
    ("chart @/S @/F @/P", "OLD", "OLD.new1"),
    ("chart --worth @/S @/F @/P", "OLD", "OLD.new1"),
    ("chart @/S @/F @/P --worth", "OLD", "OLD.new1"),
    ("plan --in-order @/S @/F", "OLD", "OLD.new1"),
    ("plan @/S @/F --keep @/P 2", "OLD", "OLD.new1"),
    ("table @/S @/F @/P", "OLD", "OLD.new1"),
    ("rest @/S @/F @/P 2", "OLD", "OLD.new1"),
    ("sensitivity @/S @/F", "OLD", "OLD.new1"),
    ("plan @/S @/F", "NEW", "NEW.new2"),
    ("plan @/S @/F", "OLD", "OLD.new1"),
];

// The words of a task with the file of its output.
fn with_output(rt: &impl Host, task: &str, output: &str, file: &str) -> String {
    joined(rt, &[task, output, file])
}

// The text of a task goes into the file as it is printed, and nothing is printed then; what is said is the same. What an
// earlier run left over is passed over.
fn stores(rt: &impl System, folder: &str, task: &str, file: &str, left_over: &str) {
    let printed = run(rt, rt, folder, task);
    let is_printed = printed.status == 0 && !printed.out.is_empty();
    holds(rt, task, &printed, is_printed);
    for output in [" --output @/", " --output=@/"] {
        let line = with_output(rt, task, output, file);
        let stored = run(rt, rt, folder, line.as_str());
        let is_same = stored.has("", 0) && stored.err.as_str() == printed.err.as_str();
        let is_stored = is_same && has(rt, folder, file, printed.out.as_str());
        let is_alone = has(rt, folder, "NEW.new1", OLD) && !is_there(rt, folder, left_over);
        holds(rt, line.as_str(), &stored, is_stored && is_alone);
    }
}

fn each_is_stored(rt: &impl System) {
    let folder = make_folder(rt, "stored");
    for (task, file, left_over) in &STORED {
        stores(rt, folder.as_str(), task, file, left_over);
    }
    let answer = run(rt, rt, folder.as_str(), "check @/S @/F @/OLD");
    holds(rt, "the stored plan", &answer, answer.has("least 2\n", 0));
    remove(rt, folder.as_str());
}

#[test]
fn texts_are_stored(rt: HostRuntime) {
    each_is_stored(&rt);
}

// A line whose text is not stored, what is printed, and what is said.
struct Unstored {
    line: &'static str,
    prints: &'static str,
    says: &'static str,
}

// In a new folder the program answers so, and each file is as it was.
fn leaves(rt: &impl System, system: &impl rt::Files, name: &str, row: &Unstored) {
    let folder = make_folder(rt, name);
    let answer = run(rt, system, folder.as_str(), row.line);
    let says = replaced(rt, row.says, "@", folder.as_str());
    let is_told = answer.has(row.prints, 1) && answer.err.as_str() == says.as_str();
    let is_kept = has(rt, folder.as_str(), "OLD", OLD)
        && !is_there(rt, folder.as_str(), "OLD.new1");
    holds(rt, row.line, &answer, is_told && is_kept);
    remove(rt, folder.as_str());
}

// A task that is refused. A folder is not replaced, and a file in a folder that is not there is not made.
static UNSTORED: [Unstored; 4] = table! { Unstored;
    line "plan @/S @/BAD --output @/OLD", prints "refused 32 StepNumber row 1\n",
        says "\
@/BAD, row 1: expected the number of the next step, where the first is 1; number the records 1, 2, 3 and so on
hint: the step is \"2\" in line 2 of the file, whose header is line 1; it is to be 1
";
    line "plan @/S @/F --output @", prints "",
        says "mm_tool: @ could not be written, and is as it was: what has this name is no file, but a folder, a device \
            or a link\n";
    line "plan @/S @/F --output @/NONE/P", prints "",
        says "mm_tool: @/NONE/P could not be written, and is as it was: its folder is not there\n";
    line "plan @/S @/F --output=", prints "",
        says "mm_tool: the name of the output is empty; write --output FILE\n";
};

#[test]
fn a_refusal_leaves_the_file(rt: HostRuntime) {
    for row in &UNSTORED {
        leaves(&rt, &rt, "refused", row);
    }
}

static FAILURES: [Fails; 6] = [
    Fails::Open,
    Fails::WriteAfter(0),
    Fails::WriteAfter(1),
    Fails::WriteAfter(20),
    Fails::Sync,
    Fails::Rename,
];

static NO_ROOM: Unstored = Unstored {
    line: "plan @/S @/F --output @/OLD",
    prints: "",
    says: "mm_tool: @/OLD could not be written, and is as it was: there is no room left\n",
};

#[test]
fn a_write_that_fails_leaves_the_file(rt: HostRuntime) {
    for fails in &FAILURES {
        let system = FailingSystem {
            runtime: &rt,
            fails: *fails,
        };
        leaves(&rt, &system, "failed", &NO_ROOM);
    }
}

// Tasks whose output is one of their own files, under its name or another, and that output.
static OWN: [(&str, &str); 10] = [
    ("plan @/S @/F", "F"),
    ("plan @/S @/F", "S"),
    ("chart @/S @/F @/P", "P"),
    ("table @/S @/F @/P", "F"),
    ("plan @/S @/F", "./F"),
    ("plan @/S @/F", "FOLDER/F"),
    ("plan @/S @/F", "LINK"),
    ("plan @/S @/LINK", "F"),
    ("plan @/S @/F", "TWIN"),
    ("plan @/S @/TWIN", "F"),
];

// A new folder in which F has a link, a hard link and a copy, and the folder a link.
fn make_links(rt: &impl System) -> String {
    let folder = make_folder(rt, "own");
    let name = |file: &str| whole(rt, folder.as_str(), file);
    let (file, copy) = (name("F"), name("COPY"));
    unix::fs::symlink(rt, "F", name("LINK").as_str()).expect(rt, "a link");
    unix::fs::symlink(rt, ".", name("FOLDER").as_str()).expect(rt, "a link");
    fs::hard_link(rt, file.as_str(), name("TWIN").as_str()).expect(rt, "a link");
    fs::copy(rt, file.as_str(), copy.as_str()).expect(rt, "a copy");
    folder
}

// The task is not done, its output is told, and no file has changed.
fn is_kept(rt: &impl System, folder: &str, task: &str, output: &str) {
    let line = joined(rt, &[task, " --output @/", output]);
    let answer = run(rt, rt, folder, line.as_str());
    let says = " could not be written, and is as it was: it is a file that the task reads\n";
    let says = joined(rt, &["mm_tool: ", folder, "/", output, says]);
    let is_told = answer.has("", 1) && answer.err.as_str() == says.as_str();
    let are_kept = has(rt, folder, "S", SCI)
        && has(rt, folder, "F", THREE_STEPS)
        && has(rt, folder, "P", FIRST_PLAN);
    let is_alone = !is_there(rt, folder, "F.new1") && !is_there(rt, folder, "S.new1");
    holds(rt, line.as_str(), &answer, is_told && are_kept && is_alone);
}

fn own_files_are_kept(rt: &impl System) {
    let folder = make_links(rt);
    for (task, output) in &OWN {
        is_kept(rt, folder.as_str(), task, output);
    }
    let answer = run(rt, rt, folder.as_str(), "plan @/S @/F --output @/COPY");
    let is_stored = has(rt, folder.as_str(), "COPY", FIRST_PLAN);
    holds(rt, "a copy", &answer, answer.has("", 0) && is_stored);
    remove(rt, folder.as_str());
}

// What a task reads is not replaced by what it makes. A copy of it may be.
#[test]
fn an_output_is_no_input(rt: HostRuntime) {
    own_files_are_kept(&rt);
}

// Words with an output: as one word or as two, and at any place after the command.
static OUTPUTS: [&str; 6] = [
    "plan S F --output P",
    "plan S F --output=P",
    "plan --output P S F",
    "plan S --output=P F",
    "plan --output P -- S F",
    "plan --output=P --in-order S F",
];

// The files of a script are not written, and its output is told as one that was not.
#[test]
fn scripts_store_nothing(rt: HostRuntime) {
    let unwritten =
        "mm_tool: P could not be written, and is as it was: the files of a script are only read\n";
    for words in &OUTPUTS {
        let script = [*words, "\n=== S\n", SCI, "=== F\n", THREE_STEPS];
        answers(&rt, &script, "", unwritten, 1);
    }
}

// Other bad lines with an output, and what is said first.
static BAD: [(&str, &str); 3] = wanted! {
    "plan S F P --output X\n" => "error: unexpected argument 'P' found\n";
    "plan S --output X\n"
    => "error: the following required arguments were not provided:\n  <FORECAST>\n";
    "plan -x F\n" => "error: unexpected argument '-x' found\n";
};

// A bad line is told with this first.
fn is_bad(rt: &impl Host, line: &str, front: &str) {
    let answer = told(rt, &[line]);
    let is_told = answer.has("", 2) && answer.err.as_str().starts_with(front);
    holds(rt, line, &answer, is_told);
}

#[test]
fn bad_lines_with_an_output(rt: HostRuntime) {
    for (line, front) in &BAD {
        is_bad(&rt, line, front);
    }
}
