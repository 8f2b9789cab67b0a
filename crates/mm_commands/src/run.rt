//! The program, over any files and any writers.
ghost use Rattle.std.specs.Prelude.{◌≡◌, ◌≢◌, ◌≤◌, IfOk, IfErr, map};
ghost use Rattle.mm_files.specs.Contents.{seen};
ghost use Rattle.mm_commands.specs.Statuses.{exit_code};
ghost use Rattle.mm_commands.specs.declared.status.Status.TheVariants.{BadCommandLine};
ghost use Rattle.mm_command_line.specs.Lines.{IsTaskLine};
ghost use Rattle.mm_commands.specs.Doing.{AreDone, Does, DoesScript, IsTaskScript, words_in};
ghost use Rattle.mm_commands.specs.Streams.{ReadsTwice};

use crate::status::{Status, Unwritten};
use crate::streams::reads_twice;
use crate::tasks::{self, do_task};
use clap::error::ErrorKind;
use mm_command_line::{FlagFault, VERSION, asks_version, flag_fault, parse};
use mm_files::{Files, ReadFault, ScriptFiles, first_line};
use mm_sensitivity::{Progress, Silent};
use std::alloc::{AllocError, Global};
use std::convert::AsStr;
use std::fmt;
use std::io::{self, Write};
use std::sync::Wait;
use std::thread::Threads;

// What ends the text of a bad command line.
const MORE: &str = "For more information, try '--help'.";

// What is said of words that have standard input for more than one file.
const READ_TWICE: &str =
    "standard input, which - names, is given for more than one file; give it once, and name the other files";

/// Does what the words of a command line, without the program's own name, ask for. What answers the task goes to `out`,
/// or into the file of its output. The line that says why it is refused goes to `out`, and so does the version. The
/// texts of a bad command line and of help go to `err`, and so do the lines that say more of an answer or a refusal.
/// The error says what could not be written. The progress is told how far a long answer has come.
pub fn run_words<R: Threads + Wait + Sync, S: AsStr, F: Files, W: Write, E: Write, P: Progress>(
    rt: &R,
    alloc: Global,
    words: &[S],
    files: &mut F,
    out: &mut W,
    err: &mut E,
    progress: &mut P,
) -> Result<Status, Unwritten>
    ensures does { IfOk result (λ status. Does (seen F.has_streams (F.content files.old) (F.readings files.old))
        (seen F.has_streams (F.content files.new) (F.readings files.new))
        (map S.text words.now) status (W.contents out.old) (W.contents out.new)) }
    // Words that spell a task, and have standard input for one file at most, are no bad command line.
    ensures taken { IsTaskLine (map S.text words.now) → (ReadsTwice F.has_streams (map S.text words.now) → ⊥)
        → IfOk result (λ status. status ≢ BadCommandLine) }
    ensures kept { IfErr result (λ _. F.content files.new ≡ F.content files.old) }
{
    if asks_version(words) {
        out.write_all(VERSION.as_bytes())
            .map_err(|_| Unwritten::Output)?;
        return Ok(Status::Done);
    }
    match parse(alloc, words) {
        Ok(task) if reads_twice(F::has_streams(), task) => bad_line(tell_wrong(READ_TWICE, err)),
        Ok(task) => do_task(rt, alloc, task, files, out, err, progress),
        Err(error) if error.kind() == ErrorKind::OutOfMemory => {
            tasks::refuse_input(ReadFault::NoMemory, out, err)
        }
        Err(error) => refuse_bad_words(&error, words, err),
    }
}

// Says what is wrong with the words of a command line.
fn tell_wrong<T: fmt::Display + Drop, E: Write>(text: T, err: &mut E) -> io::Result<()> {
    write!(err, "error: {text}\n\n{MORE}\n")
}

// The status of a bad command line, where it could be said what is wrong with it.
fn bad_line(said: io::Result<()>) -> Result<Status, Unwritten>
    ensures status { IfOk result (λ status. status ≡ BadCommandLine) }
{
    said.map_err(|_| Unwritten::Messages)?;
    Ok(Status::BadCommandLine)
}

// What is wrong with a flag among words that spell no task.
fn wrong_flag<S: AsStr>(kind: ErrorKind, words: &[S]) -> Option<FlagFault<'_>> {
    match kind {
        ErrorKind::UnknownArgument => flag_fault(words),
        ErrorKind::DisplayVersion => Some(FlagFault::NotAlone("--version")),
        _ => None,
    }
}

// Says what is wrong with words that spell no task, or the help that they ask for.
fn refuse_bad_words<S: AsStr, E: Write>(
    error: &clap::Error,
    words: &[S],
    err: &mut E,
) -> Result<Status, Unwritten>
    ensures status { IfOk result (λ status. status ≡ BadCommandLine) }
{
    bad_line(match wrong_flag(error.kind(), words) {
        Some(fault) => tell_wrong(fault, err),
        None => write!(err, "{error}"),
    })
}

// The exit status of a run. Where standard output could not be written, standard error says so.
fn end<E: Write>(run: Result<Status, Unwritten>, err: &mut E) -> u8
    ensures code { IfOk run (λ status. result ≡ exit_code status) }
    ensures failed { IfErr run (λ unwritten. result ≡ 1) }
    ensures most { result ≤ 2 }
{
    if let Err(Unwritten::Output) = run {
        let _told = writeln!(err, "mm_tool: standard output could not be written");
    }
    Status::code_of(run)
}

/// Runs the program on its words, as `run_words` does. The exit status is 0 where the task is done or the version is
/// told, 1 where something is refused, a verdict is neither `Least` nor `LeastInOrder` or a write failed, and 2 for a
/// bad command line or a call for help. Where `out` could not be written, a line on `err` says so.
pub fn run_tool_with_progress<
    R: Threads + Wait + Sync,
    S: AsStr,
    F: Files,
    W: Write,
    E: Write,
    P: Progress,
>(
    rt: &R,
    alloc: Global,
    words: &[S],
    files: &mut F,
    out: &mut W,
    err: &mut E,
    progress: &mut P,
) -> u8
    ensures status { result ≤ 2 }
    // Where the exit status is 0, the task that the words ask for was done: what was written answers it. Or they ask
    // for the version.
    ensures does { result ≡ 0 → AreDone (seen F.has_streams (F.content files.old) (F.readings files.old))
        (seen F.has_streams (F.content files.new) (F.readings files.new))
        (map S.text words.now) (W.contents out.old) (W.contents out.new) }
    // Words that spell a task, and have standard input for one file at most, are no bad command line.
    ensures taken { IsTaskLine (map S.text words.now) → (ReadsTwice F.has_streams (map S.text words.now) → ⊥)
        → result ≤ 1 }
    // Where the task was not done, each file is as it was.
    ensures kept { result ≢ 0 → F.content files.new ≡ F.content files.old }
{
    let run = run_words(rt, alloc, words, files, out, err, progress);
    end(run, err)
}

/// What `run_tool_with_progress` does, with no progress shown.
pub fn run_tool<R: Threads + Wait + Sync, S: AsStr, F: Files, W: Write, E: Write>(
    rt: &R,
    alloc: Global,
    words: &[S],
    files: &mut F,
    out: &mut W,
    err: &mut E,
) -> u8
    ensures status { result ≤ 2 }
    ensures does { result ≡ 0 → AreDone (seen F.has_streams (F.content files.old) (F.readings files.old))
        (seen F.has_streams (F.content files.new) (F.readings files.new))
        (map S.text words.now) (W.contents out.old) (W.contents out.new) }
    ensures taken { IsTaskLine (map S.text words.now) → (ReadsTwice F.has_streams (map S.text words.now) → ⊥)
        → result ≤ 1 }
    ensures kept { result ≢ 0 → F.content files.new ≡ F.content files.old }
{
    run_tool_with_progress(rt, alloc, words, files, out, err, &mut Silent)
}

// Says why no words are read, and gives the exit status.
fn refuse_line<E: Write>(why: &str, err: &mut E) -> u8
    ensures refused { result ≢ 0 }
    ensures status { result ≤ 2 }
{
    match writeln!(err, "error: {why}") {
        Ok(()) => Status::BadCommandLine.code(),
        Err(_) => Status::Refused.code(),
    }
}

/// Says why the words of a command line were not read, as the error tells, and gives the exit status: 2, or 1 where a
/// write failed.
pub fn refuse_words<E: Write>(error: &io::Error, err: &mut E) -> u8
    ensures refused { result ≢ 0 }
    ensures status { result ≤ 2 }
{
    let why = match error.kind() {
        io::ErrorKind::OutOfMemory => "there is no memory for the words of the command line",
        _ => "the words of the command line are not UTF-8",
    };
    refuse_line(why, err)
}

/// Runs the program on a script: a first line with the words, separated by single spaces, and then the files.
pub fn run_script_with_progress<R: Threads + Wait + Sync, W: Write, E: Write, P: Progress>(
    rt: &R,
    alloc: Global,
    script: &[u8],
    out: &mut W,
    err: &mut E,
    progress: &mut P,
) -> u8
    ensures status { result ≤ 2 }
    // Where the exit status is 0, the task of the first line was done over the files of the script: what was written
    // answers it. Or the line asks for the version.
    ensures does { result ≡ 0 → DoesScript script.now (W.contents out.old) (W.contents out.new) }
    ensures taken { IsTaskScript script.now → result ≤ 1 }
{
    let (line, files) = first_line(script);
    let Ok(line) = std::str::from_utf8(line) else {
        return refuse_line("the first line of the script is not UTF-8", err);
    };
    let words: Vec<&str> = match words_of(alloc, line) {
        Ok(words) => words,
        Err(_) => return refuse_input(ReadFault::NoMemory, out, err),
    };
    run_tool_with_progress(
        rt,
        alloc,
        words.as_slice(),
        &mut ScriptFiles::new(files),
        out,
        err,
        progress,
    )
}

/// What `run_script_with_progress` does, with no progress shown.
pub fn run_script<R: Threads + Wait + Sync, W: Write, E: Write>(
    rt: &R,
    alloc: Global,
    script: &[u8],
    out: &mut W,
    err: &mut E,
) -> u8
    ensures status { result ≤ 2 }
    ensures does { result ≡ 0 → DoesScript script.now (W.contents out.old) (W.contents out.new) }
    ensures taken { IsTaskScript script.now → result ≤ 1 }
{
    run_script_with_progress(rt, alloc, script, out, err, &mut Silent)
}

// The words of a line, separated by single spaces; an empty line has none.
fn words_of(alloc: Global, line: &str) -> Result<Vec<&str>, AllocError>
    ensures words { IfOk result (λ words. map (λ word. word.now) words.items ≡ words_in line.now) }
{
    if line.is_empty() {
        Ok(Vec::new(alloc))
    } else {
        line.split(' ').collect(alloc)
    }
}

/// Says that the program's own input was not read, and gives the exit status.
pub fn refuse_input<W: Write, E: Write>(fault: ReadFault, out: &mut W, err: &mut E) -> u8
    ensures status { result ≡ 1 }
{
    let run = tasks::refuse_input(fault, out, err);
    end(run, err)
}
