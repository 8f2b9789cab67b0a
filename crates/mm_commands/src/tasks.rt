//! A task is done: what answers it goes to one writer or into a file, and what is said of it to another writer.
ghost use Rattle.std.specs.Prelude.{◌≡◌, ◌≢◌, List, Option, false, IfOk, IfErr, IfSome, IsFalse};
ghost use Rattle.std.specs.Io.KnownBytes.{Appends};
ghost use Rattle.mm_commands.specs.declared.status.Status.TheVariants.{Refused, BadCommandLine};
ghost use Rattle.mm_command_line.specs.Names.{names_in};
ghost use Rattle.mm_commands.specs.Answers.{AreOthers, Gives, IsAnswerTo, is_mission, is_run, output_in, status_in};
ghost use Rattle.mm_commands.specs.Answers.{text_in};
ghost use Rattle.mm_files.specs.Contents.{Contents, IsStored, Reading, WereRead, seen};
ghost use Rattle.mm_commands.specs.Faults.{refused_line};
ghost use Rattle.mm_commands.specs.Reading.{readings_of};
ghost use Rattle.mm_commands.specs.Refusing.{IsFaultIn, Settles, refused_input};
ghost use Rattle.mm_commands.specs.Streams.{file_of};

use crate::advice::tell_fault;
use crate::answers::{Answer, answer_without_run};
use crate::fault::Fault;
use crate::flight::do_run;
use crate::mission::{AskedMission, do_mission};
use crate::remark::{Found, tell_more};
use crate::status::{Status, Unwritten};
use crate::texts::TaskTexts;
use mm_command_line::{FileNames, Task};
use mm_files::{Files, ReadFault, STREAM, Shown, StoreFault, is_stream};
use mm_sensitivity::Progress;
use std::alloc::Global;
use std::io::{self, Write};
use std::sync::Wait;
use std::thread::Threads;

/// Says why a task is refused, what that means, and what is found.
pub(crate) fn refuse<'a, W: Write, E: Write>(
    task: Option<Task<'a>>,
    fault: Fault<'a>,
    found: Option<Found>,
    out: &mut W,
    err: &mut E,
) -> Result<Status, Unwritten>
    ensures line { IfOk result (λ status. Appends (W.contents out.old) (W.contents out.new)
        (refused_line fault.entry)) }
    ensures status { IfOk result (λ status. status ≡ Refused) }
{
    writeln!(out, "refused {fault}").map_err(|_| Unwritten::Output)?;
    tell_fault(task, fault, found, err).map_err(|_| Unwritten::Messages)?;
    Ok(Status::Refused)
}

/// Says that the program's own input was not read.
pub fn refuse_input<W: Write, E: Write>(
    fault: ReadFault,
    out: &mut W,
    err: &mut E,
) -> Result<Status, Unwritten>
    ensures line { IfOk result (λ status. Appends (W.contents out.old) (W.contents out.new) (refused_input fault)) }
    ensures status { IfOk result (λ status. status ≡ Refused) }
{
    let fault = match fault {
        ReadFault::NoMemory => Fault::NoMemory,
        ReadFault::NotRead { obstacle } => Fault::NotRead {
            name: STREAM,
            obstacle,
        },
    };
    refuse(None, fault, None, out, err)
}

// Whether the file of this name is known to be that of an input, where one is named.
fn is_that<F: Files>(files: &F, input: Option<&str>, name: &str) -> bool
    ensures other { IsFalse result → IfSome input.entry (λ input. input.now ≢ name.now) }
{
    match input {
        Some(input) => files.is_same_file(input, name),
        None => false,
    }
}

// Whether the file of this name is known to be one of these inputs.
fn is_among<F: Files>(files: &F, inputs: FileNames<'_>, name: &str) -> bool
    ensures others { IsFalse result → AreOthers inputs.entry name.now }
{
    is_that(files, inputs.setup, name)
        || is_that(files, inputs.forecast, name)
        || is_that(files, inputs.plan, name)
        || is_that(files, inputs.sources, name)
        || is_that(files, inputs.links, name)
        || is_that(files, inputs.other, name)
}

// Says why a text was not stored in the file of this name.
fn tell_unstored<E: Write>(name: &str, fault: StoreFault, err: &mut E) -> io::Result<()> {
    if name.is_empty() {
        return writeln!(
            err,
            "mm_tool: the name of the output is empty; write --output FILE"
        );
    }
    writeln!(
        err,
        "mm_tool: {} could not be written, and is as it was: {fault}",
        Shown(name)
    )
}

/// Stores the text in the file of this name, which must not be one that is read; standard error has its name where that
/// fails.
pub(crate) fn store_unless<F: Files, E: Write>(
    alloc: Global,
    files: &mut F,
    is_read: bool,
    name: &str,
    text: &[u8],
    err: &mut E,
) -> Result<(), Unwritten>
    ensures unless { IfOk result (λ _. is_read ≡ false) }
    ensures stored { IfOk result (λ _. IsStored (F.content files.old) (F.content files.new) name.now text.now) }
    ensures kept { IfErr result (λ _. F.content files.new ≡ F.content files.old) }
    ensures unread { F.readings files.new ≡ F.readings files.old }
{
    let stored = if is_read {
        Err(StoreFault::IsRead)
    } else {
        files.store(alloc, name, text)
    };
    match stored {
        Ok(()) => Ok(()),
        Err(fault) => {
            tell_unstored(name, fault, err).map_err(|_| Unwritten::Messages)?;
            Err(Unwritten::File)
        }
    }
}

// Stores the text in the file of this name, which must be none of the inputs.
fn store<F: Files, E: Write>(
    alloc: Global,
    files: &mut F,
    inputs: FileNames<'_>,
    name: &str,
    text: &[u8],
    err: &mut E,
) -> Result<(), Unwritten>
    ensures others { IfOk result (λ _. AreOthers inputs.entry name.now) }
    ensures stored { IfOk result (λ _. IsStored (F.content files.old) (F.content files.new) name.now text.now) }
    ensures kept { IfErr result (λ _. F.content files.new ≡ F.content files.old) }
    ensures unread { F.readings files.new ≡ F.readings files.old }
{
    let is_read = is_among(files, inputs, name);
    store_unless(alloc, files, is_read, name, text, err)
}

// Prints the answer.
fn print<W: Write>(answer: &Answer<'_>, out: &mut W) -> io::Result<()>
    ensures text { IfOk result (λ _. Appends (W.contents out.old) (W.contents out.new) (text_in answer.now)) }
{
    match answer {
        Answer::Text { text, .. } => out.write_all(text),
        Answer::Lines(replies) => out.write_all(&replies.text),
        Answer::Line { line, .. } => out.write_all(line),
    }
}

// Gives the answer to its writer, and then writes the messages on it. An output that is standard output is that writer.
// Into a file the answer goes last: where a write fails, no file is changed.
fn give<F: Files, W: Write, E: Write>(
    alloc: Global,
    task: Task<'_>,
    answer: &Answer<'_>,
    texts: &TaskTexts,
    files: &mut F,
    out: &mut W,
    err: &mut E,
) -> Result<Status, Unwritten>
    ensures given { IfOk result (λ status. Gives (file_of F.has_streams (output_in answer.now)) (text_in answer.now)
        (F.content files.old) (F.content files.new) (W.contents out.old) (W.contents out.new)) }
    // A text goes into no file that the task reads.
    ensures others { IfOk result (λ status. IfSome (file_of F.has_streams (output_in answer.now))
        (λ name. AreOthers (names_in task.entry) name.now)) }
    ensures status { IfOk result (λ status. status ≡ status_in answer.now) }
    ensures known { IfOk result (λ status. status ≢ BadCommandLine) }
    ensures kept { IfErr result (λ _. F.content files.new ≡ F.content files.old) }
    ensures unread { F.readings files.new ≡ F.readings files.old }
{
    match answer {
        Answer::Text {
            text,
            output: Some(name),
            ..
        } if !is_stream(F::has_streams(), *name) => {
            tell_more(alloc, task, answer, texts, err).map_err(|_| Unwritten::Messages)?;
            store(alloc, files, task.names(), *name, text, err)?;
        }
        _ => {
            print(answer, out).map_err(|_| Unwritten::Output)?;
            tell_more(alloc, task, answer, texts, err).map_err(|_| Unwritten::Messages)?;
        }
    }
    Ok(answer.status())
}

// Gives the answer to a task whose files were read, and have these texts, or says why it is refused.
fn conclude<'a, F: Files, W: Write, E: Write>(
    alloc: Global,
    task: Task<'a>,
    answer: Result<Answer<'a>, Fault<'a>>,
    texts: &TaskTexts,
    files: &mut F,
    out: &mut W,
    err: &mut E,
) -> Result<Status, Unwritten>
    requires answers { IfOk answer (IsAnswerTo task texts.now) }
    requires refused { IfErr answer (IsFaultIn task texts.now) }
    ensures prints { (contents : Contents) (readings : Option (List Reading)) → F.content files.old ≡ contents
        → WereRead contents readings (F.readings files.old) (readings_of (names_in task.entry) texts.now)
        → IfOk result (λ status. Settles (seen F.has_streams contents readings)
        (seen F.has_streams (F.content files.new) (F.readings files.new))
        task.entry status (W.contents out.old) (W.contents out.new)) }
    ensures status { IfOk result (λ status. status ≢ BadCommandLine) }
    ensures kept { IfErr result (λ _. F.content files.new ≡ F.content files.old) }
{
    match answer {
        Ok(answer) => give(alloc, task, &answer, texts, files, out, err),
        Err(fault) => {
            let found = fault.found(alloc, task, texts);
            refuse(Some(task), fault, found, out, err)
        }
    }
}

// Does a task other than a run and a mission.
fn do_answered<F: Files, W: Write, E: Write, P: Progress>(
    alloc: Global,
    task: Task<'_>,
    files: &mut F,
    out: &mut W,
    err: &mut E,
    progress: &mut P,
) -> Result<Status, Unwritten>
    requires other { is_run task ≡ false }
    requires told { is_mission task ≡ false }
    ensures prints { IfOk result (λ status. Settles (seen F.has_streams (F.content files.old) (F.readings files.old))
        (seen F.has_streams (F.content files.new) (F.readings files.new))
        task.entry status (W.contents out.old) (W.contents out.new)) }
    ensures status { IfOk result (λ status. status ≢ BadCommandLine) }
    ensures kept { IfErr result (λ _. F.content files.new ≡ F.content files.old) }
{
    match TaskTexts::read(alloc, files, task.names()) {
        Ok(texts) => {
            let answer = answer_without_run(alloc, task, &texts, progress);
            conclude(alloc, task, answer, &texts, files, out, err)
        }
        Err(fault) => refuse(Some(task), fault, None, out, err),
    }
}

/// Does a task other than a run, as `do_task` does, and waits for nothing.
pub fn do_without_run<F: Files, W: Write, E: Write, P: Progress>(
    alloc: Global,
    task: Task<'_>,
    files: &mut F,
    out: &mut W,
    err: &mut E,
    progress: &mut P,
) -> Result<Status, Unwritten>
    requires other { is_run task ≡ false }
    ensures prints { IfOk result (λ status. Settles (seen F.has_streams (F.content files.old) (F.readings files.old))
        (seen F.has_streams (F.content files.new) (F.readings files.new))
        task.entry status (W.contents out.old) (W.contents out.new)) }
    ensures status { IfOk result (λ status. status ≢ BadCommandLine) }
    ensures kept { IfErr result (λ _. F.content files.new ≡ F.content files.old) }
{
    match task {
        Task::Mission {
            mission,
            part,
            output,
        } => {
            let asked = AskedMission {
                name: mission,
                part,
                output,
            };
            do_mission(alloc, asked, files, out, err)
        }
        _ => do_answered(alloc, task, files, out, err, progress),
    }
}

/// Does a task. What answers it goes to `out`, or into the file of the task's output, and nothing of it to `out` then.
/// The line that says why a task is refused goes to `out`; what is said of an answer or of a refusal goes to `err`. The
/// status is `Done` where the task is done, and `Refused` where something is refused, a verdict is neither `Least` nor
/// `LeastInOrder`, or a run was halted. The error says what could not be written. No file is changed but that of the
/// output of a task that is done. Only a run may wait for its threads. The progress is told how far a long answer has
/// come.
pub fn do_task<R: Threads + Wait + Sync, F: Files, W: Write, E: Write, P: Progress>(
    rt: &R,
    alloc: Global,
    task: Task<'_>,
    files: &mut F,
    out: &mut W,
    err: &mut E,
    progress: &mut P,
) -> Result<Status, Unwritten>
    ensures prints { IfOk result (λ status. Settles (seen F.has_streams (F.content files.old) (F.readings files.old))
        (seen F.has_streams (F.content files.new) (F.readings files.new))
        task.entry status (W.contents out.old) (W.contents out.new)) }
    ensures status { IfOk result (λ status. status ≢ BadCommandLine) }
    ensures kept { IfErr result (λ _. F.content files.new ≡ F.content files.old) }
{
    match task {
        Task::Fly(flight) => do_run(rt, alloc, flight, files, out, err),
        _ => do_without_run(alloc, task, files, out, err, progress),
    }
}
