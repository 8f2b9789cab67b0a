//! A run is carried out: its plan is printed before it begins, and what became of it after it has ended.
ghost use Rattle.std.specs.Prelude.{◌≡◌, ◌≢◌, ◌++◌, IfOk, IfErr};
ghost use Rattle.std.specs.Io.KnownBytes.{Appends};
ghost use Rattle.mm_base.specs.Reading.{IfRefused};
ghost use Rattle.mm_command_line.specs.Names.{names_in};
ghost use Rattle.mm_command_line.specs.declared.task.Task.TheVariants.{Fly};
ghost use Rattle.mm_run.specs.Prepared.{plan_text_of};
ghost use Rattle.mm_run.specs.declared.fault.Fault.TheVariants as flight_fault;
ghost use Rattle.mm_commands.specs.Answers.{PreparesTexts, PrintsFlown, given_plan, status_of_run, tells_rest};
ghost use Rattle.mm_files.specs.Contents.{FilesView, WereRead, seen};
ghost use Rattle.mm_commands.specs.Reading.{readings_of};
ghost use Rattle.mm_commands.specs.Refusing.{IsFlightFault, Settles};
ghost use Rattle.mm_commands.specs.declared.status.Status.TheVariants.{BadCommandLine};

use crate::answers::{given_plan, goal_of};
use crate::fault::Fault;
use crate::left::lead_of;
use crate::remark::tell_run;
use crate::status::{Status, Unwritten};
use crate::tasks::refuse;
use crate::texts::TaskTexts;
use mm_command_line::{FlightFiles, FlightPlan, Task};
use mm_files::Files;
use mm_run::{Outcome, PreparedRun, Printed, RunTexts, prepare_run};
use std::alloc::Global;
use std::io::{self, Write};
use std::sync::Wait;
use std::thread::Threads;

// The status of a run with this outcome.
fn status_of_run(outcome: Outcome) -> Status
    ensures status { result ≡ status_of_run outcome }
    ensures known { result ≢ BadCommandLine }
{
    match outcome {
        Outcome::CarriedOut => Status::Done,
        Outcome::Unreported | Outcome::Stopped(_) => Status::Refused,
    }
}

// The run of the plan, which is made where none is given. Nothing is carried out yet.
fn prepared(
    alloc: Global,
    files: FlightFiles<'_>,
    texts: &TaskTexts,
) -> Result<PreparedRun, mm_run::Fault>
    ensures prepared { IfOk result (PreparesTexts files.entry.plan texts.now) }
    ensures refused { IfRefused flight_fault.NoMemory result (IsFlightFault (given_plan files.entry.plan texts.now)
        texts.now) }
{
    let run = RunTexts {
        setup: &texts.setup,
        forecast: &texts.forecast,
        sources: &texts.sources,
        links: &texts.links,
    };
    prepare_run(
        alloc,
        run,
        given_plan(files.plan, texts),
        goal_of(files.plan),
    )
}

// Prints the plan of a run, if it was made here, and flushes the writer.
fn print_plan<W: Write>(run: &PreparedRun, out: &mut W) -> io::Result<()>
    ensures text { IfOk result (λ _. Appends (W.contents out.old) (W.contents out.new) (plan_text_of run.now)) }
{
    out.write_all(run.plan_text())?;
    out.flush()
}

// Whether a script that plans what is left of a run is asked for.
fn tells_rest(plan: FlightPlan<'_>) -> bool
    ensures { result ≡ tells_rest plan.entry }
{
    match plan {
        FlightPlan::Given { rest, .. } => rest,
        FlightPlan::Made { .. } => false,
    }
}

// Prints what comes after the plan: what comes before the report, the report, and the last line.
fn print_rest<W: Write>(lead: &[u8], printed: &Printed, out: &mut W) -> io::Result<()>
    ensures text { IfOk result (λ _. Appends (W.contents out.old) (W.contents out.new)
        (lead.now ++ printed.now.report.items ++ printed.now.end.items)) }
{
    out.write_all(lead)?;
    out.write_all(&printed.report)?;
    out.write_all(&printed.end)
}

// Says how many packets of step 0 were lost before the run, if any.
fn tell_lost_before<E: Write>(lost: u64, err: &mut E) -> io::Result<()> {
    let (packets, were) = match lost {
        0 => return Ok(()),
        1 => ("packet", "was"),
        _ => ("packets", "were"),
    };
    writeln!(
        err,
        "note: {lost} {packets} of step 0 {were} lost before the run, by full stores; the report counts from step 1"
    )
}

// Prints the plan of a run, carries the run out, prints the rest, and then writes the messages on it.
fn carry_out<R: Threads + Wait + Sync, W: Write, E: Write>(
    rt: &R,
    alloc: Global,
    flight: FlightFiles<'_>,
    run: PreparedRun,
    texts: &TaskTexts,
    out: &mut W,
    err: &mut E,
) -> Result<Status, Unwritten>
    ensures flies { PreparesTexts flight.entry.plan texts.now run → IfOk result (λ status. PrintsFlown
        flight.entry.plan texts.now status (W.contents out.old) (W.contents out.new)) }
    ensures status { IfOk result (λ status. status ≢ BadCommandLine) }
{
    print_plan(&run, out).map_err(|_| Unwritten::Output)?;
    let printed = run.carry_out(rt, alloc);
    let lead = lead_of(alloc, tells_rest(flight.plan), &printed, texts);
    print_rest(&lead, &printed, out).map_err(|_| Unwritten::Output)?;
    tell_run(alloc, Task::Fly(flight), &printed, texts, err).map_err(|_| Unwritten::Messages)?;
    tell_lost_before(printed.given.lost_before, err).map_err(|_| Unwritten::Messages)?;
    Ok(status_of_run(printed.outcome))
}

// Carries out a plan, where the task's files have these texts.
fn fly<R: Threads + Wait + Sync, W: Write, E: Write>(
    rt: &R,
    alloc: Global,
    flight: FlightFiles<'_>,
    texts: &TaskTexts,
    out: &mut W,
    err: &mut E,
) -> Result<Status, Unwritten>
    ensures settles { (old new : FilesView) → new.contents ≡ old.contents
        → WereRead old.contents old.readings new.readings (readings_of (names_in (Fly flight.entry)) texts.now)
        → IfOk result (λ status. Settles old new (Fly flight.entry) status (W.contents out.old) (W.contents out.new)) }
    ensures status { IfOk result (λ status. status ≢ BadCommandLine) }
{
    match prepared(alloc, flight, texts) {
        Ok(run) => carry_out(rt, alloc, flight, run, texts, out, err),
        Err(fault) => {
            let task = Task::Fly(flight);
            let fault = Fault::Run(fault);
            let found = fault.found(alloc, task, texts);
            refuse(Some(task), fault, found, out, err)
        }
    }
}

/// Carries out a plan. One that is made is printed, and the writer flushed, before the run begins.
pub(crate) fn do_run<R: Threads + Wait + Sync, F: Files, W: Write, E: Write>(
    rt: &R,
    alloc: Global,
    flight: FlightFiles<'_>,
    files: &mut F,
    out: &mut W,
    err: &mut E,
) -> Result<Status, Unwritten>
    ensures prints { IfOk result (λ status. Settles (seen F.has_streams (F.content files.old) (F.readings files.old))
        (seen F.has_streams (F.content files.new) (F.readings files.new))
        (Fly flight.entry) status (W.contents out.old) (W.contents out.new)) }
    ensures status { IfOk result (λ status. status ≢ BadCommandLine) }
    ensures kept { IfErr result (λ _. F.content files.new ≡ F.content files.old) }
{
    let task = Task::Fly(flight);
    match TaskTexts::read(alloc, files, task.names()) {
        Ok(texts) => fly(rt, alloc, flight, &texts, out, err),
        Err(fault) => refuse(Some(task), fault, None, out, err),
    }
}
