//! What the program says of an answer on standard error: of a verdict, and of each line that is refused.

use crate::advice::{file_of, tell_refusal};
use crate::answers::Answer;
use crate::compare::tell_losses;
use crate::given::{KeptLoss, Notes, Unused};
use crate::halt::tell_halt;
use crate::texts::TaskTexts;
use mm_ask::{MOST_KEPT, Place, Replies};
use mm_base::{Refusal, Refused};
use mm_command_line::{Role, Task};
use mm_cut::Verdict;
use mm_files::Shown;
use mm_problem::{Name, Problem, Setup};
use mm_run::{Cause, Given, Outcome, Printed, Unstored, Untaken};
use mm_told::{
    EndsHint, Hint, RequestHints, Spot, Texts, Words, fit_hint, flyable_hint, notes_on,
    opening_hint, packets_hint, refusal_numbered, verdict_hint,
};
use std::alloc::Global;
use std::fmt;
use std::io::{self, Write};

/// What is said of a plan text that stands in front of the other files.
const PLAN_MISPLACED: &str =
    "the files are in another order; name the setup first, then the forecast, then the plan";

/// What is found in the files of a task, as it is shown after `hint: `.
#[derive(Clone, Copy)]
pub(crate) enum Found {
    /// A plan text stands where the setup or the forecast is to stand.
    PlanMisplaced,
    Hint(Hint),
    /// Something in the forecast, where the refusal may be one of the setup too.
    InForecast(Hint),
}

impl fmt::Display for Found {
    fn fmt<W: fmt::Write>(&self, f: &mut fmt::Formatter<W>) -> fmt::Result {
        match self {
            Found::PlanMisplaced => f.write_str(PLAN_MISPLACED),
            Found::Hint(hint) | Found::InForecast(hint) => write!(f, "{hint}"),
        }
    }
}

/// Whether the refusal comes from a plan text that stands where the setup or the forecast of a task with a plan is to
/// stand.
pub(crate) fn is_plan_misplaced(task: Task<'_>, refusal: Refusal, texts: &TaskTexts) -> bool {
    let text = match refusal {
        Refusal::SetupText => &texts.setup,
        Refusal::Header => &texts.forecast,
        _ => return false,
    };
    task.file(Role::Plan).is_some() && text.starts_with(b"mmplan ")
}

/// Whether the refusal is of a size in the forecast: it is not one of the setup, which can be read.
pub(crate) fn is_size_of_step(alloc: Global, refusal: Refusal, spot: Spot, setup: &[u8]) -> bool {
    let is_size = matches!(spot, Spot::Number(Name::Size));
    refusal == Refusal::Limit && is_size && Setup::read(alloc, setup).is_ok()
}

/// Says what is found, if anything is.
pub(crate) fn tell_hint<T: fmt::Display + Drop, E: Write>(
    hint: Option<T>,
    err: &mut E,
) -> io::Result<()> {
    match hint {
        Some(hint) => writeln!(err, "hint: {hint}"),
        None => Ok(()),
    }
}

// Says what in the setup and the forecast of a task has no effect.
fn tell_unused<E: Write>(unused: &Unused, err: &mut E) -> io::Result<()> {
    if let Ok(notes) = unused {
        for note in notes {
            writeln!(err, "note: {note}")?;
        }
    }
    Ok(())
}

// Says what is noted of a task that is done.
fn tell_notes<E: Write>(notes: &Notes, err: &mut E) -> io::Result<()> {
    tell_unused(&notes.unused, err)?;
    match notes.kept {
        Some(KeptLoss { step, loss }) => writeln!(
            err,
            "note: the plan loses {loss}; no plan that fits with the same steps up to {step} loses fewer"
        ),
        None => Ok(()),
    }
}

// Says what a verdict means: the file of the plan, the place in it, and the words. `Least` and `LeastInOrder` have no
// words, and only what has no effect is told of them.
fn tell_verdict<E: Write>(
    alloc: Global,
    task: Task<'_>,
    verdict: Verdict,
    notes: &Notes,
    texts: Texts<'_>,
    err: &mut E,
) -> io::Result<()> {
    let (Some(plan), Some(words)) = (task.file(Role::Plan), Words::of_verdict(verdict)) else {
        return tell_notes(notes, err);
    };
    let place = match verdict {
        Verdict::DoesNotFit(step) => Some(("step", step)),
        Verdict::BadStretch(place) => Some(("stretch", place)),
        Verdict::BadCount(place) => Some(("count", place)),
        Verdict::FirstNotShown(stores) => Some(("first", stores)),
        _ => None,
    };
    write!(err, "{}", Shown(plan))?;
    if let Some((kind, number)) = place {
        write!(err, ", {kind} {number}")?;
    }
    writeln!(err, ": {words}")?;
    tell_hint(verdict_hint(alloc, texts, verdict), err)
}

// What is found where a run did not begin.
fn hint_of(alloc: Global, cause: &Cause, given: &Given, texts: Texts<'_>) -> Option<Hint> {
    match cause {
        Cause::OpeningDiffers { store } => {
            opening_hint(alloc, texts.setup, *store, given.opening)
        }
        Cause::PlanDoesNotFit { step } => fit_hint(alloc, texts, *step),
        Cause::NotFlyable => flyable_hint(texts),
        Cause::Counts => Some(Hint::Ends(EndsHint::of_counts(given.sources, given.links))),
        _ => None,
    }
}

// Says how many packets of the sources there are of a kind, if any, with what is said of one or of several.
fn tell_packets<E: Write>(count: u64, of_one: &str, of_more: &str, err: &mut E) -> io::Result<()> {
    match count {
        0 => Ok(()),
        1 => write!(err, "note: 1 packet of the sources {of_one}"),
        _ => write!(err, "note: {count} packets of the sources {of_more}"),
    }
}

// Says how many packets of a run that was carried out are in no store, and why.
fn tell_unstored<E: Write>(given: &Given, err: &mut E) -> io::Result<()> {
    let Unstored {
        late,
        telecommands,
        unrouted,
    } = given.unstored;
    if let Some(first) = given.untaken {
        let Untaken {
            line,
            apid,
            service,
            subtype,
        } = first;
        tell_packets(
            unrouted,
            "goes to no store, since no route takes it:",
            "go to no store, since no route takes them; the first is",
            err,
        )?;
        writeln!(
            err,
            " APID {apid}, service {service}, subtype {subtype} in line {line}"
        )?;
    }
    tell_packets(
        telecommands,
        "is a telecommand, which goes to no store\n",
        "are telecommands, which go to no store\n",
        err,
    )?;
    tell_packets(
        late,
        "is of a step after the last one, and is not recorded\n",
        "are of steps after the last one, and are not recorded\n",
        err,
    )
}

// Writes a place as an answer spells it, such as `3` or `3.1`.
fn tell_said<E: Write>(place: &[u8], err: &mut E) -> io::Result<()> {
    let Ok(place) = std::str::from_utf8(place) else {
        return Ok(());
    };
    match place.split_once('.') {
        Some((line, number)) => write!(err, "{line}, instruction {number}"),
        None => write!(err, "{place}"),
    }
}

// Says what is refused at a place, and what is found there in the requests. Before the place stand the file of the
// packets, and what the numbers count there.
fn tell_place<E: Write>(
    (file, counted): (&str, &str),
    place: &Place,
    refusal: Refusal,
    requests: &mut RequestHints<'_>,
    err: &mut E,
) -> io::Result<()> {
    write!(err, "{}, {counted} ", Shown(file))?;
    let hint = match place {
        Place::Line(line) => {
            write!(err, "{line}")?;
            requests.hint(refusal, *line)
        }
        Place::Instruction { line, number } => {
            write!(err, "{line}, instruction {number}")?;
            requests.instruction_hint(refusal, *line, *number)
        }
        Place::Said(place) => {
            tell_said(place, err)?;
            None
        }
    };
    writeln!(err, ": {}", Words::of(refusal))?;
    tell_hint(hint, err)
}

// How many refusals there are whose places are not kept.
fn untold(counts: &[u64; 256]) -> u64 {
    let mut untold: u64 = 0;
    for number in 0..256u32 {
        if refusal_numbered(number).is_some() {
            untold = untold.saturating_add(counts[number as usize].saturating_sub(MOST_KEPT));
        }
    }
    untold
}

// Says what is refused: of each refusal the first places, and then how many more there are.
fn tell_refused<E: Write>(
    (file, counted): (&str, &str),
    requests: &[u8],
    replies: &Replies,
    err: &mut E,
) -> io::Result<()> {
    if std::str::from_utf8(&replies.text).is_err() {
        return Ok(());
    }
    let mut requests = RequestHints::new(requests);
    for refused in &replies.refused.first {
        if let Some(refusal) = refusal_numbered(u32::from(refused.number)) {
            tell_place((file, counted), &refused.place, refusal, &mut requests, err)?;
        }
    }
    match untold(&replies.refused.counts) {
        0 => Ok(()),
        untold => writeln!(
            err,
            "{}: more of the same refusals: {untold}; standard output has them all",
            Shown(file)
        ),
    }
}

// Says what is refused of the packets of a task. A number that `read` prints need not be that of a line of its file, so
// the file is looked at as a whole. A report in it has the number that `ask` gave it.
fn tell_replies<E: Write>(
    task: Task<'_>,
    replies: &Replies,
    packets: &[u8],
    err: &mut E,
) -> io::Result<()> {
    let file = match task {
        Task::Ask { requests, .. } => {
            return tell_refused((requests, "line"), packets, replies, err);
        }
        Task::Read { packets } => packets,
        _ => return Ok(()),
    };
    tell_refused((file, "packet"), &[], replies, err)?;
    let mut first = replies.refused.first.iter();
    if first.any(|refused| refusal_numbered(u32::from(refused.number)).is_some()) {
        tell_hint(packets_hint(packets), err)
    } else {
        Ok(())
    }
}

/// Says more of an answer: what it means where something is refused, or a verdict is neither `Least` nor
/// `LeastInOrder`, and then what a least plan loses; and of a task that is done, what in its files has no effect.
pub(crate) fn tell_more<E: Write>(
    alloc: Global,
    task: Task<'_>,
    answer: &Answer<'_>,
    texts: &TaskTexts,
    err: &mut E,
) -> io::Result<()> {
    match answer {
        Answer::Text { notes, .. } => tell_notes(notes, err),
        Answer::Lines(replies) => tell_replies(task, replies, &texts.other, err),
        Answer::Line { verdict, notes, .. } => {
            tell_verdict(alloc, task, *verdict, notes, texts.hinted(), err)?;
            tell_losses(alloc, *verdict, texts, err)
        }
    }
}

// What in the setup and the forecast of a run has no effect.
fn notes_of_run(alloc: Global, texts: Texts<'_>) -> Unused {
    let Ok(setup) = Setup::read(alloc, texts.setup) else {
        return Ok(Vec::new(alloc));
    };
    match Problem::read(alloc, &setup, texts.forecast) {
        Ok(problem) => notes_on(alloc, true, &setup, &problem),
        Err(_) => Ok(Vec::new(alloc)),
    }
}

/// Says more of what a run printed: why it did not begin or was halted, what was sent in the halted step, or that there
/// is no memory for its report; and of one that was carried out, what in its files has no effect.
pub(crate) fn tell_run<E: Write>(
    alloc: Global,
    task: Task<'_>,
    printed: &Printed,
    texts: &TaskTexts,
    err: &mut E,
) -> io::Result<()> {
    let texts = texts.hinted();
    let (refusal, hint) = match &printed.outcome {
        Outcome::CarriedOut => {
            tell_unused(&notes_of_run(alloc, texts), err)?;
            return tell_unstored(&printed.given, err);
        }
        Outcome::Unreported => (Refusal::NoMemory, None),
        Outcome::Stopped(cause) => (
            cause.refusal(),
            hint_of(alloc, cause, &printed.given, texts),
        ),
    };
    let file = match hint {
        Some(Hint::Ends(EndsHint::Links { .. })) => task.file(Role::Links),
        Some(Hint::Ends(EndsHint::Sized { .. })) => task.file(Role::Forecast),
        _ => file_of(Some(task), refusal, Spot::Whole),
    };
    tell_refusal(file, Spot::Whole, refusal, err)?;
    tell_hint(hint, err)?;
    match &printed.left {
        Some(run) => tell_halt(run, err),
        None => Ok(()),
    }
}
