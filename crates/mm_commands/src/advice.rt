//! What the program says of a refusal on standard error: which file, where in it, what was expected, and what to do.

use crate::fault::Fault;
use crate::remark::{Found, tell_hint};
use crate::spot::InFile;
use mm_base::{Refusal, Refused};
use mm_command_line::{Role, Task};
use mm_files::Shown;
use mm_problem::Name;
use mm_told::{Spot, Words};
use std::io::{self, Write};

/// Says in one line why something is refused: the file, where it is about one, with the place in it, what was expected,
/// and what to do.
pub(crate) fn tell_refusal<E: Write>(
    file: Option<&str>,
    spot: Spot,
    refusal: Refusal,
    err: &mut E,
) -> io::Result<()> {
    if let Some(file) = file {
        write!(err, "{}{}: ", Shown(file), InFile(spot))?;
    }
    writeln!(err, "{}", Words::of(refusal))
}

/// Says why the fault keeps a task from being done, if the words asked for one, and what is found.
pub(crate) fn tell_fault<E: Write>(
    task: Option<Task<'_>>,
    fault: Fault<'_>,
    found: Option<Found>,
    err: &mut E,
) -> io::Result<()> {
    match fault {
        Fault::NotRead { name, obstacle } => writeln!(err, "{}: {obstacle}", Shown(name))?,
        Fault::NoStepAfter { word, steps } => tell_step(word, steps, err)?,
        _ => {
            let (refusal, spot) = (fault.refusal(), fault.spot());
            let file = match (task, found) {
                (Some(task), Some(Found::InForecast(_))) => task.file(Role::Forecast),
                (Some(Task::Mission { mission, .. }), _) if is_of_mission(fault) => Some(mission),
                _ => file_of(task, refusal, spot),
            };
            tell_refusal(file, spot, refusal, err)?;
        }
    }
    tell_hint(found, err)
}

// Whether the fault is one of a mission.
fn is_of_mission(fault: Fault<'_>) -> bool {
    matches!(fault, Fault::Mission(_))
}

// Says that the word is no step of a forecast with so many steps after which another one comes.
fn tell_step<E: Write>(word: &str, steps: u32, err: &mut E) -> io::Result<()> {
    write!(
        err,
        "STEP {}: expected a step that another one follows; ",
        Shown(word)
    )?;
    match steps.saturating_sub(1) {
        0 => writeln!(err, "the forecast has one step, and nothing comes after it"),
        1 => writeln!(err, "the forecast has two steps, so give 1"),
        most => writeln!(
            err,
            "the forecast has {steps} steps, so give a number from 1 to {most}"
        ),
    }
}

/// The file of the task that a refusal is about, where it is about one.
pub(crate) fn file_of<'a>(task: Option<Task<'a>>, refusal: Refusal, spot: Spot) -> Option<&'a str> {
    task?.file(role_of(refusal, spot)?)
}

fn role_of(refusal: Refusal, spot: Spot) -> Option<Role> {
    let is_column = matches!(
        spot,
        Spot::Number(Name::Steps | Name::Window | Name::Arrivals | Name::Limit)
    );
    match refusal {
        Refusal::Limit if is_column => Some(Role::Forecast),
        Refusal::SetupText | Refusal::SetupField | Refusal::Limit => Some(Role::Setup),
        Refusal::NotReady | Refusal::SizeDiffers | Refusal::ChannelDiffers => Some(Role::Setup),
        Refusal::NotFlyable => Some(Role::Setup),
        Refusal::ForecastText | Refusal::Header | Refusal::Cell | Refusal::StepNumber => {
            Some(Role::Forecast)
        }
        Refusal::PlanText | Refusal::Shape | Refusal::PlanDoesNotFit => Some(Role::Plan),
        Refusal::SourcesText | Refusal::OpeningDiffers | Refusal::Counts => Some(Role::Sources),
        Refusal::LinksText | Refusal::LinkFailed => Some(Role::Links),
        _ => None,
    }
}
