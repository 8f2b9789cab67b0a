//! Why a task is refused.
ghost use Rattle.std.specs.Prelude.{◌≡◌, Some};
ghost use Rattle.mm_commands.specs.Faults.{refusal_of, spot_in_run, spot_of, fault_text};
ghost use Rattle.mm_commands.specs.declared.fault.Fault.TheVariants.{NoMemory, Texts, Setup};

use crate::remark::{Found, is_plan_misplaced, is_size_of_step};
use crate::spot::spot_in_script;
use crate::texts::TaskTexts;
use mm_base::{Refusal, Refused};
use mm_command_line::Task;
use mm_files::{Obstacle, Shown};
use mm_problem::Name;
use mm_told::{Reason, Spot, hint_for, spot_in_plan, spot_in_problem, spot_in_texts};
use std::alloc::Global;
use std::fmt;

/// Why a task is refused. It is shown as its number, its name and its fields.
#[derive(Clone, Copy)]
pub enum Fault<'a> {
    NoMemory,
    /// The file of this name was not read.
    NotRead { name: &'a str, obstacle: Obstacle },
    /// A fault of the texts of a plan or of a verdict on one.
    Texts(mm_cut::Fault),
    /// A fault of the texts of a run.
    Run(mm_run::Fault),
    /// A fault of the setup of a conversation.
    Setup(mm_problem::Fault),
    /// The word names no step of the forecast after which another one comes.
    NoStepAfter { word: &'a str, steps: u32 },
    /// A fault of a mission: of its text, its tables or their rows.
    Mission(Refusal),
}

impl From<mm_base::NoMemory> for Fault<'_> {
    ghost from_gives = { λ _ e. e ≡ NoMemory };

    fn from(_error: mm_base::NoMemory) -> Self {
        Fault::NoMemory
    }
}

impl From<mm_cut::Fault> for Fault<'_> {
    ghost from_gives = { λ fault e. e ≡ Texts fault };

    fn from(fault: mm_cut::Fault) -> Self {
        Fault::Texts(fault)
    }
}

impl From<mm_problem::Fault> for Fault<'_> {
    ghost from_gives = { λ fault e. e ≡ Setup fault };

    fn from(fault: mm_problem::Fault) -> Self {
        Fault::Setup(fault)
    }
}

impl Refused for Fault<'_> {
    fn refusal(self) -> Refusal {
        match self {
            Fault::NoMemory => Refusal::NoMemory,
            Fault::NotRead { .. } => Refusal::NotRead,
            Fault::Texts(fault) => fault.refusal(),
            Fault::Run(fault) => fault.refusal(),
            Fault::Setup(fault) => fault.refusal(),
            Fault::NoStepAfter { .. } => Refusal::Limit,
            Fault::Mission(refusal) => refusal,
        }
    }

    ghost refusal_of = { refusal_of };
}

fn spot_in_run(fault: mm_run::Fault) -> Spot
    ensures { result ≡ spot_in_run fault }
{
    match fault {
        mm_run::Fault::NoMemory => Spot::Whole,
        mm_run::Fault::Problem(fault) => spot_in_problem(fault),
        mm_run::Fault::Plan(fault) => spot_in_plan(fault),
        mm_run::Fault::Script(fault) => spot_in_script(fault),
    }
}

impl Fault<'_> {
    /// Where in its file the fault is.
    pub(crate) fn spot(self) -> Spot
        ensures { result ≡ spot_of self.entry }
    {
        match self {
            Fault::NoMemory | Fault::NotRead { .. } => Spot::Whole,
            Fault::Texts(fault) => spot_in_texts(fault),
            Fault::Run(fault) => spot_in_run(fault),
            Fault::Setup(fault) => spot_in_problem(fault),
            Fault::NoStepAfter { .. } => Spot::Number(Name::Steps),
            Fault::Mission(_) => Spot::Whole,
        }
    }

    /// What is found in the files of the task, if more can be said of the fault.
    pub(crate) fn found(self, alloc: Global, task: Task<'_>, texts: &TaskTexts) -> Option<Found> {
        // The word for a step stands in no file.
        if let Fault::NoStepAfter { .. } = self {
            return None;
        }
        let (refusal, spot) = (self.refusal(), self.spot());
        if is_plan_misplaced(task, refusal, texts) {
            return Some(Found::PlanMisplaced);
        }
        let hint = hint_for(alloc, Reason { refusal, spot }, texts.hinted())?;
        if is_size_of_step(alloc, refusal, spot, &texts.setup) {
            return Some(Found::InForecast(hint));
        }
        Some(Found::Hint(hint))
    }
}

impl fmt::Display for Fault<'_> {
    ghost output = { λ fault. Some (fault_text fault) };

    fn fmt<W: fmt::Write>(&self, f: &mut fmt::Formatter<W>) -> fmt::Result {
        let fault = *self;
        write!(f, "{} {}", fault.number(), fault.name())?;
        match fault {
            Fault::NotRead { name, .. } => write!(f, " name {}", Shown(name)),
            _ => write!(f, "{}", fault.spot()),
        }
    }
}
