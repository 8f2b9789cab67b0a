//! What the texts of a task say. They are read once, and what in them has no effect is noted then.
ghost use Rattle.std.specs.Prelude.{IfOk};
ghost use Rattle.mm_base.specs.Reading.{Gives, IfRefused};
ghost use Rattle.mm_problem.specs.declared.fault.Fault.TheVariants as problem_fault;
ghost use Rattle.mm_problem.specs.Texts.{SaysProblem, problem_in};
ghost use Rattle.mm_plan.specs.Table.{HasShape};
ghost use Rattle.mm_cut.specs.Checking.{IsFaultOf, SaysSheet};
ghost use Rattle.mm_cut.specs.declared.fault.Fault.TheVariants as fault;
ghost use Rattle.mm_commands.specs.Given.{IsGiven};

use crate::texts::TaskTexts;
use mm_base::NoMemory;
use mm_cut::{Fault, read_sheet};
use mm_plan::Sheet;
use mm_problem::laws::forecasts;
use mm_problem::{Problem, Setup};
use mm_told::{Note, notes_on};
use std::alloc::Global;

/// What in the files of a task has no effect, where there was memory for it.
pub(crate) type Unused = Result<Vec<Note>, NoMemory>;

/// What a plan loses that keeps the steps of another plan up to a step, in blocks.
#[derive(Clone, Copy)]
pub(crate) struct KeptLoss {
    pub(crate) step: u32,
    pub(crate) loss: u64,
}

/// What is said of a task that is done: what in its files has no effect, and what a plan loses that keeps the first
/// steps of another one.
#[derive(Drop)]
pub(crate) struct Notes {
    pub(crate) unused: Unused,
    pub(crate) kept: Option<KeptLoss>,
}

/// The setup and the problem that the setup and the forecast of a task say, and what in them has no effect.
#[derive(Drop)]
pub(crate) struct Given {
    pub(crate) setup: Setup,
    pub(crate) problem: Problem,
    pub(crate) notes: Notes,
}

/// The same, and the sheet for the problem that the plan text says.
#[derive(Drop)]
pub(crate) struct GivenPlan {
    pub(crate) setup: Setup,
    pub(crate) problem: Problem,
    pub(crate) sheet: Sheet,
    pub(crate) notes: Notes,
}

/// Reads the setup and the forecast of a task. Otherwise their first fault.
#[tactic(auto, unfolding(mm_problem::specs::Texts::problem_in))]
pub(crate) fn read_given(alloc: Global, texts: &TaskTexts) -> Result<Given, mm_problem::Fault>
    ensures gives { Gives problem_fault.NoMemory (λ given. given.problem) result
        (problem_in texts.now.setup.items texts.now.forecast.items) }
    ensures given { IfOk result (λ given. IsGiven texts.now.setup.items texts.now.forecast.items given.setup
        given.problem) }
{
    let setup = Setup::read(alloc, &texts.setup)?;
    let problem = Problem::read(alloc, &setup, &texts.forecast)?;
    // The problem has the stores and the limits of the setup, and its arrivals come when the setup says, as the law on
    // forecasts says.
    let _stores = setup.stores();
    forecasts();
    let notes = Notes {
        unused: notes_on(alloc, false, &setup, &problem),
        kept: None,
    };
    Ok(Given {
        setup,
        problem,
        notes,
    })
}

/// Reads the setup, the forecast and the plan text of a task. Otherwise their first fault, in this order.
pub(crate) fn read_given_plan(alloc: Global, texts: &TaskTexts) -> Result<GivenPlan, Fault>
    ensures problem { IfOk result (λ given. SaysProblem texts.now.setup.items texts.now.forecast.items given.problem) }
    ensures given { IfOk result (λ given. IsGiven texts.now.setup.items texts.now.forecast.items given.setup
        given.problem) }
    ensures sheet { IfOk result (λ given. SaysSheet given.problem texts.now.plan.items given.sheet) }
    ensures shape { IfOk result (λ given. HasShape given.problem given.sheet.plan) }
    ensures refused { IfRefused fault.NoMemory result (IsFaultOf texts.now.setup.items texts.now.forecast.items
        texts.now.plan.items) }
{
    let Given {
        setup,
        problem,
        notes,
    } = read_given(alloc, texts)?;
    let sheet = read_sheet(alloc, &problem, &texts.plan)?;
    Ok(GivenPlan {
        setup,
        problem,
        sheet,
        notes,
    })
}
