//! What answers a task, by the texts of its files.
ghost use Rattle.std.specs.Prelude.{◌≡◌, ◌≢◌, false, IfOk, IfErr};
ghost use Rattle.std.specs.Option.{option_copied};
ghost use Rattle.mm_base.specs.Reading.{IfRefused};
ghost use Rattle.mm_cut.specs.Checking.{IsFaultOf as IsCheckFault};
ghost use Rattle.mm_cut.specs.declared.fault.Fault.TheVariants as cut_fault;
ghost use Rattle.mm_planner.specs.PlanTexts.{IsPlanningFault};
ghost use Rattle.mm_sensitivity.specs.Charts.{ChartsWorth};
ghost use Rattle.mm_sensitivity.specs.Table.{AreWorths, IsWorthTable};
ghost use Rattle.mm_chart.specs.Charts.{Charts};
ghost use Rattle.mm_chart.specs.Table.{IsTableOf};
ghost use Rattle.mm_plan.specs.Table.{HasShape};
ghost use Rattle.mm_cut.specs.Checking.{SaysSheet};
ghost use Rattle.mm_rest.specs.Rests.{IsKeptStep};
ghost use Rattle.mm_commands.specs.Answers.{DrawsPlan, IsAnswerTo, Judges, KeepsSteps, PlansText, TellsRest, given_plan};
ghost use Rattle.mm_commands.specs.Answers.{goal_of, is_mission, is_run};
ghost use Rattle.mm_commands.specs.Given.{IsGiven};
ghost use Rattle.mm_commands.specs.Answers.{status_in, status_of, status_of_replies};
ghost use Rattle.mm_commands.specs.Refusing.{IsFaultIn, IsKeptFault};
ghost use Rattle.mm_commands.specs.declared.answers.Answer.TheVariants.{Text};
ghost use Rattle.mm_commands.specs.declared.status.Status.TheVariants.{BadCommandLine};

use crate::fault::Fault;
use crate::given::{Given, GivenPlan, KeptLoss, Notes, read_given, read_given_plan};
use crate::status::Status;
use crate::texts::TaskTexts;
use mm_ask::{Outcome, Replies, ask_bytes, read_bytes};
use mm_base::NoMemory;
use mm_chart::{Picture, draw};
use mm_command_line::{FlightPlan, KeptSteps, Task};
use mm_cut::{Verdict, verdict_line, verdict_of};
use mm_planner::{Goal, print_plan_for};
use mm_problem::Problem;
use mm_rest::{kept_step, rest_script};
use mm_sensitivity::{Progress, Worth, chart_worths, worths_with_progress};
use std::alloc::Global;

/// What answers a task other than a run and a mission.
#[derive(Drop)]
pub(crate) enum Answer<'a> {
    /// A text, which goes into the file of this name or is printed.
    Text {
        text: Vec<u8>,
        output: Option<&'a str>,
        notes: Notes,
    },
    /// The lines that answer requests, or say what packets are.
    Lines(Replies),
    /// The line of a verdict.
    Line {
        verdict: Verdict,
        line: Vec<u8>,
        notes: Notes,
    },
}

// A text that answers a task, and what is said of it.
#[derive(Drop)]
struct Noted {
    text: Vec<u8>,
    notes: Notes,
}

impl Noted {
    // The answer of this text, which goes into the file of this name or is printed.
    fn answer<'a>(self, output: Option<&'a str>) -> Answer<'a>
        ensures { result ≡ Text self.text output.entry self.notes }
    {
        Answer::Text {
            text: self.text,
            output,
            notes: self.notes,
        }
    }
}

// The texts of a problem and of a plan for it, and the last step of the plan that is kept.
#[derive(Drop)]
struct GivenSteps {
    given: GivenPlan,
    last: u32,
}

// A verdict, its line, and what in the files of its task has no effect.
#[derive(Drop)]
struct Judged {
    verdict: Verdict,
    line: Vec<u8>,
    notes: Notes,
}

// The status of a task that is answered by the verdict.
fn status_of(verdict: Verdict) -> Status
    ensures status { result ≡ status_of verdict }
    ensures known { result ≢ BadCommandLine }
{
    match verdict {
        Verdict::Least(_) | Verdict::LeastInOrder(_) => Status::Done,
        _ => Status::Refused,
    }
}

// The status of a task that is answered by such lines.
fn status_of_replies(outcome: Outcome) -> Status
    ensures status { result ≡ status_of_replies outcome }
    ensures known { result ≢ BadCommandLine }
{
    match outcome {
        Outcome::AllDone => Status::Done,
        Outcome::SomeRefused => Status::Refused,
    }
}

impl Answer<'_> {
    /// The status of the task.
    pub(crate) fn status(&self) -> Status
        ensures status { result ≡ status_in self.now }
        ensures known { result ≢ BadCommandLine }
    {
        match self {
            Answer::Text { .. } => Status::Done,
            Answer::Lines(replies) => status_of_replies(replies.outcome),
            Answer::Line { verdict, .. } => status_of(*verdict),
        }
    }
}

// The text of a plan, which serves the stores in order where that is asked.
fn plan_text(alloc: Global, in_order: bool, texts: &TaskTexts) -> Result<Noted, mm_cut::Fault>
    ensures plans { IfOk result (λ noted. PlansText in_order
        texts.now.setup.items texts.now.forecast.items noted.text.items) }
    ensures refused { IfRefused cut_fault.NoMemory result (IsPlanningFault texts.now.setup.items
        texts.now.forecast.items) }
{
    let Given { problem, notes, .. } = read_given(alloc, texts)?;
    let goal = goal_of(FlightPlan::Made { in_order });
    let printed = print_plan_for(alloc, &problem, goal)?;
    Ok(Noted {
        text: printed.text,
        notes,
    })
}

// The verdict on a plan.
fn judge(alloc: Global, texts: &TaskTexts) -> Result<Judged, mm_cut::Fault>
    ensures judges { IfOk result (λ judged. Judges (status_of judged.verdict) judged.line.items
        texts.now.setup.items texts.now.forecast.items texts.now.plan.items) }
    ensures refused { IfRefused cut_fault.NoMemory result (IsCheckFault
        texts.now.setup.items texts.now.forecast.items texts.now.plan.items) }
{
    let GivenPlan {
        problem,
        sheet,
        notes,
        ..
    } = read_given_plan(alloc, texts)?;
    let verdict = verdict_of(&problem, &sheet);
    let line = verdict_line(alloc, verdict)?;
    Ok(Judged {
        verdict,
        line,
        notes,
    })
}

// The chart of a plan.
fn plain_chart(alloc: Global, texts: &TaskTexts) -> Result<Noted, mm_cut::Fault>
    ensures chart { IfOk result (λ noted. Charts
        texts.now.setup.items texts.now.forecast.items texts.now.plan.items noted.text.items) }
    ensures refused { IfRefused cut_fault.NoMemory result (IsCheckFault
        texts.now.setup.items texts.now.forecast.items texts.now.plan.items) }
{
    let GivenPlan {
        problem,
        sheet,
        notes,
        ..
    } = read_given_plan(alloc, texts)?;
    let picture = Picture::new(alloc, problem, sheet)?;
    let text = draw(alloc, &picture)?;
    Ok(Noted { text, notes })
}

// The chart of a plan, with what each window is worth.
fn worth_chart(alloc: Global, texts: &TaskTexts) -> Result<Noted, mm_cut::Fault>
    ensures chart { IfOk result (λ noted. ChartsWorth
        texts.now.setup.items texts.now.forecast.items texts.now.plan.items noted.text.items) }
    ensures refused { IfRefused cut_fault.NoMemory result (IsCheckFault
        texts.now.setup.items texts.now.forecast.items texts.now.plan.items) }
{
    let GivenPlan {
        problem,
        sheet,
        notes,
        ..
    } = read_given_plan(alloc, texts)?;
    let worths = chart_worths(alloc, &problem)?;
    let picture = Picture::new(alloc, problem, sheet)?;
    let text = draw(alloc, &picture.with_worth(worths))?;
    Ok(Noted { text, notes })
}

// The chart of a plan, with what each window is worth where that is asked.
fn chart_text(alloc: Global, worth: bool, texts: &TaskTexts) -> Result<Noted, mm_cut::Fault>
    ensures charts { IfOk result (λ noted. DrawsPlan worth
        texts.now.setup.items texts.now.forecast.items texts.now.plan.items noted.text.items) }
    ensures refused { IfRefused cut_fault.NoMemory result (IsCheckFault
        texts.now.setup.items texts.now.forecast.items texts.now.plan.items) }
{
    if worth {
        worth_chart(alloc, texts)
    } else {
        plain_chart(alloc, texts)
    }
}

// The table of a plan.
fn table_text(alloc: Global, texts: &TaskTexts) -> Result<Noted, mm_cut::Fault>
    ensures table { IfOk result (λ noted. IsTableOf
        texts.now.setup.items texts.now.forecast.items texts.now.plan.items noted.text.items) }
    ensures refused { IfRefused cut_fault.NoMemory result (IsCheckFault
        texts.now.setup.items texts.now.forecast.items texts.now.plan.items) }
{
    let GivenPlan {
        problem,
        sheet,
        notes,
        ..
    } = read_given_plan(alloc, texts)?;
    let text = mm_chart::table_of(alloc, &problem, sheet.plan())?;
    Ok(Noted { text, notes })
}

// What each window, store size and limit of a problem is worth. The progress is told of each, and that nothing is left
// to do where memory runs out.
fn worths_told<P: Progress>(
    alloc: Global,
    problem: &Problem,
    progress: &mut P,
) -> Result<Vec<Worth>, NoMemory>
    ensures { IfOk result (λ worths. AreWorths problem.now worths.items) }
{
    let worths = worths_with_progress(alloc, problem, progress);
    if worths.is_err() {
        progress.done(0, 0);
    }
    worths
}

// The table of what each window, store size and limit is worth.
fn worth_table<P: Progress>(
    alloc: Global,
    texts: &TaskTexts,
    progress: &mut P,
) -> Result<Noted, mm_cut::Fault>
    ensures table { IfOk result (λ noted. IsWorthTable
        texts.now.setup.items texts.now.forecast.items noted.text.items) }
    ensures refused { IfRefused cut_fault.NoMemory result (IsPlanningFault texts.now.setup.items
        texts.now.forecast.items) }
{
    let Given { problem, notes, .. } = read_given(alloc, texts)?;
    let worths = worths_told(alloc, &problem, progress)?;
    let text = mm_sensitivity::table_of(alloc, &problem, worths.as_slice())?;
    Ok(Noted { text, notes })
}

// Reads the texts of a problem and of a plan for it, and the word for the last step of the plan that is kept.
fn read_kept<'a>(
    alloc: Global,
    kept: KeptSteps<'a>,
    texts: &TaskTexts,
) -> Result<GivenSteps, Fault<'a>>
    ensures given { IfOk result (λ steps. IsGiven texts.now.setup.items texts.now.forecast.items steps.given.setup
        steps.given.problem) }
    ensures sheet { IfOk result (λ steps. SaysSheet steps.given.problem texts.now.plan.items steps.given.sheet) }
    ensures shape { IfOk result (λ steps. HasShape steps.given.problem steps.given.sheet.plan) }
    ensures step { IfOk result (λ steps. IsKeptStep steps.given.problem kept.entry.last.now steps.last) }
    ensures refused { IfErr result (IsKeptFault kept.entry texts.now) }
{
    let given = read_given_plan(alloc, texts)?;
    match kept_step(&given.problem, kept.last) {
        Some(last) => Ok(GivenSteps { given, last }),
        None => Err(Fault::NoStepAfter {
            word: kept.last,
            steps: given.problem.steps(),
        }),
    }
}

// The script of what is left after the first steps of a plan.
fn rest_text<'a>(alloc: Global, kept: KeptSteps<'a>, texts: &TaskTexts) -> Result<Noted, Fault<'a>>
    ensures rest { IfOk result (λ noted. TellsRest texts.now.setup.items texts.now.forecast.items texts.now.plan.items
        kept.entry.last.now noted.text.items) }
    ensures refused { IfErr result (IsKeptFault kept.entry texts.now) }
{
    let GivenSteps { given, last } = read_kept(alloc, kept, texts)?;
    let GivenPlan {
        setup,
        problem,
        sheet,
        notes,
    } = given;
    let text = rest_script(alloc, &setup, &problem, sheet.plan(), last)?;
    Ok(Noted { text, notes })
}

// The text of a plan that keeps the first steps of a plan and loses least after them, and what it loses.
fn keep_text<'a>(alloc: Global, kept: KeptSteps<'a>, texts: &TaskTexts) -> Result<Noted, Fault<'a>>
    ensures keeps { IfOk result (λ noted. KeepsSteps texts.now.setup.items texts.now.forecast.items
        texts.now.plan.items kept.entry.last.now noted.text.items) }
    ensures refused { IfErr result (IsKeptFault kept.entry texts.now) }
{
    let GivenSteps { given, last } = read_kept(alloc, kept, texts)?;
    let printed = mm_keep::keep_text(alloc, &given.problem, given.sheet.plan(), last)?;
    let kept = KeptLoss {
        step: last,
        loss: printed.sheet.loss(),
    };
    let notes = Notes {
        kept: Some(kept),
        ..given.notes
    };
    Ok(Noted {
        text: printed.text,
        notes,
    })
}

/// The text of the plan of a run, where it is given.
pub(crate) fn given_plan<'t>(plan: FlightPlan<'_>, texts: &'t TaskTexts) -> Option<&'t [u8]>
    ensures given { option_copied result ≡ given_plan plan.entry texts.now }
{
    match plan {
        FlightPlan::Given { .. } => Some(texts.plan.as_slice()),
        FlightPlan::Made { .. } => None,
    }
}

/// What the plan of a run is made for, where it is made.
pub(crate) fn goal_of(plan: FlightPlan<'_>) -> Goal
    ensures goal { result ≡ goal_of plan.entry }
{
    match plan {
        FlightPlan::Made { in_order: true } => Goal::InOrder,
        FlightPlan::Made { in_order: false } | FlightPlan::Given { .. } => Goal::Least,
    }
}

/// What answers a task other than a run and a mission, whose files have these texts.
pub(crate) fn answer_without_run<'a, P: Progress>(
    alloc: Global,
    task: Task<'a>,
    texts: &TaskTexts,
    progress: &mut P,
) -> Result<Answer<'a>, Fault<'a>>
    requires other { is_run task ≡ false }
    requires told { is_mission task ≡ false }
    ensures answers { IfOk result (IsAnswerTo task.entry texts.now) }
    ensures refused { IfErr result (IsFaultIn task.entry texts.now) }
{
    match task {
        Task::Plan {
            in_order,
            output,
            ..
        } => Ok(plan_text(alloc, in_order, texts)?.answer(output)),
        Task::Keep { kept, output } => Ok(keep_text(alloc, kept, texts)?.answer(output)),
        Task::Check(_) => {
            let Judged {
                verdict,
                line,
                notes,
            } = judge(alloc, texts)?;
            Ok(Answer::Line {
                verdict,
                line,
                notes,
            })
        }
        Task::Chart { worth, output, .. } => Ok(chart_text(alloc, worth, texts)?.answer(output)),
        Task::Table { output, .. } => Ok(table_text(alloc, texts)?.answer(output)),
        Task::Rest { kept, output } => Ok(rest_text(alloc, kept, texts)?.answer(output)),
        Task::Sensitivity { output, .. } => {
            Ok(worth_table(alloc, texts, progress)?.answer(output))
        }
        Task::Ask { .. } => {
            let replies = ask_bytes(alloc, &texts.setup, &texts.other)?;
            Ok(Answer::Lines(replies))
        }
        Task::Read { .. } => {
            let replies = read_bytes(alloc, &texts.other)?;
            Ok(Answer::Lines(replies))
        }
        Task::Fly(_) | Task::Mission { .. } => unreachable!(),
    }
}
