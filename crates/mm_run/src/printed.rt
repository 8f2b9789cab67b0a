//! What a run prints.
ghost use Rattle.std.specs.Prelude.{◌≡◌, ◌+◌, ◌≤◌, ◌++◌, [], length, decimal, vec_capacity, IfOk, Some};
ghost use Rattle.mm_base.specs.Id.{id_text};
ghost use Rattle.mm_base.specs.Refusals.{name_of};
ghost use Rattle.mm_run.specs.Ending.{ID, NAME, NUMBER, refusal_text, field_text, step_of, halted_line, end_line};
ghost use Rattle.mm_run.specs.Ending.{lacking_line};
ghost use Rattle.mm_run.specs.Printed.{TellsReport};
ghost use Rattle.mm_run.specs.declared.printed.TheConstants.{LINE};

use crate::stopped_run::StoppedRun;
use crate::untaken::{Unstored, Untaken};
use itoa::Buffer;
use mm_base::{NoMemory, Refusal, Refused, StoreId};
use mm_report::{Cause, Report};
use std::alloc::Global;

/// Whether a run was carried out whole and its report printed.
#[derive(Clone, Copy, Debug, PartialEq, Eq)]
pub enum Outcome {
    CarriedOut,
    /// The run was carried out whole, and there is no memory for its report.
    Unreported,
    /// The run did not begin, or was halted.
    Stopped(Cause),
}

/// What a run was given: what people are told of it.
#[derive(Clone, Copy, Debug, PartialEq, Eq)]
pub struct Given {
    /// How many sources there are.
    pub sources: usize,
    /// How many links there are.
    pub links: usize,
    /// How many packets of step 0 are routed to the store that does not hold its start volume, where that is the cause.
    pub opening: u64,
    /// How many packets of step 0 were lost before the run, by stores that were full.
    pub lost_before: u64,
    /// How many packets of the sources go to no store.
    pub unstored: Unstored,
    /// The first of those that no route takes.
    pub untaken: Option<Untaken>,
}

/// What a run prints: three texts, one after the other. Beside them, how it ended, what it was given, and what it left.
#[derive(Debug, Drop)]
pub struct Printed {
    /// The plan text, where the plan was made here.
    pub sheet: Vec<u8>,
    /// The report, and nothing where the run did not begin.
    pub report: Vec<u8>,
    /// The line on why the run did not begin or was halted, where one of these is so.
    pub end: Vec<u8>,
    pub outcome: Outcome,
    pub given: Given,
    /// What the run left, where it did not begin or was halted.
    pub left: Option<StoppedRun>,
}

// Each line that is printed when no memory is left has fewer bytes than this.
const LINE: usize = 64;

// The step in which a run was halted, 0 before the first; nothing where it did not begin.
fn step_of(cause: &Cause) -> Option<u32>
    ensures { result ≡ step_of cause.now }
{
    match *cause {
        Cause::NoMemory { step } | Cause::LinkFailed { step } | Cause::LogMismatch { step } => {
            Some(step)
        }
        _ => None,
    }
}

// Pushes octets for which there is room.
fn push(text: &mut Vec<u8>, part: &[u8])
    requires room { length text.old.items + length part.now ≤ vec_capacity text.old }
    ensures text { text.new.items ≡ text.old.items ++ part.now }
    ensures room { vec_capacity text.old ≤ vec_capacity text.new }
{
    let _pushed = text.extend_from_slice(part);
}

// Pushes a number, for whose digits there is room.
fn push_number(text: &mut Vec<u8>, number: u32)
    requires room { length text.old.items + NUMBER ≤ vec_capacity text.old }
    ensures text { text.new.items ≡ text.old.items ++ decimal number }
    ensures short { length (decimal number) ≤ NUMBER }
    ensures room { vec_capacity text.old ≤ vec_capacity text.new }
{
    let mut buffer = Buffer::new();
    push(text, buffer.format(number).as_bytes());
}

// Pushes the number and the name of a refusal, for which there is room.
#[tactic(auto, using(std::proofs::Common::append_assoc))]
fn push_refusal(text: &mut Vec<u8>, refusal: Refusal)
    requires short { length (name_of refusal) ≤ NAME }
    requires room { length text.old.items + (NUMBER + 1 + NAME) ≤ vec_capacity text.old }
    ensures text { text.new.items ≡ text.old.items ++ refusal_text refusal }
    ensures short { length (refusal_text refusal) ≤ NUMBER + 1 + NAME }
    ensures room { vec_capacity text.old ≤ vec_capacity text.new }
{
    push_number(text, u32::from(refusal.number()));
    push(text, b" ");
    push(text, refusal.name().as_bytes());
}

// Pushes the text of an identifier, for which there is room.
fn push_store(text: &mut Vec<u8>, store: &StoreId)
    requires room { length text.old.items + ID ≤ vec_capacity text.old }
    ensures text { text.new.items ≡ text.old.items ++ id_text store.now }
    ensures short { length (id_text store.now) ≤ ID }
    ensures room { vec_capacity text.old ≤ vec_capacity text.new }
{
    let _is_field = store.field();
    push(text, store.text());
}

// Pushes the store or the step that a refusal names, for which there is room.
#[tactic(auto, using(std::proofs::Common::append_assoc))]
fn push_field(text: &mut Vec<u8>, cause: &Cause)
    requires room { length text.old.items + (7 + NUMBER) ≤ vec_capacity text.old }
    ensures text { text.new.items ≡ text.old.items ++ field_text cause.now }
    ensures short { length (field_text cause.now) ≤ 7 + NUMBER }
    ensures room { vec_capacity text.old ≤ vec_capacity text.new }
{
    match *cause {
        Cause::NotReady { store }
        | Cause::SizeDiffers { store }
        | Cause::OpeningDiffers { store }
        | Cause::ChannelDiffers { store } => {
            push(text, b" store ");
            push_store(text, &store);
        }
        Cause::PlanDoesNotFit { step } => {
            push(text, b" step ");
            push_number(text, step);
        }
        _ => {}
    }
}

// Pushes the line on the step in which a run was halted, for which there is room.
#[tactic(auto, using(std::proofs::Common::append_assoc))]
fn push_halted(text: &mut Vec<u8>, step: u32, cause: &Cause)
    requires room { length text.old.items + LINE ≤ vec_capacity text.old }
    ensures text { text.new.items ≡ text.old.items ++ halted_line step cause.now }
{
    push(text, b"halted step ");
    push_number(text, step);
    push(text, b" ");
    push_refusal(text, cause.refusal());
    push(text, b"\n");
}

// Pushes the line on why a run did not begin, or was halted, for which there is room.
#[tactic(auto, using(std::proofs::Common::append_assoc))]
fn push_end(text: &mut Vec<u8>, cause: &Cause)
    requires room { length text.old.items + LINE ≤ vec_capacity text.old }
    ensures text { text.new.items ≡ text.old.items ++ end_line cause.now }
{
    let Some(step) = step_of(cause) else {
        push(text, b"refused ");
        push_refusal(text, cause.refusal());
        push_field(text, cause);
        return push(text, b"\n");
    };
    push_halted(text, step, cause)
}

// Pushes the line that replaces a text for which there is no memory. There is room for the line.
#[tactic(auto, using(std::proofs::Common::append_assoc))]
fn push_lacking(text: &mut Vec<u8>)
    requires room { length text.old.items + LINE ≤ vec_capacity text.old }
    ensures text { text.new.items ≡ text.old.items ++ lacking_line }
{
    push(text, b"refused ");
    push_refusal(text, Refusal::NoMemory);
    push(text, b"\n");
}

// Writes the report's text, or, if there is no memory for it, the line that replaces it, for which there is room.
fn write_report(text: &mut Vec<u8>, alloc: Global, report: &Report) -> Outcome
    requires empty { text.old.items ≡ [] }
    requires room { LINE ≤ vec_capacity text.old }
    ensures { TellsReport report.now text.new.items result }
{
    match report.text(alloc) {
        Ok(whole) => {
            *text = whole;
            Outcome::CarriedOut
        }
        Err(NoMemory) => {
            push_lacking(text);
            Outcome::Unreported
        }
    }
}

impl Printed {
    ghost use Rattle.mm_run.specs.Printed.{IsReserved, TellsAll, TellsEnd};

    /// Nothing is printed yet. There is room for the lines that are printed when no memory is left.
    pub(crate) fn reserved(alloc: Global, given: Given) -> Result<Printed, NoMemory>
        ensures reserved { IfOk result IsReserved }
        ensures given { IfOk result (λ printed. printed.given ≡ given) }
    {
        Ok(Printed {
            sheet: Vec::new(alloc),
            report: Vec::with_capacity(alloc, LINE)?,
            end: Vec::with_capacity(alloc, LINE)?,
            outcome: Outcome::CarriedOut,
            given,
            left: None,
        })
    }

    /// What is printed of a run that was carried out.
    pub(crate) fn whole(mut self, alloc: Global, sheet: Vec<u8>, report: &Report) -> Printed
        requires { IsReserved self }
        ensures tells { TellsAll sheet.items report.now result }
        ensures given { result.given ≡ self.given }
    {
        self.sheet = sheet;
        self.outcome = write_report(&mut self.report, alloc, report);
        self
    }

    /// What is printed of a run that did not begin or was halted, with what it left.
    pub(crate) fn stopped(mut self, alloc: Global, sheet: Vec<u8>, run: StoppedRun) -> Printed
        requires { IsReserved self }
        ensures tells { TellsEnd sheet.items run.halted.cause run.halted.report result }
        ensures given { result.given ≡ self.given }
        ensures left { result.left ≡ Some run }
    {
        let cause = &run.halted.cause;
        let report = &run.halted.report;
        self.sheet = sheet;
        if step_of(cause).is_some() {
            write_report(&mut self.report, alloc, report);
        }
        push_end(&mut self.end, cause);
        self.outcome = Outcome::Stopped(*cause);
        self.left = Some(run);
        self
    }
}
