//! Hints on a plan text.

use crate::hints::Texts;
use crate::hints::excerpt::Excerpt;
use crate::hints::form::form_hint;
use crate::hints::kind::{TextKind, misplaced};
use crate::hints::lines::{Lines, line_at, lines_with};
use crate::hints::sentence::{Sentence, Shown};
use mm_base::numbers::Numeral;
use mm_base::{MAX_BLOCKS, MAX_STEPS, MAX_STORES, NoMemory, StoreId};
use mm_plan::{MAX_COUNTS, MAX_STRETCHES};
use mm_problem::{Fault, Problem, read_problem};
use std::alloc::Global;

// Which lines can come next.
#[derive(Clone, Copy, PartialEq, Eq)]
enum Stage {
    Title,
    Stores,
    Dumps,
    Loss,
    Cut,
    AfterBound,
    Done,
}

// What the lines of a plan text before one of them say, each of which can stand where it is.
#[derive(Clone, Copy)]
struct Before {
    stage: Stage,
    /// The number of the form.
    form: u64,
    stores: u64,
    steps: u64,
    /// Stretches and counts since the last loss.
    stretches: u64,
    counts: u64,
    bounds: u64,
}

// The word of a line at this place, from 0.
fn word_at(line: &[u8], place: usize) -> &[u8] {
    line.split(|byte| *byte == b' ').nth(place).unwrap_or(&[])
}

// How many words a line has after its first.
fn words_after(line: &[u8]) -> u64 {
    (line.split(|byte| *byte == b' ').count() as u64).saturating_sub(1)
}

fn number_of(word: &[u8], most: u64) -> Option<u64> {
    match Numeral::read(word, most) {
        Numeral::Number(number) => Some(number),
        _ => None,
    }
}

impl Before {
    fn nothing() -> Before {
        Before {
            stage: Stage::Title,
            form: 0,
            stores: 0,
            steps: 0,
            stretches: 0,
            counts: 0,
            bounds: 0,
        }
    }

    // The same and one line more.
    fn with_line(self, line: &[u8]) -> Before {
        match word_at(line, 0) {
            b"mmplan" => Before {
                stage: Stage::Stores,
                form: number_of(word_at(line, 1), 3).unwrap_or(0),
                ..self
            },
            b"stores" => Before {
                stage: Stage::Dumps,
                stores: words_after(line),
                ..self
            },
            b"dump" => Before {
                steps: self.steps.saturating_add(1),
                ..self
            },
            b"first" => Before {
                stage: Stage::Loss,
                ..self
            },
            b"loss" => Before {
                stage: Stage::Cut,
                stretches: 0,
                counts: 0,
                ..self
            },
            b"stretch" => Before {
                stretches: self.stretches.saturating_add(1),
                ..self
            },
            b"count" => Before {
                counts: self.counts.saturating_add(1),
                ..self
            },
            b"bound" => Before {
                stage: Stage::AfterBound,
                bounds: self.bounds.saturating_add(1),
                ..self
            },
            _ => Before {
                stage: Stage::Done,
                ..self
            },
        }
    }

    fn of(text: &[u8], line: u64) -> Before {
        let mut before = Before::nothing();
        for earlier in Lines(text).take(line.saturating_sub(1) as usize) {
            before = before.with_line(earlier);
        }
        before
    }
}

// These words of a line, which end with what is expected there.
fn expected(number: u64, line: &[u8], words: &str) -> Sentence {
    said!("line {} is {}; ", words; Count(number), Text(Excerpt::of(line)))
}

// The same with a number in the words.
fn expected_at(number: u64, line: &[u8], words: &str, count: u64) -> Sentence {
    said!("line {} is {}; ", words; Count(number), Text(Excerpt::of(line)), Count(count))
}

// What is found in the line of the stores.
fn stores_hint(number: u64, line: &[u8]) -> Sentence {
    let stores = words_after(line);
    if word_at(line, 0) != b"stores".as_slice() {
        return expected(number, line, "stores and their identifiers are expected");
    }
    if stores < 1 || (MAX_STORES as u64) < stores {
        return said!("line {} has {} stores; 1 to 16 can be"; Count(number), Count(stores));
    }
    for id in line.split(|byte| *byte == b' ').skip(1) {
        if StoreId::of_text(id).is_err() {
            return said! {
                "line {} has {} as a store; 1 to 8 of the characters A-Z, 0-9, _ and - can be";
                Count(number), Text(Excerpt::of(id))
            };
        }
    }
    expected(number, line, "stores and their identifiers are expected")
}

// What is found in the line of a step.
fn dump_hint(before: &Before, number: u64, line: &[u8]) -> Sentence {
    let (step, amounts) = (
        before.steps.saturating_add(1),
        words_after(line).saturating_sub(1),
    );
    if step > u64::from(MAX_STEPS) {
        return expected(number, line, "256 steps are the most, and loss is expected");
    }
    if number_of(word_at(line, 1), u64::from(MAX_STEPS)) != Some(step) {
        return expected_at(number, line, "dump {} is expected", step);
    }
    if amounts != before.stores {
        return said! {
            "line {} has {} amounts for {} stores"; Count(number), Count(amounts), Count(before.stores)
        };
    }
    for amount in line.split(|byte| *byte == b' ').skip(2) {
        if number_of(amount, u64::from(MAX_BLOCKS)).is_none() {
            return said! {
                "line {} has {} as an amount; 0 to 1000000 can be, without sign or leading zeros";
                Count(number), Text(Excerpt::of(amount))
            };
        }
    }
    expected_at(number, line, "dump {} is expected", step)
}

// What is found in a line where a step or the loss can stand.
fn dumps_hint(before: &Before, number: u64, line: &[u8]) -> Sentence {
    let step = before.steps.saturating_add(1);
    match word_at(line, 0) {
        b"dump" => dump_hint(before, number, line),
        _ if before.steps == 0 => expected(number, line, "dump 1 is expected"),
        b"loss" => expected(number, line, "loss and a number below 2^64 are expected"),
        _ if before.steps >= u64::from(MAX_STEPS) => expected(number, line, "loss is expected"),
        _ => expected_at(number, line, "dump {} or loss is expected", step),
    }
}

// What is expected where a line of a cut can stand.
fn cut_words(before: &Before, line: &[u8]) -> &'static str {
    match word_at(line, 0) {
        b"stretch" if before.counts > 0 => "stretches stand before counts",
        b"stretch" if before.stretches >= MAX_STRETCHES as u64 => "4096 stretches are the most",
        b"stretch" => "a stretch has a store, its first step and its last step",
        b"count" if before.form == 1 => "only the forms mmplan 2 and mmplan 3 have counts",
        b"count" if before.counts >= MAX_COUNTS as u64 => "256 counts are the most",
        b"count" => "a count has a step and the word channels",
        b"bound" if before.form == 2 && before.counts == 0 => {
            "the form mmplan 2 has a count before its bound; without counts the form is mmplan 1"
        }
        b"bound" => "bound and a whole number are expected",
        _ if before.form == 1 => "stretch or bound is expected",
        _ => "stretch, count or bound is expected",
    }
}

// What is found in a line of a plan text that cannot stand where it is.
fn line_hint(before: &Before, number: u64, line: &[u8]) -> Sentence {
    match before.stage {
        Stage::Title => {
            expected(
                number,
                line,
                "a plan text begins with mmplan 1, mmplan 2 or mmplan 3",
            )
        }
        Stage::Stores => stores_hint(number, line),
        Stage::Dumps => dumps_hint(before, number, line),
        Stage::Loss => expected(number, line, "loss and a number below 2^64 are expected"),
        Stage::Cut => expected(number, line, cut_words(before, line)),
        Stage::AfterBound if before.form == 3 && before.bounds < before.stores => {
            expected_at(number, line, "first {} is expected", before.bounds)
        }
        Stage::AfterBound => expected(number, line, "end is expected"),
        Stage::Done => expected(number, line, "nothing comes after end"),
    }
}

// Whether a line is the last of a text, and has no line feed.
fn is_cut_off(text: &[u8], line: u64) -> bool {
    !text.ends_with(b"\n") && line_at(text, line.saturating_add(1)).is_none()
}

/// What is found in this line of a plan text.
pub(crate) fn plan_hint(text: &[u8], line: u64) -> Sentence {
    if let Some(hint) = form_hint(text, line).or(misplaced(text, TextKind::Plan)) {
        return hint;
    }
    if text.is_empty() {
        return said!("the file is empty; a plan text begins with mmplan 1, mmplan 2 or mmplan 3");
    }
    if text.starts_with(b"refused ") {
        return said!("the file holds the line of a refusal, and no plan; plan again");
    }
    let before = Before::of(text, line);
    match line_at(text, line) {
        Some(found) if before.stage == Stage::Done || !is_cut_off(text, line) => {
            line_hint(&before, line, found)
        }
        _ => said!("the text ends in line {}; its last line is end, with a line feed"; Count(line)),
    }
}

/// The stores and the steps of a plan, and those of the setup and the forecast.
pub(crate) fn shape_hint(alloc: Global, texts: Texts<'_>) -> Result<Option<Sentence>, NoMemory> {
    match read_problem(alloc, texts.setup, texts.forecast) {
        Ok(problem) => Ok(shapes(&problem, texts.plan)),
        Err(Fault::NoMemory) => Err(NoMemory),
        Err(_) => Ok(None),
    }
}

fn shapes(problem: &Problem, plan: &[u8]) -> Option<Sentence> {
    let mut wanted = Excerpt::of(b"stores");
    for store in 0..problem.stores() {
        wanted.push(b" ");
        wanted.push(problem.id(store).text());
    }
    let found = Excerpt::of(line_at(plan, 2)?);
    found! {
        "the plan has {} and {} steps; {} and {} steps are wanted";
        Text(found), Count(lines_with(plan, b"dump ")), Text(wanted), Count(u64::from(problem.steps()))
    }
}
