//! Hints on a plan text that is not shown to lose least.

use crate::hints::excerpt::Excerpt;
use crate::hints::fit::fit_hint;
use crate::hints::lines::line_at;
use crate::hints::sentence::{Sentence, Shown};
use crate::hints::{Hint, Texts};
use mm_cut::{Verdict, inner_end, is_inner};
use mm_plan::{Sheet, Stretch};
use mm_problem::{Arrivals, Problem, read_problem};
use std::alloc::Global;

// A plan text as it is judged: the problem, what the text says, and the text.
#[derive(Clone, Copy)]
struct Judged<'a> {
    problem: &'a Problem,
    sheet: &'a Sheet,
    text: &'a [u8],
}

// A line of the text, with its number.
#[derive(Clone, Copy)]
struct Numbered<'a> {
    number: u64,
    line: &'a [u8],
}

// What is found in a line: the line and these words.
macro_rules! found_in {
    ($at:expr, $words:literal $(; $($kind:ident($shown:expr)),+)?) => {
        found! {
            "line {} is {}; ", $words; Count($at.number), Text(Excerpt::of($at.line)) $(, $($kind($shown)),+)?
        }
    };
}

impl<'a> Judged<'a> {
    // The line of the loss comes after those of the form, the stores and the steps. This is that many lines later.
    fn after_loss(&self, later: usize) -> Option<Numbered<'a>> {
        let number = u64::from(self.problem.steps())
            .saturating_add(3)
            .saturating_add(later as u64);
        Some(Numbered {
            number,
            line: line_at(self.text, number)?,
        })
    }

    // What the text says of its loss, which is this one.
    fn loss(&self, loss: u64) -> Option<Sentence> {
        let line = self.after_loss(0)?.number;
        let says = self.sheet.loss();
        if says < loss {
            found! {
                "line {} says loss {}; the plan loses {}, which is {} more";
                Count(line), Count(says), Count(loss), Count(loss - says)
            }
        } else {
            found! {
                "line {} says loss {}; the plan loses {}, which is {} less";
                Count(line), Count(says), Count(loss), Count(says - loss)
            }
        }
    }

    // What the text says of its bound, which is this one.
    fn bound(&self, bound: i64) -> Option<Sentence> {
        let later = self
            .sheet
            .cut()
            .len()
            .saturating_add(self.sheet.by_channels().len());
        let line = self.after_loss(later.saturating_add(1))?.number;
        found! {
            "line {} says bound {}; the bound of the stretches and counts above it is {}";
            Count(line), Number(self.sheet.bound()), Number(bound)
        }
    }

    // The place of an earlier stretch of the same store that has a step of this one.
    fn shared_with(&self, place: usize, stretch: &Stretch) -> Option<usize> {
        for (earlier, other) in self.sheet.cut().iter().take(place).enumerate() {
            let is_apart = other.last < stretch.first || stretch.last < other.first;
            if other.store == stretch.store && !is_apart {
                return Some(earlier);
            }
        }
        None
    }

    // Why the stretch at this place, from 0, is a bad one.
    fn stretch(&self, place: usize) -> Option<Sentence> {
        let at = self.after_loss(place.saturating_add(1))?;
        let stretch = self.sheet.cut().get(place)?;
        if self.problem.place(&stretch.store).is_none() {
            return found_in!(at, "the setup has no such store");
        }
        if stretch.first < 1 {
            return found_in!(at, "the first step is 1");
        }
        if stretch.last < stretch.first {
            return found_in!(at, "its first step is after its last");
        }
        if self.problem.steps() < stretch.last {
            let steps = u64::from(self.problem.steps());
            return found_in!(at, "the forecast has {} steps"; Count(steps));
        }
        let other = self.after_loss(self.shared_with(place, stretch)?.saturating_add(1))?;
        found_in!(at, "line {} has a step of it already"; Count(other.number))
    }

    // Whether a stretch goes past a step, and its store's channel has no limit there.
    fn is_unlimited(&self, step: u32, stretch: &Stretch) -> bool {
        if step < 1 || self.problem.steps() < step {
            return false;
        }
        if step < stretch.first || inner_end(self.problem, stretch) <= u64::from(step) {
            return false;
        }
        match self.problem.place(&stretch.store) {
            Some(store) => self
                .problem
                .limit(self.problem.channel(store), step)
                .is_none(),
            None => false,
        }
    }

    // Why the count at this place, from 0, is a bad one.
    fn count(&self, place: usize) -> Option<Sentence> {
        let cut = self.sheet.cut();
        let at = self.after_loss(cut.len().saturating_add(place).saturating_add(1))?;
        let step = *self.sheet.by_channels().get(place)?;
        if !is_inner(self.problem, cut, step) {
            return match self.problem.come() {
                Arrivals::Before => found_in!(
                    at,
                    "the step is inner to no stretch, as each of its steps but the last is"
                ),
                Arrivals::During => {
                    found_in!(
                        at,
                        "the step is inner to no stretch, as each of its steps is"
                    )
                }
            };
        }
        for stretch in cut {
            if self.is_unlimited(step, stretch) {
                let store = Excerpt::of_id(&stretch.store);
                return found_in!(at, "{} is inner there, and its channel has no limit"; Text(store));
            }
        }
        found_in!(at, "an earlier count has this step")
    }

    fn hint(&self, verdict: Verdict) -> Option<Sentence> {
        match verdict {
            Verdict::LossIs(loss) => self.loss(loss),
            Verdict::BoundIs(bound) => self.bound(bound),
            Verdict::BadStretch(place) => self.stretch((place as usize).checked_sub(1)?),
            Verdict::BadCount(place) => self.count((place as usize).checked_sub(1)?),
            _ => None,
        }
    }
}

/// What is found in a plan text with this verdict: by how much a step does not fit, the line of a bad stretch or count
/// and why it is bad, or what the text says of its loss or its bound.
#[must_use]
pub fn verdict_hint(alloc: Global, texts: Texts<'_>, verdict: Verdict) -> Option<Hint> {
    if let Verdict::DoesNotFit(step) = verdict {
        return fit_hint(alloc, texts, step);
    }
    let problem = read_problem(alloc, texts.setup, texts.forecast).ok()?;
    let sheet = Sheet::parse(alloc, texts.plan).ok()?;
    let judged = Judged {
        problem: &problem,
        sheet: &sheet,
        text: texts.plan,
    };
    Some(Hint::Said(judged.hint(verdict)?))
}
