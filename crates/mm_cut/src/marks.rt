//! The steps of a cut, marked once: those that are inner, and those that count by channels.
ghost use Rattle.std.specs.Prelude.{◌≡◌, ℕ, ◌+◌, ◌<◌, ◌≤◌, ◌||◌, length, slice_index_or, false, All};
ghost use Rattle.mm_base.specs.declared.limits.TheConstants.{MAX_STEPS};
ghost use Rattle.mm_cut.specs.Stretches.{goes_past, is_inner, IsStretch};
ghost use Rattle.mm_cut.specs.Counts.{is_listed};
ghost use Rattle.mm_cut.specs.Cuts.{counts_window, counts_limits};
ghost use Rattle.mm_cut.specs.declared.marks.TheConstants.{STEP_PLACES};

use crate::stretches::inner_end;
use mm_base::MAX_STEPS;
use mm_plan::Stretch;
use mm_problem::Problem;

/// A place for each step that there may be, by its number, and one for 0.
pub const STEP_PLACES: usize = MAX_STEPS as usize + 1;

// Marks the inner steps of a stretch.
fn mark_inner(problem: &Problem, inner: &mut [bool], stretch: &Stretch)
    requires order { stretch.now.first ≤ stretch.now.last }
    requires within { stretch.now.last < length inner.old }
    requires few { stretch.now.last ≤ MAX_STEPS }
    ensures { (t : ℕ) → slice_index_or inner.new t false
        ≡ (slice_index_or inner.old t false || goes_past problem.now t stretch.now) }
{
    let end = inner_end(problem, stretch) as u32;
    for step in stretch.first..end {
        inner[step as usize] = true;
    }
}

/// Whether each step is inner in some stretch.
#[must_use]
pub fn inner_steps(problem: &Problem, stretches: &[Stretch]) -> [bool; STEP_PLACES]
    requires { All (IsStretch problem.now) stretches.now }
    ensures places { length result ≡ STEP_PLACES }
    ensures inner { (t : ℕ) → slice_index_or result t false ≡ is_inner problem.now stretches.now t }
{
    // no stretch goes past the last step
    prove!(problem.steps() <= MAX_STEPS);
    let mut inner = [false; STEP_PLACES];
    for stretch in stretches {
        mark_inner(problem, &mut inner, stretch);
    }
    inner
}

/// Whether each step is one of those listed.
#[must_use]
pub fn listed_steps(steps: &[u32]) -> [bool; STEP_PLACES]
    ensures places { length result ≡ STEP_PLACES }
    ensures listed { (t : ℕ) → t < STEP_PLACES → slice_index_or result t false ≡ is_listed steps.now t }
{
    let mut listed = [false; STEP_PLACES];
    for step in steps {
        if (*step as usize) < STEP_PLACES {
            listed[*step as usize] = true;
        }
    }
    listed
}

// The stretches and the counts of a cut, with marks of its steps.
#[derive(Drop)]
pub(crate) struct Marks<'a> {
    pub(crate) problem: &'a Problem,
    pub(crate) stretches: &'a [Stretch],
    pub(crate) counts: &'a [u32],
    inner: [bool; STEP_PLACES],
    listed: [bool; STEP_PLACES],
    ghost inner_places: { length inner ≡ STEP_PLACES },
    ghost listed_places: { length listed ≡ STEP_PLACES },
    ghost are_inner: { (t : ℕ) → slice_index_or inner t false ≡ is_inner problem.now stretches.now t },
    ghost are_listed: { (t : ℕ) → t < STEP_PLACES → slice_index_or listed t false ≡ is_listed counts.now t },
}

impl<'a> Marks<'a> {
    // The marks of a cut of the problem.
    pub(crate) fn new(
        problem: &'a Problem,
        stretches: &'a [Stretch],
        counts: &'a [u32],
    ) -> Marks<'a>
        requires { All (IsStretch problem.now) stretches.now }
        ensures problem { result.problem.now ≡ problem.now }
        ensures stretches { result.stretches.now ≡ stretches.now }
        ensures counts { result.counts.now ≡ counts.now }
    {
        Marks {
            problem,
            stretches,
            counts,
            inner: inner_steps(problem, stretches),
            listed: listed_steps(counts),
        }
    }

    // Whether a step counts by its window.
    pub(crate) fn counts_window(&self, step: u32) -> bool
        requires { step ≤ MAX_STEPS }
        ensures { result ≡ counts_window self.now.problem.now self.now.stretches.now self.now.counts.now step }
    {
        self.inner[step as usize] && !self.listed[step as usize]
    }

    // Whether it counts by the limits of channels.
    pub(crate) fn counts_limits(&self, step: u32) -> bool
        requires { step ≤ MAX_STEPS }
        ensures { result ≡ counts_limits self.now.problem.now self.now.stretches.now self.now.counts.now step }
    {
        self.inner[step as usize] && self.listed[step as usize]
    }
}
