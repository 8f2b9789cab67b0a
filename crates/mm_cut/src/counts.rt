//! The steps of a cut that count by channels.
ghost use Rattle.std.specs.Prelude.{◌≡◌, ◌↔◌, All, IsTrue, IsNone, IfSome};
ghost use Rattle.mm_cut.specs.Stretches.{is_inner, IsStretch, AreStretches};
ghost use Rattle.mm_cut.specs.Counts.{is_listed, IsLimited, IsCounted, IsCountedAfter, AreCounted};
ghost use Rattle.mm_cut.specs.FirstBad.{IsFirstBad};

use crate::stretches::{channel_of, goes_past};
use mm_base::MAX_STEPS;
use mm_plan::Stretch;
use mm_problem::Problem;

/// Whether a step is inner in some stretch: the stretch goes past it.
#[must_use]
pub fn is_inner(problem: &Problem, stretches: &[Stretch], step: u32) -> bool
    ensures inner { result ≡ is_inner problem.now stretches.now step }
{
    stretches
        .iter()
        .any(|stretch| goes_past(problem, step, stretch))
}

// Whether a step is one of those listed.
pub(crate) fn is_listed(steps: &[u32], step: u32) -> bool
    ensures { result ≡ is_listed steps.now step }
{
    steps.contains(&step)
}

fn is_limited(problem: &Problem, step: u32, stretch: &Stretch) -> bool
    requires { IsStretch problem.now stretch.now }
    ensures { IsTrue result ↔ IsLimited problem.now step stretch.now }
{
    !goes_past(problem, step, stretch)
        || problem.limit(channel_of(problem, stretch), step).is_some()
}

fn are_limited(problem: &Problem, step: u32, stretches: &[Stretch]) -> bool
    requires { All (IsStretch problem.now) stretches.now }
    ensures { IsTrue result ↔ All (IsLimited problem.now step) stretches.now }
{
    stretches
        .iter()
        .all(|stretch| is_limited(problem, step, stretch))
}

// Whether the step can be counted by channels.
fn is_counted(problem: &Problem, stretches: &[Stretch], step: u32) -> bool
    requires { All (IsStretch problem.now) stretches.now }
    ensures { IsTrue result ↔ IsCounted problem.now stretches.now step }
{
    is_inner(problem, stretches, step) && are_limited(problem, step, stretches)
}

// Whether the step can be counted by channels and is none of the earlier ones.
fn is_counted_after(problem: &Problem, stretches: &[Stretch], earlier: &[u32], step: u32) -> bool
    requires { All (IsStretch problem.now) stretches.now }
    ensures { IsTrue result ↔ IsCountedAfter problem.now stretches.now earlier.now step }
{
    is_counted(problem, stretches, step) && !is_listed(earlier, step)
}

/// The first bad step of those that count by channels, from 1: it is not inner, it stands before in the list, or a
/// store that is inner there has a channel without a limit in that step.
#[must_use]
pub fn first_bad_count(problem: &Problem, stretches: &[Stretch], counts: &[u32]) -> Option<u32>
    requires { AreStretches problem.now stretches.now }
    ensures none { IsNone result ↔ AreCounted problem.now stretches.now counts.now }
    ensures bad { IfSome result (IsFirstBad (AreCounted problem.now stretches.now) counts.now) }
{
    // at most one count for each step, so that its number fits
    prove!(problem.steps() <= MAX_STEPS);
    for (place, step) in counts.iter().enumerate() {
        if !is_counted_after(problem, stretches, &counts[..place], *step) {
            return Some((place + 1) as u32);
        }
    }
    None
}
