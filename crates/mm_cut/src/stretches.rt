//! The stretches of a cut.
ghost use Rattle.std.specs.Prelude.{◌≡◌, ◌+◌, ◌<◌, ◌≤◌, ◌↔◌, length, All, IsTrue, IsNone, IfSome};
ghost use Rattle.mm_base.specs.declared.limits.TheConstants.{MAX_CHANNEL};
ghost use Rattle.mm_cut.specs.Stretches.{store_of, channel_of, inner_end, goes_past, IsStretch, AreApart, IsStretchAfter};
ghost use Rattle.mm_cut.specs.Stretches.{AreStretches};
ghost use Rattle.mm_cut.specs.FirstBad.{IsFirstBad};

use mm_base::{MAX_STEPS, MAX_STORES};
use mm_plan::Stretch;
use mm_problem::{Arrivals, Problem};

/// The place of a stretch's store, from 0 in setup order.
#[must_use]
pub fn store_of(problem: &Problem, stretch: &Stretch) -> usize
    requires { IsStretch problem.now stretch.now }
    ensures store { result ≡ store_of problem.now stretch.now }
    ensures within { result < length problem.now.rows }
{
    problem.place(&stretch.store).unwrap()
}

// The channel of a stretch's store.
pub(crate) fn channel_of(problem: &Problem, stretch: &Stretch) -> u8
    requires { IsStretch problem.now stretch.now }
    ensures channel { result ≡ channel_of problem.now stretch.now }
    ensures most { result ≤ MAX_CHANNEL }
{
    problem.channel(store_of(problem, stretch))
}

/// The step after the inner steps of a stretch: its last step if arrivals come before dumps, else the one after it.
#[must_use]
pub fn inner_end(problem: &Problem, stretch: &Stretch) -> u64
    ensures end { result ≡ inner_end problem.now.come stretch.now }
    ensures first { stretch.now.last ≤ result }
    ensures last { result ≤ stretch.now.last + 1 }
{
    let last = u64::from(stretch.last);
    match problem.come() {
        Arrivals::Before => last,
        Arrivals::During => last + 1,
    }
}

/// Whether a step is an inner step of the stretch: one of its steps, and its last only where arrivals come during
/// dumps.
pub(crate) fn goes_past(problem: &Problem, step: u32, stretch: &Stretch) -> bool
    ensures { result ≡ goes_past problem.now step stretch.now }
{
    stretch.first <= step && u64::from(step) < inner_end(problem, stretch)
}

fn is_stretch(problem: &Problem, stretch: &Stretch) -> bool
    ensures { IsTrue result ↔ IsStretch problem.now stretch.now }
{
    problem.place(&stretch.store).is_some()
        && 1 <= stretch.first
        && stretch.first <= stretch.last
        && stretch.last <= problem.steps()
}

fn are_apart(earlier: &Stretch, later: &Stretch) -> bool
    ensures { IsTrue result ↔ AreApart earlier.now later.now }
{
    earlier.store != later.store || earlier.last < later.first || later.last < earlier.first
}

// Whether the stretch is one of the problem and shares no step with an earlier one of its store.
fn is_stretch_after(problem: &Problem, earlier: &[Stretch], stretch: &Stretch) -> bool
    ensures { IsTrue result ↔ IsStretchAfter problem.now earlier.now stretch.now }
{
    is_stretch(problem, stretch) && earlier.iter().all(|other| are_apart(other, stretch))
}

/// The first bad stretch, from 1: its store is unknown, its steps are out of order or not of the problem, or it
/// shares a step with an earlier stretch of its store.
#[must_use]
pub fn first_bad(problem: &Problem, stretches: &[Stretch]) -> Option<u32>
    ensures none { IsNone result ↔ AreStretches problem.now stretches.now }
    ensures bad { IfSome result (IsFirstBad (AreStretches problem.now) stretches.now) }
{
    // at most one stretch for each store and step, so that its number fits
    prove!(problem.stores() <= MAX_STORES && problem.steps() <= MAX_STEPS);
    for (place, stretch) in stretches.iter().enumerate() {
        if !is_stretch_after(problem, &stretches[..place], stretch) {
            return Some((place + 1) as u32);
        }
    }
    None
}
