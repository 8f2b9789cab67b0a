//! The bound of a cut.
ghost use Rattle.std.specs.Prelude.{◌≡◌, ℕ, ◌+◌, ◌*◌, ◌<◌, ◌≤◌, length, slice_index_or, false, All};
ghost use Rattle.mm_base.specs.declared.limits.TheConstants.{MAX_STORES, MAX_STEPS, MAX_BLOCKS, CHANNELS};
ghost use Rattle.mm_problem.specs.Dumping.{IsDumping};
ghost use Rattle.mm_cut.specs.Stretches.{is_inner_on, IsStretch};
ghost use Rattle.mm_cut.specs.Cuts.{opening, coming, coming_sum, held_sum, limit_sum, windows_sum, limits_sum, IsCut};
ghost use Rattle.mm_cut.specs.Cuts.{bound};

use crate::marks::Marks;
use crate::stretches::{channel_of, goes_past, store_of};
use mm_base::{CHANNELS, MAX_STEPS, MAX_STORES};
use mm_plan::Stretch;
use mm_problem::Problem;

// What the store of a stretch holds before the stretch, as far as the problem says it.
fn opening(problem: &Problem, stretch: &Stretch) -> u32
    requires { IsStretch problem.now stretch.now }
    ensures opening { result ≡ opening problem.now stretch.now }
    ensures most { result ≤ MAX_BLOCKS }
{
    if stretch.first == 1 {
        problem.start(store_of(problem, stretch))
    } else {
        0
    }
}

// What the store of a stretch holds before the stretch, and what arrives in the stretch's steps.
#[tactic(auto, using(crate::proofs::Covered::sum_before_first, crate::proofs::Covered::sum_within_next, crate::proofs::Covered::sum_after_last))]
fn coming(problem: &Problem, stretch: &Stretch) -> u64
    requires { IsStretch problem.now stretch.now }
    ensures coming { result ≡ coming problem.now stretch.now }
    ensures most { result ≤ MAX_BLOCKS + MAX_STEPS * MAX_BLOCKS }
{
    // its last step is one of the problem
    prove!(problem.steps() <= MAX_STEPS);
    let store = store_of(problem, stretch);
    let mut coming = u64::from(opening(problem, stretch));
    for step in stretch.first..stretch.last + 1 {
        coming += u64::from(problem.arrivals(store, step));
    }
    coming
}

// The channels of the stores that are inner in the step.
fn inner_channels(problem: &Problem, stretches: &[Stretch], step: u32) -> [bool; CHANNELS]
    requires { All (IsStretch problem.now) stretches.now }
    ensures channels { length result ≡ CHANNELS }
    ensures inner { (c : ℕ) → c < CHANNELS
        → slice_index_or result c false ≡ is_inner_on problem.now stretches.now step c }
{
    let mut inner = [false; CHANNELS];
    for stretch in stretches {
        if goes_past(problem, step, stretch) {
            inner[channel_of(problem, stretch) as usize] = true;
        }
    }
    inner
}

// The limits of the channels of the stores that are inner in the step, each channel once.
#[tactic(auto, using(mm_base::proofs::RangeSums::sum_by_filter_range_more))]
fn limit_sum(problem: &Problem, stretches: &[Stretch], step: u32) -> u64
    requires is_dumping { IsDumping problem.now }
    requires first { 1 ≤ step }
    requires last { step ≤ length problem.now.windows }
    requires stretches { All (IsStretch problem.now) stretches.now }
    ensures sum { result ≡ limit_sum problem.now stretches.now step }
    ensures most { result ≤ CHANNELS * MAX_BLOCKS }
{
    let inner = inner_channels(problem, stretches, step);
    let mut sum: u64 = 0;
    for channel in 0..CHANNELS as u8 {
        if inner[channel as usize] {
            sum += u64::from(problem.limit(channel, step).unwrap_or(0));
        }
    }
    sum
}

// What may leave in the steps that count by their windows.
#[tactic(auto, using(mm_base::proofs::RangeSums::sum_by_filter_range_next))]
fn windows_sum(marks: &Marks<'_>) -> u64
    ensures sum { result ≡ windows_sum marks.now.problem.now marks.now.stretches.now marks.now.counts.now }
    ensures most { result ≤ MAX_STEPS * MAX_BLOCKS }
{
    let problem = marks.problem;
    let mut sum: u64 = 0;
    for step in 1..problem.steps() + 1 {
        if marks.counts_window(step) {
            sum += u64::from(problem.window(step));
        }
    }
    sum
}

// What may leave in the steps that count by the limits of channels.
#[tactic(auto, using(mm_base::proofs::RangeSums::sum_by_filter_range_next))]
fn limits_sum(marks: &Marks<'_>) -> u64
    requires { All (IsStretch marks.now.problem.now) marks.now.stretches.now }
    ensures sum { result ≡ limits_sum marks.now.problem.now marks.now.stretches.now marks.now.counts.now }
    ensures most { result ≤ MAX_STEPS * (CHANNELS * MAX_BLOCKS) }
{
    let problem = marks.problem;
    let mut sum: u64 = 0;
    for step in 1..problem.steps() + 1 {
        if marks.counts_limits(step) {
            sum += limit_sum(problem, marks.stretches, step);
        }
    }
    sum
}

// What comes in over all stretches.
fn coming_sum(problem: &Problem, stretches: &[Stretch]) -> u64
    requires each { All (IsStretch problem.now) stretches.now }
    requires few { length stretches.now ≤ MAX_STEPS * MAX_STORES }
    ensures sum { result ≡ coming_sum problem.now stretches.now }
    ensures most { result ≤ MAX_STEPS * MAX_STORES * (MAX_BLOCKS + MAX_STEPS * MAX_BLOCKS) }
{
    let mut sum: u64 = 0;
    for stretch in stretches {
        sum += coming(problem, stretch);
    }
    sum
}

// What may be held as the stretches end.
fn held_sum(problem: &Problem, stretches: &[Stretch]) -> u64
    requires each { All (IsStretch problem.now) stretches.now }
    requires few { length stretches.now ≤ MAX_STEPS * MAX_STORES }
    ensures sum { result ≡ held_sum problem.now stretches.now }
    ensures most { result ≤ MAX_STEPS * MAX_STORES * MAX_BLOCKS }
{
    let mut sum: u64 = 0;
    for stretch in stretches {
        sum += u64::from(problem.size(store_of(problem, stretch), stretch.last));
    }
    sum
}

/// The sums that the bound of a cut is made of, in blocks.
#[derive(Clone, Copy, Debug, PartialEq, Eq)]
pub struct Parts {
    /// What comes in over the stretches, with what stands there where one begins with step 1.
    pub coming: u64,
    /// What may be held in their last steps: the sizes of their stores there.
    pub held: u64,
    /// What may leave by the windows of the inner steps that are not counted by channels.
    pub windows: u64,
    /// What may leave by the limits of the channels in the steps that are.
    pub limits: u64,
}

/// The sums that the bound of a cut is made of.
#[must_use]
pub fn parts_of(problem: &Problem, stretches: &[Stretch], counts: &[u32]) -> Parts
    requires { IsCut problem.now stretches.now counts.now }
    ensures coming { result.coming ≡ coming_sum problem.now stretches.now }
    ensures held { result.held ≡ held_sum problem.now stretches.now }
    ensures windows { result.windows ≡ windows_sum problem.now stretches.now counts.now }
    ensures limits { result.limits ≡ limits_sum problem.now stretches.now counts.now }
    ensures few_come { result.coming ≤ MAX_STEPS * MAX_STORES * (MAX_BLOCKS + MAX_STEPS * MAX_BLOCKS) }
    ensures few_stay { result.held ≤ MAX_STEPS * MAX_STORES * MAX_BLOCKS }
    ensures few_leave { result.windows + result.limits ≤ MAX_STEPS * (CHANNELS * MAX_BLOCKS + MAX_BLOCKS) }
{
    // at most one stretch for each store and step, so that the sums fit
    prove!(problem.stores() <= MAX_STORES && problem.steps() <= MAX_STEPS);
    let marks = Marks::new(problem, stretches, counts);
    Parts {
        coming: coming_sum(problem, stretches),
        held: held_sum(problem, stretches),
        windows: windows_sum(&marks),
        limits: limits_sum(&marks),
    }
}

/// The bound of a cut, in blocks: what comes in over its stretches, less what may be held as they end and what may
/// leave in inner steps. No plan that fits loses less. It may be below 0.
#[tactic(auto, using(crate::proofs::PartSums::leaving_sum_parts))]
#[must_use]
pub fn bound(problem: &Problem, stretches: &[Stretch], counts: &[u32]) -> i64
    requires { IsCut problem.now stretches.now counts.now }
    ensures bound { result ≡ bound problem.now stretches.now counts.now }
{
    let parts = parts_of(problem, stretches, counts);
    parts.coming as i64 - (parts.held + parts.windows + parts.limits) as i64
}
