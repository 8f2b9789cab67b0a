//! The cut of the rest of a problem, told in the steps of the whole problem.
ghost use Rattle.std.specs.Prelude.{◌≡◌, ◌+◌, ◌≤◌, All, IfOk, map};
ghost use Rattle.mm_base.specs.declared.limits.TheConstants.{MAX_STEPS};
ghost use Rattle.mm_keep.specs.Keeps.{AreLaterCuts, IsEarly, later_counts, later_stretch};

use mm_base::NoMemory;
use mm_cut::bound;
use mm_plan::{Cut, Sheet, Stretch};
use mm_problem::Problem;
use std::alloc::Global;

// The stretch that many steps later, which begins with this step if it begins with the first one.
fn later_stretch(stretch: &Stretch, steps: u32, first: u32) -> Stretch
    requires few { steps ≤ MAX_STEPS }
    requires early { IsEarly stretch.now }
    ensures { result ≡ later_stretch steps first stretch.now }
{
    Stretch {
        store: stretch.store,
        first: if stretch.first == 1 {
            first
        } else {
            steps + stretch.first
        },
        last: steps + stretch.last,
    }
}

// The stretches that many steps later; those that begin with the first step begin with this one.
fn later_stretches(
    alloc: Global,
    stretches: &[Stretch],
    steps: u32,
    first: u32,
) -> Result<Vec<Stretch>, NoMemory>
    requires few { steps ≤ MAX_STEPS }
    requires early { All IsEarly stretches.now }
    ensures { IfOk result (λ later. later.items ≡ map (later_stretch steps first) stretches.now) }
{
    let mut later = Vec::new(alloc);
    for stretch in stretches {
        later.push(later_stretch(stretch, steps, first))?;
    }
    Ok(later)
}

// The counted steps that many steps later.
fn later_counts(alloc: Global, counts: &[u32], steps: u32) -> Result<Vec<u32>, NoMemory>
    requires few { steps ≤ MAX_STEPS }
    requires early { All (λ t. t ≤ MAX_STEPS) counts.now }
    ensures { IfOk result (λ later. later.items ≡ later_counts steps counts.now) }
{
    let mut later = Vec::new(alloc);
    for count in counts {
        later.push(steps + *count)?;
    }
    Ok(later)
}

/// The cut of a sheet, that many steps later; stretches that begin with the first step begin with this one.
pub(crate) fn later_cut(
    alloc: Global,
    sheet: &Sheet,
    steps: u32,
    first: u32,
) -> Result<Cut, NoMemory>
    requires few { steps ≤ MAX_STEPS }
    requires stretches { All IsEarly sheet.now.cut }
    requires counts { All (λ t. t ≤ MAX_STEPS) sheet.now.by_channels }
    ensures stretches { IfOk result (λ cut. cut.stretches.items ≡ map (later_stretch steps first) sheet.now.cut) }
    ensures counts { IfOk result (λ cut. cut.by_channels.items ≡ later_counts steps sheet.now.by_channels) }
{
    let stretches = later_stretches(alloc, sheet.cut(), steps, first)?;
    let by_channels = later_counts(alloc, sheet.by_channels(), steps)?;
    Ok(Cut {
        stretches,
        by_channels,
    })
}

// The bound of that cut in the problem.
fn bound_from(
    alloc: Global,
    problem: &Problem,
    sheet: &Sheet,
    steps: u32,
    first: u32,
) -> Result<i64, NoMemory>
    requires few { steps ≤ MAX_STEPS }
    requires stretches { All IsEarly sheet.now.cut }
    requires counts { All (λ t. t ≤ MAX_STEPS) sheet.now.by_channels }
    requires cuts { AreLaterCuts problem.now steps sheet.now }
    requires from { 1 ≤ first }
    requires until { first ≤ steps + 1 }
{
    let cut = later_cut(alloc, sheet, steps, first)?;
    Ok(bound(problem, &cut.stretches, &cut.by_channels))
}

/// The step at which the stretches that begin with the rest are to begin, so that the bound of the cut is largest.
pub(crate) fn best_first(
    alloc: Global,
    problem: &Problem,
    sheet: &Sheet,
    steps: u32,
) -> Result<u32, NoMemory>
    requires few { steps ≤ MAX_STEPS }
    requires stretches { All IsEarly sheet.now.cut }
    requires counts { All (λ t. t ≤ MAX_STEPS) sheet.now.by_channels }
    requires cuts { AreLaterCuts problem.now steps sheet.now }
    ensures from { IfOk result (λ first. 1 ≤ first) }
    ensures until { IfOk result (λ first. first ≤ steps + 1) }
{
    let mut best = steps + 1;
    let mut most = bound_from(alloc, problem, sheet, steps, best)?;
    for first in 1..steps + 1 {
        let bound = bound_from(alloc, problem, sheet, steps, first)?;
        if most < bound {
            (best, most) = (first, bound);
        }
    }
    Ok(best)
}
