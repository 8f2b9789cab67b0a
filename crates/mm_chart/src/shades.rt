//! Stretches with the place and the channel of their stores, which are looked up once.
ghost use Rattle.std.specs.Prelude.{◌≡◌, ℕ, ◌<◌, ◌==◌, ◌&&◌, ◌||◌, nat_le, nat_lt, false, All, IfOk, length, map};
ghost use Rattle.std.specs.Prelude.{slice_index_or};
ghost use Rattle.std.specs.List.{list_any};
ghost use Rattle.mm_cut.specs.Stretches.{IsStretch};
ghost use Rattle.mm_cut.specs.declared.marks.TheConstants.{STEP_PLACES};
ghost use Rattle.mm_chart.specs.Shading.{shade_of, is_asked};

use crate::series::Series;
use mm_base::{MAX_STEPS, NoMemory};
use mm_cut::{STEP_PLACES, inner_end, store_of};
use mm_plan::Stretch;
use mm_problem::Problem;
use std::alloc::Global;

/// A stretch with the place and the channel of its store, and the step after its inner steps.
#[derive(Clone, Copy, Debug)]
pub struct Shade {
    pub store: usize,
    pub channel: u8,
    pub first: u32,
    pub last: u32,
    pub end: u32,
}

fn shade_of(problem: &Problem, stretch: &Stretch) -> Shade
    requires { IsStretch problem.now stretch.now }
    ensures { result ≡ shade_of problem.now stretch.now }
{
    // its last step is one of the problem
    prove!(problem.steps() <= MAX_STEPS);
    let store = store_of(problem, stretch);
    Shade {
        store,
        channel: problem.channel(store),
        first: stretch.first,
        last: stretch.last,
        end: inner_end(problem, stretch) as u32,
    }
}

// The shades of stretches, in order.
pub(crate) fn shades_of(
    alloc: Global,
    problem: &Problem,
    stretches: &[Stretch],
) -> Result<Vec<Shade>, NoMemory>
    requires { All (IsStretch problem.now) stretches.now }
    ensures { IfOk result (λ shades. shades.items ≡ map (shade_of problem.now) stretches.now) }
{
    let mut shades = Vec::new(alloc);
    for stretch in stretches {
        shades.push(shade_of(problem, stretch))?;
    }
    Ok(shades)
}

// Marks the steps from one up to another.
fn mark(marks: &mut [bool], first: u32, end: u32)
    ensures { (t : ℕ) → t < length marks.old → slice_index_or marks.new t false
        ≡ (slice_index_or marks.old t false || (nat_le first t && nat_lt t end)) }
{
    let end = marks.len().min(end as usize);
    let first = end.min(first as usize);
    for step in first..end {
        marks[step] = true;
    }
}

// The first of the steps in which a series asks for a stretch, and the first after them.
fn asked(shade: &Shade, series: Series) -> (u32, u32)
    ensures { (t : ℕ) → t < STEP_PLACES → (nat_le result.0 t && nat_lt t result.1) ≡ is_asked series t shade.now }
{
    match series {
        Series::Inner(store) if shade.store == store => (shade.first, shade.end),
        Series::Last(store) if shade.store == store => (shade.last, shade.last.saturating_add(1)),
        Series::ChannelCounts(channel) if shade.channel == channel => (shade.first, shade.end),
        _ => (0, 0),
    }
}

// Marks the steps in which a series asks for one of the stretches.
pub(crate) fn marks_of(shades: &[Shade], series: Series) -> [bool; STEP_PLACES]
    ensures places { length result ≡ STEP_PLACES }
    ensures marks { (t : ℕ) → t < STEP_PLACES → slice_index_or result t false
        ≡ list_any (is_asked series t) shades.now }
{
    let mut marks = [false; STEP_PLACES];
    for shade in shades {
        let (first, end) = asked(shade, series);
        mark(&mut marks, first, end);
    }
    marks
}

// Whether a stretch has an inner step.
pub(crate) fn has_inner(shades: &[Shade]) -> bool
    ensures { result ≡ list_any (λ h. nat_lt h.first h.end) shades.now }
{
    shades.iter().any(|shade| shade.first < shade.end)
}

// Whether the store has a stretch.
pub(crate) fn has_stretch(shades: &[Shade], store: usize) -> bool
    ensures { result ≡ list_any (λ h. h.store == store) shades.now }
{
    shades.iter().any(|shade| shade.store == store)
}
