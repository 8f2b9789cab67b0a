//! What becomes of the blocks that are there in a store in a step, once its arrivals have come.
ghost use Rattle.std.specs.Prelude.{◌≡◌, ℕ, ◌<◌, ◌≤◌, length, IfSome};
ghost use Rattle.mm_base.specs.declared.limits.TheConstants.{MAX_BLOCKS};
ghost use Rattle.mm_problem.specs.Dumping.{size};
ghost use Rattle.mm_plan.specs.Volumes.{can_leave, held_by, left_by, lost_by};

use mm_problem::{Arrivals, Problem};

// What stands in a store in a step, and what the store loses in it, in blocks.
#[derive(Clone, Copy, Debug)]
pub(crate) struct StepVolumes {
    // once the step's arrivals have come
    pub(crate) written: u32,
    // when the step has ended
    pub(crate) left: u32,
    pub(crate) lost: u32,
}

/// How many of the blocks that are there can leave.
#[must_use]
pub fn can_leave(come: Arrivals, size: u32, there: u32) -> u32
    ensures blocks { result ≡ can_leave come size there }
    ensures most { result ≤ there }
{
    match come {
        Arrivals::Before => there.min(size),
        Arrivals::During => there,
    }
}

/// How many of the blocks that stay are held as the step ends.
#[must_use]
pub fn held_by(come: Arrivals, size: u32, stay: u32) -> u32
    ensures blocks { result ≡ held_by come size stay }
    ensures most { result ≤ stay }
{
    match come {
        Arrivals::Before => stay,
        Arrivals::During => stay.min(size),
    }
}

// The size of a store in a step, where this is its size if it is the same in each step.
#[inline(always)]
pub(crate) fn size_by(problem: &Problem, one_size: Option<u32>, store: usize, step: u32) -> u32
    requires store { store < length problem.now.rows }
    requires first { 1 ≤ step }
    requires last { step ≤ length problem.now.windows }
    requires each { IfSome one_size (λ n. (t : ℕ) → size problem.now store t ≡ n) }
    requires most { IfSome one_size (λ n. n ≤ MAX_BLOCKS) }
    ensures size { result ≡ size problem.now store step }
    ensures most { result ≤ MAX_BLOCKS }
{
    match one_size {
        Some(size) => size,
        None => problem.size(store, step),
    }
}

// The size of a store in a step, where it has a size for each step.
#[inline(never)]
fn stepped_size(problem: &Problem, store: usize, step: u32) -> u32
    requires store { store < length problem.now.rows }
    requires first { 1 ≤ step }
    requires last { step ≤ length problem.now.windows }
    ensures size { result ≡ size problem.now store step }
    ensures most { result ≤ MAX_BLOCKS }
{
    problem.size(store, step)
}

// The size of a store in a step, at little cost where no store has sizes by step.
#[inline(always)]
#[tactic(auto, unfolding(mm_problem::specs::Dumping::size))]
pub(crate) fn size_in(problem: &Problem, store: usize, step: u32) -> u32
    requires store { store < length problem.now.rows }
    requires first { 1 ≤ step }
    requires last { step ≤ length problem.now.windows }
    ensures size { result ≡ size problem.now store step }
    ensures most { result ≤ MAX_BLOCKS }
{
    if problem.sized().is_empty() {
        problem.setup_size(store)
    } else {
        stepped_size(problem, store, step)
    }
}

// What a dump makes of the blocks that are there.
#[inline(always)]
pub(crate) fn turn(come: Arrivals, size: u32, there: u32, dump: u32) -> StepVolumes
    ensures volumes { result ≡ (record {
      written = can_leave come size there;
      left = left_by come size there dump;
      lost = lost_by come size there dump;
    }) }
{
    let written = can_leave(come, size, there);
    let stay = written - dump.min(written);
    let left = held_by(come, size, stay);
    StepVolumes {
        written,
        left,
        lost: there - written + (stay - left),
    }
}
