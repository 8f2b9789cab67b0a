//! Problems of a study with arrivals during dumps, with sizes by step, or with both.
use anyhow::Result;
use mm_problem::{Arrivals, MAX_BLOCKS, Problem};
use std::alloc::Global;
use work_base::Numbers;

/// What makes a problem one whose steps cannot be carried out.
#[derive(Clone, Copy)]
pub enum Kind {
    /// Arrivals come during dumps.
    During,
    /// Stores have sizes by step.
    Sized,
    Both,
}

impl Kind {
    /// The problem of this kind.
    pub fn of(self, alloc: Global, numbers: &mut Numbers, problem: &Problem) -> Result<Problem> {
        let come = match self {
            Kind::Sized => Arrivals::Before,
            Kind::During | Kind::Both => Arrivals::During,
        };
        let problem = problem.with_arrivals(alloc, come)?;
        match self {
            Kind::During => Ok(problem),
            Kind::Sized | Kind::Both => sized(alloc, numbers, &problem),
        }
    }
}

// The size of a store in a step: mostly that of the step before. Otherwise 0, as in a bank that is off, or any up to an
// eighth above the setup's size, which is the most that counts.
fn next_size(numbers: &mut Numbers, setup_size: u32, before: u32) -> u32 {
    if !numbers.is_one_in(16) {
        before
    } else if numbers.is_one_in(4) {
        0
    } else {
        numbers.upto(setup_size.saturating_add(setup_size / 8))
    }
}

// A store with sizes by step: its size in the setup, and in the last step.
#[derive(Clone, Copy)]
struct SizedStore {
    setup_size: u32,
    now: u32,
}

// The problem with sizes by step for every second store.
fn sized(alloc: Global, numbers: &mut Numbers, problem: &Problem) -> Result<Problem> {
    let mut places = Vec::new(alloc);
    let mut stores = Vec::new(alloc);
    for store in 0..problem.stores() {
        if store % 2 == 0 {
            let setup_size = problem.setup_size(store);
            let now = setup_size;
            places.push(store as u8)?;
            stores.push(SizedStore { setup_size, now })?;
        }
    }
    let mut sizes = Vec::new(alloc);
    for _ in 0..problem.steps() {
        for store in stores.as_mut_slice() {
            store.now = next_size(numbers, store.setup_size, store.now).min(MAX_BLOCKS);
            sizes.push(store.now)?;
        }
    }
    Ok(problem.with_step_sizes(alloc, &places, &sizes)?)
}
