//! The sizes of stores, in the setup and by step.
ghost use Rattle.std.specs.Prelude.{◌≡◌, ℕ, ◌==◌, ◌<◌, ◌≤◌, length, position, IfOk, IfSome};
ghost use Rattle.mm_base.specs.declared.limits.TheConstants.{MAX_BLOCKS};
ghost use Rattle.mm_base.specs.Reading.{Gives};
ghost use Rattle.mm_problem.specs.Data.{sized_by};
ghost use Rattle.mm_problem.specs.Dumping.{column_size, setup_size, size, one_size};
ghost use Rattle.mm_problem.specs.declared.fault.Fault.TheVariants.{NoMemory};

use crate::data::test_columns;
use crate::fault::{Fault, Name};
use crate::problem::Problem;
use crate::steps::StepTable;
use mm_base::grid::place;
use std::alloc::Global;

// The place of a store.
fn column_of(sized: &[u8], store: usize) -> Option<usize>
    ensures { result ≡ position (λ k. k == store) sized.now }
{
    sized.iter().position(|of| usize::from(*of) == store)
}

impl Problem {
    /// The same problem with a size for each step and each of these stores, which rise. The sizes come step by step,
    /// and within a step in store order. Otherwise the first fault: 30 `Header` if a store does not exist or they do
    /// not rise, 29 `ForecastText` if the number of sizes is not that of stores times steps, or 33 `Limit`; or 0
    /// `NoMemory`.
    #[tactic(auto, unfolding(crate::specs::Data::sized_by))]
    pub fn with_step_sizes(
        &self,
        alloc: Global,
        stores: &[u8],
        sizes: &[u32],
    ) -> Result<Problem, Fault>
        ensures problem { Gives NoMemory (λ problem. problem) result
            (sized_by self.now stores.now sizes.now) }
    {
        let windows = self.steps.windows.as_slice();
        let own = self.rows.as_slice();
        test_columns(own.len(), Name::Size, windows.len(), stores, sizes)?;
        let rows = Vec::from_slice(alloc, own)?;
        let arrived = self.steps.arrived.as_slice();
        let limited = self.steps.limited.as_slice();
        let step_limits = self.steps.step_limits.as_slice();
        let steps = StepTable::of(alloc, windows, arrived, limited, step_limits, stores, sizes)?;
        Ok(Problem {
            rows,
            limits: self.limits,
            steps,
            come: self.come,
        })
    }

    /// The size of a store in the setup, in blocks.
    #[inline]
    #[must_use]
    pub fn setup_size(&self, store: usize) -> u32
        requires store { store < length self.now.rows }
        ensures size { result ≡ setup_size self.now store }
        ensures most { result ≤ MAX_BLOCKS }
    {
        self.rows[store].size
    }

    /// The stores with a size for each step, in rising order.
    #[must_use]
    pub fn sized(&self) -> &[u8]
        ensures stores { result.now ≡ self.now.sized }
    {
        self.steps.sized.as_slice()
    }

    /// The size of a store in a step, in blocks, as the forecast has it. The store is given by its place in `sized`,
    /// from 0.
    #[must_use]
    pub fn column_size(&self, column: usize, step: u32) -> u32
        requires column { column < length self.now.sized }
        requires first { 1 ≤ step }
        requires last { step ≤ length self.now.windows }
        ensures size { result ≡ column_size self.now column step }
        ensures most { result ≤ MAX_BLOCKS }
    {
        self.steps.step_sizes[place(self.steps.sized.len(), step, column)]
    }

    /// How many blocks a store can hold in a step: the setup's size, or the step's where that is less.
    #[tactic(auto, unfolding(crate::specs::Dumping::size))]
    #[inline]
    #[must_use]
    pub fn size(&self, store: usize, step: u32) -> u32
        requires store { store < length self.now.rows }
        requires first { 1 ≤ step }
        requires last { step ≤ length self.now.windows }
        ensures size { result ≡ size self.now store step }
        ensures most { result ≤ MAX_BLOCKS }
    {
        let most = self.setup_size(store);
        match column_of(self.steps.sized.as_slice(), store) {
            Some(column) => most.min(self.column_size(column, step)),
            None => most,
        }
    }

    /// The size of a store, where it is the same in each step; `None` where it has sizes by step.
    #[tactic(auto, unfolding(crate::specs::Dumping::size))]
    #[must_use]
    pub fn one_size(&self, store: usize) -> Option<u32>
        requires store { store < length self.now.rows }
        ensures size { result ≡ one_size self.now store }
        ensures most { IfSome result (λ n. n ≤ MAX_BLOCKS) }
        ensures each { IfSome result (λ n. (t : ℕ) → size self.now store t ≡ n) }
    {
        match column_of(self.steps.sized.as_slice(), store) {
            Some(_) => None,
            None => Some(self.setup_size(store)),
        }
    }
}
