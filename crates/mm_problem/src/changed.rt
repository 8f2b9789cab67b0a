//! A problem with one number changed.
ghost use Rattle.std.specs.Prelude.{◌≡◌, ◌<◌, ◌≤◌, length, IfOk};
ghost use Rattle.mm_base.specs.declared.limits.TheConstants.{MAX_BLOCKS};
ghost use Rattle.mm_problem.specs.Changed.{with_window, with_limit, with_column_limit, with_column_size};
ghost use Rattle.mm_problem.specs.Changed.{with_arrivals, with_size};

use crate::come::Arrivals;
use crate::problem::Problem;
use mm_base::grid::place;
use mm_base::{NoMemory, StoreRow};
use std::alloc::Global;

impl Problem {
    // A copy of the problem.
    fn copy(&self, alloc: Global) -> Result<Problem, NoMemory>
        ensures { IfOk result (λ problem. problem ≡ self.now) }
    {
        let rows = Vec::from_slice(alloc, self.rows.as_slice())?;
        let steps = self.steps.copy(alloc)?;
        Ok(Problem {
            rows,
            limits: self.limits,
            steps,
            come: self.come,
        })
    }

    /// The problem with another window in a step, in blocks.
    pub fn with_window(&self, alloc: Global, step: u32, blocks: u32) -> Result<Problem, NoMemory>
        requires first { 1 ≤ step }
        requires last { step ≤ length self.now.windows }
        requires most { blocks ≤ MAX_BLOCKS }
        ensures problem { IfOk result (λ problem. problem ≡ with_window self.now step blocks) }
    {
        let mut problem = self.copy(alloc)?;
        problem.steps.windows[step as usize - 1] = blocks;
        Ok(problem)
    }

    /// The problem with another limit of a channel in the setup, in blocks a step.
    pub fn with_limit(&self, alloc: Global, channel: u8, blocks: u32) -> Result<Problem, NoMemory>
        requires channel { channel < length self.now.limits }
        requires most { blocks ≤ MAX_BLOCKS }
        ensures problem { IfOk result (λ problem. problem ≡ with_limit self.now channel blocks) }
    {
        let mut problem = self.copy(alloc)?;
        problem.limits[channel as usize] = Some(blocks);
        Ok(problem)
    }

    /// The problem with another limit of a channel in a step, in blocks. The channel is given by its place in
    /// `limited`, from 0.
    pub fn with_column_limit(
        &self,
        alloc: Global,
        column: usize,
        step: u32,
        blocks: u32,
    ) -> Result<Problem, NoMemory>
        requires column { column < length self.now.limited }
        requires first { 1 ≤ step }
        requires last { step ≤ length self.now.windows }
        requires most { blocks ≤ MAX_BLOCKS }
        ensures problem { IfOk result (λ problem. problem ≡ with_column_limit self.now column step blocks) }
    {
        let mut problem = self.copy(alloc)?;
        problem.steps.step_limits[place(self.steps.limited.len(), step, column)] = blocks;
        Ok(problem)
    }

    /// The problem with another size of a store in a step, in blocks. The store is given by its place in `sized`, from
    /// 0.
    pub fn with_column_size(
        &self,
        alloc: Global,
        column: usize,
        step: u32,
        blocks: u32,
    ) -> Result<Problem, NoMemory>
        requires column { column < length self.now.sized }
        requires first { 1 ≤ step }
        requires last { step ≤ length self.now.windows }
        requires most { blocks ≤ MAX_BLOCKS }
        ensures problem { IfOk result (λ problem. problem ≡ with_column_size self.now column step blocks) }
    {
        let mut problem = self.copy(alloc)?;
        problem.steps.step_sizes[place(self.steps.sized.len(), step, column)] = blocks;
        Ok(problem)
    }

    /// The same problem with arrivals that come then.
    pub fn with_arrivals(&self, alloc: Global, come: Arrivals) -> Result<Problem, NoMemory>
        ensures problem { IfOk result (λ problem. problem ≡ with_arrivals self.now come) }
    {
        let mut problem = self.copy(alloc)?;
        problem.come = come;
        Ok(problem)
    }

    /// The problem with another size of a store in the setup, in blocks. The start volume stays, also above the size.
    pub fn with_size(&self, alloc: Global, store: usize, blocks: u32) -> Result<Problem, NoMemory>
        requires store { store < length self.now.rows }
        requires first { 1 ≤ blocks }
        requires most { blocks ≤ MAX_BLOCKS }
        ensures problem { IfOk result (λ problem. problem ≡ with_size self.now store blocks) }
    {
        let mut problem = self.copy(alloc)?;
        let row = problem.rows[store];
        problem.rows[store] = StoreRow {
            size: blocks,
            ..row
        };
        Ok(problem)
    }
}
