//! A dump plan: for each step and store, how many blocks are to be sent down.
ghost use Rattle.std.specs.Prelude.{◌≡◌, ◌≤◌, ◌↔◌, All, IsTrue, IfOk};
ghost use Rattle.mm_base.specs.declared.limits.TheConstants.{MAX_BLOCKS};
ghost use Rattle.mm_plan.specs.Table.{amount, HasShape, IsPlace, IsTable, ChangesAmount};

use mm_base::NoMemory;
use mm_base::grid::place;
use mm_problem::Problem;
use std::alloc::Global;
use std::marker::Model;

/// A dump plan: a table of amounts in blocks, a row for each step and in it a place for each store. Stores count
/// from 0, steps from 1.
#[derive(Debug, Drop)]
pub struct Plan {
    pub(crate) stores: usize,
    pub(crate) steps: u32,
    // step by step, in each the stores in order
    pub(crate) amounts: Vec<u32>,
}

impl Model for Plan {
    ghost use Rattle.mm_plan.specs.Table.{Table, IsTable};

    ghost Value = { Table };

    ghost view = { λ a. record { stores = a.stores; steps = a.steps; amounts = a.amounts.items } };

    ghost invariant = { λ a. IsTable (record { stores = a.stores; steps = a.steps; amounts = a.amounts.items }) };
}

impl Plan {
    /// How many blocks are to leave a store in a step.
    #[must_use]
    pub fn amount(&self, store: usize, step: u32) -> u32
        requires { IsPlace self.now store step }
        ensures amount { result ≡ amount self.now store step }
        ensures most { result ≤ MAX_BLOCKS }
    {
        let place = place(self.stores, step, store);
        self.amounts[place]
    }

    /// Whether the plan has as many stores and steps as the problem.
    #[must_use]
    pub fn has_shape(&self, problem: &Problem) -> bool
        ensures shape { IsTrue result ↔ HasShape problem.now self.now }
        ensures is_table { IsTable self.now }
    {
        self.stores == problem.stores() && self.steps == problem.steps()
    }

    /// The plan of a problem that dumps nothing.
    pub fn zero(alloc: Global, problem: &Problem) -> Result<Plan, NoMemory>
        ensures shape { IfOk result (HasShape problem.now) }
        ensures zero { IfOk result (λ plan. All (λ n. n ≡ 0) plan.amounts) }
    {
        let stores = problem.stores();
        let steps = problem.steps();
        let amounts = vec![in alloc; 0; steps as usize * stores]?;
        Ok(Plan {
            stores,
            steps,
            amounts,
        })
    }

    /// Changes one amount.
    pub fn set(&mut self, store: usize, step: u32, blocks: u32)
        requires place { IsPlace self.old store step }
        requires most { blocks ≤ MAX_BLOCKS }
        ensures changed { ChangesAmount self.old self.new store step blocks }
    {
        self.amounts[place(self.stores, step, store)] = blocks;
    }

    // The same plan once more.
    pub(crate) fn copy(&self, alloc: Global) -> Result<Plan, NoMemory>
        ensures { IfOk result (λ plan. plan ≡ self.now) }
    {
        let amounts = Vec::from_slice(alloc, self.amounts.as_slice())?;
        Ok(Plan {
            stores: self.stores,
            steps: self.steps,
            amounts,
        })
    }
}
