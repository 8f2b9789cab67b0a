//! The report of a run.
ghost use Rattle.std.specs.Prelude.{◌≡◌, ◌==◌, ◌+◌, ◌-◌, ◌*◌, ◌<◌, ◌≤◌, ◌∷◌, ◌++◌, [], length, take, drop, slice_index_or, IfOk};
ghost use Rattle.mm_base.specs.declared.limits.TheConstants.{MAX_STORES};
ghost use Rattle.mm_report.specs.Report.{totals_of};
ghost use Rattle.mm_report.specs.Text.{report_text};

use crate::counts::{StepCounts, Totals, totals_in};
use crate::text::{Listing, push_steps, push_total};
use mm_base::{NoMemory, StoreId};
use std::alloc::Global;
use std::marker::Model;

/// What each whole step of a run brought to each store. Contracts see the identifiers of the stores, and a row of
/// counts for each step, in it those of each store in order; and for how many steps there is room.
#[derive(Debug, Drop)]
pub struct Report {
    ids: Vec<StoreId>,
    most: u32,
    steps: u32,
    // step by step, in each the stores in order
    counts: Vec<StepCounts>,
}

impl Model for Report {
    ghost use Rattle.std.specs.Prelude.{length, vec_capacity};
    ghost use Rattle.mm_report.specs.Report.{Reported, IsRoomy, in_rows};

    ghost Value = { Reported };

    ghost view = { λ r. record {
      ids = r.ids.items;
      most = r.most;
      steps = in_rows (length r.ids.items) r.steps r.counts.items;
    } };

    ghost invariant = { λ r. IsRoomy (length r.ids.items) r.most r.steps (length r.counts.items) (vec_capacity r.counts) };
}

#[tactic(auto, using(crate::proofs::Rows::row_facts))]
impl Report {
    /// The report of a run before its first step, with room for this many steps of at most 16 stores.
    pub fn new(alloc: Global, ids: Vec<StoreId>, most: u32) -> Result<Report, NoMemory>
        requires { length ids.items ≤ MAX_STORES }
        ensures new { IfOk result (λ r. r ≡ record { ids = ids.items; most = most; steps = [] }) }
    {
        let counts = Vec::with_capacity(alloc, most as usize * ids.len())?;
        Ok(Report {
            ids,
            most,
            steps: 0,
            counts,
        })
    }

    /// The report of a run that did not begin: no store, no step, and no room for one. It takes no memory.
    pub fn none(alloc: Global) -> Report
        ensures none { result ≡ record { ids = []; most = 0; steps = [] } }
    {
        Report {
            ids: Vec::new(alloc),
            most: 0,
            steps: 0,
            counts: Vec::new(alloc),
        }
    }

    /// Adds the row of the next step, the counts of each store in order. It takes no memory.
    pub fn add(&mut self, row: &[StepCounts])
        requires stores { length row.now ≡ length self.old.ids }
        // There is room, as `is_full` tells.
        requires room { length self.old.steps < self.old.most }
        ensures added { self.new ≡ record self.old { steps = self.old.steps ++ row.now ∷ [] } }
    {
        let Ok(()) = self.counts.extend_from_slice(row) else {
            unreachable!()
        };
        self.steps += 1;
    }

    /// The identifiers of the stores.
    pub fn ids(&self) -> &[StoreId]
        ensures ids { result.now ≡ self.now.ids }
    {
        self.ids.as_slice()
    }

    /// How many whole steps there were.
    pub fn steps(&self) -> u32
        ensures steps { result ≡ length self.now.steps }
    {
        self.steps
    }

    /// Whether there is no room for another step.
    pub fn is_full(&self) -> bool
        ensures full { result ≡ (length self.now.steps == self.now.most) }
        ensures within { length self.now.steps ≤ self.now.most }
    {
        self.steps == self.most
    }

    /// What a step, counted from 1, brought to each store in order.
    pub fn row(&self, step: u32) -> &[StepCounts]
        requires first { 1 ≤ step }
        requires last { step ≤ length self.now.steps }
        ensures row { result.now ≡ slice_index_or self.now.steps (step - 1) [] }
    {
        let stores = self.ids.len();
        let place = (step as usize - 1) * stores;
        &self.counts.as_slice()[place..place + stores]
    }

    /// What all steps brought to all stores; what is held is what they hold as the last step ends, and 0 before the
    /// first.
    pub fn totals(&self) -> Totals
        ensures totals { result ≡ totals_of self.now.steps }
    {
        let totals = totals_in(self.counts.as_slice());
        let held = if self.steps == 0 {
            0
        } else {
            totals_in(self.row(self.steps)).held
        };
        Totals { held, ..totals }
    }

    /// The text of the report: a line for each step and store, then a line for each of them to which another number
    /// of packets came than the forecast says, then the totals.
    pub fn text(&self, alloc: Global) -> Result<Vec<u8>, NoMemory>
        ensures text { IfOk result (λ text. text.items ≡ report_text self.now) }
    {
        let mut text = Vec::new(alloc);
        push_steps(&mut text, Listing::Numbers, self)?;
        push_steps(&mut text, Listing::Differences, self)?;
        push_total(&mut text, self.totals())?;
        Ok(text)
    }
}
