//! The least losses of problems that differ in one number from a problem that is planned.
ghost use Rattle.std.specs.Prelude.{◌≡◌, ◌*◌, ◌<◌, ◌≤◌, length, IfOk, IfSome, IsTrue};
ghost use Rattle.mm_base.specs.declared.limits.TheConstants.{MAX_BLOCKS, MAX_STEPS, MAX_STORES};
ghost use Rattle.mm_problem.specs.Changed.{with_window};
ghost use Rattle.mm_plan.specs.Table.{HasShape};
ghost use Rattle.mm_cut.specs.Cuts.{IsCut, bound, counts_window};
ghost use Rattle.mm_sensitivity.specs.Items.{IsItem, number, least_number, with_number};
ghost use Rattle.mm_sensitivity.specs.Worth.{IsLeastLoss, IsPlanFor, IsSaved};

use crate::item::{Item, least_number, number, with_number};
use crate::lowering::lowered;
use mm_base::{MAX_BLOCKS, NoMemory};
use mm_cut::{bound, cuts_bound_losses, first_bad, first_bad_count, is_inner, only_counted_helps};
use mm_plan::{fill, fits, loss_of};
use mm_planner::{Planned, plan};
use mm_problem::{Arrivals, Problem};
use std::alloc::Global;

/// A problem and a plan for it that loses least.
#[derive(Drop)]
pub(crate) struct Base<'a> {
    pub alloc: Global,
    pub problem: &'a Problem,
    pub planned: Planned,
}

// An upper bound of the blocks that can leave a store in a step.
fn leaving_store(problem: &Problem, store: usize, step: u32) -> u32
    requires store { store < length problem.now.rows }
    requires first { 1 ≤ step }
    requires last { step ≤ length problem.now.windows }
{
    let size = problem.setup_size(store);
    match problem.come() {
        Arrivals::Before => size,
        Arrivals::During => size.saturating_add(problem.arrivals(store, step)),
    }
}

// An upper bound of the blocks that can leave in a step, for any window.
fn leaving(problem: &Problem, step: u32) -> u32
    requires first { 1 ≤ step }
    requires last { step ≤ length problem.now.windows }
{
    let mut leaving: u32 = 0;
    for channel in 0..problem.channels() {
        let mut held: u32 = 0;
        for store in 0..problem.stores() {
            if problem.channel(store) == channel {
                held = held.saturating_add(leaving_store(problem, store, step));
            }
        }
        leaving = leaving.saturating_add(held.min(problem.limit(channel, step).unwrap_or(held)));
    }
    leaving
}

impl<'a> Base<'a> {
    /// Plans the problem.
    pub(crate) fn new(alloc: Global, problem: &'a Problem) -> Result<Base<'a>, NoMemory>
        ensures problem { IfOk result (λ base. base.problem.now ≡ problem.now) }
        ensures plan { IfOk result (λ base. IsPlanFor base.problem.now base.planned) }
    {
        // the numbers of the problem are within their ranges
        prove!(1 <= problem.steps());
        let planned = plan(alloc, problem)?;
        Ok(Base {
            alloc,
            problem,
            planned,
        })
    }

    // Whether the cut counts the window of a step.
    fn counts_window(&self, step: u32) -> bool
        ensures { result ≡ counts_window self.now.problem.now
            self.now.planned.certificate.cut self.now.planned.certificate.by_channels step }
    {
        let certificate = &self.planned.certificate;
        is_inner(self.problem, certificate.cut(), step)
            && !certificate.by_channels().contains(&step)
    }

    // The bound of the cut with another window in a step.
    fn window_bound(&self, step: u32, blocks: u32) -> i64
        requires base { IsPlanFor self.now.problem.now self.now.planned }
        requires first { 1 ≤ step }
        requires last { step ≤ length self.now.problem.now.windows }
        requires most { blocks ≤ MAX_BLOCKS }
        ensures { result ≡ bound (with_window self.now.problem.now step blocks)
            self.now.planned.certificate.cut self.now.planned.certificate.by_channels }
    {
        let loss = self.planned.certificate.loss() as i64;
        if self.counts_window(step) {
            loss + i64::from(self.problem.window(step)) - i64::from(blocks)
        } else {
            loss
        }
    }

    // The bound of the cut in a changed problem, if it is a cut there.
    fn cut_bound(&self, changed: &Problem) -> Option<i64>
        ensures cut { IfSome result
            (λ _. IsCut changed.now self.now.planned.certificate.cut self.now.planned.certificate.by_channels) }
        ensures bound { IfSome result
            (λ b. b ≡ bound changed.now self.now.planned.certificate.cut self.now.planned.certificate.by_channels) }
    {
        let stretches = self.planned.certificate.cut();
        let counts = self.planned.certificate.by_channels();
        if first_bad(changed, stretches).is_some() {
            return None;
        }
        if first_bad_count(changed, stretches, counts).is_some() {
            return None;
        }
        Some(bound(changed, stretches, counts))
    }

    // The bound of the cut in the changed problem, if it may be the least loss.
    fn bound_there(&self, changed: &Problem, item: Item, blocks: u32) -> Option<i64>
        requires base { IsPlanFor self.now.problem.now self.now.planned }
        requires item { IsItem self.now.problem.now item }
        requires most { blocks ≤ MAX_BLOCKS }
        requires changed { changed.now ≡ with_number self.now.problem.now item blocks }
        ensures cut { IfSome result
            (λ _. IsCut changed.now self.now.planned.certificate.cut self.now.planned.certificate.by_channels) }
        ensures bound { IfSome result
            (λ b. b ≡ bound changed.now self.now.planned.certificate.cut self.now.planned.certificate.by_channels) }
    {
        match item {
            Item::Window(step) => {
                if blocks <= leaving(self.problem, step) {
                    Some(self.window_bound(step, blocks))
                } else {
                    None
                }
            }
            _ => self.cut_bound(changed),
        }
    }

    // The least loss of the changed problem, if the plan, lowered to fit and then filled, loses as much as the cut
    // shows.
    fn shown(&self, changed: &Problem, bound_here: i64) -> Result<Option<u64>, NoMemory>
        requires shape { HasShape changed.now self.now.planned.plan }
        requires cut { IsCut changed.now self.now.planned.certificate.cut self.now.planned.certificate.by_channels }
        requires bound { bound_here
            ≡ bound changed.now self.now.planned.certificate.cut self.now.planned.certificate.by_channels }
        ensures least { IfOk result (λ found. IfSome found (IsLeastLoss changed.now)) }
        ensures most { IfOk result
            (λ found. IfSome found (λ loss. loss ≤ 2 * MAX_BLOCKS * MAX_STEPS * MAX_STORES)) }
    {
        cuts_bound_losses();
        if bound_here < 0 {
            return Ok(None);
        }
        let plan = lowered(self.alloc, changed, &self.planned.plan)?;
        if fits(changed, &plan).is_err() {
            return Ok(None);
        }
        let filled = fill(self.alloc, changed, &plan)?;
        let loss = loss_of(changed, &filled);
        if loss as i64 == bound_here {
            Ok(Some(loss))
        } else {
            Ok(None)
        }
    }

    // Whether the number is unchanged, or is a wider window that the cut does not count.
    fn loses_alike(&self, item: Item, blocks: u32) -> bool
        requires base { IsPlanFor self.now.problem.now self.now.planned }
        requires item { IsItem self.now.problem.now item }
        ensures { IsTrue result
            → IsLeastLoss (with_number self.now.problem.now item blocks) self.now.planned.certificate.loss }
    {
        cuts_bound_losses();
        let now = number(self.problem, item);
        match item {
            Item::Window(step) => now == blocks || now < blocks && !self.counts_window(step),
            _ => now == blocks,
        }
    }

    // The least loss of the changed problem.
    #[tactic(auto, using(crate::proofs::Found::plan_least, crate::proofs::Found::shape_there))]
    fn loss_there(&self, changed: &Problem, item: Item, blocks: u32) -> Result<u64, NoMemory>
        requires base { IsPlanFor self.now.problem.now self.now.planned }
        requires item { IsItem self.now.problem.now item }
        requires most { blocks ≤ MAX_BLOCKS }
        requires changed { changed.now ≡ with_number self.now.problem.now item blocks }
        ensures least { IfOk result (IsLeastLoss changed.now) }
        ensures most { IfOk result (λ loss. loss ≤ 2 * MAX_BLOCKS * MAX_STEPS * MAX_STORES) }
    {
        if let Some(bound) = self.bound_there(changed, item, blocks) {
            if let Some(loss) = self.shown(changed, bound)? {
                return Ok(loss);
            }
        }
        Ok(plan(self.alloc, changed)?.certificate.loss())
    }

    // The least loss of the problem with another number.
    fn least_loss(&self, item: Item, blocks: u32) -> Result<u64, NoMemory>
        requires base { IsPlanFor self.now.problem.now self.now.planned }
        requires item { IsItem self.now.problem.now item }
        requires least { least_number item ≤ blocks }
        requires most { blocks ≤ MAX_BLOCKS }
        ensures least { IfOk result (IsLeastLoss (with_number self.now.problem.now item blocks)) }
        ensures most { IfOk result (λ loss. loss ≤ 2 * MAX_BLOCKS * MAX_STEPS * MAX_STORES) }
    {
        if self.loses_alike(item, blocks) {
            return Ok(self.planned.certificate.loss());
        }
        let changed = with_number(self.alloc, self.problem, item, blocks)?;
        self.loss_there(&changed, item, blocks)
    }

    // How many blocks fewer the least plan loses if the number is this larger one.
    pub(crate) fn saved(&self, item: Item, blocks: u32) -> Result<u64, NoMemory>
        requires base { IsPlanFor self.now.problem.now self.now.planned }
        requires item { IsItem self.now.problem.now item }
        requires larger { number self.now.problem.now item ≤ blocks }
        requires most { blocks ≤ MAX_BLOCKS }
        ensures saved { IfOk result
            (IsSaved self.now.problem.now (with_number self.now.problem.now item blocks)) }
        ensures most { IfOk result (λ blocks. blocks ≤ 2 * MAX_BLOCKS * MAX_STEPS * MAX_STORES) }
    {
        only_counted_helps();
        let loss = self.least_loss(item, blocks)?;
        Ok(self.planned.certificate.loss() - loss)
    }

    // How many blocks more the least plan loses if the number is the least allowed.
    pub(crate) fn cost(&self, item: Item) -> Result<u64, NoMemory>
        requires base { IsPlanFor self.now.problem.now self.now.planned }
        requires item { IsItem self.now.problem.now item }
        ensures { IfOk result
            (IsSaved (with_number self.now.problem.now item (least_number item)) self.now.problem.now) }
    {
        only_counted_helps();
        let least = least_number(item);
        let loss = self.least_loss(item, least)?;
        Ok(loss - self.planned.certificate.loss())
    }
}
