//! Verdicts on a plan and the cut that is printed with it.
ghost use Rattle.mm_plan.specs.Table.{amount, HasShape};
ghost use Rattle.mm_cut.specs.Verdicts.{IsVerdict};

use crate::bounds::bound;
use crate::counts::first_bad_count;
use crate::stretches::first_bad;
use mm_plan::{Plan, Stretch, fits, loss_of};
use mm_problem::Problem;

/// What is said of a plan and a cut, with the loss and the bound that are printed beside them, and of a sheet. Losses
/// and bounds are in blocks, stretches and counted steps by their place from 1.
#[derive(Clone, Copy, Debug, PartialEq, Eq)]
pub enum Verdict {
    /// The plan does not fit; the first step at which it does not.
    DoesNotFit(u32),
    /// The printed loss is wrong; the plan's loss.
    LossIs(u64),
    /// The stretches are not those of a cut; the first bad one.
    BadStretch(u32),
    /// The steps that count by channels are not those of a cut; the first bad one.
    BadCount(u32),
    /// The printed bound is wrong; the cut's bound.
    BoundIs(i64),
    /// The bound is not the loss, so that the cut does not show that the plan loses least.
    NotShown { loss: u64, bound: i64 },
    /// No plan that fits loses less in all, but the sheet's certificate of that many of the first stores does not show
    /// what they lose. Those of fewer stores do.
    FirstNotShown(u32),
    /// No plan that fits loses less; the plan's loss.
    Least(u64),
    /// No plan that fits loses less of the first store, of the first two and so on to all of them; the plan's loss.
    LeastInOrder(u64),
}

/// The first verdict that holds, in the order of `Verdict`, of a plan and a cut, with the loss and the bound that
/// are printed beside them. It is none of those that speak of the first stores.
#[must_use]
pub fn verify(
    problem: &Problem,
    plan: &Plan,
    stretches: &[Stretch],
    counts: &[u32],
    printed_loss: u64,
    printed_bound: i64,
) -> Verdict
    requires { HasShape problem.now plan.now }
    ensures verdict { IsVerdict problem.now (amount plan.now) stretches.now counts.now
        printed_loss printed_bound result }
{
    if let Err(step) = fits(problem, plan) {
        return Verdict::DoesNotFit(step);
    }
    let loss = loss_of(problem, plan);
    if loss != printed_loss {
        return Verdict::LossIs(loss);
    }
    if let Some(place) = first_bad(problem, stretches) {
        return Verdict::BadStretch(place);
    }
    if let Some(place) = first_bad_count(problem, stretches, counts) {
        return Verdict::BadCount(place);
    }
    let bound = bound(problem, stretches, counts);
    if bound != printed_bound {
        return Verdict::BoundIs(bound);
    }
    if loss as i64 != bound {
        return Verdict::NotShown { loss, bound };
    }
    Verdict::Least(loss)
}
