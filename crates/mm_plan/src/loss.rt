//! What a plan loses.
ghost use Rattle.std.specs.Prelude.{◌≡◌, ℕ, ◌+◌, ◌*◌, ◌<◌, ◌≤◌, length, IfSome};
ghost use Rattle.mm_base.specs.declared.limits.TheConstants.{MAX_STORES, MAX_STEPS, MAX_BLOCKS};
ghost use Rattle.mm_problem.specs.Dumping.{Dumping, size};
ghost use Rattle.mm_plan.specs.Table.{amount, HasShape};
ghost use Rattle.mm_plan.specs.Volumes.{store_loss, loss, first_loss};

use crate::plan::Plan;
use crate::turn::{size_by, turn};
use mm_base::MAX_STORES;
use mm_problem::{Arrivals, Problem};

// How many blocks one store loses over all steps, where this is its size if it is the same in each step.
#[inline(always)]
fn loss_by(
    problem: &Problem,
    plan: &Plan,
    store: usize,
    come: Arrivals,
    one_size: Option<u32>,
) -> u64
    requires shape { HasShape problem.now plan.now }
    requires store { store < length problem.now.rows }
    requires come { come ≡ problem.now.come }
    requires each { IfSome one_size (λ n. (t : ℕ) → size problem.now store t ≡ n) }
    requires most { IfSome one_size (λ n. n ≤ MAX_BLOCKS) }
    ensures loss { result ≡ store_loss problem.now (amount plan.now) store }
    ensures most { result ≤ 2 * MAX_BLOCKS * MAX_STEPS }
{
    let mut left = problem.start(store);
    let mut lost: u64 = 0;
    for step in 1..problem.steps() + 1 {
        let there = left + problem.arrivals(store, step);
        let size = size_by(problem, one_size, store, step);
        let volumes = turn(come, size, there, plan.amount(store, step));
        lost += u64::from(volumes.lost);
        left = volumes.left;
    }
    lost
}

/// How many blocks one store loses over all steps, if the plan is carried out and the arrivals are the problem's.
#[must_use]
pub fn store_loss(problem: &Problem, plan: &Plan, store: usize) -> u64
    requires shape { HasShape problem.now plan.now }
    requires store { store < length problem.now.rows }
    ensures loss { result ≡ store_loss problem.now (amount plan.now) store }
    ensures most { result ≤ 2 * MAX_BLOCKS * MAX_STEPS }
{
    // each of these cases is compiled by itself, for its speed
    let one_size = problem.one_size(store);
    match problem.come() {
        come if one_size.is_none() => loss_by(problem, plan, store, come, one_size),
        Arrivals::Before => loss_by(problem, plan, store, Arrivals::Before, one_size),
        Arrivals::During => loss_by(problem, plan, store, Arrivals::During, one_size),
    }
}

/// How many blocks that many of the first stores lose.
#[tactic(auto, using(mm_base::proofs::RangeSums::sum_by_range_more))]
#[must_use]
pub fn first_loss(problem: &Problem, plan: &Plan, stores: usize) -> u64
    requires shape { HasShape problem.now plan.now }
    requires stores { stores ≤ length problem.now.rows }
    ensures loss { result ≡ first_loss stores problem.now (amount plan.now) }
    ensures most { result ≤ 2 * MAX_BLOCKS * MAX_STEPS * MAX_STORES }
{
    // the sum fits
    prove!(problem.stores() <= MAX_STORES);
    let mut lost: u64 = 0;
    for store in 0..stores {
        lost += store_loss(problem, plan, store);
    }
    lost
}

/// How many blocks all stores lose.
#[must_use]
pub fn loss_of(problem: &Problem, plan: &Plan) -> u64
    requires { HasShape problem.now plan.now }
    ensures loss { result ≡ loss problem.now (amount plan.now) }
    ensures most { result ≤ 2 * MAX_BLOCKS * MAX_STEPS * MAX_STORES }
{
    first_loss(problem, plan, problem.stores())
}
