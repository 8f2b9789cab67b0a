//! What a step brings to the stores, by their counters.
ghost use Rattle.std.specs.Prelude.{◌≡◌, ◌<◌, ◌≤◌, length, All};
ghost use Rattle.mm_base.specs.declared.limits.TheConstants.{MAX_STORES};
ghost use Rattle.mm_shared.specs.Stores.{stores_in, AreAtRest};
ghost use Rattle.mm_carry.specs.Numbers.{AreCounters, AreStepCounts};

use mm_base::MAX_STORES;
use mm_problem::Problem;
use mm_report::StepCounts;
use mm_shared::{OpenStores, StoreCounters, counters_at};

// The counters of the stores at these places.
pub(crate) fn all_counters(places: &[usize], stores: &mut OpenStores) -> [StoreCounters; MAX_STORES]
    requires rest { AreAtRest stores.old }
    requires few { length places.now ≤ MAX_STORES }
    requires within { All (λ place. place < length (stores_in stores.old)) places.now }
    ensures same { stores.new ≡ stores.old }
    ensures counters { AreCounters (stores_in stores.old) places.now (length places.now) result }
{
    let mut counters = [StoreCounters {
        offered: 0,
        lost: 0,
        deleted: 0,
        held: 0,
    }; MAX_STORES];
    for (store, place) in places.iter().enumerate() {
        counters[store] = counters_at(stores, *place);
    }
    counters
}

// What a step brought to each store of the problem, which had the first counters before it and has the second after it.
pub(crate) fn step_counts(
    problem: &Problem,
    step: u32,
    before: &[StoreCounters; MAX_STORES],
    after: &[StoreCounters; MAX_STORES],
) -> [StepCounts; MAX_STORES]
    requires step { (1 ≤ step) × (step ≤ length problem.now.windows) }
    ensures len { length result ≡ MAX_STORES }
    ensures counts { AreStepCounts problem.now step before.now after.now (length problem.now.rows) result }
{
    let mut counts = [StepCounts {
        forecast: 0,
        arrived: 0,
        lost: 0,
        dumped: 0,
        held: 0,
    }; MAX_STORES];
    for store in 0..problem.stores() {
        let (old, new) = (before[store], after[store]);
        counts[store] = StepCounts {
            forecast: u64::from(problem.arrivals(store, step)),
            arrived: new.offered.saturating_sub(old.offered),
            lost: new.lost.saturating_sub(old.lost),
            dumped: new.deleted.saturating_sub(old.deleted),
            held: u64::from(new.held),
        };
    }
    counts
}
