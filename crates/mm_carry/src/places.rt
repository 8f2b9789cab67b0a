//! The places of the problem's stores in the memory.
ghost use Rattle.mm_carry.specs.declared.requirement.Requirement.TheVariants.{Ready};
ghost use Rattle.mm_carry.specs.Readiness.{AllMeet};
ghost use Rattle.mm_carry.specs.Places.{AreAllPlaces};

use mm_base::MAX_STORES;
use mm_desk::Held;
use mm_desk::holding::place_of;
use mm_problem::Problem;

// The place of each store of the problem among stores which have them all.
pub(crate) fn places_of(problem: &Problem, stores: &[Held]) -> [usize; MAX_STORES]
    requires { AllMeet Ready problem.now stores.now }
    ensures places { AreAllPlaces problem.now stores.now result }
{
    let mut places = [0; MAX_STORES];
    for store in 0..problem.stores() {
        let Some(place) = place_of(stores, &problem.id(store)) else {
            unreachable!()
        };
        places[store] = place;
    }
    places
}
