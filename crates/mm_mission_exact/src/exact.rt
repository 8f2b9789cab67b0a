//! A mission's rows in exact numbers.
ghost use Rattle.std.specs.Prelude.{◌≡◌, ◌+◌, ◌<◌, length, map, IfOk};
ghost use Rattle.mm_utc.specs.declared.moment.TheConstants.{MOMENTS};
ghost use Rattle.mm_base.specs.Reading.{Gives};
ghost use Rattle.mm_mission_exact.specs.Exact.{seen, exact_of};
ghost use Rattle.mm_mission_exact.specs.declared.fault.Fault.TheVariants.{NoMemory};

use crate::fault::Fault;
use crate::observation::{all_arriving, all_observations, all_timed};
use crate::pass::{Placed, passes_in};
use crate::rows::Rows;
use crate::store::stores_in;
use crate::window::window_of;
use mm_mission::{Observation, Pass, Store};
use mm_utc::Moment;
use std::alloc::{AllocError, Global};

/// A mission in exact numbers, with times in microseconds from its begin.
#[derive(Debug, Drop)]
pub struct Exact {
    pub begin: Moment,
    /// How long the mission lasts, in microseconds.
    pub lasts: u64,
    pub stores: Vec<Store>,
    /// In the order of their begins, then of their ends, and then of their rows.
    pub passes: Vec<Pass>,
    /// In which place of the rows each pass stands, from 0.
    pub places: Vec<usize>,
    pub observations: Vec<Observation>,
}

// The passes alone, and the places of their rows.
fn passes_of(alloc: Global, placed: &[Placed]) -> Result<Vec<Pass>, AllocError>
    ensures { IfOk result (λ passes. passes.items ≡ map (λ p. p.pass) placed.now) }
{
    placed.iter().map(|placed| placed.pass).collect(alloc)
}

fn places_of(alloc: Global, placed: &[Placed]) -> Result<Vec<usize>, AllocError>
    ensures { IfOk result (λ places. places.items ≡ map (λ p. p.place) placed.now) }
{
    placed.iter().map(|placed| placed.place).collect(alloc)
}

impl Exact {
    /// The exact numbers of a mission in which so many packets of the longest length are a unit: a store's own unit is
    /// those of its packets that have about as many octets, at least one, and at most as many as it has room for.
    ///
    /// The mission begins and ends as it is said, or else with its first and its last pass or observation. What lies
    /// outside is left out, and not tested; what reaches beyond is cut, and a volume comes at the rate of its whole
    /// span. Otherwise the first fault, in the order of the faults.
    #[tactic(auto, unfolding(crate::specs::Exact::exact_of))]
    pub fn new(alloc: Global, rows: &Rows<'_>, unit: u64) -> Result<Exact, Fault>
        ensures exact { Gives NoMemory seen result (exact_of rows.now unit) }
        ensures placed { IfOk result (λ e. length e.places.items ≡ length e.passes.items) }
        ensures in_years { IfOk result (λ e. e.begin + e.lasts < MOMENTS) }
    {
        let mission = window_of(rows)?;
        let stores = stores_in(alloc, rows, unit)?;
        let placed = passes_in(alloc, rows, &mission)?;
        let arriving = all_arriving(alloc, &stores, &mission, rows.observations)?;
        let stores = all_timed(alloc, &arriving, &stores)?;
        let observations = all_observations(alloc, &stores, &arriving)?;
        let passes = passes_of(alloc, &placed)?;
        let places = places_of(alloc, &placed)?;
        let lasts = mission.end.microseconds() - mission.begin.microseconds();
        Ok(Exact {
            begin: mission.begin,
            lasts,
            stores,
            passes,
            places,
            observations,
        })
    }
}
