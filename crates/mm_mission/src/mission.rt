//! A mission.
ghost use Rattle.std.specs.Prelude.{◌≡◌, ◌<◌, ◌≤◌, length, not, position, IsTrue, All, AllPairs, IfOk};
ghost use Rattle.mm_base.specs.Reading.{test};
ghost use Rattle.mm_mission.specs.Mission.{each_fits, follow, mission_from, is_store, is_pass, is_observation};
ghost use Rattle.mm_mission.specs.Mission.{is_known, each_pass_fits, with_passes, EndsBefore};
ghost use Rattle.mm_mission.specs.Mission.{is_time, are_few, passes_fit, observations_fit, store_at, IsMission};
ghost use Rattle.mm_mission.specs.declared.fault.Fault.TheVariants.{BadTime, TooMany, BadStore, BadPass};
ghost use Rattle.mm_mission.specs.declared.fault.Fault.TheVariants.{BadObservation, NoStore};

use crate::fault::Fault;
use crate::limits::{MAX_OBSERVATIONS, MAX_PASSES, MAX_TIME};
use crate::parts::{Observation, Pass, Store};
use mm_base::NoMemory;
use std::alloc::Global;
use std::marker::Model;

/// A mission in exact numbers: stores, passes in the order of their begins, which do not overlap, and observations.
#[derive(Debug, Drop)]
pub struct Mission {
    pub(crate) lasts: u64,
    pub(crate) stores: Vec<Store>,
    pub(crate) passes: Vec<Pass>,
    pub(crate) observations: Vec<Observation>,
}

impl Model for Mission {
    ghost use Rattle.mm_mission.specs.Mission.{MissionRows, IsMission};

    ghost Value = { MissionRows };

    ghost view = { λ a. record {
      lasts = a.lasts;
      stores = a.stores.items;
      passes = a.passes.items;
      observations = a.observations.items;
    } };

    ghost invariant = { λ a. IsMission (record {
      lasts = a.lasts;
      stores = a.stores.items;
      passes = a.passes.items;
      observations = a.observations.items;
    }) };
}

fn test(passed: bool, fault: Fault) -> Result<(), Fault>
    ensures { result ≡ test passed fault }
{
    if passed { Ok(()) } else { Err(fault) }
}

fn test_time(lasts: u64) -> Result<(), Fault>
    ensures { result ≡ test (is_time lasts) BadTime }
{
    test(1 <= lasts && lasts <= MAX_TIME, Fault::BadTime)
}

fn test_few(passes: usize, observations: usize) -> Result<(), Fault>
    ensures { result ≡ test (are_few passes observations) TooMany }
{
    let few = passes <= MAX_PASSES && observations <= MAX_OBSERVATIONS;
    test(few, Fault::TooMany)
}

// The first store that is out of range, if there is one.
fn unfit_store(stores: &[Store]) -> Option<usize>
    ensures { result ≡ position (λ s. not (is_store s)) stores.now }
{
    stores.iter().position(|store| !store.fits())
}

fn unfit_pass(lasts: u64, passes: &[Pass]) -> Option<usize>
    ensures { result ≡ position (λ p. not (is_pass lasts p)) passes.now }
{
    passes.iter().position(|pass| !pass.fits(lasts))
}

fn unfit_observation(lasts: u64, observations: &[Observation]) -> Option<usize>
    ensures { result ≡ position (λ o. not (is_observation lasts o)) observations.now }
{
    observations.iter().position(|one| !one.fits(lasts))
}

// The first observation that is of no store, if there is one.
fn unknown(stores: usize, observations: &[Observation]) -> Option<usize>
    ensures { result ≡ position (λ o. not (is_known stores o)) observations.now }
{
    observations.iter().position(|one| !one.is_known(stores))
}

fn test_stores(stores: &[Store]) -> Result<(), Fault>
    ensures { result ≡ each_fits BadStore is_store stores.now }
{
    match unfit_store(stores) {
        Some(row) => Err(Fault::BadStore { row }),
        None => Ok(()),
    }
}

fn test_each_pass(lasts: u64, passes: &[Pass]) -> Result<(), Fault>
    ensures { result ≡ each_fits BadPass (is_pass lasts) passes.now }
{
    match unfit_pass(lasts, passes) {
        Some(row) => Err(Fault::BadPass { row }),
        None => Ok(()),
    }
}

fn test_each_observation(lasts: u64, observations: &[Observation]) -> Result<(), Fault>
    ensures { result ≡ each_fits BadObservation (is_observation lasts) observations.now }
{
    match unfit_observation(lasts, observations) {
        Some(row) => Err(Fault::BadObservation { row }),
        None => Ok(()),
    }
}

fn test_known(stores: usize, observations: &[Observation]) -> Result<(), Fault>
    ensures { result ≡ each_fits NoStore (is_known stores) observations.now }
{
    match unknown(stores, observations) {
        Some(row) => Err(Fault::NoStore { row }),
        None => Ok(()),
    }
}

// Tests that each pass begins once the one before it has ended.
#[tactic(auto, using(crate::proofs::Tested::follow_none))]
fn test_apart(passes: &[Pass]) -> Result<(), Fault>
    ensures { result ≡ follow 0 0 passes.now }
{
    let mut free = 0;
    for (row, pass) in passes.iter().enumerate() {
        test(free <= pass.span.begin, Fault::Overlap { row })?;
        free = pass.span.end;
    }
    Ok(())
}

fn test_passes(lasts: u64, passes: &[Pass]) -> Result<(), Fault>
    ensures { result ≡ passes_fit lasts passes.now }
{
    test_each_pass(lasts, passes)?;
    test_apart(passes)
}

fn test_observations(lasts: u64, stores: usize, observations: &[Observation]) -> Result<(), Fault>
    ensures { result ≡ observations_fit lasts stores observations.now }
{
    test_each_observation(lasts, observations)?;
    test_known(stores, observations)
}

impl Mission {
    /// The mission of these parts: how long it lasts in microseconds, its stores, its passes and its observations.
    /// Otherwise the first fault, in the order of the faults.
    #[tactic(auto, unfolding(crate::specs::Mission::mission_from))]
    pub fn new(
        lasts: u64,
        stores: Vec<Store>,
        passes: Vec<Pass>,
        observations: Vec<Observation>,
    ) -> Result<Mission, Fault>
        ensures { result ≡ mission_from (record {
          lasts = lasts;
          stores = stores.items;
          passes = passes.items;
          observations = observations.items;
        }) }
    {
        test_time(lasts)?;
        test_few(passes.len(), observations.len())?;
        test_stores(&stores)?;
        test_passes(lasts, &passes)?;
        test_observations(lasts, stores.len(), &observations)?;
        Ok(Mission {
            lasts,
            stores,
            passes,
            observations,
        })
    }

    /// Tests passes of this mission that may overlap: there are not too many, and each is within its range.
    pub fn check_passes(&self, passes: &[Pass]) -> Result<(), Fault>
        ensures { result ≡ each_pass_fits self.now passes.now }
    {
        test(passes.len() <= MAX_PASSES, Fault::TooMany)?;
        test_each_pass(self.lasts, passes)
    }

    /// The same mission with other passes, which do not overlap.
    pub fn with_passes(&self, alloc: Global, passes: Vec<Pass>) -> Result<Mission, NoMemory>
        requires few { length passes.items ≤ MAX_PASSES }
        requires fit { All (λ p. IsTrue (is_pass self.now.lasts p)) passes.items }
        requires apart { AllPairs EndsBefore passes.items }
        ensures { IfOk result (λ mission. mission ≡ with_passes self.now passes.items) }
    {
        let stores = Vec::from_slice(alloc, &self.stores)?;
        let observations = Vec::from_slice(alloc, &self.observations)?;
        Ok(Mission {
            lasts: self.lasts,
            stores,
            passes,
            observations,
        })
    }

    /// The store at a place.
    #[must_use]
    pub fn store_at(&self, store: usize) -> Store
        requires { store < length self.now.stores }
        ensures store { result ≡ store_at self.now store }
        ensures fits { IsTrue (is_store result) }
    {
        self.stores[store]
    }

    /// How long it lasts, in microseconds.
    #[must_use]
    pub fn lasts(&self) -> u64
        ensures { result ≡ self.now.lasts }
    {
        self.lasts
    }

    /// The number of its stores.
    #[must_use]
    pub fn stores(&self) -> usize
        ensures { result ≡ length self.now.stores }
    {
        self.stores.len()
    }

    /// Its passes, in the order of their begins.
    #[must_use]
    pub fn passes(&self) -> &[Pass]
        ensures passes { result.now ≡ self.now.passes }
        ensures is_mission { IsMission self.now }
    {
        &self.passes
    }
}
