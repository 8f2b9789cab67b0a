//! What comes into stores, each store's in one time.
ghost use Rattle.std.specs.Prelude.{◌≡◌, ◌+◌, ◌<◌, ◌^◌, [], length, position, bytes_eq, IfOk, IfSome};
ghost use Rattle.mm_base.specs.Reading.{Gives};
ghost use Rattle.mm_mission_exact.specs.Each.{each_in};
ghost use Rattle.mm_mission_exact.specs.Observations.{arrival_rate, packet_at, arriving_in, if_part, and_arriving};
ghost use Rattle.mm_mission_exact.specs.Observations.{all_arriving, and_common, micros_of, timed, and_timed, all_timed};
ghost use Rattle.mm_mission_exact.specs.Observations.{micros_at, observation_of, and_observation, all_observations};
ghost use Rattle.mm_mission_exact.specs.declared.fault.Fault.TheVariants.{NoMemory};

use crate::fault::{Fault, Number};
use crate::rate::{common, octets_over, rate_of, rate_over};
use crate::window::{Window, observation_window};
use mm_base::StoreId;
use mm_mission::{Observation, Rate, Span, Store};
use mm_mission_text::Arrival;
use std::alloc::Global;

// What comes by a row into the store at a place.
#[derive(Clone, Copy)]
pub(crate) struct Arriving {
    pub row: usize,
    pub store: usize,
    pub span: Span,
    pub rate: Rate,
}

// The rate at which it comes into a store whose packets have so many octets.
fn arrival_rate(packet: u64, micros: u64, arrival: Arrival) -> Option<Rate>
    ensures { result ≡ arrival_rate packet micros arrival }
{
    match arrival {
        Arrival::Rate(rate) => rate_of(packet, rate),
        Arrival::Volume(volume) => rate_over(packet, micros, volume.measure, volume.amount),
    }
}

// The place of the store with this identifier.
fn place_of(stores: &[Store], id: StoreId) -> Option<usize>
    ensures place { result ≡ position (λ s. bytes_eq s.id id) stores.now }
    ensures there { IfSome result (λ place. place < length stores.now) }
{
    stores.iter().position(|store| store.id == id)
}

// What comes by a row, with the part of its span that lies in the mission.
#[tactic(auto, unfolding(crate::specs::Observations::arriving_in))]
fn arriving_in(
    stores: &[Store],
    row: usize,
    one: &mm_mission_text::Observation,
    span: Span,
) -> Result<Arriving, Fault>
    ensures arriving { result ≡ arriving_in stores.now row one.now span }
    ensures there { IfOk result (λ a. a.store < length stores.now) }
{
    let store = place_of(stores, one.store).ok_or(Fault::NoStore { row })?;
    let begin = one.begin.microseconds();
    let micros = one.end.microseconds().saturating_sub(begin);
    let number = Number::Arrival;
    let rate = arrival_rate(stores[store].packet, micros, one.arrival).ok_or(Fault::OutOfRange {
        number,
        row,
    })?;
    Ok(Arriving {
        row,
        store,
        span,
        rate,
    })
}

// Adds what comes by a row, unless it lies outside of the mission.
fn add_arriving(
    arriving: &mut Vec<Arriving>,
    stores: &[Store],
    mission: &Window,
    place: usize,
    one: &mm_mission_text::Observation,
) -> Result<(), Fault>
    requires { place < 2 ^ 63 }
    ensures { Gives NoMemory (λ _. arriving.new.items) result
        (and_arriving stores.now mission.now place arriving.old.items one.now) }
{
    if let Some(span) = mission.part_of(observation_window(one)) {
        let next = arriving_in(stores, place + 1, one, span)?;
        arriving.push(next)?;
    }
    Ok(())
}

// What comes by all rows.
pub(crate) fn all_arriving(
    alloc: Global,
    stores: &[Store],
    mission: &Window,
    rows: &[mm_mission_text::Observation],
) -> Result<Vec<Arriving>, Fault>
    ensures { Gives NoMemory (λ arriving. arriving.items) result (all_arriving stores.now mission.now rows.now) }
{
    let mut arriving = Vec::new(alloc);
    for (place, one) in rows.iter().enumerate() {
        add_arriving(&mut arriving, stores, mission, place, one)?;
    }
    Ok(arriving)
}

// A time that is a multiple also of the time of what comes into this store.
fn and_common(store: usize, micros: u64, one: &Arriving) -> Result<u64, Fault>
    ensures { result ≡ and_common store 0 micros one.now }
{
    if one.store != store {
        return Ok(micros);
    }
    common(micros, one.rate.micros).ok_or(Fault::OutOfRange {
        number: Number::Micros,
        row: one.row,
    })
}

// The least common multiple of the times of what comes into a store.
fn micros_of(arriving: &[Arriving], store: usize) -> Result<u64, Fault>
    ensures { result ≡ micros_of arriving.now store }
{
    let mut micros = 1;
    for one in arriving {
        micros = and_common(store, micros, one)?;
    }
    Ok(micros)
}

// A store with that time.
#[tactic(auto, unfolding(crate::specs::Observations::timed))]
fn timed(arriving: &[Arriving], place: usize, store: &Store) -> Result<Store, Fault>
    ensures { result ≡ timed arriving.now place store.now }
{
    let micros = micros_of(arriving, place)?;
    Ok(Store { micros, ..*store })
}

// Adds a store with its time.
fn add_timed(
    stores: &mut Vec<Store>,
    arriving: &[Arriving],
    place: usize,
    store: &Store,
) -> Result<(), Fault>
    ensures { Gives NoMemory (λ _. stores.new.items) result
        (and_timed arriving.now place stores.old.items store.now) }
{
    let store = timed(arriving, place, store)?;
    stores.push(store)?;
    Ok(())
}

// The stores with their times.
pub(crate) fn all_timed(
    alloc: Global,
    arriving: &[Arriving],
    stores: &[Store],
) -> Result<Vec<Store>, Fault>
    ensures { Gives NoMemory (λ stores. stores.items) result (all_timed arriving.now stores.now) }
{
    let mut timed = Vec::new(alloc);
    for (place, store) in stores.iter().enumerate() {
        add_timed(&mut timed, arriving, place, store)?;
    }
    Ok(timed)
}

// The time of the observations of the store at a place; 0 where there is none.
fn micros_at(stores: &[Store], place: usize) -> u64
    ensures { result ≡ micros_at stores.now place }
{
    match stores.get(place) {
        Some(store) => store.micros,
        None => 0,
    }
}

// An observation, with the octets that come in the time of its store.
#[tactic(auto, unfolding(crate::specs::Observations::observation_of))]
fn observation_of(stores: &[Store], one: &Arriving) -> Result<Observation, Fault>
    ensures { result ≡ observation_of stores.now one.now }
{
    let micros = micros_at(stores, one.store);
    let octets = octets_over(micros, one.rate).ok_or(Fault::OutOfRange {
        number: Number::Octets,
        row: one.row,
    })?;
    Ok(Observation {
        store: one.store,
        span: one.span,
        octets,
    })
}

// Adds an observation.
fn add_observation(
    observations: &mut Vec<Observation>,
    stores: &[Store],
    one: &Arriving,
) -> Result<(), Fault>
    ensures { Gives NoMemory (λ _. observations.new.items) result
        (and_observation stores.now 0 observations.old.items one.now) }
{
    let observation = observation_of(stores, one)?;
    observations.push(observation)?;
    Ok(())
}

// All observations.
pub(crate) fn all_observations(
    alloc: Global,
    stores: &[Store],
    arriving: &[Arriving],
) -> Result<Vec<Observation>, Fault>
    ensures { Gives NoMemory (λ v. v.items) result (all_observations stores.now arriving.now) }
{
    let mut observations = Vec::new(alloc);
    for one in arriving {
        add_observation(&mut observations, stores, one)?;
    }
    Ok(observations)
}
