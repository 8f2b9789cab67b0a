//! A transmitter for each pass.
ghost use Rattle.std.specs.Prelude.{◌≡◌, ◌↔◌, ℕ, ◌<◌, ◌≤◌, max, length, IsTrue, IfOk};
ghost use Rattle.mm_base.specs.Reading.{Gives};
ghost use Rattle.mm_mission.specs.Mission.{each_pass_fits};
ghost use Rattle.mm_mission.specs.declared.fault.Fault.TheVariants.{NoMemory};
ghost use Rattle.mm_overlap.specs.Given.{transmitter, IsFree, IsGiven, IsCount, passes_of, AreTransmitters, AreBoth};

use mm_mission::{Fault, Mission, Pass};
use std::alloc::{AllocError, Global};

// Whether a transmitter is free at a time, by the transmitters of the first passes.
fn is_free(passes: &[Pass], numbers: &[usize], transmitter: usize, time: u64) -> bool
    requires { length numbers.now ≤ length passes.now }
    ensures { IsTrue result ↔ IsFree passes.now numbers.now (length numbers.now) transmitter time }
{
    for (i, number) in numbers.iter().enumerate() {
        if *number == transmitter && time < passes[i].span.end {
            return false;
        }
    }
    true
}

// The first transmitter that is free at a time.
fn first_free(passes: &[Pass], numbers: &[usize], time: u64) -> usize
    requires few { length numbers.now ≤ length passes.now }
    requires below { (i : ℕ) → i < length numbers.now → transmitter numbers.now i ≤ i }
    ensures free { IsFree passes.now numbers.now (length numbers.now) result time }
    ensures first { (k : ℕ) → k < result → IsFree passes.now numbers.now (length numbers.now) k time → ⊥ }
    ensures below { result ≤ length numbers.now }
{
    for transmitter in 0..numbers.len() {
        if is_free(passes, numbers, transmitter, time) {
            return transmitter;
        }
    }
    numbers.len()
}

// The transmitter of each pass: the first that is free as the pass begins.
fn numbers(alloc: Global, passes: &[Pass]) -> Result<Vec<usize>, AllocError>
    ensures as_many { IfOk result (λ numbers. length numbers.items ≡ length passes.now) }
    ensures below { IfOk result (λ numbers.
        (i : ℕ) → i < length passes.now → transmitter numbers.items i ≤ i) }
    ensures given { IfOk result (λ numbers. (i : ℕ) → i < length passes.now → IsGiven passes.now numbers.items i) }
{
    let mut numbers = Vec::new(alloc);
    for pass in passes {
        let number = first_free(passes, &numbers, pass.span.begin);
        numbers.push(number)?;
    }
    Ok(numbers)
}

// How many transmitters there are, by the transmitter of each pass.
fn count(passes: &[Pass], numbers: &[usize]) -> usize
    requires as_many { length numbers.now ≡ length passes.now }
    requires below { (i : ℕ) → i < length passes.now → transmitter numbers.now i ≤ i }
    ensures count { IsCount passes.now numbers.now result }
    ensures few { result ≤ max 1 (length passes.now) }
{
    let mut count = 1;
    for number in numbers {
        if count <= *number {
            count = *number + 1;
        }
    }
    count
}

// The passes of a transmitter.
fn passes_of(
    alloc: Global,
    passes: &[Pass],
    numbers: &[usize],
    transmitter: usize,
) -> Result<Vec<Pass>, AllocError>
    requires { length numbers.now ≡ length passes.now }
    ensures { IfOk result (λ own. own.items ≡ passes_of passes.now numbers.now transmitter) }
{
    let mut own = Vec::new(alloc);
    for (i, number) in numbers.iter().enumerate() {
        if *number == transmitter {
            own.push(passes[i])?;
        }
    }
    Ok(own)
}

/// The missions of transmitters that send at once, for passes of a mission that may overlap, at most 256. Each pass has
/// the first transmitter that is free as it begins, in their order; so passes that come in the order of their begins have
/// as few as there can be. A transmitter's mission is the given one with its passes in place of those that it has. There
/// is at least one. Too many passes are refused, or the first that is out of range.
pub fn both(alloc: Global, mission: &Mission, passes: &[Pass]) -> Result<Vec<Mission>, Fault>
    ensures fit { Gives NoMemory (λ missions. tt) result (each_pass_fits mission.now passes.now) }
    ensures transmitters { IfOk result (λ missions. AreTransmitters mission.now missions.items) }
    ensures both { IfOk result (λ missions. AreBoth mission.now passes.now missions.items) }
{
    mission.check_passes(passes)?;
    let numbers = numbers(alloc, passes)?;
    let mut missions = Vec::new(alloc);
    for transmitter in 0..count(passes, &numbers) {
        let own = passes_of(alloc, passes, &numbers, transmitter)?;
        missions.push(mission.with_passes(alloc, own)?)?;
    }
    Ok(missions)
}
