//! One transmitter for passes that overlap: at each moment it serves the pass that can send most.
ghost use Rattle.std.specs.Prelude.{◌≡◌, ℕ, ◌^◌, ◌<◌, ◌≤◌, All, length, map, Ok, IfOk, OnOk};
ghost use Rattle.std.specs.List.{range_with_len};
ghost use Rattle.mm_base.specs.declared.limits.TheConstants.{CHANNELS};
ghost use Rattle.mm_base.specs.Reading.{IfRefused};
ghost use Rattle.mm_links.specs.declared.better.Part.{Part};
ghost use Rattle.mm_mission.specs.declared.fault.Fault.TheVariants.{NoMemory};
ghost use Rattle.mm_mission.specs.Mission.{each_pass_fits};
ghost use Rattle.mm_overlap.specs.Given.{pass, IsTransmitter};
ghost use Rattle.mm_overlap.specs.Better.{has_store, channels_of, below, offer_of, part_of, AreParts, IsRefused};

use crate::rates::{all_octets, common_time};
use mm_base::CHANNELS;
use mm_links::{Offer, Part, used};
use mm_mission::{Fault, MAX_PASSES, Mission, Pass, Span};
use std::alloc::{AllocError, Global};

/// What one transmitter serves of passes that overlap.
#[derive(Debug, Drop)]
pub struct Served {
    /// The mission whose passes are the parts of passes that are served, one after the other.
    pub mission: Mission,
    /// For each of these parts the place of its pass among those given, from 0.
    pub numbers: Vec<usize>,
}

// Whether some store is sent on a channel.
fn has_store(mission: &Mission, channel: u8) -> bool
    ensures { result ≡ has_store mission.now channel }
{
    for store in 0..mission.stores() {
        if mission.store_at(store).channel == channel {
            return true;
        }
    }
    false
}

// The channels that stores have.
fn channels_of(alloc: Global, mission: &Mission) -> Result<Vec<u8>, AllocError>
    ensures { IfOk result (λ channels. channels.items ≡ channels_of mission.now) }
{
    let of_stores = (0..CHANNELS as u8).filter(|channel| has_store(mission, *channel));
    of_stores.collect(alloc)
}

// How many of these numbers are less than one.
fn below(numbers: &[u128], number: u128) -> u64
    ensures { result ≡ below numbers.now number }
{
    numbers.iter().filter(|other| **other < number).count() as u64
}

// When a pass ends.
fn end_of(pass: &Pass) -> u64
    ensures end { result ≡ pass.now.span.end }
    ensures fits { pass.now.span.end < 2 ^ 64 }
{
    pass.span.end
}

// Passes as they are offered to the transmitter, by what each can send in a common time.
fn offers_of(alloc: Global, passes: &[Pass], octets: &[u128]) -> Result<Vec<Offer>, AllocError>
    requires { length octets.now ≡ length passes.now }
    ensures ends { OnOk result ((i : ℕ) → i < length passes.now → (pass passes.now i).span.end < 2 ^ 64) }
    ensures offers { IfOk result (λ offers.
        offers.items ≡ map (offer_of passes.now octets.now) (range_with_len 0 (length passes.now))) }
{
    let mut offers = Vec::new(alloc);
    for (i, pass) in passes.iter().enumerate() {
        offers.push(Offer {
            begin: pass.span.begin,
            end: end_of(pass),
            worth: below(octets, octets[i]),
        })?;
    }
    Ok(offers)
}

// The pass of a part, while it is served.
fn part_of(passes: &[Pass], part: &Part) -> Pass
    requires { part.now.pass < length passes.now }
    ensures { result ≡ part_of passes.now part.now }
{
    let span = Span {
        begin: part.begin,
        end: part.end,
    };
    Pass {
        span,
        ..passes[part.pass]
    }
}

fn parts_of(alloc: Global, passes: &[Pass], parts: &[Part]) -> Result<Vec<Pass>, AllocError>
    requires { All (λ p. p.pass < length passes.now) parts.now }
    ensures { IfOk result (λ own. own.items ≡ map (part_of passes.now) parts.now) }
{
    let mut own = Vec::new(alloc);
    for part in parts {
        own.push(part_of(passes, part))?;
    }
    Ok(own)
}

fn numbers_of(alloc: Global, parts: &[Part]) -> Result<Vec<usize>, AllocError>
    ensures { IfOk result (λ numbers. numbers.items ≡ map (λ (p : Part). p.pass) parts.now) }
{
    parts.iter().map(|part| part.pass).collect(alloc)
}

/// The mission of one transmitter, for passes of a mission that may overlap, at most 256: the given mission with parts
/// of these passes in place of its own. At each moment the transmitter serves the pass that can send most of what
/// stores have channels for: each channel at its rate, and all together at most at the link's. Of equals the one in use
/// stays; else it is the one that began first, and of these the first in the list.
///
/// Refused are too many passes, the first that is out of range, and the first whose rates, with those of the passes
/// before it, flow in whole octets in no common time of at most 2^50 microseconds (`BadPass`); and more than 256 parts
/// (`TooMany`).
pub fn better(alloc: Global, mission: &Mission, passes: &[Pass]) -> Result<Served, Fault>
    ensures fit { OnOk result (each_pass_fits mission.now passes.now ≡ Ok tt) }
    ensures mission { IfOk result (λ served. IsTransmitter mission.now served.mission) }
    ensures parts { IfOk result (λ served.
        AreParts mission.now passes.now served.numbers.items served.mission.passes) }
    ensures refused { IfRefused NoMemory result (λ fault. IsRefused mission.now passes.now fault) }
{
    mission.check_passes(passes)?;
    let channels = channels_of(alloc, mission)?;
    let time = common_time(&channels, passes)?;
    let octets = all_octets(alloc, &channels, time, passes)?;
    let offers = offers_of(alloc, passes, &octets)?;
    let parts = used(alloc, &offers)?;
    if parts.len() > MAX_PASSES {
        return Err(Fault::TooMany);
    }
    let own = parts_of(alloc, passes, &parts)?;
    let numbers = numbers_of(alloc, &parts)?;
    let mission = mission.with_passes(alloc, own)?;
    Ok(Served { mission, numbers })
}
