//! The edges of the steps of several transmitters.
ghost use Rattle.std.specs.Prelude.{◌≡◌, ℕ, ◌+◌, ◌<◌, ◌≤◌, List, All, length, IfOk, OnOk};
ghost use Rattle.std.specs.List.{flat_map};
ghost use Rattle.mm_base.specs.declared.limits.TheConstants.{MAX_STEPS};
ghost use Rattle.mm_base.specs.Reading.{IfRefused};
ghost use Rattle.mm_mission.specs.Edges.{moments};
ghost use Rattle.mm_mission.specs.Mission.{MissionRows, IsMission};
ghost use Rattle.mm_mission.specs.declared.fault.Fault.TheVariants.{NoMemory, TooManySteps};
ghost use Rattle.mm_overlap.specs.Given.{AreTransmitters};
ghost use Rattle.mm_overlap.specs.Edges.{AreEdgesOf};

use mm_base::MAX_STEPS;
use mm_mission::{Fault, Mission, moments};
use std::alloc::{AllocError, Global};

// When something changes that some transmitter can send, in no order.
fn all_moments(alloc: Global, missions: &[Mission]) -> Result<Vec<u64>, AllocError>
    ensures moments { IfOk result (λ times. times.items ≡ flat_map moments missions.now) }
    ensures missions { OnOk result (All IsMission missions.now) }
{
    let mut times = Vec::new(alloc);
    for mission in missions {
        let own = moments(alloc, mission)?;
        times.extend_from_slice(&own)?;
    }
    Ok(times)
}

/// The edges of steps for all transmitters of a mission: rising times, at each of which something changes that one of
/// them can send. More than a forecast has steps for are refused.
pub fn edges(alloc: Global, missions: &[Mission]) -> Result<Vec<u64>, Fault>
    requires transmitters { (m : MissionRows) × AreTransmitters m missions.now }
    ensures edges { IfOk result (λ times. AreEdgesOf missions.now times.items) }
    ensures few { IfOk result (λ times. length times.items ≤ MAX_STEPS + 1) }
    ensures many { IfRefused NoMemory result (λ fault. (fault ≡ TooManySteps)
        × ((times : List ℕ) × AreEdgesOf missions.now times × (MAX_STEPS + 1 < length times))) }
{
    let mut times = all_moments(alloc, missions)?;
    times.sort_unstable();
    times.dedup();
    if times.len() <= MAX_STEPS as usize + 1 {
        Ok(times)
    } else {
        Err(Fault::TooManySteps)
    }
}
