//! The edges of a mission's steps.
ghost use Rattle.std.specs.Prelude.{◌≡◌, ℕ, ◌+◌, ◌<◌, ◌≤◌, List, [], ◌∷◌, ◌++◌, length, filter, IfOk, OnOk};
ghost use Rattle.mm_base.specs.declared.limits.TheConstants.{MAX_STEPS};
ghost use Rattle.mm_base.specs.Reading.{IfRefused};
ghost use Rattle.mm_mission.specs.Mission.{IsMission};
ghost use Rattle.mm_mission.specs.Edges.{is_in, is_inside, ends, pass_ends, observation_ends, moments, AreEdges};
ghost use Rattle.mm_mission.specs.declared.fault.Fault.TheVariants.{NoMemory, TooManySteps};

use crate::fault::Fault;
use crate::mission::Mission;
use crate::parts::{Observation, Pass, Span};
use mm_base::MAX_STEPS;
use std::alloc::{AllocError, Global};

impl Span {
    // Whether a time lies in it, and not at its begin or end.
    fn has_inside(&self, time: u64) -> bool
        ensures { result ≡ is_in time self.now }
    {
        self.begin < time && time < self.end
    }
}

// Whether a time lies in a pass, and not at its begin or end.
fn is_inside(passes: &[Pass], time: u64) -> bool
    ensures { result ≡ is_inside passes.now time }
{
    passes.iter().any(|pass| pass.span.has_inside(time))
}

// Adds when a span begins and ends.
fn push_ends(times: &mut Vec<u64>, span: &Span) -> Result<(), AllocError>
    ensures { OnOk result (times.new.items ≡ times.old.items ++ ends span.now) }
{
    times.push(span.begin)?;
    times.push(span.end)?;
    Ok(())
}

fn push_if_inside(times: &mut Vec<u64>, passes: &[Pass], time: u64) -> Result<(), AllocError>
    ensures { OnOk result (times.new.items ≡ times.old.items ++ filter (is_inside passes.now) (time ∷ [])) }
{
    if is_inside(passes, time) {
        times.push(time)?;
    }
    Ok(())
}

// Adds when a span begins and ends, where that is inside a pass.
fn push_inside(times: &mut Vec<u64>, passes: &[Pass], span: &Span) -> Result<(), AllocError>
    ensures { OnOk result (times.new.items ≡ times.old.items ++ filter (is_inside passes.now) (ends span.now)) }
{
    push_if_inside(times, passes, span.begin)?;
    push_if_inside(times, passes, span.end)
}

fn push_passes(times: &mut Vec<u64>, passes: &[Pass]) -> Result<(), AllocError>
    ensures { OnOk result (times.new.items ≡ times.old.items ++ pass_ends passes.now) }
{
    for pass in passes {
        push_ends(times, &pass.span)?;
    }
    Ok(())
}

fn push_observations(
    times: &mut Vec<u64>,
    passes: &[Pass],
    observations: &[Observation],
) -> Result<(), AllocError>
    ensures { OnOk result (times.new.items
        ≡ times.old.items ++ filter (is_inside passes.now) (observation_ends observations.now)) }
{
    for one in observations {
        push_inside(times, passes, &one.span)?;
    }
    Ok(())
}

/// When something changes that can be sent, in no order, and maybe more than once: when the mission and each pass begin
/// and end, and observations where that is inside a pass.
pub fn moments(alloc: Global, mission: &Mission) -> Result<Vec<u64>, AllocError>
    ensures moments { IfOk result (λ times. times.items ≡ moments mission.now) }
    ensures is_mission { OnOk result (IsMission mission.now) }
{
    let mut times = Vec::new(alloc);
    times.push(0)?;
    times.push(mission.lasts)?;
    push_passes(&mut times, &mission.passes)?;
    push_observations(&mut times, &mission.passes, &mission.observations)?;
    Ok(times)
}

/// The moments at which something changes that can be sent, in rising order: when the mission and each pass begin and
/// end, and observations where that is inside a pass. More than a forecast has steps for are refused.
pub fn edges(alloc: Global, mission: &Mission) -> Result<Vec<u64>, Fault>
    ensures edges { IfOk result (λ times. AreEdges mission.now times.items) }
    ensures few { IfOk result (λ times. length times.items ≤ MAX_STEPS + 1) }
    ensures many { IfRefused NoMemory result (λ fault. (fault ≡ TooManySteps)
        × ((times : List ℕ) × AreEdges mission.now times × (MAX_STEPS + 1 < length times))) }
{
    let mut times = moments(alloc, mission)?;
    times.sort_unstable();
    times.dedup();
    if times.len() <= MAX_STEPS as usize + 1 {
        Ok(times)
    } else {
        Err(Fault::TooManySteps)
    }
}
