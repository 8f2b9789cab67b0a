//! The rest of a run that was halted: planned anew from what the stores hold, and flown.
ghost use Rattle.std.specs.Prelude.{◌≡◌, ◌<◌, ◌-◌, ◌^◌, ◌⊎◌, All, length, map, IfOk, IfErr};
ghost use Rattle.mm_base.specs.Reading.{Gives};
ghost use Rattle.mm_problem.specs.declared.fault.Fault.TheVariants.{NoMemory};
ghost use Rattle.mm_problem.specs.Rest.{rest_from};
ghost use Rattle.mm_record.specs.Later.{later, later_gives};
ghost use Rattle.mm_exec.specs.Flying.{Flies, FliesNot, HasNoPlan};
ghost use Rattle.callers.specs.Remaining.{held_by, held_in, rest_in, SaysLeast};

use mm_base::StoreId;
use mm_dump::Link;
use mm_exec::{Flown, FlyHalted, fly};
use mm_memory::Memory;
use mm_problem::{Fault, Problem};
use mm_record::{Later, Source, later_sources};
use mm_store::PacketStore;
use std::alloc::Global;
use std::sync::Wait;
use std::thread::Threads;

// How many packets the store with this identifier holds; none where there is no such store.
fn held_by(memory: &Memory, id: &StoreId) -> u32
    ensures { result ≡ held_by memory.now id.now }
{
    match memory.state(id) {
        Some(state) => state.store().len(),
        None => 0,
    }
}

// How many packets each store of the problem holds.
fn held_in(alloc: Global, problem: &Problem, memory: &Memory) -> Result<Vec<u32>, Fault>
    ensures held { IfOk result (λ held. held.items ≡ held_in problem.now memory.now) }
    ensures memory { IfErr result (λ fault. fault ≡ NoMemory) }
{
    let mut held = Vec::new(alloc);
    for store in 0..problem.stores() {
        held.push(held_by(memory, &problem.id(store)))?;
    }
    Ok(held)
}

/// The problem of the steps after this one, from what the stores hold.
pub fn rest_in(
    alloc: Global,
    problem: &Problem,
    step: u32,
    memory: &Memory,
) -> Result<Problem, Fault>
    requires before_last { step < length problem.now.windows }
    ensures rest { Gives NoMemory (λ rest. rest) result (rest_from problem.now step (held_in problem.now memory.now)) }
{
    let held = held_in(alloc, problem, memory)?;
    problem.rest(alloc, step, &held)
}

/// Why the rest was not flown.
#[derive(Drop)]
pub enum RestError<S: Drop, L: Drop> {
    /// There was no memory, or the stores hold more than the problem's have room for. Nothing was done.
    Refused {
        fault: Fault,
        sources: Vec<S>,
        links: Vec<L>,
    },
    /// Its run did not begin, or was halted in its turn.
    Halted(FlyHalted<Later<S>, L>),
}

/// Plans the steps after this one anew, from what the stores hold, and flies that plan. `now` is the moment of this step.
pub fn fly_the_rest<S: Source + Send + Drop, L: Link + Send + Drop, R: Threads + Wait + Sync>(
    rt: &R,
    alloc: Global,
    memory: &mut Memory,
    problem: &Problem,
    step: u32,
    sources: Vec<S>,
    links: Vec<L>,
    now: u64,
) -> Result<Flown<Later<S>, L>, RestError<S, L>>
    requires before_last { step < length problem.now.windows }
    requires links { All (λ l. L.failed l < 2 ^ 64 - 1) links.items }
    // No plan that fits the steps that are left loses fewer blocks of what the stores hold and of what is to come.
    ensures least { IfOk result (λ flown. SaysLeast (rest_in problem.now step memory.old) flown.sheet.items) }
    ensures flown { IfOk result (λ flown. Flies L.sent L.failed (rest_in problem.now step memory.old) now memory.old
        (map (later_gives S.gives) (map (later step) sources.items)) links.items memory.new flown (map (later_gives S.gives) flown.sources.items)) }
{
    let rest = match rest_in(alloc, problem, step, memory) {
        Ok(rest) => rest,
        Err(fault) => {
            return Err(RestError::Refused {
                fault,
                sources,
                links,
            });
        }
    };
    let later = match later_sources(alloc, sources, step) {
        Ok(later) => later,
        Err((sources, _)) => {
            return Err(RestError::Refused {
                fault: Fault::NoMemory,
                sources,
                links,
            });
        }
    };
    match fly(rt, alloc, memory, &rest, later, links, now) {
        Ok(flown) => Ok(flown),
        Err(ended) => Err(RestError::Halted(ended)),
    }
}
