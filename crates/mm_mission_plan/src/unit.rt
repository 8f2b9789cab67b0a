//! The unit in which a mission is planned.
ghost use Rattle.std.specs.Prelude.{◌≡◌, ◌≢◌, ◌+◌, ◌-◌, ◌*◌, ◌<◌, true, IfOk};
ghost use Rattle.mm_base.specs.Reading.{Gives, IfRefused};
ghost use Rattle.mm_mission_plan.specs.Faults.{is_small};
ghost use Rattle.mm_mission_plan.specs.Units.{numbers_of, flown_of, is_too_small, IsOutcome, IsTried, IsFound};
ghost use Rattle.mm_mission_plan.specs.Units.{HasNoUnit, IsInUnit, IsUnitFault};
ghost use Rattle.mm_mission.specs.declared.limits.TheConstants.{MAX_UNIT};
ghost use Rattle.mm_mission_plan.specs.declared.fault.Fault.TheVariants.{NoMemory};

use crate::fault::Fault;
use crate::flown::Flown;
use mm_mission::{MAX_UNIT, Mission, edges, problem};
use mm_mission_exact::{Exact, Rows};
use mm_problem::Problem;
use std::alloc::Global;

// What is planned of a mission.
#[derive(Drop)]
pub(crate) struct Tried {
    pub(crate) flown: Flown,
    pub(crate) edges: Vec<u64>,
    pub(crate) problem: Problem,
}

// The same in a unit.
#[derive(Drop)]
pub(crate) struct InUnit {
    pub(crate) unit: u64,
    pub(crate) tried: Tried,
}

// Two units, the lower of which is none or too small, and what comes of the higher one.
#[derive(Drop)]
struct Found {
    low: u64,
    high: u64,
    outcome: Result<Tried, Fault>,
}

// The mission in exact numbers, in this unit.
#[tactic(auto, unfolding(crate::specs::Units::flown_of))]
fn flown_in(alloc: Global, rows: &Rows<'_>, unit: u64) -> Result<Flown, Fault>
    ensures { Gives NoMemory numbers_of result (flown_of rows.now unit) }
{
    let exact = Exact::new(alloc, rows, unit)?;
    let Exact {
        begin,
        lasts,
        stores,
        passes,
        places,
        observations,
    } = exact;
    let mission = Mission::new(lasts, stores, passes, observations)?;
    Ok(Flown {
        begin,
        mission,
        places,
    })
}

// What is planned of the mission in this unit.
fn outcome_of(alloc: Global, rows: &Rows<'_>, unit: u64) -> Result<Tried, Fault>
    ensures { IsOutcome rows.now unit result }
{
    let flown = flown_in(alloc, rows, unit)?;
    let edges = edges(alloc, &flown.mission)?;
    let problem = problem(alloc, &flown.mission, &edges)?;
    Ok(Tried {
        flown,
        edges,
        problem,
    })
}

impl Fault {
    // Whether a size, a window, a limit or an arrival is too large, which a larger unit makes less.
    fn is_small(&self) -> bool
        ensures { result ≡ is_small self.now }
    {
        matches!(
            self,
            Fault::Exact(mm_mission_exact::Fault::OutOfRange {
                number: mm_mission_exact::Number::Size,
                ..
            }) | Fault::Mission(mm_mission::Fault::Problem {
                fault: mm_problem::Fault::Limit { .. },
            })
        )
    }
}

impl Found {
    // Whether the higher unit is too small.
    fn is_too_small(&self) -> bool
        ensures { result ≡ is_too_small self.now.outcome }
    {
        match &self.outcome {
            Ok(_) => false,
            Err(fault) => fault.is_small(),
        }
    }
}

// Doubles a unit that is too small.
fn double(alloc: Global, rows: &Rows<'_>, found: Found) -> Found
    requires tried { IsTried rows.now found }
    requires small { is_too_small found.outcome ≡ true }
    requires below { found.high < MAX_UNIT }
    ensures tried { IsTried rows.now result }
    ensures twice { result.high ≡ 2 * found.high }
{
    let high = 2 * found.high;
    Found {
        low: found.high,
        high,
        outcome: outcome_of(alloc, rows, high),
    }
}

// Doubles the unit while it is too small.
fn doubled(alloc: Global, rows: &Rows<'_>) -> Found
    ensures { IsFound rows.now result }
{
    let mut found = Found {
        low: 0,
        high: 1,
        outcome: outcome_of(alloc, rows, 1),
    };
    'units: while found.is_too_small() && found.high < MAX_UNIT {
        found = double(alloc, rows, found);
    }
    found
}

// The half of the interval between the units, of which the lower one is too small or none and the higher one is not.
fn half(alloc: Global, rows: &Rows<'_>, found: Found) -> Found
    requires found { IsFound rows.now found }
    requires apart { found.low + 1 < found.high }
    ensures found { IsFound rows.now result }
    ensures less { result.high - result.low < found.high - found.low }
{
    let middle = found.low + (found.high - found.low) / 2;
    let next = Found {
        low: found.low,
        high: middle,
        outcome: outcome_of(alloc, rows, middle),
    };
    if next.is_too_small() {
        Found {
            low: middle,
            high: found.high,
            outcome: found.outcome,
        }
    } else {
        next
    }
}

// Halves the interval until there is no unit in it.
fn halved(alloc: Global, rows: &Rows<'_>, found: Found) -> Found
    requires { IsFound rows.now found }
    ensures found { IsFound rows.now result }
    ensures next { result.low + 1 ≡ result.high }
{
    let mut found = found;
    'units: while found.low + 1 < found.high {
        found = half(alloc, rows, found);
    }
    found
}

// The mission in the least unit in which no number is too large.
fn in_least_unit(alloc: Global, rows: &Rows<'_>) -> Result<InUnit, Fault>
    requires { HasNoUnit rows.now }
    ensures unit { IfOk result (λ found. IsInUnit rows.now found.unit found.tried) }
    ensures refused { IfRefused NoMemory result (IsUnitFault rows.now) }
{
    let Found { high, outcome, .. } = halved(alloc, rows, doubled(alloc, rows));
    match outcome {
        Ok(tried) => Ok(InUnit { unit: high, tried }),
        Err(fault) => Err(fault),
    }
}

// The mission in the least unit, unless its fault in its own unit is being out of memory.
fn in_other_unit(alloc: Global, rows: &Rows<'_>, fault: Fault) -> Result<InUnit, Fault>
    requires { fault ≢ NoMemory → HasNoUnit rows.now }
    ensures unit { IfOk result (λ found. IsInUnit rows.now found.unit found.tried) }
    ensures refused { IfRefused NoMemory result (IsUnitFault rows.now) }
{
    match fault {
        Fault::NoMemory => Err(Fault::NoMemory),
        _ => in_least_unit(alloc, rows),
    }
}

// The mission in the unit that is said, or else in the least one in which no number is too large.
pub(crate) fn in_unit(alloc: Global, rows: &Rows<'_>) -> Result<InUnit, Fault>
    ensures unit { IfOk result (λ found. IsInUnit rows.now found.unit found.tried) }
    ensures refused { IfRefused NoMemory result (IsUnitFault rows.now) }
{
    let unit = u64::from(rows.whole.unit);
    if unit == 0 {
        return in_least_unit(alloc, rows);
    }
    match outcome_of(alloc, rows, unit) {
        Ok(tried) => Ok(InUnit { unit, tried }),
        Err(fault) => in_other_unit(alloc, rows, fault),
    }
}
