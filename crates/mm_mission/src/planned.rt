//! The dumping problem of a mission.
ghost use Rattle.std.specs.Prelude.{◌≡◌, [], ◌∷◌, map, IsTrue, IfOk};
ghost use Rattle.std.specs.List.{range_with_len};
ghost use Rattle.mm_base.specs.Reading.{Gives};
ghost use Rattle.mm_problem.specs.declared.come.Arrivals.TheVariants.{During};
ghost use Rattle.mm_problem.specs.declared.fault.Name.TheVariants as name;
ghost use Rattle.mm_problem.specs.Changed.{with_arrivals};
ghost use Rattle.mm_problem.specs.Data.{problem_from, limited_by};
ghost use Rattle.mm_mission.specs.Mission.{is_store};
ghost use Rattle.mm_mission.specs.Edges.{AreTimes};
ghost use Rattle.mm_mission.specs.Planned.{row_of, is_limited, limited, windows, arrived, step_limits};
ghost use Rattle.mm_mission.specs.Planned.{in_range, of_problem, problem_of, IsProblemOf};
ghost use Rattle.mm_mission.specs.declared.fault.Fault.TheVariants.{NoMemory};
ghost use Rattle.mm_mission.specs.declared.counter.Counter.TheVariants.{Sent, Come};

use crate::counter::Counter;
use crate::fault::Fault;
use crate::mission::Mission;
use crate::parts::{Pass, Store};
use crate::table::columns;
use mm_base::{CHANNELS, StoreRow};
use mm_problem::{Arrivals, Name, Problem};
use std::alloc::{AllocError, Global};

// A store in units.
fn row_of(store: &Store) -> StoreRow
    requires { IsTrue (is_store store.now) }
    ensures { result ≡ row_of store.now }
{
    let size = store.size / store.unit;
    let start = store.start.div_ceil(store.unit).min(size);
    StoreRow {
        id: store.id,
        size: size as u32,
        start: start as u32,
        kind: store.kind,
        channel: store.channel,
    }
}

fn rows(alloc: Global, mission: &Mission) -> Result<Vec<StoreRow>, AllocError>
    ensures { IfOk result (λ rows. rows.items ≡ map row_of mission.now.stores) }
{
    let mut rows = Vec::new(alloc);
    for store in mission.stores.iter() {
        rows.push(row_of(store))?;
    }
    Ok(rows)
}

// Whether a channel has its own rate in some pass.
fn is_limited(passes: &[Pass], channel: u8) -> bool
    ensures { result ≡ is_limited passes.now channel }
{
    passes
        .iter()
        .any(|pass| pass.own_rate(Some(channel)).is_some())
}

// The channels that have.
fn limited(alloc: Global, mission: &Mission) -> Result<Vec<u8>, AllocError>
    ensures { IfOk result (λ channels. channels.items ≡ limited mission.now) }
{
    let passes = mission.passes.as_slice();
    let limited = (0..CHANNELS as u8).filter(|channel| is_limited(passes, *channel));
    limited.collect(alloc)
}

// What comes into each of so many stores.
fn come_counters(alloc: Global, stores: usize) -> Result<Vec<Counter>, AllocError>
    ensures { IfOk result (λ counters. counters.items ≡ map Come (range_with_len 0 stores)) }
{
    (0..stores).map(|store| Counter::Come(store)).collect(alloc)
}

// What can be sent of each of these channels.
fn sent_counters(alloc: Global, channels: &[u8]) -> Result<Vec<Counter>, AllocError>
    ensures { IfOk result (λ counters. counters.items ≡ map (λ c. Sent (Some c)) channels.now) }
{
    channels
        .iter()
        .map(|channel| Counter::Sent(Some(*channel)))
        .collect(alloc)
}

fn windows(alloc: Global, mission: &Mission, edges: &[u64]) -> Result<Vec<u32>, Fault>
    ensures { Gives NoMemory (λ units. units.items) result (in_range name.Window (windows mission.now edges.now)) }
{
    columns(alloc, mission, Name::Window, &[Counter::Sent(None)], edges)
}

fn arrived(alloc: Global, mission: &Mission, edges: &[u64]) -> Result<Vec<u32>, Fault>
    ensures { Gives NoMemory (λ units. units.items) result (in_range name.Arrivals (arrived mission.now edges.now)) }
{
    let stores = come_counters(alloc, mission.stores())?;
    columns(alloc, mission, Name::Arrivals, &stores, edges)
}

// The limits of these channels, which are those that have any.
fn step_limits(
    alloc: Global,
    mission: &Mission,
    channels: &[u8],
    edges: &[u64],
) -> Result<Vec<u32>, Fault>
    requires { channels.now ≡ limited mission.now }
    ensures { Gives NoMemory (λ units. units.items) result (in_range name.Limit (step_limits mission.now edges.now)) }
{
    let counters = sent_counters(alloc, channels)?;
    columns(alloc, mission, Name::Limit, &counters, edges)
}

// The problem without limits of steps, and with arrivals before dumps.
fn first_problem(
    alloc: Global,
    rows: &[StoreRow],
    windows: &[u32],
    arrivals: &[u32],
) -> Result<Problem, Fault>
    ensures { Gives NoMemory (λ problem. problem) result
        (of_problem (problem_from rows.now [] windows.now arrivals.now)) }
{
    Ok(Problem::new(alloc, rows, &[], windows, arrivals)?)
}

// The same problem with limits of steps, and with arrivals during dumps.
fn limited_problem(
    alloc: Global,
    problem: &Problem,
    channels: &[u8],
    limits: &[u32],
) -> Result<Problem, Fault>
    ensures { Gives NoMemory (λ problem. problem) result
        (of_problem (limited_by (with_arrivals problem.now During) channels.now limits.now)) }
{
    let problem = problem.with_arrivals(alloc, Arrivals::During)?;
    Ok(problem.with_step_limits(alloc, channels, limits)?)
}

/// The problem of a mission whose steps have these edges. Otherwise the first fault: a window, an arrival or a limit
/// above 1,000,000 units, and then what a problem is refused for.
#[tactic(auto, unfolding(crate::specs::Planned::problem_of))]
pub fn problem(alloc: Global, mission: &Mission, edges: &[u64]) -> Result<Problem, Fault>
    requires times { AreTimes mission.now edges.now }
    ensures problem { Gives NoMemory (λ problem. problem) result (problem_of mission.now edges.now) }
    ensures is_of { IfOk result (λ problem. IsProblemOf mission.now edges.now problem) }
{
    let rows = rows(alloc, mission)?;
    let channels = limited(alloc, mission)?;
    let windows = windows(alloc, mission, edges)?;
    let arrived = arrived(alloc, mission, edges)?;
    let limits = step_limits(alloc, mission, &channels, edges)?;
    let problem = first_problem(alloc, &rows, &windows, &arrived)?;
    limited_problem(alloc, &problem, &channels, &limits)
}
