//! Tables of plans: what each step does to each store, as comma separated values.
ghost use Rattle.std.specs.Prelude.{◌≡◌, ◌<◌, ◌≤◌, ◌++◌, length, drop, flat_map, IfOk, OnOk};
ghost use Rattle.mm_base.specs.Reading.{IfRefused};
ghost use Rattle.mm_cut.specs.declared.fault.Fault.TheVariants.{NoMemory};
ghost use Rattle.mm_cut.specs.Checking.{IsFaultOf};
ghost use Rattle.mm_problem.specs.Dumping.{steps, window};
ghost use Rattle.mm_plan.specs.Table.{amount, HasShape};
ghost use Rattle.mm_chart.specs.Picture.{IsSimulation};
ghost use Rattle.mm_chart.specs.Table.{dumped, step_cells, volume_cells, record_of, step_records, table, IsTableOf};

use crate::pen::Pushed;
use itoa::write_digits;
use mm_base::numbers::write_number;
use mm_cut::{Fault, read_texts};
use mm_plan::{Plan, Simulated, simulate};
use mm_problem::Problem;
use std::alloc::Global;

/// A plan for a problem, and what it does to the stores.
#[derive(Drop)]
struct Course<'a> {
    problem: &'a Problem,
    plan: &'a Plan,
    volumes: Simulated,
    ghost shape: { HasShape problem.now plan.now },
    ghost are_volumes: { IsSimulation problem.now (amount plan.now) volumes },
}

// The octets that a step and its window take at most, with a comma after each.
const PLACE_ROOM: usize = 24;

// Writes the cells that say which step it is so that they end at the end of the octets, and answers where they start.
#[tactic(auto, using(std::proofs::Common::append_assoc))]
fn write_step(octets: &mut [u8; PLACE_ROOM], step: u32, window: u32) -> usize
    ensures written { drop result octets.new ≡ step_cells step window }
    ensures within { result ≤ PLACE_ROOM }
{
    octets[PLACE_ROOM - 1] = b',';
    let end = write_number(octets, PLACE_ROOM - 1, b',', window);
    write_digits(u64::from(step), octets, end)
}

// What a plan dumps from a store in a step.
fn dumped(course: &Course<'_>, step: u32, store: usize) -> u32
    requires store { store < length course.now.problem.now.rows }
    requires first { 1 ≤ step }
    requires last { step ≤ length course.now.problem.now.windows }
    ensures { result ≡ dumped course.now.problem.now (amount course.now.plan.now) store step }
{
    let stands = course.volumes.written(store, step);
    course.plan.amount(store, step).min(stands)
}

// The octets that the numbers of a record take at most.
const VOLUMES_ROOM: usize = 48;

// The cells of a record that say what happens in the step, in one piece up to its line feed.
#[tactic(auto, using(std::proofs::Common::append_assoc), unfolding(crate::specs::Table::volume_cells))]
fn push_volumes(text: &mut Vec<u8>, arrived: u32, lost: u32, dumped: u32, held: u32) -> Pushed
    ensures { OnOk result (text.new.items ≡ text.old.items ++ volume_cells arrived lost dumped held) }
{
    let mut octets = [b'\n'; VOLUMES_ROOM];
    let held_at = write_number(&mut octets, VOLUMES_ROOM - 1, b',', held);
    let dumped_at = write_number(&mut octets, held_at, b',', dumped);
    let lost_at = write_number(&mut octets, dumped_at, b',', lost);
    let arrived_at = write_number(&mut octets, lost_at, b',', arrived);
    text.extend_from_slice(&octets[arrived_at..])
}

// What a step does to a store.
#[tactic(auto, using(std::proofs::Common::append_assoc), unfolding(crate::specs::Table::record_of))]
fn push_record(
    text: &mut Vec<u8>,
    course: &Course<'_>,
    front: &[u8],
    step: u32,
    store: usize,
) -> Pushed
    requires front { front.now ≡ step_cells step (window course.now.problem.now step) }
    requires store { store < length course.now.problem.now.rows }
    requires first { 1 ≤ step }
    requires last { step ≤ length course.now.problem.now.windows }
    ensures { OnOk result (text.new.items ≡ text.old.items
        ++ record_of course.now.problem.now (amount course.now.plan.now) step store) }
{
    text.extend_from_slice(front)?;
    let id = course.problem.id(store);
    text.extend_from_slice(id.text())?;
    let arrived = course.problem.arrivals(store, step);
    let lost = course.volumes.lost(store, step);
    let dumped = dumped(course, step, store);
    let held = course.volumes.left(store, step);
    push_volumes(text, arrived, lost, dumped, held)
}

// The records of a step.
#[tactic(auto, using(crate::proofs::Ranges::drawing), unfolding(crate::specs::Table::step_records))]
fn push_step(text: &mut Vec<u8>, course: &Course<'_>, step: u32) -> Pushed
    requires first { 1 ≤ step }
    requires last { step ≤ length course.now.problem.now.windows }
    ensures { OnOk result (text.new.items ≡ text.old.items
        ++ step_records course.now.problem.now (amount course.now.plan.now) step) }
{
    let mut octets = [0; PLACE_ROOM];
    let first = write_step(&mut octets, step, course.problem.window(step));
    for store in 0..course.problem.stores() {
        push_record(text, course, &octets[first..], step, store)?;
    }
    Ok(())
}

/// The table of a plan for a problem.
#[tactic(auto, using(crate::proofs::Ranges::drawing), unfolding(crate::specs::Table::table))]
pub fn table_of(alloc: Global, problem: &Problem, plan: &Plan) -> Result<Vec<u8>, mm_base::NoMemory>
    requires { HasShape problem.now plan.now }
    ensures { IfOk result (λ text. text.items ≡ table problem.now (amount plan.now)) }
{
    let volumes = simulate(alloc, problem, plan)?;
    let course = Course {
        problem,
        plan,
        volumes,
    };
    let mut text = Vec::new(alloc);
    text.extend_from_slice(b"step,window,store,arrived,lost,dumped,held\n")?;
    for step in 1..course.problem.steps() + 1 {
        push_step(&mut text, &course, step)?;
    }
    Ok(text)
}

/// The table of the plan that the plan text says, for the problem that the setup and the forecast say: comma separated
/// values, a header and a record for each step and store. The faults come in the order of `chart_bytes`.
pub fn table_bytes(
    alloc: Global,
    setup: &[u8],
    forecast: &[u8],
    plan: &[u8],
) -> Result<Vec<u8>, Fault>
    ensures table { IfOk result (λ text. IsTableOf setup.now forecast.now plan.now text.items) }
    ensures refused { IfRefused NoMemory result (IsFaultOf setup.now forecast.now plan.now) }
{
    let (problem, sheet) = read_texts(alloc, setup, forecast, plan)?;
    Ok(table_of(alloc, &problem, sheet.plan())?)
}
