//! What comes before the report of a run: the script that plans what is left of it, where a link halted it.
ghost use Rattle.std.specs.Prelude.{◌≡◌, ◌≤◌, ◌++◌, IfOk, IfSome, length, map};
ghost use Rattle.std.specs.List.{filter_map};
ghost use Rattle.std.specs.Option.{option_map};
ghost use Rattle.mm_problem.specs.Dumping.{stores};
ghost use Rattle.mm_problem.specs.Forecast.{limits_of};
ghost use Rattle.mm_run.specs.StoppedRun.{dumped_at};
ghost use Rattle.mm_commands.specs.Halts.{IsHaltedStep, LeadsHalt, LeadsReport, LeadsWhole, SaysHalt, TellsHalt};
ghost use Rattle.mm_commands.specs.Halts.{held_at, report_line};

use crate::given::read_given;
use crate::texts::TaskTexts;
use mm_base::{NoMemory, StoreId};
use mm_problem::{Problem, Setup};
use mm_rest::{HaltedStep, halt_script};
use mm_run::{Cause, Printed, ScriptedLink, StoppedRun};
use std::alloc::Global;

// How many packets the store at a place holds; none where there is no such store.
fn held_at(run: &StoppedRun, place: usize) -> u32
    ensures { result ≡ held_at place run.now }
{
    run.volume(place).map_or(0, |volume| volume.blocks)
}

// The stores of the packets that links did not take.
fn broken(alloc: Global, links: &[ScriptedLink]) -> Result<Vec<StoreId>, NoMemory>
    ensures { IfOk result (λ broken. broken.items
        ≡ filter_map (λ l. option_map (λ f. f.store) l.last_failure) links.now) }
{
    let stores = links.iter().filter_map(|link| {
        let failed = link.last_failure()?;
        Some(failed.store)
    });
    Ok(stores.collect(alloc)?)
}

// What each store of the problem holds.
fn held(alloc: Global, problem: &Problem, run: &StoppedRun) -> Result<Vec<u32>, NoMemory>
    ensures { IfOk result (λ held. held.items ≡ map (λ s. held_at s run.now) (stores problem.now)) }
{
    let held = (0..problem.stores()).map(|store| held_at(run, store));
    Ok(held.collect(alloc)?)
}

// What each store of the problem dumped in the step in which the run was halted.
fn dumped(alloc: Global, problem: &Problem, run: &StoppedRun) -> Result<Vec<u64>, NoMemory>
    ensures { IfOk result (λ dumped. dumped.items ≡ map (λ s. dumped_at s run.now) (stores problem.now)) }
{
    let dumped = (0..problem.stores()).map(|store| run.dumped(store));
    Ok(dumped.collect(alloc)?)
}

// What the run left of the step in which it was halted.
fn halted_step(alloc: Global, problem: &Problem, run: &StoppedRun) -> Result<HaltedStep, NoMemory>
    ensures { IfOk result (IsHaltedStep problem.now run.now) }
{
    let volumes = held(alloc, problem, run)?;
    let dumps = dumped(alloc, problem, run)?;
    let stores = broken(alloc, &run.halted.links)?;
    Ok(HaltedStep {
        held: volumes,
        spent: run.halted.spent,
        dumped: dumps,
        broken: stores,
    })
}

// The script of what is left of a problem, in a step of which the run was halted.
fn script_in(
    alloc: Global,
    setup: &Setup,
    problem: &Problem,
    step: u32,
    run: &StoppedRun,
) -> Result<Vec<u8>, NoMemory>
    requires stores { problem.now.rows ≡ setup.now.stores }
    requires limits { problem.now.limits ≡ limits_of setup.now.limits }
    requires first { 1 ≤ step }
    requires last { step ≤ length problem.now.windows }
    ensures { IfOk result (λ script. SaysHalt setup.now problem.now step run.now script.items) }
{
    let halted = halted_step(alloc, problem, run)?;
    let script = halt_script(alloc, setup, problem, step, &halted)?;
    Ok(script)
}

// The script of what is left of a run, where a link halted it in a step; none where there is no memory for it.
#[tactic(auto, using(crate::proofs::Leading::tells))]
fn script_of_rest(alloc: Global, run: &StoppedRun, texts: &TaskTexts) -> Option<Vec<u8>>
    ensures { IfSome result (λ script. TellsHalt texts.now run.now script.items) }
{
    let Cause::LinkFailed { step } = run.halted.cause else {
        return None;
    };
    let Ok(given) = read_given(alloc, texts) else {
        return None;
    };
    if step == 0 || step > given.problem.steps() {
        return None;
    }
    match script_in(alloc, &given.setup, &given.problem, step, run) {
        Ok(script) => Some(script),
        Err(_) => None,
    }
}

// A script, and the line after which the report stands.
fn with_report(script: Vec<u8>) -> Result<Vec<u8>, NoMemory>
    ensures { IfOk result (λ lead. lead.items ≡ script.items ++ report_line) }
{
    let mut lead = script;
    lead.extend_from_slice(b"=== report.txt\n")?;
    Ok(lead)
}

// The script, and the line after which the report stands.
fn whole_lead(alloc: Global, run: &StoppedRun, texts: &TaskTexts) -> Option<Vec<u8>>
    ensures { IfSome result (λ lead. LeadsWhole texts.now run.now lead.items) }
{
    let script = script_of_rest(alloc, run, texts)?;
    match with_report(script) {
        Ok(lead) => Some(lead),
        Err(_) => None,
    }
}

// What comes before the report of a run that did not end.
fn lead_of_halt(alloc: Global, run: &StoppedRun, texts: &TaskTexts) -> Vec<u8>
    ensures { LeadsHalt texts.now run.now result.items }
{
    match whole_lead(alloc, run, texts) {
        Some(lead) => lead,
        None => Vec::new(alloc),
    }
}

/// What comes before the report of a run: where it is asked for, and a link halted the run, the script that plans what
/// is left, of which the report is the last file. Nothing where there is no memory for it.
pub(crate) fn lead_of(
    alloc: Global,
    is_asked: bool,
    printed: &Printed,
    texts: &TaskTexts,
) -> Vec<u8>
    ensures { LeadsReport is_asked texts.now printed.now.left result.items }
{
    if !is_asked {
        return Vec::new(alloc);
    }
    match &printed.left {
        Some(run) => lead_of_halt(alloc, run, texts),
        None => Vec::new(alloc),
    }
}
