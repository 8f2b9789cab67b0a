//! A run from texts to what is printed: of the plan of a text, or of one that is made.
ghost use Rattle.std.specs.Prelude.{◌≡◌, IfOk, OnOk};
ghost use Rattle.std.specs.Option.{option_copied};
ghost use Rattle.mm_base.specs.Reading.{IfRefused};
ghost use Rattle.mm_run.specs.Judging.{IsFirstFault, IsRunFault, IsFlyFault};
ghost use Rattle.mm_run.specs.Prepared.{IsPrepared};
ghost use Rattle.mm_run.specs.Runs.{lost_in, opened_with, PrintsRun, Runs, FliesBy};

use crate::fault::Fault;
use crate::laws::constants_are;
use crate::prepared::PreparedRun;
use crate::printed::{Given, Printed};
use crate::run_plan::plan_by;
use crate::texts::{
    ProblemAndMemory, RunTexts, SourcesAndLinks, read_plan, read_problem_and_memory,
    read_sources_and_links,
};
use mm_base::NoMemory;
use mm_memory::Memory;
use mm_packet::BlockPacket;
use mm_planner::Goal;
use std::alloc::Global;
use std::sync::Wait;
use std::thread::Threads;

// Offers packets at the moment 0, in order, each to the stores of its report type.
fn offer_all(alloc: Global, memory: &mut Memory, packets: &[BlockPacket]) -> Result<(), NoMemory>
    ensures { OnOk result (memory.new ≡ opened_with memory.old packets.now) }
{
    for packet in packets {
        memory.record(alloc, 0, packet)?;
    }
    Ok(())
}

// How many packets the stores of a memory have lost.
fn lost_in(memory: &Memory) -> u64
    ensures { result ≡ lost_in memory.now }
{
    let mut lost: u64 = 0;
    for held in memory.stores() {
        lost = lost.saturating_add(held.state.lost());
    }
    lost
}

/// Reads and judges what the texts say of a run, and makes a plan for the goal and prints it where there is no plan
/// text. The run has not begun. Otherwise the first fault of the texts, in the order of the setup, the forecast, the
/// plan text, its shape, the sources and the links.
pub fn prepare_run(
    alloc: Global,
    texts: RunTexts<'_>,
    plan: Option<&[u8]>,
    goal: Goal,
) -> Result<PreparedRun, Fault>
    ensures prepared { IfOk result (IsPrepared goal (option_copied plan.entry)
        texts.entry.setup.now texts.entry.forecast.now texts.entry.sources.now texts.entry.links.now) }
    ensures refused { IfRefused Fault.NoMemory result (IsFirstFault (option_copied plan.entry)
        texts.entry.setup.now texts.entry.forecast.now texts.entry.sources.now texts.entry.links.now) }
{
    let start = read_problem_and_memory(alloc, texts.setup, texts.forecast)?;
    let sheet = read_plan(alloc, &start.problem, plan)?;
    let SourcesAndLinks {
        opening,
        sources,
        links,
        given,
    } = read_sources_and_links(alloc, &start, texts.sources, texts.links)?;
    let ProblemAndMemory {
        problem,
        mut memory,
    } = start;
    constants_are();
    offer_all(alloc, &mut memory, opening.as_slice())?;
    let given = Given {
        lost_before: lost_in(&memory),
        ..given
    };
    let printed = Printed::reserved(alloc, given)?;
    let plan = plan_by(alloc, &problem, sheet, goal);
    Ok(PreparedRun {
        problem,
        memory,
        plan,
        sources,
        links,
        printed,
    })
}

/// What is printed of the run that the texts say: the packets of step 0 are offered at the moment 0, and then the plan
/// is carried out, its first step at the moment 1. It is the plan of the plan text, or where there is none, one is made
/// for the goal and printed. Otherwise the first fault of the texts, as `prepare_run` has it.
pub fn run_texts<R: Threads + Wait + Sync>(
    rt: &R,
    alloc: Global,
    texts: RunTexts<'_>,
    plan: Option<&[u8]>,
    goal: Goal,
) -> Result<Printed, Fault>
    ensures runs { IfOk result (PrintsRun goal (option_copied plan.entry)
        texts.entry.setup.now texts.entry.forecast.now texts.entry.sources.now texts.entry.links.now) }
    ensures refused { IfRefused Fault.NoMemory result (IsFirstFault (option_copied plan.entry)
        texts.entry.setup.now texts.entry.forecast.now texts.entry.sources.now texts.entry.links.now) }
{
    let run = prepare_run(alloc, texts, plan, goal)?;
    Ok(run.carry_out(rt, alloc))
}

/// Does what `run_texts` does, with a plan text.
pub fn run_bytes<R: Threads + Wait + Sync>(
    rt: &R,
    alloc: Global,
    texts: RunTexts<'_>,
    plan: &[u8],
) -> Result<Printed, Fault>
    ensures runs { IfOk result (Runs texts.entry.setup.now texts.entry.forecast.now plan.now
        texts.entry.sources.now texts.entry.links.now) }
    ensures refused { IfRefused Fault.NoMemory result (IsRunFault texts.entry.setup.now texts.entry.forecast.now
        plan.now texts.entry.sources.now texts.entry.links.now) }
{
    run_texts(rt, alloc, texts, Some(plan), Goal::Least)
}

/// Does what `run_texts` does, without a plan text.
pub fn fly_bytes<R: Threads + Wait + Sync>(
    rt: &R,
    alloc: Global,
    texts: RunTexts<'_>,
) -> Result<Printed, Fault>
    ensures flies { IfOk result (FliesBy texts.entry.setup.now texts.entry.forecast.now
        texts.entry.sources.now texts.entry.links.now) }
    ensures refused { IfRefused Fault.NoMemory result
        (IsFlyFault texts.entry.setup.now texts.entry.forecast.now texts.entry.sources.now texts.entry.links.now) }
{
    run_texts(rt, alloc, texts, None, Goal::Least)
}
