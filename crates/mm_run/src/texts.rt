//! What the texts of a run say.
ghost use Rattle.std.specs.Prelude.{◌≡◌, length, All, IfOk};
ghost use Rattle.std.specs.Option.{option_copied};
ghost use Rattle.mm_base.specs.Reading.{IfRefused};
ghost use Rattle.mm_problem.specs.declared.fault.Fault.TheVariants as problem;
ghost use Rattle.mm_plan.specs.declared.fault.Fault.TheVariants as plan_fault;
ghost use Rattle.mm_run.specs.Sources.{AreFew};
ghost use Rattle.mm_run.specs.declared.script_fault.ScriptFault.TheVariants as script;
ghost use Rattle.mm_run.specs.Runs.{AreOffered, CountsUntaken};
ghost use Rattle.mm_run.specs.Texts.{SaysProblemAndMemory, SaysPlan, SaysSourcesAndLinks, IsProblemFault};
ghost use Rattle.mm_run.specs.Texts.{IsPlanTextFault, IsScriptFault};
ghost use Rattle.mm_run.specs.Untaken.{CountsOf, HasRoutesToStores};

use crate::link::{ScriptedLink, read_links};
use crate::printed::Given;
use crate::script_fault::ScriptFault;
use crate::source::ScriptedSource;
use crate::sources::SourceFile;
use crate::untaken::UnstoredCount;
use mm_cut::read_sheet;
use mm_memory::Memory;
use mm_packet::BlockPacket;
use mm_plan::Sheet;
use mm_problem::{Problem, Setup};
use std::alloc::Global;

/// The texts of a run, without the plan's.
#[derive(Clone, Copy)]
pub struct RunTexts<'a> {
    pub setup: &'a [u8],
    pub forecast: &'a [u8],
    pub sources: &'a [u8],
    pub links: &'a [u8],
}

/// What a setup and a forecast say: the problem, and the memory before anything is stored.
#[derive(Drop)]
pub(crate) struct ProblemAndMemory {
    pub(crate) problem: Problem,
    pub(crate) memory: Memory,
    ghost routes: { HasRoutesToStores memory },
}

/// What the sources and the links say.
#[derive(Drop)]
pub(crate) struct SourcesAndLinks {
    /// The packets of step 0, in the order of the lines.
    pub(crate) opening: Vec<BlockPacket>,
    pub(crate) sources: Vec<ScriptedSource>,
    pub(crate) links: Vec<ScriptedLink>,
    pub(crate) given: Given,
}

/// Reads the setup and the forecast. Otherwise the first fault, of the setup and then of the forecast.
#[tactic(auto, using(crate::proofs::Offered::none_offered), unfolding(mm_problem::specs::Texts::problem_in))]
pub(crate) fn read_problem_and_memory(
    alloc: Global,
    setup: &[u8],
    forecast: &[u8],
) -> Result<ProblemAndMemory, mm_problem::Fault>
    ensures found { IfOk result (λ g. SaysProblemAndMemory setup.now forecast.now g.problem g.memory) }
    ensures opened { IfOk result (λ g. AreOffered 0 g.memory.stores) }
    ensures refused { IfRefused problem.NoMemory result (IsProblemFault setup.now forecast.now) }
{
    let setup = Setup::read(alloc, setup)?;
    let problem = Problem::read(alloc, &setup, forecast)?;
    match Memory::of_setup(alloc, &setup) {
        Ok(memory) => Ok(ProblemAndMemory { problem, memory }),
        Err(_) => Err(mm_problem::Fault::NoMemory),
    }
}

/// Reads the plan text, where there is one. Otherwise its first fault.
pub(crate) fn read_plan(
    alloc: Global,
    problem: &Problem,
    plan: Option<&[u8]>,
) -> Result<Option<Sheet>, mm_plan::Fault>
    ensures found { IfOk result (SaysPlan problem.now (option_copied plan.entry)) }
    ensures refused { IfRefused plan_fault.NoMemory result (IsPlanTextFault problem.now (option_copied plan.entry)) }
{
    match plan {
        Some(text) => Ok(Some(read_sheet(alloc, problem, text)?)),
        None => Ok(None),
    }
}

/// Reads the sources and the links, and counts the packets that go to no store. Otherwise the first fault, of the
/// sources and then of the links.
pub(crate) fn read_sources_and_links(
    alloc: Global,
    start: &ProblemAndMemory,
    sources: &[u8],
    links: &[u8],
) -> Result<SourcesAndLinks, ScriptFault>
    ensures found { IfOk result (λ e. SaysSourcesAndLinks sources.now links.now
        e.opening.items e.sources.items e.links.items) }
    ensures few { IfOk result (λ e. AreFew e.sources.items) }
    ensures unfailed { IfOk result (λ e. All (λ l. l.failed ≡ 0) e.links.items) }
    ensures counts { IfOk result (λ e. CountsOf (length start.now.problem.windows) start.now.memory sources.now
        e.given.unstored) }
    ensures untaken { IfOk result (λ e. CountsUntaken (length start.now.problem.windows) start.now.memory
        e.opening.items e.sources.items e.given.unstored) }
    ensures refused { IfRefused script.NoMemory result (IsScriptFault sources.now links.now) }
{
    let mut count = UnstoredCount::new(Some(start));
    let SourceFile { opening, sources } = SourceFile::read_noting(alloc, sources, &mut count)?;
    let links = read_links(alloc, links)?;
    let given = Given {
        sources: sources.len(),
        links: links.len(),
        opening: 0,
        lost_before: 0,
        unstored: count.unstored,
        untaken: count.untaken,
    };
    Ok(SourcesAndLinks {
        opening,
        sources,
        links,
        given,
    })
}
