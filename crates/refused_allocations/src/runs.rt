//! Runs of the first plan: a store of four blocks and one that gets nothing, three steps, and two blocks that may leave
//! in each of the first two.
ghost use Rattle.std.specs.Prelude.{◌<◌, ◌-◌, ◌^◌, All};

use crate::met::Met;
use crate::traces::{TestLink, given_and_sent, is_ready, new_links};
use mm_dump::may_fail;
use mm_exec::{Cause, FlyHalted, FlyResult, Halted, RunEnd, carry_out, fly};
use mm_memory::Memory;
use mm_plan::Sheet;
use mm_problem::{Problem, Setup};
use mm_report::Report;
use mm_run::{ScriptedSource, SourceFile};
use std::alloc::Global;
use std::sync::Wait;
use std::thread::Threads;

// A bounded store of four blocks with a route, SCI, and a circular one without, HK.
const SETUP: &[u8] = b"[[store]]\nid = \"SCI\"\nsize = 4\ntype = \"bounded\"\nchannel = 0\n\n\
    [[store]]\nid = \"HK\"\nsize = 2\ntype = \"circular\"\nchannel = 3\n\n\
    [[route]]\napid = 100\nservice = 3\nsubtype = 25\nstore = \"SCI\"\n";

const FORECAST: &[u8] = b"step,window,SCI,HK\n1,2,3,0\n2,2,3,0\n3,0,4,0\n";

// The one plan of least loss, with the one cut that shows it.
const PLAN: &[u8] = b"mmplan 1\nstores SCI HK\ndump 1 2 0\ndump 2 2 0\ndump 3 0 0\nloss 2\n\
    stretch SCI 1 3\nbound 2\nend\n";

// Packets 1 to 10 of one source.
const OF_ONE: &str = packets!(
    1 1 "01", 1 1 "02", 1 1 "03", 1 2 "04", 1 2 "05", 1 2 "06", 1 3 "07", 1 3 "08", 1 3 "09", 1 3 "0A"
);

// The same with one more packet in step 3 than is forecast.
const ONE_MORE: &str = packets!(
    1 1 "01", 1 1 "02", 1 1 "03", 1 2 "04", 1 2 "05", 1 2 "06", 1 3 "07", 1 3 "08", 1 3 "09", 1 3 "0A", 1 3 "0B"
);

// The same, of two sources.
const OF_TWO: &str = packets!(
    1 1 "01", 2 1 "02", 1 1 "03", 2 2 "04", 1 2 "05", 2 2 "06", 1 3 "07", 2 3 "08", 1 3 "09", 2 3 "0A", 1 3 "0B"
);

/// A run by the text of its sources, with its packets, how many links it has, and what it reports.
#[derive(Clone, Copy)]
pub(crate) struct Case {
    sources: &'static str,
    packets: u32,
    links: u32,
    report: &'static str,
}

/// One source and one link, where eleven packets come in place of ten.
pub(crate) const ALONE: Case = Case {
    sources: ONE_MORE,
    packets: 11,
    links: 1,
    report: ELEVEN_CAME,
};

/// The same with two sources and two links.
pub(crate) const CROWD: Case = Case {
    sources: OF_TWO,
    links: 2,
    ..ALONE
};

// One source and one link, where what comes is what is forecast.
const FORESEEN: Case = Case {
    sources: OF_ONE,
    packets: 10,
    report: TEN_CAME,
    ..ALONE
};

// The report of a run that is halted before its first step.
const NO_STEP: &str = "total arrived 0 lost 0 dumped 0 held 0\n";

// What is reported of SCI in each step, and at the end; nothing comes for HK.
macro_rules! reports {
    ($($step:literal $row:literal)+, $end:literal) => {
        concat!($("step ", $step, " SCI ", $row, "\nstep ", $step, " HK arrived 0 lost 0 dumped 0 held 0\n",)+ $end)
    };
}

// The report where one packet more comes than is forecast.
const ELEVEN_CAME: &str = reports! {
    1 "arrived 3 lost 0 dumped 2 held 1"
    2 "arrived 3 lost 0 dumped 2 held 2"
    3 "arrived 5 lost 3 dumped 0 held 4",
    "differs step 3 SCI forecast 4 came 5\ntotal arrived 11 lost 3 dumped 4 held 4\n"
};

// The report where what comes is what is forecast.
const TEN_CAME: &str = reports! {
    1 "arrived 3 lost 0 dumped 2 held 1"
    2 "arrived 3 lost 0 dumped 2 held 2"
    3 "arrived 4 lost 2 dumped 0 held 4",
    "total arrived 10 lost 2 dumped 4 held 4\n"
};

// How a run is halted.
type HaltedRun = Halted<ScriptedSource, TestLink>;

// What a run is made on. The links have not failed too often.
#[derive(Drop)]
struct Stage {
    memory: Memory,
    problem: Problem,
    sources: Vec<ScriptedSource>,
    links: Vec<TestLink>,
    ghost may_fail: { All (λ l. l.failed < 2 ^ 64 - 1) links.items },
}

/// The memory of a setup with this text, where there is room for it.
pub(crate) fn memory_of_text(alloc: Global, text: &[u8]) -> Option<Memory> {
    let setup = Setup::read(alloc, text).ok()?;
    Memory::of_setup(alloc, &setup).ok()
}

// The problem of the first plan.
fn first_problem(alloc: Global) -> Option<Problem> {
    let setup = Setup::read(alloc, SETUP).ok()?;
    Problem::read(alloc, &setup, FORECAST).ok()
}

fn stage_in_room(alloc: Global, case: &Case) -> Option<Stage> {
    let memory = memory_of_text(alloc, SETUP)?;
    let problem = first_problem(alloc)?;
    let SourceFile { sources, .. } = SourceFile::read(alloc, case.sources.as_bytes()).ok()?;
    let links = new_links(alloc, case.links)?;
    if !may_fail(&links) {
        return None;
    }
    Some(Stage {
        memory,
        problem,
        sources,
        links,
    })
}

// Whether a report has this text, where there is memory for the text.
fn has_text(alloc: Global, report: &Report, want: &str) -> Option<bool> {
    let text = report.text(alloc).ok()?;
    Some(text.as_slice() == want.as_bytes())
}

// Whether a report has this text, unless there is no memory for the text.
fn told(alloc: Global, report: &Report, want: &str) -> Met {
    if let Some(same) = has_text(alloc, report, want) {
        return Met::Whole.provided(same, "another report");
    }
    match has_text(alloc, report, want) {
        Some(same) => Met::Wanted.provided(same, "another report"),
        None => Met::Wrong("no text of a report, twice"),
    }
}

// What a run has left: how many packets were given, and how many of them sent. Nothing where another store than SCI was
// used.
fn left_by(
    case: &Case,
    memory: &Memory,
    sources: &mut [ScriptedSource],
    links: &[TestLink],
) -> Option<(u32, u32)> {
    match memory.stores() {
        [store, other] if other.state.offered() == 0 && is_ready(&other.state) => {
            given_and_sent(case.packets, &store.state, sources, links)
        }
        _ => None,
    }
}

// What came of a run that was carried out: all packets were given, and four of them sent.
fn carried(
    alloc: Global,
    case: &Case,
    memory: &Memory,
    end: &mut RunEnd<ScriptedSource, TestLink>,
) -> Met {
    let left = left_by(case, memory, &mut end.sources, &end.links);
    told(alloc, &end.report, case.report).provided(
        left == Some((case.packets, 4)),
        "another number given or sent",
    )
}

// What came of a run that was halted, out of memory, or not planned: that is before its first step, and all is as
// before.
fn halted_for_want_of_memory(
    met: Met,
    alloc: Global,
    case: &Case,
    memory: &Memory,
    end: &mut HaltedRun,
) -> Met {
    let lacks = end.cause == Cause::NoMemory { step: 0 };
    let left = left_by(case, memory, &mut end.sources, &end.links);
    let report = told(alloc, &end.report, NO_STEP);
    met.provided(lacks, "halted for another cause, or in a step")
        .provided(left == Some((0, 0)), "changed before the first step")
        .provided(matches!(report, Met::Whole), "another report")
        .provided(
            end.spent == 0,
            "drawn from the window of a step that was not dumped",
        )
}

// What came of a run of this plan.
fn run_on<R: Threads + Wait + Sync>(
    rt: &R,
    alloc: Global,
    case: &Case,
    stage: Stage,
    sheet: &Sheet,
) -> Met {
    let Stage {
        mut memory,
        problem,
        sources,
        links,
    } = stage;
    let plan = sheet.plan();
    match carry_out(rt, alloc, &mut memory, &problem, plan, sources, links, 0) {
        Ok(mut end) => carried(alloc, case, &memory, &mut end),
        Err(mut end) => halted_for_want_of_memory(Met::Halted, alloc, case, &memory, &mut end),
    }
}

/// What came of the first plan with these sources and links; nothing where there was no memory to begin.
pub(crate) fn run<R: Threads + Wait + Sync>(rt: &R, alloc: Global, case: &Case) -> Option<Met> {
    let sheet = Sheet::parse(alloc, PLAN).ok()?;
    let stage = stage_in_room(alloc, case)?;
    Some(run_on(rt, alloc, case, stage, &sheet))
}

// What came of a run that was planned and carried out, or halted, or not planned.
fn landed(alloc: Global, memory: &Memory, end: FlyResult<ScriptedSource, TestLink>) -> Met {
    let (sheet, met) = match end {
        Ok(end) => {
            let (sheet, report, sources, links) = (end.sheet, end.report, end.sources, end.links);
            let mut end = RunEnd {
                report,
                sources,
                links,
            };
            (sheet, carried(alloc, &FORESEEN, memory, &mut end))
        }
        Err(FlyHalted { sheet, mut halted }) => {
            let met = if sheet.is_empty() {
                Met::Unplanned
            } else {
                Met::Halted
            };
            let met = halted_for_want_of_memory(met, alloc, &FORESEEN, memory, &mut halted);
            (sheet, met)
        }
    };
    let planned = !matches!(met, Met::Unplanned);
    met.provided(!planned || sheet.as_slice() == PLAN, "another plan")
}

/// What came of a run that begins with its plan, where what comes is what is forecast; nothing where there was no
/// memory to begin.
pub(crate) fn flight<R: Threads + Wait + Sync>(rt: &R, alloc: Global) -> Option<Met> {
    let Stage {
        mut memory,
        problem,
        sources,
        links,
    } = stage_in_room(alloc, &FORESEEN)?;
    let end = fly(rt, alloc, &mut memory, &problem, sources, links, 0);
    Some(landed(alloc, &memory, end))
}
