//! Runs that begin with their plan.

use crate::tests::links::new_links;
use crate::tests::runs::rows::{Run, halted, run};
use crate::tests::runs::trials::{
    DURING_RUN, Ended, FIRST_RUN, Left, NO_STEP, SAID_RUN, SIZED_RUN, TWO_PASSES, Trial, Why, left,
    outcome_of,
};
use crate::tests::sources::scripts;
use mm_dump::{MemoryLink, may_fail};
use mm_exec::{FlyHalted, RunEnd, fly};
use std::process::Abort;
use std::sync::Wait;
use std::thread::Threads;
use work_parts::Bursts;

// Plans and flies a run. The text of its plan is that of examples/first_run, also where the run is halted or refused.
fn flown<R: Threads + Wait + Sync + Abort>(
    rt: &R,
    trial: &mut Trial,
    run: &Run,
) -> Ended<Bursts, MemoryLink> {
    let alloc = trial.alloc;
    let sources = scripts(rt, alloc, 1, run.many);
    let links = new_links(rt, alloc, run.until);
    assert!(rt; may_fail(&links), "links that may fail");
    let (memory, problem) = (&mut trial.memory, &trial.problem);
    let (sheet, run) = match fly(rt, alloc, memory, problem, sources, links, 0) {
        Ok(end) => (
            end.sheet,
            Ok(RunEnd {
                report: end.report,
                sources: end.sources,
                links: end.links,
            }),
        ),
        Err(FlyHalted { sheet, halted }) => (sheet, Err(halted)),
    };
    assert!(rt; sheet.as_slice() == TWO_PASSES.as_bytes(), "the plan");
    outcome_of(run)
}

// What was forecast comes, and what was printed is lost; a link fails; and there is no link, or no run can carry out the
// steps, so the run does not begin.
static FLIGHTS: [Run; 6] = [
    run! {
        "as forecast", FIRST_RUN, [3, 3, 4] =>
        "step 1 SCI arrived 3 lost 0 dumped 2 held 1\nstep 2 SCI arrived 3 lost 0 dumped 2 held 2\n\
            step 3 SCI arrived 4 lost 2 dumped 0 held 4\ntotal arrived 10 lost 2 dumped 4 held 4\n";
        left!("SCI", [10, 2, 4], [(5, 5), (6, 6), (7, 7), (8, 8)], [1, 2, 3, 4])
    },
    run! {
        "as forecast, with arrivals that are said to come before dumps", SAID_RUN, [3, 3, 4] =>
        "step 1 SCI arrived 3 lost 0 dumped 2 held 1\nstep 2 SCI arrived 3 lost 0 dumped 2 held 2\n\
            step 3 SCI arrived 4 lost 2 dumped 0 held 4\ntotal arrived 10 lost 2 dumped 4 held 4\n";
        left!("SCI", [10, 2, 4], [(5, 5), (6, 6), (7, 7), (8, 8)], [1, 2, 3, 4])
    },
    halted! {
        "the first send fails", FIRST_RUN, [3, 3, 4], until [Some(0)] =>
        Why::LinkFailed(1), spent 1, rest [0, 3, 4], NO_STEP;
        left!("SCI", [3, 0, 0], [(1, 1), (2, 2), (3, 3)], [])
    },
    halted! {
        "a refused flight", FIRST_RUN, [3, 3, 4], until [] => Why::Counts, spent 0, rest [3, 3, 4], NO_STEP;
        left!("SCI", [0, 0, 0], [], [])
    },
    halted! {
        "arrivals during dumps", DURING_RUN, [3, 3, 4], until [] => Why::NotFlyable, spent 0, rest [3, 3, 4], NO_STEP;
        left!("SCI", [0, 0, 0], [], [])
    },
    halted! {
        "sizes by step", SIZED_RUN, [3, 3, 4], until [] => Why::NotFlyable, spent 0, rest [3, 3, 4], NO_STEP;
        left!("SCI", [0, 0, 0], [], [])
    },
];

#[test]
fn flights_have_their_plans_and_end_as_runs(rt: HostRuntime) {
    for run in &FLIGHTS {
        let mut trial = Trial::new(&rt, rt.alloc(), &run.task);
        let ended = flown(&rt, &mut trial, run);
        run.has_ended(&rt, &trial, &ended);
    }
}
