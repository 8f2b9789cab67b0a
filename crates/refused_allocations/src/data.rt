//! A problem from data, its rest after a step, and a source from after that step on.
use crate::met::Met;
use crate::records::PACKETS;
use mm_base::{Kind, StoreId, StoreRow};
use mm_problem::{Fault, Problem};
use mm_record::later_sources;
use mm_run::SourceFile;
use std::alloc::Global;

// A problem of one store and two steps, with limits of its channel in them.
fn new_problem(alloc: Global) -> Result<Problem, Fault> {
    let row = StoreRow {
        id: StoreId::of_text(b"SCI").ok().ok_or(Fault::Header)?,
        size: 4,
        start: 1,
        kind: Kind::Bounded,
        channel: 0,
    };
    let problem = Problem::new(alloc, &[row], &[], &[2, 1], &[3, 4])?;
    problem.with_step_limits(alloc, &[0], &[2, 1])
}

/// What came of a problem from data.
pub(crate) fn new(alloc: Global) -> Met {
    match new_problem(alloc) {
        Ok(problem) => {
            let size = (problem.stores(), problem.steps());
            Met::Whole.provided(size == (1, 2), "another problem")
        }
        Err(Fault::NoMemory) => Met::Wanted,
        Err(_) => Met::Wrong("another fault"),
    }
}

// What came of the rest of this problem after its first step.
fn rest_of(alloc: Global, problem: &Problem) -> Met {
    if (problem.stores(), problem.steps()) != (1, 2) {
        return Met::Wrong("another problem");
    }
    match problem.rest(alloc, 1, &[3]) {
        Ok(rest) => Met::Whole.provided(
            rest.steps() == 1 && rest.stores() == 1 && rest.start(0) == 3,
            "another rest",
        ),
        Err(Fault::NoMemory) => Met::Wanted,
        Err(_) => Met::Wrong("another fault"),
    }
}

/// What came of the rest of a problem after its first step; nothing where there was no memory for the problem.
pub(crate) fn rest(alloc: Global) -> Option<Met> {
    let problem = new_problem(alloc).ok()?;
    Some(rest_of(alloc, &problem))
}

/// What came of two sources from after a step on; nothing where there was no memory for them.
pub(crate) fn later(alloc: Global) -> Option<Met> {
    let SourceFile { sources, .. } = SourceFile::read(alloc, PACKETS.as_bytes()).ok()?;
    Some(match later_sources(alloc, sources, 7) {
        Ok(later) => Met::Whole.provided(later.len() == 2, "another number of sources"),
        Err((back, _)) => Met::Wanted.provided(back.len() == 2, "a source not handed back"),
    })
}
