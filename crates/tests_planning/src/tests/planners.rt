//! The sheet of a problem that is worked by hand.
use crate::tests::samples::{APART, Runtime, SCI_OF_SIZE_2, id, problem_of};
use mm_cut::{Verdict, verify};
use mm_plan::Sheet;
use mm_planner::sheet;
use mm_problem::Problem;

// The sheet has one store, a cut of two stretches without counted steps, and a loss of 6 that the cut shows.
fn loses_6(rt: &impl Runtime, problem: &Problem, sheet: &Sheet) {
    assert!(rt; sheet.stores() == [id(rt, "SCI")].as_slice());
    let (plan, cut, counts) = (sheet.plan(), sheet.cut(), sheet.by_channels());
    assert!(rt; (sheet.loss(), sheet.bound(), cut.len(), counts.len()) == (6, 6, 2, 0));
    assert!(rt; plan.has_shape(problem));
    let verdict = verify(problem, plan, cut, counts, 6, 6);
    assert!(rt; verdict == Verdict::Least(6));
}

#[test]
fn a_sheet_has_the_stores_the_plan_and_the_cut(rt: HostRuntime) {
    let problem = problem_of(&rt, SCI_OF_SIZE_2, APART);
    let sheet = sheet(rt.alloc(), &problem).expect(&rt, "memory");
    loses_6(&rt, &problem, &sheet);
}
