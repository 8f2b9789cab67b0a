//! The worked examples: what each plan loses, whether it fits, and what its cut shows.
use crate::tests::samples::{
    A_AND_B, A_LIMITED, APART, CHANNEL_LIMIT_CUT, FIRST_RUN, ONE_STORE_OF_A, Runtime, SCI,
    SCI_OF_SIZE_2, SCI_STARTS_WITH_2, THREE_STEPS, TWO_STEPS_OF_A, holds, problem_of, sheet_of,
};
use mm_cut::{Verdict, bound, first_bad, first_bad_count, verify};
use mm_plan::{Fault, Sheet, fits, loss_of};
use mm_problem::Problem;

// A plan with its cut, and what is expected of them by hand.
struct Row {
    name: &'static str,
    setup: &'static str,
    forecast: &'static str,
    sheet: &'static str,
    misfit: Option<u32>,
    loss: u64,
    bound: Option<i64>,
    verdict: Verdict,
}

// Plans by name: the texts of the setup, of the forecast and of the plan, and what is expected.
macro_rules! rows {
    ($(
        name: $name:literal, $setup:expr, $forecast:expr, $sheet:expr =>
            misfit $misfit:expr, loss $loss:literal, bound $bound:expr, $verdict:ident $found:tt;
    )+) => {
        [$(Row {
            name: $name, setup: $setup, forecast: $forecast, sheet: $sheet,
            misfit: $misfit, loss: $loss, bound: $bound, verdict: Verdict::$verdict $found
        }),+]
    };
}

static ROWS: [Row; 17] = rows! {
    name: "first_run",
    SCI, THREE_STEPS, FIRST_RUN =>
        misfit None, loss 2, bound Some(2), Least(2);
    name: "plan_that_loses_more",
    SCI, THREE_STEPS,
    "mmplan 1\nstores SCI\ndump 1 2\ndump 2 1\ndump 3 0\nloss 3\nstretch SCI 1 3\nbound 2\nend\n" =>
        misfit None, loss 3, bound Some(2), NotShown { loss: 3, bound: 2 };
    name: "plan_that_does_not_fit",
    SCI, THREE_STEPS,
    "mmplan 1\nstores SCI\ndump 1 3\ndump 2 1\ndump 3 0\nloss 2\nstretch SCI 1 3\nbound 2\nend\n" =>
        misfit Some(1), loss 2, bound Some(2), DoesNotFit(1);
    name: "two_stretches_of_one_store",
    SCI_OF_SIZE_2, APART,
    "mmplan 1\nstores SCI\ndump 1 0\ndump 2 2\ndump 3 0\nloss 6\nstretch SCI 1 1\nstretch SCI 3 3\nbound 6\nend\n" =>
        misfit None, loss 6, bound Some(6), Least(6);
    name: "the same in one stretch, whose inner windows take more than it gains",
    SCI_OF_SIZE_2, APART,
    "mmplan 1\nstores SCI\ndump 1 0\ndump 2 2\ndump 3 0\nloss 6\nstretch SCI 1 3\nbound -1\nend\n" =>
        misfit None, loss 6, bound Some(-1), NotShown { loss: 6, bound: -1 };
    name: "amount_above_content",
    SCI_OF_SIZE_2, APART,
    "mmplan 1\nstores SCI\ndump 1 0\ndump 2 9\ndump 3 0\nloss 6\nstretch SCI 1 1\nstretch SCI 3 3\nbound 6\nend\n" =>
        misfit None, loss 6, bound Some(6), Least(6);
    name: "opening_contents_plan, with the loss of first_run",
    SCI_STARTS_WITH_2, THREE_STEPS, FIRST_RUN =>
        misfit None, loss 4, bound Some(4), LossIs(4);
    name: "channel_limit_cut",
    A_LIMITED, TWO_STEPS_OF_A, CHANNEL_LIMIT_CUT =>
        misfit None, loss 2, bound Some(2), Least(2);
    name: "more than the channel's limit, though not more than the window",
    A_LIMITED, TWO_STEPS_OF_A,
    "mmplan 1\nstores A\ndump 1 2\ndump 2 0\nloss 1\nstretch A 1 2\nbound -2\nend\n" =>
        misfit Some(1), loss 1, bound Some(-2), DoesNotFit(1);
    name: "foresight_beats_even_split, with the even split",
    A_AND_B, "step,window,A,B\n1,2,3,3\n2,0,2,0\n",
    "mmplan 1\nstores A B\ndump 1 1 1\ndump 2 0 0\nloss 1\nbound 0\nend\n" =>
        misfit None, loss 1, bound Some(0), NotShown { loss: 1, bound: 0 };
    name: "two_stretches_share_a_window",
    A_AND_B, "step,window,A,B\n1,2,3,3\n2,0,2,2\n",
    "mmplan 1\nstores A B\ndump 1 1 1\ndump 2 0 0\nloss 2\nstretch A 1 2\nstretch B 1 2\nbound 2\nend\n" =>
        misfit None, loss 2, bound Some(2), Least(2);
    name: "two stores of one channel, whose limit counts once",
    "[[store]]\nid = \"A\"\nsize = 3\ntype = \"bounded\"\nchannel = 0\n\n[[store]]\nid = \"B\"\nsize = 3\ntype = \"bounded\"\nchannel = 0\n\n[[limit]]\nchannel = 0\nblocks = 1\n",
    "step,window,A,B\n1,5,3,3\n2,0,2,2\n",
    "mmplan 2\nstores A B\ndump 1 1 0\ndump 2 0 0\nloss 3\nstretch A 1 2\nstretch B 1 2\ncount 1 channels\nbound 3\nend\n" =>
        misfit None, loss 3, bound Some(3), Least(3);
    name: "a count of a step at which the channel has no limit",
    ONE_STORE_OF_A, TWO_STEPS_OF_A, CHANNEL_LIMIT_CUT =>
        misfit None, loss 2, bound None, BadCount(1);
    name: "limits of the steps, of which the first counts",
    ONE_STORE_OF_A, "step,window,A,limit:0\n1,5,3,1\n2,0,3,9\n", CHANNEL_LIMIT_CUT =>
        misfit None, loss 2, bound Some(2), Least(2);
    name: "a limit of the setup below that of the step",
    A_LIMITED, "step,window,A,limit:0\n1,5,3,2\n2,0,3,0\n", CHANNEL_LIMIT_CUT =>
        misfit None, loss 2, bound Some(2), Least(2);
    name: "more than the limit of the second step, though not more than that of the first",
    ONE_STORE_OF_A, "step,window,A,limit:0\n1,5,3,2\n2,5,3,1\n",
    "mmplan 1\nstores A\ndump 1 2\ndump 2 2\nloss 1\nstretch A 1 2\nbound -2\nend\n" =>
        misfit Some(2), loss 1, bound Some(-2), DoesNotFit(2);
    name: "two channels with limits of the steps, one of them the setup's",
    "[[store]]\nid = \"A\"\nsize = 3\ntype = \"bounded\"\nchannel = 0\n[[store]]\nid = \"B\"\nsize = 3\ntype = \"bounded\"\nchannel = 5\n[[limit]]\nchannel = 5\nblocks = 2\n",
    "step,window,A,B,limit:0,limit:5\n1,9,3,3,1,3\n2,0,3,3,7,0\n",
    "mmplan 2\nstores A B\ndump 1 1 2\ndump 2 0 0\nloss 3\nstretch A 1 2\nstretch B 1 2\ncount 1 channels\nbound 3\nend\n" =>
        misfit None, loss 3, bound Some(3), Least(3);
};

// The bound of the cut, if it is a cut of the problem.
fn bound_of(problem: &Problem, sheet: &Sheet) -> Option<i64> {
    let (cut, by_channels) = (sheet.cut(), sheet.by_channels());
    if first_bad(problem, cut).is_some() || first_bad_count(problem, cut, by_channels).is_some() {
        return None;
    }
    Some(bound(problem, cut, by_channels))
}

// The plan fits or not, as expected, and has the expected loss. The sheet has the problem's shape, its cut has the
// expected bound, and the verdict is the expected one.
fn is_found(rt: &impl Runtime, problem: &Problem, sheet: &Sheet, row: &Row) {
    let (plan, cut, counts) = (sheet.plan(), sheet.cut(), sheet.by_channels());
    assert!(rt; plan.has_shape(problem));
    let found = (fits(problem, plan).err(), loss_of(problem, plan));
    holds(rt, found == (row.misfit, row.loss), row.name);
    let found = (sheet.shape(problem).err(), bound_of(problem, sheet));
    holds(rt, found == (None, row.bound), row.name);
    let verdict = verify(problem, plan, cut, counts, sheet.loss(), sheet.bound());
    holds(rt, verdict == row.verdict, row.name);
}

#[test]
fn plans_and_cuts_of_the_worked_examples(rt: HostRuntime) {
    for row in &ROWS {
        let problem = problem_of(&rt, row.setup, row.forecast);
        is_found(&rt, &problem, &sheet_of(&rt, row.sheet), row);
    }
}

// A plan for one store and three steps, beside a problem of two stores.
#[test]
fn a_sheet_for_another_problem_has_another_shape(rt: HostRuntime) {
    let problem = problem_of(&rt, A_AND_B, "step,window,A,B\n1,2,3,3\n");
    let shape = sheet_of(&rt, FIRST_RUN).shape(&problem);
    assert!(rt; shape.err() == Some(Fault::Shape));
}
