//! The planner compared with the slow reference that tries every plan, on tiny problems.
use crate::tests::samples::{Runtime, filled, holds, joined, problem_of};
use mm_cut::{Verdict, verify};
use mm_exhaustive::plan_below;
use mm_plan::{NoMemory, fits, loss_of};
use mm_planner::{Planned, plan, plan_by_flow, plan_bytes};
use mm_problem::Problem;
use mm_propose::propose;

// A problem whose least loss is counted by hand.
struct Counted {
    name: &'static str,
    setup: &'static str,
    forecast: &'static str,
    loss: u64,
}

// Problems by name: each store with its size, its start volume and its channel, each limit with its channel and its
// blocks, the forecast, and the least loss.
macro_rules! counted {
    ($(
        name: $name:literal,
        $(store $id:literal $size:literal $start:literal $channel:literal;)+
        $(limit $limited:literal $blocks:literal;)*
        $forecast:literal => $loss:literal;
    )+) => {
        [$(Counted {
            name: $name,
            setup: concat!(
                $("[[store]]\nid = \"", $id, "\"\nsize = ", $size, "\ntype = \"bounded\"\n",
                "start = ", $start, "\nchannel = ", $channel, "\n",)+
                $("[[limit]]\nchannel = ", $limited, "\nblocks = ", $blocks, "\n",)*
            ),
            forecast: $forecast,
            loss: $loss,
        }),+]
    };
}

mod flows;
mod paths;
pub(crate) mod proposals;
mod sides;

// The loss of a plan, which fits and whose cut shows that no plan loses less.
fn shown_loss(rt: &impl Runtime, problem: &Problem, planned: Result<Planned, NoMemory>) -> u64 {
    let planned = planned.expect(rt, "memory");
    let (plan, shown) = (&planned.plan, &planned.certificate);
    let loss = shown.loss();
    assert!(rt; plan.has_shape(problem) && loss < 1 << 63);
    let verdict = verify(
        problem,
        plan,
        shown.cut(),
        shown.by_channels(),
        loss,
        loss as i64,
    );
    assert!(rt; verdict == Verdict::Least(loss));
    loss
}

// The loss of the proposal with its idle windows filled. Its own cut shows that no plan loses less.
fn proposed_loss(rt: &impl Runtime, problem: &Problem) -> u64 {
    let proposed = propose(rt.alloc(), problem).expect(rt, "memory");
    let plan = filled(rt, problem, &proposed.plan);
    let loss = loss_of(problem, &plan);
    let cut = &proposed.cut;
    let (stretches, counts) = (cut.stretches.as_slice(), cut.by_channels.as_slice());
    let verdict = verify(problem, &plan, stretches, counts, loss, loss as i64);
    holds(rt, verdict == Verdict::Least(loss), "the verdict");
    loss
}

// The loss of a problem, which is the same by the planner, by the network alone, and by the proposal alone.
fn planned_loss(rt: &impl Runtime, problem: &Problem) -> u64 {
    let loss = shown_loss(rt, problem, plan(rt.alloc(), problem));
    let by_flow = shown_loss(rt, problem, plan_by_flow(rt.alloc(), problem));
    let proposed = proposed_loss(rt, problem);
    assert!(rt; (by_flow, proposed) == (loss, loss));
    loss
}

// The loss that each path of the planner finds is the least of all plans.
fn least_loss(rt: &impl Runtime, problem: &Problem) -> u64 {
    let least = planned_loss(rt, problem);
    let less = plan_below(rt.alloc(), problem, least).expect(rt, "memory");
    let more = plan_below(rt.alloc(), problem, least.saturating_add(1)).expect(rt, "memory");
    let found = more.expect(rt, "a plan that loses least");
    assert!(rt; (fits(problem, &found), loss_of(problem, &found)) == (Ok(()), least));
    holds(rt, less.is_none(), "no plan loses less");
    least
}

// The same input planned twice gives the same bytes.
fn is_planned_alike(rt: &impl Runtime, case: &Counted) {
    let (setup, forecast) = (case.setup.as_bytes(), case.forecast.as_bytes());
    let first = plan_bytes(rt.alloc(), setup, forecast).expect(rt, "memory");
    let second = plan_bytes(rt.alloc(), setup, forecast).expect(rt, "memory");
    holds(rt, first == second, case.name);
}

static COUNTED: [Counted; 25] = counted! {
    name: "first_run",
    store "A" 4 0 0; "step,window,A\n1,2,3\n2,2,3\n3,0,4\n" => 2;
    name: "nothing_arrives",
    store "A" 1 0 0; "step,window,A\n1,5,0\n2,5,0\n" => 0;
    name: "more_than_the_store_holds",
    store "A" 4 0 0; "step,window,A\n1,9,9\n" => 5;
    name: "two_stretches_of_one_store",
    store "A" 2 0 0; "step,window,A\n1,0,5\n2,9,0\n3,0,5\n" => 6;
    name: "opening_contents_plan",
    store "A" 4 2 0; "step,window,A\n1,2,3\n2,2,3\n3,0,4\n" => 4;
    name: "channel_limit_cut",
    store "A" 3 0 0; limit 0 1; "step,window,A\n1,5,3\n2,0,3\n" => 2;
    name: "the limits of the steps are those of the setup",
    store "A" 3 0 0; "step,window,A,limit:0\n1,5,3,1\n2,0,3,1\n" => 2;
    name: "the second step has the limit that counts",
    store "A" 3 3 0; "step,window,A,limit:0\n1,3,0,3\n2,3,3,0\n3,0,3,3\n" => 3;
    name: "a limit of the setup below that of the step",
    store "A" 3 0 0; limit 0 1; "step,window,A,limit:0\n1,5,3,2\n2,0,3,0\n" => 2;
    name: "one channel may send in the first step, the other in the second",
    store "A" 2 2 0; store "B" 2 2 1; "step,window,A,B,limit:0,limit:1\n1,2,0,0,2,0\n2,2,1,1,0,2\n3,0,1,2,9,9\n" => 1;
    name: "foresight_beats_even_split",
    store "A" 3 0 0; store "B" 3 0 1; "step,window,A,B\n1,2,3,3\n2,0,2,0\n" => 0;
    name: "two_stretches_share_a_window",
    store "A" 3 0 0; store "B" 3 0 1; "step,window,A,B\n1,2,3,3\n2,0,2,2\n" => 2;
    name: "channel_limit_shares",
    store "A" 3 0 0; store "B" 3 0 1; limit 0 1; "step,window,A,B\n1,2,3,3\n2,0,2,2\n" => 2;
    name: "foresight_behind_a_limit",
    store "A" 3 0 0; store "B" 3 0 1; limit 0 1; "step,window,A,B\n1,2,3,3\n2,0,2,0\n" => 1;
    // The smallest numbers of steps, of windows and of blocks, and stores that are full.
    name: "one_step",
    store "A" 4 0 0; store "B" 1 0 1; limit 0 9; limit 1 9; "step,window,A,B\n1,2,9,1\n" => 5;
    name: "windows_all_0",
    store "A" 3 0 0; store "B" 1 0 1; limit 0 9; limit 1 9; "step,window,A,B\n1,0,1,1\n2,0,1,1\n3,0,1,1\n" => 2;
    name: "limits_all_0",
    store "A" 3 0 0; store "B" 1 0 1; limit 0 0; limit 1 0; "step,window,A,B\n1,2,1,1\n2,2,1,1\n3,2,1,1\n" => 2;
    name: "full_at_the_start",
    store "A" 3 3 0; store "B" 1 1 1; limit 0 9; limit 1 9; "step,window,A,B\n1,1,1,1\n2,1,1,1\n3,1,1,1\n" => 4;
    name: "nothing_arrives_in_two_stores",
    store "A" 3 2 0; store "B" 1 1 1; limit 0 1; limit 1 1; "step,window,A,B\n1,1,0,0\n2,2,0,0\n" => 0;
    // If channels have limits, serving the store that overflows first may lose one block more.
    name: "greed_loses_6",
    store "A" 2 2 0; store "B" 1 1 1; limit 0 1; limit 1 1;
    "step,window,A,B\n1,1,1,2\n2,2,0,0\n3,1,0,2\n4,2,2,2\n5,1,0,0\n" => 5;
    name: "greed_loses_1",
    store "A" 2 1 0; store "B" 2 1 1; limit 0 2; limit 1 1; "step,window,A,B\n1,1,0,0\n2,2,1,1\n3,0,1,2\n" => 0;
    name: "a step in which the store gets full",
    store "A" 4 2 0; "step,window,A\n1,0,2\n" => 0;
    name: "a step with a window",
    store "A" 4 2 0; "step,window,A\n1,3,2\n" => 0;
    name: "a step in which more comes than the store holds",
    store "A" 4 2 0; "step,window,A\n1,9,9\n" => 7;
    name: "a step in which nothing comes",
    store "A" 4 2 0; "step,window,A\n1,0,0\n" => 0;
};

#[test]
fn plans_lose_what_is_counted_by_hand(rt: HostRuntime) {
    for case in &COUNTED {
        let problem = problem_of(&rt, case.setup, case.forecast);
        holds(&rt, least_loss(&rt, &problem) == case.loss, case.name);
        is_planned_alike(&rt, case);
    }
}

// A store A with one block at the start, and an empty store B of size 2: the size of A, and the channel of B.
macro_rules! beside_b {
    ($($size:literal $channel:literal,)+) => {
        [$(concat!(
            "[[store]]\nid = \"A\"\nsize = ", $size, "\ntype = \"bounded\"\nchannel = 0\nstart = 1\n",
            "[[store]]\nid = \"B\"\nsize = 2\ntype = \"bounded\"\nchannel = ", $channel, "\nstart = 0\n",
        )),+]
    };
}

static STORES: [&str; 6] = beside_b! { 1 0, 1 1, 2 0, 2 1, 3 0, 3 1, };

static LIMITS: [&str; 3] = [
    "",
    "[[limit]]\nchannel = 0\nblocks = 0\n",
    "[[limit]]\nchannel = 0\nblocks = 1\n",
];

static FORECASTS: [&str; 5] = [
    "step,window,A,B\n1,2,3,1\n2,1,0,2\n3,2,2,2\n",
    "step,window,A,B\n1,0,2,2\n2,3,1,0\n3,1,3,3\n",
    "step,window,A,B\n1,3,0,4\n2,0,4,0\n3,2,1,1\n",
    "step,window,A,B\n1,1,1,1\n2,1,1,1\n3,1,1,1\n",
    "step,window,A,B\n1,4,5,0\n2,0,0,5\n",
];

// The problems of each of these stores with each of these limits and each of these forecasts.
pub(crate) fn small_problems(rt: &impl Runtime) -> Vec<Problem> {
    let mut problems = Vec::new(rt.alloc());
    for stores in &STORES {
        for limit in &LIMITS {
            let setup = joined(rt, &[stores, limit]);
            for forecast in &FORECASTS {
                let problem = problem_of(rt, setup.as_str(), forecast);
                problems.push(problem).expect(rt, "memory");
            }
        }
    }
    problems
}

#[test]
fn the_planner_loses_no_more_than_the_best_of_all_plans(rt: HostRuntime) {
    for problem in small_problems(&rt).iter() {
        least_loss(&rt, problem);
    }
}
