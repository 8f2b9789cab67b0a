//! Runs that are halted in a step, as a link fails.

use crate::tests::runs::rows::{MORE_IN_STEP_3, Run, halted, has_last_row, run};
use crate::tests::runs::trials::{
    Change, FIRST_RUN, Left, NO_STEP, ONE_STORE, Task, Trial, Why, left, setup, task,
};
use mm_report::StepCounts;
use std::alloc::Global;
use std::process::Abort;
use std::sync::Wait;
use std::thread::Threads;

// The first run with other arrivals: the plan sends two packets in step 1 and two in step 2.
const FIRST_SEND_FAILS: Run = halted! {
    "the first send fails", FIRST_RUN, [3, 3, 5], until [Some(0)] =>
    Why::LinkFailed(1), spent 1, rest [0, 3, 5], NO_STEP;
    left!("SCI", [3, 0, 0], [(1, 1), (2, 2), (3, 3)], [])
};

// Packet 1 was sent in step 1, and packet 2 was not.
const SECOND_SEND_FAILS: Run = halted! {
    "the second send of the first run fails", FIRST_RUN, [3, 3, 5], until [Some(1)] =>
    Why::LinkFailed(1), spent 2, rest [0, 3, 5], NO_STEP;
    left!("SCI", [3, 0, 0], [(1, 1), (2, 2), (3, 3)], [1])
};

// After six packets came, of which the first two are sent and deleted.
const THIRD_SEND_FAILS: Run = halted! {
    "the third send fails", FIRST_RUN, [3, 3, 5], until [Some(2)] =>
    Why::LinkFailed(2), spent 1, rest [0, 0, 5],
    "step 1 SCI arrived 3 lost 0 dumped 2 held 1\ntotal arrived 3 lost 0 dumped 2 held 1\n";
    left!("SCI", [6, 0, 2], [(3, 3), (4, 4), (5, 5), (6, 6)], [1, 2])
};

// Packets 1 and 2 were sent and deleted in step 1; packet 3 was sent in step 2, and packet 4 was not.
const FOURTH_SEND_FAILS: Run = halted! {
    "the fourth send fails", FIRST_RUN, [3, 3, 5], until [Some(3)] =>
    Why::LinkFailed(2), spent 2, rest [0, 0, 5],
    "step 1 SCI arrived 3 lost 0 dumped 2 held 1\ntotal arrived 3 lost 0 dumped 2 held 1\n";
    left!("SCI", [6, 0, 2], [(3, 3), (4, 4), (5, 5), (6, 6)], [1, 2, 3])
};

// Each of two links takes one of the two orders, and each fails at its first send.
const TWO_LINKS_FAIL: Run = halted! {
    "two links fail", task! {
        { store "A", apid 100, size 2, type "bounded", channel 0; store "B", apid 100, size 2, type "bounded", channel 0; }
        "step,window,A,B\n1,4,2,2\n" "mmplan 1\nstores A B\ndump 1 2 2\nloss 0\nbound 0\nend\n"
    }, [2, 0, 0], until [Some(0), Some(0)] =>
    Why::LinkFailed(1), spent 2, rest [0, 0, 0], NO_STEP;
    left!("A", [2, 0, 0], [(1, 1), (2, 2)], []), left!("B", [2, 0, 0], [(1, 1), (2, 2)], [])
};

static SECOND_FAILS: Run = halted! {
    "the second send fails", Task {
        setup: ONE_STORE,
        forecast: "step,window,SCI\n1,3,3\n",
        plan: "mmplan 1\nstores SCI\ndump 1 3\nloss 0\nbound 0\nend\n",
    }, [3, 0, 0], until [Some(1)] =>
    Why::LinkFailed(1), spent 2, rest [0, 0, 0], NO_STEP;
    left!("SCI", [3, 0, 0], [(1, 1), (2, 2), (3, 3)], [1])
};

// In the one step three packets come, and all are to be dumped. The first packet is sent, the second is not; all three
// stay in the store.
#[test]
fn second_send_fails(rt: HostRuntime) {
    let mut trial = Trial::new(&rt, rt.alloc(), &SECOND_FAILS.task);
    SECOND_FAILS.carry_out(&rt, &mut trial);
    trial.change(&rt, &[Change::Delete(3, 3)]);
    trial.leaves(&rt, "after a deletion", &[left!("SCI", [3, 0, 3], [], [])]);
}

static ROW_OF_STEP_1: StepCounts = StepCounts {
    forecast: 3,
    arrived: 3,
    lost: 0,
    dumped: 2,
    held: 1,
};

// Where a send fails in step 2, the row of step 1 is there. No send of the first run is the fifth.
#[test]
fn each_send_fails(rt: HostRuntime) {
    for run in [TWO_LINKS_FAIL, FIRST_SEND_FAILS, SECOND_SEND_FAILS] {
        run.report_of(&rt, rt.alloc());
    }
    for run in [THIRD_SEND_FAILS, FOURTH_SEND_FAILS] {
        let report = run.report_of(&rt, rt.alloc());
        has_last_row(&rt, &report, 1, &ROW_OF_STEP_1);
    }
    let no_fifth = Run {
        until: &[Some(4)],
        ..MORE_IN_STEP_3
    };
    no_fifth.report_of(&rt, rt.alloc());
}

// The plan of what a halted run of the first run's store left: the start volume, the forecast and the orders.
macro_rules! of_the_rest {
    (start $start:literal, $forecast:literal, $orders:literal) => {
        Task {
            setup: setup! { store "SCI", apid 100, size 4, type "bounded", channel 0, start $start; },
            forecast: concat!("step,window,SCI\n", $forecast),
            plan: concat!("mmplan 1\nstores SCI\n", $orders, "bound 0\nend\n"),
        }
    };
}

// Runs over what a halted run left, at a later moment: the store with what it holds, the source with what it still
// gives, and the link, which has failed once. The store is on, no retrieval is, and a packet that was sent before the
// send that failed goes out again.
const AFTER_STEP_1: Run = run! {
    "after a halt in step 1",
    of_the_rest!(start 3, "1,2,0\n2,2,3\n3,0,5\n", "dump 1 2\ndump 2 2\ndump 3 0\nloss 3\n"), [0, 3, 5], failed 1 =>
    "step 1 SCI arrived 0 lost 0 dumped 2 held 1\nstep 2 SCI arrived 3 lost 0 dumped 2 held 2\n\
        step 3 SCI arrived 5 lost 3 dumped 0 held 4\ntotal arrived 8 lost 3 dumped 4 held 4\n";
    left!("SCI", [11, 3, 4], [(13, 5), (14, 6), (15, 7), (16, 8)], [1, 1, 2, 3, 4])
};

const AFTER_STEP_2: Run = run! {
    "after a halt in step 2",
    of_the_rest!(start 4, "1,2,0\n2,2,0\n3,0,5\n", "dump 1 2\ndump 2 2\ndump 3 0\nloss 1\n"), [0, 0, 5], failed 1 =>
    "step 1 SCI arrived 0 lost 0 dumped 2 held 2\nstep 2 SCI arrived 0 lost 0 dumped 2 held 0\n\
        step 3 SCI arrived 5 lost 1 dumped 0 held 4\ntotal arrived 5 lost 1 dumped 4 held 4\n";
    left!("SCI", [11, 1, 6], [(13, 7), (14, 8), (15, 9), (16, 10)], [1, 2, 3, 3, 4, 5, 6])
};

// Halts the first run, and carries out the second over what it left.
fn goes_on<R: Threads + Wait + Sync + Abort>(rt: &R, alloc: Global, first: &Run, second: &Run) {
    let mut trial = Trial::new(rt, alloc, &first.task);
    let halted = first.carry_out(rt, &mut trial);
    let mut next = Trial::new(rt, alloc, &second.task);
    next.memory = trial.memory;
    let ended = next.run(rt, halted.sources, halted.links, 10);
    second.has_ended(rt, &next, &ended);
}

#[test]
fn a_run_goes_on_after_a_halt(rt: HostRuntime) {
    goes_on(&rt, rt.alloc(), &SECOND_SEND_FAILS, &AFTER_STEP_1);
    goes_on(&rt, rt.alloc(), &FOURTH_SEND_FAILS, &AFTER_STEP_2);
}
