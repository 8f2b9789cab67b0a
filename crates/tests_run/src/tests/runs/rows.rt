//! Runs that are carried out: their reports, and what they leave in the stores and on the links.

use crate::tests::links::{all_have_sent, has_sent};
use crate::tests::runs::trials::{
    Change, Ended, FIRST_RUN, Left, ONE_STORE, Task, Trial, Why, cause_of, each_took, has_text,
    left, setup, task,
};
use crate::tests::samples::{holds_of, id};
use crate::tests::sources::all_have_left;
use mm_dump::MemoryLink;
use mm_exec::Cause;
use mm_report::{Report, StepCounts};
use std::alloc::Global;
use std::process::Abort;
use std::sync::Wait;
use std::thread::Threads;
use work_parts::Bursts;

// A run of one source, which gives this many packets in the steps 1, 2 and 3, over links of which each fails once,
// after this many sends, or never; why it is halted and what was drawn then, if it is, what the source still gives,
// what is reported, what is left of the stores, and how many sends of each link have failed.
#[derive(Clone, Copy)]
pub(crate) struct Run {
    pub(crate) name: &'static str,
    pub(crate) task: Task,
    pub(crate) many: [u16; 3],
    pub(crate) until: &'static [Option<u64>],
    pub(crate) halted: Option<(Why, u64)>,
    pub(crate) rest: [u32; 3],
    pub(crate) report: &'static str,
    pub(crate) stores: &'static [Left],
    pub(crate) failures: u64,
}

// A run that is carried out over a link of which this many sends have failed before.
macro_rules! run {
    ($name:literal, $task:expr, $many:expr, failed $failures:literal => $report:literal; $($left:expr),*) => {
        Run {
            name: $name, task: $task, many: $many, until: &[None], halted: None, rest: [0, 0, 0], report: $report,
            stores: &[$($left),*], failures: $failures,
        }
    };
    ($name:literal, $task:expr, $many:expr => $($left:tt)*) => { run!($name, $task, $many, failed 0 => $($left)*) };
}

pub(crate) use run;

// A run that is halted, as one send of each link fails, or refused: its links, why, what was drawn, and what the source
// still gives.
macro_rules! halted {
    (
        $name:literal, $task:expr, $many:expr, until $until:expr =>
        $why:expr, spent $spent:literal, rest $rest:expr, $report:expr; $($left:expr),*
    ) => {
        Run {
            name: $name, task: $task, many: $many, until: &$until, halted: Some(($why, $spent)), rest: $rest, report: $report,
            stores: &[$($left),*], failures: 1,
        }
    };
}

pub(crate) use halted;

impl Run {
    // It has ended so, and left this.
    pub(crate) fn has_ended(
        &self,
        rt: &impl Abort,
        trial: &Trial,
        ended: &Ended<Bursts, MemoryLink>,
    ) {
        let name = self.name;
        let halted = match self.halted {
            Some((why, spent)) => Some((cause_of(rt, why), spent)),
            None => None,
        };
        holds_of(rt, ended.halted == halted, name, "the cause and the draws");
        has_text(rt, trial.alloc, name, &ended.report, self.report);
        trial.leaves(rt, name, self.stores);
        all_have_left(rt, &ended.sources, 1, self.rest);
        each_took(
            rt,
            name,
            &ended.links,
            self.until.len(),
            self.stores,
            self.failures,
        );
    }

    // Carries it out over the memory of a trial.
    pub(crate) fn carry_out<R: Threads + Wait + Sync + Abort>(
        &self,
        rt: &R,
        trial: &mut Trial,
    ) -> Ended<Bursts, MemoryLink> {
        let ended = trial.run_of(rt, 1, self.many, self.until, 0);
        self.has_ended(rt, trial, &ended);
        ended
    }

    // Carries it out over an empty memory, and returns its report.
    pub(crate) fn report_of<R: Threads + Wait + Sync + Abort>(
        &self,
        rt: &R,
        alloc: Global,
    ) -> Report {
        let mut trial = Trial::new(rt, alloc, &self.task);
        self.carry_out(rt, &mut trial).report
    }
}

static RUNS: [Run; 3] = [
    // Of three packets a store of two blocks loses one, whatever its kind; which one is its kind's.
    run! {
        "ring and blocks lose alike", task! {
            { store "C", apid 100, size 2, type "circular", channel 0; store "B", apid 100, size 2, type "bounded", channel 0; }
            "step,window,C,B\n1,2,3,3\n" "mmplan 1\nstores C B\ndump 1 1 1\nloss 2\nbound 0\nend\n"
        }, [3, 0, 0] => "step 1 C arrived 3 lost 1 dumped 1 held 1\nstep 1 B arrived 3 lost 1 dumped 1 held 1\n\
            total arrived 6 lost 2 dumped 2 held 2\n";
        left!("C", [3, 1, 1], [(3, 3)], [2]), left!("B", [3, 1, 1], [(2, 2)], [1])
    },
    // Where fewer packets are held than the plan dumps, all of them are dumped.
    run! {
        "fewer arrivals than forecast", FIRST_RUN, [3, 0, 4] =>
        "step 1 SCI arrived 3 lost 0 dumped 2 held 1\nstep 2 SCI arrived 0 lost 0 dumped 1 held 0\n\
            step 3 SCI arrived 4 lost 0 dumped 0 held 4\ndiffers step 2 SCI forecast 3 came 0\n\
            total arrived 7 lost 0 dumped 3 held 4\n";
        left!("SCI", [7, 0, 3], [(4, 4), (5, 5), (6, 6), (7, 7)], [1, 2, 3])
    },
    // Nothing comes and nothing may be sent in step 1, and in step 2 the first packet is stored two ticks after the
    // base.
    run! {
        "a step has its own moment and window",
        Task {
            setup: ONE_STORE,
            forecast: "step,window,SCI\n1,0,0\n2,2,3\n",
            plan: "mmplan 1\nstores SCI\ndump 1 0\ndump 2 2\nloss 0\nbound 0\nend\n",
        }, [0, 3, 0] =>
        "step 1 SCI arrived 0 lost 0 dumped 0 held 0\nstep 2 SCI arrived 3 lost 0 dumped 2 held 1\n\
            total arrived 3 lost 0 dumped 2 held 1\n";
        left!("SCI", [3, 0, 2], [(4, 3)], [1, 2])
    },
];

#[test]
fn runs_that_end_well(rt: HostRuntime) {
    for run in &RUNS {
        run.report_of(&rt, rt.alloc());
    }
}

pub(crate) const MORE_IN_STEP_3: Run = run! {
    "more arrivals than forecast", FIRST_RUN, [3, 3, 5] =>
    "step 1 SCI arrived 3 lost 0 dumped 2 held 1\nstep 2 SCI arrived 3 lost 0 dumped 2 held 2\n\
        step 3 SCI arrived 5 lost 3 dumped 0 held 4\ndiffers step 3 SCI forecast 4 came 5\n\
        total arrived 11 lost 3 dumped 4 held 4\n";
    left!("SCI", [11, 3, 4], [(5, 5), (6, 6), (7, 7), (8, 8)], [1, 2, 3, 4])
};

static LAST_OF_MORE: StepCounts = StepCounts {
    forecast: 4,
    arrived: 5,
    lost: 3,
    dumped: 0,
    held: 4,
};

// The report is of the store SCI and of this many steps, of which the last has this row.
pub(crate) fn has_last_row(rt: &impl Abort, report: &Report, steps: u32, last: &StepCounts) {
    assert!(rt; report.ids() == [id(rt, "SCI")].as_slice(), "the store");
    assert!(rt; steps > 0 && report.steps() == steps, "as many steps");
    assert!(rt; report.row(steps) == [*last].as_slice(), "the last row");
}

// In step 3 five packets come in place of four.
#[test]
fn run_with_other_arrivals(rt: HostRuntime) {
    let report = MORE_IN_STEP_3.report_of(&rt, rt.alloc());
    has_last_row(&rt, &report, 3, &LAST_OF_MORE);
    assert!(rt; report.totals().lost == 3, "three lost");
}

static FROM_TWO_HELD: Run = run! {
    "opening contents", Task {
        setup: setup! { store "SCI", apid 100, size 4, type "bounded", channel 0, start 2; },
        ..FIRST_RUN
    }, [3, 3, 4] =>
    "step 1 SCI arrived 3 lost 1 dumped 2 held 2\nstep 2 SCI arrived 3 lost 1 dumped 2 held 2\n\
        step 3 SCI arrived 4 lost 2 dumped 0 held 4\ntotal arrived 10 lost 4 dumped 4 held 4\n";
    left!("SCI", [12, 4, 4], [(5, 4), (6, 5), (7, 7), (8, 8)], [900, 901, 1, 2])
};

// The store holds two packets before the first step; where they are not yet offered, the run does not begin.
#[test]
fn opening_contents_run(rt: HostRuntime) {
    let mut trial = Trial::new(&rt, rt.alloc(), &FROM_TWO_HELD.task);
    let store = id(&rt, "SCI");
    let early = trial.run_of(&rt, 1, FROM_TWO_HELD.many, &[None], 0);
    let cause = Cause::OpeningDiffers { store };
    assert!(rt; early.halted == Some((cause, 0)), "not yet offered");
    trial.change(&rt, &[Change::Offer(0, 900), Change::Offer(0, 901)]);
    let ended = trial.run(&rt, early.sources, early.links, 0);
    FROM_TWO_HELD.has_ended(&rt, &trial, &ended);
}

// Eight sources of three packets each in step 1, after the latest storage time, at the latest start.
static AT_THE_LATEST_TIMES: &str = "step 1 SCI arrived 24 lost 20 dumped 2 held 2\n\
    step 2 SCI arrived 0 lost 0 dumped 2 held 0\nstep 3 SCI arrived 0 lost 0 dumped 0 held 0\n\
    differs step 1 SCI forecast 3 came 24\ndiffers step 2 SCI forecast 3 came 0\n\
    differs step 3 SCI forecast 4 came 0\ntotal arrived 24 lost 20 dumped 4 held 0\n";

// No store refuses a packet, so the run is not halted by `47 LogMismatch`.
#[test]
fn no_packet_is_refused_at_the_latest_times(rt: HostRuntime) {
    let mut trial = Trial::new(&rt, rt.alloc(), &FIRST_RUN);
    trial.change(
        &rt,
        &[Change::Offer(1 << 63, 900), Change::Delete(u64::MAX, 1)],
    );
    let ended = trial.run_of(&rt, 8, [3, 0, 0], &[None], 1 << 63);
    assert!(&rt; ended.halted.is_none(), "the plan is carried out");
    has_text(
        &rt,
        rt.alloc(),
        "the latest times",
        &ended.report,
        AT_THE_LATEST_TIMES,
    );
    all_have_sent(&rt, "the latest times", &ended.links, 1, 4);
}

// A run begins at its base: the first packet of step 1 is stored one tick later.
#[test]
fn a_run_at_the_latest_start(rt: HostRuntime) {
    let mut trial = Trial::new(&rt, rt.alloc(), &FIRST_RUN);
    let ended = trial.run_of(&rt, 1, [1, 0, 0], &[None], 1 << 63);
    assert!(&rt; ended.halted.is_none(), "the plan is carried out");
    let [link] = ended.links.as_slice() else {
        panic!(&rt; "one link");
    };
    has_sent(&rt, "the latest start", link, 1, 0);
    for taken in link.taken() {
        assert!(&rt; taken.stored.time == (1 << 63) + 1, "its time");
    }
}
