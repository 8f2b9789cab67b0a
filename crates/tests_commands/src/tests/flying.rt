//! What `run` and `fly` print of the worked examples.

use crate::tests::in_order::FIRST_PLAN_IN_ORDER;
use crate::tests::samples::{FIRST_PLAN, Host, SCI, THREE_STEPS, answers, joined, prints};
use mm_commands::run_script;
use std::io::{self, Write};

mod halts;
mod refusals;
mod rests;

// One packet of source 1 before the run, and in each step: telemetry without data, of APID 100, service 3, subtype 25.
const IN_0: &str = "1 0 0864C000000E200319000000000000000000000000\n";

const IN_1: &str = "1 1 0864C000000E200319000000000000000000000000\n";

const IN_2: &str = "1 2 0864C000000E200319000000000000000000000000\n";

const IN_3: &str = "1 3 0864C000000E200319000000000000000000000000\n";

// A run: its files, what it prints, and its status.
#[derive(Clone, Copy)]
struct Run {
    example: &'static str,
    setup: &'static str,
    forecast: &'static str,
    plan: &'static str,
    sources: &'static [&'static str],
    links: &'static str,
    prints: &'static str,
    status: u8,
}

const FIRST_RUN: Run = Run {
    example: "first_run",
    setup: SCI,
    forecast: THREE_STEPS,
    plan: FIRST_PLAN,
    sources: &[IN_1, IN_1, IN_1, IN_2, IN_2, IN_2, IN_3, IN_3, IN_3, IN_3],
    links: "links 1\n",
    prints: "",
    status: 0,
};

// A circular and a bounded store of two blocks, with one report type.
const RING_AND_BLOCKS: &str = "\
    [[store]]\nid = \"C\"\nsize = 2\ntype = \"circular\"\nchannel = 0\n\n\
    [[store]]\nid = \"B\"\nsize = 2\ntype = \"bounded\"\nchannel = 0\n\n\
    [[route]]\napid = 100\nservice = 3\nsubtype = 25\nstore = \"C\"\n\n\
    [[route]]\napid = 100\nservice = 3\nsubtype = 25\nstore = \"B\"\n";

// The store of the first run, which holds two packets as the run begins, and its plan.
const STARTS_WITH_2: &str = "\
    [[store]]\nid = \"SCI\"\nsize = 4\ntype = \"bounded\"\nchannel = 0\nstart = 2\n\n\
    [[route]]\napid = 100\nservice = 3\nsubtype = 25\nstore = \"SCI\"\n";

const PLAN_FROM_2: &str =
    "mmplan 1\nstores SCI\ndump 1 2\ndump 2 2\ndump 3 0\nloss 4\nstretch SCI 1 3\nbound 4\nend\n";

// A bounded store and a circular one of two blocks each, both full as the run begins, each with a report type of its
// own.
const TWO_ARE_FULL: &str = "\
    [[store]]\nid = \"A\"\nsize = 2\ntype = \"bounded\"\nchannel = 0\nstart = 2\n\n\
    [[store]]\nid = \"C\"\nsize = 2\ntype = \"circular\"\nchannel = 0\nstart = 2\n\n\
    [[route]]\napid = 100\nservice = 3\nsubtype = 25\nstore = \"A\"\n\n\
    [[route]]\napid = 101\nservice = 3\nsubtype = 25\nstore = \"C\"\n";

// Two bounded stores of two blocks, with one report type.
const A_AND_B: &str = "\
    [[store]]\nid = \"A\"\nsize = 2\ntype = \"bounded\"\nchannel = 0\n\n\
    [[store]]\nid = \"B\"\nsize = 2\ntype = \"bounded\"\nchannel = 0\n\n\
    [[route]]\napid = 100\nservice = 3\nsubtype = 25\nstore = \"A\"\n\n\
    [[route]]\napid = 100\nservice = 3\nsubtype = 25\nstore = \"B\"\n";

const THREE_OF_TWO: &str = "mmplan 1\nstores A C\ndump 1 2 1\nloss 2\nbound 0\nend\n";

// Lines of two sources: before the run two packets for the bounded store and three for the circular one, in turn, and
// in step 1 one for each.
const TWO_AND_THREE: &str = "\
    2 0 0865C000000E200319000000000000000000000000\n\
    1 0 0864C000000E200319000000000000000000000000\n\
    1 0 0865C000000E200319000000000000000000000000\n\
    2 1 0864C000000E200319000000000000000000000000\n\
    2 0 0864C000000E200319000000000000000000000000\n\
    1 0 0865C000000E200319000000000000000000000000\n\
    1 1 0865C000000E200319000000000000000000000000\n";

const THREE_BLOCKS: &str = "mmplan 1\nstores SCI\ndump 1 3\nloss 0\nbound 0\nend\n";

// What is printed where five packets come in step 3.
const FIVE_CAME: &str = "\
    step 1 SCI arrived 3 lost 0 dumped 2 held 1\n\
    step 2 SCI arrived 3 lost 0 dumped 2 held 2\n\
    step 3 SCI arrived 5 lost 3 dumped 0 held 4\n\
    differs step 3 SCI forecast 4 came 5\n\
    total arrived 11 lost 3 dumped 4 held 4\n";

// What is printed where a send of step 1, or of step 2, fails.
const HALTED_IN_1: &str = "\
    total arrived 0 lost 0 dumped 0 held 0\n\
    halted step 1 46 LinkFailed\n";

const HALTED_IN_2: &str = "\
    step 1 SCI arrived 3 lost 0 dumped 2 held 1\n\
    total arrived 3 lost 0 dumped 2 held 1\n\
    halted step 2 46 LinkFailed\n";

// The first run with five packets in step 3.
const OTHER_ARRIVALS: Run = Run {
    example: "run_with_other_arrivals",
    sources: &[
        IN_1, IN_1, IN_1, IN_2, IN_2, IN_2, IN_3, IN_3, IN_3, IN_3, IN_3,
    ],
    prints: FIVE_CAME,
    ..FIRST_RUN
};

static RUNS: [Run; 8] = based! { Run;
    FIRST_FLIGHT: example "a_plan_in_order_is_run", plan FIRST_PLAN_IN_ORDER;
    OTHER_ARRIVALS: status 0;
    FIRST_RUN: example "fewer_arrivals_than_forecast",
        sources &[IN_1, IN_1, IN_1, IN_3, IN_3, IN_3, IN_3],
        prints "\
            step 1 SCI arrived 3 lost 0 dumped 2 held 1\n\
            step 2 SCI arrived 0 lost 0 dumped 1 held 0\n\
            step 3 SCI arrived 4 lost 0 dumped 0 held 4\n\
            differs step 2 SCI forecast 3 came 0\n\
            total arrived 7 lost 0 dumped 3 held 4\n";
    OTHER_ARRIVALS: example "each_send_fails, there is no fifth", links "links 1\nfail 1 5";
    FIRST_RUN: example "second_send_fails", forecast "step,window,SCI\n1,3,3\n", plan THREE_BLOCKS,
        sources &[IN_1, IN_1, IN_1], links "links 1\nfail 1 2\n", prints HALTED_IN_1, status 1;
    FIRST_RUN: example "two_links_fail", setup A_AND_B, forecast "step,window,A,B\n1,4,2,2\n",
        plan "mmplan 1\nstores A B\ndump 1 2 2\nloss 0\nbound 0\nend\n", sources &[IN_1, IN_1],
        links "links 2\nfail 1 1\nfail 2 1\n", prints HALTED_IN_1, status 1;
    FIRST_RUN: example "ring_and_blocks_lose_alike", setup RING_AND_BLOCKS,
        forecast "step,window,C,B\n1,2,3,3\n",
        plan "mmplan 1\nstores C B\ndump 1 1 1\nloss 2\nbound 0\nend\n",
        sources &[IN_1, IN_1, IN_1],
        prints "\
            step 1 C arrived 3 lost 1 dumped 1 held 1\n\
            step 1 B arrived 3 lost 1 dumped 1 held 1\n\
            total arrived 6 lost 2 dumped 2 held 2\n";
    FIRST_RUN: example "opening_contents_run", setup STARTS_WITH_2, plan PLAN_FROM_2,
        sources &[IN_0, IN_0, IN_1, IN_1, IN_1, IN_2, IN_2, IN_2, IN_3, IN_3, IN_3, IN_3],
        prints "\
            step 1 SCI arrived 3 lost 1 dumped 2 held 2\n\
            step 2 SCI arrived 3 lost 1 dumped 2 held 2\n\
            step 3 SCI arrived 4 lost 2 dumped 0 held 4\n\
            total arrived 10 lost 4 dumped 4 held 4\n";
};

const TELECOMMANDS: Run = Run {
    example: "a_telecommand_is_not_stored",
    forecast: "step,window,SCI\n1,3,0\n",
    plan: THREE_BLOCKS,
    sources: &["1 0 1864C0000004200319FFFF\n2 1 1864C0000004200319FFFF\n"],
    links: "links 4",
    prints: "\
        step 1 SCI arrived 0 lost 0 dumped 0 held 0\n\
        total arrived 0 lost 0 dumped 0 held 0\n",
    ..FIRST_RUN
};

const TELECOMMANDS_NOTED: &str =
    "note: 2 packets of the sources are telecommands, which go to no store\n";

// The script of a run, by these words, with the files of a row and these links.
fn script_by(rt: &impl Host, words: &str, row: &Run, links: &str) -> String {
    let sources = joined(rt, row.sources);
    let script = format!(in rt.alloc();
        "{words}{}=== F\n{}=== P\n{}=== X\n{sources}=== L\n{links}",
        row.setup, row.forecast, row.plan
    );
    script.expect(rt, "memory")
}

// The same by the words of `run` without an option.
fn script_of(rt: &impl Host, row: &Run, links: &str) -> String {
    script_by(rt, "run S F P X L\n=== S\n", row, links)
}

// The script of a flight, by these words, with the files of a row but its plan, and these links.
fn flight_of(rt: &impl Host, words: &str, row: &Run, links: &str) -> String {
    let sources = joined(rt, row.sources);
    let script = format!(in rt.alloc();
        "{words}{}=== F\n{}=== X\n{sources}=== L\n{links}",
        row.setup, row.forecast
    );
    script.expect(rt, "memory")
}

// Stores that are full as the run begins.
const FULL: Run = Run {
    setup: TWO_ARE_FULL,
    forecast: "step,window,A,C\n1,3,1,1\n",
    plan: THREE_OF_TWO,
    prints: "\
        step 1 A arrived 1 lost 1 dumped 2 held 0\n\
        step 1 C arrived 1 lost 1 dumped 1 held 1\n\
        total arrived 2 lost 2 dumped 3 held 1\n",
    ..FIRST_RUN
};

// Before the run two packets for each store and one more for C, or three for each: the third packet for a store is
// lost, of which the report says nothing.
static TOO_MANY: [(&[&str], &str); 2] = [
    (
        &[TWO_AND_THREE],
        "note: 1 packet of step 0 was lost before the run, by full stores; the report counts from step 1\n",
    ),
    (
        &[
            TWO_AND_THREE,
            "1 0 0864C000000E200319000000000000000000000000\n",
        ],
        "note: 2 packets of step 0 were lost before the run, by full stores; the report counts from step 1\n",
    ),
];

#[test]
fn packets_that_are_lost_before_the_run_are_told(rt: HostRuntime) {
    for (sources, noted) in &TOO_MANY {
        let row = Run {
            sources: *sources,
            ..FULL
        };
        let script = script_of(&rt, &row, row.links);
        answers(&rt, &[script.as_str()], row.prints, *noted, 0);
    }
}

// `run` with the files of a row and these links prints this report.
fn runs_over(rt: &impl Host, row: &Run, links: &str, report: &str, status: u8) {
    let script = script_of(rt, row, links);
    prints(rt, row.example, &[script.as_str()], report, status)
}

fn runs(rt: &impl Host, row: &Run) {
    runs_over(rt, row, row.links, row.prints, row.status)
}

#[test]
fn runs_of_the_examples(rt: HostRuntime) {
    for row in &RUNS {
        runs(&rt, row);
    }
}

#[test]
fn telecommands_are_not_stored(rt: HostRuntime) {
    let script = script_of(&rt, &TELECOMMANDS, TELECOMMANDS.links);
    let prints = TELECOMMANDS.prints;
    answers(&rt, &[script.as_str()], prints, TELECOMMANDS_NOTED, 0);
}

// A writer that keeps how many bytes it had when it was flushed for the first time.
#[derive(Drop)]
struct Flushed {
    written: Vec<u8>,
    first: Option<usize>,
}

impl Write for Flushed {
    fn write(&mut self, buf: &[u8]) -> io::Result<usize> {
        self.written.write(buf)
    }

    fn flush(&mut self) -> io::Result<()> {
        self.first = self.first.or(Some(self.written.len()));
        Ok(())
    }
}

// The plan of a flight is handed on whole, and nothing else, before the report is there.
#[test]
fn the_plan_is_handed_on_first(rt: HostRuntime) {
    let script = flight_of(&rt, FLY, &FIRST_RUN, FIRST_RUN.links);
    let (written, mut err) = (Vec::new(rt.alloc()), Vec::new(rt.alloc()));
    let mut out = Flushed {
        written,
        first: None,
    };
    let status = run_script(&rt, rt.alloc(), script.as_bytes(), &mut out, &mut err);
    let is_first = out.first == Some(FIRST_PLAN.len());
    let is_planned = out.written.starts_with(FIRST_PLAN.as_bytes());
    assert!(&rt; status == 0 && is_first && is_planned && out.written.len() > FIRST_PLAN.len());
}

const FLY: &str = "fly S F X L\n=== S\n";

const FLY_IN_ORDER: &str = "fly S F --in-order X L\n=== S\n";

// `fly`, by these words, for the files of a row but its plan, and these links, makes the plan: it is printed before the
// report.
fn flies_over(
    rt: &impl Host,
    words: &'static str,
    row: &Run,
    links: &'static str,
    report: &'static str,
    status: u8,
) {
    let script = flight_of(rt, words, row, links);
    let out = joined(rt, &[row.plan, report]);
    prints(rt, row.example, &[script.as_str()], out.as_str(), status)
}

const FIRST_FLIGHT: Run = Run {
    prints: "\
        step 1 SCI arrived 3 lost 0 dumped 2 held 1\n\
        step 2 SCI arrived 3 lost 0 dumped 2 held 2\n\
        step 3 SCI arrived 4 lost 2 dumped 0 held 4\n\
        total arrived 10 lost 2 dumped 4 held 4\n",
    ..FIRST_RUN
};

static FLIGHTS: [Run; 3] = based! { Run;
    FIRST_FLIGHT: status 0;
    FIRST_FLIGHT: example "first_run, there is no fifth send", links "links 1\nfail 1 5";
    // A run that does not begin has its plan printed, and no report.
    FIRST_RUN: example "first_run without a source", sources &[], prints "refused 44 Counts\n",
        status 1;
};

#[test]
fn fly_first_run(rt: HostRuntime) {
    for row in &FLIGHTS {
        flies_over(&rt, FLY, row, row.links, row.prints, row.status);
    }
}

// A plan in order is printed as `plan --in-order` prints it, and flown as any other.
#[test]
fn a_plan_in_order_is_flown(rt: HostRuntime) {
    let row = Run {
        plan: FIRST_PLAN_IN_ORDER,
        ..FIRST_FLIGHT
    };
    flies_over(&rt, FLY_IN_ORDER, &row, row.links, row.prints, row.status);
}

// A link of which one send fails, and what is printed.
static SENDS: [(&str, &str); 4] = [
    ("links 1\nfail 1 1", HALTED_IN_1),
    ("links 1\nfail 1 2", HALTED_IN_1),
    ("links 1\nfail 1 3", HALTED_IN_2),
    ("links 1\nfail 1 4", HALTED_IN_2),
];

#[test]
fn each_send_fails(rt: HostRuntime) {
    for (links, report) in &SENDS {
        runs_over(&rt, &OTHER_ARRIVALS, links, report, 1);
        flies_over(&rt, FLY, &FIRST_RUN, *links, *report, 1);
    }
}
