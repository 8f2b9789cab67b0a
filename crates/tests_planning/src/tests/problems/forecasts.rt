//! Texts of forecasts, each with its contents or its expected fault.
use super::is_shown;
use crate::tests::samples::{Runtime, SCI, holds, id, joined, numbered, problem_of, repeated};
use mm_problem::{Problem, Setup};

const SECOND: &str =
    "[[store]]\nid = \"HK\"\nsize = 2\ntype = \"circular\"\nchannel = 3\nstart = 1\n";

// The text of a forecast for one store has this fault, or is `read`.
fn answered(rt: &impl Runtime, text: &[u8], wanted: &str) {
    let setup = Setup::read(rt.alloc(), SCI.as_bytes()).expect(rt, "a setup");
    let fault = Problem::read(rt.alloc(), &setup, text).err();
    is_shown(rt, fault, wanted);
}

// These records after a correct header, in two parts, have this fault, or are `read`.
fn rows_answered(rt: &impl Runtime, rows: &str, after: &str, wanted: &str) {
    let text = joined(rt, &["step,window,SCI\n", rows, after]);
    answered(rt, text.as_bytes(), wanted)
}

// Records after a correct header, by their faults.
static RECORDS_REFUSED: [(&str, &str); 27] = refused! {
    "29 ForecastText": "1,2", "1,2,3,4\n", "x,2,3,4\n", "1,2,3\n2,2\n";
    "31 Cell row 1 column 1": "x,2,3\n", "01,2,3\n", ",2,3\n";
    "32 StepNumber row 1": "2,2,3", "0,2,3\n", "18446744073709551616,2,3\n", "2,x,x\n";
    "31 Cell row 1 column 2": "1,2.5,3\n", "1,+2,3\n", "1, 2,3\n", "1,x,1000001\n";
    "33 Limit name window": "1,1000001,x\n";
    "31 Cell row 1 column 3":
        "1,2,01", "1,2,-1", "1,2,", "1,2,00\n", "1,2,0x1\n", "1,2,\u{663}\n";
    "33 Limit name arrivals": "1,2,1000001", "1,2,3\n2,2,1000001\n3,2\n";
    "32 StepNumber row 2": "1,2,3\n1,2,3\n", "1,2,3\n3,x,3\n";
    "33 Limit name steps": "";
};

#[test]
fn records_refused(rt: HostRuntime) {
    for (rows, fault) in &RECORDS_REFUSED {
        rows_answered(&rt, rows, "", fault);
    }
    answered(
        &rt,
        b"step,window,SCI\n1,2,\xff\n",
        "31 Cell row 1 column 3",
    );
}

static HEADERS_REFUSED: [(&str, &str); 20] = refused! {
    "30 Header": "", "\n\r\n", "1,2,3\n", "step,window\n", "step,window,SCI,HK\n", "step, window,SCI\n",
        "Step,window,SCI\n", "step,window,sci\n", "step,window,HK\n1,2,3", "step,window,limit:0,SCI\n",
        "step,window,SCI,limit\n", "step,window,SCI,limit:\n", "step,window,SCI,limit:8\n", "step,window,SCI,limit:01\n",
        "step,window,SCI,limit: 1\n", "step,window,SCI,Limit:1\n", "step,window,SCI,limit:1,limit:1\n",
        "step,window,SCI,limit:1,limit:0\n", "step,window,SCI,limit:0,HK\n",
        "step,window,SCI,limit:0,limit:1,limit:2,limit:3,limit:4,limit:5,limit:6,limit:7,limit:8\n";
};

#[test]
fn headers_refused(rt: HostRuntime) {
    for (text, fault) in &HEADERS_REFUSED {
        answered(&rt, text.as_bytes(), fault);
    }
}

// What stands before a cell, its digit, what follows it, and the fault.
static LONG_CELLS: [(&str, &str, &str, &str); 4] = [
    ("1,2,", "9", "", "33 Limit name arrivals"),
    ("1,2,", "0", "", "31 Cell row 1 column 3"),
    ("1,", "1", ",3", "33 Limit name window"),
    ("", "1", ",2,3", "32 StepNumber row 1"),
];

#[test]
fn cells_of_a_thousand_digits(rt: HostRuntime) {
    for (before, digit, after, fault) in &LONG_CELLS {
        let row = repeated(&rt, before, digit, 1000, after);
        rows_answered(&rt, row.as_str(), "", fault);
    }
}

// What follows 256 correct records, and the result.
static AFTER_256_STEPS: [(&str, &str); 4] = [
    ("", "read"),
    ("257,2,3\n", "33 Limit name steps"),
    ("x,x,x\n", "33 Limit name steps"),
    ("257,2\n", "29 ForecastText"),
];

#[test]
fn at_most_256_steps(rt: HostRuntime) {
    let full = numbered(&rt, "", 256, ",2,3\n");
    for (after, answer) in &AFTER_256_STEPS {
        rows_answered(&rt, full.as_str(), after, answer);
    }
}

// With line ends of both kinds, quotes, and an empty line.
const TWO_STEPS: &str = "step,\"window\",SCI,HK\r\n1,2,\"1\"0,1000000\r\n\n\"2\",0,5,6";

// The problem of two stores, one limit and these two steps.
fn problem_of_two(rt: &impl Runtime, forecast: &str) -> Problem {
    let limit = "[[limit]]\nchannel = 3\nblocks = 9\n";
    let setup = joined(rt, &[SCI, SECOND, limit]);
    problem_of(rt, setup.as_str(), forecast)
}

// The store at this place has this identifier, and this size, start volume and channel.
fn is_store(
    rt: &impl Runtime,
    problem: &Problem,
    place: usize,
    text: &str,
    wanted: (u32, u32, u8),
) {
    let store = id(rt, text);
    holds(rt, problem.place(&store) == Some(place), text);
    assert!(rt; place < problem.stores() && problem.id(place) == store);
    let (size, start) = (problem.setup_size(place), problem.start(place));
    holds(rt, (size, start, problem.channel(place)) == wanted, text);
}

// It has two stores and two steps, and no store of another name.
fn has_extent(rt: &impl Runtime, problem: &Problem) {
    let extent = (problem.stores(), problem.steps(), problem.channels());
    assert!(rt; extent == (2, 2, 8), "its extent");
    assert!(rt; problem.place(&id(rt, "NONE")) == None, "no such store");
}

// A step has this window and these arrivals of the two stores.
fn comes(rt: &impl Runtime, problem: &Problem, step: u32, wanted: [u32; 3]) {
    assert!(rt; problem.stores() == 2 && 0 < step && step <= problem.steps());
    let (first, second) = (problem.arrivals(0, step), problem.arrivals(1, step));
    let found = [problem.window(step), first, second];
    holds(rt, found == wanted, "the step");
}

// Channels in this step have these limits; the last is no channel.
fn has_limits(rt: &impl Runtime, problem: &Problem, step: u32, wanted: &[(u8, Option<u32>)]) {
    assert!(rt; 0 < step && step <= problem.steps());
    for (channel, limit) in wanted {
        let found = problem.limit(*channel, step);
        holds(rt, found == *limit, "the limit of a channel");
    }
}

#[test]
fn a_forecast_is_read(rt: HostRuntime) {
    let problem = problem_of_two(&rt, TWO_STEPS);
    is_store(&rt, &problem, 0, "SCI", (4, 0, 0));
    is_store(&rt, &problem, 1, "HK", (2, 1, 3));
    has_limits(&rt, &problem, 1, &[(0, None), (3, Some(9)), (200, None)]);
    comes(&rt, &problem, 1, [2, 10, 1_000_000]);
    comes(&rt, &problem, 2, [0, 5, 6]);
    has_extent(&rt, &problem);
}

// Records after a header with columns of limits, by their results.
static LIMITED_RECORDS: [(&str, &str); 9] = refused! {
    "read": "1,2,3,0,1000000\n";
    "29 ForecastText": "1,2,3\n", "1,2,3,4\n", "1,2,3,4,5,6\n";
    "31 Cell row 1 column 4": "1,2,3,x,5\n";
    "31 Cell row 1 column 5": "1,2,3,4,05\n";
    "33 Limit name limit": "1,2,3,1000001,x\n";
    "33 Limit name arrivals": "1,2,1000001,x,5\n";
    "31 Cell row 2 column 5": "1,2,3,4,5\n2,2,3,4,\n";
};

#[test]
fn records_with_limits(rt: HostRuntime) {
    for (rows, wanted) in &LIMITED_RECORDS {
        let text = joined(&rt, &["step,window,SCI,limit:0,limit:7\n", rows]);
        answered(&rt, text.as_bytes(), wanted);
    }
}

const LIMITED_STEPS: &str = "step,window,SCI,HK,limit:0,limit:3\n1,2,1,1,5,7\n2,0,5,6,0,12\n";

// The limits are: that of the step, the lesser of it and the setup's 9, and none.
#[test]
fn limits_of_steps_are_read(rt: HostRuntime) {
    let problem = problem_of_two(&rt, LIMITED_STEPS);
    has_limits(&rt, &problem, 1, &[(0, Some(5)), (3, Some(7)), (1, None)]);
    let second = [
        (0, Some(0)),
        (3, Some(9)),
        (1, None),
        (7, None),
        (200, None),
    ];
    has_limits(&rt, &problem, 2, &second);
    assert!(rt; problem.limited() == [0, 3].as_slice());
    comes(&rt, &problem, 2, [0, 5, 6]);
}
