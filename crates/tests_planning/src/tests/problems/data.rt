//! Problems from data: each is the problem of the texts with the same data, or is refused with the expected fault.
use super::is_shown;
use crate::tests::samples::{Runtime, limited, made, problem_of, row};
use mm_problem::{Fault, LimitRow, Problem, Setup};

const SETUP: &str = "[[store]]\nid = \"SCI\"\nsize = 4\ntype = \"bounded\"\nchannel = 0\n\
    [[store]]\nid = \"HK\"\nsize = 9\ntype = \"circular\"\nchannel = 3\nstart = 2\n\
    [[limit]]\nchannel = 3\nblocks = 5\n";

const FORECAST: &str = "step,window,SCI,HK\n1,7,3,1\n2,0,0,8\n3,1000000,5,6\n";

static WINDOWS: [u32; 3] = [7, 0, 1_000_000];

static ARRIVALS: [u32; 6] = [3, 1, 0, 8, 5, 6];

// A problem as a test sees it.
fn seen(rt: &impl Runtime, problem: &Problem) -> String {
    format!(in rt.alloc(); "{problem:?}").expect(rt, "memory")
}

// The problem is that of these texts.
fn is_said(rt: &impl Runtime, problem: &Problem, setup: &str, forecast: &str) {
    let said = problem_of(rt, setup, forecast);
    let wanted = seen(rt, &said);
    assert!(rt; seen(rt, problem).as_str() == wanted.as_str());
}

// The problem of the stores and limits of a setup, and of the steps as data.
fn from_data(rt: &impl Runtime) -> Problem {
    let setup = Setup::read(rt.alloc(), SETUP.as_bytes()).expect(rt, "a setup");
    made(rt, setup.stores(), setup.limits(), &WINDOWS, &ARRIVALS)
}

#[test]
fn data_are_the_problem_of_their_texts(rt: HostRuntime) {
    let problem = from_data(&rt);
    is_said(&rt, &problem, SETUP, FORECAST);
}

// A second store after a correct one: its identifier, size, start volume and channel, and the fault.
static STORES_REFUSED: [(&str, u32, u32, u8, &str); 6] = [
    ("HK", 0, 0, 0, "33 Limit name size"),
    ("HK", 1_000_001, 0, 0, "33 Limit name size"),
    ("HK", 4, 0, 8, "33 Limit name channel"),
    ("HK", 4, 5, 0, "33 Limit name start"),
    ("HK", 4, 5, 8, "33 Limit name channel"),
    ("SCI", 4, 0, 0, "28 SetupField row 2 name repeated"),
];

#[test]
fn stores_as_data_refused(rt: HostRuntime) {
    for (text, size, start, channel, fault) in &STORES_REFUSED {
        let second = row(&rt, text, *size, *start, *channel);
        let rows = [row(&rt, "SCI", 4, 4, 7), second];
        let problem = Problem::new(rt.alloc(), &rows, &[], &[1], &[1, 1_000_001]);
        is_shown(&rt, problem.err(), fault);
    }
}

const LIMIT: LimitRow = LimitRow {
    channel: 0,
    blocks: 1,
};

// The numbers of stores and of limits, and the fault if there are no steps.
static COUNTS_REFUSED: [(usize, usize, &str); 4] = [
    (0, 0, "33 Limit name stores"),
    (17, 0, "33 Limit name stores"),
    (1, 9, "33 Limit name limits"),
    (1, 0, "33 Limit name steps"),
];

#[test]
fn counts_of_data_refused(rt: HostRuntime) {
    let stores = [row(&rt, "SCI", 4, 4, 7); 17];
    for (store_count, limit_count, fault) in &COUNTS_REFUSED {
        let rows = stores.get(..*store_count).expect(&rt, "stores");
        let limits = [LIMIT; 9].get(..*limit_count).expect(&rt, "limits");
        let problem = Problem::new(rt.alloc(), rows, limits, &[], &[]);
        is_shown(&rt, problem.err(), fault);
    }
}

// Limits, each as a channel and its blocks, by the fault with which they are refused.
macro_rules! limits {
    ($($fault:literal: $($channel:literal $blocks:literal),+;)+) => {
        [$(([$(LimitRow { channel: $channel, blocks: $blocks }),+], $fault)),+]
    };
}

static LIMITS_REFUSED: [([LimitRow; 2], &str); 3] = limits! {
    "33 Limit name channel": 0 1, 8 1;
    "33 Limit name blocks": 0 1, 1 1_000_001;
    "28 SetupField row 2 name repeated": 3 1, 3 2;
};

#[test]
fn limits_as_data_refused(rt: HostRuntime) {
    let rows = [row(&rt, "SCI", 4, 4, 7)];
    for (limits, fault) in &LIMITS_REFUSED {
        let problem = Problem::new(rt.alloc(), &rows, limits, &[1], &[1]);
        is_shown(&rt, problem.err(), fault);
    }
}

static STEPS_REFUSED: [(&[u32], &[u32], &str); 7] = wanted! {
    &[1, 1], &[1, 1, 1] => "29 ForecastText";
    &[1, 1], &[1, 1, 1, 1, 1] => "29 ForecastText";
    &[], &[1, 1] => "29 ForecastText";
    &[1, 1_000_001], &[1, 1, 1, 1] => "33 Limit name window";
    &[1, 1], &[1, 1, 1, 1_000_001] => "33 Limit name arrivals";
    &[1, 1_000_001], &[1, 1_000_001, 1, 1] => "33 Limit name arrivals";
    &[1; 257], &[1; 514] => "33 Limit name steps";
};

#[test]
fn steps_as_data_refused(rt: HostRuntime) {
    let rows = [row(&rt, "SCI", 4, 4, 7), row(&rt, "HK", 4, 4, 7)];
    for (windows, arrivals, fault) in &STEPS_REFUSED {
        let problem = Problem::new(rt.alloc(), &rows, &[], windows, arrivals);
        is_shown(&rt, problem.err(), fault);
    }
}

// The problem of the steps after the first, with these start volumes of the two stores.
fn rest_of(rt: &impl Runtime, problem: &Problem, starts: [u32; 2]) -> Result<Problem, Fault> {
    assert!(rt; 1 < problem.steps() && problem.stores() == 2);
    problem.rest(rt.alloc(), 1, &starts)
}

// The setup and the forecast of the later steps, with start volumes of 4 and 0 blocks.
const LATER_SETUP: &str =
    "[[store]]\nid = \"SCI\"\nsize = 4\ntype = \"bounded\"\nchannel = 0\nstart = 4\n\
    [[store]]\nid = \"HK\"\nsize = 9\ntype = \"circular\"\nchannel = 3\nstart = 0\n\
    [[limit]]\nchannel = 3\nblocks = 5\n";

const LATER: &str = "step,window,SCI,HK\n1,0,0,8\n2,1000000,5,6\n";

const LIMITED: &str =
    "step,window,SCI,HK,limit:3,limit:6\n1,7,3,1,5,0\n2,0,0,8,9,1000000\n3,1000000,5,6,2,4\n";

static STEP_LIMITS: [u32; 6] = [5, 0, 9, 1_000_000, 2, 4];

#[test]
fn limits_of_steps_are_those_of_the_text(rt: HostRuntime) {
    let by_step = limited(&rt, &from_data(&rt), &[3, 6], &STEP_LIMITS);
    is_said(&rt, &by_step, SETUP, LIMITED);
    is_said(&rt, &limited(&rt, &by_step, &[], &[]), SETUP, FORECAST);
}

const LATER_LIMITED: &str =
    "step,window,SCI,HK,limit:3,limit:6\n1,0,0,8,9,1000000\n2,1000000,5,6,2,4\n";

// Forecasts without and with limits for each step, and the forecasts of the steps after the first.
static RESTS: [(&str, &str); 2] = [(FORECAST, LATER), (LIMITED, LATER_LIMITED)];

#[test]
fn the_rest_is_the_problem_of_the_later_steps(rt: HostRuntime) {
    for (forecast, later) in &RESTS {
        let problem = problem_of(&rt, SETUP, forecast);
        let rest = rest_of(&rt, &problem, [4, 0]).expect(&rt, "a problem");
        is_said(&rt, &rest, LATER_SETUP, later);
        let fault = rest_of(&rt, &problem, [5, 0]).err();
        is_shown(&rt, fault, "33 Limit name start");
    }
}

// Channels and limits of three steps, and the fault.
static STEP_LIMITS_REFUSED: [(&[u8], &[u32], &str); 8] = [
    (&[8], &[1, 1, 1], "30 Header"),
    (&[3, 3], &[1; 6], "30 Header"),
    (&[3, 0], &[1; 6], "30 Header"),
    (&[0, 1, 2, 3, 4, 5, 6, 7, 8], &[1; 27], "30 Header"),
    (&[3], &[1, 1], "29 ForecastText"),
    (&[3], &[1, 1, 1, 1], "29 ForecastText"),
    (&[], &[1], "29 ForecastText"),
    (&[3], &[1, 1_000_001, 1], "33 Limit name limit"),
];

#[test]
fn limits_of_steps_as_data_refused(rt: HostRuntime) {
    let problem = from_data(&rt);
    for (channels, limits, fault) in &STEP_LIMITS_REFUSED {
        let limited = problem.with_step_limits(rt.alloc(), channels, limits);
        is_shown(&rt, limited.err(), fault);
    }
}
