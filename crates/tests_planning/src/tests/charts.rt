//! Lines of charts that are worked out by hand: outlines, headlines and words; and the refusals.
use crate::tests::samples::{
    A_LIMITED, CHANNEL_LIMIT_CUT, FIRST_RUN, ONE_STORE_OF_A, Runtime, SCI, THREE_STEPS,
    TWO_STEPS_OF_A, holds,
};
use mm_chart::{chart_bytes, table_bytes};
use samples::{chart_of, has_lines, has_texts, is_fault};

mod by_step;
mod keys;
mod numbers;
mod pictures;
mod samples;
mod sizes;
mod tables;
mod worths;

const LEAST: &str = "no plan loses fewer<";

const HELP: &str = "What may help";

// One store of size 4 gets 3, 3 and 4 blocks, and sends 2 and 2: 3 and 4 stand in it, then 6 come to stand, of which 2
// are lost. In a scale of 32 for 4 blocks that is 24, 32 and 32; 8, 16 and 32 are left.
pub(crate) static SHOWN: [&str; 15] = [
    "<text class='h' x='16' y='30'>2 of 10 blocks are lost, and no plan loses fewer</text>",
    "<path class='c' d='M180 148V108H276H372V148V148'/>",
    "<path class='p' d='M180 144V112H276H372V144V144'/>",
    "<path class='u' d='M180 144V112H276H372V144V144'/>",
    "<path class='c' d='M180 196V156H276H372V196V196'/>",
    "<path class='e' d='M372 196V156H468V196'/>",
    "<path class='g' d='M180 192V168H276V160H372H468V192'/>",
    "<path class='f' d='M180 192V184H276V176H372V160H468V192'/>",
    "<path class='l' d='M372 160V150H468V160'/>",
    "<text class='s' x='172' y='188'>4, channel 0</text>",
    "<text class='r' x='476' y='174'>2 lost</text>",
    "<text class='w' x='16' y='328'>10 &#8722; 4 &#8722; 4 &#8722; 0 = 2: at least that many blocks are lost, \
    whatever is dumped.</text>",
    "<text class='w' x='16' y='388'>In steps 1&#8211;2, and only there, a wider window.</text>",
    "<text class='w' x='16' y='408'>No higher limit, and no other channel for a store.</text>",
    "<text class='w' x='16' y='448'>Larger stores, and only these: SCI</text>",
];

// 3 and 3 blocks arrive in a store of 3, and 1 can leave through its channel in a step: 2 are lost.
static BY_CHANNELS: [&str; 7] = [
    "<path class='c' d='M180 178V152H276V178V178'/>",
    "<path class='v' d='M180 174V156H276V174V174'/>",
    "<text class='s' x='172' y='169'>channel 0: 1 a step</text>",
    "<text class='w' x='16' y='318'>No open window counts.</text>",
    "<text class='w' x='16' y='338'>In step 1, at most 1 leave by the limits of the channels.</text>",
    "<text class='w' x='16' y='358'>6 &#8722; 3 &#8722; 0 &#8722; 1 = 2: at least that many blocks are lost, \
    whatever is dumped.</text>",
    "<text class='w' x='16' y='418'>No wider window.</text>",
];

const LIMITED_STEPS_OF_A: &str = "step,window,A,limit:0\n1,5,3,1\n2,0,3,2\n";

// The same with a limit for each step, which is twice as high in the next step: 1 of 2 in a height of 18 is 9.
static BY_LIMITS_OF_STEPS: [&str; 4] = [
    "<path class='c' d='M180 178V152H276V178V178'/>",
    "<path class='v' d='M180 174V165H276V174V174'/>",
    "<text class='s' x='172' y='169'>channel 0: up to 2</text>",
    "<text class='w' x='16' y='338'>In step 1, at most 1 leave by the limits of the channels.</text>",
];

pub(crate) const THREE_SIZES: &str =
    "[[store]]\nid = \"A\"\nsize = 3\ntype = \"bounded\"\nchannel = 0\n[[store]]\nid = \"B\"\nsize = 1000000\ntype = \
    \"bounded\"\nchannel = 0\n[[store]]\nid = \"C\"\nsize = 4\ntype = \"bounded\"\nchannel = 1\n[[limit]]\nchannel = \
    1\nblocks = 2\n";

pub(crate) const ONE_COMES: &str = "step,window,A,B,C\n1,3,1,1,3\n2,0,0,0,0\n3,0,0,0,4\n";

// In step 1 more blocks leave C than the limit of its channel.
pub(crate) const OVER_THE_LIMIT: &str =
    "mmplan 1\nstores A B C\ndump 1 0 0 3\ndump 2 0 0 0\ndump 3 0 0 0\nloss 0\nbound 0\nend\n";

// Amounts in a height of 32 and one in a height of 18: 3 of a limit of 2 are 18; 1 of 3 is 11, since 32 / 3 is rounded
// up; 1 of 1,000,000 is 1; 3 of 4 are 24, none is nothing, and 4 of 4 are 32.
static SCALED: [&str; 4] = [
    "<path class='v' d='M180 174V156H276V174V174'/>",
    "<path class='g' d='M180 222V211H276H372H468V222'/>",
    "<path class='g' d='M180 270V269H276H372H468V270'/>",
    "<path class='g' d='M180 318V294H276V318M372 318V286H468V318'/>",
];

pub(crate) const TWO_OF_SIZE_1: &str =
    "[[store]]\nid = \"A\"\nsize = 1\ntype = \"bounded\"\nchannel = 0\n[[store]]\nid = \"B\"\nsize = 1\ntype = \
    \"bounded\"\nchannel = 0\n";

pub(crate) const MORE_IN_A: &str = "step,window,A,B\n1,0,11,6\n2,0,1,0\n";

pub(crate) const NOTHING_LEAVES: &str =
    "mmplan 1\nstores A B\ndump 1 0 0\ndump 2 0 0\nloss 16\nbound 0\nend\n";

// A loses 10 and then 1, B loses 5. In one scale of 10 for 10 blocks that is 10, 1 and 5.
static ONE_SCALE: [&str; 4] = [
    "<path class='l' d='M180 160V150H276V159H372V160'/>",
    "<text class='r' x='380' y='174'>11 lost</text>",
    "<path class='l' d='M180 208V203H276V208V208'/>",
    "<text class='r' x='380' y='222'>5 lost</text>",
];

// The chart of a setup, a forecast and a plan has these lines.
fn is_charted(rt: &impl Runtime, texts: (&str, &str, &str), lines: &[&str]) {
    let (setup, forecast, plan) = texts;
    let chart = chart_of(rt, setup, forecast, plan);
    has_lines(rt, chart.as_str(), lines);
}

#[test]
fn charts_have_these_lines(rt: HostRuntime) {
    is_charted(&rt, (SCI, THREE_STEPS, FIRST_RUN), &SHOWN);
    let limited = (A_LIMITED, TWO_STEPS_OF_A, CHANNEL_LIMIT_CUT);
    is_charted(&rt, limited, &BY_CHANNELS);
    let by_step = (ONE_STORE_OF_A, LIMITED_STEPS_OF_A, CHANNEL_LIMIT_CUT);
    is_charted(&rt, by_step, &BY_LIMITS_OF_STEPS);
    is_charted(&rt, (THREE_SIZES, ONE_COMES, OVER_THE_LIMIT), &SCALED);
    let two = (TWO_OF_SIZE_1, MORE_IN_A, NOTHING_LEAVES);
    is_charted(&rt, two, &ONE_SCALE);
}

// Plans that differ from the best one in a line or two, and their headlines.
static FORGED: [(&str, &str); 6] = wanted! {
    "mmplan 1\nstores SCI\ndump 1 2\ndump 2 2\ndump 3 0\nloss 1\nstretch SCI 1 3\nbound 2\nend\n"
    => "<text class='a' x='16' y='30'>The plan loses 2 of 10 blocks; its text says 1</text>";
    "mmplan 1\nstores SCI\ndump 1 2\ndump 2 2\ndump 3 0\nloss 2\nstretch SCI 1 3\nbound 1\nend\n"
    => "<text class='a' x='16' y='30'>bound is 2";
    "mmplan 1\nstores SCI\ndump 1 2\ndump 2 2\ndump 3 0\nloss 2\nstretch SCI 1 4\nbound 2\nend\n"
    => "<text class='a' x='16' y='30'>bad stretch 1";
    "mmplan 2\nstores SCI\ndump 1 2\ndump 2 2\ndump 3 0\nloss 2\nstretch SCI 1 3\ncount 3 channels\nbound 2\nend\n"
    => "<text class='a' x='16' y='30'>bad count 1";
    "mmplan 1\nstores SCI\ndump 1 3\ndump 2 1\ndump 3 0\nloss 2\nstretch SCI 1 3\nbound 2\nend\n"
    => "<text class='a' x='16' y='30'>does not fit, step 1";
    "mmplan 1\nstores SCI\ndump 1 2\ndump 2 1\ndump 3 0\nloss 3\nstretch SCI 1 3\nbound 2\nend\n"
    => "<text class='m' x='16' y='30'>3 of 10 blocks are lost; this cut shows only that no plan loses fewer than \
    2</text>";
};

// The styles of these headlines, in red.
static RED: [&str; 2] = [
    ".m{font-size:15px;font-weight:bold;fill:#c4161c}",
    ".a{font-size:20px;font-weight:bold;fill:#c4161c}",
];

// The chart of the plan has this headline. It says neither that no plan loses less nor what may help.
fn is_told(rt: &impl Runtime, plan: &str, headline: &str) {
    let chart = chart_of(rt, SCI, THREE_STEPS, plan);
    has_lines(rt, chart.as_str(), &[headline]);
    has_texts(rt, chart.as_str(), &RED);
    let says_more = chart.contains(LEAST) || chart.contains(HELP);
    holds(rt, !says_more, plan);
}

#[test]
fn a_forged_text_has_the_headline_of_its_verdict(rt: HostRuntime) {
    for (plan, headline) in &FORGED {
        is_told(&rt, plan, headline);
    }
}

// Texts of a setup, a forecast and a plan, and the fault that is reported.
static FAULTY: [(&str, &str, &str, &str); 4] = [
    ("store = 1", "", "", "28 SetupField row 0 name store"),
    (SCI, "step,window,HK\n1,2,3\n", "", "30 Header"),
    (SCI, THREE_STEPS, "mmplan 4\n", "34 PlanText line 1"),
    (A_LIMITED, TWO_STEPS_OF_A, FIRST_RUN, "35 Shape"),
];

// A table has the first fault of a chart.
#[test]
fn the_first_fault_is_told_and_nothing_is_drawn(rt: HostRuntime) {
    for (setup, forecast, plan, wanted) in &FAULTY {
        let (setup, forecast, plan) = (setup.as_bytes(), forecast.as_bytes(), plan.as_bytes());
        is_fault(&rt, chart_bytes(rt.alloc(), setup, forecast, plan), wanted);
        is_fault(&rt, table_bytes(rt.alloc(), setup, forecast, plan), wanted);
    }
}
