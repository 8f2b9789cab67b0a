//! Charts of the most stores and steps, and of one store and one step.
use crate::tests::charts::samples::{ONE_STORE, chart_of, has_lines, has_texts};
use crate::tests::samples::{MILLIONS, Runtime, alike_steps, numbered, stores_of_size_1};

// 16 stores of size 1, which are full at the start, on 8 channels with limits.
pub(crate) const WIDE: &str = stores_of_size_1! {
    "WIDE-_", "type = \"circular\"\nstart = 1\n":
        1 1, 2 2, 3 3, 4 4, 5 5, 6 6, 7 7, 8 0, 9 1, 10 2, 11 3, 12 4, 13 5, 14 6, 15 7, 16 0;
        limits of 1000000: 0 1 2 3 4 5 6 7
};

// 256 steps without a window, in each of which a million blocks come to each store.
pub(crate) fn most_steps(rt: &impl Runtime) -> String {
    let header =
        "step,window,WIDE-_1,WIDE-_2,WIDE-_3,WIDE-_4,WIDE-_5,WIDE-_6,WIDE-_7,WIDE-_8,WIDE-_9,WIDE-_10,WIDE-_11,WIDE-_12,WIDE-_13,WIDE-_14,WIDE-_15,WIDE-_16\n";
    alike_steps(rt, header, 256, MILLIONS)
}

const NOTHING: &str = " 0 0 0 0 0 0 0 0 0 0 0 0 0 0 0 0\n";

// Nothing leaves, and each step of each store is a stretch.
pub(crate) fn most_lost(rt: &impl Runtime) -> String {
    let stores =
        "mmplan 1\nstores WIDE-_1 WIDE-_2 WIDE-_3 WIDE-_4 WIDE-_5 WIDE-_6 WIDE-_7 WIDE-_8 WIDE-_9 WIDE-_10 WIDE-_11 WIDE-_12 WIDE-_13 WIDE-_14 WIDE-_15 WIDE-_16\n";
    let dumps = numbered(rt, "dump ", 256, NOTHING);
    let stretches = numbered(rt, "stretch WIDE-_", 16, " 1 256\n");
    let text = format!(in rt.alloc();
        "{stores}{dumps}loss 4096000000\n{stretches}bound 4096000000\nend\n"
    );
    text.expect(rt, "memory")
}

static LARGE: [&str; 10] = [
    "<svg xmlns='http://www.w3.org/2000/svg' version='1.1' viewBox='0 0 1100 1468'",
    "<text class='h' x='16' y='30'>4,096,000,000 of 4,096,000,016 blocks are lost, and no plan loses fewer</text>",
    "<text class='s' x='172' y='379'>channel 7: 1,000,000 a step</text>",
    "<text class='n' x='172' y='1134'>WIDE-_16</text>",
    "<path class='l' d='M180 1120V1110H183H186",
    "<text class='k' x='898' y='96'>240</text>",
    "<text class='w' x='16' y='1288'>4,096,000,016 &#8722; 16 &#8722; 0 &#8722; 0 = 4,096,000,000: at least that many blocks are lost, whatever is dumped.</text>",
    "<text class='w' x='16' y='1348'>In steps 1&#8211;255, and only there, a wider window.</text>",
    "<text class='w' x='16' y='1408'>Larger stores, and only these: WIDE-_1 WIDE-_2 WIDE-_3 WIDE-_4 WIDE-_5 WIDE-_6 WIDE-_7 WIDE-_8</text>",
    "<text class='w' x='32' y='1428'> WIDE-_9 WIDE-_10 WIDE-_11 WIDE-_12 WIDE-_13 WIDE-_14 WIDE-_15 WIDE-_16</text>",
];

// 16 stores, each of which gets 256 million blocks and keeps the one that it began with: 4,096 million of 16 more
// are lost. A step is 768 / 256 = 3 wide.
#[test]
fn sixteen_stores_and_256_steps_are_drawn(rt: HostRuntime) {
    let (forecast, plan) = (most_steps(&rt), most_lost(&rt));
    let chart = chart_of(&rt, WIDE, forecast.as_str(), plan.as_str());
    has_texts(&rt, chart.as_str(), &LARGE);
}

pub(crate) const ONE_STEP: &str = "step,window,A\n1,1,3\n";

pub(crate) const TOO_LATE: &str =
    "mmplan 1\nstores A\ndump 1 1\nloss 2\nstretch A 1 1\nbound 2\nend\n";

static SMALL: [&str; 7] = [
    "<text class='h' x='16' y='30'>2 of 3 blocks are lost, and no plan loses fewer</text>",
    "<path class='g' d='M180 192V160H276V192'/>",
    "<path class='e' d='M180 196V156H276V196'/>",
    "<path class='l' d='M180 160V150H276V160'/>",
    "<path class='u' d='M180 144V112H276V144'/>",
    "<text class='t' x='284' y='126'>1 sent</text>",
    "<text class='w' x='16' y='328'>3 &#8722; 1 &#8722; 0 &#8722; 0 = 2: at least that many blocks are lost, whatever is dumped.</text>",
];

// One store, one step: 3 blocks come to a store of 1, and 2 are lost. The window lets 1 of it leave, which is too late.
// Nothing is left in the store.
#[test]
fn one_store_and_one_step_are_drawn(rt: HostRuntime) {
    let chart = chart_of(&rt, ONE_STORE, ONE_STEP, TOO_LATE);
    has_lines(&rt, chart.as_str(), &SMALL);
    assert!(rt; !chart.contains("class='f' d"), "nothing is left");
}
