//! The keys of a chart: those of what is there.
use crate::tests::charts::samples::{ONE_STORE, chart_of};
use crate::tests::charts::sizes::{ONE_STEP, TOO_LATE};
use crate::tests::charts::{
    MORE_IN_A, NOTHING_LEAVES, ONE_COMES, OVER_THE_LIMIT, THREE_SIZES, TWO_OF_SIZE_1,
};
use crate::tests::samples::{
    A_LIMITED, CHANNEL_LIMIT_CUT, FIRST_RUN, Runtime, SCI, THREE_STEPS, TWO_STEPS_OF_A, holds,
};

// All keys, in the order of their places.
const KEYS: [&str; 9] = [
    "<rect class='f' x='16' y='44' width='12' height='12'/><text class='t' x='32' y='54'>stays in the store</text>",
    "<rect class='g' x='170' y='44' width='12' height='12'/><text class='t' x='186' y='54'>leaves in this step</text>",
    "<rect class='p' x='330' y='44' width='12' height='12'/><text class='t' x='346' y='54'>window</text>",
    "<rect class='u' x='420' y='44' width='12' height='12'/><text class='t' x='436' y='54'>used</text>",
    "<rect class='l' x='510' y='44' width='12' height='12'/><text class='t' x='526' y='54'>lost in this step (one \
    scale for all stores)</text>",
    "<rect class='c' x='16' y='62' width='12' height='12'/><text class='t' x='32' y='72'>counts in the cut</text>",
    "<rect class='e' x='170' y='62' width='12' height='12'/><text class='t' x='186' y='72'>last step of a stretch: the \
    size of the store counts</text>",
    "<rect class='v' x='510' y='62' width='12' height='12'/><text class='t' x='526' y='72'>sent on a channel with a \
    limit</text>",
    "<rect class='q' x='730' y='62' width='12' height='12'/><text class='t' x='746' y='72'>saved by a wider window or \
    a higher limit (one scale)</text>",
];

// Texts of a setup, a forecast and a plan, and for each key, whether the chart has it.
static CASES: [(&str, &str, &str, [bool; 9]); 5] = [
    // Blocks stay, leave and are lost by windows; the stretch has inner steps and a last one; no channel has a limit.
    (
        SCI,
        THREE_STEPS,
        FIRST_RUN,
        [true, true, true, true, true, true, true, false, false],
    ),
    // The same with a limit.
    (
        A_LIMITED,
        TWO_STEPS_OF_A,
        CHANNEL_LIMIT_CUT,
        [true, true, true, true, true, true, true, true, false],
    ),
    // Nothing is lost, and the plan does not fit, so that it has no cut.
    (
        THREE_SIZES,
        ONE_COMES,
        OVER_THE_LIMIT,
        [true, true, true, true, false, false, false, true, false],
    ),
    // No window is open, and the text has no stretch.
    (
        TWO_OF_SIZE_1,
        MORE_IN_A,
        NOTHING_LEAVES,
        [true, false, false, false, true, false, false, false, false],
    ),
    // Nothing stays, and the stretch is a step alone.
    (
        ONE_STORE,
        ONE_STEP,
        TOO_LATE,
        [false, true, true, true, true, false, true, false, false],
    ),
];

#[test]
fn a_chart_has_the_keys_of_what_is_there(rt: HostRuntime) {
    for (setup, forecast, plan, wanted) in &CASES {
        let chart = chart_of(&rt, setup, forecast, plan);
        for (key, is_there) in KEYS.iter().zip(wanted) {
            let has = chart.lines().any(|line| line == *key);
            holds(&rt, has == *is_there, key);
        }
    }
}
