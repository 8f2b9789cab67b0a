//! Charts with the worths of windows, limits and sizes, with wide limits, and with the losses of many stores.
use crate::tests::charts::samples::{has_lines, has_texts, text_of};
use crate::tests::charts::sizes::WIDE;
use crate::tests::samples::{A_LIMITED, ONE_STORE_OF_A, Runtime, TWO_STEPS_OF_A};
use crate::tests::worths::{EIGHT_STEPS, LIMITS_BY_STEP, ONE_STORE, THREE_STORES};
use mm_planner::{plan_bytes, plan_in_order_bytes};
use mm_sensitivity::worth_chart_bytes;

// The chart of the least plan with the worths of its windows, limits and sizes.
fn worth_chart_of(rt: &impl Runtime, setup: &str, forecast: &str) -> String {
    let (setup_text, forecast) = (setup.as_bytes(), forecast.as_bytes());
    let plan = plan_bytes(rt.alloc(), setup_text, forecast).expect(rt, "a plan");
    let chart = worth_chart_bytes(rt.alloc(), setup_text, forecast, &plan);
    text_of(rt, chart, setup)
}

// Of the table of `worths`: one block more in step 1 saves one, a higher limit of the setup none. No window saves one.
// A larger store saves 4. The bar stands on the row of the channel, which begins at 174 - 18, and is 8 high; the row of
// the store begins at 222 - 32.
static ONE_STEP_WORTH: [&str; 6] = [
    "<path class='q' d='M180 156V148H276V156V156'/>",
    "<text class='s' x='172' y='155'>saves up to 1</text>",
    "<text class='w' x='16' y='538'>In no step: no wider window saves a block by itself.</text>",
    "<text class='s' x='172' y='189'>saves up to 4</text>",
    " y='558'>What one larger store saves at most stands above its name: nothing where it saves none.<",
    " y='578'>What one higher limit saves at most, for all steps or for one, stands above its channel's row: nothing \
    where it saves none.<",
];

// The limit of 1 lets 1 of 3 blocks leave before 3 more come to a store of 3. A higher one lets all of them leave: 2
// more. The bar is that of one limit, in both steps.
static SETUP_WORTH: [&str; 2] = [
    "<path class='q' d='M180 156V148H276H372V156'/>",
    "<text class='s' x='172' y='155'>saves up to 2</text>",
];

#[test]
fn limits_are_worth_what_the_table_says(rt: HostRuntime) {
    let chart = worth_chart_of(&rt, ONE_STORE, LIMITS_BY_STEP);
    has_texts(&rt, chart.as_str(), &ONE_STEP_WORTH);
    let chart = worth_chart_of(&rt, A_LIMITED, TWO_STEPS_OF_A);
    has_lines(&rt, chart.as_str(), &SETUP_WORTH);
}

const SIZE_2: &str = "[[store]]\nid = \"A\"\nsize = 2\ntype = \"bounded\"\nchannel = 0\n";

// In each odd step 2 blocks fill the store, and no window is open. So the 2 of the even step are lost, and its window
// empties the store.
const SEVEN_TIMES: &str =
    "step,window,A\n1,0,2\n2,2,2\n3,0,2\n4,2,2\n5,0,2\n6,2,2\n7,0,2\n8,2,2\n9,0,2\n10,2,2\n11,0,2\n12,2,2\n13,0,2\n\
    14,2,2\n";

// A window of 2 in an odd step saves the 2 of the next: these are seven ranges of one step each.
static SEVEN_RANGES: [&str; 3] = [
    "<text class='h' x='16' y='30'>14 of 28 blocks are lost, and no plan loses fewer</text>",
    "<text class='s' x='172' y='111'>saves up to 2</text>",
    "<text class='w' x='16' y='508'>In the 7 steps that have a bar above the windows (at most 2), and in no \
    other.</text>",
];

#[test]
fn the_most_is_told_of_many_ranges(rt: HostRuntime) {
    let chart = worth_chart_of(&rt, SIZE_2, SEVEN_TIMES);
    has_lines(&rt, chart.as_str(), &SEVEN_RANGES);
}

const LIMIT_AND_WINDOW: &str =
    "[[store]]\nid = \"A\"\nsize = 3\ntype = \"bounded\"\nchannel = 0\n[[store]]\nid = \"B\"\nsize = 4\ntype = \
    \"bounded\"\nchannel = 1\n[[limit]]\nchannel = 0\nblocks = 1\n";

const THREE_AND_FOUR: &str = "step,window,A,B\n1,5,3,0\n2,0,3,0\n3,0,0,4\n4,0,0,4\n";

// The limit of 1 lets 1 of the first 3 blocks leave A, so that 2 of the next 3 are lost; a higher one saves both. No
// block leaves B before the second 4 come; a window of step 3 saves up to 4. In one scale of 8 for 4 blocks these are 4
// and 8. The bar of the windows stands on 144 - 32, that of the channel on 174 - 18. Larger stores save the same: 2 and
// 4, above rows that begin at 222 - 32 and 270 - 32.
static ONE_SCALE: [&str; 8] = [
    "<text class='h' x='16' y='30'>6 of 14 blocks are lost, and no plan loses fewer</text>",
    "<path class='q' d='M372 112V104H468V112V112'/>",
    "<text class='s' x='172' y='111'>saves up to 4</text>",
    "<path class='q' d='M180 156V152H276H372H468H564V156'/>",
    "<text class='s' x='172' y='155'>saves up to 2</text>",
    "<text class='s' x='172' y='189'>saves up to 2</text>",
    "<text class='s' x='172' y='237'>saves up to 4</text>",
    "<rect class='q' x='730' y='62' width='12' height='12'/><text class='t' x='746' y='72'>saved by a wider window or \
    a higher limit (one scale)</text>",
];

#[test]
fn windows_and_limits_have_one_scale(rt: HostRuntime) {
    let chart = worth_chart_of(&rt, LIMIT_AND_WINDOW, THREE_AND_FOUR);
    has_lines(&rt, chart.as_str(), &ONE_SCALE);
}

// Where no larger window, limit or store saves a block by itself, no row says that one saves up to 0, and no key says
// what its colour means. A store of the largest size is full from the start, and loses the block of step 1 whatever can
// leave after that.
#[test]
fn what_saves_nothing_has_no_words_in_the_rows(rt: HostRuntime) {
    let setup =
        "[[store]]\nid = \"A\"\nsize = 1000000\nstart = 1000000\ntype = \"bounded\"\nchannel = 0\n[[limit]]\nchannel = \
        0\nblocks = 1\n";
    let chart = worth_chart_of(&rt, setup, "step,window,A\n1,1,1\n");
    let headline =
        "<text class='h' x='16' y='30'>1 of 1,000,001 blocks are lost, and no plan loses fewer</text>";
    has_lines(&rt, chart.as_str(), &[headline]);
    has_texts(
        &rt,
        chart.as_str(),
        &["no wider window saves a block by itself"],
    );
    let says = chart.contains("saves up to")
        || chart.contains("saved by")
        || chart.contains("class='q'");
    assert!(rt; !says);
}

// The sizes of the table of `worths`: a larger CAM saves 3, a larger SPEC 2, a larger HK none. Their rows begin at
// 160, 208 and 256.
static SIZE_WORTHS: [&str; 3] = [
    "<text class='s' x='172' y='159'>saves up to 3</text>",
    "<text class='s' x='172' y='207'>saves up to 2</text>",
    "<text class='w' x='16' y='624'>What one larger store saves at most stands above its name: nothing where it saves \
    none.</text>",
];

#[test]
fn sizes_are_worth_what_the_table_says(rt: HostRuntime) {
    let chart = worth_chart_of(&rt, THREE_STORES, EIGHT_STEPS);
    has_lines(&rt, chart.as_str(), &SIZE_WORTHS);
    assert!(rt; !chart.contains("y='255'>saves"), "a larger HK saves none");
}

const WIDE_LIMITS: &str = "step,window,A,limit:0\n1,5,3,1000000\n2,0,3,12345\n";

// At most 27 characters of 12 units stand left of the row, for which there are 172 units.
#[test]
fn limits_of_seven_digits_have_room(rt: HostRuntime) {
    let chart = worth_chart_of(&rt, ONE_STORE_OF_A, WIDE_LIMITS);
    let label = "<text class='s' x='172' y='169'>channel 0: up to 1,000,000</text>";
    has_lines(&rt, chart.as_str(), &[label]);
}

const TWO_COME: &str =
    "step,window,WIDE-_1,WIDE-_2,WIDE-_3,WIDE-_4,WIDE-_5,WIDE-_6,WIDE-_7,WIDE-_8,\
    WIDE-_9,WIDE-_10,WIDE-_11,WIDE-_12,WIDE-_13,WIDE-_14,WIDE-_15,WIDE-_16\n\
    1,0,2,2,2,2,2,2,2,2,2,2,2,2,2,2,2,2\n";

// Each store is full, and loses the 2 blocks that come. Below 16 stores and 8 limits the words begin at 1,188. The
// names take lines 11 and 12, and line 13 is empty.
static FOUR_LINES: [&str; 6] = [
    "<text class='b' x='16' y='1468'>In the setup's order: what each store and those before it lose. No plan loses \
    fewer of them.</text>",
    "<text class='w' x='16' y='1488'>Up to each store: WIDE-_1 (2) WIDE-_2 (4) WIDE-_3 (6) WIDE-_4 (8)</text>",
    "<text class='w' x='32' y='1508'> WIDE-_5 (10) WIDE-_6 (12) WIDE-_7 (14) WIDE-_8 (16)</text>",
    "<text class='w' x='32' y='1528'> WIDE-_9 (18) WIDE-_10 (20) WIDE-_11 (22) WIDE-_12 (24)</text>",
    "<text class='w' x='32' y='1548'> WIDE-_13 (26) WIDE-_14 (28) WIDE-_15 (30) WIDE-_16 (32)</text>",
    "viewBox='0 0 1100 1588'",
];

#[test]
fn four_stores_stand_on_a_line_with_what_they_lose(rt: HostRuntime) {
    let (setup, forecast) = (WIDE.as_bytes(), TWO_COME.as_bytes());
    let plan = plan_in_order_bytes(rt.alloc(), setup, forecast).expect(&rt, "a plan");
    let chart = mm_chart::chart_bytes(rt.alloc(), setup, forecast, &plan);
    let chart = text_of(&rt, chart, WIDE);
    has_texts(&rt, chart.as_str(), &FOUR_LINES);
}
