//! What `sensitivity` prints.

use crate::tests::samples::{A_WITH_LIMIT_1, SCI, THREE_STEPS, TWO_STEPS_OF_A, prints};

// The store takes 4 of the 10 blocks that come, and the windows of steps 1 and 2 take 4: 2 are lost. A window of step 1
// that is larger takes the third block of its step, and no more are there. One of step 2 takes all that stands there.
const FIRST_WORTHS: &str = "\
item,name,step,now,next,most,without
window,,1,2,1,1,2
window,,2,2,1,2,2
window,,3,0,0,0,0
size,SCI,,4,1,2,5
";

// The store takes 3 of 6 blocks, and the limit lets 1 leave before the second 3 come: 2 are lost.
const WORTHS_WITH_A_LIMIT: &str = "\
item,name,step,now,next,most,without
window,,1,5,0,0,1
window,,2,0,0,0,0
size,A,,3,1,2,2
limit,0,,1,1,2,1
";

#[test]
fn each_number_is_worth_what_is_counted_by_hand(rt: HostRuntime) {
    for (setup, forecast, table) in [
        (SCI, THREE_STEPS, FIRST_WORTHS),
        (A_WITH_LIMIT_1, TWO_STEPS_OF_A, WORTHS_WITH_A_LIMIT),
    ] {
        let script = ["sensitivity", " S F\n=== S\n", setup, "=== F\n", forecast];
        prints(&rt, table, &script, table, 0);
    }
}
