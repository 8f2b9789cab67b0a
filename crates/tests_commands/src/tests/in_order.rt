//! Plans that serve the stores in the setup's order: what `plan` prints of them, and what the other commands say of
//! their texts.

use crate::tests::charting::draws;
use crate::tests::samples::{
    A_AND_B, SCI, SHARED_WINDOW, THREE_STEPS, checks, holds, joined, of_plan, prints, replaced,
    told,
};

// Of the 3 + 2 blocks that come to A it holds 3, and the window of step 1 takes the other two. So it loses none, and B
// loses two.
const BEGINS: &str = "\
mmplan 3
stores A B
dump 1 2 0
dump 2 0 0
loss 2
stretch A 1 2
stretch B 1 2
bound 2
first 1
loss 0
";

// The cut of A is empty.
const ENDS: &str = "bound 0\nend\n";

// The plan of first_run, which has one store.
pub(crate) const FIRST_PLAN_IN_ORDER: &str = "\
mmplan 3
stores SCI
dump 1 2
dump 2 2
dump 3 0
loss 2
stretch SCI 1 3
bound 2
end
";

#[test]
fn a_plan_in_order_has_a_part_for_the_first_store(rt: HostRuntime) {
    let front = "plan --in-order S F\n=== S\n";
    let script = [front, A_AND_B, "=== F\n", SHARED_WINDOW];
    let answer = told(&rt, &script);
    let plan = answer.out.as_str();
    let is_done = answer.status == 0 && answer.err.is_empty();
    let is_planned = plan.starts_with(BEGINS) && plan.ends_with(ENDS);
    holds(&rt, "two stores", &answer, is_done && is_planned);
    let files = [A_AND_B, SHARED_WINDOW, plan];
    checks(&rt, "two stores", files, "least 2 in order\n");
}

// The flag stands anywhere after the command, but before the `--`, after which no word is a flag.
static IN_ORDER: [(&str, &str); 4] = [
    ("plan --in-order -- -S F\n", "=== -S\n"),
    ("plan --in-order S F\n", "=== S\n"),
    ("plan S --in-order F\n", "=== S\n"),
    ("plan S F --in-order\n", "=== S\n"),
];

#[test]
fn a_plan_in_order_of_one_store_has_no_part(rt: HostRuntime) {
    for (words, setup) in &IN_ORDER {
        let script = [*words, *setup, SCI, "=== F\n", THREE_STEPS];
        prints(&rt, words, &script, FIRST_PLAN_IN_ORDER, 0);
    }
}

// What stands in the place of a text, and what `check` says then.
static CHECKED: [(&str, &str, &str); 4] = [
    ("mmplan 3", "mmplan 3", "least 2 in order\n"),
    ("dump 1 2 0", "dump 1 1 1", "first 1 not shown\n"),
    ("loss 2", "loss 3", "loss is 2\n"),
    ("first 1", "first 2", "refused 34 PlanText line 9\n"),
];

#[test]
fn texts_in_order_are_checked(rt: HostRuntime) {
    let text = joined(&rt, &[BEGINS, ENDS]);
    for (old, new, line) in &CHECKED {
        let plan = replaced(&rt, text.as_str(), old, new);
        checks(&rt, new, [A_AND_B, SHARED_WINDOW, plan.as_str()], line);
    }
}

// The window of step 1 can keep A from losing a block. This plan shares it, so A and B lose one each.
#[test]
fn a_plan_out_of_order_is_compared(rt: HostRuntime) {
    let text = joined(&rt, &[BEGINS, ENDS]);
    let plan = replaced(&rt, text.as_str(), "dump 1 2 0", "dump 1 1 1");
    let script = of_plan("check", [A_AND_B, SHARED_WINDOW, plan.as_str()]);
    let answer = told(&rt, &script);
    let notes = "\nnote: blocks lost: 2 by this plan, and no plan that fits loses fewer\n\
        note: by store, and after it by a least plan in order: A 1 0, B 1 2\n";
    holds(&rt, notes, &answer, answer.err.as_str().ends_with(notes));
}

// What a chart says of the loss, and the key of what windows are worth.
const LEAST: &str = ">2 of 10 blocks are lost, and no plan loses fewer";

const KEY: &str = ">saved by a wider window or a higher limit (one scale)</text>";

#[test]
fn a_plan_in_order_is_drawn(rt: HostRuntime) {
    for (command, has_key) in [("chart", false), ("chart --worth", true)] {
        draws(&rt, [command, FIRST_PLAN_IN_ORDER, LEAST, KEY], has_key);
    }
}
