//! Plans that serve the stores in the setup's order: a problem that is worked by hand, and the checker's verdicts on
//! changed texts.
ghost use Rattle.mm_plan.specs.Table.{HasShape};

use crate::tests::samples::{
    A_LIMITED_AND_B, FIRST_RUN, Runtime, SCI, THREE_STEPS, holds, problem_of,
};
use mm_cut::{Verdict, check_bytes};
use mm_plan::{Plan, first_loss};
use mm_planner::{plan_in_order, plan_in_order_bytes, print_plan_in_order};
use mm_problem::Problem;

mod sheets;
mod twins;

const THREE_STORES: &str =
    "[[store]]\nid = \"HK\"\nsize = 6\ntype = \"bounded\"\nchannel = 0\n[[store]]\nid = \"SCI\"\nsize = 8\ntype = \"bounded\"\nchannel = 0\n[[store]]\nid = \"CAM\"\nsize = 10\ntype = \"bounded\"\nchannel = 1\n";

const EIGHT_STEPS: &str =
    "step,window,HK,SCI,CAM\n1,0,2,2,0\n2,0,2,2,6\n3,0,2,2,0\n4,10,2,2,0\n5,0,2,2,0\n6,0,2,2,6\n7,10,2,2,0\n8,0,2,2,6\n";

const THREE: (&str, &str) = (THREE_STORES, EIGHT_STEPS);

// Of the 4 * 2 blocks that come to HK in steps 1 to 4 it holds 6, and no window is open before step 4: 2 are lost. It
// loses no more only where step 4 empties it. Then 4 blocks of SCI leave in step 4. Of the 7 * 2 + 7 * 2 blocks that
// come to both in steps 1 to 7 they hold 6 + 8, and the window of step 4 takes 10: 4 are lost. Of the 6 + 6 blocks that
// come to CAM in steps 2 and 6 it holds 10, and for the three stores that is 28 + 12 - 14 - 10 - 10 = 6. What comes in
// step 8 fits where step 7 sends 2, 2 and 6 blocks, which fill its window. So there is one such plan.
const FRONT: &str =
    "mmplan 3\nstores HK SCI CAM\ndump 1 0 0 0\ndump 2 0 0 0\ndump 3 0 0 0\ndump 4 6 4 0\ndump 5 0 0 0\ndump 6 0 0 0\ndump 7 2 2 6\ndump 8 0 0 0\nloss 6\n";

// The plan, with cuts of these sums.
pub(crate) const THREE_IN_ORDER: &str =
    "mmplan 3\nstores HK SCI CAM\ndump 1 0 0 0\ndump 2 0 0 0\ndump 3 0 0 0\ndump 4 6 4 0\ndump 5 0 0 0\ndump 6 0 0 0\ndump 7 2 2 6\ndump 8 0 0 0\nloss 6\nstretch HK 1 7\nstretch SCI 1 7\nstretch CAM 1 6\nbound 6\nfirst 1\nloss 2\nstretch HK 1 4\nbound 2\nfirst 2\nloss 4\nstretch HK 1 7\nstretch SCI 1 7\nbound 4\nend\n";

static LOSSES: [u64; 3] = [2, 4, 6];

// The losses of the first store, the first two and so on are these.
fn firsts_lose(rt: &impl Runtime, problem: &Problem, plan: &Plan)
    requires { HasShape problem.now plan.now }
{
    for (place, loss) in LOSSES.iter().enumerate() {
        assert!(rt; place < problem.stores());
        holds(
            rt,
            first_loss(problem, plan, place + 1) == *loss,
            "the loss of the first stores",
        );
    }
}

// The loss of the plan in order is the one counted by hand.
fn loses_in_order(rt: &impl Runtime, problem: &Problem) {
    let planned = plan_in_order(rt.alloc(), problem).expect(rt, "memory");
    assert!(rt; (planned.certificate.loss(), planned.firsts.len()) == (6, 2));
    assert!(rt; planned.plan.has_shape(problem));
    firsts_lose(rt, problem, &planned.plan);
}

#[test]
fn three_stores_are_served_in_order(rt: HostRuntime) {
    let problem = problem_of(&rt, THREE_STORES, EIGHT_STEPS);
    loses_in_order(&rt, &problem);
}

// The checker's verdict on a plan text is this.
fn is_judged(rt: &impl Runtime, texts: (&str, &str), plan: &[u8], wanted: Verdict, name: &str) {
    let checked = check_bytes(rt.alloc(), texts.0.as_bytes(), texts.1.as_bytes(), plan);
    let (verdict, _line) = checked.expect(rt, name);
    holds(rt, verdict == wanted, name);
}

#[test]
fn the_printed_plan_is_least_in_order(rt: HostRuntime) {
    let problem = problem_of(&rt, THREE_STORES, EIGHT_STEPS);
    let printed = print_plan_in_order(rt.alloc(), &problem).expect(&rt, "memory");
    let text = printed.text.as_slice();
    assert!(rt; text.starts_with(FRONT.as_bytes()));
    is_judged(
        &rt,
        THREE,
        text,
        Verdict::LeastInOrder(6),
        "the printed plan",
    );
}

// With one store, the plan and its cut are those of the plan without order.
const ONE_STORE_IN_ORDER: &str =
    "mmplan 3\nstores SCI\ndump 1 2\ndump 2 2\ndump 3 0\nloss 2\nstretch SCI 1 3\nbound 2\nend\n";

#[test]
fn the_plan_of_one_store_has_no_part(rt: HostRuntime) {
    let (setup, forecast) = (SCI.as_bytes(), THREE_STEPS.as_bytes());
    let text = plan_in_order_bytes(rt.alloc(), setup, forecast).expect(&rt, "a plan");
    assert!(rt; text.as_slice() == ONE_STORE_IN_ORDER.as_bytes());
}

// Of A_LIMITED_AND_B: in step 1 one block of A leaves by the limit, and it holds 3 of 2 + 3: 2 are lost. All of B
// leaves in step 1. The window of 5 would count too much.
const TWO_STEPS_OF_BOTH: &str = "step,window,A,B\n1,5,3,3\n2,0,3,3\n";

pub(crate) const COUNTS_IN_ORDER: &str =
    "mmplan 3\nstores A B\ndump 1 1 3\ndump 2 0 0\nloss 2\nstretch A 1 2\ncount 1 channels\nbound 2\nfirst 1\nloss 2\nstretch A 1 2\ncount 1 channels\nbound 2\nend\n";

// Plan texts by name, with their problems and verdicts.
static JUDGED: [(&str, &str, &str, &str, Verdict); 5] = wanted! {
    "three stores in order", THREE_STORES, EIGHT_STEPS, THREE_IN_ORDER => Verdict::LeastInOrder(6);
    "counts in order", A_LIMITED_AND_B, TWO_STEPS_OF_BOTH, COUNTS_IN_ORDER
    => Verdict::LeastInOrder(2);
    "one store in order", SCI, THREE_STEPS, ONE_STORE_IN_ORDER => Verdict::LeastInOrder(2);
    "one store", SCI, THREE_STEPS, FIRST_RUN => Verdict::Least(2);
    "counts", A_LIMITED_AND_B, TWO_STEPS_OF_BOTH,
    "mmplan 2\nstores A B\ndump 1 1 3\ndump 2 0 0\nloss 2\nstretch A 1 2\ncount 1 channels\nbound 2\nend\n"
    => Verdict::Least(2);
};

#[test]
fn texts_by_hand_are_judged(rt: HostRuntime) {
    for (name, setup, forecast, plan, verdict) in &JUDGED {
        is_judged(&rt, (*setup, *forecast), plan.as_bytes(), *verdict, name);
    }
}

// Changes of the text of the three stores: the old part, the new part, and the verdict.
struct Changed {
    name: &'static str,
    old: &'static str,
    new: &'static str,
    verdict: Verdict,
}

// The text of the three stores with this change.
fn with_change(rt: &impl Runtime, old: &str, new: &str) -> String {
    THREE_IN_ORDER
        .replace(rt.alloc(), old, new)
        .expect(rt, "memory")
}

// Changes by name.
macro_rules! changes {
    ($($name:literal: $old:literal to $new:literal => $verdict:expr;)+) => {
        [$(Changed { name: $name, old: $old, new: $new, verdict: $verdict }),+]
    };
}

static CHANGED: [Changed; 14] = changes! {
    "the certificates of one store and of two exchanged":
        "loss 2\nstretch HK 1 4\nbound 2\nfirst 2\nloss 4\nstretch HK 1 7\nstretch SCI 1 7\nbound 4\n" to
        "loss 4\nstretch HK 1 7\nstretch SCI 1 7\nbound 4\nfirst 2\nloss 2\nstretch HK 1 4\nbound 2\n"
        => Verdict::FirstNotShown(1);
    // SCI holds the 4 * 2 blocks that come to it in steps 1 to 4, so that the bound is 2 as before
    "a later store in the cut of the first":
        "stretch HK 1 4\n" to "stretch HK 1 4\nstretch SCI 1 4\n" => Verdict::FirstNotShown(1);
    // HK loses 4 then, and CAM nothing
    "a plan that is least and serves CAM before HK":
        "dump 4 6 4 0" to "dump 4 4 4 2" => Verdict::FirstNotShown(1);
    "a wrong loss of one store": "loss 2\n" to "loss 3\n" => Verdict::FirstNotShown(1);
    "a wrong loss of two stores": "loss 4\n" to "loss 5\n" => Verdict::FirstNotShown(2);
    "a wrong bound of two stores": "bound 4\n" to "bound 5\n" => Verdict::FirstNotShown(2);
    "a cut of two stores that shows less":
        "loss 4\nstretch HK 1 7\nstretch SCI 1 7\nbound 4\n" to
        "loss 4\nstretch HK 1 4\nbound 2\n" => Verdict::FirstNotShown(2);
    "a stretch past the last step":
        "stretch SCI 1 7\nbound 4\n" to "stretch SCI 1 9\nbound 4\n" => Verdict::FirstNotShown(2);
    "a step without limits, counted by channels":
        "bound 4\n" to "count 4 channels\nbound 4\n" => Verdict::FirstNotShown(2);
    "a wrong loss of all stores": "loss 6\n" to "loss 7\n" => Verdict::LossIs(6);
    "a wrong bound of all stores": "bound 6\n" to "bound 5\n" => Verdict::BoundIs(6);
    "a cut of all stores that shows less":
        "stretch CAM 1 6\nbound 6\n" to "bound 4\n" => Verdict::NotShown { loss: 6, bound: 4 };
    "a plan that does not fit": "dump 4 6 4 0" to "dump 4 6 4 1" => Verdict::DoesNotFit(4);
    "a wrong bound of all stores, and one of one store":
        "bound 6\nfirst 1\nloss 2\n" to "bound 5\nfirst 1\nloss 3\n" => Verdict::BoundIs(6);
};

#[test]
fn changed_texts_are_judged(rt: HostRuntime) {
    for row in &CHANGED {
        let text = with_change(&rt, row.old, row.new);
        is_judged(&rt, THREE, text.as_bytes(), row.verdict, row.name);
    }
}

// What replaces the loss of two stores, and the line that is printed.
static LINES: [(&str, &str); 2] = wanted! {
    "loss 4\n" => "least 6 in order\n";
    "loss 5\n" => "first 2 not shown\n";
};

#[test]
fn verdicts_in_order_are_lines(rt: HostRuntime) {
    let (setup, forecast) = (THREE_STORES.as_bytes(), EIGHT_STEPS.as_bytes());
    for (loss, wanted) in &LINES {
        let text = with_change(&rt, "loss 4\n", loss);
        let checked = check_bytes(rt.alloc(), setup, forecast, text.as_bytes());
        let (_, line) = checked.expect(&rt, "a verdict");
        holds(&rt, line.as_slice() == wanted.as_bytes(), wanted);
    }
}
