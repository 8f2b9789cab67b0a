//! What `check` says of given plans.

use crate::tests::samples::{
    A_AND_B, A_WITH_LIMIT_1, APART, FIRST_PLAN, SCI, SCI_OF_SIZE_2, SCI_STARTS_WITH_2, THREE_STEPS,
    TWO_STEPS_OF_A, checks, holds, of_plan, refuses, replaced, told,
};

const A: &str = "[[store]]\nid = \"A\"\nsize = 3\ntype = \"bounded\"\nchannel = 0\n";

// A least plan of `A_WITH_LIMIT_1`.
const LIMITED: &str =
    "mmplan 2\nstores A\ndump 1 1\ndump 2 0\nloss 2\nstretch A 1 2\ncount 1 channels\nbound 2\nend\n";

// A plan, the problem that it is for, and what `check` prints.
struct Checked {
    example: &'static str,
    setup: &'static str,
    forecast: &'static str,
    plan: &'static str,
    prints: &'static str,
}

static CHECKED: [Checked; 13] = table! { Checked;
    example "first_run", setup SCI, forecast THREE_STEPS, plan FIRST_PLAN, prints "least 2\n";
    example "two_stretches_of_one_store", setup SCI_OF_SIZE_2, forecast APART,
        plan "mmplan 1\nstores SCI\ndump 1 0\ndump 2 2\ndump 3 0\nloss 6\nstretch SCI 1 1\nstretch SCI 3 3\nbound 6\nend\n",
        prints "least 6\n";
    example "two_stretches_of_one_store, in one stretch", setup SCI_OF_SIZE_2, forecast APART,
        plan "mmplan 1\nstores SCI\ndump 1 0\ndump 2 2\ndump 3 0\nloss 6\nstretch SCI 1 3\nbound -1\nend\n",
        prints "not shown, loss 6 bound -1\n";
    example "amount_above_content", setup SCI_OF_SIZE_2, forecast APART,
        plan "mmplan 1\nstores SCI\ndump 1 0\ndump 2 9\ndump 3 0\nloss 6\nstretch SCI 1 1\nstretch SCI 3 3\nbound 6\nend\n",
        prints "least 6\n";
    example "opening_contents_plan", setup SCI_STARTS_WITH_2, forecast THREE_STEPS, plan FIRST_PLAN,
        prints "loss is 4\n";
    example "channel_limit_cut", setup A_WITH_LIMIT_1, forecast TWO_STEPS_OF_A, plan LIMITED,
        prints "least 2\n";
    example "channel_limit_cut, in the form without counts", setup A_WITH_LIMIT_1,
        forecast TWO_STEPS_OF_A,
        plan "mmplan 1\nstores A\ndump 1 1\ndump 2 0\nloss 2\nstretch A 1 2\nbound -2\nend\n",
        prints "not shown, loss 2 bound -2\n";
    example "channel_limit_cut, above the limit", setup A_WITH_LIMIT_1, forecast TWO_STEPS_OF_A,
        plan "mmplan 2\nstores A\ndump 1 2\ndump 2 0\nloss 2\nstretch A 1 2\ncount 1 channels\nbound 2\nend\n",
        prints "does not fit, step 1\n";
    example "channel_limit_cut, a counted step that is not inner", setup A_WITH_LIMIT_1,
        forecast TWO_STEPS_OF_A,
        plan "mmplan 2\nstores A\ndump 1 1\ndump 2 0\nloss 2\nstretch A 1 2\ncount 2 channels\nbound 2\nend\n",
        prints "bad count 1\n";
    example "channel_limit_cut, without the limit", setup A, forecast TWO_STEPS_OF_A, plan LIMITED,
        prints "bad count 1\n";
    example "no setup", setup "[[store\n", forecast THREE_STEPS, plan "",
        prints "refused 27 SetupText\n";
    example "a forecast for another store", setup SCI, forecast "step,window,HK\n", plan FIRST_PLAN,
        prints "refused 30 Header\n";
    example "a cell with a leading zero", setup SCI, forecast "step,window,SCI\n1,2,01\n",
        plan FIRST_PLAN, prints "refused 31 Cell row 1 column 3\n";
};

#[test]
fn verdicts_of_the_examples(rt: HostRuntime) {
    for row in &CHECKED {
        let files = [row.setup, row.forecast, row.plan];
        checks(&rt, row.example, files, row.prints);
    }
}

// Examples that change the plan of first_run: a text, what stands in its place, and what is said then.
static CHANGED: [(&str, &str, &str, &str); 9] = wanted! {
    "plan_that_loses_more", "dump 2 2\ndump 3 0\nloss 2", "dump 2 1\ndump 3 0\nloss 3"
    => "not shown, loss 3 bound 2\n";
    "plan_that_does_not_fit", "dump 1 2\ndump 2 2", "dump 1 3\ndump 2 1"
    => "does not fit, step 1\n";
    "a false loss", "loss 2", "loss 1" => "loss is 2\n";
    "a false bound", "bound 2", "bound 1" => "bound is 2\n";
    "a stretch past the end", "stretch SCI 1 3", "stretch SCI 1 4" => "bad stretch 1\n";
    "stretches that overlap", "stretch SCI 1 3", "stretch SCI 1 2\nstretch SCI 2 3"
    => "bad stretch 2\n";
    "no end", "end\n", "" => "refused 34 PlanText line 9\n";
    "a leading zero", "dump 1 2", "dump 1 02" => "refused 34 PlanText line 3\n";
    "sheet for another store", "stores SCI", "stores HK" => "refused 35 Shape\n";
};

#[test]
fn sheet_text_refused(rt: HostRuntime) {
    for (example, old, new, line) in &CHANGED {
        let plan = replaced(&rt, FIRST_PLAN, old, new);
        checks(&rt, example, [SCI, THREE_STEPS, plan.as_str()], line);
    }
    let unread = ("check S F P\n=== S\n", "refused 50 NotRead name F\n");
    refuses(&rt, &[unread]);
}

// A setup, a forecast, a plan that fits and loses more than it has to, and the notes on what a least plan loses.
struct Compared {
    files: [&'static str; 3],
    notes: &'static str,
}

// In the first, one block of step 2 is not dumped, which is then lost in step 3. In the second, the window of step 1
// goes to B, to which nothing more comes, while A loses the two blocks that come in step 2.
static COMPARED: [Compared; 2] = table! { Compared;
    files [SCI, THREE_STEPS, "mmplan 1\nstores SCI\ndump 1 2\ndump 2 1\ndump 3 0\nloss 3\nbound 0\nend\n"],
        notes "\nnote: blocks lost: 3 by this plan, 2 by a least plan, which is 1 fewer\n";
    files [A_AND_B, "step,window,A,B\n1,2,3,3\n2,0,2,0\n",
        "mmplan 1\nstores A B\ndump 1 0 2\ndump 2 0 0\nloss 2\nbound 0\nend\n"],
        notes "\nnote: blocks lost: 2 by this plan, 0 by a least plan, which is 2 fewer\n\
            note: by store, and after it by a least plan: A 2 0, B 0 0\n";
};

#[test]
fn a_plan_that_is_not_least_is_compared(rt: HostRuntime) {
    for row in &COMPARED {
        let answer = told(&rt, &of_plan("check", row.files));
        holds(
            &rt,
            row.notes,
            &answer,
            answer.err.as_str().ends_with(row.notes),
        );
    }
}
