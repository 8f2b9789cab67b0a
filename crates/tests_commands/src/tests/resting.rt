//! What `rest` prints after the first steps of given plans, and what is planned of that.

use crate::tests::samples::{
    A_WITH_LIMIT_1, FIRST_PLAN, Host, SCI, THREE_STEPS, TWO_STEPS_OF_A, answers, joined, prints,
    refuses,
};

// After step 2 the store holds 1 + 3 - 2 of its 4 blocks.
const AFTER_TWO: &str = "\
plan setup.toml forecast.csv
=== setup.toml
[[route]]
apid = 100
service = 3
store = \"SCI\"
subtype = 25

[[store]]
channel = 0
id = \"SCI\"
size = 4
start = 2
type = \"bounded\"
=== forecast.csv
step,window,SCI
1,0,4
";

// Nothing may be sent, so of 2 + 4 blocks 2 are lost. Up to step 2 the first plan loses nothing, and 2 in all.
const PLAN_AFTER_TWO: &str = "\
mmplan 1
stores SCI
dump 1 0
loss 2
stretch SCI 1 1
bound 2
end
";

// The plan sends 1 of 3 blocks, as many as the channel takes.
const A_PLAN: &str = "\
mmplan 2
stores A
dump 1 1
dump 2 0
loss 2
stretch A 1 2
count 1 channels
bound 2
end
";

const A_AFTER_ONE: &str = "\
plan setup.toml forecast.csv
=== setup.toml
[[limit]]
blocks = 1
channel = 0

[[store]]
channel = 0
id = \"A\"
size = 3
start = 2
type = \"bounded\"
=== forecast.csv
step,window,A
1,0,3
";

// The parts of a script that tells what is left after a step.
fn after<'a>(step: &'a str, [setup, forecast, plan]: [&'a str; 3]) -> [&'a str; 8] {
    let words = "rest S F P ";
    [
        words,
        step,
        "\n=== S\n",
        setup,
        "=== F\n",
        forecast,
        "=== P\n",
        plan,
    ]
}

#[test]
fn a_rest_starts_with_what_is_held_and_keeps_routes_and_limits(rt: HostRuntime) {
    let first = after("2", [SCI, THREE_STEPS, FIRST_PLAN]);
    prints(&rt, "after two steps", &first, AFTER_TWO, 0);
    let limited = after("1", [A_WITH_LIMIT_1, TWO_STEPS_OF_A, A_PLAN]);
    prints(&rt, "with a limit", &limited, A_AFTER_ONE, 0);
}

#[test]
fn a_rest_is_a_script_that_plans_it(rt: HostRuntime) {
    prints(&rt, "the rest", &[AFTER_TWO], PLAN_AFTER_TWO, 0);
}

// The program refuses the word for a step of the plan in these files, and says how many steps there are.
fn has_no_step<'a>(rt: &impl Host, word: &'a str, files: [&'a str; 3], steps: &str) {
    let expected = ": expected a step that another one follows; the forecast has ";
    let err = joined(rt, &["STEP ", word, expected, steps, "\n"]);
    let script = after(word, files);
    let refused = "refused 33 Limit name steps\n";
    answers(rt, &script, refused, err.as_str(), 1);
}

#[test]
fn a_step_of_a_rest_has_another_one_after_it(rt: HostRuntime) {
    let steps = "3 steps, so give a number from 1 to 2";
    for word in [
        "0",
        "3",
        "02",
        "+2",
        "2.0",
        "two",
        "257",
        "18446744073709551617",
    ] {
        has_no_step(&rt, word, [SCI, THREE_STEPS, FIRST_PLAN], steps);
    }
}

const ONE_STEP: &str = "step,window,SCI\n1,2,3\n";

const ONE_STEP_PLAN: &str = "mmplan 1\nstores SCI\ndump 1 2\nloss 0\nbound 0\nend\n";

#[test]
fn a_step_of_a_short_plan_is_told(rt: HostRuntime) {
    let nothing = "one step, and nothing comes after it";
    has_no_step(&rt, "1", [SCI, ONE_STEP, ONE_STEP_PLAN], nothing);
    let only_one = "two steps, so give 1";
    has_no_step(&rt, "2", [A_WITH_LIMIT_1, TWO_STEPS_OF_A, A_PLAN], only_one);
}

static REFUSED: [(&str, &str); 2] = wanted! {
    "rest S F P 9\n=== S\n[[store\n=== F\n=== P\n" => "refused 27 SetupText\n";
    "rest S F P 9\n=== S\n" => "refused 50 NotRead name F\n";
};

#[test]
fn a_fault_of_a_file_comes_before_that_of_the_step(rt: HostRuntime) {
    refuses(&rt, &REFUSED);
    let other = after("9", [SCI, THREE_STEPS, A_PLAN]);
    prints(&rt, "a plan for A", &other, "refused 35 Shape\n", 1);
}
