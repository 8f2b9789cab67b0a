//! Plans that keep the first steps of another plan.

use crate::tests::samples::{
    A_WITH_LIMIT_1, FIRST_PLAN, Host, SCI, System, THREE_STEPS, TWO_STEPS_OF_A, answers, checks,
    holds, joined, prints, refuses,
};
use crate::tests::storing::{make_folder, remove, run_with};

// A plan that sends nothing in step 1.
const IDLE_FIRST: &str =
    "mmplan 1\nstores SCI\ndump 1 0\ndump 2 0\ndump 3 0\nloss 6\nbound 0\nend\n";

// 3 are there after it, and 3 + 4 arrive: 4 may stay and 2 are sent, so 3 + 7 - 4 - 2 = 4 are lost. The cut counts step 1
// too, whose window takes 2: 10 - 4 - 2 - 2 = 2. From step 2 on it would count 7 - 4 - 2 = 1.
const AFTER_IDLE: &str = "\
mmplan 1
stores SCI
dump 1 0
dump 2 2
dump 3 0
loss 4
stretch SCI 1 3
bound 2
end
";

// A plan that sends 3 blocks in a window of 2.
const TOO_MUCH: &str = "mmplan 1\nstores SCI\ndump 1 3\ndump 2 0\ndump 3 0\nloss 0\nbound 0\nend\n";

// Nothing is there after it: 3 + 4 - 4 - 2 = 1. A plan that fits loses 2.
const AFTER_TOO_MUCH: &str = "\
mmplan 1
stores SCI
dump 1 3
dump 2 2
dump 3 0
loss 1
stretch SCI 1 3
bound 2
end
";

const FEW_FIRST: &str = "step,window,SCI\n1,2,2\n2,2,3\n3,0,4\n";

// After step 1 nothing is there, and nothing was lost: the cut of the later steps shows that no plan loses fewer. With
// step 1 it would show no more.
const AFTER_FEW: &str = "\
mmplan 1
stores SCI
dump 1 2
dump 2 2
dump 3 0
loss 1
stretch SCI 2 3
bound 1
end
";

const THREE_STEPS_OF_A: &str = "step,window,A\n1,5,3\n2,5,3\n3,0,3\n";

const PLAN_OF_A: &str = "mmplan 1\nstores A\ndump 1 1\ndump 2 0\ndump 3 0\nloss 5\nbound 0\nend\n";

// 2 are there after step 1, and 3 + 3 arrive: 3 may stay and the channel takes 1, so 4 are lost. Without the 2 the cut
// has 2; with step 1 and its window of 5 it would have 9 - 3 - 5 - 1 = 0.
const A_AFTER_ONE: &str = "\
mmplan 2
stores A
dump 1 1
dump 2 1
dump 3 0
loss 4
stretch A 2 3
count 2 channels
bound 2
end
";

// A plan of these files, the step up to which it is kept, what is printed, what that loses, and what `check` says of it.
struct Kept {
    files: [&'static str; 3],
    step: &'static str,
    prints: &'static str,
    loss: &'static str,
    line: &'static str,
}

static KEPT: [Kept; 5] = table! { Kept;
    files [SCI, THREE_STEPS, FIRST_PLAN], step "2", prints FIRST_PLAN, loss "2", line "least 2\n";
    files [SCI, THREE_STEPS, IDLE_FIRST], step "1", prints AFTER_IDLE, loss "4", line "not shown, loss 4 bound 2\n";
    files [SCI, THREE_STEPS, TOO_MUCH], step "1", prints AFTER_TOO_MUCH, loss "1", line "does not fit, step 1\n";
    files [SCI, FEW_FIRST, FIRST_PLAN], step "1", prints AFTER_FEW, loss "1", line "least 1\n";
    files [A_WITH_LIMIT_1, THREE_STEPS_OF_A, PLAN_OF_A], step "1", prints A_AFTER_ONE, loss "4",
        line "not shown, loss 4 bound 2\n";
};

// What is said of a plan that keeps the steps up to this one.
fn said(rt: &impl Host, loss: &str, step: &str) -> String {
    let parts = [
        "note: the plan loses ",
        loss,
        "; no plan that fits with the same steps up to ",
        step,
        " loses fewer\n",
    ];
    joined(rt, &parts)
}

// The parts of a script that has a plan made which keeps the steps of a plan up to this one.
fn to_keep<'a>(step: &'a str, [setup, forecast, plan]: [&'a str; 3]) -> [&'a str; 8] {
    let words = "plan S F --keep P ";
    [
        words,
        step,
        "\n=== S\n",
        setup,
        "=== F\n",
        forecast,
        "=== P\n",
        plan,
    ]
}

#[test]
fn kept_steps_stay_and_the_rest_is_planned_anew(rt: HostRuntime) {
    for row in &KEPT {
        let script = to_keep(row.step, row.files);
        let said = said(&rt, row.loss, row.step);
        answers(&rt, &script, row.prints, said.as_str(), 0);
        let [setup, forecast, _] = row.files;
        checks(&rt, row.prints, [setup, forecast, row.prints], row.line);
    }
}

#[test]
fn a_kept_step_has_another_one_after_it(rt: HostRuntime) {
    let err =
        "STEP 3: expected a step that another one follows; the forecast has 3 steps, so give a number from 1 to \
        2\n";
    let script = to_keep("3", [SCI, THREE_STEPS, FIRST_PLAN]);
    answers(&rt, &script, "refused 33 Limit name steps\n", err, 1);
    let zero = to_keep("0", [SCI, THREE_STEPS, FIRST_PLAN]);
    prints(&rt, "step 0", &zero, "refused 33 Limit name steps\n", 1);
}

static REFUSED: [(&str, &str); 2] = wanted! {
    "plan S F --keep P 9\n=== S\n[[store\n=== F\n=== P\n" => "refused 27 SetupText\n";
    "plan S F --keep P 9\n=== S\n=== F\n" => "refused 50 NotRead name P\n";
};

#[test]
fn a_fault_of_a_file_comes_before_that_of_the_kept_step(rt: HostRuntime) {
    refuses(&rt, &REFUSED);
    let text = to_keep("9", [SCI, THREE_STEPS, "mmplan 1\n"]);
    prints(&rt, "a cut text", &text, "refused 34 PlanText line 2\n", 1);
    let other = to_keep("9", [A_WITH_LIMIT_1, TWO_STEPS_OF_A, FIRST_PLAN]);
    prints(&rt, "another shape", &other, "refused 35 Shape\n", 1);
}

// Lines that keep two steps, and standard input. The option stands anywhere after the command.
static LINES: [(&str, &str); 4] = [
    ("plan @/S @/F --keep @/P 2", ""),
    ("plan --keep @/P 2 @/S @/F", ""),
    ("plan @/S --keep - 2 @/F --output -", FIRST_PLAN),
    ("plan - --keep @/P 2 -- @/F", SCI),
];

fn lines_keep_steps(rt: &impl System) {
    let folder = make_folder(rt, "kept");
    for (line, input) in &LINES {
        let answer = run_with(rt, rt, folder.as_str(), line, input);
        let is_said = answer.err.as_str() == said(rt, "2", "2").as_str();
        holds(rt, line, &answer, answer.has(FIRST_PLAN, 0) && is_said);
    }
    let own = run_with(
        rt,
        rt,
        folder.as_str(),
        "plan @/S @/F --keep @/P 2 --output @/P",
        "",
    );
    let is_told = own
        .err
        .as_str()
        .ends_with("it is a file that the task reads\n");
    holds(rt, "its own plan", &own, own.has("", 1) && is_told);
    remove(rt, folder.as_str());
}

#[test]
fn a_plan_to_keep_is_named_anywhere_after_the_command(rt: HostRuntime) {
    lines_keep_steps(&rt);
}
