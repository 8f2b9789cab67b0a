//! Problems whose arrivals come during dumps, and stores with sizes by step, through the whole program.

use crate::tests::hinting::hints;
use crate::tests::samples::{
    FIRST_PLAN, Host, SCI, THREE_STEPS, answers, checks, holds, joined, of_plan, prints, to_plan,
    told,
};

const STORE: &str = "[[store]]\nid = \"SCI\"\nsize = 4\ntype = \"bounded\"\nchannel = 0\n";

const DURING: &str =
    "arrivals = \"during\"\n[[store]]\nid = \"SCI\"\nsize = 4\ntype = \"bounded\"\nchannel = 0\n";

const BEFORE: &str =
    "arrivals = \"before\"\n[[store]]\nid = \"SCI\"\nsize = 4\ntype = \"bounded\"\nchannel = 0\n";

const NINE: &str = "step,window,SCI\n1,3,9\n2,2,1\n";

// The store has room for 1 block in step 2.
const SMALL: &str = "step,window,SCI,size:SCI\n1,1,3,4\n2,1,0,1\n3,0,2,9\n";

// During step 1, 3 of 9 blocks leave and 4 stay.
const NINE_DURING: &str =
    "mmplan 1\nstores SCI\ndump 1 3\ndump 2 2\nloss 2\nstretch SCI 1 1\nbound 2\nend\n";

// Before the dumps of step 1, 4 of 9 blocks are stored.
const NINE_BEFORE: &str =
    "mmplan 1\nstores SCI\ndump 1 3\ndump 2 2\nloss 5\nstretch SCI 1 1\nbound 5\nend\n";

// Of 3 blocks 1 leaves in step 1, and 1 has room in step 2.
const SMALL_BEFORE: &str =
    "mmplan 1\nstores SCI\ndump 1 1\ndump 2 1\ndump 3 0\nloss 1\nstretch SCI 1 2\nbound 1\nend\n";

// The other one leaves during step 2.
const SMALL_DURING: &str =
    "mmplan 1\nstores SCI\ndump 1 1\ndump 2 1\ndump 3 0\nloss 0\nbound 0\nend\n";

// A problem, its plan, what `check` says of it, its table and what the headline of its chart begins with.
struct Kind {
    files: [&'static str; 3],
    verdict: &'static str,
    table: &'static str,
    headline: &'static str,
}

static KINDS: [Kind; 4] = table! { Kind;
    files [DURING, NINE, NINE_DURING], verdict "least 2\n",
        table "1,3,SCI,9,2,3,4\n2,2,SCI,1,0,2,3\n", headline ">2 of 10 blocks are lost, and";
    files [BEFORE, NINE, NINE_BEFORE], verdict "least 5\n",
        table "1,3,SCI,9,5,3,1\n2,2,SCI,1,0,2,0\n", headline ">5 of 10 blocks are lost, and";
    files [STORE, SMALL, SMALL_BEFORE], verdict "least 1\n",
        table "1,1,SCI,3,0,1,2\n2,1,SCI,0,1,1,0\n3,0,SCI,2,0,0,2\n",
        headline ">1 of 5 blocks are lost, and";
    files [DURING, SMALL, SMALL_DURING], verdict "least 0\n",
        table "1,1,SCI,3,0,1,2\n2,1,SCI,0,0,1,1\n3,0,SCI,2,0,0,3\n",
        headline ">0 of 5 blocks are lost, and";
};

const HEADER: &str = "step,window,store,arrived,lost,dumped,held\n";

fn is_drawn(rt: &impl Host, row: &Kind) {
    let answer = told(rt, &of_plan("chart", row.files));
    let is_told = answer.status == 0 && answer.out.as_str().contains(row.headline);
    holds(rt, row.headline, &answer, is_told);
}

fn is_done(rt: &impl Host, row: &Kind) {
    let [setup, forecast, plan] = row.files;
    prints(rt, plan, &to_plan(setup, forecast), plan, 0);
    checks(rt, plan, row.files, row.verdict);
    let table = joined(rt, &[HEADER, row.table]);
    prints(rt, plan, &of_plan("table", row.files), table.as_str(), 0);
    is_drawn(rt, row);
}

#[test]
fn each_kind_is_planned_and_judged(rt: HostRuntime) {
    for row in &KINDS {
        is_done(&rt, row);
    }
}

// A plan for one kind of problem loses another number of blocks in the other. Arrivals before dumps are the default.
static JUDGED: [([&str; 3], &str); 5] = wanted! {
    [BEFORE, NINE, NINE_DURING] => "loss is 5\n";
    [STORE, NINE, NINE_DURING] => "loss is 5\n";
    [STORE, NINE, NINE_BEFORE] => "least 5\n";
    [DURING, NINE, NINE_BEFORE] => "loss is 2\n";
    [DURING, SMALL, SMALL_BEFORE] => "loss is 0\n";
};

#[test]
fn a_plan_is_judged_by_the_kind_of_its_problem(rt: HostRuntime) {
    for (files, line) in &JUDGED {
        checks(&rt, line, *files, line);
    }
}

// Of 9 blocks that arrive during step 1, a dump of 12 takes all, and none is lost.
#[test]
fn arrivals_during_a_dump_leave_with_it(rt: HostRuntime) {
    let plan = "mmplan 1\nstores SCI\ndump 1 12\ndump 2 0\nloss 0\nbound 0\nend\n";
    let table = joined(&rt, &[HEADER, "1,3,SCI,9,0,9,0\n2,2,SCI,1,0,0,1\n"]);
    let script = of_plan("table", [DURING, NINE, plan]);
    prints(&rt, plan, &script, table.as_str(), 0);
}

const A_AND_B: &str = "arrivals = \"during\"\n\
    [[store]]\nid = \"A\"\nsize = 1\ntype = \"bounded\"\nchannel = 0\n\
    [[store]]\nid = \"B\"\nsize = 1\ntype = \"bounded\"\nchannel = 0\n";

// Plans that fit and lose more than they have to: 1 block fewer leaves in step 1, or none; or the window goes to B.
static COMPARED: [([&str; 3], &str); 3] = wanted! {
    [DURING, NINE, "mmplan 1\nstores SCI\ndump 1 2\ndump 2 2\nloss 3\nbound 0\nend\n"]
    => "\nnote: blocks lost: 3 by this plan, 2 by a least plan, which is 1 fewer\n";
    [STORE, SMALL, "mmplan 1\nstores SCI\ndump 1 0\ndump 2 1\ndump 3 0\nloss 2\nbound 0\nend\n"]
    => "\nnote: blocks lost: 2 by this plan, 1 by a least plan, which is 1 fewer\n";
    [A_AND_B, "step,window,A,B\n1,1,2,1\n", "mmplan 1\nstores A B\ndump 1 0 1\nloss 1\nbound 0\nend\n"]
    => "\nnote: blocks lost: 1 by this plan, 0 by a least plan, which is 1 fewer\n\
        note: by store, and after it by a least plan: A 1 0, B 0 0\n";
};

#[test]
fn a_plan_that_is_not_least_is_compared_with_one_of_its_kind(rt: HostRuntime) {
    for (files, notes) in &COMPARED {
        let answer = told(&rt, &of_plan("check", *files));
        let is_told = answer.err.as_str().ends_with(notes);
        holds(&rt, notes, &answer, is_told);
    }
}

// The files of a plan of A and B.
fn of_a_and_b<'a>(forecast: &'a str, plan: &'a str) -> [&'a str; 3] {
    [A_AND_B, forecast, plan]
}

// Of A and B 2 blocks each arrive, 1 of which has room, and one of all can leave: A loses none, and B one.
#[test]
fn a_plan_in_order_takes_arrivals_during_dumps(rt: HostRuntime) {
    let forecast = "step,window,A,B\n1,1,2,2\n";
    let script = ["plan --in-order S F\n=== S\n", A_AND_B, "=== F\n", forecast];
    let answer = told(&rt, &script);
    let begins =
        "mmplan 3\nstores A B\ndump 1 1 0\nloss 1\nstretch A 1 1\nstretch B 1 1\nbound 1\nfirst 1\nloss 0\n";
    let is_begun = answer.out.as_str().starts_with(begins);
    holds(&rt, begins, &answer, is_begun);
    let files = of_a_and_b(forecast, answer.out.as_str());
    checks(&rt, begins, files, "least 1 in order\n");
}

// A block more of window, or of room, in step 1 saves one each, and 2 are lost. Without the window of step 2 a block of
// that step has no room.
const WORTHS_DURING: &str = "\
item,name,step,now,next,most,without
window,,1,3,1,2,3
window,,2,2,0,0,1
size,SCI,,4,1,2,3
";

// One block is lost, in step 2. Where a step has no room, all that comes in it or is held is lost.
const WORTHS_OF_SIZES: &str = "\
item,name,step,now,next,most,without
window,,1,1,1,1,1
window,,2,1,0,0,0
window,,3,0,0,0,0
size,SCI,,4,0,0,2
size,SCI,1,4,0,0,2
size,SCI,2,1,1,1,1
size,SCI,3,9,0,0,2
";

#[test]
fn numbers_of_each_kind_are_worth_what_is_counted_by_hand(rt: HostRuntime) {
    for (setup, forecast, table) in [
        (DURING, NINE, WORTHS_DURING),
        (STORE, SMALL, WORTHS_OF_SIZES),
    ] {
        let script = ["sensitivity S F\n=== S\n", setup, "=== F\n", forecast];
        prints(&rt, table, &script, table, 0);
    }
}

const NINE_AFTER_ONE: &str = "\
plan setup.toml forecast.csv
=== setup.toml
arrivals = \"during\"

[[store]]
channel = 0
id = \"SCI\"
size = 4
start = 4
type = \"bounded\"
=== forecast.csv
step,window,SCI
1,2,1
";

const SMALL_AFTER_ONE: &str = "\
plan setup.toml forecast.csv
=== setup.toml
[[store]]
channel = 0
id = \"SCI\"
size = 4
start = 2
type = \"bounded\"
=== forecast.csv
step,window,SCI,size:SCI
1,1,0,1
2,0,2,9
";

// Two of 5 blocks leave, and 3 stay.
const PLAN_OF_NINE_AFTER_ONE: &str = "mmplan 1\nstores SCI\ndump 1 2\nloss 0\nbound 0\nend\n";

// Of 2 blocks 1 has no room.
const PLAN_OF_SMALL_AFTER_ONE: &str =
    "mmplan 1\nstores SCI\ndump 1 1\ndump 2 0\nloss 1\nstretch SCI 1 1\nbound 1\nend\n";

// What `rest` prints after step 1, and what is planned of that.
static RESTS: [([&str; 3], &str, &str); 2] = wanted! {
    [DURING, NINE, NINE_DURING], NINE_AFTER_ONE => PLAN_OF_NINE_AFTER_ONE;
    [STORE, SMALL, SMALL_BEFORE], SMALL_AFTER_ONE => PLAN_OF_SMALL_AFTER_ONE;
};

#[test]
fn a_rest_is_of_the_same_kind(rt: HostRuntime) {
    for ([setup, forecast, plan], rest, planned) in &RESTS {
        let words = "rest S F P 1\n=== S\n";
        let script = [words, *setup, "=== F\n", *forecast, "=== P\n", *plan];
        prints(&rt, rest, &script, rest, 0);
        prints(&rt, planned, &[*rest], planned, 0);
    }
}

const EXPECTED: &str =
    ": expected arrivals before dumps, and no sizes by step; take the key arrivals and the columns \
    size: out, and plan again; a run stores what arrives before it dumps\nhint: ";

// Problems that no run carries out, their plan, and the file and the hint on standard error.
static NOT_FLOWN: [([&str; 3], [&str; 2]); 3] = wanted! {
    [DURING, NINE, NINE_DURING]
    => ["S", "line 1 is \"arrivals = \"during\"\"; runs are planned with \"before\", the default\n"];
    [STORE, SMALL, SMALL_BEFORE]
    => ["F", "column 4 of the header is \"size:SCI\"; runs are planned without columns size:\n"];
    [DURING, SMALL, SMALL_DURING]
    => ["S", "line 1 is \"arrivals = \"during\"\"; runs are planned with \"before\", the default\n"];
};

// There is no source and no link, but those are tested later.
fn is_not_flown(rt: &impl Host, [setup, forecast, plan]: [&str; 3], [file, hint]: [&str; 2]) {
    let err = joined(rt, &[file, EXPECTED, hint]);
    let (front, ends) = ([setup, "=== F\n", forecast], "=== X\n=== L\nlinks 0\n");
    let [setup, between, forecast] = front;
    let run = [
        "run S F P X L\n=== S\n",
        setup,
        between,
        forecast,
        "=== P\n",
        plan,
        ends,
    ];
    answers(rt, &run, "refused 55 NotFlyable\n", err.as_str(), 1);
    let fly = ["fly S F X L\n=== S\n", setup, between, forecast, ends];
    let out = joined(rt, &[plan, "refused 55 NotFlyable\n"]);
    answers(rt, &fly, out.as_str(), err.as_str(), 1);
}

#[test]
fn a_run_of_other_steps_is_refused(rt: HostRuntime) {
    for (files, said) in &NOT_FLOWN {
        is_not_flown(&rt, *files, *said);
    }
}

// A text of the setup or the forecast that is refused, the line that says so, and what is found.
struct Wrong {
    setup: &'static str,
    forecast: &'static str,
    prints: &'static str,
    hint: &'static str,
}

const OF_THE_SETUP: Wrong = Wrong {
    setup: SCI,
    forecast: THREE_STEPS,
    prints: "refused 28 SetupField row 0 name arrivals\n",
    hint: "",
};

const OF_THE_HEADER: Wrong = Wrong {
    setup: SCI,
    forecast: "",
    prints: "refused 30 Header\n",
    hint: "",
};

static WRONG: [Wrong; 13] = based! { Wrong;
    OF_THE_SETUP: setup "arrivals = \"first\"\n[[store]]\n",
        hint "the key arrivals is \"first\"; \"before\" and \"during\" can be";
    OF_THE_SETUP: setup "arrivals = \"dumring\"\n[[store]]\n",
        hint "the key arrivals is \"dumring\"; \"during\" and \"before\" can be";
    OF_THE_SETUP: setup "arrivals = true\nstore = []\n",
        hint "the key arrivals has no text; write \"before\" or \"during\", in quotes";
    OF_THE_SETUP: setup "arrivals = 1\nlimit = 1\n[[store]]\n",
        prints "refused 28 SetupField row 0 name limit\n",
        hint "limit is no array of tables; write [[limit]] above each table";
    OF_THE_SETUP: setup "Arrivals = \"during\"\n[[store]]\n",
        prints "refused 28 SetupField row 0 name unknown\n",
        hint "the key \"Arrivals\" is none of arrivals, store, route and limit";
    OF_THE_SETUP: setup "[[store]]\narrivals = \"during\"\n",
        prints "refused 28 SetupField row 1 name unknown\n",
        hint "table 1 of store has the key \"arrivals\", which is one of the top; write it above every table";
    OF_THE_HEADER: forecast "step,window,SCI,size:HK\n",
        hint "column 4 of the header is \"size:HK\"; the stores of the setup are SCI";
    OF_THE_HEADER: forecast "step,window,size:SCI\n",
        hint "column 3 of the header is \"size:SCI\", and \"SCI\" is expected";
    OF_THE_HEADER: forecast "step,window,SCI,size:SCI,limit:0\n",
        hint "column 5 of the header is \"limit:0\"; columns limit: come before columns size:";
    OF_THE_HEADER: forecast "step,window,SCI,size:SCI,size:SCI\n",
        hint "column 5 of the header is \"size:SCI\"; columns size: come in the setup's order, one for a store";
    OF_THE_HEADER: setup A_AND_B, forecast "step,window,A,B,size:B,size:A\n",
        hint "column 6 of the header is \"size:A\"; columns size: come in the setup's order, one for a store";
    OF_THE_HEADER: forecast "step,window,SCI,size:SCI\n1,2,3,4.5\n",
        prints "refused 31 Cell row 1 column 4\n",
        hint "row 1 has \"4.5\" in the column \"size:SCI\", where a whole number is expected; it is line 2 of the \
            file, whose header is line 1";
    OF_THE_HEADER: forecast "step,window,SCI,limit:0,size:SCI\n1,2,3,4,1000001\n",
        prints "refused 33 Limit name size\n",
        hint "row 1 has \"1000001\" in the column \"size:SCI\", line 2 of the file; 0 to 1000000 can be; plan more in \
            coarser units: docs/PLANNING.md, 'Limits of scale'";
};

#[test]
fn wrong_texts_of_each_kind_are_shown(rt: HostRuntime) {
    for row in &WRONG {
        let answer = told(&rt, &to_plan(row.setup, row.forecast));
        holds(&rt, row.hint, &answer, answer.has(row.prints, 1));
        hints(&rt, &answer, row.hint);
    }
}

// Problems with a size that is out of its range, and the file that has it.
static SIZES: [([&str; 2], &str); 2] = wanted! {
    ["[[store]]\nid = \"A\"\nsize = 0\ntype = \"bounded\"\nchannel = 0\n", ""] => "S";
    [SCI, "step,window,SCI,size:SCI\n1,2,3,2000000\n"] => "F";
};

#[test]
fn a_wrong_size_is_of_the_file_that_has_it(rt: HostRuntime) {
    for ([setup, forecast], file) in &SIZES {
        let answer = told(&rt, &to_plan(setup, forecast));
        let line = joined(&rt, &[file, ", size: expected a number in its range"]);
        let is_told = answer.err.as_str().starts_with(line.as_str());
        holds(&rt, file, &answer, is_told);
    }
}

// Sizes that are nowhere below the setup's have no effect, and one that is below it once is not noted.
#[test]
fn a_column_of_sizes_without_effect_is_noted(rt: HostRuntime) {
    let forecast = "step,window,SCI,size:SCI\n1,2,3,4\n2,2,3,5\n3,0,4,1000000\n";
    let note =
        "note: the column size: of \"SCI\" is never below the setup's size, so it changes nothing\n";
    answers(&rt, &to_plan(SCI, forecast), FIRST_PLAN, note, 0);
    let once = "step,window,SCI,size:SCI\n1,2,3,4\n2,2,3,5\n3,0,4,3\n";
    let plan =
        "mmplan 1\nstores SCI\ndump 1 2\ndump 2 2\ndump 3 0\nloss 3\nstretch SCI 1 3\nbound 3\nend\n";
    answers(&rt, &to_plan(SCI, once), plan, "", 0);
}
