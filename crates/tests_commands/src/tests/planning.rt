//! What `plan` prints.

use crate::tests::samples::{
    A_AND_B, A_WITH_LIMIT_1, APART, Host, SCI, SCI_OF_SIZE_2, SCI_STARTS_WITH_2, SHARED_WINDOW,
    THREE_STEPS, TWO_STEPS_OF_A, checks, holds, joined, prints, refuses, replaced, to_plan, told,
};

const A_OF_SIZE_1: &str = "[[store]]\nid = \"A\"\nsize = 1\ntype = \"bounded\"\nchannel = 0\n";

const A_WITH_LIMIT_1_AND_B: &str = "\
    [[store]]\nid = \"A\"\nsize = 3\ntype = \"bounded\"\nchannel = 0\n\n\
    [[store]]\nid = \"B\"\nsize = 3\ntype = \"bounded\"\nchannel = 1\n\n\
    [[limit]]\nchannel = 0\nblocks = 1\n";

// What `plan` is to print: the text begins and ends like this, and nothing stands between where it is fixed whole.
// What is printed is then given to `check`, which answers with the verdict.
struct Planned {
    example: &'static str,
    setup: &'static str,
    forecast: &'static str,
    begins: &'static str,
    ends: &'static str,
    is_whole: bool,
    verdict: &'static str,
}

static PLANNED: [Planned; 9] = table! { Planned;
    example "first_run", setup SCI, forecast THREE_STEPS,
        begins "mmplan 1\nstores SCI\ndump 1 2\ndump 2 2\ndump 3 0\nloss 2\n",
        ends "stretch SCI 1 3\nbound 2\nend\n", is_whole true, verdict "least 2\n";
    example "nothing_arrives", setup A_OF_SIZE_1, forecast "step,window,A\n1,5,0\n2,5,0\n",
        begins "mmplan 1\nstores A\ndump 1 0\ndump 2 0\nloss 0\n", ends "bound 0\nend\n",
        is_whole true, verdict "least 0\n";
    example "more_than_the_store_holds", setup SCI, forecast "step,window,SCI\n1,9,9\n",
        begins "mmplan 1\nstores SCI\ndump 1 4\nloss 5\n", ends "stretch SCI 1 1\nbound 5\nend\n",
        is_whole true, verdict "least 5\n";
    example "foresight_beats_even_split", setup A_AND_B,
        forecast "step,window,A,B\n1,2,3,3\n2,0,2,0\n",
        begins "mmplan 1\nstores A B\ndump 1 2 0\ndump 2 0 0\nloss 0\n", ends "bound 0\nend\n",
        is_whole false, verdict "least 0\n";
    example "two_stretches_share_a_window", setup A_AND_B, forecast SHARED_WINDOW,
        begins "mmplan 1\nstores A B\ndump 1 ",
        ends "\ndump 2 0 0\nloss 2\nstretch A 1 2\nstretch B 1 2\nbound 2\nend\n", is_whole false,
        verdict "least 2\n";
    example "two_stretches_of_one_store", setup SCI_OF_SIZE_2, forecast APART,
        begins "mmplan 1\nstores SCI\ndump 1 0\ndump 2 2\ndump 3 0\nloss 6\nstretch SCI 1 ",
        ends "\nbound 6\nend\n", is_whole false, verdict "least 6\n";
    example "opening_contents_plan", setup SCI_STARTS_WITH_2, forecast THREE_STEPS,
        begins "mmplan 1\nstores SCI\ndump 1 2\ndump 2 2\ndump 3 0\nloss 4\n",
        ends "stretch SCI 1 3\nbound 4\nend\n", is_whole true, verdict "least 4\n";
    example "channel_limit_cut", setup A_WITH_LIMIT_1, forecast TWO_STEPS_OF_A,
        begins "mmplan 2\nstores A\ndump 1 1\ndump 2 0\nloss 2\n",
        ends "stretch A 1 2\ncount 1 channels\nbound 2\nend\n", is_whole true, verdict "least 2\n";
    example "channel_limit_shares", setup A_WITH_LIMIT_1_AND_B, forecast SHARED_WINDOW,
        begins "mmplan 1\nstores A B\ndump 1 ",
        ends "\ndump 2 0 0\nloss 2\nstretch A 1 2\nstretch B 1 2\nbound 2\nend\n", is_whole false,
        verdict "least 2\n";
};

// Whether a plan text is as it is to be.
fn is_planned(plan: &str, row: &Planned) -> bool {
    let fixed = row.begins.len().saturating_add(row.ends.len());
    plan.starts_with(row.begins)
        && plan.ends_with(row.ends)
        && plan.len() >= fixed
        && (plan.len() == fixed || !row.is_whole)
}

fn plans(rt: &impl Host, row: &Planned) {
    let answer = told(rt, &to_plan(row.setup, row.forecast));
    let plan = answer.out.as_str();
    let is_done = answer.status == 0 && answer.err.is_empty();
    holds(rt, row.example, &answer, is_done && is_planned(plan, row));
    let files = [row.setup, row.forecast, plan];
    checks(rt, row.example, files, row.verdict)
}

#[test]
fn plans_of_the_examples(rt: HostRuntime) {
    for row in &PLANNED {
        plans(&rt, row);
    }
}

static REFUSED: [(&str, &str); 5] = wanted! {
    "plan S F\n=== S\n[[store\n=== F\n" => "refused 27 SetupText\n";
    "plan S F\n=== S\n[[store]]\nid = \"SCI\"\nsize = 4\ntype = \"bounded\"\nchannel = 0\nstart = 5\n=== F\n"
    => "refused 33 Limit name start\n";
    "plan S F\n=== S\n[[store]]\nid = \"SCI\"\nsize = 4\ntype = \"bounded\"\nchannel = 0\n=== F\nstep,window,HK\n"
    => "refused 30 Header\n";
    "plan S F\n=== F\n" => "refused 50 NotRead name S\n";
    "plan S F\n=== S\n" => "refused 50 NotRead name F\n";
};

#[test]
fn plans_refused(rt: HostRuntime) {
    refuses(&rt, &REFUSED);
}

// The store of first_run, and the head of the one that follows it.
const TWICE: &str = "[[store]]\nid = \"SCI\"\nsize = 4\ntype = \"bounded\"\nchannel = 0\n[[store]]";

// The setup of first_run with one text in the place of another, and what is said then.
static SETUPS_REFUSED: [(&str, &str, &str); 8] = wanted! {
    "[[store]]", "[[store" => "refused 27 SetupText\n";
    SCI, "" => "refused 28 SetupField row 0 name store\n";
    SCI, "store = []\n" => "refused 33 Limit name stores\n";
    "channel = 0\n", "channel = 0\ncolour = 1\n" => "refused 28 SetupField row 1 name unknown\n";
    "size = 4", "size = \"4\"" => "refused 28 SetupField row 1 name size\n";
    "size = 4", "size = 0" => "refused 33 Limit name size\n";
    "store = \"SCI\"", "store = \"HK\"" => "refused 28 SetupField row 1 name store\n";
    "[[store]]", TWICE => "refused 28 SetupField row 2 name repeated\n";
};

#[test]
fn setup_texts_refused(rt: HostRuntime) {
    for (old, new, line) in &SETUPS_REFUSED {
        let setup = replaced(&rt, SCI, old, new);
        let script = to_plan(setup.as_str(), THREE_STEPS);
        prints(&rt, new, &script, line, 1);
    }
}

// Forecasts for the setup of first_run, and what is said of each.
static FORECASTS_REFUSED: [(&str, &str); 8] = wanted! {
    "step,window,SCI\n1,2,01\n" => "refused 31 Cell row 1 column 3\n";
    "step,window,SCI\n1,2,-1\n" => "refused 31 Cell row 1 column 3\n";
    "step,window,SCI\n1,2,\n" => "refused 31 Cell row 1 column 3\n";
    "step,window,SCI\n1,2,1000001\n" => "refused 33 Limit name arrivals\n";
    "step,window,SCI\n2,2,3\n" => "refused 32 StepNumber row 1\n";
    "step,window,SCI\n1,2\n" => "refused 29 ForecastText\n";
    "step,window,HK\n1,2,3\n" => "refused 30 Header\n";
    "step,window,SCI\n" => "refused 33 Limit name steps\n";
};

#[test]
fn forecast_cells(rt: HostRuntime) {
    for (forecast, line) in &FORECASTS_REFUSED {
        prints(&rt, forecast, &to_plan(SCI, forecast), line, 1);
    }
}

// The numbers from the first up to before the end, each between two texts.
fn numbered(rt: &impl Host, first: u32, end: u32, before: &str, after: &str) -> String {
    let mut text = String::new(rt.alloc());
    for number in first..end {
        write!(text, "{before}{number}{after}").expect(rt, "memory");
    }
    text
}

// The most stores, each of one block.
fn fullest_setup(rt: &impl Host) -> String {
    let size = "\"\nsize = 1\ntype = \"bounded\"\nchannel = 0\n";
    numbered(rt, 0, 16, "[[store]]\nid = \"S", size)
}

// The most steps for them, without any window, when as much arrives as may.
fn fullest_forecast(rt: &impl Host) -> String {
    let columns = numbered(rt, 0, 16, ",S", "");
    let full = ",0,1000000,1000000,1000000,1000000,1000000,1000000,1000000,1000000,\
        1000000,1000000,1000000,1000000,1000000,1000000,1000000,1000000\n";
    let rows = numbered(rt, 1, 257, "", full);
    joined(rt, &["step,window", columns.as_str(), "\n", rows.as_str()])
}

// Their plan, which dumps nothing.
fn fullest_plan(rt: &impl Host) -> String {
    let ids = numbered(rt, 0, 16, " S", "");
    let dumps = numbered(rt, 1, 257, "dump ", " 0 0 0 0 0 0 0 0 0 0 0 0 0 0 0 0\n");
    let cut = numbered(rt, 0, 16, "stretch S", " 1 256\n");
    let plan = format!(in rt.alloc();
        "mmplan 1\nstores{ids}\n{dumps}loss 4095999984\n{cut}bound 4095999984\nend\n"
    );
    plan.expect(rt, "memory")
}

#[test]
fn largest_loss(rt: HostRuntime) {
    let (setup, forecast) = (fullest_setup(&rt), fullest_forecast(&rt));
    let script = to_plan(setup.as_str(), forecast.as_str());
    prints(&rt, "largest_loss", &script, fullest_plan(&rt).as_str(), 0);
}
