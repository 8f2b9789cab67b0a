//! What `chart` prints of given plans.

use crate::tests::samples::{
    FIRST_PLAN, Host, SCI, THREE_STEPS, holds, of_plan, prints, refuses, told,
};

// The plan of first_run with a loss that is not its loss.
const FORGED: &str = "mmplan 1\nstores SCI\ndump 1 2\ndump 2 2\ndump 3 0\nloss 1\nbound 1\nend\n";

const PLAN_FOR_HK: &str = "mmplan 1\nstores HK\ndump 1 2\nloss 1\nbound 1\nend\n";

// Plans for first_run, the headline of each chart, and whether it says that no plan loses fewer.
static CHARTS: [(&str, &str, bool); 2] = wanted! {
    FIRST_PLAN, ">2 of 10 blocks are lost, and no plan loses fewer</text>" => true;
    FORGED, ">The plan loses 2 of 10 blocks; its text says 1</text>" => false;
};

// Whether a text is one document of this format.
fn is_document(text: &str) -> bool {
    text.starts_with("<svg xmlns='http://www.w3.org/2000/svg' version='1.1'")
        && text.ends_with("</svg>\n")
}

// The chart of a plan for first_run, by this command, is one document with the headline; it has the other text or not.
pub(crate) fn draws(rt: &impl Host, [command, plan, headline, other]: [&str; 4], has_other: bool) {
    let answer = told(rt, &of_plan(command, [SCI, THREE_STEPS, plan]));
    let chart = answer.out.as_str();
    let is_drawn = is_document(chart) && chart.contains(headline);
    let is_quiet = answer.status == 0 && answer.err.is_empty();
    let is_as_wanted = chart.contains(other) == has_other;
    holds(rt, headline, &answer, is_drawn && is_quiet && is_as_wanted);
}

// A plan whose printed loss is wrong is drawn, under a headline with both losses.
#[test]
fn a_chart_is_one_document(rt: HostRuntime) {
    for (plan, headline, is_least) in &CHARTS {
        let least = "no plan loses fewer";
        draws(&rt, ["chart", *plan, *headline, least], *is_least);
    }
}

static REFUSED: [(&str, &str); 4] = wanted! {
    "chart S F P\n=== S\n[[store\n=== F\n=== P\n" => "refused 27 SetupText\n";
    "chart S F P\n=== S\n" => "refused 50 NotRead name F\n";
    "table S F P\n=== S\n[[store\n=== F\n=== P\n" => "refused 27 SetupText\n";
    "table S F P\n=== S\n" => "refused 50 NotRead name F\n";
};

#[test]
fn a_refused_chart_or_table_is_one_line(rt: HostRuntime) {
    refuses(&rt, &REFUSED);
    let script = of_plan("chart", [SCI, THREE_STEPS, PLAN_FOR_HK]);
    prints(&rt, "a plan for HK", &script, "refused 35 Shape\n", 1);
}
