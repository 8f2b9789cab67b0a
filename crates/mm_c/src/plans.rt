//! Plans, verdicts on them, and their charts.
ghost use Rattle.std.specs.Prelude.{◌≤◌, length};
ghost use Rattle.mm_planner.specs.PlanTexts.{PlansLeast, PlansLeastInOrder};
ghost use Rattle.mm_chart.specs.Charts.{Charts};
ghost use Rattle.mm_chart.specs.Table.{IsTableOf};
ghost use Rattle.mm_sensitivity.specs.Charts.{ChartsWorth};
ghost use Rattle.mm_sensitivity.specs.Table.{IsWorthTable};
ghost use Rattle.mm_told.specs.Telling.{Tells};
ghost use Rattle.mm_c.specs.Telling.{IsWhyUnplanned, IsWhyUnjudged, Judges, LeavesUnjudged, IsNotTooSmall};

use mm_chart::{chart_bytes, table_bytes};
use mm_cut::check_bytes;
use mm_planner::{plan_bytes, plan_in_order_bytes};
use mm_sensitivity::{sensitivity_bytes, worth_chart_bytes};
use mm_told::{Answer, PLAN_ROOM, Reason, VerdictTold, plan_texts_fit, tell_text};
use std::alloc::Global;

// Tells the text that a call below gives, or why it gives none.
macro_rules! told {
    ($made:expr, $out:expr) => {
        match $made {
            Ok(text) => tell_text(&text, $out),
            Err(fault) => Answer::refused(Reason::of_texts(fault)),
        }
    };
}

/// The text of a dump plan that loses least for a setup and a forecast, as `plan_bytes` of `mm_planner` gives it. It is
/// written into `out`, if there is room for all of it; otherwise `out` stays as it was, and so it does where the call
/// is refused. `PLAN_ROOM` octets are never too few.
#[unsafe(no_mangle)]
pub extern "C" fn rudlayog_plan(
    alloc: Global,
    setup: &[u8],
    forecast: &[u8],
    out: &mut [u8],
    answer: &mut Answer,
)
    ensures told { Tells (PlansLeast setup.now forecast.now) (IsWhyUnplanned setup.now forecast.now) out.old out.new
        answer.new }
    ensures room { PLAN_ROOM ≤ length out.old → IsNotTooSmall answer.new }
{
    plan_texts_fit();
    *answer = told!(plan_bytes(alloc, setup, forecast), out);
}

/// The text of a dump plan that serves the stores in the setup's order, as `plan_in_order_bytes` of `mm_planner` gives
/// it.
#[unsafe(no_mangle)]
pub extern "C" fn rudlayog_plan_in_order(
    alloc: Global,
    setup: &[u8],
    forecast: &[u8],
    out: &mut [u8],
    answer: &mut Answer,
)
    ensures told { Tells (PlansLeastInOrder setup.now forecast.now) (IsWhyUnplanned setup.now forecast.now)
        out.old out.new answer.new }
{
    *answer = told!(plan_in_order_bytes(alloc, setup, forecast), out);
}

/// The verdict on a plan text for a setup and a forecast, as `check_bytes` of `mm_cut` gives it: in `verdict`, and as
/// its line in `out`. Where the call is refused each field of `verdict` is 0.
#[unsafe(no_mangle)]
pub extern "C" fn rudlayog_check(
    alloc: Global,
    setup: &[u8],
    forecast: &[u8],
    plan: &[u8],
    out: &mut [u8],
    verdict: &mut VerdictTold,
    answer: &mut Answer,
)
    ensures told { Tells (Judges setup.now forecast.now plan.now verdict.new)
        (LeavesUnjudged setup.now forecast.now plan.now verdict.new) out.old out.new answer.new }
{
    match check_bytes(alloc, setup, forecast, plan) {
        Ok((judged, line)) => {
            *verdict = VerdictTold::of(judged);
            *answer = tell_text(&line, out);
        }
        Err(fault) => {
            *verdict = VerdictTold::nothing();
            *answer = Answer::refused(Reason::of_texts(fault));
        }
    }
}

/// The chart of a plan text for a setup and a forecast, as `chart_bytes` of `mm_chart` draws it: a document of Scalable
/// Vector Graphics (SVG) 1.1 by itself.
#[unsafe(no_mangle)]
pub extern "C" fn rudlayog_chart(
    alloc: Global,
    setup: &[u8],
    forecast: &[u8],
    plan: &[u8],
    out: &mut [u8],
    answer: &mut Answer,
)
    ensures told { Tells (Charts setup.now forecast.now plan.now) (IsWhyUnjudged setup.now forecast.now plan.now)
        out.old out.new answer.new }
{
    *answer = told!(chart_bytes(alloc, setup, forecast, plan), out);
}

/// The chart of a plan text with what each window is worth, as `worth_chart_bytes` of `mm_sensitivity` draws it.
#[unsafe(no_mangle)]
pub extern "C" fn rudlayog_chart_worth(
    alloc: Global,
    setup: &[u8],
    forecast: &[u8],
    plan: &[u8],
    out: &mut [u8],
    answer: &mut Answer,
)
    ensures told { Tells (ChartsWorth setup.now forecast.now plan.now) (IsWhyUnjudged setup.now forecast.now plan.now)
        out.old out.new answer.new }
{
    *answer = told!(worth_chart_bytes(alloc, setup, forecast, plan), out);
}

/// The table of a plan text for a setup and a forecast, as `table_bytes` of `mm_chart` makes it: comma separated
/// values, which say what each step does to each store.
#[unsafe(no_mangle)]
pub extern "C" fn rudlayog_table(
    alloc: Global,
    setup: &[u8],
    forecast: &[u8],
    plan: &[u8],
    out: &mut [u8],
    answer: &mut Answer,
)
    ensures told { Tells (IsTableOf setup.now forecast.now plan.now) (IsWhyUnjudged setup.now forecast.now plan.now)
        out.old out.new answer.new }
{
    *answer = told!(table_bytes(alloc, setup, forecast, plan), out);
}

/// What each window, store size and limit is worth for a setup and a forecast, as `sensitivity_bytes` of
/// `mm_sensitivity` says it: comma separated values.
#[unsafe(no_mangle)]
pub extern "C" fn rudlayog_sensitivity(
    alloc: Global,
    setup: &[u8],
    forecast: &[u8],
    out: &mut [u8],
    answer: &mut Answer,
)
    ensures told { Tells (IsWorthTable setup.now forecast.now) (IsWhyUnplanned setup.now forecast.now) out.old out.new
        answer.new }
{
    *answer = told!(sensitivity_bytes(alloc, setup, forecast), out);
}
