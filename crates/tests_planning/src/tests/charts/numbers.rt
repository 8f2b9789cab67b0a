//! The forms of numbers in charts.
use crate::tests::charts::samples::{ONE_STORE, chart_of, has_texts};
use crate::tests::samples::Runtime;

// The chart of the one store with each of these forecasts and plans has the text that follows them.
fn have_texts(rt: &impl Runtime, rows: &[(&str, &str, &str)]) {
    for (forecast, plan, wanted) in rows {
        let chart = chart_of(rt, ONE_STORE, forecast, plan);
        has_texts(rt, chart.as_str(), &[wanted]);
    }
}

// The steps in each of which a million blocks come, the step after them with what comes in it, the loss, which is one
// block less
// than all of them, and what the headline says of it: the texts of the forecast and of a plan by which nothing leaves.
macro_rules! thousands {
    ($($($million:literal)*, then $last:literal $rest:literal, lost $loss:literal => $wanted:literal;)+) => {
        [$((
            concat!("step,window,A\n", $($million, ",0,1000000\n",)* $last, ",0,", $rest, "\n"),
            concat!(
                "mmplan 1\nstores A\n", $("dump ", $million, " 0\n",)* "dump ", $last, " 0\nloss ", $loss,
                "\nbound 0\nend\n",
            ),
            $wanted,
        )),+]
    };
}

static THOUSANDS: [(&str, &str, &str); 5] = thousands! {
    , then 1 1, lost 0 => ">0 of 1 blocks are lost";
    , then 1 1000, lost 999 => ">999 of 1,000 blocks are lost";
    , then 1 1001, lost 1000 => ">1,000 of 1,001 blocks are lost";
    , then 1 874395, lost 874394 => ">874,394 of 874,395 blocks are lost";
    1 2 3 4 5 6 7 8 9 10 11 12 13 14 15 16 17 18 19 20 21 22 23 24 25 26 27 28 29 30,
        then 31 684560, lost 30684559 => ">30,684,559 of 30,684,560 blocks are lost";
};

#[test]
fn thousands_are_separated(rt: HostRuntime) {
    have_texts(&rt, &THOUSANDS);
}

// A forecast, a plan that dumps nothing, and what the headline says of the bound. Of the 2,346 blocks that come in step
// 2
// the store has room for 1; in step 1 of the other forecast none come, and it has room for 1.
static BOUNDS: [(&str, &str, &str); 2] = wanted! {
    "step,window,A\n1,0,1\n2,0,2346\n",
    "mmplan 1\nstores A\ndump 1 0\ndump 2 0\nloss 2346\nstretch A 2 2\nbound 2345\nend\n"
    => "fewer than 2,345<";
    "step,window,A\n1,0,0\n", "mmplan 1\nstores A\ndump 1 0\nloss 0\nstretch A 1 1\nbound -1\nend\n"
    => "fewer than &#8722;1<";
};

#[test]
fn a_bound_is_written_with_its_sign(rt: HostRuntime) {
    have_texts(&rt, &BOUNDS);
}
