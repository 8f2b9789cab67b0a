//! Tables of plans whose records are worked out by hand.
use crate::tests::charts::samples::text_of;
use crate::tests::charts::sizes::{WIDE, most_lost, most_steps};
use crate::tests::samples::{FIRST_RUN, Runtime, SCI, THREE_STEPS, holds};
use mm_chart::table_bytes;

// The table of these texts.
fn table_of(rt: &impl Runtime, setup: &str, forecast: &str, plan: &str) -> String {
    let (setup, forecast) = (setup.as_bytes(), forecast.as_bytes());
    let written = table_bytes(rt.alloc(), setup, forecast, plan.as_bytes());
    text_of(rt, written, plan)
}

const TWO_STORES: &str =
    "[[store]]\nid = \"CAM\"\nsize = 5\ntype = \"circular\"\nchannel = 0\nstart = 4\n\
    [[store]]\nid = \"HK\"\nsize = 3\ntype = \"bounded\"\nchannel = 1\n";

const FULL: &str =
    "[[store]]\nid = \"-_9LONG_\"\nsize = 1000000\ntype = \"circular\"\nchannel = 7\nstart = 1000000\n";

// Tables: the texts of a setup, of a forecast and of a plan, and the lines that are written.
macro_rules! tables {
    ($($setup:expr, $forecast:expr, $plan:expr => $($line:literal)+;)+) => {
        [$(($setup, $forecast, $plan, concat!($($line, "\n"),+))),+]
    };
}

static TABLES: [(&str, &str, &str, &str); 4] = tables! {
    // 3 stand in the store of 4, and 2 leave; 1 + 3 stand there, and 2 leave; of 2 + 4 the store has room for 4.
    SCI, THREE_STEPS, FIRST_RUN =>
        "step,window,store,arrived,lost,dumped,held"
        "1,2,SCI,3,0,2,1"
        "2,2,SCI,3,0,2,2"
        "3,0,SCI,4,2,0,4";

    // More is to leave in step 1 than the window lets through: 3 leave, 0 + 3 stay, and of 3 + 4 there is room for 4.
    SCI, THREE_STEPS,
    "mmplan 1\nstores SCI\ndump 1 3\ndump 2 0\ndump 3 0\nloss 3\nbound 0\nend\n" =>
        "step,window,store,arrived,lost,dumped,held"
        "1,2,SCI,3,0,3,0"
        "2,2,SCI,3,0,0,3"
        "3,0,SCI,4,3,0,4";

    // Step 1: of 4 + 3 the circular store has room for 5, and 3 leave; of 2 in the other 1 leaves. Step 2: 2 stay; of
    // 1 + 5 there is room for 3. Step 3: of 2 + 6 there is room for 5, and 2 leave; 4 are to leave of 3, and 3 do.
    TWO_STORES, "step,window,CAM,HK\n1,4,3,2\n2,0,0,5\n3,6,6,0\n",
    "mmplan 1\nstores CAM HK\ndump 1 3 1\ndump 2 0 0\ndump 3 2 4\nloss 8\nbound 0\nend\n" =>
        "step,window,store,arrived,lost,dumped,held"
        "1,4,CAM,3,2,3,2"
        "1,4,HK,2,0,1,1"
        "2,0,CAM,0,0,0,2"
        "2,0,HK,5,3,0,3"
        "3,6,CAM,6,3,2,3"
        "3,6,HK,0,0,3,0";

    // A million come to a full store of a million: as many are lost, and the rest leaves.
    FULL, "step,window,-_9LONG_\n1,1000000,1000000\n",
    "mmplan 1\nstores -_9LONG_\ndump 1 1000000\nloss 1000000\nbound 1000000\nend\n" =>
        "step,window,store,arrived,lost,dumped,held"
        "1,1000000,-_9LONG_,1000000,1000000,1000000,0";
};

#[test]
fn tables_have_these_records(rt: HostRuntime) {
    for (setup, forecast, plan, wanted) in &TABLES {
        let table = table_of(&rt, setup, forecast, plan);
        holds(&rt, table.as_str() == *wanted, wanted);
    }
}

// Lines of the largest table, of which the last is the 4,096th after the header.
static LARGEST: [(usize, Option<&str>); 4] = [
    (16, Some("1,0,WIDE-_16,1000000,1000000,0,1")),
    (17, Some("2,0,WIDE-_1,1000000,1000000,0,1")),
    (4096, Some("256,0,WIDE-_16,1000000,1000000,0,1")),
    (4097, None),
];

// The table has these lines at these places.
fn has_places(rt: &impl Runtime, table: &str) {
    for (place, line) in &LARGEST {
        holds(
            rt,
            table.lines().nth(*place) == *line,
            "a line of the table",
        );
    }
}

// 16 stores that are full from the start, and 256 steps without a window: all that comes is lost. The record of each
// store stands where it is due.
#[test]
fn sixteen_stores_and_256_steps_have_4096_records(rt: HostRuntime) {
    let (forecast, plan) = (most_steps(&rt), most_lost(&rt));
    let table = table_of(&rt, WIDE, forecast.as_str(), plan.as_str());
    has_places(&rt, table.as_str());
}
