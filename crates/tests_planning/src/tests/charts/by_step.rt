//! Charts and tables, worked out by hand, where a store has sizes by step or arrivals come during dumps.
use crate::tests::charts::samples::{chart_of, has_lines, has_texts, text_of};
use crate::tests::samples::{FIRST_RUN, Runtime, SCI, THREE_STEPS, holds};
use mm_chart::table_bytes;

const CAM: &str = "[[store]]\nid = \"CAM\"\nsize = 4\ntype = \"bounded\"\nchannel = 0\n";

const CAM_DURING: &str =
    "arrivals = \"during\"\n[[store]]\nid = \"CAM\"\nsize = 4\ntype = \"bounded\"\nchannel = 0\n";

const LESS_AND_MORE: &str = "step,window,CAM,size:CAM\n1,1,5,2\n2,2,3,6\n";

const ONE_SIZE: &str = "step,window,CAM\n1,1,5\n2,2,3\n";

const ONE_AND_TWO: &str =
    "mmplan 1\nstores CAM\ndump 1 1\ndump 2 2\nloss 2\nstretch CAM 1 1\nbound 2\nend\n";

// Of 5 blocks 1 leaves in step 1, of the other 4 the store holds 2, and 2 are lost. Of 2 + 3 blocks 2 leave in step 2,
// and 3 are left. In a scale of 32 for the 4 blocks of the setup: 2 are 16, 3 are 24, and what is left and leaves, 3
// and then 5, is 24 and 32. The sizes, 2 and the setup's 4, are 16 and 32. Step 1, the only one of the stretch, is an
// inner one: 5 blocks come, 2 stay and 1 leaves.
static SHOWN: [&str; 12] = [
    "<text class='h' x='16' y='30'>2 of 8 blocks are lost, and no plan loses fewer</text>",
    "<path class='c' d='M180 148V108H276V148V148'/>",
    "<path class='c' d='M180 196V156H276V196V196'/>",
    "<path class='e' d='M180 196V156H276V196V196'/>",
    "<path class='g' d='M180 192V168H276V160H372V192'/>",
    "<path class='f' d='M180 192V176H276V168H372V192'/>",
    "<path class='z' d='M180 192V176H276V160H372V192'/>",
    "<path class='l' d='M180 160V150H276V160V160'/>",
    "<rect class='z' x='810' y='44' width='12' height='12'/><text class='t' x='826' y='54'>size of the store in this \
    step</text>",
    "<rect class='c' x='16' y='62' width='12' height='12'/><text class='t' x='32' y='72'>counts in the cut</text>",
    "<text class='s' x='172' y='188'>4, channel 0</text>",
    "<text class='w' x='16' y='328'>5 &#8722; 2 &#8722; 1 &#8722; 0 = 2: at least that many blocks are lost, \
    whatever is dumped.</text>",
];

#[test]
fn sizes_by_step_are_outlined(rt: HostRuntime) {
    let chart = chart_of(&rt, CAM_DURING, LESS_AND_MORE, ONE_AND_TWO);
    has_lines(&rt, chart.as_str(), &SHOWN);
}

#[test]
fn no_other_chart_has_an_outline_of_sizes(rt: HostRuntime) {
    for (setup, forecast, plan) in &[
        (SCI, THREE_STEPS, FIRST_RUN),
        (CAM_DURING, ONE_SIZE, ONE_AND_TWO),
    ] {
        let chart = chart_of(&rt, setup, forecast, plan);
        has_texts(&rt, chart.as_str(), &["<path class='f'"]);
        holds(
            &rt,
            !chart.contains("class='z'") && !chart.contains(".z{"),
            "no dashed line",
        );
    }
}

const FALLS: &str = "step,window,CAM,size:CAM\n1,0,3,4\n2,1,0,1\n";

const ONE_LEAVES: &str = "mmplan 1\nstores CAM\ndump 1 0\ndump 2 1\nloss 2\nbound 0\nend\n";

// Tables: the texts of a setup, of a forecast and of a plan, and the records that are written.
static TABLES: [(&str, &str, &str, &str); 4] = [
    // of 5 blocks 3 find no room in step 1, where 1 of 2 leaves; of 1 + 3 in step 2, 2 leave
    (
        CAM,
        LESS_AND_MORE,
        ONE_AND_TWO,
        "1,1,CAM,5,3,1,1\n2,2,CAM,3,0,2,2\n",
    ),
    // of 5 blocks 1 leaves first, and then 2 of 4 find no room
    (
        CAM_DURING,
        LESS_AND_MORE,
        ONE_AND_TWO,
        "1,1,CAM,5,2,1,2\n2,2,CAM,3,0,2,3\n",
    ),
    // the size falls below the 3 that are held: 2 are lost, and the other leaves
    (CAM, FALLS, ONE_LEAVES, "1,0,CAM,3,0,0,3\n2,1,CAM,0,2,1,0\n"),
    // 1 of the 3 leaves first: 1 of 2 is lost
    (
        CAM_DURING,
        FALLS,
        ONE_LEAVES,
        "1,0,CAM,3,0,0,3\n2,1,CAM,0,1,1,1\n",
    ),
];

#[test]
fn tables_have_the_records_of_the_kind(rt: HostRuntime) {
    for (setup, forecast, plan, wanted) in &TABLES {
        let (setup, forecast) = (setup.as_bytes(), forecast.as_bytes());
        let written = table_bytes(rt.alloc(), setup, forecast, plan.as_bytes());
        let table = text_of(&rt, written, plan);
        let records = table.as_str().split_once('\n').map(|parts| parts.1);
        holds(&rt, records == Some(*wanted), table.as_str());
    }
}
