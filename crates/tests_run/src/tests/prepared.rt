//! Runs from texts in two steps: the plan text before the run, and then what the run prints.

use crate::tests::runs::trials::{DURING_RUN, FIRST_RUN, SIZED_RUN, TWO_PASSES, Task};
use mm_exec::Goal;
use mm_run::{PreparedRun, Printed, RunTexts, prepare_run};
use std::alloc::Global;
use std::process::Abort;

// Three packets in step 1, three in step 2 and four in step 3, as is forecast.
const SOURCES: &str = "\
1 1 0864C001000E200319000000000000000000000000
1 1 0864C002000E200319000000000000000000000000
1 1 0864C003000E200319000000000000000000000000
1 2 0864C004000E200319000000000000000000000000
1 2 0864C005000E200319000000000000000000000000
1 2 0864C006000E200319000000000000000000000000
1 3 0864C007000E200319000000000000000000000000
1 3 0864C008000E200319000000000000000000000000
1 3 0864C009000E200319000000000000000000000000
1 3 0864C00A000E200319000000000000000000000000
";

// What the whole run reports, worked out by hand: the store of four blocks loses two packets in step 3.
const REPORT: &str = "\
step 1 SCI arrived 3 lost 0 dumped 2 held 1
step 2 SCI arrived 3 lost 0 dumped 2 held 2
step 3 SCI arrived 4 lost 2 dumped 0 held 4
total arrived 10 lost 2 dumped 4 held 4
";

// A run of a task with these links that is ready to begin, of a plan text or of a plan that is made.
fn prepared(
    rt: &impl Abort,
    alloc: Global,
    task: &Task,
    links: &str,
    plan: Option<&str>,
) -> PreparedRun {
    let texts = RunTexts {
        setup: task.setup.as_bytes(),
        forecast: task.forecast.as_bytes(),
        sources: SOURCES.as_bytes(),
        links: links.as_bytes(),
    };
    let plan = plan.map(str::as_bytes);
    prepare_run(alloc, texts, plan, Goal::Least).expect(rt, "texts")
}

// A task, links, the plan text where it is given, and what is printed: the plan text before the run, then the report and
// the last line. A run whose steps cannot be carried out is refused before its links are counted.
static RUNS: [(Task, &str, Option<&str>, &str, &str, &str); 7] = wanted! {
    FIRST_RUN, "links 1\n", None, TWO_PASSES, REPORT => "";
    FIRST_RUN, "links 1\n", Some(TWO_PASSES), "", REPORT => "";
    FIRST_RUN, "links 1\nfail 1 1\n", None, TWO_PASSES, "total arrived 0 lost 0 dumped 0 held 0\n"
    => "halted step 1 46 LinkFailed\n";
    FIRST_RUN, "links 0\n", None, TWO_PASSES, "" => "refused 44 Counts\n";
    DURING_RUN, "links 1\n", None, TWO_PASSES, "" => "refused 55 NotFlyable\n";
    SIZED_RUN, "links 1\n", Some(TWO_PASSES), "", "" => "refused 55 NotFlyable\n";
    DURING_RUN, "links 0\n", Some(TWO_PASSES), "", "" => "refused 55 NotFlyable\n";
};

#[test]
fn the_plan_text_is_there_before_the_run(rt: HostRuntime) {
    for (task, links, plan, text, report, end) in &RUNS {
        let run = prepared(&rt, rt.alloc(), task, *links, *plan);
        assert!(rt;
            run.plan_text() == text.as_bytes(),
            "the plan text before the run"
        );
        let printed = run.carry_out(&rt, rt.alloc());
        assert!(rt;
            printed.sheet.as_slice() == text.as_bytes(),
            "the same plan text"
        );
        assert!(rt;
            printed.report.as_slice() == report.as_bytes(),
            "the report"
        );
        assert!(rt; printed.end.as_slice() == end.as_bytes(), "the last line");
    }
}

// In step 2 a packet was sent before the send that failed. The two packets of step 1 are in the report.
#[test]
fn a_halted_run_hands_on_what_it_left(rt: HostRuntime) {
    let run = prepared(&rt, rt.alloc(), &FIRST_RUN, "links 1\nfail 1 4\n", None);
    let Printed { left, .. } = run.carry_out(&rt, rt.alloc());
    let Some(left) = left else {
        panic!(&rt; "the run is halted");
    };
    assert!(rt; left.memory.stores().len() == 1, "the store");
    assert!(rt; left.halted.spent == 2, "two sends in step 2");
    assert!(rt; left.dumped(0) == 0, "nothing is dumped in step 2");
    assert!(rt; left.still_held() == 1, "one packet is sent and held");
    let volume = left.volume(0).map(|volume| volume.blocks);
    assert!(rt;
        volume == Some(4),
        "one packet of step 1 and three of step 2"
    );
    assert!(rt; left.volume(1).is_none(), "there is one store");
    assert!(rt;
        left.window_left(2) == 0,
        "both blocks of the window are spent"
    );
    assert!(rt; !left.is_limited(), "no channel has a limit");
    for link in &left.halted.links {
        let failed = link.last_failure().map(|failed| failed.send);
        assert!(rt; failed == Some(4), "the send that failed");
    }
}
