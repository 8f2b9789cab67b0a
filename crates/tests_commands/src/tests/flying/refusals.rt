//! Runs that do not begin, for what their files say.

use super::{
    FIRST_RUN, IN_0, IN_1, IN_2, IN_3, PLAN_FROM_2, Run, STARTS_WITH_2, THREE_OF_TWO, TWO_ARE_FULL,
    runs,
};
use crate::tests::samples::refuses;

const PLAN_FOR_HK: &str =
    "mmplan 1\nstores HK\ndump 1 2\ndump 2 2\ndump 3 0\nloss 2\nstretch HK 1 3\nbound 2\nend\n";

// Before the run two packets for the first of the two stores, and one for the second.
const ONE_TOO_FEW: &str = "\
    1 0 0864C000000E200319000000000000000000000000\n\
    1 0 0865C000000E200319000000000000000000000000\n\
    1 0 0864C000000E200319000000000000000000000000\n";

// A plan that dumps more in step 1 than its window.
const ABOVE_THE_WINDOW: &str =
    "mmplan 1\nstores SCI\ndump 1 3\ndump 2 0\ndump 3 0\nloss 0\nbound 0\nend\n";

// A run that does not begin, for what one of its texts says: with one packet, in step 1.
const REFUSED: Run = Run {
    sources: &[IN_1],
    status: 1,
    ..FIRST_RUN
};

// Where several texts are bad the first in the order of the command is told, and of several refusals of the run the
// first.
static RUNS_REFUSED: [Run; 14] = based! { Run;
    REFUSED: example "no plan text, a packet cut short and a hundred links", plan "mmplan 4\n",
        sources &["1 3 08\n"], links "links 100", prints "refused 34 PlanText line 1\n";
    REFUSED: example "a plan for another store, a packet cut short and a hundred links",
        plan PLAN_FOR_HK, sources &["1 3 08\n"], links "links 100", prints "refused 35 Shape\n";
    REFUSED: example "a packet cut short and a hundred links", sources &["1 3 08\n"],
        links "links 100", prints "refused 51 SourcesText line 1\n";
    REFUSED: example "a plan above its window and no source", plan ABOVE_THE_WINDOW, sources &[],
        prints "refused 43 PlanDoesNotFit step 1\n";
    REFUSED: example "opening_contents_run, without the opening contents", setup STARTS_WITH_2,
        plan PLAN_FROM_2, sources &[IN_1, IN_1, IN_1, IN_2, IN_2, IN_2, IN_3, IN_3, IN_3, IN_3],
        prints "refused 41 OpeningDiffers store SCI\n";
    REFUSED: example "an opening packet too many and no link", sources &[IN_0], links "links 0",
        prints "refused 41 OpeningDiffers store SCI\n";
    REFUSED: example "more_opening_packets_than_blocks, with one too few for the second store",
        setup TWO_ARE_FULL, forecast "step,window,A,C\n1,3,1,1\n", plan THREE_OF_TWO,
        sources &[ONE_TOO_FEW], prints "refused 41 OpeningDiffers store C\n";
    REFUSED: example "more_opening_packets_than_blocks, without opening packets",
        setup TWO_ARE_FULL, forecast "step,window,A,C\n1,3,1,1\n", plan THREE_OF_TWO,
        prints "refused 41 OpeningDiffers store A\n";
    REFUSED: example "a hundred links", links "links 100", prints "refused 52 LinksText line 1\n";
    REFUSED: example "send 0 fails", links "links 1\nfail 1 0",
        prints "refused 52 LinksText line 2\n";
    REFUSED: example "no link", links "links 0", prints "refused 44 Counts\n";
    REFUSED: example "five links", links "links 5", prints "refused 44 Counts\n";
    REFUSED: example "good lines, and then too many links", links "links 99\nfail 99 1",
        prints "refused 44 Counts\n";
    REFUSED: example "no source", sources &[], prints "refused 44 Counts\n";
};

#[test]
fn run_files_refused(rt: HostRuntime) {
    for row in &RUNS_REFUSED {
        runs(&rt, row);
    }
    let unread = "run S F P X LINKS\n=== S\n[[store\n=== F\n=== P\n=== X\n";
    refuses(&rt, &[(unread, "refused 50 NotRead name LINKS\n")]);
}
