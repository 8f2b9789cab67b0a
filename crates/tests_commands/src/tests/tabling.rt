//! What `table` prints of given plans.

use crate::tests::samples::{FIRST_PLAN, SCI, THREE_STEPS, of_plan, prints};

// The store takes 4 blocks. In step 3 it holds 2, and 4 arrive, so 2 are lost.
const FIRST_TABLE: &str = "\
step,window,store,arrived,lost,dumped,held
1,2,SCI,3,0,2,1
2,2,SCI,3,0,2,2
3,0,SCI,4,2,0,4
";

// A plan that wants more than its window and more than the store holds: what leaves is what stands there.
const GREEDY_PLAN: &str =
    "mmplan 1\nstores SCI\ndump 1 9\ndump 2 0\ndump 3 0\nloss 0\nbound 0\nend\n";

const GREEDY_TABLE: &str = "\
step,window,store,arrived,lost,dumped,held
1,2,SCI,3,0,3,0
2,2,SCI,3,0,0,3
3,0,SCI,4,3,0,4
";

#[test]
fn a_table_has_a_record_for_each_step_and_store(rt: HostRuntime) {
    for (plan, table) in [(FIRST_PLAN, FIRST_TABLE), (GREEDY_PLAN, GREEDY_TABLE)] {
        let script = of_plan("table", [SCI, THREE_STEPS, plan]);
        prints(&rt, table, &script, table, 0);
    }
}
