//! The worths of numbers where stores have sizes by step or arrivals come during dumps: by hand, and compared with all
//! plans of tiny problems.
use crate::tests::samples::{Runtime, holds, is_least, next_below};
use crate::tests::worths::{Numbers, least_loss, least_number};
use mm_problem::{Arrivals, MAX_BLOCKS, Problem};
use mm_sensitivity::{Item, sensitivity_bytes, worths};

const CAM: &str = "[[store]]\nid = \"CAM\"\nsize = 4\ntype = \"bounded\"\nchannel = 0\n";

const CAM_DURING: &str =
    "arrivals = \"during\"\n[[store]]\nid = \"CAM\"\nsize = 4\ntype = \"bounded\"\nchannel = 0\n";

const STARTS_WITH_3: &str =
    "[[store]]\nid = \"CAM\"\nsize = 4\ntype = \"bounded\"\nchannel = 0\nstart = 3\n";

const STARTS_WITH_3_DURING: &str =
    "arrivals = \"during\"\n[[store]]\nid = \"CAM\"\nsize = 4\ntype = \"bounded\"\nchannel = 0\nstart = 3\n";

const LESS_AND_MORE: &str = "step,window,CAM,size:CAM\n1,1,5,3\n2,2,3,6\n";

const MUCH_LESS_AND_MORE: &str = "step,window,CAM,size:CAM\n1,1,5,2\n2,2,3,6\n";

const TWO_LEAVE_FIRST: &str = "step,window,CAM\n1,2,0\n2,0,1\n";

// The least plan loses 3: of 5 blocks the store holds 3 in step 1, and 2 stay; of 2 + 3 it holds 4 in step 2. If one
// block more leaves in step 1, or if the store holds 5, nothing is lost in step 2, where its column lets it hold 6. A
// larger size in step 1 only moves the loss to step 2. With a size of 1, 4 and 2 are lost; with a size of 0 in step 1,
// 5 and nothing; with a size of 0 in step 2, 2 and 5.
const BEFORE: &str =
    "item,name,step,now,next,most,without\nwindow,,1,1,1,1,1\nwindow,,2,2,0,0,0\nsize,CAM,,4,1,1,3\n\
    size,CAM,1,3,0,0,2\nsize,CAM,2,6,0,0,4\n";

// The least plan loses 2: of 5 blocks 1 leaves, and 2 of the other 4 are held; of 2 + 3 in step 2, 2 leave, and 3 are
// held. If all 5 leave in step 1, nothing is lost. With a size of 3 in step 1 one block is lost less; with 4, none is
// lost there, and 1 in step 2. With a size of 1, 3 and 1 are lost; with a size of 0 in step 1, 4 and nothing; with a
// size of 0 in step 2, 2 and 3. Without the window of step 1, 3 are lost; without that of step 2, 2 and 1.
const DURING: &str =
    "item,name,step,now,next,most,without\nwindow,,1,1,1,2,1\nwindow,,2,2,0,0,1\nsize,CAM,,4,0,0,2\n\
    size,CAM,1,2,1,1,2\nsize,CAM,2,6,0,0,3\n";

// Nothing is lost. A store of size 1 has no room for 2 of the 3 blocks with which it begins.
const SMALL_BEFORE: &str =
    "item,name,step,now,next,most,without\nwindow,,1,2,0,0,0\nwindow,,2,0,0,0,0\nsize,CAM,,4,0,0,2\n";

// These 2 leave in step 1, and only one that arrives in step 2 is lost.
const SMALL_DURING: &str =
    "item,name,step,now,next,most,without\nwindow,,1,2,0,0,0\nwindow,,2,0,0,0,0\nsize,CAM,,4,0,0,1\n";

static TABLES: [(&str, &str, &str, &str); 4] = wanted! {
    "sizes by step", CAM, LESS_AND_MORE => BEFORE;
    "sizes by step, and arrivals during dumps", CAM_DURING, MUCH_LESS_AND_MORE => DURING;
    "a store smaller than its start volume", STARTS_WITH_3, TWO_LEAVE_FIRST => SMALL_BEFORE;
    "such a store with arrivals during dumps", STARTS_WITH_3_DURING, TWO_LEAVE_FIRST => SMALL_DURING;
};

#[test]
fn tables_with_sizes_by_step_by_hand(rt: HostRuntime) {
    for (name, setup, forecast, wanted) in &TABLES {
        let made = sensitivity_bytes(rt.alloc(), setup.as_bytes(), forecast.as_bytes());
        let text = made.expect(&rt, "a table");
        holds(&rt, text.as_slice() == wanted.as_bytes(), name);
    }
}

// The problem with one number changed.
fn with(rt: &impl Runtime, problem: &Problem, item: Item, blocks: u32) -> Problem {
    let alloc = rt.alloc();
    assert!(rt; blocks <= MAX_BLOCKS);
    let changed = match item {
        Item::Window(step) => {
            assert!(rt; 1 <= step && step <= problem.steps());
            problem.with_window(alloc, step, blocks)
        }
        Item::Size(store) => {
            assert!(rt; 1 <= blocks && store < problem.stores());
            problem.with_size(alloc, store, blocks)
        }
        Item::Limit(channel) => {
            assert!(rt; channel < problem.channels());
            problem.with_limit(alloc, channel, blocks)
        }
        Item::StepLimit(column, step) => {
            assert!(rt; column < problem.limited().len() && 1 <= step && step <= problem.steps());
            problem.with_column_limit(alloc, column, step, blocks)
        }
        Item::StepSize(column, step) => {
            assert!(rt; column < problem.sized().len() && 1 <= step && step <= problem.steps());
            problem.with_column_size(alloc, column, step, blocks)
        }
    };
    changed.expect(rt, "memory")
}

// The worth of each number is the difference to the loss of the best of all plans. No more than 4 blocks that are held
// and 3 that arrive leave either of two stores in a step, so a number that is 14 larger is as good as the largest.
fn is_worth_what_all_plans_lose(rt: &impl Runtime, problem: &Problem) {
    let least = least_loss(rt, problem);
    for worth in worths(rt.alloc(), problem).expect(rt, "memory").iter() {
        let (item, now) = (worth.item, worth.now);
        let next = with(rt, problem, item, now.saturating_add(1));
        is_least(rt, &next, least.saturating_sub(worth.next));
        let most = with(rt, problem, item, now.saturating_add(14));
        is_least(rt, &most, least.saturating_sub(worth.most));
        let fewest = with(rt, problem, item, least_number(item));
        is_least(rt, &fewest, least.saturating_add(worth.without));
    }
}

// The problem with sizes for each step of its second store, or of both.
fn sized(rt: &impl Runtime, problem: &Problem, state: &mut u32) -> Problem {
    let mut stores = Vec::new(rt.alloc());
    let mut sizes = Vec::new(rt.alloc());
    for store in next_below(state, 2) as u8..2 {
        stores.push(store).expect(rt, "memory");
    }
    for _ in 0..problem.steps() {
        for _ in 0..stores.len() {
            sizes.push(next_below(state, 6)).expect(rt, "memory");
        }
    }
    let sized = problem.with_step_sizes(rt.alloc(), &stores, &sizes);
    sized.expect(rt, "a problem")
}

#[test]
fn numbers_are_worth_what_all_plans_lose_by_step(rt: HostRuntime) {
    let mut state = 29;
    for come in &[Arrivals::Before, Arrivals::During] {
        for _ in 0..12u32 {
            let numbers = Numbers::made(&rt, &mut state, 2, 2);
            let sized = sized(&rt, &numbers.problem(&rt), &mut state);
            let problem = sized.with_arrivals(rt.alloc(), *come);
            is_worth_what_all_plans_lose(&rt, &problem.expect(&rt, "memory"));
        }
    }
}
