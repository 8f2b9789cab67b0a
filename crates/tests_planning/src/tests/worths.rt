//! The worths of windows, sizes and limits: by hand, compared with all plans of tiny problems, and with new plans.
use crate::tests::samples::{NAMES, Runtime, holds, is_least, limited, made, next_below, row};
use mm_planner::plan;
use mm_problem::{LimitRow, MAX_BLOCKS, Problem, StoreRow};
use mm_sensitivity::{Item, sensitivity_bytes, worths};

pub(crate) const THREE_STORES: &str =
    "[[store]]\nid = \"CAM\"\nsize = 4\ntype = \"bounded\"\nchannel = 0\n[[store]]\nid = \"SPEC\"\nsize = 3\ntype = \
    \"bounded\"\nchannel = 1\n[[store]]\nid = \"HK\"\nsize = 2\ntype = \"bounded\"\nchannel = 0\n";

pub(crate) const EIGHT_STEPS: &str =
    "step,window,CAM,SPEC,HK\n1,1,2,0,1\n2,1,3,1,0\n3,2,4,1,0\n4,6,0,1,1\n5,3,0,0,0\n6,0,0,2,0\n7,0,0,3,1\n8,5,0,0,0\n";

// The least plan loses 5. Of the 2 + 3 + 4 blocks that arrive in CAM in steps 1 to 3, the windows of steps 1 and 2 take
// 2, and CAM holds 4. Of the 2 + 3 that arrive in SPEC in steps 6 and 7, the window of step 6 takes none, and SPEC
// holds 3. If the window of step 2 is larger by 3, the 3 blocks of CAM are saved, and no cut counts this window.
const WORTH_3_THEN_NOTHING: &str =
    "item,name,step,now,next,most,without\nwindow,,1,1,1,1,1\nwindow,,2,1,1,3,1\nwindow,,3,2,0,0,0\n\
    window,,4,6,0,0,0\nwindow,,5,3,0,0,0\nwindow,,6,0,1,2,0\nwindow,,7,0,0,0,0\nwindow,,8,5,0,0,0\n\
    size,CAM,,4,1,3,3\nsize,SPEC,,3,1,2,3\nsize,HK,,2,0,0,0\n";

pub(crate) const ONE_STORE: &str =
    "[[store]]\nid = \"CAM\"\nsize = 4\ntype = \"bounded\"\nchannel = 0\n[[limit]]\nchannel = 0\nblocks = 5\n";

pub(crate) const LIMITS_BY_STEP: &str = "step,window,CAM,limit:0\n1,3,6,2\n2,4,4,1\n";

// The least plan loses 4: of 6 blocks the store holds 4, step 1 sends 2, and of the 2 + 4 then it holds 4. With a limit
// of 3 in step 1 that is 3, and its window lets no more through. Where step 1 sends nothing, it loses 2 + 4. What step
// 2 sends comes too late.
const WORTH_BY_STEP: &str =
    "item,name,step,now,next,most,without\nwindow,,1,3,0,0,2\nwindow,,2,4,0,0,0\nsize,CAM,,4,1,4,4\n\
    limit,0,,5,0,0,2\nlimit,0,1,2,1,1,2\nlimit,0,2,1,0,0,0\n";

static TABLES: [(&str, &str, &str, &str); 2] = wanted! {
    "a limit of a step is worth one block", ONE_STORE, LIMITS_BY_STEP => WORTH_BY_STEP;
    "a window is worth 3 and then nothing", THREE_STORES, EIGHT_STEPS => WORTH_3_THEN_NOTHING;
};

#[test]
fn tables_by_hand(rt: HostRuntime) {
    for (name, setup, forecast, wanted) in &TABLES {
        let made = sensitivity_bytes(rt.alloc(), setup.as_bytes(), forecast.as_bytes());
        let text = made.expect(&rt, "a table");
        holds(&rt, text.as_slice() == wanted.as_bytes(), name);
    }
}

/// The numbers of a problem.
#[derive(Clone, Drop)]
pub(crate) struct Numbers {
    rows: Vec<StoreRow>,
    limits: Vec<LimitRow>,
    windows: Vec<u32>,
    arrivals: Vec<u32>,
    // the channels with a limit for each step, and these limits, step by step
    limited: Vec<u8>,
    step_limits: Vec<u32>,
}

impl Numbers {
    // Random numbers for these stores and steps, each at most a few blocks.
    pub(crate) fn made(rt: &impl Runtime, state: &mut u32, stores: u32, steps: u32) -> Numbers {
        let mut rows = Vec::new(rt.alloc());
        for name in NAMES.iter().take(stores as usize) {
            let size = next_below(state, 4).saturating_add(1);
            let start = next_below(state, size.saturating_add(1).max(1));
            let channel = next_below(state, 2) as u8;
            rows.push(row(rt, name, size, start, channel))
                .expect(rt, "memory");
        }
        let mut limits = Vec::new(rt.alloc());
        if next_below(state, 2) == 0 {
            let (channel, blocks) = (0, next_below(state, 3));
            let limit = LimitRow { channel, blocks };
            limits.push(limit).expect(rt, "memory");
        }
        let mut windows = Vec::new(rt.alloc());
        let mut arrivals = Vec::new(rt.alloc());
        for _ in 0..steps {
            windows.push(next_below(state, 4)).expect(rt, "memory");
            for _ in 0..stores {
                let blocks = next_below(state, 6).saturating_sub(2);
                arrivals.push(blocks).expect(rt, "memory");
            }
        }
        let mut numbers = Numbers {
            rows,
            limits,
            windows,
            arrivals,
            limited: Vec::new(rt.alloc()),
            step_limits: Vec::new(rt.alloc()),
        };
        numbers.add_columns(rt, state, steps);
        numbers
    }

    // Adds a limit for each step to one channel, to two or to none.
    fn add_columns(&mut self, rt: &impl Runtime, state: &mut u32, steps: u32) {
        for channel in 0..2u8 {
            if next_below(state, 2) == 0 {
                self.limited.push(channel).expect(rt, "memory");
            }
        }
        for _ in 0..steps {
            for _ in 0..self.limited.len() {
                let blocks = next_below(state, 3);
                self.step_limits.push(blocks).expect(rt, "memory");
            }
        }
    }

    pub(crate) fn problem(&self, rt: &impl Runtime) -> Problem {
        let problem = made(rt, &self.rows, &self.limits, &self.windows, &self.arrivals);
        limited(rt, &problem, &self.limited, &self.step_limits)
    }

    // The problem with one number changed. If a store becomes smaller than its start volume, this volume arrives in the
    // first step.
    fn with(&self, rt: &impl Runtime, item: Item, blocks: u32) -> Problem {
        let mut changed = self.clone().expect(rt, "memory");
        match item {
            Item::Window(step) => {
                let place = (step as usize).saturating_sub(1);
                *changed.windows.get_mut(place).expect(rt, "a step") = blocks;
            }
            Item::Size(store) => {
                let row = changed.rows.get_mut(store).expect(rt, "a store");
                let arrived = changed.arrivals.get_mut(store).expect(rt, "a store");
                *arrived = arrived.saturating_add(row.start);
                row.start = 0;
                row.size = blocks;
            }
            Item::Limit(channel) => {
                let limit = LimitRow { channel, blocks };
                changed.limits.clear();
                changed.limits.push(limit).expect(rt, "memory");
            }
            Item::StepLimit(column, step) => {
                let row = (step as usize).saturating_sub(1);
                let place = row.saturating_mul(self.limited.len());
                let limit = changed.step_limits.get_mut(place.saturating_add(column));
                *limit.expect(rt, "a step") = blocks;
            }
            // no store has sizes by step
            Item::StepSize(..) => {}
        }
        changed.problem(rt)
    }
}

pub(crate) fn least_number(item: Item) -> u32 {
    match item {
        Item::Size(_) => 1,
        _ => 0,
    }
}

// The loss of a new plan.
pub(crate) fn least_loss(rt: &impl Runtime, problem: &Problem) -> u64 {
    plan(rt.alloc(), problem)
        .expect(rt, "memory")
        .certificate
        .loss()
}

// The worth of each number is the difference to the loss of a new plan of the changed problem.
fn is_worth_what_plans_lose(rt: &impl Runtime, numbers: &Numbers) {
    let problem = numbers.problem(rt);
    let least = least_loss(rt, &problem);
    for worth in worths(rt.alloc(), &problem).expect(rt, "memory").iter() {
        let (item, now) = (worth.item, worth.now);
        let next = least_loss(rt, &numbers.with(rt, item, now.saturating_add(1)));
        let most = least_loss(rt, &numbers.with(rt, item, MAX_BLOCKS));
        let without = least_loss(rt, &numbers.with(rt, item, least_number(item)));
        holds(rt, next.saturating_add(worth.next) == least, "the worth");
        holds(rt, most.saturating_add(worth.most) == least, "the worth");
        holds(
            rt,
            without == least.saturating_add(worth.without),
            "the worth",
        );
    }
}

// Each makes a hundred problems.
static SEEDS: [u32; 5] = [56, 57, 58, 59, 60];

#[test]
fn numbers_are_worth_what_plans_made_anew_lose(rt: HostRuntime) {
    for seed in &SEEDS {
        let mut state = *seed;
        for _ in 0..100u32 {
            let stores = next_below(&mut state, 3).saturating_add(1);
            let steps = next_below(&mut state, 5).saturating_add(1);
            let numbers = Numbers::made(&rt, &mut state, stores, steps);
            is_worth_what_plans_lose(&rt, &numbers);
        }
    }
}

// The worth of each number is the difference to the loss of the best of all plans. Two stores hold at most eight
// blocks, so a number that is eight larger is as good as the largest.
fn is_worth_what_all_plans_lose(rt: &impl Runtime, numbers: &Numbers) {
    let problem = numbers.problem(rt);
    let least = least_loss(rt, &problem);
    for worth in worths(rt.alloc(), &problem).expect(rt, "memory").iter() {
        let (item, now) = (worth.item, worth.now);
        let next = numbers.with(rt, item, now.saturating_add(1));
        is_least(rt, &next, least.saturating_sub(worth.next));
        let without = numbers.with(rt, item, least_number(item));
        is_least(rt, &without, least.saturating_add(worth.without));
        let most = numbers.with(rt, item, now.saturating_add(8));
        is_least(rt, &most, least.saturating_sub(worth.most));
    }
}

#[test]
fn numbers_are_worth_what_all_plans_lose(rt: HostRuntime) {
    let mut state = 8;
    for _ in 0..24u32 {
        let numbers = Numbers::made(&rt, &mut state, 2, 2);
        is_worth_what_all_plans_lose(&rt, &numbers);
    }
}
