//! The proposal compared with its plain form: on many generated problems both give the same plan, the same cut and the
//! same counts by channels. The windows take about what arrives, and the limits from half of it to twice, so that in
//! more than a third of the problems lost blocks are moved. The numbers of stores are around eight, and those of steps
//! around each number of spans that fills a word.
ghost use Rattle.std.specs.Prelude.{◌<◌, ◌≤◌};
ghost use Rattle.mm_plan.specs.Table.{HasShape};

use crate::tests::samples::{NAMES, Runtime, holds_of, limited, made, row};
use mm_plan::Plan;
use mm_problem::{LimitRow, MAX_BLOCKS, Problem, StoreRow};
use mm_propose::{Proposal, propose};

/// Numbers by SplitMix64 (Steele, Lea and Flood, 2014).
#[derive(Drop)]
pub(crate) struct Numbers {
    state: u64,
}

impl Numbers {
    pub(crate) fn seeded(state: u64) -> Numbers {
        Numbers { state }
    }

    // 64 bits.
    fn bits(&mut self) -> u64 {
        self.state = self.state.wrapping_add(0x9e37_79b9_7f4a_7c15);
        let mut bits = self.state;
        bits = (bits ^ (bits >> 30)).wrapping_mul(0xbf58_476d_1ce4_e5b9);
        bits = (bits ^ (bits >> 27)).wrapping_mul(0x94d0_49bb_1331_11eb);
        bits ^ (bits >> 31)
    }

    // A number from 0 to the most.
    fn upto(&mut self, most: u32) -> u32
        ensures { result ≤ most }
    {
        (self.bits() % (u64::from(most) + 1)) as u32
    }

    // A number from the least one to the least plus a range.
    fn from(&mut self, least: u32, more: u32) -> u32 {
        least.saturating_add(self.upto(more))
    }

    // One to four channels, most often four.
    fn channels(&mut self) -> u32 {
        4u32.saturating_sub(self.upto(5).saturating_sub(2))
    }

    // From the least number of stores up to 16, and from two steps up.
    pub(crate) fn shape(&mut self, least: u32, more: u32, is_limited: bool) -> Shape {
        Shape {
            stores: self.from(least, 16u32.saturating_sub(least)),
            steps: self.from(2, more),
            channels: self.channels(),
            is_limited,
        }
    }

    // True with this number of chances in eight.
    fn comes(&mut self, chances: u32) -> bool {
        self.upto(7) < chances
    }
}

/// A family of problems. Chances are out of eight.
#[derive(Clone, Copy)]
pub(crate) struct Family {
    name: &'static str,
    /// The least size of a store, and the range above it.
    size: u32,
    more: u32,
    /// The chances that blocks arrive in a store in a step, and the most that arrive.
    coming: u32,
    most: u32,
    /// The number of successive steps with arrivals, and then without.
    turns: u32,
    /// The chances that a step has a window, and the part of the arrivals that a window takes, in eighths: the least,
    /// and the range above it.
    open: u32,
    least: u32,
    wider: u32,
}

// Families: the sizes, the arrivals and the windows.
macro_rules! families {
    ($(
        $name:literal: $size:literal + $more:literal, $coming:literal $most:literal in $turns:literal,
        $open:literal of $least:literal + $wider:literal;
    )+) => {
        [$(Family {
            name: $name, size: $size, more: $more, coming: $coming, most: $most, turns: $turns,
            open: $open, least: $least, wider: $wider,
        }),+]
    };
}

pub(crate) static FAMILIES: [Family; 8] = families! {
    "bursts": 300 + 300, 7 300 in 4, 7 of 4 + 6;
    "waves": 5000 + 40000, 8 10000 in 16, 7 of 5 + 5;
    "showers": 75 + 300, 4 300 in 1, 8 of 6 + 4;
    "even": 300 + 0, 7 300 in 4, 5 of 3 + 7;
    "blocks": 4 + 8, 5 8 in 4, 8 of 4 + 8;
    "small": 8 + 0, 6 8 in 2, 5 of 4 + 7;
    "large": 10000 + 0, 4 10000 in 1, 7 of 7 + 5;
    "calm": 360 + 0, 3 90 in 16, 6 of 5 + 4;
};

impl Family {
    // This number of eighths of the mean arrivals of the stores, from one window to the next.
    fn flow(&self, stores: u32, eighths: u32) -> u32 {
        let coming = u32::saturating_mul(self.most, self.coming).saturating_mul(stores);
        let flow = coming.saturating_mul(eighths) / 32 / self.open.max(1);
        flow.min(MAX_BLOCKS)
    }

    // Whether blocks can arrive in a store in a step. Each store starts at another step.
    fn may_come(&self, store: u32, step: u32) -> bool {
        let from = store.saturating_mul(self.turns / 2 + 1);
        step.saturating_add(from) / self.turns.max(1) % 2 == 0
    }

    // Stores on any of the channels.
    fn stores(&self, rt: &impl Runtime, shape: Shape, numbers: &mut Numbers) -> Vec<StoreRow> {
        let mut rows = Vec::new(rt.alloc());
        for name in NAMES.iter().take(shape.stores as usize) {
            let size = numbers.from(self.size, self.more).min(MAX_BLOCKS);
            let start = numbers.upto(size);
            let last = shape.channels.saturating_sub(1).min(7);
            let channel = numbers.upto(last) as u8;
            rows.push(row(rt, name, size, start, channel))
                .expect(rt, "memory");
        }
        rows
    }

    // A limit for most channels: from half of the arrivals of its stores to twice.
    fn limits(&self, rt: &impl Runtime, rows: &[StoreRow], numbers: &mut Numbers) -> Vec<LimitRow> {
        let mut limits = Vec::new(rt.alloc());
        for channel in 0..4u8 {
            let blocks = self.flow(stores_on(rows, channel), numbers.from(4, 12));
            if numbers.comes(7) {
                let row = LimitRow { channel, blocks };
                limits.push(row).expect(rt, "memory");
            }
        }
        limits
    }

    fn windows(&self, rt: &impl Runtime, shape: Shape, numbers: &mut Numbers) -> Vec<u32> {
        let mut windows = Vec::new(rt.alloc());
        for _ in 0..shape.steps {
            let eighths = numbers.from(self.least, self.wider);
            let is_open = numbers.comes(self.open);
            let window = if is_open {
                self.flow(shape.stores, eighths)
            } else {
                0
            };
            windows.push(window).expect(rt, "memory");
        }
        windows
    }

    fn arrivals(&self, rt: &impl Runtime, shape: Shape, numbers: &mut Numbers) -> Vec<u32> {
        let mut arrivals = Vec::new(rt.alloc());
        for step in 0..shape.steps {
            for store in 0..shape.stores {
                let comes = self.may_come(store, step) && numbers.comes(self.coming);
                let blocks = if comes { numbers.upto(self.most) } else { 0 };
                arrivals.push(blocks).expect(rt, "memory");
            }
        }
        arrivals
    }

    // A problem of this family.
    pub(crate) fn problem(
        &self,
        rt: &impl Runtime,
        shape: Shape,
        numbers: &mut Numbers,
    ) -> Problem {
        let rows = self.stores(rt, shape, numbers);
        let limits = self.limits(rt, rows.as_slice(), numbers);
        let windows = self.windows(rt, shape, numbers);
        let arrivals = self.arrivals(rt, shape, numbers);
        let problem = made(rt, &rows, &limits, &windows, &arrivals);
        if shape.is_limited {
            limited_by_step(rt, &problem, numbers)
        } else {
            problem
        }
    }
}

/// The numbers of stores and steps of a problem, the number of its channels, and whether channels have limits for each
/// step.
#[derive(Clone, Copy)]
pub(crate) struct Shape {
    stores: u32,
    steps: u32,
    channels: u32,
    is_limited: bool,
}

// The number of stores on a channel.
fn stores_on(rows: &[StoreRow], channel: u8) -> u32 {
    let mut stores: u32 = 0;
    for row in rows.iter() {
        stores = stores.saturating_add(u32::from(row.channel == channel));
    }
    stores
}

// The same problem with a limit for each step for channels 0 and 2: up to twice the window.
fn limited_by_step(rt: &impl Runtime, problem: &Problem, numbers: &mut Numbers) -> Problem {
    let mut limits = Vec::new(rt.alloc());
    for step in 1..problem.steps() + 1 {
        let most = problem.window(step).saturating_mul(2).min(MAX_BLOCKS);
        for _ in 0..2u32 {
            limits.push(numbers.upto(most)).expect(rt, "memory");
        }
    }
    limited(rt, problem, &[0, 2], &limits)
}

// Whether two plans of a problem have the same amounts.
fn are_alike(problem: &Problem, first: &Plan, second: &Plan) -> bool
    requires first { HasShape problem.now first.now }
    requires second { HasShape problem.now second.now }
{
    for step in 1..problem.steps() + 1 {
        for store in 0..problem.stores() {
            if first.amount(store, step) != second.amount(store, step) {
                return false;
            }
        }
    }
    true
}

/// The results: the problems in which lost blocks were moved, those that lose none, and the cuts with steps that are
/// counted by channels.
#[derive(Clone, Copy, Default)]
struct Tally {
    moving: u32,
    sparing: u32,
    by_channels: u32,
}

impl Tally {
    // Counts a proposal. If nothing is lost, its cut is empty.
    fn count(&mut self, proposal: &Proposal, is_moved: bool) {
        let spares = proposal.cut.stretches.is_empty();
        let counts = !proposal.cut.by_channels.is_empty();
        self.moving = self.moving.saturating_add(u32::from(is_moved));
        self.sparing = self.sparing.saturating_add(u32::from(spares));
        self.by_channels = self.by_channels.saturating_add(u32::from(counts));
    }
}

// The proposal for a problem is the same as that of the plain form.
fn is_alike(rt: &impl Runtime, problem: &Problem, name: &str, tally: &mut Tally) {
    let (stores, steps) = (problem.stores(), problem.steps());
    let proposed = propose(rt.alloc(), problem).expect(rt, "memory");
    let plain = propose_plain::propose(rt.alloc(), problem).expect(rt, "memory");
    let plans = are_alike(problem, &proposed.plan, &plain.plan);
    holds_of(rt, plans, name, "the plan");
    let (cut, other) = (&proposed.cut, &plain.cut);
    let cuts = cut.stretches == other.stretches && cut.by_channels == other.by_channels;
    holds_of(rt, cuts, name, "the cut");
    let first = propose_plain::first_plan(rt.alloc(), problem).expect(rt, "memory");
    let is_moved = !are_alike(problem, &proposed.plan, &first);
    tally.count(&proposed, is_moved);
}

// They are the same for this number of problems of each family, with limits for each step or without.
fn tally_of(rt: &impl Runtime, seed: u64, rounds: u32, is_limited: bool) -> Tally {
    let mut numbers = Numbers::seeded(seed);
    let mut tally = Tally::default();
    for _ in 0..rounds {
        for family in &FAMILIES {
            let shape = numbers.shape(2, 62, is_limited);
            let problem = family.problem(rt, shape, &mut numbers);
            is_alike(rt, &problem, family.name, &mut tally);
        }
    }
    tally
}

#[test]
fn proposals_with_limits_by_step_are_those_of_the_plain_form(rt: HostRuntime) {
    let tally = tally_of(&rt, 227, 10, true);
    assert!(rt; tally.by_channels > 25);
}

#[test]
fn proposals_are_those_of_the_plain_form(rt: HostRuntime) {
    let tally = tally_of(&rt, 223, 40, false);
    assert!(rt; tally.moving > 90 && tally.sparing > 20 && tally.by_channels > 100);
}

static STORES: [u32; 4] = [2, 8, 9, 16];

// Each number is next to a number of spans that fills a word.
static STEPS: [u32; 10] = [63, 64, 65, 127, 128, 129, 192, 193, 255, 256];

#[test]
fn long_proposals_are_those_of_the_plain_form(rt: HostRuntime) {
    let mut numbers = Numbers::seeded(223);
    let mut tally = Tally::default();
    for (number, family) in FAMILIES.iter().enumerate() {
        for (place, steps) in STEPS.iter().enumerate() {
            let shape = Shape {
                stores: STORES[(number + place) % 4],
                steps: *steps,
                channels: numbers.channels(),
                is_limited: false,
            };
            let problem = family.problem(&rt, shape, &mut numbers);
            is_alike(&rt, &problem, family.name, &mut tally);
        }
    }
    assert!(rt; tally.moving > 45 && tally.sparing > 1 && tally.by_channels > 40);
}
