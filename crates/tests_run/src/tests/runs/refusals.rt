//! Runs that are refused before they begin: each cause, and which of several comes first. Nothing has changed.

use crate::tests::links::all_have_sent;
use crate::tests::runs::rows::{Run, run};
use crate::tests::runs::standing::standing;
use crate::tests::runs::trials::{
    Change, DURING_RUN, FIRST_RUN, Found, Left, NO_STEP, ONE_STORE, SIZED_RUN, TOO_LATE,
    TWO_PASSES, Task, Trial, Why, cause_of, has_text, left, setup,
};
use crate::tests::samples::{holds_of, id, memory_of};
use crate::tests::sources::all_have_left;
use mm_memory::Answer;
use mm_st15::{Channel, Entries, Request};
use std::alloc::Global;
use std::process::Abort;
use std::sync::Wait;
use std::thread::Threads;

// A plan of the problem of a task, over a memory of another setup, to whose stores HK and SCI something was done; this
// many sources of the first run, links that do not fail, and the moment before the first step; and why it is refused.
#[derive(Clone, Copy)]
struct Refused {
    name: &'static str,
    task: Task,
    plan: &'static str,
    memory: &'static str,
    others: &'static [Change],
    changes: &'static [Change],
    sources: u32,
    links: &'static [Option<u64>],
    base: u64,
    why: Why,
}

// Rows of runs that are refused: what differs from a run with a name, and why they are.
macro_rules! refused {
    ($($name:literal, $base:ident $($field:ident $value:expr),* => $why:expr;)*) => {
        [$(Refused { name: $name, $($field: $value,)* why: $why, ..$base }),*]
    };
}

// The run is refused. Nothing was drawn, nothing was taken from the sources, and nothing was sent; the stores are as
// they were.
fn refuses<R: Threads + Wait + Sync + Abort>(rt: &R, trial: &mut Trial, run: &Refused) {
    let name = run.name;
    let before = standing(rt, trial);
    let ended = trial.run_of(rt, run.sources, [3, 3, 4], run.links, run.base);
    let halted = Some((cause_of(rt, run.why), 0));
    holds_of(rt, ended.halted == halted, name, "the cause, no draw");
    has_text(rt, trial.alloc, name, &ended.report, NO_STEP);
    all_have_left(rt, &ended.sources, run.sources as usize, [3, 3, 4]);
    all_have_sent(rt, name, &ended.links, run.links.len(), 0);
    let after = standing(rt, trial);
    holds_of(rt, after == before, name, "the stores are as before");
}

// The trial of a run that is to be refused.
fn prepared(rt: &impl Abort, alloc: Global, run: &Refused) -> Trial {
    let mut task = run.task;
    task.plan = run.plan;
    let mut trial = Trial::new(rt, alloc, &task);
    trial.memory = memory_of(rt, alloc, run.memory);
    trial.change_of(rt, "HK", run.others);
    trial.change_of(rt, "SCI", run.changes);
    trial
}

fn all_refused<R: Threads + Wait + Sync + Abort>(rt: &R, alloc: Global, runs: &[Refused]) {
    for run in runs {
        let mut trial = prepared(rt, alloc, run);
        refuses(rt, &mut trial, run);
    }
}

const ON_CHANNEL_5: &str = setup! { store "SCI", apid 100, size 4, type "bounded", channel 5; };

const FIVE_BLOCKS: &str = setup! { store "SCI", apid 100, size 5, type "bounded", channel 0; };

const ANOTHER_STORE: &str = setup! { store "HK", apid 100, size 4, type "bounded", channel 0; };

const ONE_STORE_MORE: &str = setup! {
    store "HK", apid 100, size 4, type "bounded", channel 0; store "SCI", apid 100, size 4, type "bounded", channel 0;
};

const OF_TWO_STORES: &str =
    "mmplan 1\nstores HK SCI\ndump 1 0 2\ndump 2 0 2\ndump 3 0 0\nloss 2\nbound 2\nend\n";

const TWO_STEPS: &str = "mmplan 1\nstores SCI\ndump 1 2\ndump 2 2\nloss 2\nbound 2\nend\n";

const THREE_IN_STEP_1: &str =
    "mmplan 1\nstores SCI\ndump 1 3\ndump 2 1\ndump 3 0\nloss 2\nbound 2\nend\n";

const A_PACKET: &[Change] = &[Change::Offer(0, 900)];

const A_LATE_TIME: &[Change] = &[Change::Offer(TOO_LATE, 900), Change::Delete(u64::MAX, 1)];

const OFF: &[Change] = &[Change::Off];

// The first run, with nothing that would refuse it; each row says why its own is refused.
const FIRST: Refused = Refused {
    name: "the first run",
    task: FIRST_RUN,
    plan: TWO_PASSES,
    memory: ONE_STORE,
    others: &[],
    changes: &[],
    sources: 1,
    links: &[None],
    base: 0,
    why: Why::Counts,
};

// Of a store that is missing and one that is none of the problem's, the missing one is told. A store whose last storage
// time is late refuses a run, also when the packet has been deleted.
static REFUSED: [Refused; 18] = refused! {
    "a late moment", FIRST base TOO_LATE => Why::ClockTooLate;
    "a late moment, on another channel without a limit", FIRST memory ON_CHANNEL_5, base TOO_LATE
    => Why::ClockTooLate;
    "no link", FIRST links &[] => Why::Counts;
    "five links", FIRST links &[None; 5] => Why::Counts;
    "no source", FIRST sources 0 => Why::Counts;
    "nine sources", FIRST sources 9 => Why::Counts;

    "arrivals during dumps", FIRST task DURING_RUN => Why::NotFlyable;
    "sizes by step", FIRST task SIZED_RUN => Why::NotFlyable;
    "a plan of two steps", FIRST plan TWO_STEPS => Why::PlanShape;
    "a plan of two stores", FIRST plan OF_TWO_STORES => Why::PlanShape;
    "a plan above its window", FIRST plan THREE_IN_STEP_1 => Why::PlanDoesNotFit(1);
    "another size", FIRST changes &[Change::Off, Change::Resize(5), Change::On] => Why::At(Found::SizeDiffers, "SCI");
    "a packet", FIRST changes A_PACKET => Why::At(Found::OpeningDiffers, "SCI");

    "storage off", FIRST changes OFF => Why::At(Found::NotReady, "SCI");
    "a retrieval", FIRST changes &[Change::Retrieve] => Why::At(Found::NotReady, "SCI");
    "another store", FIRST memory ANOTHER_STORE => Why::At(Found::NotReady, "SCI");
    "one store more", FIRST memory ONE_STORE_MORE => Why::At(Found::NotReady, "HK");
    "a late storage time", FIRST changes A_LATE_TIME => Why::ClockTooLate;
};

#[test]
fn run_refused_before_it_begins(rt: HostRuntime) {
    all_refused(&rt, rt.alloc(), &REFUSED);
}

// The first run, with a plan above its window, no source and no link.
const WITH_NONE: Refused = Refused {
    plan: THREE_IN_STEP_1,
    sources: 0,
    links: &[],
    ..FIRST
};

// And with another size, storage off after a packet was offered, and a late moment.
const WRONG: Refused = Refused {
    memory: FIVE_BLOCKS,
    changes: &[Change::Offer(TOO_LATE, 900), Change::Off],
    base: TOO_LATE,
    ..WITH_NONE
};

// Of several causes the first is told. With each row one cause is taken away.
static IN_ORDER: [Refused; 9] = refused! {
    "all is wrong", WRONG task DURING_RUN, plan TWO_STEPS => Why::NotFlyable;
    "but the arrivals", WRONG task SIZED_RUN, plan TWO_STEPS => Why::NotFlyable;
    "but the sizes by step", WRONG plan TWO_STEPS => Why::PlanShape;
    "but the plan's shape", WRONG => Why::At(Found::NotReady, "SCI");
    "but the storage", WRONG changes &[Change::Offer(TOO_LATE, 900), Change::Off, Change::On]
    => Why::At(Found::SizeDiffers, "SCI");
    "but the size", WITH_NONE changes &[Change::Offer(TOO_LATE, 900)] => Why::At(Found::OpeningDiffers, "SCI");
    "but the opening contents", WITH_NONE changes A_LATE_TIME => Why::ClockTooLate;
    "but the storage time", WITH_NONE => Why::PlanDoesNotFit(1);
    "but the plan", WITH_NONE plan TWO_PASSES => Why::Counts;
};

#[test]
fn causes_come_in_order(rt: HostRuntime) {
    all_refused(&rt, rt.alloc(), &IN_ORDER);
}

const TWO_STORES: &str = setup! {
    store "HK", apid 100, size 4, type "bounded", channel 0; store "SCI", apid 100, size 4, type "bounded", channel 1;
    limit channel 0, blocks 9;
};

const BOTH_LARGER: &str = setup! {
    store "HK", apid 100, size 5, type "bounded", channel 0; store "SCI", apid 100, size 5, type "bounded", channel 1;
};

const SCI_LARGER: &str = setup! {
    store "HK", apid 100, size 4, type "bounded", channel 0; store "SCI", apid 100, size 5, type "bounded", channel 1;
};

const BOTH_MOVED: &str = setup! {
    store "HK", apid 100, size 4, type "bounded", channel 5; store "SCI", apid 100, size 4, type "bounded", channel 6;
};

const SCI_MOVED: &str = setup! {
    store "HK", apid 100, size 4, type "bounded", channel 0; store "SCI", apid 100, size 4, type "bounded", channel 0;
};

const STEP_2_TOO: &str = "mmplan 1\nstores HK SCI\ndump 1 1 1\ndump 2 0 0\nloss 0\nbound 0\nend\n";

const ABOVE_WINDOW: &str = "mmplan 1\nstores HK SCI\ndump 1 9 4\nloss 0\nbound 0\nend\n";

const ABOVE_LIMIT: &str = "mmplan 1\nstores HK SCI\ndump 1 10 2\nloss 0\nbound 0\nend\n";

// A run over two stores, with nothing that would refuse it.
const TWO: Refused = Refused {
    task: Task {
        setup: TWO_STORES,
        forecast: "step,window,HK,SCI\n1,12,3,3\n",
        ..FIRST_RUN
    },
    plan: "mmplan 1\nstores HK SCI\ndump 1 1 1\nloss 0\nbound 0\nend\n",
    memory: TWO_STORES,
    ..FIRST
};

// Each cause is looked for in all stores, in their order, before the next one: where the first store, HK, has a later
// cause than the second, the second is told, and where both have one, the first.
static OF_SEVERAL_STORES: [Refused; 13] = refused! {
    "the plan is of two steps, both stores are off", TWO plan STEP_2_TOO, others OFF, changes OFF
    => Why::PlanShape;
    "both stores are off", TWO others OFF, changes OFF => Why::At(Found::NotReady, "HK");
    "the first is larger, the second is off", TWO memory BOTH_LARGER, changes OFF => Why::At(Found::NotReady, "SCI");
    "both are larger", TWO memory BOTH_LARGER => Why::At(Found::SizeDiffers, "HK");
    "the first holds a packet, the second is larger", TWO memory SCI_LARGER, others A_PACKET
    => Why::At(Found::SizeDiffers, "SCI");
    "both hold a packet", TWO others A_PACKET, changes A_PACKET => Why::At(Found::OpeningDiffers, "HK");
    "both are on other channels, the second holds a packet", TWO memory BOTH_MOVED, changes A_PACKET
    => Why::At(Found::OpeningDiffers, "SCI");
    "both are on other channels", TWO memory BOTH_MOVED => Why::At(Found::ChannelDiffers, "HK");
    "the first has a late storage time, the second is on another channel", TWO memory SCI_MOVED, others A_LATE_TIME
    => Why::At(Found::ChannelDiffers, "SCI");
    "the second has a late storage time", TWO changes A_LATE_TIME => Why::ClockTooLate;
    "the amounts of both are above the window, no link", TWO plan ABOVE_WINDOW, links &[]
    => Why::PlanDoesNotFit(1);
    "the first is above the limit of its channel, no link", TWO plan ABOVE_LIMIT, links &[]
    => Why::PlanDoesNotFit(1);
    "no link", TWO links &[] => Why::Counts;
};

#[test]
fn each_cause_is_looked_for_in_all_stores(rt: HostRuntime) {
    all_refused(&rt, rt.alloc(), &OF_SEVERAL_STORES);
}

const A_LIMITED: &str = setup! {
    store "A", apid 100, size 3, type "bounded", channel 0; limit channel 0, blocks 1;
};

const BY_CHANNELS: &str =
    "mmplan 2\nstores A\ndump 1 1\ndump 2 0\nloss 2\nstretch A 1 2\ncount 1 channels\nbound 2\nend\n";

const CHANNEL_0: Task = Task {
    setup: A_LIMITED,
    forecast: "step,window,A\n1,5,3\n2,0,3\n",
    plan: BY_CHANNELS,
};

static OVER_CHANNEL_0: Run = run! {
    "over channel 0", CHANNEL_0, [3, 3, 0] =>
    "step 1 A arrived 3 lost 0 dumped 1 held 2\nstep 2 A arrived 3 lost 2 dumped 0 held 3\n\
        total arrived 6 lost 2 dumped 1 held 3\n";
    left!("A", [6, 2, 1], [(2, 2), (3, 3), (4, 4)], [1])
};

static OVER_CHANNEL_5: Refused = Refused {
    name: "over channel 5",
    task: CHANNEL_0,
    plan: BY_CHANNELS,
    memory: A_LIMITED,
    base: TOO_LATE,
    why: Why::At(Found::ChannelDiffers, "A"),
    ..FIRST
};

// The store A is moved to a channel, with its storage off meanwhile.
fn moves_to_channel(rt: &impl Abort, trial: &mut Trial, channel: u8) {
    trial.change_of(rt, "A", OFF);
    let list = [Channel {
        id: id(rt, "A").field(),
        channel,
    }]
    .to_vec(trial.alloc);
    let request = Request::ChangeChannel(Entries::new(list.expect(rt, "memory")));
    let answers = trial.memory.apply(trial.alloc, 1, &request);
    let each = answers.expect(rt, "memory").each;
    assert!(rt; each.as_slice() == [Answer::Done].as_slice(), "the answer");
    trial.change_of(rt, "A", &[Change::On]);
}

// With a limit of its channel, the plan is carried out over a store on that channel alone.
#[test]
fn channel_of_a_store_changed(rt: HostRuntime) {
    let mut trial = prepared(&rt, rt.alloc(), &OVER_CHANNEL_5);
    moves_to_channel(&rt, &mut trial, 5);
    refuses(&rt, &mut trial, &OVER_CHANNEL_5);
    moves_to_channel(&rt, &mut trial, 0);
    OVER_CHANNEL_0.carry_out(&rt, &mut trial);
}
