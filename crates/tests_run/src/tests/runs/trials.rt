//! Runs of small problems: what they are given, and what they leave.

use crate::tests::links::{has_sent, has_taken, new_links};
use crate::tests::samples::{holds, holds_of, id, memory_of, next_after, packet};
use crate::tests::sources::scripts;
use mm_base::MAX_BLOCKS;
use mm_desk::StoreState;
use mm_dump::{Link, MemoryLink, may_fail};
use mm_exec::{Cause, Halted, RunEnd, carry_out};
use mm_memory::Memory;
use mm_plan::Sheet;
use mm_problem::{Problem, Setup};
use mm_record::Source;
use mm_report::Report;
use mm_store::PacketStore;
use std::alloc::Global;
use std::process::Abort;
use std::sync::Wait;
use std::thread::Threads;
use work_parts::Bursts;

// The text of a setup: when arrivals come, if it is said, stores, each with a route of its own for telemetry of an APID,
// service 3, subtype 25, and limits.
macro_rules! setup {
    (
        $(arrivals $come:literal;)*
        $(store $id:literal, apid $apid:literal $(, $key:ident $value:literal)+;)+
        $(limit channel $channel:literal, blocks $blocks:literal;)*
    ) => {
        concat!(
            $("arrivals = \"", $come, "\"\n\n",)*
            $(
                "[[store]]\nid = \"", $id, "\"\n",
                $(stringify!($key), " = ", stringify!($value), "\n",)+
                "\n[[route]]\napid = ", $apid, "\nservice = 3\nsubtype = 25\nstore = \"", $id, "\"\n\n",
            )+
            $("[[limit]]\nchannel = ", $channel, "\nblocks = ", $blocks, "\n",)*
        )
    };
}

pub(crate) use setup;

// A task: the stores and limits of its setup, the text of its forecast, and that of its plan.
macro_rules! task {
    ({ $($setup:tt)* } $forecast:literal $plan:literal) => {
        Task { setup: setup! { $($setup)* }, forecast: $forecast, plan: $plan }
    };
}

pub(crate) use task;

// What is carried out: the texts of a setup, of a forecast and of a plan.
#[derive(Clone, Copy)]
pub(crate) struct Task {
    pub(crate) setup: &'static str,
    pub(crate) forecast: &'static str,
    pub(crate) plan: &'static str,
}

// One store, three steps, and the least loss.
pub(crate) const THREE_STEPS: &str = "step,window,SCI\n1,2,3\n2,2,3\n3,0,4\n";

pub(crate) const TWO_PASSES: &str =
    "mmplan 1\nstores SCI\ndump 1 2\ndump 2 2\ndump 3 0\nloss 2\nstretch SCI 1 3\nbound 2\nend\n";

pub(crate) const ONE_STORE: &str = setup! {
    store "SCI", apid 100, size 4, type "bounded", channel 0;
};

// Its last storage time, or the first moment of a run, is later than it may be.
pub(crate) const TOO_LATE: u64 = (1 << 63) + 1;

pub(crate) const FIRST_RUN: Task = Task {
    setup: ONE_STORE,
    forecast: THREE_STEPS,
    plan: TWO_PASSES,
};

// The same, where the setup says that arrivals come before dumps.
pub(crate) const SAID_RUN: Task = Task {
    setup: setup! { arrivals "before"; store "SCI", apid 100, size 4, type "bounded", channel 0; },
    ..FIRST_RUN
};

// The same, where arrivals come during dumps. No plan loses less: of ten packets two leave in each of two passes, and
// four are held at the end.
pub(crate) const DURING_RUN: Task = Task {
    setup: setup! { arrivals "during"; store "SCI", apid 100, size 4, type "bounded", channel 0; },
    ..FIRST_RUN
};

// The same, where the store has a size in each step, which is that of the setup.
pub(crate) const SIZED_RUN: Task = Task {
    forecast: "step,window,SCI,size:SCI\n1,2,3,4\n2,2,3,4\n3,0,4,4\n",
    ..FIRST_RUN
};

// What the report of a run says of which no step was carried out.
pub(crate) const NO_STEP: &str = "total arrived 0 lost 0 dumped 0 held 0\n";

// What a run leaves of a store: how many packets were offered, lost and deleted, the times and sequence counts of those
// that it holds, and the sequence counts of those that were sent.
pub(crate) struct Left {
    pub(crate) store: &'static str,
    pub(crate) counts: [u64; 3],
    pub(crate) held: &'static [(u64, u16)],
    pub(crate) sent: &'static [u16],
}

// What is left of a store, in the order of its fields.
macro_rules! left {
    ($store:literal, $counts:expr, $held:expr, $sent:expr) => {
        Left { store: $store, counts: $counts, held: &$held, sent: &$sent }
    };
}

pub(crate) use left;

// What is done to a store before a run.
#[derive(Clone, Copy)]
pub(crate) enum Change {
    // A packet of this sequence count is offered at a moment.
    Offer(u64, u16),
    // The packets up to a time are deleted: this many.
    Delete(u64, u32),
    Off,
    On,
    Retrieve,
    // Its size becomes this many blocks.
    Resize(u32),
}

// Makes the change to the state of the store, and says whether the answer is the wanted one.
fn goes(rt: &impl Abort, alloc: Global, state: &mut StoreState, change: &Change) -> bool {
    match change {
        Change::Offer(now, count) => state.offer(*now, packet(rt, alloc, *count)).is_ok(),
        Change::Delete(limit, want) => state.delete(*limit).ok() == Some(*want),
        Change::Off => {
            state.disable();
            true
        }
        Change::On => {
            state.enable();
            true
        }
        Change::Retrieve => state.begin(0, u64::MAX).is_ok(),
        Change::Resize(size) => { 0 < *size && *size <= MAX_BLOCKS && state.resize(*size).is_ok() }
    }
}

// Does these to a store of a memory.
pub(crate) fn change_store(
    rt: &impl Abort,
    alloc: Global,
    memory: &mut Memory,
    store: &str,
    list: &[Change],
) {
    let store = id(rt, store);
    for change in list {
        let state = memory.state_mut(&store).expect(rt, "a store");
        assert!(rt; goes(rt, alloc, state, change), "a change");
    }
}

fn problem_of(rt: &impl Abort, alloc: Global, task: &Task) -> Problem {
    let setup = Setup::read(alloc, task.setup.as_bytes()).expect(rt, "a setup");
    Problem::read(alloc, &setup, task.forecast.as_bytes()).expect(rt, "a forecast")
}

// The packets held in a store: times and sequence counts.
fn has_packets(rt: &impl Abort, name: &str, state: &StoreState, want: &[(u64, u16)]) {
    let held = state.store().len() as usize;
    assert!(rt; held == want.len(), "how many are held");
    let mut last = 0;
    for (time, count) in want {
        let found = next_after(state, last).map(|(time, _apid, count)| (time, count));
        holds_of(rt, found == Some((*time, *count)), name, "the packets held");
        last = *time;
    }
}

pub(crate) fn has_text(rt: &impl Abort, alloc: Global, name: &str, report: &Report, want: &str) {
    let text = report.text(alloc).expect(rt, "memory");
    holds(rt, text.as_slice() == want.as_bytes(), name);
}

// Why a run is halted or refused: in a step, by what is found at the store of a name, or for a cause of neither.
#[derive(Clone, Copy)]
pub(crate) enum Why {
    Counts,
    ClockTooLate,
    NotFlyable,
    PlanShape,
    PlanDoesNotFit(u32),
    LinkFailed(u32),
    At(Found, &'static str),
}

#[derive(Clone, Copy)]
pub(crate) enum Found {
    NotReady,
    SizeDiffers,
    OpeningDiffers,
    ChannelDiffers,
}

pub(crate) fn cause_of(rt: &impl Abort, why: Why) -> Cause {
    let (found, store) = match why {
        Why::Counts => return Cause::Counts,
        Why::ClockTooLate => return Cause::ClockTooLate,
        Why::NotFlyable => return Cause::NotFlyable,
        Why::PlanShape => return Cause::PlanShape,
        Why::PlanDoesNotFit(step) => return Cause::PlanDoesNotFit { step },
        Why::LinkFailed(step) => return Cause::LinkFailed { step },
        Why::At(found, name) => (found, id(rt, name)),
    };
    match found {
        Found::NotReady => Cause::NotReady { store },
        Found::SizeDiffers => Cause::SizeDiffers { store },
        Found::OpeningDiffers => Cause::OpeningDiffers { store },
        Found::ChannelDiffers => Cause::ChannelDiffers { store },
    }
}

// How a run ended: why it was halted and what was drawn in its step, if it was; and what it hands back.
#[derive(Drop)]
pub(crate) struct Ended<S: Drop, L: Drop> {
    pub(crate) halted: Option<(Cause, u64)>,
    pub(crate) report: Report,
    pub(crate) sources: Vec<S>,
    pub(crate) links: Vec<L>,
}

// The same of a run that was carried out and of one that was halted.
pub(crate) fn outcome_of<S: Drop, L: Drop>(run: Result<RunEnd<S, L>, Halted<S, L>>) -> Ended<S, L> {
    let (halted, report, sources, links) = match run {
        Ok(end) => (None, end.report, end.sources, end.links),
        Err(end) => (
            Some((end.cause, end.spent)),
            end.report,
            end.sources,
            end.links,
        ),
    };
    Ended {
        halted,
        report,
        sources,
        links,
    }
}

// A memory, and a problem and a plan to be carried out over it.
#[derive(Drop)]
pub(crate) struct Trial {
    pub(crate) alloc: Global,
    pub(crate) memory: Memory,
    pub(crate) problem: Problem,
    pub(crate) sheet: Sheet,
}

impl Trial {
    // Over an empty memory of the problem's setup.
    pub(crate) fn new(rt: &impl Abort, alloc: Global, task: &Task) -> Trial {
        Trial {
            alloc,
            memory: memory_of(rt, alloc, task.setup),
            problem: problem_of(rt, alloc, task),
            sheet: Sheet::parse(alloc, task.plan.as_bytes()).expect(rt, "a plan"),
        }
    }

    // Carries out the plan.
    pub(crate) fn run<
        S: Source + Send + Drop,
        L: Link + Send + Drop,
        R: Threads + Wait + Sync + Abort,
    >(&mut self, rt: &R, sources: Vec<S>, links: Vec<L>, base: u64) -> Ended<S, L> {
        assert!(rt; may_fail(&links), "links that may fail");
        let (memory, problem, plan) = (&mut self.memory, &self.problem, self.sheet.plan());
        outcome_of(carry_out(rt, self.alloc, memory, problem, plan, sources, links, base))
    }

    // Carries out the plan from this moment on, over this many sources that give this many packets in three steps, and
    // links of which each fails once, after this many sends, or never.
    pub(crate) fn run_of<R: Threads + Wait + Sync + Abort>(
        &mut self,
        rt: &R,
        sources: u32,
        many: [u16; 3],
        until: &[Option<u64>],
        base: u64,
    ) -> Ended<Bursts, MemoryLink> {
        let sources = scripts(rt, self.alloc, sources, many);
        self.run(rt, sources, new_links(rt, self.alloc, until), base)
    }

    // Does these to the store of the first run.
    pub(crate) fn change(&mut self, rt: &impl Abort, list: &[Change]) {
        self.change_of(rt, "SCI", list);
    }

    // Does these to a store.
    pub(crate) fn change_of(&mut self, rt: &impl Abort, store: &str, list: &[Change]) {
        change_store(rt, self.alloc, &mut self.memory, store, list);
    }

    // How many packets of a store were deleted.
    pub(crate) fn deleted(&self, rt: &impl Abort, store: &str) -> u64 {
        let state = self.memory.state(&id(rt, store)).expect(rt, "a store");
        state.deleted()
    }

    // What is left of a store, which is on, with no retrieval.
    fn has(&self, rt: &impl Abort, name: &str, left: &Left) {
        let state = self.memory.state(&id(rt, left.store)).expect(rt, "a store");
        let counts = [state.offered(), state.lost(), state.deleted()];
        holds_of(rt, counts == left.counts, name, "the counters");
        let ready = [state.storage(), state.retrieval().is_none()];
        assert!(rt; ready == [true; 2], "storage is on, and no retrieval");
        has_packets(rt, name, state, left.held);
    }

    // What the run of this name leaves of these stores.
    pub(crate) fn leaves(&self, rt: &impl Abort, name: &str, stores: &[Left]) {
        for left in stores {
            self.has(rt, name, left);
        }
    }
}

// A link took what was sent of these stores, in order, and nothing else, and failed this often.
pub(crate) fn took_of(
    rt: &impl Abort,
    name: &str,
    link: &MemoryLink,
    stores: &[Left],
    failures: u64,
) {
    let mut many = 0;
    for left in stores {
        has_taken(rt, name, link, &id(rt, left.store), left.sent);
        many = left.sent.len().saturating_add(many);
    }
    has_sent(rt, name, link, many, failures);
}

// These are this many links, each of which took that.
pub(crate) fn each_took(
    rt: &impl Abort,
    name: &str,
    links: &[MemoryLink],
    many: usize,
    stores: &[Left],
    failures: u64,
) {
    holds_of(rt, links.len() == many, name, "as many links");
    for link in links {
        took_of(rt, name, link, stores, failures);
    }
}
