//! Several sources and links at once: gates that open once all stand at them, one queue of orders, and a hundred runs.

use crate::tests::gates::{all_met, comes_to, counter, gated_sources, shared};
use crate::tests::links::{has_sent, new_links};
use crate::tests::runs::trials::{Left, Task, Trial, has_text, left, setup, task, took_of};
use crate::tests::sources::new_script;
use mm_base::StoreId;
use mm_dump::{Link, MemoryLink, SendFailed};
use mm_exec::Cause;
use mm_packet::BlockPacket;
use std::alloc::Global;
use std::process::Abort;
use std::sync::atomic::{AtomicU64, Ordering};
use std::sync::{Arc, Wait};
use std::thread::Threads;
use work_parts::Bursts;

// What a send waits for.
#[derive(Clone, Copy)]
enum Awaits {
    // Each waits until this many have begun.
    Begun(u64),
    // The first one waits until this many others have ended.
    Ended(u64),
}

// A link whose sends wait for those of other links, and fail where these do not come; with the counts of the sends that
// have begun and ended over all links.
#[derive(Drop)]
struct GatedLink {
    link: MemoryLink,
    begun: Arc<AtomicU64, Global>,
    ended: Arc<AtomicU64, Global>,
    awaits: Awaits,
}

impl GatedLink {
    // Begins a send, and says whether what it awaits came.
    fn begins(&self) -> bool {
        let before = self.begun.fetch_add(1, Ordering::SeqCst);
        match self.awaits {
            Awaits::Begun(number) => comes_to(&self.begun, number),
            Awaits::Ended(number) => before > 0 || comes_to(&self.ended, number),
        }
    }
}

impl Link for GatedLink {
    ghost sent = { λ g. g.link.sent };

    ghost failed = { λ g. g.link.failed };

    fn send(&mut self, store: &StoreId, time: u64, packet: &BlockPacket) -> Result<(), SendFailed> {
        if !self.begins() {
            return Err(self.link.refuse());
        }
        self.link.send(store, time, packet)?;
        self.ended.fetch_add(1, Ordering::SeqCst);
        Ok(())
    }

    fn failures(&self) -> u64 {
        self.link.failures()
    }
}

// Links of which each fails once, after a number of sends, or never.
fn gated_links(
    rt: &impl Abort,
    alloc: Global,
    until: &[Option<u64>],
    awaits: Awaits,
) -> Vec<GatedLink> {
    let begun = counter(rt, alloc);
    let ended = counter(rt, alloc);
    let mut list = Vec::new(alloc);
    for link in new_links(rt, alloc, until) {
        let (begun, ended) = (shared(rt, &begun), shared(rt, &ended));
        let gated = GatedLink {
            link,
            begun,
            ended,
            awaits,
        };
        list.push(gated).expect(rt, "memory");
    }
    list
}

// A task of one step for stores with an APID each: sources of one packet, this many for each store, and links, each of
// which is to send as many packets.
struct Meeting {
    task: Task,
    apids: &'static [u16],
    each: u32,
    links: &'static [Option<u64>],
}

static MEETINGS: [Meeting; 2] = [
    Meeting {
        task: task! {
            { store "A", apid 1, size 1, type "bounded", channel 0;
              store "B", apid 2, size 1, type "bounded", channel 0; }
            "step,window,A,B\n1,2,1,1\n" "mmplan 1\nstores A B\ndump 1 1 1\nloss 0\nbound 0\nend\n"
        },
        apids: &[1, 2],
        each: 1,
        links: &[None, None],
    },
    Meeting {
        task: task! {
            {
                store "A", apid 1, size 2, type "bounded", channel 0;
                store "B", apid 2, size 2, type "bounded", channel 0;
                store "C", apid 3, size 2, type "bounded", channel 0;
                store "D", apid 4, size 2, type "bounded", channel 0;
            }
            "step,window,A,B,C,D\n1,8,2,2,2,2\n" "mmplan 1\nstores A B C D\ndump 1 2 2 2 2\nloss 0\nbound 0\nend\n"
        },
        apids: &[1, 2, 3, 4],
        each: 2,
        links: &[None, None, None, None],
    },
];

// Carries out the plan of a meeting: all sources meet, all links meet, and nothing is lost.
fn all_meet<R: Threads + Wait + Sync + Abort>(rt: &R, alloc: Global, meeting: &Meeting) {
    let mut trial = Trial::new(rt, alloc, &meeting.task);
    let sources = gated_sources(rt, alloc, meeting.apids, meeting.each);
    let awaits = Awaits::Begun(meeting.links.len() as u64);
    let links = gated_links(rt, alloc, meeting.links, awaits);
    let ended = trial.run(rt, sources, links, 0);
    assert!(rt; ended.halted.is_none(), "the plan is carried out");
    let each = meeting.each as usize;
    all_met(rt, &ended.sources, meeting.apids.len().saturating_mul(each));
    let many = ended.links.len();
    assert!(rt; many == meeting.links.len(), "all links come back");
    for link in &ended.links {
        has_sent(rt, "a meeting", &link.link, each, 0);
    }
    assert!(rt; ended.report.totals().lost == 0, "nothing is lost");
}

#[test]
fn gates_meet(rt: HostRuntime) {
    for meeting in &MEETINGS {
        all_meet(&rt, rt.alloc(), meeting);
    }
}

static FOUR_ORDERS: Task = task! {
    {
        store "A", apid 1, size 1, type "bounded", channel 0; store "B", apid 2, size 1, type "bounded", channel 0;
        store "C", apid 3, size 1, type "bounded", channel 0; store "D", apid 4, size 1, type "bounded", channel 0;
    }
    "step,window,A,B,C,D\n1,4,1,1,1,1\n" "mmplan 1\nstores A B C D\ndump 1 1 1 1 1\nloss 0\nbound 0\nend\n"
};

// A source for each of these APIDs, which gives this many packets in step 1.
fn sources_by_apid(rt: &impl Abort, alloc: Global, apids: &[u16], many: u16) -> Vec<Bursts> {
    let mut sources = Vec::new(alloc);
    for apid in apids {
        let source = new_script(rt, alloc, *apid, [many, 0, 0]);
        sources.push(source).expect(rt, "memory");
    }
    sources
}

// The first send of all waits for three others, so one link carries out one order and the other three.
#[test]
fn orders_from_one_queue(rt: HostRuntime) {
    let alloc = rt.alloc();
    let mut trial = Trial::new(&rt, alloc, &FOUR_ORDERS);
    let sources = sources_by_apid(&rt, alloc, &[1, 2, 3, 4], 1);
    let links = gated_links(&rt, alloc, &[None, None], Awaits::Ended(3));
    let ended = trial.run(&rt, sources, links, 0);
    assert!(&rt; ended.halted.is_none(), "the plan is carried out");
    assert!(&rt; ended.sources.len() == 4, "all sources come back");
    assert!(&rt; ended.report.totals().dumped == 4, "all are dumped");
    let [one, two] = ended.links.as_slice() else {
        panic!(&rt; "both links");
    };
    let sent = [one.link.taken().len(), two.link.taken().len()];
    assert!(rt; sent == [1, 3] || sent == [3, 1], "one carries out three");
    assert!(rt; (one.failures(), two.failures()) == (0, 0));
}

static TWO_ORDERS: Task = task! {
    {
        store "A", apid 1, size 2, type "bounded", channel 0; store "B", apid 2, size 2, type "bounded", channel 0;
    }
    "step,window,A,B\n1,4,2,2\n" "mmplan 1\nstores A B\ndump 1 2 2\nloss 0\nbound 0\nend\n"
};

// What is left of the stores, by which of them was the failing link's.
static A_BROKE: [Left; 2] = [
    left!("A", [2, 0, 0], [(1, 1), (2, 2)], []),
    left!("B", [2, 0, 2], [], [1, 2]),
];

static B_BROKE: [Left; 2] = [
    left!("A", [2, 0, 2], [], [1, 2]),
    left!("B", [2, 0, 0], [(1, 1), (2, 2)], []),
];

// Each of two links takes an order, and one fails at its first send: the other's order is whole, and the store of the
// broken one is as it was after the packets came.
#[test]
fn one_of_two_links_fails(rt: HostRuntime) {
    let alloc = rt.alloc();
    let mut trial = Trial::new(&rt, alloc, &TWO_ORDERS);
    let sources = sources_by_apid(&rt, alloc, &[1, 2], 2);
    let links = gated_links(&rt, alloc, &[Some(0), None], Awaits::Begun(2));
    let ended = trial.run(&rt, sources, links, 0);
    let halted = Some((Cause::LinkFailed { step: 1 }, 3));
    assert!(rt; ended.halted == halted, "two sent and one failed");
    let [bad, good] = ended.links.as_slice() else {
        panic!(rt; "both links");
    };
    has_sent(&rt, "the link that fails", &bad.link, 0, 1);
    let stores = match trial.deleted(&rt, "A") {
        0 => &A_BROKE,
        _ => &B_BROKE,
    };
    trial.leaves(&rt, "one of two links fails", stores);
    took_of(&rt, "the other link", &good.link, stores, 0);
}

static EIGHT_EACH: Task = task! {
    {
        store "A", apid 100, size 1, type "bounded", channel 0; store "B", apid 100, size 2, type "circular", channel 0;
        store "C", apid 100, size 3, type "bounded", channel 0; store "D", apid 100, size 4, type "circular", channel 0;
    }
    "step,window,A,B,C,D\n1,4,8,8,8,8\n2,3,0,0,0,0\n3,0,8,8,8,9\n"
    "mmplan 1\nstores A B C D\ndump 1 1 1 1 1\ndump 2 0 1 1 1\ndump 3 0 0 0 0\nloss 48\nbound 0\nend\n"
};

const EIGHT_SOURCES: &str = "step 1 A arrived 8 lost 7 dumped 1 held 0\n\
    step 1 B arrived 8 lost 6 dumped 1 held 1\n\
    step 1 C arrived 8 lost 5 dumped 1 held 2\n\
    step 1 D arrived 8 lost 4 dumped 1 held 3\n\
    step 2 A arrived 0 lost 0 dumped 0 held 0\n\
    step 2 B arrived 0 lost 0 dumped 1 held 0\n\
    step 2 C arrived 0 lost 0 dumped 1 held 1\n\
    step 2 D arrived 0 lost 0 dumped 1 held 2\n\
    step 3 A arrived 8 lost 7 dumped 0 held 1\n\
    step 3 B arrived 8 lost 6 dumped 0 held 2\n\
    step 3 C arrived 8 lost 6 dumped 0 held 3\n\
    step 3 D arrived 8 lost 6 dumped 0 held 4\n\
    differs step 3 D forecast 9 came 8\n\
    total arrived 64 lost 47 dumped 7 held 10\n";

// Eight sources of one packet each in the steps 1 and 3, each for four stores of 1, 2, 3 and 4 blocks, and four links.
// The report is the same whatever the threads did.
#[test]
fn a_hundred_runs_report_the_same(rt: HostRuntime) {
    for _ in 0..100 {
        let mut trial = Trial::new(&rt, rt.alloc(), &EIGHT_EACH);
        let ended = trial.run_of(&rt, 8, [1, 0, 1], &[None; 4], 0);
        assert!(&rt; ended.halted.is_none(), "the plan is carried out");
        has_text(
            &rt,
            rt.alloc(),
            "eight sources",
            &ended.report,
            EIGHT_SOURCES,
        );
    }
}
