//! A run whose link fails, and what is left of it; and a problem of data.

use super::flights::{halted_run, three_bursts};
use crate::tests::runs::trials::{FIRST_RUN, TWO_PASSES, Trial};
use crate::tests::samples::id;
use callers::data::plan_of_data;
use callers::ends::Burst;
use callers::radio::{Modem, Radio};
use callers::rest::fly_the_rest;
use mm_base::Kind;
use mm_dump::{Link, may_fail};
use mm_exec::Flown;
use mm_packet::Packet;
use mm_problem::StoreRow;
use mm_record::Later;
use std::process::Abort;
use std::sync::Wait;
use std::thread::Threads;

// Two blocks leave in step 2. Of the three that were held and the seven that come, four are lost: there is room for
// four at the end.
const REST: &str =
    "mmplan 1\nstores SCI\ndump 1 2\ndump 2 0\nloss 4\nstretch SCI 1 2\nbound 4\nend\n";

// Flies the steps after this one, whose moment has the same number, by this plan.
fn rest_flown<L: Link + Send + Drop, R: Threads + Wait + Sync + Abort>(
    rt: &R,
    trial: &mut Trial,
    step: u32,
    sources: Vec<Burst>,
    links: Vec<L>,
    sheet: &str,
) -> Flown<Later<Burst>, L> {
    assert!(rt; may_fail(&links), "one more failure can be counted");
    assert!(rt; step < trial.problem.steps(), "a later step");
    let (alloc, now) = (trial.alloc, u64::from(step));
    let (memory, problem) = (&mut trial.memory, &trial.problem);
    let Ok(flown) = fly_the_rest(rt, alloc, memory, problem, step, sources, links, now) else {
        panic!(rt; "the rest is flown");
    };
    assert!(rt; flown.sheet.as_slice() == sheet.as_bytes(), "the plan");
    flown
}

#[test]
fn what_is_left_after_a_failed_link_is_planned_anew(rt: HostRuntime) {
    let mut trial = Trial::new(&rt, rt.alloc(), &FIRST_RUN);
    let halted = halted_run(&rt, &mut trial, 1, 1);
    let mut links = halted.links;
    for link in &mut links {
        link.most = 9;
    }
    let flown = rest_flown(&rt, &mut trial, 1, halted.sources, links, REST);
    assert!(rt; flown.report.totals().lost == 4, "four lost");
}

// A modem that counts what it transmits.
#[derive(Drop)]
struct CountingModem {
    sent: u32,
}

impl Modem for CountingModem {
    fn transmit(&mut self, _packet: &Packet) -> bool {
        self.sent = self.sent.wrapping_add(1);
        true
    }
}

// A link has transmitted four packets, without a failure.
fn has_transmitted(rt: &impl Abort, link: &Radio<CountingModem>) {
    let counts = (link.modem.sent, link.failed);
    assert!(rt; counts == (4, 0), "four packets");
}

// The rest after step 0 is the whole problem.
#[test]
fn a_link_keeps_nothing_of_what_is_flown(rt: HostRuntime) {
    let alloc = rt.alloc();
    let mut trial = Trial::new(&rt, alloc, &FIRST_RUN);
    let sources = three_bursts(&rt, alloc, 4);
    let radio = Radio::new(alloc, CountingModem { sent: 0 });
    let links = vec![in alloc; radio].expect(&rt, "memory");
    let flown = rest_flown(&rt, &mut trial, 0, sources, links, TWO_PASSES);
    for link in &flown.links {
        has_transmitted(&rt, link);
    }
}

#[test]
fn data_are_planned_without_a_text(rt: HostRuntime) {
    let rows = [StoreRow {
        id: id(&rt, "SCI"),
        size: 4,
        start: 3,
        kind: Kind::Bounded,
        channel: 0,
    }];
    let planned = plan_of_data(rt.alloc(), &rows, &[], &[2, 0], &[3, 4]).expect(&rt, "a plan");
    assert!(rt; planned.certificate.loss() == 4, "four lost");
}
