//! Runs of the first plan over sources and links of a mission's own, some of which are halted.
ghost use Rattle.std.specs.Prelude.{◌<◌, ◌-◌, ◌^◌, All};

use super::setup_of;
use crate::tests::runs::trials::{FIRST_RUN, ONE_STORE, TWO_PASSES, Trial};
use crate::tests::samples::{id, packet};
use callers::ends::{Burst, Downlink};
use callers::flight::{Told, plan_and_fly};
use callers::halt::{carry_out_or_tell, carry_out_over_used};
use mm_desk::StoreState;
use mm_exec::{Cause, Halted};
use mm_store::PacketStore;
use std::alloc::Global;
use std::collections::VecDeque;
use std::process::Abort;
use std::sync::Wait;
use std::thread::Threads;

// An instrument that gives this many packets in a step.
fn burst(rt: &impl Abort, alloc: Global, step: u32, many: u16) -> Burst {
    let mut packets = VecDeque::new(alloc);
    for count in 0..many {
        let packet = packet(rt, alloc, count);
        packets.push_back(packet).expect(rt, "memory");
    }
    assert!(rt; packets.len() < 65_536, "few packets");
    Burst { step, packets }
}

// The sources of the first run: three, three and this many packets.
pub(super) fn three_bursts(rt: &impl Abort, alloc: Global, third: u16) -> Vec<Burst> {
    let mut sources = Vec::new(alloc);
    for (step, many) in [(1, 3), (2, 3), (3, third)] {
        let source = burst(rt, alloc, step, many);
        sources.push(source).expect(rt, "memory");
    }
    sources
}

// One link, which takes this many packets.
fn one_link(rt: &impl Abort, alloc: Global, most: usize) -> Vec<Downlink>
    ensures unfailed { All (λ l. l.failed < 2 ^ 64 - 1) result.items }
{
    let link = Downlink {
        alloc,
        most,
        taken: Vec::new(alloc),
        failed: 0,
    };
    vec![in alloc; link].expect(rt, "memory")
}

// A link took this many packets, and this many of its sends failed.
fn has_taken(rt: &impl Abort, link: &Downlink, taken: usize, failed: u64) {
    assert!(rt; link.taken.len() == taken, "how many were taken");
    assert!(rt; link.failed == failed, "how many sends failed");
}

// The first run, with three, three and this many packets, over a link that takes this many.
fn first_run<R: Threads + Wait + Sync + Abort>(
    rt: &R,
    alloc: Global,
    third: u16,
    most: usize,
) -> Result<Told, Cause> {
    let trial = Trial::new(rt, alloc, &FIRST_RUN);
    let setup = setup_of(rt, alloc, ONE_STORE);
    let sources = three_bursts(rt, alloc, third);
    let links = one_link(rt, alloc, most);
    plan_and_fly(rt, alloc, &setup, &trial.problem, sources, links)
}

// Where one packet more comes than was forecast, one more is lost than the plan says, and the plan is the same.
#[test]
fn what_was_printed_is_lost(rt: HostRuntime) {
    for (third, lost) in [(4, 2), (5, 3)] {
        let Ok(told) = first_run(&rt, rt.alloc(), third, 9) else {
            panic!(&rt; "the plan is carried out");
        };
        assert!(&rt; told.lost == lost, "how many were lost");
        let sheet = told.flown.sheet.as_slice();
        assert!(rt; sheet == TWO_PASSES.as_bytes(), "the plan");
        for link in &told.flown.links {
            has_taken(&rt, link, 4, 0);
        }
    }
}

#[test]
fn a_link_that_fails_halts_the_run(rt: HostRuntime) {
    let Err(cause) = first_run(&rt, rt.alloc(), 4, 3) else {
        panic!(&rt; "the run is halted");
    };
    assert!(&rt; cause == Cause::LinkFailed { step: 2 }, "a link fails");
}

// What a store holds as its oldest packet is the last one that the link took, which goes out again.
fn is_held_again(rt: &impl Abort, state: &StoreState, link: &Downlink) {
    let Some((_, taken)) = link.taken.last() else {
        panic!(rt; "a packet was taken");
    };
    let Some((time, packet)) = state.store().first_in(0, u64::MAX, 0) else {
        panic!(rt; "a packet is held");
    };
    assert!(rt; time == taken.time, "the same time");
    assert!(rt; packet.is(&taken.packet), "the same packet");
}

// Carries out the first plan over a link that takes this many packets. The run is halted in this step.
pub(super) fn halted_run<R: Threads + Wait + Sync + Abort>(
    rt: &R,
    trial: &mut Trial,
    most: usize,
    step: u32,
) -> Halted<Burst, Downlink> {
    let alloc = trial.alloc;
    let (memory, problem) = (&mut trial.memory, &trial.problem);
    let plan = trial.sheet.plan();
    let sources = three_bursts(rt, alloc, 4);
    let links = one_link(rt, alloc, most);
    let Err(halted) = carry_out_or_tell(rt, alloc, memory, problem, plan, sources, links) else {
        panic!(rt; "the run is halted");
    };
    assert!(rt; halted.cause == Cause::LinkFailed { step }, "a link fails");
    halted
}

// Of the four blocks that leave by the plan, the link takes three: the third is still stored.
#[test]
fn the_last_packet_of_a_failed_link_is_still_stored(rt: HostRuntime) {
    let mut trial = Trial::new(&rt, rt.alloc(), &FIRST_RUN);
    let halted = halted_run(&rt, &mut trial, 3, 2);
    let state = trial.memory.state(&id(&rt, "SCI")).expect(&rt, "a store");
    for link in &halted.links {
        has_taken(&rt, link, 3, 1);
        is_held_again(&rt, state, link);
    }
}

// One link that has failed this often.
fn used_link(rt: &impl Abort, alloc: Global, failed: u64) -> Vec<Downlink> {
    let mut links = one_link(rt, alloc, 9);
    for link in &mut links {
        link.failed = failed;
    }
    links
}

// Whether the first plan is carried out over a link that has failed this often. Then no run is halted, and the link
// takes all.
fn is_carried_out<R: Threads + Wait + Sync + Abort>(rt: &R, alloc: Global, failed: u64) -> bool {
    let mut trial = Trial::new(rt, alloc, &FIRST_RUN);
    let (memory, problem) = (&mut trial.memory, &trial.problem);
    let sources = three_bursts(rt, alloc, 4);
    let links = used_link(rt, alloc, failed);
    let plan = trial.sheet.plan();
    let Some(run) = carry_out_over_used(rt, alloc, memory, problem, plan, sources, links) else {
        return false;
    };
    let Ok(ended) = run else {
        panic!(rt; "no run is halted");
    };
    for link in &ended.links {
        has_taken(rt, link, 4, failed);
    }
    true
}

#[test]
fn one_more_failure_of_a_link_can_be_counted(rt: HostRuntime) {
    assert!(rt; is_carried_out(&rt, rt.alloc(), u64::MAX - 1), "one more");
    assert!(rt; !is_carried_out(&rt, rt.alloc(), u64::MAX), "no more");
}
