//! What a flight sends over the links of a text, octet for octet.

use crate::tests::runs::trials::{FIRST_RUN, Trial};
use crate::tests::samples::holds;
use mm_dump::{Link, TakenPacket, may_fail};
use mm_exec::{FlyHalted, fly};
use mm_run::{KeepingLink, ScriptedSource, SourceFile, read_links};
use std::alloc::Global;
use std::process::Abort;
use std::sync::Wait;
use std::thread::Threads;

// The packets of the first run, as forecast: three in step 1, three in step 2, and four in step 3. Each has data of its
// own.
const SOURCES: &str = "\
1 1 0864C001000F200319000000000000000000000000A1
1 1 0864C0020010200319000000000000000000000000A2B2
1 1 0864C0030011200319000000000000000000000000A3B3C3
1 2 0864C004000F200319000500000000000000000000A4
1 2 0864C005000F200319000000000000000000000000A5
1 2 0864C006000F200319000000000000000000000000A6
1 3 0864C007000F200319000000000000000000000000A7
1 3 0864C008000F200319000000000000000000000000A8
1 3 0864C009000F200319000000000000000000000000A9
1 3 0864C00A000F200319000000000000000000000000AA
";

// What the plan sends of them, with the storage times: two packets in step 1 and two in step 2.
static SENT: [(u64, &str); 4] = [
    (1, "0864C001000F200319000000000000000000000000A1"),
    (2, "0864C0020010200319000000000000000000000000A2B2"),
    (3, "0864C0030011200319000000000000000000000000A3B3C3"),
    (4, "0864C004000F200319000500000000000000000000A4"),
];

// Links, and how many packets are sent over the link and how many sends fail.
static LINKS: [(&str, usize, u64); 3] = wanted! {
    "links 1\n", 4 => 0;
    "links 1\nfail 1 3\n", 2 => 1;
    "links 1\nfail 1 1\n", 0 => 1;
};

// The sources of the first run.
fn sources(rt: &impl Abort, alloc: Global) -> Vec<ScriptedSource> {
    let file = SourceFile::read(alloc, SOURCES.as_bytes()).expect(rt, "sources");
    file.sources
}

// The links of a text, which keep what is sent over them.
fn keeping_links(rt: &impl Abort, alloc: Global, text: &str) -> Vec<KeepingLink> {
    let mut kept = Vec::new(alloc);
    for link in read_links(alloc, text.as_bytes()).expect(rt, "links") {
        let link = KeepingLink::new(alloc, link);
        kept.push(link).expect(rt, "memory");
    }
    kept
}

// The links of the first run, once it is flown over the links of a text.
fn flown_over<R: Threads + Wait + Sync + Abort>(
    rt: &R,
    alloc: Global,
    text: &str,
) -> Vec<KeepingLink> {
    let mut trial = Trial::new(rt, alloc, &FIRST_RUN);
    let links = keeping_links(rt, alloc, text);
    assert!(rt; may_fail(&links), "links that may fail");
    let (memory, problem) = (&mut trial.memory, &trial.problem);
    match fly(rt, alloc, memory, problem, sources(rt, alloc), links, 0) {
        Ok(flown) => flown.links,
        Err(FlyHalted { halted, .. }) => halted.links,
    }
}

// A packet that was sent has this time and these octets.
fn is_sent(rt: &impl Abort, alloc: Global, taken: &TakenPacket, time: u64, digits: &str) {
    assert!(rt; taken.store.text() == b"SCI".as_slice(), "the store");
    holds(rt, taken.stored.time == time, digits);
    let octets = taken.stored.packet.packet().write(alloc);
    let mut shown = String::new(alloc);
    for octet in octets.expect(rt, "memory").iter() {
        let pair = format!(in alloc; "{octet:02X}").expect(rt, "memory");
        shown.push_str(&pair).expect(rt, "memory");
    }
    holds(rt, shown.as_str() == digits, digits);
}

#[test]
fn links_of_a_text_are_sent_the_octets_of_the_sources(rt: HostRuntime) {
    for (text, many, failures) in &LINKS {
        let links = flown_over(&rt, rt.alloc(), *text);
        assert!(rt; links.len() == 1, "one link");
        for link in &links {
            let sent = link.sent();
            assert!(rt; sent.len() == *many, "how many are sent");
            assert!(rt; link.failures() == *failures, "how many sends fail");
            for (taken, (time, digits)) in sent.iter().zip(&SENT) {
                is_sent(&rt, rt.alloc(), taken, *time, *digits);
            }
        }
    }
}
