//! Texts of sources and of links: what they give and take, and the first line that is refused.

use crate::tests::samples::{holds, id, is_told, packet};
use mm_dump::Link;
use mm_packet::BlockPacket;
use mm_record::Source;
use mm_run::{FailedSend, ScriptFault, ScriptedLink, ScriptedSource, SourceFile, read_links};
use std::alloc::Global;
use std::process::Abort;
use std::slice;

// A text in which `PnQ` stands for the digits of telemetry without data, of APID 100, service 3, subtype 25, with the
// sequence count n.
fn text_of(rt: &impl Abort, alloc: Global, written: &str) -> Vec<u8> {
    let mut text = Vec::new(alloc);
    for octet in written.as_bytes() {
        let part: &[u8] = match *octet {
            b'P' => b"0864C00",
            b'Q' => b"000E200319000000000000000000000000",
            _ => slice::from_ref(octet),
        };
        text.extend_from_slice(part).expect(rt, "memory");
    }
    text
}

// These packets have these sequence counts.
fn are_counts(rt: &impl Abort, packets: &[BlockPacket], counts: &[u16]) {
    assert!(rt; packets.len() == counts.len(), "as many packets");
    for (packet, count) in packets.iter().zip(counts) {
        assert!(rt; packet.packet().count() == *count, "the packet");
    }
}

// The sources of a text, where the packets of step 0 have these sequence counts.
fn sources_of(rt: &impl Abort, alloc: Global, text: &[u8], opening: &[u16]) -> Vec<ScriptedSource> {
    let file = SourceFile::read(alloc, text).expect(rt, "sources");
    are_counts(rt, &file.opening, opening);
    file.sources
}

// Each source has this many packets left in a step.
fn are_left(rt: &impl Abort, sources: &[ScriptedSource], step: u32, left: &[u32]) {
    assert!(rt; sources.len() == left.len(), "as many sources");
    for (source, left) in sources.iter().zip(left) {
        holds(rt, source.left(step) == *left, "what is left in a step");
    }
}

const IN_TURN: &str = "1 1 P0Q\n2 1 P1Q\n1 3 P2Q\n1 1 P3Q";

// Texts, the sequence counts of the packets of step 0 in the order of the lines, and what is left of each source in
// some steps.
static READ: [(&str, &[u16], &[(u32, &[u32])]); 5] = wanted! {
    IN_TURN, &[] => &[(0, &[0, 0]), (1, &[2, 1]), (2, &[0, 0]), (3, &[1, 0]), (256, &[0, 0]), (257, &[0, 0])];
    "3 0 P0Q\n1 1 P1Q\n1 0 P2Q\n", &[0, 2] => &[(0, &[0, 0, 0]), (1, &[1, 0, 0])];
    "1 1 P0Q\n", &[] => &[(1, &[1])];
    "", &[] => &[(1, &[])];
    // small letters, and a telecommand, which has 11 octets
    "8 256 0864c000000e200319000000000000000000000000\n1 1 1864C0000004200F160000\n", &[]
    => &[(256, &[0, 0, 0, 0, 0, 0, 0, 1]), (1, &[1, 0, 0, 0, 0, 0, 0, 0])];
};

#[test]
fn sources_have_what_their_lines_say(rt: HostRuntime) {
    for (written, opening, steps) in &READ {
        let text = text_of(&rt, rt.alloc(), written);
        let sources = sources_of(&rt, rt.alloc(), &text, opening);
        for (step, left) in *steps {
            are_left(&rt, &sources, *step, left);
        }
    }
}

// The packets that a source gives in turn, in which steps, and their sequence counts.
fn gives(rt: &impl Abort, source: &mut ScriptedSource, packets: &[(u32, Option<u16>)]) {
    for (step, count) in packets {
        let found = source.next(*step).map(|packet| packet.packet().count());
        holds(rt, found == *count, "the next packet of a step");
    }
}

#[test]
fn sources_give_their_packets_in_the_order_of_the_lines(rt: HostRuntime) {
    let text = text_of(&rt, rt.alloc(), IN_TURN);
    let mut sources = sources_of(&rt, rt.alloc(), &text, &[]);
    let [first, second] = sources.as_mut_slice() else {
        panic!(&rt; "two sources");
    };
    gives(&rt, first, &[(1, Some(0)), (1, Some(3)), (1, None)]);
    gives(&rt, second, &[(1, Some(1))]);
    gives(&rt, first, &[(3, Some(2))]);
    assert!(&rt; first.left(3) == 0, "nothing is left");
}

// Texts, and the first line of each that is refused.
static BAD_SOURCES: [(&[&str], u64); 8] = wanted! {
    &["1 3 08"] => 1;
    // no empty line
    &["\n"] => 1;
    &["1 1 P0Q\n\n", "1 1 P0Q\n\n1 1 P0Q\n"] => 2;
    // numbers
    &["0 1 P0Q", "9 1 P0Q", "01 1 P0Q", "a 1 P0Q", "1 257 P0Q", "1 00 P0Q", "1 -1 P0Q"] => 1;
    // spaces
    &[" 1 1 P0Q", "1  1 P0Q", "1 1  P0Q", "1 1 P0Q ", "1 1", "1 1 "] => 1;
    // digits
    &["1 1 P0Q0", "1 1 P0Q\r\n", "1 1 P0Qzz"] => 1;
    // an octet after the packet
    &["1 1 P0Q00"] => 1;
    // an idle packet
    &["1 1 P0Q\n1 2 P1Q\n1 3 1FFFC0000004200F010000\n1 3 08"] => 3;
};

// A text of sources is refused at this line.
fn is_refused(rt: &impl Abort, alloc: Global, text: &[u8], line: u64) {
    match SourceFile::read(alloc, text) {
        Ok(_) => panic!(rt; "it is read"),
        Err(fault) => holds(rt, fault == ScriptFault::SourcesText { line }, "the line"),
    }
}

#[test]
fn the_first_bad_line_of_sources_is_told(rt: HostRuntime) {
    for (texts, line) in &BAD_SOURCES {
        for written in *texts {
            let text = text_of(&rt, rt.alloc(), *written);
            is_refused(&rt, rt.alloc(), &text, *line);
        }
    }
}

// Telemetry with this many octets of data.
fn packet_text(rt: &impl Abort, alloc: Global, data: u16) -> Vec<u8> {
    let length = data.saturating_add(14);
    let line = format!(in alloc; "1 1 0864C000{length:04X}200319000000000000000000000000");
    let mut text = line.expect(rt, "memory").into_bytes();
    for _ in 0..data {
        text.extend_from_slice(b"00").expect(rt, "memory");
    }
    text
}

#[test]
fn a_packet_longer_than_a_block_is_refused(rt: HostRuntime) {
    let longest = packet_text(&rt, rt.alloc(), 1003);
    are_left(&rt, &sources_of(&rt, rt.alloc(), &longest, &[]), 1, &[1]);
    let longer = packet_text(&rt, rt.alloc(), 1004);
    is_refused(&rt, rt.alloc(), &longer, 1);
}

// A line of step 0, and one of a later step.
const OPENING: &[u8] = b"1 0 1864C0000004200F160000\n";

const LATER: &[u8] = b"2 7 1864C0000004200F160000\n";

#[test]
fn the_65536th_line_of_a_source_and_step_is_refused(rt: HostRuntime) {
    let most = OPENING.repeat(rt.alloc(), 65_535).expect(&rt, "memory");
    let file = SourceFile::read(rt.alloc(), &most).expect(&rt, "sources");
    assert!(&rt; file.opening.len() == 65_535, "all packets");
    for line in [OPENING, LATER] {
        let more = line.repeat(rt.alloc(), 65_536).expect(&rt, "memory");
        is_refused(&rt, rt.alloc(), &more, 65_536);
    }
}

// A link takes a packet at these times, or its send fails.
fn sends(rt: &impl Abort, link: &mut ScriptedLink, packet: &BlockPacket, sent: &[(u64, bool)]) {
    for (time, taken) in sent {
        assert!(rt; link.failures() < 10, "a link that may fail");
        let sent = link.send(&id(rt, "SCI"), *time, packet);
        holds(rt, sent.is_ok() == *taken, "whether a send is taken");
    }
}

// The last send of a link that failed has this number, and was of a packet of SCI.
fn failed_last(rt: &impl Abort, link: &ScriptedLink, send: u128) {
    let store = id(rt, "SCI");
    let failed = link.last_failure();
    holds(
        rt,
        failed == Some(FailedSend { send, store }),
        "the send that failed last",
    );
}

#[test]
fn links_fail_at_the_sends_of_their_lines(rt: HostRuntime) {
    let packet = packet(&rt, rt.alloc(), 0);
    let text = "links 2\nfail 2 1\nfail 1 2\nfail 1 3";
    let mut links = read_links(rt.alloc(), text.as_bytes()).expect(&rt, "links");
    assert!(rt; links.len() == 2, "two links");
    let over_first = [(5, true), (6, false), (7, false), (8, true)];
    sends(&rt, &mut links[0], &packet, &over_first);
    sends(&rt, &mut links[1], &packet, &[(1, false), (1, true)]);
    let failures = [links[0].failures(), links[1].failures()];
    assert!(rt; failures == [2, 1], "how many sends failed");
    failed_last(&rt, &links[0], 3);
    failed_last(&rt, &links[1], 1);
}

// Texts, and how many links each says, or the first line of it that is refused.
static LINKS: [(&[&str], Result<usize, u64>); 7] = wanted! {
    &["links 0"] => Ok(0);
    &["links 1\nfail 1 4294967295\nfail 1 4294967295"] => Ok(1);
    &["links 5\n"] => Ok(5);
    &["links 99\nfail 99 1\n"] => Ok(99);
    &["", "\n", "links", "links ", "links 100", "links 01", "links 1 ", "link 1", "fail 1 1"] => Err(1);
    &["links 1\n\n", "links 1\nfail 1 0", "links 1\nfail 2 1", "links 0\nfail 1 1"] => Err(2);
    &["links 1\nfail 1 1\nfail 1 4294967296\n", "links 1\nfail 1 1\nlinks 1\n"] => Err(3);
};

// How many links a text says, or the line of its refusal.
fn links_in(rt: &impl Abort, alloc: Global, text: &str) -> Result<usize, u64> {
    match read_links(alloc, text.as_bytes()) {
        Ok(links) => Ok(links.len()),
        Err(ScriptFault::LinksText { line }) => Err(line),
        Err(fault) => panic!(rt; "{fault}: {text}"),
    }
}

#[test]
fn the_first_bad_line_of_links_is_told(rt: HostRuntime) {
    for (texts, want) in &LINKS {
        for text in *texts {
            holds(&rt, links_in(&rt, rt.alloc(), *text) == *want, text);
        }
    }
}

#[test]
fn faults_are_shown_with_number_name_and_line(rt: HostRuntime) {
    let (sources, links) = (
        ScriptFault::SourcesText { line: 3 },
        ScriptFault::LinksText { line: 1 },
    );
    is_told(&rt, rt.alloc(), ScriptFault::NoMemory, 0, "0 NoMemory");
    is_told(&rt, rt.alloc(), sources, 51, "51 SourcesText line 3");
    is_told(&rt, rt.alloc(), links, 52, "52 LinksText line 1");
}
