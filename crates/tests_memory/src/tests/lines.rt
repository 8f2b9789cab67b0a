//! Requests as lines of text, and the lines that answer them.
use crate::tests::samples::{Host, ONE_STORE, holds, is_shown, is_told};
use mm_ask::Outcome::{AllDone, SomeRefused};
use mm_ask::{Fault, LineFault, Outcome, ask_bytes};

mod reports;

// A conversation: its name, the requests, and the outcome and the text that answer them.
type Talk = (&'static str, &'static str, Outcome, &'static str);

const ENABLE: &str = "1864C000000D200F010000015343492020202020";

// The requests on a store are answered by this text, with this outcome.
fn answers(rt: &impl Host, name: &str, requests: &str, outcome: Outcome, want: &str) {
    let told = ask_bytes(rt.alloc(), ONE_STORE.as_bytes(), requests.as_bytes());
    is_told(rt, name, &told.expect(rt, name), outcome, want);
}

// Each conversation by itself is answered so.
fn each_answers(rt: &impl Host, talks: &[Talk]) {
    for (name, requests, outcome, want) in talks {
        answers(rt, name, requests, *outcome, want);
    }
}

static EMPTY_LINES: [Talk; 3] = wanted! {
    "no requests", "", AllDone => "";
    "empty lines alone", "\n\n", AllDone => "";
    "empty lines are passed over and counted",
    "\n\n1864C000000D200F010000015343492020202020\n\n1864C000000D200F020000015343492020202020", AllDone
    => "3.1 done\n5.1 done\n";
};

#[test]
fn empty_lines_are_counted(rt: HostRuntime) {
    each_answers(&rt, &EMPTY_LINES);
}

// Where the setup is refused, nothing is asked.
#[test]
fn a_refused_setup(rt: HostRuntime) {
    let told = ask_bytes(rt.alloc(), b"[[store", ENABLE.as_bytes());
    let fault = told.expect_err(&rt, "a refusal");
    holds(&rt, fault == Fault::SetupText, "the refusal");
    is_shown(&rt, &fault, "27 SetupText");
}

// Requests that are refused whole.
static REFUSED: [Talk; 13] = wanted! {
    // Each of these lines fails the test that is named and a later one too.
    "a character that is no digit, and no packet", "00z", SomeRefused => "1 refused 49 HexLine\n";
    "a packet that is refused, and no digits after it", "3864C0000004200F0100zz", SomeRefused
    => "1 refused 49 HexLine\n";
    "an octet is missing, and no request has the subtype", "1864C0000004200F0E00", SomeRefused => "1 refused 1 Short\n";
    "a packet that is refused, with an octet after it", "0064C0000004200F01000000", SomeRefused
    => "1 refused 3 NoSecondaryHeader\n";
    "an octet after a packet of another service", "1864C0000004201101000000", SomeRefused => "1 refused 49 HexLine\n";
    "another service with a subtype that no request has", "1864C000000420110E0000", SomeRefused
    => "1 refused 12 NotSt15\n";
    "a carriage return is no digit", "1864C000000D200F010000015343492020202020\r\n", SomeRefused
    => "1 refused 49 HexLine\n";
    // The refusals of packets that no line above has.
    "an idle packet", "1FFFC0000004200F010000", SomeRefused => "1 refused 6 Idle\n";
    "another version", "3864C0000004200F010000", SomeRefused => "1 refused 2 Version\n";
    "a segment", "186400000004200F010000", SomeRefused => "1 refused 5 Segmented\n";
    "another version of the service", "1864C0000004100F010000", SomeRefused => "1 refused 4 PusVersion\n";
    "a header that is cut", "1864C0000003200F0100", SomeRefused => "1 refused 7 HeaderCut\n";
    "digits of either case", "1864c000000d200f010000015343492020202020", AllDone => "1.1 done\n";
};

#[test]
fn requests_that_are_refused_whole(rt: HostRuntime) {
    each_answers(&rt, &REFUSED);
}

// Creates two stores.
const CREATE: &str =
    "1864C0000021200F140000025343492020202020000000040100484B202020202020000000020001";

// Each proper prefix of a line's packet is too short.
fn prefixes_are_short(rt: &impl Host, packet: &str) {
    for octets in 1..packet.len() / 2 {
        let line = packet.get(..2 * octets).expect(rt, "digits");
        answers(rt, line, line, SomeRefused, "1 refused 1 Short\n");
    }
}

#[test]
fn each_proper_prefix_of_a_packet_is_short(rt: HostRuntime) {
    prefixes_are_short(&rt, ENABLE);
    prefixes_are_short(&rt, CREATE);
}

#[test]
fn the_refusal_of_a_line_is_shown_as_it_is_printed(rt: HostRuntime) {
    is_shown(&rt, &LineFault::HexLine, "49 HexLine");
}
