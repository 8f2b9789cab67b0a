//! What standard error says of a halt.

use super::{FIRST_RUN, FLY, HALTED_IN_1, HALTED_IN_2, Run, flight_of, script_of};
use crate::tests::samples::{Host, answers, holds, joined, told};

// Two bounded stores of two blocks, each with a report type of its own.
const A_AND_B_APART: &str = "\
    [[store]]\nid = \"A\"\nsize = 2\ntype = \"bounded\"\nchannel = 0\n\n\
    [[store]]\nid = \"B\"\nsize = 2\ntype = \"bounded\"\nchannel = 0\n\n\
    [[route]]\napid = 100\nservice = 3\nsubtype = 25\nstore = \"A\"\n\n\
    [[route]]\napid = 101\nservice = 3\nsubtype = 25\nstore = \"B\"\n";

// In each of two steps two packets for each of the stores.
const TWO_FOR_EACH: &str = "\
    1 1 0864C000000E200319000000000000000000000000\n\
    1 1 0864C000000E200319000000000000000000000000\n\
    1 1 0865C000000E200319000000000000000000000000\n\
    1 1 0865C000000E200319000000000000000000000000\n\
    1 2 0864C000000E200319000000000000000000000000\n\
    1 2 0864C000000E200319000000000000000000000000\n\
    1 2 0865C000000E200319000000000000000000000000\n\
    1 2 0865C000000E200319000000000000000000000000\n";

// All that arrives is dumped in its step, first what is in A.
const BOTH_IN_TURN: Run = Run {
    setup: A_AND_B_APART,
    forecast: "step,window,A,B\n1,4,2,2\n2,4,2,2\n",
    plan: "mmplan 1\nstores A B\ndump 1 2 2\ndump 2 2 2\nloss 0\nbound 0\nend\n",
    sources: &[TWO_FOR_EACH],
    ..FIRST_RUN
};

const BOTH_HALTED_IN_2: &str = "\
    step 1 A arrived 2 lost 0 dumped 2 held 0\n\
    step 1 B arrived 2 lost 0 dumped 2 held 0\n\
    total arrived 4 lost 0 dumped 4 held 0\n\
    halted step 2 46 LinkFailed\n";

// The first line of each halt by a link.
const EXPECTED: &str =
    "L: expected a link that takes the packet; plan the rest with another link; nothing of that \
    order was deleted\n";

const NONE_IN_1: &str = "note: no packet was sent in step 1\n";

// Two bounded stores of ten blocks on one channel, each with a report type of its own.
const TEN_EACH: &str = "\
    [[store]]\nid = \"X\"\nsize = 10\ntype = \"bounded\"\nchannel = 0\n\n\
    [[store]]\nid = \"Y\"\nsize = 10\ntype = \"bounded\"\nchannel = 0\n\n\
    [[route]]\napid = 100\nservice = 3\nsubtype = 25\nstore = \"X\"\n\n\
    [[route]]\napid = 101\nservice = 3\nsubtype = 25\nstore = \"Y\"\n";

// Five packets for each of them in a step, of source 1.
const FIVE_IN_1: &str = "\
    1 1 0864C000000E200319000000000000000000000000\n1 1 0864C000000E200319000000000000000000000000\n\
    1 1 0864C000000E200319000000000000000000000000\n1 1 0864C000000E200319000000000000000000000000\n\
    1 1 0864C000000E200319000000000000000000000000\n1 1 0865C000000E200319000000000000000000000000\n\
    1 1 0865C000000E200319000000000000000000000000\n1 1 0865C000000E200319000000000000000000000000\n\
    1 1 0865C000000E200319000000000000000000000000\n1 1 0865C000000E200319000000000000000000000000\n";

const FIVE_IN_2: &str = "\
    1 2 0864C000000E200319000000000000000000000000\n1 2 0864C000000E200319000000000000000000000000\n\
    1 2 0864C000000E200319000000000000000000000000\n1 2 0864C000000E200319000000000000000000000000\n\
    1 2 0864C000000E200319000000000000000000000000\n1 2 0865C000000E200319000000000000000000000000\n\
    1 2 0865C000000E200319000000000000000000000000\n1 2 0865C000000E200319000000000000000000000000\n\
    1 2 0865C000000E200319000000000000000000000000\n1 2 0865C000000E200319000000000000000000000000\n";

// What is deleted in the halted step also arrived in it.
const EMPTIED: Run = Run {
    setup: TEN_EACH,
    forecast: "step,window,X,Y\n1,10,5,5\n2,10,5,5\n3,0,5,5\n",
    plan: "mmplan 1\nstores X Y\ndump 1 5 5\ndump 2 5 5\ndump 3 0 0\nloss 0\nbound 0\nend\n",
    sources: &[FIVE_IN_1],
    ..FIRST_RUN
};

// Both stores are full as the halted step begins, and lose all that arrives in it.
const FILLED: Run = Run {
    forecast: "step,window,X,Y\n1,0,10,10\n2,10,5,5\n3,0,5,5\n",
    plan: "mmplan 1\nstores X Y\ndump 1 0 0\ndump 2 5 5\ndump 3 0 0\nloss 10\nbound 0\nend\n",
    sources: &[FIVE_IN_1, FIVE_IN_1, FIVE_IN_2],
    ..EMPTIED
};

const FILLED_HALTED_IN_2: &str = "\
    step 1 X arrived 10 lost 0 dumped 0 held 10\n\
    step 1 Y arrived 10 lost 0 dumped 0 held 10\n\
    total arrived 20 lost 0 dumped 0 held 20\n\
    halted step 2 46 LinkFailed\n";

// The first run, where the channel of its store has a limit.
const LIMITED: Run = Run {
    setup: "\
        [[store]]\nid = \"SCI\"\nsize = 4\ntype = \"bounded\"\nchannel = 0\n\n\
        [[limit]]\nchannel = 0\nblocks = 2\n\n\
        [[route]]\napid = 100\nservice = 3\nsubtype = 25\nstore = \"SCI\"\n",
    ..FIRST_RUN
};

// Runs over one link: the send that fails and the store of its packet, the report, and what standard error says after
// that: what was sent, and after `plan again from step` the step, the window that is left in it, and what the stores
// hold.
static HALTS: [(&Run, (u32, &str), &str, &str, &str); 11] = wanted! {
    &FIRST_RUN, (1, "SCI"), HALTED_IN_1, NONE_IN_1
    => "1, with a window of 1 in that step and none of its arrivals; start volumes: SCI 3";
    &FIRST_RUN, (2, "SCI"), HALTED_IN_1,
    "note: 1 packet of SCI was sent in step 1 and is still stored; it would be sent again\n"
    => "1, with a window of 0 in that step and none of its arrivals; start volumes: SCI 3";
    &FIRST_RUN, (3, "SCI"), HALTED_IN_2, "note: no packet was sent in step 2\n"
    => "2, with a window of 1 in that step and none of its arrivals; start volumes: SCI 4";
    &FIRST_RUN, (4, "SCI"), HALTED_IN_2,
    "note: 1 packet of SCI was sent in step 2 and is still stored; it would be sent again\n"
    => "2, with a window of 0 in that step and none of its arrivals; start volumes: SCI 4";
    &LIMITED, (1, "SCI"), HALTED_IN_1, NONE_IN_1
    => "1, with a window of 1 in that step and none of its arrivals; start volumes: SCI 3; \
        each limit in that step: less what its channel sent";
    &BOTH_IN_TURN, (3, "B"), HALTED_IN_1, "note: 2 packets of A were sent in step 1 and deleted\n"
    => "1, with a window of 1 in that step and none of its arrivals; start volumes: A 0, B 2";
    &BOTH_IN_TURN, (6, "A"), BOTH_HALTED_IN_2,
    "note: 1 packet of A was sent in step 2 and is still stored; it would be sent again\n"
    => "2, with a window of 2 in that step and none of its arrivals; start volumes: A 2, B 2";
    &BOTH_IN_TURN, (7, "B"), BOTH_HALTED_IN_2, "note: 2 packets of A were sent in step 2 and deleted\n"
    => "2, with a window of 1 in that step and none of its arrivals; start volumes: A 0, B 2";
    &BOTH_IN_TURN, (8, "B"), BOTH_HALTED_IN_2,
    "note: 1 packet of B was sent in step 2 and is still stored; it would be sent again\n\
        note: 2 packets of A were sent in step 2 and deleted\n"
    => "2, with a window of 0 in that step and none of its arrivals; start volumes: A 0, B 2";
    &EMPTIED, (7, "Y"), HALTED_IN_1,
    "note: 1 packet of Y was sent in step 1 and is still stored; it would be sent again\n\
        note: 5 packets of X were sent in step 1 and deleted\n"
    => "1, with a window of 3 in that step and none of its arrivals; start volumes: X 0, Y 5";
    &FILLED, (7, "Y"), FILLED_HALTED_IN_2,
    "note: 1 packet of Y was sent in step 2 and is still stored; it would be sent again\n\
        note: 5 packets of X were sent in step 2 and deleted\n"
    => "2, with a window of 3 in that step and none of its arrivals; start volumes: X 5, Y 10";
};

// The links of which this send fails, and what standard error says where it was to send a packet of this store.
fn links_and_words(
    rt: &impl Host,
    (send, store): (u32, &str),
    sent: &str,
    again: &str,
) -> (String, String) {
    let links = format!(in rt.alloc(); "links 1\nfail 1 {send}");
    let words = format!(in rt.alloc();
        "{EXPECTED}note: link 1 failed at its send {send}, a packet of {store}\n{sent}\
        hint: plan again from step {again}\n"
    );
    (links.expect(rt, "memory"), words.expect(rt, "memory"))
}

#[test]
fn a_halted_run_says_what_was_sent(rt: HostRuntime) {
    for (row, failed, report, sent, again) in &HALTS {
        let (links, words) = links_and_words(&rt, *failed, *sent, *again);
        let script = script_of(&rt, *row, links.as_str());
        answers(&rt, &[script.as_str()], *report, words.as_str(), 1);
    }
}

// A flight makes the plan of the first run, and says the same.
#[test]
fn a_halted_flight_says_what_was_sent(rt: HostRuntime) {
    let (row, failed, report, sent, again) = &HALTS[3];
    let (links, words) = links_and_words(&rt, *failed, *sent, *again);
    let script = flight_of(&rt, FLY, *row, links.as_str());
    let out = joined(&rt, &[row.plan, *report]);
    answers(&rt, &[script.as_str()], out.as_str(), words.as_str(), 1);
}

// Runs in which one of two links fails, or both, whichever takes the first order: the links, and what standard error
// may say after its first line, but for the words before the step of the hint.
static EITHER: [(&Run, &str, &[(&str, &str)]); 4] = [
    // Of two links the first takes the only order.
    (
        &FIRST_RUN,
        "links 2\nfail 1 2\nfail 2 1",
        &[(
            "\
            note: link 1 failed at its send 2, a packet of SCI\n\
            note: 1 packet of SCI was sent in step 1 and is still stored; it would be sent again\n",
            "1, with a window of 0 in that step and none of its arrivals; start volumes: SCI 3\n",
        )],
    ),
    (
        &BOTH_IN_TURN,
        "links 2\nfail 1 1\nfail 2 1",
        &[
            (
                "\
                note: link 1 failed at its send 1, a packet of A\n\
                note: link 2 failed at its send 1, a packet of B\n\
                note: no packet was sent in step 1\n",
                "1, with a window of 2 in that step and none of its arrivals; start volumes: A 2, B 2\n",
            ),
            (
                "\
                note: link 1 failed at its send 1, a packet of B\n\
                note: link 2 failed at its send 1, a packet of A\n\
                note: no packet was sent in step 1\n",
                "1, with a window of 2 in that step and none of its arrivals; start volumes: A 2, B 2\n",
            ),
        ],
    ),
    (
        &BOTH_IN_TURN,
        "links 2\nfail 1 2\nfail 2 2",
        &[
            (
                "\
                note: link 1 failed at its send 2, a packet of A\n\
                note: link 2 failed at its send 2, a packet of B\n\
                note: 2 packets were sent in step 1 and are still stored; they would be sent again\n",
                "1, with a window of 0 in that step and none of its arrivals; start volumes: A 2, B 2\n",
            ),
            (
                "\
                note: link 1 failed at its send 2, a packet of B\n\
                note: link 2 failed at its send 2, a packet of A\n\
                note: 2 packets were sent in step 1 and are still stored; they would be sent again\n",
                "1, with a window of 0 in that step and none of its arrivals; start volumes: A 2, B 2\n",
            ),
        ],
    ),
    // The first link fails with its order, or the second one carries out both.
    (
        &BOTH_IN_TURN,
        "links 2\nfail 1 1\nfail 2 3",
        &[
            (
                "\
                note: link 1 failed at its send 1, a packet of A\n\
                note: 2 packets of B were sent in step 1 and deleted\n",
                "1, with a window of 1 in that step and none of its arrivals; start volumes: A 2, B 0\n",
            ),
            (
                "\
                note: link 1 failed at its send 1, a packet of B\n\
                note: 2 packets of A were sent in step 1 and deleted\n",
                "1, with a window of 1 in that step and none of its arrivals; start volumes: A 0, B 2\n",
            ),
            (
                "\
                note: link 2 failed at its send 3, a packet of B\n\
                note: 2 packets of A were sent in step 1 and deleted\n",
                "1, with a window of 1 in that step and none of its arrivals; start volumes: A 0, B 2\n",
            ),
        ],
    ),
];

// A run prints this report, and standard error says one of these after its first line.
fn says_one_of(rt: &impl Host, row: &Run, links: &str, said: &[(&str, &str)]) {
    let script = script_of(rt, row, links);
    let answer = told(rt, &[script.as_str()]);
    let mut is_said = false;
    for (text, again) in said {
        let words = joined(
            rt,
            &[EXPECTED, *text, "hint: plan again from step ", *again],
        );
        is_said |= answer.err.as_str() == words.as_str();
    }
    holds(rt, links, &answer, is_said && answer.has(HALTED_IN_1, 1));
}

#[test]
fn each_link_that_failed_is_told(rt: HostRuntime) {
    for (row, links, said) in &EITHER {
        says_one_of(&rt, *row, *links, *said);
    }
}

// The rest of a halted run is planned as its hint says: the store that still holds ten blocks sends three, and has no
// room for two of the five that come.
#[test]
fn the_rest_of_a_halted_run_is_planned(rt: HostRuntime) {
    let script = "\
        plan S F\n=== S\n\
        [[store]]\nid = \"X\"\nsize = 10\ntype = \"bounded\"\nchannel = 0\nstart = 5\n\n\
        [[store]]\nid = \"Y\"\nsize = 10\ntype = \"bounded\"\nchannel = 0\nstart = 10\n\n\
        [[route]]\napid = 100\nservice = 3\nsubtype = 25\nstore = \"X\"\n\n\
        === F\nstep,window,X,Y\n1,3,0,0\n2,0,5,5\n";
    let answer = told(&rt, &[script]);
    let is_planned = answer
        .out
        .as_str()
        .contains("\ndump 1 0 3\ndump 2 0 0\nloss 2\n");
    holds(&rt, script, &answer, is_planned);
}

// Tests before the run fail, and nothing is said of a step.
#[test]
fn a_run_that_does_not_begin_has_no_halted_step(rt: HostRuntime) {
    let script = script_of(&rt, &FIRST_RUN, "links 0");
    let err =
        "L: expected 1 to 8 sources and 1 to 4 links; count them; a source needs a line in the file of sources\n\
        hint: the file of links says links 0\n";
    answers(&rt, &[script.as_str()], "refused 44 Counts\n", err, 1);
}
