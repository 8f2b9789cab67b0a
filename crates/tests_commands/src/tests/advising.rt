//! What the program says of a refusal on standard error, in the words of docs/FORMATS.md.

use crate::tests::samples::{
    A_WITH_LIMIT_1, Host, SCI, TWO_STEPS_OF_A, answers, holds, joined, of_plan, told,
};

// A script whose task is refused, and the line on standard error, or how it begins where a long list of ranges follows.
static ADVICE: [(&str, &str); 27] = wanted! {
    "plan S F\n=== S\n"
    => "F: expected a file of this name; check the name and its folder, or in a script the line === NAME above the \
        file; outside a script - is standard input\n";
    "check S F -\n=== S\n=== F\n"
    => "-: expected a file of this name; check the name and its folder, or in a script the line === NAME above the \
        file; outside a script - is standard input\n";
    "plan S F\r\n=== S\r\n=== F\r\n"
    => "S: expected a line === NAME; in this script a carriage return stands beside the name; save the script with LF \
        at the end of each line, not CR LF\n";
    "plan S F\r\n=== S\n=== F\n"
    => "F?: expected a line === NAME; in this script a carriage return stands beside the name; save the script with LF \
        at the end of each line, not CR LF\n";
    "plan S F\n=== S \n=== F\n"
    => "S: expected a line === NAME; in this script spaces stand beside the name; remove them\n";
    "plan S F\n=== S\n===  F\n"
    => "F: expected a line === NAME; in this script spaces stand beside the name; remove them\n";
    "plan S F\n=== S\n[[store\n=== F\n"
    => "S: expected a TOML document in UTF-8; look for a bracket or a quote that is missing, a name that comes twice, \
        or a number that is too large\n";
    "plan S F\n=== S\nstores = 1\n=== F\n"
    => "S, at the top, a key that cannot be there: expected the keys that docs/FORMATS.md lists for this table, each \
        with an allowed value, and no store, route or limit twice; look for a key that is missing, misspelt or has a \
        value of another kind\n";
    "plan S F\n=== S\n[[store]]\nid = \"A\"\nsize = \"4\"\ntype = \"bounded\"\nchannel = 0\n=== F\n"
    => "S, table 1 of store, size: expected the keys that docs/FORMATS.md lists for this table, each with an allowed \
        value, and no store, route or limit twice; look for a key that is missing, misspelt or has a value of another \
        kind\n";
    "plan S F\n=== S\n[[store]]\nid = \"A\"\nsize = 1\ntype = \"bounded\"\nchannel = 0\n[[route]]\napid = \"1\"\n=== \
        F\n"
    => "S, table 1 of route, apid: expected the keys";
    "plan S F\n=== S\narrivals = \"first\"\n[[store]]\n=== F\n" => "S, at the top, arrivals: expected the keys";
    "plan S F\n=== S\n[[store]]\nid = \"A\"\nsize = 1\ntype = \"bounded\"\nchannel = 0\n[[limit]]\nchannel = 0\n=== F\n"
    => "S, table 1 of limit, blocks: expected the keys";
    "plan S F\n=== S\n[[store]]\nid = \"A\"\nsize = 1\ntype = \"bounded\"\nchannel = \"0\"\n=== F\n"
    => "S, table 1, channel: expected the keys";
    "plan S F\n=== S\n[[store]]\nid = \"A\"\nsise = 1\n=== F\n"
    => "S, table 1, a key that cannot be there: expected the keys";
    "plan S F\n=== S\n[[store]]\nid = \"A\"\nsize = 1\ntype = \"bounded\"\nchannel = 0\n[[store]]\nid = \"A\"\nsize = \
        1\ntype = \"bounded\"\nchannel = 0\n=== F\n"
    => "S, table 2, a table that comes twice: expected the keys";
    "ask S R\n=== S\n[[store]\n=== R\n"
    => "S: expected a TOML document in UTF-8; look for a bracket or a quote that is missing, a name that comes twice, \
        or a number that is too large\n";
    "plan S F\n=== S\n[[store]]\nid = \"A\"\nsize = 1\ntype = \"bounded\"\nchannel = 0\n=== F\nstep,window,B\n"
    => "F: expected a header of step, window and the setup's stores in their order; copy the identifiers from the \
        setup\n";
    "plan S F\n=== S\n[[store]]\nid = \"A\"\nsize = 1\ntype = \"bounded\"\nchannel = 0\n=== F\nstep,window,A\n1,2,03\n"
    => "F, row 1, column 3: expected a whole number of at most 1,000,000, without sign or leading zeros; write plain \
        digits, without spaces\n";
    "plan S F\n=== S\n[[store]]\nid = \"A\"\nsize = 1\ntype = \"bounded\"\nchannel = 0\n=== F\nstep,window,A\n2,2,3\n"
    => "F, row 1: expected the number of the next step, where the first is 1; number the records 1, 2, 3 and so on\n";
    "check S F P\n=== S\n[[store]]\nid = \"A\"\nsize = 1\ntype = \"bounded\"\nchannel = 0\n=== \
        F\nstep,window,A\n1,0,0\n=== P\nmmplan 4\n"
    => "P, line 1: expected the line that a plan text has there, with a line feed at its end; compare it with the \
        table 'Plan text' of docs/FORMATS.md, or plan again\n";
    "fly S F X L\n=== S\n[[store]]\nid = \"A\"\nsize = 1\ntype = \"bounded\"\nchannel = 0\n=== \
        F\nstep,window,A\n1,0,0\n=== X\n9 1 00\n=== L\nlinks 1\n"
    => "X, line 1: expected a source from 1 to 8, a step from 0 to 256 and a packet of at most 1,024 octets in \
        hexadecimal digits, separated by one space; compare the line with 'Sources as text' in docs/FORMATS.md, and \
        the packet data length with the octets; it ends with LF alone\n";
    "fly S F X L\n=== S\n[[store]]\nid = \"A\"\nsize = 1\ntype = \"bounded\"\nchannel = 0\n=== \
        F\nstep,window,A\n1,0,0\n=== X\n=== L\nlink 1\n"
    => "L, line 1: expected links N in the first line, and fail LINK SEND in each further line; compare the line with \
        'Links as text' in docs/FORMATS.md\n";
    "fly S F X L\n=== S\n[[store]]\nid = \"A\"\nsize = 1\ntype = \"bounded\"\nchannel = 0\n=== \
        F\nstep,window,A\n1,0,0\n=== X\n=== L\nlinks 1\n"
    => "X: expected 1 to 8 sources and 1 to 4 links; count them; a source needs a line in the file of sources\n";
    "run S F P X L\n=== S\n[[store]]\nid = \"A\"\nsize = 1\ntype = \"bounded\"\nchannel = 0\n=== \
        F\nstep,window,A\n1,0,1\n=== P\nmmplan 1\nstores A\ndump 1 1\nloss 0\nbound 0\nend\n=== X\n1 1 \
        0864C000000E200319000000000000000000000000\n=== L\nlinks 1\n"
    => "P: expected amounts that fit the window and the channels' limits in each step; dump less in that step, or plan \
        again\n";
    "plan S F\n=== S\n[[store]]\nid = \"A\"\nsize = 0\ntype = \"bounded\"\nchannel = 0\n=== F\n"
    => "S, size: expected a number in its range";
    "plan S F\n=== S\n[[store]]\nid = \"A\"\nsize = 1\ntype = \"bounded\"\nchannel = 0\n=== \
        F\nstep,window,A\n1,1000001,0\n"
    => "F, window: expected a number in its range";
    "plan S F\n=== S\n[[store]]\nid = \"A\"\nsize = 1\ntype = \"bounded\"\nchannel = 0\n=== \
        F\nstep,window,A,limit:1\n1,1,0,1000001\n"
    => "F, limit: expected a number in its range";
};

// The task is refused, and standard error begins with the advice.
fn explains(rt: &impl Host, script: &str, advice: &str) {
    let answer = told(rt, &[script]);
    let is_told = answer.status == 1 && answer.err.as_str().starts_with(advice);
    holds(rt, script, &answer, is_told);
}

#[test]
fn refusals_are_explained(rt: HostRuntime) {
    for (script, advice) in &ADVICE {
        explains(&rt, script, advice);
    }
}

// A plan for a store of 3 blocks, whose channel takes 1 block a step, and the lines on standard error. The first plan
// is least, and nothing is said of it. Each plan that fits loses 2 blocks, as few as any.
static FOUND: [(&str, &str); 7] = wanted! {
    "mmplan 2\nstores A\ndump 1 1\ndump 2 0\nloss 2\nstretch A 1 2\ncount 1 channels\nbound 2\nend\n"
    => "";
    "mmplan 2\nstores A\ndump 1 2\ndump 2 0\nloss 2\nstretch A 1 2\ncount 1 channels\nbound 2\nend\n"
    => "P, step 1: expected amounts within the window and the channels' limits; dump less in that step, or plan \
        again\nhint: step 1 dumps 2 blocks on channel 0, whose limit is 1\n";
    "mmplan 2\nstores A\ndump 1 1\ndump 2 0\nloss 3\nstretch A 1 2\ncount 1 channels\nbound 2\nend\n"
    => "P: expected the loss that the plan has, which is the number printed; take the setup and the forecast that it \
        was planned for; if dumps were changed, plan again\nhint: line 5 says loss 3; the plan loses 2, which is 1 \
        less\nnote: blocks lost: 2 by this plan, and no plan that fits loses fewer\n";
    "mmplan 2\nstores A\ndump 1 1\ndump 2 0\nloss 2\nstretch A 2 1\ncount 1 channels\nbound 2\nend\n"
    => "P, stretch 1: expected stretches of stores of the setup, with steps in order and in range, that share no step; \
        correct that stretch, counted from 1, or plan again\nhint: line 6 is \"stretch A 2 1\"; its first step is \
        after its last\nnote: blocks lost: 2 by this plan, and no plan that fits loses fewer\n";
    "mmplan 2\nstores A\ndump 1 1\ndump 2 0\nloss 2\nstretch A 1 2\ncount 2 channels\nbound 2\nend\n"
    => "P, count 1: expected counts of inner steps, each once, at which each inner store has a channel with a limit; \
        take that count out, counted from 1, or plan again\nhint: line 7 is \"count 2 channels\"; the step is inner to \
        no stretch, as each of its steps but the last is\nnote: blocks lost: 2 by this plan, and no plan that \
        fits loses fewer\n";
    "mmplan 2\nstores A\ndump 1 1\ndump 2 0\nloss 2\nstretch A 1 2\ncount 1 channels\nbound 1\nend\n"
    => "P: expected the bound that the cut has, which is the number printed; take the setup and the forecast that it \
        was planned for, or plan again\nhint: line 8 says bound 1; the bound of the stretches and counts above it is \
        2\nnote: blocks lost: 2 by this plan, and no plan that fits loses fewer\n";
    "mmplan 1\nstores A\ndump 1 1\ndump 2 0\nloss 2\nstretch A 1 2\nbound -2\nend\n"
    => "P: expected a cut whose bound is the loss of the plan; plan again; this plan fits, and loses at most the \
        difference more than the best\nnote: blocks lost: 2 by this plan, and no plan that fits loses fewer\n";
};

// Standard error has this remark on a plan and nothing else.
fn remarks(rt: &impl Host, plan: &str, remark: &str) {
    let script = of_plan("check", [A_WITH_LIMIT_1, TWO_STEPS_OF_A, plan]);
    let answer = told(rt, &script);
    holds(rt, plan, &answer, answer.err.as_str() == remark);
}

#[test]
fn verdicts_are_explained(rt: HostRuntime) {
    for (plan, remark) in &FOUND {
        remarks(&rt, plan, remark);
    }
}

// A line that is no packet, and a request to enable a store that is not there.
const REFUSED_REQUESTS: &str = "zz\n1864C000000D200F01000001484B202020202020\n";

const REQUESTS_TOLD: &str = "1 refused 49 HexLine\n2.1 refused 23 NoSuchStore\n";

const REFUSED_WORDS: &str = "\
R, line 1: expected one packet in hexadecimal digits, two for each octet, and nothing after it; write one packet a \
    line, and compare its packet data length with its octets
hint: line 1 has \"z\", which is no hexadecimal digit
R, line 2, instruction 1: expected the identifier of a store that is there; list the stores with subtype 22, or create \
    this one with subtype 20
hint: line 2, instruction 1, names the store \"HK\"
";

#[test]
fn refused_lines_are_explained(rt: HostRuntime) {
    let script = ["ask S R\n=== S\n", SCI, "=== R\n", REFUSED_REQUESTS];
    answers(&rt, &script, REQUESTS_TOLD, REFUSED_WORDS, 1);
}

// Requests of which an instruction is refused, and what is found in it.
static NAMED: [(&str, &str, &str); 5] = wanted! {
    "1864C0000015200F010000025343492020202020484B202020202020", "1.1 done\n1.2 refused 23 NoSuchStore\n"
    => "line 1, instruction 2, names the store \"HK\"";
    "1864C0000013200F14000001484B202020202020000000020200", "1.1 refused 16 BadEnum\n"
    => "line 1, instruction 1, has the type 2; 0 is circular, and 1 is bounded";
    "1864C0000013200F14000001484B202020202020000000020109", "1.1 refused 16 BadEnum\n"
    => "line 1, instruction 1, has the virtual channel 9; 0 to 7 can be";
    "1864C000000E200F1C000001534349202020202008", "1.1 refused 16 BadEnum\n"
    => "line 1, instruction 1, has the virtual channel 8; 0 to 7 can be";
    "1864C0000011200F03000001534349202020202007FF0319", "1.1 refused 16 BadEnum\n"
    => "line 1, instruction 1, has the APID 2047; 0 to 2046 can be";
};

// The answers to a request, and the hint in the last line of standard error.
fn is_named(rt: &impl Host, request: &str, answers: &str, named: &str) {
    let answer = told(rt, &["ask S R\n=== S\n", SCI, "=== R\n", request, "\n"]);
    let hint = joined(rt, &["\nhint: ", named, "\n"]);
    let is_told = answer.err.as_str().ends_with(hint.as_str());
    holds(rt, request, &answer, answer.has(answers, 1) && is_told);
}

#[test]
fn what_an_instruction_names_is_told(rt: HostRuntime) {
    for (request, answers, named) in &NAMED {
        is_named(&rt, request, answers, named);
    }
}

// A line that is no packet, a report of line 9 of some requests that is cut short, and an answer of `ask`.
const REFUSED_PACKETS: &str = "zz\n9 report 0864\n4.1 refused 24 Exists\n";

const PACKETS_TOLD: &str = "1 refused 49 HexLine\n9 refused 1 Short\n4.1 refused 24 Exists\n";

const PACKETS_EXPLAINED: &str = "\
P, packet 1: expected one packet in hexadecimal digits, two for each octet, and nothing after it; write one packet a \
    line, and compare its packet data length with its octets
P, packet 9: expected a whole packet: 6 octets, and then as many as the packet data length says; send the packet \
    again, or correct its length
P, packet 4, instruction 1: expected an identifier that no store has yet; choose another identifier, or delete that \
    store with subtype 21
";

#[test]
fn refused_packets_are_explained(rt: HostRuntime) {
    let script = ["read P\n=== P\n", REFUSED_PACKETS];
    answers(&rt, &script, PACKETS_TOLD, PACKETS_EXPLAINED, 1);
}
