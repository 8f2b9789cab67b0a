//! Hints: what the program says of a file that is refused, in a further line on standard error.

use crate::tests::samples::{Answer, Host, holds, joined, replaced, told, told_bytes};

// The table of a store.
const STORE_A: &str = "[[store]]\nid = \"A\"\nsize = 4\ntype = \"bounded\"\nchannel = 0\n";

// Setups that are refused, and what is found in each.
static SETUP_HINTS: [(&str, &str); 10] = wanted! {
    "[[store]]\nid = \"A\"\nsize = 2,000\n" => "line 3 is \"size = 2,000\"; numbers have no commas";
    "[[store]]\nid = \"A\"\nsize 2000\n" => "line 3 is \"size 2000\"; write = between a key and its value";
    "store = 1\n" => "store is no array of tables; write [[store]] above each table";
    "stores = 1\n" => "the key \"stores\" is none of store, route, limit and arrivals";
    "[[store]]\nid = \"A\"\nsize = 4\ntype = \"bounded\"\n" => "table 1 of store, \"A\", has no key channel";
    "[[store]]\nid = \"A\"\nsize = \"4\"\ntype = \"bounded\"\nchannel = 0\n"
    => "table 1 of store, \"A\", has size = \"4\"; a whole number is expected; write it without quotes";
    "[[store]]\nid = 5\nsize = 4\ntype = \"bounded\"\nchannel = 0\n"
    => "table 1 of store has id = 5; a text is expected; write it in quotes";
    "[[store]]\nid = \"CAM 1\"\nsize = 4\ntype = \"bounded\"\nchannel = 0\n"
    => "table 1 of store, \"CAM 1\", has \"CAM 1\" as id; 1 to 8 of the characters A-Z, 0-9, _ and - can be";
    "[[store]]\nid = \"A\"\nsize = 4\ntype = \"ring\"\nchannel = 0\n"
    => "table 1 of store, \"A\", has the type \"ring\"; \"circular\" and \"bounded\" can be";
    "[[store]]\nid = \"A\"\nsize = 2000000\ntype = \"bounded\"\nchannel = 0\n"
    => "table 1 of store, \"A\", has size = 2000000; 1 to 1000000 can be; a block is room for one packet; plan more in \
        coarser units: docs/PLANNING.md, 'Limits of scale'";
};

// Tables that are refused after the store A, and what is found in each.
static TABLE_HINTS: [(&str, &str); 8] = wanted! {
    "[[store]]\nid = \"B\"\nsize = 4\ntype = \"bounded\"\nchannel = 0\nsise = 4\n"
    => "table 2 of store, \"B\", has the key \"sise\", which is none of size, id, type, channel and start";
    "[[limit]]\nblocks = 4\n" => "table 1 of limit has no key channel";
    "[[store]]\nid = \"cam\"\nsize = 4\ntype = \"bounded\"\nchannel = 0\n"
    => "table 2 of store, \"cam\", has small letters in its id; write capital letters";
    "[[route]]\napid = 100\nservice = 3\nsubtype = 25\nstore = \"B\"\n"
    => "table 1 of route names the store \"B\", which no table of store has";
    STORE_A => "table 2 of store, \"A\", has the id of an earlier one; rename one of them";
    "[[route]]\napid = 100\nservice = 3\nsubtype = 25\nstore = \"A\"\n[[route]]\napid = 100\nservice = 3\nsubtype = \
        25\nstore = \"A\"\n"
    => "table 2 of route is the same as an earlier one; leave one of them out";
    "start = 5\n" => "table 1 of store, \"A\", has start = 5; 0 to 4 can be";
    "[[limit]]\nchannel = 8\nblocks = 4\n" => "table 1 of limit has channel = 8; 0 to 7 can be";
};

// Forecasts that are refused, and what is found in each.
static FORECAST_HINTS: [(&str, &str); 17] = wanted! {
    "step;window;A\n1;2;3\n" => "semicolons separate the cells; save the file with commas";
    "Step,window,A\n1,2,3\n"
    => "column 1 of the header is \"Step\", and \"step\" is expected";
    "step, window,A\n1,2,3\n"
    => "column 2 of the header is \" window\", and \"window\" is expected";
    "window,step,A,,\n2,1,3,,\n"
    => "column 1 of the header is \"window\", and \"step\" is expected";
    "step,window,a\r\n1,2,3\r\n"
    => "column 3 of the header is \"a\", and \"A\" is expected";
    "" => "the file is empty; its first line is \"step,window,A\"; a file to which the output is sent is emptied \
        before it is read";
    "step,window,A,limit:8\n1,2,3,4\n"
    => "column 4 of the header is \"limit:8\"; after the stores can be limit:0 to limit:7, rising, and then size: with \
        stores";
    "step,window,A,limit:0\n1,2,3,4,5\n"
    => "row 1 is line 2 of the file, whose header is line 1; cells: 5 there, 4 in the header";
    "step,window,A,limit:0\n1,2,3,1000001\n"
    => "row 1 has \"1000001\" in the column \"limit:0\", line 2 of the file; 0 to 1000000 can be; plan more in \
        coarser units: docs/PLANNING.md, 'Limits of scale'";
    "[[store]]\nid = \"A\"\nsize = 4\ntype = \"bounded\"\nchannel = 0\n"
    => "the files are in another order; name the setup first, then the forecast";
    "step,window,A\n1,2,3\n\n2,1,900,3\n"
    => "row 2 is line 4 of the file, whose header is line 1; cells: 4 there, 3 in the header";
    "step,window,A\n1,2\n"
    => "row 1 is line 2 of the file, whose header is line 1; cells: 2 there, 3 in the header";
    "step,window,A\n1,2,\"1,900\"\n"
    => "row 1 has \"\"1,900\"\" in the column \"A\", where a whole number is expected; it is line 2 of the file, whose \
        header is line 1";
    "step,window,A\n1,2,3\n,,\n"
    => "row 2 has \"\" in the column \"step\", where a whole number is expected; it is line 3 of the file, whose \
        header is line 1";
    "step,window,A\n1,2,3\n3,2,3\n"
    => "the step is \"3\" in line 3 of the file, whose header is line 1; it is to be 2";
    "step,window,A\n1,2,3\n2,1000001,3\n"
    => "row 2 has \"1000001\" in the column \"window\", line 3 of the file; 0 to 1000000 can be; plan more in \
        coarser units: docs/PLANNING.md, 'Limits of scale'";
    "step,window,A\n" => "there are 0 records after the header; 1 to 256 can be; write one for each step";
};

// Plan texts that are refused, and what is found in each.
static PLAN_HINTS: [(&str, &str); 8] = wanted! {
    "mmplan 1\r\nstores A\r\n" => "line 1 ends with CR LF; save the file with LF alone";
    "\u{FEFF}mmplan 1\nstores A\n"
    => "the file begins with a byte order mark; save it in UTF-8 without one";
    "refused 30 Header\n" => "the file holds the line of a refusal, and no plan; plan again";
    "mmplan 1\nstores A\ndump 2 2\n" => "line 3 is \"dump 2 2\"; dump 1 is expected";
    "mmplan 1\nstores A\ndump 1 2\n"
    => "the text ends in line 4; its last line is end, with a line feed";
    "mmplan 1\nstores A\ndump 1 2\nloss 0\nbound 0\nend"
    => "the text ends in line 6; its last line is end, with a line feed";
    "mmplan 1\nstores B\ndump 1 2\nloss 0\nbound 0\nend\n"
    => "the plan has \"stores B\" and 1 steps; \"stores A\" and 2 steps are wanted";
    "mmplan 1\nstores A\ndump 1 3\ndump 2 2\nloss 0\nbound 0\nend\n"
    => "step 1 dumps 3 blocks, and its window is 2";
};

// Packets and links that are refused, or with which a run does not begin, and what is found in them.
static FLIGHT_HINTS: [(&str, &str); 9] = wanted! {
    "1 1 0864 C000\n=== L\nlinks 1\n"
    => "line 1 has spaces between digits; write the digits without them";
    "1 1 0864G\n=== L\nlinks 1\n" => "line 1 has \"G\", which is no hexadecimal digit";
    "1 1 0864C\n=== L\nlinks 1\n" => "line 1 has an odd number of digits; write two for each octet";
    "1 1 0864C000000E20031900000000000000000000000000\n=== L\nlinks 1\n"
    => "line 1 has 22 octets, and its packet data length says 21 in all";
    "1 1 0864C000000E200319000000000000000000000000\r\n=== L\nlinks 1\n"
    => "line 1 ends with CR LF; save the file with LF alone";
    "1 1 0864C000000E200319000000000000000000000000\n9 1 0864C000000E200319000000000000000000000000\n=== L\nlinks 1\n"
    => "line 2 is \"9 1 0864C000000E200319000000000000000000000000\"";
    "1 1 0864C000000E200319000000000000000000000000\n=== L\nlinks 1\nfail 2 1\n"
    => "line 2 names link 2, and line 1 says links 1; links are numbered from 1 to that number";
    "=== L\nlinks 1\n" => "the file of sources has 0 sources";
    "1 1 0864C000000E200319000000000000000000000000\n=== L\nlinks 5\n"
    => "the file of links says links 5";
};

// Requests that are refused, and what is found in each.
static REQUEST_HINTS: [(&str, &str); 5] = wanted! {
    "\u{FEFF}1864C000000D200F01000001484B202020202020\n"
    => "the file begins with a byte order mark; save it in UTF-8 without one";
    "mmplan 1\nstores A\n" => "the file holds a plan text in place of packets";
    "1864 C000\n" => "line 1 has spaces between digits; write the digits without them";
    "\n1864C000000D200F01000001484B202020202020\r\n"
    => "line 2 ends with CR LF; save the file with LF alone";
    "1864C000000D200F01000001484B20202020202000\n"
    => "line 1 has 21 octets, and its packet data length says 20 in all";
};

// Other scripts with a file that is refused, and what is found in them.
static OTHER_HINTS: [(&str, &str); 9] = wanted! {
    "read X\n=== X\n1 3 0864C000000E200319000000000000000000000000\n"
    => "the file holds sources of a run in place of packets; leave out the source and the step before each packet";
    "read X\n=== X\n1864C0000004200F160000\r\n" => "line 1 ends with CR LF; save the file with LF alone";
    "check P S F\n=== S\n=== F\n=== P\nmmplan 1\nstores A\n"
    => "the files are in another order; name the setup first, then the forecast, then the plan";
    "run S P F X L\n=== S\n[[store]]\nid = \"A\"\nsize = 4\ntype = \"bounded\"\nchannel = 0\n=== F\n=== P\nmmplan \
        2\nstores A\n=== X\n=== L\n"
    => "the files are in another order; name the setup first, then the forecast, then the plan";
    "plan P F\n=== F\n=== P\nmmplan 1\nstores A\n"
    => "the file holds a plan text in place of a setup";
    "plan S F\n=== S\nstep,window,A\n1,2,3\n2,2,3\n=== F\n[[store]]\nid = \"A\"\nsize = 4\ntype = \"bounded\"\nchannel \
        = 0\n"
    => "the files are in another order; name the setup first, then the forecast";
    "plan S F\n=== S\n=== F\nstep\n" => "there is no table [[store]]";
    "fly S F X L\n=== S\n[[store]]\nid = \"A\"\nsize = 4\ntype = \"bounded\"\nchannel = 0\nstart = 2\n[[route]]\napid \
        = 100\nservice = 3\nsubtype = 25\nstore = \"A\"\n=== F\nstep,window,A\n1,2,3\n2,2,3\n=== X\n1 0 \
        0864C000000E200319000000000000000000000000\n=== L\nlinks 1\n"
    => "1 packets of step 0 go to \"A\", and its start is 2";
    "fly S F X L\n=== S\n[[store]]\nid = \"A\"\nsize = 4\ntype = \"bounded\"\nchannel = 0\nstart = 2\n=== \
        F\nstep,window,A\n1,2,3\n2,2,3\n=== X\n1 0 0864C000000E200319000000000000000000000000\n=== L\nlinks 1\n"
    => "no route of the setup leads to \"A\", so no packet can come to it";
};

// The parts of a script that stand before the store A, and between it and each of these texts, and after each setup.
const PLAN: &str = "plan S F\n=== S\n";

const CHECK: &str = "check S F P\n=== S\n";

const FLY: &str = "fly S F X L\n=== S\n";

const ASK: &str = "ask S R\n=== S\n";

const AFTER_SETUP: &str = "=== F\nstep,window,A\n1,2,3\n2,2,3\n";

const BEFORE_PLAN: &str = "=== F\nstep,window,A\n1,2,3\n2,2,3\n=== P\n";

const BEFORE_PACKETS: &str =
    "[[route]]\napid = 100\nservice = 3\nsubtype = 25\nstore = \"A\"\n=== F\nstep,window,A\n1,2,3\n2,2,3\n=== X\n";

// The last line on standard error is this hint.
pub(crate) fn hints(rt: &impl Host, answer: &Answer, hint: &str) {
    let line = joined(rt, &["\nhint: ", hint, "\n"]);
    let is_told = answer.err.as_str().ends_with(line.as_str());
    holds(rt, hint, answer, is_told);
}

// The script with each of these texts, between others, is answered with its hint.
fn each_hints(rt: &impl Host, before: [&str; 3], cases: &[(&str, &str)], after: &str) {
    let [front, store, back] = before;
    for (text, hint) in cases {
        hints(rt, &told(rt, &[front, store, back, *text, after]), hint);
    }
}

#[test]
fn faults_of_files_are_shown(rt: HostRuntime) {
    each_hints(&rt, [PLAN, "", ""], &SETUP_HINTS, AFTER_SETUP);
    each_hints(&rt, [PLAN, STORE_A, ""], &TABLE_HINTS, AFTER_SETUP);
    each_hints(&rt, [PLAN, STORE_A, "=== F\n"], &FORECAST_HINTS, "");
    each_hints(&rt, [CHECK, STORE_A, BEFORE_PLAN], &PLAN_HINTS, "");
    each_hints(&rt, [FLY, STORE_A, BEFORE_PACKETS], &FLIGHT_HINTS, "");
    each_hints(&rt, [ASK, STORE_A, "=== R\n"], &REQUEST_HINTS, "");
    each_hints(&rt, ["", "", ""], &OTHER_HINTS, "");
}

// A setup, a forecast and requests in UTF-16.
static IN_UTF16: [&[u8]; 3] = [
    b"plan S F\n=== F\n=== S\n\xFF\xFE[\0[\0",
    b"plan S F\n=== S\n[[store]]\nid = \"A\"\nsize = 4\ntype = \"bounded\"\nchannel = 0\n=== F\n\xFF\xFEs\0t\0",
    b"ask S R\n=== S\n[[store]]\nid = \"A\"\nsize = 4\ntype = \"bounded\"\nchannel = 0\n=== R\n\xFF\xFE1\08\0",
];

#[test]
fn a_file_in_utf16_is_shown(rt: HostRuntime) {
    for script in &IN_UTF16 {
        let answer = told_bytes(&rt, script);
        hints(&rt, &answer, "the file is in UTF-16; save it in UTF-8");
    }
}

const NOTED: &str = "\
note: the setup has a limit for channel 3, on which no store is
note: no route of the setup leads to \"B\", so nothing arrives there
note: 1 packet of the sources goes to no store, since no route takes it: APID 101, service 3, subtype 25 in line 2
";

const UNUSED: &str = "fly S F X L
=== S
[[store]]
id = \"A\"
size = 4
type = \"bounded\"
channel = 0
[[store]]
id = \"B\"
size = 4
type = \"bounded\"
channel = 0
[[route]]
apid = 100
service = 3
subtype = 25
store = \"A\"
[[limit]]
channel = 3
blocks = 5
=== F
step,window,A,B
1,2,1,0
=== X
1 1 0864C000000E200319000000000000000000000000
1 1 0865C000000E200319000000000000000000000000
=== L
links 1
";

// Sources after the packet that UNUSED has for the store, and the last notes on them: how many packets go to no store,
// and why.
static UNSTORED: [(&str, &str); 3] = wanted! {
    "1 1 0865C000000E200319000000000000000000000000\n1 1 0866C000000E200319000000000000000000000000\n"
    => "note: 2 packets of the sources go to no store, since no route takes them; the first is APID 101, service 3, \
        subtype 25 in line 2\n";
    "1 0 1864C0000004200F160000\n1 2 0864C000000E200319000000000000000000000000\n"
    => "note: 1 packet of the sources is a telecommand, which goes to no store\nnote: 1 packet of the sources is of a \
        step after the last one, and is not recorded\n";
    "1 1 1864C0000004200F160000\n1 1 1864C0000004200F160000\n1 2 1864C0000004200F160000\n1 3 \
        0865C000000E200319000000000000000000000000\n"
    => "note: 2 packets of the sources are telecommands, which go to no store\nnote: 2 packets of the sources are of \
        steps after the last one, and are not recorded\n";
};

// The notes on a run with these sources too are the first two of NOTED and these.
fn is_unstored(rt: &impl Host, sources: &str, notes: &str) {
    let unrouted = "1 1 0865C000000E200319000000000000000000000000\n";
    let script = replaced(rt, UNUSED, unrouted, sources);
    let answer = told(rt, &[script.as_str()]);
    let last = joined(rt, &["so nothing arrives there\n", notes]);
    let is_noted = answer.status == 0 && answer.err.as_str().ends_with(last.as_str());
    holds(rt, notes, &answer, is_noted);
}

#[test]
fn packets_that_go_to_no_store_are_counted(rt: HostRuntime) {
    for (sources, notes) in &UNSTORED {
        is_unstored(&rt, sources, notes);
    }
}

// A run with a limit, a store and a packet that have no effect, and what is said of them.
#[test]
fn what_has_no_effect_is_noted(rt: HostRuntime) {
    let answer = told(&rt, &[UNUSED]);
    let is_noted = answer.status == 0 && answer.err.as_str() == NOTED;
    holds(&rt, NOTED, &answer, is_noted);
}
