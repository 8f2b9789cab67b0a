//! What `run --rest` prints of a run that a link halted: a script that plans what is left, with the report as its last
//! file.

use super::{FIRST_RUN, HALTED_IN_1, HALTED_IN_2, IN_1, Run, script_by};
use crate::tests::samples::{Host, joined, prints, told};

const WITH_REST: &str = "run S F --rest P X L\n=== S\n";

// In step 2 the store holds 1 + 3 blocks, and nothing of them is deleted. Of the window of 2 one send is spent, or two.
const SCI_HOLDS_4: &str = "\
plan setup.toml forecast.csv
=== setup.toml
[[route]]
apid = 100
service = 3
store = \"SCI\"
subtype = 25

[[store]]
channel = 0
id = \"SCI\"
size = 4
start = 4
type = \"bounded\"
=== forecast.csv
step,window,SCI
";

// What may still be sent in step 2 leaves before the four blocks of step 3 come, for which there is no other room.
const ONE_LEFT: &str = "1,1,0\n2,0,4\n";

const ONE_SENT: &str = "\
mmplan 1
stores SCI
dump 1 1
dump 2 0
loss 3
stretch SCI 1 2
bound 3
end
";

const NONE_LEFT: &str = "1,0,0\n2,0,4\n";

const NONE_SENT: &str = "\
mmplan 1
stores SCI
dump 1 0
dump 2 0
loss 4
stretch SCI 1 2
bound 4
end
";

// Three stores, two of which share a channel with a limit in the setup and in the forecast. Another channel has a limit
// in the forecast, and the third has none.
const THREE_CHANNELS: Run = Run {
    setup: "\
        [[store]]\nid = \"A\"\nsize = 9\ntype = \"bounded\"\nchannel = 1\n\n\
        [[store]]\nid = \"B\"\nsize = 9\ntype = \"circular\"\nchannel = 3\n\n\
        [[store]]\nid = \"C\"\nsize = 9\ntype = \"bounded\"\nchannel = 1\n\n\
        [[limit]]\nchannel = 1\nblocks = 5\n\n\
        [[route]]\napid = 100\nservice = 3\nsubtype = 25\nstore = \"A\"\n\n\
        [[route]]\napid = 100\nservice = 3\nsubtype = 25\nstore = \"B\"\n\n\
        [[route]]\napid = 100\nservice = 3\nsubtype = 25\nstore = \"C\"\n",
    forecast: "step,window,A,B,C,limit:2,limit:3\n1,8,3,3,3,7,4\n2,6,1,2,1,9,9\n",
    plan: "mmplan 1\nstores A B C\ndump 1 2 3 2\ndump 2 2 2 2\nloss 0\nbound 0\nend\n",
    sources: &[IN_1, IN_1, IN_1],
    ..FIRST_RUN
};

// The setup that is left, up to what B holds. Two blocks of A have left.
const UP_TO_B: &str = "\
plan setup.toml forecast.csv
=== setup.toml
[[limit]]
blocks = 5
channel = 1

[[route]]
apid = 100
service = 3
store = \"A\"
subtype = 25

[[route]]
apid = 100
service = 3
store = \"B\"
subtype = 25

[[route]]
apid = 100
service = 3
store = \"C\"
subtype = 25

[[store]]
channel = 1
id = \"A\"
size = 9
start = 1
type = \"bounded\"

[[store]]
channel = 3
id = \"B\"
size = 9
start = ";

const FROM_B: &str = "
type = \"circular\"

[[store]]
channel = 1
id = \"C\"
size = 9
start = 3
type = \"bounded\"
=== forecast.csv
step,window,A,B,C,limit:1,limit:2,limit:3
";

// Two blocks of A leave whole, and two of B are sent before a send of it fails: 5 of 8 are spent, 2 of 5 in channel 1,
// and 3 of 4 in channel 3.
const B_IS_CUT: &str = "1,3,0,0,0,3,7,1\n2,6,1,2,1,5,9,9\n";

// Two blocks of A and three of B leave whole, and the first send of C fails: 6 of 8 are spent, and of channel 1 the two
// of A and that send.
const C_IS_CUT: &str = "1,2,0,0,0,2,7,1\n2,6,1,2,1,5,9,9\n";

// The send that fails, what B holds, and the steps that are left.
static LIMITED: [(&str, &str, &str); 2] = [
    ("links 1\nfail 1 5\n", "3", B_IS_CUT),
    ("links 1\nfail 1 6\n", "0", C_IS_CUT),
];

// A script with its report as the last file.
fn with_report(rt: &impl Host, script: &[&str], report: &str) -> String {
    let script = joined(rt, script);
    joined(rt, &[script.as_str(), "=== report.txt\n", report])
}

// `run --rest` prints this text of a row with these links.
fn rests(rt: &impl Host, row: &Run, links: &str, text: &str) {
    let script = script_by(rt, WITH_REST, row, links);
    prints(rt, links, &[script.as_str()], text, 1)
}

// Of the first run the send that fails, the steps that are left, and the plan for them.
static CUTS: [(&str, &str, &str); 2] = [
    ("links 1\nfail 1 3\n", ONE_LEFT, ONE_SENT),
    ("links 1\nfail 1 4\n", NONE_LEFT, NONE_SENT),
];

#[test]
fn the_rest_of_a_cut_run_is_a_script_that_plans_it(rt: HostRuntime) {
    for (links, steps, plan) in &CUTS {
        let text = with_report(&rt, &[SCI_HOLDS_4, *steps], HALTED_IN_2);
        rests(&rt, &FIRST_RUN, *links, text.as_str());
        prints(&rt, "the rest", &[text.as_str()], *plan, 0);
    }
}

#[test]
fn the_rest_of_a_step_has_what_is_left_of_its_limits(rt: HostRuntime) {
    for (links, held, steps) in &LIMITED {
        let text = with_report(&rt, &[UP_TO_B, *held, FROM_B, *steps], HALTED_IN_1);
        rests(&rt, &THREE_CHANNELS, *links, text.as_str());
    }
}

// A run that no link halts prints what it prints without the option.
#[test]
fn a_run_that_no_link_halts_has_no_rest(rt: HostRuntime) {
    for links in &["links 1\n", "links 0\n"] {
        let plain = script_by(&rt, "run S F P X L\n=== S\n", &FIRST_RUN, *links);
        let asked = script_by(&rt, WITH_REST, &FIRST_RUN, *links);
        let (plain, asked) = (told(&rt, &[plain.as_str()]), told(&rt, &[asked.as_str()]));
        assert!(&rt;
            plain.out.as_str() == asked.out.as_str() && plain.err.as_str() == asked.err.as_str()
        );
    }
}
