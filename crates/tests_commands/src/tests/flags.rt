//! Flags that are not read, and the usage of each command.

use crate::tests::samples::{Host, answers, holds, joined, told};

const TWICE: &str = "--output is given twice; give it once";

const OF_OTHERS: &str =
    "--output goes with plan, chart, table, rest, sensitivity and mission alone";

const LATE: &str = "--output stands before --, after which each word is the name of a file";

const NAMELESS: &str =
    "the name of a file is missing: write --output FILE, or --output=FILE; if the name begins with -, write ./ before \
        it";

const SHORT: &str =
    "there is no flag '-o'; did you mean --output, which goes with plan, chart, table, rest, sensitivity and mission, \
        and has the name of a file after it?";

const NONE_ALIKE: &str =
    "there is no flag '--json', and none is spelled alike; there are --in-order of plan and fly, --keep PLAN STEP of \
        plan, --worth of chart, --rest of run, --setup, --forecast, --plan and --timeline of mission, --output FILE of \
        plan, chart, table, rest, sensitivity and mission, and --help";

const KEEPS_NOTHING: &str =
    "a plan or a step is missing: write --keep PLAN STEP; if the name of the plan begins with -, write ./ before it";

// Bad lines, and what is said of their flags.
static WRONG: [(&str, &str); 51] = wanted! {
    "plan --in-order --in-order S F" => "--in-order is given twice; give it once";
    "chart --worth S --worth F P" => "--worth is given twice; give it once";
    "run --rest S F P X L --rest" => "--rest is given twice; give it once";
    "fly S F X L --rest" => "--rest goes with run alone";
    "run --rest=rest.txt S F P X L" => "--rest takes no value; give it alone";
    "plan S F --output X --output Y" => TWICE;
    "plan --output X S F --output=Y" => TWICE;
    "--in-order plan S F" => "--in-order stands after the command";
    "--output=X plan S F" => "--output stands after the command";
    "plan -- S F --output X" => LATE;
    "plan S -- F --output=X" => LATE;
    "check --in-order S F P" => "--in-order goes with plan and fly alone";
    "plan S F --worth" => "--worth goes with chart alone";
    "plan S F --timeline" => "--timeline goes with mission alone";
    "mission --setup M --plan" => "--plan does not go with --setup; give one of them";
    "check S F P --output X" => OF_OTHERS;
    "read P --output=-" => OF_OTHERS;
    "plan --in-order=yes S F" => "--in-order takes no value; give it alone";
    "plan S F --output" => NAMELESS;
    "plan S F --output --help" => NAMELESS;
    "plan S F --output -- X" => NAMELESS;
    "plan S F --output=-X" => NAMELESS;
    "plan --version" => "--version stands alone";
    "plan -V" => "--version stands alone";
    "plan S F -o X" => SHORT;
    "plan --inorder S F"
    => "there is no flag '--inorder'; did you mean --in-order, which goes with plan and fly?";
    "chart --worht S F P --output X"
    => "there is no flag '--worht'; did you mean --worth, which goes with chart?";
    "table S F P --outptu=X"
    => "there is no flag '--outptu=X'; did you mean --output, which goes with plan, chart, table, rest, sensitivity \
        and mission, and has the name of a file after it?";
    "check --hlep"
    => "there is no flag '--hlep'; did you mean --help, which stands alone or after a command?";
    "plan -in-order S F"
    => "there is no flag '-in-order'; did you mean --in-order, which goes with plan and fly?";
    "plan S F -i"
    => "there is no flag '-i'; did you mean --in-order, which goes with plan and fly?";
    "chart -worth S F P" => "there is no flag '-worth'; did you mean --worth, which goes with chart?";
    "chart -w S F P" => "there is no flag '-w'; did you mean --worth, which goes with chart?";
    "plan -v" => "there is no flag '-v'; did you mean --version, which stands alone?";
    "check --json S F P" => NONE_ALIKE;
    "plan S F --keep P 1 --keep P 1" => "--keep is given twice; give it once";
    "plan S F --in-order --keep P 1" => "--keep does not go with --in-order; give one of them";
    "plan --keep P 1 S F --in-order" => "--in-order does not go with --keep; give one of them";
    "--keep plan S F" => "--keep stands after the command";
    "plan -- S F --keep P 1" => "--keep stands before --, after which each word is the name of a file";
    "fly S F --keep P 1 X L" => "--keep goes with plan alone";
    "plan S F --keep=P 1" => KEEPS_NOTHING;
    "plan S F --keep" => KEEPS_NOTHING;
    "plan S F --keep P" => KEEPS_NOTHING;
    "plan S F --keep -P 1" => KEEPS_NOTHING;
    "plan S F --keep P -1" => KEEPS_NOTHING;
    "plan S F --keep P --output X 1" => KEEPS_NOTHING;
    "plan S F --kep P 1"
    => "there is no flag '--kep'; did you mean --keep, which goes with plan, and has the file of a plan and a step of \
        it after it?";
    "plan S F --halp" => "there is no flag '--halp'; did you mean --help, which stands alone or after a command?";
    "plan S F -k P 1"
    => "there is no flag '-k'; did you mean --keep, which goes with plan, and has the file of a plan and a step of it \
        after it?";
    "plan --json --output X S F" => NONE_ALIKE;
};

#[test]
fn flags_that_are_not_read(rt: HostRuntime) {
    for (line, said) in &WRONG {
        let more = "\n\nFor more information, try '--help'.\n";
        let err = joined(&rt, &["error: ", *said, more]);
        answers(&rt, &[*line, "\n"], "", err.as_str(), 2);
    }
}

// The usage of each command has each of its flags.
static USAGES: [(&str, &str); 11] = wanted! {
    "plan --help" => "plan [--in-order | --keep <PLAN> <STEP>] <SETUP> <FORECAST> [--output <FILE>]";
    "check --help" => "check <SETUP> <FORECAST> <PLAN>";
    "chart --help" => "chart [--worth] <SETUP> <FORECAST> <PLAN> [--output <FILE>]";
    "table --help" => "table <SETUP> <FORECAST> <PLAN> [--output <FILE>]";
    "rest --help" => "rest <SETUP> <FORECAST> <PLAN> <STEP> [--output <FILE>]";
    "sensitivity --help" => "sensitivity <SETUP> <FORECAST> [--output <FILE>]";
    "run --help" => "run [--rest] <SETUP> <FORECAST> <PLAN> <SOURCES> <LINKS>";
    "fly --help" => "fly [--in-order] <SETUP> <FORECAST> <SOURCES> <LINKS>";
    "ask S" => "ask <SETUP> <REQUESTS>";
    "read" => "read <PACKETS>";
    "mission" => "mission [--setup | --forecast | --plan | --timeline] <MISSION> [--output <FILE>]";
};

// A bad line, or a call for help, of which standard error has this text.
fn has_said(rt: &impl Host, line: &str, text: &[&str]) {
    let answer = told(rt, &[line, "\n"]);
    let wanted = joined(rt, text);
    let is_told = answer.err.as_str().contains(wanted.as_str());
    holds(rt, line, &answer, answer.has("", 2) && is_told);
}

#[test]
fn usages_have_each_flag(rt: HostRuntime) {
    for (line, usage) in &USAGES {
        has_said(&rt, line, &["Usage: mm_tool ", *usage, "\n"]);
    }
}

// What else stands in the help of a command.
static HELPS: [(&str, &str); 5] = wanted! {
    "sensitivity --help"
    => "  limit,CHANNEL,STEP,..       the limit of the channel in the step, from a column of the forecast\n";
    "sensitivity --help" => "  --output FILE               writes the table to FILE,";
    "rest --help" => "  --output FILE               writes the script to FILE,";
    "plan --help" => "  --keep PLAN STEP            keeps the steps of the plan text PLAN up to STEP,";
    "chart --help"
    => "  --worth                     a bar above a window, or above the row of a channel with a limit,";
};

#[test]
fn helps_have_each_record_and_option(rt: HostRuntime) {
    for (line, text) in &HELPS {
        has_said(&rt, line, &[*text]);
    }
}

#[test]
fn help_begins_with_how_it_is_read_by_pages(rt: HostRuntime) {
    let answer = told(&rt, &["--help\n"]);
    let first =
        "All help goes to standard error; to read it by pages: mm_tool --help 2>&1 | less\n\nPlans when";
    let is_first = answer.err.as_str().starts_with(first);
    holds(&rt, "--help", &answer, answer.has("", 2) && is_first);
}

// Of a word with one dash that is near no flag, it is told how a file of this name is given.
#[test]
fn files_that_are_spelled_like_flags(rt: HostRuntime) {
    has_said(
        &rt,
        "plan -1.toml F",
        &["tip: to pass '-1' as a value, use '-- -1'\n"],
    );
}

// Commands that are misspelled, and those that are told.
static MISSPELLED: [(&str, &str); 4] = wanted! {
    "paln S F" => "plan";
    "sensitvity S F --output X" => "sensitivity";
    "tabel --in-order S F P" => "table";
    "flyy" => "fly";
};

#[test]
fn commands_that_are_misspelled(rt: HostRuntime) {
    for (line, command) in &MISSPELLED {
        let tip = "tip: a similar subcommand exists: '";
        has_said(&rt, line, &[tip, *command, "'\n"]);
    }
}
