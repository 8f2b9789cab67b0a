//! Findings in refused files, in the words of docs/FORMATS.md.

use crate::tests::samples::{Host, holds, is_shown};
use mm_base::Refusal;
use mm_cut::{Verdict, check_bytes};
use mm_problem::{Fault, Name, Problem, Setup, read_problem};
use mm_told::{Reason, RequestHints, Spot, Texts, hint_for, notes_on, packets_hint, verdict_hint};
use std::fmt::Write;

// The texts of a task, some of which are given.
fn texts_of<'a>(setup: &'a str, forecast: &'a str, sources: &'a str) -> Texts<'a> {
    Texts {
        setup: setup.as_bytes(),
        forecast: forecast.as_bytes(),
        plan: &[],
        sources: sources.as_bytes(),
        links: &[],
    }
}

// This is the finding in the texts, which are refused for this reason.
fn hints(rt: &impl Host, reason: Reason, texts: Texts<'_>, hint: &str) {
    let found = hint_for(rt.alloc(), reason, texts).expect(rt, hint);
    is_shown(rt, &found, hint);
}

// Setups that are refused, and what is found in each.
static SETUPS: [(&str, &str); 51] = wanted! {
    "[store]\nid = \"A\"\n\n[store]\nid = \"B\"\n"
    => "line 1 is \"[store]\"; write [[store]] above each table";
    "[[store]]\nid = \"A\"\n[limit]\nchannel = 0\n [limit]\r\nchannel = 1\n"
    => "line 3 is \"[limit]\"; write [[limit]] above each table";
    "[[store]]\nid = \"A\"\nsize = 99999999999999999999999\n"
    => "line 3 is \"size = 99999999999999999999999\"; the number is too large";
    "[[store]]\nid = \"A\"\nsize = 9_223_372_036_854_775_808 # 2^63\n"
    => "line 3 is \"size = 9_223_372_036_854_775_808 # 2^63\"; the number is too large";
    "[[store]]\nid = \"A\"\nsize = 2,000\n"
    => "line 3 is \"size = 2,000\"; numbers have no commas";
    "[[store]]\nid = \"A\"\nsize = 2000,\n" => "line 3 is \"size = 2000,\"; no comma ends a line";
    "[[store]]\nid = \"A\"\nsize = 03000\n" => "line 3 is \"size = 03000\"; numbers have no leading zero";
    "[[store]]\nid = \"A\"\nsize = 3 000\n"
    => "line 3 is \"size = 3 000\"; a whole number has digits alone, and \" 000\" follows them";
    "[[store]]\nsize = 3000 blocks\n"
    => "line 2 is \"size = 3000 blocks\"; a whole number has digits alone, and \" blocks\" follows them";
    "[[store]]\nsize = 2 GB # = 3000 blocks\n"
    => "line 2 is \"size = 2 GB # = 3000 blocks\"; a whole number has digits alone, and \" GB\" follows them";
    "[[store]]\nsize = 50%\n"
    => "line 2 is \"size = 50%\"; a whole number has digits alone, and \"%\" follows them";
    "[[store]]\nsize = 3000/2\r\n"
    => "line 2 is \"size = 3000/2\"; a whole number has digits alone, and \"/2\" follows them";
    "[[store]]\nsize = 3'000\n"
    => "line 2 is \"size = 3'000\"; a whole number has digits alone, and \"'000\" follows them";
    "[[store]]\nsize = 3000;\n"
    => "line 2 is \"size = 3000;\"; a whole number has digits alone, and \";\" follows them";
    "[[store]]\nsize = 3000 -- x\n"
    => "line 2 is \"size = 3000 -- x\"; a whole number has digits alone, and \" -- x\" follows them";
    "[[store]]\nsize = 3000-4000\n"
    => "line 2 is \"size = 3000-4000\"; a whole number has digits alone, and \"-4000\" follows them";
    "[[store]]\nsize = 2024-13-01\n"
    => "line 2 is \"size = 2024-13-01\"; a whole number has digits alone, and \"-13-01\" follows them";
    "[[store]]\nstore size = 3000\n" => "line 2 is \"store size = 3000\"; a key is one word, as size";
    "[[store]]\nsize (blocks) = 3000\n" => "line 2 is \"size (blocks) = 3000\"; a key is one word, as size";
    "[[store]]\nsize[MB] = 3000\n" => "line 2 is \"size[MB] = 3000\"; a key is one word, as size";
    "[[store]]\nid = \"C:\\data\"\n" => "line 2 is \"id = \"C:\\data\"\"; a text has no backslash";
    "[[store]]\nid = \"A\"\nsize = [3000\nchannel = 0\n"
    => "line 3 is \"size = [3000\", which does not end what it begins; a value is a number in digits, or a text in \
        quotes";
    "[[store]]\nsize = {a = 1\nchannel = 0\n"
    => "line 2 is \"size = {a = 1\", which does not end what it begins; a value is a number in digits, or a text in \
        quotes";
    "[[store]]\nid = \"\"\"A\nsize = 3000\n"
    => "line 2 is \"id = \"\"\"A\", which does not end what it begins; a value is a number in digits, or a text in \
        quotes";
    "[store.HK]\nsize = 4\n[[store]]\nsize = 5\n" => "line 1 is \"[store.HK]\"; write [[store]] above each table";
    "id = \"A\"\nsize = 4\ntype = \"bounded\"\nchannel = 0\n[[store]]\nid = \"B\"\n"
    => "the key \"channel\" stands above every table; write [[store]] above it";
    "store = [\"HK\"]\n"
    => "element 1 of the list store is no table; write [[store]] above each table, and its keys below";
    "[[store]]\nid = \"A\"\nsize = 3e3 # blocks\n"
    => "table 1 of store, \"A\", has size = 3e3; a whole number is expected; write it in digits alone";
    "store = [{ id = \"A\", size = true }]\n"
    => "table 1 of store, \"A\", has another value as size; a whole number is expected; write it in digits \
        alone";
    "[[store]]\nsize = 4\nsize = 5\n" => "line 3 is \"size = 5\"; the name comes twice in its table; leave one out, \
        or begin another table above it";
    "[[store]]\nsize = 4 // blocks\n" => "line 2 is \"size = 4 // blocks\"; a comment begins with #";
    "// stores\n[[store]]\nsize = 4\n" => "line 1 is \"// stores\"; a comment begins with #";
    "[[store]]\nsize = 4\n[[limit]\nblocks = 1\n"
    => "line 3 is \"[[limit]\"; write [[ before the name of an array and ]] after it";
    "[store]]\nsize = 4\n" => "line 1 is \"[store]]\"; write [[ before the name of an array and ]] after it";
    "[[store]]\nsize = 4 channel = 0\n"
    => "line 2 is \"size = 4 channel = 0\"; write each key in a line of its own";
    "[[store]]\nid = \u{201C}A\u{201D}\n"
    => "line 2 is \"id = ???A???\"; write straight quotes and plain spaces, which are ASCII";
    "[[store]]\nid = \"A\u{201D}\n" => "line 2 is \"id = \"A???\"; a text has a quote at each end";
    "[[store]]\ntype = bounded\n"
    => "line 2 is \"type = bounded\"; a value is a number in digits, or a text in quotes";
    "[[store]]\nid = \"A\"\nchanel = 0\n"
    => "table 1 of store, \"A\", has the key \"chanel\", which is none of channel, id, size, type and start";
    "[[limits]]\nchannel = 0\n" => "the key \"limits\" is none of limit, store, route and arrivals";
    "[[store]]\nid = \"A\"\nsize = 1953125\n"
    => "table 1 of store, \"A\", has size = 1953125; 1 to 1000000 can be; a block is room for one packet; plan more \
        in coarser units: docs/PLANNING.md, 'Limits of scale'";
    "PK\u{3}\u{4}\u{14}\0\u{6}\0"
    => "the file is a workbook; a setup is a text file in TOML, and a sheet is saved as CSV to be a forecast";
    "[[store]]\nid = \"A\"\nsize\t4\n"
    => "line 3 is \"size<tab>4\"; write = between a key and its value";
    "[[store]]\nid = \"A\"\nsize = 4\ntype = \"bounded\"\nchannel = 0\n[[store]]\nid = \"A\"\nsize = 5\ntype = \
        \"circular\"\nchannel = 1\n"
    => "table 2 of store, \"A\", has the id of an earlier one; rename one of them";
    "[[store]]\nid = \"A\"\nsize = 4\ntype = \"bounded\"\nchannel = 0\n[[limit]]\nchannel = 0\nblocks = \
        1\n[[limit]]\nchannel = 0\nblocks = 2\n"
    => "table 2 of limit has the channel of an earlier one; leave one of them out";
    "arrivals = \"after\"\n[[store]]\nid = \"A\"\n"
    => "the key arrivals is \"after\"; \"before\" and \"during\" can be";
    "arrivals = \"During\"\n[[store]]\nid = \"A\"\n"
    => "the key arrivals is \"During\"; \"during\" and \"before\" can be";
    "arrivals = 1\nstore = []\n"
    => "the key arrivals has no text; write \"before\" or \"during\", in quotes";
    "arrival = \"during\"\n[[store]]\nid = \"A\"\n"
    => "the key \"arrival\" is none of arrivals, store, route and limit";
    "[[store]]\nid = \"A\"\narrivals = \"during\"\n"
    => "table 1 of store, \"A\", has the key \"arrivals\", which is one of the top; write it above every table";
    "arrivals = during\n[[store]]\nid = \"A\"\n"
    => "line 1 is \"arrivals = during\"; a value is a number in digits, or a text in quotes";
};

fn setup_hints(rt: &impl Host, setup: &str, hint: &str) {
    let fault = Setup::read(rt.alloc(), setup.as_bytes()).expect_err(rt, "a fault");
    hints(rt, Reason::of_setup(fault), texts_of(setup, "", ""), hint);
}

#[test]
fn faults_of_setups_are_shown(rt: HostRuntime) {
    for (setup, hint) in &SETUPS {
        setup_hints(&rt, setup, hint);
    }
}

const SETUP: &str = "[[store]]\nid = \"A\"\nsize = 4\ntype = \"bounded\"\nchannel = 0\n";

// Forecasts that are refused, the fault of each, and what is found in it.
static FORECASTS: [(&str, Fault, &str); 20] = wanted! {
    "PK\u{3}\u{4}\u{14}\0\u{6}\0;", Fault::Header
    => "the file is a workbook; save its sheet as a text file: CSV in UTF-8, with commas between the cells";
    "step,window,A\n1,2,\"3\n2,2,3\n", Fault::Cell { row: 1, column: 3 }
    => "line 2 of the file has a quote that is not closed; numbers need no quotes";
    "step,window,A\n1,2,3\n\n2,\"2,3\n3,2,3\n", Fault::ForecastText
    => "line 4 of the file has a quote that is not closed; numbers need no quotes";
    "step,window,A\r\n1,2,3\r\n\"2\r\n\",2,3\r\n", Fault::Cell { row: 2, column: 1 }
    => "line 3 of the file has a quote that is not closed; numbers need no quotes";
    "step,window,A\n1,2, 3\n2,2,\"3\n", Fault::Cell { row: 1, column: 3 }
    => "row 1 has \" 3\" in the column \"A\", where a whole number is expected; it is line 2 of the file, whose header \
        is line 1";
    "\"step\",\"window\",\"A\",limit:3\n1,2,3,4\n\n2,2,3,x\n", Fault::Cell { row: 2, column: 4 }
    => "row 2 has \"x\" in the column \"limit:3\", where a whole number is expected; it is line 4 of the file, whose \
        header is line 1";
    "step\twindow\tA\n1\t2\t3\n", Fault::Header
    => "tabs separate the cells; save the file with commas";
    "sep=,\nstep,window,A\n1,2,3\n", Fault::Header
    => "line 1 is \"sep=,\", which a spreadsheet wrote; delete it, so that the header is line 1";
    "", Fault::Header
    => "the file is empty; its first line is \"step,window,A\"; a file to which the output is sent is emptied before \
        it is read";
    "step,window\n1,2\n", Fault::Header => "the header has no column 3; \"A\" is expected there";
    "step,window,A,limit:1,limit:1\n1,2,3,4,5\n", Fault::Header
    => "column 5 of the header is \"limit:1\"; after the stores can be limit:0 to limit:7, rising, and then size: with \
        stores";
    "step,window,size:A,A\n1,2,3,4\n", Fault::Header
    => "column 3 of the header is \"size:A\", and \"A\" is expected";
    "step,window,A,size:a\n1,2,3,4\n", Fault::Header
    => "column 4 of the header is \"size:a\"; the stores of the setup are A";
    "step,window,A,limit:1,size:A,limit:2\n1,2,3,4,5,6\n", Fault::Header
    => "column 6 of the header is \"limit:2\"; columns limit: come before columns size:";
    "step,window,A,size:A,size:A\n1,2,3,4,5\n", Fault::Header
    => "column 5 of the header is \"size:A\"; columns size: come in the setup's order, one for a store";
    "step,window,A,size:A\n1,2,3,4\n\n2,2,3, 4\n", Fault::Cell { row: 2, column: 4 }
    => "row 2 has \" 4\" in the column \"size:A\", where a whole number is expected; it is line 4 of the file, whose \
        header is line 1";
    "step,window,A,size:A\n1,2,3,1000001\n", Fault::Limit { name: Name::Size }
    => "row 1 has \"1000001\" in the column \"size:A\", line 2 of the file; 0 to 1000000 can be; plan more in coarser \
        units: docs/PLANNING.md, 'Limits of scale'";
    "step,window,store,arrived,lost,dumped,held\n1,2,A,3,0,2,1\n", Fault::Header
    => "the file holds the table of a plan in place of a forecast";
    "step,window,A,limit:1\n1,2,3,4\n\n2,2,3,1000001\n", Fault::Limit { name: Name::Limit }
    => "row 2 has \"1000001\" in the column \"limit:1\", line 4 of the file; 0 to 1000000 can be; plan more in \
        coarser units: docs/PLANNING.md, 'Limits of scale'";
    "step,window,A\n1,2,2000000\n", Fault::Limit { name: Name::Arrivals }
    => "row 1 has \"2000000\" in the column \"A\", line 2 of the file; 0 to 1000000 can be; plan more in coarser \
        units: docs/PLANNING.md, 'Limits of scale'";
};

fn forecast_hints(rt: &impl Host, forecast: &str, fault: Fault, hint: &str) {
    let read = read_problem(rt.alloc(), SETUP.as_bytes(), forecast.as_bytes());
    holds(rt, read.expect_err(rt, "a fault") == fault, forecast);
    hints(
        rt,
        Reason::of_setup(fault),
        texts_of(SETUP, forecast, ""),
        hint,
    );
}

#[test]
fn faults_of_forecasts_are_shown(rt: HostRuntime) {
    for (forecast, fault, hint) in &FORECASTS {
        forecast_hints(&rt, forecast, *fault, hint);
    }
}

// A header of 16 stores and then a column of limits of no channel, of which the column is named.
#[test]
fn the_first_wrong_column_of_a_long_header_is_shown(rt: HostRuntime) {
    let (mut setup, mut forecast) = (String::new(rt.alloc()), String::new(rt.alloc()));
    forecast.push_str("step,window").expect(&rt, "memory");
    for store in 1..17 {
        let table = "type = \"bounded\"\nchannel = 0\nsize = 4\n";
        writeln!(&mut setup, "[[store]]\nid = \"RECORD{store}\"\n{table}").expect(&rt, "memory");
        write!(&mut forecast, ",RECORD{store}").expect(&rt, "memory");
    }
    forecast.push_str(",limit:9\n").expect(&rt, "memory");
    let read = read_problem(rt.alloc(), setup.as_bytes(), forecast.as_bytes());
    hints(
        &rt,
        Reason::of_setup(read.expect_err(&rt, "a fault")),
        texts_of(setup.as_str(), forecast.as_str(), ""),
        "column 19 of the header is \"limit:9\"; after the stores can be limit:0 to limit:7, rising, and then size: with \
            stores",
    );
}

#[test]
fn steps_beyond_the_last_are_shown(rt: HostRuntime) {
    let mut forecast = String::new(rt.alloc());
    forecast.push_str("step,window,A\n").expect(&rt, "memory");
    for step in 1..258 {
        writeln!(&mut forecast, "{step},2,3").expect(&rt, "memory");
    }
    let fault = Fault::Limit { name: Name::Steps };
    let hint =
        "there are 257 records after the header; 1 to 256 can be; join steps, such as those between two passes: \
        docs/PLANNING.md, 'Steps from event to event'";
    forecast_hints(&rt, forecast.as_str(), fault, hint);
}

// A setup in which a byte of line 2 is an e with an accent in ISO 8859-1.
#[test]
fn a_setup_that_is_not_in_utf8_is_shown(rt: HostRuntime) {
    let setup = b"[[store]]\nid = \"M\xE9MO\"\n";
    let fault = Setup::read(rt.alloc(), setup).expect_err(&rt, "a fault");
    let texts = Texts {
        setup,
        ..texts_of("", "", "")
    };
    hints(
        &rt,
        Reason::of_setup(fault),
        texts,
        "line 2 is not in UTF-8; save the file as UTF-8",
    );
}

// Plan texts that are refused, the line of each, and what is found in it.
static PLANS: [(&str, u64, &str); 33] = wanted! {
    "", 1 => "the file is empty; a plan text begins with mmplan 1, mmplan 2 or mmplan 3";
    "mmplan 4\n", 1 => "line 1 is \"mmplan 4\"; a plan text begins with mmplan 1, mmplan 2 or mmplan 3";
    "mmplan 1\nstores\n", 2 => "line 2 has 0 stores; 1 to 16 can be";
    "mmplan 1\nstores A B C D E F G H I J K L M N O P Q\n", 2 => "line 2 has 17 stores; 1 to 16 can be";
    "mmplan 1\nstores A b\n", 2
    => "line 2 has \"b\" as a store; 1 to 8 of the characters A-Z, 0-9, _ and - can be";
    "mmplan 1\nstore A\n", 2 => "line 2 is \"store A\"; stores and their identifiers are expected";
    "mmplan 1\nstores A\nloss 0\n", 3 => "line 3 is \"loss 0\"; dump 1 is expected";
    "mmplan 1\nstores A\ndump 1 2\ndump 3 2\n", 4 => "line 4 is \"dump 3 2\"; dump 2 is expected";
    "mmplan 1\nstores A\ndump 1 2\n\n", 4 => "line 4 is \"\"; dump 2 or loss is expected";
    "mmplan 1\nstores A B\ndump 1 2\n", 3 => "line 3 has 1 amounts for 2 stores";
    "mmplan 1\nstores A B C D E F G H I J K L\ndump 1 0 0 0 0 0 0 0 0 0 0 0 0 0\n", 3
    => "line 3 has 13 amounts for 12 stores";
    "mmplan 1\nstores A\ndump 1 1000001\n", 3
    => "line 3 has \"1000001\" as an amount; 0 to 1000000 can be, without sign or leading zeros";
    "mmplan 1\nstores A B\ndump 1 2 03\n", 3
    => "line 3 has \"03\" as an amount; 0 to 1000000 can be, without sign or leading zeros";
    "mmplan 1\nstores A\ndump 1 2\nloss x\n", 4 => "line 4 is \"loss x\"; loss and a number below 2^64 are expected";
    "mmplan 1\nstores A\ndump 1 2\nloss 0\nend\n", 5 => "line 5 is \"end\"; stretch or bound is expected";
    "mmplan 2\nstores A\ndump 1 2\nloss 0\nend\n", 5 => "line 5 is \"end\"; stretch, count or bound is expected";
    "mmplan 1\nstores A\ndump 1 2\nloss 0\nstretch A 1\n", 5
    => "line 5 is \"stretch A 1\"; a stretch has a store, its first step and its last step";
    "mmplan 1\nstores A\ndump 1 2\nloss 0\ncount 1 channels\n", 5
    => "line 5 is \"count 1 channels\"; only the forms mmplan 2 and mmplan 3 have counts";
    "mmplan 2\nstores A\ndump 1 2\nloss 0\ncount 1\n", 5
    => "line 5 is \"count 1\"; a count has a step and the word channels";
    "mmplan 2\nstores A\ndump 1 2\nloss 0\ncount 1 channels\nstretch A 1 1\n", 6
    => "line 6 is \"stretch A 1 1\"; stretches stand before counts";
    "mmplan 2\nstores A\ndump 1 2\nloss 0\nbound 0\nend\n", 5
    => "line 5 is \"bound 0\"; the form mmplan 2 has a count before its bound; without counts the form is mmplan 1";
    "mmplan 1\nstores A\ndump 1 2\nloss 0\nbound -0\n", 5
    => "line 5 is \"bound -0\"; bound and a whole number are expected";
    "mmplan 1\nstores A\ndump 1 2\nloss 0\nbound 0\nbound 0\n", 6 => "line 6 is \"bound 0\"; end is expected";
    "mmplan 3\nstores A B\ndump 1 2 2\nloss 0\nbound 0\nend\n", 6 => "line 6 is \"end\"; first 1 is expected";
    "mmplan 3\nstores A B C\ndump 1 2 2 2\nloss 0\nbound 0\nfirst 1\nloss 0\nbound 0\nfirst 3\n", 9
    => "line 9 is \"first 3\"; first 2 is expected";
    "mmplan 3\nstores A B\ndump 1 2 2\nloss 0\nbound 0\nfirst 1\nbound 0\n", 7
    => "line 7 is \"bound 0\"; loss and a number below 2^64 are expected";
    "mmplan 3\nstores A B\ndump 1 2 2\nloss 0\nbound 0\nfirst 1\nloss 0\nbound 0\nfirst 2\n", 9
    => "line 9 is \"first 2\"; end is expected";
    "mmplan 1\nstores A\ndump 1 2\nloss 0\nbound 0\nend\n\n", 7 => "line 7 is \"\"; nothing comes after end";
    "mmplan 1\nstores A\ndump 1 2\nloss 0\nbound 0\nend\nnote", 7 => "line 7 is \"note\"; nothing comes after end";
    "mmplan 1\nstores A\ndump 1 2\nloss 0", 4
    => "the text ends in line 4; its last line is end, with a line feed";
    "step,window,store,arrived,lost,dumped,held\n1,2,A,3,0,2,1\n", 1
    => "the file holds the table of a plan in place of a plan text";
    "step,window,A\n1,2,3\n", 1 => "the file holds a forecast in place of a plan text";
    "mmplan 1\nstores A\r\n", 2 => "line 2 ends with CR LF; save the file with LF alone";
};

// This line of a plan text is refused, with this finding.
fn plan_hints(rt: &impl Host, plan: &str, line: u64, hint: &str) {
    let texts = Texts {
        plan: plan.as_bytes(),
        ..texts_of(SETUP, "step,window,A\n1,2,3\n", "")
    };
    let judged = check_bytes(rt.alloc(), texts.setup, texts.forecast, texts.plan);
    let reason = Reason::of_texts(judged.expect_err(rt, hint));
    let is_there = matches!(reason.spot, Spot::Line(refused) if refused == line);
    holds(rt, is_there && reason.refusal == Refusal::PlanText, hint);
    hints(rt, reason, texts, hint);
}

#[test]
fn faults_of_plans_are_shown(rt: HostRuntime) {
    for (plan, line, hint) in &PLANS {
        plan_hints(&rt, plan, *line, hint);
    }
}

// A plan of 257 steps, and one with 257 counts.
#[test]
fn lines_beyond_the_most_of_a_plan_are_shown(rt: HostRuntime) {
    let mut plan = String::new(rt.alloc());
    plan.push_str("mmplan 2\nstores A\n").expect(&rt, "memory");
    for step in 1..257 {
        writeln!(&mut plan, "dump {step} 0").expect(&rt, "memory");
    }
    let steps = plan.as_str();
    let longer = format!(in rt.alloc(); "{steps}dump 257 0\n").expect(&rt, "memory");
    let hint = "line 259 is \"dump 257 0\"; 256 steps are the most, and loss is expected";
    plan_hints(&rt, longer.as_str(), 259, hint);
    plan.push_str("loss 0\n").expect(&rt, "memory");
    for step in 1..258 {
        writeln!(&mut plan, "count {step} channels").expect(&rt, "memory");
    }
    let hint = "line 516 is \"count 257 channels\"; 256 counts are the most";
    plan_hints(&rt, plan.as_str(), 516, hint);
}

// Two stores of 4 blocks; the channel of A has a limit of 1 block a step. Of A arrive 4 blocks in each of two steps.
const TWO_STORES: &str = "\
    [[store]]\nid = \"A\"\nsize = 4\ntype = \"bounded\"\nchannel = 0\n\
    [[store]]\nid = \"B\"\nsize = 4\ntype = \"bounded\"\nchannel = 1\n\
    [[limit]]\nchannel = 0\nblocks = 1\n";

const TWO_STEPS: &str = "step,window,A,B\n1,2,4,0\n2,2,4,0\n";

// Lines after the steps of a plan that sends 1 block of A in each step, so that 3 blocks are lost: after step 1 A holds
// 3 blocks, and 4 more come. What `check` finds of them, and the hint.
static VERDICTS: [(&str, &str, Verdict, &str); 13] = wanted! {
    "mmplan 1", "loss 1\nbound 3\n", Verdict::LossIs(3)
    => "line 5 says loss 1; the plan loses 3, which is 2 more";
    "mmplan 1", "loss 10\nbound 3\n", Verdict::LossIs(3)
    => "line 5 says loss 10; the plan loses 3, which is 7 less";
    "mmplan 1", "loss 3\nstretch A 1 1\nstretch C 1 2\nbound 3\n", Verdict::BadStretch(2)
    => "line 7 is \"stretch C 1 2\"; the setup has no such store";
    "mmplan 1", "loss 3\nstretch A 0 2\nbound 3\n", Verdict::BadStretch(1)
    => "line 6 is \"stretch A 0 2\"; the first step is 1";
    "mmplan 1", "loss 3\nstretch A 2 1\nbound 3\n", Verdict::BadStretch(1)
    => "line 6 is \"stretch A 2 1\"; its first step is after its last";
    "mmplan 1", "loss 3\nstretch A 1 3\nbound 3\n", Verdict::BadStretch(1)
    => "line 6 is \"stretch A 1 3\"; the forecast has 2 steps";
    "mmplan 1", "loss 3\nstretch A 2 2\nstretch B 1 2\nstretch A 1 2\nbound 3\n", Verdict::BadStretch(3)
    => "line 8 is \"stretch A 1 2\"; line 6 has a step of it already";
    "mmplan 2", "loss 3\nstretch A 1 2\ncount 2 channels\nbound 3\n", Verdict::BadCount(1)
    => "line 7 is \"count 2 channels\"; the step is inner to no stretch, as each of its steps but the last is";
    "mmplan 2", "loss 3\nstretch A 1 2\ncount 1 channels\ncount 1 channels\nbound 3\n", Verdict::BadCount(2)
    => "line 8 is \"count 1 channels\"; an earlier count has this step";
    "mmplan 2", "loss 3\nstretch A 1 2\nstretch B 1 2\ncount 1 channels\nbound 3\n", Verdict::BadCount(1)
    => "line 8 is \"count 1 channels\"; \"B\" is inner there, and its channel has no limit";
    "mmplan 1", "loss 3\nstretch A 1 2\nbound 3\n", Verdict::BoundIs(2)
    => "line 7 says bound 3; the bound of the stretches and counts above it is 2";
    "mmplan 2", "loss 3\nstretch A 1 2\ncount 1 channels\nbound 4\n", Verdict::BoundIs(3)
    => "line 8 says bound 4; the bound of the stretches and counts above it is 3";
    "mmplan 1", "loss 3\nbound 5\n", Verdict::BoundIs(0)
    => "line 6 says bound 5; the bound of the stretches and counts above it is 0";
};

fn verdict_hints(rt: &impl Host, [form, after]: [&str; 2], verdict: Verdict, hint: &str) {
    let alloc = rt.alloc();
    let front = format!(in alloc; "{form}\nstores A B\ndump 1 1 0\ndump 2 1 0\n").expect(
        rt, "memory",
    );
    let plan = format!(in alloc; "{front}{after}end\n").expect(rt, "memory");
    let texts = Texts {
        plan: plan.as_bytes(),
        ..texts_of(TWO_STORES, TWO_STEPS, "")
    };
    let judged = check_bytes(alloc, texts.setup, texts.forecast, texts.plan);
    let (judged, _line) = judged.expect(rt, hint);
    holds(rt, judged == verdict, hint);
    let found = verdict_hint(alloc, texts, verdict).expect(rt, hint);
    is_shown(rt, &found, hint);
}

#[test]
fn plans_that_are_not_shown_to_lose_least_are_told(rt: HostRuntime) {
    for (form, after, verdict, hint) in &VERDICTS {
        verdict_hints(&rt, [form, after], *verdict, hint);
    }
}

const PACKET: &str = "0864C000000E200319000000000000000000000000\n";

// This number of lines of sources with a packet of this source and step.
fn lines_of(rt: &impl Host, text: &mut String, front: &str, lines: u32) {
    for _ in 0..lines {
        text.push_str(front).expect(rt, "memory");
        text.push_str(PACKET).expect(rt, "memory");
    }
}

// This is the finding in a refused line of sources, which follows this number of lines of the same source and step and
// one line of each of two others.
fn sources_hint(rt: &impl Host, lines: u32, line: u64, hint: &str) {
    let mut text = String::new(rt.alloc());
    lines_of(rt, &mut text, "2 3 ", 1);
    lines_of(rt, &mut text, "1 3 ", lines);
    lines_of(rt, &mut text, "1 4 ", 1);
    lines_of(rt, &mut text, "1 3 ", 1);
    let reason = Reason {
        refusal: Refusal::SourcesText,
        spot: Spot::Line(line),
    };
    hints(rt, reason, texts_of("", "", text.as_str()), hint);
}

#[test]
fn a_packet_too_many_of_a_source_in_a_step_is_shown(rt: HostRuntime) {
    sources_hint(
        &rt,
        65_535,
        65_538,
        "before line 65538 are 65,535 packets of source 1 in step 3, the most; another source can give the rest",
    );
    sources_hint(
        &rt,
        65_534,
        65_537,
        "line 65537 is \"1 3 0864C000000E200319000000000000000000000000\"",
    );
}

// Lines of sources and links that are refused, the number of the line, and what is found in it.
static SOURCES: [(&str, u64, &str); 10] = wanted! {
    "1 3 0864C0\n", 1
    => "line 1 has a packet of 3 octets; expected a whole packet: 6 octets, and then as many as the packet data \
        length says";
    "1 3 2864C000000E200319000000000000000000000000\n", 1
    => "line 1 has \"2864\" from octet 1 of the packet on; expected packet version number 0";
    "1 3 0FFFC000000E200319000000000000000000000000\n", 1
    => "line 1 has \"0FFF\" from octet 1 of the packet on; expected an APID from 0 to 2046, since 2047 is that of \
        idle packets";
    "1 3 0064C000000E200319000000000000000000000000\n", 1
    => "line 1 has \"0064\" from octet 1 of the packet on; expected a packet with a secondary header";
    "1 3 08644000000E200319000000000000000000000000\n", 1
    => "line 1 has \"4000\" from octet 3 of the packet on; expected an unsegmented packet, with the sequence flags 11";
    "1 3 0864C0000005200319000000\n", 1
    => "line 1 has a packet of 12 octets; expected a data field with a whole secondary header: 5 octets in a \
        telecommand, 15 in telemetry";
    "1 3 1864C0000003200F0100\n", 1
    => "line 1 has a packet of 10 octets; expected a data field with a whole secondary header: 5 octets in a \
        telecommand, 15 in telemetry";
    "1 3 0864C000000E100319000000000000000000000000\n", 1
    => "line 1 has \"1003\" from octet 7 of the packet on; expected PUS version 2 in the secondary header";
    "links 1\nfail 1 3\n", 1 => "the files are in another order; name the sources first, then the links";
    "0864C000000E200319000000000000000000000000\n", 1
    => "the file holds packets in place of sources; write a source and a step before each packet";
};

static LINKS: [(&str, u64, &str); 5] = wanted! {
    "", 1 => "the file is empty; its first line says how many links there are, as links 1";
    "links 1\nfail 2 1\n", 2
    => "line 2 names link 2, and line 1 says links 1; links are numbered from 1 to that number";
    "links 2\nfail 0 1\n", 2
    => "line 2 names link 0, and line 1 says links 2; links are numbered from 1 to that number";
    "links 1\nfail 1\n", 2 => "line 2 is \"fail 1\"";
    "1 3 0864C000000E200319000000000000000000000000\n", 1
    => "the files are in another order; name the sources first, then the links";
};

fn line_hints(
    rt: &impl Host,
    refusal: Refusal,
    [sources, links]: [&str; 2],
    line: u64,
    hint: &str,
) {
    let texts = Texts {
        links: links.as_bytes(),
        ..texts_of("", "", sources)
    };
    let spot = Spot::Line(line);
    hints(rt, Reason { refusal, spot }, texts, hint);
}

#[test]
fn faults_of_sources_and_links_are_shown(rt: HostRuntime) {
    for (sources, line, hint) in &SOURCES {
        line_hints(&rt, Refusal::SourcesText, [sources, ""], *line, hint);
    }
    for (links, line, hint) in &LINKS {
        line_hints(&rt, Refusal::LinksText, ["", links], *line, hint);
    }
}

// A packet of telemetry of 1,025 octets: its packet data length is 1,025 - 7.
#[test]
fn a_source_packet_that_no_block_has_room_for_is_shown(rt: HostRuntime) {
    let alloc = rt.alloc();
    let body = "0".repeat(alloc, 2 * 1016).expect(&rt, "memory");
    let line = format!(in alloc; "8 256 0864C00003FA200319{body}\n").expect(&rt, "memory");
    let hint =
        "line 1 has a packet of 1025 octets; expected a packet of at most 1,024 octets, which is the room of a block";
    line_hints(&rt, Refusal::SourcesText, [line.as_str(), ""], 1, hint);
}

// A workbook of the older form, whose first octets are no UTF-8.
#[test]
fn an_old_workbook_is_shown(rt: HostRuntime) {
    let reason = Reason {
        refusal: Refusal::ForecastText,
        spot: Spot::Whole,
    };
    let texts = Texts {
        forecast: b"\xD0\xCF\x11\xE0\xA1\xB1\x1A\xE1",
        ..texts_of(SETUP, "", "")
    };
    let hint =
        "the file is a workbook; save its sheet as a text file: CSV in UTF-8, with commas between the cells";
    hints(&rt, reason, texts, hint);
}

#[test]
fn a_column_of_a_channel_without_stores_is_noted(rt: HostRuntime) {
    let alloc = rt.alloc();
    let setup = Setup::read(alloc, SETUP.as_bytes()).expect(&rt, "a setup");
    let forecast = b"step,window,A,limit:0,limit:3\n1,2,3,4,5\n";
    let problem = Problem::read(alloc, &setup, forecast).expect(&rt, "a problem");
    let notes = notes_on(alloc, false, &setup, &problem).expect(&rt, "memory");
    assert!(&rt; notes.len() == 1, "a note on one of two columns");
    for note in &notes {
        is_shown(
            &rt,
            note,
            "the forecast has a column limit:3, and no store is on that channel",
        );
    }
}

// Files of requests, a line of each that is refused, and what is found in it.
static REQUESTS: [(&[u8], u64, &str); 11] = wanted! {
    b"1864\n1 3 0864C000000E200319000000000000000000000000\n", 2
    => "line 2 has a source and a step before the packet, as sources have; write the packet alone";
    b"1 3 0864C000000E200319000000000000000000000000\n", 1
    => "the file holds sources of a run in place of packets; leave out the source and the step before each packet";
    b"# stores\n[[store]]\nid = \"A\"\n", 1 => "the file holds a setup in place of packets";
    b"mmplan 1\nstores A\n", 1 => "the file holds a plan text in place of packets";
    b"links 1\nfail 1 3\n", 2 => "the file holds links in place of packets";
    b"step,window,A\n", 1 => "the file holds a forecast in place of packets";
    b"\xEF\xBB\xBF1864\n", 1
    => "the file begins with a byte order mark; save it in UTF-8 without one";
    b"\xFF\xFE1\08\0\n\0", 2 => "the file is in UTF-16; save it in UTF-8";
    b"18\t64\n\n1864 C0\n186\n", 4
    => "line 4 has an odd number of digits; write two for each octet";
    b"18\t64\n\n1864 C0\n186\n", 1 => "line 1 has \"<tab>\", which is no hexadecimal digit";
    b"18\t64\n\n1864 C0\n186\n", 3
    => "line 3 has spaces between digits; write the digits without them";
};

// The finding in the line is the same if it comes first and after other lines, and there is none for another refusal.
fn request_hints(rt: &impl Host, requests: &[u8], line: u64, hint: &str) {
    let mut found = RequestHints::new(requests);
    for later in [0, 1, 9] {
        let _ = found.hint(Refusal::Short, line.saturating_add(later));
        let first = found.hint(Refusal::HexLine, line).expect(rt, hint);
        is_shown(rt, &first, hint);
        holds(rt, found.hint(Refusal::NotSt15, line).is_none(), hint);
    }
}

#[test]
fn faults_of_requests_are_shown(rt: HostRuntime) {
    for (requests, line, hint) in &REQUESTS {
        request_hints(&rt, requests, *line, hint);
    }
}

// Whole files that hold something other than packets, and the finding in each.
static NO_PACKETS: [(&[u8], &str); 4] = wanted! {
    b"1 3 0864C0\n2 3 0864C0\n"
    => "the file holds sources of a run in place of packets; leave out the source and the step before each packet";
    b"links 1\n" => "the file holds links in place of packets";
    b"1864C0000004200F160000\n\n1864C0000004200F160000\r\n"
    => "line 3 ends with CR LF; save the file with LF alone";
    b"\xEF\xBB\xBF1864C0000004200F160000\n"
    => "the file begins with a byte order mark; save it in UTF-8 without one";
};

fn packets_hints(rt: &impl Host, packets: &[u8], hint: &str) {
    let found = packets_hint(packets).expect(rt, hint);
    is_shown(rt, &found, hint);
}

#[test]
fn other_files_in_place_of_packets_are_shown(rt: HostRuntime) {
    for (packets, hint) in &NO_PACKETS {
        packets_hints(&rt, packets, hint);
    }
}

// Requests, their refusal, the instruction that is refused, and what is found in it (docs/PACKETS.md, 'Requests of the
// storage service').
static INSTRUCTIONS: [(&str, Refusal, u64, &str); 6] = wanted! {
    "1864C0000015200F0100000243414D202020202053434920202020", Refusal::NoSuchStore, 1
    => "line 1, instruction 1, names the store \"CAM\"";
    "1864C0000015200F0100000243414D20202020205343492020202020", Refusal::NoSuchStore, 2
    => "line 1, instruction 2, names the store \"SCI\"";
    "1864C0000011200F03000001534349202020202007FF0319", Refusal::BadEnum, 1
    => "line 1, instruction 1, has the APID 2047; 0 to 2046 can be";
    "1864C0000021200F140000025343492020202020000000040100484B202020202020000000020209", Refusal::BadEnum, 2
    => "line 1, instruction 2, has the type 2; 0 is circular, and 1 is bounded";
    "1864C0000021200F140000025343492020202020000000040100484B202020202020000000020009", Refusal::BadEnum, 2
    => "line 1, instruction 2, has the virtual channel 9; 0 to 7 can be";
    "1864C000000E200F1C000001484B20202020202008", Refusal::BadEnum, 1
    => "line 1, instruction 1, has the virtual channel 8; 0 to 7 can be";
};

fn instruction_hints(rt: &impl Host, request: &str, refusal: Refusal, number: u64, hint: &str) {
    let mut found = RequestHints::new(request.as_bytes());
    let said = found.instruction_hint(refusal, 1, number).expect(rt, hint);
    is_shown(rt, &said, hint);
    holds(
        rt,
        found.instruction_hint(Refusal::Busy, 1, number).is_none(),
        hint,
    );
}

#[test]
fn faults_of_instructions_are_shown(rt: HostRuntime) {
    for (request, refusal, number, hint) in &INSTRUCTIONS {
        instruction_hints(&rt, request, *refusal, *number, hint);
    }
}
