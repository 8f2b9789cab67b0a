//! Plan texts: how they are read, printed and refused.
use crate::tests::samples::{
    CHANNEL_LIMIT_CUT, FIRST_RUN, Runtime, holds, numbered, repeated, sheet_of,
};
use mm_plan::{Fault, Sheet};
use std::alloc::Global;

// The line of the refusal; 0 if the text is that of a sheet.
fn line_of(alloc: Global, text: &[u8]) -> u32 {
    match Sheet::parse(alloc, text) {
        Ok(_) => 0,
        Err(Fault::PlanText { line }) => line,
        Err(_) => u32::MAX,
    }
}

// The text is refused with this line; 0 if it is that of a sheet.
fn is_refused(rt: &impl Runtime, text: &[u8], line: u32) {
    holds(rt, line_of(rt.alloc(), text) == line, "the line");
}

// The sheet has one store and one stretch, no counted step, and a loss and a bound of 2.
fn has_one_of_each(rt: &impl Runtime, sheet: &Sheet) {
    assert!(rt; (sheet.loss(), sheet.bound(), sheet.by_channels().len()) == (2, 2, 0));
    let (stores, cut) = (sheet.stores(), sheet.cut());
    assert!(rt; stores.len() == 1 && cut.len() == 1);
    assert!(rt; stores[0].text() == b"SCI".as_slice());
    assert!(rt; (cut[0].first, cut[0].last) == (1, 3));
}

#[test]
fn first_run_is_read(rt: HostRuntime) {
    has_one_of_each(&rt, &sheet_of(&rt, FIRST_RUN));
}

#[test]
fn channel_limit_cut_is_read(rt: HostRuntime) {
    let sheet = sheet_of(&rt, CHANNEL_LIMIT_CUT);
    assert!(rt; sheet.loss() == 2);
    assert!(rt; sheet.by_channels() == [1].as_slice());
}

// The text is that of a sheet, which is printed as the second text.
pub(crate) fn read_and_printed(rt: &impl Runtime, text: &str, printed: &str) {
    let text = sheet_of(rt, text).print(rt.alloc()).expect(rt, "memory");
    holds(rt, text.as_slice() == printed.as_bytes(), printed);
}

const IN_ANY_ORDER: &str =
    "mmplan 2\nstores B A\ndump 1 0 0\nloss 0\nstretch A 1 1\nstretch B 3 4\nstretch B 1 9\nstretch B 1 2\n\
    count 7 channels\ncount 2 channels\nbound -5\nend\n";

const IN_ORDER: &str =
    "mmplan 2\nstores B A\ndump 1 0 0\nloss 0\nstretch B 1 2\nstretch B 1 9\nstretch B 3 4\nstretch A 1 1\n\
    count 2 channels\ncount 7 channels\nbound -5\nend\n";

#[test]
fn sheets_are_printed_in_order(rt: HostRuntime) {
    read_and_printed(&rt, FIRST_RUN, FIRST_RUN);
    read_and_printed(&rt, CHANNEL_LIMIT_CUT, CHANNEL_LIMIT_CUT);
    read_and_printed(&rt, IN_ANY_ORDER, IN_ORDER);
}

static READ: [(&[u8], &str); 8] = wanted! {
    b"mmplan 1\nstores A A\ndump 1 0 1000000\nloss 0\nbound 0\nend\n" => "a store twice";
    b"mmplan 1\nstores A\ndump 1 0\nloss 18446744073709551615\nbound 0\nend\n"
    => "the greatest loss";
    b"mmplan 1\nstores A\ndump 1 0\nloss 0\nbound 9223372036854775807\nend\n"
    => "the greatest bound";
    b"mmplan 1\nstores A\ndump 1 0\nloss 0\nbound -9223372036854775808\nend\n" => "the least bound";
    b"mmplan 1\nstores A\ndump 1 0\nloss 0\nstretch B 4294967295 0\nbound 0\nend\n"
    => "a stretch of any steps";
    b"mmplan 1\nstores A\ndump 1 0\nloss 0\nstretch A 2 2\nstretch A 1 2\nbound 0\nend\n"
    => "stretches in any order";
    b"mmplan 2\nstores A\ndump 1 0\nloss 0\ncount 9 channels\ncount 0 channels\nbound 0\nend\n"
    => "counts of any steps";
    b"mmplan 1\nstores A-B_C019 Z\ndump 1 0 0\nloss 0\nbound 0\nend\n" => "each kind of character";
};

#[test]
fn sheet_texts_are_read(rt: HostRuntime) {
    for (text, name) in &READ {
        holds(&rt, line_of(rt.alloc(), text) == 0, name);
    }
}

// Each text with the line of its refusal.
static REFUSED: [(&[u8], u32); 52] = wanted! {
    b"" => 1;
    b"\n" => 1;
    b"mmplan 1\nstores SCI\ndump 1 2\ndump 2 2\ndump 3 0\nloss 2\nstretch SCI 1 3\nbound 2\n" => 9;
    b"mmplan 1\nstores SCI\ndump 1 02\ndump 2 2\ndump 3 0\nloss 2\nstretch SCI 1 3\nbound 2\nend\n"
    => 3;
    b"mmplan 1\nstores A\ndump 1 0\nloss 0\nbound 0\nend" => 6;
    b"mmplan 1\nstores A\ndump 1 0\nloss 0\nbound 0\nend\n\n" => 7;
    b"mmplan 1\nstores A\ndump 1 0\nloss 0\nbound 0\nend\nend\n" => 7;
    b"mmplan 1\nstores A\ndump 1 0\nloss 0\nbound 0\nend\nx" => 7;
    b"mmplan 1\nstores A\ndump 1 0\nloss 0\nbound 0\nend \n" => 6;
    b"mmplan 1\r\nstores A\r\ndump 1 0\r\nloss 0\r\nbound 0\r\nend\r\n" => 1;
    b"mmplan 1\nstores A\r\ndump 1 0\nloss 0\nbound 0\nend\n" => 2;
    b"\xEF\xBB\xBFmmplan 1\nstores A\ndump 1 0\nloss 0\nbound 0\nend\n" => 1;
    b"mmplan 4\nstores A\ndump 1 0\nloss 0\nbound 0\nend\n" => 1;
    b"mmplan\nstores A\ndump 1 0\nloss 0\nbound 0\nend\n" => 1;
    b"mmplan 01\nstores A\ndump 1 0\nloss 0\nbound 0\nend\n" => 1;
    b" mmplan 1\nstores A\ndump 1 0\nloss 0\nbound 0\nend\n" => 1;
    b"mmplan 1 \nstores A\ndump 1 0\nloss 0\nbound 0\nend\n" => 1;
    b"mmplan  1\nstores A\ndump 1 0\nloss 0\nbound 0\nend\n" => 1;
    b"mmplan 1\nstores\ndump 1 0\nloss 0\nbound 0\nend\n" => 2;
    b"mmplan 1\nstores \ndump 1 0\nloss 0\nbound 0\nend\n" => 2;
    b"mmplan 1\nstores a\ndump 1 0\nloss 0\nbound 0\nend\n" => 2;
    b"mmplan 1\nstores ABCDEFGHI\ndump 1 0\nloss 0\nbound 0\nend\n" => 2;
    b"mmplan 1\nstores \xFF\ndump 1 0\nloss 0\nbound 0\nend\n" => 2;
    b"mmplan 1\nstores A B C D E F G H I J K L M N O P Q\nend\n" => 2;
    b"mmplan 1\ndump 1 0\nloss 0\nbound 0\nend\n" => 2;
    b"mmplan 1\nstores A\nstores A\ndump 1 0\nloss 0\nbound 0\nend\n" => 3;
    b"mmplan 1\nstores A\nloss 0\nbound 0\nend\n" => 3;
    b"mmplan 1\nstores A\ndump 1\nloss 0\nbound 0\nend\n" => 3;
    b"mmplan 1\nstores A\ndump 1 0 0\nloss 0\nbound 0\nend\n" => 3;
    b"mmplan 1\nstores A\ndump 0 0\nloss 0\nbound 0\nend\n" => 3;
    b"mmplan 1\nstores A\ndump 2 0\nloss 0\nbound 0\nend\n" => 3;
    b"mmplan 1\nstores A\ndump 1 0\ndump 1 0\nloss 0\nbound 0\nend\n" => 4;
    b"mmplan 1\nstores A\ndump 1 1000001\nloss 0\nbound 0\nend\n" => 3;
    b"mmplan 1\nstores A\ndump 1 +0\nloss 0\nbound 0\nend\n" => 3;
    b"mmplan 1\nstores A\ndump  1 0\nloss 0\nbound 0\nend\n" => 3;
    b"mmplan 1\nstores A\ndump 1 0\nloss 18446744073709551616\nbound 0\nend\n" => 4;
    b"mmplan 1\nstores A\ndump 1 0\nloss -1\nbound 0\nend\n" => 4;
    b"mmplan 1\nstores A\ndump 1 0\nloss 0 \nbound 0\nend\n" => 4;
    b"mmplan 1\nstores A\ndump 1 0\nbound 0\nend\n" => 4;
    b"mmplan 1\nstores A\ndump 1 0\nloss 0\ndump 2 0\nbound 0\nend\n" => 5;
    b"mmplan 1\nstores A\ndump 1 0\nloss 0\nstretch A 1 4294967296\nbound 0\nend\n" => 5;
    b"mmplan 1\nstores A\ndump 1 0\nloss 0\nstretch A 1\nbound 0\nend\n" => 5;
    b"mmplan 1\nstores A\ndump 1 0\nloss 0\nstretch a 1 1\nbound 0\nend\n" => 5;
    b"mmplan 1\nstores A\ndump 1 0\nloss 0\ncount 1 channels\nbound 0\nend\n" => 5;
    b"mmplan 2\nstores A\ndump 1 0\nloss 0\nbound 0\nend\n" => 5;
    b"mmplan 2\nstores A\ndump 1 0\nloss 0\ncount 4294967296 channels\nbound 0\nend\n" => 5;
    b"mmplan 2\nstores A\ndump 1 0\nloss 0\ncount 1 channel\nbound 0\nend\n" => 5;
    b"mmplan 2\nstores A\ndump 1 0\nloss 0\ncount 1 channels\nstretch A 1 1\nbound 0\nend\n" => 6;
    b"mmplan 1\nstores A\ndump 1 0\nloss 0\nbound -0\nend\n" => 5;
    b"mmplan 1\nstores A\ndump 1 0\nloss 0\nbound 9223372036854775808\nend\n" => 5;
    b"mmplan 1\nstores A\ndump 1 0\nloss 0\nbound -9223372036854775809\nend\n" => 5;
    b"mmplan 1\nstores A\ndump 1 x\nloss y\nbound z\nend\n" => 3;
};

// Each text is refused with its line.
pub(crate) fn are_refused(rt: &impl Runtime, rows: &[(&[u8], u32)]) {
    for (text, line) in rows {
        is_refused(rt, text, *line);
    }
}

#[test]
fn sheet_text_refused(rt: HostRuntime) {
    are_refused(&rt, &REFUSED);
}

// Each proper prefix is refused with the line on which it ends.
pub(crate) fn prefixes_refused(rt: &impl Runtime, text: &[u8]) {
    let mut line: u32 = 1;
    for len in 0..text.len() {
        is_refused(rt, &text[..len], line);
        if text[len] == b'\n' {
            line = line.saturating_add(1);
        }
    }
}

#[test]
fn each_proper_prefix_is_refused(rt: HostRuntime) {
    prefixes_refused(&rt, FIRST_RUN.as_bytes());
    prefixes_refused(&rt, CHANNEL_LIMIT_CUT.as_bytes());
}

const FIRST_FORM: &str = "mmplan 1\nstores A\ndump 1 0\nloss 0\n";

const SECOND_FORM: &str = "mmplan 2\nstores A\ndump 1 0\nloss 0\n";

// The certificate of all stores has a count, and that of the first none yet.
const THIRD_FORM: &str =
    "mmplan 3\nstores A B\ndump 1 0 0\nloss 0\ncount 1 channels\nbound 0\nfirst 1\nloss 0\n";

const END: &str = "bound 0\nend\n";

// A text up to some lines, the line that is repeated and how often, what follows, and the line of the refusal.
static REPEATED: [(&str, &str, usize, &str, u32); 6] = [
    (FIRST_FORM, "stretch A 1 1\n", 4096, END, 0),
    (FIRST_FORM, "stretch A 1 1\n", 4097, "", 4101),
    (SECOND_FORM, "count 1 channels\n", 256, END, 0),
    (SECOND_FORM, "count 1 channels\n", 257, "", 261),
    (THIRD_FORM, "count 1 channels\n", 256, END, 0),
    (THIRD_FORM, "count 1 channels\n", 257, "", 265),
];

#[test]
fn only_so_many_lines_are_taken(rt: HostRuntime) {
    for (head, line, count, end, wanted) in &REPEATED {
        let text = repeated(&rt, head, line, *count, end);
        is_refused(&rt, text.as_bytes(), *wanted);
    }
}

// What follows the lines of 256 steps, and the line of the refusal.
static AFTER_256_STEPS: [(&str, u32); 2] = [("loss 0\nbound 0\nend\n", 0), ("dump 257 0\n", 259)];

#[test]
fn only_256_steps_are_taken(rt: HostRuntime) {
    let steps = numbered(&rt, "dump ", 256, " 0\n");
    for (end, wanted) in &AFTER_256_STEPS {
        let text = format!(in rt.alloc(); "mmplan 1\nstores A\n{steps}{end}");
        is_refused(&rt, text.expect(&rt, "memory").as_bytes(), *wanted);
    }
}

#[test]
fn a_refusal_is_printed_with_number_name_and_line(rt: HostRuntime) {
    let fault = Fault::PlanText { line: 9 };
    let shown = fault.to_string(rt.alloc()).expect(&rt, "memory");
    assert!(rt; shown.as_str() == "34 PlanText line 9");
}
