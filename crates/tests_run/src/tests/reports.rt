//! The texts of reports of a few steps, and their totals.

use crate::tests::runs::trials::{NO_STEP, has_text};
use crate::tests::samples::id;
use mm_report::{Report, StepCounts};
use std::alloc::Global;
use std::process::Abort;

// The report of these stores and steps, each with a row of forecast, arrived, lost, dumped and held packets for each
// store.
fn report_of(rt: &impl Abort, alloc: Global, names: &[&str], steps: &[&[[u64; 5]]]) -> Report {
    let mut ids = Vec::new(alloc);
    for name in names {
        ids.push(id(rt, *name)).expect(rt, "memory");
    }
    assert!(rt; ids.len() <= 16, "few stores");
    assert!(rt; steps.len() <= 256, "few steps");
    let mut report = Report::new(alloc, ids, steps.len() as u32).expect(rt, "memory");
    for step in steps {
        add(rt, alloc, &mut report, *step);
    }
    report
}

// Adds a step.
fn add(rt: &impl Abort, alloc: Global, report: &mut Report, step: &[[u64; 5]]) {
    let mut row = Vec::new(alloc);
    for numbers in step {
        let [forecast, arrived, lost, dumped, held] = *numbers;
        let counts = StepCounts {
            forecast,
            arrived,
            lost,
            dumped,
            held,
        };
        row.push(counts).expect(rt, "memory");
    }
    assert!(rt; row.len() == report.ids().len(), "a row that fits");
    assert!(rt; !report.is_full(), "a step more");
    report.add(&row);
}

const MOST: u64 = u64::MAX;

// Twice the greatest number of 64 bits arrive.
const MOST_ARRIVE: &[&[[u64; 5]]] = &[&[[MOST, MOST, 0, 0, 0]], &[[MOST, MOST, 0, 0, MOST]]];

// Stores, the steps of a report of them, and its text.
static TEXTS: [(&[&str], &[&[[u64; 5]]], &str); 3] = wanted! {
    &["SCI", "HK"], &[] => NO_STEP;
    // All step lines come first, then where the forecast was not met, and what is held is held as the last step ends.
    &["A", "LONG-ID8"], &[&[[1, 2, 1, 1, 5], [0, 0, 0, 0, 7]], &[[4, 4, 0, 3, 6], [2, 1, 0, 8, 0]]] =>
    "step 1 A arrived 2 lost 1 dumped 1 held 5\n\
    step 1 LONG-ID8 arrived 0 lost 0 dumped 0 held 7\n\
    step 2 A arrived 4 lost 0 dumped 3 held 6\n\
    step 2 LONG-ID8 arrived 1 lost 0 dumped 8 held 0\n\
    differs step 1 A forecast 1 came 2\n\
    differs step 2 LONG-ID8 forecast 2 came 1\n\
    total arrived 7 lost 1 dumped 12 held 6\n";
    &["A"], MOST_ARRIVE =>
    "step 1 A arrived 18446744073709551615 lost 0 dumped 0 held 0\n\
    step 2 A arrived 18446744073709551615 lost 0 dumped 0 held 18446744073709551615\n\
    total arrived 36893488147419103230 lost 0 dumped 0 held 18446744073709551615\n";
};

#[test]
fn reports_have_these_texts(rt: HostRuntime) {
    for (stores, steps, text) in &TEXTS {
        let report = report_of(&rt, rt.alloc(), *stores, *steps);
        has_text(&rt, rt.alloc(), "a report", &report, *text);
    }
    let none = Report::none(rt.alloc());
    has_text(&rt, rt.alloc(), "no report", &none, NO_STEP);
}

#[test]
fn sums_beyond_64_bits(rt: HostRuntime) {
    let report = report_of(&rt, rt.alloc(), &["A"], MOST_ARRIVE);
    let arrived = report.totals().arrived;
    assert!(rt; arrived == 36893488147419103230, "the total");
}
