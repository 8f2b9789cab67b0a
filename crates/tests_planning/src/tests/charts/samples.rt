//! The setup of one store, charts of texts, and assertions on them.
use crate::tests::samples::{Runtime, holds};
use mm_chart::{Fault, chart_bytes};

pub const ONE_STORE: &str = "[[store]]\nid = \"A\"\nsize = 1\ntype = \"bounded\"\nchannel = 0\n";

/// The text that is written for a plan.
pub fn text_of(rt: &impl Runtime, written: Result<Vec<u8>, Fault>, plan: &str) -> String {
    String::from_utf8(written.expect(rt, plan)).expect(rt, "UTF-8")
}

/// The chart of these texts.
pub fn chart_of(rt: &impl Runtime, setup: &str, forecast: &str, plan: &str) -> String {
    let (setup, forecast) = (setup.as_bytes(), forecast.as_bytes());
    let written = chart_bytes(rt.alloc(), setup, forecast, plan.as_bytes());
    text_of(rt, written, plan)
}

/// Only this fault is written.
pub fn is_fault(rt: &impl Runtime, written: Result<Vec<u8>, Fault>, wanted: &str) {
    let fault = written.expect_err(rt, "a fault");
    let text = fault.to_string(rt.alloc()).expect(rt, "memory");
    holds(rt, text.as_str() == wanted, wanted);
}

/// The chart has these lines.
pub fn has_lines(rt: &impl Runtime, chart: &str, wanted: &[&str]) {
    for wanted in wanted {
        holds(rt, chart.lines().any(|line| line == *wanted), wanted);
    }
}

/// The chart has these texts in it.
pub fn has_texts(rt: &impl Runtime, chart: &str, wanted: &[&str]) {
    for wanted in wanted {
        holds(rt, chart.contains(wanted), wanted);
    }
}
