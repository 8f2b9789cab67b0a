//! Texts of setups and forecasts with what is read of them, and problems from data.
use crate::tests::samples::{Runtime, holds};
use mm_problem::Fault;

// Texts, by the fault with which each is refused, or by `read`.
macro_rules! refused {
    ($($fault:literal: $($text:expr),+;)+) => { [$($(($text, $fault)),+),+] };
}

mod data;
mod forecasts;
mod setups;

// The printed fault, or `read` if there is none.
fn shown(rt: &impl Runtime, fault: Option<Fault>) -> String {
    match fault {
        None => String::from_str(rt.alloc(), "read").expect(rt, "memory"),
        Some(fault) => fault.to_string(rt.alloc()).expect(rt, "memory"),
    }
}

// The fault is printed like this, or is `read` if there is none.
fn is_shown(rt: &impl Runtime, fault: Option<Fault>, wanted: &str) {
    let shown = shown(rt, fault);
    holds(rt, shown.as_str() == wanted, wanted);
}
