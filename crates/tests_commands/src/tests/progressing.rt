//! What a progress is told while the program works.

use crate::tests::samples::{Host, SCI, THREE_STEPS, joined};
use mm_commands::{Progress, run_script_with_progress};

// Keeps what it is told.
#[derive(Drop)]
struct Told {
    calls: Vec<(usize, usize)>,
}

impl Progress for Told {
    fn done(&mut self, parts: usize, all: usize) {
        let _full = self.calls.push((parts, all));
    }
}

// The program tells this of its progress while it does the task of this command on a setup and a forecast.
fn tells(rt: &impl Host, command: &str, wanted: &[(usize, usize)]) {
    let alloc = rt.alloc();
    let script = joined(rt, &[command, " S F\n=== S\n", SCI, "=== F\n", THREE_STEPS]);
    let mut told = Told {
        calls: Vec::new(alloc),
    };
    let (mut out, mut err) = (Vec::new(alloc), Vec::new(alloc));
    let script = script.as_bytes();
    let status = run_script_with_progress(rt, alloc, script, &mut out, &mut err, &mut told);
    let is_told = told.calls.as_slice() == wanted;
    assert!(rt; status == 0 && err.is_empty() && is_told, "for {command}");
}

// The table has a record for each of the three windows, and one for the store.
#[test]
fn each_record_of_a_table_is_told(rt: HostRuntime) {
    tells(&rt, "sensitivity", &[(1, 4), (2, 4), (3, 4), (4, 4)]);
    tells(&rt, "plan", &[]);
}
