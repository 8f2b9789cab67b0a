//! Rows worked on paper: one store with arrivals before dumps or during them, and sizes by step.
ghost use Rattle.mm_plan.specs.Simulated.{CoversProblem};

use crate::tests::kinds::{is_planned, is_planned_least};
use crate::tests::samples::{Runtime, holds, made, row, sheet_of};
use mm_cut::{Verdict, verify};
use mm_plan::{Simulated, simulate};
use mm_problem::{Arrivals, Problem};

// A problem of one store A, and a plan that loses least by its own cut. Without sizes by step that list is empty.
struct Row {
    name: &'static str,
    come: Arrivals,
    size: u32,
    start: u32,
    windows: &'static [u32],
    arrivals: &'static [u32],
    sizes: &'static [u32],
    sheet: &'static str,
    loss: u64,
}

impl Row {
    fn problem(&self, rt: &impl Runtime) -> Problem {
        let rows = [row(rt, "A", self.size, self.start, 0)];
        let problem = made(rt, &rows, &[], self.windows, self.arrivals);
        let problem = problem.with_arrivals(rt.alloc(), self.come);
        let problem = problem.expect(rt, "memory");
        if self.sizes.is_empty() {
            return problem;
        }
        let sized = problem.with_step_sizes(rt.alloc(), &[0], self.sizes);
        sized.expect(rt, "a problem")
    }

    // The plan of the sheet loses least, as its own cut shows.
    fn is_least(&self, rt: &impl Runtime, problem: &Problem) {
        let sheet = sheet_of(rt, self.sheet);
        let (plan, cut, counts) = (sheet.plan(), sheet.cut(), sheet.by_channels());
        assert!(rt; plan.has_shape(problem));
        let verdict = verify(problem, plan, cut, counts, sheet.loss(), sheet.bound());
        holds(rt, verdict == Verdict::Least(self.loss), self.name);
    }
}

// Rows by name: the kind, the size and the start of the store, the windows, the arrivals and the sizes by step, the
// sheet, and the loss.
macro_rules! rows {
    ($(
        name: $name:literal, $come:ident $size:literal from $start:literal,
        windows $windows:tt, arrivals $arrivals:tt, sizes $sizes:tt,
        $sheet:literal => $loss:literal;
    )+) => {
        [$(Row {
            name: $name, come: Arrivals::$come, size: $size, start: $start,
            windows: &$windows, arrivals: &$arrivals, sizes: &$sizes, sheet: $sheet, loss: $loss,
        }),+]
    };
}

// A store of 600 kB, that is 300 blocks of 2 kB. A pass at 800 kbit/s, 50 blocks a second, lasts from 06:00 to 10:00.
// An observation at 600 kbit/s, 37.5 blocks a second, lasts from 06:10 to 06:50. The steps, from event to event, have
// 600, 2,400 and 11,400 seconds. In the second one 2,400 * 37.5 = 90,000 blocks arrive, and 2,400 * 50 = 120,000 can
// leave. If the pass sends at 400 kbit/s, 60,000 can leave, and of the other 30,000 the store holds 300.
static OBSERVED: [Row; 3] = rows! {
    name: "an observation in a pass, sent as it arrives",
    During 300 from 0, windows [30000, 120000, 570000], arrivals [0, 90000, 0], sizes [],
    "mmplan 1\nstores A\ndump 1 0\ndump 2 90000\ndump 3 0\nloss 0\nbound 0\nend\n" => 0;
    name: "all of it is there before the first block leaves: 90,000 less 300 are lost",
    Before 300 from 0, windows [30000, 120000, 570000], arrivals [0, 90000, 0], sizes [],
    "mmplan 1\nstores A\ndump 1 0\ndump 2 300\ndump 3 0\nloss 89700\nstretch A 2 2\nbound 89700\nend\n" => 89700;
    name: "a slower pass: 90,000 less 300 held less 60,000 sent are lost",
    During 300 from 0, windows [15000, 60000, 285000], arrivals [0, 90000, 0], sizes [],
    "mmplan 1\nstores A\ndump 1 0\ndump 2 60000\ndump 3 300\nloss 29700\nstretch A 2 2\nbound 29700\nend\n" => 29700;
};

// A bank is off in steps 3 and 4. Before dumps: in step 3 the 4 that were held and the 3 that arrive are lost, in step
// 4 the 3 that arrive. During dumps 2 of each leave in time. Stretch 1 to 3 has 4 + 4 + 3 arrivals, and the windows of
// two steps, or of three.
//
// What a store holds at the end of step 3 has missed a deadline. 3 + 2 + 2 blocks are there, and windows 1 and 1, or
// 1, 1 and 2, let them out in time.
//
// The start volume is above the size of the first step: of 4 + 1 blocks 2 are held, and 2 leave in time or not.
static SIZED: [Row; 6] = rows! {
    name: "a bank that is off in two steps",
    Before 10 from 0, windows [2, 2, 2, 2, 2], arrivals [4, 4, 3, 3, 4], sizes [10, 10, 0, 0, 10],
    "mmplan 1\nstores A\ndump 1 2\ndump 2 2\ndump 3 0\ndump 4 0\ndump 5 2\nloss 10\nstretch A 1 3\nstretch A 4 4\nbound 10\nend\n" => 10;
    name: "a bank that is off in two steps, which send as blocks arrive",
    During 10 from 0, windows [2, 2, 2, 2, 2], arrivals [4, 4, 3, 3, 4], sizes [10, 10, 0, 0, 10],
    "mmplan 1\nstores A\ndump 1 2\ndump 2 2\ndump 3 2\ndump 4 2\ndump 5 2\nloss 6\nstretch A 1 3\nstretch A 4 4\nbound 6\nend\n" => 6;
    name: "a deadline before the dumps of step 3",
    Before 9 from 3, windows [1, 1, 2, 5, 5], arrivals [2, 2, 0, 0, 1], sizes [9, 9, 0, 9, 9],
    "mmplan 1\nstores A\ndump 1 1\ndump 2 1\ndump 3 0\ndump 4 0\ndump 5 1\nloss 5\nstretch A 1 3\nbound 5\nend\n" => 5;
    name: "a deadline at the end of step 3",
    During 9 from 3, windows [1, 1, 2, 5, 5], arrivals [2, 2, 0, 0, 1], sizes [9, 9, 0, 9, 9],
    "mmplan 1\nstores A\ndump 1 1\ndump 2 1\ndump 3 2\ndump 4 0\ndump 5 1\nloss 3\nstretch A 1 3\nbound 3\nend\n" => 3;
    name: "more at the start than the first step holds",
    Before 5 from 4, windows [2, 0], arrivals [1, 0], sizes [2, 5],
    "mmplan 1\nstores A\ndump 1 2\ndump 2 0\nloss 3\nstretch A 1 1\nbound 3\nend\n" => 3;
    name: "more at the start than the first step holds, of which 2 leave in time",
    During 5 from 4, windows [2, 0], arrivals [1, 0], sizes [2, 5],
    "mmplan 1\nstores A\ndump 1 2\ndump 2 0\nloss 1\nstretch A 1 1\nbound 1\nend\n" => 1;
};

#[test]
fn an_observation_in_a_pass_loses_what_was_worked_out(rt: HostRuntime) {
    for row in &OBSERVED {
        let problem = row.problem(&rt);
        row.is_least(&rt, &problem);
        holds(&rt, is_planned(&rt, &problem), row.name);
    }
}

#[test]
fn stores_with_sizes_by_step_lose_what_was_worked_out(rt: HostRuntime) {
    for row in &SIZED {
        let problem = row.problem(&rt);
        row.is_least(&rt, &problem);
        holds(&rt, is_planned_least(&rt, &problem), row.name);
    }
}

// Of the bank that is off: what can leave in each step, what is left after it, and what it loses. Before dumps only
// what the store holds can leave.
static OFF_BEFORE: [(u32, u32, u32); 5] = [(4, 2, 0), (6, 4, 0), (0, 0, 7), (0, 0, 3), (4, 2, 0)];

static OFF_DURING: [(u32, u32, u32); 5] = [(4, 2, 0), (6, 4, 0), (7, 0, 5), (3, 0, 1), (4, 2, 0)];

// The simulation of a problem of one store has these volumes.
fn has_volumes(
    rt: &impl Runtime,
    problem: &Problem,
    simulated: &Simulated,
    volumes: &[(u32, u32, u32)],
)
    requires { CoversProblem problem.now simulated.now }
{
    assert!(rt; (problem.stores(), problem.steps()) == (1, 5));
    for step in 1..6u32 {
        let (written, left) = (simulated.written(0, step), simulated.left(0, step));
        let found = (written, left, simulated.lost(0, step));
        let wanted = volumes.get(step as usize - 1);
        holds(rt, wanted == Some(&found), "the step");
    }
}

// The plan of a row is simulated with these volumes.
fn is_simulated(rt: &impl Runtime, row: &Row, volumes: &[(u32, u32, u32)]) {
    let problem = row.problem(rt);
    let sheet = sheet_of(rt, row.sheet);
    assert!(rt; sheet.plan().has_shape(&problem));
    let simulated = simulate(rt.alloc(), &problem, sheet.plan()).expect(rt, "memory");
    has_volumes(rt, &problem, &simulated, volumes);
    assert!(rt; simulated.total() == row.loss);
}

#[test]
fn a_bank_that_is_off_is_simulated_as_worked_out(rt: HostRuntime) {
    let [before, during, ..] = &SIZED;
    is_simulated(&rt, before, &OFF_BEFORE);
    is_simulated(&rt, during, &OFF_DURING);
}
