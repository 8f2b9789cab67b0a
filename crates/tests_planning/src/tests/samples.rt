//! Texts of setups and forecasts that several modules share, and the values made of them.
ghost use Rattle.std.specs.Prelude.{◌<◌};
ghost use Rattle.mm_plan.specs.Table.{HasShape};

use mm_exhaustive::plan_below;
use mm_plan::{Plan, Sheet, fill, fits};
use mm_problem::{Kind, LimitRow, Problem, Setup, StoreId, StoreRow};
use std::fmt::Write;
use std::process::Abort;

// The bounds of test helpers: a failed assertion ends the test, and values need memory.
pub(crate) trait Runtime: Abort + AllocGlobal {}

impl<R: Abort + AllocGlobal> Runtime for R {}

// This holds, or the test fails and shows what.
pub(crate) fn holds(rt: &impl Runtime, is_so: bool, what: &str) {
    assert!(rt; is_so, "{what}");
}

// This holds of the case with a name, or the test fails and shows both.
pub(crate) fn holds_of(rt: &impl Runtime, is_so: bool, name: &str, what: &str) {
    assert!(rt; is_so, "{name}: {what}");
}

// A store of size 4, and one of size 2.
pub(crate) const SCI: &str = "[[store]]\nid = \"SCI\"\nsize = 4\ntype = \"bounded\"\nchannel = 0\n";

pub(crate) const SCI_OF_SIZE_2: &str =
    "[[store]]\nid = \"SCI\"\nsize = 2\ntype = \"bounded\"\nchannel = 0\n";

pub(crate) const SCI_STARTS_WITH_2: &str =
    "[[store]]\nid = \"SCI\"\nsize = 4\ntype = \"bounded\"\nchannel = 0\nstart = 2\n";

pub(crate) const ONE_STORE_OF_A: &str =
    "[[store]]\nid = \"A\"\nsize = 3\ntype = \"bounded\"\nchannel = 0\n";

// The same store, on a channel with a limit of 1.
pub(crate) const A_LIMITED: &str =
    "[[store]]\nid = \"A\"\nsize = 3\ntype = \"bounded\"\nchannel = 0\n[[limit]]\nchannel = 0\nblocks = 1\n";

// The same before another store, whose channel has no limit.
pub(crate) const A_LIMITED_AND_B: &str =
    "[[store]]\nid = \"A\"\nsize = 3\ntype = \"bounded\"\nchannel = 0\n[[store]]\nid = \"B\"\nsize = 3\ntype = \"bounded\"\nchannel = 1\n[[limit]]\nchannel = 0\nblocks = 1\n";

// Two stores of size 3 on one channel.
pub(crate) const A_AND_B: &str =
    "[[store]]\nid = \"A\"\nsize = 3\ntype = \"bounded\"\nchannel = 0\n\n[[store]]\nid = \"B\"\nsize = 3\ntype = \"bounded\"\nchannel = 0\n";

pub(crate) const THREE_STEPS: &str = "step,window,SCI\n1,2,3\n2,2,3\n3,0,4\n";

// Two steps with more arrivals than the store of size 2 holds, and a wide window between them.
pub(crate) const APART: &str = "step,window,SCI\n1,0,5\n2,9,0\n3,0,5\n";

pub(crate) const TWO_STEPS_OF_A: &str = "step,window,A\n1,5,3\n2,0,3\n";

// The best plan of `SCI` and `THREE_STEPS`.
pub(crate) const FIRST_RUN: &str =
    "mmplan 1\nstores SCI\ndump 1 2\ndump 2 2\ndump 3 0\nloss 2\nstretch SCI 1 3\nbound 2\nend\n";

// The best plan of a store of size 3 on a channel with a limit of 1, at which three blocks come in each of two steps.
pub(crate) const CHANNEL_LIMIT_CUT: &str =
    "mmplan 2\nstores A\ndump 1 1\ndump 2 0\nloss 2\nstretch A 1 2\ncount 1 channels\nbound 2\nend\n";

pub(crate) fn id(rt: &impl Runtime, text: &str) -> StoreId {
    StoreId::of_text(text.as_bytes()).expect(rt, "an identifier")
}

// These parts in a row.
pub(crate) fn joined(rt: &impl Runtime, parts: &[&str]) -> String {
    parts.join(rt.alloc(), "").expect(rt, "memory")
}

// The plan of a text.
pub(crate) fn sheet_of(rt: &impl Runtime, text: &str) -> Sheet {
    Sheet::parse(rt.alloc(), text.as_bytes()).expect(rt, "a sheet")
}

// A part that is repeated, with these texts before and after it.
pub(crate) fn repeated(
    rt: &impl Runtime,
    before: &str,
    part: &str,
    count: usize,
    after: &str,
) -> String {
    let parts = part.repeat(rt.alloc(), count).expect(rt, "memory");
    joined(rt, &[before, parts.as_str(), after])
}

// Each number from 1 up to this one, with these texts before and after it.
pub(crate) fn numbered(rt: &impl Runtime, before: &str, most: u32, after: &str) -> String {
    let mut text = String::new(rt.alloc());
    for place in 0..most {
        write!(text, "{before}{}{after}", place + 1).expect(rt, "memory");
    }
    text
}

// The problem of two texts.
pub(crate) fn problem_of(rt: &impl Runtime, setup: &str, forecast: &str) -> Problem {
    let setup = Setup::read(rt.alloc(), setup.as_bytes()).expect(rt, "a setup");
    Problem::read(rt.alloc(), &setup, forecast.as_bytes()).expect(rt, "a forecast")
}

// A bounded store with this identifier, size, start volume and channel.
pub(crate) fn row(rt: &impl Runtime, text: &str, size: u32, start: u32, channel: u8) -> StoreRow {
    StoreRow {
        id: id(rt, text),
        size,
        start,
        kind: Kind::Bounded,
        channel,
    }
}

// The problem of these stores, limits, windows and arrivals.
pub(crate) fn made(
    rt: &impl Runtime,
    rows: &[StoreRow],
    limits: &[LimitRow],
    windows: &[u32],
    arrivals: &[u32],
) -> Problem {
    let problem = Problem::new(rt.alloc(), rows, limits, windows, arrivals);
    problem.expect(rt, "a problem")
}

// The problem with a limit for each step and each of these channels.
pub(crate) fn limited(
    rt: &impl Runtime,
    problem: &Problem,
    channels: &[u8],
    limits: &[u32],
) -> Problem {
    let limited = problem.with_step_limits(rt.alloc(), channels, limits);
    limited.expect(rt, "a problem")
}

pub(crate) static NAMES: [&str; 16] = [
    "A", "B", "C", "D", "E", "F", "G", "H", "I", "J", "K", "L", "M", "N", "O", "P",
];

// The tables of stores of size 1, with the number and the channel of each, and then limits of this number of blocks for
// channels.
macro_rules! stores_of_size_1 {
    (
        $id:literal, $end:literal: $($number:literal $channel:literal),+
        $(; limits of $blocks:literal: $($limited:literal)+)?
    ) => {
        concat!(
            $("[[store]]\nid = \"", $id, $number, "\"\nsize = 1\nchannel = ", $channel, "\n", $end,)+
            $($("[[limit]]\nchannel = ", $limited, "\nblocks = ", $blocks, "\n",)+)?
        )
    };
}

pub(crate) use stores_of_size_1;

// 16 stores of size 1 on 8 channels.
pub(crate) const SIXTEEN_STORES: &str = stores_of_size_1! {
    "S", "type = \"bounded\"\n":
        0 0, 1 1, 2 2, 3 3, 4 4, 5 5, 6 6, 7 7, 8 0, 9 1, 10 2, 11 3, 12 4, 13 5, 14 6, 15 7
};

pub(crate) const SIXTEEN_HEADER: &str =
    "step,window,S0,S1,S2,S3,S4,S5,S6,S7,S8,S9,S10,S11,S12,S13,S14,S15\n";

// A limit for each channel, of this many blocks.
macro_rules! each_limited {
    ($blocks:literal) => { each_limited!($blocks: 0 1 2 3 4 5 6 7) };
    ($blocks:literal: $($channel:literal)+) => {
        concat!($("[[limit]]\nchannel = ", $channel, "\nblocks = ", $blocks, "\n"),+)
    };
}

pub(crate) use each_limited;

// The rest of a record in which a million blocks arrive in each of 16 stores, and none can leave.
pub(crate) const MILLIONS: &str =
    ",0,1000000,1000000,1000000,1000000,1000000,1000000,1000000,1000000,1000000,1000000,1000000,1000000,1000000,1000000,1000000,1000000\n";

// A forecast of this number of steps, whose records are alike except for their number.
pub(crate) fn alike_steps(rt: &impl Runtime, header: &str, steps: u32, rest: &str) -> String {
    let records = numbered(rt, "", steps, rest);
    joined(rt, &[header, records.as_str()])
}

// The plan, which fits, with its idle windows used.
pub(crate) fn filled(rt: &impl Runtime, problem: &Problem, plan: &Plan) -> Plan
    requires { HasShape problem.now plan.now }
    ensures { HasShape problem.now result }
{
    assert!(rt; fits(problem, plan).is_ok());
    fill(rt.alloc(), problem, plan).expect(rt, "memory")
}

// Whether some plan of the problem loses less than this.
fn may_lose_less(rt: &impl Runtime, problem: &Problem, loss: u64) -> bool {
    let found = plan_below(rt.alloc(), problem, loss).expect(rt, "memory");
    found.is_some()
}

// The least loss of all plans of the problem is this.
pub(crate) fn is_least(rt: &impl Runtime, problem: &Problem, loss: u64) {
    let more = loss.saturating_add(1);
    let is_least = !may_lose_less(rt, problem, loss) && may_lose_less(rt, problem, more);
    holds(rt, is_least, "the least loss");
}

// The next of the linear congruential numbers, of 24 bits (Numerical Recipes, section 7.1).
fn next_number(state: &mut u32) -> u32 {
    *state = state.wrapping_mul(1_664_525).wrapping_add(1_013_904_223);
    *state >> 8
}

// The next number below a limit.
pub(crate) fn next_below(state: &mut u32, limit: u32) -> u32
    requires { 0 < limit }
    ensures { result < limit }
{
    next_number(state) % limit
}
