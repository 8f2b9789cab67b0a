//! Where things stand in a chart, in units of the picture. Down is greater.
ghost use Rattle.std.specs.Prelude.{◌≡◌, ◌+◌, ◌-◌, ◌*◌, ◌/◌, ◌<◌, ◌≤◌, ◌^◌, length};
ghost use Rattle.mm_base.specs.declared.limits.TheConstants.{MAX_STORES, MAX_STEPS};
ghost use Rattle.mm_problem.specs.Dumping.{IsDumping};
ghost use Rattle.mm_chart.specs.Layout.{step_width, steps_width, limits_below, is_limited, has_limit, channel_base};
ghost use Rattle.mm_chart.specs.Layout.{store_base, bottom, word_line, room_of, base_of, IsPlaced, tick_every};

use crate::picture::Picture;
use crate::series::Series;
use mm_problem::Problem;

/// Where steps begin, from the left.
pub const LEFT: u32 = 180;
/// The width of all steps together, at most.
pub const ROOM: u32 = 768;
/// The greatest width of a step.
pub const MAX_WIDTH: u32 = 96;
/// The line on which the windows stand.
pub const WINDOW_BASE: u32 = 144;
/// From one channel's line to the next.
pub const CHANNEL_PITCH: u32 = 30;
/// From one store's line to the next.
pub const STORE_PITCH: u32 = 48;
/// The height of a row of windows or of a store.
pub const TALL: u32 = 32;
/// The height of a row of a channel.
pub const THIN: u32 = 18;
/// The height of the greatest loss of any store.
pub const LOSS: u32 = 10;
/// The height of the most that a larger window or limit saves.
pub const SAVED: u32 = 8;
/// The line of the words about windows.
pub const SAVED_AT: u32 = 111;
/// How far the words about a channel's limit stand above its line.
pub const RAISED_AT: u32 = 19;
/// How far the words about a store's size stand above its line.
pub const LARGER_AT: u32 = 33;
/// How far the marks of a cut reach over a row, above and below.
pub const OVER: u32 = 4;
/// Where the names of rows end.
pub const NAME_AT: u32 = 172;
/// The line of the ticks.
pub const TICK_AT: u32 = 96;
/// The line of the headline.
pub const HEADLINE_AT: u32 = 30;
/// How far the words stand below the last row.
pub const WORDS_BELOW: u32 = 36;
/// From one line of words to the next.
pub const LINE_PITCH: u32 = 20;
/// Where lines of words begin.
pub const MARGIN: u32 = 16;

// The width of a step.
pub(crate) fn step_width(problem: &Problem) -> u32
    ensures width { result ≡ step_width problem.now }
    ensures most { result ≤ MAX_WIDTH }
{
    MAX_WIDTH.min(ROOM / problem.steps())
}

// The width of all steps together.
#[tactic(auto, unfolding(crate::specs::Layout::steps_width))]
pub(crate) fn steps_width(problem: &Problem) -> u32
    ensures width { result ≡ steps_width problem.now }
    ensures most { result ≤ MAX_WIDTH * MAX_STEPS }
{
    step_width(problem) * problem.steps()
}

// The right edge of a step where steps have this width; of step 0 it is where the first begins.
pub(crate) fn edge_at(width: u32, step: u32) -> u32
    requires width { width ≤ MAX_WIDTH }
    requires step { step ≤ MAX_STEPS }
    ensures edge { result ≡ LEFT + width * step }
    ensures least { LEFT ≤ result }
    ensures most { result ≤ LEFT + MAX_WIDTH * MAX_STEPS }
{
    LEFT + width * step
}

// 1 where the channel has a limit: in each step or in none.
pub(crate) fn has_limit(problem: &Problem, channel: u8) -> u32
    ensures limit { result ≡ has_limit problem.now channel }
    ensures most { result ≤ 1 }
{
    // there is a first step
    prove!(1 <= problem.steps());
    u32::from(problem.limit(channel, 1).is_some())
}

// How many of the channels below this one have a limit.
#[tactic(auto, using(mm_base::proofs::RangeSums::sum_by_range_more))]
pub(crate) fn limits_below(problem: &Problem, channel: u8) -> u32
    ensures count { result ≡ limits_below problem.now channel }
    ensures most { result ≤ channel }
{
    let mut count: u32 = 0;
    for other in 0..channel {
        count += has_limit(problem, other);
    }
    count
}

// Whether a channel has a limit.
pub(crate) fn is_limited(problem: &Problem) -> bool
    ensures { result ≡ is_limited problem.now }
{
    limits_below(problem, problem.channels()) > 0
}

// The line on which a channel's row stands.
pub(crate) fn channel_base(problem: &Problem, channel: u8) -> u32
    ensures base { result ≡ channel_base problem.now channel }
    ensures least { WINDOW_BASE ≤ result }
    ensures most { result ≤ WINDOW_BASE + CHANNEL_PITCH * 257 }
{
    WINDOW_BASE + CHANNEL_PITCH * (limits_below(problem, channel) + 1)
}

// The line on which a store's row stands.
pub(crate) fn store_base(problem: &Problem, store: usize) -> u32
    requires { store < MAX_STORES }
    ensures base { result ≡ store_base problem.now store }
    ensures least { WINDOW_BASE + STORE_PITCH ≤ result }
    ensures most { result ≤ WINDOW_BASE + CHANNEL_PITCH * 8 + STORE_PITCH * MAX_STORES }
{
    WINDOW_BASE
        + CHANNEL_PITCH * limits_below(problem, problem.channels())
        + STORE_PITCH * (store as u32 + 1)
}

// The line of the last row.
pub(crate) fn bottom(problem: &Problem) -> u32
    ensures bottom { result ≡ bottom problem.now }
    ensures least { WINDOW_BASE ≤ result }
    ensures most { result ≤ WINDOW_BASE + CHANNEL_PITCH * 8 + STORE_PITCH * MAX_STORES }
{
    store_base(problem, problem.stores() - 1)
}

// A line of words below the rows.
pub(crate) fn word_line(problem: &Problem, line: u32) -> u32
    requires { line ≤ 25 }
    ensures line { result ≡ word_line problem.now line }
    ensures most { result < 2 ^ 20 }
{
    bottom(problem) + WORDS_BELOW + LINE_PITCH * line
}

// The height in which the whole of a series is drawn.
pub(crate) fn room_of(series: Series) -> u32
    ensures room { result ≡ room_of series }
    ensures most { result ≤ 40 }
{
    match series {
        Series::WindowCounts | Series::Inner(_) | Series::Last(_) => TALL + 2 * OVER,
        Series::ChannelCounts(_) => THIN + 2 * OVER,
        Series::Sent(_) => THIN,
        Series::Lost(_) => LOSS,
        Series::Worth | Series::Raised(_) => SAVED,
        _ => TALL,
    }
}

// The line on which a series stands.
pub(crate) fn base_of(problem: &Problem, series: Series) -> u32
    requires { IsPlaced series }
    ensures base { result ≡ base_of problem.now series }
    ensures least { 96 ≤ result }
    ensures most { result ≤ 2 * WINDOW_BASE + CHANNEL_PITCH * 257 + STORE_PITCH * MAX_STORES }
{
    match series {
        Series::WindowCounts => WINDOW_BASE + OVER,
        Series::ChannelCounts(channel) => channel_base(problem, channel) + OVER,
        Series::Sent(channel) => channel_base(problem, channel),
        Series::Inner(store) | Series::Last(store) => store_base(problem, store) + OVER,
        Series::Lost(store) => store_base(problem, store) - TALL,
        Series::Worth => WINDOW_BASE - TALL,
        Series::Raised(channel) => channel_base(problem, channel) - THIN,
        Series::LeftAndSent(store) | Series::Left(store) | Series::Size(store) => {
            store_base(problem, store)
        }
        _ => WINDOW_BASE,
    }
}

// From one tick to the next, in steps.
pub(crate) fn tick_every(steps: u32) -> u32
    ensures every { result ≡ tick_every steps }
    ensures some { 1 ≤ result }
{
    match steps {
        0..=12 => 1,
        13..=24 => 2,
        25..=60 => 5,
        61..=120 => 10,
        _ => 20,
    }
}
