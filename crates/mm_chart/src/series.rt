//! What a chart draws: a number for each step.

use mm_base::MAX_STEPS;

/// A place for each step that there may be, by its number, one before the first and one after the last.
pub const AMOUNT_PLACES: usize = MAX_STEPS as usize + 2;

/// A number for each step. Stores count from 0 in setup order.
#[derive(Clone, Copy, Debug, PartialEq, Eq)]
pub enum Series {
    /// 1 where the step counts by its window.
    WindowCounts,
    Window,
    /// The window, where the step counts by it.
    CountedWindow,
    /// What leaves all stores.
    Used,
    /// 1 where the step counts by the channel's limit.
    ChannelCounts(u8),
    /// What leaves the stores of a channel.
    Sent(u8),
    /// 1 where the step counts by the limits of channels.
    LimitsCount,
    /// 1 in the inner steps of the stretches of a store.
    Inner(usize),
    /// 1 in the last steps of the stretches of a store.
    Last(usize),
    /// What is left in a store as the step ends, and what leaves it in the step.
    LeftAndSent(usize),
    /// What is left in a store as the step ends.
    Left(usize),
    Lost(usize),
    /// How many blocks a store can hold in the step.
    Size(usize),
    /// How many blocks a larger window saves at most; 0 where that is not known.
    Worth,
    /// How many blocks a higher limit of the channel saves at most, that of the setup or that of the step; 0 where that
    /// is not known.
    Raised(u8),
}
