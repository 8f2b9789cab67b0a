//! The spans that a search reached, by stores and channels.
use crate::sets::{CHANNEL_MASK, STORE_MASK};
use crate::span_sets::SpanSet;
use crate::windows::Windows;
use mm_problem::{CHANNELS, MAX_STORES};

/// The spans that a search reached, by stores and channels.
#[derive(Clone, Copy)]
pub(crate) struct Reached {
    // the spans in which more of each store could leave or be kept,
    stores: [SpanSet; MAX_STORES],
    // the spans in which more could leave through each channel that is closed there,
    closed: [SpanSet; CHANNELS],
    /// The spans in which more could leave through a channel that is open there.
    pub(crate) passes: SpanSet,
}

impl Reached {
    pub(crate) const NOTHING: Reached = Reached {
        stores: [SpanSet::NONE; MAX_STORES],
        closed: [SpanSet::NONE; CHANNELS],
        passes: SpanSet::NONE,
    };

    // The spans in which more of a store could leave or be kept.
    pub(crate) fn of(&self, store: usize) -> SpanSet {
        self.stores[store & STORE_MASK]
    }

    // Adds new spans of a store.
    pub(crate) fn mark(&mut self, store: usize, new: SpanSet) {
        self.stores[store & STORE_MASK] = self.stores[store & STORE_MASK].either(new);
    }

    // Adds new spans of a store, and adds the new exits in these spans.
    pub(crate) fn add(
        &mut self,
        windows: &Windows,
        channel: usize,
        store: usize,
        new: SpanSet,
        exits: &mut Exits,
    ) {
        let channel = channel & CHANNEL_MASK;
        let shut = new.both(windows.closed(channel));
        let passes = new.without(shut).without(self.passes);
        let closed = shut.without(self.closed[channel]);
        self.mark(store, new);
        self.closed[channel] = self.closed[channel].either(closed);
        self.passes = self.passes.either(passes);
        exits.passes = exits.passes.either(passes);
        exits.closed[channel] = exits.closed[channel].either(closed);
        exits.are_none &= passes.is_empty() && closed.is_empty();
    }
}

/// The spans in which, since the last layer, more could leave: through any channel, or through one that is closed
/// there.
#[derive(Clone, Copy)]
pub(crate) struct Exits {
    pub(crate) are_none: bool,
    passes: SpanSet,
    closed: [SpanSet; CHANNELS],
}

impl Exits {
    pub(crate) const NONE: Exits = Exits {
        are_none: true,
        passes: SpanSet::NONE,
        closed: [SpanSet::NONE; CHANNELS],
    };

    // The spans in which stores of a channel could give up capacity.
    pub(crate) fn of(&self, channel: usize) -> SpanSet {
        self.passes.either(self.closed[channel & CHANNEL_MASK])
    }
}
