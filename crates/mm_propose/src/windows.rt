//! The unused parts of the windows and of the limits of channels.
use crate::sets::CHANNEL_MASK;
use crate::slots::Slot;
use crate::span_sets::{MAX_SPANS, SPAN_MASK, SpanSet};
use crate::spans::Span;
use crate::transfer::{Move, Transfer};
use mm_problem::CHANNELS;

// A number of blocks for each span, and the spans in which it is zero.
#[derive(Clone, Copy)]
struct Rest {
    blocks: [u32; MAX_SPANS],
    none: SpanSet,
}

impl Rest {
    const NOTHING: Rest = Rest {
        blocks: [0; MAX_SPANS],
        none: SpanSet::ALL,
    };

    fn set(&mut self, at: usize, blocks: u32) {
        self.blocks[at & SPAN_MASK] = blocks;
        self.none.put(at, blocks == 0);
    }

    fn of(&self, at: usize) -> u32 {
        self.blocks[at & SPAN_MASK]
    }
}

/// The unused part of each window, and of the limit of each channel in it.
#[derive(Clone, Copy)]
pub(crate) struct Windows {
    count: usize,
    idle: Rest,
    open: [Rest; CHANNELS],
}

impl Windows {
    // The windows before any block leaves.
    pub(crate) fn of(spans: &[Span]) -> Windows {
        let mut windows = Windows {
            count: spans.len(),
            idle: Rest::NOTHING,
            open: [Rest::NOTHING; CHANNELS],
        };
        for (at, span) in spans.iter().enumerate() {
            windows.idle.set(at, span.table.of(Slot::IDLE));
            for channel in 0..CHANNELS {
                windows.open[channel].set(at, span.table.of(Slot::open(channel)));
            }
        }
        windows
    }

    // The number of spans.
    pub(crate) fn count(&self) -> usize {
        self.count
    }

    // The given spans in which more can leave through a channel.
    pub(crate) fn free(&self, channel: usize, some: SpanSet) -> SpanSet {
        some.without(self.idle.none).without(self.closed(channel))
    }

    // The spans in which no more can leave through a channel.
    pub(crate) fn closed(&self, channel: usize) -> SpanSet {
        self.open[channel & CHANNEL_MASK].none
    }

    // How many more blocks can leave through a channel.
    fn open(&self, channel: usize, at: usize) -> u32 {
        self.open[channel & CHANNEL_MASK].of(at)
    }

    // How many blocks of a channel the window takes in a transfer. `after` is the channel of the next store on the
    // path, which gives up its part of the window; without one the unused part of the window is taken.
    pub(crate) fn capacity(
        &self,
        transfer: &Transfer,
        channel: usize,
        after: Option<usize>,
    ) -> u32 {
        match after {
            Some(after) if after == channel => u32::MAX,
            Some(_) => self.open(channel, transfer.to),
            None if transfer.kind == Move::Kept => u32::MAX,
            None => self
                .idle
                .of(transfer.to)
                .min(self.open(channel, transfer.to)),
        }
    }

    // Transfers blocks of a channel, with `after` as for `capacity`.
    pub(crate) fn apply(
        &mut self,
        transfer: &Transfer,
        channel: usize,
        after: Option<usize>,
        blocks: u32,
    ) {
        match after {
            Some(after) if after == channel => {}
            Some(after) => {
                self.add(after, transfer.to, blocks);
                self.take(channel, transfer.to, blocks);
            }
            None if transfer.kind == Move::Kept => {}
            None => {
                let idle = self.idle.of(transfer.to).saturating_sub(blocks);
                self.idle.set(transfer.to, idle);
                self.take(channel, transfer.to, blocks);
            }
        }
    }

    // Lowers the unused limit of a channel.
    fn take(&mut self, channel: usize, at: usize, blocks: u32) {
        let open = self.open(channel, at).saturating_sub(blocks);
        self.open[channel & CHANNEL_MASK].set(at, open);
    }

    // Raises the unused limit of a channel.
    fn add(&mut self, channel: usize, at: usize, blocks: u32) {
        let open = self.open(channel, at).saturating_add(blocks);
        self.open[channel & CHANNEL_MASK].set(at, open);
    }
}
