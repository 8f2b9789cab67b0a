//! The stores of a problem, as tables.
use crate::sets::{CHANNEL_MASK, STORE_MASK, StoreSet};
use mm_problem::{Arrivals, CHANNELS, MAX_STORES, Problem};

/// The stores of a problem with their channels, and with their sizes where these are the same in each step.
#[derive(Clone, Copy)]
pub(crate) struct Stores {
    count: usize,
    come: Arrivals,
    sizes: [Option<u32>; MAX_STORES],
    channels: [u8; MAX_STORES],
    by_channel: [StoreSet; CHANNELS],
}

impl Stores {
    // The stores of a problem.
    pub(crate) fn of(problem: &Problem) -> Stores {
        let count = problem.stores();
        let mut sizes = [None; MAX_STORES];
        let mut channels = [0; MAX_STORES];
        let mut by_channel = [StoreSet::NONE; CHANNELS];
        for store in 0..count {
            let channel = problem.channel(store);
            sizes[store & STORE_MASK] = problem.one_size(store);
            channels[store & STORE_MASK] = channel;
            let others = by_channel[channel as usize & CHANNEL_MASK];
            by_channel[channel as usize & CHANNEL_MASK] = others.with(store);
        }
        Stores {
            count,
            come: problem.come(),
            sizes,
            channels,
            by_channel,
        }
    }

    pub(crate) fn count(&self) -> usize {
        self.count
    }

    // When a span's arrivals come.
    pub(crate) fn come(&self) -> Arrivals {
        self.come
    }

    // The size of a store, if it is the same in each step.
    pub(crate) fn size(&self, store: usize) -> Option<u32> {
        self.sizes[store & STORE_MASK]
    }

    // The channel of a store.
    pub(crate) fn channel(&self, store: usize) -> usize {
        self.channels[store & STORE_MASK] as usize
    }

    // The stores of a channel.
    pub(crate) fn of_channel(&self, channel: usize) -> StoreSet {
        self.by_channel[channel & CHANNEL_MASK]
    }
}
