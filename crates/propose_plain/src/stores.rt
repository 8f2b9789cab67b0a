//! The stores of a problem, as tables.
ghost use Rattle.std.specs.Prelude.{◌<◌};

use crate::amounts::Amounts;
use crate::sets::StoreSet;
use mm_problem::{CHANNELS, MAX_STORES, Problem};

/// The stores of a problem with their sizes and channels.
#[derive(Clone, Copy)]
pub(crate) struct Stores {
    count: usize,
    sizes: Amounts,
    channels: [u8; MAX_STORES],
    by_channel: [StoreSet; CHANNELS],
}

impl Stores {
    // The stores of a problem.
    pub(crate) fn of(problem: &Problem) -> Stores {
        let count = problem.stores();
        let mut sizes = Amounts::NOTHING;
        let mut channels = [0; MAX_STORES];
        let mut by_channel = [StoreSet::NONE; CHANNELS];
        for store in 0..count {
            let channel = problem.channel(store);
            sizes.set(store, problem.setup_size(store));
            channels[store & 15] = channel;
            let others = by_channel[channel as usize & 7];
            by_channel[channel as usize & 7] = others.with(store);
        }
        Stores {
            count,
            sizes,
            channels,
            by_channel,
        }
    }

    pub(crate) fn count(&self) -> usize {
        self.count
    }

    pub(crate) fn size(&self, store: usize) -> u32 {
        self.sizes.of(store)
    }

    // The channel of a store.
    pub(crate) fn channel(&self, store: usize) -> usize {
        self.channels[store & 15] as usize
    }

    // The stores of a channel.
    pub(crate) fn of_channel(&self, channel: usize) -> StoreSet {
        self.by_channel[channel & 7]
    }
}
