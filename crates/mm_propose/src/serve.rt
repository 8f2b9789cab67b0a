//! Serves stores in order. Each gets what the stores before it leave of the windows; these give up capacity as long as
//! they lose no more.
use crate::path_search::PathSearch;
use crate::profile::Profile;
use crate::slots::Slot;
use crate::spans::Span;
use crate::stores::Stores;
use crate::windows::Windows;
use mm_plan::NoMemory;
use std::alloc::Global;

// More than the paths that are needed for the blocks which a store loses in a span.
const PATHS: u32 = 1 << 16;

/// The stores that are served so far.
#[derive(Drop)]
pub(crate) struct Service {
    pub(crate) profiles: Vec<Profile>,
    windows: Windows,
    pub(crate) search: PathSearch,
    /// How many blocks the served stores lose.
    pub(crate) lost: u64,
}

impl Service {
    // The service before the first store.
    pub(crate) fn new(alloc: Global, spans: &[Span]) -> Service {
        Service {
            profiles: Vec::new(alloc),
            windows: Windows::of(spans),
            search: PathSearch::new(alloc),
            lost: 0,
        }
    }

    // Serves the next store.
    pub(crate) fn serve(&mut self, stores: &Stores, spans: &[Span]) -> Result<(), NoMemory> {
        let store = self.profiles.len();
        let profile = Profile::new(stores.channel(store), stores.come());
        self.profiles.push(profile)?;
        let mut arrived = 0u32;
        let mut kept = 0u32;
        for (at, span) in spans.iter().enumerate() {
            let all = span.table.of(Slot::arrived(store));
            let size = span.table.of(Slot::room(store));
            let coming = kept.saturating_add(all.saturating_sub(arrived));
            arrived = all;
            kept = coming.min(size);
            let Some(profile) = self.profiles.get_mut(store) else {
                break;
            };
            if profile.receive(at, coming, size) {
                self.save(store, at)?;
            }
        }
        for at in 0..spans.len() {
            self.lost = self.lost.saturating_add(u64::from(self.lost(store, at)));
        }
        Ok(())
    }

    // How many blocks a store loses in a span.
    fn lost(&self, store: usize, at: usize) -> u32 {
        match self.profiles.get(store) {
            Some(profile) => profile.lost(at),
            None => 0,
        }
    }

    // Saves blocks that a store loses in a span, as long as there is a path for them.
    fn save(&mut self, store: usize, at: usize) -> Result<(), NoMemory> {
        for _ in 0..PATHS {
            if self.lost(store, at) == 0 || !self.find_path(store, at)? || self.move_along() == 0 {
                break;
            }
        }
        Ok(())
    }

    // Searches a path for the blocks that a store loses in a span. Returns whether there is one.
    fn find_path(&mut self, store: usize, at: usize) -> Result<bool, NoMemory> {
        self.search
            .find_path(self.profiles.as_slice(), &self.windows, store, at)
    }

    // Moves as many blocks along the path as its capacity allows. Returns their number.
    fn move_along(&mut self) -> u32 {
        let blocks = self.capacity();
        let mut after = None;
        for transfer in self.search.path.iter() {
            if let Some(profile) = self.profiles.get_mut(transfer.store) {
                profile.apply(transfer, blocks);
                self.windows.apply(transfer, profile.channel, after, blocks);
                after = Some(profile.channel);
            }
        }
        blocks
    }

    // How many blocks can be moved along the path.
    fn capacity(&self) -> u32 {
        let mut least = u32::MAX;
        let mut after = None;
        for transfer in self.search.path.iter() {
            if let Some(profile) = self.profiles.get(transfer.store) {
                least = least.min(profile.capacity(transfer));
                least = least.min(self.windows.capacity(transfer, profile.channel, after));
                after = Some(profile.channel);
            }
        }
        least
    }
}
