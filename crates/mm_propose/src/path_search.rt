//! The search for spans in which lost blocks of a store could leave if stores before it give up capacity. It takes all
//! spans at once, layer by layer.
use crate::profile::Profile;
use crate::reached::{Exits, Reached};
use crate::span_sets::SpanSet;
use crate::transfer::{Move, Transfer};
use crate::windows::Windows;
use mm_plan::NoMemory;
use std::alloc::Global;

// More than the layers of a search, and than the stores that it asks.
const LAYERS: usize = 1 << 16;

// A store that was asked to give up capacity.
#[derive(Clone, Copy)]
struct Asked {
    layer: usize,
    store: usize,
    // the spans in which its blocks would no longer leave,
    asked: SpanSet,
    // and the spans, new in this search, in which they could leave instead
    new: SpanSet,
}

impl Asked {
    // The store that loses blocks, and the earlier spans in which they could leave.
    fn first(store: usize, new: SpanSet) -> Asked {
        Asked {
            layer: 0,
            store,
            asked: SpanSet::NONE,
            new,
        }
    }
}

// The end of a path, at the store that was asked last.
#[derive(Clone, Copy)]
struct End {
    kind: Move,
    to: usize,
}

/// A search, and what it reached.
#[derive(Drop)]
pub(crate) struct PathSearch {
    reached: Reached,
    // the store that loses blocks, then the stores that were asked
    list: Vec<Asked>,
    /// The path, from its end back to the lost blocks.
    pub(crate) path: Vec<Transfer>,
    /// What was reached by the searches that found no path.
    pub(crate) exhausted: Reached,
}

impl PathSearch {
    pub(crate) fn new(alloc: Global) -> PathSearch {
        PathSearch {
            reached: Reached::NOTHING,
            list: Vec::new(alloc),
            path: Vec::new(alloc),
            exhausted: Reached::NOTHING,
        }
    }

    // Searches a path for the blocks that a store loses in a span. Returns whether there is one.
    pub(crate) fn find_path(
        &mut self,
        profiles: &[Profile],
        windows: &Windows,
        store: usize,
        at: usize,
    ) -> Result<bool, NoMemory> {
        self.path.clear();
        let Some(profile) = profiles.get(store) else {
            return Ok(false);
        };
        let new = profile.before(at).without(self.exhausted.of(store));
        if new.is_empty() {
            return Ok(false);
        }
        if let Some(to) = windows.free(profile.channel, new).last() {
            self.path
                .push(profile.transfer(Move::Saved, store, at, to))?;
            return Ok(true);
        }
        let mut exits = Exits::NONE;
        self.reached
            .add(windows, profile.channel, store, new, &mut exits);
        if exits.are_none {
            self.exhausted.mark(store, new);
            return Ok(false);
        }
        self.list.clear();
        self.list.push(Asked::first(store, new))?;
        if let Some(end) = self.search(profiles, windows, exits)? {
            self.reached = self.exhausted;
            self.trace(profiles, windows, end, at)?;
            return Ok(true);
        }
        self.exhausted = self.reached;
        Ok(false)
    }

    // Asks stores, layer by layer, until a path can end at one. Returns its end, if there is one.
    fn search(
        &mut self,
        profiles: &[Profile],
        windows: &Windows,
        exits: Exits,
    ) -> Result<Option<End>, NoMemory> {
        let mut exits = exits;
        for layer in 1..LAYERS {
            if exits.are_none {
                break;
            }
            let first = self.list.len();
            let end = self.ask(profiles, windows, &exits, layer)?;
            if end.is_some() {
                return Ok(end);
            }
            exits = self.reach(profiles, windows, first);
        }
        Ok(None)
    }

    // Adds what is new of the stores from a place of the list on. Returns the spans in which more could leave than
    // before.
    fn reach(&mut self, profiles: &[Profile], windows: &Windows, first: usize) -> Exits {
        let mut exits = Exits::NONE;
        for place in first..self.list.len() {
            let Some(Asked { store, new, .. }) = self.list.get(place).copied() else {
                break;
            };
            if let Some(profile) = profiles.get(store) {
                self.reached
                    .add(windows, profile.channel, store, new, &mut exits);
            }
        }
        exits
    }

    // Asks stores to give up capacity where more could leave. Returns the end of a path, if one of them has it.
    fn ask(
        &mut self,
        profiles: &[Profile],
        windows: &Windows,
        exits: &Exits,
        layer: usize,
    ) -> Result<Option<End>, NoMemory> {
        for (store, profile) in profiles.iter().enumerate() {
            let reached = self.reached.of(store);
            let asked = exits
                .of(profile.channel)
                .both(profile.leaving)
                .without(reached);
            if asked.is_empty() {
                continue;
            }
            let new = profile.around(asked).without(reached);
            self.list.push(Asked {
                layer,
                store,
                asked,
                new,
            })?;
            let end = end_in(profile, windows, asked, new);
            if end.is_some() {
                return Ok(end);
            }
        }
        Ok(None)
    }

    // Traces the path from its end back to the blocks that are lost in a span.
    fn trace(
        &mut self,
        profiles: &[Profile],
        windows: &Windows,
        end: End,
        at: usize,
    ) -> Result<(), NoMemory> {
        let End { mut kind, mut to } = end;
        let mut asked = None;
        for _ in 0..LAYERS {
            let Some(last) = self.list.pop() else {
                break;
            };
            let Some(profile) = profiles.get(last.store) else {
                break;
            };
            if !is_asker(&last, asked, profile.channel, windows, to) {
                continue;
            }
            if last.layer == 0 {
                self.path
                    .push(profile.transfer(Move::Saved, last.store, at, to))?;
                break;
            }
            let from = profile.origin(last.asked, to);
            self.path
                .push(profile.transfer(kind, last.store, from, to))?;
            kind = Move::Shifted;
            to = from;
            asked = Some((last.layer, profile.channel));
        }
        Ok(())
    }
}

// Whether a store of a channel asked the next store of the path, given by its layer and channel, to give up capacity in
// a span. The store at the end of the path has no next one.
fn is_asker(
    asker: &Asked,
    asked: Option<(usize, usize)>,
    channel: usize,
    windows: &Windows,
    at: usize,
) -> bool {
    match asked {
        Some((layer, other)) => {
            asker.layer < layer
                && asker.new.has(at)
                && (channel == other || !windows.closed(channel).has(at))
        }
        None => true,
    }
}

// The end of a path in a new span of a store, if there is one.
fn end_in(profile: &Profile, windows: &Windows, asked: SpanSet, new: SpanSet) -> Option<End> {
    let free = windows.free(profile.channel, new);
    if !free.is_empty() {
        let to = free.nearest(asked.last()?)?;
        let kind = Move::Shifted;
        return Some(End { kind, to });
    }
    let to = windows.count().saturating_sub(1);
    if new.has(to) && profile.can_keep(to) {
        let kind = Move::Kept;
        return Some(End { kind, to });
    }
    None
}
