//! Moves lost blocks along the paths that a search found.
use crate::paths::{Link, link_to, lost_to};
use crate::spans::Span;
use crate::stores::Stores;
use mm_plan::NoMemory;
use std::alloc::Global;

// More than the arcs that can be walked after one search.
const WALKS: u32 = 1 << 22;

// After more dead ends than this a new search is cheaper.
const DEAD_ENDS: u32 = 1024;

/// The current path, and the results of the walks since the last search.
#[derive(Drop)]
pub(crate) struct Walks {
    path: Vec<Link>,
    dead_ends: u32,
    have_moved: bool,
}

impl Walks {
    pub(crate) fn new(alloc: Global) -> Walks {
        Walks {
            path: Vec::new(alloc),
            dead_ends: 0,
            have_moved: false,
        }
    }

    // Whether blocks were moved, and a new search is the cheaper way to move more.
    fn are_over(&self) -> bool {
        self.have_moved && self.dead_ends > DEAD_ENDS
    }

    // The bottleneck of the path: how many blocks all its arcs can take.
    fn bottleneck(&self) -> u32 {
        match self.path.last() {
            Some(link) => link.bottleneck,
            None => u32::MAX,
        }
    }

    // Adds an arc to the path.
    fn walk(&mut self, spans: &[Span], link: Link) -> Result<(), NoMemory> {
        let mut link = link;
        link.bottleneck = self.bottleneck().min(link.capacity(spans));
        self.path.push(link)?;
        Ok(())
    }

    // Moves as many blocks along the path as its bottleneck allows, and shortens it to the arcs before the first full
    // one. The path visits no node twice, so each arc is used once.
    fn move_along(&mut self, spans: &mut [Span]) {
        let blocks = self.bottleneck();
        let mut least = u32::MAX;
        let mut open = 0;
        for link in self.path.as_mut_slice().iter_mut() {
            least = least.min(link.apply(spans, blocks));
            link.bottleneck = least;
            open = usize::saturating_add(open, usize::from(least > 0));
        }
        self.path.truncate(open);
        self.have_moved = true;
    }

    // Removes the node that the walk has reached from what was found, since no arc leads to it, and the last arc from
    // the path.
    fn step_forward(&mut self, spans: &mut [Span]) {
        if let Some(link) = self.path.pop() {
            if let Some(span) = spans.get_mut(link.from.span) {
                span.found.forget(link.from.node);
            }
        }
        self.dead_ends = self.dead_ends.saturating_add(1);
    }
}

// Walks back from an arc to lost blocks, and moves them along the path, until the arc is full or no path leads to it.
fn move_to(
    stores: &Stores,
    spans: &mut [Span],
    walks: &mut Walks,
    last: Link,
) -> Result<(), NoMemory> {
    walks.path.clear();
    walks.walk(spans, last)?;
    for _ in 0..WALKS {
        let Some(link) = walks.path.last() else {
            break;
        };
        let place = link.from;
        if walks.are_over() {
            break;
        }
        if let Some(link) = lost_to(spans, place) {
            walks.walk(spans, link)?;
            walks.move_along(spans);
        } else if let Some(link) = link_to(stores, spans, place) {
            walks.walk(spans, link)?;
        } else {
            walks.step_forward(spans);
        }
    }
    Ok(())
}

// Whether a search found the node at the start of an arc, and the arc has capacity.
fn is_reached(spans: &[Span], link: &Link) -> bool {
    match spans.get(link.from.span) {
        Some(span) => span.found.nodes().has(link.from.node) && link.capacity(spans) > 0,
        None => false,
    }
}

/// Moves lost blocks to unused parts of windows, and to what the stores keep at the end of the plan. Returns whether
/// any block was moved.
pub(crate) fn move_lost(
    stores: &Stores,
    spans: &mut [Span],
    walks: &mut Walks,
) -> Result<bool, NoMemory> {
    walks.dead_ends = 0;
    walks.have_moved = false;
    for at in 0..spans.len() {
        let pass = Link::into_window(at);
        if is_reached(spans, &pass) {
            move_to(stores, spans, walks, pass)?;
        }
    }
    for store in 0..stores.count() {
        let end = Link::keep_more(spans.len().saturating_sub(1), store);
        if is_reached(spans, &end) {
            move_to(stores, spans, walks, end)?;
        }
    }
    Ok(walks.have_moved)
}
