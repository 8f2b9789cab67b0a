//! Moves lost blocks along the paths that a search found.
use crate::node::Node;
use crate::paths::{Change, Link, link_to, lost_to};
use crate::spans::Span;
use crate::stores::Stores;
use mm_plan::NoMemory;
use std::alloc::Global;

// More than the arcs that can be walked after one search.
const WALKS: u32 = 1 << 22;

// After more dead ends than this a new search is cheaper.
const DEAD_ENDS: u32 = 1024;

/// The current path, and the results of the walks since the last search.
#[derive(Drop)]
pub(crate) struct Walks {
    path: Vec<Link>,
    dead_ends: u32,
    have_moved: bool,
}

impl Walks {
    pub(crate) fn new(alloc: Global) -> Walks {
        Walks {
            path: Vec::new(alloc),
            dead_ends: 0,
            have_moved: false,
        }
    }

    // Whether blocks were moved, and a new search is the cheaper way to move more.
    fn are_over(&self) -> bool {
        self.have_moved && self.dead_ends > DEAD_ENDS
    }
}

// How many arcs of a path stand before the first full one.
fn open_arcs(stores: &Stores, spans: &[Span], path: &[Link]) -> usize {
    path.iter()
        .position(|link| link.capacity(stores, spans) == 0)
        .unwrap_or(path.len())
}

// The bottleneck of a path: how many blocks all its arcs can take.
fn bottleneck_of(stores: &Stores, spans: &[Span], path: &[Link]) -> u32 {
    let mut most = u32::MAX;
    for link in path.iter() {
        most = most.min(link.capacity(stores, spans));
    }
    most
}

// Moves as many blocks along the path as its bottleneck allows, and shortens it to the arcs before the first full one.
fn move_along(stores: &Stores, spans: &mut [Span], walks: &mut Walks) {
    let blocks = bottleneck_of(stores, spans, walks.path.as_slice());
    for link in walks.path.iter() {
        if let Some(span) = spans.get_mut(link.span) {
            link.change.apply(stores, span, blocks);
        }
    }
    let open_arcs = open_arcs(stores, spans, walks.path.as_slice());
    walks.path.truncate(open_arcs);
    walks.have_moved = true;
}

// Removes the node that the walk has reached from what was found, since no arc leads to it, and the last arc from the
// path.
fn step_forward(spans: &mut [Span], walks: &mut Walks) {
    if let Some(link) = walks.path.pop() {
        if let Some(span) = spans.get_mut(link.from.span) {
            span.found.forget(link.from.node);
        }
    }
    walks.dead_ends = walks.dead_ends.saturating_add(1);
}

// Walks back from an arc to lost blocks, and moves them along the path, until the arc is full or no path leads to it.
fn move_to(
    stores: &Stores,
    spans: &mut [Span],
    walks: &mut Walks,
    last: Link,
) -> Result<(), NoMemory> {
    walks.path.clear();
    walks.path.push(last)?;
    for _ in 0..WALKS {
        let Some(link) = walks.path.last() else {
            break;
        };
        let place = link.from;
        if walks.are_over() {
            break;
        }
        if let Some(link) = lost_to(spans, place) {
            walks.path.push(link)?;
            move_along(stores, spans, walks);
        } else if let Some(link) = link_to(stores, spans, place) {
            walks.path.push(link)?;
        } else {
            step_forward(spans, walks);
        }
    }
    Ok(())
}

// Whether a search found the node at the start of an arc, and the arc has capacity.
fn is_reached(stores: &Stores, spans: &[Span], link: &Link) -> bool {
    match spans.get(link.from.span) {
        Some(span) => { span.found.nodes().has(link.from.node) && link.capacity(stores, spans) > 0 }
        None => false,
    }
}

/// Moves lost blocks to unused parts of windows, and to what the stores keep at the end of the plan. Returns whether
/// any block was moved.
pub(crate) fn move_lost(
    stores: &Stores,
    spans: &mut [Span],
    walks: &mut Walks,
) -> Result<bool, NoMemory> {
    walks.dead_ends = 0;
    walks.have_moved = false;
    for at in 0..spans.len() {
        let pass = Link::new(at, Node::Pass, Change::IdleLess);
        if is_reached(stores, spans, &pass) {
            move_to(stores, spans, walks, pass)?;
        }
    }
    for store in 0..stores.count() {
        let last = spans.len().saturating_sub(1);
        let end = Link::new(last, Node::Out(store), Change::KeepMore(store));
        if is_reached(stores, spans, &end) {
            move_to(stores, spans, walks, end)?;
        }
    }
    Ok(walks.have_moved)
}
