//! The profile of a store over the spans, and the spans in which its blocks could leave instead.
use crate::span_sets::{MAX_SPANS, SPAN_MASK, SpanSet};
use crate::transfer::{Move, Transfer};
use mm_problem::Arrivals;

/// What a store keeps, dumps and loses in each span.
#[derive(Clone, Copy)]
pub(crate) struct Profile {
    pub(crate) channel: usize,
    come: Arrivals,
    kept: [u32; MAX_SPANS],
    room: [u32; MAX_SPANS],
    dumped: [u32; MAX_SPANS],
    lost: [u32; MAX_SPANS],
    // the spans at whose end it is empty,
    empty: SpanSet,
    // and those in which it is full, after dumps if arrivals come during them, with all spans that are not served yet
    full: SpanSet,
    /// The spans in which blocks leave it.
    pub(crate) leaving: SpanSet,
    /// The spans in which it loses blocks.
    pub(crate) losing: SpanSet,
}

impl Profile {
    // The profile before the first span is served.
    pub(crate) fn new(channel: usize, come: Arrivals) -> Profile {
        Profile {
            channel,
            come,
            kept: [0; MAX_SPANS],
            room: [0; MAX_SPANS],
            dumped: [0; MAX_SPANS],
            lost: [0; MAX_SPANS],
            empty: SpanSet::NONE,
            full: SpanSet::ALL,
            leaving: SpanSet::NONE,
            losing: SpanSet::NONE,
        }
    }

    // Adds blocks in a span, the first that is not served yet. Returns whether some are lost.
    pub(crate) fn receive(&mut self, at: usize, blocks: u32, size: u32) -> bool {
        let held = blocks.min(size);
        self.kept[at & SPAN_MASK] = held;
        self.empty.put(at, held == 0);
        self.room[at & SPAN_MASK] = size.saturating_sub(held);
        self.full.put(at, held == size);
        self.set_lost(at, blocks.saturating_sub(held));
        held < blocks
    }

    // How many blocks leave it in a span.
    pub(crate) fn dumped(&self, at: usize) -> u32 {
        self.dumped[at & SPAN_MASK]
    }

    // How many blocks it loses in a span.
    pub(crate) fn lost(&self, at: usize) -> u32 {
        self.lost[at & SPAN_MASK]
    }

    fn set_lost(&mut self, at: usize, blocks: u32) {
        self.lost[at & SPAN_MASK] = blocks;
        self.losing.put(at, blocks > 0);
    }

    fn set_dumped(&mut self, at: usize, blocks: u32) {
        self.dumped[at & SPAN_MASK] = blocks;
        self.leaving.put(at, blocks > 0);
    }

    // The spans whose rooms are used if more is kept from one span to another.
    fn rooms(&self, from: usize, to: usize) -> (usize, usize) {
        match self.come {
            Arrivals::Before => (from.saturating_add(1), to.saturating_add(1)),
            Arrivals::During => (from, to),
        }
    }

    // The spans that it cannot keep more for: it is full in them, or in the spans before them if arrivals come during
    // dumps.
    fn blocked(&self) -> SpanSet {
        match self.come {
            Arrivals::Before => self.full,
            Arrivals::During => self.full.next(),
        }
    }

    // Whether it could keep more to the end, after the last span.
    pub(crate) fn can_keep(&self, last: usize) -> bool {
        self.come == Arrivals::Before || !self.full.has(last)
    }

    // The spans in which a block that is lost in this span could leave: earlier ones, and this one if arrivals come
    // during dumps.
    pub(crate) fn before(&self, at: usize) -> SpanSet {
        let end = match self.come {
            Arrivals::Before => at,
            Arrivals::During => at.saturating_add(1),
        };
        let first = match self.empty.last_before(at) {
            Some(empty) => empty.saturating_add(1),
            None => 0,
        };
        SpanSet::between(first, end)
    }

    // The spans in which blocks that leave in the given spans could leave: earlier, as long as the store keeps some, or
    // later, as long as it has room.
    pub(crate) fn around(&self, asked: SpanSet) -> SpanSet {
        let later = asked.spread(self.blocked().not());
        later.either(asked.spread_back(self.empty.not()))
    }

    // The nearest of the given spans whose blocks could leave in another span instead.
    pub(crate) fn origin(&self, asked: SpanSet, to: usize) -> usize {
        let end = to.saturating_add(1);
        let first = self.blocked().last_before(end).unwrap_or(0);
        let last = self.empty.first_from(to).unwrap_or(MAX_SPANS);
        let way = SpanSet::between(first, end).either(SpanSet::between(to, last.saturating_add(1)));
        asked.both(way).nearest(to).unwrap_or(to)
    }

    // The transfer of blocks from one span to another.
    pub(crate) fn transfer(&self, kind: Move, store: usize, from: usize, to: usize) -> Transfer {
        let most = self.most(kind, from, to);
        Transfer {
            kind,
            store,
            from,
            to,
            most,
        }
    }

    // How many blocks can be transferred.
    pub(crate) fn capacity(&self, transfer: &Transfer) -> u32 {
        match transfer.kind {
            Move::Saved => transfer.most.min(self.lost(transfer.from)),
            Move::Shifted | Move::Kept => transfer.most.min(self.dumped(transfer.from)),
        }
    }

    // How many blocks can leave in the span `to`, or be kept after it, in place of `from`.
    fn most(&self, kind: Move, from: usize, to: usize) -> u32 {
        if to < from {
            return least_in(&self.kept, to, from);
        }
        let (first, end) = self.rooms(from, to);
        let least = least_in(&self.room, first, end);
        if kind == Move::Kept && self.come == Arrivals::During {
            least.min(self.room[to & SPAN_MASK])
        } else {
            least
        }
    }

    // Keeps fewer blocks from one span to another. At most `most` can be taken.
    fn keep_less(&mut self, first: usize, end: usize, blocks: u32, most: u32) {
        let (next, after) = self.rooms(first, end);
        change(&mut self.room, next, after, blocks);
        self.full = self.full.without(SpanSet::between(next, after));
        change(&mut self.kept, first, end, 0u32.wrapping_sub(blocks));
        if blocks == most {
            self.empty = self.empty.either(none_in(&self.kept, first, end));
        }
    }

    // Keeps more blocks from one span to another. At most `most` can be added.
    fn keep_more(&mut self, first: usize, end: usize, blocks: u32, most: u32) {
        let (next, after) = self.rooms(first, end);
        change(&mut self.kept, first, end, blocks);
        self.empty = self.empty.without(SpanSet::between(first, end));
        change(&mut self.room, next, after, 0u32.wrapping_sub(blocks));
        if blocks == most {
            self.full = self.full.either(none_in(&self.room, next, after));
        }
    }

    // Keeps more blocks after the last span.
    fn keep_after(&mut self, last: usize, blocks: u32) {
        let at = last & SPAN_MASK;
        self.kept[at] = self.kept[at].saturating_add(blocks);
        self.empty.remove(last);
        if self.come == Arrivals::During {
            self.room[at] = self.room[at].saturating_sub(blocks);
            self.full.put(last, self.room[at] == 0);
        }
    }

    // Transfers blocks.
    pub(crate) fn apply(&mut self, transfer: &Transfer, blocks: u32) {
        let Transfer { from, to, most, .. } = *transfer;
        if to < from {
            self.keep_less(to, from, blocks, most);
        } else {
            self.keep_more(from, to, blocks, most);
        }
        match transfer.kind {
            Move::Saved => {
                let lost = self.lost(from).saturating_sub(blocks);
                self.set_lost(from, lost);
                self.room[from & SPAN_MASK] = 0;
                self.full.add(from);
            }
            Move::Shifted | Move::Kept => {
                let dumped = self.dumped(from).saturating_sub(blocks);
                self.set_dumped(from, dumped);
            }
        }
        match transfer.kind {
            Move::Kept => {
                self.keep_after(to, blocks);
            }
            Move::Saved | Move::Shifted => {
                let dumped = self.dumped(to).saturating_add(blocks);
                self.set_dumped(to, dumped);
            }
        }
    }
}

// The least amount of some spans, `u32::MAX` if there are none.
fn least_in(amounts: &[u32; MAX_SPANS], first: usize, end: usize) -> u32 {
    let mut least = u32::MAX;
    if let Some(some) = amounts.get(first..end) {
        for blocks in some {
            least = least.min(*blocks);
        }
    }
    least
}

// The spans from `first` to before `end` whose amount is zero.
fn none_in(amounts: &[u32; MAX_SPANS], first: usize, end: usize) -> SpanSet {
    let mut none = SpanSet::NONE;
    if let Some(some) = amounts.get(first..end) {
        for (place, blocks) in some.iter().enumerate() {
            if *blocks == 0 {
                none.add(first.saturating_add(place));
            }
        }
    }
    none
}

// Adds a number to the amounts of some spans, with wrapping.
fn change(amounts: &mut [u32; MAX_SPANS], first: usize, end: usize, more: u32) {
    if let Some(some) = amounts.get_mut(first..end) {
        for blocks in some.iter_mut() {
            *blocks = blocks.wrapping_add(more);
        }
    }
}
