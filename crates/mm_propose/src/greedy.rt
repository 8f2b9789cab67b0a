//! A first plan, span by span: each window goes first to the store that overflows next.
use crate::amounts::Amounts;
use crate::sets::{STORE_MASK, StoreSet};
use crate::slots::{Slot, Table};
use crate::span_sets::{MAX_SPANS, SPAN_MASK, SpanSet};
use crate::spans::Span;
use crate::stores::Stores;
use mm_problem::{Arrivals, MAX_STORES};

// When each store overflows next if no more blocks leave it.
#[derive(Clone, Copy)]
struct Outlook {
    // the blocks of each store that have left or were lost so far,
    removed: Amounts,
    // the span of its next overflow, or the number of spans if there is none,
    due: [usize; MAX_STORES],
    // the number of blocks by which it overflows,
    blocks: Amounts,
    // the stores whose next overflow is in each span,
    calendar: [StoreSet; MAX_SPANS],
    // and the spans in which a store overflows next
    busy: SpanSet,
}

impl Outlook {
    // The outlook at the start of the first span.
    fn of(stores: &Stores, spans: &[Span]) -> Outlook {
        let mut outlook = Outlook {
            removed: Amounts::NOTHING,
            due: [0; MAX_STORES],
            blocks: Amounts::NOTHING,
            calendar: [StoreSet::NONE; MAX_SPANS],
            busy: SpanSet::NONE,
        };
        for store in 0..stores.count() {
            outlook.look_ahead(stores, spans, store, 0);
        }
        outlook
    }

    // The stores whose next overflow is in a span.
    fn due_in(&self, span: usize) -> StoreSet {
        self.calendar[span & SPAN_MASK]
    }

    // Removes a store from the calendar.
    fn take_out(&mut self, store: usize) {
        let due = self.due[store & STORE_MASK];
        let others = self.due_in(due).without(store);
        self.calendar[due & SPAN_MASK] = others;
        if others.is_empty() {
            self.busy.remove(due);
        }
    }

    // Enters the next overflow of a store in the calendar.
    fn enter(&mut self, store: usize, span: usize, blocks: u32) {
        self.due[store & STORE_MASK] = span;
        self.blocks.set(store, blocks);
        self.calendar[span & SPAN_MASK] = self.due_in(span).with(store);
        self.busy.add(span);
    }

    // Finds the next overflow of a store, which is not before the span.
    fn look_ahead(&mut self, stores: &Stores, spans: &[Span], store: usize, from: usize) {
        self.take_out(store);
        self.due[store & STORE_MASK] = spans.len();
        match stores.size(store) {
            Some(size) => self.look_by_size(spans, store, from, size),
            None => self.look_by_sizes(spans, store, from),
        }
    }

    // Finds the next overflow of a store whose size is the same in each span.
    fn look_by_size(&mut self, spans: &[Span], store: usize, from: usize, size: u32) {
        let capacity = size.saturating_add(self.removed.of(store));
        for k in from..spans.len() {
            let blocks = spans[k]
                .table
                .of(Slot::arrived(store))
                .saturating_sub(capacity);
            if blocks > 0 {
                self.enter(store, k, blocks);
                break;
            }
        }
    }

    // Finds the next overflow of a store with another size in each span. No blocks have arrived in these spans yet.
    fn look_by_sizes(&mut self, spans: &[Span], store: usize, from: usize) {
        let removed = self.removed.of(store);
        for k in from..spans.len() {
            let table = &spans[k].table;
            let capacity = table.of(Slot::room(store)).saturating_add(removed);
            let blocks = table.of(Slot::arrived(store)).saturating_sub(capacity);
            if blocks > 0 {
                self.enter(store, k, blocks);
                break;
            }
        }
    }

    // Records that blocks leave a store.
    fn leave(&mut self, stores: &Stores, spans: &[Span], store: usize, blocks: u32) {
        self.removed.add(store, blocks);
        self.look_ahead(stores, spans, store, self.due[store & STORE_MASK]);
    }
}

// How many more blocks of a store can leave in a span.
fn room(stores: &Stores, table: &Table, store: usize) -> u32 {
    let open = table.of(Slot::open(stores.channel(store)));
    let kept = table.of(Slot::kept(store));
    open.min(table.of(Slot::IDLE)).min(kept)
}

// Adds the arrivals of a span to a store, which keeps all that it can hold. Returns the number of lost blocks.
fn arrive(table: &mut Table, store: usize, removed: u32) -> u32 {
    let coming = table.of(Slot::arrived(store)).saturating_sub(removed);
    hold(table, store, coming)
}

// Cuts what is in a store to its size. Returns the number of lost blocks.
#[inline(always)]
fn hold(table: &mut Table, store: usize, coming: u32) -> u32 {
    let size = table.of(Slot::room(store));
    let held = coming.min(size);
    let lost = coming.saturating_sub(held);
    table.set(Slot::lost(store), lost);
    table.set(Slot::room(store), size.saturating_sub(held));
    table.set(Slot::held(store), held);
    table.set(Slot::kept(store), held);
    lost
}

// Moves blocks out of a store, through its channel.
fn dump(table: &mut Table, store: usize, channel: usize, blocks: u32) {
    table.shift(Slot::kept(store), Slot::dumped(store), blocks);
    table.shift(Slot::open(channel), Slot::sent(channel), blocks);
    table.take(Slot::IDLE, blocks);
}

// Adds the arrivals of a span to all stores. Returns the stores that lose blocks.
fn arrivals(stores: &Stores, table: &mut Table, removed: &Amounts) -> StoreSet {
    let mut losing = StoreSet::NONE;
    for store in 0..stores.count() {
        let lost = arrive(table, store, removed.of(store));
        losing = losing.with_if(lost > 0, store);
    }
    losing
}

// Adds the arrivals of a span to all stores, of which any number of blocks can leave before they are cut.
fn pour(stores: &Stores, spans: &mut [Span], outlook: &Outlook, at: usize) {
    if let Some(span) = spans.get_mut(at) {
        for store in 0..stores.count() {
            let arrived = span.table.of(Slot::arrived(store));
            let coming = arrived.saturating_sub(outlook.removed.of(store));
            span.table.set(Slot::kept(store), coming);
        }
    }
}

// Cuts what is left in all stores to their sizes. Returns the stores that lose blocks.
fn cut_to_sizes(stores: &Stores, table: &mut Table) -> StoreSet {
    let mut losing = StoreSet::NONE;
    for store in 0..stores.count() {
        let lost = hold(table, store, table.of(Slot::kept(store)));
        losing = losing.with_if(lost > 0, store);
    }
    losing
}

// Fills the stores up to their sizes, and finds the next overflow of each store that loses blocks. Returns whether one
// does.
#[inline(always)]
fn fill_stores(stores: &Stores, spans: &mut [Span], outlook: &mut Outlook, at: usize) -> bool {
    let Some(span) = spans.get_mut(at) else {
        return false;
    };
    let losing = match stores.come() {
        Arrivals::Before => arrivals(stores, &mut span.table, &outlook.removed),
        Arrivals::During => cut_to_sizes(stores, &mut span.table),
    };
    for store in losing.iter() {
        let Some(span) = spans.get(at) else {
            break;
        };
        outlook.removed.add(store, span.table.of(Slot::lost(store)));
        outlook.look_ahead(stores, spans, store, at.saturating_add(1));
    }
    !losing.is_empty()
}

// Dumps from each of the stores the blocks that avert its next overflow.
fn avert(stores: &Stores, spans: &mut [Span], outlook: &mut Outlook, at: usize, due: StoreSet) {
    for store in due.iter() {
        let Some(span) = spans.get_mut(at) else {
            break;
        };
        let blocks = room(stores, &span.table, store).min(outlook.blocks.of(store));
        if blocks > 0 {
            dump(&mut span.table, store, stores.channel(store), blocks);
            outlook.leave(stores, spans, store, blocks);
        }
    }
}

// Whether the window of a span is used up.
fn is_used_up(spans: &[Span], at: usize) -> bool {
    match spans.get(at) {
        Some(span) => span.table.of(Slot::IDLE) == 0,
        None => true,
    }
}

// Gives the window of a span to the stores in the order of their next overflows, from a span on. A store whose overflow
// is averted overflows later, and gets its turn again there.
#[inline(always)]
fn empty_stores(
    stores: &Stores,
    spans: &mut [Span],
    outlook: &mut Outlook,
    at: usize,
    first: usize,
) {
    let mut from = first;
    for _ in 0..spans.len() {
        if is_used_up(spans, at) {
            break;
        }
        let Some(next) = outlook.busy.first_from(from) else {
            break;
        };
        let due = outlook.due_in(next);
        avert(stores, spans, outlook, at, due);
        from = next.saturating_add(1);
    }
}

// Plans one span. Returns whether a store loses blocks in it.
fn plan_span(stores: &Stores, spans: &mut [Span], outlook: &mut Outlook, at: usize) -> bool {
    match stores.come() {
        Arrivals::Before => {
            let is_losing = fill_stores(stores, spans, outlook, at);
            empty_stores(stores, spans, outlook, at, at.saturating_add(1));
            is_losing
        }
        Arrivals::During => {
            pour(stores, spans, outlook, at);
            empty_stores(stores, spans, outlook, at, at);
            fill_stores(stores, spans, outlook, at)
        }
    }
}

/// Plans span by span, and returns whether the plan loses blocks. Without limits of channels the plan loses least: a
/// block that must leave by the next overflow is a unit job with a due time, and the job that is due first goes first
/// (Horn 1974; Dertouzos 1974). With limits it may lose more.
pub(crate) fn dump_by_next_overflow(stores: &Stores, spans: &mut [Span]) -> bool {
    let mut outlook = Outlook::of(stores, spans);
    let mut is_losing = false;
    for at in 0..spans.len() {
        is_losing |= plan_span(stores, spans, &mut outlook, at);
    }
    is_losing
}
