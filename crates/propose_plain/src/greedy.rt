//! A first plan, span by span: each window goes first to the store that overflows next.
use crate::amounts::Amounts;
use crate::sets::StoreSet;
use crate::spans::Span;
use crate::stores::Stores;
use mm_problem::MAX_STORES;

// At most one span for each step.
const MAX_SPANS: usize = 256;

// When each store overflows next if no more blocks leave it.
#[derive(Clone, Copy)]
struct Outlook {
    // the blocks of each store that have left or were lost so far,
    removed: Amounts,
    // the span of its next overflow, or the number of spans if there is none,
    due: [usize; MAX_STORES],
    // the number of blocks by which it overflows,
    blocks: Amounts,
    // and the stores whose next overflow is in each span
    calendar: [StoreSet; MAX_SPANS],
}

impl Outlook {
    // The outlook at the start of the first span.
    fn of(stores: &Stores, spans: &[Span]) -> Outlook {
        let mut outlook = Outlook {
            removed: Amounts::NOTHING,
            due: [0; MAX_STORES],
            blocks: Amounts::NOTHING,
            calendar: [StoreSet::NONE; MAX_SPANS],
        };
        for store in 0..stores.count() {
            outlook.look_ahead(stores, spans, store, 0);
        }
        outlook
    }

    // The stores whose next overflow is in a span.
    fn due_in(&self, span: usize) -> StoreSet {
        self.calendar[span & 255]
    }

    // Finds the next overflow of a store, which is not before the span.
    fn look_ahead(&mut self, stores: &Stores, spans: &[Span], store: usize, from: usize) {
        let capacity = stores.size(store).saturating_add(self.removed.of(store));
        let before = self.due[store & 15];
        self.calendar[before & 255] = self.due_in(before).without(store);
        self.due[store & 15] = spans.len();
        for k in from..spans.len() {
            let blocks = spans[k].arrived.of(store).saturating_sub(capacity);
            if blocks > 0 {
                self.due[store & 15] = k;
                self.blocks.set(store, blocks);
                self.calendar[k & 255] = self.due_in(k).with(store);
                break;
            }
        }
    }

    // Records that blocks leave a store.
    fn leave(&mut self, stores: &Stores, spans: &[Span], store: usize, blocks: u32) {
        self.removed.add(store, blocks);
        self.look_ahead(stores, spans, store, self.due[store & 15]);
    }
}

// How many more blocks of a store can leave in a span.
fn room(stores: &Stores, span: &Span, store: usize) -> u32 {
    let channel = stores.channel(store);
    let rest = span
        .limits
        .of(channel)
        .saturating_sub(span.sent.of(channel));
    rest.min(span.idle).min(span.kept.of(store))
}

// Adds the arrivals of a span to a store, which keeps all that it can hold. Returns the number of lost blocks.
fn arrive(span: &mut Span, store: usize, size: u32, removed: u32) -> u32 {
    let coming = span.arrived.of(store).saturating_sub(removed);
    let held = coming.min(size);
    let lost = coming.saturating_sub(held);
    span.lost.set(store, lost);
    span.held.set(store, held);
    span.kept.set(store, held);
    lost
}

// Moves blocks out of a store, through its channel.
fn dump(span: &mut Span, store: usize, channel: usize, blocks: u32) {
    span.kept.take(store, blocks);
    span.dumped.add(store, blocks);
    span.sent.add(channel, blocks);
    span.idle = span.idle.saturating_sub(blocks);
}

// Adds the arrivals of a span, and finds the next overflow of each store that loses blocks.
fn fill_stores(stores: &Stores, spans: &mut [Span], outlook: &mut Outlook, at: usize) {
    for store in 0..stores.count() {
        let Some(span) = spans.get_mut(at) else {
            break;
        };
        let lost = arrive(span, store, stores.size(store), outlook.removed.of(store));
        if lost > 0 {
            outlook.removed.add(store, lost);
            outlook.look_ahead(stores, spans, store, at.saturating_add(1));
        }
    }
}

// Dumps from each of the stores the blocks that avert its next overflow.
fn avert(stores: &Stores, spans: &mut [Span], outlook: &mut Outlook, at: usize, due: StoreSet) {
    let mut rest = due;
    for _ in 0..MAX_STORES {
        let (Some(store), Some(span)) = (rest.first(), spans.get_mut(at)) else {
            break;
        };
        let blocks = room(stores, span, store).min(outlook.blocks.of(store));
        if blocks > 0 {
            dump(span, store, stores.channel(store), blocks);
            outlook.leave(stores, spans, store, blocks);
        }
        rest = rest.rest();
    }
}

// Whether the window of a span is used up.
fn is_used_up(spans: &[Span], at: usize) -> bool {
    match spans.get(at) {
        Some(span) => span.idle == 0,
        None => true,
    }
}

// Gives the window of a span to the stores in the order of their next overflows. A store whose overflow is averted
// overflows later, and gets its turn again there.
fn empty_stores(stores: &Stores, spans: &mut [Span], outlook: &mut Outlook, at: usize) {
    for span in at.saturating_add(1)..spans.len() {
        if is_used_up(spans, at) {
            break;
        }
        let due = outlook.due_in(span);
        avert(stores, spans, outlook, at, due);
    }
}

/// Plans span by span. Without limits of channels the plan loses least: a block that must leave by the next overflow is
/// a unit job with a due time, and the job that is due first goes first (Horn 1974; Dertouzos 1974). With limits it may
/// lose more.
pub(crate) fn dump_by_next_overflow(stores: &Stores, spans: &mut [Span]) {
    let mut outlook = Outlook::of(stores, spans);
    for at in 0..spans.len() {
        fill_stores(stores, spans, &mut outlook, at);
        empty_stores(stores, spans, &mut outlook, at);
    }
}
