//! A step's dump: two orders over two links, from a store of three packets and from one of two.
ghost use Rattle.std.specs.Prelude.{◌≡◌, ◌≢◌, ◌<◌, ◌≤◌, length, All, AllPairs, None, IsTrue};
ghost use Rattle.mm_base.specs.declared.limits.TheConstants.{MAX_STORES};

use crate::calls::{new_state, packet};
use crate::met::Met;
use crate::traces::{TestLink, new_links, sent_over};
use mm_base::{NoMemory, StoreId};
use mm_desk::{Held, StoreState};
use mm_dump::laws::idle_stores_suit_orders;
use mm_dump::{Dumped, Link, Order, dump, may_fail};
use mm_store::PacketStore;
use std::alloc::Global;
use std::sync::Wait;
use std::thread::Threads;

// The sets of packets sent, a bit for each sequence count: none, and packets 1, 2, 4 and 5.
const NONE: u32 = 0;

const SENT: u32 = 0b110110;

// The identifiers of the stores, and the packets that they hold before the dump.
static STORES: [(&[u8], &[u16]); 2] = [(b"A", &[1, 2, 3]), (b"B", &[4, 5])];

// How many packets a store holds, and how many of it were deleted.
type Counts = (u32, u64);

// Before the dump, and after it.
const BEFORE: [Counts; 2] = [(3, 0), (2, 0)];

const AFTER: [Counts; 2] = [(1, 2), (0, 2)];

// A store that holds the packets of these sequence counts, where there is memory for them.
fn state_with(alloc: Global, counts: &[u16]) -> Option<StoreState> {
    let mut state = new_state(alloc).ok()?;
    for count in counts {
        let packet = packet(alloc, *count).ok()?;
        state.offer(7, packet).ok()?;
    }
    Some(state)
}

fn held_with(alloc: Global, text: &[u8], counts: &[u16]) -> Option<Held> {
    Some(Held {
        id: StoreId::of_text(text).ok()?,
        channel: 0,
        state: state_with(alloc, counts)?,
    })
}

fn stores_in_room(alloc: Global) -> Option<Vec<Held>> {
    let mut stores = Vec::new(alloc);
    for (text, counts) in &STORES {
        stores.push(held_with(alloc, text, counts)?).ok()?;
    }
    Some(stores)
}

// Whether no retrieval is on at any store.
fn are_idle(stores: &[Held]) -> bool
    ensures idle { IsTrue result → All (λ h. h.state.retrieval ≡ None) stores.now }
{
    stores.iter().all(|held| held.state.retrieval().is_none())
}

fn counts(held: &Held) -> Counts {
    (held.state.store().len(), held.state.deleted())
}

// Whether the stores hold this many packets, and this many of each were deleted.
fn have(stores: &[Held], wanted: &[Counts; 2]) -> bool {
    match stores {
        [first, second] => [counts(first), counts(second)] == *wanted,
        _ => false,
    }
}

// Whether the stores hold this many packets, nothing of them is lost, and the links have sent these packets, each once.
fn are_left(stores: &[Held], links: &[TestLink], wanted: &[Counts; 2], sent: u32) -> Met {
    Met::Whole
        .provided(have(stores, wanted), "another number held or deleted")
        .provided(are_idle(stores), "a retrieval is on")
        .provided(sent_over(links) == Some(sent), "other packets sent")
}

/// What a dump by these orders answers, where the stores and the links are few and ready for one.
pub fn dumped<L: Link + Send, R: Threads + Wait + Sync>(
    rt: &R,
    alloc: Global,
    stores: &mut Vec<Held>,
    links: &mut [L],
    orders: &[Order],
) -> Option<Result<Dumped, NoMemory>>
    requires few { length orders.now ≤ MAX_STORES }
    requires places { All (λ o. o.place < length stores.old.items) orders.now }
    requires amounts { All (λ o. 1 ≤ o.amount) orders.now }
    requires distinct { AllPairs (λ a b. a.place ≢ b.place) orders.now }
{
    let are_few = stores.len() <= 16 && !links.is_empty() && links.len() <= 4;
    if !are_few || !may_fail(links) || !are_idle(stores) {
        return None;
    }
    idle_stores_suit_orders();
    Some(dump(rt, alloc, orders, stores, links))
}

// What a dump left that answered so. Where there was no memory all is as before.
fn left(answer: &Option<Result<Dumped, NoMemory>>, stores: &[Held], links: &[TestLink]) -> Met {
    match answer {
        Some(Ok(done)) => are_left(stores, links, &AFTER, SENT)
            .provided(done.broken.is_none(), "an order broke")
            .provided(done.spent == 4, "another number spent"),
        Some(Err(NoMemory)) => Met::Wanted.and(are_left(stores, links, &BEFORE, NONE)),
        None => Met::Wrong("stores or links that a dump may not have"),
    }
}

// Orders: the place of a store, and how many packets are dumped.
macro_rules! orders {
    ($($place:literal $amount:literal),+) => {
        [$(Order { place: $place, amount: $amount }),+]
    };
}

// What came of a dump of two packets of the first store, and of all that the second has.
fn both_dumped<R: Threads + Wait + Sync>(
    rt: &R,
    alloc: Global,
    stores: &mut Vec<Held>,
    links: &mut [TestLink],
) -> Met {
    if stores.len() != 2 {
        return Met::Wrong("another number of stores");
    }
    let answer = dumped(rt, alloc, stores, links, &orders!(0 2, 1 4));
    left(&answer, stores, links)
}

// What came of a dump. Where there was no memory for it, it is carried out once more.
fn dumped_or_again<R: Threads + Wait + Sync>(
    rt: &R,
    alloc: Global,
    stores: &mut Vec<Held>,
    links: &mut [TestLink],
) -> Met {
    let met = both_dumped(rt, alloc, stores, links);
    if !matches!(met, Met::Wanted) {
        return met;
    }
    let again = both_dumped(rt, alloc, stores, links);
    met.and(again).provided(
        matches!(again, Met::Whole),
        "another answer after a refused allocation",
    )
}

/// What came of a step's dump; nothing where there was no memory to begin.
pub(crate) fn dumps<R: Threads + Wait + Sync>(rt: &R, alloc: Global) -> Option<Met> {
    let mut stores = stores_in_room(alloc)?;
    let mut links = new_links(alloc, 2)?;
    Some(dumped_or_again(rt, alloc, &mut stores, &mut links))
}
