//! Steps of dump workers over links in memory, with what is sent, held and spent by hand.
ghost use Rattle.std.specs.Prelude.{◌≢◌, ◌+◌, ◌<◌, ◌≤◌, length, All, AllPairs, vec_len};
ghost use Rattle.mm_base.specs.declared.limits.TheConstants.{MAX_STORES};

use crate::tests::links::{has_sent, new_links};
use crate::tests::samples::{NAMES, holds_of, is_named, stores_with};
use mm_desk::Held;
use mm_dump::{Dumped, Link, MemoryLink, Order, OrderBroken, TakenPacket};
use mm_store::PacketStore;
use std::alloc::Global;
use std::process::Abort;
use std::sync::Wait;
use std::thread::Threads;

// The link took these packets, by their stores and sequence counts.
fn took(rt: &impl Abort, link: &MemoryLink, sent: &[(&str, u16)]) {
    assert!(rt; link.taken().len() == sent.len(), "as many packets");
    for (item, (name, count)) in link.taken().iter().zip(sent) {
        is_named(rt, &item.store, *name);
        assert!(rt; item.stored.packet.packet().count() == *count, "the packet");
    }
}

// Adds the order for a store of which blocks are wanted.
#[tactic(auto, using(crate::proofs::Rising::apart_more, crate::proofs::Rising::below_more, crate::proofs::Rising::below_next))]
fn add_order(rt: &impl Abort, orders: &mut Vec<Order>, place: u32, amount: u32)
    requires few { vec_len orders.old ≤ place }
    requires places { All (λ o. o.place < place) orders.old.items }
    requires amounts { All (λ o. 1 ≤ o.amount) orders.old.items }
    requires distinct { AllPairs (λ a b. a.place ≢ b.place) orders.old.items }
    ensures few { vec_len orders.new ≤ place + 1 }
    ensures places { All (λ o. o.place < place + 1) orders.new.items }
    ensures amounts { All (λ o. 1 ≤ o.amount) orders.new.items }
    ensures distinct { AllPairs (λ a b. a.place ≢ b.place) orders.new.items }
{
    if amount == 0 {
        return;
    }
    orders.push(Order { place, amount }).expect(rt, "memory");
}

// One order for each store of which blocks are wanted.
fn new_orders(rt: &impl Abort, alloc: Global, wanted: &[u32]) -> Vec<Order>
    requires few { length wanted.now ≤ MAX_STORES }
    ensures few { vec_len result ≤ length wanted.now }
    ensures places { All (λ o. o.place < length wanted.now) result.items }
    ensures amounts { All (λ o. 1 ≤ o.amount) result.items }
    ensures distinct { AllPairs (λ a b. a.place ≢ b.place) result.items }
{
    let mut orders = Vec::new(alloc);
    for place in 0..wanted.len() {
        add_order(rt, &mut orders, place as u32, wanted[place]);
    }
    orders
}

// Dumps as many blocks as are wanted of each store.
fn dumped<L: Link + Send, R: Threads + Wait + Sync + Abort>(
    rt: &R,
    alloc: Global,
    wanted: &[u32],
    stores: &mut Vec<Held>,
    links: &mut [L],
) -> Dumped {
    assert!(rt; wanted.len() <= 4, "few stores");
    assert!(rt; stores.len() == wanted.len(), "an amount for each");
    let orders = new_orders(rt, alloc, wanted);
    match refused_allocations::dumps::dumped(rt, alloc, stores, links, &orders) {
        Some(done) => done.expect(rt, "memory"),
        None => panic!(rt; "stores and links that are ready"),
    }
}

// How many packets the stores of these names hold, and how many were deleted. Each has its channel, none is lost, and
// no retrieval is on.
fn have(rt: &impl Abort, stores: &[Held], counts: &[(u32, u64)]) {
    assert!(rt; stores.len() == counts.len(), "as many stores");
    for ((store, name), (held, deleted)) in stores.iter().zip(&NAMES).zip(counts) {
        is_named(rt, &store.id, *name);
        let (state, channel) = (&store.state, store.channel);
        let found = (channel, state.store().len(), state.deleted(), state.lost());
        assert!(rt; found == (3, *held, *deleted, 0), "the counters");
        assert!(rt; state.retrieval().is_none(), "no retrieval");
    }
}

// A step: what stores hold, how links fail, and how much is wanted; and then why it ends, how much is spent, what
// stores hold and deleted, and what each link took and how often it failed.
struct Case {
    name: &'static str,
    held: &'static [u16],
    until: &'static [Option<u64>],
    wanted: &'static [u32],
    broken: Option<OrderBroken>,
    spent: u64,
    counts: &'static [(u32, u64)],
    sent: &'static [(&'static str, u16)],
    failures: u64,
}

// Carries out the step of a case, and compares.
fn tried<R: Threads + Wait + Sync + Abort>(rt: &R, alloc: Global, case: &Case) {
    let name = case.name;
    let mut stores = stores_with(rt, alloc, case.held);
    let mut links = new_links(rt, alloc, case.until);
    let done = dumped(rt, alloc, case.wanted, &mut stores, &mut links);
    holds_of(rt, done.broken == case.broken, name, "the worst cause");
    holds_of(rt, done.spent == case.spent, name, "how much was spent");
    have(rt, &stores, case.counts);
    holds_of(rt, links.len() == case.until.len(), name, "as many links");
    for link in &links {
        took(rt, link, case.sent);
        has_sent(rt, name, link, case.sent.len(), case.failures);
    }
}

static CASES: [Case; 7] = table! { Case;
    name "the oldest of each store go over one link", held &[3, 2, 0, 1], until &[None], wanted &[2, 0, 4, 3],
        broken None, spent 3, counts &[(1, 2), (2, 0), (0, 0), (0, 1)],
        sent &[("AAA", 1), ("AAA", 2), ("DDD", 1)], failures 0;
    name "a step without orders leaves all", held &[1], until &[None, None], wanted &[0],
        broken None, spent 0, counts &[(1, 0)], sent &[], failures 0;
    name "all that is held goes", held &[3], until &[None], wanted &[3],
        broken None, spent 3, counts &[(0, 3)], sent &[("AAA", 1), ("AAA", 2), ("AAA", 3)], failures 0;
    name "an order for more than is held takes all", held &[3], until &[None], wanted &[5],
        broken None, spent 3, counts &[(0, 3)], sent &[("AAA", 1), ("AAA", 2), ("AAA", 3)], failures 0;
    name "a failed first send is spent", held &[3], until &[Some(0)], wanted &[2],
        broken Some(OrderBroken::LinkFailed), spent 1, counts &[(3, 0)], sent &[], failures 1;
    name "an order that breaks deletes nothing", held &[3], until &[Some(1)], wanted &[3],
        broken Some(OrderBroken::LinkFailed), spent 2, counts &[(3, 0)], sent &[("AAA", 1)], failures 1;
    name "a worker that broke off takes no further order", held &[1, 1, 1], until &[Some(1)], wanted &[1, 1, 1],
        broken Some(OrderBroken::LinkFailed), spent 2, counts &[(0, 1), (1, 0), (1, 0)], sent &[("AAA", 1)], failures 1;
};

#[test]
fn steps_of_dump_workers(rt: HostRuntime) {
    for case in &CASES {
        tried(&rt, rt.alloc(), case);
    }
}

// The same step again and again, over links of which each fails at a send of its own, if it is asked for one.
#[test]
fn steps_without_orders_change_nothing(rt: HostRuntime) {
    let alloc = rt.alloc();
    let mut stores = stores_with(&rt, alloc, &[3, 0, 4]);
    let mut links = new_links(&rt, alloc, &[None, Some(0), Some(1), Some(2)]);
    for _ in 0..1000 {
        let done = dumped(&rt, alloc, &[0, 0, 0], &mut stores, &mut links);
        assert!(&rt; (done.broken, done.spent) == (None, 0), "nothing is done");
    }
    have(&rt, &stores, &[(3, 0), (0, 0), (4, 0)]);
    for link in &links {
        has_sent(&rt, "without orders", link, 0, 0);
    }
}

// What an order broke off stays in the store: the next dump sends it again.
#[test]
fn packets_of_a_broken_order_are_sent_again(rt: HostRuntime) {
    let alloc = rt.alloc();
    let mut stores = stores_with(&rt, alloc, &[3]);
    let mut links = new_links(&rt, alloc, &[Some(1)]);
    let first = dumped(&rt, alloc, &[2], &mut stores, &mut links);
    assert!(rt; first.broken == Some(OrderBroken::LinkFailed), "it breaks");
    let second = dumped(&rt, alloc, &[2], &mut stores, &mut links);
    assert!(rt; (second.broken, second.spent) == (None, 2), "it goes");
    have(&rt, &stores, &[(1, 2)]);
    for link in &links {
        took(&rt, link, &[("AAA", 1), ("AAA", 1), ("AAA", 2)]);
    }
}

// Of three orders the link that fails broke one, or was given none; the other link carried out the rest.
#[test]
fn the_other_worker_goes_on_where_one_broke_off(rt: HostRuntime) {
    let alloc = rt.alloc();
    let mut stores = stores_with(&rt, alloc, &[1, 1, 1]);
    let mut links = new_links(&rt, alloc, &[Some(0), None]);
    dumped(&rt, alloc, &[1, 1, 1], &mut stores, &mut links);
    let kept = stores
        .iter()
        .filter(|held| held.state.store().len() == 1)
        .count();
    assert!(&rt; kept <= 1, "one order breaks at the most");
    let [failing, other] = links.as_slice() else {
        panic!(&rt; "two links");
    };
    has_sent(&rt, "the link that fails", failing, 0, kept as u64);
    has_sent(&rt, "the other link", other, 3 - kept, 0);
}
