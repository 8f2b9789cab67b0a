//! Packet stores that threads share, of both kinds: each call, two threads at one store, and the stores of a step.
ghost use Rattle.std.specs.Prelude.{◌≡◌, length};
ghost use Rattle.mm_shared.specs.Views.{new_ports};

use crate::tests::calls::Call;
use crate::tests::gates::comes_to;
use crate::tests::samples::{counts, has, id, is_named, new_state, store_with, stores_with};
use mm_base::Kind;
use mm_desk::{Fault, StoreState};
use mm_shared::{
    Port, Ports, SharedStores, StoreCounters, StoreLabel, close_all, counters_at, open_all,
    seat_workers, settle,
};
use refused_allocations::calls::{Ask, Told};
use refused_allocations::shared::answer;
use std::alloc::Global;
use std::process::Abort;
use std::sync::Wait;
use std::sync::atomic::{AtomicU64, Ordering};
use std::thread::{Threads, join};

// A store with this many seats, and its ports.
fn opened(rt: &impl Abort, alloc: Global, state: StoreState, seats: u32) -> (SharedStores, Ports)
    ensures ports { (result.1.of.table ≡ result.0.id) × (result.1 ≡ new_ports result.1.of seats) }
    ensures seats { result.0.seats ≡ seats }
    ensures one { result.0.many ≡ 1 }
{
    let states = vec![in alloc; state].expect(rt, "memory");
    match SharedStores::open(alloc, states, seats) {
        Ok(opened) => opened,
        Err(_) => panic!(rt; "memory"),
    }
}

// What is left of the store.
fn closed(rt: &impl Abort, alloc: Global, stores: SharedStores, ports: Ports) -> StoreState
    requires all { (ports.of.table ≡ stores.id) × (ports.first ≡ 0) × (length ports.lists ≡ stores.seats) }
    requires one { stores.many ≡ 1 }
{
    let label = StoreLabel {
        id: id(rt, "AAA"),
        channel: 3,
    };
    let mut back = Vec::with_capacity(alloc, 1).expect(rt, "memory");
    stores.close(ports, &[label], &mut back);
    back.pop().expect(rt, "a store").state
}

// Asks a store in turn through a port, and compares the answers.
fn asks<R: Wait + Abort>(
    rt: &R,
    alloc: Global,
    stores: &SharedStores,
    port: &mut Port,
    table: &[Call],
)
    requires of { port.old.of.table ≡ stores.now.id }
    requires one { stores.now.many ≡ 1 }
    ensures same { (port.new.of ≡ port.old.of) × (port.new.number ≡ port.old.number) }
{
    for row in 0..table.len() {
        let (ask, want) = table[row];
        let told = answer(rt, alloc, stores, port, ask);
        assert!(rt; told == want, "row {row}");
    }
}

// Offers are taken while storage is on; one retrieval comes to its end, another is aborted, and then the packet is
// deleted.
static EACH_CALL: [Call; 13] = [
    (Ask::Offer(7, 1), Told::Back(Fault::Disabled, 1)),
    (Ask::Enable, Told::Done),
    (Ask::Offer(7, 2), Told::Kept(7)),
    (Ask::Disable, Told::Done),
    (Ask::Offer(8, 3), Told::Back(Fault::Disabled, 3)),
    (Ask::Begin(1, 9), Told::Done),
    (Ask::Next, Told::Given(7, 2)),
    (Ask::Next, Told::End),
    (Ask::Begin(1, 9), Told::Done),
    (Ask::Next, Told::Given(7, 2)),
    (Ask::Delete(9), Told::Refused(Fault::Busy)),
    (Ask::Abort, Told::Done),
    (Ask::Delete(9), Told::Deleted(1)),
];

// The counters of a store, and whether its storage is on.
fn is_left(rt: &impl Abort, state: &StoreState, want: [u64; 4], storage: bool) {
    has(rt, state, want);
    assert!(rt; state.storage() == storage, "storage");
}

const KINDS: [Kind; 2] = [Kind::Bounded, Kind::Circular];

#[test]
fn each_call_answers_what_the_store_does(rt: HostRuntime) {
    let alloc = rt.alloc();
    for kind in KINDS {
        let (stores, mut ports) = opened(&rt, alloc, new_state(&rt, alloc, kind), 1);
        let mut port = stores.split(&mut ports);
        asks(&rt, alloc, &stores, &mut port, &EACH_CALL);
        stores.join(&mut ports, port);
        let state = closed(&rt, alloc, stores, ports);
        is_left(&rt, &state, [1, 0, 1, 0], false);
    }
}

#[test]
fn a_store_without_calls_is_as_it_was(rt: HostRuntime) {
    let alloc = rt.alloc();
    let (stores, ports) = opened(&rt, alloc, store_with(&rt, alloc, Kind::Circular, 3), 2);
    let state = closed(&rt, alloc, stores, ports);
    is_left(&rt, &state, [3, 0, 0, 3], true);
}

// What a thread does at a store that another thread calls too. It begins once this many threads have called, and makes
// its calls; once both have called, it offers this many packets more.
#[derive(Clone, Copy)]
struct Part {
    begins: u64,
    calls: &'static [Call],
    more: u32,
}

static CROWDS: Part = Part {
    begins: 0,
    calls: &[],
    more: 501,
};

// It holds the packet that it was given as a link would, until the other thread has called.
static SENDS: Part = Part {
    begins: 0,
    calls: &[
        (Ask::Begin(1, 9), Told::Done),
        (Ask::Next, Told::Given(7, 1)),
    ],
    more: 0,
};

static OFFERS_MEANWHILE: Part = Part {
    begins: 1,
    calls: &[(Ask::Offer(8, 2), Told::Kept(8))],
    more: 0,
};

// Offers this many packets.
fn offers<R: Wait + Abort>(rt: &R, alloc: Global, stores: &SharedStores, port: &mut Port, many: u32)
    requires of { port.old.of.table ≡ stores.now.id }
    requires one { stores.now.many ≡ 1 }
    ensures same { (port.new.of ≡ port.old.of) × (port.new.number ≡ port.old.number) }
{
    for _ in 0..many {
        answer(rt, alloc, stores, port, Ask::Offer(7, 2));
    }
}

// Plays a part through a port.
fn plays<R: Wait + Abort>(
    rt: &R,
    alloc: Global,
    stores: &SharedStores,
    mut port: Port,
    called: &AtomicU64,
    part: Part,
) -> Port
    requires of { port.of.table ≡ stores.now.id }
    requires one { stores.now.many ≡ 1 }
    ensures same { (result.of ≡ port.of) × (result.number ≡ port.number) }
{
    assert!(rt; comes_to(called, part.begins), "its turn");
    asks(rt, alloc, stores, &mut port, part.calls);
    called.fetch_add(1, Ordering::SeqCst);
    assert!(rt; comes_to(called, 2), "both call");
    offers(rt, alloc, stores, &mut port, part.more);
    port
}

// The counters of a store of this kind with some packets, after two threads were at it, each by its own port.
fn shared_by<R: Threads + Wait + Sync + Abort>(
    rt: &R,
    alloc: Global,
    kind: Kind,
    held: u16,
    parts: (Part, Part),
) -> [u64; 4] {
    let (first, second) = parts;
    let (stores, mut ports) = opened(rt, alloc, store_with(rt, alloc, kind, held), 2);
    let one = stores.split(&mut ports);
    let two = stores.split(&mut ports);
    let count = AtomicU64::new(0);
    let (shared, called) = (&stores, &count);
    let (one, two) = join(
        rt,
        move || -> Port
            requires { (one.of.table ≡ shared.now.id) × (shared.now.many ≡ 1) }
            ensures { (result.of ≡ one.of) × (result.number ≡ one.number) }
        { plays(rt, alloc, shared, one, called, first) },
        move || -> Port
            requires { (two.of.table ≡ shared.now.id) × (shared.now.many ≡ 1) }
            ensures { (result.of ≡ two.of) × (result.number ≡ two.number) }
        { plays(rt, alloc, shared, two, called, second) },
    );
    stores.join(&mut ports, two);
    stores.join(&mut ports, one);
    counts(&closed(rt, alloc, stores, ports))
}

// All offers are counted, and four packets kept.
#[test]
fn two_threads_at_one_store(rt: HostRuntime) {
    for kind in KINDS {
        let counts = shared_by(&rt, rt.alloc(), kind, 0, (CROWDS, CROWDS));
        assert!(&rt; counts == [1002, 998, 0, 4], "the counters");
    }
}

// The packet that was there is held, and the one offered.
#[test]
fn no_lock_is_held_while_a_packet_is_sent(rt: HostRuntime) {
    for kind in KINDS {
        let counts = shared_by(&rt, rt.alloc(), kind, 1, (SENDS, OFFERS_MEANWHILE));
        assert!(&rt; counts == [2, 0, 0, 2], "the counters");
    }
}

#[test]
fn stores_are_given_back_in_order(rt: HostRuntime) {
    let mut stores = stores_with(&rt, rt.alloc(), &[1, 2]);
    assert!(rt; stores.len() == 2, "two stores");
    let Ok(mut opened) = open_all(rt.alloc(), &mut stores) else {
        panic!(rt; "memory");
    };
    let counters = StoreCounters {
        offered: 2,
        lost: 0,
        deleted: 0,
        held: 2,
    };
    assert!(rt;
        counters_at(&mut opened, 1) == counters,
        "what the second store counts"
    );
    seat_workers(&mut opened, 3);
    assert!(rt;
        opened.workers.len() == 3,
        "three workers in the first step"
    );
    settle(&mut opened);
    seat_workers(&mut opened, 1);
    assert!(rt; opened.workers.len() == 1, "one worker in the second");
    settle(&mut opened);
    close_all(opened, &mut stores);
    assert!(&rt; stores.len() == 2, "two stores");
    for (store, (name, held)) in stores.iter().zip(&[("AAA", 1), ("BBB", 2)]) {
        is_named(&rt, &store.id, *name);
        is_left(&rt, &store.state, [*held, 0, 0, *held], true);
    }
}
