//! A bounded store of four blocks that threads may share: it is opened with two ports, each call is made once, and it
//! is closed.
ghost use Rattle.std.specs.Prelude.{◌≡◌, ◌≤◌, [], length, IfOk, vec_capacity};
ghost use Rattle.mm_shared.specs.Views.{new_ports};

use crate::calls::{
    Ask, CALLS, SeatCall, Told, left, new_state, packet, told_of, told_of_delete, told_of_given,
    told_of_offer,
};
use crate::met::Met;
use mm_base::{NoMemory, StoreId};
use mm_desk::{Held, StoreState};
use mm_shared::{Port, Ports, SharedStores, StoreLabel};
use mm_store::PacketStore;
use std::alloc::Global;
use std::sync::Wait;

/// What the only one of these stores answers through a port.
pub fn answer<R: Wait>(
    rt: &R,
    alloc: Global,
    stores: &SharedStores,
    port: &mut Port,
    ask: Ask,
) -> Told
    requires of { port.old.of.table ≡ stores.now.id }
    requires one { stores.now.many ≡ 1 }
    ensures same { (port.new.of ≡ port.old.of) × (port.new.number ≡ port.old.number) }
{
    match ask {
        Ask::Offer(now, count) => match packet(alloc, count) {
            Ok(packet) => told_of_offer(&stores.offer(rt, port, 0, now, packet)),
            Err(NoMemory) => Told::Unmade,
        },
        Ask::Begin(from, to) => told_of(stores.begin(rt, port, 0, from, to)),
        Ask::Next => told_of_given(&stores.next(rt, alloc, port, 0)),
        Ask::Abort => told_of(stores.abort(rt, port, 0)),
        Ask::Delete(limit) => told_of_delete(stores.delete(rt, port, 0, limit)),
        Ask::Disable => {
            stores.disable(rt, port, 0);
            Told::Done
        }
        Ask::Enable => {
            stores.enable(rt, port, 0);
            Told::Done
        }
        _ => Told::Unmade,
    }
}

// What came of a call. It takes no memory itself: that may lack for the packet alone that it offers, which is then made
// once more.
fn called<R: Wait>(
    rt: &R,
    alloc: Global,
    stores: &SharedStores,
    port: &mut Port,
    ask: Ask,
    want: Told,
) -> Met
    requires of { port.old.of.table ≡ stores.now.id }
    requires one { stores.now.many ≡ 1 }
    ensures same { (port.new.of ≡ port.old.of) × (port.new.number ≡ port.old.number) }
{
    let first = answer(rt, alloc, stores, port, ask);
    if first != Told::Unmade {
        return Met::Whole.provided(first == want, "another answer");
    }
    let second = answer(rt, alloc, stores, port, ask);
    Met::Unready.provided(second == want, "another answer")
}

// What came of a call through the port of its seat.
fn called_through<R: Wait>(
    rt: &R,
    alloc: Global,
    stores: &SharedStores,
    first: &mut Port,
    second: &mut Port,
    call: SeatCall,
) -> Met
    requires of { (first.old.of.table ≡ stores.now.id) × (second.old.of.table ≡ stores.now.id) }
    requires one { stores.now.many ≡ 1 }
    ensures first { (first.new.of ≡ first.old.of) × (first.new.number ≡ first.old.number) }
    ensures second { (second.new.of ≡ second.old.of) × (second.new.number ≡ second.old.number) }
{
    let (seat, ask, want) = call;
    match seat {
        0 => called(rt, alloc, stores, first, ask, want),
        _ => called(rt, alloc, stores, second, ask, want),
    }
}

// What came of the calls on the store, which is put back into an empty list under this label.
fn made<R: Wait>(
    rt: &R,
    alloc: Global,
    opened: (SharedStores, Ports),
    label: StoreLabel,
    back: Vec<Held>,
) -> Met
    requires ports { (opened.1.of.table ≡ opened.0.id) × (opened.1 ≡ new_ports opened.1.of 2) }
    requires seats { (opened.0.seats ≡ 2) × (opened.0.many ≡ 1) }
    requires room { (back.items ≡ []) × (1 ≤ vec_capacity back) }
{
    let ((stores, mut ports), mut back) = (opened, back);
    let mut first = stores.split(&mut ports);
    let mut second = stores.split(&mut ports);
    let mut met = Met::Whole;
    for call in CALLS {
        met = met.and(called_through(rt, alloc, &stores, &mut first, &mut second, call));
    }
    stores.join(&mut ports, second);
    stores.join(&mut ports, first);
    stores.close(ports, &[label], &mut back);
    match back.first() {
        Some(held) => met.and(left(&held.state)),
        None => Met::Wrong("no store comes back"),
    }
}

// A store that found no memory to be opened has come back as it was, and is opened once more.
fn opened_again<R: Wait>(
    rt: &R,
    alloc: Global,
    states: Vec<StoreState>,
    label: StoreLabel,
    back: Vec<Held>,
) -> Met
    requires one { length states.items ≡ 1 }
    requires room { (back.items ≡ []) × (1 ≤ vec_capacity back) }
{
    let same = states.iter().all(|state| state.offered() == 0
        && state.storage()
        && state.store().len() == 0);
    let met = Met::Wanted.provided(same, "another state comes back");
    match SharedStores::open(alloc, states, 2) {
        Ok(opened) => met.and(made(rt, alloc, opened, label, back)),
        Err(_) => Met::Wrong("no memory to open a store, twice"),
    }
}

// A list with the state of the store, and room for it to be put back.
fn one_store(alloc: Global) -> Result<(Vec<StoreState>, Vec<Held>), NoMemory>
    ensures one { IfOk result (λ made. length made.0.items ≡ 1) }
    ensures room { IfOk result (λ made. (made.1.items ≡ []) × (1 ≤ vec_capacity made.1)) }
{
    let mut states = Vec::with_capacity(alloc, 1)?;
    let back = Vec::with_capacity(alloc, 1)?;
    states.push_reserved(new_state(alloc)?);
    Ok((states, back))
}

/// What came of the calls through two ports of one shared store.
pub(crate) fn shared<R: Wait>(rt: &R, alloc: Global) -> Met {
    let Ok(id) = StoreId::of_text(b"AAA") else {
        return Met::Wrong("no identifier");
    };
    let Ok((states, back)) = one_store(alloc) else {
        return Met::Unready;
    };
    let label = StoreLabel { id, channel: 3 };
    match SharedStores::open(alloc, states, 2) {
        Ok(opened) => made(rt, alloc, opened, label, back),
        Err((states, _)) => opened_again(rt, alloc, states, label, back),
    }
}
