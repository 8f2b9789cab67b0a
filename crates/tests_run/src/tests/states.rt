//! The state of a store: what is asked of it in turn, over both kinds, and what it answers.

use crate::tests::calls::Call;
use crate::tests::samples::{has, is_told, new_state, packet};
use mm_base::Kind;
use mm_desk::{Fault, StoreState};
use mm_store::PacketStore;
use refused_allocations::calls::{Ask, Told, told_of, told_of_delete, told_of_offer};
use std::alloc::Global;
use std::process::Abort;

// Asks a store.
fn answer(rt: &impl Abort, alloc: Global, state: &mut StoreState, ask: Ask) -> Told {
    match ask {
        Ask::Offer(now, count) => told_of_offer(&state.offer(now, packet(rt, alloc, count))),
        Ask::Begin(from, to) => told_of(state.begin(from, to)),
        Ask::Next => match state.next() {
            Ok(Some((time, packet))) => Told::Given(time, packet.packet().count()),
            Ok(None) => Told::End,
            Err(fault) => Told::Refused(fault),
        },
        Ask::Abort => told_of(state.abort()),
        Ask::Delete(limit) => told_of_delete(state.delete(limit)),
        Ask::Enable => {
            state.enable();
            Told::Done
        }
        Ask::Disable => {
            state.disable();
            Told::Done
        }
        Ask::Rest => told_of(state.at_rest()),
        Ask::Resize(size) => told_of(state.resize(size.clamp(1, 9))),
        Ask::ChangeKind(kind) => told_of(state.change_kind(kind)),
    }
}

// Asks in turn, and compares the answers.
fn asks(rt: &impl Abort, alloc: Global, state: &mut StoreState, table: &[Call]) {
    for (row, (asked, want)) in table.iter().enumerate() {
        let told = answer(rt, alloc, state, *asked);
        assert!(rt; told == *want, "row {row}");
    }
}

// An empty store of this kind answers these calls in turn, and then has these counters.
fn answers(
    rt: &impl Abort,
    alloc: Global,
    kind: Kind,
    tables: [&[Call]; 2],
    want: [u64; 4],
) -> StoreState {
    let mut state = new_state(rt, alloc, kind);
    let [first, second] = tables;
    asks(rt, alloc, &mut state, first);
    asks(rt, alloc, &mut state, second);
    has(rt, &state, want);
    state
}

const KINDS: [Kind; 2] = [Kind::Circular, Kind::Bounded];

static CLOCK: [Call; 6] = [
    (Ask::Enable, Told::Done),
    (Ask::Offer(7, 1), Told::Kept(7)),
    (Ask::Offer(7, 2), Told::Kept(8)),
    (Ask::Delete(7), Told::Deleted(1)),
    (Ask::Offer(u64::MAX, 3), Told::Kept(u64::MAX)),
    (Ask::Offer(u64::MAX, 4), Told::Back(Fault::ClockEnd, 4)),
];

static START: [Call; 2] = [(Ask::Enable, Told::Done), (Ask::Offer(0, 1), Told::Kept(1))];

#[test]
fn times_rise(rt: HostRuntime) {
    for kind in KINDS {
        answers(&rt, rt.alloc(), kind, [&CLOCK, &[]], [3, 0, 1, 2]);
        answers(&rt, rt.alloc(), kind, [&START, &[]], [1, 0, 0, 1]);
    }
}

static FULL: [Call; 8] = [
    (Ask::Resize(2), Told::Done),
    (Ask::Enable, Told::Done),
    (Ask::Offer(7, 1), Told::Kept(7)),
    (Ask::Offer(8, 2), Told::Kept(8)),
    (Ask::Resize(3), Told::Refused(Fault::StorageOn)),
    (
        Ask::ChangeKind(Kind::Bounded),
        Told::Refused(Fault::StorageOn),
    ),
    (Ask::Disable, Told::Done),
    (Ask::Resize(1), Told::Refused(Fault::HoldsMore)),
];

// A full store of another kind becomes one of this kind, which answers this to an offer, and is then resized to three
// blocks.
fn changes(rt: &impl Abort, alloc: Global, from: Kind, to: Kind, told: Told) {
    let changed = [
        (Ask::ChangeKind(to), Told::Done),
        (Ask::Enable, Told::Done),
        (Ask::Offer(9, 3), told),
        (Ask::Disable, Told::Done),
        (Ask::Resize(3), Told::Done),
    ];
    let state = answers(rt, alloc, from, [&FULL, &changed], [3, 1, 0, 2]);
    assert!(rt; state.store().kind() == to, "the kind");
    assert!(rt; state.store().size() == 3, "the size");
}

#[test]
fn change_kind_and_resize(rt: HostRuntime) {
    changes(
        &rt,
        rt.alloc(),
        Kind::Circular,
        Kind::Bounded,
        Told::Lost(3),
    );
    changes(
        &rt,
        rt.alloc(),
        Kind::Bounded,
        Kind::Circular,
        Told::KeptOver(9, 1),
    );
}

// The packets 1, 2 and 3 come to stand at the times 7, 8 and 9.
static THREE: [Call; 4] = [
    (Ask::Enable, Told::Done),
    (Ask::Offer(7, 1), Told::Kept(7)),
    (Ask::Offer(7, 2), Told::Kept(8)),
    (Ask::Offer(9, 3), Told::Kept(9)),
];

static BUSY: [Call; 8] = [
    (Ask::Begin(1, 255), Told::Done),
    (Ask::Delete(255), Told::Refused(Fault::Busy)),
    (Ask::Disable, Told::Done),
    (Ask::Rest, Told::Refused(Fault::Busy)),
    (Ask::Resize(3), Told::Refused(Fault::Busy)),
    (Ask::Abort, Told::Done),
    (Ask::Rest, Told::Done),
    (Ask::Delete(255), Told::Deleted(3)),
];

#[test]
fn retrieval_makes_busy(rt: HostRuntime) {
    for kind in KINDS {
        answers(&rt, rt.alloc(), kind, [&THREE, &BUSY], [3, 0, 3, 0]);
    }
}

static RANGE: [Call; 10] = [
    (Ask::Begin(9, 8), Told::Refused(Fault::BadRange)),
    (Ask::Begin(8, 8), Told::Done),
    (Ask::Begin(8, 8), Told::Refused(Fault::Busy)),
    (Ask::Next, Told::Given(8, 2)),
    (Ask::Next, Told::End),
    (Ask::Abort, Told::Refused(Fault::Idle)),
    (Ask::Next, Told::Refused(Fault::Idle)),
    (Ask::Delete(8), Told::Deleted(2)),
    (Ask::Disable, Told::Done),
    (Ask::Offer(10, 5), Told::Back(Fault::Disabled, 5)),
];

#[test]
fn retrieval_by_range(rt: HostRuntime) {
    for kind in KINDS {
        let state = answers(&rt, rt.alloc(), kind, [&THREE, &RANGE], [3, 0, 2, 1]);
        assert!(&rt; !state.storage(), "its storage is off");
        assert!(&rt; state.retrieval().is_none(), "no retrieval is on");
    }
}

// The fourth packet fills the store, and the two after it overwrite those at 7 and 8.
static OVERWRITTEN: [Call; 10] = [
    (Ask::Begin(1, u64::MAX), Told::Done),
    (Ask::Next, Told::Given(7, 1)),
    (Ask::Offer(20, 4), Told::Kept(20)),
    (Ask::Offer(20, 5), Told::KeptOver(21, 1)),
    (Ask::Offer(20, 6), Told::KeptOver(22, 2)),
    (Ask::Next, Told::Given(9, 3)),
    (Ask::Next, Told::Given(20, 4)),
    (Ask::Next, Told::Given(21, 5)),
    (Ask::Next, Told::Given(22, 6)),
    (Ask::Next, Told::End),
];

#[test]
fn a_retrieval_gives_each_packet_once(rt: HostRuntime) {
    let tables: [&[Call]; 2] = [&THREE, &OVERWRITTEN];
    answers(&rt, rt.alloc(), Kind::Circular, tables, [6, 2, 0, 4]);
}

#[test]
fn a_refusal_is_shown_by_number_and_name(rt: HostRuntime) {
    is_told(&rt, rt.alloc(), Fault::BadRange, 20, "20 BadRange");
}
