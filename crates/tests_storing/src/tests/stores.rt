//! Packet stores of each type, by calls with their results.
ghost use Rattle.std.specs.Prelude.{◌≤◌};
ghost use Rattle.mm_base.specs.declared.limits.TheConstants.{MAX_BLOCKS};

use crate::tests::samples::{Host, is_shown};
use mm_base::Kind;
use mm_packet::{BlockPacket, Header, Octets, Packet};
use mm_store::{AnyStore, BlockStore, Fault, PacketStore, Put, RingStore, Stored};
use plain::drawn;

mod plain;

// The last possible storage time.
const LAST: u64 = u64::MAX;

// A call on a store. A packet is known by its sequence count.
#[derive(Clone, Copy)]
enum Call {
    // At this time, the packet of this count.
    PutAt(u64, u16),
    // From this time, to this time, after this time.
    FirstIn(u64, u64, u64),
    DeleteUpTo(u64),
    AskState,
}

// The result of a call.
#[derive(Clone, Copy, PartialEq)]
enum Told {
    Kept(u64),
    KeptOver(u64, u16),
    Lost(u16),
    ClockEnd(u16),
    First(u64, u16),
    Nothing,
    Deleted(usize),
    // The size, the number of packets, the oldest and the newest time, and the last time given.
    State(u32, u32, u64, u64, u64),
}

use Call::{AskState, DeleteUpTo, FirstIn, PutAt};
use Told::{ClockEnd, Deleted, First, Kept, KeptOver, Lost, Nothing, State};

// A call with its result.
type Step = (Call, Told);

// Telemetry with this sequence count.
fn packet(rt: &impl Host, count: u16) -> BlockPacket {
    let header = Header::new(100, count % 1000, 3, 25);
    let data = Octets::new(Vec::new(rt.alloc())).expect(rt, "memory");
    let packet = Packet::tm(header, 0, 0, 0, data);
    BlockPacket::of(packet).expect(rt, "a short packet")
}

fn answer_of(answer: &Put) -> Told {
    match answer {
        Put::Kept(time) => Kept(*time),
        Put::KeptOver(time, oldest) => KeptOver(*time, oldest.packet().count()),
        Put::Lost(packet) => Lost(packet.packet().count()),
        Put::ClockEnd(packet) => ClockEnd(packet.packet().count()),
    }
}

fn first_in<S: PacketStore>(store: &S, from: u64, to: u64, after: u64) -> Told {
    match store.first_in(from, to, after) {
        Some((time, packet)) => First(time, packet.packet().count()),
        None => Nothing,
    }
}

fn state<S: PacketStore>(store: &S) -> Told {
    State(
        store.size(),
        store.len(),
        store.oldest(),
        store.newest(),
        store.last_time(),
    )
}

// The result of a call.
fn answer_to<S: PacketStore>(rt: &impl Host, store: &mut S, call: Call) -> Told {
    match call {
        PutAt(now, count) => answer_of(&store.put(now, packet(rt, count))),
        FirstIn(from, to, after) => first_in(store, from, to, after),
        DeleteUpTo(limit) => Deleted(store.delete_up_to(limit) as usize),
        AskState => state(store),
    }
}

// Makes the calls, each of which must give the result of its step.
fn run<S: PacketStore>(rt: &impl Host, store: &mut S, steps: &[Step]) {
    for (place, (call, wanted)) in steps.iter().enumerate() {
        let told = answer_to(rt, store, *call);
        assert!(rt; told == *wanted, "at the call {place}");
    }
}

fn is_of_kind(rt: &impl Host, store: &AnyStore, kind: Kind) {
    assert!(rt; store.kind() == kind);
}

// Makes these calls, and then the others.
fn run_both<S: PacketStore>(rt: &impl Host, store: &mut S, steps: &[Step], others: &[Step]) {
    run(rt, store, steps);
    run(rt, store, others);
}

// Makes the calls on a new ring.
fn on_ring(rt: &impl Host, size: u32, steps: &[Step], others: &[Step])
    requires lowest { 1 ≤ size }
    requires highest { size ≤ MAX_BLOCKS }
{
    let mut store = RingStore::new(rt.alloc(), size).expect(rt, "memory");
    run_both(rt, &mut store, steps, others);
}

// Makes the calls on a new table of blocks.
fn on_table(rt: &impl Host, size: u32, steps: &[Step], others: &[Step])
    requires lowest { 1 ≤ size }
    requires highest { size ≤ MAX_BLOCKS }
{
    let mut store = BlockStore::new(rt.alloc(), size).expect(rt, "memory");
    run_both(rt, &mut store, steps, others);
}

// Makes the calls on a new store of this kind.
fn on_any(rt: &impl Host, kind: Kind, size: u32, steps: &[Step], others: &[Step])
    requires lowest { 1 ≤ size }
    requires highest { size ≤ MAX_BLOCKS }
{
    let mut store = AnyStore::new(rt.alloc(), kind, size).expect(rt, "memory");
    is_of_kind(rt, &store, kind);
    run_both(rt, &mut store, steps, others);
}

// Makes the calls on a new store of each type: the first ones on all, and then those of its kind.
fn on_each_type(rt: &impl Host, size: u32, all: &[Step], circular: &[Step], bounded: &[Step])
    requires lowest { 1 ≤ size }
    requires highest { size ≤ MAX_BLOCKS }
{
    on_ring(rt, size, all, circular);
    on_table(rt, size, all, bounded);
    on_any(rt, Kind::Circular, size, all, circular);
    on_any(rt, Kind::Bounded, size, all, bounded);
}

static TIMES_RISE: [Step; 10] = wanted! {
    AskState => State(4, 0, 0, 0, 0); PutAt(7, 1) => Kept(7); PutAt(7, 2) => Kept(8);
    AskState => State(4, 2, 7, 8, 8); DeleteUpTo(7) => Deleted(1); PutAt(LAST, 3) => Kept(LAST);
    PutAt(LAST, 4) => ClockEnd(4); FirstIn(0, LAST, 0) => First(8, 2);
    FirstIn(0, LAST, 8) => First(LAST, 3); FirstIn(0, LAST, LAST) => Nothing;
};

#[test]
fn times_rise(rt: HostRuntime) {
    on_each_type(&rt, 4, &TIMES_RISE, &[], &[]);
}

static BLOCKS_REUSED: [Step; 10] = wanted! {
    PutAt(1, 1) => Kept(1); PutAt(2, 2) => Kept(2); PutAt(3, 3) => Kept(3);
    DeleteUpTo(2) => Deleted(2); PutAt(4, 4) => Kept(4); PutAt(5, 5) => Kept(5);
    FirstIn(1, 9, 0) => First(3, 3); FirstIn(1, 9, 3) => First(4, 4);
    FirstIn(1, 9, 4) => First(5, 5); FirstIn(1, 9, 5) => Nothing;
};

static A_FULL_RING: [Step; 3] = wanted! {
    PutAt(6, 6) => KeptOver(6, 3); DeleteUpTo(9) => Deleted(3); AskState => State(3, 0, 0, 0, 6);
};

static A_FULL_TABLE: [Step; 3] = wanted! {
    PutAt(6, 6) => Lost(6); DeleteUpTo(9) => Deleted(3); AskState => State(3, 0, 0, 0, 5);
};

#[test]
fn blocks_reused(rt: HostRuntime) {
    on_each_type(&rt, 3, &BLOCKS_REUSED, &A_FULL_RING, &A_FULL_TABLE);
}

// A packet that a full bounded store refuses gets no time. The clock ends for a full store and for an empty one.
static ONE_BLOCK_CIRCULAR: [Step; 9] = wanted! {
    PutAt(0, 1) => Kept(1); PutAt(0, 2) => KeptOver(2, 1); AskState => State(1, 1, 2, 2, 2);
    DeleteUpTo(2) => Deleted(1); PutAt(LAST, 3) => Kept(LAST);
    AskState => State(1, 1, LAST, LAST, LAST); PutAt(0, 4) => ClockEnd(4);
    DeleteUpTo(LAST) => Deleted(1); PutAt(0, 5) => ClockEnd(5);
};

static ONE_BLOCK_BOUNDED: [Step; 8] = wanted! {
    PutAt(0, 1) => Kept(1); PutAt(0, 2) => Lost(2); AskState => State(1, 1, 1, 1, 1);
    DeleteUpTo(1) => Deleted(1); PutAt(LAST, 3) => Kept(LAST); PutAt(0, 4) => ClockEnd(4);
    DeleteUpTo(LAST) => Deleted(1); PutAt(0, 5) => ClockEnd(5);
};

#[test]
fn a_store_of_one_block_and_the_end_of_the_clock(rt: HostRuntime) {
    on_each_type(&rt, 1, &[], &ONE_BLOCK_CIRCULAR, &ONE_BLOCK_BOUNDED);
}

#[test]
fn a_thousand_puts_and_deletes_are_those_of_a_plain_list(rt: HostRuntime) {
    let circular = drawn(&rt, Kind::Circular);
    let bounded = drawn(&rt, Kind::Bounded);
    on_each_type(&rt, 7, &[], &circular, &bounded);
}

static TWO_PUTS: [Step; 2] = wanted! { PutAt(7, 1) => Kept(7); PutAt(8, 2) => Kept(8); };

static TWO_HELD: [Step; 3] = wanted! {
    AskState => State(2, 2, 7, 8, 8); FirstIn(0, LAST, 0) => First(7, 1);
    FirstIn(0, LAST, 7) => First(8, 2);
};

static FULL_RING: [Step; 1] = wanted! { PutAt(9, 3) => KeptOver(9, 1); };

static FULL_TABLE: [Step; 1] = wanted! { PutAt(9, 3) => Lost(3); };

static ROOM_OF_A_RING: [Step; 2] = wanted! {
    AskState => State(3, 2, 8, 9, 9); PutAt(20, 4) => Kept(20);
};

static ROOM_OF_A_TABLE: [Step; 2] = wanted! {
    AskState => State(3, 2, 7, 8, 8); PutAt(20, 4) => Kept(20);
};

// A store that holds two packets, at 7 and 8.
fn two_held(rt: &impl Host, kind: Kind) -> AnyStore {
    let mut store = AnyStore::new(rt.alloc(), kind, 2).expect(rt, "memory");
    run(rt, &mut store, &TWO_PUTS);
    store
}

// The store becomes one of this kind, and holds the same packets.
fn changes_kind(rt: &impl Host, store: &mut AnyStore, kind: Kind) {
    store.change_kind(kind).expect(rt, "memory");
    is_of_kind(rt, store, kind);
    run(rt, store, &TWO_HELD);
}

// The store refuses a size below what it holds, and holds the same packets.
fn keeps_its_size(rt: &impl Host, store: &mut AnyStore) {
    assert!(rt; store.resize(1) == Err(Fault::HoldsMore));
    run(rt, store, &TWO_HELD);
}

// A store that holds two packets becomes one of another kind, and then larger: its results when it is full, and when it
// has room.
fn changes(rt: &impl Host, from: Kind, to: Kind, when_full: &[Step], with_room: &[Step]) {
    let mut store = two_held(rt, from);
    changes_kind(rt, &mut store, to);
    keeps_its_size(rt, &mut store);
    run(rt, &mut store, when_full);
    store.resize(3).expect(rt, "memory");
    run(rt, &mut store, with_room);
}

#[test]
fn a_circular_store_becomes_a_bounded_one_and_larger(rt: HostRuntime) {
    let (when_full, with_room) = (&FULL_TABLE, &ROOM_OF_A_TABLE);
    changes(&rt, Kind::Circular, Kind::Bounded, when_full, with_room);
}

#[test]
fn a_bounded_store_becomes_a_circular_one_and_larger(rt: HostRuntime) {
    let (when_full, with_room) = (&FULL_RING, &ROOM_OF_A_RING);
    changes(&rt, Kind::Bounded, Kind::Circular, when_full, with_room);
}

static ONE_PUT: [Step; 1] = wanted! { PutAt(1, 1) => Kept(1); };

static OLDEST_GIVEN_UP: [Step; 2] = wanted! {
    AskState => State(1, 1, 1, 1, 1); PutAt(2, 2) => KeptOver(2, 1);
};

static NEWEST_LOST: [Step; 2] = wanted! {
    AskState => State(1, 1, 1, 1, 1); PutAt(2, 2) => Lost(2);
};

// A store of two blocks with one packet becomes one of one block: its results after that.
macro_rules! resized {
    ($rt:expr, $store:ident, $steps:expr) => {{
        let mut store = $store::new($rt.alloc(), 2).expect($rt, "memory");
        run($rt, &mut store, &ONE_PUT);
        store.resize(1).expect($rt, "memory");
        run($rt, &mut store, $steps);
    }};
}

#[test]
fn stores_of_each_type_are_resized(rt: HostRuntime) {
    resized!(&rt, RingStore, &OLDEST_GIVEN_UP);
    resized!(&rt, BlockStore, &NEWEST_LOST);
}

// A packet with this sequence count, as a store holds it.
fn stored(rt: &impl Host, time: u64, count: u16) -> Stored {
    let packet = packet(rt, count);
    Stored { time, packet }
}

// Whether it is equal to the packet with this time and this sequence count.
fn equals(rt: &impl Host, one: &Stored, time: u64, count: u16) -> bool {
    one.is(&stored(rt, time, count))
}

#[test]
fn stored_packets_are_equal_with_their_times(rt: HostRuntime) {
    let one = stored(&rt, 7, 1);
    let answers = [
        equals(&rt, &one, 7, 1),
        equals(&rt, &one, 8, 1),
        equals(&rt, &one, 7, 2),
    ];
    assert!(rt; answers == [true, false, false]);
}

#[test]
fn a_refusal_is_shown_by_number_and_name(rt: HostRuntime) {
    is_shown(&rt, &Fault::HoldsMore, "9 HoldsMore");
}
