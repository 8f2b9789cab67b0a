//! Memories, and the requests that are applied to them.
use crate::tests::samples::{Host, PACKET, TWO_STORES, block, holds, id, is_shown, memory_of};
use mm_base::{Kind, Refused, RouteRow, StoreId};
use mm_desk::Offered;
use mm_memory::{Answer, Fault, Memory};
use mm_packet::Packet;
use mm_st15::Request;
use mm_store::PacketStore;

// Plays: a name, a setup, and what is done and seen in turn.
macro_rules! plays {
    ($($name:literal, $setup:ident { $($step:ident $args:tt)* })*) => {
        [$(Play { name: $name, setup: $setup, steps: &[$(Step::$step $args),*] }),*]
    };
}

mod applying;
mod refusals;

// The octets of a telecommand of the service with a subtype and these data.
fn octets_of(rt: &impl Host, subtype: u8, data: &[u8]) -> Vec<u8> {
    let length = u16::try_from(data.len().saturating_add(4)).unwrap_or(0);
    let [high, low] = length.to_be_bytes();
    let head = [0x18, 0x64, 0xC0, 0, high, low, 0x20, 15, subtype, 0, 0];
    [head.as_slice(), data]
        .concat(rt.alloc())
        .expect(rt, "memory")
}

// The request of a subtype with these octets for its data.
fn request_of(rt: &impl Host, subtype: u8, data: &[u8]) -> Request {
    let octets = octets_of(rt, subtype, data);
    let (packet, _rest) = Packet::parse(rt.alloc(), &octets).expect(rt, "a packet");
    Request::read(rt.alloc(), &packet).expect(rt, "a request")
}

// Whether a request of a subtype with its data, which is asked at the moment 1, has these answers, and no report.
fn asks(rt: &impl Host, memory: &mut Memory, asking: (u8, &[u8]), want: &[Answer]) -> bool {
    let request = request_of(rt, asking.0, asking.1);
    let answers = memory.apply(rt.alloc(), 1, &request).expect(rt, "memory");
    answers.each.as_slice() == want && answers.reports.is_empty()
}

// The kind, the size and the number of packets of a store, and whether its storage is on.
type Shape = (Kind, u32, u32, bool);

fn shape(memory: &Memory, id: &StoreId) -> Option<Shape> {
    let state = memory.state(id)?;
    let store = state.store();
    Some((store.kind(), store.size(), store.len(), state.storage()))
}

// What a store answers, in a word, and the time of a packet that is kept or given.
type Told = (&'static str, u64);

// Offers a packet to a store at a moment.
fn offered(rt: &impl Host, memory: &mut Memory, id: &StoreId, now: u64) -> Told {
    let Some(state) = memory.state_mut(id) else {
        return ("no store", 0);
    };
    let answer = state.offer(now, block(rt, &PACKET));
    match &answer {
        Ok(Offered::Kept(time)) => ("kept", *time),
        Ok(Offered::KeptOver(time, _)) => ("kept over", *time),
        Ok(Offered::Lost(_)) => ("lost", 0),
        Err(back) => (back.fault.name(), 0),
    }
}

// Asks a store's retrieval for the next packet.
fn next_of(memory: &mut Memory, id: &StoreId) -> Told {
    let Some(state) = memory.state_mut(id) else {
        return ("no store", 0);
    };
    match state.next() {
        Ok(Some((time, _))) => ("given", time),
        Ok(None) => ("end", 0),
        Err(fault) => (fault.name(), 0),
    }
}

// Whether the store at this place has this identifier and this virtual channel.
fn stands(memory: &Memory, place: u32, id: &StoreId, channel: u8) -> bool {
    memory.entry(place) == Some((*id, channel))
}

// Whether there are this many stores, and this many routes.
fn has_counts(memory: &Memory, stores: usize, routes: usize) -> bool {
    memory.stores().len() == stores && memory.control().list().len() == routes
}

// Whether a store is there, and has this shape.
fn has_shape(memory: &Memory, id: &StoreId, want: Shape) -> bool {
    shape(memory, id) == Some(want)
}

// What is done with a memory, and what is seen of it.
enum Step {
    // A request of this subtype with these data, which has no report, and the answers to its instructions.
    Ask(u8, &'static [u8], &'static [Answer]),
    // A packet is offered to a store at a moment.
    Offer(&'static [u8], u64, Told),
    // The retrieval of a store is asked for its next packet.
    Next(&'static [u8], Told),
    Has(&'static [u8], Shape),
    // The store at a place, with its virtual channel.
    Stands(u32, &'static [u8], u8),
    // How many stores there are, and how many routes.
    Counts(usize, usize),
}

// Steps in turn, over the memory of a setup.
struct Play {
    name: &'static str,
    setup: &'static str,
    steps: &'static [Step],
}

// Takes a step, and says whether it comes to what is wanted.
fn takes(rt: &impl Host, memory: &mut Memory, step: &Step) -> bool {
    match step {
        Step::Ask(subtype, data, want) => asks(rt, memory, (*subtype, data), want),
        Step::Offer(store, now, want) => offered(rt, memory, &id(rt, store), *now) == *want,
        Step::Next(store, want) => next_of(memory, &id(rt, store)) == *want,
        Step::Has(store, want) => has_shape(memory, &id(rt, store), *want),
        Step::Stands(place, store, channel) => stands(memory, *place, &id(rt, store), *channel),
        Step::Counts(stores, routes) => has_counts(memory, *stores, *routes),
    }
}

// The steps of a play, one after another, over the memory of its setup.
fn is_played(rt: &impl Host, play: &Play) {
    let mut memory = memory_of(rt, play.setup);
    for (place, step) in play.steps.iter().enumerate() {
        let is_so = takes(rt, &mut memory, step);
        assert!(rt; is_so, "{}: at {place}", play.name);
    }
}

// Each play by itself.
fn each_is_played(rt: &impl Host, plays: &[Play]) {
    for play in plays {
        is_played(rt, play);
    }
}

// Whether there are the two stores of the setup, empty, and its route.
fn is_whole(rt: &impl Host, memory: &Memory) -> bool {
    let (sci, hk) = (id(rt, b"SCI"), id(rt, b"HK"));
    has_counts(memory, 2, 1)
        && stands(memory, 0, &sci, 0)
        && stands(memory, 1, &hk, 3)
        && has_shape(memory, &sci, (Kind::Bounded, 4, 0, true))
        && has_shape(memory, &hk, (Kind::Circular, 2, 0, true))
}

// Whether nothing stands at a place, and no store has an identifier.
fn lacks(memory: &mut Memory, place: u32, id: &StoreId) -> bool {
    memory.entry(place).is_none() && shape(memory, id).is_none() && memory.state_mut(id).is_none()
}

#[test]
fn stores_stand_in_setup_order(rt: HostRuntime) {
    let mut memory = memory_of(&rt, TWO_STORES);
    holds(&rt, is_whole(&rt, &memory), "both stores");
    holds(&rt, lacks(&mut memory, 2, &id(&rt, b"XY")), "no other");
}

// Whether telemetry of APID 100, service 3 and a subtype goes into these stores.
fn leads_to(rt: &impl Host, memory: &Memory, subtype: u8, want: &[StoreId]) -> bool {
    let stores = memory.control().stores_for(rt.alloc(), 100, 3, subtype);
    stores.expect(rt, "memory").as_slice() == want
}

// Whether the one route is of APID 100, service 3, subtype 25, to this store.
fn has_one_route(memory: &Memory, store: StoreId) -> bool {
    let (apid, service, subtype) = (100, 3, 25);
    let row = RouteRow {
        apid,
        service,
        subtype,
        store,
    };
    memory.control().list() == [row].as_slice()
}

#[test]
fn routes_of_setup(rt: HostRuntime) {
    let memory = memory_of(&rt, TWO_STORES);
    let sci = id(&rt, b"SCI");
    holds(&rt, has_one_route(&memory, sci), "the route");
    holds(&rt, leads_to(&rt, &memory, 25, &[sci]), "subtype 25");
    holds(&rt, leads_to(&rt, &memory, 26, &[]), "subtype 26");
}

// While the stores are lifted the memory has its route, and no store.
fn are_put_back(rt: &impl Host, memory: &mut Memory) {
    holds(rt, is_whole(rt, memory), "before");
    let stores = memory.lift();
    let are_lifted = stores.len() == 2 && has_counts(memory, 0, 1) && memory.entry(0).is_none();
    holds(rt, are_lifted, "lifted");
    memory.restore(stores);
    holds(rt, is_whole(rt, memory), "restored");
}

#[test]
fn lifted_stores_are_put_back(rt: HostRuntime) {
    are_put_back(&rt, &mut memory_of(&rt, TWO_STORES));
}

// Sets the storage of a store off, by the state that the memory lends.
fn disable(rt: &impl Host, memory: &mut Memory, id: &StoreId) {
    memory.state_mut(id).expect(rt, "a store").disable();
}

#[test]
fn a_lent_state_is_the_store_s_state(rt: HostRuntime) {
    let mut memory = memory_of(&rt, TWO_STORES);
    let (sci, hk) = (id(&rt, b"SCI"), id(&rt, b"HK"));
    disable(&rt, &mut memory, &hk);
    holds(
        &rt,
        has_shape(&memory, &hk, (Kind::Circular, 2, 0, false)),
        "lent",
    );
    holds(
        &rt,
        has_shape(&memory, &sci, (Kind::Bounded, 4, 0, true)),
        "not lent",
    );
}

// Its own refusals and those of the crates below it are printed so.
#[test]
fn refusals_are_printed_with_number_and_name(rt: HostRuntime) {
    is_shown(&rt, &Fault::TooManyStores, "25 TooManyStores");
    is_shown(&rt, &Fault::State(mm_desk::Fault::Busy), "18 Busy");
}
