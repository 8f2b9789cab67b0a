//! Where the packets of a run are: each has a sequence count of its own, from 1 on.

use callers::radio::{Modem, Radio};
use mm_desk::StoreState;
use mm_packet::Packet;
use mm_record::Source;
use mm_store::PacketStore;
use std::alloc::Global;

/// A set of packets, a bit for each sequence count. Nothing where one of them was added twice, or its count is none of
/// a run.
pub(crate) type Packets = Option<u32>;

// A set with one packet more.
fn with(packets: Packets, count: u16) -> Packets {
    let (packets, one) = (packets?, 1u32.checked_shl(u32::from(count))?);
    if packets & one == 0 {
        Some(packets | one)
    } else {
        None
    }
}

// The packets of two sets, of which none is in both.
fn joined(one: Packets, other: Packets) -> Packets {
    let (one, other) = (one?, other?);
    if one & other == 0 {
        Some(one | other)
    } else {
        None
    }
}

/// A modem that notes which packets it has sent, and takes no memory for that.
#[derive(Drop)]
pub(crate) struct Noting {
    sent: Packets,
}

impl Modem for Noting {
    fn transmit(&mut self, packet: &Packet) -> bool {
        self.sent = with(self.sent, packet.count());
        true
    }
}

// For this many packets a link has room from the beginning.
const ROOM: usize = 16;

/// A link that takes no memory for what is sent over it.
pub(crate) type TestLink = Radio<Noting>;

/// This many links, where there is memory for them.
pub(crate) fn new_links(alloc: Global, many: u32) -> Option<Vec<TestLink>> {
    let mut links = Vec::new(alloc);
    for _ in 0..many {
        let link = Radio {
            modem: Noting { sent: Some(0) },
            notes: Vec::with_capacity(alloc, ROOM).ok()?,
            failed: 0,
        };
        links.push(link).ok()?;
    }
    Some(links)
}

/// The packets that links have sent.
pub(crate) fn sent_over(links: &[TestLink]) -> Packets {
    let mut packets = Some(0);
    for link in links {
        packets = joined(packets, link.modem.sent);
    }
    packets
}

// The time of the oldest packet after a time, and its sequence count.
fn next_after(state: &StoreState, after: u64) -> Option<(u64, u16)> {
    let (time, packet) = state.store().first_in(0, u64::MAX, after)?;
    Some((time, packet.packet().count()))
}

// The packets that a store holds, whose times rise.
fn held_by(state: &StoreState) -> Packets {
    let mut packets = Some(0);
    let mut after = 0;
    for _ in 0..state.store().len() {
        let (time, count) = next_after(state, after)?;
        if time <= after {
            return None;
        }
        packets = with(packets, count);
        after = time;
    }
    match next_after(state, after) {
        None => packets,
        Some(_) => None,
    }
}

// A set with the packets that a source still gives in a step.
fn with_left<S: Source>(packets: Packets, source: &mut S, step: u32) -> Packets {
    let mut packets = packets;
    for _ in 0..source.left(step) {
        packets = with(packets, source.next(step)?.packet().count());
    }
    packets
}

// The packets that sources still give in the three steps of a run, in order.
fn left_in<S: Source>(sources: &mut [S]) -> Packets {
    let mut packets = Some(0);
    for source in sources.iter_mut() {
        for step in 1..4 {
            packets = with_left(packets, source, step);
        }
    }
    packets
}

/// Whether the storage of a store is on, no retrieval is, and it holds no more than it has room for.
pub(crate) fn is_ready(state: &StoreState) -> bool {
    let store = state.store();
    state.storage() && state.retrieval().is_none() && store.len() <= store.size()
}

/// How many of this many packets a run's sources gave, and how many of these were sent. Nothing where a packet is not
/// in one place alone: still in a source, in the store, sent and deleted, or counted as lost; or where the store is not
/// ready for another run.
pub(crate) fn given_and_sent<S: Source>(
    packets: u32,
    state: &StoreState,
    sources: &mut [S],
    links: &[TestLink],
) -> Option<(u32, u32)> {
    let (left, sent) = (left_in(sources), sent_over(links));
    let found = joined(joined(held_by(state), sent), left)?.count_ones();
    let (given, sent) = (
        packets.saturating_sub(left?.count_ones()),
        sent?.count_ones(),
    );
    let lost = packets.saturating_sub(found);
    let counters = [state.offered(), state.lost(), state.deleted()];
    if is_ready(state) && counters == [given, lost, sent].map(u64::from) {
        Some((given, sent))
    } else {
        None
    }
}
