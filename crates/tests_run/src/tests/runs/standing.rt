//! What can be seen of a memory, to be compared before and after a call.

use crate::tests::runs::trials::Trial;
use crate::tests::samples::{counts, next_after};
use mm_base::{Kind, RouteRow, StoreId};
use mm_desk::StoreState;
use mm_store::PacketStore;
use std::process::Abort;

// Of a store its identifier and its channel, its counters and how many packets it holds, its last time, its size and
// its kind, and whether storage and a retrieval are on.
type Stands = (StoreId, u8, [u64; 4], u64, u32, Kind, [bool; 2]);

// The time, the APID and the sequence count of a packet.
type Stored = (u64, u16, u16);

// The stores of a memory, their packets, and the routes.
pub(crate) type Standing = (Vec<Stands>, Vec<Stored>, Vec<RouteRow>);

// The packets that a store holds.
fn push_packets(rt: &impl Abort, list: &mut Vec<Stored>, state: &StoreState) {
    let mut after = 0;
    for _ in 0..state.store().len() {
        let packet = next_after(state, after).expect(rt, "one more packet");
        list.push(packet).expect(rt, "memory");
        after = packet.0;
    }
}

pub(crate) fn standing(rt: &impl Abort, trial: &Trial) -> Standing {
    let (mut stores, mut packets) = (Vec::new(trial.alloc), Vec::new(trial.alloc));
    for held in trial.memory.stores() {
        let (state, store) = (&held.state, held.state.store());
        let (time, size, kind) = (store.last_time(), store.size(), store.kind());
        let on = [state.storage(), state.retrieval().is_some()];
        let stands = (held.id, held.channel, counts(state), time, size, kind, on);
        stores.push(stands).expect(rt, "memory");
        push_packets(rt, &mut packets, state);
    }
    let routes = trial.memory.control().list().to_vec(trial.alloc);
    (stores, packets, routes.expect(rt, "memory"))
}
