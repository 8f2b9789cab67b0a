//! Requests that change stores, the storage control and retrievals.
use super::{Play, Step, each_is_played};
use crate::tests::samples::{ONE_STORE, TWO_STORES};
use mm_base::Kind;
use mm_control::Fault::NoSuchRoute;
use mm_desk::Fault::{BadRange, Busy, HoldsMore, Idle, StorageOn};
use mm_memory::Answer::{Done, Refused};
use mm_memory::Fault::{BadId, BadSize, Control, Exists, NoSuchStore, State};

static ON_EMPTY_STORES: [Play; 7] = plays! {
    "create two stores", ONE_STORE {
        Ask(20, b"\x02SCI     \x00\x00\x00\x04\x01\x00HK      \x00\x00\x00\x02\x00\x01", &[Refused(Exists), Done])
        Stands(1, b"HK", 1) Has(b"HK", (Kind::Circular, 2, 0, false))
    }
    "malformed identifier beside a good one", ONE_STORE {
        Ask(2, b"\x02sci     SCI     ", &[Refused(BadId), Done]) Has(b"SCI", (Kind::Bounded, 4, 0, false))
    }
    "delete store with routes", TWO_STORES {
        Counts(2, 1)
        Ask(21, b"\x01SCI     ", &[Refused(State(StorageOn))]) Ask(2, b"\x01SCI     ", &[Done])
        Ask(21, b"\x01SCI     ", &[Done])
        Ask(1, b"\x01SCI     ", &[Refused(NoSuchStore)])
        Ask(20, b"\x01SCI     \x00\x00\x00\x00\x01\x00", &[Refused(BadSize)])
        Stands(0, b"HK", 3) Counts(1, 0)
    }
    "retrieval makes busy", ONE_STORE {
        Ask(9, b"\x01SCI     \0\0\0\0\0\0\0\x01\0\0\0\0\0\0\0\xFF", &[Done])
        Ask(11, b"\x01SCI     \0\0\0\0\0\0\0\xFF", &[Refused(State(Busy))]) Ask(17, b"\x01SCI     ", &[Done])
        Ask(11, b"\x01SCI     \0\0\0\0\0\0\0\xFF", &[Done]) Ask(17, b"\x01SCI     ", &[Refused(State(Idle))])
    }
    "routes added and deleted", ONE_STORE {
        Ask(4, b"\x01SCI     \x00\x64\x03\x1A", &[Refused(Control(NoSuchRoute))]) Counts(1, 1)
        Ask(3, b"\x01SCI     \x00\x64\x03\x19", &[Done]) Counts(1, 1)
        Ask(3, b"\x01SCI     \x00\x64\x03\x1A", &[Done]) Counts(1, 2)
        Ask(4, b"\x01SCI     \x00\x64\x03\x19", &[Done]) Counts(1, 1)
        Ask(4, b"\x01SCI     \x00\x64\x03\x19", &[Refused(Control(NoSuchRoute))]) Counts(1, 1)
    }
    "another channel", ONE_STORE {
        Ask(28, b"\x01SCI     \x05", &[Refused(State(StorageOn))]) Ask(2, b"\x01SCI     ", &[Done])
        Ask(28, b"\x01SCI     \x05", &[Done]) Stands(0, b"SCI", 5)
    }
    "a created store stands last", TWO_STORES {
        Ask(2, b"\x01SCI     ", &[Done]) Ask(21, b"\x01SCI     ", &[Done])
        Ask(20, b"\x01SCI     \x00\x00\x00\x02\x00\x07", &[Done])
        Ask(27, b"\x01SCI     ", &[Done]) Ask(27, b"\x01SCI     ", &[Done])
        Ask(25, b"\x01SCI     \x00\x00\x00\x03", &[Done])
        Stands(0, b"HK", 3) Stands(1, b"SCI", 7) Has(b"SCI", (Kind::Bounded, 3, 0, false))
    }
};

#[test]
fn requests_change_stores_and_routes(rt: HostRuntime) {
    each_is_played(&rt, &ON_EMPTY_STORES);
}

// The stores SCI (bounded, of four blocks) and HK (circular, of two) hold packets at the times 7 and 8, and then requests come.
static ON_HELD_PACKETS: [Play; 3] = plays! {
    "a store that holds more is not resized", TWO_STORES {
        Offer(b"SCI", 7, ("kept", 7)) Offer(b"SCI", 7, ("kept", 8))
        Offer(b"HK", 7, ("kept", 7)) Offer(b"HK", 7, ("kept", 8))
        Ask(25, b"\x01SCI     \0\0\0\0", &[Refused(BadSize)])
        Ask(25, b"\x01SCI     \0\0\0\x01", &[Refused(State(StorageOn))])
        Ask(9, b"\x01SCI     \0\0\0\0\0\0\0\x01\0\0\0\0\0\0\0\xFF", &[Done])
        Ask(2, b"\x01SCI     ", &[Done]) Ask(25, b"\x01SCI     \0\0\0\x01", &[Refused(State(Busy))])
        Ask(17, b"\x01SCI     ", &[Done]) Ask(25, b"\x01SCI     \0\0\0\x01", &[Refused(State(HoldsMore))])
        Ask(25, b"\x01SCI     \0\0\0\x02", &[Done]) Ask(1, b"\x01SCI     ", &[Done])
        Has(b"SCI", (Kind::Bounded, 2, 2, true)) Offer(b"SCI", 9, ("lost", 0))
    }
    "change kind and resize", TWO_STORES {
        Offer(b"SCI", 7, ("kept", 7)) Offer(b"SCI", 7, ("kept", 8))
        Offer(b"HK", 7, ("kept", 7)) Offer(b"HK", 7, ("kept", 8))
        Ask(27, b"\x01HK      ", &[Refused(State(StorageOn))]) Ask(2, b"\x01HK      ", &[Done])
        Ask(27, b"\x01HK      ", &[Done])
        Ask(25, b"\x01HK      \0\0\0\x01", &[Refused(State(HoldsMore))]) Ask(25, b"\x01HK      \0\0\0\x02", &[Done])
        Ask(1, b"\x01HK      ", &[Done])
        Has(b"HK", (Kind::Bounded, 2, 2, true)) Offer(b"HK", 9, ("lost", 0))
        Ask(26, b"\x01SCI     ", &[Refused(State(StorageOn))]) Ask(2, b"\x01SCI     ", &[Done])
        Ask(26, b"\x01SCI     ", &[Done])
        Ask(25, b"\x01SCI     \0\0\0\x02", &[Done]) Ask(1, b"\x01SCI     ", &[Done])
        Has(b"SCI", (Kind::Circular, 2, 2, true)) Offer(b"SCI", 9, ("kept over", 9))
    }
    "retrieval by range", TWO_STORES {
        Offer(b"SCI", 7, ("kept", 7)) Offer(b"SCI", 7, ("kept", 8))
        Offer(b"HK", 7, ("kept", 7)) Offer(b"HK", 7, ("kept", 8))
        Offer(b"SCI", 9, ("kept", 9))
        Ask(9, b"\x01SCI     \0\0\0\0\0\0\0\x09\0\0\0\0\0\0\0\x08", &[Refused(State(BadRange))])
        Ask(9, b"\x01SCI     \0\0\0\0\0\0\0\x08\0\0\0\0\0\0\0\x08", &[Done])
        Ask(9, b"\x01SCI     \0\0\0\0\0\0\0\x08\0\0\0\0\0\0\0\x08", &[Refused(State(Busy))])
        Next(b"SCI", ("given", 8)) Next(b"SCI", ("end", 0))
        Ask(17, b"\x01SCI     ", &[Refused(State(Idle))]) Ask(11, b"\x01SCI     \0\0\0\0\0\0\0\x08", &[Done])
        Ask(2, b"\x01SCI     ", &[Done])
        Has(b"SCI", (Kind::Bounded, 4, 1, false)) Offer(b"SCI", 10, ("Disabled", 0))
    }
};

#[test]
fn requests_on_stores_that_hold_packets(rt: HostRuntime) {
    each_is_played(&rt, &ON_HELD_PACKETS);
}
