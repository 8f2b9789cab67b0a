//! A link in memory, for trials without a ground station.
ghost use Rattle.std.specs.Prelude.{◌≡◌, ◌+◌, ◌-◌, ◌<◌, ◌^◌, map};
ghost use Rattle.mm_dump.specs.Sending.{new_memory_link, sent_of};

use crate::link::{Link, SendFailed};
use mm_base::StoreId;
use mm_packet::BlockPacket;
use mm_store::Stored;
use std::alloc::Global;
use std::marker::Model;

/// A packet that a link took: its store, and the packet with its storage time.
#[derive(Drop)]
pub struct TakenPacket {
    pub store: StoreId,
    pub stored: Stored,
}

/// A link that keeps what is sent over it. It fails once, after a number of sends, or never, and where memory for a
/// packet is refused.
#[derive(Drop)]
pub struct MemoryLink {
    alloc: Global,
    until: Option<u64>,
    failed: u64,
    taken: Vec<TakenPacket>,
}

impl Model for MemoryLink {
    ghost use Rattle.std.specs.Prelude.{map};
    ghost use Rattle.mm_dump.specs.Sending.{MemoryLinkView, sent_of};

    ghost Value = { MemoryLinkView };

    ghost view = { λ w. record { sent = map sent_of w.taken.items; failed = w.failed } };
}

impl MemoryLink {
    /// A link that fails once, after this many sends, or never.
    pub fn new(alloc: Global, until: Option<u64>) -> MemoryLink
        ensures new { result ≡ new_memory_link }
    {
        MemoryLink {
            alloc,
            until,
            failed: 0,
            taken: Vec::new(alloc),
        }
    }

    /// What it took, in order.
    pub fn taken(&self) -> &[TakenPacket]
        ensures taken { map sent_of result.now ≡ self.now.sent }
    {
        self.taken.as_slice()
    }

    /// Counts a send that fails.
    pub fn refuse(&mut self) -> SendFailed
        requires room { self.old.failed < 2 ^ 64 - 1 }
        ensures after { self.new ≡ record self.old { failed = self.old.failed + 1 } }
    {
        self.failed += 1;
        SendFailed
    }

    // Whether this send is to be taken.
    fn takes(&mut self) -> bool
        ensures same { self.new ≡ self.old }
    {
        let Some(more) = self.until else {
            return true;
        };
        self.until = more.checked_sub(1);
        more > 0
    }
}

impl Link for MemoryLink {
    ghost sent = { λ wire. wire.sent };

    ghost failed = { λ wire. wire.failed };

    fn send(&mut self, store: &StoreId, time: u64, packet: &BlockPacket) -> Result<(), SendFailed> {
        if !self.takes() {
            return Err(self.refuse());
        }
        let Ok(packet) = packet.copy(self.alloc) else {
            return Err(self.refuse());
        };
        let taken = TakenPacket {
            store: *store,
            stored: Stored { time, packet },
        };
        match self.taken.push(taken) {
            Ok(()) => Ok(()),
            Err(_) => Err(self.refuse()),
        }
    }

    fn failures(&self) -> u64 {
        self.failed
    }
}
