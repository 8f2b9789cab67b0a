//! A link that keeps nothing of what is sent over it.
ghost use Rattle.std.specs.Prelude.{◌≡◌, []};

use mm_base::StoreId;
use mm_dump::{Link, SendFailed};
use mm_packet::{BlockPacket, Packet};
use std::alloc::Global;
use std::snapshot::Snapshot;

/// What puts a packet on the air, and answers whether it did.
pub trait Modem {
    fn transmit(&mut self, packet: &Packet) -> bool;
}

/// A packet that was sent, for contracts alone: it has no bytes, and neither has a list of such.
#[derive(Drop)]
pub struct Note {
    pub store: Snapshot<StoreId>,
    pub time: Snapshot<u64>,
    pub packet: Snapshot<BlockPacket>,
}

/// A link over a modem. It counts its failures, and keeps nothing for each packet.
#[derive(Drop)]
pub struct Radio<M: Modem + Drop> {
    pub modem: M,
    pub notes: Vec<Note>,
    pub failed: u64,
}

impl<M: Modem + Drop> Radio<M> {
    /// A link over which nothing was sent.
    pub fn new(alloc: Global, modem: M) -> Radio<M>
        ensures nothing { result.notes.items ≡ [] }
        ensures unfailed { result.failed ≡ 0 }
    {
        Radio {
            modem,
            notes: Vec::new(alloc),
            failed: 0,
        }
    }
}

impl<M: Modem + Drop> Link for Radio<M> {
    ghost use Rattle.std.specs.Prelude.{map};

    ghost sent = { λ radio. map (λ n. record { store = n.store.value; stored = record { time = n.time.value; packet = n.packet.value } }) radio.notes.items };

    ghost failed = { λ radio. radio.failed };

    fn send(&mut self, store: &StoreId, time: u64, packet: &BlockPacket) -> Result<(), SendFailed> {
        let note = Note {
            store: Snapshot::of(store),
            time: Snapshot::of(&time),
            packet: Snapshot::of(packet),
        };
        if self.notes.push(note).is_ok() {
            if self.modem.transmit(packet.packet()) {
                return Ok(());
            }
            self.notes.pop();
        }
        self.failed += 1;
        Err(SendFailed)
    }

    fn failures(&self) -> u64 {
        self.failed
    }
}
