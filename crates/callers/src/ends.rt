//! A source and a link of a mission's own.
ghost use Rattle.std.specs.Prelude.{◌≡◌, ◌<◌, ◌^◌};
ghost use Rattle.std.specs.VecDeque.{deque_len};

use mm_base::StoreId;
use mm_dump::{Link, SendFailed};
use mm_packet::BlockPacket;
use mm_record::Source;
use mm_store::Stored;
use std::alloc::Global;
use std::collections::VecDeque;

/// An instrument that is on in one step, and gives these packets in it.
#[derive(Drop)]
pub struct Burst {
    pub step: u32,
    pub packets: VecDeque<BlockPacket>,
    ghost few: { deque_len packets < 2 ^ 32 },
}

impl Source for Burst {
    ghost use Rattle.std.specs.Prelude.{◌==◌, if◌then◌else◌, []};

    ghost gives = { λ burst step. if step == burst.step then burst.packets.items else [] };

    fn left(&self, step: u32) -> u32 {
        if step == self.step {
            self.packets.len() as u32
        } else {
            0
        }
    }

    fn next(&mut self, step: u32) -> Option<BlockPacket> {
        if step == self.step {
            self.packets.pop_front()
        } else {
            None
        }
    }
}

/// A link that takes at most this many packets, and keeps each with its store; every later send fails.
#[derive(Drop)]
pub struct Downlink {
    pub alloc: Global,
    pub most: usize,
    pub taken: Vec<(StoreId, Stored)>,
    pub failed: u64,
}

impl Link for Downlink {
    ghost use Rattle.std.specs.Prelude.{map};

    ghost sent = { λ link. map (λ x. record { store = x.0; stored = x.1 }) link.taken.items };

    ghost failed = { λ link. link.failed };

    fn send(&mut self, store: &StoreId, time: u64, packet: &BlockPacket) -> Result<(), SendFailed> {
        if self.taken.len() < self.most {
            if let Ok(packet) = packet.copy(self.alloc) {
                if self.taken.push((*store, Stored { time, packet })).is_ok() {
                    return Ok(());
                }
            }
        }
        self.failed += 1;
        Err(SendFailed)
    }

    fn failures(&self) -> u64 {
        self.failed
    }
}
