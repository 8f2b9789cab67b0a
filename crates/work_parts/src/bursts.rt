//! Sources whose packets are made before.
ghost use Rattle.std.specs.Prelude.{◌≡◌, ◌<◌, ◌≤◌, ◌^◌, ◌∷◌, ◌++◌, [], All, length, map, slice_index_or, IfNone, OnOk};
ghost use Rattle.std.specs.Prelude.{OnErr, vec_len};
ghost use Rattle.std.specs.Option.{option_to_list};
ghost use Rattle.std.specs.VecDeque.{deque_len};

use anyhow::Result;
use mm_base::NoMemory;
use mm_packet::{BlockPacket, Header, Octets, Packet};
use mm_record::Source;
use std::alloc::Global;
use std::collections::VecDeque;

/// The octets of the headers of telemetry.
pub const HEADERS: u32 = 21;

/// The most octets of data in telemetry that a block has room for.
const MOST_DATA: u32 = 1003;

/// A source that gives a burst of packets in each step of a run, in order.
#[derive(Drop)]
pub struct Bursts {
    bursts: Vec<VecDeque<BlockPacket>>,
    ghost short: { All (λ q. length q.items < 2 ^ 32) bursts.items },
}

impl Bursts {
    /// A source that gives nothing.
    #[must_use]
    pub fn new(alloc: Global) -> Bursts {
        Bursts {
            bursts: Vec::new(alloc),
        }
    }

    /// Gives this burst in the step after those that have one, of which the first is step 0.
    pub fn add(&mut self, burst: VecDeque<BlockPacket>) -> Result<(), NoMemory>
        requires { deque_len burst < 2 ^ 32 }
    {
        self.bursts.push(burst)?;
        Ok(())
    }
}

impl Source for Bursts {
    ghost use Rattle.std.specs.Prelude.{[], map, slice_index_or};

    ghost gives = { λ s t. slice_index_or (map (λ q. q.items) s.bursts.items) t [] };

    fn left(&self, step: u32) -> u32 {
        match self.bursts.get(step as usize) {
            Some(burst) => burst.len() as u32,
            None => 0,
        }
    }

    fn next(&mut self, step: u32) -> Option<BlockPacket> {
        let step = step as usize;
        if step < self.bursts.len() {
            self.bursts[step].pop_front()
        } else {
            None
        }
    }
}

/// Telemetry of this APID, which is this many octets long.
pub fn packet(alloc: Global, apid: u32, octets: u32) -> Result<BlockPacket> {
    let data = octets.saturating_sub(HEADERS).min(MOST_DATA) as usize;
    let body = Octets::new(vec![in alloc; 7u8; data]?)?;
    let header = Header::new((apid % 2047) as u16, 0, 3, 25);
    Ok(BlockPacket::of(Packet::tm(header, 0, 0, 0, body))?)
}
