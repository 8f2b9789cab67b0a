//! Links that count octets, and keep nothing of a packet.

use crate::bursts::HEADERS;
use anyhow::Result;
use callers::radio::{Modem, Radio};
use mm_packet::Packet;
use std::alloc::Global;

/// A modem that counts the octets of the packets that it sends.
#[derive(Drop)]
pub struct Meter {
    octets: u64,
}

impl Modem for Meter {
    fn transmit(&mut self, packet: &Packet) -> bool {
        let octets = u64::from(HEADERS).saturating_add(packet.body().len() as u64);
        self.octets = self.octets.saturating_add(octets);
        true
    }
}

/// This many links over which nothing was sent.
pub fn meters(alloc: Global, links: u32) -> Result<Vec<Radio<Meter>>> {
    let mut meters = Vec::new(alloc);
    for _ in 0..links {
        meters.push(Radio::new(alloc, Meter { octets: 0 }))?;
    }
    Ok(meters)
}

/// The octets of all packets that were sent over these links.
pub fn octets_of(links: &[Radio<Meter>]) -> u64 {
    let mut octets = 0u64;
    for link in links {
        octets = octets.saturating_add(link.modem.octets);
    }
    octets
}
