//! The parts of a mission.
ghost use Rattle.std.specs.Prelude.{◌≡◌, ◌≤◌};
ghost use Rattle.std.specs.List.{list_all};
ghost use Rattle.mm_mission.specs.Mission.{is_rate, is_own_rate, is_span, is_pass, is_observation, are_packets};
ghost use Rattle.mm_mission.specs.Mission.{is_size, is_store, is_known};

use crate::limits::{MAX_PACKET, MAX_RATE, MAX_UNIT};
use mm_base::{CHANNELS, Kind, MAX_BLOCKS, StoreId};

/// So many octets in so many microseconds.
#[derive(Clone, Copy, Debug, PartialEq, Eq)]
pub struct Rate {
    pub octets: u64,
    pub micros: u64,
}

/// From one time to a later one, in microseconds from the mission's begin.
#[derive(Clone, Copy, Debug, PartialEq, Eq)]
pub struct Span {
    pub begin: u64,
    pub end: u64,
}

/// A pass of a ground station: while its span lasts, its link can send with this rate.
#[derive(Clone, Copy, Debug, PartialEq, Eq)]
pub struct Pass {
    pub span: Span,
    pub rate: Rate,
    /// What can be sent of a channel, where that is limited.
    pub channels: [Option<Rate>; CHANNELS],
}

/// While its span lasts, packets come into a store evenly.
#[derive(Clone, Copy, Debug, PartialEq, Eq)]
pub struct Observation {
    /// The store's place in the mission, from 0.
    pub store: usize,
    pub span: Span,
    /// The octets that come in the `micros` of its store.
    pub octets: u64,
}

/// A packet store, whose packets have one length.
#[derive(Clone, Copy, Debug, PartialEq, Eq)]
pub struct Store {
    pub id: StoreId,
    pub kind: Kind,
    /// The octets of a packet.
    pub packet: u64,
    /// The packets of a unit, in which a plan counts.
    pub unit: u64,
    /// The microseconds in which the octets of its observations come.
    pub micros: u64,
    /// How many packets it has room for.
    pub size: u64,
    /// How many it holds as the mission begins.
    pub start: u64,
    /// The virtual channel that it is sent on.
    pub channel: u8,
}

impl Rate {
    fn fits(&self) -> bool
        ensures { result ≡ is_rate self.now }
    {
        self.octets <= MAX_RATE && 1 <= self.micros && self.micros <= MAX_RATE
    }
}

impl Span {
    fn fits(&self, lasts: u64) -> bool
        ensures { result ≡ is_span lasts self.now }
    {
        self.begin < self.end && self.end <= lasts
    }
}

// Whether a channel's own rate is within its range, if it has one.
fn own_rate_fits(rate: &Option<Rate>) -> bool
    ensures { result ≡ is_own_rate rate.now }
{
    match rate {
        Some(rate) => rate.fits(),
        None => true,
    }
}

fn own_rates_fit(rates: &[Option<Rate>]) -> bool
    ensures { result ≡ list_all is_own_rate rates.now }
{
    rates.iter().all(own_rate_fits)
}

impl Pass {
    pub(crate) fn fits(&self, lasts: u64) -> bool
        ensures { result ≡ is_pass lasts self.now }
    {
        self.span.fits(lasts) && self.rate.fits() && own_rates_fit(&self.channels)
    }
}

impl Observation {
    pub(crate) fn fits(&self, lasts: u64) -> bool
        ensures { result ≡ is_observation lasts self.now }
    {
        self.span.fits(lasts) && self.octets <= MAX_RATE
    }

    // Whether it is of one of so many stores.
    pub(crate) fn is_known(&self, stores: usize) -> bool
        ensures { result ≡ is_known stores self.now }
    {
        self.store < stores
    }
}

impl Store {
    // Whether the length of its packets, its unit and the time of its observations are within their ranges.
    fn packets_fit(&self) -> bool
        ensures { result ≡ are_packets self.now }
    {
        1 <= self.packet
            && self.packet <= MAX_PACKET
            && 1 <= self.unit
            && self.unit <= MAX_UNIT
            && 1 <= self.micros
            && self.micros <= MAX_RATE
    }

    // Whether it has room for a unit, and for no more of them than a store of a problem.
    fn size_fits(&self) -> bool
        requires { self.now.unit ≤ MAX_UNIT }
        ensures { result ≡ is_size self.now }
    {
        self.unit <= self.size && self.size < (u64::from(MAX_BLOCKS) + 1) * self.unit
    }

    pub(crate) fn fits(&self) -> bool
        ensures { result ≡ is_store self.now }
    {
        self.packets_fit() && self.size_fits() && self.start <= self.size
    }
}
