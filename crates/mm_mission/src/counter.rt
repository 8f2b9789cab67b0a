//! What is counted over time, in whole units and packets.
ghost use Rattle.std.specs.Prelude.{◌≡◌, ◌≤◌, ◌*◌, ◌+◌, IsTrue};
ghost use Rattle.std.specs.Int.{div_ceil};
ghost use Rattle.mm_mission.specs.Mission.{is_rate, is_pass, is_store};
ghost use Rattle.mm_mission.specs.Flows.{elapsed, unit_octets, is_on, largest, octets_on, pace, whole_units, own_rate};
ghost use Rattle.mm_mission.specs.Flows.{sent_by, come_by, come_octets, counted};

use crate::limits::{MAX_OBSERVATIONS, MAX_PACKET, MAX_PASSES, MAX_RATE, MAX_TIME, MAX_UNIT};
use crate::mission::Mission;
use crate::parts::{Observation, Pass, Rate, Span, Store};

/// A count of units, or of packets, that grows with time.
#[derive(Clone, Copy, Debug, PartialEq, Eq)]
pub enum Counter {
    /// What all passes can have sent: in all, or of a channel. What a link has been able to send since its pass began
    /// is rounded down.
    Sent(Option<u8>),
    /// What has come into the store at this place, of all its observations together, rounded up.
    Come(usize),
    /// The same in packets.
    Packets(usize),
}

impl Span {
    // How long it has lasted at a time.
    fn elapsed(&self, time: u64) -> u64
        ensures { result ≡ elapsed self.now time }
    {
        time.min(self.end).saturating_sub(self.begin)
    }
}

impl Store {
    fn unit_octets(&self) -> u128
        requires { IsTrue (is_store self.now) }
        ensures octets { result ≡ unit_octets self.now }
        ensures some { 1 ≤ result }
        ensures most { result ≤ MAX_PACKET * MAX_UNIT }
    {
        u128::from(self.packet) * u128::from(self.unit)
    }

    // By this what has come, as octets by microseconds, is divided to count parts of so many octets.
    fn divisor(&self, octets: u128) -> u128
        requires store { IsTrue (is_store self.now) }
        requires some { 1 ≤ octets }
        requires few { octets ≤ MAX_PACKET * MAX_UNIT }
        ensures divisor { result ≡ self.now.micros * octets }
        ensures some { 1 ≤ result }
    {
        u128::from(self.micros) * octets
    }

    // Whether it is sent on a channel, or on the link at all.
    fn is_on(&self, channel: Option<u8>) -> bool
        ensures { result ≡ is_on channel self.now }
    {
        match channel {
            Some(channel) => self.channel == channel,
            None => true,
        }
    }

    // What has come, as octets by microseconds, in parts of so many octets, rounded up.
    fn begun(&self, octets: u128, amount: u128) -> u128
        requires store { IsTrue (is_store self.now) }
        requires some { 1 ≤ octets }
        requires few { octets ≤ MAX_PACKET * MAX_UNIT }
        ensures begun { result ≡ div_ceil amount (self.now.micros * octets) }
        ensures few { result ≤ amount + 1 }
    {
        amount.div_ceil(self.divisor(octets))
    }
}

impl Pass {
    // The own rate of a channel, if it has one.
    pub(crate) fn own_rate(&self, channel: Option<u8>) -> Option<Rate>
        ensures { result ≡ own_rate channel self.now }
    {
        match channel {
            Some(channel) => self.channels.get(channel as usize).copied().unwrap_or(None),
            None => None,
        }
    }
}

impl Observation {
    // What has come of it by a time, as octets by microseconds.
    fn come_by(&self, time: u64) -> u128
        requires octets { self.now.octets ≤ MAX_RATE }
        requires end { self.now.span.end ≤ MAX_TIME }
        ensures octets { result ≡ come_by time self.now }
        ensures most { result ≤ MAX_RATE * MAX_TIME }
    {
        u128::from(self.octets) * u128::from(self.span.elapsed(time))
    }
}

// The units of so many octets that flow at a rate in a time, rounded down.
#[tactic(auto, unfolding(crate::specs::Flows::whole_units))]
fn whole_units(rate: &Rate, octets: u128, time: u64) -> u128
    requires rate { IsTrue (is_rate rate.now) }
    requires some { 1 ≤ octets }
    requires few { octets ≤ MAX_PACKET * MAX_UNIT }
    requires time { time ≤ MAX_TIME }
    ensures units { result ≡ whole_units (pace octets rate.now) time }
    ensures most { result ≤ MAX_RATE * MAX_TIME }
{
    u128::from(rate.octets) * u128::from(time) / (u128::from(rate.micros) * octets)
}

impl Mission {
    // The octets of the largest unit of a store that is sent on a channel, or at all; 0 if there is none.
    fn largest(&self, channel: Option<u8>) -> u128
        ensures octets { result ≡ largest self.now channel }
        ensures most { result ≤ MAX_PACKET * MAX_UNIT }
    {
        let mut octets = 0;
        for store in self.stores.iter() {
            if store.is_on(channel) {
                octets = store.unit_octets().max(octets);
            }
        }
        octets
    }

    // As many octets a unit counts on a channel, or on the link.
    fn octets_on(&self, channel: Option<u8>) -> u128
        ensures octets { result ≡ octets_on self.now channel }
        ensures some { 1 ≤ result }
        ensures most { result ≤ MAX_PACKET * MAX_UNIT }
    {
        match self.largest(channel) {
            0 => self.largest(None).max(1),
            octets => octets,
        }
    }

    // What a pass can have sent by a time, in all or of a channel.
    fn sent_by(&self, pass: &Pass, channel: Option<u8>, time: u64) -> u128
        requires pass { IsTrue (is_pass self.now.lasts pass.now) }
        requires end { pass.now.span.end ≤ MAX_TIME }
        ensures units { result ≡ sent_by self.now channel time pass.now }
        ensures most { result ≤ MAX_RATE * MAX_TIME }
    {
        let time = pass.span.elapsed(time);
        let units = whole_units(&pass.rate, self.octets_on(None), time);
        match pass.own_rate(channel) {
            Some(own) => whole_units(&own, self.octets_on(channel), time).min(units),
            None => units,
        }
    }

    // What all passes can have sent by a time.
    #[tactic(auto, unfolding(crate::specs::Flows::counted))]
    fn sent(&self, channel: Option<u8>, time: u64) -> u128
        ensures units { result ≡ counted self.now (Counter.Sent channel) time }
        ensures few { result ≤ MAX_PASSES * (MAX_RATE * MAX_TIME) }
    {
        let mut units = 0;
        for pass in self.passes.iter() {
            units += self.sent_by(pass, channel, time);
        }
        units
    }

    // What has come into a store by a time, as octets by microseconds.
    fn come_octets(&self, store: usize, time: u64) -> u128
        ensures octets { result ≡ come_octets self.now store time }
        ensures few { result ≤ MAX_OBSERVATIONS * (MAX_RATE * MAX_TIME) }
    {
        let mut octets = 0;
        for one in self.observations.iter() {
            if one.store == store {
                octets += one.come_by(time);
            }
        }
        octets
    }

    // What has come into a store by a time, in units.
    #[tactic(auto, unfolding(crate::specs::Flows::counted))]
    fn come(&self, store: usize, time: u64) -> u128
        ensures units { result ≡ counted self.now (Counter.Come store) time }
        ensures few { result ≤ MAX_OBSERVATIONS * (MAX_RATE * MAX_TIME) + 1 }
    {
        let amount = self.come_octets(store, time);
        match self.stores.get(store) {
            Some(store) => store.begun(store.unit_octets(), amount),
            None => 0,
        }
    }

    // The same in packets.
    #[tactic(auto, unfolding(crate::specs::Flows::counted))]
    fn come_packets(&self, store: usize, time: u64) -> u128
        ensures packets { result ≡ counted self.now (Counter.Packets store) time }
        ensures few { result ≤ MAX_OBSERVATIONS * (MAX_RATE * MAX_TIME) + 1 }
    {
        let amount = self.come_octets(store, time);
        match self.stores.get(store) {
            Some(store) => store.begun(u128::from(store.packet), amount),
            None => 0,
        }
    }

    /// What is counted by a time.
    #[must_use]
    pub fn counted(&self, counter: Counter, time: u64) -> u128
        ensures counted { result ≡ counted self.now counter time }
        ensures few { result ≤ MAX_OBSERVATIONS * (MAX_RATE * MAX_TIME) + 1 }
    {
        match counter {
            Counter::Sent(channel) => self.sent(channel, time),
            Counter::Come(store) => self.come(store, time),
            Counter::Packets(store) => self.come_packets(store, time),
        }
    }
}
