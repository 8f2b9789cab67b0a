//! The numbers that the packets of reports carry.
ghost use Rattle.std.specs.Prelude.{◌≡◌, ◌+◌, ◌%◌, ◌^◌, ◌<◌};
ghost use Rattle.mm_ask.specs.Counting.{no_counts, counted, numbers_of};

use mm_packet::SEQUENCE_COUNTS;
use mm_st15::ReportKind;
use std::marker::Model;

/// The numbers of a report's packet: the packet sequence count and the message type counter.
#[derive(Clone, Copy, Debug, PartialEq, Eq)]
pub struct Numbers {
    pub sequence: u16,
    pub counter: u16,
}

/// How many reports there were, in all and of each subtype, as packets count them. Contracts see
/// them as `Counts`.
#[derive(Debug, Drop)]
pub struct Counters {
    sequence: u16,
    control: u16,
    summaries: u16,
    statuses: u16,
    configurations: u16,
}

impl Model for Counters {
    ghost use Rattle.std.specs.Prelude.{◌<◌};
    ghost use Rattle.mm_packet.specs.declared.header.TheConstants.{SEQUENCE_COUNTS};
    ghost use Rattle.mm_ask.specs.Counting.{Counts};

    ghost Value = { Counts };

    ghost view = { λ c. record {
      sequence = c.sequence;
      control = c.control;
      summaries = c.summaries;
      statuses = c.statuses;
      configurations = c.configurations;
    } };

    ghost invariant = { λ c. c.sequence < SEQUENCE_COUNTS };
}

// The counter's value, which is then raised by one; after the greatest comes 0.
fn taken(counter: &mut u16) -> u16
    ensures value { result ≡ counter.old }
    ensures raised { counter.new ≡ (counter.old + 1) % 2 ^ 16 }
{
    let value = *counter;
    *counter = value.wrapping_add(1);
    value
}

impl Counters {
    /// No report so far.
    #[must_use]
    pub fn new() -> Counters
        ensures none { result ≡ no_counts }
    {
        Counters {
            sequence: 0,
            control: 0,
            summaries: 0,
            statuses: 0,
            configurations: 0,
        }
    }

    /// The numbers of the next report, of this kind, which is counted.
    pub fn next(&mut self, kind: ReportKind) -> Numbers
        ensures numbers { result ≡ numbers_of self.old kind }
        ensures in_range { result.sequence < SEQUENCE_COUNTS }
        ensures counted { self.new ≡ counted self.old kind }
    {
        let sequence = self.sequence;
        let counter = match kind {
            ReportKind::Control => taken(&mut self.control),
            ReportKind::Summaries => taken(&mut self.summaries),
            ReportKind::Statuses => taken(&mut self.statuses),
            ReportKind::Configurations => taken(&mut self.configurations),
        };
        self.sequence = (sequence + 1) % SEQUENCE_COUNTS;
        Numbers { sequence, counter }
    }
}

impl Default for Counters {
    ghost use Rattle.mm_ask.specs.Counting.{no_counts};

    ghost is_default = { λ counts. counts ≡ no_counts };

    fn default() -> Counters {
        Counters::new()
    }
}
