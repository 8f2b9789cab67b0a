//! The units of volumes and rates.
ghost use Rattle.std.specs.Prelude.{◌≡◌, bytes_eq, map};
ghost use Rattle.std.specs.Option.{option_map};
ghost use Rattle.std.specs.List.{find};
ghost use Rattle.mm_utc.specs.Units.{row_of, units, unit_named};

use crate::fraction::Fraction;

/// What an amount counts: octets, or blocks, which are packets of the longest length.
#[derive(Clone, Copy, Debug, PartialEq, Eq)]
pub enum Measure {
    Octets,
    Blocks,
}

// What is measured in a unit. What is near a unit of rates is refused with the rate that is meant.
#[derive(Clone, Copy, PartialEq, Eq)]
pub(crate) enum Kind {
    Volume,
    Rate,
    NearRate,
}

// A unit: its name, and how many octets or blocks it is, for a rate a second. One near a unit of rates has the bits
// a second that are meant.
#[derive(Clone, Copy)]
pub(crate) struct Unit {
    pub name: &'static str,
    pub kind: Kind,
    pub measure: Measure,
    pub size: Fraction,
}

macro_rules! units {
    ($($name:literal $kind:ident $measure:ident $above:literal / $below:literal,)*) => {
        [$(Unit {
            name: $name,
            kind: Kind::$kind,
            measure: Measure::$measure,
            size: Fraction { above: $above, below: $below },
        }),*]
    };
}

/// All units.
pub(crate) const UNITS: [Unit; 48] = units! {
    "octets" Volume Octets 1 / 1,
    "octet" Volume Octets 1 / 1,
    "bytes" Volume Octets 1 / 1,
    "byte" Volume Octets 1 / 1,
    "B" Volume Octets 1 / 1,
    "kB" Volume Octets 1_000 / 1,
    "MB" Volume Octets 1_000_000 / 1,
    "GB" Volume Octets 1_000_000_000 / 1,
    "TB" Volume Octets 1_000_000_000_000 / 1,
    "KiB" Volume Octets 1_024 / 1,
    "MiB" Volume Octets 1_048_576 / 1,
    "GiB" Volume Octets 1_073_741_824 / 1,
    "TiB" Volume Octets 1_099_511_627_776 / 1,
    "bit" Volume Octets 1 / 8,
    "kbit" Volume Octets 125 / 1,
    "Mbit" Volume Octets 125_000 / 1,
    "Gbit" Volume Octets 125_000_000 / 1,
    "blocks" Volume Blocks 1 / 1,
    "block" Volume Blocks 1 / 1,
    "bit/s" Rate Octets 1 / 8,
    "kbit/s" Rate Octets 125 / 1,
    "Mbit/s" Rate Octets 125_000 / 1,
    "Gbit/s" Rate Octets 125_000_000 / 1,
    "bps" Rate Octets 1 / 8,
    "kbps" Rate Octets 125 / 1,
    "Mbps" Rate Octets 125_000 / 1,
    "Gbps" Rate Octets 125_000_000 / 1,
    "blocks/s" Rate Blocks 1 / 1,
    "block/s" Rate Blocks 1 / 1,
    "blocks/min" Rate Blocks 1 / 60,
    "block/min" Rate Blocks 1 / 60,
    "blocks/h" Rate Blocks 1 / 3_600,
    "block/h" Rate Blocks 1 / 3_600,
    "octets/s" NearRate Octets 8 / 1,
    "bytes/s" NearRate Octets 8 / 1,
    "B/s" NearRate Octets 8 / 1,
    "kB/s" NearRate Octets 8_000 / 1,
    "KB/s" NearRate Octets 8_000 / 1,
    "MB/s" NearRate Octets 8_000_000 / 1,
    "KiB/s" NearRate Octets 8_192 / 1,
    "MiB/s" NearRate Octets 8_388_608 / 1,
    "Kbit/s" NearRate Octets 1_000 / 1,
    "Kbps" NearRate Octets 1_000 / 1,
    "kb/s" NearRate Octets 1_000 / 1,
    "Kb/s" NearRate Octets 1_000 / 1,
    "mbit/s" NearRate Octets 1_000_000 / 1,
    "Mb/s" NearRate Octets 1_000_000 / 1,
    "mbps" NearRate Octets 1_000_000 / 1,
};

// The first of the units that has this name.
fn first_named(units: &[Unit], name: &[u8]) -> Option<Unit>
    ensures { result ≡ find (λ unit. bytes_eq unit.name.now name.now) units.now }
{
    units
        .iter()
        .copied()
        .find(|unit| unit.name.as_bytes() == name)
}

// The unit with this name, where these are all units.
fn named_in(all: &[Unit], name: &[u8]) -> Option<Unit>
    requires { map row_of all.now ≡ units }
    ensures { option_map row_of result ≡ unit_named name.now }
{
    first_named(all, name)
}

// The unit with this name.
pub(crate) fn unit_named(name: &[u8]) -> Option<Unit>
    ensures { option_map row_of result ≡ unit_named name.now }
{
    named_in(&UNITS, name)
}
