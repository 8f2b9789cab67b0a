//! UTC, or how far a local time is ahead of UTC or behind it (ISO 8601-1, 5.3).
ghost use Rattle.std.specs.Prelude.{◌≡◌, ◌<◌, IfOk};
ghost use Rattle.mm_utc.specs.Digits.{Reads};
ghost use Rattle.mm_utc.specs.Zone.{offset_in, zone_in, in_utc, IsBelow};

use crate::clock::{DAY, HOUR, MINUTE};
use crate::digits::{after, at_end, below_at};
use crate::fault::MomentFault;
use crate::moment::MOMENTS;

// How far local time is from UTC, in microseconds.
#[derive(Clone, Copy)]
pub(crate) enum Zone {
    Ahead(u64),
    Behind(u64),
}

// Hours and minutes, and nothing after them.
#[tactic(auto, unfolding(crate::specs::Zone::offset_in))]
fn offset_in(text: &[u8]) -> Result<u64, MomentFault>
    ensures value { Reads (λ x. x) result (offset_in text.now) }
    ensures small { IfOk result (λ x. x < DAY) }
{
    let (hour, rest) = below_at(24, MomentFault::NoSuchOffset, text)?;
    let rest = after(b':', rest)?;
    let (minute, rest) = below_at(60, MomentFault::NoSuchOffset, rest)?;
    at_end(rest)?;
    Ok(hour * HOUR + minute * MINUTE)
}

// The zone at the end of a text.
#[tactic(auto, unfolding(crate::specs::Zone::zone_in))]
pub(crate) fn zone_in(text: &[u8]) -> Result<Zone, MomentFault>
    ensures value { Reads (λ x. x) result (zone_in text.now) }
    ensures small { IfOk result (λ x. IsBelow DAY x) }
{
    match text {
        [] => Err(MomentFault::NoZone),
        [b'Z', rest @ ..] => {
            at_end(rest)?;
            Ok(Zone::Ahead(0))
        }
        [b'+', rest @ ..] => {
            let offset = offset_in(rest)?;
            Ok(Zone::Ahead(offset))
        }
        [b'-', rest @ ..] => {
            let offset = offset_in(rest)?;
            Ok(Zone::Behind(offset))
        }
        _ => Err(MomentFault::Form),
    }
}

// The moment of a local time, in microseconds.
pub(crate) fn in_utc(local: u64, zone: Zone) -> Result<u64, MomentFault>
    requires local { local < MOMENTS }
    requires zone { IsBelow DAY zone }
    ensures value { Reads (λ x. x) result (in_utc local zone) }
    ensures small { IfOk result (λ x. x < MOMENTS) }
{
    match zone {
        Zone::Ahead(offset) if offset <= local => Ok(local - offset),
        Zone::Behind(offset) if local + offset < MOMENTS => Ok(local + offset),
        _ => Err(MomentFault::OutsideYears),
    }
}
