//! What passes can send, in one time that is common to all their rates.
ghost use Rattle.std.specs.Prelude.{◌≡◌, ℕ, ◌+◌, ◌*◌, ◌≤◌, ◌^◌, [], ◌∷◌, List, length, IfOk, IfErr, IfSome};
ghost use Rattle.std.specs.Int.{◌∣◌, IsGcd};
ghost use Rattle.std.specs.List.{flat_map};
ghost use Rattle.mm_base.specs.declared.limits.TheConstants.{CHANNELS};
ghost use Rattle.mm_mission.specs.declared.fault.Fault.TheVariants.{BadPass};
ghost use Rattle.mm_mission.specs.declared.limits.TheConstants.{MAX_RATE};
ghost use Rattle.mm_overlap.specs.Better.{channel_rate, rate_of, rates_of, IsCommonTime, IsOutOfRange, IsLeastIfAny};
ghost use Rattle.mm_overlap.specs.Better.{IsLeastTime, IsNextTime, IsSent, AreSent};

use mm_mission::{Fault, MAX_RATE, Pass, Rate};
use std::alloc::{AllocError, Global};

// The rate of a channel in a pass.
fn channel_rate(pass: &Pass, channel: u8) -> Rate
    ensures { result ≡ channel_rate pass.now channel }
{
    let own = pass.channels.get(channel as usize).copied().unwrap_or(None);
    own.unwrap_or(pass.rate)
}

// The greatest common divisor, by Euclid's steps.
fn divisor(a: u64, b: u64) -> u64
    ensures { IsGcd a b result }
{
    let mut x = a;
    let mut y = b;
    'steps: while y != 0 {
        let rest = x % y;
        x = y;
        y = rest;
    }
    x
}

// The least common multiple of two times, if it is in range.
fn common(first: u64, second: u64) -> Option<u64>
    requires { 1 ≤ first }
    ensures { IsLeastIfAny first second result }
{
    let multiple = u128::from(first / divisor(first, second)) * u128::from(second);
    if 1 <= multiple && multiple <= u128::from(MAX_RATE) {
        Some(multiple as u64)
    } else {
        None
    }
}

// The least common time of rates and of one more.
fn and_rate(time: u64, rate: &Rate) -> Option<u64>
    requires { 1 ≤ time }
    ensures next { IsNextTime time (rate.now ∷ []) result }
    ensures some { IfSome result (λ next. 1 ≤ next) }
{
    common(time, rate.micros)
}

// The least common time of rates and of those of one more pass.
fn and_pass(channels: &[u8], time: u64, pass: &Pass) -> Option<u64>
    requires { 1 ≤ time }
    ensures next { IsNextTime time (rates_of channels.now pass.now) result }
    ensures some { IfSome result (λ next. 1 ≤ next) }
{
    let mut next = and_rate(time, &pass.rate)?;
    for channel in channels {
        next = and_rate(next, &channel_rate(pass, *channel))?;
    }
    Some(next)
}

// The least common time of all rates of passes. Otherwise `BadPass` for the first pass whose rates, with those of the
// passes before it, have none in range.
pub(crate) fn common_time(channels: &[u8], passes: &[Pass]) -> Result<u64, Fault>
    ensures time { IfOk result (λ time. IsLeastTime (flat_map (rates_of channels.now) passes.now) time) }
    ensures none { IfErr result (λ fault. (row : ℕ) × (fault ≡ BadPass row)
        × IsOutOfRange channels.now passes.now row) }
{
    let mut time = 1;
    for (row, pass) in passes.iter().enumerate() {
        time = match and_pass(channels, time, pass) {
            Some(next) => next,
            None => return Err(Fault::BadPass { row }),
        };
    }
    Ok(time)
}

// The octets that flow at a rate in a common time.
fn octets_in(time: u64, rate: &Rate) -> u128
    requires some { 1 ≤ time }
    requires common { rate.now.micros ∣ time }
    ensures sent { IsSent time rate.now result }
    ensures few { result ≤ 2 ^ 64 * time }
{
    u128::from(rate.octets) * u128::from(time / rate.micros)
}

// What a pass can send of these channels in a common time, in octets.
fn octets_of(channels: &[u8], time: u64, pass: &Pass) -> u128
    requires some { 1 ≤ time }
    requires within { time ≤ MAX_RATE }
    requires common { IsCommonTime (rates_of channels.now pass.now) time }
    requires few { length channels.now ≤ CHANNELS }
    ensures { IsSent time (rate_of channels.now pass.now) result }
{
    let link = octets_in(time, &pass.rate);
    let mut octets = 0;
    for channel in channels {
        octets += octets_in(time, &channel_rate(pass, *channel)).min(link);
    }
    octets.min(link)
}

// The same of each pass.
pub(crate) fn all_octets(
    alloc: Global,
    channels: &[u8],
    time: u64,
    passes: &[Pass],
) -> Result<Vec<u128>, AllocError>
    requires time { IsLeastTime (flat_map (rates_of channels.now) passes.now) time }
    requires few { length channels.now ≤ CHANNELS }
    ensures { IfOk result (λ octets. AreSent channels.now time passes.now octets.items) }
{
    let mut octets = Vec::new(alloc);
    for pass in passes {
        octets.push(octets_of(channels, time, pass))?;
    }
    Ok(octets)
}
