//! Which of several passes one transmitter serves.
ghost use Rattle.std.specs.Prelude.{◌≡◌, ◌<◌, ◌≤◌, ◌↔◌, ◌⊎◌, length, IfOk, IsTrue};
ghost use Rattle.std.specs.Option.{ForSome};
ghost use Rattle.mm_links.specs.Used.{offer, IsThere, IsBest, IsChosen, AreQuiet, IsPart, AreUsed};

use crate::limits::LAST;
use mm_base::NoMemory;
use std::alloc::Global;

/// A pass that the transmitter may serve: from when until when, in microseconds, and what it is worth.
#[derive(Clone, Copy, Debug, PartialEq, Eq)]
pub struct Offer {
    pub begin: u64,
    pub end: u64,
    pub worth: u64,
}

/// A part of a pass in which it is served.
#[derive(Clone, Copy, Debug, PartialEq, Eq)]
pub struct Part {
    /// The pass's place, from 0.
    pub pass: usize,
    pub begin: u64,
    pub end: u64,
}

impl Offer {
    fn is_there(&self, time: u64) -> bool
        ensures { IsTrue result ↔ IsThere self.now time }
    {
        self.begin <= time && time < self.end
    }
}

// The earlier of two times that are after `time`; `edge` counts only if it is.
fn nearer(next: u64, time: u64, edge: u64) -> u64
    requires { time < next }
    ensures after { time < result }
    ensures least { result ≤ next }
    ensures near { time < edge → result ≤ edge }
{
    if time < edge && edge < next {
        edge
    } else {
        next
    }
}

// When after a time the next pass begins or ends, or the last time of all.
fn next_edge(offers: &[Offer], time: u64) -> u64
    requires { time < LAST }
    ensures after { time < result }
    ensures quiet { AreQuiet offers.now (length offers.now) time result }
{
    let mut next = LAST;
    for offer in offers {
        next = nearer(next, time, offer.begin);
        next = nearer(next, time, offer.end);
    }
    next
}

// Whether a pass is served rather than another one: it is worth more; or as much, and is in use, or began earlier than
// one that is not.
fn beats(offers: &[Offer], in_use: Option<usize>, pass: usize, other: usize) -> bool
    requires pass { pass < length offers.now }
    requires other { other < length offers.now }
    ensures yes { IsTrue result → (offer offers.now other).worth ≤ (offer offers.now pass).worth }
    ensures no { IsTrue result ⊎ ((offer offers.now pass).worth ≤ (offer offers.now other).worth) }
{
    let (new, old) = (offers[pass], offers[other]);
    if new.worth == old.worth {
        in_use == Some(pass) || in_use != Some(other) && new.begin < old.begin
    } else {
        old.worth < new.worth
    }
}

// The pass that is served at a time, if any is there.
fn best(offers: &[Offer], time: u64, in_use: Option<usize>) -> Option<usize>
    ensures { IsChosen offers.now (length offers.now) time result }
{
    let mut chosen = None;
    for (pass, offer) in offers.iter().enumerate() {
        if offer.is_there(time) {
            chosen = match chosen {
                Some(other) => if beats(offers, in_use, pass, other) {
                    Some(pass)
                } else {
                    Some(other)
                },
                None => Some(pass),
            };
        }
    }
    chosen
}

// Whether a pass that was served until a time stays in use.
fn stays(offers: &[Offer], pass: usize, time: u64) -> bool
    ensures before { IsTrue result → time < LAST }
    ensures best { IsTrue result → IsBest offers.now (length offers.now) time pass }
{
    if time == LAST {
        return false;
    }
    match best(offers, time, Some(pass)) {
        Some(other) => other == pass,
        None => false,
    }
}

// Until when a pass stays in use that is served at a time.
fn end_of_use(offers: &[Offer], pass: usize, time: u64) -> u64
    requires time { time < LAST }
    requires best { IsBest offers.now (length offers.now) time pass }
    ensures { IsPart offers.now (record { pass = pass; begin = time; end = result }) }
{
    let mut end = next_edge(offers, time);
    while stays(offers, pass, end) {
        end = next_edge(offers, end);
    }
    end
}

/// The parts of passes in which one transmitter serves them, one after the other: at each moment a pass that is there
/// and than which none is worth more. Of several the one that is in use stays; else it is the one that began first, and
/// of these the first of the list.
pub fn used(alloc: Global, offers: &[Offer]) -> Result<Vec<Part>, NoMemory>
    ensures used { IfOk result (λ parts. AreUsed offers.now parts.items) }
{
    let mut parts = Vec::new(alloc);
    let mut time = 0;
    let mut in_use = None;
    while time < LAST {
        in_use = best(offers, time, in_use);
        time = match in_use {
            Some(pass) => {
                let end = end_of_use(offers, pass, time);
                parts.push(Part {
                    pass,
                    begin: time,
                    end,
                })?;
                end
            }
            None => next_edge(offers, time),
        };
    }
    Ok(parts)
}
