//! Whether a log and the lists of its seats agree. No call takes memory.
ghost use Rattle.std.specs.Prelude.{◌≡◌, ◌↔◌, IsTrue};
ghost use Rattle.mm_desk.specs.Agreeing.{AreParts, Agrees};
ghost use Rattle.mm_desk.specs.Shuffles.{AreBelow, part};

use crate::entry::Entry;
use crate::opening::Opening;
use crate::seat::Seat;

/// Whether a log has only entries of seats below this number.
pub fn is_below(log: &[Entry], seats: u32) -> bool
    ensures below { IsTrue result ↔ AreBelow seats log.now }
{
    log.iter().all(|entry| entry.seat < seats)
}

/// Whether a list is the part of this seat in a log.
#[tactic(auto, using(crate::proofs::Shuffles::all_met))]
pub fn is_part(log: &[Entry], seat: u32, list: &[Entry]) -> bool
    ensures part { IsTrue result ↔ (part seat log.now ≡ list.now) }
{
    let mut met = 0;
    for entry in log {
        if entry.seat == seat {
            match list.get(met) {
                Some(listed) if listed.is(entry) => met += 1,
                _ => return false,
            }
        }
    }
    met == list.len()
}

// Whether each seat stands at the place of its number, and has its part of the log as its list.
fn are_parts<N: Opening>(log: &[Entry], seats: &[Seat<N>]) -> bool
    ensures parts { IsTrue result ↔ AreParts log.now seats.now }
{
    for i in 0..seats.len() {
        let seat = &seats[i];
        if seat.number() as usize != i || !is_part(log, seat.number(), seat.list()) {
            return false;
        }
    }
    true
}

/// Whether a log is a shuffle of the lists of its seats, which are this many and in order.
pub fn agrees<N: Opening>(log: &[Entry], seated: u32, seats: &[Seat<N>]) -> bool
    ensures agrees { IsTrue result ↔ Agrees log.now seated seats.now }
{
    seats.len() == seated as usize && is_below(log, seated) && are_parts(log, seats)
}
