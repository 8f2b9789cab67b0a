//! Two seats at the desk of a bounded store of four blocks: each of the seven calls.
ghost use Rattle.std.specs.Prelude.{◌≡◌};
ghost use Rattle.mm_desk.specs.Runs.{opening_at};

use crate::calls::{
    Ask, CALLS, SeatCall, Told, left, new_state, packet, told_of, told_of_delete, told_of_given,
    told_of_lack, told_of_offer,
};
use crate::met::Met;
use mm_base::NoMemory;
use mm_desk::{Closed, Desk, Opening, Seat, StoreState};
use std::alloc::Global;
use std::marker::Brand;
use std::sync::Wait;

/// What a desk answers through a seat.
pub fn answer<N: Opening, R: Wait>(
    rt: &R,
    alloc: Global,
    desk: &Desk<N>,
    seat: &mut Seat<N>,
    ask: Ask,
) -> Told {
    match ask {
        Ask::Offer(now, count) => match packet(alloc, count) {
            Ok(packet) => told_of_offer(&desk.offer(rt, alloc, seat, now, packet)),
            Err(NoMemory) => Told::Unmade,
        },
        Ask::Begin(from, to) => told_of(desk.begin(rt, alloc, seat, from, to)),
        Ask::Next => told_of_given(&desk.next(rt, alloc, seat)),
        Ask::Abort => told_of(desk.abort(rt, alloc, seat)),
        Ask::Delete(limit) => told_of_delete(desk.delete(rt, alloc, seat, limit)),
        Ask::Enable => told_of(desk.enable(rt, alloc, seat)),
        Ask::Disable => told_of(desk.disable(rt, alloc, seat)),
        Ask::Rest | Ask::Resize(_) | Ask::ChangeKind(_) => Told::Unmade,
    }
}

// What came of a call that was answered so. One that found no memory is not listed.
fn judged(call: SeatCall, told: Told, listed: bool) -> Met {
    let (_number, ask, want) = call;
    if told == Told::Unmade {
        return Met::Unready.provided(!listed, "listed without memory");
    }
    if told == told_of_lack(ask) {
        return Met::Wanted.provided(!listed, "listed without memory");
    }
    Met::Whole
        .provided(told == want, "another answer")
        .provided(listed, "a call that is not listed")
}

// What came of a call through its seat. One that found no memory is asked once more.
fn called<N: Opening, R: Wait>(
    rt: &R,
    alloc: Global,
    desk: &Desk<N>,
    seats: &mut [Seat<N>],
    call: SeatCall,
) -> Met {
    let (number, ask, want) = call;
    let Some(seat) = seats.get_mut(number) else {
        return Met::Wrong("a seat is missing");
    };
    let before = seat.list().len();
    let first = answer(rt, alloc, desk, seat, ask);
    let met = judged(call, first, seat.list().len() > before);
    if matches!(met, Met::Whole) {
        return met;
    }
    let second = answer(rt, alloc, desk, seat, ask);
    met.provided(second == want, "another answer after a refused allocation")
}

// What came of the calls through their seats.
fn all_called<N: Opening, R: Wait>(
    rt: &R,
    alloc: Global,
    desk: &Desk<N>,
    seats: &mut [Seat<N>],
) -> Met {
    let mut met = Met::Whole;
    for call in CALLS {
        met = met.and(called(rt, alloc, desk, seats, call));
    }
    met
}

// What the calls leave: a log of eight entries that agrees with the lists, and one packet of two.
fn closed<N: Opening>(closed: &Closed<N>) -> Met {
    left(&closed.state)
        .provided(closed.agree, "lists that do not agree")
        .provided(closed.log.len() == 8, "another log")
}

fn seated<N: Opening, R: Wait>(rt: &R, alloc: Global, state: StoreState) -> Met
    requires state { state ≡ opening_at N.states 0 }
{
    match Desk::<N>::open(alloc, state, 0, 2) {
        Ok((desk, mut seats)) => {
            let met = all_called(rt, alloc, &desk, &mut seats);
            met.and(closed(&desk.close(seats)))
        }
        Err((state, _)) => {
            let same = state.offered() == 0 && state.storage();
            Met::Unready.provided(same, "another state comes back")
        }
    }
}

/// What came of the calls of two seats at one desk; nothing where there was no memory for its state.
pub(crate) fn desk<R: Wait>(rt: &R, alloc: Global) -> Option<Met> {
    let state = new_state(alloc).ok()?;
    Some(seated::<Brand, R>(rt, alloc, state))
}
