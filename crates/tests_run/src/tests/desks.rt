//! Desks and pass books: each call with memory, two seats at one desk, and a log beside lists that differ from it.
ghost use Rattle.std.specs.Prelude.{◌≡◌};
ghost use Rattle.mm_desk.specs.Passes.{IsPassBook};
ghost use Rattle.mm_desk.specs.Runs.{opening_at};

use crate::tests::calls::told_of_reply;
use crate::tests::samples::{has, is_told, store_with};
use mm_base::Kind;
use mm_desk::agree::{agrees, is_below, is_part};
use mm_desk::{
    Closed, Desk, Entry, Event, Fault, Opening, PassBook, PassSeat, Passing, Reply, Seat,
    StoreState, WindowFull,
};
use refused_allocations::calls::{Ask, Told};
use refused_allocations::seats::answer;
use std::alloc::Global;
use std::marker::Brand;
use std::process::Abort;
use std::sync::Wait;
use std::sync::ledger::Blank;

// The number of a seat, what is asked through it, and what is answered.
type SeatCall = (u32, Ask, Told);

// Asks a desk in turn through its seats, and compares the answers.
fn asks<N: Opening, R: Wait + Abort>(
    rt: &R,
    alloc: Global,
    desk: &Desk<N>,
    seats: &mut [Seat<N>],
    calls: &[SeatCall],
) {
    for (number, ask, want) in calls {
        let Some(seat) = seats.get_mut(*number as usize) else {
            panic!(rt; "a seat");
        };
        let told = answer(rt, alloc, desk, seat, *ask);
        assert!(rt; told == *want, "a call");
    }
}

// The log has an entry for each call.
fn has_logged(rt: &impl Abort, log: &[Entry], calls: &[SeatCall]) {
    assert!(rt; log.len() == calls.len(), "as many entries");
    for (entry, (seat, _ask, told)) in log.iter().zip(calls) {
        assert!(rt; entry.seat == *seat, "the seat");
        assert!(rt; told_of_reply(&entry.reply) == *told, "the reply");
    }
}

// The seats at place 0 have made this many calls each.
fn have_called<N: Opening>(rt: &impl Abort, seats: &[Seat<N>], calls: &[usize]) {
    assert!(rt; seats.len() == calls.len(), "as many seats");
    for (seat, calls) in seats.iter().zip(calls) {
        assert!(rt; seat.place() == 0, "the place");
        assert!(rt; seat.list().len() == *calls, "as many calls");
    }
}

// A store with some packets at a desk with one seat or two: the calls, what they leave of the store, and how many each
// seat has made.
struct Case {
    kind: Kind,
    held: u16,
    calls: &'static [SeatCall],
    counts: [u64; 4],
    lists: &'static [usize],
}

// A desk at place 0 that its seats have called, with the seats in order.
fn used_desk<N: Opening, R: Wait + Abort>(
    rt: &R,
    alloc: Global,
    state: StoreState,
    case: &Case,
) -> (Desk<N>, Vec<Seat<N>>)
    requires state { state ≡ opening_at N.states 0 }
{
    let many = case.lists.len().clamp(1, 2);
    let Ok((desk, mut seats)) = Desk::<N>::open(alloc, state, 0, many as u32) else {
        panic!(rt; "memory");
    };
    asks(rt, alloc, &desk, &mut seats, case.calls);
    (desk, seats)
}

// The log of a closed desk has each call, and agrees with the lists of the seats.
fn is_closed<N: Opening>(rt: &impl Abort, closed: &Closed<N>, case: &Case) {
    assert!(rt; closed.agree, "the log is a shuffle of the lists");
    has_logged(rt, &closed.log, case.calls);
    has(rt, &closed.state, case.counts);
    have_called(rt, &closed.seats, case.lists);
}

// The seats are handed back in order.
fn in_order<N: Opening, R: Wait + Abort>(rt: &R, alloc: Global, state: StoreState, case: &Case)
    requires state { state ≡ opening_at N.states 0 }
{
    let (desk, seats) = used_desk::<N, R>(rt, alloc, state, case);
    is_closed(rt, &desk.close(seats), case);
}

fn tried<R: Wait + Abort>(rt: &R, alloc: Global, case: &Case) {
    let state = store_with(rt, alloc, case.kind, case.held);
    in_order::<Brand, R>(rt, alloc, state, case);
}

// The first seat offers, then the second; the first takes a copy of its packet back and aborts. A circular store
// answers the same.
static TWO_OFFERS: Case = Case {
    kind: Kind::Bounded,
    held: 0,
    calls: &[
        (0, Ask::Offer(7, 1), Told::Kept(7)),
        (1, Ask::Offer(7, 2), Told::Kept(8)),
        (0, Ask::Begin(1, u64::MAX), Told::Done),
        (0, Ask::Next, Told::Given(7, 1)),
        (0, Ask::Abort, Told::Done),
    ],
    counts: [2, 0, 0, 2],
    lists: &[4, 1],
};

#[test]
fn two_seats_one_desk(rt: HostRuntime) {
    tried(&rt, rt.alloc(), &TWO_OFFERS);
}

static FULL: [Case; 2] = table! { Case;
    kind Kind::Bounded, held 4, calls &[(0, Ask::Offer(7, 5), Told::Lost(5))], counts [5, 1, 0, 4], lists &[1];
    kind Kind::Circular, held 4, calls &[(0, Ask::Offer(7, 5), Told::KeptOver(11, 1))], counts [5, 1, 0, 4], lists &[1];
};

// A full bounded store loses the new packet, and a full circular one its oldest.
#[test]
fn a_full_store_loses_one_packet(rt: HostRuntime) {
    for case in &FULL {
        tried(&rt, rt.alloc(), case);
    }
}

// The calls that the worked example lacks, and refused ones.
static REFUSED: Case = Case {
    kind: Kind::Bounded,
    held: 0,
    calls: &[
        (0, Ask::Offer(7, 1), Told::Kept(7)),
        (0, Ask::Delete(7), Told::Deleted(1)),
        (0, Ask::Disable, Told::Done),
        (0, Ask::Offer(8, 2), Told::Back(Fault::Disabled, 2)),
        (0, Ask::Enable, Told::Done),
        (0, Ask::Next, Told::Refused(Fault::Idle)),
    ],
    counts: [1, 0, 1, 0],
    lists: &[6],
};

#[test]
fn refused_calls_are_logged(rt: HostRuntime) {
    tried(&rt, rt.alloc(), &REFUSED);
}

// A log agrees with the lists of its two seats, and with no more. The part of each in it is its own list, and not that
// of the other.
fn agrees_with_two<N: Opening>(rt: &impl Abort, log: &[Entry], seats: &[Seat<N>]) {
    let agree = [agrees(log, 2, seats), agrees(log, 3, seats)];
    assert!(rt; agree == [true, false], "the lists of its seats");
    let below = [is_below(log, 2), is_below(log, 1)];
    assert!(rt; below == [true, false], "its seats");
    let [one, two] = seats else {
        panic!(rt; "two seats");
    };
    for (seat, other) in [(one, two), (two, one)] {
        let number = seat.number();
        assert!(rt; is_part(log, number, seat.list()), "its own list");
        assert!(rt; !is_part(log, number, other.list()), "that of the other");
    }
}

// A log without its last entry, or with another reply in it, does not agree with the lists.
fn other_logs_differ<N: Opening>(rt: &impl Abort, log: &mut Vec<Entry>, seats: &[Seat<N>]) {
    log.pop();
    assert!(rt; !agrees(log, 2, seats), "a log without its last entry");
    let other = Entry {
        seat: 0,
        event: Event::Abort,
        reply: Reply::Done(Err(Fault::Idle)),
    };
    log.push(other).expect(rt, "memory");
    assert!(rt; !agrees(log, 2, seats), "another reply, as many entries");
}

// The seats of a closed desk were in another order; in order, their lists are compared with logs.
fn is_out_of_order<N: Opening>(rt: &impl Abort, closed: &mut Closed<N>) {
    assert!(rt; !closed.agree, "the seats are in another order");
    closed.seats.reverse();
    agrees_with_two(rt, &closed.log, &closed.seats);
    other_logs_differ(rt, &mut closed.log, &closed.seats);
}

// The seats are handed back in another order.
fn exchanged<N: Opening, R: Wait + Abort>(rt: &R, alloc: Global, state: StoreState)
    requires state { state ≡ opening_at N.states 0 }
{
    let (desk, mut seats) = used_desk::<N, R>(rt, alloc, state, &TWO_OFFERS);
    seats.reverse();
    is_out_of_order(rt, &mut desk.close(seats));
}

#[test]
fn a_log_beside_other_lists_does_not_agree(rt: HostRuntime) {
    let state = store_with(&rt, rt.alloc(), Kind::Circular, 0);
    exchanged::<Brand, HostRuntime>(&rt, rt.alloc(), state);
}

// Two seats draw from a window of three blocks.
fn draws<W: Passing, R: Wait + Abort>(rt: &R, book: &PassBook<W>, seats: &mut [PassSeat<W>]) {
    let [one, other] = seats else {
        panic!(rt; "two seats");
    };
    let full = WindowFull { left: 1 };
    assert!(rt; book.draw(rt, one, 2).is_ok(), "two of three blocks");
    assert!(rt; book.draw(rt, other, 2) == Err(full), "more than is left");
    assert!(rt; book.draw(rt, other, 1).is_ok(), "what is left");
    assert!(rt;
        (one.drawn(), other.drawn()) == (2, 1),
        "the totals of the seats"
    );
}

// A pass book of three blocks and two seats, opened, drawn from and closed: how much was drawn.
fn draw_three<W: Passing, R: Wait + Abort>(rt: &R, alloc: Global, blank: Blank) -> u64
    requires book { IsPassBook blank 3 2 W.name W.parts W.window }
{
    let (book, mut seats) = PassBook::<W>::open(alloc, blank, 3, 2).expect(rt, "memory");
    draws(rt, &book, &mut seats);
    book.close(seats)
}

#[test]
fn two_seats_one_pass_book(rt: HostRuntime) {
    let alloc = rt.alloc();
    let drawn = draw_three::<Brand, HostRuntime>(&rt, alloc, Blank::new(2));
    assert!(rt; drawn == 3, "the sum of the draws");
    let full = WindowFull { left: 1 };
    is_told(&rt, alloc, full, 22, "22 WindowFull left 1");
}
