//! A store under a lock, with its log.
ghost use Rattle.std.specs.Prelude.{◌≡◌, ◌≤◌, IsTrue, IfOk, IfErr, OnErr, Ok, Err};
ghost use Rattle.mm_desk.specs.Answers.{Answers, IsDone};
ghost use Rattle.mm_desk.specs.Machine.{IsState};
ghost use Rattle.mm_desk.specs.Runs.{IsRun, opening_at};
ghost use Rattle.mm_desk.specs.Seats.{desk_view, AreNew, AreInOrder, Tells, lacking, lists_of, with_call};
ghost use Rattle.mm_desk.specs.Shuffles.{IsShuffle};

use crate::agree::agrees;
use crate::entry::Entry;
use crate::event::Event;
use crate::fault::Fault;
use crate::locked_store::LockedStore;
use crate::opening::Opening;
use crate::reply::{Offered, Reply, Returned};
use crate::seat::{Seat, new_seats};
use crate::state::StoreState;
use mm_base::NoMemory;
use mm_packet::BlockPacket;
use mm_store::Stored;
use std::alloc::Global;
use std::marker::{Model, PhantomData};
use std::sync::{Mutex, Wait};

/// The most seats of a desk or a pass book.
pub const MAX_SEATS: u32 = 16;

/// A store under a lock, with the log of the calls made on it. Contracts see its place among the desks of its name, and
/// how many seats it has.
#[derive(Drop)]
pub struct Desk<N: Opening> {
    place: u32,
    seats: u32,
    locked: Mutex<LockedStore<N>>,
}

impl<N: Opening> Model for Desk<N> {
    ghost use Rattle.mm_desk.specs.Seats.{DeskView};

    ghost Value = { DeskView };

    ghost view = { λ d. record { place = d.place; seats = d.seats } };
}

/// What was under a desk's lock: its place, the state of the store, and the log.
#[derive(Drop)]
pub struct Parts {
    pub place: u32,
    pub state: StoreState,
    pub log: Vec<Entry>,
}

/// A desk that was closed: the state of the store, the log, the seats handed back, and whether the log is a shuffle of
/// the seats' lists.
#[derive(Drop)]
pub struct Closed<N: Opening> {
    pub state: StoreState,
    pub log: Vec<Entry>,
    pub seats: Vec<Seat<N>>,
    pub agree: bool,
}

// What a call was answered, in a reply of this case; the event comes back where there was no memory.
macro_rules! answered {
    ($case:ident, $called:expr) => {
        match $called {
            Ok(Reply::$case(answer)) => answer,
            Err(_) => Err(Fault::NoMemory),
            _ => unreachable!(),
        }
    };
}

impl<N: Opening> Desk<N> {
    /// A desk with an empty log, at this place and with this many seats. It takes no memory.
    pub fn new(alloc: Global, state: StoreState, place: u32, seats: u32) -> Desk<N>
        requires state { state ≡ opening_at N.states place }
        ensures desk { result ≡ desk_view place seats }
    {
        let log = Vec::new(alloc);
        let locked = Mutex::new(LockedStore {
            place,
            state,
            log,
            of: PhantomData,
        });
        Desk {
            place,
            seats,
            locked,
        }
    }

    /// A desk with an empty log, and its seats. Where there is no memory the state comes back.
    pub fn open(
        alloc: Global,
        state: StoreState,
        place: u32,
        seats: u32,
    ) -> Result<(Desk<N>, Vec<Seat<N>>), (StoreState, NoMemory)>
        requires lowest { 1 ≤ seats }
        requires highest { seats ≤ MAX_SEATS }
        requires state { state ≡ opening_at N.states place }
        ensures desk { IfOk result (λ opened. opened.0 ≡ desk_view place seats) }
        ensures seats { IfOk result (λ opened. AreNew place seats opened.1.items) }
        ensures back { IfErr result (λ refused. refused.0 ≡ state) }
    {
        match new_seats(alloc, place, seats) {
            Ok(list) => Ok((Desk::new(alloc, state, place, seats), list)),
            Err(lack) => Err((state, lack)),
        }
    }

    /// The place among the desks of its name.
    pub fn place(&self) -> u32
        ensures place { result ≡ self.now.place }
    {
        self.place
    }

    /// Takes the lock away. It takes no memory.
    pub fn into_parts(self) -> Parts
        ensures run { IsRun (opening_at N.states result.place) result.log.items result.state }
        ensures sound { IsState result.state }
    {
        let LockedStore {
            place,
            state,
            log,
            of: _,
        } = self.locked.into_inner();
        Parts { place, state, log }
    }

    /// Closes the desk, and compares its log with the seats' lists. It takes no memory.
    pub fn close(self, seats: Vec<Seat<N>>) -> Closed<N>
        ensures seats { result.seats ≡ seats }
        ensures sound { IsState result.state }
        ensures run { IsTrue result.agree → IsRun (opening_at N.states self.place) result.log.items result.state }
        ensures shuffle { IsTrue result.agree → IsShuffle (lists_of seats.items) result.log.items }
        ensures in_order { IsTrue result.agree → AreInOrder self.seats seats.items }
    {
        let place = self.place;
        let opened = self.seats;
        let parts = self.into_parts();
        let agree = parts.place == place && agrees(&parts.log, opened, &seats);
        Closed {
            state: parts.state,
            log: parts.log,
            seats,
            agree,
        }
    }

    // Makes the event's call through a seat. Every allocation and every copy comes first: where there is no memory the
    // event comes back.
    fn call<R: Wait>(
        &self,
        rt: &R,
        alloc: Global,
        event: Event,
        seat: &mut Seat<N>,
    ) -> Result<Reply, Event>
        ensures called { IfOk result (λ reply. seat.new ≡ with_call seat.old event reply) }
        ensures answers { IfOk result (λ reply. Answers event reply) }
        ensures back { IfErr result (λ back. back ≡ event) }
        ensures err { OnErr result (seat.new ≡ seat.old) }
    {
        if seat.list.reserve(1).is_err() {
            return Err(event);
        }
        let (Ok(logged), Ok(listed)) = (event.copy(alloc), event.copy(alloc)) else {
            return Err(event);
        };
        let number = seat.number();
        let (reply, told) = self.locked.lock(rt).call(alloc, number, event, logged)?;
        seat.list.push_reserved(Entry {
            seat: number,
            event: listed,
            reply: told,
        });
        Ok(reply)
    }

    // Makes a call that is answered only whether it is done.
    fn call_done<R: Wait>(
        &self,
        rt: &R,
        alloc: Global,
        event: Event,
        seat: &mut Seat<N>,
    ) -> Result<(), Fault>
        requires answers { (reply : Reply) → Answers event reply → IsDone reply }
        requires lacking { lacking event ≡ Reply.Done (Err Fault.NoMemory) }
        ensures tells { Tells seat.old event (Reply.Done result) seat.new }
    {
        answered!(Done, self.call(rt, alloc, event, seat))
    }

    /// Offers a packet at a moment, in ticks. It is handed back where it is refused.
    pub fn offer<R: Wait>(
        &self,
        rt: &R,
        alloc: Global,
        seat: &mut Seat<N>,
        now: u64,
        packet: BlockPacket,
    ) -> Result<Offered, Returned>
        ensures tells { Tells seat.old (Event.Offer now packet) (Reply.Offered result) seat.new }
        ensures back { IfErr result (λ back. back.packet ≡ packet) }
    {
        match self.call(rt, alloc, Event::Offer(now, packet), seat) {
            Ok(Reply::Offered(answer)) => answer,
            Err(Event::Offer(_, packet)) => Err(Returned {
                fault: Fault::NoMemory,
                packet,
            }),
            _ => unreachable!(),
        }
    }

    /// Begins a retrieval from a first to a last time, both included.
    pub fn begin<R: Wait>(
        &self,
        rt: &R,
        alloc: Global,
        seat: &mut Seat<N>,
        from: u64,
        to: u64,
    ) -> Result<(), Fault>
        ensures tells { Tells seat.old (Event.Begin from to) (Reply.Done result) seat.new }
    {
        self.call_done(rt, alloc, Event::Begin(from, to), seat)
    }

    /// Gives a copy of the next packet of the retrieval with its storage time; nothing at its end, where it is over.
    pub fn next<R: Wait>(
        &self,
        rt: &R,
        alloc: Global,
        seat: &mut Seat<N>,
    ) -> Result<Option<Stored>, Fault>
        ensures tells { Tells seat.old Event.Next (Reply.Given result) seat.new }
    {
        answered!(Given, self.call(rt, alloc, Event::Next, seat))
    }

    /// Ends the retrieval.
    pub fn abort<R: Wait>(&self, rt: &R, alloc: Global, seat: &mut Seat<N>) -> Result<(), Fault>
        ensures tells { Tells seat.old Event.Abort (Reply.Done result) seat.new }
    {
        self.call_done(rt, alloc, Event::Abort, seat)
    }

    /// Deletes the packets up to a time, that time included, and returns their number.
    pub fn delete<R: Wait>(
        &self,
        rt: &R,
        alloc: Global,
        seat: &mut Seat<N>,
        limit: u64,
    ) -> Result<u32, Fault>
        ensures tells { Tells seat.old (Event.Delete limit) (Reply.Deleted result) seat.new }
    {
        answered!(Deleted, self.call(rt, alloc, Event::Delete(limit), seat))
    }

    /// Switches storage on.
    pub fn enable<R: Wait>(&self, rt: &R, alloc: Global, seat: &mut Seat<N>) -> Result<(), Fault>
        ensures tells { Tells seat.old Event.Enable (Reply.Done result) seat.new }
    {
        self.call_done(rt, alloc, Event::Enable, seat)
    }

    /// Switches storage off. A retrieval goes on.
    pub fn disable<R: Wait>(&self, rt: &R, alloc: Global, seat: &mut Seat<N>) -> Result<(), Fault>
        ensures tells { Tells seat.old Event.Disable (Reply.Done result) seat.new }
    {
        self.call_done(rt, alloc, Event::Disable, seat)
    }
}
