//! One reply told three times: to the caller, to the log and to the seat's list.
ghost use Rattle.std.specs.Prelude.{◌≡◌, ◌<◌, ◌-◌, ◌^◌, IfOk, IfErr, OnErr};
ghost use Rattle.mm_store.specs.Content.{put};
ghost use Rattle.mm_desk.specs.Machine.{answer_of, offer, step};

use crate::event::Event;
use crate::fault::Fault;
use crate::reply::{Offered, Reply, Returned};
use crate::state::StoreState;
use mm_base::{Kind, NoMemory};
use mm_packet::BlockPacket;
use mm_store::{AnyStore, PacketStore, Stored};
use std::alloc::Global;

// Three equal replies.
#[derive(Drop)]
pub(crate) struct ReplyCopies {
    pub(crate) answer: Reply,
    pub(crate) logged: Reply,
    pub(crate) listed: Reply,
    ghost same: { (logged ≡ answer) × (listed ≡ answer) },
}

// One answer as three replies of this case: a call's, or one that is made three times.
macro_rules! copies {
    ($case:ident of $called:expr) => {{
        let answer = $called;
        copies!($case, answer)
    }};
    ($case:ident, $answer:expr) => {
        ReplyCopies {
            answer: Reply::$case($answer),
            logged: Reply::$case($answer),
            listed: Reply::$case($answer),
        }
    };
}

// The reply that gives this packet, with its time.
fn given_reply(time: u64, packet: BlockPacket) -> Reply
    ensures given { result ≡ Reply.Given (Ok (Some (record { time = time; packet = packet }))) }
{
    Reply::Given(Ok(Some(Stored { time, packet })))
}

// Copies of a packet that was found, with its time.
fn given(alloc: Global, time: u64, packet: &BlockPacket) -> Result<ReplyCopies, NoMemory>
    ensures given { IfOk result (λ c.
        c.answer ≡ Reply.Given (Ok (Some (record { time = time; packet = packet.now })))) }
{
    let answer = packet.copy(alloc)?;
    let logged = packet.copy(alloc)?;
    let listed = packet.copy(alloc)?;
    Ok(ReplyCopies {
        answer: given_reply(time, answer),
        logged: given_reply(time, logged),
        listed: given_reply(time, listed),
    })
}

// What a put before the end of the clock would be answered.
#[tactic(auto, using(crate::proofs::Foreseeing::put_over))]
fn foresee_put(
    store: &AnyStore,
    alloc: Global,
    now: u64,
    packet: &BlockPacket,
) -> Result<Offered, NoMemory>
    requires early { store.now.last < 2 ^ 64 - 1 }
    ensures foreseen { IfOk result (λ offered. answer_of (put store.now now packet.now).0 ≡ Ok offered) }
{
    let time = now.max(store.last_time() + 1);
    if store.len() < store.size() {
        return Ok(Offered::Kept(time));
    }
    match store.kind() {
        Kind::Circular => match store.first_in(0, u64::MAX, 0) {
            Some((_, oldest)) => Ok(Offered::KeptOver(time, oldest.copy(alloc)?)),
            None => Ok(Offered::Lost(packet.copy(alloc)?)),
        },
        Kind::Bounded => Ok(Offered::Lost(packet.copy(alloc)?)),
    }
}

impl StoreState {
    // What an offer would be answered.
    fn foresee_offer(
        &self,
        alloc: Global,
        now: u64,
        packet: &BlockPacket,
    ) -> Result<Result<Offered, Returned>, NoMemory>
        ensures foreseen { IfOk result (λ r. r ≡ (offer self.now now packet.now).0) }
    {
        let fault = if !self.storage {
            Fault::Disabled
        } else if self.store.last_time() == u64::MAX || self.offered == u64::MAX {
            Fault::ClockEnd
        } else {
            return Ok(Ok(foresee_put(&self.store, alloc, now, packet)?));
        };
        let packet = packet.copy(alloc)?;
        Ok(Err(Returned { fault, packet }))
    }

    fn tell_offer(
        &mut self,
        alloc: Global,
        now: u64,
        packet: BlockPacket,
    ) -> Result<ReplyCopies, Event>
        ensures answer { IfOk result (λ c. step self.old (Event.Offer now packet) ≡ (c.answer, self.new)) }
        ensures back { IfErr result (λ back. back ≡ Event.Offer now packet) }
        ensures err { OnErr result (self.new ≡ self.old) }
    {
        let first = self.foresee_offer(alloc, now, &packet);
        let second = self.foresee_offer(alloc, now, &packet);
        let (Ok(logged), Ok(listed)) = (first, second) else {
            return Err(Event::Offer(now, packet));
        };
        let answer = self.offer(now, packet);
        Ok(ReplyCopies {
            answer: Reply::Offered(answer),
            logged: Reply::Offered(logged),
            listed: Reply::Offered(listed),
        })
    }

    fn tell_next(&mut self, alloc: Global) -> Result<ReplyCopies, Event>
        ensures answer { IfOk result (λ c. step self.old Event.Next ≡ (c.answer, self.new)) }
        ensures back { IfErr result (λ back. back ≡ Event.Next) }
        ensures err { OnErr result (self.new ≡ self.old) }
    {
        let Some(retrieval) = &mut self.retrieval else {
            return Ok(copies!(Given, Err(Fault::Idle)));
        };
        match self.store.first_near(
            retrieval.from,
            retrieval.to,
            retrieval.after,
            &mut self.place,
        ) {
            Some((time, packet)) => {
                let Ok(copies) = given(alloc, time, packet) else {
                    return Err(Event::Next);
                };
                retrieval.after = time;
                Ok(copies)
            }
            None => {
                self.retrieval = None;
                Ok(copies!(Given, Ok(None)))
            }
        }
    }

    // Makes the event's call, and tells its reply three times. Where there is no memory the event comes back.
    pub(crate) fn apply(&mut self, alloc: Global, event: Event) -> Result<ReplyCopies, Event>
        ensures answer { IfOk result (λ c. step self.old event ≡ (c.answer, self.new)) }
        ensures back { IfErr result (λ back. back ≡ event) }
        ensures err { OnErr result (self.new ≡ self.old) }
    {
        match event {
            Event::Offer(now, packet) => self.tell_offer(alloc, now, packet),
            Event::Begin(from, to) => Ok(copies!(Done of self.begin(from, to))),
            Event::Next => self.tell_next(alloc),
            Event::Abort => Ok(copies!(Done of self.abort())),
            Event::Delete(limit) => Ok(copies!(Deleted of self.delete(limit))),
            Event::Enable => {
                self.enable();
                Ok(copies!(Done, Ok(())))
            }
            Event::Disable => {
                self.disable();
                Ok(copies!(Done, Ok(())))
            }
        }
    }
}
