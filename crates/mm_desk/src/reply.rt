//! What a store answers.
ghost use Rattle.std.specs.Prelude.{◌≡◌, ◌≤◌, ◌↔◌, IsTrue};
ghost use Rattle.mm_store.specs.Laws.{handed_back};
ghost use Rattle.mm_desk.specs.Machine.{answer_of};

use crate::fault::Fault;
use mm_packet::BlockPacket;
use mm_store::{Put, Stored};

/// What became of a packet that was offered and not refused.
#[derive(Debug, Drop)]
pub enum Offered {
    /// It is kept, with this storage time in ticks.
    Kept(u64),
    /// It is kept, with this storage time, and the oldest packet of the full circular store is lost and handed back.
    KeptOver(u64, BlockPacket),
    /// It is lost and handed back, since the bounded store is full.
    Lost(BlockPacket),
}

/// A packet that was refused, handed back.
#[derive(Debug, Drop)]
pub struct Returned {
    pub fault: Fault,
    pub packet: BlockPacket,
}

/// One reply of the store machine, by the event that it answers.
#[derive(Debug, Drop)]
pub enum Reply {
    /// To an offer.
    Offered(Result<Offered, Returned>),
    /// To a begin, an abort, or a change of the storage switch.
    Done(Result<(), Fault>),
    /// To a next: the packet with its storage time, or nothing at the end of the retrieval.
    Given(Result<Option<Stored>, Fault>),
    /// To a deletion: how many packets are deleted.
    Deleted(Result<u32, Fault>),
}

impl Offered {
    /// Whether two answers are equal. It takes no memory.
    pub fn is(&self, other: &Offered) -> bool
        ensures equal { IsTrue result ↔ (self.now ≡ other.now) }
    {
        match (self, other) {
            (Offered::Kept(time), Offered::Kept(second)) => time == second,
            (Offered::KeptOver(time, oldest), Offered::KeptOver(second, other_oldest)) => {
                time == second && oldest.is(other_oldest)
            }
            (Offered::Lost(packet), Offered::Lost(second)) => packet.is(second),
            _ => false,
        }
    }
}

impl Returned {
    /// Whether two refusals are equal, with the packets handed back. It takes no memory.
    pub fn is(&self, other: &Returned) -> bool
        ensures equal { IsTrue result ↔ (self.now ≡ other.now) }
    {
        self.fault == other.fault && self.packet.is(&other.packet)
    }
}

impl Reply {
    /// Whether two replies are equal. It takes no memory.
    pub fn is(&self, other: &Reply) -> bool
        ensures equal { IsTrue result ↔ (self.now ≡ other.now) }
    {
        match (self, other) {
            (Reply::Offered(Ok(answer)), Reply::Offered(Ok(second))) => answer.is(second),
            (Reply::Offered(Err(back)), Reply::Offered(Err(second))) => back.is(second),
            (Reply::Done(answer), Reply::Done(second)) => answer == second,
            (Reply::Given(Ok(Some(stored))), Reply::Given(Ok(Some(second)))) => stored.is(second),
            (Reply::Given(Ok(None)), Reply::Given(Ok(None))) => true,
            (Reply::Given(Err(fault)), Reply::Given(Err(second))) => fault == second,
            (Reply::Deleted(answer), Reply::Deleted(second)) => answer == second,
            _ => false,
        }
    }
}

// How many packets a put hands back.
pub(crate) fn handed_back(done: &Put) -> u64
    ensures count { result ≡ handed_back done.now }
    ensures at_most_one { result ≤ 1 }
{
    match done {
        Put::Kept(_) => 0,
        Put::KeptOver(_, _) => 1,
        Put::Lost(_) => 1,
        Put::ClockEnd(_) => 1,
    }
}

// The answer to an offer, by what the store did with the packet.
pub(crate) fn answer_of(done: Put) -> Result<Offered, Returned>
    ensures answer { result ≡ answer_of done }
{
    match done {
        Put::Kept(time) => Ok(Offered::Kept(time)),
        Put::KeptOver(time, oldest) => Ok(Offered::KeptOver(time, oldest)),
        Put::Lost(packet) => Ok(Offered::Lost(packet)),
        Put::ClockEnd(packet) => Err(Returned {
            fault: Fault::ClockEnd,
            packet,
        }),
    }
}
