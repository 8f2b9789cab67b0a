//! What is asked of a store.
ghost use Rattle.std.specs.Prelude.{◌≡◌, ◌↔◌, IsTrue, IfOk};

use mm_base::NoMemory;
use mm_packet::BlockPacket;
use std::alloc::Global;

/// One event of the store machine. Times are in ticks.
#[derive(Debug, Drop)]
pub enum Event {
    /// Store this packet at this moment.
    Offer(u64, BlockPacket),
    /// Begin a retrieval from the first time to the second, both included.
    Begin(u64, u64),
    /// Give the next packet of the retrieval.
    Next,
    /// End the retrieval.
    Abort,
    /// Delete the packets up to this time, that time included.
    Delete(u64),
    /// Switch storage on.
    Enable,
    /// Switch storage off.
    Disable,
}

impl Event {
    /// Whether two events are equal. It takes no memory.
    pub fn is(&self, other: &Event) -> bool
        ensures equal { IsTrue result ↔ (self.now ≡ other.now) }
    {
        match (self, other) {
            (Event::Offer(now, packet), Event::Offer(then, second)) => {
                now == then && packet.is(second)
            }
            (Event::Begin(from, to), Event::Begin(second_from, second_to)) => {
                from == second_from && to == second_to
            }
            (Event::Delete(limit), Event::Delete(second)) => limit == second,
            (Event::Next, Event::Next)
            | (Event::Abort, Event::Abort)
            | (Event::Enable, Event::Enable)
            | (Event::Disable, Event::Disable) => true,
            _ => false,
        }
    }

    /// An event equal to this one.
    pub fn copy(&self, alloc: Global) -> Result<Event, NoMemory>
        ensures same { IfOk result (λ copy. copy ≡ self.now) }
    {
        match self {
            Event::Offer(now, packet) => Ok(Event::Offer(*now, packet.copy(alloc)?)),
            Event::Begin(from, to) => Ok(Event::Begin(*from, *to)),
            Event::Next => Ok(Event::Next),
            Event::Abort => Ok(Event::Abort),
            Event::Delete(limit) => Ok(Event::Delete(*limit)),
            Event::Enable => Ok(Event::Enable),
            Event::Disable => Ok(Event::Disable),
        }
    }
}
