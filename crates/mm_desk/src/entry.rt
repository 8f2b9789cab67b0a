//! What a log keeps of one call.
ghost use Rattle.std.specs.Prelude.{◌≡◌, ◌↔◌, IsTrue};

use crate::event::Event;
use crate::reply::Reply;

/// One call on a desk: the number of the seat that made it, what it asked, and what it was answered.
#[derive(Debug, Drop)]
pub struct Entry {
    pub seat: u32,
    pub event: Event,
    pub reply: Reply,
}

impl Entry {
    /// Whether two entries are equal. It takes no memory.
    pub fn is(&self, other: &Entry) -> bool
        ensures equal { IsTrue result ↔ (self.now ≡ other.now) }
    {
        self.seat == other.seat && self.event.is(&other.event) && self.reply.is(&other.reply)
    }
}
