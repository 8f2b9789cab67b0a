//! The reports that wait, given one by one.
ghost use Rattle.std.specs.Prelude.{◌≡◌, IfOk, OnErr};

use crate::answers::INSTRUCTIONS;
use crate::service::Service;
use crate::waiting::Waiting;
use mm_base::NoMemory;
use std::alloc::Global;
use std::collections::VecDeque;

/// What became of a call for the next report.
#[derive(Clone, Copy, Debug, PartialEq, Eq)]
pub enum Reported {
    /// Its packet has this many octets, and they are at the head of the buffer. It waits no more.
    Written(usize),
    /// Its packet has this many octets, and the buffer has no room for them. It still waits.
    TooSmall(usize),
    /// No report waits.
    End,
}

// Frees the room of reports that were given: where none waits, and there is more than the reports of two requests take.
fn give_back(alloc: Global, waiting: &mut VecDeque<Waiting>)
    ensures same { waiting.new.items ≡ waiting.old.items }
{
    if waiting.is_empty() && waiting.capacity() > 2 * INSTRUCTIONS {
        *waiting = VecDeque::new(alloc);
    }
}

impl Service {
    ghost use Rattle.mm_service.specs.Reporting.{Reports};

    /// Gives the report that waits longest: the octets of its packet at the head of a buffer. Where they do not fit,
    /// and where memory runs out, it still waits, and nothing has changed.
    pub fn report(&mut self, alloc: Global, out: &mut [u8]) -> Result<Reported, NoMemory>
        ensures reports { IfOk result (λ told. Reports self.old.waiting told self.old self.new out.old out.new) }
        ensures err { OnErr result (self.new ≡ self.old) }
        ensures left { OnErr result (out.new ≡ out.old) }
    {
        let Some(first) = self.waiting.front() else {
            return Ok(Reported::End);
        };
        let packet = first.packet(alloc)?;
        match packet.write_to(out) {
            Ok(len) => {
                let _given = self.waiting.pop_front();
                give_back(alloc, &mut self.waiting);
                Ok(Reported::Written(len))
            }
            Err(small) => Ok(Reported::TooSmall(small.len)),
        }
    }
}
