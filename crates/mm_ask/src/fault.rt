//! Why a line is no request.

use mm_base::{Refusal, Refused, refusals};
use thiserror::Error;

/// Why a line is no request. It is printed as its number, a space and its name.
#[derive(Clone, Copy, Debug, PartialEq, Eq, Error)]
#[error("{}", self.refusal())]
pub enum LineFault {
    /// An allocation was refused.
    NoMemory,
    /// The line has a character that is no hexadecimal digit, an odd number of digits, or octets after its packet.
    HexLine,
    /// A refusal of the packet other than out of memory.
    Packet(mm_packet::Fault),
    /// A refusal of the request other than out of memory.
    Request(mm_st15::Fault),
}

impl Refused for LineFault {
    fn refusal(self) -> Refusal {
        refusals!(self; NoMemory, HexLine; below Packet, Request)
    }

    ghost use Rattle.mm_ask.specs.Fault.{refusal_of};

    ghost refusal_of = { refusal_of };
}
