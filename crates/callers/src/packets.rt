//! A packet that is written and read again.
ghost use Rattle.std.specs.Prelude.{◌≡◌, IfOk, IfErr};

use mm_packet::{Fault, Packet};
use std::alloc::Global;

/// The packet, written as octets and read from them.
pub fn again(alloc: Global, packet: &Packet) -> Result<Packet, Fault>
    ensures same { IfOk result (λ read. read ≡ packet.now) }
    ensures memory { IfErr result (λ fault. fault ≡ Fault.NoMemory) }
{
    let octets = packet.write(alloc).map_err(|_| Fault::NoMemory)?;
    let (read, _rest) = Packet::parse(alloc, &octets)?;
    Ok(read)
}
