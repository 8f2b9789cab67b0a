//! Identifiers, packets and requests from octets.
ghost use Rattle.std.specs.Prelude.{◌≡◌, ◌≢◌, ◌≤◌, length, Ok, Err, MatchResult, IfOk, IfErr};
ghost use Rattle.mm_base.specs.Reading.{Gives};
ghost use Rattle.mm_packet.specs.Spelling.{spelling};
ghost use Rattle.mm_packet.specs.declared.block.TheConstants.{BLOCK};
ghost use Rattle.mm_st15.specs.Request.{IsRequest, SpellsRequest};
ghost use Rattle.mm_service.specs.declared.fault.Fault.TheVariants.{NoMemory};
ghost use Rattle.mm_service.specs.Reading.{id_tested, missing, block_of, request_of};

use crate::fault::Fault;
use mm_ask::{Asked, lent_alone, request_alone};
use mm_base::StoreId;
use mm_packet::LentPacket;
use std::alloc::Global;

// The identifier that a text is.
pub(crate) fn id_of(text: &[u8]) -> Result<StoreId, Fault>
    ensures { result ≡ id_tested text.now }
{
    match StoreId::of_text(text) {
        Ok(id) => Ok(id),
        Err(_) => Err(Fault::BadId),
    }
}

// Why no store has an identifier with this text.
pub(crate) fn missing(text: &[u8]) -> Fault
    ensures { result ≡ missing text.now }
{
    match id_of(text) {
        Ok(_) => Fault::NoSuchStore,
        Err(fault) => fault,
    }
}

// The packet that the octets are, where a block has room for it, read without memory.
pub(crate) fn packet_of(octets: &[u8]) -> Result<LentPacket<'_>, Fault>
    ensures exact { MatchResult result (λ packet. block_of octets.now ≡ Ok packet)
        (λ fault. block_of octets.now ≡ Err fault) }
    ensures fits { IfOk result (λ packet. length (spelling packet) ≤ BLOCK) }
    ensures no_memory { IfErr result (λ fault. fault ≢ NoMemory) }
{
    let packet = lent_alone(octets)?;
    if packet.fits_block() {
        Ok(packet)
    } else {
        Err(Fault::TooLong)
    }
}

// The request that the packet asks which the octets are.
pub(crate) fn request_of(alloc: Global, octets: &[u8]) -> Result<Asked, Fault>
    ensures asked { Gives NoMemory (λ asked. asked.packet) result (request_of octets.now) }
    ensures spelled { IfOk result (λ asked. IsRequest asked.request
        × SpellsRequest asked.packet asked.request) }
{
    let asked = request_alone(alloc, octets)?;
    Ok(asked)
}
