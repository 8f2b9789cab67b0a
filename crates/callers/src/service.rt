//! A telecommand of the storage service, carried out by a memory.
ghost use Rattle.std.specs.Prelude.{IfOk, OnErr, ◌≡◌};
ghost use Rattle.mm_memory.specs.Applying.{AppliesEach};
ghost use Rattle.mm_memory.specs.Instruction.{instructions_of};
ghost use Rattle.mm_st15.specs.Request.{IsRequest, SpellsRequest};
ghost use Rattle.mm_st15.specs.declared.request.Request.{Request};

use mm_memory::{Answers, Memory};
use mm_packet::Packet;
use mm_st15::{Fault, Request};
use std::alloc::Global;

/// Carries out, at a moment in ticks, the request that a packet spells.
pub fn carried_out(
    alloc: Global,
    memory: &mut Memory,
    now: u64,
    packet: &Packet,
) -> Result<Answers, Fault>
    // Each instruction of the request has its answer, and has been applied or refused.
    ensures applied { IfOk result (λ answers. (request : Request) × IsRequest request
        × SpellsRequest packet.now request
        × AppliesEach (instructions_of request) memory.old answers.each.items memory.new) }
    ensures refused { OnErr result (memory.new ≡ memory.old) }
{
    let request = Request::read(alloc, packet)?;
    let Ok(answers) = memory.apply(alloc, now, &request) else {
        return Err(Fault::NoMemory);
    };
    Ok(answers)
}
