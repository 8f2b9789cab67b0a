//! From the bytes of a setup and of requests to the text that answers them.
ghost use Rattle.std.specs.Prelude.{IfOk, IfErr};
ghost use Rattle.mm_ask.specs.Answering.{opened};
ghost use Rattle.mm_ask.specs.Asking.{Answers, Converses, IsSetupFault};
ghost use Rattle.mm_base.specs.Lines.{text_lines};
ghost use Rattle.mm_memory.specs.Holdings.{memory_of};

use crate::answering::Conversation;
use crate::lines::take_lines;
use crate::refusals::Replies;
use mm_base::NoMemory;
use mm_memory::Memory;
use mm_problem::{Fault, Setup};
use std::alloc::Global;

// The conversation that the requests have with the memory of the setup.
fn conversation_of(alloc: Global, setup: &Setup, requests: &[u8]) -> Result<Conversation, NoMemory>
    ensures { IfOk result (Converses 1 (text_lines requests.now) (opened (memory_of setup.now))) }
{
    let memory = Memory::of_setup(alloc, setup)?;
    let mut conversation = Conversation::new(alloc, memory);
    take_lines(alloc, &mut conversation, requests)?;
    Ok(conversation)
}

/// The text that answers the requests, one a line, to the memory of the setup; whether all was
/// done that they asked, and what was refused. The moment of a request is its line's number.
/// Otherwise the fault of the setup, or out of memory.
pub fn ask_bytes(alloc: Global, setup: &[u8], requests: &[u8]) -> Result<Replies, Fault>
    ensures answers { IfOk result (λ a. Answers setup.now requests.now a.outcome a.text.items) }
    ensures refused { IfErr result (IsSetupFault setup.now) }
{
    let setup = Setup::read(alloc, setup)?;
    match conversation_of(alloc, &setup, requests) {
        Ok(conversation) => Ok(conversation.into_replies()),
        Err(NoMemory) => Err(Fault::NoMemory),
    }
}
