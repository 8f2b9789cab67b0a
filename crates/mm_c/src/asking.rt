//! Requests to the storage service, answered in one go; and packets in words.
ghost use Rattle.std.specs.Prelude.{◌≡◌};
ghost use Rattle.mm_told.specs.Telling.{Tells};
ghost use Rattle.mm_c.specs.Telling.{code_of_outcome, Replies, LeavesUnasked, IsInWords, LeavesUnread};

use mm_ask::{Outcome, ask_bytes, read_bytes};
use mm_told::{Answer, Reason, tell_text};
use std::alloc::Global;

// The code of an outcome. 0 stands for no outcome.
fn code_of_outcome(outcome: Outcome) -> u32
    ensures { result ≡ code_of_outcome outcome }
{
    match outcome {
        Outcome::AllDone => 1,
        Outcome::SomeRefused => 2,
    }
}

/// The lines that answer requests to the memory of a setup, as `ask_bytes` of `mm_ask` gives them; and in `outcome` 1
/// where all was done that they asked, 2 where something was refused, and 0 where the call is refused.
#[unsafe(no_mangle)]
pub extern "C" fn rudlayog_ask(
    alloc: Global,
    setup: &[u8],
    requests: &[u8],
    out: &mut [u8],
    outcome: &mut u32,
    answer: &mut Answer,
)
    ensures told { Tells (Replies setup.now requests.now outcome.new) (LeavesUnasked setup.now outcome.new)
        out.old out.new answer.new }
{
    match ask_bytes(alloc, setup, requests) {
        Ok(replies) => {
            *outcome = code_of_outcome(replies.outcome);
            *answer = tell_text(&replies.text, out);
        }
        Err(fault) => {
            *outcome = 0;
            *answer = Answer::refused(Reason::of_setup(fault));
        }
    }
}

/// What the packets of a text are, in words, as `read_bytes` of `mm_ask` says it; and in `outcome` 1 where no line was
/// refused, 2 where one was, and 0 where the call is refused, out of memory.
#[unsafe(no_mangle)]
pub extern "C" fn rudlayog_read(
    alloc: Global,
    packets: &[u8],
    out: &mut [u8],
    outcome: &mut u32,
    answer: &mut Answer,
)
    ensures told { Tells (IsInWords packets.now outcome.new) (LeavesUnread outcome.new) out.old out.new answer.new }
{
    match read_bytes(alloc, packets) {
        Ok(replies) => {
            *outcome = code_of_outcome(replies.outcome);
            *answer = tell_text(&replies.text, out);
        }
        Err(_) => {
            *outcome = 0;
            *answer = Answer::refused(Reason::no_memory());
        }
    }
}
