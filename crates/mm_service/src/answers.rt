//! The answers to instructions, as octets.
ghost use Rattle.std.specs.Prelude.{◌≡◌, ◌≤◌, map, length};
ghost use Rattle.mm_service.specs.Answering.{code_of_answer};
ghost use Rattle.mm_packet.specs.Buffer.{over};

use mm_base::Refused;
use mm_memory::Answer;

/// The code of an instruction that is carried out. Any other code is the number of a refusal.
pub const DONE: u8 = 255;

/// The most instructions of a request.
pub const INSTRUCTIONS: usize = 255;

// The code of an answer.
fn code_of_answer(answer: Answer) -> u8
    ensures { result ≡ code_of_answer answer }
{
    match answer {
        Answer::Done => DONE,
        Answer::Refused(fault) => fault.number(),
    }
}

// Writes the codes of answers at the head of a buffer.
pub(crate) fn tell_answers(answers: &[Answer], out: &mut [u8])
    requires { length answers.now ≤ length out.old }
    ensures { out.new ≡ over (map code_of_answer answers.now) out.old }
{
    for (index, answer) in answers.iter().enumerate() {
        out[index] = code_of_answer(*answer);
    }
}
