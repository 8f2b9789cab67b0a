//! The lines that are printed.
ghost use Rattle.std.specs.Prelude.{◌≡◌, [], ◌∷◌, ◌++◌, OnOk};
ghost use Rattle.mm_base.specs.Characters.{line_feed};
ghost use Rattle.mm_ask.specs.Text.{refused_text, answer_text, refused_line, answer_lines, report_line, place_text};

use crate::fault::LineFault;
use mm_base::numbers::push_number;
use mm_base::{Refusal, Refused};
use mm_memory::Answer;
use std::alloc::{AllocError, Global};

/// Whether there was memory for what the text needs.
pub(crate) type Pushed = Result<(), AllocError>;

/// Ends a line.
pub(crate) fn end_line(text: &mut Vec<u8>) -> Pushed
    ensures { OnOk result (text.new.items ≡ text.old.items ++ line_feed ∷ []) }
{
    text.push(b'\n')?;
    Ok(())
}

#[tactic(auto, using(std::proofs::Common::append_assoc))]
fn push_refused(text: &mut Vec<u8>, refusal: Refusal) -> Pushed
    ensures { OnOk result (text.new.items ≡ text.old.items ++ refused_text refusal) }
{
    text.extend_from_slice(b" refused ")?;
    push_number(text, u64::from(refusal.number()))?;
    text.push(b' ')?;
    text.extend_from_slice(refusal.name().as_bytes())?;
    end_line(text)
}

fn push_answer(text: &mut Vec<u8>, answer: Answer) -> Pushed
    ensures { OnOk result (text.new.items ≡ text.old.items ++ answer_text answer) }
{
    match answer {
        Answer::Done => text.extend_from_slice(b" done\n"),
        Answer::Refused(fault) => push_refused(text, fault.refusal()),
    }
}

/// The line on a request that is refused whole.
#[tactic(auto, using(std::proofs::Common::append_assoc))]
pub(crate) fn push_refused_line(text: &mut Vec<u8>, line: u64, fault: LineFault) -> Pushed
    ensures { OnOk result (text.new.items ≡ text.old.items ++ refused_line line fault) }
{
    push_number(text, line)?;
    push_refused(text, fault.refusal())
}

/// Begins the line on an instruction with its place in the request.
#[tactic(auto, using(std::proofs::Common::append_assoc))]
pub(crate) fn push_place(text: &mut Vec<u8>, line: u64, place: u64) -> Pushed
    ensures { OnOk result (text.new.items ≡ text.old.items ++ place_text line place) }
{
    push_number(text, line)?;
    text.extend_from_slice(b".")?;
    push_number(text, place)
}

/// The lines on the instructions of a request, whose places count from 1.
#[tactic(auto, using(std::proofs::Common::append_assoc))]
pub(crate) fn push_answer_lines(text: &mut Vec<u8>, line: u64, answers: &[Answer]) -> Pushed
    ensures { OnOk result (text.new.items ≡ text.old.items ++ answer_lines line 1 answers.now) }
{
    let mut rest = answers;
    let mut place: u64 = 1;
    while let [answer, after @ ..] = rest {
        push_place(text, line, place)?;
        push_answer(text, *answer)?;
        rest = after;
        place += 1;
    }
    Ok(())
}

/// The line on a report, which has these octets.
#[tactic(auto, using(std::proofs::Common::append_assoc))]
pub(crate) fn push_report_line(
    alloc: Global,
    text: &mut Vec<u8>,
    line: u64,
    octets: &[u8],
) -> Pushed
    ensures { OnOk result (text.new.items ≡ text.old.items ++ report_line line octets.now) }
{
    let digits = hex::encode_upper(alloc, octets)?;
    push_number(text, line)?;
    text.extend_from_slice(b" report ")?;
    text.extend_from_slice(digits.as_bytes())?;
    end_line(text)
}
