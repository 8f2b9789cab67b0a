//! What is answered to a call with a buffer for a text.
ghost use Rattle.std.specs.Prelude.{◌≡◌, ◌≤◌, ◌++◌, length, drop};
ghost use Rattle.mm_told.specs.Telling.{text_answer, length_answer, refused_answer, put, code_of_status};

use crate::reason::Reason;
use crate::refused_at::RefusedAt;

/// How a call ended.
#[derive(Clone, Copy)]
pub enum Status {
    /// The text is in the buffer.
    Written,
    /// The buffer is too small for the text, and is as it was.
    TooSmall,
    /// The call is refused, and the buffer is as it was.
    Refused,
    /// The handle is closed, and nothing is done.
    Closed,
    /// The handle is open already, and nothing is done.
    Open,
    /// There is nothing more to be given, and the buffer is as it was.
    End,
}

impl Status {
    /// The code of the status.
    #[must_use]
    pub fn code(self) -> u32
        ensures { result ≡ code_of_status self }
    {
        self as u32
    }
}

/// The answer to a call with a buffer for a text.
#[repr(C)]
#[derive(Clone, Copy)]
pub struct Answer {
    /// The code of a `Status`.
    pub status: u32,
    /// Why the call is refused; each field is 0 where it is not.
    pub refused: RefusedAt,
    /// The length of the text in octets, also where the buffer is too small for it; 0 where there is none.
    pub length: usize,
}

impl Answer {
    /// The answer that a call is refused.
    #[must_use]
    pub fn refused(reason: Reason) -> Answer
        ensures { result ≡ refused_answer reason }
    {
        Answer {
            status: Status::Refused.code(),
            refused: RefusedAt::of(reason),
            length: 0,
        }
    }

    /// The answer with a text of this length.
    #[must_use]
    pub fn with_length(status: Status, length: usize) -> Answer
        ensures { result ≡ length_answer status length }
    {
        Answer {
            status: status.code(),
            refused: RefusedAt::nothing(),
            length,
        }
    }
}

// Writes a text at the head of a buffer.
fn write_text(text: &[u8], out: &mut [u8])
    requires { length text.now ≤ length out.old }
    ensures { out.new ≡ text.now ++ drop (length text.now) out.old }
{
    out[..text.len()].copy_from_slice(text);
}

/// Writes a text into a buffer, if there is room for all of it, and gives the answer to the call.
#[must_use]
pub fn tell_text(text: &[u8], out: &mut [u8]) -> Answer
    ensures answered { result ≡ text_answer text.now (length out.old) }
    ensures written { out.new ≡ put text.now out.old }
{
    if text.len() <= out.len() {
        write_text(text, out);
        Answer::with_length(Status::Written, text.len())
    } else {
        Answer::with_length(Status::TooSmall, text.len())
    }
}
